//! Playing a sample: its messages are given to a session one by one, and what that gives out is counted and let go.
ghost use Rattle.std.specs.Prelude.{◌≡◌, ◌≤◌, ◌++◌, ◌∷◌, [], ℕ, List, IfOk, OnOk};
ghost use Rattle.policy_args.specs.Policy.{Policy as PolicyValue};
ghost use Rattle.policy_args.specs.Seen.{options_seen};
ghost use Rattle.proxy_core.specs.Sessions.{is_memory as ended_for_memory};
ghost use Rattle.recording.specs.Recording.{Event, Bytes};
ghost use Rattle.recording.specs.declared.Side.TheVariants.{Client, Bus};
ghost use Rattle.sample.specs.Made.{asked_events, made_events};
ghost use Rattle.sample.specs.Playing.{Counted, Played};
ghost use Rattle.sample.specs.Sample.{opening, sample as sample_of};
ghost use Rattle.sample.specs.Summary.{counts_in, sample_history, sample_options as options_of_sample};

use crate::counts::{Counts, plus};
use crate::draws::{Draws, Made};
use crate::generator::MOST_DRAWS;
use crate::opening::{GREETED, HELLO, MATCHED, OWNED};
use policy_args::{Options, Policy, read_options};
use policy_view::{End, Mode};
use proxy_core::Session;
use std::alloc::{AllocError, Global};

/// Messages without lines in front of them, which the policy filters, with notes.
const MODE: Mode = Mode {
    auth: false,
    filter: true,
    notes: true,
};

/// A session, and what was counted of all that it gave out.
#[derive(Drop)]
pub(crate) struct Play {
    pub(crate) session: Session,
    pub(crate) counts: Counts,
}

/// The options under which a sample is played.
fn sample_options(alloc: Global) -> Result<Options, AllocError>
    ensures { IfOk result (λ options. options_seen options ≡ options_of_sample) }
{
    let words = vec![in alloc;
        String::from_str(alloc, "--filter")?,
        String::from_str(alloc, "--talk=org.sample.A")?,
    ]?;
    match read_options(alloc, &words) {
        Ok(options) => Ok(options),
        Err(_) => Err(AllocError),
    }
}

/// Whether a session ended for want of memory.
fn is_memory(ended: Option<End>) -> bool
    ensures { result ≡ ended_for_memory ended }
{
    match ended {
        Some(End::Memory) => true,
        _ => false,
    }
}

impl Play {
    /// Nothing was played yet.
    fn new(alloc: Global, policy: &Policy) -> Result<Play, AllocError>
        ensures { IfOk result (λ play. Played policy.now [] play) }
    {
        Ok(Play {
            session: Session::new(alloc, policy, MODE)?,
            counts: Counts::new(),
        })
    }

    /// Counts the notes that wait.
    fn count_notes(&mut self) -> Result<(), AllocError>
        ensures counted { (policy : PolicyValue) (events : List Event) → Counted policy events self.old → OnOk result (Counted policy events self.new) }
        ensures left { OnOk result (self.new.session ≡ record self.old.session { notes = [] }) }
    {
        while let Some(note) = self.session.next_note() {
            self.counts.add(note)?;
        }
        Ok(())
    }

    /// Counts the bytes that wait for the bus.
    fn count_bus(&mut self) -> Result<(), AllocError>
        ensures counted { (policy : PolicyValue) (events : List Event) → Counted policy events self.old → OnOk result (Counted policy events self.new) }
        ensures left { OnOk result (self.new.session ≡ record self.old.session { bus_side = [] }) }
    {
        let n = self.session.bus_waits();
        self.counts.to_bus = plus(self.counts.to_bus, n)?;
        self.session.took_bus(n as usize);
        Ok(())
    }

    /// Counts the bytes that wait for the client.
    fn count_client(&mut self) -> Result<(), AllocError>
        ensures counted { (policy : PolicyValue) (events : List Event) → Counted policy events self.old → OnOk result (Counted policy events self.new) }
        ensures left { OnOk result (self.new.session ≡ record self.old.session { client_side = [] }) }
    {
        let n = self.session.client_waits();
        self.counts.to_client = plus(self.counts.to_client, n)?;
        self.session.took_client(n as usize);
        Ok(())
    }

    /// Counts all that waits.
    fn count_waiting(&mut self) -> Result<(), AllocError>
        ensures { (policy : PolicyValue) (events : List Event) → Counted policy events self.old → OnOk result (Played policy events self.new) }
    {
        self.count_notes()?;
        self.count_bus()?;
        self.count_client()
    }

    /// A message of the client comes.
    fn feed_client(&mut self, policy: &Policy, message: &[u8]) -> Result<(), AllocError>
        ensures { (events : List Event) → Played policy.now events self.old → OnOk result (Played policy.now (events ++ Bytes Client message.now ∷ []) self.new) }
    {
        let _ = self.session.feed_client(policy, message);
        self.count_waiting()
    }

    /// A message of the bus comes.
    fn feed_bus(&mut self, policy: &Policy, message: &[u8]) -> Result<(), AllocError>
        ensures { (events : List Event) → Played policy.now events self.old → OnOk result (Played policy.now (events ++ Bytes Bus message.now ∷ []) self.new) }
    {
        let _ = self.session.feed_bus(policy, message);
        self.count_waiting()
    }

    /// The messages in front of the draws come.
    fn feed_opening(&mut self, policy: &Policy) -> Result<(), AllocError>
        ensures { Played policy.now [] self.old → OnOk result (Played policy.now opening self.new) }
    {
        self.feed_client(policy, &HELLO)?;
        self.feed_bus(policy, &GREETED)?;
        self.feed_bus(policy, &MATCHED)?;
        self.feed_bus(policy, &OWNED)
    }

    /// The client's message of a draw comes, if it has one.
    fn feed_asked(&mut self, policy: &Policy, made: &Made) -> Result<(), AllocError>
        ensures { (events : List Event) → Played policy.now events self.old → OnOk result (Played policy.now (events ++ asked_events made.now) self.new) }
    {
        if !made.asked {
            return Ok(());
        }
        self.feed_client(policy, made.client.as_slice())
    }

    /// The messages of a draw come.
    fn feed_made(&mut self, policy: &Policy, made: &Made) -> Result<(), AllocError>
        ensures { (events : List Event) → Played policy.now events self.old → OnOk result (Played policy.now (events ++ made_events made.now) self.new) }
    {
        self.feed_asked(policy, made)?;
        self.feed_bus(policy, made.bus.as_slice())
    }

    /// What was counted, unless the session ended for want of memory.
    fn counted(&self) -> Result<Counts, AllocError>
        ensures { (n seed : ℕ) → Played options_of_sample.policy (sample_of n seed).events self.now →
            IfOk result (λ counts. counts ≡ counts_in options_of_sample.policy (sample_history n seed)) }
    {
        if is_memory(self.session.ended()) {
            return Err(AllocError);
        }
        Ok(self.counts)
    }
}

/// Plays a sample under its policy, and counts what becomes of its messages.
pub(crate) fn count_sample(alloc: Global, n: u32, seed: u64) -> Result<Counts, AllocError>
    requires { n ≤ MOST_DRAWS }
    ensures { IfOk result (λ counts. counts ≡ counts_in options_of_sample.policy (sample_history n seed)) }
{
    let options = sample_options(alloc)?;
    let mut play = Play::new(alloc, &options.policy)?;
    play.feed_opening(&options.policy)?;
    let mut made = Made::new(alloc);
    let mut draws = Draws::new(n, seed);
    while draws.left > 0 {
        draws.next(&mut made)?;
        play.feed_made(&options.policy, &made)?;
    }
    play.counted()
}
