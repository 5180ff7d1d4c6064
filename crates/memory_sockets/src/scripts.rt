//! What happens at the sockets of a system in memory.
//!
//! A script has steps, in the order in which they happen: clients arrive, bytes come, streams end. A wait has the next
//! step happen whose socket is there and is watched for it, and reports that. A script also says what goes
//! wrong: the first, the second or a later call of a kind fails, a stream gives no more than some bytes in a read, or
//! takes no more in a write or in all.
ghost use Rattle.std.specs.Prelude.{◌≡◌, ◌≤◌, ◌<◌, ◌++◌, ℕ, [], false, take, length, IfOk, IfSome, OnOk, OnErr, vec_len};
ghost use Rattle.memory_sockets.specs.Streams.{KeepsStreams, KeepsOthers, coming_in, written_in};
ghost use Rattle.memory_sockets.specs.Scripts.{is_of as is_of_call, kind_number};

use crate::listeners::Listeners;
use crate::streams::Streams;
use proxy_net::{Report, STARTER};
use std::alloc::{AllocError, Global};
use std::io::ErrorKind;

/// A kind of call.
#[derive(Clone, Copy, Debug, PartialEq, Eq)]
pub enum CallKind {
    Bind,
    AwaitClients,
    Accept,
    Connect,
    Watch,
    Read,
    Write,
    Wait,
    OpenStarter,
    NotifyStarter,
}

/// Calls that fail, by their places among the calls of their kind, from 1.
#[derive(Clone, Copy)]
struct Exception {
    call: CallKind,
    first: u64,
    last: u64,
    kind: ErrorKind,
}

/// What happens. A stream is named by the number of its socket, and a listener by its path.
#[derive(Drop)]
enum Event {
    Arrival(String),
    /// This number of the bytes that the script has for a stream come.
    Piece(u64, usize),
    End(u64),
    HangUp(u64),
    Reset(u64),
    /// There is room to write again.
    Room(u64),
    /// A stream is reported as readable, writable or both, though nothing happened.
    Spurious(u64, bool, bool),
    /// A listener is reported, though no client came.
    Nobody(String),
    /// The listener of a number is reported again.
    Again(u64),
    /// The starter closes its end of the pipe.
    StarterGone,
}

/// An event, whether it happened, and whether it happens in the wait of the step before it.
#[derive(Drop)]
struct Step {
    event: Event,
    happened: bool,
    joined: bool,
}

/// What happens at the sockets of a system in memory. It is made step by step, and then given to the system.
#[derive(Drop)]
pub struct SocketScript {
    alloc: Global,
    pub(crate) streams: Streams,
    steps: Vec<Step>,
    exceptions: Vec<Exception>,
    // Whether the starter's pipe was opened.
    has_starter: bool,
}

impl SocketScript {
    /// Nothing happens, and nothing goes wrong.
    pub fn new(alloc: Global) -> SocketScript
        ensures coming { (number : ℕ) → coming_in result.streams number ≡ [] }
        ensures written { (number : ℕ) → written_in result.streams number ≡ [] }
    {
        SocketScript {
            alloc,
            streams: Streams::new(alloc),
            steps: Vec::new(alloc),
            exceptions: Vec::new(alloc),
            has_starter: false,
        }
    }

    fn add(&mut self, event: Event) -> Result<(), AllocError>
        ensures { self.new.streams ≡ self.old.streams }
    {
        self.steps.push(Step {
            event,
            happened: false,
            joined: false,
        })?;
        Ok(())
    }

    /// Then a client arrives at the listener of a path.
    pub fn arrival(&mut self, path: &str) -> Result<(), AllocError>
        ensures { self.new.streams ≡ self.old.streams }
    {
        let path = String::from_str(self.alloc, path)?;
        self.add(Event::Arrival(path))
    }

    /// Then bytes come on a stream.
    pub fn piece(&mut self, number: u64, bytes: &[u8]) -> Result<(), AllocError>
        ensures own { OnOk result (coming_in self.new.streams number ≡ coming_in self.old.streams number ++ bytes.now) }
        ensures err { OnErr result (KeepsStreams self.old.streams self.new.streams) }
        ensures written { written_in self.new.streams number ≡ written_in self.old.streams number }
        ensures others { KeepsOthers number self.old.streams self.new.streams }
    {
        self.steps.reserve(1)?;
        self.streams.add(number, bytes)?;
        let _ = self.add(Event::Piece(number, bytes.len()));
        Ok(())
    }

    /// Then a stream ends. Its peer still takes bytes.
    pub fn end(&mut self, number: u64) -> Result<(), AllocError>
        ensures { self.new.streams ≡ self.old.streams }
    {
        self.add(Event::End(number))
    }

    /// Then the peer of a stream closes: the stream ends, and takes no byte any more.
    pub fn hang_up(&mut self, number: u64) -> Result<(), AllocError>
        ensures { self.new.streams ≡ self.old.streams }
    {
        self.add(Event::HangUp(number))
    }

    /// Then the peer of a stream closes with bytes unread. After what came, a read is refused once by that, and then
    /// the stream ends.
    pub fn reset(&mut self, number: u64) -> Result<(), AllocError>
        ensures { self.new.streams ≡ self.old.streams }
    {
        self.add(Event::Reset(number))
    }

    /// Then a stream has room again, if that is awaited.
    pub fn room(&mut self, number: u64) -> Result<(), AllocError>
        ensures { self.new.streams ≡ self.old.streams }
    {
        self.add(Event::Room(number))
    }

    /// Then a stream is reported, though nothing happened: as readable, and as writable if room is awaited.
    pub fn spurious(
        &mut self,
        number: u64,
        readable: bool,
        writable: bool,
    ) -> Result<(), AllocError>
        ensures { self.new.streams ≡ self.old.streams }
    {
        self.add(Event::Spurious(number, readable, writable))
    }

    /// Then the listener of a path is reported, though no client came.
    pub fn nobody(&mut self, path: &str) -> Result<(), AllocError>
        ensures { self.new.streams ≡ self.old.streams }
    {
        let path = String::from_str(self.alloc, path)?;
        self.add(Event::Nobody(path))
    }

    /// Then the starter closes its end of the pipe, if that was opened.
    pub fn starter_gone(&mut self) -> Result<(), AllocError>
        ensures { self.new.streams ≡ self.old.streams }
    {
        self.add(Event::StarterGone)
    }

    /// Has the last step happen in the wait of the step before it.
    pub fn join(&mut self)
        ensures { self.new.streams ≡ self.old.streams }
    {
        if let Some(step) = self.steps.last_mut() {
            step.joined = true;
        }
    }

    /// The call of a kind that has this place fails. A call that fails gives and takes nothing. After a read or an
    /// accept that would wait the next wait reports its socket, and after such a write there is room once all else
    /// happened.
    pub fn except(&mut self, call: CallKind, place: u64, kind: ErrorKind) -> Result<(), AllocError>
        ensures { self.new.streams ≡ self.old.streams }
    {
        self.except_between(call, place, place, kind)
    }

    /// The calls of a kind from one place to another fail with an error.
    pub fn except_between(
        &mut self,
        call: CallKind,
        first: u64,
        last: u64,
        kind: ErrorKind,
    ) -> Result<(), AllocError>
        ensures { self.new.streams ≡ self.old.streams }
    {
        self.exceptions.push(Exception {
            call,
            first,
            last,
            kind,
        })?;
        Ok(())
    }

    /// A stream gives at most this number of bytes a read, and one at least.
    pub fn trickle(&mut self, number: u64, most: usize) -> Result<(), AllocError>
        ensures { KeepsStreams self.old.streams self.new.streams }
    {
        self.streams.trickle(number, most)
    }

    /// A stream takes at most this number of bytes a write. One that takes none never has room.
    pub fn pace(&mut self, number: u64, most: usize) -> Result<(), AllocError>
        ensures { KeepsStreams self.old.streams self.new.streams }
    {
        self.streams.pace(number, most)
    }

    /// A stream takes this number of bytes in all, and then each write to it fails with this kind.
    pub fn limit(&mut self, number: u64, bytes: usize, kind: ErrorKind) -> Result<(), AllocError>
        ensures { KeepsStreams self.old.streams self.new.streams }
    {
        self.streams.limit(number, bytes, kind)
    }
}

impl SocketScript {
    ghost use Rattle.memory_sockets.specs.Scripts.{is_joined_at, refusal_in};
    ghost use Rattle.memory_sockets.specs.Streams.{KeepsWatches, IsRoomAwaited};

    /// Why the call of a kind that has this place fails, if it does.
    pub(crate) fn refusal(&self, call: CallKind, place: u64) -> Option<ErrorKind>
        ensures { result ≡ refusal_in self.now.exceptions.items call place }
    {
        let mut rest = self.exceptions.as_slice();
        while let [exception, later @ ..] = rest {
            if is_of(exception, call, place) {
                return Some(exception.kind);
            }
            rest = later;
        }
        None
    }

    /// Has the next wait report a stream as readable, if memory for that isn't refused.
    pub(crate) fn report_next(&mut self, number: u64)
        ensures { self.new.streams ≡ self.old.streams }
    {
        self.add_first(Event::Spurious(number, true, false));
    }

    /// Has the next wait report a listener, if memory for that isn't refused.
    pub(crate) fn report_listener_next(&mut self, number: u64)
        ensures { self.new.streams ≡ self.old.streams }
    {
        self.add_first(Event::Again(number));
    }

    /// Has room reported of a stream once all else happened, if memory for that isn't refused.
    pub(crate) fn report_room_last(&mut self, number: u64)
        ensures { self.new.streams ≡ self.old.streams }
    {
        let _ = self.add(Event::Room(number));
    }

    fn add_first(&mut self, event: Event)
        ensures { self.new.streams ≡ self.old.streams }
    {
        let step = Step {
            event,
            happened: false,
            joined: false,
        };
        let _ = self.steps.insert(0, step);
    }

    /// How many steps there are.
    pub(crate) fn steps(&self) -> usize
        ensures { result ≡ vec_len self.now.steps }
    {
        self.steps.len()
    }

    /// Whether the step at a place happens in the wait of the step before it.
    pub(crate) fn is_joined(&self, place: usize) -> bool
        ensures { result ≡ is_joined_at self.now.steps.items place }
    {
        match self.steps.get(place) {
            Some(step) => step.joined,
            None => false,
        }
    }

    /// What is reported if the step at a place happens. `None` if it happened, or its socket isn't watched for it.
    pub(crate) fn report_at(&self, place: usize, listeners: &Listeners) -> Option<Report>
        ensures { IfSome result (IsRoomAwaited self.now.streams) }
    {
        let step = self.steps.get(place)?;
        if step.happened {
            return None;
        }
        match &step.event {
            Event::Arrival(path) | Event::Nobody(path) => listeners.report(path.as_str()),
            Event::Again(number) => listeners.report_of(*number),
            Event::Piece(number, _) => self.streams.report(*number, true, false, false),
            Event::End(number) => self.streams.report(*number, true, false, true),
            Event::HangUp(number) | Event::Reset(number) => {
                self.streams.report(*number, true, true, true)
            }
            Event::Room(number) => self.streams.report(*number, false, true, false),
            Event::Spurious(number, readable, writable) => {
                self.streams.report(*number, *readable, *writable, false)
            }
            Event::StarterGone => self.starter_report(),
        }
    }

    /// The starter's pipe is opened.
    pub(crate) fn open_starter(&mut self)
        ensures { self.new.streams ≡ self.old.streams }
    {
        self.has_starter = true;
    }

    /// What is reported if the starter closes its end of the pipe.
    fn starter_report(&self) -> Option<Report>
        ensures { IfSome result (λ report. report.writable ≡ false) }
    {
        if !self.has_starter {
            return None;
        }
        Some(Report {
            number: STARTER,
            readable: false,
            writable: false,
            ending: false,
            closed: true,
        })
    }

    /// The step at a place happens.
    pub(crate) fn happen_at(&mut self, place: usize, listeners: &mut Listeners)
        ensures streams { KeepsStreams self.old.streams self.new.streams }
        ensures watches { KeepsWatches self.old.streams self.new.streams }
    {
        let Some(step) = self.steps.get_mut(place) else {
            return;
        };
        step.happened = true;
        match &step.event {
            Event::Arrival(path) => listeners.arrive(path.as_str()),
            Event::Piece(number, count) => self.streams.come(*number, *count),
            Event::End(number) => self.streams.end(*number),
            Event::HangUp(number) => self.streams.hang_up(*number),
            Event::Reset(number) => self.streams.reset(*number),
            Event::Room(_)
            | Event::Spurious(_, _, _)
            | Event::Nobody(_)
            | Event::Again(_)
            | Event::StarterGone => {}
        }
    }
}

/// Whether an exception is of the call of a kind that has this place.
fn is_of(exception: &Exception, call: CallKind, place: u64) -> bool
    ensures { result ≡ is_of_call call place exception.now }
{
    number_of(exception.call) == number_of(call)
        && exception.first <= place
        && place <= exception.last
}

/// A number for each kind of call.
fn number_of(call: CallKind) -> u64
    ensures { result ≡ kind_number call }
{
    match call {
        CallKind::Bind => 0,
        CallKind::AwaitClients => 1,
        CallKind::Accept => 2,
        CallKind::Connect => 3,
        CallKind::Watch => 4,
        CallKind::Read => 5,
        CallKind::Write => 6,
        CallKind::Wait => 7,
        CallKind::OpenStarter => 8,
        CallKind::NotifyStarter => 9,
    }
}
