//! Policies for tables, with what a tracker and a ledger know.
use crate::policies::read;
use dbus_header::Instead;
use dbus_names::Name;
use dbus_values::Order;
use policy_args::{LineRefusal, Options, Policy};
use reply_ledger::{Kind, Ledger};
use std::alloc::{AllocError, Global};
use unique_names::Tracker;

/// Entries of each kind, for names that say what they are: an entry of `org.a.Ruled` has a Call rule, and one of
/// `org.a.Cast` a Broadcast rule.
pub const WORDS: &str = "--see=org.a.See --talk=org.a.Talk --own=org.a.Own --see=org.a.Ruled \
    --call=org.a.Ruled=org.a.I.A@/p --call=org.a.Ruled=org.a.J.* --broadcast=org.a.Cast=org.a.I.S@/p";

/// Who owns each name or has owned it.
const OWNERS: &str =
    "org.a.See :1.1,org.a.Talk :1.2,org.a.Own :1.3,org.a.Ruled :1.4,org.a.Cast :1.7";

/// A policy, and what is known.
#[derive(Drop)]
pub struct Known {
    pub options: Options,
    pub tracker: Tracker,
    pub ledger: Ledger,
}

/// The words of a text.
fn words_in(alloc: Global, text: &str) -> Result<Vec<String>, AllocError> {
    let mut words = Vec::new(alloc);
    for word in text.split(' ') {
        add_word(alloc, &mut words, word)?;
    }
    Ok(words)
}

/// Adds a word, if it has a character.
fn add_word(alloc: Global, words: &mut Vec<String>, word: &str) -> Result<(), AllocError> {
    if !word.is_empty() {
        words.push(String::from_str(alloc, word)?)?;
    }
    Ok(())
}

/// The options without a policy entry.
fn no_options(alloc: Global) -> Options {
    Options {
        filter: false,
        log: false,
        policy: Policy::new(alloc),
    }
}

/// The options that words give.
pub fn options(alloc: Global, words: &str) -> Result<Options, AllocError> {
    let words = words_in(alloc, words)?;
    match read(alloc, &words) {
        Ok(options) => Ok(options),
        Err(LineRefusal::Bad(_)) => Ok(no_options(alloc)),
        Err(LineRefusal::Memory) => Err(AllocError),
    }
}

/// The policy with these words, with nothing known.
pub fn nothing(alloc: Global, words: &str) -> Result<Known, AllocError> {
    Ok(Known {
        options: options(alloc, words)?,
        tracker: Tracker::new(alloc),
        ledger: Ledger::new(alloc),
    })
}

/// The policy with `WORDS`, with all that is known.
pub fn everything(alloc: Global) -> Result<Known, AllocError> {
    everything_under(alloc, "")
}

/// The policy with `WORDS` and further words, with all that is known.
pub fn everything_under(alloc: Global, words: &str) -> Result<Known, AllocError> {
    let words = format!(in alloc; "{WORDS} {words}")?;
    let options = options(alloc, &words)?;
    let tracker = tracker(alloc, &options.policy)?;
    Ok(Known {
        options,
        tracker,
        ledger: ledger(alloc)?,
    })
}

/// The owners, a name that was met and the client's own name.
fn tracker(alloc: Global, policy: &Policy) -> Result<Tracker, AllocError> {
    let mut tracker = Tracker::new(alloc);
    learn_owners(&mut tracker, policy)?;
    tracker.learn_met(policy, ":1.5")?;
    tracker.learn_self(policy, ":1.6")?;
    Ok(tracker)
}

fn learn_owners(tracker: &mut Tracker, policy: &Policy) -> Result<(), AllocError> {
    for owner in OWNERS.split(',') {
        learn_owner(tracker, policy, owner)?;
    }
    Ok(())
}

/// Learns the owner of a name, which a space precedes.
fn learn_owner(tracker: &mut Tracker, policy: &Policy, owner: &str) -> Result<(), AllocError> {
    let (name, id) = owner.split_once(' ').unwrap_or((owner, ""));
    tracker.learn_owner(policy, name, id)
}

/// An answer of each kind that is expected, and a reply that is owed.
fn ledger(alloc: Global) -> Result<Ledger, AllocError> {
    let mut ledger = Ledger::new(alloc);
    ledger.called(":1.2", 5)?;
    expect_clients(&mut ledger)?;
    expect_own(alloc, &mut ledger)?;
    Ok(ledger)
}

/// Expects answers to messages of the client.
fn expect_clients(ledger: &mut Ledger) -> Result<(), AllocError> {
    expect(ledger, 1, Kind::Call(11))?;
    expect(ledger, 2, Kind::Hello(12))?;
    expect(ledger, 3, Kind::Names(13))?;
    let ping = Kind::Ping {
        serial: 14,
        order: Order::Big,
        what: Instead::False,
    };
    expect(ledger, 4, ping)
}

/// Expects answers to the proxy's own calls.
fn expect_own(alloc: Global, ledger: &mut Ledger) -> Result<(), AllocError> {
    expect(ledger, 5, Kind::OwnMatch)?;
    let name = Name::new(String::from_str(alloc, "org.a.See")?);
    expect(ledger, 6, Kind::OwnOwner(name))?;
    expect(ledger, 7, Kind::OwnNames)
}

fn expect(ledger: &mut Ledger, position: u32, kind: Kind) -> Result<(), AllocError> {
    ledger.expect(position, kind)
}
