//! The decisions on messages: the verdict on a client's message, and what the client is shown of a bus message.
//!
//! Both are found in a table by the message's role (xdg-dbus-proxy(1), "Filtering"), with what a tracker knows of names
//! and a ledger of replies.
#![tactic(auto)]

ghost use Rattle.std.specs.Prelude.{◌≡◌, ◌≤◌, ◌<◌, ◌+◌, Some};
ghost use Rattle.std.specs.Option.{option_copied};
ghost use Rattle.dbus_header.specs.Contents.{message_of};
ghost use Rattle.dbus_header.specs.Message.{Message as MessageTree};
ghost use Rattle.policy_view.specs.Past.{judged, role};
ghost use Rattle.policy_view.specs.Sent.{Past};
ghost use Rattle.policy_view.specs.Shown.{bus_role as bus_role_by, showing, shown};
ghost use Rattle.policy_view.specs.Verdicts.{verdict};
ghost use Rattle.reply_ledger.specs.Ledger.{Ledger as LedgerValue};
ghost use Rattle.reply_ledger.specs.Owed.{Replies};
ghost use Rattle.verdicts.specs.Counted.{judge_steps, show_steps};
ghost use Rattle.verdicts.specs.Kept.{StandFor, kept};

mod bus_members;
mod calls;
mod entries;
mod properties;
mod roles;
mod showing;

use dbus_header::Message;
use name_patterns::Steps;
use policy_args::Policy;
use policy_view::{Showing, Verdict};
use reply_ledger::{Kind, Ledger as ReplyLedger};
pub use roles::is_owner_change;
use roles::{bus_role, client_role};
use std::marker::Brand;
use std::sync::ledger::{Blank, Ledger};
use unique_names::Tracker;

/// The verdict on a client's message: it passes, a ping is sent in its place, or it is dropped.
///
/// A message of a type above 4 is dropped. A return or an error passes if it is owed. A signal passes if it has no
/// DESTINATION, or if its destination may be talked to. A call to the bus passes if its interface is one that each
/// object has. If its interface is the bus's own or absent, it is judged by its member and the level of its first text;
/// with any other interface it is refused. A call to another name passes if that name may be talked to. If the name may
/// only be seen, the call passes if a Call rule of the name's entries matches it, or if it is a property request that a
/// Property rule of them matches: Get, Set or GetAll of the interface of properties, with the member's signature (D-Bus
/// Specification, "org.freedesktop.DBus.Properties").
///
/// If the policy allows known header fields only, a call that has another field is refused and any other message that
/// has one is dropped, whatever its role.
///
/// A refused call is dropped if its flag NO_REPLY_EXPECTED is set (D-Bus Specification, "Message Format"). Otherwise a
/// ping is sent to the bus in its place, and the client is answered when the ping's answer is received. Entries are
/// numbered from 1.
pub fn judge(
    policy: &Policy,
    tracker: &Tracker,
    ledger: &ReplyLedger,
    message: &Message<'_>,
) -> Verdict
    // It is the definition's verdict, given what the tracker and the ledger keep.
    ensures kept { (m : MessageTree) → message_of message.now.bytes.now ≡ Some m → result ≡ verdict policy.now (kept policy.now tracker.now ledger.now.owed) m }

    // So it is the verdict for each past that these represent.
    ensures exact { (before : Past) (m : MessageTree) → StandFor policy.now tracker.now ledger.now before → message_of message.now.bytes.now ≡ Some m → result ≡ judged policy.now before.told m }
{
    policy.covers_no_unique_name();
    let asked = ClientMessage {
        policy,
        tracker,
        ledger,
        message,
    };
    judge_from::<Brand>(asked, Blank::new(1))
}

/// Does as `judge` does and counts the steps: the look-ups of the message's destination, or of the name that it asks
/// the bus about, and the tested entries of that name.
pub fn judge_counted<L: Ledger>(
    policy: &Policy,
    tracker: &Tracker,
    ledger: &ReplyLedger,
    message: &Message<'_>,
    steps: &mut Steps<L>,
) -> Verdict
    ensures kept { (m : MessageTree) → message_of message.now.bytes.now ≡ Some m → result ≡ verdict policy.now (kept policy.now tracker.now ledger.now.owed) m }
    ensures cost { (m : MessageTree) → message_of message.now.bytes.now ≡ Some m → steps.new ≤ steps.old + judge_steps policy.now tracker.now m }
{
    calls::judge_message(
        policy,
        tracker,
        ledger,
        message,
        client_role(message),
        steps,
    )
}

// A message of the client, and what it is judged by.
#[derive(Drop)]
struct ClientMessage<'a, 'm> {
    policy: &'a Policy,
    tracker: &'a Tracker,
    ledger: &'a ReplyLedger,
    message: &'a Message<'m>,
}

// Counts the steps in a ledger of its own.
fn judge_from<L: Ledger>(asked: ClientMessage<'_, '_>, blank: Blank) -> Verdict
    requires name { blank.name ≡ L.name }
    requires parts { blank.parts ≡ L.parts }
    requires some { 0 < blank.parts }
    ensures { (m : MessageTree) → message_of asked.entry.message.now.bytes.now ≡ Some m → result ≡ verdict asked.entry.policy.now (kept asked.entry.policy.now asked.entry.tracker.now asked.entry.ledger.now.owed) m }
{
    let mut steps: Steps<L> = Steps::new(blank);
    judge_counted(
        asked.policy,
        asked.tracker,
        asked.ledger,
        asked.message,
        &mut steps,
    )
}

/// What the client is shown of a bus message: the message unchanged or as an answer, an answer in its place, or
/// nothing.
///
/// A return or an error is shown as the answer to the client's call that it answers: a list of names is cut, and the
/// answer to a ping becomes the answer to the call that the ping replaced. NameOwnerChanged of the bus is shown if its
/// name is seen. Calls, and other signals with a DESTINATION, are shown whole. A signal without one is shown if its
/// sender may be talked to or a Broadcast rule of the sender's entries matches. A return or an error that answers no
/// call, or a call of the proxy's own, is hidden, and so is a message of a type above 4.
///
/// The caller gives what the message is the answer to. That matters only for a return or an error.
pub fn show(
    policy: &Policy,
    tracker: &Tracker,
    answered: Option<&Kind>,
    message: &Message<'_>,
) -> Showing
    // It is what the definition shows, given what the tracker keeps, whatever replies are owed.
    ensures kept { (owed : Replies) (m : MessageTree) → message_of message.now.bytes.now ≡ Some m → result ≡ showing policy.now (kept policy.now tracker.now owed) (option_copied answered.entry) m }

    // So it is what is shown for each past that the tracker and a ledger represent, if the message has there the role
    // that its answer gives it.
    ensures exact { (ledger : LedgerValue) (before : Past) (m : MessageTree) → StandFor policy.now tracker.now ledger before → bus_role_by (option_copied answered.entry) m ≡ role before m → message_of message.now.bytes.now ≡ Some m → result ≡ shown policy.now before m }
{
    policy.covers_no_unique_name();
    let asked = BusMessage {
        policy,
        tracker,
        answered,
        message,
    };
    show_from::<Brand>(asked, Blank::new(1))
}

/// Does as `show` does and counts the steps: the look-ups of the name whose owner changed, or of the sender of a
/// broadcast signal, and the tested entries of that sender.
pub fn show_counted<L: Ledger>(
    policy: &Policy,
    tracker: &Tracker,
    answered: Option<&Kind>,
    message: &Message<'_>,
    steps: &mut Steps<L>,
) -> Showing
    ensures kept { (owed : Replies) (m : MessageTree) → message_of message.now.bytes.now ≡ Some m → result ≡ showing policy.now (kept policy.now tracker.now owed) (option_copied answered.entry) m }
    ensures cost { (m : MessageTree) → message_of message.now.bytes.now ≡ Some m → steps.new ≤ steps.old + show_steps policy.now tracker.now (option_copied answered.entry) m }
{
    showing::show_as(policy, tracker, message, bus_role(answered, message), steps)
}

// A message of the bus, and what its showing depends on.
#[derive(Drop)]
struct BusMessage<'a, 'm> {
    policy: &'a Policy,
    tracker: &'a Tracker,
    answered: Option<&'a Kind>,
    message: &'a Message<'m>,
}

// Counts the steps in a ledger of its own.
fn show_from<L: Ledger>(asked: BusMessage<'_, '_>, blank: Blank) -> Showing
    requires name { blank.name ≡ L.name }
    requires parts { blank.parts ≡ L.parts }
    requires some { 0 < blank.parts }
    ensures { (owed : Replies) (m : MessageTree) → message_of asked.entry.message.now.bytes.now ≡ Some m → result ≡ showing asked.entry.policy.now (kept asked.entry.policy.now asked.entry.tracker.now owed) (option_copied asked.entry.answered) m }
{
    let mut steps: Steps<L> = Steps::new(blank);
    show_counted(
        asked.policy,
        asked.tracker,
        asked.answered,
        asked.message,
        &mut steps,
    )
}
