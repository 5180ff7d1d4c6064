//! What the client is shown of a bus message, by its role.
ghost use Rattle.std.specs.Prelude.{◌≡◌, ◌≤◌, ◌+◌};
ghost use Rattle.dbus_header.specs.Message.{sender as sender_of, text_list as text_list_of, three_texts as three_texts_of};
ghost use Rattle.dbus_header.specs.Seen.{name_seen, texts_seen};
ghost use Rattle.name_patterns.specs.Ranks.{elements};
ghost use Rattle.dbus_header.specs.Contents.{message_in};
ghost use Rattle.policy_view.specs.Shown.{may_broadcast, on_broadcast, on_names, on_owner_change, sees_change as sees_change_of, showing_at};
ghost use Rattle.reply_ledger.specs.Owed.{Replies};
ghost use Rattle.verdicts.specs.Counted.{changed_name, shown_steps, text_steps};
ghost use Rattle.verdicts.specs.Kept.{kept};
ghost use Rattle.verdicts.specs.Seen.{bus_role_seen};

use crate::entries::is_announced;
use crate::roles::BusRole;
use dbus_header::Message;
use dbus_names::{BusName, is_unique};
use name_patterns::Steps;
use policy_args::{Level, Policy};
use policy_view::{Reason, Showing};
use std::sync::ledger::Ledger;
use unique_names::Tracker;

/// What the client is shown of a message with this role.
pub(crate) fn show_as<L: Ledger>(
    policy: &Policy,
    tracker: &Tracker,
    message: &Message<'_>,
    role: BusRole<'_>,
    steps: &mut Steps<L>,
) -> Showing
    ensures showing { (owed : Replies) → result ≡ showing_at policy.now (kept policy.now tracker.now owed) (message_in message.now.bytes.now) (bus_role_seen role.entry) }
    ensures cost { steps.new ≤ steps.old + shown_steps policy.now tracker.now (bus_role_seen role.entry) (changed_name (three_texts_of (message_in message.now.bytes.now))) (sender_of (message_in message.now.bytes.now)) }
{
    match role {
        BusRole::NoRole => Showing::Hide(Reason::UnknownType),
        BusRole::Unexpected => Showing::Hide(Reason::NotExpected),
        BusRole::MatchAnswer | BusRole::OwnerAnswer(_) | BusRole::NamesAnswer => {
            Showing::Hide(Reason::OwnAnswer)
        }
        BusRole::PingAnswer {
            serial,
            order,
            what,
        } => Showing::Instead {
            order,
            reply: serial,
            what,
        },
        BusRole::NameList(serial) => show_names(message, serial),
        BusRole::HelloAnswer(serial) | BusRole::OtherAnswer(serial) => Showing::Reply(serial),
        BusRole::CallIn | BusRole::SignalIn => Showing::Whole,
        BusRole::OwnerChange => show_owner_change(policy, tracker, message, steps),
        BusRole::BroadcastIn => show_broadcast(policy, tracker, message, steps),
    }
}

// Shows a list of names, if the body is one.
fn show_names(message: &Message<'_>, serial: u32) -> Showing
    ensures { result ≡ on_names serial (text_list_of (message_in message.now.bytes.now)) }
{
    match message.text_list() {
        None => Showing::Hide(Reason::BadArgument),
        Some(_) => Showing::Cut(serial),
    }
}

// The owner of a name changed. The client is shown that if it sees the change.
fn show_owner_change<L: Ledger>(
    policy: &Policy,
    tracker: &Tracker,
    message: &Message<'_>,
    steps: &mut Steps<L>,
) -> Showing
    ensures showing { (owed : Replies) → result ≡ on_owner_change policy.now.sloppy (kept policy.now tracker.now owed) (three_texts_of (message_in message.now.bytes.now)) }
    ensures cost { steps.new ≤ steps.old + text_steps policy.now tracker.now (changed_name (three_texts_of (message_in message.now.bytes.now))) }
{
    match message.three_texts() {
        None => Showing::Hide(Reason::BadArgument),
        // The name, its old owner and its new one.
        Some((name, _, _)) => {
            if sees_change(policy, tracker, name, steps) {
                Showing::Whole
            } else {
                Showing::Hide(Reason::NameHidden)
            }
        }
    }
}

// Whether the client sees that a name's owner changed: it sees the name, or the policy shows such changes of all unique
// names (xdg-dbus-proxy(1), "--sloppy-names").
fn sees_change<L: Ledger>(
    policy: &Policy,
    tracker: &Tracker,
    name: &str,
    steps: &mut Steps<L>,
) -> bool
    ensures seen { (owed : Replies) → result ≡ sees_change_of policy.now.sloppy (kept policy.now tracker.now owed) name.now }
    ensures cost { steps.new ≤ steps.old + elements name.now + 1 }
{
    let level = tracker.level_counted(policy, name, steps);
    level.is_at_least(Level::See) || policy.sloppy() && is_unique(name.as_bytes())
}

// A broadcast signal is shown if its sender may be talked to or a rule says so.
fn show_broadcast<L: Ledger>(
    policy: &Policy,
    tracker: &Tracker,
    message: &Message<'_>,
    steps: &mut Steps<L>,
) -> Showing
    ensures showing { (owed : Replies) → result ≡ on_broadcast policy.now (kept policy.now tracker.now owed) (message_in message.now.bytes.now) }
    ensures cost { steps.new ≤ steps.old + text_steps policy.now tracker.now (sender_of (message_in message.now.bytes.now)) }
{
    if may_announce(policy, tracker, message, message.sender_name(), steps) {
        Showing::Whole
    } else {
        Showing::Hide(Reason::SenderNotTalk)
    }
}

// Whether the sender may be talked to, or a Broadcast rule of its entries matches.
fn may_announce<L: Ledger>(
    policy: &Policy,
    tracker: &Tracker,
    message: &Message<'_>,
    sender: Option<BusName<'_>>,
    steps: &mut Steps<L>,
) -> bool
    ensures announced { (owed : Replies) → result ≡ may_broadcast policy.now (kept policy.now tracker.now owed) (message_in message.now.bytes.now) (name_seen sender.entry) }
    ensures cost { steps.new ≤ steps.old + text_steps policy.now tracker.now (name_seen sender.entry) }
{
    match sender {
        None => false,
        Some(name) => {
            let sender = tracker.look_up(policy, name, steps);
            if sender.level(steps).is_at_least(Level::Talk) {
                return true;
            }
            let entries = sender.entries(steps);
            is_announced(policy, message, entries, steps)
        }
    }
}
