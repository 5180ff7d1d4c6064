//! The verdict on a message of the client by its role.
ghost use Rattle.std.specs.Prelude.{◌≡◌, ◌≤◌, ◌+◌, nat_lt};
ghost use Rattle.name_patterns.specs.Ranks.{elements};
ghost use Rattle.dbus_header.specs.Kinds.{kind_of};
ghost use Rattle.dbus_header.specs.Message.{first_text as first_text_of};
ghost use Rattle.dbus_header.specs.Seen.{name_seen};
ghost use Rattle.dbus_header.specs.Contents.{message_in};
ghost use Rattle.policy_view.specs.Verdicts.{first_or_0, not_visible, on_call, on_reply, on_signal, on_unknown_field, refused as refused_as, reply_to, verdict_as, verdict_at};
ghost use Rattle.unique_names.specs.Taught.{kept_level, kept_numbers};
ghost use Rattle.verdicts.specs.Counted.{name_steps, role_steps};
ghost use Rattle.verdicts.specs.Kept.{kept, owed_by, owed_to};
ghost use Rattle.verdicts.specs.Seen.{client_role_seen};

use crate::bus_members::judge_bus_call;
use crate::entries::judge_seen;
use crate::roles::ClientRole;
use dbus_header::{Instead, Message, MessageType};
use dbus_names::BusName;
use name_patterns::Steps;
use policy_args::{Level, Policy};
use policy_view::{Reason, Verdict};
use reply_ledger::Ledger as ReplyLedger;
use std::sync::ledger::Ledger;
use unique_names::{Entries, LookedUp, Tracker};

/// The verdict on a message. It is judged by its role, unless the policy refuses one of its header fields.
pub(crate) fn judge_message<L: Ledger>(
    policy: &Policy,
    tracker: &Tracker,
    ledger: &ReplyLedger,
    message: &Message<'_>,
    role: ClientRole<'_>,
    steps: &mut Steps<L>,
) -> Verdict
    ensures verdict { result ≡ verdict_as policy.now (kept policy.now tracker.now ledger.now.owed) (message_in message.now.bytes.now) (client_role_seen role.entry) }
    ensures cost { steps.new ≤ steps.old + role_steps policy.now tracker.now (client_role_seen role.entry) (first_text_of (message_in message.now.bytes.now)) }
{
    if policy.known_fields() && message.has_unknown_field() {
        return refuse_field(message);
    }
    judge_as(policy, tracker, ledger, message, role, steps)
}

// Refuses a message that has a header field of an unknown code.
fn refuse_field(message: &Message<'_>) -> Verdict
    ensures { result ≡ on_unknown_field (kind_of (message_in message.now.bytes.now)) (message_in message.now.bytes.now) }
{
    match message.message_type() {
        MessageType::MethodCall => { refused(message, Instead::AccessDenied, Reason::UnknownField) }
        MessageType::MethodReturn
        | MessageType::Error
        | MessageType::Signal
        | MessageType::Unnamed => Verdict::Drop(Reason::UnknownField),
    }
}

// The verdict on a message of this role.
fn judge_as<L: Ledger>(
    policy: &Policy,
    tracker: &Tracker,
    ledger: &ReplyLedger,
    message: &Message<'_>,
    role: ClientRole<'_>,
    steps: &mut Steps<L>,
) -> Verdict
    ensures verdict { result ≡ verdict_at policy.now (kept policy.now tracker.now ledger.now.owed) (message_in message.now.bytes.now) (client_role_seen role.entry) }
    ensures cost { steps.new ≤ steps.old + role_steps policy.now tracker.now (client_role_seen role.entry) (first_text_of (message_in message.now.bytes.now)) }
{
    match role {
        ClientRole::OfUnknownType => Verdict::Drop(Reason::UnknownType),
        ClientRole::Reply => judge_reply(ledger, message),
        ClientRole::Broadcast => Verdict::Pass,
        ClientRole::SignalTo(name) => {
            let known = tracker.look_up(policy, name, steps);
            judge_signal(known, steps)
        }
        ClientRole::StandardBusCall => Verdict::Pass,
        ClientRole::OtherBusCall => refused(message, Instead::AccessDenied, Reason::BusInterface),
        ClientRole::BusCall => judge_bus_call(policy, tracker, message, steps),
        ClientRole::CallTo(name) => {
            let known = tracker.look_up(policy, name, steps);
            judge_call(policy, message, name, known, steps)
        }
    }
}

/// Refuses a message. It is dropped if no reply to it is expected.
pub(crate) fn refused(message: &Message<'_>, what: Instead, reason: Reason) -> Verdict
    ensures { result ≡ refused_as (message_in message.now.bytes.now) what reason }
{
    if message.expects_reply() {
        Verdict::Ping(what, reason)
    } else {
        Verdict::Drop(reason)
    }
}

// A reply passes if it is owed.
fn judge_reply(ledger: &ReplyLedger, message: &Message<'_>) -> Verdict
    ensures { result ≡ on_reply (nat_lt 0 (owed_by ledger.now.owed (reply_to (message_in message.now.bytes.now)))) }
{
    if is_owed(
        ledger,
        message.destination_name(),
        message.reply_serial().unwrap_or(0),
    ) {
        Verdict::Pass
    } else {
        Verdict::Drop(Reason::NotOutstanding)
    }
}

// Whether a reply to this serial is owed to this name, which may be absent.
fn is_owed(ledger: &ReplyLedger, peer: Option<BusName<'_>>, serial: u32) -> bool
    ensures { result ≡ nat_lt 0 (owed_to ledger.now.owed (name_seen peer.entry) serial) }
{
    match peer {
        None => false,
        Some(peer) => ledger.owed(peer.text, serial),
    }
}

// A signal for one name.
fn judge_signal<L: Ledger>(name: LookedUp<'_>, steps: &mut Steps<L>) -> Verdict
    ensures verdict { result ≡ on_signal (kept_numbers name.entry.policy.now name.entry.tracker.now name.entry.name.now) (kept_level name.entry.policy.now name.entry.tracker.now name.entry.name.now) }
    ensures cost { steps.new + 1 ≤ steps.old + name_steps name.entry.policy.now name.entry.tracker.now name.entry.name.now }
{
    match name.level(steps) {
        Level::None => Verdict::Drop(Reason::NotVisible),
        Level::See => {
            let entries = name.entries(steps);
            Verdict::Drop(Reason::OnlySee(lowest(entries, steps)))
        }
        Level::Talk | Level::Own => Verdict::Pass,
    }
}

// The first of the numbers, or 0.
fn lowest<L: Ledger>(mut numbers: Entries<'_>, steps: &mut Steps<L>) -> u32
    ensures lowest { result ≡ first_or_0 numbers.entry.numbers }
    ensures cost { steps.new ≤ steps.old + elements numbers.entry.name }
{
    numbers.next_counted(steps).unwrap_or(0)
}

// A call to a name other than the bus's own.
fn judge_call<L: Ledger>(
    policy: &Policy,
    message: &Message<'_>,
    name: BusName<'_>,
    known: LookedUp<'_>,
    steps: &mut Steps<L>,
) -> Verdict
    ensures verdict { result ≡ on_call policy.now (message_in message.now.bytes.now) name.entry.text.now (kept_numbers known.entry.policy.now known.entry.tracker.now known.entry.name.now) (kept_level known.entry.policy.now known.entry.tracker.now known.entry.name.now) }
    ensures cost { steps.new + 1 ≤ steps.old + name_steps known.entry.policy.now known.entry.tracker.now known.entry.name.now }
{
    match known.level(steps) {
        Level::None => judge_hidden(message, name),
        Level::See => {
            let entries = known.entries(steps);
            judge_seen(policy, message, entries, steps)
        }
        Level::Talk | Level::Own => Verdict::Pass,
    }
}

// A call to a hidden name: a service that it could have started is unknown, and any other name has no owner.
fn judge_hidden(message: &Message<'_>, name: BusName<'_>) -> Verdict
    ensures { result ≡ not_visible (message_in message.now.bytes.now) name.entry.text.now }
{
    let what = if name.is_unique() || message.forbids_auto_start() {
        Instead::NameHasNoOwner
    } else {
        Instead::ServiceUnknown
    };
    refused(message, what, Reason::NotVisible)
}
