//! The members of the bus, and what each requires of a call.
ghost use Rattle.std.specs.Prelude.{◌≡◌, ◌≤◌, ◌+◌, codes};
ghost use Rattle.dbus_header.specs.Message.{first_text as first_text_of, member as member_of};
ghost use Rattle.dbus_header.specs.Seen.{text_seen};
ghost use Rattle.name_patterns.specs.Ranks.{elements};
ghost use Rattle.dbus_header.specs.Contents.{message_in};
ghost use Rattle.policy_view.specs.Texts.{stands_in};
ghost use Rattle.policy_view.specs.Verdicts.{demand_of as demand_by, may_start as may_start_by, from_level, on_argument, on_bus_call, on_match, on_start, on_text, text_or_empty};
ghost use Rattle.reply_ledger.specs.Owed.{Replies};
ghost use Rattle.unique_names.specs.Taught.{kept_level, kept_numbers};
ghost use Rattle.verdicts.specs.Counted.{name_steps, text_steps};
ghost use Rattle.verdicts.specs.Entries.{steps_for};
ghost use Rattle.verdicts.specs.Kept.{kept};
ghost use Rattle.verdicts.specs.Seen.{demand_seen, text_demand_seen};

use crate::calls::refused;
use crate::entries::is_called;
use dbus_header::{Instead, Message};
use name_patterns::Steps;
use policy_args::{Level, Policy};
use policy_view::{Reason, Verdict};
use std::sync::ledger::Ledger;
use unique_names::Tracker;

/// What a member requires of the text that is its first argument.
#[derive(Clone, Copy)]
pub(crate) enum TextDemand {
    /// The match rule doesn't contain the word `eavesdrop`.
    NoEavesdrop,
    /// The name is seen; otherwise the answer is that it has no owner.
    SeenOwner,
    /// The name is seen; otherwise the answer is false.
    SeenName,
    /// The name may be started.
    Startable,
    /// The name may be owned.
    Ownable,
}

/// What is required of a call of a member.
#[derive(Clone, Copy)]
pub(crate) enum Demand {
    /// Nothing.
    Free,
    /// Something of its first text.
    OnText(TextDemand),
    /// That it isn't made.
    Unlisted,
}

/// What is required of a call of this member (D-Bus Specification, "Message Bus Messages").
#[tactic(auto, unfolding(policy_view::specs::Verdicts::demand_of))]
fn demand_of(member: &str) -> Demand
    ensures { demand_seen result ≡ demand_by member.now }
{
    match member {
        "Hello" | "GetId" | "ListNames" | "ListActivatableNames" => Demand::Free,
        "AddMatch" | "RemoveMatch" => Demand::OnText(TextDemand::NoEavesdrop),
        "GetNameOwner"
        | "GetConnectionUnixUser"
        | "GetConnectionUnixProcessID"
        | "GetConnectionCredentials"
        | "GetAdtAuditSessionData"
        | "GetConnectionSELinuxSecurityContext" => Demand::OnText(TextDemand::SeenOwner),
        "NameHasOwner" => Demand::OnText(TextDemand::SeenName),
        "StartServiceByName" => Demand::OnText(TextDemand::Startable),
        "RequestName" | "ReleaseName" | "ListQueuedOwners" => Demand::OnText(TextDemand::Ownable),
        _ => Demand::Unlisted,
    }
}

/// The verdict on a call to the bus with its own interface, or without one.
pub(crate) fn judge_bus_call<L: Ledger>(
    policy: &Policy,
    tracker: &Tracker,
    message: &Message<'_>,
    steps: &mut Steps<L>,
) -> Verdict
    ensures verdict { (owed : Replies) → result ≡ on_bus_call policy.now (kept policy.now tracker.now owed) (message_in message.now.bytes.now) (demand_by (text_or_empty (member_of (message_in message.now.bytes.now)))) }
    ensures cost { steps.new ≤ steps.old + text_steps policy.now tracker.now (first_text_of (message_in message.now.bytes.now)) }
{
    match demand_of(message.member().unwrap_or("")) {
        Demand::Free => Verdict::Pass,
        Demand::OnText(demand) => {
            judge_argument(
                policy,
                tracker,
                message,
                demand,
                message.first_text(),
                steps,
            )
        }
        Demand::Unlisted => refused(message, Instead::AccessDenied, Reason::BusMember),
    }
}

// The text that something is required of must be present.
fn judge_argument<L: Ledger>(
    policy: &Policy,
    tracker: &Tracker,
    message: &Message<'_>,
    demand: TextDemand,
    text: Option<&str>,
    steps: &mut Steps<L>,
) -> Verdict
    ensures verdict { (owed : Replies) → result ≡ on_argument policy.now (kept policy.now tracker.now owed) (message_in message.now.bytes.now) (text_demand_seen demand) (text_seen text.entry) }
    ensures cost { steps.new ≤ steps.old + text_steps policy.now tracker.now (text_seen text.entry) }
{
    match text {
        None => refused(message, Instead::AccessDenied, Reason::BadArgument),
        Some(text) => {
            let level = tracker.level_counted(policy, text, steps);
            judge_text(policy, tracker, message, demand, text, level, steps)
        }
    }
}

// The text has this level as a name.
fn judge_text<L: Ledger>(
    policy: &Policy,
    tracker: &Tracker,
    message: &Message<'_>,
    demand: TextDemand,
    text: &str,
    level: Level,
    steps: &mut Steps<L>,
) -> Verdict
    ensures verdict { result ≡ on_text policy.now (message_in message.now.bytes.now) (text_demand_seen demand) text.now (kept_numbers policy.now tracker.now text.now) level }
    ensures cost { steps.new + elements text.now + 1 ≤ steps.old + name_steps policy.now tracker.now text.now }
{
    let hidden = Reason::ArgNotVisible;
    match demand {
        TextDemand::NoEavesdrop => judge_match(message, text),
        TextDemand::SeenOwner => {
            pass_from(message, level, Level::See, Instead::NameHasNoOwner, hidden)
        }
        TextDemand::SeenName => pass_from(message, level, Level::See, Instead::False, hidden),
        TextDemand::Startable => judge_start(policy, tracker, message, text, level, steps),
        TextDemand::Ownable => {
            let reason = Reason::ArgNotOwn;
            pass_from(message, level, Level::Own, Instead::AccessDenied, reason)
        }
    }
}

// A match rule that contains the word `eavesdrop` may ask for messages that are meant for others (D-Bus Specification,
// "Match Rules").
fn judge_match(message: &Message<'_>, text: &str) -> Verdict
    ensures { result ≡ on_match (message_in message.now.bytes.now) text.now }
{
    if speaks_of_eavesdrop(text) {
        refused(message, Instead::AccessDenied, Reason::Eavesdrop)
    } else {
        Verdict::Pass
    }
}

fn speaks_of_eavesdrop(text: &str) -> bool
    ensures { result ≡ stands_in (codes "eavesdrop") text.now }
{
    text.contains("eavesdrop")
}

// A name that may be talked to may be started. One that is only seen may be started if the policy and an entry allow
// it.
fn judge_start<L: Ledger>(
    policy: &Policy,
    tracker: &Tracker,
    message: &Message<'_>,
    name: &str,
    level: Level,
    steps: &mut Steps<L>,
) -> Verdict
    ensures verdict { result ≡ on_start policy.now (message_in message.now.bytes.now) (kept_numbers policy.now tracker.now name.now) level }
    ensures cost { steps.new ≤ steps.old + 1 + steps_for name.now (kept_numbers policy.now tracker.now name.now) }
{
    match level {
        Level::None => refused(message, Instead::ServiceUnknown, Reason::ArgNotTalk),
        Level::See => {
            if may_start(policy, tracker, name, steps) {
                Verdict::Pass
            } else {
                refused(message, Instead::AccessDenied, Reason::ArgNotTalk)
            }
        }
        Level::Talk | Level::Own => Verdict::Pass,
    }
}

// Whether a name at See may be started: the policy lets called names be started, and one of the name's entries has a
// rule on calls of methods. Finding the entries of a unique name takes a look-up, which is a step.
fn may_start<L: Ledger>(
    policy: &Policy,
    tracker: &Tracker,
    name: &str,
    steps: &mut Steps<L>,
) -> bool
    ensures may { result ≡ may_start_by policy.now (kept_numbers policy.now tracker.now name.now) }
    ensures cost { steps.new ≤ steps.old + 1 + steps_for name.now (kept_numbers policy.now tracker.now name.now) }
{
    if !policy.start_called() {
        return false;
    }
    steps.tick();
    is_called(policy, tracker.entries(policy, name), steps)
}

// Passes the call from a level on, and refuses it below that level.
fn pass_from(
    message: &Message<'_>,
    level: Level,
    least: Level,
    what: Instead,
    reason: Reason,
) -> Verdict
    ensures { result ≡ from_level (message_in message.now.bytes.now) least what reason level }
{
    if level.is_at_least(least) {
        Verdict::Pass
    } else {
        refused(message, what, reason)
    }
}
