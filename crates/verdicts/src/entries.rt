//! The entries of the policy that apply to a name, by their numbers.
ghost use Rattle.std.specs.Prelude.{◌≡◌, ◌≤◌, ◌+◌};
ghost use Rattle.std.specs.List.{list_any};
ghost use Rattle.std.specs.Option.{option_copied};
ghost use Rattle.dbus_header.specs.Message.{interface as interface_of, member as member_of, path as path_of};
ghost use Rattle.policy_args.specs.Policy.{entry_at};
ghost use Rattle.policy_view.specs.Texts.{matches as rule_matches};
ghost use Rattle.dbus_header.specs.Contents.{message_in};
ghost use Rattle.policy_view.specs.Shown.{broadcast_matches};
ghost use Rattle.policy_view.specs.Verdicts.{calls_methods as grant_calls_methods, entry_passes, lets_pass, on_request, on_seen_call, rules_calls as grant_rules_calls};
ghost use Rattle.verdicts.specs.Entries.{entry_steps, lowest_with, refused_by_rules};
ghost use Rattle.verdicts.specs.Seen.{request_seen};

use crate::calls::refused;
use crate::properties::{PropertyRequest, permits, property_request};
use call_rules::Rule;
use dbus_header::{Instead, Message};
use name_patterns::Steps;
use policy_args::{Entry, Grant, Policy};
use policy_view::{Reason, Verdict};
use std::sync::ledger::Ledger;
use unique_names::Entries;

/// The lowest numbers of the entries that were tested.
#[derive(Clone, Copy)]
struct Lowest {
    /// The lowest of any entry.
    any: Option<u32>,
    /// The lowest of an entry with a Call or a Property rule.
    ruled: Option<u32>,
}

impl Lowest {
    // The lowest numbers with one more entry, which follows those before.
    fn with(self, policy: &Policy, number: u32) -> Lowest
        ensures { result ≡ lowest_with policy.now number self }
    {
        Lowest {
            any: self.any.or(Some(number)),
            ruled: if rules_calls(policy, number) {
                self.ruled.or(Some(number))
            } else {
                self.ruled
            },
        }
    }
}

/// The verdict on a call to a name that is only seen, from the numbers of its entries. The call passes if a Call rule
/// of an entry matches it, or if it is a property request that a Property rule of an entry matches.
///
/// Each entry that is tested is a step, beside the look-ups that find it.
pub(crate) fn judge_seen<L: Ledger>(
    policy: &Policy,
    message: &Message<'_>,
    numbers: Entries<'_>,
    steps: &mut Steps<L>,
) -> Verdict
    ensures verdict { result ≡ on_seen_call policy.now (message_in message.now.bytes.now) numbers.entry.numbers }
    ensures cost { steps.new ≤ steps.old + entry_steps numbers.entry }
{
    judge_by_rules(policy, message, property_request(message), numbers, steps)
}

// The verdict on such a call, given the property request that it makes.
fn judge_by_rules<L: Ledger>(
    policy: &Policy,
    message: &Message<'_>,
    request: Option<PropertyRequest<'_>>,
    mut numbers: Entries<'_>,
    steps: &mut Steps<L>,
) -> Verdict
    ensures verdict { result ≡ on_request policy.now (message_in message.now.bytes.now) (request_seen request.entry) numbers.entry.numbers }
    ensures cost { steps.new ≤ steps.old + entry_steps numbers.entry }
{
    let mut lowest = Lowest {
        any: None,
        ruled: None,
    };
    while let Some(number) = numbers.next_counted(steps) {
        steps.tick();
        if allows(policy, number, message, request) {
            return Verdict::Pass;
        }
        lowest = lowest.with(policy, number);
    }
    refuse(message, lowest)
}

// Refuses a call that no rule matches.
fn refuse(message: &Message<'_>, lowest: Lowest) -> Verdict
    ensures { result ≡ refused_by_rules (message_in message.now.bytes.now) lowest }
{
    let reason = match lowest.ruled {
        Some(number) => Reason::NoRule(number),
        None => Reason::OnlySee(lowest.any.unwrap_or(0)),
    };
    refused(message, Instead::AccessDenied, reason)
}

/// Whether an entry with one of these numbers has a Broadcast rule that matches the signal. Each tested entry is a
/// step.
pub(crate) fn is_announced<L: Ledger>(
    policy: &Policy,
    message: &Message<'_>,
    mut numbers: Entries<'_>,
    steps: &mut Steps<L>,
) -> bool
    ensures announced { result ≡ list_any (entry_passes policy.now (broadcast_matches (message_in message.now.bytes.now))) numbers.entry.numbers }
    ensures cost { steps.new ≤ steps.old + entry_steps numbers.entry }
{
    while let Some(number) = numbers.next_counted(steps) {
        steps.tick();
        if announces(policy, number, message) {
            return true;
        }
    }
    false
}

/// Whether an entry with one of these numbers has a Call rule. Each tested entry is a step.
pub(crate) fn is_called<L: Ledger>(
    policy: &Policy,
    mut numbers: Entries<'_>,
    steps: &mut Steps<L>,
) -> bool
    ensures called { result ≡ list_any (entry_passes policy.now grant_calls_methods) numbers.entry.numbers }
    ensures cost { steps.new ≤ steps.old + entry_steps numbers.entry }
{
    while let Some(number) = numbers.next_counted(steps) {
        steps.tick();
        if calls_methods(policy, number) {
            return true;
        }
    }
    false
}

// The entry with a number, if the policy has one.
fn entry(policy: &Policy, number: u32) -> Option<&Entry>
    ensures { option_copied result ≡ entry_at policy.now.entries number }
{
    if number == 0 || number > policy.len() {
        None
    } else {
        Some(policy.entry(number))
    }
}

// Whether the entry with a number has a rule that lets the call pass.
fn allows(
    policy: &Policy,
    number: u32,
    message: &Message<'_>,
    request: Option<PropertyRequest<'_>>,
) -> bool
    ensures { result ≡ entry_passes policy.now (lets_pass (path_of (message_in message.now.bytes.now)) (interface_of (message_in message.now.bytes.now)) (member_of (message_in message.now.bytes.now)) (request_seen request.entry)) number }
{
    match entry(policy, number) {
        None => false,
        Some(entry) => is_allowing(&entry.grant, message, request),
    }
}

fn is_allowing(grant: &Grant, message: &Message<'_>, request: Option<PropertyRequest<'_>>) -> bool
    ensures { result ≡ lets_pass (path_of (message_in message.now.bytes.now)) (interface_of (message_in message.now.bytes.now)) (member_of (message_in message.now.bytes.now)) (request_seen request.entry) grant.now }
{
    match grant {
        Grant::Call(rule) => is_matched(rule, message),
        Grant::Property(rule) => permits(rule, message.path(), request),
        Grant::See | Grant::Talk | Grant::Own | Grant::Broadcast(_) => false,
    }
}

// Whether the entry with a number has a rule on calls.
fn rules_calls(policy: &Policy, number: u32) -> bool
    ensures { result ≡ entry_passes policy.now grant_rules_calls number }
{
    match entry(policy, number) {
        None => false,
        Some(entry) => is_ruling_calls(&entry.grant),
    }
}

fn is_ruling_calls(grant: &Grant) -> bool
    ensures { result ≡ grant_rules_calls grant.now }
{
    matches!(grant, Grant::Call(_) | Grant::Property(_))
}

// Whether the entry with a number has a rule on calls of methods.
fn calls_methods(policy: &Policy, number: u32) -> bool
    ensures { result ≡ entry_passes policy.now grant_calls_methods number }
{
    match entry(policy, number) {
        None => false,
        Some(entry) => is_calling_methods(&entry.grant),
    }
}

fn is_calling_methods(grant: &Grant) -> bool
    ensures { result ≡ grant_calls_methods grant.now }
{
    matches!(grant, Grant::Call(_))
}

// Whether the entry with a number has a Broadcast rule that matches the signal.
fn announces(policy: &Policy, number: u32, message: &Message<'_>) -> bool
    ensures { result ≡ entry_passes policy.now (broadcast_matches (message_in message.now.bytes.now)) number }
{
    match entry(policy, number) {
        None => false,
        Some(entry) => is_announcing(&entry.grant, message),
    }
}

fn is_announcing(grant: &Grant, message: &Message<'_>) -> bool
    ensures { result ≡ broadcast_matches (message_in message.now.bytes.now) grant.now }
{
    match grant {
        Grant::Broadcast(rule) => is_matched(rule, message),
        Grant::See | Grant::Talk | Grant::Own | Grant::Call(_) | Grant::Property(_) => false,
    }
}

fn is_matched(rule: &Rule, message: &Message<'_>) -> bool
    ensures { result ≡ rule_matches rule.now (path_of (message_in message.now.bytes.now)) (interface_of (message_in message.now.bytes.now)) (member_of (message_in message.now.bytes.now)) }
{
    match (message.path(), message.member()) {
        (Some(path), Some(member)) => rule.matches(path, message.interface(), member),
        _ => false,
    }
}
