//! The lines of an audit.
ghost use Rattle.std.specs.Prelude.{◌≡◌, ◌≤◌, ◌-◌, ◌++◌, ℕ, List, Some, IfOk, OnOk, flat_map, get_or, length, slice_get, string_bytes};
ghost use Rattle.std.specs.List.{AllZip};
ghost use Rattle.dbus_names.specs.Texts.{Text};
ghost use Rattle.policy_args.specs.declared.entry.Entry.{Entry as EntryValue};
ghost use Rattle.policy_view.specs.Notes.{Note as NoteValue};
ghost use Rattle.audit.specs.Audit.{audit_text as text_of, denied_line as line_of_denied, denied_lines, reason_line as line_of_reason, reason_lines, reason_place, reasons, recording_line as line_of_recording, unless_named, unnamed_line as line_of_unnamed, unnamed_lines, where_any};
ghost use Rattle.audit.specs.Tallies.{Marked, SumsOf, TallyOf, tally_lines};

use crate::counters::Counters;
use crate::marks::Marks;
use crate::sums::{REASONS, Sums, reason_place as place_of};
use crate::tally::Tally;
use explain_log::reason_word;
use policy_args::Policy;
use policy_view::Reason;
use std::alloc::{AllocError, Global};

/// Puts the line of a recording after others.
fn push_recording(
    alloc: Global,
    text: &mut String,
    number: u64,
    tally: &Tally,
) -> Result<(), AllocError>
    ensures { OnOk result (string_bytes text.new ≡ string_bytes text.old ++ line_of_recording number tally.now.items tally.now.denied) }
{
    let items = tally.items;
    let denied = tally.denied;
    text.push_str(&format!(in alloc; "recording {number} items {items} denied {denied}\n")?)
}

/// Puts the lines of the recordings after others.
fn push_recordings(alloc: Global, text: &mut String, tallies: &[Tally]) -> Result<(), AllocError>
    ensures { OnOk result (string_bytes text.new ≡ string_bytes text.old ++ tally_lines 1 tallies.now) }
{
    for place in 0..tallies.len() {
        push_recording(alloc, text, place as u64 + 1, &tallies[place])?;
    }
    Ok(())
}

/// Puts the line of a reason after others, unless it is counted 0.
fn push_reason(
    alloc: Global,
    text: &mut String,
    reason: Reason,
    count: u64,
) -> Result<(), AllocError>
    ensures { OnOk result (string_bytes text.new ≡ string_bytes text.old ++ where_any count (line_of_reason reason count)) }
{
    if count == 0 {
        return Ok(());
    }
    let word = reason_word(reason);
    text.push_str(&format!(in alloc; "reason {word}{count}\n")?)
}

/// Puts the lines of the reasons after others.
fn push_reasons(alloc: Global, text: &mut String, counters: &Counters) -> Result<(), AllocError>
    ensures { OnOk result (string_bytes text.new ≡ string_bytes text.old ++ reason_lines (λ reason. get_or counters.now (reason_place reason) 0) reasons) }
{
    for reason in REASONS {
        push_reason(alloc, text, reason, counters.get(place_of(reason)))?;
    }
    Ok(())
}

/// Puts the line of the denials that rest on an entry after others, unless it is counted 0.
fn push_denied(alloc: Global, text: &mut String, number: u32, count: u64) -> Result<(), AllocError>
    ensures { OnOk result (string_bytes text.new ≡ string_bytes text.old ++ where_any count (line_of_denied number count)) }
{
    if count == 0 {
        return Ok(());
    }
    text.push_str(&format!(in alloc; "entry {number} denied {count}\n")?)
}

/// Puts the lines of the entries with denials after others.
fn push_all_denied(
    alloc: Global,
    text: &mut String,
    policy: &Policy,
    counters: &Counters,
) -> Result<(), AllocError>
    ensures { OnOk result (string_bytes text.new ≡ string_bytes text.old ++ denied_lines (λ number. get_or counters.now number 0) 1 policy.now.entries) }
{
    for place in 0..policy.len() {
        let number = place + 1;
        push_denied(alloc, text, number, counters.get(number as usize))?;
    }
    Ok(())
}

/// Puts the line of an entry that isn't named after others.
fn push_unnamed(
    alloc: Global,
    text: &mut String,
    policy: &Policy,
    number: u32,
    is_named: bool,
) -> Result<(), AllocError>
    requires first { 1 ≤ number }
    requires last { number ≤ length policy.now.entries }
    ensures { (entry : EntryValue) → slice_get policy.now.entries (number - 1) ≡ Some entry → OnOk result (string_bytes text.new ≡ string_bytes text.old ++ unless_named is_named (line_of_unnamed number entry)) }
{
    if is_named {
        return Ok(());
    }
    let word = policy.word(number);
    text.push_str(&format!(in alloc; "unnamed {number} {word}\n")?)
}

/// Puts the lines of the entries that aren't named after others.
fn push_all_unnamed(
    alloc: Global,
    text: &mut String,
    policy: &Policy,
    named: &Marks,
) -> Result<(), AllocError>
    ensures { (names : List Text) → Marked policy.now.entries names named.now → OnOk result (string_bytes text.new ≡ string_bytes text.old ++ unnamed_lines names 1 policy.now.entries) }
{
    for place in 0..policy.len() {
        push_unnamed(
            alloc,
            text,
            policy,
            place + 1,
            named.is_marked(place as usize),
        )?;
    }
    Ok(())
}

/// What is counted of all recordings.
fn sums_of(alloc: Global, policy: &Policy, tallies: &[Tally]) -> Result<Sums, AllocError>
    ensures { (recordings : List (List NoteValue)) → AllZip (TallyOf policy.now) recordings tallies.now → IfOk result (λ sums. SumsOf policy.now (flat_map (λ notes. notes) recordings) sums) }
{
    let mut sums = Sums::new(alloc, policy)?;
    for tally in tallies {
        sums.add(&tally.sums)?;
    }
    Ok(sums)
}

/// The text of an audit, by what was counted of each recording.
pub fn audit_text(alloc: Global, policy: &Policy, tallies: &[Tally]) -> Result<String, AllocError>
    ensures { (recordings : List (List NoteValue)) → AllZip (TallyOf policy.now) recordings tallies.now → IfOk result (λ text. string_bytes text ≡ text_of policy.now recordings) }
{
    let sums = sums_of(alloc, policy, tallies)?;
    let mut text = String::new(alloc);
    push_recordings(alloc, &mut text, tallies)?;
    push_reasons(alloc, &mut text, &sums.reasons)?;
    push_all_denied(alloc, &mut text, policy, &sums.entries)?;
    push_all_unnamed(alloc, &mut text, policy, &sums.named)?;
    Ok(text)
}
