//! Explaining a message of a recording: the line of its note, and that of the entry on which its decision rests.
ghost use Rattle.std.specs.Prelude.{◌≡◌, ◌≤◌, ◌⊎◌, ◌++◌, [], None, IsSome, OnOk, OnErr, IsErrOf, IfSome, List, ℕ, option_map, string_bytes, unwrap_or};
ghost use Rattle.link_traits.specs.Told.{added, Part};
ghost use Rattle.link_traits.specs.Views.{SinkRose};
ghost use Rattle.replay_output.specs.Explained.{note_at, explanation};

use crate::ExplainFault;
use crate::logging::SESSION;
use explain_log::{entry_line, line};
use link_traits::{Sink, SinkFault, write_all};
use policy_args::Policy;
use policy_view::Note;
use proxy_core::Session;
use std::alloc::Global;

/// The note of a number, from 1, of those that wait.
pub fn note_of(session: &mut Session, number: u64) -> Option<Note>
    ensures { result ≡ note_at session.old.notes number }
{
    if number == 0 {
        return None;
    }
    let mut before = number - 1;
    while before > 0 {
        if session.next_note().is_none() {
            return None;
        }
        before -= 1;
    }
    session.next_note()
}

/// Writes the explanation of a note. Both lines are made before the first is written.
#[tactic(auto, using(link_traits::proofs::Parts::part_none))]
pub fn write_explanation<O: Sink>(
    alloc: Global,
    policy: &Policy,
    note: &Note,
    out: &mut O,
) -> Result<(), ExplainFault>
    ensures ok { OnOk result ((O.view out.new).told ≡ added (explanation policy.now note.now) (O.view out.old).told) }
    ensures part { Part (O.view out.old).told (O.view out.new).told (explanation policy.now note.now) }
    ensures memory { IsErrOf result ExplainFault.Memory → (O.view out.new).told ≡ (O.view out.old).told }
    ensures found { IsErrOf result ExplainFault.NoSuchMessage → ⊥ }
    ensures cause { IsErrOf result ExplainFault.Out → SinkRose (O.view out.old) (O.view out.new) }
    ensures count { (O.view out.old).faults ≤ (O.view out.new).faults }
{
    let text = line(alloc, SESSION, note)?;
    let entry = entry_line(alloc, policy, note)?;
    if write_lines(text, entry, out).is_err() {
        return Err(ExplainFault::Out);
    }
    Ok(())
}

/// Writes a line, and another after it if there is one.
#[tactic(auto, using(link_traits::proofs::Parts::part_first, link_traits::proofs::Parts::part_second, link_traits::proofs::Parts::then_all))]
fn write_lines<O: Sink>(first: String, second: Option<String>, out: &mut O) -> Result<(), SinkFault>
    ensures ok { OnOk result ((O.view out.new).told ≡ added (string_bytes first ++ unwrap_or (option_map (λ text. string_bytes text) second) []) (O.view out.old).told) }
    ensures part { Part (O.view out.old).told (O.view out.new).told (string_bytes first ++ unwrap_or (option_map (λ text. string_bytes text) second) []) }
    ensures cause { OnErr result (SinkRose (O.view out.old) (O.view out.new)) }
    ensures count { (O.view out.old).faults ≤ (O.view out.new).faults }
{
    write_all(out, first.as_bytes())?;
    write_second(second, out)
}

/// Writes a line if there is one.
#[tactic(auto, using(link_traits::proofs::Parts::part_none))]
fn write_second<O: Sink>(second: Option<String>, out: &mut O) -> Result<(), SinkFault>
    ensures ok { OnOk result ((O.view out.new).told ≡ added (unwrap_or (option_map (λ text. string_bytes text) second) []) (O.view out.old).told) }
    ensures part { Part (O.view out.old).told (O.view out.new).told (unwrap_or (option_map (λ text. string_bytes text) second) []) }
    ensures cause { OnErr result (SinkRose (O.view out.old) (O.view out.new)) }
    ensures count { (O.view out.old).faults ≤ (O.view out.new).faults }
{
    match second {
        None => Ok(()),
        Some(text) => write_all(out, text.as_bytes()),
    }
}
