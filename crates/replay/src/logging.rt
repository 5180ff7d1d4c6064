//! Writing the log of a session: a line for each of its notes, joined so that one write carries many.
ghost use Rattle.std.specs.Prelude.{◌≡◌, ◌≤◌, ◌<◌, ◌++◌, [], length, string_bytes, string_len, OnOk, IsErrOf};
ghost use Rattle.link_traits.specs.Told.{added, Part};
ghost use Rattle.link_traits.specs.Views.{SinkRose};
ghost use Rattle.explain_log.specs.Lines.{log_line, log};
ghost use Rattle.replay.specs.Logging.{Joins, LineRefused};

use crate::ReplayFault;
use explain_log::push_line;
use link_traits::{Sink, write_all};
use policy_view::Note;
use proxy_core::Session;
use std::alloc::Global;

/// The number of a recording's session in its log.
pub const SESSION: u32 = 1;

/// Once this many bytes of lines are joined they are written, so that many notes take no more memory.
const LONG: usize = 65_536;

/// Writes the lines that are joined.
pub fn write_lines<E: Sink>(lines: &mut String, err: &mut E) -> Result<(), ReplayFault>
    ensures ok { OnOk result ((E.view err.new).told ≡ added (string_bytes lines.old) (E.view err.old).told) }
    ensures none { OnOk result (string_bytes lines.new ≡ []) }
    ensures len { OnOk result (string_len lines.new ≡ 0) }
    ensures part { Part (E.view err.old).told (E.view err.new).told (string_bytes lines.old) }
    ensures out { IsErrOf result ReplayFault.Out → ⊥ }
    ensures memory { IsErrOf result ReplayFault.Memory → ⊥ }
    ensures cause { IsErrOf result ReplayFault.Err → SinkRose (E.view err.old) (E.view err.new) }
    ensures count { (E.view err.old).faults ≤ (E.view err.new).faults }
{
    if write_all(err, lines.as_bytes()).is_err() {
        return Err(ReplayFault::Err);
    }
    lines.clear();
    Ok(())
}

/// Joins the line of a note to the others, and writes them if they are long. If memory is refused for the line the
/// others are written.
#[tactic(auto, using(link_traits::proofs::Parts::part_none))]
pub fn put_line<E: Sink>(
    alloc: Global,
    session: u32,
    note: &Note,
    lines: &mut String,
    err: &mut E,
) -> Result<(), ReplayFault>
    ensures ok { OnOk result (Joins (E.view err.old).told (E.view err.new).told (string_bytes lines.old ++ log_line session note.now) (string_bytes lines.new)) }
    ensures short { OnOk result (string_len lines.new < LONG) }
    ensures part { Part (E.view err.old).told (E.view err.new).told (string_bytes lines.old ++ log_line session note.now) }
    ensures out { IsErrOf result ReplayFault.Out → ⊥ }
    ensures memory { IsErrOf result ReplayFault.Memory → (E.view err.new).told ≡ added (string_bytes lines.old) (E.view err.old).told }
    ensures cause { IsErrOf result ReplayFault.Err → SinkRose (E.view err.old) (E.view err.new) }
    ensures count { (E.view err.old).faults ≤ (E.view err.new).faults }
{
    if push_line(alloc, lines, session, note).is_err() {
        write_lines(lines, err)?;
        return Err(ReplayFault::Memory);
    }
    if lines.len() < LONG {
        return Ok(());
    }
    write_lines(lines, err)
}

/// Writes the lines of all notes that wait. If memory is refused for a line, those before it are written.
pub fn write_log<E: Sink>(
    alloc: Global,
    session: &mut Session,
    err: &mut E,
) -> Result<(), ReplayFault>
    ensures ok { OnOk result ((E.view err.new).told ≡ added (log 1 session.old.notes) (E.view err.old).told) }
    ensures some { IsErrOf result ReplayFault.Err → 0 < length session.old.notes }
    ensures part { Part (E.view err.old).told (E.view err.new).told (log 1 session.old.notes) }
    ensures session { session.new ≡ record session.old { notes = session.new.notes } }
    ensures out { IsErrOf result ReplayFault.Out → ⊥ }
    ensures refused { IsErrOf result ReplayFault.Memory → LineRefused (E.view err.old).told (E.view err.new).told session.old.notes session.new.notes }
    ensures cause { IsErrOf result ReplayFault.Err → SinkRose (E.view err.old) (E.view err.new) }
    ensures count { (E.view err.old).faults ≤ (E.view err.new).faults }
{
    let mut lines = String::new(alloc);
    while let Some(note) = session.next_note() {
        put_line(alloc, SESSION, &note, &mut lines, err)?;
    }
    if lines.is_empty() {
        return Ok(());
    }
    write_lines(&mut lines, err)
}
