//! Writing the log of many sessions: a line for each note, in the order of the notes.
ghost use Rattle.std.specs.Prelude.{◌≡◌, ◌≤◌, ◌<◌, length, OnOk, IsErrOf};
ghost use Rattle.link_traits.specs.Told.{added, Part};
ghost use Rattle.link_traits.specs.Views.{SinkRose};
ghost use Rattle.replay.specs.Logging.{WholeSessionLines};
ghost use Rattle.replay.specs.SessionsOutput.{session_log};

use crate::ReplayFault;
use crate::logging::{put_line, write_lines};
use crate::session_notes::SessionNote;
use link_traits::Sink;
use std::alloc::Global;

/// Writes the lines of all notes, each with the number of its session. If memory is refused for a line, the lines
/// before it are written.
pub fn write_session_log<E: Sink>(
    alloc: Global,
    notes: &[SessionNote],
    err: &mut E,
) -> Result<(), ReplayFault>
    ensures ok { OnOk result ((E.view err.new).told ≡ added (session_log notes.now) (E.view err.old).told) }
    ensures some { IsErrOf result ReplayFault.Err → 0 < length notes.now }
    ensures part { Part (E.view err.old).told (E.view err.new).told (session_log notes.now) }
    ensures out { IsErrOf result ReplayFault.Out → ⊥ }
    ensures refused { IsErrOf result ReplayFault.Memory → WholeSessionLines (E.view err.old).told (E.view err.new).told notes.now }
    ensures cause { IsErrOf result ReplayFault.Err → SinkRose (E.view err.old) (E.view err.new) }
    ensures count { (E.view err.old).faults ≤ (E.view err.new).faults }
{
    let mut lines = String::new(alloc);
    for noted in notes {
        put_line(alloc, noted.session, &noted.note, &mut lines, err)?;
    }
    if lines.is_empty() {
        return Ok(());
    }
    write_lines(&mut lines, err)
}
