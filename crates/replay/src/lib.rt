//! Replaying a recorded session against a policy.
//!
//! The events of a recording are given to a session, and then what that has for either side is written, as records. A
//! record is a kind byte, a length of four bytes with the lowest first, and that many bytes. Kind 16 has all bytes for
//! the bus, kind 17 all bytes for the client, and kind 18 says why the session ended; each is left out if there is
//! nothing to say.
//!
//! If the policy's words ask for a log, a line for each message of the session is written first, to a sink of its own.
//! One message alone can be explained: its line, and the entry of the policy on which its decision rests.
//!
//! A recording may have many sessions. Each is played by its own events. The output has the records of one session
//! after those of another, in the ascending order of their numbers, and each record has the session's number, four
//! bytes with the lowest first, between its kind and its length.
//!
//! Two recordings can be compared: whether what the policy lets be seen of either is the same, and else if it first
//! differs.
#![tactic(auto)]

mod comparing;
mod explaining;
mod laws;
mod listing;
mod logging;
mod played_notes;
mod playing;
mod session_logging;
mod session_notes;
mod session_playing;
mod session_writing;
mod watching;
mod writing;

ghost use Rattle.std.specs.Prelude.{◌≡◌, ◌≤◌, ◌⊎◌, ◌↔◌, ℕ, true, List, Some, None, IfOk, IsOk, OnOk, OnErr, IsErrOf, IfSome};
ghost use Rattle.link_traits.specs.Told.{added, Part};
ghost use Rattle.link_traits.specs.Views.{SinkRose};
ghost use Rattle.policy_args.specs.Seen.{options_seen};
ghost use Rattle.recording.specs.Seen.{recording_seen, size};
ghost use Rattle.recording.specs.SessionsSeen.{IsReadable, sessions_seen};
ghost use Rattle.policy_view.specs.Notes.{notes as notes_of};
ghost use Rattle.replay_output.specs.Output.{history_of, output_of_recording, log_of_recording};
ghost use Rattle.replay_output.specs.Explained.{explained, with_log};
ghost use Rattle.replay.specs.Logging.{WholeLines, WholeSessionLines};
ghost use Rattle.replay.specs.SessionsOutput.{log_of_sessions, noted_in, output_of_sessions};

pub use comparing::{TwinAnswer, twin};
use explaining::{note_of, write_explanation};
pub use laws::{one_session_replays_alike, version_1_is_replayed};
use link_traits::{Sink, SinkFault};
pub use listing::NoteList;
use listing::waiting_notes;
use logging::write_log;
pub use played_notes::PlayedNotes;
use playing::play;
use policy_args::Options;
use recording::{RECORDING_LIMIT, Recording, Sessions};
use session_logging::write_session_log;
use session_playing::{Players, play_only, play_sessions};
use session_writing::write_sessions;
use std::alloc::{AllocError, Global};
use thiserror::Error;
use writing::write_output;

/// Why a replay stopped.
#[derive(Clone, Copy, Debug, PartialEq, Eq, Error)]
pub enum ReplayFault {
    /// The output could not be written; a prefix of it may have been. The whole log was written before.
    #[error("the output could not be written")]
    Out,
    /// The log could not be written; a prefix of it may have been. Nothing of the output was. Comes only if the options
    /// ask for a log.
    #[error("the log could not be written")]
    Err,
    /// Memory was refused, perhaps to the session. Nothing of the output was written, and of the log whole lines, from
    /// the first on.
    #[error("out of memory")]
    Memory,
}

impl From<AllocError> for ReplayFault {
    ghost use Rattle.std.specs.Prelude.{◌≡◌};
    ghost use Rattle.replay.specs.declared.ReplayFault.TheVariants.{Memory};

    ghost from_gives = { λ _ e. e ≡ Memory };

    fn from(_error: AllocError) -> ReplayFault {
        ReplayFault::Memory
    }
}

/// Plays a recording under the policy of the options, writes the log to `err` if the options ask for one, and then what
/// its session gives out to `out`. Both are written once all events were played, so memory grows with the bytes of the
/// recording.
#[tactic(auto, using(link_traits::proofs::Parts::part_none))]
pub fn replay<O: Sink, E: Sink>(
    alloc: Global,
    options: &Options,
    recording: &Recording,
    out: &mut O,
    err: &mut E,
) -> Result<(), ReplayFault>
    requires size { size (recording_seen recording.now).events ≤ RECORDING_LIMIT }

    // out gets the output and err the log: all of it, or a prefix if the replay stops.
    ensures out { OnOk result ((O.view out.new).told ≡ added (output_of_recording (options_seen options.now) (recording_seen recording.now)) (O.view out.old).told) }
    ensures log { OnOk result ((E.view err.new).told ≡ added (log_of_recording (options_seen options.now) (recording_seen recording.now)) (E.view err.old).told) }
    ensures part { Part (O.view out.old).told (O.view out.new).told (output_of_recording (options_seen options.now) (recording_seen recording.now)) }
    ensures log_part { Part (E.view err.old).told (E.view err.new).told (log_of_recording (options_seen options.now) (recording_seen recording.now)) }

    // The log is first: out gets nothing before err has all of it.
    ensures first { IsErrOf result ReplayFault.Out → (E.view err.new).told ≡ added (log_of_recording (options_seen options.now) (recording_seen recording.now)) (E.view err.old).told }
    ensures unwritten { IsErrOf result ReplayFault.Err → (O.view out.new).told ≡ (O.view out.old).told }
    ensures memory { IsErrOf result ReplayFault.Memory → (O.view out.new).told ≡ (O.view out.old).told }
    ensures whole { IsErrOf result ReplayFault.Memory → WholeLines (E.view err.old).told (E.view err.new).told (log_of_recording (options_seen options.now) (recording_seen recording.now)) }

    // A sink is named only if it failed, and err only if a log is asked for.
    ensures cause { IsErrOf result ReplayFault.Out → SinkRose (O.view out.old) (O.view out.new) }
    ensures log_cause { IsErrOf result ReplayFault.Err → SinkRose (E.view err.old) (E.view err.new) }
    ensures asked { IsErrOf result ReplayFault.Err → options.now.log ≡ true }
    ensures count { (O.view out.old).faults ≤ (O.view out.new).faults }
    ensures log_count { (E.view err.old).faults ≤ (E.view err.new).faults }
{
    let mut session = play(alloc, options, recording, options.log)?;
    write_log(alloc, &mut session, err)?;
    match write_output(None, &mut session, out) {
        Ok(()) => Ok(()),
        Err(_) => Err(ReplayFault::Out),
    }
}

/// The version of a recording of one session.
const ONE_SESSION: u8 = 1;

/// Plays a recording of many sessions under the policy of the options, each session by its own events. If the options
/// ask for a log, its lines are written to `err` first, in the order of the events that brought them. Then the output
/// of each session is written to `out`, in the ascending order of their numbers. Both are written after all events were
/// played, so memory grows with the bytes of the recording. A recording of version 1 is replayed as by `replay`, and
/// its records have no session.
///
/// The errors are those of `replay`. `Memory` also means that one of the sessions ended for want of memory.
#[tactic(auto, using(link_traits::proofs::Parts::part_none))]
pub fn replay_sessions<O: Sink, E: Sink>(
    alloc: Global,
    options: &Options,
    sessions: &Sessions,
    out: &mut O,
    err: &mut E,
) -> Result<(), ReplayFault>
    // This holds of each recording that `recording::read_any` reads.
    requires readable { IsReadable (sessions_seen sessions.now) }

    // out gets the output and err the log: all of it, or a prefix if the replay stops.
    ensures out { OnOk result ((O.view out.new).told ≡ added (output_of_sessions (options_seen options.now) (sessions_seen sessions.now)) (O.view out.old).told) }
    ensures log { OnOk result ((E.view err.new).told ≡ added (log_of_sessions (options_seen options.now) (sessions_seen sessions.now)) (E.view err.old).told) }
    ensures part { Part (O.view out.old).told (O.view out.new).told (output_of_sessions (options_seen options.now) (sessions_seen sessions.now)) }
    ensures log_part { Part (E.view err.old).told (E.view err.new).told (log_of_sessions (options_seen options.now) (sessions_seen sessions.now)) }

    // The log is first: out gets nothing before err has all of it.
    ensures first { IsErrOf result ReplayFault.Out → (E.view err.new).told ≡ added (log_of_sessions (options_seen options.now) (sessions_seen sessions.now)) (E.view err.old).told }
    ensures unwritten { IsErrOf result ReplayFault.Err → (O.view out.new).told ≡ (O.view out.old).told }
    ensures memory { IsErrOf result ReplayFault.Memory → (O.view out.new).told ≡ (O.view out.old).told }
    ensures whole { IsErrOf result ReplayFault.Memory → WholeSessionLines (E.view err.old).told (E.view err.new).told (noted_in (options_seen options.now) (sessions_seen sessions.now)) }

    // A sink is named only if it failed, and err only if a log is asked for.
    ensures cause { IsErrOf result ReplayFault.Out → SinkRose (O.view out.old) (O.view out.new) }
    ensures log_cause { IsErrOf result ReplayFault.Err → SinkRose (E.view err.old) (E.view err.new) }
    ensures asked { IsErrOf result ReplayFault.Err → options.now.log ≡ true }
    ensures count { (O.view out.old).faults ≤ (O.view out.new).faults }
    ensures log_count { (E.view err.old).faults ≤ (E.view err.new).faults }
{
    if sessions.version == ONE_SESSION {
        let mut session = play_only(alloc, options, sessions)?;
        write_log(alloc, &mut session, err)?;
        return match write_output(None, &mut session, out) {
            Ok(()) => Ok(()),
            Err(_) => Err(ReplayFault::Out),
        };
    }
    let Players { mut running, notes } = play_sessions(alloc, options, sessions)?;
    write_session_log(alloc, &notes, err)?;
    replay_result(write_sessions(&mut running, out))
}

/// What a replay answers after its output was written, or could not be.
fn replay_result(written: Result<(), SinkFault>) -> Result<(), ReplayFault>
    ensures ok { IsOk result ↔ IsOk written }
    ensures fault { OnErr result (IsErrOf result ReplayFault.Out) }
{
    match written {
        Ok(()) => Ok(()),
        Err(_) => Err(ReplayFault::Out),
    }
}

/// What was decided on each message of a recording under the policy of the options, in the order of the messages,
/// whether the options ask for a log or not. Without the filter there are no messages. Refused if memory is refused,
/// also to the session.
pub fn notes(
    alloc: Global,
    options: &Options,
    recording: &Recording,
) -> Result<NoteList, AllocError>
    requires size { size (recording_seen recording.now).events ≤ RECORDING_LIMIT }
    ensures { IfOk result (λ list. list ≡ notes_of options.now.policy (history_of (with_log (options_seen options.now)) (recording_seen recording.now))) }
{
    let mut session = play(alloc, options, recording, true)?;
    waiting_notes(alloc, &mut session)
}

/// Why nothing, or not all, was explained.
#[derive(Clone, Copy, Debug, PartialEq, Eq, Error)]
pub enum ExplainFault {
    /// No message of the recording has the number: it is 0, or above that of the last message. Nothing was written.
    #[error("the recording has no message of the number")]
    NoSuchMessage,
    /// The explanation could not be written; a prefix of it may have been.
    #[error("the explanation could not be written")]
    Out,
    /// Memory was refused, perhaps to the session. Nothing was written.
    #[error("out of memory")]
    Memory,
}

impl From<AllocError> for ExplainFault {
    ghost use Rattle.std.specs.Prelude.{◌≡◌};
    ghost use Rattle.replay.specs.declared.ExplainFault.TheVariants.{Memory};

    ghost from_gives = { λ _ e. e ≡ Memory };

    fn from(_error: AllocError) -> ExplainFault {
        ExplainFault::Memory
    }
}

/// Plays a recording under the policy of the options, and writes what is to be said of its message of a number to
/// `out`: the line of the message, as a log has it, and the line of the entry on which its decision rests, if it rests
/// on one. The messages of both sides are counted together, from 1; the options need not ask for a log.
#[tactic(auto, using(link_traits::proofs::Parts::part_none))]
pub fn explain<O: Sink>(
    alloc: Global,
    options: &Options,
    recording: &Recording,
    number: u64,
    out: &mut O,
) -> Result<(), ExplainFault>
    requires size { size (recording_seen recording.now).events ≤ RECORDING_LIMIT }

    // out gets the explanation: all of it, or a prefix if out fails.
    ensures ok { OnOk result ((bytes : List ℕ) × (explained (options_seen options.now) (recording_seen recording.now) number ≡ Some bytes) × ((O.view out.new).told ≡ added bytes (O.view out.old).told)) }
    ensures part { IfSome (explained (options_seen options.now) (recording_seen recording.now) number) (λ bytes. Part (O.view out.old).told (O.view out.new).told bytes) }

    // There is no such message exactly if nothing is explained of the number, unless memory is refused.
    ensures missing { IsErrOf result ExplainFault.NoSuchMessage → explained (options_seen options.now) (recording_seen recording.now) number ≡ None }
    ensures none { explained (options_seen options.now) (recording_seen recording.now) number ≡ None → IsErrOf result ExplainFault.NoSuchMessage ⊎ IsErrOf result ExplainFault.Memory }

    // Nothing is written unless there is such a message and both of its lines are made.
    ensures unwritten { IsErrOf result ExplainFault.NoSuchMessage → (O.view out.new).told ≡ (O.view out.old).told }
    ensures memory { IsErrOf result ExplainFault.Memory → (O.view out.new).told ≡ (O.view out.old).told }

    // out is named only if it failed.
    ensures cause { IsErrOf result ExplainFault.Out → SinkRose (O.view out.old) (O.view out.new) }
    ensures count { (O.view out.old).faults ≤ (O.view out.new).faults }
{
    let mut session = play(alloc, options, recording, true)?;
    match note_of(&mut session, number) {
        Some(note) => write_explanation(alloc, &options.policy, &note, out),
        None => Err(ExplainFault::NoSuchMessage),
    }
}
