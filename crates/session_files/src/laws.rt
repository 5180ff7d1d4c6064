//! What the file of one session has to do with the recording that it was taken from.
ghost use Rattle.std.specs.Prelude.{◌≡◌, ◌≤◌, ◌<◌, ℕ, List, All, Ok, Some, length};
ghost use Rattle.policy_args.specs.Words.{PolicyOptions};
ghost use Rattle.recording.specs.Recording.{recording_of, spelled_recording};
ghost use Rattle.recording.specs.Sessions.{Sessions, sessions_of};
ghost use Rattle.replay.specs.OneSession.{as_version_2};
ghost use Rattle.replay_output.specs.Output.{history_of};
ghost use Rattle.replay.specs.SessionsOutput.{output_of_sessions, session_history, session_mode, session_output};
ghost use Rattle.session_files.specs.OneSession.{HasHistoryBeforeStop, IsOfFile, RunsWithoutStop, session_file_of, session_recording};

use recording::{
    RECORDING_LIMIT, read_is_spelled, read_sessions_are_spelled, version_1_is_migrated,
    written_is_read,
};
use replay::one_session_replays_alike;

/// The file of a session is no longer than a recording may be.
pub fn session_file_fits()
    ensures { (s : Sessions) (session : ℕ) → IsOfFile s → length (spelled_recording (session_recording s session)) ≤ RECORDING_LIMIT }
{
    read_is_spelled();
    read_sessions_are_spelled();
    version_1_is_migrated();
}

/// The file of a session is read as its recording.
pub fn session_file_is_read()
    ensures { (s : Sessions) (session : ℕ) → IsOfFile s → recording_of (spelled_recording (session_recording s session)) ≡ Ok (session_recording s session) }
{
    session_file_fits();
    written_is_read();
    read_sessions_are_spelled();
}

/// A file of version 1 is the file of its session.
pub fn version_1_is_its_session()
    ensures { (file : List ℕ) (s : Sessions) → All (λ b. b < 256) file → sessions_of file ≡ Ok s → s.version ≡ 1 → session_file_of s 1 ≡ Some file }
{
    version_1_is_migrated();
    read_is_spelled();
}

/// A session's recording has the history that the whole recording gives the session up to its first stop. If there is
/// no stop, it has the whole history and is replayed as in the whole recording.
pub fn session_is_replayed()
    ensures history { (options : PolicyOptions) (s : Sessions) (session : ℕ) → HasHistoryBeforeStop options s session }
    ensures whole { (options : PolicyOptions) (s : Sessions) (session : ℕ) → RunsWithoutStop s session → history_of options (session_recording s session) ≡ session_history options.policy (session_mode options s.auth) session s.events }
    ensures output { (options : PolicyOptions) (s : Sessions) (session : ℕ) → RunsWithoutStop s session → output_of_sessions options (as_version_2 session (session_recording s session)) ≡ session_output options.policy session (session_history options.policy (session_mode options s.auth) session s.events) }
{
    one_session_replays_alike();
}
