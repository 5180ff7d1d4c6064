//! Laws of replays, each as a call whose contract it is.
ghost use Rattle.std.specs.Prelude.{◌≡◌, ℕ, [], if◌then◌else◌};
ghost use Rattle.explain_log.specs.Lines.{log};
ghost use Rattle.policy_args.specs.Words.{PolicyOptions};
ghost use Rattle.policy_view.specs.Notes.{notes};
ghost use Rattle.recording.specs.Recording.{Recording};
ghost use Rattle.recording.specs.Sessions.{migrated};
ghost use Rattle.replay.specs.OneSession.{as_version_2};
ghost use Rattle.replay_output.specs.Output.{history_of, log_of_recording, output_of_recording};
ghost use Rattle.replay.specs.SessionsOutput.{log_of_sessions, output_of_sessions, session_output};

use policy_view::bytes_only_grow;

/// A session that is alone in a recording of version 2 is replayed as in a recording of version 1. Its history is the
/// same, and so are its records and the lines of its log, apart from its number.
pub fn one_session_replays_alike()
    ensures output { (options : PolicyOptions) (recording : Recording) (session : ℕ) → output_of_sessions options (as_version_2 session recording) ≡ session_output options.policy session (history_of options recording) }
    ensures log { (options : PolicyOptions) (recording : Recording) (session : ℕ) → log_of_sessions options (as_version_2 session recording) ≡ (if options.log then log session (notes options.policy (history_of options recording)) else []) }
{
    bytes_only_grow();
}

/// A recording of version 1 is replayed as one of many sessions like the recording of one session that it is.
pub fn version_1_is_replayed()
    ensures output { (options : PolicyOptions) (recording : Recording) → output_of_sessions options (migrated recording) ≡ output_of_recording options recording }
    ensures log { (options : PolicyOptions) (recording : Recording) → log_of_sessions options (migrated recording) ≡ log_of_recording options recording }
{}
