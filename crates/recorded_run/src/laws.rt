//! What a recording of a proxy's net has to do with the sessions that were served.
ghost use Rattle.std.specs.Prelude.{◌≡◌, ◌++◌, [], List, true, Ok};
ghost use Rattle.std.specs.List.{flat_map, list_all};
ghost use Rattle.link_traits.specs.Journals.{Journal};
ghost use Rattle.policy_args.specs.declared.line.Block.{Block};
ghost use Rattle.proxy_loop.specs.Servers.{LinksStand, WithoutSessions};
ghost use Rattle.recording.specs.Sessions.{sessions_of, sessions_named};
ghost use Rattle.record_net.specs.Fitting.{entry_fits};
ghost use Rattle.record_net.specs.Records.{recorded};
ghost use Rattle.record_net.specs.Sessions.{items_of};
ghost use Rattle.recorded_run.specs.Recordings.{FitsFormat, IsWithinLimits, TellsHistories, recording_of};
ghost use Rattle.recorded_run.specs.Runs.{LinksRecorded, LinksReplayed};
ghost use Rattle.policy_args.specs.declared.options.Options.{Options};
ghost use Rattle.policy_args.specs.Seen.{options_seen};
ghost use Rattle.replay.specs.SessionsOutput.{output_of_sessions, session_output};
ghost use Rattle.recorded_run.specs.Events.{recorded_history};

use record_net::{recorded_is_read, records_tell_each_session};

/// A file can have what is recorded of a proxy's net: a server calls links of sessions that were accepted, so their
/// numbers are above 0. Within a reader's limits the file is read back.
pub fn what_a_server_records_fits()
    ensures fits { (blocks : List Block) (was since : Journal) → WithoutSessions was → LinksStand blocks (since ++ was)
        → list_all entry_fits since ≡ true → FitsFormat since }
    ensures read { (since : Journal) → FitsFormat since → IsWithinLimits since
        → sessions_of (recorded since) ≡ Ok (recording_of since) }
{
    recorded_is_read();
}

/// The history of a session's recorded events is that of its events in the journal, unless its connect was refused
/// memory.
pub fn recorded_events_have_the_histories()
    ensures { (was since : Journal) → WithoutSessions was → TellsHistories was since }
{
    records_tell_each_session();
}

/// What was written to a session's links is a prefix of the bytes of the history of its recorded events.
pub fn recorded_links_stand()
    ensures links { (blocks : List Block) (was since : Journal) → LinksStand blocks (since ++ was) → LinksRecorded blocks was since }
    ensures replayed { (blocks : List Block) (was since : Journal) → LinksStand blocks (since ++ was) → LinksReplayed blocks was since }
{
    recorded_events_have_the_histories();
}

/// A replay of a recording of a proxy's net writes of each session the bytes of the history of its recorded events,
/// which are those that the links of the session got, or more.
pub fn recorded_histories_are_replayed()
    ensures { (options : Options) (since : Journal) → output_of_sessions (options_seen options) (recording_of since) ≡ flat_map (λ n. session_output options.policy n (recorded_history options n (items_of since))) (sessions_named [] (items_of since)) }
{}
