//! How the records of a journal relate to its sessions, and what is read of a recording of it.
ghost use Rattle.std.specs.Prelude.{◌≡◌, ◌≤◌, ℕ, true, Ok, length, reverse};
ghost use Rattle.std.specs.List.{flat_map};
ghost use Rattle.link_traits.specs.Journals.{Journal};
ghost use Rattle.recording.specs.Sessions.{sessions_of, spelled_session_event, spelled_sessions};
ghost use Rattle.recording.specs.SessionsSeen.{EventsFit};
ghost use Rattle.record_net.specs.Records.{recorded, records_of};
ghost use Rattle.record_net.specs.Sessions.{items_of, events_in, session_events};

use recording::{RECORDING_LIMIT, written_sessions_are_read};

/// A journal's records are the spelling of a list of events, each with its session, and the events of a session there
/// are the session's events in the journal, in their order.
pub fn records_tell_each_session()
    ensures records { (journal : Journal) → records_of journal ≡ flat_map spelled_session_event (items_of journal) }
    ensures sessions { (n : ℕ) (journal : Journal) → events_in n (items_of journal) ≡ reverse (session_events n journal) }
{}

/// A recording of a journal is the file of version 2 of the journal's events. If a file can have these events, and it
/// is not longer than a file may be, a reader finds them in it, in their order, and no others.
pub fn recorded_is_read()
    ensures spelled { (journal : Journal) → recorded journal ≡ spelled_sessions (record { version = 2; auth = true; events = items_of journal }) }
    ensures read { (journal : Journal) → EventsFit (items_of journal)
        → length (recorded journal) ≤ RECORDING_LIMIT
        → sessions_of (recorded journal) ≡ Ok (record { version = 2; auth = true; events = items_of journal }) }
{
    written_sessions_are_read();
}
