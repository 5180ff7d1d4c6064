//! The file of one session.
ghost use Rattle.std.specs.Prelude.{◌≡◌, ◌==◌, IfOk, map};
ghost use Rattle.std.specs.List.{list_any};
ghost use Rattle.recording.specs.Seen.{seen};
ghost use Rattle.recording.specs.SessionsSeen.{session_event_seen, sessions_seen};
ghost use Rattle.session_files.specs.OneSession.{IsOfFile, before_stop, happened_in, has_session as has, session_file_of};

use crate::laws::session_file_fits;
use crate::{ONLY_SESSION, VERSION};
use bytes::Bytes;
use recording::{Event, Recording, SessionEvent, Sessions, What, share_event, write};
use std::alloc::{AllocError, Global};

/// Whether one of these events is of the session of a number.
fn has_event(events: &[SessionEvent], session: u64) -> bool
    ensures { result ≡ list_any (λ e. e.session == session) events.now }
{
    events
        .iter()
        .any(|event| u64::from(event.session) == session)
}

/// Whether a recording has the session of a number.
fn has_session(sessions: &Sessions, session: u64) -> bool
    ensures { result ≡ has (sessions_seen sessions.now) session }
{
    if sessions.version == VERSION && session == u64::from(ONLY_SESSION) {
        return true;
    }
    has_event(&sessions.events, session)
}

/// The events of a session up to its first stop. They share the bytes of the recording's.
fn events_before_stop(
    alloc: Global,
    all: &[SessionEvent],
    session: u64,
) -> Result<Vec<Event>, AllocError>
    ensures { IfOk result (λ events. map seen events.items ≡ before_stop (happened_in session (map session_event_seen all.now))) }
{
    let mut events = Vec::new(alloc);
    for event in all {
        if u64::from(event.session) != session {
            continue;
        }
        match &event.what {
            What::Event(happened) => events.push(share_event(happened)?)?,
            What::Stopped(_) => return Ok(events),
        }
    }
    Ok(events)
}

/// The file of version 1 of one session of a recording: its events in their order, up to the first failed call, which a
/// file of version 1 has no record of. There is none if the recording has no session of the number. The recording was
/// read from a file, so that this one is no longer than a recording may be.
pub fn session_file(
    alloc: Global,
    sessions: &Sessions,
    session: u64,
) -> Result<Option<Bytes>, AllocError>
    requires { IsOfFile (sessions_seen sessions.now) }
    ensures { IfOk result (λ file. file ≡ session_file_of (sessions_seen sessions.now) session) }
{
    session_file_fits();
    if !has_session(sessions, session) {
        return Ok(None);
    }
    let events = events_before_stop(alloc, &sessions.events, session)?;
    let recording = Recording {
        auth: sessions.auth,
        events,
    };
    Ok(Some(write(alloc, &recording)?))
}
