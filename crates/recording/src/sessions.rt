//! Recordings of many sessions.
ghost use Rattle.std.specs.Prelude.{◌≡◌, IfOk};
ghost use Rattle.recording.specs.Seen.{recording_seen, seen};
ghost use Rattle.recording.specs.Sessions.{migrated, one_session_event};
ghost use Rattle.recording.specs.SessionsSeen.{session_event_seen, sessions_seen};

use crate::{Event, Recording, VERSION};
use std::alloc::{AllocError, Global};

/// The session of all events of a file of version 1.
const ONE_SESSION: u32 = 1;

/// What happened in a session.
#[derive(Debug, PartialEq, Eq, Drop)]
pub enum What {
    /// Bytes of a stream, or its end.
    Event(Event),
    /// A read, a write or a connect of a link failed. This is the number of the End that the session has by it, from 7
    /// to 11.
    Stopped(u8),
}

/// What happened, and in which session.
#[derive(Debug, PartialEq, Eq, Drop)]
pub struct SessionEvent {
    /// The number of the session, which is above 0.
    pub session: u32,
    pub what: What,
}

/// A recording of many sessions.
#[derive(Debug, PartialEq, Eq, Drop)]
pub struct Sessions {
    /// The version of the file, 1 or 2. All events of a file of version 1 are of session 1.
    pub version: u8,
    /// Whether the streams of every session begin with the lines of authentication.
    pub auth: bool,
    /// What happened, in order, with the sessions in any order.
    pub events: Vec<SessionEvent>,
}

/// A recording as one of many sessions: each event is of session 1, and the version stays 1. The events share the
/// bytes. Memory grows with the number of events.
pub fn migrate(alloc: Global, recording: &Recording) -> Result<Sessions, AllocError>
    ensures { IfOk result (λ s. sessions_seen s ≡ migrated (recording_seen recording.now)) }
{
    let mut events = Vec::with_capacity(alloc, recording.events.len())?;
    for event in &recording.events {
        let event = migrate_event(event)?;
        events.push(event)?;
    }
    Ok(Sessions {
        version: VERSION,
        auth: recording.auth,
        events,
    })
}

/// The event as one of session 1.
fn migrate_event(event: &Event) -> Result<SessionEvent, AllocError>
    ensures { IfOk result (λ e. session_event_seen e ≡ one_session_event (seen event.now)) }
{
    Ok(SessionEvent {
        session: ONE_SESSION,
        what: What::Event(share_event(event)?),
    })
}

/// The same event, which shares its bytes with this one.
pub fn share_event(event: &Event) -> Result<Event, AllocError>
    ensures { IfOk result (λ e. seen e ≡ seen event.now) }
{
    match event {
        Event::Bytes(side, bytes) => Ok(Event::Bytes(*side, bytes.clone()?)),
        Event::Finished(side) => Ok(Event::Finished(*side)),
    }
}
