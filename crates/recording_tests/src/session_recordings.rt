//! Which files are recordings of many sessions, the first fault of others, and the pieces that such a file is written
//! of.
use crate::recordings::add_event;
use recording::{
    Event, RecordingRefusal, SESSION_LIMIT, SessionEvent, Sessions, Side, What, finished_record,
    migrate, read, read_any, session_bytes_head, session_file_head, stopped_record,
};
use std::alloc::{AllocError, Global};
use std::test::Fail;
use test_tables::{plain, wrong_row};

/// Files of either version, and the kind and the place of their first fault, or their version, whether the streams
/// begin with lines of authentication and what happened in which session.
const FILES: &str = "\
DBP => Cut 3
DBPr%02 => BadMagic 0
DBPR => Cut 4
DBPR%03~ => BadVersion 4
DBPR~ => BadVersion 4
DBPR%02 => Cut 5
DBPR%02%02%07 => BadAuth 5
DBPR%01%02%07 => BadAuth 5
DBPR%02~%05 => BadKind 6
DBPR%02~%FF~~~~ => BadKind 6
DBPR%02~~ => Cut 7
DBPR%02~%01~ => Cut 8
DBPR%02~%01~~~ => Cut 10
DBPR%02~~~~~~ => BadSession 7
DBPR%02~%02~~~~%01~~~ => BadSession 7
DBPR%02~~~~~~%03~~~%FF%FF%FF%02%03~~~~~~~ => BadSession 7
DBPR%02~~%01~~~ => Cut 11
DBPR%02~~~~%01~%01~~ => Cut 14
DBPR%02~%02%01~~~%01~~ => Cut 14
DBPR%02~~%01~~~%01~~~ => Cut 15
DBPR%02~%01%01~~~%FF%FF%FF%FF => Cut 15
DBPR%02~~%01~~~%03~~~ab => Cut 17
DBPR%02~%02%01~~~%01~~~ => BadLength 11
DBPR%02~%03%01~~~~%01~~a => BadLength 11
DBPR%02~%04%01~~~~~~~ => BadLength 11
DBPR%02~%04%01~~~%02~~~%07%07 => BadLength 11
DBPR%02~%04%01~~~~~~%01 => BadLength 11
DBPR%02~%04%01~~~%01~~~ => Cut 15
DBPR%02~%04%01~~~%01~~~%06 => BadEnd 15
DBPR%02~%04%01~~~%01~~~%0C => BadEnd 15
DBPR%02~%04%01~~~%01~~~~ => BadEnd 15
DBPR%02~%02%01~~~~~~~%05 => BadKind 15
DBPR%02~%02%01~~~~~~~~ => Cut 16
DBPR%02~%02%01~~~~~~~~~~~~ => BadSession 16
DBPR%02~%02%01~~~~~~~%03%02~~~%07~~~ => BadLength 20
DBPR%02~%02%01~~~~~~~%04%02~~~%01~~~%05 => BadEnd 24
DBPR%02~ => 2 false
DBPR%02~~%03~~~%03~~~%FF%FF%FF%02%03~~~~~~~ => 2 false, 3 Client %FF%FF%FF, 3 Client end
DBPR%02%01~%05~~~%02~~~hi%04%01~~~%01~~~%07%03%05~~~~~~~%01%02~~~~~~~%04%FF%FF%FF%FF%01~~~%0B => 2 true, 5 Client hi, 1 stopped 7, 5 Bus end, 2 Bus , 4294967295 stopped 11
DBPR%01~ => 1 false
DBPR%01~%04 => BadKind 6
DBPR%01~%02%01~~~~~~~ => BadLength 7
DBPR%01~~%01~~~a~%01~~~b~%01~~~c%01%01~~~d%01%01~~~e%01%01~~~f => 1 false, 1 Client a, 1 Client b, 1 Client c, 1 Bus d, 1 Bus e, 1 Bus f
DBPR%01%01~%02~~~hi%01~~~~%03~~~~%02~~~~ => 1 true, 1 Client hi, 1 Bus , 1 Bus end, 1 Client end
";

fn told_file(alloc: Global, row: &str) -> Result<String, AllocError> {
    told_bytes(alloc, &plain(alloc, row)?)
}

fn told_bytes(alloc: Global, bytes: &[u8]) -> Result<String, AllocError> {
    match read_any(alloc, bytes) {
        Ok(sessions) => told_read(alloc, bytes, &sessions),
        Err(refusal) => told_refusal(alloc, refusal),
    }
}

fn told_refusal(alloc: Global, refusal: RecordingRefusal) -> Result<String, AllocError> {
    match refusal {
        RecordingRefusal::Bad(fault) => format!(in alloc; "{:?} {}", fault.kind, fault.at),
        RecordingRefusal::Memory => Err(AllocError),
    }
}

/// What was read of a file, if it is what the pieces of the file say.
fn told_read(alloc: Global, bytes: &[u8], sessions: &Sessions) -> Result<String, AllocError> {
    if is_written_so(alloc, bytes, sessions)? {
        told_sessions(alloc, sessions)
    } else {
        String::from_str(alloc, "written as other bytes")
    }
}

/// Whether a file of version 2 has the pieces of these sessions, and one of version 1 is what `migrate` makes of it.
fn is_written_so(alloc: Global, bytes: &[u8], sessions: &Sessions) -> Result<bool, AllocError> {
    if sessions.version == 2 {
        let file = file_of(alloc, sessions)?;
        return Ok(file.as_slice() == bytes);
    }
    match read(alloc, bytes) {
        Ok(recording) => Ok(migrate(alloc, &recording)? == *sessions),
        Err(_) => Ok(false),
    }
}

/// A file of version 2, written piece by piece.
fn file_of(alloc: Global, sessions: &Sessions) -> Result<Vec<u8>, AllocError> {
    let mut file = Vec::from_slice(alloc, &session_file_head(sessions.auth))?;
    for event in &sessions.events {
        put_event(&mut file, event)?;
    }
    Ok(file)
}

fn put_event(file: &mut Vec<u8>, event: &SessionEvent) -> Result<(), AllocError> {
    match &event.what {
        What::Event(Event::Bytes(side, bytes)) => {
            let len = u32::try_from(bytes.len()).unwrap_or(0);
            file.extend_from_slice(&session_bytes_head(event.session, *side, len))?;
            file.extend_from_slice(bytes.as_slice())
        }
        What::Event(Event::Finished(side)) => {
            file.extend_from_slice(&finished_record(event.session, *side))
        }
        What::Stopped(end) => file.extend_from_slice(&stopped_record(event.session, *end)),
    }
}

fn told_sessions(alloc: Global, sessions: &Sessions) -> Result<String, AllocError> {
    let mut told = format!(in alloc; "{} {}", sessions.version, sessions.auth)?;
    for event in &sessions.events {
        add_session_event(alloc, &mut told, event)?;
    }
    Ok(told)
}

fn add_session_event(
    alloc: Global,
    told: &mut String,
    event: &SessionEvent,
) -> Result<(), AllocError> {
    told.push_str(&format!(in alloc; ", {} ", event.session)?)?;
    match &event.what {
        What::Event(event) => add_event(told, event),
        What::Stopped(end) => told.push_str(&format!(in alloc; "stopped {end}")?),
    }
}

#[test]
fn files_are_recordings_of_sessions_or_have_a_first_fault(rt: HostRuntime) -> Result<(), Fail> {
    assert_eq!(rt; wrong_row(rt.alloc(), FILES, &told_file)?, None);
    Ok(())
}

/// A file in which this many sessions end at the client's side, the highest first, and then the first of them at the
/// bus's.
fn ended_sessions(alloc: Global, count: u32) -> Result<Vec<u8>, AllocError> {
    let mut file = Vec::from_slice(alloc, &session_file_head(false))?;
    for n in 0..count {
        file.extend_from_slice(&finished_record(count - n, Side::Client))?;
    }
    file.extend_from_slice(&finished_record(count, Side::Bus))?;
    Ok(file)
}

/// How many events a file of this many sessions has, or its first fault.
fn told_count(alloc: Global, count: u32) -> Result<String, AllocError> {
    match read_any(alloc, &ended_sessions(alloc, count)?) {
        Ok(sessions) => format!(in alloc; "{}", sessions.events.len()),
        Err(refusal) => told_refusal(alloc, refusal),
    }
}

#[test]
fn a_recording_has_at_most_65536_sessions(rt: HostRuntime) -> Result<(), Fail> {
    let most = SESSION_LIMIT as u32;
    let told = told_count(rt.alloc(), most);
    assert_eq!(rt; told?.as_str(), "65537", "most");
    let told = told_count(rt.alloc(), most + 1);
    assert_eq!(rt; told?.as_str(), "TooManySessions 589830", "one more");
    Ok(())
}
