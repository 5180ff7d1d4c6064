//! Reading a recording of either version. In version 2 the first pass finds the first fault and
//! counts the records, and the second makes an event of each.
ghost use Rattle.std.specs.Prelude.{◌≡◌, ◌≤◌, ◌<◌, ◌+◌, ◌&&◌, [], Err, IfOk, IfErr, IsErrOf, IsOk, Ok, drop, get_or, length, map, nat_le, slice_range};
ghost use Rattle.recording.specs.Gives.{GivesUnlessMemory};
ghost use Rattle.recording.specs.Passes.{counted};
ghost use Rattle.recording.specs.Sessions.{file_head_of, is_wrong_length as is_wrong_length_of, one_session_of, record_session, session_record_len, sessions_of, spelled_sessions, what_of, with_session};
ghost use Rattle.recording.specs.SessionPasses.{session_event_of, session_records};
ghost use Rattle.recording.specs.SessionsSeen.{IsReadable, session_event_seen, sessions_seen, what_seen};

use crate::reading::{auth, event_of_kind, fault, number, read, version};
use crate::sessions::migrate;
use crate::{
    BUS_BYTES, BadRecording, FIRST_STOP, HEAD_LEN, LAST_STOP, RECORDING_LIMIT, RecordingKind,
    RecordingRefusal, SESSION_LIMIT, SESSION_RECORD_HEAD_LEN, SESSIONS_VERSION, STOP, SessionEvent,
    Sessions, VERSION, What,
};
use bytes::Bytes;
use std::alloc::{AllocError, Global};
use std::collections::BTreeSet;

/// What comes before the first record.
#[derive(Clone, Copy)]
struct FileHead {
    version: u8,
    auth: bool,
}

/// The recording that the bytes of a file of either version spell, or the file's first fault. A file of version 1 gives
/// what `migrate` makes of what `read` gives. The events share one copy of the bytes. Time grows with the length of the
/// file, and memory with that and with the number of records; looking for faults takes no more memory than
/// `SESSION_LIMIT` sessions do.
pub fn read_any(alloc: Global, bytes: &[u8]) -> Result<Sessions, RecordingRefusal>
    ensures exact { GivesUnlessMemory sessions_seen result (sessions_of bytes.now) }

    // Memory runs out only if the first six bytes have no fault.
    ensures memory { IsErrOf result RecordingRefusal.Memory → (length bytes.now ≤ RECORDING_LIMIT) × IsOk (file_head_of bytes.now) }

    // What was read can be played, and one of version 2 is spelled by the file alone.
    ensures readable { IfOk result (λ s. IsReadable (sessions_seen s)) }
    ensures spelled { IfOk result (λ s. s.version ≡ SESSIONS_VERSION → spelled_sessions (sessions_seen s) ≡ bytes.now) }
{
    if bytes.len() > RECORDING_LIMIT {
        return Err(RecordingRefusal::Bad(fault(RecordingKind::TooLong, RECORDING_LIMIT)));
    }
    let head = file_head(bytes)?;
    if head.version == VERSION {
        return read_one_session(alloc, bytes);
    }
    let events = read_session_events(alloc, bytes)?;
    Ok(Sessions {
        version: SESSIONS_VERSION,
        auth: head.auth,
        events,
    })
}

/// Reads a file of version 1.
fn read_one_session(alloc: Global, bytes: &[u8]) -> Result<Sessions, RecordingRefusal>
    ensures { GivesUnlessMemory sessions_seen result (one_session_of bytes.now) }
{
    let recording = read(alloc, bytes)?;
    Ok(migrate(alloc, &recording)?)
}

/// The version and the auth byte, if the first six bytes have no fault.
fn file_head(bytes: &[u8]) -> Result<FileHead, BadRecording>
    ensures ok { IfOk result (λ h. file_head_of bytes.now ≡ Ok (record { version = h.version; auth = h.auth })) }
    ensures fault { IfErr result (λ f. file_head_of bytes.now ≡ Err f) }
{
    let version = version(bytes)?;
    if version != VERSION && version != SESSIONS_VERSION {
        return Err(fault(RecordingKind::BadVersion, 4));
    }
    let auth = auth(bytes)?;
    Ok(FileHead { version, auth })
}

/// The events of a file of version 2 whose first six bytes have no fault.
fn read_session_events(alloc: Global, bytes: &[u8]) -> Result<Vec<SessionEvent>, RecordingRefusal>
    requires long { HEAD_LEN ≤ length bytes.now }
    requires short { length bytes.now ≤ RECORDING_LIMIT }
    ensures { GivesUnlessMemory (λ v. map session_event_seen v.items) result (session_records [] HEAD_LEN (drop HEAD_LEN bytes.now)) }
{
    let count = session_record_count(alloc, bytes)?;
    let file = Bytes::copy_from_slice(alloc, bytes)?;
    Ok(session_events(alloc, &file, count)?)
}

/// The first pass: how many records follow the first six bytes, if none has a fault.
fn session_record_count(alloc: Global, file: &[u8]) -> Result<usize, RecordingRefusal>
    requires long { HEAD_LEN ≤ length file.now }
    requires short { length file.now ≤ RECORDING_LIMIT }
    ensures { GivesUnlessMemory (λ n. n) result (counted 0 (session_records [] HEAD_LEN (drop HEAD_LEN file.now))) }
{
    let mut sessions = BTreeSet::new(alloc);
    let mut count = 0;
    let mut at = HEAD_LEN;
    while at < file.len() {
        meet_session(&mut sessions, at, &file[at..])?;
        let len = payload_len(at, &file[at..])?;
        at += SESSION_RECORD_HEAD_LEN + len;
        count += 1;
    }
    Ok(count)
}

/// Takes the session of the record in front among those of the records before, if its kind and its session have no
/// fault.
#[tactic(auto, unfolding(crate::specs::Sessions::record_session))]
fn meet_session(
    sessions: &mut BTreeSet<u32>,
    place: usize,
    bytes: &[u8],
) -> Result<u32, RecordingRefusal>
    requires some { 0 < length bytes.now }
    requires short { place + length bytes.now ≤ RECORDING_LIMIT }
    ensures exact { GivesUnlessMemory (λ n. n) result (record_session sessions.old.keys place bytes.now) }
    ensures met { IfOk result (λ session. sessions.new.keys ≡ with_session sessions.old.keys session) }
{
    if bytes[0] > STOP {
        return Err(RecordingRefusal::Bad(fault(RecordingKind::BadKind, place)));
    }
    if bytes.len() < 5 {
        return Err(RecordingRefusal::Bad(fault(RecordingKind::Cut, place + bytes.len())));
    }
    let session = number(bytes, 1);
    if session == 0 {
        return Err(RecordingRefusal::Bad(fault(RecordingKind::BadSession, place + 1)));
    }
    if sessions.insert(session).is_err() {
        return Err(RecordingRefusal::Memory);
    }
    if sessions.len() > SESSION_LIMIT {
        return Err(RecordingRefusal::Bad(fault(RecordingKind::TooManySessions, place)));
    }
    Ok(session)
}

/// How many bytes the record in front counts, if they and their number have no fault.
#[tactic(auto, unfolding(crate::specs::Sessions::session_record_len))]
fn payload_len(place: usize, bytes: &[u8]) -> Result<usize, BadRecording>
    requires some { 0 < length bytes.now }
    requires short { place + length bytes.now ≤ RECORDING_LIMIT }
    ensures { result ≡ session_record_len place bytes.now }
{
    if bytes.len() < SESSION_RECORD_HEAD_LEN {
        return Err(fault(RecordingKind::Cut, place + bytes.len()));
    }
    let kind = bytes[0];
    let len = number(bytes, 5) as usize;
    if is_wrong_length(kind, len) {
        return Err(fault(RecordingKind::BadLength, place + 5));
    }
    if bytes.len() < SESSION_RECORD_HEAD_LEN + len {
        return Err(fault(RecordingKind::Cut, place + bytes.len()));
    }
    if kind == STOP && !is_stop(bytes[SESSION_RECORD_HEAD_LEN]) {
        return Err(fault(RecordingKind::BadEnd, place + SESSION_RECORD_HEAD_LEN));
    }
    Ok(len)
}

/// Whether a record of this kind has another length.
fn is_wrong_length(kind: u8, len: usize) -> bool
    ensures { result ≡ is_wrong_length_of kind len }
{
    if kind == STOP {
        len != 1
    } else {
        kind > BUS_BYTES && len != 0
    }
}

/// Whether this is the number of an End that a failed call gives.
fn is_stop(end: u8) -> bool
    ensures { result ≡ (nat_le 7 end && nat_le end 11) }
{
    FIRST_STOP <= end && end <= LAST_STOP
}

/// The second pass: the events of a file without a fault, which has this many records. The one
/// reservation has room for each.
fn session_events(
    alloc: Global,
    file: &Bytes,
    count: usize,
) -> Result<Vec<SessionEvent>, AllocError>
    requires long { HEAD_LEN ≤ length file.now }
    requires sound { counted 0 (session_records [] HEAD_LEN (drop HEAD_LEN file.now)) ≡ Ok count }
    ensures { IfOk result (λ v. session_records [] HEAD_LEN (drop HEAD_LEN file.now) ≡ Ok (map session_event_seen v.items)) }
{
    let mut events = Vec::with_capacity(alloc, count)?;
    let mut at = HEAD_LEN;
    while at < file.len() {
        let len = number(&file.as_slice()[at..], 5) as usize;
        let end = at + SESSION_RECORD_HEAD_LEN + len;
        let event = session_event(file, at, end)?;
        events.push(event).unwrap();
        at = end;
    }
    Ok(events)
}

/// The event of the record that lies from one place to another.
fn session_event(file: &Bytes, at: usize, end: usize) -> Result<SessionEvent, AllocError>
    requires long { at + SESSION_RECORD_HEAD_LEN ≤ end }
    requires within { end ≤ length file.now }
    requires stop { get_or file.now at 0 ≡ STOP → at + SESSION_RECORD_HEAD_LEN < end }
    ensures { IfOk result (λ e. session_event_seen e ≡ session_event_of file.now at end) }
{
    let session = number(file.as_slice(), at + 1);
    let what = what(file, at, end)?;
    Ok(SessionEvent { session, what })
}

/// What happened by the record that lies from one place to another.
fn what(file: &Bytes, at: usize, end: usize) -> Result<What, AllocError>
    requires long { at + SESSION_RECORD_HEAD_LEN ≤ end }
    requires within { end ≤ length file.now }
    requires stop { get_or file.now at 0 ≡ STOP → at + SESSION_RECORD_HEAD_LEN < end }
    ensures { IfOk result (λ w. what_seen w ≡ what_of (get_or file.now at 0) (slice_range file.now (at + SESSION_RECORD_HEAD_LEN) end)) }
{
    let kind = file.as_slice()[at];
    if kind == STOP {
        return Ok(What::Stopped(file.as_slice()[at + SESSION_RECORD_HEAD_LEN]));
    }
    let bytes = file.slice(at + SESSION_RECORD_HEAD_LEN..end)?;
    Ok(What::Event(event_of_kind(kind, bytes)))
}
