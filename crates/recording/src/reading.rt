//! Reading a recording. The first pass finds the first fault and counts the records, and the
//! second makes an event of each.
ghost use Rattle.std.specs.Prelude.{◌≡◌, ◌≤◌, ◌<◌, ◌+◌, ◌^◌, All, Ok, Err, IfOk, IfErr, drop, length, map, slice_index, slice_range, take};
ghost use Rattle.std.specs.Int.{w32, from_le_bytes};
ghost use Rattle.recording.specs.Gives.{Gives};
ghost use Rattle.recording.specs.Recording.{event_of, events_at, head_of, record_len, recording_of, spelled_recording};
ghost use Rattle.recording.specs.Passes.{IsChecked, auth_of, counted, records, version_of};
ghost use Rattle.recording.specs.Sessions.{number_at};
ghost use Rattle.recording.specs.Seen.{Fits, recording_seen, seen, size};

use crate::{
    BUS_BYTES, BUS_END, BadRecording, CLIENT_BYTES, CLIENT_END, Event, HEAD_LEN, MAGIC,
    RECORD_HEAD_LEN, RECORDING_LIMIT, Recording, RecordingKind, RecordingRefusal, Side, VERSION,
};
use byteorder::{ByteOrder, LittleEndian};
use bytes::Bytes;
use std::alloc::{AllocError, Global};

/// What the first pass found.
#[derive(Clone, Copy)]
struct Checked {
    auth: bool,
    records: usize,
}

/// The recording that the bytes of a file spell, or the file's first fault, which is looked for
/// before any memory is taken. The events share one copy of the bytes. Time grows with the length
/// of the file, and memory with that and with the number of records.
pub fn read(alloc: Global, bytes: &[u8]) -> Result<Recording, RecordingRefusal>
    ensures exact { Gives recording_seen result (recording_of bytes.now) }
    ensures spelled { IfOk result (λ r. spelled_recording (recording_seen r) ≡ bytes.now) }
    ensures size { IfOk result (λ r. size (recording_seen r).events ≤ RECORDING_LIMIT) }
    ensures fits { IfOk result (λ r. All Fits (recording_seen r).events) }
{
    let checked = check(bytes)?;
    let file = Bytes::copy_from_slice(alloc, bytes)?;
    let events = events(alloc, &file, checked.records)?;
    Ok(Recording {
        auth: checked.auth,
        events,
    })
}

/// The first pass.
fn check(bytes: &[u8]) -> Result<Checked, BadRecording>
    ensures ok { IfOk result (λ c. IsChecked bytes.now c.auth c.records) }
    ensures fault { IfErr result (λ f. recording_of bytes.now ≡ Err f) }
{
    if bytes.len() > RECORDING_LIMIT {
        return Err(fault(RecordingKind::TooLong, RECORDING_LIMIT));
    }
    let auth = head(bytes)?;
    let records = record_count(bytes)?;
    Ok(Checked { auth, records })
}

/// A fault at a place of the file.
pub(crate) fn fault(kind: RecordingKind, at: usize) -> BadRecording
    ensures { result ≡ record { kind = kind; at = at } }
{
    BadRecording {
        kind,
        at: at as u64,
    }
}

/// The version byte, if the bytes up to it have no fault.
pub(crate) fn version(bytes: &[u8]) -> Result<u8, BadRecording>
    ensures { result ≡ version_of bytes.now }
{
    if bytes.len() < 4 {
        return Err(fault(RecordingKind::Cut, bytes.len()));
    }
    if &bytes[..4] != MAGIC.as_slice() {
        return Err(fault(RecordingKind::BadMagic, 0));
    }
    if bytes.len() < 5 {
        return Err(fault(RecordingKind::Cut, bytes.len()));
    }
    Ok(bytes[4])
}

/// The auth byte, if the first five bytes have no fault.
pub(crate) fn auth(bytes: &[u8]) -> Result<bool, BadRecording>
    ensures { result ≡ auth_of bytes.now }
{
    if bytes.len() < HEAD_LEN {
        return Err(fault(RecordingKind::Cut, bytes.len()));
    }
    if bytes[5] > 1 {
        return Err(fault(RecordingKind::BadAuth, 5));
    }
    Ok(bytes[5] == 1)
}

/// The auth byte, if the first six bytes have no fault.
fn head(bytes: &[u8]) -> Result<bool, BadRecording>
    ensures { result ≡ head_of bytes.now }
{
    if version(bytes)? != VERSION {
        return Err(fault(RecordingKind::BadVersion, 4));
    }
    auth(bytes)
}

/// How many records follow the first six bytes, if none has a fault.
fn record_count(file: &[u8]) -> Result<usize, BadRecording>
    requires long { HEAD_LEN ≤ length file.now }
    requires short { length file.now ≤ RECORDING_LIMIT }
    ensures { result ≡ counted 0 (records HEAD_LEN (drop HEAD_LEN file.now)) }
{
    let mut count = 0;
    let mut at = HEAD_LEN;
    while at < file.len() {
        let len = payload_len(at, &file[at..])?;
        at += RECORD_HEAD_LEN + len;
        count += 1;
    }
    Ok(count)
}

/// How many bytes the record in front counts, if it has no fault.
#[tactic(auto, unfolding(crate::specs::Recording::record_len))]
fn payload_len(place: usize, bytes: &[u8]) -> Result<usize, BadRecording>
    requires some { 0 < length bytes.now }
    requires short { place + length bytes.now ≤ RECORDING_LIMIT }
    ensures { result ≡ record_len place bytes.now }
{
    if bytes[0] > BUS_END {
        return Err(fault(RecordingKind::BadKind, place));
    }
    if bytes.len() < RECORD_HEAD_LEN {
        return Err(fault(RecordingKind::Cut, place + bytes.len()));
    }
    let len = length_field(bytes);
    if bytes[0] > BUS_BYTES && len != 0 {
        return Err(fault(RecordingKind::BadLength, place + 1));
    }
    if bytes.len() < RECORD_HEAD_LEN + len {
        return Err(fault(RecordingKind::Cut, place + bytes.len()));
    }
    Ok(len)
}

/// The length in the record in front.
fn length_field(bytes: &[u8]) -> usize
    requires { RECORD_HEAD_LEN ≤ length bytes.now }
    ensures value { result ≡ from_le_bytes w32 (take 4 (drop 1 bytes.now)) }
    ensures bound { result < 2 ^ 32 }
{
    number(bytes, 1) as usize
}

/// The number in four bytes that begin at the place.
pub(crate) fn number(bytes: &[u8], at: usize) -> u32
    requires { at + 4 ≤ length bytes.now }
    ensures { result ≡ number_at at bytes.now }
{
    LittleEndian::read_u32(&bytes[at..])
}

/// The second pass: the events of a file without a fault, which has this many records. The one
/// reservation has room for each.
fn events(alloc: Global, file: &Bytes, count: usize) -> Result<Vec<Event>, AllocError>
    requires long { HEAD_LEN ≤ length file.now }
    requires sound { counted 0 (records HEAD_LEN (drop HEAD_LEN file.now)) ≡ Ok count }
    ensures { IfOk result (λ v. records HEAD_LEN (drop HEAD_LEN file.now) ≡ Ok (map seen v.items)) }
{
    let mut events = Vec::with_capacity(alloc, count)?;
    let mut at = HEAD_LEN;
    while at < file.len() {
        let end = at + RECORD_HEAD_LEN + length_field(&file.as_slice()[at..]);
        let event = event(file, at, end)?;
        events.push(event).unwrap();
        at = end;
    }
    Ok(events)
}

/// The event of the record that lies from one place to another.
fn event(file: &Bytes, at: usize, end: usize) -> Result<Event, AllocError>
    requires long { at + RECORD_HEAD_LEN ≤ end }
    requires within { end ≤ length file.now }
    ensures { IfOk result (λ e. seen e
        ≡ event_of (slice_index file.now at) (slice_range file.now (at + RECORD_HEAD_LEN) end)) }
{
    let bytes = file.slice(at + RECORD_HEAD_LEN..end)?;
    Ok(event_of_kind(file.as_slice()[at], bytes))
}

/// The event of a kind of record that has these bytes.
pub(crate) fn event_of_kind(kind: u8, bytes: Bytes) -> Event
    ensures { seen result ≡ event_of kind bytes }
{
    match kind {
        CLIENT_BYTES => Event::Bytes(Side::Client, bytes),
        BUS_BYTES => Event::Bytes(Side::Bus, bytes),
        CLIENT_END => Event::Finished(Side::Client),
        _ => Event::Finished(Side::Bus),
    }
}
