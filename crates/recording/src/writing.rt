//! Writing a recording.
ghost use Rattle.std.specs.Prelude.{◌≡◌, ◌≤◌, ◌<◌, ◌+◌, ◌^◌, ◌++◌, OnOk, IfOk, length, map};
ghost use Rattle.std.specs.List.{flat_map};
ghost use Rattle.recording.specs.Recording.{spelled_event, spelled_record, spelled_recording};
ghost use Rattle.recording.specs.Seen.{Fits, recording_seen, seen, size_of};

use crate::{
    BUS_BYTES, BUS_END, CLIENT_BYTES, CLIENT_END, Event, HEAD_LEN, MAGIC, RECORD_HEAD_LEN,
    RECORDING_LIMIT, Recording, Side, VERSION,
};
use byteorder::{ByteOrder, LittleEndian};
use bytes::Bytes;
use std::alloc::{AllocError, Global};

/// The bytes of the file that a recording is written as. They are reserved once.
pub fn write(alloc: Global, recording: &Recording) -> Result<Bytes, AllocError>
    requires { length (spelled_recording (recording_seen recording.now)) ≤ RECORDING_LIMIT }
    ensures { IfOk result (λ b. b ≡ spelled_recording (recording_seen recording.now)) }
{
    let mut file = Vec::with_capacity(alloc, file_len(&recording.events))?;
    file.extend_from_slice(&MAGIC)?;
    file.push(VERSION)?;
    file.push(u8::from(recording.auth))?;
    for event in &recording.events {
        put_event(&mut file, event)?;
    }
    Ok(Bytes::from_vec(file)?)
}

/// How many bytes the file of these events has.
fn file_len(events: &[Event]) -> usize
    requires { HEAD_LEN + length (flat_map spelled_event (map seen events.now)) ≤ RECORDING_LIMIT }
    ensures { result ≡ HEAD_LEN + length (flat_map spelled_event (map seen events.now)) }
{
    let mut len = HEAD_LEN;
    for event in events {
        len += RECORD_HEAD_LEN + payload_len(event);
    }
    len
}

/// How many bytes an event's record counts.
fn payload_len(event: &Event) -> usize
    ensures { result ≡ size_of (seen event.now) }
{
    match event {
        Event::Bytes(_, bytes) => bytes.len(),
        Event::Finished(_) => 0,
    }
}

/// Writes the record of an event at the end of a file.
fn put_event(file: &mut Vec<u8>, event: &Event) -> Result<(), AllocError>
    requires { Fits (seen event.now) }
    ensures { OnOk result (file.new.items ≡ file.old.items ++ spelled_event (seen event.now)) }
{
    match event {
        Event::Bytes(Side::Client, bytes) => put_record(file, CLIENT_BYTES, bytes.as_slice()),
        Event::Bytes(Side::Bus, bytes) => put_record(file, BUS_BYTES, bytes.as_slice()),
        Event::Finished(Side::Client) => put_record(file, CLIENT_END, &[]),
        Event::Finished(Side::Bus) => put_record(file, BUS_END, &[]),
    }
}

/// Writes a kind, the length of some bytes, and these.
fn put_record(file: &mut Vec<u8>, kind: u8, bytes: &[u8]) -> Result<(), AllocError>
    requires { length bytes.now < 2 ^ 32 }
    ensures { OnOk result (file.new.items ≡ file.old.items ++ spelled_record kind bytes.now) }
{
    let mut head = [kind; RECORD_HEAD_LEN];
    LittleEndian::write_u32(&mut head[1..5], bytes.len() as u32);
    file.extend_from_slice(&head)?;
    file.extend_from_slice(bytes)
}
