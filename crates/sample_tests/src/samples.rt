//! Samples, byte for byte, and what a sink gets that fails.
use crate::rows::{Row, row_of};
use memory_links::MemSink;
use recording::{Event, Recording, RecordingRefusal, Side, read};
use sample::{MOST_DRAWS, SampleFault, sample};
use std::alloc::{AllocError, Global};
use std::test::Fail;
use test_tables::{text_of, wrong_row};

/// A number of draws and a seed, and the bytes of the sample: what stands in front of the draws, and a draw of each
/// kind. Each record begins a new line.
const BYTES: &str = "\
0 1 => DBPR%01~\
    ~%80~~~l%01~%01~~~~%01~~~m~~~%01%01o~%15~~~/org/freedesktop/DBus~~~%02%01s~%14~~~org.freedesktop.DBus~~~~%03\
      %01s~%05~~~Hello~~~%06%01s~%14~~~org.freedesktop.DBus~~~~\
    %01Z~~~l%02%01%01%0A~~~%01~~~?~~~%05%01u~%01~~~%06%01s~%05~~~:1.40~~~%07%01s~%14~~~org.freedesktop.DBus~~~~%08\
      %01g~%01s~~%05~~~:1.40~\
    %01H~~~l%02%01%01~~~~%02~~~5~~~%05%01u~%02~~~%06%01s~%05~~~:1.40~~~%07%01s~%14~~~org.freedesktop.DBus~~~~\
    %01Y~~~l%02%01%01%09~~~%03~~~?~~~%05%01u~%03~~~%06%01s~%05~~~:1.40~~~%07%01s~%14~~~org.freedesktop.DBus~~~~%08\
      %01g~%01s~~%04~~~:1.5~
4 2 => DBPR%01~\
    ~%80~~~l%01~%01~~~~%01~~~m~~~%01%01o~%15~~~/org/freedesktop/DBus~~~%02%01s~%14~~~org.freedesktop.DBus~~~~%03\
      %01s~%05~~~Hello~~~%06%01s~%14~~~org.freedesktop.DBus~~~~\
    %01Z~~~l%02%01%01%0A~~~%01~~~?~~~%05%01u~%01~~~%06%01s~%05~~~:1.40~~~%07%01s~%14~~~org.freedesktop.DBus~~~~%08\
      %01g~%01s~~%05~~~:1.40~\
    %01H~~~l%02%01%01~~~~%02~~~5~~~%05%01u~%02~~~%06%01s~%05~~~:1.40~~~%07%01s~%14~~~org.freedesktop.DBus~~~~\
    %01Y~~~l%02%01%01%09~~~%03~~~?~~~%05%01u~%03~~~%06%01s~%05~~~:1.40~~~%07%01s~%14~~~org.freedesktop.DBus~~~~%08\
      %01g~%01s~~%04~~~:1.5~\
    ~n~~~l%01~%01%06~~~%02~~~W~~~%01%01o~%02~~~/s~~~~~~%02%01s~%0C~~~org.sample.A~~~~%03%01s~%04~~~Echo~~~~%06%01s\
      ~%0C~~~org.sample.A~~~~%08%01g~%01s~~%01~~~1~\
    %01F~~~l%02%01%01%06~~~%04~~~/~~~%05%01u~%04~~~%06%01s~%05~~~:1.40~~~%07%01s~%04~~~:1.5~~~~%08%01g~%01s~~%01~~\
      ~1~\
    ~n~~~l%01~%01%06~~~%03~~~W~~~%01%01o~%02~~~/s~~~~~~%02%01s~%0C~~~org.sample.B~~~~%03%01s~%04~~~Echo~~~~%06%01s\
      ~%0C~~~org.sample.B~~~~%08%01g~%01s~~%01~~~2~\
    %01H~~~l%02%01%01~~~~%05~~~5~~~%05%01u~%05~~~%06%01s~%05~~~:1.40~~~%07%01s~%14~~~org.freedesktop.DBus~~~~\
    %01f~~~l%04~%01%06~~~%06~~~O~~~%01%01o~%02~~~/s~~~~~~%02%01s~%0C~~~org.sample.B~~~~%03%01s~%04~~~Tick~~~~%07\
      %01s~%04~~~:1.6~~~~%08%01g~%01s~~%01~~~3~\
    %01f~~~l%04~%01%06~~~%07~~~O~~~%01%01o~%02~~~/s~~~~~~%02%01s~%0C~~~org.sample.A~~~~%03%01s~%04~~~Tick~~~~%07\
      %01s~%04~~~:1.5~~~~%08%01g~%01s~~%01~~~4~
";

/// A number of draws and a seed, and how many bytes the sample has, and the side and the length of each message of its
/// draws. Seeds that differ by a multiple of 2147483648 have one sample.
const EVENTS: &str = "\
3 1 => 811 bytes: Bus 102, Bus 102, Client 110, Bus 72
5 0 => 1274 bytes: Client 110, Bus 70, Client 110, Bus 70, Client 110, Bus 70, Client 110, Bus 72, Bus 102
5 2147483648 => 1274 bytes: Client 110, Bus 70, Client 110, Bus 70, Client 110, Bus 70, Client 110, Bus 72, Bus 102
5 1 => 1025 bytes: Bus 102, Bus 102, Client 110, Bus 72, Bus 102, Bus 102
5 2147483649 => 1025 bytes: Bus 102, Bus 102, Client 110, Bus 72, Bus 102, Bus 102
5 2147483647 => 1195 bytes: Client 110, Bus 72, Client 110, Bus 72, Bus 102, Bus 102, Client 110, Bus 72
5 18446744073709551615 => 1195 bytes: Client 110, Bus 72, Client 110, Bus 72, Bus 102, Bus 102, Client 110, Bus 72
";

/// A number of draws, a seed and the room of a sink, and the answer, how many bytes the sink got, whether they are the
/// first of the sample's, and how many writes have failed.
const ROOMS: &str = "\
0 1 405 => Ok(()) 405 true 0
0 1 404 => Err(Out) 404 true 1
0 1 6 => Err(Out) 6 true 1
0 1 0 => Err(Out) 0 true 1
2000 7 304273 => Ok(()) 304273 true 0
2000 7 65000 => Err(Out) 65000 true 1
2000 7 100000 => Err(Out) 100000 true 1
2000 7 180000 => Err(Out) 180000 true 1
2000 7 304272 => Err(Out) 304272 true 1
";

/// More than a sample of these tests has.
const ENOUGH: usize = 400_000;

fn sample_to(alloc: Global, row: Row, sink: &mut MemSink) -> Result<(), SampleFault> {
    sample(alloc, row.draws.min(MOST_DRAWS), row.seed, sink)
}

/// The whole of a sample.
fn whole(alloc: Global, row: Row) -> Result<MemSink, AllocError> {
    let mut sink = MemSink::new(alloc, ENOUGH)?;
    match sample_to(alloc, row, &mut sink) {
        Ok(()) => Ok(sink),
        Err(_) => Err(AllocError),
    }
}

fn told_bytes(alloc: Global, row: &str) -> Result<String, AllocError> {
    text_of(alloc, &whole(alloc, row_of(row))?.bytes)
}

fn told_events(alloc: Global, row: &str) -> Result<String, AllocError> {
    let bytes = whole(alloc, row_of(row))?.bytes;
    match read(alloc, &bytes) {
        Ok(recording) => told_recording(alloc, bytes.len(), &recording),
        Err(RecordingRefusal::Bad(fault)) => format!(in alloc; "{:?} {}", fault.kind, fault.at),
        Err(RecordingRefusal::Memory) => Err(AllocError),
    }
}

/// The events after the first four.
fn told_recording(alloc: Global, len: usize, recording: &Recording) -> Result<String, AllocError> {
    let mut told = format!(in alloc; "{len} bytes: ")?;
    let [_, _, _, _, drawn @ ..] = recording.events.as_slice() else {
        return String::from_str(alloc, "no draws");
    };
    for (index, event) in drawn.iter().enumerate() {
        if index > 0 {
            told.push_str(", ")?;
        }
        told.push_str(&told_event(alloc, event)?)?;
    }
    Ok(told)
}

fn told_event(alloc: Global, event: &Event) -> Result<String, AllocError> {
    match event {
        Event::Bytes(Side::Client, bytes) => format!(in alloc; "Client {}", bytes.len()),
        Event::Bytes(Side::Bus, bytes) => format!(in alloc; "Bus {}", bytes.len()),
        Event::Finished(_) => String::from_str(alloc, "end"),
    }
}

fn told_room(alloc: Global, row: &str) -> Result<String, AllocError> {
    let row = row_of(row);
    let mut sink = MemSink::new(alloc, row.room)?;
    let answer = sample_to(alloc, row, &mut sink);
    let is_front = whole(alloc, row)?.bytes.starts_with(&sink.bytes);
    format!(in alloc;
        "{answer:?} {} {is_front} {}",
        sink.bytes.len(),
        sink.faults
    )
}

#[test]
fn writes_each_byte(rt: HostRuntime) -> Result<(), Fail> {
    assert_eq!(rt; wrong_row(rt.alloc(), BYTES, &told_bytes)?, None);
    Ok(())
}

#[test]
fn reads_back_as_its_messages(rt: HostRuntime) -> Result<(), Fail> {
    assert_eq!(rt; wrong_row(rt.alloc(), EVENTS, &told_events)?, None);
    Ok(())
}

#[test]
fn a_sink_that_fails_got_a_front(rt: HostRuntime) -> Result<(), Fail> {
    assert_eq!(rt; wrong_row(rt.alloc(), ROOMS, &told_room)?, None);
    Ok(())
}
