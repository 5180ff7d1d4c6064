//! Which files are recordings, the first fault of others, and how recordings are written.
use recording::{
    BadRecording, Event, RECORDING_LIMIT, Recording, RecordingKind, RecordingRefusal, Side, read,
    write,
};
use std::alloc::{AllocError, Global};
use std::test::Fail;
use test_tables::{add_text, plain, wrong_row};

/// Files, and the kind and the place of their first fault, or whether the streams begin with lines of authentication
/// and what the sides did.
const FILES: &str = "\
D => Cut 1
 => Cut 0
DB => Cut 2
DBP => Cut 3
ABC => Cut 3
DBPR => Cut 4
DBPR%01 => Cut 5
ABCD => BadMagic 0
DBPr%01~ => BadMagic 0
DBPR%09 => BadVersion 4
DBPR~~ => BadVersion 4
DBPR%09%02 => BadVersion 4
DBPR%01%02 => BadAuth 5
DBPR%01%FF%07 => BadAuth 5
DBPR%01~%04 => BadKind 6
DBPR%01~%FF~~~~ => BadKind 6
DBPR%01~~ => Cut 7
DBPR%01~%01~ => Cut 8
DBPR%01~%02%01~ => Cut 9
DBPR%01~%03%01~~ => Cut 10
DBPR%01~~%01~~~ => Cut 11
DBPR%01~%01%02~~~a => Cut 12
DBPR%01~~%FF%FF%FF%FF => Cut 11
DBPR%01~%02%01~~~ => BadLength 7
DBPR%01~%02%01~~~a => BadLength 7
DBPR%01~%02~~~%01 => BadLength 7
DBPR%01~%03%01~~~ => BadLength 7
DBPR%01~%03~~%01~ => BadLength 7
DBPR%01~%01%01~~~a%04 => BadKind 12
DBPR%01~%02~~~~%07 => BadKind 11
DBPR%01~~%01~~~a~ => Cut 13
DBPR%01~~%01~~~a%01~ => Cut 14
DBPR%01~~%01~~~a%02~~ => Cut 15
DBPR%01~~%01~~~a%03~~~ => Cut 16
DBPR%01~~%01~~~a%01%01~~~ => Cut 17
DBPR%01~~%01~~~a~%03~~~bc => Cut 19
DBPR%01~%01%01~~~a%02%01~~~ => BadLength 13
DBPR%01~%01%01~~~a%03~%01~~ => BadLength 13
DBPR%01~ => false
DBPR%01%01~%02~~~hi%01~~~~%03~~~~%02~~~~ => true, Client hi, Bus , Bus end, Client end
";

fn told_file(alloc: Global, row: &str) -> Result<String, AllocError> {
    told_bytes(alloc, &plain(alloc, row)?)
}

fn told_bytes(alloc: Global, bytes: &[u8]) -> Result<String, AllocError> {
    let is_short = bytes.len() <= RECORDING_LIMIT;
    match read(alloc, bytes) {
        Ok(_) if !is_short => String::from_str(alloc, "read in spite of its length"),
        Ok(recording) => {
            let written = write(alloc, &recording)?;
            told_recording(alloc, &recording, written.as_slice() == bytes)
        }
        Err(RecordingRefusal::Bad(fault)) => format!(in alloc; "{:?} {}", fault.kind, fault.at),
        Err(RecordingRefusal::Memory) => Err(AllocError),
    }
}

/// What a recording has, if it is written as it was read.
fn told_recording(alloc: Global, recording: &Recording, same: bool) -> Result<String, AllocError> {
    if same {
        told_events(alloc, recording)
    } else {
        String::from_str(alloc, "written as other bytes")
    }
}

fn told_events(alloc: Global, recording: &Recording) -> Result<String, AllocError> {
    let mut told = format!(in alloc; "{}", recording.auth)?;
    for event in &recording.events {
        told.push_str(", ")?;
        add_event(&mut told, event)?;
    }
    Ok(told)
}

pub(crate) fn add_event(told: &mut String, event: &Event) -> Result<(), AllocError> {
    match event {
        Event::Bytes(side, bytes) => {
            told.push_str(named(*side))?;
            add_text(told, bytes.as_slice())
        }
        Event::Finished(side) => {
            told.push_str(named(*side))?;
            told.push_str("end")
        }
    }
}

fn named(side: Side) -> &'static str {
    match side {
        Side::Client => "Client ",
        Side::Bus => "Bus ",
    }
}

#[test]
fn files_are_recordings_or_have_a_first_fault(rt: HostRuntime) -> Result<(), Fail> {
    assert_eq!(rt; wrong_row(rt.alloc(), FILES, &told_file)?, None);
    Ok(())
}

/// A file of this many zeros.
fn told_zeros(alloc: Global, len: usize) -> Result<String, AllocError> {
    told_bytes(alloc, &vec![in alloc; 0; len]?)
}

#[test]
fn a_file_of_the_greatest_length_is_looked_at(rt: HostRuntime) -> Result<(), Fail> {
    let told = told_zeros(rt.alloc(), RECORDING_LIMIT);
    assert_eq!(rt; told?.as_str(), "BadMagic 0", "longest");
    let told = told_zeros(rt.alloc(), RECORDING_LIMIT + 1);
    assert_eq!(rt; told?.as_str(), "TooLong 67108864", "too long");
    Ok(())
}

#[test]
fn says_what_is_wrong(rt: HostRuntime) -> Result<(), Fail> {
    let kind = RecordingKind::BadVersion;
    let refusal = RecordingRefusal::Bad(BadRecording { kind, at: 4 });
    let told = format!(in rt.alloc(); "{refusal}, {}", RecordingRefusal::Memory);
    assert_eq!(rt; told?.as_str(), "byte 4: unknown version, out of memory");
    Ok(())
}
