//! Lines that are joined on their way to a sink.
use crate::frames::TYPE_5;
use crate::noted::noted;
use dbus_header::Places;
use explain_log::LineBuffer;
use link_traits::SinkFault;
use memory_links::MemSink;
use policy_view::{Decision, Note, Side, Verdict};
use std::alloc::{AllocError, Global};
use std::test::Fail;

/// The line of a message of type 5 that passed, the first of session 3.
const LINE: &str = "3 c 1 type5 serial=1 reply=- from=- dest=- path=- iface=- member=- pass\n";

/// More lines than a buffer holds.
const MANY: usize = 1_000;

/// How long a path is that no buffer holds.
const PATH_LEN: usize = 69_999;

/// The note of that line.
fn note(alloc: Global) -> Result<Note, AllocError> {
    noted(
        alloc,
        1,
        Side::Client,
        TYPE_5,
        Decision::Judged(Verdict::Pass),
    )
}

/// Puts the line of a note of session 3.
fn put(lines: &mut LineBuffer, sink: &mut MemSink, note: &Note) -> Result<(), SinkFault> {
    let mut places = Places::none();
    lines.put_line(sink, 3, note, &note.message(&mut places))
}

/// A path of one long element.
fn long_path(alloc: Global) -> Result<String, AllocError> {
    let mut path = String::from_str(alloc, "/")?;
    for _ in 1..PATH_LEN {
        path.push_str("a")?;
    }
    Ok(path)
}

/// The note of a call of member A at that path.
fn long_note(alloc: Global, path: &str) -> Result<Note, AllocError> {
    let mut bytes = Vec::from_slice(
        alloc,
        b"l\x01\0\x01\0\0\0\0\x01\0\0\0\x82\x11\x01\0\x01\x01o\0\x6f\x11\x01\0",
    )?;
    bytes.extend_from_slice(path.as_bytes())?;
    bytes.extend_from_slice(b"\0\x03\x01s\0\x01\0\0\0A\0\0\0\0\0\0\0")?;
    noted(
        alloc,
        1,
        Side::Client,
        &bytes,
        Decision::Judged(Verdict::Pass),
    )
}

#[test]
fn lines_wait_until_they_are_written(rt: HostRuntime) -> Result<(), Fail> {
    let mut sink = MemSink::new(rt.alloc(), 999)?;
    let mut lines = LineBuffer::new(rt.alloc());
    assert_eq!(rt; put(&mut lines, &mut sink, &note(rt.alloc())?), Ok(()));
    assert_eq!(rt; put(&mut lines, &mut sink, &note(rt.alloc())?), Ok(()));
    assert!(rt; sink.bytes.is_empty());
    assert_eq!(rt; lines.write_out(&mut sink), Ok(()));
    assert_eq!(rt; lines.write_out(&mut sink), Ok(()));
    assert!(rt; sink.bytes.len() == 2 * LINE.len());
    assert!(rt; sink.bytes.starts_with(LINE.as_bytes()) && sink.bytes.ends_with(LINE.as_bytes()));
    Ok(())
}

#[test]
fn many_lines_are_written_before_all_wait(rt: HostRuntime) -> Result<(), Fail> {
    let mut sink = MemSink::new(rt.alloc(), 99_999)?;
    let mut lines = LineBuffer::new(rt.alloc());
    let note = note(rt.alloc())?;
    for _ in 0..MANY {
        assert_eq!(rt; put(&mut lines, &mut sink, &note), Ok(()));
    }
    assert!(rt; sink.bytes.len() > 60_000 && sink.bytes.len() <= 65_536);
    assert_eq!(rt; lines.write_out(&mut sink), Ok(()));
    assert!(rt; sink.bytes.len() == MANY * LINE.len());
    for line in sink.bytes.chunks(LINE.len()) {
        assert!(rt; line == LINE.as_bytes());
    }
    Ok(())
}

#[test]
fn a_line_longer_than_a_buffer_is_written(rt: HostRuntime) -> Result<(), Fail> {
    let mut sink = MemSink::new(rt.alloc(), 99_999)?;
    let mut lines = LineBuffer::new(rt.alloc());
    let path = long_path(rt.alloc())?;
    assert_eq!(rt; put(&mut lines, &mut sink, &note(rt.alloc())?), Ok(()));
    assert_eq!(rt;
        put(&mut lines, &mut sink, &long_note(rt.alloc(), &path)?),
        Ok(())
    );
    assert_eq!(rt; put(&mut lines, &mut sink, &note(rt.alloc())?), Ok(()));
    assert_eq!(rt; lines.write_out(&mut sink), Ok(()));
    let long = format!(in rt.alloc();
        "{LINE}3 c 1 call serial=1 reply=- from=- dest=- path={path} iface=- member=A pass\n{LINE}"
    )?;
    assert!(rt; sink.bytes.as_slice() == long.as_bytes());
    Ok(())
}

#[test]
fn a_full_sink_has_a_prefix_of_the_lines(rt: HostRuntime) -> Result<(), Fail> {
    let mut sink = MemSink::new(rt.alloc(), 10)?;
    let mut lines = LineBuffer::new(rt.alloc());
    assert_eq!(rt; put(&mut lines, &mut sink, &note(rt.alloc())?), Ok(()));
    assert_eq!(rt; lines.write_out(&mut sink), Err(SinkFault));
    assert!(rt; sink.bytes.as_slice() == b"3 c 1 type".as_slice());
    let mut sink = MemSink::new(rt.alloc(), 99)?;
    let mut lines = LineBuffer::new(rt.alloc());
    let path = long_path(rt.alloc())?;
    let written = put(&mut lines, &mut sink, &long_note(rt.alloc(), &path)?);
    assert_eq!(rt; written, Err(SinkFault));
    assert!(rt; sink.bytes.len() == 99);
    Ok(())
}
