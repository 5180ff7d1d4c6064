//! Reads and writes in memory, those that fail too.
use link_traits::{FileFault, Files, Sink, SinkFault, read_whole, write_all};
use memory_links::{MemFile, MemFiles, MemSink};
use std::alloc::{AllocError, Global};
use std::test::Fail;
use test_tables::{text_of, wrong_row};

/// Paths and limits of reads of the same files, one after the other, and the answer of each, what a buffer holds that
/// held `kept ` before, and how many reads have failed.
const READS: &str = "\
a 5, a 4, b 9,  9, aa 0, a 9 => Ok(()) kept first 0, Err(TooLong) kept  0, Err(Failed) kept  1, Err(Failed) kept  2, Err(Failed) kept  3, Ok(()) kept first 3, 
";

/// A path and a limit, and the whole file, or why it isn't read, and how many reads have failed.
const WHOLE_FILES: &str = "\
a 5 => first 0
a 4 => TooLong 0
b 4 => Failed 1
c 4 => Failed 1
";

/// Pieces that are written to a sink with room for five bytes, one after the other, and the answer of each, what the
/// sink has then, and how many writes have failed.
const WRITES: &str = "\
abc, defg, , h => Ok(3) abc 0, Ok(2) abcde 0, Ok(0) abcde 0, Err(SinkFault) abcde 1, 
";

/// The room of a sink and bytes that are all written, and the answer, what the sink has then, and how many writes have
/// failed.
const WRITTEN: &str = "\
9 abcdef => Ok(()) abcdef 0
6 abcdef => Ok(()) abcdef 0
4 abcdef => Err(SinkFault) abcd 1
0 abcdef => Err(SinkFault)  1
0  => Ok(())  0
";

/// A file `a` of five bytes, a second one of that path, and a file `b` that fails.
fn files(alloc: Global) -> Result<MemFiles, AllocError> {
    let mut files = Vec::new(alloc);
    files.push(file(alloc, "a", "first", false)?)?;
    files.push(file(alloc, "a", "second", false)?)?;
    files.push(file(alloc, "b", "third", true)?)?;
    Ok(MemFiles::new(files))
}

fn file(alloc: Global, path: &str, bytes: &str, fails: bool) -> Result<MemFile, AllocError> {
    Ok(MemFile {
        path: String::from_str(alloc, path)?,
        bytes: Vec::from_slice(alloc, bytes.as_bytes())?,
        fails,
    })
}

fn told_reads(alloc: Global, row: &str) -> Result<String, AllocError> {
    let mut files = files(alloc)?;
    let mut told = String::new(alloc);
    for read in row.split(", ") {
        told.push_str(&told_read(alloc, &mut files, read)?)?;
    }
    Ok(told)
}

fn told_read(alloc: Global, files: &mut MemFiles, read: &str) -> Result<String, AllocError> {
    let (path, limit) = read.split_once(' ').unwrap_or((read, ""));
    let mut into = Vec::from_slice(alloc, b"kept ")?;
    let answer = files.read(path, limit.parse().unwrap_or(0), &mut into);
    let held = text_of(alloc, &into)?;
    format!(in alloc; "{answer:?} {held} {}, ", files.faults)
}

fn told_whole(alloc: Global, row: &str) -> Result<String, AllocError> {
    let (path, limit) = row.split_once(' ').unwrap_or((row, ""));
    let mut files = files(alloc)?;
    match read_whole(alloc, &mut files, path, limit.parse().unwrap_or(0)) {
        Ok(bytes) => format!(in alloc; "{} {}", text_of(alloc, &bytes)?, files.faults),
        Err(FileFault::Memory) => Err(AllocError),
        Err(fault) => format!(in alloc; "{fault:?} {}", files.faults),
    }
}

/// Writes a piece through the bound alone.
fn write_piece<S: Sink>(sink: &mut S, piece: &[u8]) -> Result<usize, SinkFault> {
    sink.write(piece)
}

fn told_writes(alloc: Global, row: &str) -> Result<String, AllocError> {
    let mut sink = MemSink::new(alloc, 5)?;
    let mut told = String::new(alloc);
    for piece in row.split(", ") {
        let answer = write_piece(&mut sink, piece.as_bytes());
        let held = text_of(alloc, &sink.bytes)?;
        told.push_str(&format!(in alloc; "{answer:?} {held} {}, ", sink.faults)?)?;
    }
    Ok(told)
}

fn told_written(alloc: Global, row: &str) -> Result<String, AllocError> {
    let (room, bytes) = row.split_once(' ').unwrap_or((row, ""));
    let mut sink = MemSink::new(alloc, room.parse().unwrap_or(0))?;
    let answer = write_all(&mut sink, bytes.as_bytes());
    let held = text_of(alloc, &sink.bytes)?;
    format!(in alloc; "{answer:?} {held} {}", sink.faults)
}

#[test]
fn files_are_read_within_a_limit(rt: HostRuntime) -> Result<(), Fail> {
    assert_eq!(rt; wrong_row(rt.alloc(), READS, &told_reads)?, None);
    assert_eq!(rt; wrong_row(rt.alloc(), WHOLE_FILES, &told_whole)?, None);
    Ok(())
}

#[test]
fn writes_are_cut_where_room_ends(rt: HostRuntime) -> Result<(), Fail> {
    assert_eq!(rt; wrong_row(rt.alloc(), WRITES, &told_writes)?, None);
    assert_eq!(rt; wrong_row(rt.alloc(), WRITTEN, &told_written)?, None);
    Ok(())
}
