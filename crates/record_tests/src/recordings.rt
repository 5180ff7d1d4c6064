//! What a recorder appends, by what a net in memory answers. A row has the net's script, what appends answer, calls,
//! and then what the calls answer, what the file holds and the first error of an append.
use crate::calls::told_calls;
use link_traits::{Got, Link, Net, Side};
use memory_links::{MemFiles, MemNet, Script};
use record_net::{RecordFile, Recorder};
use std::alloc::{AllocError, Global};
use std::test::Fail;
use test_nets::net_of;
use test_tables::{text_of, wrong_row};

/// Reads, ends and calls that fail are recorded, and nothing else.
const RECORDS: &str = "\
arrival 0, piece c1 hello, end c1, piece b1 ok, end b1; ; listen, wait, accept 0, connect 1, read c1 9, read c1 9, \
    read b1 9, read b1 9 => Ok(0), Listener(0), New(1), Ok(()), Bytes(5), Finished, Bytes(2), Finished; \
    DBPR%02%01~%01~~~%05~~~hello%02%01~~~~~~~%01%01~~~%02~~~ok%03%01~~~~~~~ None
arrival 0, arrival 0, piece c2 two, piece c1 one; ; listen, accept 0, accept 0, read c2 2, read c1 9, read c2 2 => \
    Ok(0), New(1), New(2), Bytes(2), Bytes(3), Bytes(1); DBPR%02%01~%02~~~%02~~~tw~%01~~~%03~~~one~%02~~~%01~~~o None
arrival 0, ReadFails 1, WriteFails 1; ; listen, accept 0, connect 1, read c1 9, write c1 x => Ok(0), New(1), Ok(()), Failed, Failed; DBPR%02%01%04%01~~~%01~~~%07%04%01~~~%01~~~%08 None
arrival 0, ReadFails 1, WriteFails 1; ; listen, accept 0, connect 1, read b1 9, write b1 x => Ok(0), New(1), Ok(()), Failed, Failed; DBPR%02%01%04%01~~~%01~~~%09%04%01~~~%01~~~%0A None
arrival 0, ConnectFails 1; ; listen, accept 0, connect 1 => Ok(0), New(1), Err(Failed); DBPR%02%01%04%01~~~%01~~~%0B None
arrival 0, ConnectRefused 1; ; listen, accept 0, connect 1 => Ok(0), New(1), Err(Memory); DBPR%02%01 None
ListenFails 1, WaitFails 1, AcceptFails 1; ; listen, wait, accept 0 => Err(Failed), Failed, Failed; DBPR%02%01 None
PrepareFails 1; ; prepare 7, prepare 7, listen => Err(Failed), Ok(()), Ok(0); DBPR%02%01 None
arrival 0, ReadNotReady 1, WriteNotReady 1; ; listen, accept 0, connect 1, read c1 9, write b1 x, write b1 yz, \
    want c1, shut c1 => Ok(0), New(1), Ok(()), NotReady, NotReady, Bytes(2), wanted, shut; DBPR%02%01 None
";

/// Appends that take a few bytes, fail, or are refused memory. The net goes on.
const APPENDS: &str = "\
arrival 0, piece c1 hello, end c1; most 1; listen, accept 0, read c1 9, read c1 9 => Ok(0), New(1), Bytes(5), Finished; DBPR%02%01~%01~~~%05~~~hello%02%01~~~~~~~ None
arrival 0, piece c1 hello, end c1; fails 2; listen, accept 0, read c1 9, read c1 9 => Ok(0), New(1), Bytes(5), Finished; DBPR%02%01 Some(Failed)
arrival 0, piece c1 hello, end c1; refused 2; listen, accept 0, read c1 9, read c1 9 => Ok(0), New(1), Bytes(5), Finished; DBPR%02%01 Some(Memory)
arrival 0, piece c1 hello, end c1; fails 3; listen, accept 0, read c1 9, read c1 9, read c1 9 => Ok(0), New(1), Bytes(5), Finished, Finished; DBPR%02%01~%01~~~%05~~~hello Some(Failed)
arrival 0, piece c1 hello, end c1; most 4, fails 4; listen, accept 0, read c1 9, read c1 9 => Ok(0), New(1), Bytes(5), Finished; DBPR%02%01~%01~~ Some(Failed)
arrival 0; fails 1; listen => Failed
arrival 0; refused 1; listen => Memory
arrival 0; most 1, fails 6; listen => Failed
";

/// Files of which none is there.
pub fn files(alloc: Global, script: &str) -> MemFiles {
    let mut files = MemFiles::new(Vec::new(alloc));
    for word in script.split(", ") {
        let (kind, number) = word.split_once(' ').unwrap_or((word, ""));
        let number: u64 = number.parse().unwrap_or(0);
        match kind {
            "most" => files.appends.most = number as usize,
            "fails" => files.appends.fails = Some(number),
            "refused" => files.appends.refused = Some(number),
            _ => {}
        }
    }
    files
}

/// What the first file holds.
pub fn held(alloc: Global, files: &MemFiles) -> Result<String, AllocError> {
    match files.files.first() {
        Some(file) => text_of(alloc, &file.bytes),
        None => String::from_str(alloc, "no file"),
    }
}

fn told(alloc: Global, row: &str) -> Result<String, AllocError> {
    let (script, rest) = row.split_once("; ").unwrap_or(("", row));
    let (appends, calls) = rest.split_once("; ").unwrap_or(("", rest));
    let mut net = net_of(alloc, script)?;
    let mut files = files(alloc, appends);
    let path = String::from_str(alloc, "/r")?;
    match RecordFile::create(alloc, &mut files, path) {
        Ok(mut file) => {
            let told = told_recorded(alloc, &mut net, &mut files, &mut file, calls)?;
            let failed = file.failed();
            let held = held(alloc, &files)?;
            format!(in alloc; "{told}; {held} {failed:?}")
        }
        Err(fault) => format!(in alloc; "{fault:?}"),
    }
}

fn told_recorded(
    alloc: Global,
    net: &mut MemNet,
    files: &mut MemFiles,
    file: &mut RecordFile,
    calls: &str,
) -> Result<String, AllocError> {
    let mut recorder = Recorder::new(net, files, file);
    told_calls(alloc, &mut recorder, calls)
}

/// What two reads of a client's 70,000 bytes into a buffer of as many answer.
fn told_long_reads(alloc: Global, files: &mut MemFiles) -> Result<(Got, Got), AllocError> {
    let piece = vec![in alloc; 7u8; 70000]?;
    let link = Link {
        session: 1,
        side: Side::Client,
    };
    let mut script = Script::new(alloc);
    script.arrival(0)?;
    script.piece(link, &piece)?;
    let mut net = MemNet::new(alloc, script, 9, 99999)?;
    let path = String::from_str(alloc, "/r")?;
    let mut buffer = vec![in alloc; 0u8; 70000]?;
    let Ok(mut file) = RecordFile::create(alloc, files, path) else {
        return Err(AllocError);
    };
    let mut recorder = Recorder::new(&mut net, files, &mut file);
    let _ = recorder.listen("/p");
    let _ = recorder.accept(0);
    let first = recorder.read(link, &mut buffer);
    let second = recorder.read(link, &mut buffer);
    Ok((first, second))
}

#[test]
fn what_links_gave_is_recorded(rt: HostRuntime) -> Result<(), Fail> {
    assert_eq!(rt; wrong_row(rt.alloc(), RECORDS, &told)?, None);
    Ok(())
}

#[test]
fn a_failed_append_ends_the_recording(rt: HostRuntime) -> Result<(), Fail> {
    assert_eq!(rt; wrong_row(rt.alloc(), APPENDS, &told)?, None);
    Ok(())
}

#[test]
fn a_read_gives_at_most_65536_bytes(rt: HostRuntime) -> Result<(), Fail> {
    let mut files = files(rt.alloc(), "");
    let (first, second) = told_long_reads(rt.alloc(), &mut files)?;
    assert_eq!(rt; first, Got::Bytes(65_536));
    assert_eq!(rt; second, Got::Bytes(4_464));
    let len = match files.files.first() {
        Some(file) => file.bytes.len(),
        None => 0,
    };
    assert_eq!(rt; len, 6 + 9 + 65_536 + 9 + 4_464);
    Ok(())
}
