//! Output and logs that can't be written, and the files and the standard output of the system.
use crate::runs::{Ended, file, replay, run_with_room};
use link_traits::{FileFault, Files, Sink};
use process_streams::StdSink;
use proxy_main::{DiskFiles, SystemDisk};
use std::alloc::{AllocError, Global};
use std::fs;
use std::test::Fail;
use std::thread::Threads;

#[test]
fn output_without_room_is_cut_with_status_6(rt: HostRuntime) -> Result<(), Fail> {
    let ended = replay(&rt, rt.alloc(), b"--filter", b"DBPR\x01\0\x02\0\0\0\0", 3)?;
    assert_eq!(rt; (ended.code, ended.err.bytes.len()), (6, 0));
    assert_eq!(rt; ended.out.bytes.as_slice(), b"\x12\x01\0".as_slice());
    Ok(())
}

/// A recording of a call that wants no reply, and of the client's end.
pub const DROPPED: &[u8] = b"DBPR\x01\0\
\0\x50\0\0\0l\x01\x01\x01\0\0\0\0\x0a\0\0\0\x40\0\0\0\
\x01\x01o\0\x02\0\0\0/x\0\0\0\0\0\0\
\x02\x01s\0\x07\0\0\0org.h.I\0\
\x03\x01s\0\x01\0\0\0M\0\0\0\0\0\0\0\
\x06\x01s\0\x07\0\0\0org.h.X\0\
\x02\0\0\0\0";

/// The log of that recording under a filter that lets nothing be used.
pub const LOG: &[u8] =
    b"1 c 1 call serial=10 reply=- from=- dest=org.h.X path=/x iface=org.h.I member=M drop NotVisible 0\n";

/// A replay of that recording with room for this many bytes of the log.
fn logged<R: Threads + Sync>(rt: &R, alloc: Global, room: usize) -> Result<Ended, AllocError> {
    let mut files = Vec::new(alloc);
    files.push(file(alloc, "policy", b"--filter\0--log")?)?;
    files.push(file(alloc, "recording", DROPPED)?)?;
    run_with_room(rt, alloc, "replay policy recording", files, 100, room)
}

#[test]
fn a_log_without_room_is_cut_with_status_6_before_the_output(rt: HostRuntime) -> Result<(), Fail> {
    for room in 0..LOG.len() {
        let ended = logged(&rt, rt.alloc(), room)?;
        assert_eq!(rt; (ended.code, ended.out.bytes.len()), (6, 0));
        assert_eq!(rt; ended.err.bytes.as_slice(), &LOG[..room]);
    }
    Ok(())
}

#[test]
fn a_log_with_room_stands_beside_the_output(rt: HostRuntime) -> Result<(), Fail> {
    let ended = logged(&rt, rt.alloc(), LOG.len())?;
    assert_eq!(rt; ended.code, 0);
    assert_eq!(rt; ended.err.bytes.as_slice(), LOG);
    assert_eq!(rt;
        ended.out.bytes.as_slice(),
        b"\x12\x01\0\0\0\x03".as_slice()
    );
    Ok(())
}

#[test]
fn disk_files_are_read_within_a_limit(rt: HostRuntime) -> Result<(), Fail> {
    let path = "disk_files_are_read_within_a_limit";
    fs::write(&rt, path, b"--filter")?;
    let mut files = DiskFiles::new(SystemDisk::new(&rt));
    let mut into = Vec::new(rt.alloc());
    for (path, limit, expected) in [
        (path, 8, Ok(())),
        (path, 7, Err(FileFault::TooLong)),
        ("missing", 8, Err(FileFault::Failed)),
    ] {
        assert_eq!(rt; files.read(path, limit, &mut into), expected);
    }
    assert_eq!(rt; into.as_slice(), b"--filter".as_slice());
    fs::remove_file(&rt, path)?;
    Ok(())
}

#[test]
fn standard_output_takes_what_is_written(rt: HostRuntime) {
    let mut out = StdSink::new(rt.stdout(), &rt);
    for (bytes, expected) in [("", Ok(0)), ("\n", Ok(1))] {
        assert_eq!(rt; out.write(bytes.as_bytes()), expected);
    }
}
