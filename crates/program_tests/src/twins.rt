//! Comparing two recordings: what is written, and the files of runs without a comparison.
use crate::explaining::{SEE, SEEN};
use crate::runs::{Ended, file, run_over};
use std::alloc::{AllocError, Global};
use std::str;
use std::test::Fail;
use std::thread::Threads;
use test_tables::{plain, wrong_row};

/// A policy file and two recordings, and the status, what is written, and the line. The policy file is read and checked
/// first, and the first recording before the second.
const FILES: &str = "\
--filter DBPR%01~ DBPR%01~ => 0 same;
--filter DBPR%01~%02~~~~ DBPR%01~%02~~~~ => 0 same;
--filter DBPR%01~%02~~~~ DBPR%01~ => 7 differ 1;
--filter DBPR%01~ DBPR%01~%02~~~~ => 7 differ 1;
--filter DBPR%01~%02~~~~ DBPR%01~%03~~~~ => 7 differ 1;
--filter DBPR%01~%02~~~~%03~~~~ DBPR%01~%02~~~~ => 0 same;
--see=org.a.S DBPR%01~ DBPR%01~%02~~~~ => 7 differ 1;
--log DBPR%01~ DBPR%01~ => 0 same;
--colour DBPR%01~ DBPR%01~ => 2 error: policy word 0: UnknownOption;
--colour DBP DBP => 2 error: policy word 0: UnknownOption;
--filter DBP DBPR%01~ => 3 error: recording: Cut at 3;
--filter DBPR%01~ DBP => 3 error: recording: Cut at 3;
--filter DBPR%01~%02~~~~ DBPR%09~ => 3 error: recording: BadVersion at 4;
--filter DBP DBPR%09~ => 3 error: recording: Cut at 3;
--filter DBPR%09~ DBP => 3 error: recording: BadVersion at 4;
";

/// Which file is missing, and the status and the line if one recording is bad: it is refused before the other is read.
const MISSING: &str = "\
twin missing bad good => 4 error: file missing;
twin policy bad missing => 3 error: recording: Cut at 3;
twin policy missing bad => 4 error: file missing;
twin policy good missing => 4 error: file missing;
twin policy good bad => 3 error: recording: Cut at 3;
twin policy bad good => 3 error: recording: Cut at 3;
";

/// A comparison of two recordings under a policy, with room for this many bytes of output.
fn compared<R: Threads + Sync>(
    rt: &R,
    alloc: Global,
    policy: &[u8],
    one: &[u8],
    other: &[u8],
    room: usize,
) -> Result<Ended, AllocError> {
    let mut files = Vec::new(alloc);
    files.push(file(alloc, "policy", policy)?)?;
    files.push(file(alloc, "one", one)?)?;
    files.push(file(alloc, "other", other)?)?;
    run_over(rt, alloc, "twin policy one other", files, room)
}

/// How a run ended: the status, and all that was written, with `;` for the end of a line.
fn told(alloc: Global, ended: &Ended) -> Result<String, AllocError> {
    let mut told = format!(in alloc; "{} ", ended.code)?;
    for bytes in [&ended.out.bytes, &ended.err.bytes] {
        for line in str::from_utf8(bytes).unwrap_or("no text").lines() {
            told.push_str(line)?;
            told.push(';')?;
        }
    }
    Ok(told)
}

fn told_files<R: Threads + Sync>(rt: &R, alloc: Global, files: &str) -> Result<String, AllocError> {
    let (policy, recordings) = files.split_once(' ').unwrap_or((files, ""));
    let (one, other) = recordings.split_once(' ').unwrap_or((recordings, ""));
    let (policy, one, other) = (
        plain(alloc, policy)?,
        plain(alloc, one)?,
        plain(alloc, other)?,
    );
    told(alloc, &compared(rt, alloc, &policy, &one, &other, 100)?)
}

fn told_missing<R: Threads + Sync>(
    rt: &R,
    alloc: Global,
    words: &str,
) -> Result<String, AllocError> {
    let mut files = Vec::new(alloc);
    files.push(file(alloc, "policy", b"--filter")?)?;
    files.push(file(alloc, "good", b"DBPR\x01\0")?)?;
    files.push(file(alloc, "bad", b"DBP")?)?;
    told(alloc, &run_over(rt, alloc, words, files, 100)?)
}

/// The recording, followed by the client's end.
fn ended(alloc: Global, recording: &[u8]) -> Result<Vec<u8>, AllocError> {
    let mut longer = Vec::from_slice(alloc, recording)?;
    longer.extend_from_slice(b"\x02\0\0\0\0")?;
    Ok(longer)
}

/// The recording of a call in pieces: its first bytes, and then the rest.
fn in_pieces(alloc: Global) -> Result<Vec<u8>, AllocError> {
    let mut recording = Vec::from_slice(alloc, b"DBPR\x01\0\0\x07\0\0\0")?;
    recording.extend_from_slice(&SEEN[11..18])?;
    recording.extend_from_slice(b"\0\x49\0\0\0")?;
    recording.extend_from_slice(&SEEN[18..])?;
    Ok(recording)
}

#[test]
fn recordings_are_compared_once_all_files_are_checked(rt: HostRuntime) -> Result<(), Fail> {
    assert_eq!(rt;
        wrong_row(
            rt.alloc(),
            FILES,
            &|alloc, files| told_files(&rt, alloc, files)
        )?,
        None
    );
    assert_eq!(rt;
        wrong_row(
            rt.alloc(),
            MISSING,
            &|alloc, words| told_missing(&rt, alloc, words)
        )?,
        None
    );
    Ok(())
}

#[test]
fn a_message_is_an_element_in_whatever_pieces_it_comes(rt: HostRuntime) -> Result<(), Fail> {
    let (pieces, longer) = (in_pieces(rt.alloc())?, ended(rt.alloc(), SEEN)?);
    for (one, other, line) in [
        (SEEN, SEEN, "0 same;"),
        (SEEN, pieces.as_slice(), "0 same;"),
        (SEEN, b"DBPR\x01\0".as_slice(), "7 differ 1;"),
        (SEEN, longer.as_slice(), "7 differ 2;"),
        (longer.as_slice(), pieces.as_slice(), "7 differ 2;"),
    ] {
        for policy in [SEE, b"--see=org.a.S".as_slice(), b"--log".as_slice()] {
            let ended = compared(&rt, rt.alloc(), policy, one, other, 100)?;
            assert_eq!(rt; told(rt.alloc(), &ended)?.as_str(), line);
        }
    }
    Ok(())
}

#[test]
fn a_comparison_without_room_is_cut_with_status_6(rt: HostRuntime) -> Result<(), Fail> {
    for (other, line) in [
        (b"DBPR\x01\0".as_slice(), "same\n"),
        (b"DBPR\x01\0\x02\0\0\0\0".as_slice(), "differ 1\n"),
    ] {
        for room in 0..line.len() {
            let ended = compared(&rt, rt.alloc(), SEE, b"DBPR\x01\0", other, room)?;
            assert_eq!(rt; (ended.code, ended.err.bytes.len()), (6, 0));
            assert_eq!(rt; ended.out.bytes.as_slice(), &line.as_bytes()[..room]);
        }
    }
    Ok(())
}
