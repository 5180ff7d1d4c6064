//! What a policy denies of recordings: the words and files of an audit.
use crate::explaining::{SEE, SEEN};
use crate::runs::{Ended, file, run_over};
use std::alloc::{AllocError, Global};
use std::str;
use std::test::Fail;
use std::thread::Threads;
use test_tables::wrong_row;

/// What is written about a recording that is named twice.
pub const TWICE: &str = "\
recording 1 items 1 denied 1
recording 2 items 1 denied 1
reason OnlySee 2
entry 1 denied 2
unnamed 1 --see=org.a.S
";

/// Words, and the status, the number of written lines, and the line on standard error.
const WORDS: &str = "\
audit policy => 1 0 error: usage
audit policy seen => 0 4
audit policy seen seen => 0 5
audit policy seen none none => 0 6
audit policy seen seen seen seen seen seen seen seen seen seen seen seen seen seen seen seen => 0 19
audit policy seen seen seen seen seen seen seen seen seen seen seen seen seen seen seen seen seen => 1 0 error: usage
audit policy -- seen => 0 4
audit policy -seen => 1 0 error: usage
audit policy seen bad missing => 3 0 error: recording: Cut at 3
audit policy missing bad => 4 0 error: file missing
audit policy bad missing => 3 0 error: recording: Cut at 3
audit seen seen => 2 0 error: policy word 0: UnknownOption
audit missing bad => 4 0 error: file missing
";

/// A run over a policy file, a recording of one call, an empty recording and a bad one.
fn audited<R: Threads + Sync>(
    rt: &R,
    alloc: Global,
    words: &str,
    room: usize,
) -> Result<Ended, AllocError> {
    let mut files = Vec::new(alloc);
    files.push(file(alloc, "policy", SEE)?)?;
    files.push(file(alloc, "seen", SEEN)?)?;
    files.push(file(alloc, "none", b"DBPR\x01\0")?)?;
    files.push(file(alloc, "bad", b"DBP")?)?;
    run_over(rt, alloc, words, files, room)
}

fn told<R: Threads + Sync>(rt: &R, alloc: Global, words: &str) -> Result<String, AllocError> {
    let ended = audited(rt, alloc, words, 10_000)?;
    let lines = str::from_utf8(&ended.out.bytes)
        .unwrap_or("")
        .lines()
        .count();
    let line = str::from_utf8(&ended.err.bytes).unwrap_or("no text");
    let told = format!(in alloc; "{} {lines} {}", ended.code, line.trim_end())?;
    String::from_str(alloc, told.trim_end())
}

#[test]
fn words_and_files_of_an_audit_are_checked_in_order(rt: HostRuntime) -> Result<(), Fail> {
    assert_eq!(rt;
        wrong_row(rt.alloc(), WORDS, &|alloc, words| told(&rt, alloc, words))?,
        None
    );
    Ok(())
}

#[test]
fn recording_that_is_named_twice_is_counted_twice(rt: HostRuntime) -> Result<(), Fail> {
    let ended = audited(&rt, rt.alloc(), "audit policy seen seen", TWICE.len())?;
    assert_eq!(rt; ended.code, 0);
    assert_eq!(rt;
        str::from_utf8(&ended.out.bytes).unwrap_or("no text"),
        TWICE
    );
    for room in 0..TWICE.len() {
        let ended = audited(&rt, rt.alloc(), "audit policy seen seen", room)?;
        assert_eq!(rt; ended.code, 6);
        assert_eq!(rt; ended.out.bytes.as_slice(), &TWICE.as_bytes()[..room]);
    }
    Ok(())
}
