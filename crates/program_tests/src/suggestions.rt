//! The policy that is suggested for recordings: the words and files of a suggestion, its output, and its greatest
//! policy.
use crate::explaining::{SEE, SEEN};
use crate::runs::{Ended, file, run_over};
use std::alloc::{AllocError, Global};
use std::str;
use std::test::Fail;
use std::thread::Threads;
use test_tables::wrong_row;

/// The policy file that is suggested for the recording of one call.
const SUGGESTED: &str = "--filter\0--call=org.a.S=org.a.I.M@/p\0";

/// Words, and the status, the number of written words, and the line on standard error.
const WORDS: &str = "\
suggest => 1 0 error: usage
suggest seen => 0 2
suggest seen seen => 0 2
suggest none none => 0 1
suggest none seen => 0 2
suggest seen seen seen seen seen seen seen seen seen seen seen seen seen seen seen seen => 0 2
suggest seen seen seen seen seen seen seen seen seen seen seen seen seen seen seen seen seen => 1 0 error: usage
suggest -- seen => 0 2
suggest -seen => 1 0 error: usage
suggest seen bad missing => 3 0 error: recording: Cut at 3
suggest missing bad => 4 0 error: file missing
suggest bad missing => 3 0 error: recording: Cut at 3
suggest policy => 3 0 error: recording: BadMagic at 0
";

/// A run over a recording of one call, an empty recording, a bad one, and a policy file.
fn suggested<R: Threads + Sync>(
    rt: &R,
    alloc: Global,
    words: &str,
    room: usize,
) -> Result<Ended, AllocError> {
    let mut files = Vec::new(alloc);
    files.push(file(alloc, "policy", SEE)?)?;
    files.push(file(alloc, "seen", SEEN)?)?;
    files.push(file(alloc, "none", b"DBPR\x01\0")?)?;
    files.push(file(alloc, "bad", b"DBP")?)?;
    run_over(rt, alloc, words, files, room)
}

/// The number of words in bytes. Each word ends with a NUL.
fn words_in(bytes: &[u8]) -> usize {
    let mut count: usize = 0;
    for byte in bytes {
        if *byte == 0 {
            count = count.saturating_add(1);
        }
    }
    count
}

fn told<R: Threads + Sync>(rt: &R, alloc: Global, words: &str) -> Result<String, AllocError> {
    let ended = suggested(rt, alloc, words, 10_000)?;
    let count = words_in(&ended.out.bytes);
    let line = str::from_utf8(&ended.err.bytes).unwrap_or("no text");
    let told = format!(in alloc; "{} {count} {}", ended.code, line.trim_end())?;
    String::from_str(alloc, told.trim_end())
}

#[test]
fn words_and_files_of_a_suggestion_are_checked_in_order(rt: HostRuntime) -> Result<(), Fail> {
    assert_eq!(rt;
        wrong_row(rt.alloc(), WORDS, &|alloc, words| told(&rt, alloc, words))?,
        None
    );
    Ok(())
}

#[test]
fn suggestion_is_written_up_to_the_room_that_is_left(rt: HostRuntime) -> Result<(), Fail> {
    let ended = suggested(&rt, rt.alloc(), "suggest seen seen", SUGGESTED.len())?;
    assert_eq!(rt; ended.code, 0);
    assert_eq!(rt;
        str::from_utf8(&ended.out.bytes).unwrap_or("no text"),
        SUGGESTED
    );
    for room in 0..SUGGESTED.len() {
        let ended = suggested(&rt, rt.alloc(), "suggest seen seen", room)?;
        assert_eq!(rt; ended.code, 6);
        assert_eq!(rt; ended.out.bytes.as_slice(), &SUGGESTED.as_bytes()[..room]);
    }
    Ok(())
}

/// A call of the name `org.a.N` and a number of five digits, the first of them 0 to 6.
const CALL: &[u8] = b"l\x01\0\x01\0\0\0\0\x01\0\0\0\x45\0\0\0\
\x01\x01o\0\x02\0\0\0/p\0\0\0\0\0\0\
\x02\x01s\0\x07\0\0\0org.a.I\0\
\x03\x01s\0\x01\0\0\0M\0\0\0\0\0\0\0\
\x06\x01s\0\x0c\0\0\0org.a.N00000\0\0\0\0";

/// The place of the first digit.
const DIGITS_AT: usize = 79;

/// A recording of this many calls, each to another name.
fn calls_recorded(alloc: Global, calls: u32) -> Result<Vec<u8>, AllocError> {
    let mut recording = Vec::new(alloc);
    recording.extend_from_slice(b"DBPR\x01\0")?;
    for number in 0..calls {
        let digits = format!(in alloc; "{number:05}")?;
        recording.push(0)?;
        recording.extend_from_slice(&(CALL.len() as u32).to_le_bytes())?;
        recording.extend_from_slice(&CALL[..DIGITS_AT])?;
        recording.extend_from_slice(digits.as_bytes())?;
        recording.extend_from_slice(&CALL[DIGITS_AT + 5..])?;
    }
    Ok(recording)
}

/// A run over a recording of this many calls, each to another name.
fn suggested_for_calls<R: Threads + Sync>(
    rt: &R,
    alloc: Global,
    calls: u32,
) -> Result<Ended, AllocError> {
    let mut files = Vec::new(alloc);
    files.push(file(alloc, "calls", &calls_recorded(alloc, calls)?)?)?;
    run_over(rt, alloc, "suggest calls", files, 10_000_000)
}

#[test]
fn suggested_policy_has_no_more_entries_than_a_policy_may_have(
    rt: HostRuntime,
) -> Result<(), Fail> {
    let ended = suggested_for_calls(&rt, rt.alloc(), 65_535)?;
    assert_eq!(rt; ended.code, 0);
    assert_eq!(rt; words_in(&ended.out.bytes), 65_536);
    let ended = suggested_for_calls(&rt, rt.alloc(), 65_536)?;
    assert_eq!(rt; ended.code, 7);
    assert_eq!(rt; ended.out.bytes.len(), 0);
    assert_eq!(rt;
        str::from_utf8(&ended.err.bytes).unwrap_or("no text"),
        "error: too many entries\n"
    );
    Ok(())
}
