//! Explaining a message of a recording: what is written, and the numbers and files of runs without an explanation.
use crate::files::told;
use crate::outside::{DROPPED, LOG};
use crate::runs::{Ended, run_on};
use std::alloc::{AllocError, Global};
use std::test::Fail;
use std::thread::Threads;
use test_tables::{plain, wrong_row};

/// A recording of a call of org.a.I.M at org.a.S.
pub const SEEN: &[u8] = b"DBPR\x01\0\
\0\x50\0\0\0l\x01\0\x01\0\0\0\0\x01\0\0\0\x40\0\0\0\
\x01\x01o\0\x02\0\0\0/p\0\0\0\0\0\0\
\x02\x01s\0\x07\0\0\0org.a.I\0\
\x03\x01s\0\x01\0\0\0M\0\0\0\0\0\0\0\
\x06\x01s\0\x07\0\0\0org.a.S\0";

/// A policy under which the name may only be seen.
pub const SEE: &[u8] = b"--filter\0--see=org.a.S";

/// What is written about the call: it is answered with an error, since an entry only lets the name be seen.
const SEEN_LINES: &[u8] =
    b"1 c 1 call serial=1 reply=- from=- dest=org.a.S path=/p iface=org.a.I member=M ping OnlySee 1 AccessDenied\n\
entry 1 --see=org.a.S\n";

/// A recording of a call that gets the property org.a.I.Mute of org.a.C.
const GET: &[u8] = b"DBPR\x01\0\
\0\x85\0\0\0l\x01\0\x01\x15\0\0\0\x01\0\0\0\x60\0\0\0\
\x01\x01o\0\x02\0\0\0/p\0\0\0\0\0\0\
\x02\x01s\0\x1f\0\0\0org.freedesktop.DBus.Properties\0\
\x03\x01s\0\x03\0\0\0Get\0\0\0\0\0\
\x06\x01s\0\x07\0\0\0org.a.C\0\
\x08\x01g\0\x02ss\0\
\x07\0\0\0org.a.I\0\x04\0\0\0Mute\0";

/// A policy under which requests of another property pass.
const VOLUME: &[u8] = b"--filter\0--property=org.a.C=org.a.I.Volume@/p";

/// What is written about that call: it is answered with an error, since the entry doesn't match it.
const GET_LINES: &[u8] =
    b"1 c 1 call serial=1 reply=- from=- dest=org.a.C path=/p iface=org.freedesktop.DBus.Properties member=Get ping NoRule 1 AccessDenied\n\
entry 1 --property=org.a.C=org.a.I.Volume@/p\n";

/// A number, and the status, the number of written bytes, and the line, for a recording of one message.
const NUMBERS: &str = "\
0 => 9 0 error: no such message
2 => 9 0 error: no such message
18446744073709551615 => 9 0 error: no such message
18446744073709551616 => 1 0 error: usage
184467440737095516150 => 1 0 error: usage
01 => 1 0 error: usage
00 => 1 0 error: usage
+1 => 1 0 error: usage
-1 => 1 0 error: usage
x => 1 0 error: usage
1x => 1 0 error: usage
 => 1 0 error: usage
";

/// A policy file and a recording, and how the explanation of number 0 ends: files are checked before the number is.
const FILES: &str = "\
--colour DBP => 2 0 error: policy word 0: UnknownOption
--filter DBP => 3 0 error: recording: Cut at 3
--filter DBPR%01~ => 9 0 error: no such message
";

fn explained<R: Threads + Sync>(
    rt: &R,
    alloc: Global,
    policy: &[u8],
    recording: &[u8],
    number: &str,
    room: usize,
) -> Result<Ended, AllocError> {
    let words = format!(in alloc; "explain policy recording {number}")?;
    run_on(rt, alloc, &words, policy, recording, room)
}

fn told_number<R: Threads + Sync>(
    rt: &R,
    alloc: Global,
    number: &str,
) -> Result<String, AllocError> {
    told(alloc, &explained(rt, alloc, SEE, SEEN, number, 200)?)
}

fn told_files<R: Threads + Sync>(rt: &R, alloc: Global, files: &str) -> Result<String, AllocError> {
    let (policy, recording) = files.split_once(' ').unwrap_or((files, ""));
    let (policy, recording) = (plain(alloc, policy)?, plain(alloc, recording)?);
    told(alloc, &explained(rt, alloc, &policy, &recording, "0", 200)?)
}

#[test]
fn a_message_is_explained_with_the_entry_of_its_decision(rt: HostRuntime) -> Result<(), Fail> {
    for (policy, recording, lines) in [(SEE, SEEN, SEEN_LINES), (VOLUME, GET, GET_LINES)] {
        let ended = explained(&rt, rt.alloc(), policy, recording, "1", 200)?;
        assert_eq!(rt; (ended.code, ended.err.bytes.len()), (0, 0));
        assert_eq!(rt; ended.out.bytes.as_slice(), lines);
    }
    Ok(())
}

#[test]
fn a_decision_without_an_entry_has_one_line_and_a_log_changes_nothing(
    rt: HostRuntime,
) -> Result<(), Fail> {
    for policy in [b"--filter".as_slice(), b"--filter\0--log".as_slice()] {
        let ended = explained(&rt, rt.alloc(), policy, DROPPED, "1", 200)?;
        assert_eq!(rt; (ended.code, ended.err.bytes.len()), (0, 0));
        assert_eq!(rt; ended.out.bytes.as_slice(), LOG);
    }
    Ok(())
}

#[test]
fn an_explanation_without_room_is_cut_with_status_6(rt: HostRuntime) -> Result<(), Fail> {
    for room in 0..SEEN_LINES.len() {
        let ended = explained(&rt, rt.alloc(), SEE, SEEN, "1", room)?;
        assert_eq!(rt; (ended.code, ended.err.bytes.len()), (6, 0));
        assert_eq!(rt; ended.out.bytes.as_slice(), &SEEN_LINES[..room]);
    }
    Ok(())
}

#[test]
fn numbers_of_no_message_are_9_and_other_words_are_usage(rt: HostRuntime) -> Result<(), Fail> {
    assert_eq!(rt;
        wrong_row(
            rt.alloc(),
            NUMBERS,
            &|alloc, number| told_number(&rt, alloc, number)
        )?,
        None
    );
    Ok(())
}

#[test]
fn without_the_filter_a_recording_has_no_messages(rt: HostRuntime) -> Result<(), Fail> {
    let ended = explained(&rt, rt.alloc(), b"--see=org.a.S", SEEN, "1", 200)?;
    assert_eq!(rt;
        told(rt.alloc(), &ended)?.as_str(),
        "9 0 error: no such message"
    );
    Ok(())
}

#[test]
fn files_are_checked_before_the_number(rt: HostRuntime) -> Result<(), Fail> {
    assert_eq!(rt;
        wrong_row(
            rt.alloc(),
            FILES,
            &|alloc, files| told_files(&rt, alloc, files)
        )?,
        None
    );
    Ok(())
}
