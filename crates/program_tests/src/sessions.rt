//! One session of a recording as a recording of its own, and the list of the sessions that a recording has.
use crate::recorded::{POLICY, held, run_row, told_by};
use crate::runs::{file, run_over};
use std::alloc::{AllocError, Global};
use std::test::Fail;
use std::thread::Threads;
use test_tables::{SESSION, plain, text_of, wrong_named_row, wrong_row};

/// The number of a session and a recording, and the status with the recording of that session or the line. A failed
/// call ends session 7, and the bytes after it aren't written. The number 4294967298 is 2^32 + 2, which isn't session
/// 2.
const ONE: &str = "\
2 DBPR%02%01~%02~~~%02~~~ab%01%07~~~%01~~~c%02%02~~~~~~~%04%07~~~%01~~~%09%01%07~~~%01~~~d~%FF%FF%FF%FF%01~~~z => 0 DBPR%01%01~%02~~~ab%02~~~~
7 DBPR%02%01~%02~~~%02~~~ab%01%07~~~%01~~~c%02%02~~~~~~~%04%07~~~%01~~~%09%01%07~~~%01~~~d~%FF%FF%FF%FF%01~~~z => 0 DBPR%01%01%01%01~~~c
4294967295 DBPR%02%01~%02~~~%02~~~ab%01%07~~~%01~~~c%02%02~~~~~~~%04%07~~~%01~~~%09%01%07~~~%01~~~d~%FF%FF%FF%FF%01~~~z => 0 DBPR%01%01~%01~~~z
0 DBPR%02%01~%02~~~%02~~~ab%01%07~~~%01~~~c%02%02~~~~~~~%04%07~~~%01~~~%09%01%07~~~%01~~~d~%FF%FF%FF%FF%01~~~z => 9 error: no such session
1 DBPR%02%01~%02~~~%02~~~ab%01%07~~~%01~~~c%02%02~~~~~~~%04%07~~~%01~~~%09%01%07~~~%01~~~d~%FF%FF%FF%FF%01~~~z => 9 error: no such session
4294967298 DBPR%02%01~%02~~~%02~~~ab%01%07~~~%01~~~c%02%02~~~~~~~%04%07~~~%01~~~%09%01%07~~~%01~~~d~%FF%FF%FF%FF%01~~~z => 9 error: no such session
18446744073709551615 DBPR%02%01~%02~~~%02~~~ab => 9 error: no such session
18446744073709551616 DBPR%02%01~%02~~~%02~~~ab => 1 error: usage
02 DBPR%02%01~%02~~~%02~~~ab => 1 error: usage
-2 DBPR%02%01~%02~~~%02~~~ab => 1 error: usage
x DBPR%02%01~%02~~~%02~~~ab => 1 error: usage
2 DBPR%02~~%02~~~%02~~~ab%03%02~~~~~~~ => 0 DBPR%01~~%02~~~ab%03~~~~
2 DBPR%02~~%02~~~~~~~ => 0 DBPR%01~~~~~~
2 DBPR%02~%04%02~~~%01~~~%0B~%02~~~%01~~~a => 0 DBPR%01~
1 DBPR%02~ => 9 error: no such session
1 DBPR%01~~%02~~~ab%03~~~~ => 0 DBPR%01~~%02~~~ab%03~~~~
1 DBPR%01%01 => 0 DBPR%01%01
0 DBPR%01%01 => 9 error: no such session
2 DBPR%01~~%02~~~ab%03~~~~ => 9 error: no such session
1 DBP => 3 error: recording: Cut at 3
9 DBPR%02~%05%01~~~~~~~ => 3 error: recording: BadKind at 6
1 DBPR%03~ => 3 error: recording: BadVersion at 4
";

/// A recording, and the status with the list of its sessions or the line.
const SESSIONS: &str = "\
DBPR%02%01~%02~~~%02~~~ab%01%07~~~%01~~~c%02%02~~~~~~~%04%07~~~%01~~~%09%01%07~~~%01~~~d~%FF%FF%FF%FF%01~~~z => \
    0 session 2 client 2 bus 0 events 2 end 3%0Asession 7 client 0 \
    bus 2 events 3 end 9%0Asession 4294967295 client 1 bus 0 events 1 end -%0A
DBPR%02~%03%09~~~~~~~%02%09~~~~~~~~%03~~~~~~~ => 0 session 3 client 0 bus 0 events 1 end -%0Asession 9 client 0 bus 0 events 2 end 4%0A
DBPR%02~%02%01~~~~~~~%04%01~~~%01~~~%07 => 0 session 1 client 0 bus 0 events 2 end 3%0A
DBPR%02~%04%01~~~%01~~~%0B%02%01~~~~~~~ => 0 session 1 client 0 bus 0 events 2 end 11%0A
DBPR%02~ => 0 
DBPR%01~ => 0 session 1 client 0 bus 0 events 0 end -%0A
DBPR%01~~%02~~~ab%01%01~~~c~%01~~~d%03~~~~%02~~~~ => 0 session 1 client 3 bus 1 events 5 end 4%0A
DBP => 3 error: recording: Cut at 3
DBPR%02~%05%01~~~~~~~ => 3 error: recording: BadKind at 6
";

/// A line, the appends, and a script, and what a replay of each session of the resulting file writes.
const REPLAYED: &str = "\
unix:path=/bus /p --filter --talk=org.a.T --record=/r --sessions=2; ; \
    arrival 0, arrival 0, piece c1 A, piece c2 {auth}BEGIN%0D, piece c2 %0A{call}, piece b2 {ok}{return}, end c2 \
    => %12%0B~~~%01~%01~~~~~~~~, %10g~~~{auth}{begin}{call}%11]~~~{ok}{return}%12%01~~~%03
";

/// A recording of two sessions.
const TWO: &[u8] = b"DBPR\x02\0\0\x01\0\0\0\x01\0\0\0a\x01\x02\0\0\0\x01\0\0\0b";

fn told_session<R: Threads + Sync>(rt: &R, alloc: Global, row: &str) -> Result<String, AllocError> {
    let (number, bytes) = row.split_once(' ').unwrap_or((row, ""));
    let words = format!(in alloc; "session many {number}")?;
    told_by(rt, alloc, &words, &plain(alloc, bytes)?)
}

#[test]
fn session_is_written_as_its_recording(rt: HostRuntime) -> Result<(), Fail> {
    assert_eq!(rt;
        wrong_row(rt.alloc(), ONE, &|alloc, row| told_session(&rt, alloc, row))?,
        None
    );
    Ok(())
}

#[test]
fn sessions_are_listed(rt: HostRuntime) -> Result<(), Fail> {
    assert_eq!(rt;
        wrong_row(
            rt.alloc(),
            SESSIONS,
            &|alloc, row| told_by(&rt, alloc, "sessions many", &plain(alloc, row)?)
        )?,
        None
    );
    Ok(())
}

/// What a replay writes of one session of a recording.
fn replayed_alone<R: Threads + Sync>(
    rt: &R,
    alloc: Global,
    recording: &[u8],
    number: u32,
) -> Result<String, AllocError> {
    let words = format!(in alloc; "session /r {number}")?;
    let mut files = Vec::new(alloc);
    files.push(file(alloc, "/r", recording)?)?;
    let one = run_over(rt, alloc, &words, files, 10_000)?;
    let mut files = Vec::new(alloc);
    files.push(file(alloc, "policy", POLICY)?)?;
    files.push(file(alloc, "one", &one.out.bytes)?)?;
    let ended = run_over(rt, alloc, "replay policy one", files, 10_000)?;
    text_of(alloc, &ended.out.bytes)
}

fn told_alone<R: Threads + Sync>(rt: &R, alloc: Global, row: &str) -> Result<String, AllocError> {
    let run = run_row(rt, alloc, row)?;
    let recording = held(alloc, &run.files)?;
    let first = replayed_alone(rt, alloc, &recording, 1)?;
    let second = replayed_alone(rt, alloc, &recording, 2)?;
    format!(in alloc; "{first}, {second}")
}

#[test]
fn session_of_a_recorded_line_is_replayed_alone(rt: HostRuntime) -> Result<(), Fail> {
    assert_eq!(rt;
        wrong_named_row(
            rt.alloc(),
            SESSION,
            REPLAYED,
            &|alloc, row| told_alone(&rt, alloc, row)
        )?,
        None
    );
    Ok(())
}

/// Whether a run of words over a recording of two sessions writes a prefix with status 6 if there is no room for all.
fn is_cut<R: Threads + Sync>(rt: &R, alloc: Global, words: &str) -> Result<bool, AllocError> {
    let whole = run_two(rt, alloc, words, 1000)?;
    for room in 0..whole.1.len() {
        let (code, bytes) = run_two(rt, alloc, words, room)?;
        if code != 6 || bytes.as_slice() != &whole.1[..room] {
            return Ok(false);
        }
    }
    Ok(whole.0 == 0 && !whole.1.is_empty())
}

/// The status and the output of a run of words over a recording of two sessions, with room for this many bytes.
fn run_two<R: Threads + Sync>(
    rt: &R,
    alloc: Global,
    words: &str,
    room: usize,
) -> Result<(u8, Vec<u8>), AllocError> {
    let mut files = Vec::new(alloc);
    files.push(file(alloc, "two", TWO)?)?;
    let ended = run_over(rt, alloc, words, files, room)?;
    Ok((ended.code, Vec::from_slice(alloc, &ended.out.bytes)?))
}

#[test]
fn sessions_without_room_are_cut_with_status_6(rt: HostRuntime) -> Result<(), Fail> {
    for words in ["session two 2", "sessions two"] {
        assert!(rt; is_cut(&rt, rt.alloc(), words)?);
    }
    Ok(())
}
