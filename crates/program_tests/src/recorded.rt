//! Lines that are recorded: what the file has, and what a replay of it writes.
use crate::runs::{Ended, file, run_files, run_over};
use memory_links::{MemFiles, MemNet};
use std::alloc::{AllocError, Global};
use std::str;
use std::test::Fail;
use std::thread::Threads;
use test_nets::{add_written, net_of};
use test_tables::{SESSION, add_text, plain, text_of, wrong_named_row, wrong_row};

/// Two sessions, one of which is malformed from its first byte, while the other calls org.a.T and is answered. A row
/// has the words, the results of appends and the net's script, and then the status, what was written to the links, what
/// the file has, and the line.
const RECORDED: &str = "\
unix:path=/bus /p --filter --talk=org.a.T --record=/r --sessions=2; ; \
    arrival 0, arrival 0, piece c1 A, piece c2 {auth}BEGIN%0D, piece c2 %0A{call}, piece b2 {ok}{return}, end c2 \
    => 0, c1 , b1 , c2 {ok}{return}, b2 {auth}{begin}{call}, \
    DBPR%02%01~%01~~~%01~~~A~%02~~~%16~~~{auth}BEGIN%0D~%02~~~Q~~~%0A{call}%01%02~~~]~~~{ok}{return}%02%02~~~~~~~
unix:path=/bus /p --filter --talk=org.a.T --record=/r --sessions=2; most 1; \
    arrival 0, arrival 0, piece c1 A, piece c2 {auth}BEGIN%0D, piece c2 %0A{call}, piece b2 {ok}{return}, end c2 \
    => 0, c1 , b1 , c2 {ok}{return}, b2 {auth}{begin}{call}, \
    DBPR%02%01~%01~~~%01~~~A~%02~~~%16~~~{auth}BEGIN%0D~%02~~~Q~~~%0A{call}%01%02~~~]~~~{ok}{return}%02%02~~~~~~~
unix:path=/bus /p --filter --talk=org.a.T --record=/r --sessions=2; fails 1; \
    arrival 0, arrival 0, piece c1 A, piece c2 {auth}BEGIN%0D, piece c2 %0A{call}, piece b2 {ok}{return}, end c2 \
    => 4, c1 , b1 , c2 , b2 , , err error: file /r%0A
unix:path=/bus /p --filter --talk=org.a.T --record=/r --sessions=2; refused 1; \
    arrival 0, arrival 0, piece c1 A, piece c2 {auth}BEGIN%0D, piece c2 %0A{call}, piece b2 {ok}{return}, end c2 \
    => 8, c1 , b1 , c2 , b2 , , err error: memory%0A
unix:path=/bus /p --filter --talk=org.a.T --record=/r --sessions=2; fails 2; \
    arrival 0, arrival 0, piece c1 A, piece c2 {auth}BEGIN%0D, piece c2 %0A{call}, piece b2 {ok}{return}, end c2 \
    => 4, c1 , b1 , c2 {ok}{return}, b2 {auth}{begin}{call}, DBPR%02%01, err error: file /r%0A
unix:path=/bus /p --filter --talk=org.a.T --record=/r --sessions=2; refused 2; \
    arrival 0, arrival 0, piece c1 A, piece c2 {auth}BEGIN%0D, piece c2 %0A{call}, piece b2 {ok}{return}, end c2 \
    => 8, c1 , b1 , c2 {ok}{return}, b2 {auth}{begin}{call}, DBPR%02%01, err error: memory%0A
unix:path=/bus /p --filter --talk=org.a.T --record=/r --sessions=2; ; \
    ListenFails 1 \
    => 5, c1 , b1 , c2 , b2 , DBPR%02%01, err error: listen%0A
unix:path=/bus /p --filter --talk=org.a.T --record=/r --sessions=2; fails 2; \
    ListenFails 1 \
    => 5, c1 , b1 , c2 , b2 , DBPR%02%01, err error: listen%0A
unix:path=/bus /p --filter --record=/q unix:path=/bus2 /p2 --record=/r --sessions=1; ; \
    ConnectFails 1, arrival 0 \
    => 0, c1 , b1 , c2 , b2 , DBPR%02%01%04%01~~~%01~~~%0B
";

/// The policy of the sessions, as the words of a file.
pub const POLICY: &[u8] = b"--filter\0--talk=org.a.T\0";

/// A line, the appends, and a script, and what a replay of the resulting file writes: of session 1, that its first byte
/// isn't the one that a client must send; of session 2, what was sent to either side and that the client's stream
/// ended.
const REPLAYED: &str = "\
unix:path=/bus /p --filter --talk=org.a.T --record=/r --sessions=2; ; \
    arrival 0, arrival 0, piece c1 A, piece c2 {auth}BEGIN%0D, piece c2 %0A{call}, piece b2 {ok}{return}, end c2 \
    => %12%01~~~%0B~~~%01~%01~~~~~~~~%10%02~~~g~~~{auth}{begin}{call}%11%02~~~]~~~{ok}{return}%12%02~~~%01~~~%03
";

/// How a run over no files and the net of a script ended.
pub struct Run {
    pub ended: Ended,
    pub files: MemFiles,
    pub net: MemNet,
}

// Its drop is a call, so that a function that drops one is short to prove.
impl Drop for Run {
    fn drop(self) {
        let Run {
            ended: _ended,
            files: _files,
            net: _net,
        } = self;
    }
}

/// A run of the words with which a row begins. They are followed by its appends and its script.
pub fn run_row<R: Threads + Sync>(rt: &R, alloc: Global, row: &str) -> Result<Run, AllocError> {
    let (words, rest) = row.split_once("; ").unwrap_or((row, ""));
    let (appends, script) = rest.split_once("; ").unwrap_or(("", rest));
    let mut net = net_of(alloc, script)?;
    let mut files = MemFiles::new(Vec::new(alloc));
    set_appends(&mut files, appends);
    let ended = run_files(rt, alloc, words, &mut files, &mut net, (0, 999))?;
    Ok(Run { ended, files, net })
}

/// Sets the results of appends: the most bytes that they take, and the number of the one that fails or is refused
/// memory.
fn set_appends(files: &mut MemFiles, words: &str) {
    let (kind, number) = words.split_once(' ').unwrap_or((words, ""));
    let number: u64 = number.parse().unwrap_or(0);
    match kind {
        "most" => files.appends.most = number as usize,
        "fails" => files.appends.fails = Some(number),
        "refused" => files.appends.refused = Some(number),
        _ => {}
    }
}

/// The bytes of the recording's file, or none if there is no file.
pub fn held(alloc: Global, files: &MemFiles) -> Result<Vec<u8>, AllocError> {
    match files.files.first() {
        Some(file) => Vec::from_slice(alloc, &file.bytes),
        None => Ok(Vec::new(alloc)),
    }
}

fn told_recorded<R: Threads + Sync>(
    rt: &R,
    alloc: Global,
    row: &str,
) -> Result<String, AllocError> {
    let run = run_row(rt, alloc, row)?;
    let mut told = format!(in alloc; "{}", run.ended.code)?;
    add_written(alloc, &mut told, &run.net, "c1 b1 c2 b2")?;
    told.push_str(", ")?;
    add_text(&mut told, &held(alloc, &run.files)?)?;
    if !run.ended.err.bytes.is_empty() {
        told.push_str(", err ")?;
        add_text(&mut told, &run.ended.err.bytes)?;
    }
    Ok(told)
}

#[test]
fn line_is_recorded_as_it_is_served(rt: HostRuntime) -> Result<(), Fail> {
    assert_eq!(rt;
        wrong_named_row(
            rt.alloc(),
            SESSION,
            RECORDED,
            &|alloc, row| told_recorded(&rt, alloc, row)
        )?,
        None
    );
    Ok(())
}

fn told_replayed<R: Threads + Sync>(
    rt: &R,
    alloc: Global,
    row: &str,
) -> Result<String, AllocError> {
    let run = run_row(rt, alloc, row)?;
    let mut files = Vec::new(alloc);
    files.push(file(alloc, "policy", POLICY)?)?;
    files.push(file(alloc, "/r", &held(alloc, &run.files)?)?)?;
    let ended = run_over(rt, alloc, "replay policy /r", files, 10_000)?;
    text_of(alloc, &ended.out.bytes)
}

#[test]
fn recording_of_a_line_is_replayed(rt: HostRuntime) -> Result<(), Fail> {
    assert_eq!(rt;
        wrong_named_row(
            rt.alloc(),
            SESSION,
            REPLAYED,
            &|alloc, row| told_replayed(&rt, alloc, row)
        )?,
        None
    );
    Ok(())
}

/// Bytes of a recording of many sessions, and the result of each tool that takes a recording: of a replay under no
/// words, and of the tools that only take recordings of one session.
const MANY: &str = "\
DBPR%02~~%03~~~%03~~~%FF%FF%FF%02%03~~~~~~~ => 0 %10%03~~~%03~~~%FF%FF%FF%12%03~~~%01~~~%03, 3 error: recording: BadVersion at 4
DBPR%02~~~~~~%03~~~%FF%FF%FF => 3 error: recording: BadSession at 7, 3 error: recording: BadVersion at 4
DBPR%02~%05%01~~~~~~~ => 3 error: recording: BadKind at 6, 3 error: recording: BadVersion at 4
DBPR%02~%04%01~~~%01~~~%0C => 3 error: recording: BadEnd at 15, 3 error: recording: BadVersion at 4
DBPR%03~ => 3 error: recording: BadVersion at 4, 3 error: recording: BadVersion at 4
";

/// The result of a tool for a recording: its status, and what it writes or its line.
pub fn told_by<R: Threads + Sync>(
    rt: &R,
    alloc: Global,
    words: &str,
    bytes: &[u8],
) -> Result<String, AllocError> {
    let mut files = Vec::new(alloc);
    files.push(file(alloc, "policy", b"")?)?;
    files.push(file(alloc, "many", bytes)?)?;
    let ended = run_over(rt, alloc, words, files, 10_000)?;
    let out = text_of(alloc, &ended.out.bytes)?;
    let line = str::from_utf8(&ended.err.bytes).unwrap_or("no text");
    format!(in alloc; "{} {out}{}", ended.code, line.trim_end())
}

fn told_many<R: Threads + Sync>(rt: &R, alloc: Global, row: &str) -> Result<String, AllocError> {
    let bytes = plain(alloc, row)?;
    let replayed = told_by(rt, alloc, "replay policy many", &bytes)?;
    let audited = told_by(rt, alloc, "audit policy many", &bytes)?;
    let suggested = told_by(rt, alloc, "suggest many", &bytes)?;
    let explained = told_by(rt, alloc, "explain policy many 1", &bytes)?;
    let compared = told_by(rt, alloc, "twin policy many many", &bytes)?;
    let told = audited.as_str();
    if told != suggested.as_str() || told != explained.as_str() || told != compared.as_str() {
        return format!(in alloc; "{suggested}, {explained}, {compared}");
    }
    format!(in alloc; "{replayed}, {audited}")
}

#[test]
fn replay_takes_recordings_of_many_sessions(rt: HostRuntime) -> Result<(), Fail> {
    assert_eq!(rt;
        wrong_row(rt.alloc(), MANY, &|alloc, row| told_many(&rt, alloc, row))?,
        None
    );
    Ok(())
}
