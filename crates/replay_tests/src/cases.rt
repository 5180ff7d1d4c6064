//! Cases: what comes of either side of a session, what either side gets, and why the session ended.
//!
//! A case has a line for each thing. `policy` has the words of the policy file, and `lines` says that the streams begin
//! with lines of authentication. `client` and `bus` have what comes of a side, in order, and `client_ends` says that
//! the client's stream ends. `to_bus` and `to_client` have what goes to a side, `end` the bytes that tell why the
//! session ended, and `log` a line of the log.
use crate::messages::named;
use crate::runs::{Ended, replay};
use crate::values::length;
use std::alloc::{AllocError, Global};
use std::process::Abort;
use std::str;
use std::thread::Threads;
use test_tables::plain;

/// The sizes of the pieces in which the streams come: byte by byte, a few, and as they stand.
pub const SIZES: [usize; 3] = [1, 7, 100_000];

/// What is given to a session, and what is to come of it.
pub struct Case {
    /// The bytes of the policy file.
    pub policy: Vec<u8>,
    auth: u8,
    /// What came, in order.
    pub came: Vec<Came>,
    /// The bytes that go to the bus.
    pub to_bus: Vec<u8>,
    /// The bytes that go to the client.
    pub to_client: Vec<u8>,
    end: Vec<u8>,
    /// The lines of the log.
    pub log: String,
}

// Its drop is a call, so that a function that drops one is short to prove.
impl Drop for Case {
    fn drop(self) {
        let Case {
            policy: _policy,
            auth: _auth,
            came: _came,
            to_bus: _to_bus,
            to_client: _to_client,
            end: _end,
            log: _log,
        } = self;
    }
}

/// What came: bytes of the client (0) or of the bus (1), or the client's end (2).
#[derive(Drop)]
pub struct Came {
    pub kind: u8,
    pub bytes: Vec<u8>,
}

/// A case of which nothing is said.
pub fn empty_case(alloc: Global) -> Case {
    Case {
        policy: Vec::new(alloc),
        auth: 0,
        came: Vec::new(alloc),
        to_bus: Vec::new(alloc),
        to_client: Vec::new(alloc),
        end: Vec::new(alloc),
        log: String::new(alloc),
    }
}

/// The case of a text.
pub fn case_of(alloc: Global, text: &str) -> Result<Case, AllocError> {
    let mut case = empty_case(alloc);
    for line in text.lines() {
        add_line(alloc, &mut case, line)?;
    }
    Ok(case)
}

/// Adds a line to a case. A line that is none of those makes a policy that is refused.
pub fn add_line(alloc: Global, case: &mut Case, line: &str) -> Result<(), AllocError> {
    let (what, text) = line.split_once(' ').unwrap_or((line, ""));
    match what {
        "policy" => add_words(&mut case.policy, text),
        "lines" => {
            case.auth = 1;
            Ok(())
        }
        "client" => add_came(&mut case.came, 0, named(alloc, text)?),
        "bus" => add_came(&mut case.came, 1, named(alloc, text)?),
        "client_ends" => add_came(&mut case.came, 2, Vec::new(alloc)),
        "to_bus" => case.to_bus.extend_from_slice(&named(alloc, text)?),
        "to_client" => case.to_client.extend_from_slice(&named(alloc, text)?),
        "end" => case.end.extend_from_slice(&plain(alloc, text)?),
        "log" => add_logged(&mut case.log, text),
        _ => case.policy.extend_from_slice(line.as_bytes()),
    }
}

fn add_logged(log: &mut String, line: &str) -> Result<(), AllocError> {
    log.push_str(line)?;
    log.push('\n')
}

fn add_words(policy: &mut Vec<u8>, words: &str) -> Result<(), AllocError> {
    for word in words.split(' ') {
        policy.extend_from_slice(word.as_bytes())?;
        policy.push(0)?;
    }
    Ok(())
}

fn add_came(came: &mut Vec<Came>, kind: u8, bytes: Vec<u8>) -> Result<(), AllocError> {
    came.push(Came { kind, bytes })?;
    Ok(())
}

/// Adds a record: a kind, a length and that many bytes.
pub fn add_record(into: &mut Vec<u8>, kind: u8, bytes: &[u8]) -> Result<(), AllocError> {
    into.push(kind)?;
    into.extend_from_slice(&length(bytes))?;
    into.extend_from_slice(bytes)
}

/// The recording of a case in which nothing came yet.
pub fn empty_recording(alloc: Global, case: &Case) -> Result<Vec<u8>, AllocError> {
    Vec::from_slice(alloc, &[b'D', b'B', b'P', b'R', 1, case.auth])
}

/// The recording of what came, in pieces of at most this many bytes.
pub fn recording_of(alloc: Global, case: &Case, size: usize) -> Result<Vec<u8>, AllocError> {
    let mut recording = empty_recording(alloc, case)?;
    for came in &case.came {
        add_records(&mut recording, came, size)?;
    }
    Ok(recording)
}

/// The records of what came: one of its own if it has no bytes.
fn add_records(into: &mut Vec<u8>, came: &Came, size: usize) -> Result<(), AllocError> {
    if came.bytes.is_empty() {
        return add_record(into, came.kind, &came.bytes);
    }
    for piece in came.bytes.chunks(size.max(1)) {
        add_record(into, came.kind, piece)?;
    }
    Ok(())
}

/// What is to be written.
fn output_of(alloc: Global, case: &Case) -> Result<Vec<u8>, AllocError> {
    let mut output = Vec::new(alloc);
    for (kind, bytes) in [(16, &case.to_bus), (17, &case.to_client), (18, &case.end)] {
        if !bytes.is_empty() {
            add_record(&mut output, kind, bytes)?;
        }
    }
    Ok(output)
}

fn run_of<R: Threads + Sync>(
    rt: &R,
    alloc: Global,
    case: &Case,
    size: usize,
) -> Result<Ended, AllocError> {
    let recording = recording_of(alloc, case, size)?;
    replay(rt, alloc, &case.policy, &recording, 10_000)
}

fn assert_case<R: Abort + Threads + Sync>(
    rt: &R,
    alloc: Global,
    text: &str,
) -> Result<(), AllocError> {
    let case = case_of(alloc, text)?;
    let output = output_of(alloc, &case)?;
    for size in SIZES {
        let ended = run_of(rt, alloc, &case, size)?;
        assert_written(rt, text, &ended, &output);
        assert_logged(rt, text, &ended, &case.log);
    }
    Ok(())
}

fn assert_written(rt: &impl Abort, text: &str, ended: &Ended, output: &[u8]) {
    assert_eq!(rt; ended.code, 0, "{text}");
    assert_eq!(rt; ended.out.bytes.as_slice(), output, "{text}");
}

fn assert_logged(rt: &impl Abort, text: &str, ended: &Ended, log: &str) {
    assert_eq!(rt;
        str::from_utf8(&ended.err.bytes).unwrap_or("no text"),
        log,
        "{text}"
    );
}

/// Whether each case comes out as it says, in pieces of each size.
pub fn assert_cases<R: Abort + Threads + Sync>(rt: &R, alloc: Global, cases: &[&str]) {
    for case in cases {
        if assert_case(rt, alloc, case).is_err() {
            panic!(rt; "{case}: out of memory");
        }
    }
}
