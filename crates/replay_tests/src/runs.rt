//! Runs of the program over files and sinks in memory.
use memory_links::{MemFile, MemFiles, MemSink};
use proxy_main::run;
use std::alloc::{AllocError, Global};
use std::thread::Threads;
use test_nets::net_of;

/// What a run ended with.
pub struct Ended {
    pub code: u8,
    pub out: MemSink,
    pub err: MemSink,
}

// Its drop is a call, so that a function that drops one is short to prove.
impl Drop for Ended {
    fn drop(self) {
        let Ended {
            code: _code,
            out: _out,
            err: _err,
        } = self;
    }
}

/// A file of a path and bytes.
fn file(alloc: Global, path: &str, bytes: &[u8]) -> Result<MemFile, AllocError> {
    Ok(MemFile {
        path: String::from_str(alloc, path)?,
        bytes: Vec::from_slice(alloc, bytes)?,
        fails: false,
    })
}

/// A replay of a recording under a policy, with room for this many bytes of output.
pub fn replay<R: Threads + Sync>(
    rt: &R,
    alloc: Global,
    policy: &[u8],
    recording: &[u8],
    room: usize,
) -> Result<Ended, AllocError> {
    let mut files = Vec::new(alloc);
    files.push(file(alloc, "policy", policy)?)?;
    files.push(file(alloc, "recording", recording)?)?;
    run_over(rt, alloc, &["replay", "policy", "recording"], files, room)
}

/// A comparison of two recordings under a policy.
pub fn twin<R: Threads + Sync>(
    rt: &R,
    alloc: Global,
    policy: &[u8],
    one: &[u8],
    other: &[u8],
) -> Result<Ended, AllocError> {
    let mut files = Vec::new(alloc);
    files.push(file(alloc, "policy", policy)?)?;
    files.push(file(alloc, "one", one)?)?;
    files.push(file(alloc, "other", other)?)?;
    run_over(
        rt,
        alloc,
        &["twin", "policy", "one", "other"],
        files,
        10_000,
    )
}

/// What a policy denies of recordings.
pub fn audit<R: Threads + Sync>(
    rt: &R,
    alloc: Global,
    policy: &[u8],
    recordings: &[Vec<u8>],
) -> Result<Ended, AllocError> {
    let mut files = Vec::new(alloc);
    files.push(file(alloc, "policy", policy)?)?;
    let mut words = Vec::new(alloc);
    words.push("audit")?;
    words.push("policy")?;
    add_recordings(alloc, recordings, &mut words, &mut files)?;
    run_over(rt, alloc, &words, files, 10_000)
}

/// The policy that is suggested for recordings.
pub fn suggest<R: Threads + Sync>(
    rt: &R,
    alloc: Global,
    recordings: &[Vec<u8>],
) -> Result<Ended, AllocError> {
    let mut files = Vec::new(alloc);
    let mut words = Vec::new(alloc);
    words.push("suggest")?;
    add_recordings(alloc, recordings, &mut words, &mut files)?;
    run_over(rt, alloc, &words, files, 10_000)
}

/// Whether one policy is within another.
pub fn within<R: Threads + Sync>(
    rt: &R,
    alloc: Global,
    one: &[u8],
    other: &[u8],
) -> Result<Ended, AllocError> {
    let mut files = Vec::new(alloc);
    files.push(file(alloc, "one", one)?)?;
    files.push(file(alloc, "other", other)?)?;
    run_over(rt, alloc, &["within", "one", "other"], files, 10_000)
}

/// The names of recordings.
const NAMES: [&str; 4] = ["1", "2", "3", "4"];

/// Adds recordings, up to four, which are named by their numbers from 1.
fn add_recordings(
    alloc: Global,
    recordings: &[Vec<u8>],
    words: &mut Vec<&'static str>,
    files: &mut Vec<MemFile>,
) -> Result<(), AllocError> {
    for (name, recording) in NAMES.iter().zip(recordings) {
        words.push(*name)?;
        files.push(file(alloc, name, recording)?)?;
    }
    Ok(())
}

/// A run of a tool over files, with room for this many bytes of output.
fn run_over<R: Threads + Sync>(
    rt: &R,
    alloc: Global,
    words: &[&str],
    files: Vec<MemFile>,
    room: usize,
) -> Result<Ended, AllocError> {
    let words = strings(alloc, words)?;
    let mut files = MemFiles::new(files);
    let mut out = MemSink::new(alloc, room)?;
    let mut err = MemSink::new(alloc, 10_000)?;
    let mut net = net_of(alloc, "")?;
    let status = run(rt, alloc, &words, &mut files, &mut net, &mut out, &mut err);
    let code = status.code;
    Ok(Ended { code, out, err })
}

fn strings(alloc: Global, words: &[&str]) -> Result<Vec<String>, AllocError> {
    let mut strings = Vec::new(alloc);
    for word in words {
        strings.push(String::from_str(alloc, word)?)?;
    }
    Ok(strings)
}
