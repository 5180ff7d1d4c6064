//! Runs of the program over files, nets and sinks in memory.
use memory_links::{MemFile, MemFiles, MemNet, MemSink};
use proxy_main::run;
use std::alloc::{AllocError, Global};
use std::thread::Threads;
use test_nets::net_of;

/// How a run ended.
pub struct Ended {
    pub code: u8,
    pub out: MemSink,
    pub err: MemSink,
}

// Its drop is a call, so that a function that drops one is short to prove.
impl Drop for Ended {
    fn drop(self) {
        let Ended {
            code: _code,
            out: _out,
            err: _err,
        } = self;
    }
}

/// A run of words, separated by spaces, over these files, with room for this many bytes of output and enough room for a
/// line.
pub fn run_over<R: Threads + Sync>(
    rt: &R,
    alloc: Global,
    words: &str,
    files: Vec<MemFile>,
    room: usize,
) -> Result<Ended, AllocError> {
    run_with_room(rt, alloc, words, files, room, 100)
}

/// A run of words over these files, with room for this many bytes of output, and of standard error.
pub fn run_with_room<R: Threads + Sync>(
    rt: &R,
    alloc: Global,
    words: &str,
    files: Vec<MemFile>,
    out_room: usize,
    err_room: usize,
) -> Result<Ended, AllocError> {
    let mut net = net_of(alloc, "")?;
    run_on_net(rt, alloc, words, files, &mut net, (out_room, err_room))
}

/// A run of words over these files and a net, with room for output and standard error.
pub fn run_on_net<R: Threads + Sync>(
    rt: &R,
    alloc: Global,
    words: &str,
    files: Vec<MemFile>,
    net: &mut MemNet,
    room: (usize, usize),
) -> Result<Ended, AllocError> {
    let mut files = MemFiles::new(files);
    run_files(rt, alloc, words, &mut files, net, room)
}

/// Such a run, over files that stay the caller's.
pub fn run_files<R: Threads + Sync>(
    rt: &R,
    alloc: Global,
    words: &str,
    files: &mut MemFiles,
    net: &mut MemNet,
    room: (usize, usize),
) -> Result<Ended, AllocError> {
    let words = split(alloc, words)?;
    let mut out = MemSink::new(alloc, room.0)?;
    let mut err = MemSink::new(alloc, room.1)?;
    let status = run(rt, alloc, &words, files, net, &mut out, &mut err);
    let code = status.code;
    Ok(Ended { code, out, err })
}

fn split(alloc: Global, row: &str) -> Result<Vec<String>, AllocError> {
    let mut words = Vec::new(alloc);
    if row.is_empty() {
        return Ok(words);
    }
    for word in row.split(' ') {
        words.push(String::from_str(alloc, word)?)?;
    }
    Ok(words)
}

/// A file of a path and bytes.
pub fn file(alloc: Global, path: &str, bytes: &[u8]) -> Result<MemFile, AllocError> {
    Ok(MemFile {
        path: String::from_str(alloc, path)?,
        bytes: Vec::from_slice(alloc, bytes)?,
        fails: false,
    })
}

/// A run of words over the files `policy` and `recording`, with room for this many bytes of output.
pub fn run_on<R: Threads + Sync>(
    rt: &R,
    alloc: Global,
    words: &str,
    policy: &[u8],
    recording: &[u8],
    room: usize,
) -> Result<Ended, AllocError> {
    let mut files = Vec::new(alloc);
    files.push(file(alloc, "policy", policy)?)?;
    files.push(file(alloc, "recording", recording)?)?;
    run_over(rt, alloc, words, files, room)
}

/// A replay of a recording under a policy, with room for this many bytes of output.
pub fn replay<R: Threads + Sync>(
    rt: &R,
    alloc: Global,
    policy: &[u8],
    recording: &[u8],
    room: usize,
) -> Result<Ended, AllocError> {
    run_on(
        rt,
        alloc,
        "replay policy recording",
        policy,
        recording,
        room,
    )
}
