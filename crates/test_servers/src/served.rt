//! What a server does with the clients of a net, told in words.
use link_traits::{Net, Sink};
use memory_links::MemSink;
use policy_args::{LineRefusal, ProxyLine, read_line};
use proxy_loop::{Server, ServerEnd, Turn};
use std::alloc::{AllocError, Global};
use test_tables::text_of;

/// The most turns that a server takes here.
const MOST_TURNS: u32 = 99_999;

/// How many bytes the log has room for, if its row doesn't say it.
const LOG_ROOM: usize = 999;

/// What is given in a row: `words; script; links`, or `room | words; script; links`.
#[derive(Drop)]
pub struct Row<'a> {
    /// How many bytes the log has room for.
    pub room: usize,
    /// The words of a proxy line.
    pub words: &'a str,
    /// The script of a net.
    pub script: &'a str,
    /// The links of which it is told what was written to them.
    pub links: &'a str,
}

/// The parts of a row.
pub fn row_of(row: &str) -> Row<'_> {
    let (words, rest) = row.split_once("; ").unwrap_or((row, ""));
    let (script, links) = rest.split_once("; ").unwrap_or((rest, ""));
    let (room, words) = match words.split_once(" | ") {
        Some((room, words)) => (room.parse().unwrap_or(0), words),
        None => (LOG_ROOM, words),
    };
    Row {
        room,
        words,
        script,
        links,
    }
}

/// The proxy line of words. Bad words give the error of refused memory, so that the test fails.
pub fn line_of(alloc: Global, text: &str) -> Result<ProxyLine, AllocError> {
    let mut words = Vec::new(alloc);
    for word in text.split(' ') {
        words.push(String::from_str(alloc, word)?)?;
    }
    match read_line(alloc, &words) {
        Ok(line) => Ok(line),
        Err(LineRefusal::Bad(_) | LineRefusal::Memory) => Err(AllocError),
    }
}

/// Listens, and takes turns until one is the last.
pub fn serve<N: Net, S: Sink>(
    server: &mut Server,
    net: &mut N,
    log: &mut S,
) -> Result<Turn, ServerEnd> {
    server.listen(net)?;
    for _ in 0..MOST_TURNS {
        if let Turn::Stopped = server.turn(net, log)? {
            return Ok(Turn::Stopped);
        }
    }
    Ok(Turn::Went)
}

/// How a server of the words of a line ends over a net.
pub fn told_end<N: Net, S: Sink>(
    alloc: Global,
    words: &str,
    net: &mut N,
    log: &mut S,
) -> Result<String, AllocError> {
    let mut server = Server::new(alloc, line_of(alloc, words)?)?;
    match serve(&mut server, net, log) {
        Ok(turn) => format!(in alloc; "{turn:?}"),
        Err(end) => format!(in alloc; "{end:?}"),
    }
}

/// Adds the log, unless it is empty.
pub fn add_log(alloc: Global, told: &mut String, log: &MemSink) -> Result<(), AllocError> {
    if !log.bytes.is_empty() {
        told.push_str(", log ")?;
        told.push_str(&text_of(alloc, &log.bytes)?)?;
    }
    Ok(())
}
