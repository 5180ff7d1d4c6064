//! Servers over sockets in memory: they serve the sessions of `test_servers` as over a net in memory, and calls that
//! would wait, are interrupted or fail for a time change nothing of what is written.
use crate::scripted::{NetInMemory, net_over};
use link_traits::tables::number_of;
use memory_links::MemSink;
use std::alloc::{AllocError, Global};
use std::test::Fail;
use test_nets::link_of;
use test_servers::{ENDED, PLAYED, add_log, row_of, told_end};
use test_tables::{SESSION, spelled, text_of, wrong_named_row};

/// A session of which each call is tried that would wait, is interrupted, or fails for a time.
const WORDS: &str = "unix:path=/bus /p --filter --talk=org.a.T --sessions=1";

const SESSION_SCRIPT: &str = "\
arrival /p, piece c1 {auth}BEGIN%0D, piece c1 %0A{call}, piece b1 {ok}{return}";

/// Calls that change nothing of what is written, at whatever place they are, with a number greater than how often they
/// are made.
const HARMLESS: [(&str, &str, u32); 8] = [
    ("Read", "WouldBlock", 24),
    ("Read", "Interrupted", 24),
    ("Write", "WouldBlock", 12),
    ("Write", "Interrupted", 12),
    ("Accept", "WouldBlock", 4),
    ("Accept", "Other", 4),
    ("Connect", "WouldBlock", 3),
    ("Connect", "Interrupted", 3),
];

/// How the server of a row ends over the sockets of a system, what was written to each link that the row asks for, and
/// the log.
fn told_server(alloc: Global, row: &str) -> Result<String, AllocError> {
    let row = row_of(row);
    let mut net = net_over(alloc, &socket_words(alloc, row.words, row.script)?)?;
    let mut log = MemSink::new(alloc, row.room)?;
    let end = told_end(alloc, row.words, &mut net, &mut log)?;
    let mut told = String::from_str(alloc, net_end(row.script, &end))?;
    add_written(alloc, &mut told, &net, row.links)?;
    add_log(alloc, &mut told, &log)?;
    Ok(told)
}

/// How a server ends over a net in memory that ends so over sockets. A net whose script is over is quiet, and a
/// system's wait fails.
fn net_end<'a>(script: &str, end: &'a str) -> &'a str {
    if end == "Wait" && !script.contains("WaitFails") {
        "Stopped"
    } else {
        end
    }
}

/// Adds what was written to each link of a list, as a text.
fn add_written(
    alloc: Global,
    told: &mut String,
    net: &NetInMemory,
    links: &str,
) -> Result<(), AllocError> {
    for name in links.split(' ') {
        let written = net.system().written(number_of(link_of(name)));
        told.push_str(&format!(in alloc; ", {name} {}", text_of(alloc, written)?)?)?;
    }
    Ok(())
}

/// What is written to either link of the session over the sockets of a script. Names in braces are those of `SESSION`.
fn told_session(alloc: Global, script: &str) -> Result<String, AllocError> {
    let mut net = net_over(alloc, &spelled(alloc, SESSION, script)?)?;
    let mut log = MemSink::new(alloc, 999)?;
    told_end(alloc, WORDS, &mut net, &mut log)?;
    let mut told = String::new(alloc);
    add_written(alloc, &mut told, &net, "c1 b1")?;
    Ok(told)
}

/// What is written with words in front of the session's script, if that is something else than without them.
fn wrong_words(alloc: Global, words: &str) -> Result<Option<String>, AllocError> {
    let whole = told_session(alloc, SESSION_SCRIPT)?;
    let told = told_session(alloc, &format!(in alloc; "{words}, {SESSION_SCRIPT}")?)?;
    if told.as_str() == whole.as_str() {
        return Ok(None);
    }
    Ok(Some(format!(in alloc; "{words}: {told}")?))
}

/// The first call at any place that would wait, is interrupted or fails for a time, and changes what is written.
fn wrong_place(alloc: Global) -> Result<Option<String>, AllocError> {
    for (call, error, most) in HARMLESS {
        for place in 1..=most {
            let words = format!(in alloc; "{call} {place} {error}")?;
            if let Some(wrong) = wrong_words(alloc, &words)? {
                return Ok(Some(wrong));
            }
        }
    }
    Ok(None)
}

/// The first number of bytes in a read and a write that changes what is written.
fn wrong_part(alloc: Global) -> Result<Option<String>, AllocError> {
    for most in [1, 2, 3, 7, 64] {
        let words = format!(in alloc;
            "trickle c1 {most}, trickle b1 {most}, pace c1 {most}, pace b1 {most}"
        )?;
        if let Some(wrong) = wrong_words(alloc, &words)? {
            return Ok(Some(wrong));
        }
    }
    Ok(None)
}

/// The script of a net in the words for its system: a client arrives at the path of its listener, and a call that isn't
/// ready would wait. A system refuses no memory, so a call that is refused memory fails.
fn socket_words(alloc: Global, words: &str, script: &str) -> Result<String, AllocError> {
    let mut told = String::new(alloc);
    for word in script.split(", ") {
        let (kind, rest) = word.split_once(' ').unwrap_or((word, ""));
        if !told.is_empty() {
            told.push_str(", ")?;
        }
        match exception_of(kind) {
            Some((call, error)) => told.push_str(&format!(in alloc; "{call} {rest} {error}")?)?,
            None if kind == "arrival" => {
                told.push_str("arrival ")?;
                told.push_str(path_of(words, rest.parse().unwrap_or(0)))?;
            }
            None => told.push_str(word)?,
        }
    }
    Ok(told)
}

/// The call and the error of an exception of a net.
fn exception_of(kind: &str) -> Option<(&'static str, &'static str)> {
    match kind {
        "ListenFails" | "ListenRefused" => Some(("Bind", "Other")),
        "WaitFails" => Some(("Wait", "Other")),
        "AcceptFails" | "AcceptRefused" => Some(("Accept", "Other")),
        "AcceptNotReady" => Some(("Accept", "WouldBlock")),
        "ConnectFails" | "ConnectRefused" => Some(("Connect", "Other")),
        "ReadFails" => Some(("Read", "Other")),
        "ReadNotReady" => Some(("Read", "WouldBlock")),
        "WriteFails" => Some(("Write", "Other")),
        "WriteNotReady" => Some(("Write", "WouldBlock")),
        _ => None,
    }
}

/// The path of a listener: the word after the address of its block.
fn path_of(words: &str, listener: usize) -> &str {
    let mut is_next = false;
    let mut place = 0_usize;
    for word in words.split(' ') {
        if is_next {
            if place == listener {
                return word;
            }
            place = place.saturating_add(1);
        }
        is_next = word.starts_with("unix:path=");
    }
    ""
}

#[test]
fn sessions_are_served_the_same(rt: HostRuntime) -> Result<(), Fail> {
    assert_eq!(rt;
        wrong_named_row(rt.alloc(), SESSION, PLAYED, &told_server)?,
        None
    );
    Ok(())
}

#[test]
fn sessions_end_the_same(rt: HostRuntime) -> Result<(), Fail> {
    assert_eq!(rt;
        wrong_named_row(rt.alloc(), SESSION, ENDED, &told_server)?,
        None
    );
    Ok(())
}

#[test]
fn the_session_is_written(rt: HostRuntime) -> Result<(), Fail> {
    let told = told_session(rt.alloc(), SESSION_SCRIPT)?;
    assert!(rt; told.as_str().split_once("c1 OK 0011").is_some());
    assert!(rt; told.as_str().split_once("org.a.T").is_some());
    assert!(rt; wrong_words(rt.alloc(), "Read 2 Other")?.is_some());
    assert!(rt; wrong_words(rt.alloc(), "Write 1 Other")?.is_some());
    assert!(rt; wrong_words(rt.alloc(), "Connect 1 Other")?.is_some());
    Ok(())
}

#[test]
fn no_place_changes_what_is_written(rt: HostRuntime) -> Result<(), Fail> {
    assert_eq!(rt; wrong_place(rt.alloc())?, None);
    assert_eq!(rt; wrong_part(rt.alloc())?, None);
    Ok(())
}
