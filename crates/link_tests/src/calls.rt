//! Calls of a net that are written in words, and what they answer.
use link_traits::{Got, Net, Ready, Setting};
use memory_links::MemNet;
use std::alloc::{AllocError, Global};
use test_nets::{link_of, name_of};
use test_tables::text_of;

/// What each call of a list answers, one after the other.
pub fn told_calls(alloc: Global, net: &mut MemNet, calls: &str) -> Result<String, AllocError> {
    let mut told = String::new(alloc);
    for call in calls.split(", ") {
        let (kind, rest) = call.split_once(' ').unwrap_or((call, ""));
        let answer = match kind {
            "written" => text_of(alloc, &net.written(alloc, link_of(rest))?)?,
            "setting" => format!(in alloc; "{:?}", net.setting())?,
            _ => told_call(alloc, net, kind, rest)?,
        };
        if !told.is_empty() && !answer.is_empty() {
            told.push_str(", ")?;
        }
        told.push_str(&answer)?;
    }
    Ok(told)
}

/// What a call answers, made through the bound alone. A `want` and a `shut` answer nothing.
fn told_call<N: Net>(
    alloc: Global,
    net: &mut N,
    kind: &str,
    rest: &str,
) -> Result<String, AllocError> {
    let (name, more) = rest.split_once(' ').unwrap_or((rest, ""));
    match kind {
        "open" => told_open(alloc, net),
        "prepare" => format!(in alloc; "{:?}", net.prepare(setting_of(name, more))),
        "listen" => format!(in alloc; "{:?}", net.listen("/p")),
        "wait" => told_ready(alloc, net.wait()),
        "accept" => format!(in alloc; "{:?}", net.accept(rest.parse().unwrap_or(0))),
        "connect" => format!(in alloc; "{:?}", net.connect(rest.parse().unwrap_or(0), "/bus")),
        "read" => told_read(alloc, net, name, more.parse().unwrap_or(0)),
        "write" => format!(in alloc; "{:?}", net.write(link_of(name), more.as_bytes())),
        "want" => {
            net.want(link_of(name), more.contains('r'), more.contains('w'));
            Ok(String::new(alloc))
        }
        "shut" => {
            net.shut(link_of(name));
            Ok(String::new(alloc))
        }
        _ => String::from_str(alloc, "no call"),
    }
}

/// The setting of two words: whether it replaces, and its starter's descriptor if that is a number.
fn setting_of(replaces: &str, starter: &str) -> Setting {
    Setting {
        replaces: replaces == "true",
        starter: starter.parse().ok(),
    }
}

/// Listens, takes the client that arrives first, connects it, and wishes to read both links.
fn told_open<N: Net>(alloc: Global, net: &mut N) -> Result<String, AllocError> {
    let _ = net.listen("/p");
    let _ = net.wait();
    let accepted = net.accept(0);
    let _ = net.connect(1, "/bus");
    net.want(link_of("c1"), true, false);
    net.want(link_of("b1"), true, false);
    format!(in alloc; "{accepted:?}")
}

fn told_ready(alloc: Global, ready: Ready) -> Result<String, AllocError> {
    match ready {
        Ready::Link(link) => name_of(alloc, link),
        _ => format!(in alloc; "{ready:?}"),
    }
}

/// What a read into a buffer of this length, at most nine bytes, gives.
fn told_read<N: Net>(
    alloc: Global,
    net: &mut N,
    name: &str,
    most: usize,
) -> Result<String, AllocError> {
    let mut buffer = [0u8; 9];
    let room = most.min(9);
    match net.read(link_of(name), &mut buffer[..room]) {
        Got::Bytes(n) => format!(in alloc; "Bytes {}", text_of(alloc, &buffer[..n])?),
        got => format!(in alloc; "{got:?}"),
    }
}
