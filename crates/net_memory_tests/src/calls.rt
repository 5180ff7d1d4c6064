//! Calls of a net over sockets in memory, written in words, and what they answer.
use crate::scripted::{NetInMemory, net_over};
use link_traits::tables::number_of;
use link_traits::{Count, Got, Net, Ready, Setting};
use std::alloc::{AllocError, Global};
use test_nets::{link_of, name_of};
use test_tables::text_of;

/// What each call of a row answers, one after the other. The calls follow the script.
pub fn told_calls(alloc: Global, row: &str) -> Result<String, AllocError> {
    let (script, calls) = row.split_once("; ").unwrap_or((row, ""));
    let mut net = net_over(alloc, script)?;
    let mut told = String::new(alloc);
    for call in calls.split(", ") {
        let (kind, rest) = call.split_once(' ').unwrap_or((call, ""));
        let answer = told_call(alloc, &mut net, kind, rest)?;
        if !told.is_empty() && !answer.is_empty() {
            told.push_str(", ")?;
        }
        told.push_str(&answer)?;
    }
    Ok(told)
}

/// What a call answers. A `want` and a `shut` answer nothing.
pub fn told_call(
    alloc: Global,
    net: &mut NetInMemory,
    kind: &str,
    rest: &str,
) -> Result<String, AllocError> {
    let (name, more) = rest.split_once(' ').unwrap_or((rest, ""));
    match kind {
        "open" => told_open(alloc, net),
        "prepare" => format!(in alloc; "{:?}", net.prepare(setting_of(rest))),
        "listen" => format!(in alloc; "{:?}", net.listen(rest)),
        "wait" => told_ready(alloc, net.wait()),
        "accept" => format!(in alloc; "{:?}", net.accept(rest.parse().unwrap_or(0))),
        "connect" => format!(in alloc; "{:?}", net.connect(rest.parse().unwrap_or(0), "/bus")),
        "read" => told_read(alloc, net, name, more.parse().unwrap_or(0)),
        "write" => format!(in alloc; "{:?}", net.write(link_of(name), more.as_bytes())),
        "want" => {
            net.want(link_of(name), more.contains('r'), more.contains('w'));
            Ok(String::new(alloc))
        }
        "shut" => {
            net.shut(link_of(name));
            Ok(String::new(alloc))
        }
        _ => told_after(alloc, net, kind, rest),
    }
}

/// A setting: `replace` alone, or the starter's descriptor.
fn setting_of(word: &str) -> Setting {
    Setting {
        replaces: word == "replace",
        starter: word.parse().ok(),
    }
}

/// What the net and its system hold after the calls.
fn told_after(
    alloc: Global,
    net: &mut NetInMemory,
    kind: &str,
    rest: &str,
) -> Result<String, AllocError> {
    match kind {
        "written" => told_written(alloc, net, rest),
        "milliseconds" => format!(in alloc; "{}", net.system().elapsed().as_millis()),
        "waits" => format!(in alloc; "{}", net.count(Count::Waits)),
        "faults" => format!(in alloc; "{}", net.count(Count::Link(link_of(rest)))),
        "remove" => {
            net.remove_sockets();
            Ok(String::new(alloc))
        }
        _ => String::from_str(alloc, "no call"),
    }
}

/// What was written to the sockets of a link, in brackets.
fn told_written(alloc: Global, net: &NetInMemory, name: &str) -> Result<String, AllocError> {
    let written = net.system().written(number_of(link_of(name)));
    format!(in alloc; "[{}]", text_of(alloc, written)?)
}

/// Listens, takes the client that arrives first, as long as one waits, and connects it.
fn told_open(alloc: Global, net: &mut NetInMemory) -> Result<String, AllocError> {
    let _ = net.listen("/p");
    let _ = net.wait();
    let accepted = net.accept(0);
    let _ = net.accept(0);
    let connected = net.connect(1, "/bus");
    format!(in alloc; "{accepted:?} {connected:?}")
}

fn told_ready(alloc: Global, ready: Ready) -> Result<String, AllocError> {
    match ready {
        Ready::Link(link) => name_of(alloc, link),
        _ => format!(in alloc; "{ready:?}"),
    }
}

/// What a read into a buffer of this length, at most nine bytes, gives.
fn told_read(
    alloc: Global,
    net: &mut NetInMemory,
    name: &str,
    most: usize,
) -> Result<String, AllocError> {
    let mut buffer = [0u8; 9];
    let room = most.min(9);
    match net.read(link_of(name), &mut buffer[..room]) {
        Got::Bytes(n) => format!(in alloc; "Bytes {}", text_of(alloc, &buffer[..n])?),
        got => format!(in alloc; "{got:?}"),
    }
}
