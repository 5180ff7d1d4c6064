//! Calls of a net that are written in words, and what they answer.
use link_traits::{Net, Setting};
use std::alloc::{AllocError, Global};
use test_nets::link_of;

/// What each call of a list answers, one after the other.
pub fn told_calls<N: Net>(alloc: Global, net: &mut N, calls: &str) -> Result<String, AllocError> {
    let mut told = String::new(alloc);
    for call in calls.split(", ") {
        if !told.is_empty() {
            told.push_str(", ")?;
        }
        let (kind, rest) = call.split_once(' ').unwrap_or((call, ""));
        told.push_str(&told_call(alloc, net, kind, rest)?)?;
    }
    Ok(told)
}

fn told_call<N: Net>(
    alloc: Global,
    net: &mut N,
    kind: &str,
    rest: &str,
) -> Result<String, AllocError> {
    let (name, more) = rest.split_once(' ').unwrap_or((rest, ""));
    match kind {
        "prepare" => {
            let setting = Setting {
                replaces: true,
                starter: rest.parse().ok(),
            };
            format!(in alloc; "{:?}", net.prepare(setting))
        }
        "listen" => format!(in alloc; "{:?}", net.listen("/p")),
        "wait" => format!(in alloc; "{:?}", net.wait()),
        "accept" => format!(in alloc; "{:?}", net.accept(rest.parse().unwrap_or(0))),
        "connect" => format!(in alloc; "{:?}", net.connect(rest.parse().unwrap_or(0), "/bus")),
        "read" => told_read(alloc, net, name, more.parse().unwrap_or(0)),
        "write" => format!(in alloc; "{:?}", net.write(link_of(name), more.as_bytes())),
        "want" => {
            net.want(link_of(name), true, true);
            String::from_str(alloc, "wanted")
        }
        _ => {
            net.shut(link_of(name));
            String::from_str(alloc, "shut")
        }
    }
}

/// What a read into a buffer of this many bytes, nine at most, answers.
fn told_read<N: Net>(
    alloc: Global,
    net: &mut N,
    name: &str,
    most: usize,
) -> Result<String, AllocError> {
    let mut buffer = [0u8; 9];
    let room = most.min(9);
    format!(in alloc; "{:?}", net.read(link_of(name), &mut buffer[..room]))
}
