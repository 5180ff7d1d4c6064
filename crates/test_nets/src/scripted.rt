//! Nets in memory that are made of texts.
ghost use Rattle.std.specs.Prelude.{◌≡◌, ◌++◌, IfOk, decimal, string_bytes};
ghost use Rattle.memory_links.specs.MemNets.{IsNew, mem_view};
ghost use Rattle.test_nets.specs.Names.{letter_of};

use link_traits::{Link, Side};
use memory_links::{Exception, MemNet, Script};
use std::alloc::{AllocError, Global};
use test_tables::{plain, text_of};

/// A net by a script that is written in words: `arrival 0`, `piece c1 bytes`, `end c1`, `pace b1 2`, `limit b1 9`, an
/// exception with its place as `ReadFails 2`, and `room 9 8` for the room of entries and of bytes, which is ample
/// otherwise. In a piece `~` is a zero, and `%` is followed by the two hexadecimal digits of a byte.
pub fn net_of(alloc: Global, words: &str) -> Result<MemNet, AllocError>
    ensures { IfOk result (λ net. IsNew (mem_view net)) }
{
    let mut script = Script::new(alloc);
    let mut room = (999, 9999);
    for word in words.split(", ") {
        let (kind, rest) = word.split_once(' ').unwrap_or((word, ""));
        if kind == "room" {
            let (entries, bytes) = rest.split_once(' ').unwrap_or((rest, ""));
            room = (entries.parse().unwrap_or(0), bytes.parse().unwrap_or(0));
        } else {
            add(alloc, &mut script, kind, rest)?;
        }
    }
    MemNet::new(alloc, script, room.0, room.1)
}

fn add(alloc: Global, script: &mut Script, kind: &str, rest: &str) -> Result<(), AllocError> {
    let (name, more) = rest.split_once(' ').unwrap_or((rest, ""));
    match kind {
        "arrival" => script.arrival(rest.parse().unwrap_or(0)),
        "piece" => script.piece(link_of(name), &plain(alloc, more)?),
        "end" => script.end(link_of(name)),
        "pace" => script.pace(link_of(name), more.parse().unwrap_or(0)),
        "limit" => script.limit(link_of(name), more.parse().unwrap_or(0)),
        _ => match exception_of(kind, rest.parse().unwrap_or(0)) {
            Some(exception) => script.except(exception),
            None => Ok(()),
        },
    }
}

fn exception_of(kind: &str, place: u64) -> Option<Exception> {
    match kind {
        "PrepareFails" => Some(Exception::PrepareFails(place)),
        "PrepareRefused" => Some(Exception::PrepareRefused(place)),
        "ListenFails" => Some(Exception::ListenFails(place)),
        "ListenRefused" => Some(Exception::ListenRefused(place)),
        "WaitFails" => Some(Exception::WaitFails(place)),
        "AcceptFails" => Some(Exception::AcceptFails(place)),
        "AcceptRefused" => Some(Exception::AcceptRefused(place)),
        "AcceptNotReady" => Some(Exception::AcceptNotReady(place)),
        "ConnectFails" => Some(Exception::ConnectFails(place)),
        "ConnectRefused" => Some(Exception::ConnectRefused(place)),
        "ReadFails" => Some(Exception::ReadFails(place)),
        "ReadNotReady" => Some(Exception::ReadNotReady(place)),
        "WriteFails" => Some(Exception::WriteFails(place)),
        "WriteNotReady" => Some(Exception::WriteNotReady(place)),
        _ => None,
    }
}

/// The link of a name: `c1` is the client's link of session 1, and `b1` its bus's.
pub fn link_of(name: &str) -> Link {
    match name.strip_prefix('c') {
        Some(session) => Link {
            session: session.parse().unwrap_or(0),
            side: Side::Client,
        },
        None => Link {
            session: name.strip_prefix('b').unwrap_or("").parse().unwrap_or(0),
            side: Side::Bus,
        },
    }
}

/// The name of a link.
pub fn name_of(alloc: Global, link: Link) -> Result<String, AllocError>
    ensures { IfOk result (λ name. string_bytes name ≡ letter_of link.side ++ decimal link.session) }
{
    match link.side {
        Side::Client => format!(in alloc; "c{}", link.session),
        Side::Bus => format!(in alloc; "b{}", link.session),
    }
}

/// Adds what was written to each link of a list, as a text.
pub fn add_written(
    alloc: Global,
    told: &mut String,
    net: &MemNet,
    links: &str,
) -> Result<(), AllocError> {
    for name in links.split(' ') {
        let written = net.written(alloc, link_of(name))?;
        told.push_str(", ")?;
        told.push_str(name)?;
        told.push(' ')?;
        told.push_str(&text_of(alloc, &written)?)?;
    }
    Ok(())
}
