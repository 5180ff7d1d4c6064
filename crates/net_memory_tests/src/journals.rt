//! What the net asks of its system. Each row has a script, calls of the net, and the calls of the system that follow,
//! with what they answered. A listener's socket is told by its place, as `l0`, and a link's by its link.
use crate::calls::told_call;
use crate::scripted::net_over;
use link_traits::{Link, Side};
use memory_sockets::{Note, Noted};
use proxy_net::STARTER;
use std::alloc::{AllocError, Global};
use std::io::ErrorKind;
use std::test::Fail;
use test_nets::name_of;
use test_tables::{text_of, wrong_row};

/// The number of the first listener's socket.
const LISTENERS: u64 = 0x2_0000_0000;

/// Each socket is asked for by its own number: it is bound, awaited, accepted, connected, watched, read, written and
/// closed.
const ASKED: &str = "\
arrival /p; listen /p, wait, accept 0, accept 0, connect 1 => bind l0 /p, look /p Socket, await l0, wait l0r, accept l0 c1, accept l0 c2 WouldBlock, connect b1 /bus
Bind 1 Other; listen /p => bind l0 /p Other
AwaitClients 1 Other; listen /p => bind l0 /p, look /p Socket, await l0 Other, look /p Socket, remove /p
none; listen /p, listen /q, remove => bind l0 /p, look /p Socket, await l0, bind l1 /q, look /q Socket, await l1, look /p Socket, remove /p, look /q Socket, remove /q
Write 1 WouldBlock, arrival /p, piece b1 yes; listen /p, wait, accept 0, accept 0, connect 1, write c1 no, \
    want b1 r, want c1 w, wait, read b1 2, read b1 9, read b1 9, wait, write c1 no, shut c1, shut b1 => bind l0 /p, \
    look /p Socket, await l0, wait l0r, accept l0 c1, accept l0 c2 WouldBlock, connect b1 /bus, write c1 WouldBlock, \
    watch c1 w, wait b1r, read b1 ye, read b1 s, read b1 WouldBlock, wait c1w, watch c1, write c1 no, close c1, \
    close b1
Connect 1 WouldBlock, arrival /p; listen /p, wait, accept 0, accept 0, connect 1, want b1 w, wait => bind l0 /p, \
    look /p Socket, await l0, wait l0r, accept l0 c1, accept l0 c2 WouldBlock, connect b1 /bus WouldBlock, wait, \
    connect b1 /bus
arrival /p, piece b1 x, +piece c1 y, Read 1 Interrupted; listen /p, wait, accept 0, accept 0, connect 1, want c1 r, \
    wait, read c1 1, shut b1, wait => bind l0 /p, look /p Socket, await l0, wait l0r, accept l0 c1, \
    accept l0 c2 WouldBlock, connect b1 /bus, wait b1r c1r, read c1 Interrupted, read c1 y, close b1
none; prepare 7, listen /p, listen /q, wait, wait => open 7, bind l0 /p, look /p Socket, await l0, bind l1 /q, look /q Socket, await l1, notify, wait TimedOut, wait TimedOut
starter; prepare 7, listen /p, wait, wait, remove => open 7, bind l0 /p, look /p Socket, await l0, notify, wait starter, look /p Socket, remove /p
NotifyStarter 1 BrokenPipe; prepare 7, listen /p, wait, wait => open 7, bind l0 /p, look /p Socket, await l0, notify BrokenPipe
OpenStarter 1 Other; prepare 7, prepare replace, listen /p => open 7 Other, look /p nothing, bind l0 /p, look /p Socket, await l0
file /p EmptyFile, file /q Other, file /r Socket; listen /p, prepare replace, listen /p, listen /q, listen /r, \
    listen /s => bind l0 /p AddrInUse, look /p EmptyFile, remove /p, bind l0 /p, look /p Socket, await l0, \
    look /q Other, bind l1 /q AddrInUse, look /r Socket, remove /r, bind l1 /r, look /r Socket, await l1, \
    look /s nothing, bind l2 /s, look /s Socket, await l2
";

/// What the calls of a row ask of the system.
fn told_asked(alloc: Global, row: &str) -> Result<String, AllocError> {
    let (script, calls) = row.split_once("; ").unwrap_or((row, ""));
    let mut net = net_over(alloc, script)?;
    for call in calls.split(", ") {
        let (kind, rest) = call.split_once(' ').unwrap_or((call, ""));
        told_call(alloc, &mut net, kind, rest)?;
    }
    match net.system().calls() {
        Some(calls) => told_notes(alloc, calls),
        None => String::from_str(alloc, "no journal"),
    }
}

/// The calls of a system. What the net answered is left out.
fn told_notes(alloc: Global, calls: &[Noted]) -> Result<String, AllocError> {
    let mut told = String::new(alloc);
    for call in calls {
        if matches!(call.note, Note::Answered(_)) {
            continue;
        }
        if !told.is_empty() {
            told.push_str(", ")?;
        }
        told.push_str(&told_note(alloc, call)?)?;
    }
    Ok(told)
}

fn told_note(alloc: Global, call: &Noted) -> Result<String, AllocError> {
    let bytes = text_of(alloc, &call.bytes)?;
    match call.note {
        Note::Bind(number, fault) => told_one(alloc, "bind", number, &bytes, fault),
        Note::AwaitClients(number, fault) => told_one(alloc, "await", number, "", fault),
        Note::Accept(listener, number, fault) => {
            let name = socket_name(alloc, number)?;
            told_one(alloc, "accept", listener, &name, fault)
        }
        Note::Connect(number, fault) => told_one(alloc, "connect", number, &bytes, fault),
        Note::Watch(number, writable, fault) => {
            let room = if writable { "w" } else { "" };
            told_one(alloc, "watch", number, room, fault)
        }
        Note::Read(number, fault) => told_one(alloc, "read", number, &bytes, fault),
        Note::Write(number, fault) => told_one(alloc, "write", number, &bytes, fault),
        Note::Close(number) => told_one(alloc, "close", number, "", None),
        Note::Wait(_, fault) => told_wait(alloc, call, fault),
        Note::Identify(Some(found)) => format!(in alloc; "look {bytes} {:?}", found.kind),
        Note::Identify(None) => format!(in alloc; "look {bytes} nothing"),
        Note::OpenStarter(descriptor, None) => format!(in alloc; "open {descriptor}"),
        Note::OpenStarter(descriptor, Some(fault)) => {
            format!(in alloc; "open {descriptor} {fault:?}")
        }
        Note::NotifyStarter(None) => String::from_str(alloc, "notify"),
        Note::NotifyStarter(Some(fault)) => format!(in alloc; "notify {fault:?}"),
        Note::Remove => format!(in alloc; "remove {bytes}"),
        Note::Answered(_) => Ok(String::new(alloc)),
    }
}

/// A call of a socket, with what it has besides.
fn told_one(
    alloc: Global,
    kind: &str,
    number: u64,
    more: &str,
    fault: Option<ErrorKind>,
) -> Result<String, AllocError> {
    let name = socket_name(alloc, number)?;
    let space = if more.is_empty() { "" } else { " " };
    match fault {
        Some(fault) => format!(in alloc; "{kind} {name}{space}{more} {fault:?}"),
        None => format!(in alloc; "{kind} {name}{space}{more}"),
    }
}

/// A wait, with the sockets that it reported, or its error.
fn told_wait(alloc: Global, call: &Noted, fault: Option<ErrorKind>) -> Result<String, AllocError> {
    if let Some(fault) = fault {
        return format!(in alloc; "wait {fault:?}");
    }
    let mut told = String::from_str(alloc, "wait")?;
    for report in &call.reports {
        told.push(' ')?;
        told.push_str(&socket_name(alloc, report.number)?)?;
        if report.readable {
            told.push('r')?;
        }
        if report.writable {
            told.push('w')?;
        }
    }
    Ok(told)
}

/// The name of the socket of a number.
fn socket_name(alloc: Global, number: u64) -> Result<String, AllocError> {
    if number == STARTER {
        return String::from_str(alloc, "starter");
    }
    if number >= LISTENERS {
        return format!(in alloc; "l{}", number - LISTENERS);
    }
    let side = if number % 2 == 0 {
        Side::Client
    } else {
        Side::Bus
    };
    let session = u32::try_from(number / 2).unwrap_or(0);
    name_of(alloc, Link { session, side })
}

#[test]
fn the_system_is_asked(rt: HostRuntime) -> Result<(), Fail> {
    assert_eq!(rt; wrong_row(rt.alloc(), ASKED, &told_asked)?, None);
    Ok(())
}
