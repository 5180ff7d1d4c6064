//! Nets over systems of sockets in memory that are made of texts.
ghost use Rattle.std.specs.Prelude.{◌≡◌, [], Some, IfOk};
ghost use Rattle.memory_sockets.specs.Notes.{told_in};

use link_traits::tables::number_of;
use memory_sockets::{CallKind, SocketScript, SocketsInMemory};
use proxy_net::{FileKind, MioNet};
use std::alloc::{AllocError, Global};
use std::io::ErrorKind;
use test_nets::link_of;
use test_tables::plain;

/// A net over the sockets of a system in memory.
pub type NetInMemory = MioNet<SocketsInMemory>;

/// A net over a system of a script that is written in words, as `system_of` reads them.
pub fn net_over(alloc: Global, words: &str) -> Result<NetInMemory, AllocError> {
    MioNet::over(alloc, system_of(alloc, words)?)
}

/// A system of a script that is written in words. What happens: `arrival /p`, `nobody /p`, `piece c1 bytes`, `end c1`,
/// `hangup c1`, `reset c1`, `room c1` and `spurious c1 rw`; a `+` in front has it happen in the wait of the word before
/// it. What goes otherwise: `trickle c1 2`, `pace c1 2`, `limit c1 9`, and a call with its place and its error as `Read
/// 2 WouldBlock`, or with its first and its last place as `Connect 1-9 WouldBlock`. A file that is there from the start
/// is written as `file /p EmptyFile`.
fn system_of(alloc: Global, words: &str) -> Result<SocketsInMemory, AllocError>
    ensures { IfOk result (λ system. told_in system.notes ≡ Some []) }
{
    let mut script = SocketScript::new(alloc);
    for word in words.split(", ") {
        let (kind, rest) = word.split_once(' ').unwrap_or((word, ""));
        match kind.strip_prefix('+') {
            Some(kind) => {
                add(alloc, &mut script, kind, rest)?;
                script.join();
            }
            None => add(alloc, &mut script, kind, rest)?,
        }
    }
    let mut system = SocketsInMemory::new(alloc, script);
    add_files(&mut system, words)?;
    Ok(system)
}

/// Adds the files of a script.
fn add_files(system: &mut SocketsInMemory, words: &str) -> Result<(), AllocError>
    ensures { system.new.notes ≡ system.old.notes }
{
    for word in words.split(", ") {
        if let Some(file) = word.strip_prefix("file ") {
            let (path, kind) = file.split_once(' ').unwrap_or((file, ""));
            system.add_file(path, kind_of(kind))?;
        }
    }
    Ok(())
}

fn kind_of(name: &str) -> FileKind {
    match name {
        "Socket" => FileKind::Socket,
        "EmptyFile" => FileKind::EmptyFile,
        _ => FileKind::Other,
    }
}

fn add(alloc: Global, script: &mut SocketScript, kind: &str, rest: &str) -> Result<(), AllocError> {
    let (name, more) = rest.split_once(' ').unwrap_or((rest, ""));
    let number = number_of(link_of(name));
    match kind {
        "arrival" => script.arrival(rest),
        "nobody" => script.nobody(rest),
        "piece" => script.piece(number, &plain(alloc, more)?),
        "end" => script.end(number),
        "hangup" => script.hang_up(number),
        "reset" => script.reset(number),
        "room" => script.room(number),
        "spurious" => script.spurious(number, more.contains('r'), more.contains('w')),
        "starter" => script.starter_gone(),
        "trickle" => script.trickle(number, more.parse().unwrap_or(0)),
        "pace" => script.pace(number, more.parse().unwrap_or(0)),
        "limit" => script.limit(number, more.parse().unwrap_or(0), ErrorKind::Other),
        _ => except(script, kind, name, more),
    }
}

fn except(
    script: &mut SocketScript,
    call: &str,
    places: &str,
    error: &str,
) -> Result<(), AllocError> {
    let (first, last) = places.split_once('-').unwrap_or((places, places));
    match call_of(call) {
        Some(call) => script.except_between(
            call,
            first.parse().unwrap_or(0),
            last.parse().unwrap_or(0),
            error_of(error),
        ),
        None => Ok(()),
    }
}

fn call_of(name: &str) -> Option<CallKind> {
    match name {
        "Bind" => Some(CallKind::Bind),
        "AwaitClients" => Some(CallKind::AwaitClients),
        "Accept" => Some(CallKind::Accept),
        "Connect" => Some(CallKind::Connect),
        "Watch" => Some(CallKind::Watch),
        "Read" => Some(CallKind::Read),
        "Write" => Some(CallKind::Write),
        "Wait" => Some(CallKind::Wait),
        "OpenStarter" => Some(CallKind::OpenStarter),
        "NotifyStarter" => Some(CallKind::NotifyStarter),
        _ => None,
    }
}

/// An error of a name. Any other name is an error without a kind of its own, such as that no descriptor is left.
fn error_of(name: &str) -> ErrorKind {
    match name {
        "WouldBlock" => ErrorKind::WouldBlock,
        "Interrupted" => ErrorKind::Interrupted,
        "ConnectionReset" => ErrorKind::ConnectionReset,
        "ConnectionRefused" => ErrorKind::ConnectionRefused,
        "BrokenPipe" => ErrorKind::BrokenPipe,
        _ => ErrorKind::Other,
    }
}
