//! What a replay writes of a recording of many sessions.
ghost use Rattle.std.specs.Prelude.{IfOk};
ghost use Rattle.recording.specs.SessionsSeen.{IsReadable, sessions_seen};

use crate::replays::{REPLAYS, told_output};
use crate::texts::options_of;
use memory_links::MemSink;
use policy_args::{Options, read_options};
use recording::{RecordingRefusal, Sessions, read_any};
use replay::replay_sessions;
use std::alloc::{AllocError, Global};
use std::test::Fail;
use test_tables::{plain, text_of, wrong_row};

/// The words of a policy, separated by commas, or a dash for none, the room of the output, and the bytes of a
/// recording; and the result, what is written, and the number of failed writes.
///
/// Sessions are in any order, and their events are interleaved. Events after a session's end, or after a failed call of
/// one of its links, have no effect. A malformed stream only ends its own session.
const PLAYED: &str = "\
- 64 DBPR%02~~%03~~~%03~~~%FF%FF%FF%02%03~~~~~~~ => Ok(()) [%10%03~~~%03~~~%FF%FF%FF%12%03~~~%01~~~%03] 0
- 64 DBPR%02~ => Ok(()) [] 0
- 200 DBPR%02~~%07~~~%01~~~a~%02~~~%01~~~b~%07~~~%01~~~c%01~%01~~%01~~~d%02%02~~~~~~~~%02~~~%01~~~x%01%07~~~%01~~~y\
    %03%07~~~~~~~%03%07~~~~~~~~%01~~~~~~~%01~%01~~%01~~~z => Ok(()) \
    [%10%02~~~%01~~~b%12%02~~~%01~~~%03%10%07~~~%02~~~ac%11%07~~~%01~~~y%12%07~~~%01~~~%04%11~%01~~%02~~~dz] 0
- 400 DBPR%02~~%05~~~%01~~~a~%04~~~%01~~~a~%03~~~%01~~~a~%02~~~%01~~~a~%01~~~%01~~~a%04%01~~~%01~~~%0B%04%02~~~%01~~~\
    %0A%04%03~~~%01~~~%09%04%04~~~%01~~~%08%04%05~~~%01~~~%07~%01~~~%01~~~b~%02~~~%01~~~b~%03~~~%01~~~b~%04~~~%01~~~b\
    ~%05~~~%01~~~b%02%03~~~~~~~%04%04~~~%01~~~%07 => Ok(()) \
    [%10%01~~~%01~~~a%12%01~~~%01~~~%0B%10%02~~~%01~~~a%12%02~~~%01~~~%0A%10%03~~~%01~~~a%12%03~~~%01~~~%09%10%04~~~\
    %01~~~a%12%04~~~%01~~~%08%10%05~~~%01~~~a%12%05~~~%01~~~%07] 0
- 64 DBPR%02~%02%09~~~~~~~%04%09~~~%01~~~%07 => Ok(()) [%12%09~~~%01~~~%03] 0
--filter 200 DBPR%02~~%FF%FF%FF%FF%02~~~l%01%01%06~~~%10~~~xxxxxxxxxxxxxxxx%03%FF%FF%FF%FF~~~~ => Ok(()) [%12%06~~~%0B~~~%02%01%01~~~~~~~~%12%FF%FF%FF%FF%01~~~%04] 0
- 0 DBPR%02~%02%09~~~~~~~ => Err(Out) [] 1
- 20 DBPR%02~~%03~~~%03~~~abc%02%02~~~~~~~ => Err(Out) [%12%02~~~%01~~~%03%10%03~~~%03~~~a] 1
";

/// Rows like those of `PLAYED`, with the room of the log and with its text. Two sessions call a hidden name, and a ping
/// is sent in place of each call. The lines of the log are in the order of the calls.
const LOGGED: &str = "\
--filter,--log 1000 DBPR%02~~%02~~~@~~~l%01~%01~~~~%04%03%02%01,~~~%01%01o~%01~~~/~~~~~~~%03%01s~%01~~~M~~~~~~~%06%01\
    s~%03~~~a.b~~~~~~%01~~~@~~~l%01~%01~~~~%04%03%02%01,~~~%01%01o~%01~~~/~~~~~~~%03%01s~%01~~~M~~~~~~~%06%01s~%03~~~\
    a.b~~~~~~%02~~~@~~~l%01~%01~~~~%05%03%02%01,~~~%01%01o~%01~~~/~~~~~~~%03%01s~%01~~~M~~~~~~~%06%01s~%03~~~a.b~~~~\
    ~ => Ok(()) [%10%01~~~x~~~l%01~%01~~~~%01~~~e~~~%01%01o~%01~~~/~~~~~~~%02%01s~%19~~~org.freedesktop.DBus.Peer~~~~\
    ~~~%03%01s~%04~~~Ping~~~~%06%01s~%14~~~org.freedesktop.DBus~~~~%10%02~~~%F0~~~l%01~%01~~~~%01~~~e~~~%01%01o~%01~~\
    ~/~~~~~~~%02%01s~%19~~~org.freedesktop.DBus.Peer~~~~~~~%03%01s~%04~~~Ping~~~~%06%01s~%14~~~org.freedesktop.DBus~~\
    ~~l%01~%01~~~~%02~~~e~~~%01%01o~%01~~~/~~~~~~~%02%01s~%19~~~org.freedesktop.DBus.Peer~~~~~~~%03%01s~%04~~~Ping~~~\
    ~%06%01s~%14~~~org.freedesktop.DBus~~~~] [2 c 1 call serial=16909060 \
    reply=- from=- dest=a.b path=/ iface=- member=M ping NotVisible \
    0 ServiceUnknown%0A1 c 1 call serial=16909060 reply=- from=- dest=a.b \
    path=/ iface=- member=M ping NotVisible 0 ServiceUnknown%0A2 c \
    2 call serial=16909061 reply=- from=- dest=a.b path=/ iface=- member=M ping NotVisible 0 ServiceUnknown%0A] 0
--filter 1000 DBPR%02~~%02~~~@~~~l%01~%01~~~~%04%03%02%01,~~~%01%01o~%01~~~/~~~~~~~%03%01s~%01~~~M~~~~~~~%06%01s~%03~\
    ~~a.b~~~~~~%01~~~@~~~l%01~%01~~~~%04%03%02%01,~~~%01%01o~%01~~~/~~~~~~~%03%01s~%01~~~M~~~~~~~%06%01s~%03~~~a.b~~~\
    ~~~%02~~~@~~~l%01~%01~~~~%05%03%02%01,~~~%01%01o~%01~~~/~~~~~~~%03%01s~%01~~~M~~~~~~~%06%01s~%03~~~a.b~~~~~ => \
    Ok(()) [%10%01~~~x~~~l%01~%01~~~~%01~~~e~~~%01%01o~%01~~~/~~~~~~~%02%01s~%19~~~org.freedesktop.DBus.Peer~~~~~~~\
    %03%01s~%04~~~Ping~~~~%06%01s~%14~~~org.freedesktop.DBus~~~~%10%02~~~%F0~~~l%01~%01~~~~%01~~~e~~~%01%01o~%01~~~/~\
    ~~~~~~%02%01s~%19~~~org.freedesktop.DBus.Peer~~~~~~~%03%01s~%04~~~Ping~~~~%06%01s~%14~~~org.freedesktop.DBus~~~~l\
    %01~%01~~~~%02~~~e~~~%01%01o~%01~~~/~~~~~~~%02%01s~%19~~~org.freedesktop.DBus.Peer~~~~~~~%03%01s~%04~~~Ping~~~~\
    %06%01s~%14~~~org.freedesktop.DBus~~~~] [] 0
--filter,--log 10 DBPR%02~~%02~~~@~~~l%01~%01~~~~%04%03%02%01,~~~%01%01o~%01~~~/~~~~~~~%03%01s~%01~~~M~~~~~~~%06%01s~\
    %03~~~a.b~~~~~~%01~~~@~~~l%01~%01~~~~%04%03%02%01,~~~%01%01o~%01~~~/~~~~~~~%03%01s~%01~~~M~~~~~~~%06%01s~%03~~~a.\
    b~~~~~~%02~~~@~~~l%01~%01~~~~%05%03%02%01,~~~%01%01o~%01~~~/~~~~~~~%03%01s~%01~~~M~~~~~~~%06%01s~%03~~~a.b~~~~~ \
    => Err(Err) [] [2 c 1 call] 1
";

/// What the words of a policy file ask for; a dash means no words.
fn policy_of(alloc: Global, words: &str) -> Result<Options, AllocError> {
    if words != "-" {
        return options_of(alloc, words);
    }
    match read_options(alloc, &Vec::new(alloc)) {
        Ok(options) => Ok(options),
        Err(_) => Err(AllocError),
    }
}

/// The recording of a file of either version. Any other file is reported as refused memory.
fn sessions_of(alloc: Global, file: &str) -> Result<Sessions, AllocError>
    ensures { IfOk result (λ s. IsReadable (sessions_seen s)) }
{
    match read_any(alloc, &plain(alloc, file)?) {
        Ok(sessions) => Ok(sessions),
        Err(RecordingRefusal::Bad(_) | RecordingRefusal::Memory) => Err(AllocError),
    }
}

fn told_played(alloc: Global, row: &str) -> Result<String, AllocError> {
    let (words, row) = row.split_once(' ').unwrap_or((row, ""));
    let (room, file) = row.split_once(' ').unwrap_or((row, ""));
    let options = policy_of(alloc, words)?;
    told_in_room(alloc, &options, room.parse().unwrap_or(0), file)
}

fn told_in_room(
    alloc: Global,
    options: &Options,
    room: usize,
    file: &str,
) -> Result<String, AllocError> {
    let mut out = MemSink::new(alloc, room)?;
    let mut err = MemSink::new(alloc, 1_000)?;
    let sessions = sessions_of(alloc, file)?;
    let answer = replay_sessions(alloc, options, &sessions, &mut out, &mut err);
    let written = text_of(alloc, &out.bytes)?;
    format!(in alloc; "{answer:?} [{written}] {}", out.faults)
}

fn told_logged(alloc: Global, row: &str) -> Result<String, AllocError> {
    let (words, row) = row.split_once(' ').unwrap_or((row, ""));
    let (room, file) = row.split_once(' ').unwrap_or((row, ""));
    let options = options_of(alloc, words)?;
    told_with_log(alloc, &options, room.parse().unwrap_or(0), file)
}

fn told_with_log(
    alloc: Global,
    options: &Options,
    room: usize,
    file: &str,
) -> Result<String, AllocError> {
    let mut out = MemSink::new(alloc, 1_000)?;
    let mut err = MemSink::new(alloc, room)?;
    let sessions = sessions_of(alloc, file)?;
    let answer = replay_sessions(alloc, options, &sessions, &mut out, &mut err);
    let (written, logged) = (text_of(alloc, &out.bytes)?, text_of(alloc, &err.bytes)?);
    format!(in alloc; "{answer:?} [{written}] [{logged}] {}", err.faults)
}

/// The result for a recording of version 1, read as one of many sessions.
fn told_one_session(alloc: Global, row: &str) -> Result<String, AllocError> {
    let (words, row) = row.split_once(' ').unwrap_or((row, ""));
    let (room, file) = row.split_once(' ').unwrap_or((row, ""));
    let options = options_of(alloc, words)?;
    told_as_one(alloc, &options, room.parse().unwrap_or(0), file)
}

fn told_as_one(
    alloc: Global,
    options: &Options,
    room: usize,
    file: &str,
) -> Result<String, AllocError> {
    let mut out = MemSink::new(alloc, room)?;
    let mut err = MemSink::new(alloc, 1_000)?;
    let sessions = sessions_of(alloc, file)?;
    let answer = replay_sessions(alloc, options, &sessions, &mut out, &mut err);
    told_output(alloc, answer, &out, &err)
}

#[test]
fn writes_what_each_session_gives(rt: HostRuntime) -> Result<(), Fail> {
    assert_eq!(rt; wrong_row(rt.alloc(), PLAYED, &told_played)?, None);
    Ok(())
}

#[test]
fn logs_the_sessions_in_the_order_of_their_events(rt: HostRuntime) -> Result<(), Fail> {
    assert_eq!(rt; wrong_row(rt.alloc(), LOGGED, &told_logged)?, None);
    Ok(())
}

#[test]
fn writes_one_session_of_version_1_as_ever(rt: HostRuntime) -> Result<(), Fail> {
    assert_eq!(rt; wrong_row(rt.alloc(), REPLAYS, &told_one_session)?, None);
    Ok(())
}
