//! What a replay writes of a recording.
use crate::notes::told_parts;
use crate::texts::options_of;
use memory_links::MemSink;
use policy_args::Options;
use recording::{RecordingRefusal, read};
use replay::{ReplayFault, notes, replay};
use std::alloc::{AllocError, Global};
use std::test::Fail;
use test_tables::{plain, text_of, wrong_row};

/// The words of a policy, separated by commas, the room of the output, and the bytes of a recording; and the result,
/// what is written, the number of failed writes, and the number of bytes of the log.
///
/// In three rows the client calls `a.b`: the call and its answer get new serials, or a ping is sent in place of a call
/// to a hidden name, without a log and with one.
pub const REPLAYS: &str = "\
--filter 64 DBPR%01~ => Ok(()) [] 0 0
--filter 64 DBPR%01~%02~~~~ => Ok(()) [%12%01~~~%03] 0 0
--filter 6 DBPR%01~%03~~~~%02~~~~ => Ok(()) [%12%01~~~%04] 0 0
--filter 64 DBPR%01%01~%01~~~~ => Ok(()) [%10%01~~~~] 0 0
--filter 0 DBPR%01~%02~~~~ => Err(Out) [] 1 0
--filter 3 DBPR%01~%02~~~~ => Err(Out) [%12%01~] 1 0
--filter,--talk=a.b 256 DBPR%01~~@~~~l%01~%01~~~~%04%03%02%01,~~~%01%01o~%01~~~/~~~~~~~%03%01s~%01~~~M~~~~~~~%06%01s~\
    %03~~~a.b~~~~~%01(~~~l%02%01%01~~~~%09~~~%18~~~%07%01s~%04~~~:1.7~~~~%05%01u~%01~~~ => \
    Ok(()) [%10@~~~l%01~%01~~~~%01~~~,~~~%01%01o~%01~~~/~~~~~~~%03%01s~%01~~~M~~~~~~~%06%01s~%03~~~a.b~~~~~%11(~~~l\
    %02%01%01~~~~%09~~~%18~~~%07%01s~%04~~~:1.7~~~~%05%01u~%04%03%02%01] 0 0
--filter 256 DBPR%01~~@~~~l%01~%01~~~~%04%03%02%01,~~~%01%01o~%01~~~/~~~~~~~%03%01s~%01~~~M~~~~~~~%06%01s~%03~~~a.b~~\
    ~~~ => Ok(()) [%10x~~~l%01~%01~~~~%01~~~e~~~%01%01o~%01~~~/~~~~~~~%02%01s~%19~~~org.freedesktop.DBus.Peer~~~~~~~\
    %03%01s~%04~~~Ping~~~~%06%01s~%14~~~org.freedesktop.DBus~~~~] 0 0
--filter,--log 256 DBPR%01~~@~~~l%01~%01~~~~%04%03%02%01,~~~%01%01o~%01~~~/~~~~~~~%03%01s~%01~~~M~~~~~~~%06%01s~%03~~\
    ~a.b~~~~~ => Ok(()) [%10x~~~l%01~%01~~~~%01~~~e~~~%01%01o~%01~~~/~~~~~~~%02%01s~%19~~~org.freedesktop.DBus.Peer~~\
    ~~~~~%03%01s~%04~~~Ping~~~~%06%01s~%14~~~org.freedesktop.DBus~~~~] 0 108
--filter,--log 0 DBPR%01~%02~~~~ => Err(Out) [] 1 0
";

/// The words of a policy and the bytes of a recording, and its notes. In each row except the last, the client calls
/// `a.b` and the bus answers.
const LISTED: &str = "\
--filter,--talk=a.b DBPR%01~~@~~~l%01~%01~~~~%04%03%02%01,~~~%01%01o~%01~~~/~~~~~~~%03%01s~%01~~~M~~~~~~~%06%01s~%03~\
    ~~a.b~~~~~%01(~~~l%02%01%01~~~~%09~~~%18~~~%07%01s~%04~~~:1.7~~~~%05%01u~%01~~~ => \
    1 Client 1 16909060 64 Judged(Pass); 2 Bus 2 9 40 Shown(Reply(16909060)); \n\
--talk=a.b DBPR%01~~@~~~l%01~%01~~~~%04%03%02%01,~~~%01%01o~%01~~~/~~~~~~~%03%01s~%01~~~M~~~~~~~%06%01s~%03~~~a.b~~~~~ => \n\
--filter DBPR%01~%02~~~~ => \n";

fn told_notes(alloc: Global, row: &str) -> Result<String, AllocError> {
    let (policy, file) = row.split_once(' ').unwrap_or((row, ""));
    told_notes_under(alloc, &options_of(alloc, policy)?, &plain(alloc, file)?)
}

fn told_notes_under(alloc: Global, options: &Options, file: &[u8]) -> Result<String, AllocError> {
    let mut told = String::new(alloc);
    if let Ok(recording) = read(alloc, file) {
        for note in notes(alloc, options, &recording)?.as_slice() {
            told.push_str(&told_parts(alloc, note)?)?;
        }
    }
    Ok(told)
}

fn told_replay(alloc: Global, row: &str) -> Result<String, AllocError> {
    let (policy, row) = row.split_once(' ').unwrap_or((row, ""));
    let (room, file) = row.split_once(' ').unwrap_or((row, ""));
    let options = options_of(alloc, policy)?;
    told_in_room(alloc, &options, room.parse().unwrap_or(0), file)
}

fn told_in_room(
    alloc: Global,
    options: &Options,
    room: usize,
    file: &str,
) -> Result<String, AllocError> {
    let mut out = MemSink::new(alloc, room)?;
    told_file(alloc, options, &mut out, file)
}

fn told_file(
    alloc: Global,
    options: &Options,
    out: &mut MemSink,
    file: &str,
) -> Result<String, AllocError> {
    let file = plain(alloc, file)?;
    match read(alloc, &file) {
        Ok(recording) => {
            let mut err = MemSink::new(alloc, 1_000)?;
            let answer = replay(alloc, options, &recording, out, &mut err);
            told_output(alloc, answer, out, &err)
        }
        Err(RecordingRefusal::Bad(_)) => String::from_str(alloc, "no recording"),
        Err(RecordingRefusal::Memory) => Err(AllocError),
    }
}

pub fn told_output(
    alloc: Global,
    answer: Result<(), ReplayFault>,
    out: &MemSink,
    err: &MemSink,
) -> Result<String, AllocError> {
    let written = text_of(alloc, &out.bytes)?;
    format!(in alloc; "{answer:?} [{written}] {} {}", out.faults, err.bytes.len())
}

#[test]
fn tells_what_was_decided_on_each_message(rt: HostRuntime) -> Result<(), Fail> {
    assert_eq!(rt; wrong_row(rt.alloc(), LISTED, &told_notes)?, None);
    Ok(())
}

#[test]
fn writes_what_the_session_gives(rt: HostRuntime) -> Result<(), Fail> {
    assert_eq!(rt; wrong_row(rt.alloc(), REPLAYS, &told_replay)?, None);
    Ok(())
}
