//! Sessions that are fed messages, and the bytes that wait for either side.
ghost use Rattle.std.specs.Prelude.{◌≤◌};

use crate::name_lists::CALL as CALL_OF_NAMES;
use crate::notes::told_note;
use crate::texts::options_of;
use policy_args::{Options, Policy};
use policy_view::{End, Mode};
use proxy_core::Session;
use std::alloc::{AllocError, Global};
use std::test::Fail;
use test_tables::wrong_row;

/// The words of a policy, separated by commas, and the steps, one after the other; and for each step its result, with
/// `-` for none, and the numbers of bytes that wait for the bus and for the client, or the byte that was asked for; and
/// why the session ended.
const SESSIONS: &str = "\
--filter,--talk=org.a.T; client call; bus_byte 8; took_bus 80; bus return; bus return; client_byte 20; took_client 56 => - 80 0; 1; - 0 0; - 0 56; - 0 56; 7; - 0 0; None
--filter; client call; bus return => - 120 0; - 120 140; None
--filter; client_ended; bus_ended; client call => ClientEnd 0 0; ClientEnd 0 0; ClientEnd 0 0; Some(ClientEnd)
--filter; bus_ended; client_ended => BusEnd 0 0; BusEnd 0 0; Some(BusEnd)
--filter,--talk=org.a.T; client call; stopped_by_log; client call; stopped_by_memory; bus_ended; took_bus 80 => \
    - 80 0; LogFault 80 0; LogFault 80 0; LogFault 80 0; LogFault 80 0; - 0 0; Some(LogFault)
--filter; stopped_by_memory; client call => Memory 0 0; Memory 0 0; Some(Memory)
--filter; client_ended; stopped_by_log => ClientEnd 0 0; ClientEnd 0 0; Some(ClientEnd)
--filter; client return => - 0 0; None
--filter,--talk=org.a.T; bytes call; bytes call; bytes call; client ones cut=15 => - 80 0; - 160 0; - 240 0; - 240 0; None
--filter,--talk=org.a.T; bytes call; client ones cut=15; client ones cut=1 => - 80 0; - 80 0; \
    ClientMalformed(Message(Malformed { kind: ByteOrder, at: 0 })) 80 0; \
    Some(ClientMalformed(Message(Malformed { kind: ByteOrder, at: 0 })))
--filter,--talk=org.a.T; client call; note; bus return; note => - 80 0; none; - 80 56; none; None
--filter; client call 2=1; client call 2=2; bus return; client call 1=9 2=2 => - 0 0; - 120 0; - 120 142; - 120 142; None
--filter,--talk=org.a.T; client long fill=70000; bus_byte 8; took_bus 12; bus_byte 70079; \
    bus long_return fill=70000; client_byte 20; took_client 24; client_byte 70043; client call => - 70092 0; 1; \
    - 70080 0; 120; - 70080 70068; 7; - 70080 70044; 120; - 70160 70044; None
--log; client ones; bus_byte 15; bus call; client_byte 8; client_byte 78; client ones cut=0; bytes ones; \
    bus ones cut=3; client_ended; client ones => - 16 0; 255; - 16 80; 7; 84; - 16 80; - 32 80; - 32 83; \
    ClientEnd 32 83; ClientEnd 32 83; Some(ClientEnd)
--log; bus ones; took_client 10; client call; bus return; client_byte 6; bus_ended; note => - 0 16; - 0 6; - 80 6; - 80 62; 108; BusEnd 80 62; none; Some(BusEnd)
";

/// Filtered messages without lines.
pub const FILTERED: Mode = Mode {
    auth: false,
    filter: true,
    notes: false,
};

/// A mode, filtered only if the options ask for that.
pub fn asked(options: &Options, mode: Mode) -> Mode {
    Mode {
        auth: mode.auth,
        filter: options.filter,
        notes: mode.notes,
    }
}

/// A call to org.a.T, with serial 7.
const CALL: &[u8] =
    b"l\x01\x00\x01\x00\x00\x00\x00\x07\x00\x00\x00@\x00\x00\x00\x01\x01o\x00\x02\x00\x00\x00/p\x00\x00\x00\x00\x00\
        \x00\x02\x01s\x00\x07\x00\x00\x00org.a.I\x00\x03\x01s\x00\x01\x00\x00\x00A\x00\x00\x00\x00\x00\x00\x00\x06\
        \x01s\x00\x07\x00\x00\x00org.a.T\x00";

/// A return to :1.40 with serial 60, the answer to serial 1.
const RETURN: &[u8] =
    b"l\x02\x01\x01\x00\x00\x00\x00<\x00\x00\x00%\x00\x00\x00\x05\x01u\x00\x01\x00\x00\x00\x06\x01s\x00\x05\x00\x00\x00:1.40\x00\x00\x00\x07\x01s\x00\x04\x00\x00\x00:1.7\x00\x00\x00\x00";

/// The same call with the beginning of an array of 70,000 bytes.
const LONG: &[u8] = b"l\x01\0\x01\x74\x11\x01\0\x07\0\0\0\x48\0\0\0\
\x01\x01o\0\x02\0\0\0/p\0\0\0\0\0\0\
\x02\x01s\0\x07\0\0\0org.a.I\0\
\x03\x01s\0\x01\0\0\0A\0\0\0\0\0\0\0\
\x06\x01s\0\x07\0\0\0org.a.T\0\
\x08\x01g\0\x02ay\0\
\x70\x11\x01\0";

/// The same return with the beginning of an array of 70,000 bytes.
const LONG_RETURN: &[u8] = b"l\x02\x01\x01\x74\x11\x01\0\x3c\0\0\0\x30\0\0\0\
\x05\x01u\0\x01\0\0\0\
\x06\x01s\0\x05\0\0\0:1.40\0\0\0\
\x07\x01s\0\x04\0\0\0:1.7\0\0\0\0\
\x08\x01g\0\x02ay\0\
\x70\x11\x01\0";

/// A Hello, with serial 1.
const HELLO: &[u8] = b"l\x01\0\x01\0\0\0\0\x01\0\0\0\x6d\0\0\0\
\x01\x01o\0\x15\0\0\0/org/freedesktop/DBus\0\0\0\
\x02\x01s\0\x14\0\0\0org.freedesktop.DBus\0\0\0\0\
\x03\x01s\0\x05\0\0\0Hello\0\0\0\
\x06\x01s\0\x14\0\0\0org.freedesktop.DBus\0\0\0\0";

/// The bus's return of the names org.a.A and org.a.B, with serial 30, the answer to serial 1.
const NAMES: &[u8] = b"l\x02\x01\x01\x1c\0\0\0\x1e\0\0\0\x40\0\0\0\
\x05\x01u\0\x01\0\0\0\
\x06\x01s\0\x05\0\0\0:1.40\0\0\0\
\x07\x01s\0\x14\0\0\0org.freedesktop.DBus\0\0\0\0\
\x08\x01g\0\x02as\0\
\x18\0\0\0\x07\0\0\0org.a.A\0\x07\0\0\0org.a.B\0";

/// The bus's return of :1.7 as the owner that the proxy asked for, with serial 31, the answer to serial 3.
const OWNER: &[u8] = b"l\x02\x01\x01\x09\0\0\0\x1f\0\0\0\x3f\0\0\0\
\x05\x01u\0\x03\0\0\0\
\x06\x01s\0\x05\0\0\0:1.40\0\0\0\
\x07\x01s\0\x14\0\0\0org.freedesktop.DBus\0\0\0\0\
\x08\x01g\0\x01s\0\0\
\x04\0\0\0:1.7\0";

/// The client's first lines, the bus's answer, and the client's last line.
const AUTH: &[u8] = b"\0AUTH EXTERNAL 30\r\n";

const OK: &[u8] = b"OK 0123456789abcdef0123456789abcdef\r\n";

const BEGIN: &[u8] = b"BEGIN\r\n";

/// Bytes with which no message begins.
const ONES: &[u8] = &[0xff; 16];

/// A message with the changes that follow its name: `PLACE=BYTE` puts a byte at a place, `cut=LENGTH` leaves this
/// number of bytes, and `fill=COUNT` appends this number of `x`.
pub fn message(alloc: Global, row: &str) -> Result<Vec<u8>, AllocError> {
    let (name, changes) = row.split_once(' ').unwrap_or((row, ""));
    let mut bytes = Vec::from_slice(alloc, bytes_of(name))?;
    for change in changes.split(' ') {
        match change.split_once('=') {
            Some(("cut", len)) => bytes.truncate(len.parse().unwrap_or(0)),
            Some(("fill", count)) => {
                let count: usize = count.parse().unwrap_or(0);
                bytes.resize(bytes.len().saturating_add(count), b'x')?;
            }
            Some((place, byte)) => put(&mut bytes, place, byte),
            None => (),
        }
    }
    Ok(bytes)
}

pub fn bytes_of(name: &str) -> &'static [u8] {
    match name {
        "auth" => AUTH,
        "ok" => OK,
        "begin" => BEGIN,
        "call" => CALL,
        "return" => RETURN,
        "long" => LONG,
        "long_return" => LONG_RETURN,
        "hello" => HELLO,
        "list" => CALL_OF_NAMES,
        "names" => NAMES,
        "owner" => OWNER,
        "ones" => ONES,
        _ => b"",
    }
}

fn put(bytes: &mut [u8], place: &str, byte: &str) {
    if let Some(old) = bytes.get_mut(place.parse().unwrap_or(usize::MAX)) {
        *old = byte.parse().unwrap_or(0);
    }
}

fn told_session(alloc: Global, row: &str) -> Result<String, AllocError> {
    let (words, steps) = row.split_once("; ").unwrap_or((row, ""));
    let options = options_of(alloc, words)?;
    told_under(alloc, &options, steps)
}

fn told_under(alloc: Global, options: &Options, steps: &str) -> Result<String, AllocError> {
    let mut session = Session::new(alloc, &options.policy, asked(options, FILTERED))?;
    told_steps(alloc, &mut session, &options.policy, steps)
}

/// The result of each step, and why the session ended.
pub fn told_steps(
    alloc: Global,
    session: &mut Session,
    policy: &Policy,
    steps: &str,
) -> Result<String, AllocError> {
    let mut told = String::new(alloc);
    for step in steps.split("; ") {
        told.push_str(&told_step(alloc, session, policy, step)?)?;
    }
    told.push_str(&told_end(alloc, session.ended())?)?;
    Ok(told)
}

fn told_end(alloc: Global, end: Option<End>) -> Result<String, AllocError> {
    format!(in alloc; "{end:?}")
}

fn told_step(
    alloc: Global,
    session: &mut Session,
    policy: &Policy,
    step: &str,
) -> Result<String, AllocError> {
    let (what, text) = step.split_once(' ').unwrap_or((step, ""));
    match what {
        "bus_byte" => told_byte(alloc, session.to_bus(), text),
        "client_byte" => told_byte(alloc, session.to_client(), text),
        "note" => told_note(alloc, session.next_note()),
        _ => {
            let bytes = message(alloc, text)?;
            let end = end_of(session, policy, what, &bytes, text);
            told_answer(alloc, session, end)
        }
    }
}

fn told_byte(alloc: Global, bytes: &[u8], place: &str) -> Result<String, AllocError> {
    let place = place.parse().unwrap_or(usize::MAX);
    format!(in alloc; "{}; ", bytes.get(place).copied().unwrap_or(0))
}

/// The result of a step.
fn end_of(
    session: &mut Session,
    policy: &Policy,
    what: &str,
    bytes: &[u8],
    count: &str,
) -> Option<End> {
    match what {
        "client" => session.feed_client(policy, bytes).err(),
        "bus" => session.feed_bus(policy, bytes).err(),
        "bytes" => feed_each(session, policy, bytes).err(),
        "client_ended" => Some(session.client_ended()),
        "bus_ended" => Some(session.bus_ended()),
        "stopped_by_log" => Some(session.stop(End::LogFault)),
        "stopped_by_memory" => Some(session.stop(End::Memory)),
        "took_bus" => {
            let count = session.bus_waits().min(count.parse().unwrap_or(0));
            session.took_bus(count as usize);
            None
        }
        "took_client" => {
            let count = session.client_waits().min(count.parse().unwrap_or(0));
            session.took_client(count as usize);
            None
        }
        _ => Some(End::Memory),
    }
}

fn feed_each(session: &mut Session, policy: &Policy, bytes: &[u8]) -> Result<(), End> {
    for byte in bytes {
        session.feed_client(policy, &[*byte])?;
    }
    Ok(())
}

fn told_answer(alloc: Global, session: &Session, end: Option<End>) -> Result<String, AllocError> {
    let (bus, client) = (session.bus_waits(), session.client_waits());
    match end {
        None => format!(in alloc; "- {bus} {client}; "),
        Some(end) => format!(in alloc; "{end:?} {bus} {client}; "),
    }
}

#[test]
fn sessions_have_what_waits_for_either_side(rt: HostRuntime) -> Result<(), Fail> {
    assert_eq!(rt; wrong_row(rt.alloc(), SESSIONS, &told_session)?, None);
    Ok(())
}
