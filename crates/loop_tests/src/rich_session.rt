//! A session with messages of many kinds, as the server of a proxy line has it: what is received on its links, what is
//! written to them, and its log.
use memory_links::MemSink;
use proxy_loop::{Server, ServerEnd, Turn};
use std::alloc::{AllocError, Global};
use std::str;
use test_nets::{link_of, net_of};
use test_servers::{line_of, serve};
use test_tables::plain;

/// What is received on the links, in order: on the client's (`c`) and on the bus's (`b`). Under `--filter
/// --talk=org.a.T`.
pub const PIECES: &[(&str, &str)] = &[
    ("c", "~AUTH EXTERNAL%0D%0ABEGIN%0D"),
    ("b", "OK 00112233445566778899aabbccddeeff%0D%0A"),
    // The client's Hello.
    (
        "c",
        "%0Al%01~%01~~~~%01~~~m~~~%01%01o~%15~~~/org/freedesktop/DBus~~~%02%01s~%14~~~org.freedesktop.DBus~~~~%03%01s~%05~~~Hello~~~%06%01s~%14~~~org.freedesktop.DBus~~~~",
    ),
    (
        "b",
        "l%02%01%01%0A~~~%01~~~?~~~%05%01u~%01~~~%06%01s~%05~~~:1.40~~~%07%01s~%14~~~org.freedesktop.DBus~~~~%08%01g~%01s~~%05~~~:1.40~",
    ),
    // The answers to the proxy's own calls.
    (
        "b",
        "l%02%01%01~~~~%02~~~5~~~%05%01u~%02~~~%06%01s~%05~~~:1.40~~~%07%01s~%14~~~org.freedesktop.DBus~~~~l%02%01%01\
            %09~~~%03~~~?~~~%05%01u~%03~~~%06%01s~%05~~~:1.40~~~%07%01s~%14~~~org.freedesktop.DBus~~~~%08%01g~%01s~~\
            %04~~~:1.7~",
    ),
    // A call, in two pieces, and a call to a name that the client doesn't see.
    ("c", "l%01~%01%0D~~~%02~~~G~~~%01%01o~%02~~~/p~~~~"),
    (
        "c",
        "~~%02%01s~%07~~~org.a.I~%03%01s~%01~~~A~~~~~~~%06%01s~%07~~~org.a.T~%08%01g~%01s~~%08~~~question~l%01~%01~~~\
            ~%03~~~@~~~%01%01o~%02~~~/x~~~~~~%02%01s~%07~~~org.h.I~%03%01s~%01~~~M~~~~~~~%06%01s~%07~~~org.h.X~",
    ),
    (
        "c",
        "l%01~%01~~~~%04~~~u~~~%01%01o~%15~~~/org/freedesktop/DBus~~~%02%01s~%14~~~org.freedesktop.DBus~~~~%03%01s~%09~~~ListNames~~~~~~~%06%01s~%14~~~org.freedesktop.DBus~~~~",
    ),
    (
        "b",
        "l%02%01%01%0B~~~%14~~~/~~~%05%01u~%04~~~%06%01s~%05~~~:1.40~~~%07%01s~%04~~~:1.7~~~~%08%01g~%01s~~%06~~~answer~",
    ),
    // The answer to the ping that was sent in place of the refused call.
    (
        "b",
        "l%02%01%01~~~~%15~~~5~~~%05%01u~%05~~~%06%01s~%05~~~:1.40~~~%07%01s~%14~~~org.freedesktop.DBus~~~~",
    ),
    // A signal that is hidden, and one that is shown.
    (
        "b",
        "l%04%01%01~~~~%16~~~>~~~%01%01o~%02~~~/p~~~~~~%02%01s~%07~~~org.a.I~%03%01s~%01~~~H~~~~~~~%07%01s~%05~~~:1.6\
            0~~~l%04%01%01%0A~~~%17~~~G~~~%01%01o~%02~~~/p~~~~~~%02%01s~%07~~~org.a.I~%03%01s~%01~~~S~~~~~~~%07%01s~\
            %04~~~:1.7~~~~%08%01g~%01s~~%05~~~shown~",
    ),
    // The list of names.
    (
        "b",
        "l%02%01%01Z~~~%18~~~@~~~%05%01u~%06~~~%06%01s~%05~~~:1.40~~~%07%01s~%14~~~org.freedesktop.DBus~~~~%08%01g~\
            %02as~V~~~%14~~~org.freedesktop.DBus~~~~%05~~~:1.40~~~%07~~~org.h.X~%07~~~org.a.T~%04~~~:1.7~~~~%05~~~:1.\
            60~",
    ),
    (
        "c",
        "l%04%01%01~~~~%05~~~@~~~%01%01o~%02~~~/p~~~~~~%02%01s~%07~~~org.a.I~%03%01s~%01~~~S~~~~~~~%06%01s~%07~~~org.a.T~",
    ),
    (
        "b",
        "l%04%01%01~~~~%19~~~=~~~%01%01o~%02~~~/p~~~~~~%02%01s~%07~~~org.a.I~%03%01s~%01~~~T~~~~~~~%07%01s~%04~~~:1.7~~~~",
    ),
];

/// What the bus is sent: the lines of authentication, Hello and the proxy's own AddMatch and GetNameOwner, the call, a
/// ping in place of the refused call, ListNames and the signal.
const TO_BUS: &[&str] = &[
    "~AUTH EXTERNAL%0D%0ABEGIN%0D%0A",
    "l%01~%01~~~~%01~~~m~~~%01%01o~%15~~~/org/freedesktop/DBus~~~%02%01s~%14~~~org.freedesktop.DBus~~~~%03%01s~%05~~~Hello~~~%06%01s~%14~~~org.freedesktop.DBus~~~~",
    "l%01~%01z~~~%02~~~%7F~~~%01%01o~%15~~~/org/freedesktop/DBus~~~%02%01s~%14~~~org.freedesktop.DBus~~~~%03%01s~%08~\
        ~~AddMatch~~~~~~~~%06%01s~%14~~~org.freedesktop.DBus~~~~%08%01g~%01s~~u~~~type='signal',sender='org.freedeskt\
        op.DBus',interface='org.freedesktop.DBus',member='NameOwnerChanged',arg0='org.a.T'~",
    "l%01~%01%0C~~~%03~~~%7F~~~%01%01o~%15~~~/org/freedesktop/DBus~~~%02%01s~%14~~~org.freedesktop.DBus~~~~%03%01s~\
        %0C~~~GetNameOwner~~~~%06%01s~%14~~~org.freedesktop.DBus~~~~%08%01g~%01s~~%07~~~org.a.T~",
    "l%01~%01%0D~~~%04~~~G~~~%01%01o~%02~~~/p~~~~~~%02%01s~%07~~~org.a.I~%03%01s~%01~~~A~~~~~~~%06%01s~%07~~~org.a.T~%08%01g~%01s~~%08~~~question~",
    "l%01~%01~~~~%05~~~e~~~%01%01o~%01~~~/~~~~~~~%02%01s~%19~~~org.freedesktop.DBus.Peer~~~~~~~%03%01s~%04~~~Ping~~~~%06%01s~%14~~~org.freedesktop.DBus~~~~",
    "l%01~%01~~~~%06~~~u~~~%01%01o~%15~~~/org/freedesktop/DBus~~~%02%01s~%14~~~org.freedesktop.DBus~~~~%03%01s~%09~~~ListNames~~~~~~~%06%01s~%14~~~org.freedesktop.DBus~~~~",
    "l%04%01%01~~~~%07~~~@~~~%01%01o~%02~~~/p~~~~~~%02%01s~%07~~~org.a.I~%03%01s~%01~~~S~~~~~~~%06%01s~%07~~~org.a.T~",
];

/// What the client is shown: the bus's line, the answers to Hello and to the call, an error in place of the answer to
/// the ping, a signal, the list without the names that the client doesn't see, and another signal.
const TO_CLIENT: &[&str] = &[
    "OK 00112233445566778899aabbccddeeff%0D%0A",
    "l%02%01%01%0A~~~%01~~~?~~~%05%01u~%01~~~%06%01s~%05~~~:1.40~~~%07%01s~%14~~~org.freedesktop.DBus~~~~%08%01g~%01s~~%05~~~:1.40~",
    "l%02%01%01%0B~~~%14~~~/~~~%05%01u~%02~~~%06%01s~%05~~~:1.40~~~%07%01s~%04~~~:1.7~~~~%08%01g~%01s~~%06~~~answer~",
    "l%03%01%01%14~~~%15~~~g~~~%04%01s~)~~~org.freedesktop.DBus.Error.ServiceUnknown~~~~~~~%05%01u~%03~~~%07%01s~%14~~~org.freedesktop.DBus~~~~%08%01g~%01s~~%0F~~~service unknown~",
    "l%04%01%01%0A~~~%17~~~G~~~%01%01o~%02~~~/p~~~~~~%02%01s~%07~~~org.a.I~%03%01s~%01~~~S~~~~~~~%07%01s~%04~~~:1.7~~~~%08%01g~%01s~~%05~~~shown~",
    "l%02%01%01A~~~%18~~~@~~~%05%01u~%04~~~%06%01s~%05~~~:1.40~~~%07%01s~%14~~~org.freedesktop.DBus~~~~%08%01g~%02as~=~~~%14~~~org.freedesktop.DBus~~~~%05~~~:1.40~~~%07~~~org.a.T~%04~~~:1.7~",
    "l%04%01%01~~~~%19~~~=~~~%01%01o~%02~~~/p~~~~~~%02%01s~%07~~~org.a.I~%03%01s~%01~~~T~~~~~~~%07%01s~%04~~~:1.7~~~~",
];

/// The lines of the log, without the number of the session.
const LOG: &str = "\
c 1 call serial=1 reply=- from=- dest=org.freedesktop.DBus path=/org/freedesktop/DBus iface=org.freedesktop.DBus member=Hello pass
b 2 return serial=1 reply=1 from=org.freedesktop.DBus dest=:1.40 path=- iface=- member=- show
b 3 return serial=2 reply=2 from=org.freedesktop.DBus dest=:1.40 path=- iface=- member=- hide OwnAnswer 0
b 4 return serial=3 reply=3 from=org.freedesktop.DBus dest=:1.40 path=- iface=- member=- hide OwnAnswer 0
c 5 call serial=2 reply=- from=- dest=org.a.T path=/p iface=org.a.I member=A pass
c 6 call serial=3 reply=- from=- dest=org.h.X path=/x iface=org.h.I member=M ping NotVisible 0 ServiceUnknown
c 7 call serial=4 reply=- from=- dest=org.freedesktop.DBus path=/org/freedesktop/DBus iface=org.freedesktop.DBus member=ListNames pass
b 8 return serial=20 reply=4 from=:1.7 dest=:1.40 path=- iface=- member=- show
b 9 return serial=21 reply=5 from=org.freedesktop.DBus dest=:1.40 path=- iface=- member=- instead ServiceUnknown
b 10 signal serial=22 reply=- from=:1.60 dest=- path=/p iface=org.a.I member=H hide SenderNotTalk 0
b 11 signal serial=23 reply=- from=:1.7 dest=- path=/p iface=org.a.I member=S show
b 12 return serial=24 reply=6 from=org.freedesktop.DBus dest=:1.40 path=- iface=- member=- cut
c 13 signal serial=5 reply=- from=- dest=org.a.T path=/p iface=org.a.I member=S pass
b 14 signal serial=25 reply=- from=:1.7 dest=- path=/p iface=org.a.I member=T show
";

/// What a session's links and the log were sent.
#[derive(Drop)]
pub struct Sent {
    /// All that was written to the client.
    pub to_client: Vec<u8>,
    /// All that was written to the bus.
    pub to_bus: Vec<u8>,
    /// The session's lines of the log, without its number.
    pub log: Vec<u8>,
}

/// A run of a server.
#[derive(Drop)]
pub struct Run {
    /// How the server ended.
    pub end: Result<Turn, ServerEnd>,
    /// The whole log.
    pub log: Vec<u8>,
    /// What the sessions were sent, from the first on.
    pub sessions: Vec<Sent>,
}

/// What a session is sent if all of its pieces are received.
pub fn whole(alloc: Global) -> Result<Sent, AllocError> {
    Ok(Sent {
        to_client: joined(alloc, TO_CLIENT)?,
        to_bus: joined(alloc, TO_BUS)?,
        log: Vec::from_slice(alloc, LOG.as_bytes())?,
    })
}

fn joined(alloc: Global, texts: &[&str]) -> Result<Vec<u8>, AllocError> {
    let mut bytes = Vec::new(alloc);
    for text in texts {
        bytes.extend_from_slice(&plain(alloc, text)?)?;
    }
    Ok(bytes)
}

/// The steps of concurrent sessions: the arrivals, each of the first pieces on the links of each session in turn, and
/// the ends of both sides in an order.
pub fn steps(
    alloc: Global,
    arrivals: &[u32],
    pieces: usize,
    ends: [&str; 2],
) -> Result<String, AllocError> {
    let mut steps = String::from_str(alloc, "room 2999 19999")?;
    for listener in arrivals {
        steps.push_str(&format!(in alloc; ", arrival {listener}")?)?;
    }
    for (side, bytes) in PIECES.get(..pieces).unwrap_or(PIECES) {
        for session in 1..=arrivals.len() {
            steps.push_str(&format!(in alloc; ", piece {side}{session} {bytes}")?)?;
        }
    }
    for side in ends {
        for session in 1..=arrivals.len() {
            steps.push_str(&format!(in alloc; ", end {side}{session}")?)?;
        }
    }
    Ok(steps)
}

/// The run of a proxy line over a script, with this number of sessions and with room for `room` bytes in the log.
pub fn run_server(
    alloc: Global,
    words: &str,
    script: &str,
    sessions: usize,
    room: usize,
) -> Result<Run, AllocError> {
    let mut net = net_of(alloc, script)?;
    let mut log = MemSink::new(alloc, room)?;
    let mut server = Server::new(alloc, line_of(alloc, words)?)?;
    let end = serve(&mut server, &mut net, &mut log);
    let mut sent = Vec::new(alloc);
    for session in 1..=sessions {
        let client = format!(in alloc; "c{session}")?;
        let bus = format!(in alloc; "b{session}")?;
        sent.push(Sent {
            to_client: net.written(alloc, link_of(&client))?,
            to_bus: net.written(alloc, link_of(&bus))?,
            log: lines_of(alloc, &log.bytes, session)?,
        })?;
    }
    Ok(Run {
        end,
        log: log.bytes,
        sessions: sent,
    })
}

/// The lines of a session in a log, without its number.
fn lines_of(alloc: Global, log: &[u8], session: usize) -> Result<Vec<u8>, AllocError> {
    let mut lines = Vec::new(alloc);
    for line in str::from_utf8(log).unwrap_or("").lines() {
        let (number, rest) = line.split_once(' ').unwrap_or((line, ""));
        if number.parse().unwrap_or(0) == session {
            lines.extend_from_slice(rest.as_bytes())?;
            lines.push(b'\n')?;
        }
    }
    Ok(lines)
}

/// The first part of a session that isn't a prefix of the same part of another one.
pub fn part_beyond(sent: &Sent, other: &Sent) -> Option<&'static str> {
    if !other.to_client.starts_with(&sent.to_client) {
        return Some("what was written to the client");
    }
    if !other.to_bus.starts_with(&sent.to_bus) {
        return Some("what was written to the bus");
    }
    if !other.log.starts_with(&sent.log) {
        return Some("the log");
    }
    None
}

/// The first part in which two sessions differ.
pub fn differing_part(sent: &Sent, other: &Sent) -> Option<&'static str> {
    match part_beyond(sent, other) {
        Some(part) => Some(part),
        None => part_beyond(other, sent),
    }
}

/// The first link in which two sessions differ.
pub fn differing_link(sent: &Sent, other: &Sent) -> Option<&'static str> {
    if sent.to_client.as_slice() != other.to_client.as_slice() {
        return Some("what was written to the client");
    }
    if sent.to_bus.as_slice() != other.to_bus.as_slice() {
        return Some("what was written to the bus");
    }
    None
}
