//! The log of sessions that end: it has the lines of all messages before the end, whatever ends the session.
//!
//! The rows are those of `told_server`, with names in braces: in `LOGGED` those of `SESSION`, else those of `NAMED`. A
//! malformed message is a valid one with a change that makes one fault. The wait after the last read fails, so that the
//! server ends with `Wait` if its session isn't over by then.
use crate::served::told_server;
use std::alloc::{AllocError, Global};
use std::test::Fail;
use test_tables::{SESSION, wrong_named_row};

/// The texts of names: a proxy line that lets no name be talked to; the client's lines; the bus's; a call to a name
/// without a level, in either byte order; the ping in its place; a broadcast of a sender without a level; two returns;
/// and the log lines of such a call, with a reply expected and without, and of the broadcast.
const NAMED: &[(&str, &str)] = &[
    ("proxy", "unix:path=/bus /p --filter --log --sessions=1"),
    ("begin", "~AUTH EXTERNAL%0D%0ABEGIN%0D%0A"),
    ("ok", "OK 00112233445566778899aabbccddeeff%0D%0A"),
    (
        "call",
        "l%01~%01~~~~%01~~~,~~~%01%01o~%01~~~/~~~~~~~%03%01s~%01~~~M~~~~~~~%06%01s~%03~~~a.b~~~~~",
    ),
    (
        "big",
        "B%01~%01~~~~%01%02%03%04~~~,%01%01o~~~~%01/~~~~~~~%03%01s~~~~%01M~~~~~~~%06%01s~~~~%03a.b~~~~~",
    ),
    (
        "ping",
        "l%01~%01~~~~%01~~~e~~~%01%01o~%01~~~/~~~~~~~%02%01s~%19~~~org.freedesktop.DBus.Peer~~~~~~~%03%01s~%04~~~Ping~~~~%06%01s~%14~~~org.freedesktop.DBus~~~~",
    ),
    (
        "signal",
        "l%04%01%01~~~~%05~~~=~~~%01%01o~%01~~~/~~~~~~~%02%01s~%03~~~a.b~~~~~%03%01s~%01~~~M~~~~~~~%07%01s~%04~~~:1.7~~~~",
    ),
    (
        "answer",
        "l%02%01%01~~~~%09~~~%10~~~%05%01u~%02~~~%09%01u~~~~~",
    ),
    (
        "boolean",
        "l%02%01%01%04~~~%09~~~%0F~~~%05%01u~%02~~~%08%01g~%01b~~~~~~",
    ),
    (
        "pinged",
        "1 c 1 call serial=1 reply=- from=- dest=a.b path=/ iface=- member=M ping NotVisible 0 ServiceUnknown%0A",
    ),
    (
        "dropped",
        "1 c 1 call serial=1 reply=- from=- dest=a.b path=/ iface=- member=M drop NotVisible 0%0A",
    ),
    (
        "hidden",
        "1 b 1 signal serial=5 reply=- from=:1.7 dest=- path=/ iface=a.b member=M hide SenderNotTalk 0%0A",
    ),
];

/// Sessions with a log: one that takes all, one that fails within the first line, and one that fails at the second; and
/// two sessions, one of which has no log.
const LOGGED: &str = "\
unix:path=/bus /p --filter --log --talk=org.a.T --sessions=1; \
    arrival 0, piece c1 {auth}BEGIN%0D, piece c1 %0A{call}, piece b1 {ok}{return}, end c1; \
    c1 b1 => Stopped, c1 {ok}{return}, b1 {auth}{begin}{call}, \
    log 1 c 1 call serial=1 reply=- from=- dest=org.a.T path=/p iface=org.a.I member=A pass%0A1 b 2 return serial=9 reply=1 from=:1.7 dest=:1.40 path=- iface=- member=- show%0A
30 | unix:path=/bus /p --filter --log --talk=org.a.T --sessions=1; \
    arrival 0, piece c1 {auth}BEGIN%0D, piece c1 %0A{call}, piece b1 {ok}{return}, end c1; \
    c1 b1 => Stopped, c1 , b1 {auth}{begin}{call}, log 1 c 1 call serial=1 reply=- fr
84 | unix:path=/bus /p --filter --log --talk=org.a.T --sessions=1; \
    arrival 0, piece c1 {auth}BEGIN%0D, piece c1 %0A{call}, piece b1 {ok}{return}, end c1; \
    c1 b1 => Stopped, c1 {ok}{return}, b1 {auth}{begin}{call}, \
    log 1 c 1 call serial=1 reply=- from=- dest=org.a.T path=/p iface=org.a.I member=A pass%0A
unix:path=/bus /p --filter --log --talk=org.a.T unix:path=/bus2 /q --filter --talk=org.a.T --sessions=2; \
    arrival 1, arrival 0, piece c1 {auth}{begin}{call}, piece c2 {auth}{begin}{call}, end c1, end c2; \
    b1 b2 => Stopped, b1 {auth}{begin}{call}, b2 {auth}{begin}{call}, \
    log 2 c 1 call serial=1 reply=- from=- dest=org.a.T path=/p iface=org.a.I member=A pass%0A
";

/// A call that is answered by a ping, and in the same read a malformed message: one of each kind in the order of
/// `MalformedKind`, with two of Length, four of Fields (an invalid field code, an invalid destination, a repeated
/// field, padding that isn't zero) and two of Body (a byte without a signature, a boolean that is 2).
const REFUSED: &str = "\
{proxy}; WaitFails 3, arrival 0, piece c1 {begin}{call}{call 0=b}; b1 => Stopped, b1 {begin}{ping}, log {pinged}
{proxy}; WaitFails 3, arrival 0, piece c1 {begin}{call}{call 1=0}; b1 => Stopped, b1 {begin}{ping}, log {pinged}
{proxy}; WaitFails 3, arrival 0, piece c1 {begin}{call}{call 3=2}; b1 => Stopped, b1 {begin}{ping}, log {pinged}
{proxy}; WaitFails 3, arrival 0, piece c1 {begin}{call}{call 15=4}; b1 => Stopped, b1 {begin}{ping}, log {pinged}
{proxy}; WaitFails 3, arrival 0, piece c1 {begin}{call}{call 7=8}; b1 => Stopped, b1 {begin}{ping}, log {pinged}
{proxy}; WaitFails 3, arrival 0, piece c1 {begin}{call}{call 8=0}; b1 => Stopped, b1 {begin}{ping}, log {pinged}
{proxy}; WaitFails 3, arrival 0, piece c1 {begin}{call}{call 16=0}; b1 => Stopped, b1 {begin}{ping}, log {pinged}
{proxy}; WaitFails 3, arrival 0, piece c1 {begin}{call}{call 57=a}; b1 => Stopped, b1 {begin}{ping}, log {pinged}
{proxy}; WaitFails 3, arrival 0, piece c1 {begin}{call}{answer 24=5 28=1}; \
    b1 => Stopped, b1 {begin}{ping}, log {pinged}
{proxy}; WaitFails 3, arrival 0, piece c1 {begin}{call}{call 60=1}; b1 => Stopped, b1 {begin}{ping}, log {pinged}
{proxy}; WaitFails 3, arrival 0, piece c1 {begin}{call}{call 32=10}; b1 => Stopped, b1 {begin}{ping}, log {pinged}
{proxy}; WaitFails 3, arrival 0, piece c1 {begin}{call}{call 4=1}~; b1 => Stopped, b1 {begin}{ping}, log {pinged}
{proxy}; WaitFails 3, arrival 0, piece c1 {begin}{call}{boolean 32=2}; b1 => Stopped, b1 {begin}{ping}, log {pinged}
{proxy}; WaitFails 3, arrival 0, piece c1 {begin}{call}{answer 28=1}; b1 => Stopped, b1 {begin}{ping}, log {pinged}
";

/// A dropped call that expects no reply, and in the same read a malformed message: one of each kind.
const DROPPED: &str = "\
{proxy}; WaitFails 3, arrival 0, piece c1 {begin}{call 2=1}{call 0=b}; b1 => Stopped, b1 {begin}, log {dropped}
{proxy}; WaitFails 3, arrival 0, piece c1 {begin}{call 2=1}{call 1=0}; b1 => Stopped, b1 {begin}, log {dropped}
{proxy}; WaitFails 3, arrival 0, piece c1 {begin}{call 2=1}{call 3=2}; b1 => Stopped, b1 {begin}, log {dropped}
{proxy}; WaitFails 3, arrival 0, piece c1 {begin}{call 2=1}{call 15=4}; b1 => Stopped, b1 {begin}, log {dropped}
{proxy}; WaitFails 3, arrival 0, piece c1 {begin}{call 2=1}{call 8=0}; b1 => Stopped, b1 {begin}, log {dropped}
{proxy}; WaitFails 3, arrival 0, piece c1 {begin}{call 2=1}{call 16=0}; b1 => Stopped, b1 {begin}, log {dropped}
{proxy}; WaitFails 3, arrival 0, piece c1 {begin}{call 2=1}{call 32=10}; b1 => Stopped, b1 {begin}, log {dropped}
{proxy}; WaitFails 3, arrival 0, piece c1 {begin}{call 2=1}{call 4=1}~; b1 => Stopped, b1 {begin}, log {dropped}
{proxy}; WaitFails 3, arrival 0, piece c1 {begin}{call 2=1}{answer 28=1}; b1 => Stopped, b1 {begin}, log {dropped}
";

/// A broadcast that the client isn't shown, and in the same read a malformed message: those of `REFUSED`, as signals.
const HIDDEN: &str = "\
{proxy}; WaitFails 4, arrival 0, piece c1 {begin}, piece b1 {ok}{signal}{signal 0=b}; \
    c1 => Stopped, c1 {ok}, log {hidden}
{proxy}; WaitFails 4, arrival 0, piece c1 {begin}, piece b1 {ok}{signal}{signal 1=0}; \
    c1 => Stopped, c1 {ok}, log {hidden}
{proxy}; WaitFails 4, arrival 0, piece c1 {begin}, piece b1 {ok}{signal}{signal 3=2}; \
    c1 => Stopped, c1 {ok}, log {hidden}
{proxy}; WaitFails 4, arrival 0, piece c1 {begin}, piece b1 {ok}{signal}{signal 15=4}; \
    c1 => Stopped, c1 {ok}, log {hidden}
{proxy}; WaitFails 4, arrival 0, piece c1 {begin}, piece b1 {ok}{signal}{signal 7=8}; \
    c1 => Stopped, c1 {ok}, log {hidden}
{proxy}; WaitFails 4, arrival 0, piece c1 {begin}, piece b1 {ok}{signal}{signal 8=0}; \
    c1 => Stopped, c1 {ok}, log {hidden}
{proxy}; WaitFails 4, arrival 0, piece c1 {begin}, piece b1 {ok}{signal}{signal 16=0}; \
    c1 => Stopped, c1 {ok}, log {hidden}
{proxy}; WaitFails 4, arrival 0, piece c1 {begin}, piece b1 {ok}{signal}{signal 56=.}; \
    c1 => Stopped, c1 {ok}, log {hidden}
{proxy}; WaitFails 4, arrival 0, piece c1 {begin}, piece b1 {ok}{signal}{answer 24=5 28=1}; \
    c1 => Stopped, c1 {ok}, log {hidden}
{proxy}; WaitFails 4, arrival 0, piece c1 {begin}, piece b1 {ok}{signal}{signal 79=1}; \
    c1 => Stopped, c1 {ok}, log {hidden}
{proxy}; WaitFails 4, arrival 0, piece c1 {begin}, piece b1 {ok}{signal}{signal 16=10}; \
    c1 => Stopped, c1 {ok}, log {hidden}
{proxy}; WaitFails 4, arrival 0, piece c1 {begin}, piece b1 {ok}{signal}{signal 4=1}~; \
    c1 => Stopped, c1 {ok}, log {hidden}
{proxy}; WaitFails 4, arrival 0, piece c1 {begin}, piece b1 {ok}{signal}{boolean 32=2}; \
    c1 => Stopped, c1 {ok}, log {hidden}
{proxy}; WaitFails 4, arrival 0, piece c1 {begin}, piece b1 {ok}{signal}{answer 28=1}; \
    c1 => Stopped, c1 {ok}, log {hidden}
";

/// Other places of the fault: after three messages, before another message, in big-endian order, in the read that ends
/// BEGIN, partly in the next read, and from the bus after a denied call of the client or after the answer to a ping.
/// Two sessions that end so.
const PLACES: &str = "\
{proxy}; WaitFails 3, arrival 0, piece c1 {begin}{call}{call 2=1 8=2}{signal}{call 0=b}; \
    b1 => Stopped, b1 {begin}{ping}{signal 8=2}, \
    log {pinged}1 c 2 call serial=2 reply=- from=- dest=a.b path=/ iface=- member=M drop NotVisible 0%0A1 c 3 signal serial=5 reply=- from=:1.7 dest=- path=/ iface=a.b member=M pass%0A
{proxy}; WaitFails 3, arrival 0, piece c1 {begin}{call}{call 0=b}{call 8=2}; \
    b1 => Stopped, b1 {begin}{ping}, log {pinged}
{proxy}; WaitFails 3, arrival 0, piece c1 {begin}{big}{big 60=1}; \
    b1 => Stopped, b1 {begin}{ping}, \
    log 1 c 1 call serial=16909060 reply=- from=- dest=a.b path=/ iface=- member=M ping NotVisible 0 ServiceUnknown%0A
{proxy}; WaitFails 4, arrival 0, piece c1 ~AUTH EXTERNAL%0D%0ABEGIN%0D, piece c1 %0A{call}{call 0=b}; \
    b1 => Stopped, b1 {begin}{ping}, log {pinged}
{proxy}; WaitFails 4, arrival 0, piece c1 {begin}{call}b, piece c1 %01~%01~~~~%07~~~~~~~; \
    b1 => Stopped, b1 {begin}{ping}, log {pinged}
{proxy}; WaitFails 4, arrival 0, piece c1 {begin}{call}, piece b1 {ok}{signal}{signal 0=b}; \
    b1 => Stopped, b1 {begin}{ping}, \
    log {pinged}1 b 2 signal serial=5 reply=- from=:1.7 dest=- path=/ iface=a.b member=M hide SenderNotTalk 0%0A
{proxy}; WaitFails 4, arrival 0, piece c1 {begin}{call}, piece b1 {ok}{answer 20=1}{signal}{signal 0=b}; \
    b1 => Stopped, b1 {begin}{ping}, \
    log {pinged}1 b 2 return serial=9 reply=1 from=- dest=- path=- \
        iface=- member=- instead ServiceUnknown%0A1 b 3 signal serial=5 \
        reply=- from=:1.7 dest=- path=/ iface=a.b member=M hide SenderNotTalk 0%0A
unix:path=/bus /p --filter --log --sessions=2; WaitFails 5, arrival 0, arrival 0, \
    piece c1 {begin}{call}{call 0=b}, piece c2 {begin}{call 2=1}{call 0=b}; \
    b1 b2 => Stopped, b1 {begin}{ping}, b2 {begin}, \
    log {pinged}2 c 1 call serial=1 reply=- from=- dest=a.b path=/ iface=- member=M drop NotVisible 0%0A
";

/// Other ends after a denied message: the end of either side, lines of the bus with a bad byte and with an agreement to
/// pass file descriptors, reads that fail, writes that fail, in the same turn or in the next one, and a write that
/// isn't ready, after which the line isn't written again.
const ENDS: &str = "\
{proxy}; WaitFails 4, arrival 0, piece c1 {begin}{call}, end c1; b1 => Stopped, b1 {begin}{ping}, log {pinged}
{proxy}; WaitFails 4, arrival 0, piece c1 {begin}{call 2=1}, end c1; b1 => Stopped, b1 {begin}, log {dropped}
{proxy}; WaitFails 5, arrival 0, piece c1 {begin}, piece b1 {ok}{signal}, end c1; c1 => Stopped, c1 {ok}, log {hidden}
{proxy}; WaitFails 4, arrival 0, piece c1 {begin}{call}, end b1; b1 => Stopped, b1 {begin}{ping}, log {pinged}
{proxy}; WaitFails 5, arrival 0, piece c1 {begin}, piece b1 {ok}{signal}, end b1; c1 => Stopped, c1 {ok}, log {hidden}
{proxy}; WaitFails 4, arrival 0, piece c1 {begin}{call}, piece b1 %80; b1 => Stopped, b1 {begin}{ping}, log {pinged}
{proxy}; WaitFails 4, arrival 0, piece c1 {begin}{call}, piece b1 AGREE_UNIX_FD%0D%0A; \
    b1 => Stopped, b1 {begin}{ping}, log {pinged}
{proxy}; ReadFails 2, WaitFails 4, arrival 0, piece c1 {begin}{call}, piece c1 {call 8=2}; \
    b1 => Stopped, b1 {begin}{ping}, log {pinged}
{proxy}; ReadFails 2, WaitFails 4, arrival 0, piece c1 {begin}{call}, piece b1 {ok}; \
    b1 => Stopped, b1 {begin}{ping}, log {pinged}
{proxy}; ReadFails 3, WaitFails 5, arrival 0, piece c1 {begin}, piece b1 {ok}{signal}, piece b1 {signal}; \
    c1 => Stopped, c1 {ok}, log {hidden}
{proxy}; WriteFails 1, WaitFails 3, arrival 0, piece c1 {begin}{call}; b1 => Stopped, b1 , log {pinged}
{proxy}; WriteFails 1, WaitFails 3, arrival 0, piece c1 {begin}{call 2=1}; b1 => Stopped, b1 , log {dropped}
{proxy}; WriteFails 2, WaitFails 4, arrival 0, piece c1 {begin}, piece b1 {ok}{signal}; \
    c1 => Stopped, c1 , log {hidden}
{proxy}; limit b1 5, WaitFails 3, arrival 0, piece c1 {begin}{call}; b1 => Stopped, b1 ~AUTH, log {pinged}
{proxy}; WriteFails 1, WaitFails 3, arrival 0, piece c1 {begin}{call}{call 0=b}; b1 => Stopped, b1 , log {pinged}
{proxy}; WriteNotReady 1, WriteFails 2, WaitFails 4, arrival 0, piece c1 {begin}{call}, piece c1 {call 8=2}; \
    b1 => Stopped, b1 , log {pinged}
{proxy}; WriteNotReady 1, WaitFails 4, arrival 0, piece c1 {begin}{call}{call 0=b}; \
    b1 => Stopped, b1 {begin}{ping}, log {pinged}
";

/// Logs that take nothing, a part of the first line (for each decision, and for a session that goes on), this whole
/// line, and also a part of the second one.
const ROOMS: &str = "\
0 | {proxy}; WaitFails 3, arrival 0, piece c1 {begin}{call}; b1 => Stopped, b1 {begin}{ping}
30 | {proxy}; WaitFails 3, arrival 0, piece c1 {begin}{call}; \
    b1 => Stopped, b1 {begin}{ping}, log 1 c 1 call serial=1 reply=- fr
30 | {proxy}; WaitFails 3, arrival 0, piece c1 {begin}{call}{call 0=b}; \
    b1 => Stopped, b1 {begin}{ping}, log 1 c 1 call serial=1 reply=- fr
30 | {proxy}; WaitFails 3, arrival 0, piece c1 {begin}{call 2=1}{call 0=b}; \
    b1 => Stopped, b1 {begin}, log 1 c 1 call serial=1 reply=- fr
30 | {proxy}; WaitFails 4, arrival 0, piece c1 {begin}, piece b1 {ok}{signal}{signal 0=b}; \
    c1 => Stopped, c1 {ok}, log 1 b 1 signal serial=5 reply=- 
101 | {proxy}; WaitFails 3, arrival 0, piece c1 {begin}{call}{call 2=1 8=2}{call 0=b}; \
    b1 => Stopped, b1 {begin}{ping}, log {pinged}
131 | {proxy}; WaitFails 3, arrival 0, piece c1 {begin}{call}{call 2=1 8=2}{call 0=b}; \
    b1 => Stopped, b1 {begin}{ping}, log {pinged}1 c 2 call serial=2 reply=- fr
";

/// The first row of a table with names whose answer isn't the expected one, with the answer.
fn wrong_of(alloc: Global, table: &str) -> Result<Option<String>, AllocError> {
    wrong_named_row(alloc, NAMED, table, &told_server)
}

#[test]
fn messages_are_logged(rt: HostRuntime) -> Result<(), Fail> {
    assert_eq!(rt;
        wrong_named_row(rt.alloc(), SESSION, LOGGED, &told_server)?,
        None
    );
    Ok(())
}

#[test]
fn denied_messages_are_logged_before_malformed_ones(rt: HostRuntime) -> Result<(), Fail> {
    for table in [REFUSED, DROPPED, HIDDEN, PLACES] {
        assert_eq!(rt; wrong_of(rt.alloc(), table)?, None);
    }
    Ok(())
}

#[test]
fn denied_messages_are_logged_before_other_ends(rt: HostRuntime) -> Result<(), Fail> {
    assert_eq!(rt; wrong_of(rt.alloc(), ENDS)?, None);
    Ok(())
}

#[test]
fn logs_take_what_they_have_room_for(rt: HostRuntime) -> Result<(), Fail> {
    assert_eq!(rt; wrong_of(rt.alloc(), ROOMS)?, None);
    Ok(())
}
