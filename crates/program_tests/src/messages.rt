//! A message's text, and the message of a text: the words and files of `show` and `compose`, and what they write.
use crate::runs::{Ended, file, run_over};
use std::alloc::{AllocError, Global};
use std::str;
use std::test::Fail;
use std::thread::Threads;
use test_tables::wrong_row;

/// A reply of the bus with the boolean false.
const REPLY: &[u8] = b"l\x02\x01\x01\x04\0\0\0\x46\0\0\0\x2f\0\0\0\
\x05\x01u\0\x03\0\0\0\
\x07\x01s\0\x14\0\0\0org.freedesktop.DBus\0\0\0\0\
\x08\x01g\0\x01b\0\0\
\0\0\0\0";

const REPLY_TEXT: &str = "\
l 2 1 70
5 u 3
7 s \"org.freedesktop.DBus\"
8 g \"b\"
body false
";

/// The call of Ping.
const PING_TEXT: &str = "\
l 1 0 2
1 o \"/\"
2 s \"org.freedesktop.DBus.Peer\"
3 s \"Ping\"
6 s \"org.freedesktop.DBus\"
body
";

const PING: &[u8] = b"l\x01\0\x01\0\0\0\0\x02\0\0\0\x65\0\0\0\
\x01\x01o\0\x01\0\0\0/\0\0\0\0\0\0\0\
\x02\x01s\0\x19\0\0\0org.freedesktop.DBus.Peer\0\0\0\0\0\0\0\
\x03\x01s\0\x04\0\0\0Ping\0\0\0\0\
\x06\x01s\0\x14\0\0\0org.freedesktop.DBus\0\0\0\0";

/// The call of Ping with the serial 0.
const NO_SERIAL_TEXT: &str = "\
l 1 0 0
1 o \"/\"
2 s \"org.freedesktop.DBus.Peer\"
3 s \"Ping\"
6 s \"org.freedesktop.DBus\"
body
";

/// Words, and the status, the number of written bytes, and the line on standard error.
const WORDS: &str = "\
show => 1 0 error: usage
show reply reply => 1 0 error: usage
show -reply => 1 0 error: usage
show --help => 1 0 error: usage
show reply => 0 61
show -- reply => 0 61
show missing => 4 0 error: file missing
show empty => 3 0 error: message: Cut at 0
show ping-text => 3 0 error: message: Version at 3
compose => 1 0 error: usage
compose ping-text ping-text => 1 0 error: usage
compose ping-text => 0 120
compose missing => 4 0 error: file missing
compose empty => 3 0 error: text: Form
compose reply => 3 0 error: text: Form
compose no-serial => 3 0 error: text: NotValid
";

/// A run over a message, a text, a text of no valid message, and an empty file.
fn run_on_messages<R: Threads + Sync>(
    rt: &R,
    alloc: Global,
    words: &str,
    room: usize,
) -> Result<Ended, AllocError> {
    let mut files = Vec::new(alloc);
    files.push(file(alloc, "reply", REPLY)?)?;
    files.push(file(alloc, "ping-text", PING_TEXT.as_bytes())?)?;
    files.push(file(alloc, "no-serial", NO_SERIAL_TEXT.as_bytes())?)?;
    files.push(file(alloc, "empty", b"")?)?;
    run_over(rt, alloc, words, files, room)
}

fn told_words<R: Threads + Sync>(rt: &R, alloc: Global, words: &str) -> Result<String, AllocError> {
    told(alloc, &run_on_messages(rt, alloc, words, 10_000)?)
}

/// The status, the number of written bytes, and the line.
fn told(alloc: Global, ended: &Ended) -> Result<String, AllocError> {
    let count = ended.out.bytes.len();
    let line = str::from_utf8(&ended.err.bytes).unwrap_or("no text");
    let told = format!(in alloc; "{} {count} {}", ended.code, line.trim_end())?;
    String::from_str(alloc, told.trim_end())
}

#[test]
fn words_and_files_of_messages_are_checked(rt: HostRuntime) -> Result<(), Fail> {
    assert_eq!(rt;
        wrong_row(
            rt.alloc(),
            WORDS,
            &|alloc, words| told_words(&rt, alloc, words)
        )?,
        None
    );
    Ok(())
}

#[test]
fn message_is_shown_up_to_the_room_that_is_left(rt: HostRuntime) -> Result<(), Fail> {
    let ended = run_on_messages(&rt, rt.alloc(), "show reply", REPLY_TEXT.len())?;
    assert_eq!(rt; ended.code, 0);
    assert_eq!(rt; ended.out.bytes.as_slice(), REPLY_TEXT.as_bytes());
    for room in 0..REPLY_TEXT.len() {
        let ended = run_on_messages(&rt, rt.alloc(), "show reply", room)?;
        assert_eq!(rt; ended.code, 6);
        assert_eq!(rt; ended.out.bytes.as_slice(), &REPLY_TEXT.as_bytes()[..room]);
    }
    Ok(())
}

#[test]
fn text_is_composed_up_to_the_room_that_is_left(rt: HostRuntime) -> Result<(), Fail> {
    let ended = run_on_messages(&rt, rt.alloc(), "compose ping-text", PING.len())?;
    assert_eq!(rt; ended.code, 0);
    assert_eq!(rt; ended.out.bytes.as_slice(), PING);
    for room in 0..PING.len() {
        let ended = run_on_messages(&rt, rt.alloc(), "compose ping-text", room)?;
        assert_eq!(rt; ended.code, 6);
        assert_eq!(rt; ended.out.bytes.as_slice(), &PING[..room]);
    }
    Ok(())
}

/// The length of the reply's file, which is cut or followed by zeros; and the line.
const LENGTHS: &str = "\
0 => 3 0 error: message: Cut at 0
15 => 3 0 error: message: Cut at 15
16 => 3 0 error: message: Cut at 16
67 => 3 0 error: message: Cut at 67
68 => 0 61
69 => 3 0 error: message: Extra at 68
100 => 3 0 error: message: Extra at 68
16777216 => 3 0 error: message: Extra at 68
16777217 => 3 0 error: message: TooLong at 16777216
";

/// A run over the reply, cut or followed by zeros so that the file has this many bytes.
fn told_length<R: Threads + Sync>(rt: &R, alloc: Global, row: &str) -> Result<String, AllocError> {
    let mut bytes = Vec::from_slice(alloc, REPLY)?;
    bytes.resize(row.parse::<usize>().unwrap_or(0), 0)?;
    let mut files = Vec::new(alloc);
    files.push(file(alloc, "message", &bytes)?)?;
    told(alloc, &run_over(rt, alloc, "show message", files, 10_000)?)
}

#[test]
fn file_holds_one_message(rt: HostRuntime) -> Result<(), Fail> {
    assert_eq!(rt;
        wrong_row(
            rt.alloc(),
            LENGTHS,
            &|alloc, row| told_length(&rt, alloc, row)
        )?,
        None
    );
    Ok(())
}

/// The place of a byte of the reply, another byte that replaces it, and the line.
const CHANGES: &str = "\
0 m => 3 0 error: message: ByteOrder at 0
0 B => 3 0 error: message: Length at 12
1 ~ => 3 0 error: message: MessageType at 1
3 ~ => 3 0 error: message: Version at 3
7 a => 3 0 error: message: Length at 4
8 ~ => 3 0 error: message: Serial at 8
15 a => 3 0 error: message: Length at 12
20 ~ => 3 0 error: message: Fields at 16
24 r => 0 63
26 x => 3 0 error: message: Fields at 24
16 a => 3 0 error: message: Required at 12
61 i => 0 57
64 a => 3 0 error: message: Body at 64
";

/// A run over the reply with the byte at a place replaced, by zero for `~`.
fn told_change<R: Threads + Sync>(rt: &R, alloc: Global, row: &str) -> Result<String, AllocError> {
    let (place, with) = row.split_once(' ').unwrap_or(("", ""));
    let place = place.parse::<usize>().unwrap_or(usize::MAX);
    let other = match with.as_bytes().first() {
        Some(b'~') | None => 0,
        Some(byte) => *byte,
    };
    let mut bytes = Vec::new(alloc);
    for (index, byte) in REPLY.iter().enumerate() {
        bytes.push(if index == place { other } else { *byte })?;
    }
    let mut files = Vec::new(alloc);
    files.push(file(alloc, "message", &bytes)?)?;
    told(alloc, &run_over(rt, alloc, "show message", files, 10_000)?)
}

#[test]
fn first_fault_of_a_message_is_told(rt: HostRuntime) -> Result<(), Fail> {
    assert_eq!(rt;
        wrong_row(
            rt.alloc(),
            CHANGES,
            &|alloc, row| told_change(&rt, alloc, row)
        )?,
        None
    );
    Ok(())
}

#[test]
fn text_above_its_limit_is_too_long(rt: HostRuntime) -> Result<(), Fail> {
    let mut text = Vec::from_slice(rt.alloc(), PING_TEXT.as_bytes())?;
    text.resize(67_108_865, b' ')?;
    let mut files = Vec::new(rt.alloc());
    files.push(file(rt.alloc(), "text", &text)?)?;
    let ended = run_over(&rt, rt.alloc(), "compose text", files, 10_000)?;
    assert_eq!(rt;
        told(rt.alloc(), &ended)?.as_str(),
        "3 0 error: text: TooLong"
    );
    Ok(())
}
