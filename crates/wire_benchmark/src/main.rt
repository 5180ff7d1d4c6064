//! How long it takes to pass over a body and to read a message.
//!
//! Without words each input is read once, and nothing is printed. With a word each is measured, and gets a line `NAME
//! NANOSECONDS BYTES SUM`: the shortest time of one call, the number of bytes that it reads, and a sum of the input.
//! With the name of a stream (`calls`, `members` or `replies`) its messages are read 10,000 times, to count
//! instructions, and their number is printed.
#![tactic(auto)]

mod inputs;

ghost use Rattle.std.specs.Prelude.{◌≡◌, ◌<◌, ◌≤◌, None, IsTrue, length};
ghost use Rattle.dbus_header.specs.Malformed.{head_fault, whole_len};

use dbus_header::{KnownTexts, Places, decode_knowing, length};
use dbus_types::Signature;
use dbus_values::{Order, value_end};
use inputs::{byte_arrays, calls, dictionaries, members, replies};
use std::alloc::{AllocError, Global};
use std::process::ExitCode;
use std::time::{Duration, Instant};
use std::{env, io};

/// How often each measure is taken; the shortest counts.
const MEASURES: u32 = 300;

/// How many calls a measure has, for each input.
const DICTIONARY_CALLS: u32 = 100;

const BYTE_ARRAY_CALLS: u32 = 20_000;

const DECODE_CALLS: u32 = 1_000;

/// How often a stream is read.
const STREAM_READINGS: u32 = 10_000;

/// A place in the bytes: the given one, or the first if they end there.
fn next_place(bytes: &[u8], end: usize) -> usize
    ensures { result ≤ length bytes.now }
{
    if end < bytes.len() { end } else { 0 }
}

/// Passes over the values that stand one after the other, again and again. Each call begins where the one before ended.
fn walk(signature: Signature<'_>, bytes: &[u8], calls: u32) -> bool {
    let mut end = 0;
    for _ in 0..calls {
        match value_end(Order::Little, signature, bytes, next_place(bytes, end)) {
            Ok(behind) => end = behind,
            Err(_) => return false,
        }
    }
    end == bytes.len()
}

/// Whether the bytes have the length that they state, if they state one.
fn is_whole(bytes: &[u8]) -> bool
    ensures long { IsTrue result → 16 ≤ length bytes.now }
    ensures whole { IsTrue result → head_fault bytes.now ≡ None → length bytes.now ≡ whole_len bytes.now }
{
    match bytes.first_chunk::<16>() {
        None => false,
        Some(head) => match length(head) {
            Ok(len) => len as usize == bytes.len(),
            Err(_) => false,
        },
    }
}

/// Reads a message, and gives its serial if it is valid.
fn serial_of(bytes: &[u8], known: &mut KnownTexts) -> Option<u32>
    requires long { 16 ≤ length bytes.now }
    requires whole { head_fault bytes.now ≡ None → length bytes.now ≡ whole_len bytes.now }
{
    let mut places = Places::none();
    match decode_knowing(bytes, known, &mut places) {
        Ok(message) => Some(message.serial),
        Err(_) => None,
    }
}

/// Reads two messages in turn, whose serials tell which comes next.
fn read(first: &[u8], second: &[u8], calls: u32, known: &mut KnownTexts) -> bool {
    if !is_whole(first) || !is_whole(second) {
        return false;
    }
    let mut serial = 0;
    for _ in 0..calls {
        let next = if serial == 7 {
            serial_of(second, known)
        } else {
            serial_of(first, known)
        };
        match next {
            Some(next) => serial = next,
            None => return false,
        }
    }
    serial == 8
}

/// Reads the messages of a stream, and counts them; none if one isn't valid.
fn read_stream(stream: &[u8], known: &mut KnownTexts) -> Option<u32> {
    let mut rest = stream;
    let mut count: u32 = 0;
    while let Some(head) = rest.first_chunk::<16>() {
        let len = length(head).ok()? as usize;
        if len < 16 || len > rest.len() {
            return None;
        }
        let (message, behind) = rest.split_at(len);
        if !is_whole(message) {
            return None;
        }
        decode_knowing(message, known, &mut Places::none()).ok()?;
        count = count.wrapping_add(1);
        rest = behind;
    }
    Some(count)
}

/// The shortest time that this many passes take, of many measures.
fn walk_time(
    rt: &HostRuntime,
    signature: Signature<'_>,
    bytes: &[u8],
    calls: u32,
) -> io::Result<Duration> {
    let mut shortest = Duration::MAX;
    for _ in 0..MEASURES {
        let start = Instant::now(rt)?;
        let is_good = walk(signature, bytes, calls);
        let taken = start.elapsed(rt)?;
        if is_good && taken < shortest {
            shortest = taken;
        }
    }
    Ok(shortest)
}

/// The shortest time in which this many messages are read, of many measures.
fn read_time(
    rt: &HostRuntime,
    first: &[u8],
    second: &[u8],
    calls: u32,
    known: &mut KnownTexts,
) -> io::Result<Duration> {
    let mut shortest = Duration::MAX;
    for _ in 0..MEASURES {
        let start = Instant::now(rt)?;
        let is_good = read(first, second, calls, known);
        let taken = start.elapsed(rt)?;
        if is_good && taken < shortest {
            shortest = taken;
        }
    }
    Ok(shortest)
}

/// A sum of the bytes, by which the inputs of two programs are compared.
fn sum(bytes: &[u8]) -> u32 {
    let mut sum: u32 = 0;
    for byte in bytes {
        sum = sum.wrapping_mul(31).wrapping_add(*byte as u32);
    }
    sum
}

/// Prints the line of an input, which stands twice in the bytes.
fn print_line(
    rt: &HostRuntime,
    name: &str,
    shortest: Duration,
    calls: u32,
    bytes: &[u8],
) -> io::Result<()>
    requires { 0 < calls }
{
    let hundredths = shortest.as_nanos().saturating_mul(100) / calls as u128;
    let whole = hundredths / 100;
    let rest = hundredths % 100;
    let len = bytes.len() / 2;
    let sum = sum(bytes);
    println!(rt; "{name} {whole}.{rest:02} {len} {sum}")
}

/// The messages of the stream with a name.
fn stream(alloc: Global, name: &str) -> Result<Option<Vec<u8>>, AllocError> {
    Ok(match name {
        "calls" => Some(calls(alloc)?),
        "members" => Some(members(alloc)?),
        "replies" => Some(replies(alloc)?),
        _ => None,
    })
}

/// Reads a stream again and again, for a count of instructions, and prints the number of messages.
fn read_often(rt: &HostRuntime, stream: &[u8]) -> io::Result<bool> {
    let mut known = KnownTexts::new(rt.alloc());
    let mut count: u32 = 0;
    for _ in 0..STREAM_READINGS {
        match read_stream(stream, &mut known) {
            Some(read) => count = count.wrapping_add(read),
            None => return Ok(false),
        }
    }
    println!(rt; "{count}")?;
    Ok(true)
}

/// Looks at each input once, or measures each.
fn run(
    rt: &HostRuntime,
    is_measured: bool,
    entries: Signature<'_>,
    array: Signature<'_>,
) -> io::Result<bool> {
    let dictionaries = dictionaries(rt.alloc())?;
    let arrays = byte_arrays(rt.alloc())?;
    let messages = calls(rt.alloc())?;
    let (first, second) = messages.split_at(messages.len() / 2);
    if is_measured {
        let time = walk_time(rt, entries, &dictionaries, DICTIONARY_CALLS)?;
        print_line(rt, "dictionary", time, DICTIONARY_CALLS, &dictionaries)?;
        let time = walk_time(rt, array, &arrays, BYTE_ARRAY_CALLS)?;
        print_line(rt, "byte_array", time, BYTE_ARRAY_CALLS, &arrays)?;
        let time = read_time(rt, first, second, DECODE_CALLS, &mut KnownTexts::none())?;
        print_line(rt, "decode", time, DECODE_CALLS, &messages)?;
        let mut known = KnownTexts::new(rt.alloc());
        let time = read_time(rt, first, second, DECODE_CALLS, &mut known)?;
        print_line(rt, "decode_knowing", time, DECODE_CALLS, &messages)?;
    }
    Ok(
        walk(entries, &dictionaries, 2)
            && walk(array, &arrays, 2)
            && read(first, second, 2, &mut KnownTexts::none()),
    )
}

fn exit_code(is_good: bool) -> io::Result<ExitCode> {
    if is_good {
        Ok(ExitCode::SUCCESS)
    } else {
        Ok(ExitCode::FAILURE)
    }
}

fn main(rt: HostRuntime) -> io::Result<ExitCode> {
    let word = env::args(&rt)?.nth(1);
    if let Some(word) = &word {
        if let Some(stream) = stream(rt.alloc(), word.as_str())? {
            return exit_code(read_often(&rt, &stream)?);
        }
    }
    let is_measured = word.is_some();
    let (entries, array) = match (Signature::read(b"a{sv}"), Signature::read(b"ay")) {
        (Ok(entries), Ok(array)) => (entries, array),
        _ => return Ok(ExitCode::FAILURE),
    };
    exit_code(run(&rt, is_measured, entries, array)?)
}
