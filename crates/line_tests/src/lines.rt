//! The lines of authentication, in pieces of several sizes.
ghost use Rattle.std.specs.Prelude.{◌≡◌, ◌<◌, ◌+◌, ◌^◌, OnOk, length};
ghost use Rattle.sasl_watch.specs.Watching.{came};

use bytes::Bytes;
use sasl_watch::{Lines, NextLine, for_bus};
use std::alloc::{AllocError, Global};
use std::test::Fail;
use test_tables::{add_text, plain, text_of, wrong_row};

/// A client's stream, and its lines, each followed by a `|`, then the answer, and what is left.
const CLIENT: &str = "\
~ => [~|] Incomplete []
A => [] NoNul 0 [A]
AUTH%0D%0A => [] NoNul 0 [AUTH%0D%0A]
~%1F => [~|] BadByte 1 [%1F]
~AUTH%0D%0ADATA%7F => [~|AUTH%0D%0A|] BadByte 11 [DATA%7F]
~A%0DB%0D%0A => [~|] BadByte 3 [A%0DB%0D%0A]
~A%0D%0D%0A => [~|] BadByte 3 [A%0D%0D%0A]
~A%0AB%0D%0A => [~|] BadByte 2 [A%0AB%0D%0A]
~A%0D => [~|] Incomplete [A%0D]
~%0D%0A%0D%0A => [~|%0D%0A|%0D%0A|] Incomplete []
~BEGIN => [~|] Incomplete [BEGIN]
~BEGIN%0D%0A => [~|BEGIN%0D%0A|] Begin []
~BEGIN now%0D%0Al%01~ => [~|BEGIN now%0D%0A|] Begin [l%01~]
~BEGINS%0D%0AX => [~|BEGINS%0D%0A|] Incomplete [X]
~ BEGIN%0D%0A => [~| BEGIN%0D%0A|] Incomplete []
~DATA BEGIN%0D%0ADATA%0D%0ABEGIN%0D%0AAUTH%0D%0A => [~|DATA BEGIN%0D%0A|DATA%0D%0A|BEGIN%0D%0A|] Begin [AUTH%0D%0A]
~AUTH EXTERNAL 31%0D%0ANEGOTIATE_UNIX_FD%0D%0ABEGIN%0D%0Al%01~%01 => [~|AUTH EXTERNAL 31%0D%0A|NEGOTIATE_UNIX_FD%0D%0A|BEGIN%0D%0A|] Begin [l%01~%01]
";

/// How many lines were asked for, whether BEGIN was seen, a bus's stream, and its lines, the answer and what is left.
const BUS: &str = "\
0 false O => [] EarlyBus 0 [O]
0 false ~ => [] EarlyBus 0 [~]
1 false OK%0D%0AX => [OK%0D%0A|] EarlyBus 4 [X]
1 false OK%0D%0A => [OK%0D%0A|] Incomplete []
1 true OK%0D%0Al%02 => [OK%0D%0A|] Done [l%02]
2 true OK%0D%0ADA => [OK%0D%0A|] Incomplete [DA]
0 true l%02 => [] Done [l%02]
1 false ~ => [] BadByte 0 [~]
2 false OK%0D%0ADATA%0A => [OK%0D%0A|] BadByte 8 [DATA%0A]
3 true DATA%0D%0AOK%80 => [DATA%0D%0A|] BadByte 8 [OK%80]
1 false AGREE_UNIX_FD%0D%0A => [] Agreed 14 [AGREE_UNIX_FD%0D%0A]
2 true OK%0D%0AAGREE_UNIX_FD now%0D%0Al%02 => [OK%0D%0A|] Agreed 22 [AGREE_UNIX_FD now%0D%0Al%02]
1 true AGREE_UNIX_FDS%0D%0A => [AGREE_UNIX_FDS%0D%0A|] Done []
1 true OK AGREE_UNIX_FD%0D%0A => [OK AGREE_UNIX_FD%0D%0A|] Done []
2 true BEGIN%0D%0AOK%0D%0A => [BEGIN%0D%0A|OK%0D%0A|] Done []
";

/// What stands before a client's line, and how many bytes that has with its ending, and how many bytes are left of the
/// stream after the last of its lines, or the fault.
const LONG: &str = "\
~ 16383 => 16383
~ 16384 => 16384
~ 16385 => LineTooLong 16384
~AUTH%0D%0A 16384 => 16384
~AUTH%0D%0A 20000 => LineTooLong 16390
";

/// How many lines of the bus were asked for, and its stream and what is given of it, as for a client.
const BUS_LONG: &str = "\
1  16383 => 16383
1  16384 => 16384
1  16385 => LineTooLong 16383
2 OK%0D%0A 16384 => 16384
2 OK%0D%0A 20000 => LineTooLong 16387
";

/// Lines of the client, and what the bus is sent.
const SENT: &str = "\
NEGOTIATE_UNIX_FD%0D%0A => NO_UNIX_FD%0D%0A
NEGOTIATE_UNIX_FD please%0D%0A => NO_UNIX_FD%0D%0A
NEGOTIATE_UNIX_FDS%0D%0A => NEGOTIATE_UNIX_FDS%0D%0A
DATA NEGOTIATE_UNIX_FD%0D%0A => DATA NEGOTIATE_UNIX_FD%0D%0A
negotiate_unix_fd%0D%0A => negotiate_unix_fd%0D%0A
AUTH EXTERNAL%0D%0A => AUTH EXTERNAL%0D%0A
BEGIN%0D%0A => BEGIN%0D%0A
BEGIN now%0D%0A => BEGIN%0D%0A
BEGIN %0D%0A => BEGIN%0D%0A
BEGIN BEGIN%0D%0A => BEGIN%0D%0A
BEGINS now%0D%0A => BEGINS now%0D%0A
begin now%0D%0A => begin now%0D%0A
 BEGIN%0D%0A =>  BEGIN%0D%0A
DATA BEGIN%0D%0A => DATA BEGIN%0D%0A
";

/// How many bytes follow the word of the longest line that is tried.
const LONG_ARGUMENT: usize = 16_000;

/// What was given of a stream: its lines, then the answer, and the bytes that are left.
type Told = (Vec<Bytes>, NextLine, Vec<u8>);

/// Takes all that stands in front of the client's stream.
fn take_client(lines: &mut Lines, given: &mut Vec<Bytes>) -> Result<NextLine, AllocError>
    ensures { came lines.new ≡ came lines.old }
{
    loop {
        match lines.next_of_client()? {
            NextLine::Nul => given.push(Bytes::from_static(b"\0"))?,
            NextLine::Line(line) => given.push(line)?,
            last => return Ok(last),
        }
    }
}

/// Takes all that stands in front of the client's stream when a piece comes.
fn client_step(
    lines: &mut Lines,
    piece: &[u8],
    given: &mut Vec<Bytes>,
) -> Result<NextLine, AllocError>
    requires { came lines.old + length piece.now < 2 ^ 64 }
    ensures { OnOk result (came lines.new ≡ came lines.old + length piece.now) }
{
    lines.push(piece)?;
    take_client(lines, given)
}

/// What a client's stream gives that comes in pieces of a size, up to BEGIN.
fn client_told(alloc: Global, stream: &[u8], size: usize) -> Result<Told, AllocError>
    requires { 0 < size }
{
    let mut lines = Lines::new(alloc);
    let mut given = Vec::new(alloc);
    let mut last = NextLine::Incomplete;
    let mut rest = stream;
    while !rest.is_empty() && !matches!(last, NextLine::Begin(_)) {
        let (piece, behind) = rest.split_at(size.min(rest.len()));
        rest = behind;
        last = client_step(&mut lines, piece, &mut given)?;
    }
    if let NextLine::Begin(line) = &last {
        given.push(line.clone()?)?;
    }
    let mut left = Vec::from_slice(alloc, lines.left()?.as_slice())?;
    left.extend_from_slice(rest)?;
    Ok((given, last, left))
}

/// Takes all that can be taken from the start of the bus's stream, while this many lines wait for their answer.
fn take_bus(
    lines: &mut Lines,
    unanswered: &mut u64,
    begun: bool,
    given: &mut Vec<Bytes>,
) -> Result<NextLine, AllocError>
    ensures { came lines.new ≡ came lines.old }
{
    loop {
        match lines.next_of_bus(*unanswered, begun)? {
            NextLine::Line(line) => {
                given.push(line)?;
                *unanswered = unanswered.saturating_sub(1);
            }
            last => return Ok(last),
        }
    }
}

/// Takes all that stands in front of the bus's stream when a piece comes.
fn bus_step(
    lines: &mut Lines,
    piece: &[u8],
    unanswered: &mut u64,
    begun: bool,
    given: &mut Vec<Bytes>,
) -> Result<NextLine, AllocError>
    requires { came lines.old + length piece.now < 2 ^ 64 }
    ensures { OnOk result (came lines.new ≡ came lines.old + length piece.now) }
{
    lines.push(piece)?;
    take_bus(lines, unanswered, begun, given)
}

/// What a bus's stream gives that comes in pieces of a size, if this many lines were asked for.
fn bus_told(
    alloc: Global,
    stream: &[u8],
    size: usize,
    asked: u64,
    begun: bool,
) -> Result<Told, AllocError>
    requires { 0 < size }
{
    let mut lines = Lines::new(alloc);
    let mut given = Vec::new(alloc);
    let mut last = NextLine::Incomplete;
    let mut unanswered = asked;
    let mut rest = stream;
    while !rest.is_empty() {
        let (piece, behind) = rest.split_at(size.min(rest.len()));
        rest = behind;
        last = bus_step(&mut lines, piece, &mut unanswered, begun, &mut given)?;
    }
    let left = Vec::from_slice(alloc, lines.left()?.as_slice())?;
    Ok((given, last, left))
}

/// The lines, each followed by a `|`, then the answer, and what is left.
fn told(alloc: Global, given: &Told) -> Result<String, AllocError> {
    let (lines, last, left) = given;
    let mut told = String::from_str(alloc, "[")?;
    for line in lines {
        add_text(&mut told, line.as_slice())?;
        told.push('|')?;
    }
    let (last, left) = (told_next(alloc, last)?, text_of(alloc, left)?);
    told.push_str(&format!(in alloc; "] {last} [{left}]")?)?;
    Ok(told)
}

fn told_next(alloc: Global, next: &NextLine) -> Result<String, AllocError> {
    match next {
        NextLine::Nul => String::from_str(alloc, "Nul"),
        NextLine::Line(_) => String::from_str(alloc, "Line"),
        NextLine::Begin(_) => String::from_str(alloc, "Begin"),
        NextLine::Done => String::from_str(alloc, "Done"),
        NextLine::Incomplete => String::from_str(alloc, "Incomplete"),
        NextLine::Bad(fault) => format!(in alloc; "{:?} {}", fault.kind, fault.at),
    }
}

/// What is told of a stream in pieces of each size, which is to be the same.
fn same(alloc: Global, told: [String; 3]) -> Result<String, AllocError> {
    let [bytes, few, whole] = told;
    if bytes == whole && few == whole {
        return Ok(whole);
    }
    format!(in alloc; "{bytes}, {few}, {whole}")
}

fn client_in(alloc: Global, stream: &[u8], size: usize) -> Result<String, AllocError>
    requires { 0 < size }
{
    told(alloc, &client_told(alloc, stream, size)?)
}

fn told_client(alloc: Global, row: &str) -> Result<String, AllocError> {
    let stream = plain(alloc, row)?;
    let bytes = client_in(alloc, &stream, 1)?;
    let few = client_in(alloc, &stream, 3)?;
    same(alloc, [bytes, few, client_in(alloc, &stream, 100_000)?])
}

fn told_bus(alloc: Global, row: &str) -> Result<String, AllocError> {
    let (asked, row) = row.split_once(' ').unwrap_or((row, ""));
    let (begun, stream) = row.split_once(' ').unwrap_or((row, ""));
    let (asked, begun) = (asked.parse().unwrap_or(0), begun == "true");
    let stream = plain(alloc, stream)?;
    let bytes = bus_in(alloc, &stream, 1, asked, begun)?;
    let few = bus_in(alloc, &stream, 3, asked, begun)?;
    same(
        alloc,
        [bytes, few, bus_in(alloc, &stream, 100_000, asked, begun)?],
    )
}

fn bus_in(
    alloc: Global,
    stream: &[u8],
    size: usize,
    asked: u64,
    begun: bool,
) -> Result<String, AllocError>
    requires { 0 < size }
{
    told(alloc, &bus_told(alloc, stream, size, asked, begun)?)
}

/// A stream that ends in a line of that many bytes, its ending with them.
fn long_stream(alloc: Global, before: &str, len: usize) -> Result<Vec<u8>, AllocError> {
    let mut stream = plain(alloc, before)?;
    for _ in 2..len {
        stream.push(b'A')?;
    }
    stream.extend_from_slice(b"\r\n")?;
    Ok(stream)
}

fn told_long(alloc: Global, row: &str) -> Result<String, AllocError> {
    let (before, len) = row.split_once(' ').unwrap_or((row, ""));
    let stream = long_stream(alloc, before, len.parse().unwrap_or(0))?;
    let bytes = last_in(alloc, &stream, 1)?;
    let few = last_in(alloc, &stream, 3)?;
    same(alloc, [bytes, few, last_in(alloc, &stream, 100_000)?])
}

fn last_in(alloc: Global, stream: &[u8], size: usize) -> Result<String, AllocError>
    requires { 0 < size }
{
    told_last(alloc, &client_told(alloc, stream, size)?)
}

fn told_bus_long(alloc: Global, row: &str) -> Result<String, AllocError> {
    let (asked, row) = row.split_once(' ').unwrap_or((row, ""));
    let (before, len) = row.split_once(' ').unwrap_or((row, ""));
    let stream = long_stream(alloc, before, len.parse().unwrap_or(0))?;
    let asked = asked.parse().unwrap_or(0);
    let bytes = bus_last_in(alloc, &stream, 1, asked)?;
    let few = bus_last_in(alloc, &stream, 3, asked)?;
    same(
        alloc,
        [bytes, few, bus_last_in(alloc, &stream, 100_000, asked)?],
    )
}

fn bus_last_in(alloc: Global, stream: &[u8], size: usize, asked: u64) -> Result<String, AllocError>
    requires { 0 < size }
{
    told_last(alloc, &bus_told(alloc, stream, size, asked, false)?)
}

/// How many bytes the last line has, or the fault after it.
fn told_last(alloc: Global, given: &Told) -> Result<String, AllocError> {
    let (lines, last, _) = given;
    match (lines.last(), last) {
        (Some(line), NextLine::Incomplete) => format!(in alloc; "{}", line.len()),
        (_, last) => told_next(alloc, last),
    }
}

fn told_sent(alloc: Global, line: &str) -> Result<String, AllocError> {
    let line = Bytes::copy_from_slice(alloc, &plain(alloc, line)?)?;
    text_of(alloc, for_bus(alloc, &line)?.as_slice())
}

#[test]
fn what_follows_begin_in_its_line_is_not_sent(rt: HostRuntime) -> Result<(), Fail> {
    let mut line = Vec::from_slice(rt.alloc(), b"BEGIN ")?;
    for _ in 0..LONG_ARGUMENT {
        line.push(b'x')?;
    }
    line.extend_from_slice(b"\r\n")?;
    let line = Bytes::from_vec(line)?;
    assert_eq!(rt;
        for_bus(rt.alloc(), &line)?.as_slice(),
        b"BEGIN\r\n".as_slice()
    );
    Ok(())
}

#[test]
fn client_lines_are_cut(rt: HostRuntime) -> Result<(), Fail> {
    assert_eq!(rt; wrong_row(rt.alloc(), CLIENT, &told_client)?, None);
    assert_eq!(rt; wrong_row(rt.alloc(), LONG, &told_long)?, None);
    Ok(())
}

#[test]
fn bus_lines_are_cut(rt: HostRuntime) -> Result<(), Fail> {
    assert_eq!(rt; wrong_row(rt.alloc(), BUS, &told_bus)?, None);
    assert_eq!(rt; wrong_row(rt.alloc(), BUS_LONG, &told_bus_long)?, None);
    Ok(())
}

#[test]
fn descriptors_are_not_asked_for(rt: HostRuntime) -> Result<(), Fail> {
    assert_eq!(rt; wrong_row(rt.alloc(), SENT, &told_sent)?, None);
    Ok(())
}

/// The answers if a line comes from the bus before it was asked for, what was left then, and how much is left.
fn told_early(alloc: Global) -> Result<String, AllocError> {
    let mut lines = Lines::new(alloc);
    let mut told = String::new(alloc);
    add_answer(&mut told, alloc, &mut lines, 0, false)?;
    lines.push(b"OK\r\n")?;
    for (unanswered, begun) in [(0, false), (1, false), (0, true)] {
        add_answer(&mut told, alloc, &mut lines, unanswered, begun)?;
    }
    add_left(&mut told, alloc, &mut lines)?;
    Ok(told)
}

fn add_answer(
    told: &mut String,
    alloc: Global,
    lines: &mut Lines,
    unanswered: u64,
    begun: bool,
) -> Result<(), AllocError>
    ensures { came lines.new ≡ came lines.old }
{
    let next = lines.next_of_bus(unanswered, begun)?;
    told.push_str(&told_next(alloc, &next)?)?;
    told.push_str(", ")
}

fn add_left(told: &mut String, alloc: Global, lines: &mut Lines) -> Result<(), AllocError> {
    let before = lines.len();
    let left = text_of(alloc, lines.left()?.as_slice())?;
    told.push_str(&format!(in alloc; "{before} {left} {}", lines.len())?)
}

#[test]
fn an_early_byte_is_told_again(rt: HostRuntime) -> Result<(), Fail> {
    let expected = "Incomplete, EarlyBus 0, EarlyBus 0, EarlyBus 0, 4 OK%0D%0A 0";
    assert_eq!(rt; told_early(rt.alloc())?.as_str(), expected);
    Ok(())
}
