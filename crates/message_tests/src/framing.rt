//! The messages of streams that come in pieces.
ghost use Rattle.std.specs.Prelude.{◌≡◌, ◌<◌, ◌≤◌, [], OnOk, length};

use crate::messages::{changed, long_call};
use bytes::Bytes;
use dbus_framing::{Framer, Front, Messages, Next};
use dbus_header::{KnownTexts, Places};
use std::alloc::{AllocError, Global};
use std::mem;
use std::test::Fail;
use test_tables::wrong_row;

/// The size of the pieces of a stream and the messages in it; and the length of each message that is taken of it, and
/// what follows them. The number of a long call is the length of its body.
const STREAMS: &str = "\
1, call, return => 80 56 Incomplete
1000, call, return, call cut=40 => 80 56 Incomplete
100, call, call, return => 80 80 56 Incomplete
15, call cut=15 => Incomplete
4, newer cut=15 => Incomplete
4, newer => Version 3
16, newer, call => Version 3
7, call, unnumbered => 80 Serial 8
200, stray, call => Body 24
65536, call, long 200000, return => 80 200060 56 Incomplete
65536, long 70000, call, long 70000, return => 70060 80 70060 56 Incomplete
300, call, call, long 100000, call => 80 80 100060 80 Incomplete
5000, return, long 65476, long 65475, call cut=79 => 56 65536 65535 Incomplete
40000, long 100000, newer, call => 100060 Version 3
20, longest => Incomplete
65536, call, longest => 80 Incomplete
100, call, longest => 80 Incomplete
";

fn stream_of(alloc: Global, messages: &str) -> Result<Vec<u8>, AllocError> {
    let mut stream = Vec::new(alloc);
    for message in messages.split(", ") {
        match message.split_once(' ') {
            Some(("long", len)) => {
                stream.extend_from_slice(&long_call(alloc, len.parse().unwrap_or(0))?)?;
            }
            _ => stream.extend_from_slice(&changed(alloc, message)?)?,
        }
    }
    Ok(stream)
}

/// The first message, whose bytes are shared if they can be.
fn shared_next(framer: &mut Framer, known: &mut KnownTexts) -> Result<Next, AllocError> {
    if let Front::Whole(len) = framer.front() {
        if let Some(frame) = framer.shared(len) {
            if let Err(fault) = framer.message(len, known, &mut Places::none()) {
                return Ok(Next::Bad(fault));
            }
            framer.take(len);
            return Ok(Next::Whole(frame));
        }
    }
    framer.next()
}

/// The messages of a piece: read in place if nothing was left of the stream, or of the framer to which it is pushed.
fn with_piece<'a>(
    alloc: Global,
    framer: &mut Framer,
    piece: &'a [u8],
) -> Result<Messages<'a>, AllocError>
    ensures { OnOk result (framer.new ≡ []) }
{
    if framer.is_empty() {
        return Messages::passing(framer, piece);
    }
    framer.push(piece)?;
    Ok(Messages::kept(mem::replace(framer, Framer::new(alloc))))
}

/// The first message, read where it lies.
fn next_in_place(
    alloc: Global,
    messages: &mut Messages<'_>,
    known: &mut KnownTexts,
) -> Result<Next, AllocError> {
    let len = match messages.front() {
        Front::Whole(len) => len,
        Front::Incomplete => return Ok(Next::Incomplete),
        Front::Bad(fault) => return Ok(Next::Bad(fault)),
    };
    let mut places = Places::none();
    if let Err(fault) = messages.check(len, known, &mut places) {
        return Ok(Next::Bad(fault));
    }
    let frame = Bytes::copy_from_slice(alloc, messages.checked(len, &places).bytes)?;
    messages.take(len);
    Ok(Next::Whole(frame))
}

/// What is taken of a stream: its messages, what follows them, and what is left.
type Taken = (Vec<Bytes>, Next, Bytes);

/// The messages of a stream that comes in pieces of this size, which are read in place if nothing was left before them.
fn taken_in_place(alloc: Global, stream: &[u8], size: usize) -> Result<Taken, AllocError>
    requires { 0 < size }
{
    let mut framer = Framer::new(alloc);
    let mut known = KnownTexts::new(alloc);
    let mut frames = Vec::new(alloc);
    let mut last = Next::Incomplete;
    for piece in stream.chunks(size) {
        let mut messages = with_piece(alloc, &mut framer, piece)?;
        for _ in 0..3 {
            match next_in_place(alloc, &mut messages, &mut known)? {
                Next::Whole(frame) => frames.push(frame)?,
                other => last = other,
            }
        }
        messages.put_back(&mut framer);
    }
    Ok((frames, last, framer.left()?))
}

/// The messages of a stream that is pushed in pieces of this size, what follows them, and what is left of the stream.
fn taken(alloc: Global, stream: &[u8], size: usize, shares: bool) -> Result<Taken, AllocError>
    requires { 0 < size }
{
    let mut framer = Framer::new(alloc);
    let mut known = KnownTexts::new(alloc);
    let mut frames = Vec::new(alloc);
    let mut last = Next::Incomplete;
    for piece in stream.chunks(size) {
        framer.push(piece)?;
        for _ in 0..3 {
            let next = if shares {
                shared_next(&mut framer, &mut known)?
            } else {
                framer.next()?
            };
            match next {
                Next::Whole(frame) => frames.push(frame)?,
                other => last = other,
            }
        }
    }
    let mut again = Framer::with_bytes(alloc, framer.left()?)?;
    Ok((frames, last, again.left()?))
}

/// The length of each message, if the messages and what is left are the stream.
fn told_frames(
    alloc: Global,
    stream: &[u8],
    frames: &[Bytes],
    left: &Bytes,
) -> Result<String, AllocError> {
    let mut told = String::new(alloc);
    let mut all = Vec::new(alloc);
    for frame in frames {
        all.extend_from_slice(frame.as_slice())?;
        told.push_str(&format!(in alloc; "{} ", frame.len())?)?;
    }
    all.extend_from_slice(left.as_slice())?;
    if all.as_slice() != stream {
        told.push_str("of other bytes ")?;
    }
    Ok(told)
}

fn told_next(alloc: Global, next: &Next) -> Result<String, AllocError> {
    match next {
        Next::Whole(_) => String::from_str(alloc, "Whole"),
        Next::Incomplete => String::from_str(alloc, "Incomplete"),
        Next::Bad(fault) => format!(in alloc; "{:?} {}", fault.kind, fault.at),
    }
}

/// How the messages of a stream are taken.
#[derive(Clone, Copy)]
enum How {
    /// Each is copied.
    Copied,
    /// The bytes of each are shared if they can be.
    Shared,
    /// Each is read where it lies.
    InPlace,
}

fn taken_so(alloc: Global, stream: &[u8], size: usize, how: How) -> Result<Taken, AllocError>
    requires { 0 < size }
{
    match how {
        How::Copied => taken(alloc, stream, size, false),
        How::Shared => taken(alloc, stream, size, true),
        How::InPlace => taken_in_place(alloc, stream, size),
    }
}

fn told_taken(alloc: Global, stream: &[u8], size: usize, how: How) -> Result<String, AllocError> {
    let (frames, next, left) = taken_so(alloc, stream, size.max(1), how)?;
    let (frames, next) = (
        told_frames(alloc, stream, &frames, &left)?,
        told_next(alloc, &next)?,
    );
    format!(in alloc; "{frames}{next}")
}

/// The result, if it is the same however the messages are taken.
fn told_stream(alloc: Global, row: &str) -> Result<String, AllocError> {
    let (size, messages) = row.split_once(", ").unwrap_or((row, ""));
    let stream = stream_of(alloc, messages)?;
    let size: usize = size.parse().unwrap_or(1);
    let copied = told_taken(alloc, &stream, size, How::Copied)?;
    let shared = told_taken(alloc, &stream, size, How::Shared)?;
    let in_place = told_taken(alloc, &stream, size, How::InPlace)?;
    if copied.as_str() != shared.as_str() || copied.as_str() != in_place.as_str() {
        return format!(in alloc; "{copied}, {shared} or {in_place}");
    }
    Ok(copied)
}

#[test]
fn messages_are_taken_from_pieces(rt: HostRuntime) -> Result<(), Fail> {
    assert_eq!(rt; wrong_row(rt.alloc(), STREAMS, &told_stream)?, None);
    Ok(())
}

/// A framer to which two pieces were pushed, the second after the first was shared up to its first bytes.
fn shared_and_pushed(
    alloc: Global,
    first: &[u8],
    len: usize,
    second: &[u8],
) -> Result<(Option<Bytes>, Bytes), AllocError>
    requires { len ≤ length first.now }
{
    let mut framer = Framer::new(alloc);
    framer.push(first)?;
    let shared = framer.shared(len);
    framer.push(second)?;
    Ok((shared, framer.left()?))
}

#[test]
fn long_messages_are_shared(rt: HostRuntime) -> Result<(), Fail> {
    let first = vec![in rt.alloc(); b'a'; 70_000]?;
    let (shared, left) = shared_and_pushed(rt.alloc(), &first, 65_536, b"bc")?;
    assert_eq!(rt; shared.map(|bytes| bytes.len()), Some(65_536));
    assert_eq!(rt;
        (left.len(), left.as_slice().ends_with(b"aabc")),
        (70_002, true)
    );
    let (shared, left) = shared_and_pushed(rt.alloc(), &first, 65_535, b"bc")?;
    assert_eq!(rt; (shared.is_none(), left.len()), (true, 70_002));
    Ok(())
}
