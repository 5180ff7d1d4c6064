//! Messages that tables name, changed as they say, and other bytes.
ghost use Rattle.std.specs.Prelude.{◌≡◌, ◌≤◌, ◌<◌, None, IsTrue, length};
ghost use Rattle.dbus_header.specs.Malformed.{head_fault, whole_len};

use dbus_header::length as message_length;
use std::alloc::{AllocError, Global};

/// A call to org.a.T, with serial 7.
const CALL: &[u8] =
    b"l\x01\x00\x01\x00\x00\x00\x00\x07\x00\x00\x00@\x00\x00\x00\x01\x01o\x00\x02\x00\x00\x00/p\x00\x00\x00\x00\x00\
        \x00\x02\x01s\x00\x07\x00\x00\x00org.a.I\x00\x03\x01s\x00\x01\x00\x00\x00A\x00\x00\x00\x00\x00\x00\x00\x06\
        \x01s\x00\x07\x00\x00\x00org.a.T\x00";

/// A return to :1.40 with serial 60, the answer to serial 2.
const RETURN: &[u8] =
    b"l\x02\x01\x01\x00\x00\x00\x00<\x00\x00\x00%\x00\x00\x00\x05\x01u\x00\x02\x00\x00\x00\x06\x01s\x00\x05\x00\x00\x00:1.40\x00\x00\x00\x07\x01s\x00\x04\x00\x00\x00:1.7\x00\x00\x00\x00";

/// A call to a.b in big-endian order, with serial 0x01020304.
const BIG_CALL: &[u8] =
    b"B\x01\x00\x01\x00\x00\x00\x00\x01\x02\x03\x04\x00\x00\x00,\x01\x01o\x00\x00\x00\x00\x01/\x00\x00\x00\x00\x00\
        \x00\x00\x03\x01s\x00\x00\x00\x00\x01M\x00\x00\x00\x00\x00\x00\x00\x06\x01s\x00\x00\x00\x00\x03a.b\x00\x00\
        \x00\x00\x00";

/// A return with the boolean true, the answer to serial 2.
const BOOLEAN: &[u8] =
    b"l\x02\x01\x01\x04\x00\x00\x00\x09\x00\x00\x00\x0f\x00\x00\x00\x05\x01u\x00\x02\x00\x00\x00\x08\x01g\x00\x01b\x00\x00\x01\x00\x00\x00";

/// The boolean return in big-endian order.
const BIG_BOOLEAN: &[u8] =
    b"B\x02\x01\x01\x00\x00\x00\x04\x00\x00\x00\x09\x00\x00\x00\x0f\x05\x01u\x00\x00\x00\x00\x02\x08\x01g\x00\x01b\x00\x00\x00\x00\x00\x01";

/// A return without a body that states that it has no descriptors.
const DESCRIPTORS: &[u8] =
    b"l\x02\x01\x01\x00\x00\x00\x00\x09\x00\x00\x00\x10\x00\x00\x00\x05\x01u\x00\x02\x00\x00\x00\x09\x01u\x00\x00\x00\x00\x00";

/// That return in big-endian order.
const BIG_DESCRIPTORS: &[u8] =
    b"B\x02\x01\x01\x00\x00\x00\x00\x00\x00\x00\x09\x00\x00\x00\x10\x05\x01u\x00\x00\x00\x00\x02\x09\x01u\x00\x00\x00\x00\x00";

/// A return with an empty array of 64-bit numbers, whose padding ends at place 64.
const EMPTY_ARRAY: &[u8] =
    b"l\x02\x01\x01\x08\x00\x00\x00\x09\x00\x00\x00\x2d\x00\x00\x00\x05\x01u\x00\x02\x00\x00\x00\x08\x01g\x00\x02at\
        \x00\x06\x01s\x00\x05\x00\x00\x00:1.40\x00\x00\x00\x07\x01s\x00\x04\x00\x00\x00:1.7\x00\x00\x00\x00\x00\x00\
        \x00\x00\x00\x00\x00\x00";

/// A head of protocol version 2.
const NEWER: &[u8] = b"l\x01\x00\x02\x00\x00\x00\x00\x07\x00\x00\x00\x00\x00\x00\x00";

/// A head whose serial is 0.
const UNNUMBERED: &[u8] = b"l\x02\x00\x01\x00\x00\x00\x00\x00\x00\x00\x00\x00\x00\x00\x00";

/// A return whose body has a byte, with no SIGNATURE.
const STRAY: &[u8] =
    b"l\x02\x01\x01\x01\x00\x00\x00<\x00\x00\x00\x08\x00\x00\x00\x05\x01u\x00\x02\x00\x00\x00\x00";

/// The first bytes of a call whose body has an array of bytes. It states no body.
const ARRAY_CALL: &[u8] =
    b"l\x01\x00\x01\x00\x00\x00\x00\x07\x00\x00\x00\x28\x00\x00\x00\x01\x01o\x00\x02\x00\x00\x00/p\x00\x00\x00\x00\
        \x00\x00\x03\x01s\x00\x01\x00\x00\x00A\x00\x00\x00\x00\x00\x00\x00\x08\x01g\x00\x02ay\x00";

/// That call with the longest body that it may state: with it the message would have 128 MiB.
const LONGEST: &[u8] =
    b"l\x01\x00\x01\xc8\xff\xff\x07\x07\x00\x00\x00\x28\x00\x00\x00\x01\x01o\x00\x02\x00\x00\x00/p\x00\x00\x00\x00\
        \x00\x00\x03\x01s\x00\x01\x00\x00\x00A\x00\x00\x00\x00\x00\x00\x00\x08\x01g\x00\x02ay\x00";

/// The message of a name.
pub fn bytes_of(name: &str) -> &'static [u8] {
    match name {
        "call" => CALL,
        "return" => RETURN,
        "big_call" => BIG_CALL,
        "boolean" => BOOLEAN,
        "big_boolean" => BIG_BOOLEAN,
        "descriptors" => DESCRIPTORS,
        "big_descriptors" => BIG_DESCRIPTORS,
        "empty_array" => EMPTY_ARRAY,
        "newer" => NEWER,
        "unnumbered" => UNNUMBERED,
        "stray" => STRAY,
        "longest" => LONGEST,
        _ => b"",
    }
}

/// The message with a name, with the changes that follow the name, separated by spaces: `PLACE=BYTE` puts a byte, a
/// number or a letter, at a place, and `cut=LENGTH` leaves this number of bytes.
pub fn changed(alloc: Global, row: &str) -> Result<Vec<u8>, AllocError> {
    let (name, changes) = row.split_once(' ').unwrap_or((row, ""));
    let mut bytes = Vec::from_slice(alloc, bytes_of(name))?;
    for change in changes.split(' ') {
        match change.split_once('=') {
            Some(("cut", len)) => bytes.truncate(len.parse().unwrap_or(0)),
            Some((place, byte)) => put(&mut bytes, place, byte),
            None => (),
        }
    }
    Ok(bytes)
}

/// A call with an array of this many bytes.
pub fn long_call(alloc: Global, len: u32) -> Result<Vec<u8>, AllocError> {
    let mut bytes = Vec::from_slice(alloc, ARRAY_CALL)?;
    bytes.extend_from_slice(&len.to_le_bytes())?;
    bytes[4..8].copy_from_slice(&len.saturating_add(4).to_le_bytes());
    for at in 0..len {
        bytes.push((at % 251) as u8)?;
    }
    Ok(bytes)
}

/// A call with a path of 600 bytes.
pub fn deep_call(alloc: Global) -> Result<Vec<u8>, AllocError> {
    let mut bytes = Vec::from_slice(
        alloc,
        b"l\x01\x00\x01\x00\x00\x00\x00\x07\x00\x00\x00\x72\x02\x00\x00\x01\x01o\x00\x58\x02\x00\x00/",
    )?;
    for _ in 0..599 {
        bytes.push(b'a')?;
    }
    bytes.extend_from_slice(b"\x00\x00\x00\x00\x00\x00\x00\x00\x03\x01s\x00\x01\x00\x00\x00A\x00")?;
    bytes.extend_from_slice(&[0; 6])?;
    Ok(bytes)
}

fn put(bytes: &mut [u8], place: &str, byte: &str) {
    if let Some(old) = bytes.get_mut(place.parse().unwrap_or(usize::MAX)) {
        *old = match byte.as_bytes() {
            [letter] if !letter.is_ascii_digit() => *letter,
            _ => byte.parse().unwrap_or(0),
        };
    }
}

/// Whether the bytes have the length that they state, if they state one.
pub fn is_whole(bytes: &[u8]) -> bool
    ensures long { IsTrue result → 16 ≤ length bytes.now }
    ensures whole { IsTrue result → head_fault bytes.now ≡ None → length bytes.now ≡ whole_len bytes.now }
{
    match bytes.first_chunk::<16>() {
        None => false,
        Some(head) => match message_length(head) {
            Ok(len) => len as usize == bytes.len(),
            Err(_) => false,
        },
    }
}
