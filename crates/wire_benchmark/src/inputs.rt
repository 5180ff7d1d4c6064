//! What is measured: two bodies and a message, each of which stands twice.
use std::alloc::{AllocError, Global};

/// Five entries of an `a{sv}`, as a portal's options have them: a string, a number, a boolean, bytes and strings.
static FIVE_ENTRIES: &[u8] = b"\
    \x0c\0\0\0handle_token\0\x01s\0\x10\0\0\0portal2384762398\0\0\0\0\0\0\0\0\
    \x07\0\0\0version\0\x01u\0\0\x05\0\0\0\0\0\0\0\
    \x05\0\0\0modal\0\x01b\0\0\0\0\x01\0\0\0\0\0\0\0\
    \x0e\0\0\0current_folder\0\x02ay\0\0 \0\0\0/home/someone/Documents/Letters\0\0\0\0\0\
    \x0c\0\0\0accept_types\0\x02as\0\0\0\04\0\0\0\x0a\0\0\0text/plain\0\0\x09\0\0\0image/png\0\0\0\x0f\0\0\0application/pdf\0";

/// A call with five header fields and a short body.
static CALL: &[u8] = b"\
    l\x01\0\x01,\0\0\0\x07\0\0\0\x95\0\0\0\
    \x01\x01o\0\x1f\0\0\0/org/freedesktop/portal/desktop\0\
    \x02\x01s\0\x1f\0\0\0org.freedesktop.portal.Settings\0\
    \x03\x01s\0\x07\0\0\0ReadAll\0\
    \x06\x01s\0\x1e\0\0\0org.freedesktop.portal.Desktop\0\0\
    \x08\x01g\0\x07ssa{sv}\0\0\0\0\
    \x05\0\0\0:1.42\0\0\0\0\0\0\0\0\0\0\0\x14\0\0\0\
    \x07\0\0\0version\0\x01u\0\0\x02\0\0\0";

/// A return to a call, which has a short body.
static RETURN: &[u8] = b"\
    l\x02\x01\x01\x09\0\0\0\x07\0\0\0\x2f\0\0\0\
    \x05\x01u\0\x06\0\0\0\
    \x06\x01s\0\x05\0\0\0:1.42\0\0\0\
    \x07\x01s\0\x04\0\0\0:1.7\0\0\0\0\
    \x08\x01g\0\x01s\0\0\
    \x04\0\0\0yes.\0";

/// Where the first byte of the call's member and of the return's reply serial stand.
const MEMBER: usize = 104;

const REPLY_SERIAL: usize = 20;

/// How many entries the dictionary has, in fives.
const FIVES: u32 = 10;

/// How many bytes they have.
const ENTRIES_LEN: u32 = 2400;

/// Where the serial of the second call stands.
const SECOND_SERIAL: usize = 220;

/// How many bytes the array of bytes has.
const MANY: u32 = 1_048_576;

/// A body `a{sv}` of fifty entries, twice.
pub(crate) fn dictionaries(alloc: Global) -> Result<Vec<u8>, AllocError> {
    let mut bytes = Vec::new(alloc);
    for _ in 0..2 {
        bytes.extend_from_slice(&ENTRIES_LEN.to_le_bytes())?;
        bytes.extend_from_slice(&[0; 4])?;
        for _ in 0..FIVES {
            bytes.extend_from_slice(FIVE_ENTRIES)?;
        }
    }
    Ok(bytes)
}

/// A body `ay` of a mebibyte, twice.
pub(crate) fn byte_arrays(alloc: Global) -> Result<Vec<u8>, AllocError> {
    let mut bytes = Vec::new(alloc);
    for _ in 0..2 {
        bytes.extend_from_slice(&MANY.to_le_bytes())?;
        for index in 0..MANY {
            bytes.push((index % 251) as u8)?;
        }
    }
    Ok(bytes)
}

/// A method call with the serial 7, and the same with the serial 8.
pub(crate) fn calls(alloc: Global) -> Result<Vec<u8>, AllocError> {
    let mut bytes = Vec::new(alloc);
    bytes.extend_from_slice(CALL)?;
    bytes.extend_from_slice(CALL)?;
    for (index, byte) in bytes.iter_mut().enumerate() {
        if index == SECOND_SERIAL {
            *byte = 8;
        }
    }
    Ok(bytes)
}

/// Adds a message with another byte at a place.
fn add(bytes: &mut Vec<u8>, message: &[u8], place: usize, other: u8) -> Result<(), AllocError> {
    for (index, byte) in message.iter().enumerate() {
        bytes.push(if index == place { other } else { *byte })?;
    }
    Ok(())
}

/// Calls of five members in turn.
pub(crate) fn members(alloc: Global) -> Result<Vec<u8>, AllocError> {
    let mut bytes = Vec::new(alloc);
    for letter in b"ABCDE" {
        add(&mut bytes, CALL, MEMBER, *letter)?;
    }
    Ok(bytes)
}

/// Five calls, each with its return.
pub(crate) fn replies(alloc: Global) -> Result<Vec<u8>, AllocError> {
    let mut bytes = Vec::new(alloc);
    for serial in b"\x01\x02\x03\x04\x05" {
        bytes.extend_from_slice(CALL)?;
        add(&mut bytes, RETURN, REPLY_SERIAL, *serial)?;
    }
    Ok(bytes)
}
