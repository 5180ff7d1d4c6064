//! The bytes of what tables name: D-Bus messages in little order, the program's own messages, and other bytes.
//!
//! A message has its kind, its serial and its header fields in ascending order of their codes, and after ` | ` the
//! signature and the values of its body, which spaces part. If nothing follows, it has neither a SIGNATURE nor a
//! body.
use crate::values::{add_number, add_string, add_values, length, number, pad_to_eight};
use std::alloc::{AllocError, Global};
use test_tables::plain;

/// The ping that goes to the bus in place of a refused call, with serial 2.
const PING: &[u8] = b"l\x01\0\x01\0\0\0\0\x02\0\0\0\x65\0\0\0\
\x01\x01o\0\x01\0\0\0/\0\0\0\0\0\0\0\
\x02\x01s\0\x19\0\0\0org.freedesktop.DBus.Peer\0\0\0\0\0\0\0\
\x03\x01s\0\x04\0\0\0Ping\0\0\0\0\
\x06\x01s\0\x14\0\0\0org.freedesktop.DBus\0\0\0\0";

/// The proxy's own call of AddMatch up to its body.
const ADD_MATCH: &[u8] = b"l\x01\0\x01\0\0\0\0\x02\0\0\0\x7f\0\0\0\
\x01\x01o\0\x15\0\0\0/org/freedesktop/DBus\0\0\0\
\x02\x01s\0\x14\0\0\0org.freedesktop.DBus\0\0\0\0\
\x03\x01s\0\x08\0\0\0AddMatch\0\0\0\0\0\0\0\0\
\x06\x01s\0\x14\0\0\0org.freedesktop.DBus\0\0\0\0\
\x08\x01g\0\x01s\0\0";

/// What the proxy asks for by AddMatch, up to the pair that names the name.
const OWNER_CHANGES: &str = "type='signal',sender='org.freedesktop.DBus',\
interface='org.freedesktop.DBus',member='NameOwnerChanged',";

/// The proxy's own call of GetNameOwner up to its body.
const GET_NAME_OWNER: &[u8] = b"l\x01\0\x01\0\0\0\0\x03\0\0\0\x7f\0\0\0\
\x01\x01o\0\x15\0\0\0/org/freedesktop/DBus\0\0\0\
\x02\x01s\0\x14\0\0\0org.freedesktop.DBus\0\0\0\0\
\x03\x01s\0\x0c\0\0\0GetNameOwner\0\0\0\0\
\x06\x01s\0\x14\0\0\0org.freedesktop.DBus\0\0\0\0\
\x08\x01g\0\x01s\0\0";

/// The proxy's own call of ListNames, with serial 3.
const LIST_NAMES: &[u8] = b"l\x01\0\x01\0\0\0\0\x03\0\0\0\x75\0\0\0\
\x01\x01o\0\x15\0\0\0/org/freedesktop/DBus\0\0\0\
\x02\x01s\0\x14\0\0\0org.freedesktop.DBus\0\0\0\0\
\x03\x01s\0\x09\0\0\0ListNames\0\0\0\0\0\0\0\
\x06\x01s\0\x14\0\0\0org.freedesktop.DBus\0\0\0\0";

/// The error that says that a service is unknown, with serial 101 and reply serial 10.
const SERVICE_UNKNOWN: &[u8] = b"l\x03\x01\x01\x14\0\0\0\x65\0\0\0\x67\0\0\0\
\x04\x01s\0\x29\0\0\0org.freedesktop.DBus.Error.ServiceUnknown\0\0\0\0\0\0\0\
\x05\x01u\0\x0a\0\0\0\
\x07\x01s\0\x14\0\0\0org.freedesktop.DBus\0\0\0\0\
\x08\x01g\0\x01s\0\0\
\x0f\0\0\0service unknown\0";

/// The error that says that a name has no owner, with serial 102 and reply serial 11.
const NAME_HAS_NO_OWNER: &[u8] = b"l\x03\x01\x01\x16\0\0\0\x66\0\0\0\x67\0\0\0\
\x04\x01s\0\x29\0\0\0org.freedesktop.DBus.Error.NameHasNoOwner\0\0\0\0\0\0\0\
\x05\x01u\0\x0b\0\0\0\
\x07\x01s\0\x14\0\0\0org.freedesktop.DBus\0\0\0\0\
\x08\x01g\0\x01s\0\0\
\x11\0\0\0name has no owner\0";

/// The error that says that access is denied, with serial 101 and reply serial 10.
const ACCESS_DENIED: &[u8] = b"l\x03\x01\x01\x1c\0\0\0\x65\0\0\0\x5f\0\0\0\
\x04\x01s\0\x27\0\0\0org.freedesktop.DBus.Error.AccessDenied\0\
\x05\x01u\0\x0a\0\0\0\
\x07\x01s\0\x14\0\0\0org.freedesktop.DBus\0\0\0\0\
\x08\x01g\0\x01s\0\0\
\x17\0\0\0access denied by policy\0";

/// The return that says that a name has no owner, with serial 70 and reply serial 3.
const FALSE: &[u8] = b"l\x02\x01\x01\x04\0\0\0\x46\0\0\0\x2f\0\0\0\
\x05\x01u\0\x03\0\0\0\
\x07\x01s\0\x14\0\0\0org.freedesktop.DBus\0\0\0\0\
\x08\x01g\0\x01b\0\0\
\0\0\0\0";

/// The bytes that a text names: `bytes` with those that follow, as `plain` has them; the proxy's own calls with a
/// serial, `ping`, `add_match` with a pattern, `get_owner` with a name, `list_names`; its answers in place with a
/// serial and a reply serial, `unknown`, `no_owner`, `denied`, `false`; or a message.
pub fn named(alloc: Global, text: &str) -> Result<Vec<u8>, AllocError> {
    let (kind, rest) = text.split_once(' ').unwrap_or((text, ""));
    match kind {
        "bytes" => plain(alloc, rest),
        "ping" => numbered(alloc, PING, rest, 8),
        "add_match" => add_match(alloc, rest),
        "get_owner" => get_owner(alloc, rest),
        "list_names" => numbered(alloc, LIST_NAMES, rest, 8),
        "unknown" => numbered(alloc, SERVICE_UNKNOWN, rest, 76),
        "no_owner" => numbered(alloc, NAME_HAS_NO_OWNER, rest, 76),
        "denied" => numbered(alloc, ACCESS_DENIED, rest, 68),
        "false" => numbered(alloc, FALSE, rest, 20),
        _ => message_of_bus(alloc, kind, rest),
    }
}

/// The short forms of messages to and from the bus: `bus` is a call to it with a serial and a member, `ret` its return
/// to `:1.40` with a serial and a reply serial, and `owner_change` its signal with a serial, a name, its old owner and
/// its new one. Any other message is written in full.
fn message_of_bus(alloc: Global, kind: &str, text: &str) -> Result<Vec<u8>, AllocError> {
    match kind {
        "bus" => bus_call(alloc, text),
        "ret" => bus_return(alloc, text),
        "owner_change" => owner_change(alloc, text),
        _ => message(alloc, kind_and_flags(kind), text),
    }
}

/// The type and the flags of a kind of message.
fn kind_and_flags(kind: &str) -> [u8; 2] {
    match kind {
        "call" => [1, 0],
        "call_without_reply" => [1, 1],
        "call_without_start" => [1, 2],
        "return" => [2, 1],
        "error" => [3, 1],
        "signal" => [4, 0],
        "type_9" => [9, 0],
        _ => [0, 0],
    }
}

fn bus_call(alloc: Global, text: &str) -> Result<Vec<u8>, AllocError> {
    let (serial, rest) = text.split_once(' ').unwrap_or((text, ""));
    let (member, body) = rest.split_once(" | ").unwrap_or((rest, ""));
    let text = format!(in alloc;
        "{serial} path=/org/freedesktop/DBus interface=org.freedesktop.DBus member={member} destination=org.freedesktop.DBus | {body}"
    )?;
    message(alloc, [1, 0], &text)
}

fn bus_return(alloc: Global, text: &str) -> Result<Vec<u8>, AllocError> {
    let (serial, rest) = text.split_once(' ').unwrap_or((text, ""));
    let (reply, body) = rest.split_once(" | ").unwrap_or((rest, ""));
    let text = format!(in alloc;
        "{serial} reply={reply} destination=:1.40 sender=org.freedesktop.DBus | {body}"
    )?;
    message(alloc, [2, 1], &text)
}

fn owner_change(alloc: Global, text: &str) -> Result<Vec<u8>, AllocError> {
    let (serial, names) = text.split_once(' ').unwrap_or((text, ""));
    let text = format!(in alloc;
        "{serial} path=/org/freedesktop/DBus interface=org.freedesktop.DBus member=NameOwnerChanged sender=org.freedesktop.DBus | sss {names}"
    )?;
    message(alloc, [4, 0], &text)
}

fn add_match(alloc: Global, text: &str) -> Result<Vec<u8>, AllocError> {
    let (serial, pattern) = text.split_once(' ').unwrap_or((text, ""));
    let rule = match pattern.strip_suffix(".*") {
        Some(name) => format!(in alloc; "{OWNER_CHANGES}arg0namespace='{name}'")?,
        None => format!(in alloc; "{OWNER_CHANGES}arg0='{pattern}'")?,
    };
    own_call(alloc, ADD_MATCH, serial, &rule)
}

fn get_owner(alloc: Global, text: &str) -> Result<Vec<u8>, AllocError> {
    let (serial, name) = text.split_once(' ').unwrap_or((text, ""));
    own_call(alloc, GET_NAME_OWNER, serial, name)
}

/// An own call with another serial and a text for its body.
fn own_call(alloc: Global, head: &[u8], serial: &str, text: &str) -> Result<Vec<u8>, AllocError> {
    let mut body = Vec::new(alloc);
    add_string(&mut body, text)?;
    let mut bytes = Vec::from_slice(alloc, head)?;
    put(&mut bytes, 4, length(&body));
    put(&mut bytes, 8, number(serial));
    bytes.extend_from_slice(&body)?;
    Ok(bytes)
}

/// A message with another serial, and with another number at a place.
fn numbered(
    alloc: Global,
    message: &[u8],
    numbers: &str,
    place: usize,
) -> Result<Vec<u8>, AllocError> {
    let (serial, other) = numbers.split_once(' ').unwrap_or((numbers, numbers));
    let mut bytes = Vec::from_slice(alloc, message)?;
    put(&mut bytes, place, number(other));
    put(&mut bytes, 8, number(serial));
    Ok(bytes)
}

/// Puts four bytes at a place.
fn put(bytes: &mut [u8], place: usize, number: [u8; 4]) {
    for (index, byte) in number.into_iter().enumerate() {
        if let Some(old) = bytes.get_mut(place.saturating_add(index)) {
            *old = byte;
        }
    }
}

/// A message of a type and with flags.
fn message(alloc: Global, [kind, flags]: [u8; 2], text: &str) -> Result<Vec<u8>, AllocError> {
    let (head, contents) = text.split_once(" | ").unwrap_or((text, ""));
    let (serial, fields) = head.split_once(' ').unwrap_or((head, ""));
    let (signature, values) = contents.split_once(' ').unwrap_or((contents, ""));
    let fields = header_fields(alloc, fields, signature)?;
    let body = body(alloc, signature, values)?;
    let mut bytes = Vec::from_slice(alloc, &[b'l', kind, flags, 1])?;
    for number in [length(&body), number(serial), length(&fields)] {
        bytes.extend_from_slice(&number)?;
    }
    bytes.extend_from_slice(&fields)?;
    pad_to_eight(&mut bytes)?;
    bytes.extend_from_slice(&body)?;
    Ok(bytes)
}

fn body(alloc: Global, signature: &str, values: &str) -> Result<Vec<u8>, AllocError> {
    let mut body = Vec::new(alloc);
    if !signature.is_empty() {
        add_values(alloc, &mut body, signature, values)?;
    }
    Ok(body)
}

fn header_fields(alloc: Global, text: &str, signature: &str) -> Result<Vec<u8>, AllocError> {
    let mut fields = Vec::new(alloc);
    for field in text.split(' ') {
        let (name, value) = field.split_once('=').unwrap_or((field, ""));
        pad_to_eight(&mut fields)?;
        add_field(&mut fields, name, value)?;
    }
    if !signature.is_empty() {
        pad_to_eight(&mut fields)?;
        add_signature(&mut fields, signature)?;
    }
    Ok(fields)
}

/// Adds a header field. Another one than these makes a message that is malformed.
fn add_field(fields: &mut Vec<u8>, name: &str, value: &str) -> Result<(), AllocError> {
    match name {
        "path" => add_text(fields, [1, 1, b'o', 0], value),
        "interface" => add_text(fields, [2, 1, b's', 0], value),
        "member" => add_text(fields, [3, 1, b's', 0], value),
        "error_name" => add_text(fields, [4, 1, b's', 0], value),
        "reply" => add_reply_serial(fields, value),
        "destination" => add_text(fields, [6, 1, b's', 0], value),
        "sender" => add_text(fields, [7, 1, b's', 0], value),
        "unknown" => add_text(fields, [10, 1, b'o', 0], value),
        _ => add_text(fields, [0, 1, b's', 0], value),
    }
}

/// Adds the code and the type of a header field, and its text.
fn add_text(fields: &mut Vec<u8>, head: [u8; 4], text: &str) -> Result<(), AllocError> {
    fields.extend_from_slice(&head)?;
    add_string(fields, text)
}

fn add_reply_serial(fields: &mut Vec<u8>, value: &str) -> Result<(), AllocError> {
    fields.extend_from_slice(&[5, 1, b'u', 0])?;
    add_number(fields, value)
}

fn add_signature(fields: &mut Vec<u8>, signature: &str) -> Result<(), AllocError> {
    let [length, ..] = signature.len().to_le_bytes();
    fields.extend_from_slice(&[8, 1, b'g', 0, length])?;
    fields.extend_from_slice(signature.as_bytes())?;
    fields.push(0)?;
    Ok(())
}
