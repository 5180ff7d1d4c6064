//! Tables in which a name in braces stands for a longer text.
use crate::rows::wrong_row;
use crate::texts::{add_text, plain};
use std::alloc::{AllocError, Global};

/// Names, each with its text. In a text, `~` is a zero byte and `%` precedes the two hexadecimal digits of a byte.
pub type Names<'a> = &'a [(&'a str, &'a str)];

/// The texts of a session in which a client authenticates itself, calls org.a.T with serial 1, and is answered by :1.7;
/// the ping that is sent in place of its first call if that is refused; and a call to a.b in big-endian order.
pub const SESSION: &[(&str, &str)] = &[
    ("auth", "~AUTH EXTERNAL%0D%0A"),
    ("begin", "BEGIN%0D%0A"),
    ("ok", "OK 00112233445566778899aabbccddeeff%0D%0A"),
    (
        "call",
        "l%01~%01~~~~%01~~~@~~~%01%01o~%02~~~/p~~~~~~%02%01s~%07~~~org.a.I~%03%01s~%01~~~A~~~~~~~%06%01s~%07~~~org.a.T~",
    ),
    (
        "return",
        "l%02%01%01~~~~%09~~~%25~~~%05%01u~%01~~~%06%01s~%05~~~:1.40~~~%07%01s~%04~~~:1.7~~~~",
    ),
    (
        "ping",
        "l%01~%01~~~~%01~~~e~~~%01%01o~%01~~~/~~~~~~~%02%01s~%19~~~org.freedesktop.DBus.Peer~~~~~~~%03%01s~%04~~~Ping~~~~%06%01s~%14~~~org.freedesktop.DBus~~~~",
    ),
    (
        "big",
        "B%01~%01~~~~%01%02%03%04~~~,%01%01o~~~~%01/~~~~~~~%03%01s~~~~%01M~~~~~~~%06%01s~~~~%03a.b~~~~~",
    ),
];

/// The bytes of a name. An unknown name gives the error of refused memory, so that the test fails.
fn named(alloc: Global, names: Names<'_>, name: &str) -> Result<Vec<u8>, AllocError> {
    for (other, text) in names {
        if *other == name {
            return plain(alloc, text);
        }
    }
    Err(AllocError)
}

/// The bytes of a name, with the changes `PLACE=BYTE` that follow it. BYTE is a decimal number, or any other character
/// for itself.
fn changed(alloc: Global, names: Names<'_>, words: &str) -> Result<Vec<u8>, AllocError> {
    let (name, changes) = words.split_once(' ').unwrap_or((words, ""));
    let mut bytes = named(alloc, names, name)?;
    for change in changes.split(' ') {
        let (place, byte) = change.split_once('=').unwrap_or(("", ""));
        if let Some(old) = bytes.get_mut(place.parse().unwrap_or(usize::MAX)) {
            *old = byte_of(byte);
        }
    }
    Ok(bytes)
}

fn byte_of(text: &str) -> u8 {
    match text.as_bytes() {
        [byte] if !byte.is_ascii_digit() => *byte,
        _ => text.parse().unwrap_or(0),
    }
}

/// A table in which each name in braces is replaced by the text of its bytes: `{call}` by the text of `call`, and
/// `{call 8=2}` by that text with a byte 2 at place 8.
pub fn spelled(alloc: Global, names: Names<'_>, table: &str) -> Result<String, AllocError> {
    let mut text = String::new(alloc);
    for part in table.split('{') {
        match part.split_once('}') {
            Some((words, rest)) => {
                add_text(&mut text, &changed(alloc, names, words)?)?;
                text.push_str(rest)?;
            }
            None => text.push_str(part)?,
        }
    }
    Ok(text)
}

/// Does as `wrong_row` does, for a table with names.
pub fn wrong_named_row<F: Fn(Global, &str) -> Result<String, AllocError>>(
    alloc: Global,
    names: Names<'_>,
    table: &str,
    tell: &F,
) -> Result<Option<String>, AllocError>
    requires { F.IsAlwaysCallable tell.now }
{
    wrong_row(alloc, &spelled(alloc, names, table)?, tell)
}
