//! Rows of tables: the texts in them, and what reading a text answers.
ghost use Rattle.std.specs.Prelude.{◌≡◌, ◌≤◌, None, IsTrue, length};
ghost use Rattle.dbus_header.specs.Malformed.{head_fault, whole_len};

use dbus_header::{Places, decode, length};
use message_text::{BadText, TextRefusal, print, read};
use std::alloc::{AllocError, Global};
use test_tables::{plain, text_of};

/// The text of a row, in which `|` is a line feed, `~` a zero, and `%` precedes two hexadecimal digits of a byte.
pub(crate) fn text_in(alloc: Global, row: &str) -> Result<Vec<u8>, AllocError> {
    let mut text = Vec::new(alloc);
    let mut is_first = true;
    for line in row.split('|') {
        if !is_first {
            text.push(b'\n')?;
        }
        text.extend_from_slice(&plain(alloc, line)?)?;
        is_first = false;
    }
    Ok(text)
}

/// Whether the number of bytes is the one that their header states, if it states one.
fn is_whole(bytes: &[u8]) -> bool
    ensures long { IsTrue result → 16 ≤ length bytes.now }
    ensures whole { IsTrue result → head_fault bytes.now ≡ None → length bytes.now ≡ whole_len bytes.now }
{
    match bytes.first_chunk::<16>() {
        None => false,
        Some(head) => match length(head) {
            Ok(len) => len as usize == bytes.len(),
            Err(_) => false,
        },
    }
}

/// Whether the bytes are a message that is printed as this text.
fn is_printed(alloc: Global, bytes: &[u8], text: &[u8]) -> Result<bool, AllocError> {
    if !is_whole(bytes) {
        return Ok(false);
    }
    let mut places = Places::none();
    match decode(bytes, &mut places) {
        Ok(message) => Ok(print(alloc, &message)?.as_slice() == text),
        Err(_) => Ok(false),
    }
}

/// What reading a text answers.
#[derive(Drop)]
pub(crate) enum Answer {
    /// The bytes of a message that is printed as the same text.
    Read(Vec<u8>),
    /// The text gives bytes that are no message or one that is printed as another text.
    PrintedOtherwise,
    Refused(BadText),
}

/// Reads a text, and prints the message that it gives.
pub(crate) fn answer_to(alloc: Global, text: &[u8]) -> Result<Answer, AllocError> {
    match read(alloc, text) {
        Ok(bytes) if is_printed(alloc, &bytes, text)? => Ok(Answer::Read(bytes)),
        Ok(_) => Ok(Answer::PrintedOtherwise),
        Err(TextRefusal::Bad(bad)) => Ok(Answer::Refused(bad)),
        Err(TextRefusal::Memory(error)) => Err(error),
    }
}

/// The bytes of the message that the text of a row gives, as they stand in a row, or why it gives none.
pub(crate) fn told(alloc: Global, row: &str) -> Result<String, AllocError> {
    match answer_to(alloc, &text_in(alloc, row)?)? {
        Answer::Read(bytes) => text_of(alloc, &bytes),
        Answer::PrintedOtherwise => String::from_str(alloc, "printed otherwise"),
        Answer::Refused(bad) => format!(in alloc; "{bad}"),
    }
}

/// The number of bytes of the message that a text gives, or why it gives none.
pub(crate) fn told_len(alloc: Global, text: &[u8]) -> Result<String, AllocError> {
    match answer_to(alloc, text)? {
        Answer::Read(bytes) => format!(in alloc; "{} bytes", bytes.len()),
        Answer::PrintedOtherwise => String::from_str(alloc, "printed otherwise"),
        Answer::Refused(bad) => format!(in alloc; "{bad}"),
    }
}
