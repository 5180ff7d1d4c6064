//! The words of lines.
ghost use Rattle.std.specs.Prelude.{◌≡◌, [], IfOk, true};
ghost use Rattle.std.specs.List.{list_all};
ghost use Rattle.sasl_watch.specs.Lines.{has_word as has_the_word, is_begin as is_line_of_begin, agrees as is_line_of_agreement, for_bus as line_for_bus};
ghost use Rattle.sasl_watch.specs.Words.{is_in_word};

use bytes::Bytes;
use std::alloc::{AllocError, Global};

/// Whether a word ends before these bytes: they begin with a space or the line's ending.
fn is_behind_word(bytes: &[u8]) -> bool
    ensures { result ≡ has_the_word [] bytes.now }
{
    match bytes.first() {
        None => true,
        Some(next) => *next == b' ' || *next == b'\r',
    }
}

/// Whether a line's word is this one. It ends at the first space, or with the line.
fn has_word(line: &[u8], word: &[u8]) -> bool
    requires { list_all is_in_word word.now ≡ true }
    ensures { result ≡ has_the_word word.now line.now }
{
    match line.strip_prefix(word) {
        None => false,
        Some(rest) => is_behind_word(rest),
    }
}

/// Whether a line of the client is the last of its lines.
pub(crate) fn is_begin(line: &[u8]) -> bool
    ensures { result ≡ is_line_of_begin line.now }
{
    has_word(line, b"BEGIN")
}

/// Whether a line of the bus agrees to pass file descriptors.
pub(crate) fn agrees(line: &[u8]) -> bool
    ensures { result ≡ is_line_of_agreement line.now }
{
    has_word(line, b"AGREE_UNIX_FD")
}

/// What the bus is sent for a line of the client. An error says that memory ran out.
///
/// A line whose word is `BEGIN` is sent as exactly `BEGIN`, since a bus may refuse one with arguments and read the
/// messages that follow as lines (D-Bus Specification, "Authentication Protocol", "BEGIN Command": it has no
/// arguments). A line that asks to pass file descriptors is sent as `NO_UNIX_FD`, a command that no bus knows and that
/// each answers with ERROR ("NEGOTIATE_UNIX_FD Command"). Any other line is sent unchanged, and is shared.
pub fn for_bus(alloc: Global, line: &Bytes) -> Result<Bytes, AllocError>
    ensures { IfOk result (λ bytes. bytes ≡ line_for_bus line.now) }
{
    if is_begin(line.as_slice()) {
        return Bytes::copy_from_slice(alloc, b"BEGIN\r\n");
    }
    if has_word(line.as_slice(), b"NEGOTIATE_UNIX_FD") {
        return Bytes::copy_from_slice(alloc, b"NO_UNIX_FD\r\n");
    }
    line.clone()
}
