//! Bytes that are whole messages.
ghost use Rattle.std.specs.Prelude.{◌≡◌, ◌≤◌, None, IsTrue, length};
ghost use Rattle.dbus_header.specs.Malformed.{head_fault, whole_len};

use dbus_header::{Places, decode, length};

/// Whether the bytes have the length that they state, if they state one.
pub fn is_whole(bytes: &[u8]) -> bool
    ensures long { IsTrue result → 16 ≤ length bytes.now }
    ensures whole { IsTrue result → head_fault bytes.now ≡ None → length bytes.now ≡ whole_len bytes.now }
{
    match bytes.first_chunk::<16>() {
        None => false,
        Some(head) => match length(head) {
            Ok(len) => len as usize == bytes.len(),
            Err(_) => false,
        },
    }
}

/// Whether the bytes are a valid message.
pub fn is_message(bytes: &[u8]) -> bool {
    is_whole(bytes) && decode(bytes, &mut Places::none()).is_ok()
}
