//! The message of a text.
ghost use Rattle.std.specs.Prelude.{◌≡◌, ◌≤◌, None, false, IfOk, IfSome, IsSome, IsTrue, length};
ghost use Rattle.dbus_header.specs.Malformed.{head_fault, whole_len};
ghost use Rattle.dbus_header.specs.Contents.{message_of};
ghost use Rattle.message_text.specs.TextOf.{IsTextOf};
ghost use Rattle.message_text.specs.Answers.{Answers};

use crate::print_message::print;
use crate::read_message::message;
use crate::{BadText, TextRefusal};
use dbus_header::{Message, Places, decode, length};
use std::alloc::{AllocError, Global};

/// Whether the bytes have the length that they state, if they state one.
fn is_whole(bytes: &[u8]) -> bool
    ensures long { IsTrue result → 16 ≤ length bytes.now }
    ensures whole { IsTrue result → head_fault bytes.now ≡ None → length bytes.now ≡ whole_len bytes.now }
    ensures message { IsSome (message_of bytes.now) → IsTrue result }
{
    match bytes.first_chunk::<16>() {
        None => false,
        Some(head) => match length(head) {
            Ok(len) => len as usize == bytes.len(),
            Err(_) => false,
        },
    }
}

/// The valid message that the bytes are.
fn decoded<'a>(bytes: &'a [u8], places: &'a mut Places) -> Option<Message<'a>>
    ensures bytes { IfSome result (λ x. x.bytes.now ≡ bytes.now) }
    ensures none { result ≡ None → IsSome (message_of bytes.now) → ⊥ }
{
    if !is_whole(bytes) {
        return None;
    }
    match decode(bytes, places) {
        Ok(message) => Some(message),
        Err(_) => None,
    }
}

/// Whether the bytes are a valid message that has the text.
fn is_text_of(alloc: Global, bytes: &[u8], text: &[u8]) -> Result<bool, AllocError>
    ensures yes { IfOk result (λ is. IsTrue is → IsTextOf bytes.now text.now) }
    ensures no { IfOk result (λ is. is ≡ false → IsTextOf bytes.now text.now → ⊥) }
{
    let mut places = Places::none();
    match decoded(bytes, &mut places) {
        Some(message) => {
            let printed = print(alloc, &message)?;
            Ok(printed.as_slice() == text)
        }
        None => Ok(false),
    }
}

/// The bytes of the valid message whose text this is (D-Bus Specification, "Message Format"). The text is read in one
/// pass; its bytes are then read as a message, whose text is printed and compared. A message has one text, so another
/// separator, a leading zero or an escape that isn't needed is refused as Form.
pub fn read(alloc: Global, text: &[u8]) -> Result<Vec<u8>, TextRefusal>
    ensures { Answers text.now result }
{
    let bytes = match message(alloc, text) {
        Ok(Some(bytes)) => bytes,
        Ok(None) => return Err(TextRefusal::Bad(BadText::Form)),
        Err(error) => return Err(TextRefusal::Memory(error)),
    };
    match is_text_of(alloc, &bytes, text) {
        Ok(true) => Ok(bytes),
        Ok(false) => Err(TextRefusal::Bad(BadText::NotValid)),
        Err(error) => Err(TextRefusal::Memory(error)),
    }
}
