//! The text of the message that a file holds.
ghost use Rattle.std.specs.Prelude.{◌≡◌, ◌≤◌, None, Ok, Err, Some, IfOk, IfErr, length};
ghost use Rattle.dbus_header.specs.Message.{Message as MessageTree};
ghost use Rattle.dbus_header.specs.Contents.{message_of};
ghost use Rattle.dbus_header.specs.Malformed.{head_fault, whole_len};
ghost use Rattle.message_files.specs.Files.{message_in, message_by_length, of_malformed};
ghost use Rattle.message_files.specs.Gives.{Shows, IsMessageIn};

use crate::{BadMessage, MESSAGE_LIMIT, MessageFault, ShowRefusal};
use dbus_header::{Malformed, Message, Places, decode, length};
use message_text::print;
use std::alloc::Global;

/// The text of the one valid message that a file's bytes are. `Bad` says the first fault, in this order: the file is
/// longer than `MESSAGE_LIMIT`, has fewer than 16 bytes, has a bad first 16, has fewer bytes than these state, has
/// more, or is otherwise not a valid message.
pub fn shown(alloc: Global, bytes: &[u8]) -> Result<Vec<u8>, ShowRefusal>
    ensures { Shows bytes.now result }
{
    let mut places = Places::none();
    match message(bytes, &mut places) {
        Ok(message) => match print(alloc, &message) {
            Ok(text) => Ok(text),
            Err(error) => Err(ShowRefusal::Memory(error)),
        },
        Err(bad) => Err(ShowRefusal::Bad(bad)),
    }
}

/// The message that a file's bytes are.
fn message<'a>(bytes: &'a [u8], places: &'a mut Places) -> Result<Message<'a>, BadMessage>
    ensures read { IfOk result (λ x. IsMessageIn bytes.now x.bytes.now) }
    ensures bad { IfErr result (λ bad. message_in bytes.now ≡ Err bad) }
{
    if bytes.len() > MESSAGE_LIMIT {
        return Err(BadMessage {
            kind: MessageFault::TooLong,
            at: MESSAGE_LIMIT,
        });
    }
    let Some(head) = bytes.first_chunk::<16>() else {
        return Err(BadMessage {
            kind: MessageFault::Cut,
            at: bytes.len(),
        });
    };
    match length(head) {
        Ok(len) => message_of_length(len as usize, bytes, places),
        Err(malformed) => Err(bad(malformed)),
    }
}

/// The message that bytes are whose first 16 state a length.
fn message_of_length<'a>(
    len: usize,
    bytes: &'a [u8],
    places: &'a mut Places,
) -> Result<Message<'a>, BadMessage>
    requires long { 16 ≤ length bytes.now }
    requires head { head_fault bytes.now ≡ None }
    requires len { len ≡ whole_len bytes.now }
    ensures read { IfOk result (λ x. (x.bytes.now ≡ bytes.now) × ((m : MessageTree) × (message_by_length bytes.now ≡ Ok m) × (message_of bytes.now ≡ Some m))) }
    ensures bad { IfErr result (λ bad. message_by_length bytes.now ≡ Err bad) }
{
    if bytes.len() < len {
        return Err(BadMessage {
            kind: MessageFault::Cut,
            at: bytes.len(),
        });
    }
    if len < bytes.len() {
        return Err(BadMessage {
            kind: MessageFault::Extra,
            at: len,
        });
    }
    match decode(bytes, places) {
        Ok(message) => Ok(message),
        Err(malformed) => Err(bad(malformed)),
    }
}

/// What is wrong with a file whose bytes are no valid message.
fn bad(malformed: Malformed) -> BadMessage
    ensures { result ≡ of_malformed malformed }
{
    BadMessage {
        kind: MessageFault::Malformed(malformed.kind),
        at: malformed.at as usize,
    }
}
