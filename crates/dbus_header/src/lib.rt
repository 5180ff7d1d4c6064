//! D-Bus messages: their parts, their spelling, which of them are valid, and the laws between spelling and reading.
//!
//! Call `length` with the first sixteen bytes of a message, and then `decode` with the whole message. The parts of a
//! `Message` are borrowed from its bytes. `decode_knowing` reads the messages of a stream faster, and `decode_checked`
//! doesn't check the first sixteen bytes again.
#![tactic(auto)]

mod bodies;
mod decoding;
mod fields;
mod grammars;
mod head;
mod headers;
mod kinds;
mod message;
mod names;
mod numbers;
mod parts;
mod spans;

ghost use Rattle.std.specs.Prelude.{◌≡◌, ℕ, ◌++◌, ◌<◌, List, Some, slice_index};
ghost use Rattle.dbus_header.specs.Message.{Message as MessageTree, Valid, spell};
ghost use Rattle.dbus_header.specs.Contents.{message_of};
ghost use Rattle.dbus_header.specs.Malformed.{front};
ghost use Rattle.dbus_header.specs.Stream.{Splits, split, messages, bad};
ghost use Rattle.dbus_header.specs.declared.Malformed.{Malformed as Fault};

pub use decoding::{check_whole, decode, decode_checked, decode_knowing, placed, read_valid};
pub use grammars::KnownTexts;
pub use head::length;
pub use kinds::{
    ERROR, METHOD_CALL, METHOD_RETURN, MessageType, NO_AUTO_START, NO_REPLY_EXPECTED, SIGNAL,
};
pub use message::Message;
pub use numbers::{SERIAL_PLACE, set_reply_serial, set_serial, write_u32};
pub use spans::Places;
use thiserror::Error;

/// What is wrong with a message that isn't valid (D-Bus Specification, "Message Format").
#[derive(Clone, Copy, Debug, PartialEq, Eq, Error)]
pub enum MalformedKind {
    /// The first byte is neither `l` nor `B`.
    #[error("the byte order is unknown")]
    ByteOrder,
    /// The message type is 0, which is invalid.
    #[error("the message type is 0")]
    MessageType,
    /// The protocol version isn't 1.
    #[error("the protocol version isn't 1")]
    Version,
    /// The header fields are longer than 2^26 bytes, the maximum length of an array, or the whole message is longer
    /// than 2^27.
    #[error("the header fields or the message are too long")]
    Length,
    /// The serial is 0.
    #[error("the serial is 0")]
    Serial,
    /// The header fields don't spell an `a(yv)`, one of them is invalid or a known one occurs twice, or the padding
    /// after them isn't zero ("Header Fields"; "Valid Names").
    #[error("the header fields are invalid")]
    Fields,
    /// A header field that the message type needs is absent ("Header Fields").
    #[error("a required header field is absent")]
    Required,
    /// The body isn't exactly the values that SIGNATURE states ("Type System", "Marshaling").
    #[error("the body isn't the values of its signature")]
    Body,
    /// UNIX_FDS is present and isn't 0: file descriptors aren't passed on ("Header Fields").
    #[error("the message comes with file descriptors")]
    Descriptors,
}

/// Why a message isn't valid, and the place in its bytes, counted from 0.
#[derive(Clone, Copy, Debug, PartialEq, Eq, Error)]
#[error("byte {at}: {kind}")]
pub struct Malformed {
    pub kind: MalformedKind,
    pub at: u32,
}

/// The answer to a refused call. It replaces the bus's answer to the ping that was sent in place of the call.
#[derive(Clone, Copy, Debug, PartialEq, Eq)]
pub enum Instead {
    /// The error `org.freedesktop.DBus.Error.AccessDenied`.
    AccessDenied,
    /// The error `org.freedesktop.DBus.Error.NameHasNoOwner`.
    NameHasNoOwner,
    /// The error `org.freedesktop.DBus.Error.ServiceUnknown`.
    ServiceUnknown,
    /// A return with the boolean false.
    False,
}

/// A valid message's spelling is read as that message, whatever follows it.
pub fn spelled_is_read()
    ensures { (m : MessageTree) (rest : List ℕ) → Valid m → front (spell m ++ rest) ≡ Some (m, rest) }
{}

/// A message that was read is valid and its spelling is the bytes that were taken; what follows is left.
pub fn read_is_spelled()
    ensures { (bytes : List ℕ) (m : MessageTree) (rest : List ℕ) → ((i : ℕ) → slice_index bytes i < 256) → front bytes ≡ Some (m, rest) → Valid m × (bytes ≡ spell m ++ rest) }
{}

/// A message that was read is valid, and its bytes spell it.
pub fn is_spelled(bytes: &[u8])
    ensures { (m : MessageTree) → message_of bytes.now ≡ Some m → Valid m × (bytes.now ≡ spell m) }
{
    let _bytes = bytes;
}

/// A stream can be split in one way only into valid messages and a rest that begins with none.
pub fn one_splitting()
    ensures { (messages : List MessageTree) (bytes rest : List ℕ) → ((i : ℕ) → slice_index bytes i < 256) → Splits bytes messages rest → split bytes ≡ (messages, rest) }
{}

/// If a stream has a fault, the fault and the messages before it stay when more bytes are received.
pub fn fault_stays()
    ensures { (bytes more : List ℕ) (f : Fault) → bad bytes ≡ Some f → (messages (bytes ++ more) ≡ messages bytes) × (bad (bytes ++ more) ≡ Some f) }
{}
