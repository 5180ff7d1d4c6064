//! The messages of a stream that is received in pieces (D-Bus Specification, "Message Format").
//!
//! Push each piece of the stream to a `Framer`, then call `front`, `message` and `take` until no whole message is left.
//! If nothing is left before a piece, `Messages` reads the messages in the piece itself and copies only the rest.
#![tactic(auto)]

mod buffer;
mod framer;
mod laws;
mod messages;
mod passing;
mod queue;
mod state;

use bytes::Bytes;
use dbus_header::Malformed;
pub use framer::Framer;
pub use laws::{bad_is_given_again, given_are_messages, more_is_pushed, next_is_given};
pub use messages::Messages;

/// What the head of a stream's first message says.
#[derive(Clone, Copy, Debug, PartialEq, Eq)]
pub enum Front {
    /// The whole message was received; this is the length that its head states. Whether it is valid isn't checked yet.
    Whole(usize),
    /// At most the beginning of a message: fewer than 16 bytes, or fewer than its head states.
    Incomplete,
    /// The head isn't that of a valid message.
    Bad(Malformed),
}

/// What is taken from the start of a stream.
#[derive(Debug, PartialEq, Eq, Drop)]
pub enum Next {
    /// A valid message, which is removed from the stream.
    Whole(Bytes),
    /// At most the beginning of a message: fewer than 16 bytes, or fewer than its head states.
    Incomplete,
    /// No valid message. The stream stays there.
    Bad(Malformed),
}
