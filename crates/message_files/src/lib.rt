//! What the file of a message, and the file of a message's text, give.
//!
//! `shown` gives the text of the one message that a file holds, or what is wrong with the file, and where. `composed`
//! gives the bytes of the message whose text a file holds, or why that is no message's text.
#![tactic(auto)]

mod composing;
mod laws;
mod showing;

pub use composing::composed;
use dbus_header::MalformedKind;
pub use laws::each_text_has_one_reading;
use message_text::BadText;
pub use showing::shown;
use std::alloc::AllocError;
use thiserror::Error;

/// The most bytes that the file of a message may have, 16 MiB.
pub const MESSAGE_LIMIT: usize = 16_777_216;

/// The most bytes that the file of a message's text may have, 64 MiB.
pub const TEXT_LIMIT: usize = 67_108_864;

/// What is wrong with a file that is to hold one message (D-Bus Specification, "Message Format").
#[derive(Clone, Copy, Debug, PartialEq, Eq, Error)]
pub enum MessageFault {
    /// The file has more than `MESSAGE_LIMIT` bytes.
    #[error("TooLong")]
    TooLong,
    /// The file ends before the message does.
    #[error("Cut")]
    Cut,
    /// Bytes follow the message.
    #[error("Extra")]
    Extra,
    /// The bytes are no valid message.
    #[error("{0}")]
    Malformed(MalformedKind),
}

/// A file that isn't one valid message, by what is wrong with it and the place in its bytes, from 0: the limit if it
/// is too long, the file's length if it is cut, and the message's length if bytes follow.
#[derive(Clone, Copy, Debug, PartialEq, Eq, Error)]
#[error("byte {at}: {kind}")]
pub struct BadMessage {
    /// What is wrong.
    pub kind: MessageFault,
    /// The place.
    pub at: usize,
}

/// Why `shown` gave no text.
#[derive(Debug, Drop, Error)]
pub enum ShowRefusal {
    /// The file isn't one valid message.
    #[error(transparent)]
    Bad(BadMessage),
    /// There was no memory for the text.
    #[error("out of memory")]
    Memory(AllocError),
}

/// Why a file is no message's text.
#[derive(Clone, Copy, Debug, PartialEq, Eq, Error)]
pub enum BadTextFile {
    /// The file has more than `TEXT_LIMIT` bytes.
    #[error("TooLong")]
    TooLong,
    /// Its bytes are the text of no valid message.
    #[error("{0}")]
    Text(BadText),
}

/// Why `composed` gave no message.
#[derive(Debug, Drop, Error)]
pub enum ComposeRefusal {
    /// The file is no message's text.
    #[error(transparent)]
    Bad(BadTextFile),
    /// There was no memory for the message.
    #[error("out of memory")]
    Memory(AllocError),
}
