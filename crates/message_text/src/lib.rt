//! A D-Bus message as text that a person can read and write, and back.
//!
//! `print` gives the text of a message, and `read` the message of a text. The first line has the byte order (`l` or
//! `B`), the type, the flags and the serial. Each header field has a line with its code, the type of its value and the
//! value. The last line is `body` and the body's values.
#![tactic(auto)]

mod basic_values;
mod cursor;
mod laws;
mod numbers;
mod print_message;
mod print_values;
mod read_message;
mod read_values;
mod texts;
mod tokens;
mod words;

pub use laws::{printed_texts_are_read, read_texts_are_printed, texts_are_apart};
pub use print_message::print;
use std::alloc::AllocError;
pub use texts::read;
use thiserror::Error;

/// Why a text gives no message.
#[derive(Clone, Copy, Debug, PartialEq, Eq, Error)]
pub enum BadText {
    /// The text hasn't the form of a message's text, its quotes hold no UTF-8, or a number is out of its type's range.
    #[error("Form")]
    Form,
    /// The text has the form, and no valid message (D-Bus Specification, "Message Format") has this text.
    #[error("NotValid")]
    NotValid,
}

/// Why `read` gave no message.
#[derive(Debug, Drop, Error)]
pub enum TextRefusal {
    /// The text gives none.
    #[error(transparent)]
    Bad(BadText),
    /// There was no memory for the message.
    #[error("out of memory")]
    Memory(AllocError),
}
