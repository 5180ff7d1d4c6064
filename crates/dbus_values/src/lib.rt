//! D-Bus values: how one is spelled at a place of a message, how it is read from bytes, and the laws between the two.
//!
//! `value_end` checks and passes over the values of a signature. The texts of a body that was checked so are then read
//! by `first_text`, `two_texts`, `texts3` and `text_list`.
#![tactic(auto)]

mod basic;
mod containers;
mod cursor;
mod laws;
mod numbers;
mod steps;
mod texts;
mod values;

pub use laws::{read_values_are_spelled, spelled_values_are_read, unread_values_are_not_spelled};
pub use steps::{is_zero, padding};
pub use texts::{Texts, first_text, text_list, texts3, two_texts};
use thiserror::Error;
pub use values::value_end;

/// The byte order of a message (D-Bus Specification, "Message Format": `l` is little, `B` is big).
#[derive(Clone, Copy, Debug, PartialEq, Eq)]
pub enum Order {
    /// `l`: the least significant byte is first.
    Little,
    /// `B`: the most significant byte is first.
    Big,
}

/// Bytes that aren't the values of a signature (D-Bus Specification, "Type System", "Marshaling").
#[derive(Clone, Copy, Debug, PartialEq, Eq, Error)]
#[error("byte {at}: no value of the signature's next type")]
pub struct BadValue {
    /// Where the last valid value of the signature's own types ended; if none did, where the first was to begin.
    pub at: usize,
}
