//! The words of a proxy line, with the files of words that they name.
//!
//! Call `read_words` once. It reads these files in the order of the words, and then all words as a line.
#![tactic(auto)]

mod reading;

pub use reading::{ARGS_LIMIT, LineStop, read_words};
