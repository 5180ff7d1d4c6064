//! The standard streams and the words of a process.
//!
//! A program calls `fill_closed` before it opens anything else, so that no file or socket of its own becomes a standard
//! stream. `StdSink` writes to a standard stream, and waits while that takes nothing. `words_of_process` reads the
//! words after the program's name.
#![tactic(auto)]

mod descriptors;
mod faults;
mod retries;
mod std_sink;
mod words;

pub use descriptors::{Descriptors, OpenFault, SystemDescriptors, fill_closed};
pub use faults::{ProcessFault, is_tool_name, tell_fault};
pub use retries::is_retried;
pub use std_sink::StdSink;
pub use words::{Arguments, ProcessArguments, words_of_process};
