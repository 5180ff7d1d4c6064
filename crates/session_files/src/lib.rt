//! One session of a recording as a recording of its own, and a list of the sessions that a recording has.
//!
//! A proxy that runs is recorded in a file of version 2, with many sessions. The tools that explain, compare and count
//! the messages of one session read files of version 1. `session_file` gives such a file for a session of a number, and
//! `listing` tells which numbers there are.
#![tactic(auto)]

mod counting;
mod extraction;
mod laws;
mod lines;

pub use extraction::session_file;
pub use laws::{session_file_is_read, session_is_replayed, version_1_is_its_session};
pub use lines::listing;

/// The version of a recording of one session.
const VERSION: u8 = 1;

/// The number of that session.
const ONLY_SESSION: u32 = 1;
