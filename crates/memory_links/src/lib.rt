//! Files, a sink and a net in memory, for tests: they implement the traits of `link_traits`, and all that they hold is
//! known.
#![tactic(auto)]

pub mod mem_net;
pub mod memory;
pub mod scripts;
mod transcripts;

pub use mem_net::MemNet;
pub use memory::{Appends, MemFile, MemFiles, MemSink};
pub use scripts::{Exception, Script};
