//! What a program uses of the outside: files that are read whole or appended to, sinks for bytes, the links of a
//! proxy's sessions, and gates that jobs pass. All are traits, so that the code above them is the same over a disk and
//! sockets and in memory (`memory_links`).
//!
//! A contract speaks of each by its view. The view of files in memory has all their bytes, and that of a disk has none;
//! so it is with sinks. The view of files has the paths that were read. The view of a net has its journal, the results
//! of its calls, while that is known. Each view counts faults, so that a contract can say that the outside failed.
#![tactic(auto)]

pub mod gates;
pub mod links;
pub mod outside;
pub mod read_paths;
pub mod tables;

pub use gates::{Gate, OpenGate};
pub use links::{
    Accepted, Call, Count, Got, Link, Net, NetFault, Ready, Setting, Side, Took, Wishes,
};
pub use outside::{FileFault, Files, Sink, SinkFault, read_whole, write_all};
pub use read_paths::ReadPaths;
pub use tables::LinkTable;
