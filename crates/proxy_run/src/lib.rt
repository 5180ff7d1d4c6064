//! A whole run of a proxy line: a server listens at the path of each block, and takes turns until nothing is left to be
//! done.
//!
//! It is driven by one call of `serve`, over any net and any sink for the log.
#![tactic(auto)]

mod running;

pub use running::serve;
