//! Bytes that wait to be written, in order: they are appended at the end and removed from the start.
//!
//! Short pieces are joined, so that one write carries many of them. A long piece that is given whole isn't copied.
#![tactic(auto)]

mod queue;

pub use queue::OutQueue;
