//! Tests of recordings, and of files and sinks in memory.
#![tactic(auto)]

#[cfg(test)]
mod links;
#[cfg(test)]
mod recordings;
#[cfg(test)]
mod session_recordings;
