//! Tests of the words, the descriptors and the lines of a process.
#![tactic(auto)]

#[cfg(test)]
mod processes;
