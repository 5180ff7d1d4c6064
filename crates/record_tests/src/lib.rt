//! Tests of recorders and of recorded runs over nets and files in memory, and a caller that records what code over any
//! net does.
#![tactic(auto)]

pub mod callers;
#[cfg(test)]
mod calls;
#[cfg(test)]
mod recordings;
#[cfg(test)]
mod runs;
