//! Tests of the bytes that wait to be written.
#![tactic(auto)]

#[cfg(test)]
mod queues;
