//! Tests of the net and the files in memory, by calls that are made by hand.
#![tactic(auto)]

#[cfg(test)]
mod calls;
#[cfg(test)]
mod files;
#[cfg(test)]
mod nets;
