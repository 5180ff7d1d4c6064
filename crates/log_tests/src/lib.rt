//! Tests of the log: the line of each kind of message and of each decision, and the lines of entries.
#![tactic(auto)]

#[cfg(test)]
mod buffers;
#[cfg(test)]
mod entries;
#[cfg(test)]
mod frames;
#[cfg(test)]
mod lines;
#[cfg(test)]
mod noted;
