//! Tests of the net over Unix sockets, over sockets in the folder that each test runs in.
#![tactic(auto)]

#[cfg(test)]
mod backlogs;
#[cfg(test)]
mod closed;
#[cfg(test)]
mod descriptors;
#[cfg(test)]
mod paths;
#[cfg(test)]
mod sessions;
#[cfg(test)]
mod starters;
#[cfg(test)]
mod streams;
