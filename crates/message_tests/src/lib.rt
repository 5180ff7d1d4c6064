//! Tests of messages: what is read of a message, what is wrong with others, and the messages of streams.
#![tactic(auto)]

#[cfg(test)]
mod bodies;
#[cfg(test)]
mod framing;
#[cfg(test)]
mod headers;
#[cfg(test)]
mod messages;
