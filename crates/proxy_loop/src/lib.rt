//! The running proxy: the server of a proxy line's sessions over the links of a net, and what one of its turns does.
//!
//! A turn waits once, and does the work for what is ready then: a client is accepted and its session connected to the
//! bus, or the session of the link that was named is served. It writes what waits, reads that link once, logs what was
//! decided on the messages that came, writes again, shuts the links that are done with, and states what the others are
//! watched for. All this is told by what the turn adds to the net's journal and to the log: each session goes by its
//! own entries alone.
#![tactic(auto)]

mod accept;
mod line_server;
mod link_work;
mod listening;
mod log_work;
mod serving;
mod table;
mod turns;

pub use line_server::Server;
pub use turns::{ServerEnd, Turn};
