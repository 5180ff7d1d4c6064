//! The session: it takes what is received from either side, and has what is to be sent to either side.
//!
//! Pass each received piece to `feed_client` or `feed_bus`. `to_bus` and `to_client` lend the bytes that wait; after a
//! write, `took_bus` or `took_client` is given the number of bytes that were written.
#![tactic(auto)]

mod elements;
mod facts;
mod incoming;
pub mod laws;
mod queue;
mod requests;
mod session;
mod stream;
mod watch;

pub use session::{LONGEST_STREAM, MOST_OWN_BYTES, Room, Session};
