//! Servers for tests: a server of the words of a proxy line that takes turns until its last, and rows of sessions that
//! are served the same over each kind of net.
#![tactic(auto)]

mod served;
mod sessions;

pub use served::{Row, add_log, line_of, row_of, serve, told_end};
pub use sessions::{ENDED, PLAYED};
