//! For tests: nets in memory that are made of texts.
#![tactic(auto)]

mod scripted;

pub use scripted::{add_written, link_of, name_of, net_of};
