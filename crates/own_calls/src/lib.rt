//! The proxy's own calls to the bus. With them it learns who owns the names of its policy.
//!
//! Right after the first `Hello` that passes, the proxy asks for later changes of owners (AddMatch) and for the current
//! owners (GetNameOwner). It learns the names below an `N.*` from the bus's list of names (ListNames), and asks for
//! their owners when the list was received. Each call takes the next serial, with which its answer is expected.
#![tactic(auto)]

mod hello;
mod laws;
mod listed;
mod sending;

pub use hello::{after_hello, count};
pub use laws::{after_hello_is_short, lengths_of_asked};
pub use listed::{after_names, asked};
