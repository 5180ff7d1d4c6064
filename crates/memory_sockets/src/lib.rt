//! A system of sockets in memory, for tests: it meets the trait `Sockets` of `proxy_net`, and tells what its calls
//! answered.
//!
//! Its script says what happens and what goes otherwise. Over it a whole proxy runs with no real socket.
#![tactic(auto)]

mod clocks;
mod listeners;
mod notes;
pub mod scripts;
pub mod sockets;
mod streams;

pub use notes::{Note, Noted};
pub use scripts::{CallKind, SocketScript};
pub use sockets::{SocketInMemory, SocketsInMemory};
