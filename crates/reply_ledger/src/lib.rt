//! The answers that are expected of the bus, and the replies that the client owes.
//!
//! A message that the proxy sent has one answer, which names the serial of the message. A call from the bus has one
//! reply of the client, which names the call's sender and its serial (D-Bus Specification, "Header Fields":
//! REPLY_SERIAL). A ledger counts both while they are outstanding, and forgets what was answered.
#![tactic(auto)]

mod calls;
mod counts;
mod expected;
mod kind;
mod ledger;
mod owed;

pub use kind::Kind;
pub use ledger::Ledger;
