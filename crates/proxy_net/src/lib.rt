//! The net of a proxy over Unix sockets.
//!
//! A `MioNet` is driven by the calls of `link_traits::Net`.
#![tactic(auto)]

mod answers;
mod bound_files;
mod delays;
mod link_sockets;
mod listeners;
pub mod net;
pub mod reports;
mod sockets;
pub mod starters;
mod streams;
pub mod system;

pub use answers::Answer;
pub use bound_files::{FileIdentity, FileKind, FoundFile};
pub use net::MioNet;
pub use reports::Report;
pub use starters::{STARTER, Starter};
pub use system::{Numbered, Sockets, SystemSockets};
