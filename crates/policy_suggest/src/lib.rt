//! The requests that a client's messages make of well-known names, and the least policy that permits them.
#![tactic(auto)]

mod facts;
mod gathered;
mod laws;
mod requests;
mod suggesting;
mod targets;
mod words;

pub use gathered::Requests;
pub use laws::{once_suffices, suggested_is_least, suggested_is_read, suggested_permits_all};
pub use requests::asked;
pub use suggesting::{SuggestRefusal, suggest};
