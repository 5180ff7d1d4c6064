//! The bytes of the proxy's own messages: its calls to the bus, and its answers to refused calls.
//!
//! Each is the spelling of the message that `policy_view` defines.
#![tactic(auto)]

mod answers;
mod calls;
mod laws;

pub use answers::{AnswerInPlace, answer_in_place};
pub use calls::{add_match, add_match_len, get_owner, get_owner_len, list_names, ping};
pub use laws::{lengths_of_answers, lengths_of_calls};
