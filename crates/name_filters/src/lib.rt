//! Lists of names in the bus's answers, cut to the names that the policy lets the client see.
//!
//! Call `cut` once for each list that was received.
#![tactic(auto)]

mod lists;
mod names;

pub use lists::cut;
