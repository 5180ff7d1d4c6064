//! What the events of a recording are to a session, and what a replay of it gives: the definitions that `replay` and
//! `sample` share, and the lemmas that their proofs do.
//!
//! It has no code, so nothing drives it.
#![tactic(auto)]
