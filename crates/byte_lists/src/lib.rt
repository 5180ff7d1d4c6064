//! Lists of bytes, and maps with texts and numbers as keys: definitions that the `specs` of other crates share, and
//! lemmas that their proofs share.
//!
//! It has no code.
#![tactic(auto)]
