//! Tables for tests, whose rows have what is given and the expected result, and bytes as texts.
#![tactic(auto)]

mod names;
mod rows;
mod texts;

pub use names::{Names, SESSION, spelled, wrong_named_row};
pub use rows::wrong_row;
pub use texts::{add_text, plain, text_of};
