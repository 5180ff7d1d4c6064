//! A sample: the recording of a session that a stated generator makes, of any length, to measure and to try a proxy
//! with; and the summary of what becomes of its messages.
#![tactic(auto)]

mod counts;
mod draws;
mod generator;
mod messages;
mod opening;
mod playing;
mod summing;
mod writing;

pub use generator::MOST_DRAWS;
pub use summing::summary;
pub use writing::{SampleFault, sample};
