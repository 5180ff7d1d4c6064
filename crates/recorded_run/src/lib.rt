//! A proxy line that is served while what its links give is recorded.
//!
//! `serve_recorded` makes the file of the recording, and then serves the line over the net. What is served is the same
//! as without the recording. The file has the events of each session, so a replay under the options of a session's
//! block gives the bytes that the proxy had for that session's links.
#![tactic(auto)]

mod laws;
mod serving;

pub use laws::{
    recorded_events_have_the_histories, recorded_links_stand, what_a_server_records_fits,
};
pub use serving::{Recorded, serve_recorded};
