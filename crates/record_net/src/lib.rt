//! A net that records what its links give.
//!
//! A `Recorder` passes each call on to another net, and appends to a file the bytes of that net's reads, the ends of
//! its links, and its failed calls. The file is a recording of version 2: the bytes `DBPR`, the version byte 2, the
//! auth byte 1, and records. A record is a kind byte, a session and a length of four bytes each with the lowest byte
//! first, and that many bytes. Kinds 0 and 1 have bytes from the client and from the bus, kinds 2 and 3 are their ends,
//! and kind 4 is a failed call, whose one byte is the number of its End.
//!
//! The first append that fails ends the recording, and the net goes on unchanged. A record takes no memory.
#![tactic(auto)]

mod laws;
mod record_file;
mod recorder;
mod spelling;
mod tracked;

pub use laws::{recorded_is_read, records_tell_each_session};
pub use record_file::RecordFile;
pub use recorder::Recorder;
pub use tracked::{RecordingStart, TrackedRecorder};

/// The maximum number of bytes of one read that is passed on, and so of the record of a read.
pub const READ_LIMIT: usize = 65_536;

/// The length of a record's head: its kind, its session and its length.
const RECORD_HEAD_LEN: usize = 9;
