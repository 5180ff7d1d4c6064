//! The file format of recorded sessions.
//!
//! A recording is the bytes `DBPR`, a version byte, which is 1 or 2, an auth byte, which is 0 or
//! 1, and records up to the end of the file.
//!
//! A file of version 1 has one session. A record is a kind byte, a length of four bytes with the
//! lowest first, and that many bytes. Kind 0 has bytes from the client, kind 1 bytes from the bus,
//! and kinds 2 and 3 are the client's end and the bus's, with no bytes.
//!
//! A file of version 2 has many sessions. The number of a session, four bytes with the lowest
//! first, stands between a record's kind and its length. Kind 4 is a failed read, write or connect
//! of a link, with one byte: the number of the End that the session has by it.
#![tactic(auto)]

mod laws;
mod reading;
mod session_reading;
mod session_writing;
mod sessions;
mod writing;

use bytes::Bytes;
pub use laws::{
    read_is_spelled, read_sessions_are_spelled, version_1_is_migrated, written_is_read,
    written_sessions_are_read,
};
pub use reading::read;
pub use session_reading::read_any;
pub use session_writing::{finished_record, session_bytes_head, session_file_head, stopped_record};
pub use sessions::{SessionEvent, Sessions, What, migrate, share_event};
use std::alloc::AllocError;
use thiserror::Error;
pub use writing::write;

/// The most bytes that a recording may have, 64 MiB. The file and its events are held in memory
/// at once, and each five bytes of the file may be an event: this keeps them below a gigabyte.
pub const RECORDING_LIMIT: usize = 67_108_864;

/// The most sessions that a recording may name. It bounds the memory that looking for faults takes, whatever the file
/// has.
pub const SESSION_LIMIT: usize = 65_536;

/// The bytes before the first record: four of magic, the version, and the auth byte.
const HEAD_LEN: usize = 6;

/// The bytes of a record before those that it counts: its kind and its length.
const RECORD_HEAD_LEN: usize = 5;

/// Those bytes in a file of version 2, with the session between them.
const SESSION_RECORD_HEAD_LEN: usize = 9;

const MAGIC: [u8; 4] = *b"DBPR";

/// The version of a recording of one session.
const VERSION: u8 = 1;

/// The version of a recording of many.
const SESSIONS_VERSION: u8 = 2;

/// The kinds of records: in version 1 all those up to the bus's end, and in version 2 a stop too.
const CLIENT_BYTES: u8 = 0;

const BUS_BYTES: u8 = 1;

const CLIENT_END: u8 = 2;

const BUS_END: u8 = 3;

const STOP: u8 = 4;

/// The numbers of the Ends that a failed call gives are those from the first to the last.
const FIRST_STOP: u8 = 7;

const LAST_STOP: u8 = 11;

/// A side of a recorded session.
#[derive(Clone, Copy, Debug, PartialEq, Eq)]
pub enum Side {
    Client,
    Bus,
}

/// What a side did: some bytes came from it, perhaps none, or its stream ended.
#[derive(Debug, PartialEq, Eq, Drop)]
pub enum Event {
    Bytes(Side, Bytes),
    Finished(Side),
}

/// A recorded session.
#[derive(Debug, PartialEq, Eq, Drop)]
pub struct Recording {
    /// Whether the streams begin with the lines of authentication.
    pub auth: bool,
    /// What the sides did, in order.
    pub events: Vec<Event>,
}

/// What is wrong with a recording.
#[derive(Clone, Copy, Debug, PartialEq, Eq, Error)]
pub enum RecordingKind {
    /// The file does not begin with `DBPR`.
    #[error("no recording")]
    BadMagic,
    /// The version is not 1, nor 2 if files of version 2 are read too.
    #[error("unknown version")]
    BadVersion,
    /// The kind of a record is above 3, and in version 2 above 4.
    #[error("unknown kind of record")]
    BadKind,
    /// The file ends inside its first six bytes or inside a record.
    #[error("the file is cut off")]
    Cut,
    /// The auth byte is above 1.
    #[error("the auth byte is neither 0 nor 1")]
    BadAuth,
    /// The record of a side's end has a length that is not 0, or in version 2 that of a stop one that is not 1.
    #[error("a record of this kind has another length")]
    BadLength,
    /// The file has more than `RECORDING_LIMIT` bytes.
    #[error("the file is too long")]
    TooLong,
    /// In version 2 the session of a record is 0.
    #[error("a session is 0")]
    BadSession,
    /// In version 2 a record names one session more than `SESSION_LIMIT`.
    #[error("too many sessions")]
    TooManySessions,
    /// In version 2 the byte of a stop is not the number of an End that a failed call gives, from 7 to 11.
    #[error("unknown End of a stop")]
    BadEnd,
}

/// The first fault of a recording.
#[derive(Clone, Copy, Debug, PartialEq, Eq, Error)]
#[error("byte {at}: {kind}")]
pub struct BadRecording {
    pub kind: RecordingKind,
    /// The place of the byte that is at fault, counted from 0. At `Cut` it is the file's length.
    pub at: u64,
}

/// Why a recording was not read.
#[derive(Clone, Copy, Debug, PartialEq, Eq, Error)]
pub enum RecordingRefusal {
    /// The file is no recording.
    #[error(transparent)]
    Bad(BadRecording),
    /// Memory ran out.
    #[error("out of memory")]
    Memory,
}

impl From<BadRecording> for RecordingRefusal {
    ghost use Rattle.std.specs.Prelude.{◌≡◌};
    ghost use Rattle.recording.specs.declared.RecordingRefusal.TheVariants.{Bad};

    ghost from_gives = { λ fault e. e ≡ Bad fault };

    fn from(fault: BadRecording) -> RecordingRefusal {
        RecordingRefusal::Bad(fault)
    }
}

impl From<AllocError> for RecordingRefusal {
    ghost use Rattle.std.specs.Prelude.{◌≡◌};
    ghost use Rattle.recording.specs.declared.RecordingRefusal.TheVariants.{Memory};

    ghost from_gives = { λ _ e. e ≡ Memory };

    fn from(_error: AllocError) -> RecordingRefusal {
        RecordingRefusal::Memory
    }
}
