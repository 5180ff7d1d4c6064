//! The bytes of records.
ghost use Rattle.std.specs.Prelude.{◌≡◌, ◌≤◌, ◌+◌, [], ◌∷◌, length, vec_capacity};
ghost use Rattle.record_net.specs.Records.{spelled_record, bytes_kind, finished_kind, failed_kind, read_end, write_end, side_of};

use crate::{READ_LIMIT, RECORD_HEAD_LEN};
use link_traits::Side;
use recording::{Side as RecordedSide, finished_record, session_bytes_head, stopped_record};

/// The number of the End of a failed connect.
pub(crate) const CONNECT_END: u8 = 11;

/// A link's side, as a recording has it.
fn recorded_side(side: Side) -> RecordedSide
    ensures { result ≡ side_of side }
{
    match side {
        Side::Client => RecordedSide::Client,
        Side::Bus => RecordedSide::Bus,
    }
}

/// The number of the End of a failed read.
pub(crate) fn read_end(side: Side) -> u8
    ensures { result ≡ read_end side }
{
    match side {
        Side::Client => 7,
        Side::Bus => 9,
    }
}

/// The number of the End of a failed write.
pub(crate) fn write_end(side: Side) -> u8
    ensures { result ≡ write_end side }
{
    match side {
        Side::Client => 8,
        Side::Bus => 10,
    }
}

/// The record of a side's end.
pub(crate) fn end_record(side: Side, session: u32) -> [u8; RECORD_HEAD_LEN]
    ensures { result ≡ spelled_record (finished_kind side) session [] }
{
    finished_record(session, recorded_side(side))
}

/// The record of a failed call, with the number of its End.
pub(crate) fn failed_record(session: u32, end: u8) -> [u8; RECORD_HEAD_LEN + 1]
    ensures { result ≡ spelled_record failed_kind session (end ∷ []) }
{
    stopped_record(session, end)
}

/// Replaces the contents of a buffer with the record of bytes that were received from a side. The buffer has room for
/// it.
pub(crate) fn spell(buffer: &mut Vec<u8>, side: Side, session: u32, bytes: &[u8])
    requires room { RECORD_HEAD_LEN + length bytes.now ≤ vec_capacity buffer.old }
    requires small { length bytes.now ≤ READ_LIMIT }
    ensures bytes { buffer.new.items ≡ spelled_record (bytes_kind side) session bytes.now }
    ensures room { vec_capacity buffer.old ≤ vec_capacity buffer.new }
{
    let head = session_bytes_head(session, recorded_side(side), bytes.len() as u32);
    buffer.clear();
    let _ = buffer.extend_from_slice(&head);
    let _ = buffer.extend_from_slice(bytes);
}
