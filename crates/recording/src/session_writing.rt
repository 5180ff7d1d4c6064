//! The pieces of a file of version 2, for who writes one while its sessions run: the first bytes of the file, and a
//! record, or the head of one whose bytes are written after it. They take no memory.
ghost use Rattle.std.specs.Prelude.{◌≡◌, ◌≤◌, ◌++◌, ◌∷◌, [], ℕ, List, length};
ghost use Rattle.recording.specs.Recording.{Bytes, Finished, auth_byte, magic};
ghost use Rattle.recording.specs.Sessions.{Happened, Stopped, record_head, spelled_session_event};

use crate::{
    BUS_BYTES, BUS_END, CLIENT_BYTES, CLIENT_END, HEAD_LEN, MAGIC, SESSION_RECORD_HEAD_LEN,
    SESSIONS_VERSION, STOP, Side,
};
use byteorder::{ByteOrder, LittleEndian};

/// The first bytes of a file of version 2, before its records.
pub fn session_file_head(auth: bool) -> [u8; HEAD_LEN]
    ensures { result ≡ magic ++ SESSIONS_VERSION ∷ auth_byte auth ∷ [] }
{
    let [a, b, c, d] = MAGIC;
    [a, b, c, d, SESSIONS_VERSION, u8::from(auth)]
}

/// The bytes of a record before the `len` bytes that came from a side in a session.
pub fn session_bytes_head(session: u32, side: Side, len: u32) -> [u8; SESSION_RECORD_HEAD_LEN]
    ensures { (bytes : List ℕ) → length bytes ≡ len → result ++ bytes ≡ spelled_session_event (record { session = session; what = Happened (Bytes side bytes) }) }
{
    match side {
        Side::Client => head(CLIENT_BYTES, session, len),
        Side::Bus => head(BUS_BYTES, session, len),
    }
}

/// The record of the end of a side's stream in a session.
pub fn finished_record(session: u32, side: Side) -> [u8; SESSION_RECORD_HEAD_LEN]
    ensures { result ≡ spelled_session_event (record { session = session; what = Happened (Finished side) }) }
{
    match side {
        Side::Client => head(CLIENT_END, session, 0),
        Side::Bus => head(BUS_END, session, 0),
    }
}

/// The record of a failed call of a link of a session. `end` is the number of the End that the session has by it; a
/// file is read only if that is 7 to 11.
pub fn stopped_record(session: u32, end: u8) -> [u8; 10]
    ensures { result ≡ spelled_session_event (record { session = session; what = Stopped end }) }
{
    let [a, b, c, d, e, f, g, h, i] = head(STOP, session, 1);
    [a, b, c, d, e, f, g, h, i, end]
}

/// The kind of a record, its session and the number of the bytes that follow.
fn head(kind: u8, session: u32, len: u32) -> [u8; SESSION_RECORD_HEAD_LEN]
    ensures { result ≡ record_head kind session len }
{
    let mut head = [kind; SESSION_RECORD_HEAD_LEN];
    LittleEndian::write_u32(&mut head[1..5], session);
    LittleEndian::write_u32(&mut head[5..9], len);
    head
}
