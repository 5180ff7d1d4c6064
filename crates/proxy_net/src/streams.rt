//! What the streams of the system answer, by what a link does about it.
ghost use Rattle.std.specs.Prelude.{◌≡◌, ◌≢◌, ◌≤◌, ◌<◌, ℕ, Ok, Some, IfErr, length, true};
ghost use Rattle.std.specs.IoError.{error_kind};
ghost use Rattle.proxy_net.specs.Streams.{IsRefusedRead, IsRefusedWrite, IsMeantRead, IsRefusalRead, IsMeantWrite, IsRefusalWrite};
ghost use Rattle.proxy_net.specs.Steps.{Steps, IsStreamRead, IsStreamWrite};

use crate::system::{Numbered, Sockets};
use std::io::{self, ErrorKind};

/// What a read of a stream gave.
#[derive(Clone, Copy)]
pub enum StreamRead {
    /// This number of bytes.
    Bytes(usize),
    /// No more bytes will come. A peer that closes with bytes unread resets the stream, which ends it too.
    End,
    /// No bytes are there yet.
    Nothing,
    /// The system refused it.
    Fault,
}

/// What a write to a stream did.
#[derive(Clone, Copy)]
pub enum StreamWrite {
    /// It took this number of bytes.
    Bytes(usize),
    /// There is no room yet.
    Full,
    /// The peer closed, and takes no more bytes.
    PeerClosed,
    /// It is to be tried again.
    Again,
    /// The system refused it.
    Fault,
}

/// Reads once. A read that a signal interrupts is made again at once, since nothing is reported after it.
pub fn read_stream<S: Sockets>(
    system: &mut S,
    stream: &Numbered<S::Stream>,
    into: &mut [u8],
) -> StreamRead
    ensures within { (n : ℕ) → result ≡ StreamRead.Bytes n → n ≤ length into.new }
    ensures progress { (n : ℕ) → result ≡ StreamRead.Bytes n → 0 < length into.new → 0 < n }
    ensures told { Steps (IsStreamRead stream.now.number into.new result) (S.journal system.old) (S.journal system.new) }
{
    let has_room = !into.is_empty();
    for _turn in 0..u64::MAX {
        if let Some(read) = read_of(system.read(stream, into), has_room) {
            return read;
        }
    }
    StreamRead::Fault
}

/// What the answer of a read means. An answer of no bytes is the end if there was room for one. `None` if a signal
/// interrupted it.
fn read_of(answer: io::Result<usize>, has_room: bool) -> Option<StreamRead>
    ensures bytes { (n : ℕ) → answer ≡ Ok n → (has_room ≡ true → 0 < n) → result ≡ Some (StreamRead.Bytes n) }
    ensures end { answer ≡ Ok 0 → has_room ≡ true → result ≡ Some StreamRead.End }
    ensures refused { IfErr answer (λ error. IsRefusedRead (error_kind error) result) }
    ensures only { (n : ℕ) → result ≡ Some (StreamRead.Bytes n) → (answer ≡ Ok n) × (has_room ≡ true → 0 < n) }
    ensures meant { IsMeantRead error_kind has_room answer result }
{
    match answer {
        Ok(0) if has_room => Some(StreamRead::End),
        Ok(n) => Some(StreamRead::Bytes(n)),
        Err(error) => refused_read(error.kind()),
    }
}

fn refused_read(kind: ErrorKind) -> Option<StreamRead>
    ensures none { (n : ℕ) → result ≡ Some (StreamRead.Bytes n) → ⊥ }
    ensures refused { IsRefusedRead kind result }
    ensures meant { IsRefusalRead kind result }
{
    match kind {
        ErrorKind::WouldBlock => Some(StreamRead::Nothing),
        ErrorKind::Interrupted => None,
        ErrorKind::ConnectionReset => Some(StreamRead::End),
        _ => Some(StreamRead::Fault),
    }
}

/// Writes once. The system raises no signal if the peer closed.
pub fn write_stream<S: Sockets>(
    system: &mut S,
    stream: &Numbered<S::Stream>,
    piece: &[u8],
) -> StreamWrite
    ensures within { (n : ℕ) → result ≡ StreamWrite.Bytes n → n ≤ length piece.now }
    ensures progress { (n : ℕ) → result ≡ StreamWrite.Bytes n → 0 < length piece.now → 0 < n }
    ensures told { Steps (IsStreamWrite stream.now.number piece.now result) (S.journal system.old) (S.journal system.new) }
{
    write_of(system.write(stream, piece), !piece.is_empty())
}

/// What the answer of a write means. The system takes at least one byte if it is given one.
fn write_of(answer: io::Result<usize>, has_bytes: bool) -> StreamWrite
    ensures bytes { (n : ℕ) → answer ≡ Ok n → (has_bytes ≡ true → 0 < n) → result ≡ StreamWrite.Bytes n }
    ensures none { answer ≡ Ok 0 → has_bytes ≡ true → result ≡ StreamWrite.Fault }
    ensures refused { IfErr answer (λ error. IsRefusedWrite (error_kind error) result) }
    ensures only { (n : ℕ) → result ≡ StreamWrite.Bytes n → (answer ≡ Ok n) × (has_bytes ≡ true → 0 < n) }
    ensures meant { IsMeantWrite error_kind answer result }
{
    match answer {
        Ok(0) if has_bytes => StreamWrite::Fault,
        Ok(n) => StreamWrite::Bytes(n),
        Err(error) => refused_write(error.kind()),
    }
}

fn refused_write(kind: ErrorKind) -> StreamWrite
    ensures none { (n : ℕ) → result ≡ StreamWrite.Bytes n → ⊥ }
    ensures refused { IsRefusedWrite kind result }
    ensures meant { IsRefusalWrite kind result }
{
    match kind {
        ErrorKind::WouldBlock => StreamWrite::Full,
        ErrorKind::Interrupted => StreamWrite::Again,
        ErrorKind::BrokenPipe | ErrorKind::ConnectionReset => StreamWrite::PeerClosed,
        _ => StreamWrite::Fault,
    }
}
