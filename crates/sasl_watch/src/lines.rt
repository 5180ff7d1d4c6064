//! The lines of a side: the bytes that were received and not taken yet.
ghost use Rattle.std.specs.Prelude.{◌≡◌, ◌^◌, ◌<◌, ◌≤◌, ◌+◌, ◌++◌, [], Some, None, IfOk, OnOk, OnErr, length, take, drop, slice_get};
ghost use Rattle.sasl_watch.specs.Watching.{at_start, came};
ghost use Rattle.sasl_watch.specs.Fronts.{IsFront};

use crate::front::{Front, line_in_front, plain_len};
use crate::{LineFault, LineKind};
use bytes::{Bytes, BytesMut};
use std::alloc::{AllocError, Global};
use std::marker::Model;

/// Once at least this many bytes were taken from one buffer, what is left moves to another: moves are rare, and a
/// stream of many lines doesn't keep their memory.
const RENEWAL: usize = 65_536;

/// A side of the authentication phase (D-Bus Specification, "Authentication Protocol"). `push` adds a piece of its
/// stream. Of the client's stream, `next_of_client` takes the NUL and the lines up to BEGIN; of the bus's,
/// `next_of_bus` takes the lines that answer them.
///
/// ```text
///   given   line in front         what follows
/// +-------+---------------------+--------------+------+
/// |       | plain ..    | CR LF | ..           | room |
/// +-------+---------------------+--------------+------+
///           bytes                              ^ push
/// ```
#[derive(Drop)]
pub struct Lines {
    bytes: BytesMut,
    /// The number of bytes of the stream that were taken.
    place: u64,
    /// The number of first bytes that are known to be plain, so that each is read once.
    plain: usize,
    /// The fault that was reported.
    bad: Option<LineFault>,
    /// The number of bytes that were taken from the present buffer.
    used: usize,
    alloc: Global,
}

impl Model for Lines {
    ghost use Rattle.std.specs.Prelude.{◌+◌, ◌<◌, ◌^◌, length};
    ghost use Rattle.sasl_watch.specs.Watching.{Watch};

    ghost Value = { Watch };

    ghost use Rattle.sasl_watch.specs.Fronts.{Plain};

    ghost view = { λ s. record { place = s.place; left = s.bytes.items; bad = s.bad } };

    ghost invariant = { λ s. (s.place + length s.bytes.items < 2 ^ 64) × Plain s.plain s.bytes.items };
}

/// Moves what is left into a buffer of its own, if more was taken from the old one than must be copied. If memory is
/// short, the old buffer is kept. Returns how many bytes were taken from the buffer that is now used.
fn renew(alloc: Global, bytes: &mut BytesMut, used: usize) -> usize
    ensures { bytes.new.items ≡ bytes.old.items }
{
    if used < RENEWAL || used < bytes.len() {
        return used;
    }
    match BytesMut::copy_from_slice(alloc, bytes.as_slice()) {
        Ok(fresh) => {
            *bytes = fresh;
            0
        }
        Err(_) => used,
    }
}

impl Lines {
    /// An empty stream. It allocates nothing until the first piece.
    pub fn new(alloc: Global) -> Lines
        ensures { result ≡ at_start }
    {
        Lines {
            bytes: BytesMut::new(alloc),
            place: 0,
            plain: 0,
            bad: None,
            used: 0,
            alloc,
        }
    }

    /// The number of bytes that were received and not taken yet.
    pub fn len(&self) -> usize
        ensures value { result ≡ length self.now.left }
        ensures bound { result < 2 ^ 63 }
    {
        self.bytes.len()
    }

    /// The number of bytes that were taken.
    pub(crate) fn place(&self) -> u64
        ensures { result ≡ self.now.place }
    {
        self.place
    }

    /// The fault that was reported.
    pub(crate) fn bad(&self) -> Option<LineFault>
        ensures { result ≡ self.now.bad }
    {
        self.bad
    }

    /// The first byte.
    pub(crate) fn first(&self) -> Option<u8>
        ensures { result ≡ slice_get self.now.left 0 }
    {
        self.bytes.as_slice().first().copied()
    }

    /// The first `len` bytes.
    pub(crate) fn line(&self, len: usize) -> &[u8]
        requires { len ≤ length self.now.left }
        ensures { result.now ≡ take len self.now.left }
    {
        &self.bytes.as_slice()[..len]
    }

    /// Appends a piece of the stream. An error says that memory ran out; then nothing changes.
    pub fn push(&mut self, piece: &[u8]) -> Result<(), AllocError>
        requires { came self.old + length piece.now < 2 ^ 64 }
        ensures ok { OnOk result (self.new ≡ record self.old { left = self.old.left ++ piece.now }) }
        ensures err { OnErr result (self.new ≡ self.old) }
    {
        self.bytes.extend_from_slice(piece)
    }

    /// What is first in the stream. Nothing that contracts see changes.
    pub(crate) fn front(&mut self) -> Front
        ensures front { IsFront self.old.left result }
        ensures same { self.new ≡ self.old }
    {
        self.plain = plain_len(self.bytes.as_slice(), self.plain);
        line_in_front(self.bytes.as_slice(), self.plain)
    }

    /// Takes the first `len` bytes, which share the buffer with those that are left.
    pub(crate) fn take(&mut self, len: usize) -> Result<Bytes, AllocError>
        requires { len ≤ length self.old.left }
        ensures bytes { IfOk result (λ bytes. bytes ≡ take len self.old.left) }
        ensures ok { OnOk result (self.new
            ≡ record { place = self.old.place + len; left = drop len self.old.left; bad = self.old.bad }) }
        ensures err { OnErr result (self.new ≡ self.old) }
    {
        let front = self.bytes.freeze_to(len)?;
        self.plain = 0;
        self.place += len as u64;
        self.used = renew(self.alloc, &mut self.bytes, self.used.saturating_add(len));
        Ok(front)
    }

    /// Takes all bytes that are left; after the lines, those of the messages. None is copied. An error says that memory
    /// ran out; then nothing changes.
    pub fn left(&mut self) -> Result<Bytes, AllocError>
        ensures bytes { IfOk result (λ bytes. bytes ≡ self.old.left) }
        ensures ok { OnOk result (self.new
            ≡ record { place = self.old.place + length self.old.left; left = []; bad = self.old.bad }) }
        ensures err { OnErr result (self.new ≡ self.old) }
    {
        let len = self.len();
        self.take(len)
    }

    /// Removes the first `len` bytes, as `take` does, without memory.
    pub(crate) fn skip(&mut self, len: usize)
        requires { len ≤ length self.old.left }
        ensures { self.new ≡ record { place = self.old.place + len; left = drop len self.old.left; bad = self.old.bad } }
    {
        self.bytes.advance(len);
        self.plain = 0;
        self.place += len as u64;
        self.used = renew(self.alloc, &mut self.bytes, self.used.saturating_add(len));
    }

    /// Keeps the fault of the byte at this distance from the first one.
    pub(crate) fn fail(&mut self, kind: LineKind, ahead: usize) -> LineFault
        requires { ahead < length self.old.left }
        ensures fault { result ≡ record { kind = kind; at = self.old.place + ahead } }
        ensures kept { self.new ≡ record self.old { bad = Some result } }
    {
        let fault = LineFault {
            kind,
            at: self.place + ahead as u64,
        };
        self.bad = Some(fault);
        fault
    }
}
