//! Bytes in one block of memory, which are appended at the end and removed from the start.
ghost use Rattle.std.specs.Prelude.{◌≡◌, ◌^◌, ◌<◌, ◌≤◌, ◌++◌, [], IfOk, OnOk, OnErr, MatchResult, length, drop};

use bytes::Bytes;
use std::alloc::{AllocError, Global};
use std::marker::Model;
use std::mem;

/// The room that is added after a long message. A piece of a stream is mostly no longer, and the message's last piece
/// holds at most that much of what follows it.
const BEHIND: usize = 65_536;

/// At most this many waiting bytes are copied to give back a larger block of memory.
const SHORT: usize = 1024;

/// A larger block of memory isn't kept for reuse.
const LONGEST_ROOM: usize = 262_144;

/// Bytes that wait, in memory to which nothing else refers.
///
/// ```text
///   given      bytes that wait
/// +----------+---------------------------------+------+
/// |          |                                 | room |
/// +----------+---------------------------------+------+
///              ^ take                          ^ push
/// ```
#[derive(Drop)]
pub(crate) struct ByteQueue {
    bytes: Vec<u8>,
    /// The number of bytes at the start of the memory that were removed from the queue.
    given: usize,
}

impl Model for ByteQueue {
    ghost use Rattle.std.specs.Prelude.{List, ℕ, ◌≤◌, length, drop};

    ghost Value = { List ℕ };

    ghost view = { λ q. drop q.given q.bytes.items };

    ghost invariant = { λ q. q.given ≤ length q.bytes.items };
}

impl ByteQueue {
    /// An empty queue. It allocates nothing until bytes are pushed.
    pub(crate) fn new(alloc: Global) -> ByteQueue
        ensures { result ≡ [] }
    {
        ByteQueue::from_vec(Vec::new(alloc))
    }

    /// The bytes of a vector, in its memory.
    pub(crate) fn from_vec(bytes: Vec<u8>) -> ByteQueue
        ensures { result ≡ bytes.items }
    {
        ByteQueue { bytes, given: 0 }
    }

    /// Lends out its memory while no bytes wait.
    pub(crate) fn lend_room(&mut self, alloc: Global) -> Vec<u8>
        requires { self.old ≡ [] }
        ensures room { result.items ≡ [] }
        ensures stays { self.new ≡ [] }
    {
        self.given = 0;
        let mut room = mem::replace(&mut self.bytes, Vec::new(alloc));
        room.clear();
        room
    }

    /// A copy of bytes, in exactly as much memory as they need.
    pub(crate) fn copy_from_slice(alloc: Global, bytes: &[u8]) -> Result<ByteQueue, AllocError>
        ensures { IfOk result (λ queue. queue ≡ bytes.now) }
    {
        Ok(ByteQueue::from_vec(Vec::from_slice(alloc, bytes)?))
    }

    /// The bytes that wait.
    #[inline]
    pub(crate) fn as_slice(&self) -> &[u8]
        ensures { result.now ≡ self.now }
    {
        &self.bytes.as_slice()[self.given..]
    }

    /// The number of bytes that wait.
    #[inline]
    pub(crate) fn len(&self) -> usize
        ensures value { result ≡ length self.now }
        ensures bound { result < 2 ^ 63 }
    {
        self.bytes.len() - self.given
    }

    /// Appends bytes.
    #[inline]
    pub(crate) fn push(&mut self, piece: &[u8]) -> Result<(), AllocError>
        ensures ok { OnOk result (self.new ≡ self.old ++ piece.now) }
        ensures err { OnErr result (self.new ≡ self.old) }
    {
        if self.bytes.capacity() - self.bytes.len() < piece.len() {
            self.grow(piece.len())?;
        }
        self.bytes.extend_from_slice(piece)
    }

    /// Makes room for that many more bytes.
    #[cold]
    #[inline(never)]
    fn grow(&mut self, additional: usize) -> Result<(), AllocError>
        ensures { self.new ≡ self.old }
    {
        let waits = self.len();
        if waits <= self.given && additional <= self.bytes.capacity() - waits {
            self.move_to_front();
            return Ok(());
        }
        self.bytes.reserve(additional)
    }

    /// Moves the bytes that wait to the start of the memory.
    ///
    /// ```text
    /// +----------+--------+------+      +--------+-----------------+
    /// |  given   | bytes  | room |  to  | bytes  |      room       |
    /// +----------+--------+------+      +--------+-----------------+
    /// ```
    fn move_to_front(&mut self)
        ensures { self.new ≡ self.old }
    {
        let waits = self.len();
        self.bytes.copy_within(self.given.., 0);
        self.bytes.truncate(waits);
        self.given = 0;
    }

    /// Makes room for that many bytes in all, and for what may follow the last of them. If memory is short, the queue
    /// goes on with the room that it has.
    #[inline(never)]
    pub(crate) fn make_room(&mut self, len: usize)
        ensures { self.new ≡ self.old }
    {
        if len <= self.bytes.capacity() - self.given {
            return;
        }
        let waits = self.len();
        if waits <= self.given {
            self.move_to_front();
        }
        let _ = self
            .bytes
            .reserve_exact((len - waits).saturating_add(BEHIND));
    }

    /// Removes that many bytes from the start.
    pub(crate) fn take(&mut self, len: usize)
        requires { len ≤ length self.old }
        ensures { self.new ≡ drop len self.old }
    {
        self.given += len;
    }

    /// Takes all bytes without a copy. An error says that memory ran out; then nothing changes.
    pub(crate) fn take_all(&mut self, alloc: Global) -> Result<Bytes, AllocError>
        ensures bytes { IfOk result (λ bytes. bytes ≡ self.old) }
        ensures ok { OnOk result (self.new ≡ []) }
        ensures err { OnErr result (self.new ≡ self.old) }
    {
        if self.len() == 0 {
            return Ok(Bytes::new());
        }
        match mem::replace(self, ByteQueue::new(alloc)).freeze() {
            Ok(bytes) => Ok(bytes),
            Err(queue) => {
                *self = queue;
                Err(AllocError)
            }
        }
    }

    /// Frees the memory of removed bytes, if it is more than is kept and no less than what has to be copied. If memory
    /// for the copy is short, the old block is kept.
    pub(crate) fn release(&mut self, alloc: Global, kept: usize)
        ensures { self.new ≡ self.old }
    {
        let waits = self.len();
        if waits == 0 {
            self.empty(alloc, kept);
            return;
        }
        if self.bytes.capacity() - waits <= kept || self.given < waits {
            return;
        }
        if let Ok(fresh) = ByteQueue::copy_from_slice(alloc, self.as_slice()) {
            *self = fresh;
        }
    }

    /// Makes the next bytes begin at the start of the memory, since all were removed. A block that is too large to keep
    /// is freed.
    fn empty(&mut self, alloc: Global, kept: usize)
        ensures { self.new ≡ [] }
    {
        if self.bytes.capacity() > kept {
            *self = ByteQueue::new(alloc);
            return;
        }
        self.bytes.clear();
        self.given = 0;
    }

    /// Uses the memory that another queue gave back, if no bytes wait here.
    pub(crate) fn take_room(&mut self, room: &mut Vec<u8>)
        requires { room.old.items ≡ [] }
        ensures same { self.new ≡ self.old }
        ensures room { room.new.items ≡ [] }
    {
        if self.len() == 0 {
            self.bytes.clear();
            self.given = 0;
            mem::swap(&mut self.bytes, room);
        }
    }

    /// Gives back the queue's memory, for another queue: all of it if no bytes wait, or all but a copy of the bytes if
    /// few wait in much memory. The larger of this block and the one that was given back before is kept. If memory for
    /// the copy is short, nothing is given back.
    pub(crate) fn give_room(&mut self, alloc: Global, room: &mut Vec<u8>)
        requires { room.old.items ≡ [] }
        ensures same { self.new ≡ self.old }
        ensures room { room.new.items ≡ [] }
    {
        let waits = self.len();
        if waits > SHORT || waits > 0 && self.bytes.capacity() <= 4 * SHORT {
            return;
        }
        let Ok(rest) = Vec::from_slice(alloc, self.as_slice()) else {
            return;
        };
        let mut given = mem::replace(&mut self.bytes, rest);
        self.given = 0;
        if given.capacity() > room.capacity() && given.capacity() <= LONGEST_ROOM {
            given.clear();
            mem::swap(&mut given, room);
        }
    }

    /// Makes the bytes shareable without a copy. If memory is short, the queue comes back unchanged.
    pub(crate) fn freeze(self) -> Result<Bytes, ByteQueue>
        ensures { MatchResult result (λ bytes. bytes ≡ self) (λ queue. queue ≡ self) }
    {
        let ByteQueue { bytes, given } = self;
        match Bytes::from_vec(bytes) {
            Ok(mut bytes) => {
                bytes.advance(given);
                Ok(bytes)
            }
            Err(refused) => Err(ByteQueue {
                bytes: refused.value,
                given,
            }),
        }
    }
}
