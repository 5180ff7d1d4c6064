//! Bytes that are appended at the end and removed from the start. Those of a long message are shared without a copy.
ghost use Rattle.std.specs.Prelude.{◌≡◌, ◌==◌, ◌^◌, ◌<◌, ◌≤◌, ◌++◌, [], IfOk, IfSome, OnOk, OnErr, length, take, drop};

use crate::queue::ByteQueue;
use bytes::Bytes;
use std::alloc::{AllocError, Global};
use std::marker::Model;
use std::mem;

/// The number of bytes of memory that a buffer keeps beside the bytes that wait in it: room for a few reads of a link.
const KEPT: usize = 262_144;

/// Fewer bytes aren't shared: a copy costs less than memory and a write of their own.
const LONG: usize = 65_536;

/// Where the bytes are.
#[derive(Drop)]
pub(crate) enum Content {
    /// Nothing else refers to them, and there may be room after them.
    Open(ByteQueue),
    /// Others may refer to parts of them, so nothing is appended to them.
    Shared(Bytes),
}

/// Bytes that were received and not removed yet.
#[derive(Drop)]
pub(crate) struct Buffer {
    content: Content,
    alloc: Global,
}

impl Model for Buffer {
    ghost use Rattle.std.specs.Prelude.{List, ℕ};
    ghost use Rattle.dbus_framing.specs.Lying.{lying_in};

    ghost Value = { List ℕ };

    ghost view = { λ b. lying_in b.content };
}

/// A copy of bytes, followed by others.
fn joined(alloc: Global, bytes: &[u8], others: &[u8]) -> Result<ByteQueue, AllocError>
    ensures { IfOk result (λ all. all ≡ bytes.now ++ others.now) }
{
    let mut all = ByteQueue::copy_from_slice(alloc, bytes)?;
    all.push(others)?;
    Ok(all)
}

impl Buffer {
    /// An empty buffer. It allocates nothing until bytes are pushed.
    pub(crate) fn new(alloc: Global) -> Buffer
        ensures { result ≡ [] }
    {
        Buffer {
            content: Content::Open(ByteQueue::new(alloc)),
            alloc,
        }
    }

    /// A buffer with these bytes. If nothing else refers to them, they stay in their memory and are moved to its start.
    pub(crate) fn with_bytes(alloc: Global, bytes: Bytes) -> Result<Buffer, AllocError>
        ensures { IfOk result (λ buffer. buffer ≡ bytes) }
    {
        let bytes = match bytes.try_into_mut() {
            Ok(bytes) => bytes.into_vec()?,
            Err(bytes) => Vec::from_slice(alloc, bytes.as_slice())?,
        };
        Ok(Buffer::from_vec(alloc, bytes))
    }

    /// A buffer with the bytes of a vector, in its memory.
    pub(crate) fn from_vec(alloc: Global, bytes: Vec<u8>) -> Buffer
        ensures { result ≡ bytes.items }
    {
        Buffer {
            content: Content::Open(ByteQueue::from_vec(bytes)),
            alloc,
        }
    }

    /// Lends out its memory while there are no bytes, unless others may have parts of it.
    pub(crate) fn lend_room(&mut self) -> Vec<u8>
        requires { self.old ≡ [] }
        ensures room { result.items ≡ [] }
        ensures stays { self.new ≡ [] }
    {
        match &mut self.content {
            Content::Open(bytes) => bytes.lend_room(self.alloc),
            Content::Shared(_) => Vec::new(self.alloc),
        }
    }

    /// Puts the bytes of a vector in the place of those that there are. They stay in its memory.
    pub(crate) fn fill(&mut self, bytes: Vec<u8>)
        ensures { self.new ≡ bytes.items }
    {
        self.content = Content::Open(ByteQueue::from_vec(bytes));
        self.release();
    }

    /// The bytes.
    pub(crate) fn as_slice(&self) -> &[u8]
        ensures { result.now ≡ self.now }
    {
        match &self.content {
            Content::Open(bytes) => bytes.as_slice(),
            Content::Shared(bytes) => bytes.as_slice(),
        }
    }

    /// The number of bytes.
    pub(crate) fn len(&self) -> usize
        ensures value { result ≡ length self.now }
        ensures bound { result < 2 ^ 63 }
    {
        match &self.content {
            Content::Open(bytes) => bytes.len(),
            Content::Shared(bytes) => bytes.len(),
        }
    }

    /// Appends bytes. If the first message is long (`whole` bytes), this makes room for all of it at once, as far as
    /// memory allows.
    pub(crate) fn push(&mut self, piece: &[u8], whole: usize) -> Result<(), AllocError>
        ensures ok { OnOk result (self.new ≡ self.old ++ piece.now) }
        ensures err { OnErr result (self.new ≡ self.old) }
    {
        match &mut self.content {
            Content::Open(bytes) => {
                // A sender that states much and sends little costs address space alone: no page is touched before bytes
                // are written to it.
                if whole >= LONG {
                    bytes.make_room(whole);
                }
                bytes.push(piece)
            }
            Content::Shared(bytes) => {
                let all = joined(self.alloc, bytes.as_slice(), piece)?;
                self.content = Content::Open(all);
                Ok(())
            }
        }
    }

    /// Removes that many bytes from the start.
    pub(crate) fn take(&mut self, len: usize)
        requires { len ≤ length self.old }
        ensures { self.new ≡ drop len self.old }
    {
        match &mut self.content {
            Content::Open(bytes) => bytes.take(len),
            Content::Shared(bytes) => bytes.advance(len),
        }
    }

    /// Makes the bytes shareable, if memory for that is left.
    fn share(&mut self)
        ensures { self.new ≡ self.old }
    {
        let content = mem::replace(&mut self.content, Content::Open(ByteQueue::new(self.alloc)));
        self.content = match content {
            Content::Open(bytes) => match bytes.freeze() {
                Ok(bytes) => Content::Shared(bytes),
                Err(bytes) => Content::Open(bytes),
            },
            Content::Shared(bytes) => Content::Shared(bytes),
        };
    }

    /// Lends the first bytes without a copy, if they are many and memory for that is left. They stay in the buffer too.
    pub(crate) fn shared(&mut self, len: usize) -> Option<Bytes>
        requires { len ≤ length self.old }
        ensures front { IfSome result (λ bytes. bytes ≡ take len self.old) }
        ensures stays { self.new ≡ self.old }
    {
        if len < LONG {
            return None;
        }
        self.share();
        match &self.content {
            Content::Open(_) => None,
            Content::Shared(bytes) => bytes.slice(0..len).ok(),
        }
    }

    /// Takes all bytes without a copy. An error says that memory ran out; then nothing changes.
    pub(crate) fn take_all(&mut self) -> Result<Bytes, AllocError>
        ensures bytes { IfOk result (λ bytes. bytes ≡ self.old) }
        ensures ok { OnOk result (self.new ≡ []) }
        ensures err { OnErr result (self.new ≡ self.old) }
    {
        match &mut self.content {
            Content::Open(bytes) => bytes.take_all(self.alloc),
            Content::Shared(bytes) => Ok(mem::replace(bytes, Bytes::new())),
        }
    }

    /// Takes memory that another buffer gave back.
    pub(crate) fn take_room(&mut self, room: &mut Vec<u8>)
        requires { room.old.items ≡ [] }
        ensures same { self.new ≡ self.old }
        ensures room { room.new.items ≡ [] }
    {
        if let Content::Open(bytes) = &mut self.content {
            bytes.take_room(room);
        }
    }

    /// Gives back memory that the waiting bytes don't need, for another buffer.
    pub(crate) fn give_room(&mut self, room: &mut Vec<u8>)
        requires { room.old.items ≡ [] }
        ensures same { self.new ≡ self.old }
        ensures room { room.new.items ≡ [] }
    {
        if let Content::Open(bytes) = &mut self.content {
            bytes.give_room(self.alloc, room);
        }
    }

    /// Frees memory that the buffer needn't keep, if there is memory for the copy of what waits.
    pub(crate) fn release(&mut self)
        ensures { self.new ≡ self.old }
    {
        match &mut self.content {
            Content::Open(bytes) => bytes.release(self.alloc, KEPT),
            Content::Shared(bytes) => {
                if let Ok(bytes) = ByteQueue::copy_from_slice(self.alloc, bytes.as_slice()) {
                    self.content = Content::Open(bytes);
                }
            }
        }
    }
}
