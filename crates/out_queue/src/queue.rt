//! The queue: sealed parts, followed by the bytes that were joined last.
ghost use Rattle.std.specs.Prelude.{◌≡◌, ◌≤◌, ◌<◌, ◌+◌, ◌==◌, ◌++◌, ◌^◌, List, ℕ, [], IfErr, OnOk, OnErr, IsTrue, All, false, take, drop, length};
ghost use Rattle.std.specs.List.{concat};
ghost use Rattle.std.specs.VecDeque.{deque_capacity, deque_len};

use bytes::{Bytes, BytesMut};
use std::alloc::{AllocError, Global};
use std::collections::VecDeque;
use std::marker::Model;
use std::mem;

/// A piece of at most this length is joined to those before it: a copy costs less than a write of its own.
const SHORT: usize = 4096;

/// Once this many bytes are joined, they are sealed, so that what was written of them is freed.
const LONG: usize = 65_536;

/// The most bytes of room that a queue without bytes keeps, until it gives the room back.
const KEPT: usize = 131_072;

/// The most parts for which it keeps room.
const PARTS_KEPT: usize = 64;

/// The maximum number of sealed bytes, which keeps the number of all bytes below 2^64.
const MOST_SEALED: u64 = 9_223_372_036_854_775_808;

/// Bytes that wait to be written, in order.
///
/// ```text
///   sealed parts                       joined
/// +----------+-------------+--------+ +-----------+------+
/// |          |             |        | |           | room |
/// +----------+-------------+--------+ +-----------+------+
///   ^ front                                       ^ push
/// ```
#[derive(Drop)]
pub struct OutQueue {
    parts: VecDeque<Bytes>,
    /// The number of bytes in the parts.
    sealed: u64,
    joined: BytesMut,
    alloc: Global,
}

impl Model for OutQueue {
    ghost use Rattle.std.specs.Prelude.{◌≡◌, ◌≤◌, ◌<◌, ◌++◌, ◌^◌, ℕ, List, All, length};
    ghost use Rattle.std.specs.List.{concat};

    ghost Value = { List ℕ };

    ghost view = { λ q. concat q.parts.items ++ q.joined.items };

    ghost invariant = { λ q. (q.sealed ≡ length (concat q.parts.items)) × (q.sealed ≤ 2 ^ 63) × All (λ part. 0 < length part) q.parts.items };
}

impl OutQueue {
    /// A queue without bytes. It allocates nothing.
    pub fn new(alloc: Global) -> OutQueue
        ensures { result ≡ [] }
    {
        OutQueue {
            parts: VecDeque::new(alloc),
            sealed: 0,
            joined: BytesMut::new(alloc),
            alloc,
        }
    }

    /// The number of bytes that wait.
    pub fn len(&self) -> u64
        ensures { result ≡ length self.now }
    {
        self.sealed + self.joined.len() as u64
    }

    /// Whether no bytes wait.
    pub fn is_empty(&self) -> bool
        ensures { result ≡ (length self.now == 0) }
    {
        self.len() == 0
    }

    /// The first bytes that wait, as many as are in one block: empty only if none wait.
    pub fn front(&self) -> &[u8]
        ensures front { (rest : List ℕ) × (result.now ++ rest ≡ self.now) }
        ensures some { length result.now ≡ 0 → self.now ≡ [] }
    {
        match self.parts.front() {
            Some(part) => part.as_slice(),
            None => self.joined.as_slice(),
        }
    }

    /// Appends bytes. Long ones aren't copied.
    pub fn push(&mut self, bytes: Bytes) -> Result<(), AllocError>
        ensures ok { OnOk result (self.new ≡ self.old ++ bytes) }
        ensures err { OnErr result (self.new ≡ self.old) }
    {
        if bytes.len() <= SHORT {
            return self.push_slice(bytes.as_slice());
        }
        let all = self.len();
        let len = bytes.len() as u64;
        if all > MOST_SEALED - len {
            return self.push_slice(bytes.as_slice());
        }
        match seal_with(self.alloc, &mut self.parts, &mut self.joined, bytes) {
            Ok(()) => {
                self.sealed = all + len;
                Ok(())
            }
            Err(bytes) => self.push_slice(bytes.as_slice()),
        }
    }

    /// Appends a copy of bytes.
    pub fn push_slice(&mut self, bytes: &[u8]) -> Result<(), AllocError>
        ensures ok { OnOk result (self.new ≡ self.old ++ bytes.now) }
        ensures err { OnErr result (self.new ≡ self.old) }
    {
        self.seal_long();
        self.joined.extend_from_slice(bytes)
    }

    /// Appends a copy of bytes, with the four bytes at a place replaced by others.
    pub fn push_with(
        &mut self,
        bytes: &[u8],
        place: usize,
        others: [u8; 4],
    ) -> Result<(), AllocError>
        requires { place + 4 ≤ length bytes.now }
        ensures ok { OnOk result (self.new ≡ self.old ++ (take place bytes.now ++ others ++ drop (place + 4) bytes.now)) }
        ensures err { OnErr result (self.new ≡ self.old) }
    {
        self.seal_long();
        let at = self.joined.len() + place;
        self.joined.extend_from_slice(bytes)?;
        write_four(self.joined.as_mut_slice(), at, others);
        Ok(())
    }

    /// Appends bytes, with the four bytes at a place replaced by others. If what follows them is long, it isn't copied.
    pub fn push_shared(
        &mut self,
        bytes: &Bytes,
        place: usize,
        others: [u8; 4],
    ) -> Result<(), AllocError>
        requires { place + 4 ≤ length bytes.now }
        ensures ok { OnOk result (self.new ≡ self.old ++ (take place bytes.now ++ others ++ drop (place + 4) bytes.now)) }
        ensures err { OnErr result (self.new ≡ self.old) }
    {
        let all = self.len();
        let len = bytes.len() as u64;
        let (front, rest) = bytes.as_slice().split_at(place + 4);
        if all > MOST_SEALED - len || rest.len() <= SHORT {
            return self.push_with(bytes.as_slice(), place, others);
        }
        let rest = bytes.slice(place + 4..bytes.len())?;
        let earlier = self.joined.len();
        self.joined.reserve(place + 4)?;
        self.joined.extend_reserved(&front[..place]);
        self.joined.extend_reserved(&others);
        match seal_with(self.alloc, &mut self.parts, &mut self.joined, rest) {
            Ok(()) => {
                self.sealed = all + len;
                Ok(())
            }
            Err(_) => {
                self.joined.truncate(earlier);
                self.push_with(bytes.as_slice(), place, others)
            }
        }
    }

    /// Removes the first `n` bytes, after they were written. It allocates nothing.
    pub fn took(&mut self, n: usize)
        requires { n ≤ length self.old }
        ensures { self.new ≡ drop n self.old }
    {
        let mut left = n;
        while left > 0 {
            left -= self.take_front(left);
        }
        self.release();
    }

    /// Uses the room that another queue gave back, if no bytes are joined here.
    pub fn take_room(&mut self, room: &mut BytesMut)
        requires { room.old.items ≡ [] }
        ensures same { self.new ≡ self.old }
        ensures room { room.new.items ≡ [] }
    {
        if self.joined.is_empty() {
            mem::swap(&mut self.joined, room);
        }
    }

    /// Gives back the room for joined bytes, if there are none, for another queue. The larger of this room and the one
    /// that was given back before is kept. A queue in which no bytes wait then keeps no memory.
    pub fn give_room(&mut self, room: &mut BytesMut)
        requires { room.old.items ≡ [] }
        ensures same { self.new ≡ self.old }
        ensures room { room.new.items ≡ [] }
    {
        if !self.joined.is_empty() {
            return;
        }
        if self.joined.capacity() > room.capacity() {
            mem::swap(&mut self.joined, room);
        }
        self.joined = BytesMut::new(self.alloc);
        if self.parts.is_empty() {
            self.parts = VecDeque::new(self.alloc);
        }
    }

    /// Removes bytes from the first block, at most `most`, and returns how many.
    fn take_front(&mut self, most: usize) -> usize
        requires some { 0 < most }
        requires fits { most ≤ length self.old }
        ensures progress { 0 < result }
        ensures within { result ≤ most }
        ensures rest { self.new ≡ drop result self.old }
    {
        let Some(mut part) = self.parts.pop_front() else {
            self.joined.advance(most);
            return most;
        };
        let taken = most.min(part.len());
        part.advance(taken);
        if !part.is_empty() {
            self.parts.push_front_reserved(part);
        }
        self.sealed -= taken as u64;
        taken
    }

    /// Frees what a queue without bytes doesn't keep.
    fn release(&mut self)
        ensures { self.new ≡ self.old }
    {
        if !self.is_empty() {
            return;
        }
        self.joined.clear();
        if self.joined.capacity() > KEPT {
            self.joined = BytesMut::new(self.alloc);
        }
        if self.parts.capacity() > PARTS_KEPT {
            self.parts = VecDeque::new(self.alloc);
        }
    }

    /// Seals the joined bytes if they are many and memory allows it. Otherwise they are joined further.
    fn seal_long(&mut self)
        ensures { self.new ≡ self.old }
    {
        if self.joined.len() < LONG {
            return;
        }
        let all = self.len();
        if all <= MOST_SEALED && seal(self.alloc, &mut self.parts, &mut self.joined) {
            self.sealed = all;
        }
    }
}

/// Replaces the four bytes at a place.
fn write_four(bytes: &mut [u8], at: usize, others: [u8; 4])
    requires { at + 4 ≤ length bytes.old }
    ensures bytes { bytes.new ≡ take at bytes.old ++ others ++ drop (at + 4) bytes.old }
    ensures len { length bytes.new ≡ length bytes.old }
{
    bytes[at..at + 4].copy_from_slice(&others);
}

/// Makes a part of the joined bytes, if there are any, and room for one more part. Returns whether it could.
fn seal(alloc: Global, parts: &mut VecDeque<Bytes>, joined: &mut BytesMut) -> bool
    ensures sealed { IsTrue result → (joined.new.items ≡ []) × (concat parts.new.items ≡ concat parts.old.items ++ joined.old.items) }
    ensures room { IsTrue result → deque_len parts.new < deque_capacity parts.new }
    ensures some { All (λ part. 0 < length part) parts.old.items → All (λ part. 0 < length part) parts.new.items }
    ensures kept { result ≡ false → (joined.new.items ≡ joined.old.items) × (parts.new.items ≡ parts.old.items) }
{
    if parts.reserve(2).is_err() {
        return false;
    }
    if joined.is_empty() {
        return true;
    }
    match mem::replace(joined, BytesMut::new(alloc)).freeze() {
        Ok(part) => {
            parts.push_back_reserved(part);
            true
        }
        Err(refused) => {
            *joined = refused.value;
            false
        }
    }
}

/// Makes a part of the joined bytes, if there are any, and appends another part. If memory for this is short, the other
/// part is given back.
fn seal_with(
    alloc: Global,
    parts: &mut VecDeque<Bytes>,
    joined: &mut BytesMut,
    part: Bytes,
) -> Result<(), Bytes>
    requires { 0 < length part }
    ensures sealed { OnOk result ((joined.new.items ≡ []) × (concat parts.new.items ≡ concat parts.old.items ++ joined.old.items ++ part)) }
    ensures some { All (λ part. 0 < length part) parts.old.items → All (λ part. 0 < length part) parts.new.items }
    ensures kept { OnErr result ((joined.new.items ≡ joined.old.items) × (parts.new.items ≡ parts.old.items)) }
    ensures back { IfErr result (λ back. back ≡ part) }
{
    if !seal(alloc, parts, joined) {
        return Err(part);
    }
    parts.push_back_reserved(part);
    Ok(())
}
