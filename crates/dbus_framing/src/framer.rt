//! The messages of a stream whose pieces are copied into a buffer.
ghost use Rattle.std.specs.Prelude.{◌≡◌, ◌==◌, ◌^◌, ◌<◌, ◌≤◌, ◌++◌, [], Some, IfOk, IfErr, IfSome, OnOk, OnErr, length, take, drop};
ghost use Rattle.dbus_header.specs.Message.{Message as MessageTree};
ghost use Rattle.dbus_header.specs.Malformed.{fault};
ghost use Rattle.dbus_header.specs.Placed.{IsPlaced};
ghost use Rattle.dbus_header.specs.declared.Malformed.{Malformed as Fault};
ghost use Rattle.dbus_framing.specs.Framing.{Gives, Looks, Takes};
ghost use Rattle.dbus_framing.specs.Knows.{IsWhole, Knows};
ghost use Rattle.dbus_framing.specs.declared.state.State.TheVariants.{AwaitsHead};

use crate::buffer::Buffer;
use crate::state::State;
use crate::{Front, Next};
use bytes::Bytes;
use dbus_header::{KnownTexts, Malformed, Message, Places, check_whole, placed};
use std::alloc::{AllocError, Global};
use std::marker::Model;

/// While a longer message is incomplete, the room that was reserved for it is kept.
const LONGEST_GIVEN: usize = 65_535;

/// A stream of messages. `push` adds a piece, `front` says whether a message is complete, `message` reads it in place,
/// and `take` removes it.
///
/// ```text
///   message in front   what follows
/// +------------------+--------------+
/// | head    ..       | ..           |
/// +------------------+--------------+
///   ^ take                          ^ push
/// ```
#[derive(Drop)]
pub struct Framer {
    bytes: Buffer,
    state: State,
    alloc: Global,
}

impl Model for Framer {
    ghost use Rattle.std.specs.Prelude.{List, ℕ};

    ghost Value = { List ℕ };

    ghost use Rattle.dbus_framing.specs.Knows.{Knows};

    ghost view = { λ f. f.bytes };

    ghost invariant = { λ f. Knows f.state f.bytes };
}

/// What the head of the first message says of the bytes.
pub(crate) fn looked(state: State, left: &[u8]) -> Front
    requires known { Knows state left.now }
    requires short { state ≡ AwaitsHead → length left.now < 16 }
    ensures { Looks left.now result }
{
    match state {
        State::AwaitsHead => Front::Incomplete,
        State::Bad(fault) => Front::Bad(fault),
        State::AwaitsMessage(len) => {
            if left.len() < len {
                return Front::Incomplete;
            }
            Front::Whole(len)
        }
    }
}

/// Checks the first message, which has that length, and puts the places of its header's parts into `places`.
#[inline(always)]
pub(crate) fn check_in_front(
    left: &[u8],
    len: usize,
    known: &mut KnownTexts,
    places: &mut Places,
) -> Result<(), Malformed>
    requires { IsWhole left.now len }
    ensures placed { OnOk result (IsPlaced (take len left.now) places.new) }
    ensures bad { IfErr result (λ f. fault left.now ≡ Some f) }
{
    let (message, _) = left.split_at(len);
    check_whole(message, known, places)
}

/// The first message, which has that length and was checked.
#[inline(always)]
pub(crate) fn checked_in_front<'a>(left: &'a [u8], len: usize, places: &'a Places) -> Message<'a>
    requires whole { IsWhole left.now len }
    requires placed { IsPlaced (take len left.now) places.now }
    ensures bytes { result.bytes.now ≡ take len left.now }
    ensures valid { (m : MessageTree) × Takes left.now result.bytes.now (drop len left.now) m }
{
    let (message, _) = left.split_at(len);
    placed(message, places)
}

impl Framer {
    /// An empty stream. It allocates nothing until the first piece.
    pub fn new(alloc: Global) -> Framer
        ensures { result ≡ [] }
    {
        Framer {
            bytes: Buffer::new(alloc),
            state: State::AwaitsHead,
            alloc,
        }
    }

    /// A framer to which these bytes were pushed. They stay in their memory if nothing else refers to them.
    pub fn with_bytes(alloc: Global, bytes: Bytes) -> Result<Framer, AllocError>
        ensures { IfOk result (λ framer. framer ≡ bytes) }
    {
        Ok(Framer {
            bytes: Buffer::with_bytes(alloc, bytes)?,
            state: State::AwaitsHead,
            alloc,
        })
    }

    /// Lends out its memory while it holds no bytes.
    pub(crate) fn lend_room(&mut self) -> Vec<u8>
        requires { self.old ≡ [] }
        ensures room { result.items ≡ [] }
        ensures stays { self.new ≡ [] }
    {
        self.bytes.lend_room()
    }

    /// Puts in the bytes of a vector, in its memory, with what is known of the message in front.
    pub(crate) fn fill(&mut self, bytes: Vec<u8>, state: State)
        requires { Knows state bytes.items }
        ensures { self.new ≡ bytes.items }
    {
        self.bytes.fill(bytes);
        self.state = state;
    }

    /// The number of bytes that were pushed and not taken yet.
    pub fn len(&self) -> usize
        ensures value { result ≡ length self.now }
        ensures bound { result < 2 ^ 63 }
    {
        self.bytes.len()
    }

    /// Whether all bytes that were pushed were taken.
    pub fn is_empty(&self) -> bool
        ensures { result ≡ (length self.now == 0) }
    {
        self.bytes.len() == 0
    }

    /// Appends a piece of the stream.
    pub fn push(&mut self, piece: &[u8]) -> Result<(), AllocError>
        ensures ok { OnOk result (self.new ≡ self.old ++ piece.now) }
        ensures err { OnErr result (self.new ≡ self.old) }
        ensures bad_stays { (f : Fault) → fault self.old ≡ Some f → fault self.new ≡ Some f }
    {
        self.bytes.push(piece, self.state.awaited())
    }

    /// Uses memory that another framer gave back, for the bytes that are pushed next.
    pub fn take_room(&mut self, room: &mut Vec<u8>)
        requires { room.old.items ≡ [] }
        ensures same { self.new ≡ self.old }
        ensures room { room.new.items ≡ [] }
    {
        self.bytes.take_room(room);
    }

    /// Gives back memory for another framer. A framer in which no bytes wait keeps none. One that waits for the rest of
    /// a long message keeps what it has.
    pub fn give_room(&mut self, room: &mut Vec<u8>)
        requires { room.old.items ≡ [] }
        ensures same { self.new ≡ self.old }
        ensures room { room.new.items ≡ [] }
    {
        if self.state.awaited() <= LONGEST_GIVEN {
            self.bytes.give_room(room);
        }
    }

    /// Says whether the first message is complete, by its head alone. Each head is read once. The stream doesn't
    /// change.
    pub fn front(&mut self) -> Front
        ensures looks { Looks self.old result }
        ensures stays { self.new ≡ self.old }
    {
        let state = self.state.with_head(self.bytes.as_slice());
        self.state = state;
        let front = looked(state, self.bytes.as_slice());
        if let Front::Incomplete = front {
            self.bytes.release();
        }
        front
    }

    /// Reads the first message in place; `front` has said its length. Headers and texts that `known` has aren't checked
    /// again. The places of its header's parts are put into `places`.
    pub fn message<'a>(
        &'a self,
        len: usize,
        known: &mut KnownTexts,
        places: &'a mut Places,
    ) -> Result<Message<'a>, Malformed>
        requires { IsWhole self.now len }
        ensures bytes { IfOk result (λ message. message.bytes.now ≡ take len self.now) }
        ensures valid { IfOk result (λ message. (m : MessageTree) × Takes self.now message.bytes.now (drop len self.now) m) }
        ensures bad { IfErr result (λ f. fault self.now ≡ Some f) }
    {
        self.check(len, known, places)?;
        Ok(self.checked(len, places))
    }

    /// Checks the first message in place; `front` has said its length. Headers and texts that `known` has aren't checked
    /// again. The places of its header's parts are put into `places`.
    #[inline(always)]
    pub(crate) fn check(
        &self,
        len: usize,
        known: &mut KnownTexts,
        places: &mut Places,
    ) -> Result<(), Malformed>
        requires { IsWhole self.now len }
        ensures placed { OnOk result (IsPlaced (take len self.now) places.new) }
        ensures bad { IfErr result (λ f. fault self.now ≡ Some f) }
    {
        check_in_front(self.bytes.as_slice(), len, known, places)
    }

    /// The first message, which `check` has checked.
    #[inline(always)]
    pub(crate) fn checked<'a>(&'a self, len: usize, places: &'a Places) -> Message<'a>
        requires whole { IsWhole self.now len }
        requires placed { IsPlaced (take len self.now) places.now }
        ensures bytes { result.bytes.now ≡ take len self.now }
        ensures valid { (m : MessageTree) × Takes self.now result.bytes.now (drop len self.now) m }
    {
        checked_in_front(self.bytes.as_slice(), len, places)
    }

    /// Lends the bytes of the first message without a copy, if they are many and memory for that is left. `front` has
    /// said their number. They stay in the framer too.
    pub fn shared(&mut self, len: usize) -> Option<Bytes>
        requires { len ≤ length self.old }
        ensures front { IfSome result (λ bytes. bytes ≡ take len self.old) }
        ensures stays { self.new ≡ self.old }
    {
        self.bytes.shared(len)
    }

    /// Removes that many bytes from the start.
    pub fn take(&mut self, len: usize)
        requires { len ≤ length self.old }
        ensures { self.new ≡ drop len self.old }
    {
        self.bytes.take(len);
        self.state = State::AwaitsHead;
    }

    /// Takes the first message, if it is whole and valid, as bytes of its own. Else nothing changes, and after `Bad`
    /// each answer is the same.
    pub fn next(&mut self) -> Result<Next, AllocError>
        ensures gives { IfOk result (λ next. Gives self.old next self.new) }
        ensures err { OnErr result (self.new ≡ self.old) }
    {
        let len = match self.front() {
            Front::Whole(len) => len,
            Front::Incomplete => return Ok(Next::Incomplete),
            Front::Bad(fault) => return Ok(Next::Bad(fault)),
        };
        let mut places = Places::none();
        let frame = match self.message(len, &mut KnownTexts::none(), &mut places) {
            Ok(message) => Bytes::copy_from_slice(self.alloc, message.bytes)?,
            Err(fault) => return Ok(Next::Bad(fault)),
        };
        self.take(len);
        Ok(Next::Whole(frame))
    }

    /// Takes all bytes that were pushed and not taken yet, whatever they hold. None is copied. An error says that
    /// memory ran out; then nothing changes.
    pub fn left(&mut self) -> Result<Bytes, AllocError>
        ensures bytes { IfOk result (λ bytes. bytes ≡ self.old) }
        ensures ok { OnOk result (self.new ≡ []) }
        ensures err { OnErr result (self.new ≡ self.old) }
    {
        let left = self.bytes.take_all()?;
        self.state = State::AwaitsHead;
        self.bytes.release();
        Ok(left)
    }
}
