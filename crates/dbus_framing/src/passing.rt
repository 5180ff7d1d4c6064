//! A piece of a stream whose messages are read in place.
ghost use Rattle.std.specs.Prelude.{◌≡◌, ◌≤◌, [], Some, IfOk, IfErr, OnOk, length, take, drop, vec_capacity};
ghost use Rattle.dbus_header.specs.Message.{Message as MessageTree};
ghost use Rattle.dbus_header.specs.Malformed.{fault};
ghost use Rattle.dbus_header.specs.Placed.{IsPlaced};
ghost use Rattle.dbus_framing.specs.Framing.{Looks, Takes};
ghost use Rattle.dbus_framing.specs.Knows.{IsWhole};

use crate::Front;
use crate::framer::{Framer, check_in_front, checked_in_front, looked};
use crate::state::State;
use dbus_header::{KnownTexts, Malformed, Message, Places};
use std::alloc::AllocError;
use std::marker::Model;

/// The part of a piece that wasn't taken yet, and memory that the stream's framer lent. The memory has room for the
/// whole part, so keeping the rest can't fail.
///
/// ```text
///   taken      left                     room, empty
/// +----------+---------------+        +------------------------+
/// |          |               |  rest  |                        |
/// +----------+---------------+   to   +------------------------+
///              ^ take
/// ```
#[derive(Drop)]
pub(crate) struct Passing<'a> {
    left: &'a [u8],
    state: State,
    room: Vec<u8>,
}

impl<'a> Model for Passing<'a> {
    ghost use Rattle.std.specs.Prelude.{◌≡◌, ◌≤◌, List, ℕ, [], length, vec_capacity};

    ghost Value = { List ℕ };

    ghost use Rattle.dbus_framing.specs.Knows.{Knows};

    ghost view = { λ p. p.left.now };

    ghost invariant = { λ p. Knows p.state p.left.now × (p.room.items ≡ []) × (length p.left.now ≤ vec_capacity p.room) };
}

/// A copy of bytes, in memory that has room for them.
fn copied_into(mut room: Vec<u8>, bytes: &[u8]) -> Vec<u8>
    requires empty { room.items ≡ [] }
    requires room { length bytes.now ≤ vec_capacity room }
    ensures { result.items ≡ bytes.now }
{
    match room.extend_from_slice(bytes) {
        Ok(()) => room,
        Err(_) => unreachable!(),
    }
}

impl<'a> Passing<'a> {
    /// A piece, and memory without bytes. An error says that memory for the whole piece ran out.
    pub(crate) fn new(mut room: Vec<u8>, piece: &'a [u8]) -> Result<Passing<'a>, AllocError>
        requires { room.items ≡ [] }
        ensures { IfOk result (λ passing. passing ≡ piece.now) }
    {
        room.reserve(piece.len())?;
        Ok(Passing {
            left: piece,
            state: State::AwaitsHead,
            room,
        })
    }

    /// Says whether the first message is complete, by its head alone. Each head is read once. Nothing else changes.
    pub(crate) fn front(&mut self) -> Front
        ensures looks { Looks self.old result }
        ensures stays { self.new ≡ self.old }
    {
        let state = self.state.with_head(self.left);
        self.state = state;
        looked(state, self.left)
    }

    /// Checks the first message, whose length `front` has said.
    #[inline(always)]
    pub(crate) fn check(
        &self,
        len: usize,
        known: &mut KnownTexts,
        places: &mut Places,
    ) -> Result<(), Malformed>
        requires { IsWhole self.now len }
        ensures placed { OnOk result (IsPlaced (take len self.now) places.new) }
        ensures bad { IfErr result (λ f. fault self.now ≡ Some f) }
    {
        check_in_front(self.left, len, known, places)
    }

    /// The first message, which `check` has checked.
    #[inline(always)]
    pub(crate) fn checked<'m>(&'m self, len: usize, places: &'m Places) -> Message<'m>
        requires whole { IsWhole self.now len }
        requires placed { IsPlaced (take len self.now) places.now }
        ensures bytes { result.bytes.now ≡ take len self.now }
        ensures valid { (m : MessageTree) × Takes self.now result.bytes.now (drop len self.now) m }
    {
        checked_in_front(self.left, len, places)
    }

    /// Removes that many bytes from the start.
    pub(crate) fn take(&mut self, len: usize)
        requires { len ≤ length self.old }
        ensures { self.new ≡ drop len self.old }
    {
        self.left = &self.left[len..];
        self.state = State::AwaitsHead;
    }

    /// Gives the framer its memory back, with the rest in it.
    pub(crate) fn put_back(self, framer: &mut Framer)
        requires { framer.old ≡ [] }
        ensures { framer.new ≡ self.entry }
    {
        let Passing { left, state, room } = self;
        framer.fill(copied_into(room, left), state);
    }
}
