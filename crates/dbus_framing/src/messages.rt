//! The messages of a stream that weren't taken yet, in a framer or in a piece of the stream.
ghost use Rattle.std.specs.Prelude.{◌≡◌, ◌≤◌, [], Some, IfOk, IfErr, IfSome, OnOk, length, take, drop};
ghost use Rattle.dbus_header.specs.Message.{Message as MessageTree};
ghost use Rattle.dbus_header.specs.Malformed.{fault};
ghost use Rattle.dbus_header.specs.Placed.{IsPlaced};
ghost use Rattle.dbus_framing.specs.Framing.{Looks, Takes};
ghost use Rattle.dbus_framing.specs.Knows.{IsWhole};

use crate::Front;
use crate::framer::Framer;
use crate::passing::Passing;
use bytes::Bytes;
use dbus_header::{KnownTexts, Malformed, Message, Places};
use std::alloc::AllocError;
use std::marker::Model;

/// Where the bytes of the messages are.
#[derive(Drop)]
pub(crate) enum Source<'a> {
    /// In a framer, to which they were pushed.
    Kept(Framer),
    /// In a piece that was received when no bytes were left.
    Passed(Passing<'a>),
}

/// The messages of a stream that weren't taken yet, in a framer or in a piece that was received with nothing left
/// before it. Call `front`, `check`, `checked` and `take`, and then `put_back`, which gives the rest to the stream's framer.
#[derive(Drop)]
pub struct Messages<'a> {
    source: Source<'a>,
}

impl<'a> Model for Messages<'a> {
    ghost use Rattle.std.specs.Prelude.{List, ℕ};
    ghost use Rattle.dbus_framing.specs.Coming.{coming_from};

    ghost Value = { List ℕ };

    ghost view = { λ m. coming_from m.source };
}

impl<'a> Messages<'a> {
    /// The messages in a framer.
    pub fn kept(framer: Framer) -> Messages<'a>
        ensures { result ≡ framer }
    {
        Messages {
            source: Source::Kept(framer),
        }
    }

    /// The messages in a piece, which are read in place. The framer lends its memory, in which room for the whole piece
    /// is reserved here; `put_back` copies the rest into it. An error says that memory for this ran out.
    pub fn passing(framer: &mut Framer, piece: &'a [u8]) -> Result<Messages<'a>, AllocError>
        requires { framer.old ≡ [] }
        ensures piece { IfOk result (λ messages. messages ≡ piece.now) }
        ensures stays { framer.new ≡ [] }
    {
        let passing = Passing::new(framer.lend_room(), piece)?;
        Ok(Messages {
            source: Source::Passed(passing),
        })
    }

    /// Says whether the first message is complete, by its head alone. Each head is read once. The stream doesn't
    /// change.
    pub fn front(&mut self) -> Front
        ensures looks { Looks self.old result }
        ensures stays { self.new ≡ self.old }
    {
        match &mut self.source {
            Source::Kept(framer) => framer.front(),
            Source::Passed(passing) => passing.front(),
        }
    }

    /// Checks the first message in place; `front` has said its length. Headers and texts that `known` has aren't checked
    /// again. The places of its header's parts are put into `places`.
    #[inline(always)]
    pub fn check(
        &self,
        len: usize,
        known: &mut KnownTexts,
        places: &mut Places,
    ) -> Result<(), Malformed>
        requires { IsWhole self.now len }
        ensures placed { OnOk result (IsPlaced (take len self.now) places.new) }
        ensures bad { IfErr result (λ f. fault self.now ≡ Some f) }
    {
        match &self.source {
            Source::Kept(framer) => framer.check(len, known, places),
            Source::Passed(passing) => passing.check(len, known, places),
        }
    }

    /// The first message, which `check` has checked. It is read in place.
    #[inline(always)]
    pub fn checked<'m>(&'m self, len: usize, places: &'m Places) -> Message<'m>
        requires whole { IsWhole self.now len }
        requires placed { IsPlaced (take len self.now) places.now }
        ensures bytes { result.bytes.now ≡ take len self.now }
        ensures valid { (m : MessageTree) × Takes self.now result.bytes.now (drop len self.now) m }
    {
        match &self.source {
            Source::Kept(framer) => framer.checked(len, places),
            Source::Passed(passing) => passing.checked(len, places),
        }
    }

    /// Lends the bytes of the first message without a copy, if they are many, are in a framer, and memory for that is
    /// left. `front` has said their number. They stay here too.
    pub fn shared(&mut self, len: usize) -> Option<Bytes>
        requires { len ≤ length self.old }
        ensures front { IfSome result (λ bytes. bytes ≡ take len self.old) }
        ensures stays { self.new ≡ self.old }
    {
        match &mut self.source {
            Source::Kept(framer) => framer.shared(len),
            Source::Passed(_) => None,
        }
    }

    /// Removes that many bytes from the start.
    pub fn take(&mut self, len: usize)
        requires { len ≤ length self.old }
        ensures { self.new ≡ drop len self.old }
    {
        match &mut self.source {
            Source::Kept(framer) => framer.take(len),
            Source::Passed(passing) => passing.take(len),
        }
    }

    /// Puts all bytes that weren't taken into the framer, which holds none. Those of a piece are copied into memory
    /// that was reserved for them.
    pub fn put_back(self, framer: &mut Framer)
        requires { framer.old ≡ [] }
        ensures { framer.new ≡ self.entry }
    {
        match self.source {
            Source::Kept(kept) => *framer = kept,
            Source::Passed(passing) => passing.put_back(framer),
        }
    }
}
