//! Notes: what was decided on each message of a session.
ghost use Rattle.std.specs.Prelude.{◌≡◌};
ghost use Rattle.dbus_header.specs.Contents.{contents_of, message_in};
ghost use Rattle.dbus_header.specs.Message.{Message as MessageTree, Valid, spell};
ghost use Rattle.dbus_header.specs.Read.{message_seen};

use crate::{Decision, Side};
use bytes::Bytes;
use dbus_header::{KnownTexts, Message, Places, read_valid};
use std::marker::Model;

/// Reads a frame, which is a valid message. The places of its header's parts are put into `places`.
pub fn message_of<'a>(frame: &'a [u8], places: &'a mut Places) -> Message<'a>
    requires { (m : MessageTree) × Valid m × (frame.now ≡ spell m) }
    ensures bytes { result.bytes.now ≡ frame.now }
    ensures contents { (m : MessageTree) → Valid m → frame.now ≡ spell m → message_seen result ≡ contents_of m }
{
    message_by(frame, &KnownTexts::none(), places)
}

/// Reads a frame, which is a valid message, if headers and texts of other messages are known.
fn message_by<'a>(frame: &'a [u8], known: &KnownTexts, places: &'a mut Places) -> Message<'a>
    requires { (m : MessageTree) × Valid m × (frame.now ≡ spell m) }
    ensures bytes { result.bytes.now ≡ frame.now }
    ensures contents { (m : MessageTree) → Valid m → frame.now ≡ spell m → message_seen result ≡ contents_of m }
{
    read_valid(frame, known, places)
}

/// What was decided on a message of a session: whether the client's message is sent to the bus, or what the client is
/// shown of the bus's. The frame is a valid message, as received.
pub struct Note {
    number: u64,
    side: Side,
    frame: Bytes,
    decision: Decision,
}

// Its drop is a call, so that a function that drops one is short to prove.
impl Drop for Note {
    fn drop(self) {
        let Note {
            number: _number,
            side: _side,
            frame: _frame,
            decision: _decision,
        } = self;
    }
}

impl Model for Note {
    ghost use Rattle.std.specs.Prelude.{◌≡◌};
    ghost use Rattle.dbus_header.specs.Message.{Message as Tree, Valid, spell};
    ghost use Rattle.policy_view.specs.Notes.{Note as NoteValue};

    ghost Value = { NoteValue };

    ghost view = { λ n. record { number = n.number; side = n.side; frame = n.frame; decision = n.decision } };

    ghost invariant = { λ n. (m : Tree) × Valid m × (n.frame ≡ spell m) };
}

impl Note {
    /// A note on a message. The number is its number among the messages of its session, from 1, both sides counted
    /// together. The frame is a valid message.
    pub fn new(number: u64, side: Side, frame: Bytes, decision: Decision) -> Note
        requires { (m : MessageTree) × Valid m × (frame ≡ spell m) }
        ensures { result ≡ record { number = number; side = side; frame = frame; decision = decision } }
    {
        Note {
            number,
            side,
            frame,
            decision,
        }
    }

    /// The message's number in its session, from 1, both sides counted together.
    pub fn number(&self) -> u64
        ensures { result ≡ self.now.number }
    {
        self.number
    }

    /// The side that sent the message.
    pub fn side(&self) -> Side
        ensures { result ≡ self.now.side }
    {
        self.side
    }

    /// The message's bytes, as received.
    pub fn frame(&self) -> &[u8]
        ensures { result.now ≡ self.now.frame }
    {
        self.frame.as_slice()
    }

    /// Reads the message, which is valid. The places of its header's parts are put into `places`.
    pub fn message<'a>(&'a self, places: &'a mut Places) -> Message<'a>
        ensures bytes { result.bytes.now ≡ self.now.frame }
        ensures contents { message_seen result ≡ contents_of (message_in self.now.frame) }
        ensures valid { Valid (message_in self.now.frame) × (self.now.frame ≡ spell (message_in self.now.frame)) }
    {
        message_of(self.frame.as_slice(), places)
    }

    /// Reads the message, if headers and texts of other messages of its stream are known.
    pub fn message_knowing<'a>(&'a self, known: &KnownTexts, places: &'a mut Places) -> Message<'a>
        ensures bytes { result.bytes.now ≡ self.now.frame }
        ensures contents { message_seen result ≡ contents_of (message_in self.now.frame) }
        ensures valid { Valid (message_in self.now.frame) × (self.now.frame ≡ spell (message_in self.now.frame)) }
    {
        message_by(self.frame.as_slice(), known, places)
    }

    /// What was decided on the message.
    pub fn decision(&self) -> Decision
        ensures { result ≡ self.now.decision }
    {
        self.decision
    }
}
