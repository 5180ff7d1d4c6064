//! The stream of a side: the lines of authentication, if the session begins with them, and then messages.
ghost use Rattle.std.specs.Prelude.{◌≡◌, ◌≤◌, ◌<◌, ◌+◌, ◌^◌, [], true, Some, IsTrue, IfOk, IfErr, OnOk, OnErr, length, take};
ghost use Rattle.dbus_framing.specs.Knows.{IsWhole};
ghost use Rattle.dbus_header.specs.Contents.{contents_of, message_in};
ghost use Rattle.dbus_header.specs.Malformed.{fault};
ghost use Rattle.dbus_header.specs.Placed.{IsPlaced};
ghost use Rattle.dbus_header.specs.Read.{message_seen};
ghost use Rattle.sasl_watch.specs.Watching.{BusGives, ClientGives};
ghost use Rattle.policy_view.specs.History.{longest_stream};
ghost use Rattle.proxy_core.specs.Streams.{InMessages, GaveLine, is_in_lines as in_lines, new_stream, pushed};

use bytes::Bytes;
use dbus_framing::{Framer, Messages};
use dbus_header::{KnownTexts, Malformed, Message, Places};
use policy_view::Note;
use sasl_watch::{Lines, NextLine};
use std::alloc::{AllocError, Global};
use std::marker::Model;
use std::mem;

/// What is taken from the start of the stream.
#[derive(Drop)]
pub(crate) enum Content {
    Lines(Lines),
    Messages(Framer),
}

/// The stream of a side. Its lines are the client's up to BEGIN, or as many of the bus's as answer the client's.
pub(crate) struct Stream {
    /// The number of bytes that were received.
    came: u64,
    content: Content,
    /// The number of lines that were taken: of the client's, without the NUL and BEGIN.
    lines: u64,
    /// What is known of the texts in the messages that were read.
    known: KnownTexts,
    alloc: Global,
}

// Its drop is a call, so that a function that drops one is short to prove.
impl Drop for Stream {
    fn drop(self) {
        let Stream {
            came: _came,
            content: _content,
            lines: _lines,
            known: _known,
            alloc: _alloc,
        } = self;
    }
}

impl Model for Stream {
    ghost use Rattle.proxy_core.specs.Streams.{StreamView, phase_of, left_in, Sound};

    ghost Value = { StreamView };

    ghost view = { λ s. record { came = s.came; phase = phase_of s.content; left = left_in s.content; lines = s.lines } };

    ghost invariant = { λ s. Sound s.came s.content s.lines };
}

impl Stream {
    /// A stream from which nothing was received.
    pub(crate) fn new(alloc: Global, auth: bool) -> Stream
        ensures { result ≡ new_stream auth }
    {
        let content = if auth {
            Content::Lines(Lines::new(alloc))
        } else {
            Content::Messages(Framer::new(alloc))
        };
        Stream {
            came: 0,
            content,
            lines: 0,
            known: KnownTexts::new(alloc),
            alloc,
        }
    }

    /// The number of bytes that were received.
    pub(crate) fn came(&self) -> u64
        ensures value { result ≡ self.now.came }
        ensures bound { result ≤ longest_stream }
    {
        self.came
    }

    /// The number of lines that were taken.
    pub(crate) fn lines(&self) -> u64
        ensures { result ≡ self.now.lines }
    {
        self.lines
    }

    /// The number of bytes that aren't yet a whole line or message.
    pub(crate) fn len(&self) -> usize
        ensures value { result ≡ length self.now.left }
        ensures bound { result < 2 ^ 63 }
    {
        match &self.content {
            Content::Lines(lines) => lines.len(),
            Content::Messages(framer) => framer.len(),
        }
    }

    /// Whether the stream is still in its lines.
    pub(crate) fn is_in_lines(&self) -> bool
        ensures { result ≡ in_lines self.now.phase }
    {
        match &self.content {
            Content::Lines(_) => true,
            Content::Messages(_) => false,
        }
    }

    /// Appends bytes to what is left.
    pub(crate) fn push(&mut self, bytes: &[u8]) -> Result<(), AllocError>
        requires { self.old.came + length bytes.now ≤ longest_stream }
        ensures ok { OnOk result (self.new ≡ pushed bytes.now self.old) }
        ensures err { OnErr result (self.new ≡ self.old) }
    {
        match &mut self.content {
            Content::Lines(lines) => lines.push(bytes)?,
            Content::Messages(framer) => framer.push(bytes)?,
        }
        self.came += bytes.len() as u64;
        Ok(())
    }

    /// Takes memory that another stream gave back, if the stream is in its messages.
    pub(crate) fn take_room(&mut self, room: &mut Vec<u8>)
        requires { room.old.items ≡ [] }
        ensures same { self.new ≡ self.old }
        ensures room { room.new.items ≡ [] }
    {
        if let Content::Messages(framer) = &mut self.content {
            framer.take_room(room);
        }
    }

    /// Gives memory back for another stream, if the stream is in its messages.
    pub(crate) fn give_room(&mut self, room: &mut Vec<u8>)
        requires { room.old.items ≡ [] }
        ensures same { self.new ≡ self.old }
        ensures room { room.new.items ≡ [] }
    {
        if let Content::Messages(framer) = &mut self.content {
            framer.give_room(room);
        }
    }

    /// Takes what is first in the client's stream, which is in its lines.
    pub(crate) fn next_client_line(&mut self) -> Result<NextLine, AllocError>
        requires { in_lines self.old.phase ≡ true }
        ensures ok { IfOk result (λ next. GaveLine ClientGives self.old next self.new) }
        ensures err { OnErr result (self.new ≡ self.old) }
    {
        let next = match &mut self.content {
            Content::Lines(lines) => lines.next_of_client()?,
            Content::Messages(_) => unreachable!(),
        };
        if let NextLine::Line(_) = &next {
            self.lines += 1;
        }
        Ok(next)
    }

    /// Takes what is first in the bus's stream, which is in its lines. `unanswered` is the number of the client's lines
    /// that wait for an answer, and `begun` says whether the client has sent BEGIN.
    pub(crate) fn next_bus_line(
        &mut self,
        unanswered: u64,
        begun: bool,
    ) -> Result<NextLine, AllocError>
        requires { in_lines self.old.phase ≡ true }
        ensures ok { IfOk result (λ next. GaveLine (BusGives unanswered begun) self.old next self.new) }
        ensures err { OnErr result (self.new ≡ self.old) }
    {
        let next = match &mut self.content {
            Content::Lines(lines) => lines.next_of_bus(unanswered, begun)?,
            Content::Messages(_) => unreachable!(),
        };
        if let NextLine::Line(_) = &next {
            self.lines += 1;
        }
        Ok(next)
    }

    /// Moves what is left out of the stream, which is in its messages.
    pub(crate) fn lend_messages(&mut self) -> Framer
        requires { self.old.phase ≡ InMessages }
        ensures left { result ≡ self.old.left }
        ensures rest { self.new ≡ record self.old { left = [] } }
    {
        match &mut self.content {
            Content::Lines(_) => unreachable!(),
            Content::Messages(framer) => mem::replace(framer, Framer::new(self.alloc)),
        }
    }

    /// Counts a piece of messages as received, while none of their bytes are left, and gives its messages. It isn't
    /// copied.
    pub(crate) fn lend_piece<'a>(&mut self, piece: &'a [u8]) -> Result<Messages<'a>, AllocError>
        requires messages { self.old.phase ≡ InMessages }
        requires none { self.old.left ≡ [] }
        requires room { self.old.came + length piece.now ≤ longest_stream }
        ensures piece { IfOk result (λ messages. messages ≡ piece.now) }
        ensures ok { OnOk result (self.new ≡ record self.old { came = self.old.came + length piece.now }) }
        ensures err { OnErr result (self.new ≡ self.old) }
    {
        match &mut self.content {
            Content::Lines(_) => unreachable!(),
            Content::Messages(framer) => {
                let messages = Messages::passing(framer, piece)?;
                self.came += piece.len() as u64;
                Ok(messages)
            }
        }
    }

    /// Checks the first message of what was moved out; its head states its length. What is known of its header is kept
    /// here; nothing else changes.
    #[inline(always)]
    pub(crate) fn check_message(
        &mut self,
        lent: &Messages<'_>,
        len: usize,
        places: &mut Places,
    ) -> Result<(), Malformed>
        requires { IsWhole lent.now len }
        ensures placed { OnOk result (IsPlaced (take len lent.now) places.new) }
        ensures bad { IfErr result (λ f. fault lent.now ≡ Some f) }
        ensures stays { self.new ≡ self.old }
    {
        lent.check(len, &mut self.known, places)
    }

    /// Reads the message of a note on one of this stream. Its header isn't checked again if it is still known.
    pub(crate) fn message_of<'a>(&self, note: &'a Note, places: &'a mut Places) -> Message<'a>
        ensures bytes { result.bytes.now ≡ note.now.frame }
        ensures contents { message_seen result ≡ contents_of (message_in note.now.frame) }
    {
        note.message_knowing(&self.known, places)
    }

    /// Puts what is left back into the stream.
    pub(crate) fn put_messages(&mut self, messages: Messages<'_>)
        requires messages { self.old.phase ≡ InMessages }
        requires none { self.old.left ≡ [] }
        ensures { self.new ≡ record self.old { left = messages.entry } }
    {
        match &mut self.content {
            Content::Lines(_) => unreachable!(),
            Content::Messages(framer) => messages.put_back(framer),
        }
    }

    /// Takes all bytes that are left, whatever they hold. The stream is in its messages.
    pub(crate) fn left(&mut self) -> Result<Bytes, AllocError>
        requires { self.old.phase ≡ InMessages }
        ensures bytes { IfOk result (λ bytes. bytes ≡ self.old.left) }
        ensures ok { OnOk result (self.new ≡ record self.old { left = [] }) }
        ensures err { OnErr result (self.new ≡ self.old) }
    {
        match &mut self.content {
            Content::Lines(_) => unreachable!(),
            Content::Messages(framer) => framer.left(),
        }
    }

    /// Ends the lines and begins with messages. If memory is short, bytes may be lost.
    pub(crate) fn begin_messages(&mut self) -> Result<(), AllocError>
        requires { in_lines self.old.phase ≡ true }
        ensures ok { OnOk result (self.new ≡ record self.old { phase = InMessages }) }
        ensures err { OnErr result (length self.new.left ≤ length self.old.left) }
    {
        let left = match &mut self.content {
            Content::Lines(lines) => lines.left()?,
            Content::Messages(_) => unreachable!(),
        };
        // The buffer of the lines is dropped first, so that what is left of it has one owner and isn't copied.
        self.content = Content::Messages(Framer::new(self.alloc));
        self.content = Content::Messages(Framer::with_bytes(self.alloc, left)?);
        Ok(())
    }
}
