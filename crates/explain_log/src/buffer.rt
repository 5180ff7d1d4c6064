//! Lines on their way to a sink.
ghost use Rattle.std.specs.Prelude.{◌≡◌, ◌≤◌, ◌++◌, ℕ, List, [], OnErr, OnOk, IsTrue, false, length};
ghost use Rattle.link_traits.specs.Told.{added};
ghost use Rattle.link_traits.specs.Views.{SinkRose};
ghost use Rattle.dbus_header.specs.Contents.{contents_of, message_in};
ghost use Rattle.dbus_header.specs.Read.{message_seen};
ghost use Rattle.explain_log.specs.Buffers.{GoesOut};
ghost use Rattle.explain_log.specs.Lines.{log_line};

use crate::pieces::{Numbers, pieces};
use dbus_header::Message;
use link_traits::{Sink, SinkFault, write_all};
use policy_view::Note;
use std::alloc::Global;
use std::marker::Model;

/// The most bytes that wait in a buffer: 64 KiB, the capacity of a pipe on Linux. Longer writes would save few calls,
/// and the lines of a session wait in no more bytes than this, however many they are.
pub const LONG: usize = 65_536;

/// Lines that are joined before they are written, so that one write carries many.
///
/// It joins as many bytes as it gets memory for, at most `LONG`. Bytes for which it gets none go to the sink at once,
/// so no line is lost for want of memory. `put_line` puts a line after those that wait, and `write_out` writes what
/// waits. A write may end within a line. After an error the buffer is of no more use, since it isn't known which of its
/// bytes were written.
#[derive(Drop)]
pub struct LineBuffer {
    bytes: Vec<u8>,
}

impl Model for LineBuffer {
    ghost Value = { List ℕ };

    ghost view = { λ b. b.bytes.items };
}

impl LineBuffer {
    /// A buffer in which nothing waits. It takes no memory before the first line, and then takes it as it grows.
    pub fn new(alloc: Global) -> LineBuffer
        ensures { result ≡ [] }
    {
        LineBuffer {
            bytes: Vec::new(alloc),
        }
    }

    /// Puts bytes after what waits, unless more than `LONG` bytes would wait or memory is refused. Answers whether it
    /// did.
    fn keep(&mut self, bytes: &[u8]) -> bool
        ensures kept { IsTrue result → self.new ≡ self.old ++ bytes.now }
        ensures left { result ≡ false → self.new ≡ self.old }
        ensures most { IsTrue result → length self.new ≤ LONG }
    {
        self.bytes.len().saturating_add(bytes.len()) <= LONG
            && self.bytes.extend_from_slice(bytes).is_ok()
    }

    /// Puts bytes after what waits. If they can't be joined what waits is written first, and if they can't be kept then
    /// either, they are written too.
    fn put<S: Sink>(&mut self, sink: &mut S, bytes: &[u8]) -> Result<(), SinkFault>
        ensures ok { OnOk result (GoesOut (self.old ++ bytes.now) self.new (S.view sink.old).told (S.view sink.new).told) }
        ensures most { OnOk result (length self.new ≤ LONG) }
        ensures err { OnErr result ((rest : List ℕ) × GoesOut (self.old ++ bytes.now) rest (S.view sink.old).told (S.view sink.new).told) }
        ensures cause { OnErr result (SinkRose (S.view sink.old) (S.view sink.new)) }
        ensures count { (S.view sink.old).faults ≤ (S.view sink.new).faults }
    {
        if self.keep(bytes) {
            return Ok(());
        }
        self.write_out(sink)?;
        if self.keep(bytes) {
            return Ok(());
        }
        write_all(sink, bytes)
    }

    /// Puts the line of a note, whose message was read, after what waits, with the number of its session. If more than
    /// `LONG` bytes would wait, or memory is refused for more, what waits is written first. On an error, a prefix of
    /// what waited and of the line was written.
    pub fn put_line<S: Sink>(
        &mut self,
        sink: &mut S,
        session: u32,
        note: &Note,
        message: &Message<'_>,
    ) -> Result<(), SinkFault>
        requires { message_seen message.now ≡ contents_of (message_in note.now.frame) }
        ensures ok { OnOk result (GoesOut (self.old ++ log_line session note.now) self.new (S.view sink.old).told (S.view sink.new).told) }
        ensures most { OnOk result (length self.new ≤ LONG) }
        ensures err { OnErr result ((rest : List ℕ) × GoesOut (self.old ++ log_line session note.now) rest (S.view sink.old).told (S.view sink.new).told) }
        ensures cause { OnErr result (SinkRose (S.view sink.old) (S.view sink.new)) }
        ensures count { (S.view sink.old).faults ≤ (S.view sink.new).faults }
    {
        let mut numbers = Numbers::new();
        for piece in pieces(&mut numbers, session, note, message) {
            self.put(sink, piece.as_bytes())?;
        }
        Ok(())
    }

    /// Writes what waits. On an error, a prefix of it was written.
    pub fn write_out<S: Sink>(&mut self, sink: &mut S) -> Result<(), SinkFault>
        ensures ok { OnOk result ((self.new ≡ []) × ((S.view sink.new).told ≡ added self.old (S.view sink.old).told)) }
        ensures err { OnErr result ((rest : List ℕ) × GoesOut self.old rest (S.view sink.old).told (S.view sink.new).told) }
        ensures cause { OnErr result (SinkRose (S.view sink.old) (S.view sink.new)) }
        ensures count { (S.view sink.old).faults ≤ (S.view sink.new).faults }
    {
        write_all(sink, &self.bytes)?;
        self.bytes.clear();
        Ok(())
    }
}
