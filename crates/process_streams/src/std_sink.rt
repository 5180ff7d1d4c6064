//! Standard output and standard error.
ghost use Rattle.std.specs.Prelude.{◌≡◌, ◌≤◌, ◌<◌, IfOk, length};
ghost use Rattle.std.specs.Io.KnownBytes.{WriteAppends};
ghost use Rattle.process_streams.specs.Writes.{writes_failed};

use crate::retries::write_waiting;
use link_traits::{Sink, SinkFault};
use std::io::Write;
use std::os::fd::{AsRawFd, RawFd};
use std::time::Clock;

/// A standard stream that bytes are written to. A write waits as long as the stream takes nothing, also if the stream
/// is non-blocking. The clock is the one that it waits by.
#[derive(Drop)]
pub struct StdSink<W: Write + Drop, C: Clock + Drop> {
    writer: W,
    clock: C,
    faults: u64,
}

impl<W: Write + Drop, C: Clock + Drop> StdSink<W, C> {
    /// The stream, before a write has failed.
    pub fn new(writer: W, clock: C) -> StdSink<W, C>
        ensures writer { result.writer ≡ writer }
        ensures faults { result.faults ≡ 0 }
    {
        StdSink {
            writer,
            clock,
            faults: 0,
        }
    }
}

impl<W: Write + Drop, C: Clock + Drop> Sink for StdSink<W, C> {
    ghost use Rattle.std.specs.Prelude.{None};

    ghost view = { λ m. record { told = None; faults = m.faults } };

    fn write(&mut self, piece: &[u8]) -> Result<usize, SinkFault>
        ensures within { IfOk result (λ n. n ≤ length piece.now) }
        ensures progress { IfOk result (λ n. 0 < length piece.now → 0 < n) }
        ensures count { self.old.faults ≤ self.new.faults }
        ensures writer { WriteAppends (W.contents self.old.writer) (W.contents self.new.writer) result piece.now }
        ensures faults { self.new.faults ≡ writes_failed result self.old.faults }
    {
        if piece.is_empty() {
            return Ok(0);
        }
        match write_waiting(&mut self.writer, &self.clock, piece) {
            Ok(n) if n > 0 => Ok(n),
            _ => {
                self.faults = self.faults.saturating_add(1);
                Err(SinkFault)
            }
        }
    }
}

impl<W: Write + AsRawFd + Drop, C: Clock + Drop> AsRawFd for StdSink<W, C> {
    ghost raw_fd = { λ sink. W.raw_fd sink.writer };

    fn as_raw_fd(&self) -> RawFd {
        self.writer.as_raw_fd()
    }
}

#[cfg(test)]
mod tests;
