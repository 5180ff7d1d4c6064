//! A sink over a writer that does what a script says.
use super::StdSink;
use link_traits::{Sink, SinkFault, write_all};
use std::alloc::{AllocError, Global};
use std::cell::Cell;
use std::io::{self, ErrorKind, Write};
use std::test::Fail;
use std::time::{Clock, Duration};

/// What a call of `write` does.
#[derive(Clone, Copy, Drop)]
enum Step {
    Fails(ErrorKind),
    Takes(usize),
}

/// A writer of a script. After the script it takes all.
#[derive(Drop)]
struct ScriptedWriter {
    steps: Vec<Step>,
    calls: usize,
    written: Vec<u8>,
}

impl ScriptedWriter {
    fn new(alloc: Global, steps: &[Step]) -> Result<ScriptedWriter, AllocError> {
        Ok(ScriptedWriter {
            steps: steps.to_vec(alloc)?,
            calls: 0,
            written: Vec::new(alloc),
        })
    }
}

impl Write for ScriptedWriter {
    fn write(&mut self, buf: &[u8]) -> io::Result<usize> {
        let step = self.steps.get(self.calls).copied();
        self.calls = self.calls.saturating_add(1);
        let count = match step {
            Some(Step::Fails(kind)) => return Err(io::Error::from(kind)),
            Some(Step::Takes(count)) => count.min(buf.len()),
            None => buf.len(),
        };
        self.written.extend_from_slice(&buf[..count])?;
        Ok(count)
    }

    fn flush(&mut self) -> io::Result<()> {
        Ok(())
    }
}

/// A clock that counts the milliseconds that were slept.
#[derive(Drop)]
struct CountingClock {
    slept: Cell<u128>,
}

impl Clock for CountingClock {
    fn monotonic(&self) -> io::Result<Duration> {
        Ok(Duration::ZERO)
    }

    fn since_1970(&self) -> io::Result<Duration> {
        Ok(Duration::ZERO)
    }

    fn sleep(&self, duration: Duration) {
        self.slept
            .set(self.slept.get().saturating_add(duration.as_millis()));
    }
}

/// A sink over a writer of this script.
fn scripted(
    alloc: Global,
    steps: &[Step],
) -> Result<StdSink<ScriptedWriter, CountingClock>, AllocError> {
    let clock = CountingClock {
        slept: Cell::new(0),
    };
    Ok(StdSink::new(ScriptedWriter::new(alloc, steps)?, clock))
}

/// A stream that takes nothing for a time is waited for, after 1, 2, 4 and up to 32 milliseconds, and none of that is a
/// fault.
#[test]
fn waits(rt: HostRuntime) -> Result<(), Fail> {
    for (kind, times, slept) in [
        (ErrorKind::WouldBlock, 0, 0),
        (ErrorKind::WouldBlock, 1, 1),
        (ErrorKind::WouldBlock, 5, 31),
        (ErrorKind::WouldBlock, 8, 127),
        (ErrorKind::Interrupted, 3, 7),
    ] {
        let mut steps = vec![in rt.alloc(); Step::Fails(kind); times]?;
        steps.push(Step::Takes(2))?;
        let mut sink = scripted(rt.alloc(), &steps)?;
        assert_eq!(rt; sink.write(b"abc"), Ok(2));
        assert_eq!(rt; sink.faults, 0);
        assert_eq!(rt; sink.clock.slept.get(), slept);
        assert_eq!(rt; sink.writer.written.as_slice(), b"ab".as_slice());
    }
    Ok(())
}

/// A write that takes a part is gone on with, also if the stream takes nothing in between.
#[test]
fn whole_line(rt: HostRuntime) -> Result<(), Fail> {
    let steps = [
        Step::Takes(1),
        Step::Fails(ErrorKind::WouldBlock),
        Step::Takes(2),
        Step::Fails(ErrorKind::Interrupted),
    ];
    let mut sink = scripted(rt.alloc(), &steps)?;
    assert_eq!(rt; write_all(&mut sink, b"a line\n"), Ok(()));
    assert_eq!(rt; sink.writer.written.as_slice(), b"a line\n".as_slice());
    assert_eq!(rt; sink.faults, 0);
    Ok(())
}

/// Another error is a fault, and so is a write that takes nothing. An empty piece is never written.
#[test]
fn faults(rt: HostRuntime) -> Result<(), Fail> {
    let steps = [
        Step::Fails(ErrorKind::WouldBlock),
        Step::Fails(ErrorKind::BrokenPipe),
        Step::Takes(0),
    ];
    let mut sink = scripted(rt.alloc(), &steps)?;
    assert_eq!(rt; sink.write(b"abc"), Err(SinkFault));
    assert_eq!(rt; sink.faults, 1);
    assert_eq!(rt; sink.write(b"abc"), Err(SinkFault));
    assert_eq!(rt; sink.faults, 2);
    assert_eq!(rt; sink.write(b""), Ok(0));
    assert_eq!(rt; sink.writer.calls, 3);
    assert_eq!(rt; sink.write(b"abc"), Ok(3));
    assert_eq!(rt; sink.faults, 2);
    Ok(())
}
