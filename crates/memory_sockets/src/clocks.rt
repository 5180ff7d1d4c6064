//! The time in memory.
ghost use Rattle.std.specs.Prelude.{◌≡◌, ◌+◌, ◌-◌, ◌*◌, ◌^◌, min, Ok};
ghost use Rattle.std.specs.Duration.{as_nanos};
ghost use Rattle.memory_sockets.specs.Clocks.{IsReading};

use std::io;
use std::time::{Clock, Duration, Instant};

/// A clock that stands still until it is moved on.
#[derive(Clone, Copy)]
pub struct ClockInMemory {
    // What it read before it was moved on.
    start: Option<Instant>,
    time: Duration,
}

/// The start of a clock.
#[derive(Clone, Copy)]
struct StartOfClock;

impl ClockInMemory {
    /// A clock at its start.
    pub fn new() -> ClockInMemory
        ensures { as_nanos result.time ≡ 0 }
    {
        ClockInMemory {
            start: Instant::now(&StartOfClock).ok(),
            time: Duration::ZERO,
        }
    }

    /// Moves it on, up to the longest duration.
    pub fn pass(&mut self, duration: Duration)
        ensures time { as_nanos self.new.time ≡ min (as_nanos self.old.time + as_nanos duration) (2 ^ 64 * 1_000_000_000 - 1) }
        ensures start { self.new.start ≡ self.old.start }
    {
        self.time = self.time.saturating_add(duration);
    }

    /// How far it was moved on.
    pub fn elapsed(&self) -> Duration
        ensures { result ≡ self.now.time }
    {
        self.time
    }

    /// What it reads.
    pub fn read(&self) -> Option<Instant>
        ensures { IsReading self.now.start (as_nanos self.now.time) result }
    {
        match self.start {
            Some(start) => start.checked_add(self.time),
            None => None,
        }
    }
}

impl Clock for StartOfClock {
    fn monotonic(&self) -> io::Result<Duration>
        ensures { result ≡ Ok Duration.ZERO }
    {
        Ok(Duration::ZERO)
    }

    fn since_1970(&self) -> io::Result<Duration>
        ensures { result ≡ Ok Duration.ZERO }
    {
        Ok(Duration::ZERO)
    }
}
