//! Writes that are tried again while the stream takes nothing.
ghost use Rattle.std.specs.Prelude.{◌≡◌, ◌*◌, min, false, IfErr};
ghost use Rattle.std.specs.Io.{WritesAtMost};
ghost use Rattle.std.specs.Io.KnownBytes.{WriteAppends};
ghost use Rattle.std.specs.IoError.{error_kind};
ghost use Rattle.process_streams.specs.Writes.{is_retried as is_tried_again};

use std::io::{self, ErrorKind, Write};
use std::thread::sleep;
use std::time::{Clock, Duration};

/// The first pause before a write is tried again, in milliseconds.
const FIRST_PAUSE: u64 = 1;

/// The longest pause, in milliseconds.
const LONGEST_PAUSE: u64 = 32;

/// Whether a write that failed in this way is tried again: the stream takes nothing at this time, or a signal came
/// first.
pub fn is_retried(kind: ErrorKind) -> bool
    ensures { result ≡ is_tried_again kind }
{
    matches!(kind, ErrorKind::WouldBlock | ErrorKind::Interrupted)
}

/// The pause after this one.
fn next_pause(pause: u64) -> u64
    ensures { result ≡ min (2 * pause) 32 }
{
    pause.saturating_mul(2).min(LONGEST_PAUSE)
}

/// Writes a piece, and tries again while the stream takes nothing, as a blocking stream would wait. The answer is the
/// first one that isn't tried again.
pub fn write_waiting<W: Write, C: Clock>(
    writer: &mut W,
    clock: &C,
    piece: &[u8],
) -> io::Result<usize>
    ensures bound { WritesAtMost result piece.now }
    ensures bytes { WriteAppends (W.contents writer.old) (W.contents writer.new) result piece.now }
    ensures answer { IfErr result (λ error. is_tried_again (error_kind error) ≡ false) }
{
    let mut pause = FIRST_PAUSE;
    for _ in 0..u64::MAX {
        match writer.write(piece) {
            Err(error) if is_retried(error.kind()) => {
                sleep(clock, Duration::from_millis(pause));
                pause = next_pause(pause);
            }
            answer => return answer,
        }
    }
    Err(io::Error::from(ErrorKind::TimedOut))
}
