//! When a call that the system refused for a time is tried again.
ghost use Rattle.std.specs.Prelude.{◌≡◌, ◌≤◌, ◌-◌, ◌*◌, None, Some, nat_le};
ghost use Rattle.std.specs.Time.{instant_nanos};
ghost use Rattle.std.specs.Duration.{as_nanos};
ghost use Rattle.proxy_net.specs.Connecting.{IsLater};
ghost use Rattle.proxy_net.specs.Delays.{next_delay, is_time as is_time_for};

use std::time::{Duration, Instant};

/// The milliseconds before the first new try. They double from try to try: a short want of room or of descriptors costs
/// little time, and a long one costs few calls.
pub const FIRST_DELAY: u64 = 1;

/// The most milliseconds between two tries, so that a peer isn't kept waiting long once there is room.
pub const LONGEST_DELAY: u64 = 32;

/// The milliseconds for which the system is waited for if the clock can't be read: as long as between two tries at
/// most.
pub const BLIND_DELAY: u64 = 32;

/// The milliseconds before the next try, by those before the last one. Those are 0 before the first try.
pub fn delay_after(delay: u64) -> u64
    ensures { result ≡ next_delay delay }
{
    if delay == 0 {
        FIRST_DELAY
    } else {
        delay.saturating_mul(2).min(LONGEST_DELAY)
    }
}

/// The time after a duration, or the same time if the clock ends before.
pub fn later(now: Instant, duration: Duration) -> Instant
    ensures time { IsLater now (as_nanos duration) result }
    ensures after { instant_nanos now ≤ instant_nanos result }
{
    match now.checked_add(duration) {
        Some(time) => time,
        None => now,
    }
}

/// Whether it is time for a try that is due then. It is if its time isn't known, or the clock can't be read.
pub fn is_time(due: Option<Instant>, now: Option<Instant>) -> bool
    ensures { result ≡ is_time_for due now }
{
    match (due, now) {
        (Some(due), Some(now)) => is_by(due, now),
        _ => true,
    }
}

/// Whether a time isn't after another.
pub fn is_by(time: Instant, other: Instant) -> bool
    ensures { result ≡ nat_le (instant_nanos time) (instant_nanos other) }
{
    time.saturating_duration_since(other).as_nanos() == 0
}

/// How long it is until a time. If the clock can't be read, it is `BLIND_DELAY`.
pub fn delay_until(time: Instant, now: Option<Instant>) -> Duration
    ensures known { (clock : Instant) → now ≡ Some clock → as_nanos result ≡ instant_nanos time - instant_nanos clock }
    ensures blind { now ≡ None → as_nanos result ≡ BLIND_DELAY * 1_000_000 }
{
    match now {
        Some(now) => time.saturating_duration_since(now),
        None => Duration::from_millis(BLIND_DELAY),
    }
}
