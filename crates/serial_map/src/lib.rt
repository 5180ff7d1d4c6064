//! The serials of the messages that a proxy sends to the bus.
//!
//! The proxy gives each message that it sends a serial of its own, since it also sends messages that the client didn't.
//! Each serial is given once, in ascending order from 1 (D-Bus Specification, "Message Format": a serial isn't 0).
#![tactic(auto)]

pub mod laws;

ghost use Rattle.std.specs.Prelude.{◌≡◌, ◌+◌, ◌↔◌, IsErr, IfOk, OnOk, OnErr};
ghost use Rattle.serial_map.specs.Serials.{most_serials};

use std::marker::Model;
use thiserror::Error;

/// All 4,294,967,295 serials were given.
#[derive(Clone, Copy, Debug, PartialEq, Eq, Error)]
#[error("all serials were given")]
pub struct Spent;

/// The number of serials that were given. The next serial is one more.
#[derive(Debug, Drop)]
pub struct Serials {
    given: u32,
}

impl Model for Serials {
    ghost use Rattle.std.specs.Prelude.{ℕ};

    ghost Value = { ℕ };

    ghost view = { λ s. s.given };
}

impl Serials {
    /// No serial was given.
    pub fn new() -> Serials
        ensures { result ≡ 0 }
    {
        Serials { given: 0 }
    }

    /// The number of serials that can still be given.
    pub fn left(&self) -> u32
        ensures { self.now + result ≡ most_serials }
    {
        u32::MAX - self.given
    }

    /// Gives the next serial. After all were given, it always fails.
    pub fn next(&mut self) -> Result<u32, Spent>
        ensures serial { IfOk result (λ serial. serial ≡ self.old + 1) }
        ensures counted { OnOk result (self.new ≡ self.old + 1) }
        ensures spent { IsErr result ↔ (self.old ≡ most_serials) }
        ensures unchanged { OnErr result (self.new ≡ self.old) }
    {
        match self.given.checked_add(1) {
            Some(serial) => {
                self.given = serial;
                Ok(serial)
            }
            None => Err(Spent),
        }
    }
}
