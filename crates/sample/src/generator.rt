//! The draws of a sample: each makes a message of the bus, and before it one of the client or none.
ghost use Rattle.std.specs.Prelude.{◌≡◌, ◌≤◌, ◌<◌, ◌+◌, ◌%◌, ◌^◌, ◌++◌, nat_lt, OnOk, length};
ghost use Rattle.dbus_header.specs.Message.{spell};
ghost use Rattle.sample.specs.Made.{asked_events, made_events, to_come};
ghost use Rattle.sample.specs.Sample.{asked, asked_event, draws, kind_drawn as kind_of, next_draw as next_of, told};

use crate::draws::{Draws, Made};
use crate::messages::{Peer, put_echo, put_echoed, put_pinged, put_tick};
use bytes::BytesMut;
use itoa::Buffer;
use std::alloc::{AllocError, Global};

/// The most draws of a sample.
pub const MOST_DRAWS: u32 = 100_000;

/// The number that is drawn after another.
fn next_draw(drawn: u32) -> u32
    ensures { result ≡ next_of drawn }
{
    ((u64::from(drawn) * 1_103_515_245 + 12_345) % 0x8000_0000) as u32
}

/// The kind of draw that a number makes.
fn kind_drawn(drawn: u32) -> u32
    ensures { result ≡ kind_of drawn }
{
    (drawn / 65_536) % 4
}

impl Made {
    /// No messages.
    pub(crate) fn new(alloc: Global) -> Made {
        Made {
            asked: false,
            client: BytesMut::new(alloc),
            bus: BytesMut::new(alloc),
        }
    }

    /// Makes the client's message of a draw of a kind.
    fn ask(&mut self, kind: u32, serial: u32, text: &str) -> Result<(), AllocError>
        requires { length text.now ≤ 40 }
        ensures ok { OnOk result (asked_events self.new ≡ asked_event (asked kind serial text.now)) }
        ensures asked { OnOk result (self.new.asked ≡ nat_lt kind 2) }
        ensures short { OnOk result (length self.new.client.items ≤ 149) }
    {
        self.client.clear();
        self.asked = kind < 2;
        match kind {
            0 => put_echo(&mut self.client, Peer::A, serial, text),
            1 => put_echo(&mut self.client, Peer::B, serial, text),
            _ => Ok(()),
        }
    }

    /// Makes the bus's message of a draw of a kind, which answers the message at a place among those that the proxy
    /// sends, or is a signal.
    fn tell(&mut self, kind: u32, place: u32, serial: u32, text: &str) -> Result<(), AllocError>
        requires { length text.now ≤ 40 }
        ensures ok { OnOk result (self.new.bus.items ≡ spell (told kind place serial text.now)) }
        ensures short { OnOk result (length self.new.bus.items ≤ 149) }
        ensures kept { (self.new.asked ≡ self.old.asked) × (self.new.client ≡ self.old.client) }
    {
        self.bus.clear();
        match kind {
            0 => put_echoed(&mut self.bus, place, serial, text),
            1 => put_pinged(&mut self.bus, place, serial),
            2 => put_tick(&mut self.bus, Peer::A, serial, text),
            _ => put_tick(&mut self.bus, Peer::B, serial, text),
        }
    }
}

impl Draws {
    /// All draws of a sample.
    pub(crate) fn new(n: u32, seed: u64) -> Draws
        requires { n ≤ MOST_DRAWS }
        ensures all { to_come result ≡ draws n 1 (seed % 2 ^ 31) 2 4 }
        ensures count { result.left ≡ n }
    {
        Draws {
            left: n,
            number: 1,
            drawn: (seed % 0x8000_0000) as u32,
            client_serial: 2,
            bus_serial: 4,
        }
    }

    /// Makes the messages of the next draw.
    pub(crate) fn next(&mut self, made: &mut Made) -> Result<(), AllocError>
        requires { 0 < self.old.left }
        ensures ok { OnOk result (to_come self.old ≡ made_events made.new ++ to_come self.new) }
        ensures short { OnOk result ((length made.new.client.items ≤ 149) × (length made.new.bus.items ≤ 149)) }
        ensures count { OnOk result (self.new.left + 1 ≡ self.old.left) }
    {
        let drawn = next_draw(self.drawn);
        let kind = kind_drawn(drawn);
        let mut digits = Buffer::new();
        let text = digits.format(self.number);
        made.ask(kind, self.client_serial, text)?;
        made.tell(kind, self.client_serial + 2, self.bus_serial, text)?;
        *self = Draws {
            left: self.left - 1,
            number: self.number + 1,
            drawn,
            client_serial: if kind < 2 {
                self.client_serial + 1
            } else {
                self.client_serial
            },
            bus_serial: self.bus_serial + 1,
        };
        Ok(())
    }
}
