//! What is known of the first message.
ghost use Rattle.std.specs.Prelude.{◌≡◌, ℕ, ◌<◌, length};
ghost use Rattle.dbus_framing.specs.Knows.{Knows};
ghost use Rattle.dbus_framing.specs.declared.state.State.TheVariants.{AwaitsHead, AwaitsMessage};

use dbus_header::Malformed;

/// What is known of the first message, so that each head is read once.
#[derive(Clone, Copy)]
pub(crate) enum State {
    /// Nothing: fewer bytes than a head may have been received.
    AwaitsHead,
    /// Its head is valid and states this length of the whole message.
    AwaitsMessage(usize),
    /// Its head isn't that of a valid message.
    Bad(Malformed),
}

/// What the head of the first message says, if it was received whole.
fn read_head(left: &[u8]) -> State
    ensures known { Knows result left.now }
    ensures short { result ≡ AwaitsHead → length left.now < 16 }
{
    match left.first_chunk::<16>() {
        None => State::AwaitsHead,
        Some(first16) => match dbus_header::length(first16) {
            Ok(len) => State::AwaitsMessage(len as usize),
            Err(fault) => State::Bad(fault),
        },
    }
}

impl State {
    /// The length of the whole message, or 0 if it isn't known.
    pub(crate) fn awaited(self) -> usize
        ensures { (len : ℕ) → self ≡ AwaitsMessage len → result ≡ len }
    {
        match self {
            State::AwaitsMessage(len) => len,
            _ => 0,
        }
    }

    /// What is known after the head was read.
    pub(crate) fn with_head(self, left: &[u8]) -> State
        requires { Knows self left.now }
        ensures known { Knows result left.now }
        ensures short { result ≡ AwaitsHead → length left.now < 16 }
    {
        match self {
            State::AwaitsHead => read_head(left),
            _ => self,
        }
    }
}
