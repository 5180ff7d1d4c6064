//! The messages of a sample. Each has the number of its draw for its text, in decimal.
ghost use Rattle.std.specs.Prelude.{◌≡◌, ◌≤◌, ◌<◌, ◌+◌, ◌^◌, ◌∷◌, ◌++◌, [], List, ℕ, codes, length, OnOk, OnErr};
ghost use Rattle.dbus_header.specs.Message.{spell};
ghost use Rattle.dbus_names.specs.Names.{bus_name};
ghost use Rattle.sample.specs.Fronts.{echo_template as template_of_echo, name_of, sender_of, tick_template as template_of_tick, with_numbers};
ghost use Rattle.sample.specs.Sample.{echo, own_id, return, text as body, tick};

use bytes::BytesMut;
use dbus_header::{SERIAL_PLACE, write_u32};
use dbus_values::Order;
use std::alloc::AllocError;

/// A peer of the client: org.sample.A, to which it may talk, or org.sample.B, which it doesn't see.
#[derive(Clone, Copy, Debug, PartialEq, Eq)]
pub(crate) enum Peer {
    A,
    B,
}

/// The place of the body's length in a message.
const BODY_LEN_PLACE: usize = 4;

/// The place of the number of REPLY_SERIAL in a return.
const REPLY_SERIAL_PLACE: usize = 20;

/// How many bytes a body of a text has beside the text: its length, and the NUL after it.
const BESIDE_TEXT: u32 = 5;

/// A call of Echo up to its text, with 0 for its serial and for the lengths of its body and its text.
const ECHO_A: [u8; 108] = *b"\
    l\x01\0\x01\0\0\0\0\0\0\0\0W\0\0\0\
    \x01\x01o\0\x02\0\0\0/s\0\0\0\0\0\0\
    \x02\x01s\0\x0c\0\0\0org.sample.A\0\0\0\0\
    \x03\x01s\0\x04\0\0\0Echo\0\0\0\0\
    \x06\x01s\0\x0c\0\0\0org.sample.A\0\0\0\0\
    \x08\x01g\0\x01s\0\0\
    \0\0\0\0";

/// The message to the other peer.
const ECHO_B: [u8; 108] = *b"\
    l\x01\0\x01\0\0\0\0\0\0\0\0W\0\0\0\
    \x01\x01o\0\x02\0\0\0/s\0\0\0\0\0\0\
    \x02\x01s\0\x0c\0\0\0org.sample.B\0\0\0\0\
    \x03\x01s\0\x04\0\0\0Echo\0\0\0\0\
    \x06\x01s\0\x0c\0\0\0org.sample.B\0\0\0\0\
    \x08\x01g\0\x01s\0\0\
    \0\0\0\0";

/// A signal Tick up to its text.
const TICK_A: [u8; 100] = *b"\
    l\x04\0\x01\0\0\0\0\0\0\0\0O\0\0\0\
    \x01\x01o\0\x02\0\0\0/s\0\0\0\0\0\0\
    \x02\x01s\0\x0c\0\0\0org.sample.A\0\0\0\0\
    \x03\x01s\0\x04\0\0\0Tick\0\0\0\0\
    \x07\x01s\0\x04\0\0\0:1.5\0\0\0\0\
    \x08\x01g\0\x01s\0\0\
    \0\0\0\0";

/// The messages of the other peer.
const TICK_B: [u8; 100] = *b"\
    l\x04\0\x01\0\0\0\0\0\0\0\0O\0\0\0\
    \x01\x01o\0\x02\0\0\0/s\0\0\0\0\0\0\
    \x02\x01s\0\x0c\0\0\0org.sample.B\0\0\0\0\
    \x03\x01s\0\x04\0\0\0Tick\0\0\0\0\
    \x07\x01s\0\x04\0\0\0:1.6\0\0\0\0\
    \x08\x01g\0\x01s\0\0\
    \0\0\0\0";

/// The return to a call of Echo up to its text, with 0 for REPLY_SERIAL too.
const ECHOED: [u8; 68] = *b"\
    l\x02\x01\x01\0\0\0\0\0\0\0\0/\0\0\0\
    \x05\x01u\0\0\0\0\0\
    \x06\x01s\0\x05\0\0\0:1.40\0\0\0\
    \x07\x01s\0\x04\0\0\0:1.5\0\0\0\0\
    \x08\x01g\0\x01s\0\0\
    \0\0\0\0";

/// The bus's return to a ping, with 0 for its serial and for REPLY_SERIAL.
const PINGED: [u8; 72] = *b"\
    l\x02\x01\x01\0\0\0\0\0\0\0\x005\0\0\0\
    \x05\x01u\0\0\0\0\0\
    \x06\x01s\0\x05\0\0\0:1.40\0\0\0\
    \x07\x01s\0\x14\0\0\0org.freedesktop.DBus\0\0\0\0";

/// Puts in a message's serial, and the lengths of its body and of the text with which that begins.
fn set_numbers(front: &mut [u8], text_len_place: usize, serial: u32, text_len: u32)
    requires text { text_len_place + 4 ≤ length front.old }
    requires serial { SERIAL_PLACE + 4 ≤ text_len_place }
    requires short { text_len + BESIDE_TEXT < 2 ^ 32 }
    ensures { front.new ≡ with_numbers text_len_place serial text_len front.old }
{
    write_u32(Order::Little, front, BODY_LEN_PLACE, text_len + BESIDE_TEXT);
    write_u32(Order::Little, front, SERIAL_PLACE, serial);
    write_u32(Order::Little, front, text_len_place, text_len);
}

/// Puts a message that ends in a text after the others, in one growth.
fn put_text(out: &mut BytesMut, front: &[u8], text: &str) -> Result<(), AllocError>
    requires { length front.now + length text.now + 1 < 2 ^ 64 }
    ensures ok { OnOk result (out.new.items ≡ out.old.items ++ (front.now ++ (text.now ++ 0 ∷ []))) }
    ensures short { OnOk result (length out.new.items ≡ length out.old.items + length front.now + length text.now + 1) }
    ensures err { OnErr result (out.new.items ≡ out.old.items) }
{
    out.reserve(front.len() + text.len() + 1)?;
    out.extend_reserved(front);
    out.extend_reserved(text.as_bytes());
    out.extend_reserved(b"\0");
    Ok(())
}

fn echo_template(peer: Peer) -> [u8; 108]
    ensures { result ≡ template_of_echo peer }
{
    match peer {
        Peer::A => ECHO_A,
        Peer::B => ECHO_B,
    }
}

fn tick_template(peer: Peer) -> [u8; 100]
    ensures { result ≡ template_of_tick peer }
{
    match peer {
        Peer::A => TICK_A,
        Peer::B => TICK_B,
    }
}

/// The bytes of a call of Echo in front of its text.
fn echo_front(peer: Peer, serial: u32, text_len: u32) -> [u8; 108]
    requires { text_len + BESIDE_TEXT < 2 ^ 32 }
    ensures { (t : List ℕ) → length t ≡ text_len → result ++ (t ++ 0 ∷ []) ≡ spell (echo (name_of peer) serial t) }
{
    let mut front = echo_template(peer);
    set_numbers(&mut front, 104, serial, text_len);
    front
}

/// Puts a call of Echo of a peer.
pub(crate) fn put_echo(
    out: &mut BytesMut,
    peer: Peer,
    serial: u32,
    text: &str,
) -> Result<(), AllocError>
    requires { length text.now ≤ 40 }
    ensures ok { OnOk result (out.new.items ≡ out.old.items ++ spell (echo (name_of peer) serial text.now)) }
    ensures short { OnOk result (length out.new.items ≤ length out.old.items + 149) }
    ensures err { OnErr result (out.new.items ≡ out.old.items) }
{
    let front = echo_front(peer, serial, text.len() as u32);
    put_text(out, &front, text)
}

/// The bytes of a signal Tick in front of its text.
fn tick_front(peer: Peer, serial: u32, text_len: u32) -> [u8; 100]
    requires { text_len + BESIDE_TEXT < 2 ^ 32 }
    ensures { (t : List ℕ) → length t ≡ text_len → result ++ (t ++ 0 ∷ []) ≡ spell (tick (sender_of peer) (name_of peer) serial t) }
{
    let mut front = tick_template(peer);
    set_numbers(&mut front, 96, serial, text_len);
    front
}

/// Puts a signal Tick of a peer.
pub(crate) fn put_tick(
    out: &mut BytesMut,
    peer: Peer,
    serial: u32,
    text: &str,
) -> Result<(), AllocError>
    requires { length text.now ≤ 40 }
    ensures ok { OnOk result (out.new.items ≡ out.old.items ++ spell (tick (sender_of peer) (name_of peer) serial text.now)) }
    ensures short { OnOk result (length out.new.items ≤ length out.old.items + 149) }
    ensures err { OnErr result (out.new.items ≡ out.old.items) }
{
    let front = tick_front(peer, serial, text.len() as u32);
    put_text(out, &front, text)
}

/// The bytes of a return to a call of Echo in front of its text.
fn echoed_front(reply: u32, serial: u32, text_len: u32) -> [u8; 68]
    requires { text_len + BESIDE_TEXT < 2 ^ 32 }
    ensures { (t : List ℕ) → length t ≡ text_len → result ++ (t ++ 0 ∷ []) ≡ spell (return serial reply (codes ":1.5") own_id (body t)) }
{
    let mut front = ECHOED;
    write_u32(Order::Little, &mut front, REPLY_SERIAL_PLACE, reply);
    set_numbers(&mut front, 64, serial, text_len);
    front
}

/// Puts a return to a call of Echo.
pub(crate) fn put_echoed(
    out: &mut BytesMut,
    reply: u32,
    serial: u32,
    text: &str,
) -> Result<(), AllocError>
    requires { length text.now ≤ 40 }
    ensures ok { OnOk result (out.new.items ≡ out.old.items ++ spell (return serial reply (codes ":1.5") own_id (body text.now))) }
    ensures short { OnOk result (length out.new.items ≤ length out.old.items + 149) }
    ensures err { OnErr result (out.new.items ≡ out.old.items) }
{
    let front = echoed_front(reply, serial, text.len() as u32);
    put_text(out, &front, text)
}

/// The bus's return to a ping.
fn pinged(reply: u32, serial: u32) -> [u8; 72]
    ensures { result ≡ spell (return serial reply bus_name own_id []) }
{
    let mut bytes = PINGED;
    write_u32(Order::Little, &mut bytes, REPLY_SERIAL_PLACE, reply);
    write_u32(Order::Little, &mut bytes, SERIAL_PLACE, serial);
    bytes
}

/// Puts the bus's return to a ping.
pub(crate) fn put_pinged(out: &mut BytesMut, reply: u32, serial: u32) -> Result<(), AllocError>
    ensures ok { OnOk result (out.new.items ≡ out.old.items ++ spell (return serial reply bus_name own_id [])) }
    ensures short { OnOk result (length out.new.items ≤ length out.old.items + 149) }
    ensures err { OnErr result (out.new.items ≡ out.old.items) }
{
    out.extend_from_slice(&pinged(reply, serial))
}
