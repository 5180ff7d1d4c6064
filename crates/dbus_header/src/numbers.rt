//! A message's serial and reply serial, written in place.
ghost use Rattle.std.specs.Prelude.{◌≡◌, ◌≤◌, ◌<◌, ◌+◌, ℕ, Some, None, IsSome, option_and_then, length};
ghost use Rattle.dbus_header.specs.Message.{Message, Valid, spell, with_serial, with_reply_serial, with_number, reply_serial, reply_place};
ghost use Rattle.dbus_header.specs.Malformed.{order_in as stated_order};
ghost use Rattle.dbus_header.specs.Contents.{message_of, IsSerialPlace, IsReplySerialPlace};

use crate::decoding::decode;
use crate::head::order_in;
use crate::spans::Places;
use dbus_values::Order;

/// The place of the serial's number in a message (D-Bus Specification, "Message Format").
pub const SERIAL_PLACE: usize = 8;

/// Writes a number of four bytes at a place.
pub fn write_u32(order: Order, bytes: &mut [u8], place: usize, number: u32)
    requires { place + 4 ≤ length bytes.old }
    ensures { bytes.new ≡ with_number order place number bytes.old }
{
    bytes[place..place + 4].copy_from_slice(&order.bytes_of_u32(number));
}

/// The place of the serial in a message.
fn serial_place(bytes: &[u8]) -> usize
    requires { IsSome (message_of bytes.now) }
    ensures { IsSerialPlace bytes.now result }
{
    let _bytes = bytes;
    SERIAL_PLACE
}

/// The byte order of a valid message.
fn order_of(bytes: &[u8]) -> Order
    requires { IsSome (message_of bytes.now) }
    ensures order { (m : Message) → message_of bytes.now ≡ Some m → result ≡ m.order }
    ensures valid { (m : Message) → message_of bytes.now ≡ Some m → Valid m }
{
    order_in(bytes)
}

/// The place of REPLY_SERIAL's number in a message, if it has one.
fn found_place(bytes: &[u8]) -> Option<usize>
    requires { IsSome (message_of bytes.now) }
    ensures { result ≡ option_and_then reply_place (message_of bytes.now) }
{
    let mut places = Places::none();
    match decode(bytes, &mut places) {
        Ok(message) => message.reply_serial_place(),
        Err(_) => unreachable!(),
    }
}

/// The place of REPLY_SERIAL's number in a message that has one.
fn reply_serial_place(bytes: &[u8]) -> usize
    requires { IsSome (option_and_then reply_serial (message_of bytes.now)) }
    ensures { IsReplySerialPlace bytes.now result }
{
    match found_place(bytes) {
        Some(place) => place,
        None => unreachable!(),
    }
}

/// Gives a valid message another serial. Nothing else of it changes.
pub fn set_serial(bytes: &mut [u8], serial: u32)
    requires message { IsSome (message_of bytes.old) }
    requires serial { 0 < serial }
    ensures { (m : Message) → message_of bytes.old ≡ Some m → (bytes.new ≡ spell (with_serial serial m)) × Valid (with_serial serial m) }
{
    let place = serial_place(bytes);
    let order = order_of(bytes);
    write_u32(order, bytes, place, serial);
}

/// Gives a valid message that has a REPLY_SERIAL another one. Nothing else of it changes.
pub fn set_reply_serial(bytes: &mut [u8], serial: u32)
    requires message { IsSome (option_and_then reply_serial (message_of bytes.old)) }
    requires serial { 0 < serial }
    ensures { (m : Message) → message_of bytes.old ≡ Some m → (bytes.new ≡ spell (with_reply_serial serial m)) × Valid (with_reply_serial serial m) }
{
    let place = reply_serial_place(bytes);
    let order = order_of(bytes);
    write_u32(order, bytes, place, serial);
}
