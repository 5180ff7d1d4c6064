//! Messages, read in place.
ghost use Rattle.std.specs.Prelude.{◌≡◌, ◌≤◌, ◌+◌, ℕ, Some, option_map, length};
ghost use Rattle.dbus_header.specs.Contents.{message_of, contents_of};
ghost use Rattle.dbus_header.specs.KnownHeaders.{AreWithin, found_at};
ghost use Rattle.dbus_header.specs.Placed.{contents_at};

use crate::spans::Places;
use dbus_types::Signature;
use dbus_values::Order;

/// A valid message (D-Bus Specification, "Message Format"). Its signature and its body are parts of its bytes, and so
/// are the texts of its header fields, which are taken by their places when they are asked for.
///
/// ```text
///   bytes   head     fields                                      body
///          +--------+-------------------------------------------+-----------+
///          | 16     | .. path .. member .. destination ..       |           |
///          +--------+-------------------------------------------+-----------+
///                       ^ places.path      ^ places.destination
/// ```
#[derive(Clone, Copy)]
pub struct Message<'a> {
    /// The byte order of its numbers.
    pub order: Order,
    /// The message type: 1 METHOD_CALL, 2 METHOD_RETURN, 3 ERROR, 4 SIGNAL, or a greater number, which has no name.
    pub kind: u8,
    /// The flags, as received.
    pub flags: u8,
    pub serial: u32,
    /// The types of the body's values. They are none if SIGNATURE is absent.
    pub signature: Signature<'a>,
    pub body: &'a [u8],
    /// The whole message.
    pub bytes: &'a [u8],
    /// The bytes of the header fields, and of the padding after them.
    pub(crate) fields: &'a [u8],
    /// The places of the parts of the header fields.
    pub(crate) places: &'a Places,
    ghost read: { option_map contents_of (message_of bytes.now) ≡ Some (contents_at order kind flags serial fields.now places.now signature.bytes.now body.now) },
    ghost within: { AreWithin fields.now places.now },
    ghost long: { 16 ≤ length bytes.now },
    ghost inside: { (number place : ℕ) → (found_at order fields.now places.now).parts.reply_serial ≡ Some number → (found_at order fields.now places.now).reply_place ≡ Some place → place + 4 ≤ length bytes.now },
}
