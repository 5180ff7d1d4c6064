//! Messages as text.
ghost use Rattle.std.specs.Prelude.{◌≡◌, ◌≤◌, ◌++◌, ℕ, Some, IfOk, length};
ghost use Rattle.dbus_header.specs.Message.{Message as MessageTree};
ghost use Rattle.dbus_header.specs.Contents.{message_of};
ghost use Rattle.message_text.specs.MessageText.{message_text};
ghost use Rattle.message_text.specs.Printing.{head_line, print_field, print_fields, print_all_fields, print_values, print_body, print_message, body_in};
ghost use Rattle.message_text.specs.Seen.{place_seen, printed_seen};

use crate::cursor::Cursor;
use crate::numbers::number;
use crate::print_values::{typed, value};
use crate::words;
use dbus_header::{Message, is_spelled};
use dbus_values::Order;
use std::alloc::{AllocError, Global};

/// One more than the most containers within which a body's value lies (D-Bus Specification, "Type System", "Valid
/// Signatures").
pub(crate) const CONTAINERS: usize = 65;

/// That number for a header field's value, which lies in a variant.
pub(crate) const FIELD_CONTAINERS: usize = 64;

/// The first line: byte order, type, flags and serial.
fn head(out: &mut Vec<u8>, order: Order, kind: u8, flags: u8, serial: u32) -> Result<(), AllocError>
    ensures { IfOk result (λ done. out.new.items ≡ out.old.items ++ head_line order kind flags serial) }
{
    out.extend_from_slice(match order {
        Order::Little => b"l ",
        Order::Big => b"B ",
    })?;
    words::decimal(out, u64::from(kind))?;
    out.push(b' ')?;
    words::decimal(out, u64::from(flags))?;
    out.push(b' ')?;
    words::decimal(out, u64::from(serial))?;
    Ok(out.push(b'\n')?)
}

/// The line of the header field that follows.
fn field<'a>(order: Order, at: Cursor<'a>, out: &mut Vec<u8>) -> Result<Cursor<'a>, AllocError>
    ensures { IfOk result (λ x. printed_seen out.new.items x ≡ print_field order out.old.items (place_seen at.entry)) }
{
    let start = at.over_gap(8);
    words::decimal(out, start.number(order, 1))?;
    out.push(b' ')?;
    let after = typed(order, FIELD_CONTAINERS, start.onward(1), out)?;
    out.push(b'\n')?;
    Ok(after)
}

/// The lines of the header fields up to the end of the bytes.
fn fields(order: Order, first: Cursor<'_>, out: &mut Vec<u8>) -> Result<(), AllocError>
    ensures { IfOk result (λ done. out.new.items ≡ print_fields order (length first.entry.bytes.now) out.old.items (place_seen first.entry)) }
{
    let mut at = first;
    // Each field takes a byte at least.
    let mut most = at.bytes.len();
    while most > 0 && !at.bytes.is_empty() {
        at = field(order, at, out)?;
        most -= 1;
    }
    Ok(())
}

/// The lines of a message's header fields, which begin at byte 16, their length being at byte 12.
fn all_fields(order: Order, bytes: &[u8], out: &mut Vec<u8>) -> Result<(), AllocError>
    requires { 16 ≤ length bytes.now }
    ensures { IfOk result (λ done. out.new.items ≡ print_all_fields order out.old.items bytes.now) }
{
    let len = number(order, &bytes[12..16]) as usize;
    let after = Cursor {
        place: 16,
        bytes: &bytes[16..],
    };
    let inside = Cursor {
        place: 16,
        bytes: after.taken(len),
    };
    fields(order, inside, out)
}

/// A value of each type, a space before each.
fn values(
    order: Order,
    first_types: &[u8],
    first: Cursor<'_>,
    out: &mut Vec<u8>,
) -> Result<(), AllocError>
    ensures { IfOk result (λ done. out.new.items ≡ print_values order (length first_types.now) out.old.items first_types.now (place_seen first.entry)) }
{
    let mut types = first_types;
    let mut at = first;
    // Each type takes a byte at least.
    let mut most = types.len();
    while most > 0 && !types.is_empty() {
        out.push(b' ')?;
        let (others, after) = value(order, CONTAINERS, types, at, out)?;
        types = others;
        at = after;
        most -= 1;
    }
    Ok(())
}

/// The last line, with the body's values.
fn body(order: Order, types: &[u8], at: Cursor<'_>, out: &mut Vec<u8>) -> Result<(), AllocError>
    ensures { IfOk result (λ done. out.new.items ≡ print_body order out.old.items types.now (place_seen at.entry)) }
{
    out.extend_from_slice(b"body")?;
    values(order, types, at, out)?;
    Ok(out.push(b'\n')?)
}

/// Where a message's body stands: it ends where the message does.
fn body_of<'a>(bytes: &[u8], body: &'a [u8]) -> Cursor<'a>
    ensures { place_seen result ≡ body_in bytes.now body.now }
{
    Cursor {
        place: bytes.len().saturating_sub(body.len()),
        bytes: body,
    }
}

/// The text of a message, by its parts.
fn print_parts(alloc: Global, message: &Message<'_>) -> Result<Vec<u8>, AllocError>
    ensures { IfOk result (λ text. text.items ≡ print_message message.now.order message.now.kind message.now.flags message.now.serial message.now.signature.bytes.now message.now.body.now message.now.bytes.now) }
{
    let mut out = Vec::new(alloc);
    head(
        &mut out,
        message.order,
        message.kind,
        message.flags,
        message.serial,
    )?;
    all_fields(message.order, message.bytes, &mut out)?;
    let at = body_of(message.bytes, message.body);
    body(message.order, message.signature.as_bytes(), at, &mut out)?;
    Ok(out)
}

/// The text of a message. Its first line has the byte order, the type, the flags and the serial; each header field has
/// a line with its code, the type of its value and the value; the last line has the body's values.
pub fn print(alloc: Global, message: &Message<'_>) -> Result<Vec<u8>, AllocError>
    ensures { IfOk result (λ text. (m : MessageTree) → message_of message.now.bytes.now ≡ Some m → text.items ≡ message_text m) }
{
    is_spelled(message.bytes);
    print_parts(alloc, message)
}
