//! Messages read from a text.
ghost use Rattle.std.specs.Prelude.{◌≡◌, ◌++◌, ◌+◌, ◌-◌, Some, None, IfOk, option_map, length, suc, take, drop, if◌then◌else◌};
ghost use Rattle.message_text.specs.Reading.{order_at, head_bytes, read_head, read_field, valid_signature, signature_in as types_in_field, or_else, read_fields, read_values, or_none, read_body, read_rest, read_message, with_gap};
ghost use Rattle.message_text.specs.Seen.{rest_seen, bytes_seen};

use crate::basic_values::{NO_LEN, Rest, put_gap, put_len};
use crate::print_message::{CONTAINERS, FIELD_CONTAINERS};
use crate::read_values::{is_signature, typed, value};
use crate::tokens::{after_byte, number_up_to};
use dbus_values::{Order, padding};
use std::alloc::{AllocError, Global};

/// The place of the header fields, after the first sixteen bytes of a message (D-Bus Specification, "Message Format").
const FIELDS_PLACE: usize = 16;

/// The place of their length.
const FIELDS_LEN_PLACE: usize = 12;

/// The place of the body's length.
const BODY_LEN_PLACE: usize = 4;

/// The code of the header field SIGNATURE.
const SIGNATURE: u8 = 8;

fn order(text: &[u8]) -> Option<(Order, &[u8])>
    ensures { option_map (λ x. (x.0, x.1.now)) result ≡ order_at text.now }
{
    match text {
        [b'l', rest @ ..] => Some((Order::Little, rest)),
        [b'B', rest @ ..] => Some((Order::Big, rest)),
        _ => None,
    }
}

/// The header before the fields, the lengths not yet being known.
fn put_head(
    order: Order,
    kind: u8,
    flags: u8,
    serial: u32,
    out: &mut Vec<u8>,
) -> Result<(), AllocError>
    ensures { IfOk result (λ done. out.new.items ≡ out.old.items ++ head_bytes order kind flags serial) }
{
    let first = match order {
        Order::Little => b'l',
        Order::Big => b'B',
    };
    out.extend_from_slice(&[first, kind, flags, 1])?;
    out.extend_from_slice(&NO_LEN)?;
    out.extend_from_slice(&order.bytes_of_u32(serial))?;
    out.extend_from_slice(&NO_LEN)
}

/// The numbers of the first line.
#[derive(Clone, Copy)]
struct Head {
    order: Order,
    kind: u8,
    flags: u8,
    serial: u32,
}

/// The first line.
fn first_line(text: &[u8]) -> Option<(Head, &[u8])>
    ensures { option_map (λ x. ((x.0.order, head_bytes x.0.order x.0.kind x.0.flags x.0.serial), x.1.now)) result ≡ read_head text.now }
{
    let (order, rest) = order(text)?;
    let (kind, rest) = number_up_to(0xff, after_byte(b' ', rest)?)?;
    let (flags, rest) = number_up_to(0xff, after_byte(b' ', rest)?)?;
    let (serial, rest) = number_up_to(0xffff_ffff, after_byte(b' ', rest)?)?;
    let rest = after_byte(b'\n', rest)?;
    let head = Head {
        order,
        kind: kind as u8,
        flags: flags as u8,
        serial: serial as u32,
    };
    Some((head, rest))
}

/// A header field's line: its code, and what follows.
fn field<'a>(
    order: Order,
    text: &'a [u8],
    out: &mut Vec<u8>,
) -> Result<Option<(u8, &'a [u8])>, AllocError>
    ensures { IfOk result (λ x. option_map (λ y. (y.0, (out.new.items, y.1.now))) x ≡ read_field order out.old.items text.now) }
{
    let (code, rest) = match number_up_to(0xff, text) {
        Some(found) => found,
        None => return Ok(None),
    };
    let next = match after_byte(b' ', rest) {
        Some(found) => found,
        None => return Ok(None),
    };
    put_gap(out, 8)?;
    out.push(code as u8)?;
    let after = match typed(order, FIELD_CONTAINERS, next, out)? {
        Some(found) => found,
        None => return Ok(None),
    };
    match after_byte(b'\n', after) {
        Some(found) => Ok(Some((code as u8, found))),
        None => Ok(None),
    }
}

/// What follows a place in bytes.
fn suffix(start: usize, bytes: &[u8]) -> &[u8]
    ensures { result.now ≡ drop start bytes.now }
{
    let (_, rest) = bytes.split_at(start.min(bytes.len()));
    rest
}

/// Where the value of the next header field's variant is to begin, after its code.
fn value_place(out: &[u8]) -> usize
    ensures { result ≡ length (with_gap 8 out.now) + 1 }
{
    out.len() + padding(8, out.len()) + 1
}

/// The bytes, if they are a valid signature.
fn signature(types: &[u8]) -> Option<&[u8]>
    ensures { option_map rest_seen result ≡ valid_signature types.now }
{
    if is_signature(types) {
        Some(types)
    } else {
        None
    }
}

/// A signature without its length and its NUL, after the three bytes of its type.
fn inside(field: &[u8]) -> &[u8]
    ensures { result.now ≡ take (length (drop 4 field.now) - 1) (drop 4 field.now) }
{
    let value = suffix(4, field);
    let (types, _) = value.split_at(value.len().saturating_sub(1));
    types
}

/// The valid signature that the variant of a SIGNATURE field holds, which states the types of the body.
fn signature_in(code: u8, field: &[u8]) -> Option<&[u8]>
    ensures { option_map rest_seen result ≡ types_in_field code field.now }
{
    if code == SIGNATURE && field.starts_with(&[1, b'g', 0]) {
        signature(inside(field))
    } else {
        None
    }
}

/// Keeps the first types that a field states.
fn keep_types(
    alloc: Global,
    types: &mut Option<Vec<u8>>,
    code: u8,
    field: &[u8],
) -> Result<(), AllocError>
    ensures { IfOk result (λ done. option_map (λ v. v.items) types.new ≡ or_else (option_map (λ v. v.items) types.old) (types_in_field code field.now)) }
{
    if types.is_some() {
        return Ok(());
    }
    if let Some(found) = signature_in(code, field) {
        *types = Some(Vec::from_slice(alloc, found)?);
    }
    Ok(())
}

/// The lines of the header fields, up to the word `body`, after which the rest stands.
fn fields<'a>(
    alloc: Global,
    order: Order,
    text: &'a [u8],
    types: &mut Option<Vec<u8>>,
    out: &mut Vec<u8>,
) -> Rest<'a>
    ensures { IfOk result (λ x. option_map (λ y. (option_map (λ v. v.items) types.new, (out.new.items, y.now))) x ≡ read_fields order (suc (length text.now)) (option_map (λ v. v.items) types.old) out.old.items text.now) }
{
    let mut rest = text;
    // Each field takes a byte of the text at least.
    let mut most = text.len() + 1;
    while most > 0 {
        if rest.starts_with(b"body") {
            return Ok(Some(suffix(4, rest)));
        }
        let start = value_place(out);
        let (code, after) = match field(order, rest, out)? {
            Some(found) => found,
            None => return Ok(None),
        };
        keep_types(alloc, types, code, suffix(start, out))?;
        rest = after;
        most -= 1;
    }
    Ok(None)
}

/// A value of each type, a space before each.
fn values<'a>(order: Order, first_types: &'a [u8], text: &'a [u8], out: &mut Vec<u8>) -> Rest<'a>
    ensures { IfOk result (λ x. option_map (bytes_seen out.new.items) x ≡ read_values order (suc (length first_types.now)) first_types.now out.old.items text.now) }
{
    let mut types = first_types;
    let mut rest = text;
    // Each type takes a byte at least.
    let mut most = first_types.len() + 1;
    while most > 0 {
        if types.is_empty() {
            return Ok(Some(rest));
        }
        let next = match after_byte(b' ', rest) {
            Some(found) => found,
            None => return Ok(None),
        };
        let (others, after) = match value(order, CONTAINERS, types, next, out)? {
            Some(found) => found,
            None => return Ok(None),
        };
        types = others;
        rest = after;
        most -= 1;
    }
    Ok(None)
}

/// The body's values up to the end of the text, and the body's length; whether they have the form.
fn body(order: Order, types: &[u8], text: &[u8], out: &mut Vec<u8>) -> Result<bool, AllocError>
    ensures { IfOk result (λ x. (if x then Some out.new.items else None) ≡ read_body order types.now out.old.items text.now) }
{
    let start = out.len();
    let rest = match values(order, types, text, out)? {
        Some(found) => found,
        None => return Ok(false),
    };
    let end = match after_byte(b'\n', rest) {
        Some(found) => found,
        None => return Ok(false),
    };
    put_len(order, BODY_LEN_PLACE, start, out);
    Ok(end.is_empty())
}

/// What follows the first line; whether it has the form.
fn after_head(
    alloc: Global,
    order: Order,
    text: &[u8],
    out: &mut Vec<u8>,
) -> Result<bool, AllocError>
    ensures { IfOk result (λ x. (if x then Some out.new.items else None) ≡ read_rest order out.old.items text.now) }
{
    let mut types = None;
    let rest = match fields(alloc, order, text, &mut types, out)? {
        Some(found) => found,
        None => return Ok(false),
    };
    put_len(order, FIELDS_LEN_PLACE, FIELDS_PLACE, out);
    put_gap(out, 8)?;
    match types {
        Some(types) => body(order, &types, rest, out),
        None => body(order, &[], rest, out),
    }
}

/// The bytes of the message that a text says, valid or not; nothing if the text hasn't the form.
pub(crate) fn message(alloc: Global, text: &[u8]) -> Result<Option<Vec<u8>>, AllocError>
    ensures { IfOk result (λ x. option_map (λ v. v.items) x ≡ read_message text.now) }
{
    let (head, rest) = match first_line(text) {
        Some(found) => found,
        None => return Ok(None),
    };
    let mut out = Vec::new(alloc);
    put_head(head.order, head.kind, head.flags, head.serial, &mut out)?;
    if after_head(alloc, head.order, rest, &mut out)? {
        Ok(Some(out))
    } else {
        Ok(None)
    }
}
