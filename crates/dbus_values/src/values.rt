//! The end of the values in some bytes.
ghost use Rattle.std.specs.Prelude.{◌≡◌, ◌≤◌, ◌∷◌, ℕ, suc, List, [], length, drop};
ghost use Rattle.dbus_types.specs.Signature.{Complete, spelled_types};
ghost use Rattle.dbus_values.specs.Ends.{values_end};
ghost use Rattle.dbus_values.specs.Walk.{walk_within, walk_types, end_at};
ghost use Rattle.dbus_values.specs.Seen.{place_seen};

use crate::containers::{front_code, walk};
use crate::cursor::Cursor;
use crate::{BadValue, Order};
use dbus_types::Signature;

/// One more than the greatest nesting depth of containers (D-Bus Specification, "Type System", "Valid Signatures").
const CONTAINERS: usize = 65;

/// The cursor at a place of the bytes.
#[inline(always)]
fn cursor_at(bytes: &[u8], at: usize) -> Cursor<'_>
    requires { at ≤ length bytes.now }
    ensures { place_seen result ≡ record { place = at; bytes = drop at bytes.now } }
{
    Cursor {
        place: at,
        bytes: &bytes[at..],
    }
}

/// Where the string that is the whole body ends, as that of many messages is.
#[inline(never)]
fn text_end(order: Order, bytes: &[u8], at: usize) -> Result<usize, BadValue>
    requires { at ≤ length bytes.now }
    ensures { result ≡ end_at (walk_types (walk_within 65 order) 2 (115 ∷ []) (record { place = at; bytes = drop at bytes.now })) }
{
    match cursor_at(bytes, at).text(order) {
        Some(behind) => Ok(behind.place),
        None => Err(BadValue { at }),
    }
}

/// Where the values of these types end, one after the other.
#[inline(always)]
fn types_end(order: Order, first_types: &[u8], first: Cursor<'_>) -> Result<usize, BadValue>
    ensures { result ≡ end_at (walk_types (walk_within 65 order) (suc (length first_types.now)) first_types.now (place_seen first.entry)) }
{
    let mut types = first_types;
    let mut at = first;
    // Each type has at least one byte.
    let mut most = types.len() + 1;
    while most > 0 && !types.is_empty() {
        match walk(order, CONTAINERS, types, at) {
            Some((others, behind)) => {
                types = others;
                at = behind;
            }
            None => return Err(BadValue { at: at.place }),
        }
        most -= 1;
    }
    if types.is_empty() {
        Ok(at.place)
    } else {
        Err(BadValue { at: at.place })
    }
}

/// Where the values of any types end that are the whole body.
#[inline(never)]
fn body_end(order: Order, types: &[u8], bytes: &[u8], at: usize) -> Result<usize, BadValue>
    requires { at ≤ length bytes.now }
    ensures { result ≡ end_at (walk_types (walk_within 65 order) (suc (length types.now)) types.now (record { place = at; bytes = drop at bytes.now })) }
{
    types_end(order, types, cursor_at(bytes, at))
}

/// Finds where the values of the signature end, from a place of the bytes on. The bytes must begin at a multiple of 8
/// in the message; more bytes may follow the values. This takes one pass, in place, and passes over an array of
/// fixed-width numbers by its length.
#[inline(always)]
pub fn value_end(
    order: Order,
    signature: Signature<'_>,
    bytes: &[u8],
    at: usize,
) -> Result<usize, BadValue>
    requires inside { at ≤ length bytes.now }
    ensures { (types : List Complete) → signature.entry.bytes.now ≡ spelled_types types → result ≡ values_end order types at bytes.now }
{
    let types = signature.as_bytes();
    if types.is_empty() {
        return Ok(at);
    }
    if types.len() == 1 && front_code(types) == b's' {
        return text_end(order, bytes, at);
    }
    body_end(order, types, bytes, at)
}
