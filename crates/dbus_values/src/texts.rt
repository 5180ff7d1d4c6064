//! The strings in valid bodies.
ghost use Rattle.std.specs.Prelude.{◌≡◌, Some, None, IsSome, IfSome, ℕ, List, option_map, map, slice_get, drop, codes};
ghost use Rattle.dbus_types.specs.Signature.{Complete};
ghost use Rattle.dbus_values.specs.Values.{Value};
ghost use Rattle.dbus_values.specs.Reading.{text_at};
ghost use Rattle.dbus_values.specs.Bodies.{IsBody, HasBody, first_text_of, two_of, three_of, listed, two_at, three_at, list_in, elements_in, texts_in, texts_or_none};
ghost use Rattle.dbus_values.specs.Seen.{place_seen, text_seen, two_seen};

use crate::Order;
use crate::cursor::Cursor;
use dbus_types::Signature;
use std::alloc::AllocError;
use std::marker::Model;
use std::str;

// The start of a body. A body begins at a multiple of 8, so its values are aligned as if it began at 0.
fn start(body: &[u8]) -> Cursor<'_>
    ensures { place_seen result ≡ record { place = 0; bytes = body.now } }
{
    Cursor {
        place: 0,
        bytes: body,
    }
}

/// Reads the string at the cursor, and gives the cursor after it.
pub(crate) fn text<'a>(order: Order, at: Cursor<'a>) -> (&'a str, Cursor<'a>)
    requires { IsSome (text_at order (place_seen at)) }
    ensures { Some (text_seen result) ≡ text_at order (place_seen at.entry) }
{
    match at.counted(order) {
        Some((text, behind)) => (unsafe { str::from_utf8_unchecked(text) }, behind),
        None => unreachable!(),
    }
}

/// Reads the two strings at the cursor, and gives the cursor after them.
fn pair<'a>(order: Order, at: Cursor<'a>) -> ((&'a str, &'a str), Cursor<'a>)
    requires { IsSome (two_at order (place_seen at)) }
    ensures { Some (two_seen result) ≡ two_at order (place_seen at.entry) }
{
    let (first, at) = text(order, at);
    let (second, behind) = text(order, at);
    ((first, second), behind)
}

/// Reads the three strings at the cursor.
fn three_texts<'a>(order: Order, at: Cursor<'a>) -> [&'a str; 3]
    requires { IsSome (three_at order (place_seen at)) }
    ensures { Some (map (λ t. t.now) result) ≡ option_map listed (three_at order (place_seen at.entry)) }
{
    let ((first, second), at) = pair(order, at);
    let (third, _) = text(order, at);
    [first, second, third]
}

/// The first value of a valid body, if it is a string: `None` exactly if the signature doesn't begin with `s`.
pub fn first_text<'a>(order: Order, signature: Signature<'_>, body: &'a [u8]) -> Option<&'a str>
    requires { HasBody order signature.bytes.now body.now }
    ensures { (place : ℕ) (types : List Complete) (values : List Value) → IsBody order signature.entry.bytes.now body.now place types values → option_map (λ t. t.now) result ≡ first_text_of values }
{
    if signature.as_bytes().starts_with(b"s") {
        Some(text(order, start(body)).0)
    } else {
        None
    }
}

/// The first two values of a valid body, if both are strings: `None` exactly if the signature doesn't begin with `ss`.
pub fn two_texts<'a>(
    order: Order,
    signature: Signature<'_>,
    body: &'a [u8],
) -> Option<(&'a str, &'a str)>
    requires { HasBody order signature.bytes.now body.now }
    ensures { (place : ℕ) (types : List Complete) (values : List Value) → IsBody order signature.entry.bytes.now body.now place types values → option_map (λ t. (t.0.now, t.1.now)) result ≡ two_of values }
{
    if signature.as_bytes().starts_with(b"ss") {
        Some(pair(order, start(body)).0)
    } else {
        None
    }
}

/// The three strings of a valid body with the signature `sss`.
pub fn texts3<'a>(order: Order, body: &'a [u8]) -> [&'a str; 3]
    requires { HasBody order (codes "sss") body.now }
    ensures { (place : ℕ) (types : List Complete) (values : List Value) → IsBody order (codes "sss") body.now place types values → option_map listed (three_of values) ≡ Some (map (λ t. t.now) result) }
{
    three_texts(order, start(body))
}

/// An iterator over the strings of an array.
#[derive(Drop)]
pub struct Texts<'a> {
    order: Order,
    at: Cursor<'a>,
}

impl<'a> Model for Texts<'a> {
    ghost use Rattle.std.specs.Prelude.{ℕ, List, IsSome};
    ghost use Rattle.dbus_values.specs.Bodies.{texts_in, texts_or_none};
    ghost use Rattle.dbus_values.specs.Seen.{place_seen};

    ghost Value = { List (List ℕ) };

    ghost view = { λ t. texts_or_none (texts_in t.order (place_seen t.at)) };

    ghost invariant = { λ t. IsSome (texts_in t.order (place_seen t.at)) };
}

impl<'a> Clone for Texts<'a> {
    ghost use Rattle.std.specs.Prelude.{◌≡◌, ⊤};

    ghost is_clone = { λ texts copy. copy ≡ texts };

    ghost is_infallible = { λ _. ⊤ };

    fn clone(&self) -> Result<Texts<'a>, AllocError> {
        Ok(Texts {
            order: self.order,
            at: self.at,
        })
    }
}

impl<'a> Iterator for Texts<'a> {
    type Item = &'a str;

    ghost use Rattle.std.specs.Prelude.{◌≡◌, length, option_map, slice_get, drop};
    ghost use Rattle.std.specs.Iterator.{at_most};

    ghost remaining = { λ s. at_most (length s) };

    ghost next_gives = { λ before next after. (option_map (λ t. t.now) next ≡ slice_get before 0) × (after ≡ drop 1 before) };

    fn next(&mut self) -> Option<&'a str> {
        let (text, behind) = text_if_left(self.order, self.at)?;
        self.at = behind;
        Some(text)
    }
}

/// Reads the string at the cursor, if bytes are left, and gives the cursor after it.
fn text_if_left<'a>(order: Order, at: Cursor<'a>) -> Option<(&'a str, Cursor<'a>)>
    requires { IsSome (texts_in order (place_seen at)) }
    ensures text { option_map (λ x. x.0.now) result ≡ slice_get (texts_or_none (texts_in order (place_seen at.entry))) 0 }
    ensures others { IfSome result (λ x. IsSome (texts_in order (place_seen x.1)) × (texts_or_none (texts_in order (place_seen x.1)) ≡ drop 1 (texts_or_none (texts_in order (place_seen at.entry))))) }
{
    if at.bytes.is_empty() {
        return None;
    }
    Some(text(order, at))
}

/// The strings of a valid body with the signature `as`.
pub fn text_list(order: Order, body: &[u8]) -> Texts<'_>
    requires { HasBody order (codes "as") body.now }
    ensures { (place : ℕ) (types : List Complete) (values : List Value) → IsBody order (codes "as") body.now place types values → list_in values ≡ Some result }
{
    Texts {
        order,
        at: elements(order, body),
    }
}

/// The elements of the array that is the whole body.
fn elements(order: Order, body: &[u8]) -> Cursor<'_>
    requires { IsSome (elements_in order (record { place = 0; bytes = body.now })) }
    ensures { Some (place_seen result) ≡ elements_in order (record { place = 0; bytes = body.now }) }
{
    match array_elements(order, start(body)) {
        Some(elements) => elements,
        None => unreachable!(),
    }
}

fn array_elements(order: Order, at: Cursor<'_>) -> Option<Cursor<'_>>
    ensures { option_map place_seen result ≡ elements_in order (place_seen at.entry) }
{
    let (len, first) = at.align(4)?.number(order)?;
    let first = first.align(4)?;
    let (bytes, _) = first.take(len as usize)?;
    Some(Cursor {
        place: first.place,
        bytes,
    })
}
