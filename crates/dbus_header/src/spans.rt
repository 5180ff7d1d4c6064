//! The places of the parts of a header.
ghost use Rattle.std.specs.Prelude.{◌≡◌, ◌+◌, ◌<◌, ◌≤◌, ◌^◌, ℕ, true, Some, option_map, length};
ghost use Rattle.dbus_header.specs.HeaderReading.{number_at as stated_number};
ghost use Rattle.dbus_header.specs.KnownHeaders.{AllBeginIn, AreApart, AreWithin, BeginsIn, HasSignature, HasText, NumberIn, OfSignature, OfText, cut as cut_of, found_at, is_apart as has_none_of};
ghost use Rattle.dbus_header.specs.Seen.{fields_seen, signature_seen, text_seen};
ghost use Rattle.dbus_header.specs.declared.spans.Span.{Span as Stretch};

use crate::fields::Fields;
use crate::head::{HEAD_LEN, read_u32};
use dbus_types::Signature;
use dbus_values::Order;
use std::str;

/// A part of some bytes: the place where it begins, and its length.
#[derive(Clone, Copy)]
pub(crate) struct Span {
    pub(crate) start: u32,
    pub(crate) len: u32,
}

/// The places of the parts of a message's header fields, in the fields' bytes.
#[derive(Clone, Copy)]
pub struct Places {
    pub(crate) path: Option<Span>,
    pub(crate) interface: Option<Span>,
    pub(crate) member: Option<Span>,
    pub(crate) error_name: Option<Span>,
    /// The place of REPLY_SERIAL's number, which has four bytes.
    pub(crate) reply_serial: Option<u32>,
    /// Whether a field has an unknown code.
    pub(crate) has_unknown: bool,
    pub(crate) destination: Option<Span>,
    pub(crate) sender: Option<Span>,
    pub(crate) signature: Option<Span>,
    /// UNIX_FDS.
    pub(crate) descriptors: Option<u32>,
}

/// The bytes of a part.
#[inline(always)]
fn cut(part: Span, bytes: &[u8]) -> &[u8]
    requires { part.start + part.len ≤ length bytes.now }
    ensures { result.now ≡ cut_of bytes.now part }
{
    let (_, rest) = bytes.split_at(part.start as usize);
    let (part, _) = rest.split_at(part.len as usize);
    part
}

/// The text at a place.
#[inline(always)]
pub(crate) fn text_at(place: Option<Span>, bytes: &[u8]) -> Option<&str>
    requires { (s : Stretch) → place ≡ Some s → HasText bytes.now s }
    ensures { text_seen result ≡ option_map (cut_of bytes.now) place }
{
    match place {
        Some(part) => Some(unsafe { str::from_utf8_unchecked(cut(part, bytes)) }),
        None => None,
    }
}

/// The signature at a place.
#[inline(always)]
pub(crate) fn signature_at(place: Option<Span>, bytes: &[u8]) -> Option<Signature<'_>>
    requires { (s : Stretch) → place ≡ Some s → HasSignature bytes.now s }
    ensures { signature_seen result ≡ option_map (cut_of bytes.now) place }
{
    match place {
        Some(part) => Some(Signature {
            bytes: cut(part, bytes),
        }),
        None => None,
    }
}

/// The number at a place.
#[inline(always)]
pub(crate) fn number_at(order: Order, place: Option<u32>, bytes: &[u8]) -> Option<u32>
    requires { (at : ℕ) → place ≡ Some at → at + 4 ≤ length bytes.now }
    ensures { result ≡ option_map (stated_number order bytes.now) place }
{
    match place {
        Some(at) => Some(read_u32(order, bytes, at as usize)),
        None => None,
    }
}

/// The place in the message of a part of its header fields.
#[inline(always)]
pub(crate) fn place_in_message(place: Option<u32>) -> Option<usize>
    ensures { result ≡ option_map (λ at. 16 + at) place }
{
    match place {
        Some(at) => Some(HEAD_LEN + at as usize),
        None => None,
    }
}

/// The place of a text in the bytes of the header fields. The text begins at a place of the message.
fn text_span(bytes: &[u8], start: usize, text: Option<&str>) -> Option<Span>
    requires short { length bytes.now < 2 ^ 32 }
    requires begins { OfText (BeginsIn bytes.now) start text }
    ensures is { option_map (cut_of bytes.now) result ≡ text_seen text.entry }
    ensures within { (s : Stretch) → result ≡ Some s → HasText bytes.now s }
{
    // (only the contract needs the bytes)
    let _bytes = bytes;
    match text {
        Some(text) => {
            let text = text.as_bytes();
            Some(Span {
                start: (start - HEAD_LEN) as u32,
                len: text.len() as u32,
            })
        }
        None => None,
    }
}

/// The place of the signature in the bytes of the header fields. The signature begins at a place of the message.
fn signature_span(bytes: &[u8], start: usize, signature: Option<Signature<'_>>) -> Option<Span>
    requires short { length bytes.now < 2 ^ 32 }
    requires begins { OfSignature (BeginsIn bytes.now) start signature }
    ensures is { option_map (cut_of bytes.now) result ≡ signature_seen signature.entry }
    ensures within { (s : Stretch) → result ≡ Some s → HasSignature bytes.now s }
{
    // (only the contract needs the bytes)
    let _bytes = bytes;
    match signature {
        Some(signature) => Some(Span {
            start: (start - HEAD_LEN) as u32,
            len: signature.bytes.len() as u32,
        }),
        None => None,
    }
}

/// The place of REPLY_SERIAL's number in the bytes of the header fields, from its place in the message.
fn number_span(order: Order, bytes: &[u8], serial: Option<u32>, place: Option<usize>) -> Option<u32>
    requires short { length bytes.now < 2 ^ 31 }
    requires number { NumberIn order bytes.now serial place }
    ensures is { option_map (stated_number order bytes.now) result ≡ serial }
    ensures place { option_map (λ at. 16 + at) result ≡ place }
    ensures within { (at : ℕ) → result ≡ Some at → at + 4 ≤ length bytes.now }
{
    // (only the contract needs these)
    let (_bytes, _serial, _order) = (bytes, serial, order);
    match place {
        Some(place) => Some((place - HEAD_LEN) as u32),
        None => None,
    }
}

/// Whether a part, if there is one, has none of the four bytes of the number at a place.
fn is_apart(place: Option<Span>, at: u32) -> bool
    ensures { result ≡ true → (s : Stretch) → place ≡ Some s → has_none_of (Some at) s ≡ true }
{
    match place {
        Some(part) => {
            let (start, len, at) = (part.start as u64, part.len as u64, at as u64);
            start + len <= at || at + 4 <= start
        }
        None => true,
    }
}

impl Places {
    /// The places of no fields: room for those of a message that is read.
    pub fn none() -> Places {
        Places {
            path: None,
            interface: None,
            member: None,
            error_name: None,
            reply_serial: None,
            has_unknown: false,
            destination: None,
            sender: None,
            signature: None,
            descriptors: None,
        }
    }

    /// Whether no part overlaps REPLY_SERIAL's number.
    pub(crate) fn are_apart(&self) -> bool
        ensures { result ≡ true → AreApart self.now }
    {
        match self.reply_serial {
            Some(at) => {
                is_apart(self.path, at)
                    && is_apart(self.interface, at)
                    && is_apart(self.member, at)
                    && is_apart(self.error_name, at)
                    && is_apart(self.destination, at)
                    && is_apart(self.sender, at)
                    && is_apart(self.signature, at)
            }
            None => true,
        }
    }

    /// The places of the parts of a message whose fields have these bytes.
    pub(crate) fn of(order: Order, bytes: &[u8], fields: &Fields<'_>) -> Places
        requires short { length bytes.now < 2 ^ 31 }
        requires begins { AllBeginIn bytes.now fields.now }
        requires number { NumberIn order bytes.now fields.now.reply_serial fields.now.reply_serial_place }
        ensures within { AreWithin bytes.now result }
        ensures found { found_at order bytes.now result ≡ fields_seen fields.now }
    {
        let starts = fields.starts;
        Places {
            path: text_span(bytes, starts.path, fields.path),
            interface: text_span(bytes, starts.interface, fields.interface),
            member: text_span(bytes, starts.member, fields.member),
            error_name: text_span(bytes, starts.error_name, fields.error_name),
            reply_serial: number_span(order, bytes, fields.reply_serial, fields.reply_serial_place),
            has_unknown: fields.has_unknown,
            destination: text_span(bytes, starts.destination, fields.destination),
            sender: text_span(bytes, starts.sender, fields.sender),
            signature: signature_span(bytes, starts.signature, fields.signature),
            descriptors: fields.descriptors,
        }
    }
}
