//! The header fields of a message, read in place.
ghost use Rattle.std.specs.Prelude.{◌≡◌, ◌≢◌, ◌≤◌, ◌<◌, ◌+◌, ◌^◌, ◌∷◌, [], ℕ, List, Some, None, IfSome, option_map, length, if◌then◌else◌};
ghost use Rattle.dbus_types.specs.Signature.{variant};
ghost use Rattle.dbus_values.specs.Ends.{values_end};
ghost use Rattle.dbus_header.specs.HeaderReading.{type_code, ended_text as text_ended, text_part, number_part, signature_part, known_value as value_known, known_part, unread_to, coded_part, part_at, with_text, with_number_part, with_part, nothing_found};
ghost use Rattle.dbus_header.specs.HeaderFields.{FieldsRead};
ghost use Rattle.dbus_header.specs.KnownHeaders.{AllBeginAt, Begins, BeginsAt};
ghost use Rattle.dbus_header.specs.Seen.{part_seen, end_seen, fields_seen, parts_seen};

use crate::grammars::KnownTexts;
use crate::head::read_u32;
use dbus_types::Signature;
use dbus_values::{Order, is_zero, padding, value_end};
use std::str;

/// The codes of the header fields (D-Bus Specification, "Message Format", "Header Fields").
pub(crate) const PATH: u8 = 1;

pub(crate) const INTERFACE: u8 = 2;

pub(crate) const MEMBER: u8 = 3;

pub(crate) const ERROR_NAME: u8 = 4;

const REPLY_SERIAL: u8 = 5;

pub(crate) const DESTINATION: u8 = 6;

pub(crate) const SENDER: u8 = 7;

pub(crate) const SIGNATURE: u8 = 8;

const UNIX_FDS: u8 = 9;

/// A header field.
#[derive(Clone, Copy)]
enum HeaderField<'a> {
    /// A path or a string, with the field's code and the place where the text begins.
    Text(u8, &'a str, usize),
    /// REPLY_SERIAL or UNIX_FDS, with its code.
    Number(u8, u32),
    /// SIGNATURE, and the place where the signature begins.
    Signed(Signature<'a>, usize),
    /// A field with an unknown code, whose value isn't read.
    Unread,
}

/// Where the texts and the signature of a message's header fields begin in the message. The place of an absent one
/// means nothing.
#[derive(Clone, Copy)]
pub(crate) struct Starts {
    pub(crate) path: usize,
    pub(crate) interface: usize,
    pub(crate) member: usize,
    pub(crate) error_name: usize,
    pub(crate) destination: usize,
    pub(crate) sender: usize,
    pub(crate) signature: usize,
}

impl Starts {
    /// Of no fields.
    pub(crate) fn none() -> Starts {
        Starts {
            path: 0,
            interface: 0,
            member: 0,
            error_name: 0,
            destination: 0,
            sender: 0,
            signature: 0,
        }
    }
}

/// The header fields of a message, read in place.
#[derive(Clone, Copy)]
pub(crate) struct Fields<'a> {
    pub(crate) path: Option<&'a str>,
    pub(crate) interface: Option<&'a str>,
    pub(crate) member: Option<&'a str>,
    pub(crate) error_name: Option<&'a str>,
    pub(crate) reply_serial: Option<u32>,
    /// The place of REPLY_SERIAL's number in the message.
    pub(crate) reply_serial_place: Option<usize>,
    /// Whether a field has an unknown code.
    pub(crate) has_unknown: bool,
    pub(crate) destination: Option<&'a str>,
    pub(crate) sender: Option<&'a str>,
    pub(crate) signature: Option<Signature<'a>>,
    /// UNIX_FDS.
    pub(crate) descriptors: Option<u32>,
    pub(crate) starts: Starts,
}

/// The type of a known field's value, as a signature spells it.
fn type_of(code: u8) -> u8
    ensures { result ≡ type_code code }
{
    match code {
        PATH => b'o',
        REPLY_SERIAL => b'u',
        SIGNATURE => b'g',
        UNIX_FDS => b'u',
        _ => b's',
    }
}

/// The bytes of this length at a place, if a NUL follows them, and the place after the NUL.
fn ended_text(len: usize, bytes: &[u8], at: usize) -> Option<(&[u8], usize)>
    requires len { len < 2 ^ 32 }
    requires inside { at ≤ length bytes.now }
    requires short { length bytes.now ≤ 2 ^ 28 }
    ensures { option_map (λ x. (x.0.now, x.1)) result ≡ text_ended len bytes.now at }
{
    let end = at + len;
    if end >= bytes.len() || bytes[end] != 0 {
        return None;
    }
    let (_, rest) = bytes.split_at(at);
    let (text, _) = rest.split_at(len);
    Some((text, end + 1))
}

/// Reads a field that holds a path or a string, from the place of its value.
fn text_field<'a>(
    known: &mut KnownTexts,
    order: Order,
    code: u8,
    bytes: &'a [u8],
    at: usize,
) -> Option<(HeaderField<'a>, usize)>
    requires code { code ≢ 8 }
    requires low { 16 ≤ at }
    requires inside { at ≤ length bytes.now }
    requires short { length bytes.now ≤ 2 ^ 28 }
    ensures part { option_map end_seen result ≡ text_part order code bytes.now at }
    ensures begins { IfSome result (λ x. Begins bytes.now x.0) }
{
    if at + 4 > bytes.len() {
        return None;
    }
    let len = read_u32(order, bytes, at);
    let (text, end) = match ended_text(len as usize, bytes, at + 4) {
        Some(found) => found,
        None => return None,
    };
    if !known.is_text_of(code, text) {
        return None;
    }
    // The grammar of each name allows ASCII only.
    let text = unsafe { str::from_utf8_unchecked(text) };
    Some((HeaderField::Text(code, text, at + 4), end))
}

/// Reads REPLY_SERIAL, which must not be 0, or UNIX_FDS.
fn number_field(order: Order, code: u8, bytes: &[u8], at: usize) -> Option<(HeaderField<'_>, usize)>
    requires inside { at ≤ length bytes.now }
    requires short { length bytes.now ≤ 2 ^ 28 }
    ensures part { option_map end_seen result ≡ number_part order code bytes.now at }
    ensures begins { IfSome result (λ x. Begins bytes.now x.0) }
{
    if at + 4 > bytes.len() {
        return None;
    }
    let number = read_u32(order, bytes, at);
    if code == REPLY_SERIAL && number == 0 {
        return None;
    }
    Some((HeaderField::Number(code, number), at + 4))
}

/// Reads SIGNATURE.
fn signature_field<'a>(
    known: &mut KnownTexts,
    bytes: &'a [u8],
    at: usize,
) -> Option<(HeaderField<'a>, usize)>
    requires low { 16 ≤ at }
    requires inside { at ≤ length bytes.now }
    requires short { length bytes.now ≤ 2 ^ 28 }
    ensures part { option_map end_seen result ≡ signature_part bytes.now at }
    ensures begins { IfSome result (λ x. Begins bytes.now x.0) }
{
    if at >= bytes.len() {
        return None;
    }
    let (text, end) = match ended_text(bytes[at] as usize, bytes, at + 1) {
        Some(found) => found,
        None => return None,
    };
    match known.signature(text) {
        Some(signature) => Some((HeaderField::Signed(signature, at + 1), end)),
        None => None,
    }
}

/// Reads a known field from the place of its value.
fn known_value<'a>(
    known: &mut KnownTexts,
    order: Order,
    code: u8,
    bytes: &'a [u8],
    at: usize,
) -> Option<(HeaderField<'a>, usize)>
    requires low { 16 ≤ at }
    requires inside { at ≤ length bytes.now }
    requires short { length bytes.now ≤ 2 ^ 28 }
    ensures part { option_map end_seen result ≡ value_known order code bytes.now at }
    ensures begins { IfSome result (λ x. Begins bytes.now x.0) }
{
    match code {
        REPLY_SERIAL => number_field(order, code, bytes, at),
        UNIX_FDS => number_field(order, code, bytes, at),
        SIGNATURE => signature_field(known, bytes, at),
        _ => text_field(known, order, code, bytes, at),
    }
}

/// Reads a known field from the place of its variant, whose signature must be the type of the code.
fn known_field<'a>(
    known: &mut KnownTexts,
    order: Order,
    code: u8,
    bytes: &'a [u8],
    at: usize,
) -> Option<(HeaderField<'a>, usize)>
    requires low { 16 ≤ at }
    requires inside { at ≤ length bytes.now }
    requires short { length bytes.now ≤ 2 ^ 28 }
    ensures part { option_map end_seen result ≡ known_part order code bytes.now at }
    ensures begins { IfSome result (λ x. Begins bytes.now x.0) }
{
    if at + 3 > bytes.len()
        || bytes[at] != 1
        || bytes[at + 1] != type_of(code)
        || bytes[at + 2] != 0
    {
        return None;
    }
    known_value(known, order, code, bytes, at + 3)
}

/// The signature of one variant.
fn variant_signature() -> Signature<'static>
    ensures { result.bytes.now ≡ 118 ∷ [] }
{
    Signature { bytes: b"v" }
}

/// Passes over a field with an unknown code, from the place of its variant, which may hold anything.
fn unread_field(order: Order, bytes: &[u8], at: usize) -> Option<(HeaderField<'_>, usize)>
    requires { at ≤ length bytes.now }
    ensures part { option_map end_seen result ≡ unread_to (values_end order (variant ∷ []) at bytes.now) }
    ensures begins { IfSome result (λ x. Begins bytes.now x.0) }
{
    match value_end(order, variant_signature(), bytes, at) {
        Ok(end) => Some((HeaderField::Unread, end)),
        Err(_) => None,
    }
}

/// Reads the field whose code is at a place.
fn coded_field<'a>(
    known: &mut KnownTexts,
    order: Order,
    code: u8,
    bytes: &'a [u8],
    at: usize,
) -> Option<(HeaderField<'a>, usize)>
    requires low { 16 ≤ at }
    requires inside { at < length bytes.now }
    requires short { length bytes.now ≤ 2 ^ 28 }
    ensures part { option_map end_seen result ≡ coded_part order code bytes.now at }
    ensures begins { IfSome result (λ x. Begins bytes.now x.0) }
{
    match code {
        0 => None,
        PATH..=UNIX_FDS => known_field(known, order, code, bytes, at + 1),
        _ => unread_field(order, bytes, at + 1),
    }
}

/// Reads the field after the padding, and finds where it ends.
fn read_field<'a>(
    known: &mut KnownTexts,
    order: Order,
    bytes: &'a [u8],
    place: usize,
) -> Option<(HeaderField<'a>, usize)>
    requires low { 16 ≤ place }
    requires inside { place ≤ length bytes.now }
    requires short { length bytes.now ≤ 2 ^ 28 }
    ensures part { option_map end_seen result ≡ part_at order bytes.now place }
    ensures begins { IfSome result (λ x. Begins bytes.now x.0) }
{
    let start = place + padding(8, place);
    if start >= bytes.len() {
        return None;
    }
    let (_, rest) = bytes.split_at(place);
    let (gap, _) = rest.split_at(padding(8, place));
    if !is_zero(gap) {
        return None;
    }
    coded_field(known, order, bytes[start], bytes, start)
}

impl<'a> Fields<'a> {
    /// No fields, before any was read.
    pub(crate) fn none() -> Fields<'a>
        ensures { fields_seen result ≡ nothing_found }
    {
        Fields {
            path: None,
            interface: None,
            member: None,
            error_name: None,
            reply_serial: None,
            reply_serial_place: None,
            has_unknown: false,
            destination: None,
            sender: None,
            signature: None,
            descriptors: None,
            starts: Starts::none(),
        }
    }

    /// Adds a text that begins at a place, unless its field was found before.
    fn put_text(&mut self, code: u8, text: &'a str, start: usize) -> bool
        ensures parts { (if result then Some (parts_seen self.new) else None) ≡ with_text (parts_seen self.old) code text.now }
        ensures place { self.new.reply_serial_place ≡ self.old.reply_serial_place }
        ensures unknown { self.new.has_unknown ≡ self.old.has_unknown }
        ensures signature { self.new.signature ≡ self.old.signature }
        ensures descriptors { self.new.descriptors ≡ self.old.descriptors }
        ensures begins { (message : List ℕ) → AllBeginAt message self.old → BeginsAt message start text.now → AllBeginAt message self.new }
    {
        match code {
            PATH if self.path.is_none() => {
                self.path = Some(text);
                self.starts.path = start;
            }
            INTERFACE if self.interface.is_none() => {
                self.interface = Some(text);
                self.starts.interface = start;
            }
            MEMBER if self.member.is_none() => {
                self.member = Some(text);
                self.starts.member = start;
            }
            ERROR_NAME if self.error_name.is_none() => {
                self.error_name = Some(text);
                self.starts.error_name = start;
            }
            DESTINATION if self.destination.is_none() => {
                self.destination = Some(text);
                self.starts.destination = start;
            }
            PATH | INTERFACE | MEMBER | ERROR_NAME | DESTINATION => return false,
            _ if self.sender.is_none() => {
                self.sender = Some(text);
                self.starts.sender = start;
            }
            _ => return false,
        }
        true
    }

    /// Adds REPLY_SERIAL, whose field is at a place, or UNIX_FDS, unless that field was found before.
    fn put_number(&mut self, place: usize, code: u8, number: u32) -> bool
        requires { place < 2 ^ 40 }
        ensures part { (if result then Some (fields_seen self.new) else None) ≡ with_number_part (fields_seen self.old) place code number }
        ensures begins { (message : List ℕ) → AllBeginAt message self.old → AllBeginAt message self.new }
    {
        if code == REPLY_SERIAL {
            if self.reply_serial.is_some() {
                return false;
            }
            self.reply_serial = Some(number);
            self.reply_serial_place = Some(place + padding(8, place) + 4);
            return true;
        }
        if self.descriptors.is_some() {
            return false;
        }
        self.descriptors = Some(number);
        true
    }

    /// Adds a field that is at a place, unless a known field with its code was found before.
    fn put(&mut self, place: usize, field: HeaderField<'a>) -> bool
        requires { place < 2 ^ 40 }
        ensures part { (if result then Some (fields_seen self.new) else None) ≡ with_part (fields_seen self.old) place (part_seen field.entry) }
        ensures begins { (message : List ℕ) → AllBeginAt message self.old → Begins message field.entry → AllBeginAt message self.new }
    {
        match field {
            HeaderField::Text(code, text, start) => self.put_text(code, text, start),
            HeaderField::Number(code, number) => self.put_number(place, code, number),
            HeaderField::Signed(signature, start) => {
                if self.signature.is_some() {
                    return false;
                }
                self.signature = Some(signature);
                self.starts.signature = start;
                true
            }
            HeaderField::Unread => {
                self.has_unknown = true;
                true
            }
        }
    }
}

/// Reads the fields of a message that is cut after them into `fields`, and returns where the last valid one ended.
#[inline(never)]
pub(crate) fn read_fields<'a>(
    known: &mut KnownTexts,
    order: Order,
    bytes: &'a [u8],
    fields: &mut Fields<'a>,
) -> usize
    requires none { fields_seen fields.old ≡ nothing_found }
    requires long { 16 ≤ length bytes.now }
    requires short { length bytes.now ≤ 2 ^ 28 }
    ensures read { FieldsRead order bytes.now (fields_seen fields.new) result }
    ensures begins { AllBeginAt bytes.now fields.new }
{
    let mut place = 16;
    loop {
        let (field, end) = match read_field(known, order, bytes, place) {
            Some(found) => found,
            None => return place,
        };
        if !fields.put(place, field) {
            return place;
        }
        place = end;
    }
}
