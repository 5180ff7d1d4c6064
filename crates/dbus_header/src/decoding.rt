//! Reading a message.
ghost use Rattle.std.specs.Prelude.{ℕ, ◌≡◌, ◌==◌, ◌≤◌, ◌<◌, ◌+◌, ◌^◌, List, None, IfOk, IfSome, IsSome, OnOk, ◌&&◌, take, drop, length, slice_index, unwrap_or};
ghost use Rattle.dbus_types.specs.Signature.{Complete, spelled_types};
ghost use Rattle.dbus_values.specs.Values.{padding as padding_to};
ghost use Rattle.dbus_values.specs.Reading.{all_zero};
ghost use Rattle.dbus_header.specs.Malformed.{head_fault, whole_len, whole, fault, fault_in, order_in as stated_order};
ghost use Rattle.dbus_header.specs.Refusals.{refusal};
ghost use Rattle.dbus_header.specs.HeaderReading.{has_required_parts};
ghost use Rattle.dbus_header.specs.KnownHeaders.{AreWithin, fields_bytes as bytes_of_fields, found_at};
ghost use Rattle.dbus_header.specs.Contents.{message_of};
ghost use Rattle.dbus_header.specs.Message.{body_place};
ghost use Rattle.dbus_header.specs.Placed.{HasPlaces, IsPlaced};
ghost use Rattle.dbus_header.specs.Whole.{body_fault_at, stated_in, HasParts, IsFieldsLen, fields_fault, fields_found, rest_fault};

use crate::fields::{Fields, read_fields};
use crate::grammars::KnownTexts;
use crate::head::{HEAD_LEN, body_start, check_head, order_in, read_u32};
use crate::kinds::{ERROR, METHOD_CALL, METHOD_RETURN, SIGNAL};
use crate::message::Message;
use crate::spans::{Places, signature_at};
use crate::{Malformed, MalformedKind};
use dbus_types::Signature;
use dbus_values::{Order, is_zero, padding, value_end};

/// Whether a message of this type has the header fields that it needs (D-Bus Specification, "Message Format", "Header
/// Fields").
#[inline(always)]
fn has_required(kind: u8, places: &Places) -> bool
    ensures { (order : Order) (bytes : List ℕ) → result ≡ has_required_parts kind (found_at order bytes places.now).parts }
{
    match kind {
        METHOD_CALL => places.path.is_some() && places.member.is_some(),
        METHOD_RETURN => places.reply_serial.is_some(),
        ERROR => places.error_name.is_some() && places.reply_serial.is_some(),
        SIGNAL => places.path.is_some() && places.interface.is_some() && places.member.is_some(),
        _ => true,
    }
}

/// Whether UNIX_FDS is absent or 0.
#[inline(always)]
fn has_no_descriptors(places: &Places) -> bool
    ensures { result ≡ (unwrap_or places.now.descriptors 0 == 0) }
{
    match places.descriptors {
        Some(number) => number == 0,
        None => true,
    }
}

/// The body's signature, which is empty if SIGNATURE is absent.
#[inline(always)]
fn stated<'a>(places: &Places, fields: &'a [u8]) -> Signature<'a>
    requires { AreWithin fields.now places.now }
    ensures { (order : Order) → result.bytes.now ≡ stated_in (found_at order fields.now places.now) }
{
    match signature_at(places.signature, fields) {
        Some(signature) => signature,
        None => Signature::empty(),
    }
}

/// The place where the body stops being the signature's values, which must fill it exactly; `None` if they do.
fn body_fault(order: Order, signature: Signature<'_>, bytes: &[u8], start: usize) -> Option<usize>
    requires { start ≤ length bytes.now }
    ensures fault { (types : List Complete) → signature.entry.bytes.now ≡ spelled_types types → result ≡ body_fault_at order types bytes.now start }
    ensures inside { IfSome result (λ at. at ≤ length bytes.now) }
{
    match value_end(order, signature, bytes, start) {
        Ok(end) if end == bytes.len() => None,
        Ok(end) => Some(end),
        Err(bad) => Some(bad.at),
    }
}

/// Whether the last valid field ended where the fields do, with zeros from there to the body.
fn is_header_end(bytes: &[u8], end: usize, fields_end: usize) -> bool
    requires inside { fields_end + padding_to 8 fields_end ≤ length bytes.now }
    requires short { fields_end ≤ 2 ^ 28 }
    ensures { result ≡ (end == fields_end && all_zero (take (padding_to 8 fields_end) (drop fields_end bytes.now))) }
{
    if end != fields_end {
        return false;
    }
    let (_, rest) = bytes.split_at(fields_end);
    let (gap, _) = rest.split_at(padding(8, fields_end));
    is_zero(gap)
}

/// The length of the header fields of a whole message whose first sixteen bytes are valid.
#[inline(always)]
fn header_fields_len(order: Order, bytes: &[u8]) -> u32
    requires order { order ≡ stated_order bytes.now }
    requires long { 16 ≤ length bytes.now }
    requires head { head_fault bytes.now ≡ None }
    requires whole { length bytes.now ≡ whole_len bytes.now }
    ensures { IsFieldsLen bytes.now result }
{
    read_u32(order, bytes, 12)
}

/// The bytes of the header fields and of the padding after them.
#[inline(always)]
fn fields_bytes(fields_len: u32, bytes: &[u8]) -> &[u8]
    requires { IsFieldsLen bytes.now fields_len }
    ensures bytes { result.now ≡ bytes_of_fields fields_len bytes.now }
    ensures len { length result.now + 16 ≡ body_place fields_len }
{
    let (_, rest) = bytes.split_at(HEAD_LEN);
    let (own, _) = rest.split_at(body_start(fields_len) as usize - HEAD_LEN);
    own
}

/// Reads the header fields of a whole message, and finds the places of their parts. They must end where their length
/// says, with zeros from there to the body.
fn read_header(
    known: &mut KnownTexts,
    order: Order,
    fields_len: u32,
    bytes: &[u8],
    places: &mut Places,
) -> Result<(), Malformed>
    requires order { order ≡ stated_order bytes.now }
    requires len { IsFieldsLen bytes.now fields_len }
    ensures refusal { refusal result ≡ fields_fault bytes.now }
    ensures placed { OnOk result (HasPlaces order fields_len bytes.now places.new) }
{
    let own = fields_bytes(fields_len, bytes);
    let fields_end = HEAD_LEN + fields_len as usize;
    let (header, _) = bytes.split_at(fields_end);
    let mut fields = Fields::none();
    let end = read_fields(known, order, header, &mut fields);
    if !is_header_end(bytes, end, fields_end) {
        return Err(Malformed {
            kind: MalformedKind::Fields,
            at: end as u32,
        });
    }
    *places = Places::of(order, own, &fields);
    known.keep_header(order, fields_len, own, places);
    Ok(())
}

/// Finds the places of the parts of a whole message's header fields. A header that is known isn't read again.
#[inline(always)]
fn find_places(
    known: &mut KnownTexts,
    order: Order,
    fields_len: u32,
    bytes: &[u8],
    places: &mut Places,
) -> Result<(), Malformed>
    requires order { order ≡ stated_order bytes.now }
    requires len { IsFieldsLen bytes.now fields_len }
    ensures refusal { refusal result ≡ fields_fault bytes.now }
    ensures placed { OnOk result (HasPlaces order fields_len bytes.now places.new) }
{
    match known.places(order, fields_len, fields_bytes(fields_len, bytes)) {
        Some(found) => {
            *places = *found;
            Ok(())
        }
        None => read_header(known, order, fields_len, bytes, places),
    }
}

/// What else is wrong with a message whose header fields have parts at these places, and whose body begins at this
/// place.
#[inline(always)]
fn check_rest(
    order: Order,
    bytes: &[u8],
    start: usize,
    fields: &[u8],
    places: &Places,
) -> Result<(), Malformed>
    requires long { 16 ≤ length bytes.now }
    requires short { length bytes.now ≤ 2 ^ 27 }
    requires inside { start ≤ length bytes.now }
    requires within { AreWithin fields.now places.now }
    ensures { (types : List Complete) → stated_in (found_at order fields.now places.now) ≡ spelled_types types → refusal result ≡ rest_fault (slice_index bytes.now 1) (found_at order fields.now places.now) (body_fault_at order types bytes.now start) }
{
    if !has_required(bytes[1], places) {
        return Err(Malformed {
            kind: MalformedKind::Required,
            at: 12,
        });
    }
    if let Some(at) = body_fault(order, stated(places, fields), bytes, start) {
        return Err(Malformed {
            kind: MalformedKind::Body,
            at: at as u32,
        });
    }
    if !has_no_descriptors(places) {
        return Err(Malformed {
            kind: MalformedKind::Descriptors,
            at: 12,
        });
    }
    Ok(())
}

/// What is wrong with a whole message whose first sixteen bytes are valid and whose header fields have parts at these
/// places.
#[inline(always)]
fn check_fields(
    order: Order,
    fields_len: u32,
    bytes: &[u8],
    fields: &[u8],
    places: &Places,
) -> Result<(), Malformed>
    requires order { order ≡ stated_order bytes.now }
    requires long { 16 ≤ length bytes.now }
    requires len { IsFieldsLen bytes.now fields_len }
    requires sound { fields_fault bytes.now ≡ None }
    requires within { AreWithin fields.now places.now }
    requires found { found_at order fields.now places.now ≡ fields_found bytes.now }
    ensures refusal { refusal result ≡ fault_in (whole bytes.now) }
    ensures parts { OnOk result (HasParts bytes.now (found_at order fields.now places.now)) }
{
    check_rest(
        order,
        bytes,
        body_start(fields_len) as usize,
        fields,
        places,
    )
}

/// Checks a whole message whose first sixteen bytes are valid and whose header fields have parts at these places.
#[inline(always)]
fn check_placed(
    order: Order,
    fields_len: u32,
    bytes: &[u8],
    places: &Places,
) -> Result<(), Malformed>
    requires order { order ≡ stated_order bytes.now }
    requires long { 16 ≤ length bytes.now }
    requires head { head_fault bytes.now ≡ None }
    requires whole { length bytes.now ≡ whole_len bytes.now }
    requires len { IsFieldsLen bytes.now fields_len }
    requires placed { HasPlaces order fields_len bytes.now places.now }
    ensures refusal { refusal result ≡ fault bytes.now }
    ensures placed { OnOk result (IsPlaced bytes.now places.now) }
{
    let fields = fields_bytes(fields_len, bytes);
    check_fields(order, fields_len, bytes, fields, places)
}

/// The valid message with these bytes, whose header fields have these bytes and parts at these places.
#[inline(always)]
fn assembled<'a>(
    order: Order,
    fields_len: u32,
    bytes: &'a [u8],
    fields: &'a [u8],
    places: &'a Places,
) -> Message<'a>
    requires long { 16 ≤ length bytes.now }
    requires head { head_fault bytes.now ≡ None }
    requires whole { length bytes.now ≡ whole_len bytes.now }
    requires order { order ≡ stated_order bytes.now }
    requires len { IsFieldsLen bytes.now fields_len }
    requires within { AreWithin fields.now places.now }
    requires parts { HasParts bytes.now (found_at order fields.now places.now) }
    ensures { result.bytes.now ≡ bytes.now }
{
    let start = body_start(fields_len) as usize;
    let (_, body) = bytes.split_at(start);
    Message {
        order,
        kind: bytes[1],
        flags: bytes[2],
        serial: read_u32(order, bytes, 8),
        signature: stated(places, fields),
        body,
        bytes,
        fields,
        places,
    }
}

/// Reads a message, or finds what is wrong with it and where (D-Bus Specification, "Message Format"). This takes one
/// pass over the header and one over the body. The places of the header's parts are put into `places`.
pub fn decode<'a>(bytes: &'a [u8], places: &'a mut Places) -> Result<Message<'a>, Malformed>
    requires long { 16 ≤ length bytes.now }
    requires whole { head_fault bytes.now ≡ None → length bytes.now ≡ whole_len bytes.now }
    ensures refusal { refusal result ≡ fault bytes.now }
    ensures bytes { IfOk result (λ m. m.bytes.now ≡ bytes.now) }
{
    decode_knowing(bytes, &mut KnownTexts::none(), places)
}

/// Reads a message as `decode` does. This doesn't check again what `known` has of earlier messages, and adds this
/// message to it.
pub fn decode_knowing<'a>(
    bytes: &'a [u8],
    known: &mut KnownTexts,
    places: &'a mut Places,
) -> Result<Message<'a>, Malformed>
    requires long { 16 ≤ length bytes.now }
    requires whole { head_fault bytes.now ≡ None → length bytes.now ≡ whole_len bytes.now }
    ensures refusal { refusal result ≡ fault bytes.now }
    ensures bytes { IfOk result (λ m. m.bytes.now ≡ bytes.now) }
{
    check_head(bytes)?;
    decode_checked(bytes, known, places)
}

/// Reads a message as `decode_knowing` does, if `length` has already found its first sixteen bytes to be valid.
pub fn decode_checked<'a>(
    bytes: &'a [u8],
    known: &mut KnownTexts,
    places: &'a mut Places,
) -> Result<Message<'a>, Malformed>
    requires long { 16 ≤ length bytes.now }
    requires head { head_fault bytes.now ≡ None }
    requires whole { length bytes.now ≡ whole_len bytes.now }
    ensures refusal { refusal result ≡ fault bytes.now }
    ensures bytes { IfOk result (λ m. m.bytes.now ≡ bytes.now) }
{
    check_whole(bytes, known, places)?;
    Ok(placed(bytes, places))
}

/// Does the first half of `decode_checked`: checks the message, and puts the places of the header's parts into
/// `places`. `placed` then gives the message. A caller that does both moves no message through a result.
pub fn check_whole(
    bytes: &[u8],
    known: &mut KnownTexts,
    places: &mut Places,
) -> Result<(), Malformed>
    requires long { 16 ≤ length bytes.now }
    requires head { head_fault bytes.now ≡ None }
    requires whole { length bytes.now ≡ whole_len bytes.now }
    ensures refusal { refusal result ≡ fault bytes.now }
    ensures placed { OnOk result (IsPlaced bytes.now places.new) }
{
    let order = order_in(bytes);
    let fields_len = header_fields_len(order, bytes);
    find_places(known, order, fields_len, bytes, places)?;
    check_placed(order, fields_len, bytes, places)
}

/// The message with these bytes, which `check_whole` has checked, and whose header's parts it has put into `places`.
#[inline(always)]
pub fn placed<'a>(bytes: &'a [u8], places: &'a Places) -> Message<'a>
    requires { IsPlaced bytes.now places.now }
    ensures bytes { result.bytes.now ≡ bytes.now }
    ensures sound { fault bytes.now ≡ None }
{
    let order = order_in(bytes);
    let fields_len = header_fields_len(order, bytes);
    let fields = fields_bytes(fields_len, bytes);
    assembled(order, fields_len, bytes, fields, places)
}

/// Finds the places of the parts of a valid message's header fields.
fn valid_places(
    known: &KnownTexts,
    order: Order,
    fields_len: u32,
    bytes: &[u8],
    places: &mut Places,
)
    requires order { order ≡ stated_order bytes.now }
    requires len { IsFieldsLen bytes.now fields_len }
    requires valid { IsSome (message_of bytes.now) }
    ensures within { AreWithin (bytes_of_fields fields_len bytes.now) places.new }
    ensures parts { HasParts bytes.now (found_at order (bytes_of_fields fields_len bytes.now) places.new) }
{
    if let Some(found) = known.find(order, fields_len, fields_bytes(fields_len, bytes)) {
        *places = *found;
        return;
    }
    let mut none = KnownTexts::none();
    match read_header(&mut none, order, fields_len, bytes, places) {
        Ok(()) => {}
        Err(_) => unreachable!(),
    }
}

/// Reads a message that is known to be valid. Its body isn't checked again, and its header fields aren't if a known
/// header has them. `known` isn't changed. The places of the header's parts are put into `places`.
pub fn read_valid<'a>(bytes: &'a [u8], known: &KnownTexts, places: &'a mut Places) -> Message<'a>
    requires { IsSome (message_of bytes.now) }
    ensures { result.bytes.now ≡ bytes.now }
{
    let order = order_in(bytes);
    let fields_len = header_fields_len(order, bytes);
    valid_places(known, order, fields_len, bytes, places);
    assembled(
        order,
        fields_len,
        bytes,
        fields_bytes(fields_len, bytes),
        places,
    )
}
