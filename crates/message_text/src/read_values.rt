//! Values read from a text, by the codes of their types. Their bytes are put one after the other.
ghost use Rattle.std.specs.Prelude.{◌≡◌, ◌≤◌, ◌++◌, IfOk, option_map, length, suc, is_none};
ghost use Rattle.dbus_types.specs.Signature.{signature_fault};
ghost use Rattle.message_text.specs.Reading.{of_types, read_items, read_elements, read_entry, read_element, read_array, read_members, read_struct, word_len as len_of_word, signature_bytes, read_typed, read_variant, read_coded, read_by, read_within};
ghost use Rattle.message_text.specs.Reading.{read_basic};
ghost use Rattle.message_text.specs.Seen.{bytes_seen, value_seen};

use crate::basic_values::{NO_LEN, Rest, basic, put_gap, put_len};
use crate::numbers::alignment;
use crate::print_values::{after_code, front_code};
use crate::tokens::after_byte;
use dbus_types::{Signature, behind_type};
use dbus_values::Order;
use std::alloc::AllocError;

/// What reading a value leaves: the types that follow, and the rest of the text; nothing if the text hasn't the form.
type Read<'a> = Result<Option<(&'a [u8], &'a [u8])>, AllocError>;

/// A value of a basic type, the types that follow its own being given.
fn basic_value<'a>(
    order: Order,
    code: u8,
    types: &'a [u8],
    text: &'a [u8],
    out: &mut Vec<u8>,
) -> Read<'a>
    ensures { IfOk result (λ x. option_map (value_seen out.new.items) x ≡ of_types types.now (read_basic order code out.old.items text.now)) }
{
    let rest = match basic(order, code, text, out)? {
        Some(found) => found,
        None => return Ok(None),
    };
    Ok(Some((types, rest)))
}

/// Reads a value of the first type. Its innermost value lies within fewer containers than this number.
#[cycle(read_value)]
pub(crate) fn value<'a>(
    order: Order,
    containers: usize,
    types: &'a [u8],
    text: &'a [u8],
    out: &mut Vec<u8>,
) -> Read<'a>
    ensures { IfOk result (λ x. option_map (value_seen out.new.items) x ≡ read_within containers order types.now out.old.items text.now) }
{
    if containers == 0 {
        return Ok(None);
    }
    value_within(order, containers - 1, types, text, out)
}

/// Reads a value of the first type; a value within it may lie within this number of containers.
#[cycle(read_value)]
fn value_within<'a>(
    order: Order,
    containers: usize,
    types: &'a [u8],
    text: &'a [u8],
    out: &mut Vec<u8>,
) -> Read<'a>
    ensures { IfOk result (λ x. option_map (value_seen out.new.items) x ≡ read_by order (read_within containers order) types.now out.old.items text.now) }
{
    match types {
        [code, others @ ..] => coded(order, containers, *code, others, text, out),
        [] => Ok(None),
    }
}

/// Reads such a value, given the first code of its type and what follows that code.
#[cycle(read_value)]
fn coded<'a>(
    order: Order,
    containers: usize,
    code: u8,
    types: &'a [u8],
    text: &'a [u8],
    out: &mut Vec<u8>,
) -> Read<'a>
    ensures { IfOk result (λ x. option_map (value_seen out.new.items) x ≡ read_coded order (read_within containers order) code types.now out.old.items text.now) }
{
    match code {
        b'a' => array(order, containers, types, text, out),
        b'(' => structure(order, containers, types, text, out),
        b'v' => variant(order, containers, types, text, out),
        _ => basic_value(order, code, types, text, out),
    }
}

/// Reads an array whose element's type comes first.
#[cycle(read_value)]
fn array<'a>(
    order: Order,
    containers: usize,
    types: &'a [u8],
    text: &'a [u8],
    out: &mut Vec<u8>,
) -> Read<'a>
    ensures { IfOk result (λ x. option_map (value_seen out.new.items) x ≡ read_array order (read_within containers order) types.now out.old.items text.now) }
{
    let start = match after_byte(b'[', text) {
        Some(found) => found,
        None => return Ok(None),
    };
    put_gap(out, 4)?;
    let place = out.len();
    out.extend_from_slice(&NO_LEN)?;
    put_gap(out, alignment(front_code(types)))?;
    let first = out.len();
    let rest = match elements(order, containers, types, start, out)? {
        Some(found) => found,
        None => return Ok(None),
    };
    put_len(order, place, first, out);
    Ok(Some((behind_type(types), rest)))
}

/// Elements up to the closing bracket, a space between them.
#[cycle(read_value)]
fn elements<'a>(
    order: Order,
    containers: usize,
    types: &'a [u8],
    text: &'a [u8],
    out: &mut Vec<u8>,
) -> Rest<'a>
    ensures { IfOk result (λ x. option_map (bytes_seen out.new.items) x ≡ read_elements (λ bytes rest. read_element (read_within containers order) types.now bytes rest) out.old.items text.now) }
{
    if front_code(text) == b']' {
        return Ok(Some(after_code(text)));
    }
    let (_, rest) = match element(order, containers, types, text, out)? {
        Some(found) => found,
        None => return Ok(None),
    };
    items(order, containers, types, rest, out)
}

/// Elements up to the closing bracket, a space before each.
#[cycle(read_value)]
fn items<'a>(
    order: Order,
    containers: usize,
    types: &'a [u8],
    text: &'a [u8],
    out: &mut Vec<u8>,
) -> Rest<'a>
    ensures { IfOk result (λ x. option_map (bytes_seen out.new.items) x ≡ read_items (λ bytes rest. read_element (read_within containers order) types.now bytes rest) (suc (length text.now)) out.old.items text.now) }
{
    let mut rest = text;
    // Each element takes a byte of the text at least.
    let mut most = text.len() + 1;
    while most > 0 {
        if front_code(rest) == b']' {
            return Ok(Some(after_code(rest)));
        }
        let next = match after_byte(b' ', rest) {
            Some(found) => found,
            None => return Ok(None),
        };
        let (_, after) = match element(order, containers, types, next, out)? {
            Some(found) => found,
            None => return Ok(None),
        };
        rest = after;
        most -= 1;
    }
    Ok(None)
}

/// An element: a dict entry, or a value.
#[cycle(read_value)]
fn element<'a>(
    order: Order,
    containers: usize,
    types: &'a [u8],
    text: &'a [u8],
    out: &mut Vec<u8>,
) -> Read<'a>
    ensures { IfOk result (λ x. option_map (value_seen out.new.items) x ≡ read_element (read_within containers order) types.now out.old.items text.now) }
{
    match types {
        [b'{', entry @ ..] => dict_entry(order, containers, entry, text, out),
        _ => value(order, containers, types, text, out),
    }
}

/// A dict entry, its types following the brace.
#[cycle(read_value)]
fn dict_entry<'a>(
    order: Order,
    containers: usize,
    types: &'a [u8],
    text: &'a [u8],
    out: &mut Vec<u8>,
) -> Read<'a>
    ensures { IfOk result (λ x. option_map (value_seen out.new.items) x ≡ read_entry (read_within containers order) types.now out.old.items text.now) }
{
    let start = match after_byte(b'{', text) {
        Some(found) => found,
        None => return Ok(None),
    };
    put_gap(out, 8)?;
    let (value_types, after_key) = match value(order, containers, types, start, out)? {
        Some(found) => found,
        None => return Ok(None),
    };
    let next = match after_byte(b' ', after_key) {
        Some(found) => found,
        None => return Ok(None),
    };
    let (others, after_value) = match value(order, containers, value_types, next, out)? {
        Some(found) => found,
        None => return Ok(None),
    };
    let rest = match after_byte(b'}', after_value) {
        Some(found) => found,
        None => return Ok(None),
    };
    Ok(Some((after_code(others), rest)))
}

/// A struct, its members' types following the bracket.
#[cycle(read_value)]
fn structure<'a>(
    order: Order,
    containers: usize,
    types: &'a [u8],
    text: &'a [u8],
    out: &mut Vec<u8>,
) -> Read<'a>
    ensures { IfOk result (λ x. option_map (value_seen out.new.items) x ≡ read_struct (read_within containers order) types.now out.old.items text.now) }
{
    let start = match after_byte(b'(', text) {
        Some(found) => found,
        None => return Ok(None),
    };
    put_gap(out, 8)?;
    let (others, rest) = match value(order, containers, types, start, out)? {
        Some(found) => found,
        None => return Ok(None),
    };
    members(order, containers, others, rest, out)
}

/// Members up to the closing bracket, a space before each.
#[cycle(read_value)]
fn members<'a>(
    order: Order,
    containers: usize,
    member_types: &'a [u8],
    text: &'a [u8],
    out: &mut Vec<u8>,
) -> Read<'a>
    ensures { IfOk result (λ x. option_map (value_seen out.new.items) x ≡ read_members (read_within containers order) (suc (length member_types.now)) member_types.now out.old.items text.now) }
{
    let mut types = member_types;
    let mut rest = text;
    // Each member's type takes a byte at least.
    let mut most = member_types.len() + 1;
    while most > 0 {
        if front_code(types) == b')' {
            return Ok(match after_byte(b')', rest) {
                Some(after) => Some((after_code(types), after)),
                None => None,
            });
        }
        let next = match after_byte(b' ', rest) {
            Some(found) => found,
            None => return Ok(None),
        };
        let (others, after) = match value(order, containers, types, next, out)? {
            Some(found) => found,
            None => return Ok(None),
        };
        types = others;
        rest = after;
        most -= 1;
    }
    Ok(None)
}

/// How many bytes there are before the first space.
fn word_len(text: &[u8]) -> usize
    ensures value { result ≡ len_of_word text.now }
    ensures within { result ≤ length text.now }
{
    let mut rest = text;
    let mut len = 0;
    while let [byte, others @ ..] = rest {
        if *byte == b' ' {
            return len;
        }
        len += 1;
        rest = others;
    }
    len
}

/// Whether the bytes are a valid signature (D-Bus Specification, "Type System", "Valid Signatures").
pub(crate) fn is_signature(types: &[u8]) -> bool
    ensures { result ≡ is_none (signature_fault types.now) }
{
    Signature::read(types).is_ok()
}

/// A signature as it stands in a variant: a length byte, the types, a NUL.
fn put_signature(types: &[u8], out: &mut Vec<u8>) -> Result<(), AllocError>
    ensures { IfOk result (λ done. out.new.items ≡ out.old.items ++ signature_bytes types.now) }
{
    out.push(types.len().min(255) as u8)?;
    out.extend_from_slice(types)?;
    Ok(out.push(0)?)
}

/// A type, a space, and a value of the type.
#[cycle(read_value)]
pub(crate) fn typed<'a>(
    order: Order,
    containers: usize,
    text: &'a [u8],
    out: &mut Vec<u8>,
) -> Rest<'a>
    ensures { IfOk result (λ x. option_map (bytes_seen out.new.items) x ≡ read_typed (read_within containers order) out.old.items text.now) }
{
    let (types, rest) = text.split_at(word_len(text));
    if !is_signature(types) {
        return Ok(None);
    }
    let next = match after_byte(b' ', rest) {
        Some(found) => found,
        None => return Ok(None),
    };
    put_signature(types, out)?;
    let (others, after) = match value(order, containers, types, next, out)? {
        Some(found) => found,
        None => return Ok(None),
    };
    if others.is_empty() {
        Ok(Some(after))
    } else {
        Ok(None)
    }
}

/// A variant, the types that follow its own being given.
#[cycle(read_value)]
fn variant<'a>(
    order: Order,
    containers: usize,
    types: &'a [u8],
    text: &'a [u8],
    out: &mut Vec<u8>,
) -> Read<'a>
    ensures { IfOk result (λ x. option_map (value_seen out.new.items) x ≡ of_types types.now (read_variant (read_within containers order) out.old.items text.now)) }
{
    let start = match after_byte(b'<', text) {
        Some(found) => found,
        None => return Ok(None),
    };
    let after = match typed(order, containers, start, out)? {
        Some(found) => found,
        None => return Ok(None),
    };
    let rest = match after_byte(b'>', after) {
        Some(found) => found,
        None => return Ok(None),
    };
    Ok(Some((types, rest)))
}
