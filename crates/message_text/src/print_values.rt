//! Values as text, by the codes of their types.
ghost use Rattle.std.specs.Prelude.{◌≡◌, ◌++◌, ◌∷◌, [], suc, length, drop, IfOk};
ghost use Rattle.dbus_values.specs.Walk.{front_code as code_in_front};
ghost use Rattle.message_text.specs.Printing.{print_number, print_counted, print_text, print_signature, print_basic, print_items, print_elements, print_entry, print_element, print_array, print_members, print_struct, print_typed, print_variant, print_coded, print_by, print_within, with_types};
ghost use Rattle.message_text.specs.Seen.{place_seen, typed_seen, printed_seen};

use crate::cursor::Cursor;
use crate::numbers::{alignment, width};
use crate::words;
use dbus_types::behind_type;
use dbus_values::Order;
use std::alloc::AllocError;

/// What printing a value leaves: the types that follow, and the cursor after it.
type Printed<'a> = Result<(&'a [u8], Cursor<'a>), AllocError>;

/// The first code of these types, or 0.
#[inline]
pub(crate) fn front_code(types: &[u8]) -> u8
    ensures { result ≡ code_in_front types.now }
{
    match types {
        [code, ..] => *code,
        [] => 0,
    }
}

/// What follows the first code.
#[inline]
pub(crate) fn after_code(types: &[u8]) -> &[u8]
    ensures { result.now ≡ drop 1 types.now }
{
    match types {
        [_, others @ ..] => others,
        [] => types,
    }
}

fn number<'a>(
    order: Order,
    code: u8,
    at: Cursor<'a>,
    out: &mut Vec<u8>,
) -> Result<Cursor<'a>, AllocError>
    ensures { IfOk result (λ x. printed_seen out.new.items x ≡ print_number order code out.old.items (place_seen at.entry)) }
{
    let width = width(code);
    let start = at.over_gap(width);
    words::number(out, order, code, start.number(order, width))?;
    Ok(start.onward(width))
}

/// A text of this many bytes, which a NUL follows.
fn counted<'a>(len: usize, at: Cursor<'a>, out: &mut Vec<u8>) -> Result<Cursor<'a>, AllocError>
    ensures { IfOk result (λ x. printed_seen out.new.items x ≡ print_counted len out.old.items (place_seen at.entry)) }
{
    words::quoted(out, at.taken(len))?;
    Ok(at.onward(len).onward(1))
}

/// A string or an object path.
fn text<'a>(order: Order, at: Cursor<'a>, out: &mut Vec<u8>) -> Result<Cursor<'a>, AllocError>
    ensures { IfOk result (λ x. printed_seen out.new.items x ≡ print_text order out.old.items (place_seen at.entry)) }
{
    let start = at.over_gap(4);
    counted(start.number(order, 4) as usize, start.onward(4), out)
}

fn signature<'a>(at: Cursor<'a>, out: &mut Vec<u8>) -> Result<Cursor<'a>, AllocError>
    ensures { IfOk result (λ x. printed_seen out.new.items x ≡ print_signature out.old.items (place_seen at.entry)) }
{
    counted(at.front() as usize, at.onward(1), out)
}

/// A value of a basic type.
fn untyped<'a>(
    order: Order,
    code: u8,
    at: Cursor<'a>,
    out: &mut Vec<u8>,
) -> Result<Cursor<'a>, AllocError>
    ensures { IfOk result (λ x. printed_seen out.new.items x ≡ print_basic order code out.old.items (place_seen at.entry)) }
{
    match code {
        b's' | b'o' => text(order, at, out),
        b'g' => signature(at, out),
        _ => number(order, code, at, out),
    }
}

/// Prints a value of a basic type, given the types that follow its own.
fn basic<'a>(
    order: Order,
    code: u8,
    types: &'a [u8],
    at: Cursor<'a>,
    out: &mut Vec<u8>,
) -> Printed<'a>
    ensures { IfOk result (λ x. typed_seen out.new.items x ≡ with_types types.now (print_basic order code out.old.items (place_seen at.entry))) }
{
    let after = untyped(order, code, at, out)?;
    Ok((types, after))
}

/// Prints a value of the first type. Its innermost value lies within fewer containers than this number.
#[cycle(print_value)]
pub(crate) fn value<'a>(
    order: Order,
    containers: usize,
    types: &'a [u8],
    at: Cursor<'a>,
    out: &mut Vec<u8>,
) -> Printed<'a>
    ensures { IfOk result (λ x. typed_seen out.new.items x ≡ print_within containers order out.old.items types.now (place_seen at.entry)) }
{
    if containers == 0 {
        return Ok((types, at));
    }
    value_within(order, containers - 1, types, at, out)
}

/// Prints a value of the first type; a value within it may lie within this number of containers.
#[cycle(print_value)]
fn value_within<'a>(
    order: Order,
    containers: usize,
    types: &'a [u8],
    at: Cursor<'a>,
    out: &mut Vec<u8>,
) -> Printed<'a>
    ensures { IfOk result (λ x. typed_seen out.new.items x ≡ print_by order (print_within containers order) out.old.items types.now (place_seen at.entry)) }
{
    match types {
        [code, others @ ..] => coded(order, containers, *code, others, at, out),
        [] => Ok((types, at)),
    }
}

/// Prints such a value, given the first code of its type and what follows that code.
#[cycle(print_value)]
fn coded<'a>(
    order: Order,
    containers: usize,
    code: u8,
    types: &'a [u8],
    at: Cursor<'a>,
    out: &mut Vec<u8>,
) -> Printed<'a>
    ensures { IfOk result (λ x. typed_seen out.new.items x ≡ print_coded order (print_within containers order) code out.old.items types.now (place_seen at.entry)) }
{
    match code {
        b'a' => array(order, containers, types, at, out),
        b'(' => structure(order, containers, types, at, out),
        b'v' => variant(order, containers, types, at, out),
        _ => basic(order, code, types, at, out),
    }
}

/// Prints an array whose element's type comes first.
#[cycle(print_value)]
fn array<'a>(
    order: Order,
    containers: usize,
    types: &'a [u8],
    at: Cursor<'a>,
    out: &mut Vec<u8>,
) -> Printed<'a>
    ensures { IfOk result (λ x. typed_seen out.new.items x ≡ print_array order (print_within containers order) out.old.items types.now (place_seen at.entry)) }
{
    let start = at.over_gap(4);
    let len = start.number(order, 4) as usize;
    let first = start.onward(4).over_gap(alignment(front_code(types)));
    let inside = Cursor {
        place: first.place,
        bytes: first.taken(len),
    };
    out.push(b'[')?;
    elements(order, containers, types, inside, out)?;
    out.push(b']')?;
    Ok((behind_type(types), first.onward(len)))
}

/// Elements up to the end of the bytes, a space between them.
#[cycle(print_value)]
fn elements(
    order: Order,
    containers: usize,
    types: &[u8],
    first: Cursor<'_>,
    out: &mut Vec<u8>,
) -> Result<(), AllocError>
    ensures { IfOk result (λ done. out.new.items ≡ print_elements (λ text place. print_element (print_within containers order) text types.now place) out.old.items (place_seen first.entry)) }
{
    if first.bytes.is_empty() {
        return Ok(());
    }
    let (_, mut at) = element(order, containers, types, first, out)?;
    // Each element takes a byte at least.
    let mut most = first.bytes.len();
    while most > 0 && !at.bytes.is_empty() {
        out.push(b' ')?;
        let (_, after) = element(order, containers, types, at, out)?;
        at = after;
        most -= 1;
    }
    Ok(())
}

/// An element: a dict entry, or a value.
#[cycle(print_value)]
fn element<'a>(
    order: Order,
    containers: usize,
    types: &'a [u8],
    at: Cursor<'a>,
    out: &mut Vec<u8>,
) -> Printed<'a>
    ensures { IfOk result (λ x. typed_seen out.new.items x ≡ print_element (print_within containers order) out.old.items types.now (place_seen at.entry)) }
{
    match types {
        [b'{', entry @ ..] => dict_entry(order, containers, entry, at, out),
        _ => value(order, containers, types, at, out),
    }
}

/// A dict entry, its types following the brace.
#[cycle(print_value)]
fn dict_entry<'a>(
    order: Order,
    containers: usize,
    types: &'a [u8],
    at: Cursor<'a>,
    out: &mut Vec<u8>,
) -> Printed<'a>
    ensures { IfOk result (λ x. typed_seen out.new.items x ≡ print_entry (print_within containers order) out.old.items types.now (place_seen at.entry)) }
{
    out.push(b'{')?;
    let (types, next) = value(order, containers, types, at.over_gap(8), out)?;
    out.push(b' ')?;
    let (types, after) = value(order, containers, types, next, out)?;
    out.push(b'}')?;
    Ok((after_code(types), after))
}

/// A struct, its members' types following the bracket.
#[cycle(print_value)]
fn structure<'a>(
    order: Order,
    containers: usize,
    types: &'a [u8],
    at: Cursor<'a>,
    out: &mut Vec<u8>,
) -> Printed<'a>
    ensures { IfOk result (λ x. typed_seen out.new.items x ≡ print_struct (print_within containers order) out.old.items types.now (place_seen at.entry)) }
{
    out.push(b'(')?;
    let (types, next) = value(order, containers, types, at.over_gap(8), out)?;
    let (types, after) = members(order, containers, types, next, out)?;
    out.push(b')')?;
    Ok((after_code(types), after))
}

/// Members up to the closing bracket, a space before each.
#[cycle(print_value)]
fn members<'a>(
    order: Order,
    containers: usize,
    member_types: &'a [u8],
    first: Cursor<'a>,
    out: &mut Vec<u8>,
) -> Printed<'a>
    ensures { IfOk result (λ x. typed_seen out.new.items x ≡ print_members (print_within containers order) (length member_types.now) out.old.items member_types.now (place_seen first.entry)) }
{
    let mut types = member_types;
    let mut at = first;
    // Each member's type takes a byte at least.
    let mut most = types.len();
    while most > 0 && front_code(types) != b')' {
        out.push(b' ')?;
        let (others, after) = value(order, containers, types, at, out)?;
        types = others;
        at = after;
        most -= 1;
    }
    Ok((types, at))
}

/// A signature of one type, a space, and a value of the type, as they stand in a variant.
#[cycle(print_value)]
pub(crate) fn typed<'a>(
    order: Order,
    containers: usize,
    at: Cursor<'a>,
    out: &mut Vec<u8>,
) -> Result<Cursor<'a>, AllocError>
    ensures { IfOk result (λ x. printed_seen out.new.items x ≡ print_typed (print_within containers order) out.old.items (place_seen at.entry)) }
{
    let len = at.front() as usize;
    let types = at.onward(1).taken(len);
    out.extend_from_slice(types)?;
    out.push(b' ')?;
    let (_, after) = value(
        order,
        containers,
        types,
        at.onward(1).onward(len).onward(1),
        out,
    )?;
    Ok(after)
}

/// A variant, the types that follow its own being given.
#[cycle(print_value)]
fn variant<'a>(
    order: Order,
    containers: usize,
    types: &'a [u8],
    at: Cursor<'a>,
    out: &mut Vec<u8>,
) -> Printed<'a>
    ensures { IfOk result (λ x. typed_seen out.new.items x ≡ with_types types.now (print_variant (print_within containers order) out.old.items (place_seen at.entry))) }
{
    out.push(b'<')?;
    let after = typed(order, containers, at, out)?;
    out.push(b'>')?;
    Ok((types, after))
}
