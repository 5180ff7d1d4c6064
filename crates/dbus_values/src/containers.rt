//! Passing over values of any type, by the codes of their types.
ghost use Rattle.std.specs.Prelude.{◌≡◌, ◌⊎◌, ◌≤◌, ◌<◌, suc, Some, None, IfSome, option_map, length, drop};
ghost use Rattle.dbus_values.specs.Walk.{alignment_by, front_code as code_in_front, walk_within, walk_by, walk_array, walk_struct, walk_members, walk_variant, walk_element, walk_entry, walk_to_end, elements_fill, numbers_fill};
ghost use Rattle.dbus_values.specs.Seen.{place_seen, bytes_seen};
ghost use Rattle.dbus_values.specs.Alignments.{IsAlignment};

use crate::Order;
use crate::basic::number_width;
use crate::cursor::Cursor;
use dbus_types::behind_type;

/// The maximum length of an array's elements in bytes (D-Bus Specification, "Type System", "Marshaling").
const ARRAY_LIMIT: u32 = 67_108_864;

/// What is left after a value: the types that follow, and the cursor after the value.
type Passed<'a> = Option<(&'a [u8], Cursor<'a>)>;

/// The code of the first type.
#[inline(always)]
pub(crate) fn front_code(types: &[u8]) -> u8
    ensures { result ≡ code_in_front types.now }
{
    match types {
        [code, ..] => *code,
        [] => 0,
    }
}

/// What follows the first code.
#[inline(always)]
fn behind_code(types: &[u8]) -> &[u8]
    ensures { result.now ≡ drop 1 types.now }
{
    match types {
        [_, others @ ..] => others,
        [] => types,
    }
}

/// The alignment of a type, by its code.
#[inline]
fn alignment(code: u8) -> usize
    ensures value { result ≡ alignment_by code }
    ensures power { IsAlignment result }
{
    match code {
        b'n' | b'q' => 2,
        b'b' | b'i' | b'u' | b'h' | b's' | b'o' | b'a' => 4,
        b'x' | b't' | b'd' | b'(' | b'{' => 8,
        _ => 1,
    }
}

/// Passes over a value of a basic type, or over a variant that holds a number. It gives `None` for any other value and
/// for an invalid one. It is inlined and calls only tests, so that a loop keeps its cursor in registers.
#[inline(always)]
fn walk_at_once<'a>(order: Order, containers: usize, types: &'a [u8], at: Cursor<'a>) -> Passed<'a>
    ensures { IfSome result (λ x. walk_within containers order types.now (place_seen at.entry) ≡ Some (bytes_seen x)) }
{
    let code = front_code(types);
    let others = behind_code(types);
    if code != b'v' && containers > 0 {
        let behind = at.basic(order, code)?;
        Some((others, behind))
    } else if code == b'v' && containers > 1 {
        let (code, value) = at.number_signature()?;
        let behind = value.number_by_code(code)?;
        Some((others, behind))
    } else {
        None
    }
}

/// Passes over a value of the first type. Its nesting depth of containers must be less than `containers`.
#[inline(always)]
#[cycle(walk)]
pub(crate) fn walk<'a>(
    order: Order,
    containers: usize,
    types: &'a [u8],
    at: Cursor<'a>,
) -> Passed<'a>
    ensures { option_map bytes_seen result ≡ walk_within containers order types.now (place_seen at.entry) }
{
    if let Some((others, behind)) = walk_at_once(order, containers, types, at) {
        return Some((others, behind));
    }
    // The result is taken apart so that only this call passes one in memory.
    let (others, behind) = walk_any(order, containers, types, at)?;
    Some((others, behind))
}

/// Passes over a value that is likely a container.
#[inline]
#[cycle(walk)]
fn walk_any<'a>(order: Order, containers: usize, types: &'a [u8], at: Cursor<'a>) -> Passed<'a>
    ensures { option_map bytes_seen result ≡ walk_within containers order types.now (place_seen at.entry) }
{
    if containers == 0 {
        return None;
    }
    walk_within_one(order, containers - 1, types, at)
}

/// Passes over a value. A value inside it may have a nesting depth of less than `containers`.
#[inline(never)]
#[cycle(walk)]
fn walk_within_one<'a>(
    order: Order,
    containers: usize,
    types: &'a [u8],
    at: Cursor<'a>,
) -> Passed<'a>
    ensures { option_map bytes_seen result ≡ walk_by order containers (walk_within containers order) types.now (place_seen at.entry) }
{
    match types {
        [b'a', element @ ..] => array(order, containers, element, at),
        [b'(', members @ ..] => structure(order, containers, members, at),
        [b'v', others @ ..] => Some((others, variant(order, containers, at)?)),
        [code, others @ ..] => Some((others, at.basic(order, *code)?)),
        [] => None,
    }
}

/// Passes over an array, from its element's type on.
#[cycle(walk)]
fn array<'a>(order: Order, containers: usize, types: &'a [u8], at: Cursor<'a>) -> Passed<'a>
    ensures { option_map bytes_seen result ≡ walk_array order containers (walk_within containers order) types.now (place_seen at.entry) }
{
    let (len, first) = at.align(4)?.number(order)?;
    let first = first.align(alignment(front_code(types)))?;
    let (bytes, behind) = first.take(len as usize)?;
    let elements = Cursor {
        place: first.place,
        bytes,
    };
    if len <= ARRAY_LIMIT && fills(order, containers, types, elements) {
        Some((behind_type(types), behind))
    } else {
        None
    }
}

/// Whether elements of the first type fill the bytes exactly.
#[cycle(walk)]
fn fills(order: Order, containers: usize, types: &[u8], at: Cursor<'_>) -> bool
    ensures { result ≡ elements_fill containers (walk_within containers order) types.now (place_seen at.entry) }
{
    match number_width(front_code(types)) {
        0 => elements_to_end(order, containers, types, at),
        width => at.bytes.is_empty() || containers > 0 && at.bytes.len() % width == 0,
    }
}

/// Whether elements follow each other up to the end of the bytes.
#[cycle(walk)]
fn elements_to_end(order: Order, containers: usize, types: &[u8], first: Cursor<'_>) -> bool
    ensures { result ≡ walk_to_end (walk_element (walk_within containers order) types.now) (suc (length first.entry.bytes.now)) (place_seen first.entry) }
{
    let mut at = first;
    // Each element has at least one byte.
    let mut most = at.bytes.len() + 1;
    while most > 0 {
        if at.bytes.is_empty() {
            return true;
        }
        match element(order, containers, types, at) {
            Some((_, behind)) => at = behind,
            None => return false,
        }
        most -= 1;
    }
    false
}

/// Passes over an element: a dict entry, or a value.
#[inline(always)]
#[cycle(walk)]
fn element<'a>(order: Order, containers: usize, types: &'a [u8], at: Cursor<'a>) -> Passed<'a>
    ensures { option_map bytes_seen result ≡ walk_element (walk_within containers order) types.now (place_seen at.entry) }
{
    match types {
        [b'{', entry @ ..] => {
            let (others, behind) = dict_entry(order, containers, entry, at)?;
            Some((others, behind))
        }
        _ => walk(order, containers, types, at),
    }
}

/// Passes over a dict entry. Its types follow the brace.
#[inline(never)]
#[cycle(walk)]
fn dict_entry<'a>(order: Order, containers: usize, types: &'a [u8], at: Cursor<'a>) -> Passed<'a>
    ensures { option_map bytes_seen result ≡ walk_entry (walk_within containers order) types.now (place_seen at.entry) }
{
    let (types, value) = walk(order, containers, types, at.align(8)?)?;
    let (types, behind) = walk(order, containers, types, value)?;
    Some((behind_code(types), behind))
}

/// Passes over a struct. Its members' types follow the parenthesis.
#[inline(always)]
#[cycle(walk)]
fn structure<'a>(order: Order, containers: usize, types: &'a [u8], at: Cursor<'a>) -> Passed<'a>
    ensures { option_map bytes_seen result ≡ walk_struct (walk_within containers order) types.now (place_seen at.entry) }
{
    let (types, next) = walk_any(order, containers, types, at.align(8)?)?;
    if front_code(types) == b')' {
        Some((behind_code(types), next))
    } else {
        members(order, containers, types, next)
    }
}

/// Passes over members up to the closing parenthesis.
#[inline(never)]
#[cycle(walk)]
fn members<'a>(
    order: Order,
    containers: usize,
    member_types: &'a [u8],
    first: Cursor<'a>,
) -> Passed<'a>
    ensures { option_map bytes_seen result ≡ walk_members (walk_within containers order) (suc (length member_types.now)) member_types.now (place_seen first.entry) }
{
    let mut types = member_types;
    let mut at = first;
    // Each member's type has at least one byte.
    let mut most = types.len() + 1;
    while most > 0 {
        if front_code(types) == b')' {
            return Some((behind_code(types), at));
        }
        (types, at) = walk(order, containers, types, at)?;
        most -= 1;
    }
    None
}

/// Passes over a variant: the signature of exactly one type, and a value of it.
#[inline(never)]
#[cycle(walk)]
fn variant<'a>(order: Order, containers: usize, at: Cursor<'a>) -> Option<Cursor<'a>>
    ensures { option_map place_seen result ≡ walk_variant (walk_within containers order) (place_seen at.entry) }
{
    let (types, value) = at.signature()?;
    let (others, behind) = walk(order, containers, types, value)?;
    if others.is_empty() {
        Some(behind)
    } else {
        None
    }
}
