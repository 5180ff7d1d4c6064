//! The grammars of D-Bus names and object paths, as tests on bytes; the name of the bus itself; texts that are known to
//! be bus names; and names that own their text.
//!
//! A test reads a text once, allocates nothing, and stops at the first wrong byte.
#![tactic(auto)]

ghost use Rattle.std.specs.Prelude.{◌≡◌, ◌≤◌, drop, position};
ghost use Rattle.std.specs.List.{list_all, position_or_len};
ghost use Rattle.dbus_names.specs.Elements.{BehindSome, IsSeparator, are_of_one_kind, are_two_elements, element_count, is_element_of, is_other, is_outside, is_among as is_among_kinds};
ghost use Rattle.dbus_names.specs.Names.{is_bus as is_name_of_bus, is_bus_name as is_either_bus_name, is_error_name as is_name_of_error, is_interface as is_interface_name, is_member as is_member_name, is_path as is_object_path, is_unique as is_unique_name, is_well_known as is_well_known_name};

mod bus_name;
mod name;

pub use bus_name::BusName;
pub use name::Name;

/// The well-known name of the bus itself (D-Bus Specification, "Message Bus Specification").
pub const BUS_NAME: &str = "org.freedesktop.DBus";

/// The maximum length of a name.
const LONGEST_NAME: usize = 255;

// The kinds of bytes in elements, one bit each: a letter or `_`, a digit, and `-`.
const LETTER: u8 = 1;

const DIGIT: u8 = 2;

const DASH: u8 = 4;

const WORD: u8 = LETTER | DIGIT;

const ANY: u8 = WORD | DASH;

// The kind of each byte, as a digit whose three lowest bits in ASCII are the kind's.
static KINDS: [u8; 256] = *b"\
    00000000000000000000000000000000\
    00000000000004002222222222000000\
    01111111111111111111111111100001\
    01111111111111111111111111100000\
    00000000000000000000000000000000\
    00000000000000000000000000000000\
    00000000000000000000000000000000\
    00000000000000000000000000000000";

/// Whether the text is a unique bus name, as a bus gives one to each connection: a colon and two or more elements
/// joined by dots, each of one or more of `[A-Za-z0-9_-]`, at most 255 bytes in all (D-Bus Specification, "Message
/// Protocol", "Valid Names").
pub fn is_unique(text: &[u8]) -> bool
    ensures { result ≡ is_unique_name text.now }
{
    match text {
        [b':', elements @ ..] => {
            text.len() <= LONGEST_NAME && has_two_elements(elements, ANY, ANY)
        }
        _ => false,
    }
}

/// Whether the text is a well-known bus name: two or more elements joined by dots, each of one or more of
/// `[A-Za-z0-9_-]` and not beginning with a digit, at most 255 bytes in all (D-Bus Specification, "Message Protocol",
/// "Valid Names").
pub fn is_well_known(text: &[u8]) -> bool
    ensures { result ≡ is_well_known_name text.now }
{
    text.len() <= LONGEST_NAME && has_two_elements(text, LETTER | DASH, ANY)
}

/// Whether the text is a bus name, as in a destination or a sender: unique if it begins with a colon, and else
/// well-known (D-Bus Specification, "Message Protocol", "Valid Names").
pub fn is_bus_name(text: &[u8]) -> bool
    ensures { result ≡ is_either_bus_name text.now }
{
    match text {
        [b':', ..] => is_unique(text),
        _ => is_well_known(text),
    }
}

/// Whether the text is the name of the bus itself, `org.freedesktop.DBus` (D-Bus Specification, "Message Bus
/// Specification").
pub fn is_bus(text: &str) -> bool
    ensures { result ≡ is_name_of_bus text.now }
{
    text == BUS_NAME
}

/// Whether the text is an interface name: two or more elements joined by dots, each of one or more of `[A-Za-z0-9_]`
/// and not beginning with a digit, at most 255 bytes in all (D-Bus Specification, "Message Protocol", "Valid Names").
pub fn is_interface(text: &[u8]) -> bool
    ensures { result ≡ is_interface_name text.now }
{
    text.len() <= LONGEST_NAME && has_two_elements(text, LETTER, WORD)
}

/// Whether the text is an error name, whose rules are those of an interface name (D-Bus Specification, "Message
/// Protocol", "Valid Names").
pub fn is_error_name(text: &[u8]) -> bool
    ensures { result ≡ is_name_of_error text.now }
{
    is_interface(text)
}

/// Whether the text is a member name: one or more of `[A-Za-z0-9_]`, not beginning with a digit, at most 255 bytes
/// (D-Bus Specification, "Message Protocol", "Valid Names").
pub fn is_member(text: &[u8]) -> bool
    ensures { result ≡ is_member_name text.now }
{
    text.len() <= LONGEST_NAME && is_element(text, LETTER, WORD)
}

/// Whether the text is an object path: only `/`, or one or more elements with a `/` before each, each of one or more of
/// `[A-Za-z0-9_]` (D-Bus Specification, "Message Protocol", "Valid Object Paths").
pub fn is_path(text: &[u8]) -> bool
    ensures { result ≡ is_object_path text.now }
{
    match text {
        [b'/'] => true,
        [b'/', elements @ ..] => count_elements(elements, b'/', WORD, WORD).is_some(),
        _ => false,
    }
}

#[inline]
fn is_among(byte: u8, kinds: u8) -> bool
    ensures { result ≡ is_among_kinds kinds byte }
{
    KINDS[byte as usize] & kinds != 0
}

// Whether one of the kinds is that of all four bytes.
#[inline]
fn are_alike(a: u8, b: u8, c: u8, d: u8, kinds: u8) -> bool
    ensures { result ≡ are_of_one_kind kinds a b c d }
{
    KINDS[a as usize] & KINDS[b as usize] & KINDS[c as usize] & KINDS[d as usize] & kinds != 0
}

// What follows the first bytes of these kinds, taken four at a time while the four are alike: most elements are letters
// only.
#[inline]
fn after_fours(text: &[u8], kinds: u8) -> &[u8]
    ensures { BehindSome (is_among_kinds kinds) result.now text.now }
{
    let mut left = text;
    while let [a, b, c, d, others @ ..] = left {
        if !are_alike(*a, *b, *c, *d, kinds) {
            break;
        }
        left = others;
    }
    left
}

// Whether all bytes are of these kinds.
fn are_among(text: &[u8], kinds: u8) -> bool
    ensures { result ≡ list_all (is_among_kinds kinds) text.now }
{
    is_each_among(after_fours(text, kinds), kinds)
}

// Whether all bytes are of these kinds, one byte after the other.
#[inline]
fn is_each_among(text: &[u8], kinds: u8) -> bool
    ensures { result ≡ list_all (is_among_kinds kinds) text.now }
{
    text.iter().all(|byte| is_among(*byte, kinds))
}

// Whether the text is one element, by the kinds of its first byte and of the others.
fn is_element(text: &[u8], first: u8, rest: u8) -> bool
    ensures { result ≡ is_element_of first rest text.now }
{
    match text {
        [start, others @ ..] => is_among(*start, first) && are_among(others, rest),
        [] => false,
    }
}

// The place of the first byte of other kinds.
#[inline]
fn first_other(text: &[u8], kinds: u8) -> Option<usize>
    ensures { result ≡ position (is_other kinds) text.now }
{
    text.iter().position(|byte| !is_among(*byte, kinds))
}

// What follows the first bytes of these kinds.
#[inline]
fn after_all(text: &[u8], kinds: u8) -> &[u8]
    ensures { result.now ≡ drop (position_or_len (is_other kinds) text.now) text.now }
{
    match first_other(text, kinds) {
        Some(len) => &text[len..],
        None => &[],
    }
}

// What follows the first bytes that continue an element. A separator is of no kind, so it needs no test of its own.
#[inline]
fn after_run(text: &[u8], separator: u8, kinds: u8) -> &[u8]
    requires separator { IsSeparator separator }
    requires kinds { kinds ≤ 7 }
    ensures { result.now ≡ drop (position_or_len (is_outside kinds separator) text.now) text.now }
{
    after_all(after_fours(text, kinds), kinds)
}

// The number of elements joined by the separator, if each part between separators is an element.
fn count_elements(text: &[u8], separator: u8, first: u8, rest: u8) -> Option<usize>
    requires separator { IsSeparator separator }
    requires kinds { (first ≤ 7) × (rest ≤ 7) }
    ensures { result ≡ element_count first rest separator text.now }
{
    let mut count = 0;
    let mut left = text;
    while let [start, others @ ..] = left {
        if !is_among(*start, first) {
            return None;
        }
        count += 1;
        match after_run(others, separator, rest) {
            [] => return Some(count),
            [byte, behind @ ..] => {
                if *byte != separator {
                    return None;
                }
                left = behind;
            }
        }
    }
    None
}

// Whether the text is two or more elements joined by dots.
fn has_two_elements(text: &[u8], first: u8, rest: u8) -> bool
    requires { (first ≤ 7) × (rest ≤ 7) }
    ensures { result ≡ are_two_elements first rest text.now }
{
    match count_elements(text, b'.', first, rest) {
        Some(count) => count >= 2,
        None => false,
    }
}
