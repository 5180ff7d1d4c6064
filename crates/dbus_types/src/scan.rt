//! One pass over a signature, from its last byte to its first.
ghost use Rattle.std.specs.Prelude.{◌≡◌, ◌≤◌, ◌<◌, ◌+◌, length, Some, IfSome, if◌then◌else◌, ◌==◌, ◌∷◌, option_map, option_and_then};
ghost use Rattle.dbus_types.specs.Signature.{fault_of_types, signature_fault, types_of};
ghost use Rattle.dbus_types.specs.Scan.{empty_level, all_types as all_of, step as scan_step, fault_of_all, fault_of_levels, outside_level, with_last};
ghost use Rattle.dbus_types.specs.Places.{levels_at};
ghost use Rattle.dbus_types.specs.Plain.{is_plain as is_plain_behind};

use crate::BadSignature;
use crate::codes::{Code, code_of};
use crate::level::{Bracket, DEEPEST, Kind, Level, Shape};

/// The maximum length of a signature.
const LONGEST: usize = 255;

/// The maximum length, and the number of levels, of a signature that is read with few levels.
const SHORT: usize = 32;

/// The state of a pass: the innermost level, and the number of levels outside it.
#[derive(Clone, Copy)]
pub(crate) struct Place {
    level: Level,
    depth: usize,
}

impl Place {
    const OUTSIDE: Place = Place {
        level: Level::OUTSIDE,
        depth: 0,
    };

    // Sets the innermost level aside, and begins an empty one in it.
    fn within(self, outer: &mut [Level], bracket: Bracket) -> Place
        requires { self.depth < length outer.old }
        ensures levels { levels_at outer.new result ≡ (empty_level bracket, self.level ∷ (levels_at outer.old self).1) }
        ensures depth { result.depth ≡ self.depth + 1 }
    {
        outer[self.depth] = self.level;
        Place {
            level: Level::empty(bracket),
            depth: self.depth + 1,
        }
    }

    // Ends the innermost level: what it makes is a type of the next one.
    fn without(self, outer: &[Level], made: Option<Shape>) -> Option<Place>
        requires { self.depth ≤ length outer.now }
        ensures levels { option_map (levels_at outer.now) result ≡ option_and_then (λ t. with_last t (levels_at outer.now self).1) made }
        ensures depth { IfSome result (λ p. p.depth ≤ self.depth) }
    {
        let shape = made?;
        if self.depth == 0 {
            return None;
        }
        let depth = self.depth - 1;
        Some(Place {
            level: outer[depth].with_type(shape),
            depth,
        })
    }

    // Reads one more byte, from the right.
    #[inline]
    fn step(self, outer: &mut [Level], code: Code) -> Option<Place>
        requires { self.depth < length outer.old }
        ensures levels { option_map (levels_at outer.new) result ≡ scan_step code (levels_at outer.old self) }
        ensures depth { IfSome result (λ p. p.depth ≤ self.depth + 1) }
    {
        let level = match code {
            Code::Unknown => return None,
            Code::Basic => self.level.with_type(Shape::flat(Kind::BasicType)),
            Code::Variant => self.level.with_type(Shape::flat(Kind::Container)),
            Code::Array => self.level.array()?,
            Code::StructStart => return self.without(outer, self.level.as_struct()),
            Code::StructEnd => return Some(self.within(outer, Bracket::Parentheses)),
            Code::EntryStart => return self.without(outer, self.level.as_entry()),
            Code::EntryEnd => return Some(self.within(outer, Bracket::Braces)),
        };
        Some(Place {
            level,
            depth: self.depth,
        })
    }

    fn fault(self) -> Option<BadSignature>
        ensures { result ≡ (if self.depth == 0 then fault_of_all (all_of self.level) else Some BadSignature.Form) }
    {
        if self.depth == 0 {
            self.level.all_types().fault()
        } else {
            Some(BadSignature::Form)
        }
    }
}

// The fault of types whose spelling has at most as many bytes as there are levels.
fn fault_by_levels(bytes: &[u8], outer: &mut [Level]) -> Option<BadSignature>
    requires { length bytes.now ≤ length outer.old }
    ensures { result ≡ fault_of_types (types_of bytes.now) }
{
    let mut place = Place::OUTSIDE;
    let mut index = bytes.len();
    while index > 0 {
        index -= 1;
        match place.step(outer, code_of(bytes[index])) {
            Some(next) => place = next,
            None => return Some(BadSignature::Form),
        }
    }
    place.fault()
}

// Nearly every signature is short, and needn't pay for levels that only long ones have.
#[inline(never)]
fn fault_of_short(bytes: &[u8]) -> Option<BadSignature>
    requires { length bytes.now ≤ SHORT }
    ensures { result ≡ fault_of_types (types_of bytes.now) }
{
    let mut outer = [Level::UNUSED; SHORT];
    fault_by_levels(bytes, &mut outer)
}

#[inline(never)]
fn fault_of_long(bytes: &[u8]) -> Option<BadSignature>
    requires { length bytes.now ≤ LONGEST }
    ensures { result ≡ fault_of_types (types_of bytes.now) }
{
    let mut outer = [Level::UNUSED; LONGEST];
    fault_by_levels(bytes, &mut outer)
}

// The fault of a signature of one code.
fn fault_of_one(code: Code) -> Option<BadSignature>
    ensures { result ≡ fault_of_levels (scan_step code outside_level) }
{
    match code {
        Code::Basic | Code::Variant => None,
        _ => Some(BadSignature::Form),
    }
}

// Whether the bytes spell types without brackets, within the limits. Such a signature needs no levels.
fn is_plain(bytes: &[u8]) -> bool
    ensures { result ≡ is_plain_behind 0 bytes.now }
{
    let mut arrays = 0;
    for byte in bytes {
        match code_of(*byte) {
            Code::Basic | Code::Variant => arrays = 0,
            Code::Array if arrays < DEEPEST => arrays += 1,
            _ => return false,
        }
    }
    arrays == 0
}

/// Why the bytes aren't a signature, or `None` if they are.
pub(crate) fn fault_of(bytes: &[u8]) -> Option<BadSignature>
    ensures { result ≡ signature_fault bytes.now }
{
    match bytes {
        [byte] => fault_of_one(code_of(*byte)),
        _ if bytes.len() > LONGEST => Some(BadSignature::TooLong),
        _ if is_plain(bytes) => None,
        _ if bytes.len() <= SHORT => fault_of_short(bytes),
        _ => fault_of_long(bytes),
    }
}
