//! Values of basic types.
ghost use Rattle.std.specs.Prelude.{◌≡◌, ◌⊎◌, ◌<◌, ◌+◌, ◌^◌, Some, None, IfSome, option_map, length};
ghost use Rattle.std.specs.Prelude.{[], ◌∷◌, nat_lt, is_none};
ghost use Rattle.std.specs.List.{list_all};
ghost use Rattle.std.specs.Str.{is_utf8 as is_utf8_text};
ghost use Rattle.dbus_types.specs.Signature.{signature_fault};
ghost use Rattle.dbus_names.specs.Names.{is_ascii_text_byte};
ghost use Rattle.dbus_values.specs.Values.{is_text as is_text_value};
ghost use Rattle.dbus_values.specs.Reading.{ended_by_nul, text_at};
ghost use Rattle.dbus_values.specs.Counted.{counted_at};
ghost use Rattle.dbus_values.specs.Walk.{number_width as width_by_code, walk_number, walk_boolean, walk_text, walk_path, walk_signature, walk_basic, read_signature, walk_number_by};
ghost use Rattle.dbus_values.specs.Seen.{place_seen, bytes_seen};
ghost use Rattle.dbus_values.specs.Alignments.{IsAlignment};

use crate::Order;
use crate::cursor::Cursor;
use dbus_names::is_path;
use dbus_types::Signature;
use std::str;

/// The width in bytes of a number type in which all bits are valid, by the type's code; 0 for another type.
#[inline]
pub(crate) fn number_width(code: u8) -> usize
    ensures { result ≡ width_by_code code }
{
    match code {
        b'y' => 1,
        b'n' | b'q' => 2,
        b'i' | b'u' | b'h' => 4,
        b'x' | b't' | b'd' => 8,
        _ => 0,
    }
}

/// Whether all bytes are ASCII other than NUL. A wrong byte doesn't end the loop, so that it can test many bytes at a
/// time.
#[inline(never)]
fn is_ascii_text(text: &[u8]) -> bool
    ensures { result ≡ list_all is_ascii_text_byte text.now }
{
    let mut is_good = true;
    for byte in text {
        is_good = is_good & (*byte > 0) & (*byte < 128);
    }
    is_good
}

#[inline(never)]
fn has_no_nul(text: &[u8]) -> bool
    ensures { result ≡ list_all (nat_lt 0) text.now }
{
    let mut is_good = true;
    for byte in text {
        is_good = is_good & (*byte > 0);
    }
    is_good
}

#[inline]
fn is_utf8(text: &[u8]) -> bool
    ensures { result ≡ is_utf8_text text.now }
{
    match str::from_utf8(text) {
        Ok(_) => true,
        Err(_) => false,
    }
}

/// Whether the bytes are UTF-8 without NUL, as a string must be. ASCII takes one pass only.
#[inline(never)]
pub(crate) fn is_text(text: &[u8]) -> bool
    requires { length text.now < 2 ^ 32 }
    ensures { result ≡ is_text_value text.now }
{
    is_ascii_text(text) || has_no_nul(text) && is_utf8(text)
}

/// Whether the byte alone is a valid signature: the code of a basic type or of a variant.
#[inline(always)]
fn is_type_code(code: u8) -> bool
    ensures { result ≡ is_none (signature_fault (code ∷ [])) }
{
    match code {
        b'y' | b'b' | b'n' | b'q' | b'i' | b'u' | b'x' | b't' | b'd' | b'h' => true,
        b's' | b'o' | b'g' | b'v' => true,
        _ => false,
    }
}

#[inline(never)]
fn is_signature_of_many(types: &[u8]) -> bool
    ensures { result ≡ is_none (signature_fault types.now) }
{
    Signature::read(types).is_ok()
}

/// Whether the bytes are a valid signature. Most variants have a signature of one byte, and a message can have millions
/// of them.
#[inline(always)]
fn is_signature(types: &[u8]) -> bool
    ensures { result ≡ is_none (signature_fault types.now) }
{
    match types {
        [] => true,
        [code] => is_type_code(*code),
        _ => is_signature_of_many(types),
    }
}

// These methods are inlined and call only tests that aren't. So a loop over small values keeps its cursor in registers:
// a call that returns a cursor passes it in memory, which took half of the time.
impl<'a> Cursor<'a> {
    /// Takes the bytes of this length, if a NUL follows them, and gives the cursor after the NUL.
    #[inline(always)]
    fn ended_by_nul(self, len: usize) -> Option<(&'a [u8], Cursor<'a>)>
        ensures { option_map bytes_seen result ≡ ended_by_nul len (place_seen self.entry) }
    {
        let (text, end) = self.take(len)?;
        let (nul, behind) = end.take(1)?;
        if nul[0] == 0 {
            Some((text, behind))
        } else {
            None
        }
    }

    /// Takes the bytes of a string or a path: a length, the bytes, a NUL.
    #[inline(always)]
    pub(crate) fn counted(self, order: Order) -> Option<(&'a [u8], Cursor<'a>)>
        ensures bytes { option_map bytes_seen result ≡ counted_at order (place_seen self.entry) }
        ensures short { IfSome result (λ x. length x.0.now < 2 ^ 32) }
    {
        let start = self.align(4)?;
        let (len, text) = start.number(order)?;
        text.ended_by_nul(len as usize)
    }

    #[inline(always)]
    pub(crate) fn text(self, order: Order) -> Option<Cursor<'a>>
        ensures { option_map place_seen result ≡ walk_text order (place_seen self.entry) }
    {
        let (text, behind) = self.counted(order)?;
        if is_text(text) { Some(behind) } else { None }
    }

    // The grammar of a path allows ASCII only.
    #[inline(always)]
    fn path(self, order: Order) -> Option<Cursor<'a>>
        ensures { option_map place_seen result ≡ walk_path order (place_seen self.entry) }
    {
        let (text, behind) = self.counted(order)?;
        if is_path(text) { Some(behind) } else { None }
    }

    /// Takes a signature: a length byte, the types, a NUL.
    #[inline(always)]
    pub(crate) fn signature(self) -> Option<(&'a [u8], Cursor<'a>)>
        ensures { option_map bytes_seen result ≡ read_signature (place_seen self.entry) }
    {
        let (len, types) = self.take(1)?;
        let (types, behind) = types.ended_by_nul(len[0] as usize)?;
        if is_signature(types) {
            Some((types, behind))
        } else {
            None
        }
    }

    /// Takes a variant's signature, if its type is a number in which all bits are valid, and gives the type's code.
    #[inline(always)]
    pub(crate) fn number_signature(self) -> Option<(u8, Cursor<'a>)>
        ensures read { IfSome result (λ x. read_signature (place_seen self.entry) ≡ Some (x.0 ∷ [], place_seen x.1)) }
        ensures number { IfSome result (λ x. 0 < width_by_code x.0) }
    {
        match self.bytes {
            [1, code, 0, ..] if number_width(*code) > 0 => {
                let (_, value) = self.take(3)?;
                Some((*code, value))
            }
            _ => None,
        }
    }

    #[inline(always)]
    fn boolean(self, order: Order) -> Option<Cursor<'a>>
        ensures { option_map place_seen result ≡ walk_boolean order (place_seen self.entry) }
    {
        let (number, behind) = self.align(4)?.number(order)?;
        if number < 2 { Some(behind) } else { None }
    }

    #[inline(always)]
    fn fixed(self, width: usize) -> Option<Cursor<'a>>
        requires { IsAlignment width }
        ensures { option_map place_seen result ≡ walk_number width (place_seen self.entry) }
    {
        let (_, behind) = self.align(width)?.take(width)?;
        Some(behind)
    }

    /// The cursor after a number in which all bits are valid, by its type's code.
    #[inline(always)]
    pub(crate) fn number_by_code(self, code: u8) -> Option<Cursor<'a>>
        ensures { option_map place_seen result ≡ walk_number_by code (place_seen self.entry) }
    {
        match code {
            b'y' => self.fixed(1),
            b'n' | b'q' => self.fixed(2),
            b'i' | b'u' | b'h' => self.fixed(4),
            b'x' | b't' | b'd' => self.fixed(8),
            _ => None,
        }
    }

    /// The cursor after a value of a basic type, by the type's code.
    #[inline(always)]
    pub(crate) fn basic(self, order: Order, code: u8) -> Option<Cursor<'a>>
        ensures { option_map place_seen result ≡ walk_basic order code (place_seen self.entry) }
    {
        match code {
            b's' => self.text(order),
            b'o' => self.path(order),
            b'g' => match self.signature() {
                Some((_, behind)) => Some(behind),
                None => None,
            },
            b'b' => self.boolean(order),
            _ => self.number_by_code(code),
        }
    }
}
