//! The steps of a cursor: padding, bytes, numbers of four bytes.
ghost use Rattle.std.specs.Prelude.{◌≡◌, ◌⊎◌, ◌≤◌, ◌<◌, ◌+◌, ◌^◌, Some, None, IfSome, option_map, length};
ghost use Rattle.std.specs.Int.{w32};
ghost use Rattle.dbus_values.specs.Values.{padding as padding_to};
ghost use Rattle.dbus_values.specs.Reading.{all_zero, some_bytes, aligned, a_width};
ghost use Rattle.dbus_values.specs.Seen.{place_seen, bytes_seen, number_seen};
ghost use Rattle.dbus_values.specs.Alignments.{IsAlignment};

use crate::Order;
use crate::cursor::Cursor;

/// The number of padding bytes from a place to the next multiple of an alignment (D-Bus Specification, "Type System",
/// "Marshaling": a value begins at a multiple of its type's alignment, counted from the start of the message).
#[inline]
pub fn padding(alignment: usize, place: usize) -> usize
    requires { IsAlignment alignment }
    ensures { result ≡ padding_to alignment place }
{
    match alignment {
        1 => 0,
        2 => place % 2,
        4 => (4 - place % 4) % 4,
        _ => (8 - place % 8) % 8,
    }
}

/// Whether all bytes are 0, as those of padding must be (D-Bus Specification, "Type System", "Marshaling"). If there
/// are no bytes, they are.
#[inline]
pub fn is_zero(bytes: &[u8]) -> bool
    ensures { result ≡ all_zero bytes.now }
{
    let mut rest = bytes;
    while let [first, after @ ..] = rest {
        if *first != 0 {
            return false;
        }
        rest = after;
    }
    true
}

impl<'a> Cursor<'a> {
    /// Takes the next bytes, as many as `len`, and gives the cursor after them.
    #[inline(always)]
    pub(crate) fn take(self, len: usize) -> Option<(&'a [u8], Cursor<'a>)>
        ensures { option_map bytes_seen result ≡ some_bytes len (place_seen self.entry) }
    {
        if len > self.bytes.len() {
            return None;
        }
        let (bytes, rest) = self.bytes.split_at(len);
        let behind = Cursor {
            place: self.place + len,
            bytes: rest,
        };
        Some((bytes, behind))
    }

    /// The cursor after the zeros up to the next multiple of an alignment.
    #[inline(always)]
    pub(crate) fn align(self, alignment: usize) -> Option<Cursor<'a>>
        requires { IsAlignment alignment }
        ensures { option_map place_seen result ≡ aligned alignment (place_seen self.entry) }
    {
        let (zeros, behind) = self.take(padding(alignment, self.place))?;
        if is_zero(zeros) { Some(behind) } else { None }
    }

    /// Takes a number of four bytes that is already aligned.
    #[inline(always)]
    pub(crate) fn number(self, order: Order) -> Option<(u32, Cursor<'a>)>
        ensures { option_map number_seen result ≡ a_width order w32 (place_seen self.entry) }
    {
        let (bytes, behind) = self.take(4)?;
        Some((order.read_u32(bytes), behind))
    }
}
