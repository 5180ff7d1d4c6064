//! A place in a message, after which bytes follow.
ghost use Rattle.std.specs.Prelude.{◌≡◌, ◌⊎◌, ◌<◌, ◌+◌, ◌^◌, length};
ghost use Rattle.dbus_values.specs.Walk.{front_code};

use crate::numbers::number;
use dbus_values::{Order, padding};

/// Bytes of a message, and the place of the first of them, by which values are aligned. Its methods give as many bytes
/// as there are: of a valid message no byte is absent.
#[derive(Clone, Copy)]
pub(crate) struct Cursor<'a> {
    pub(crate) place: usize,
    pub(crate) bytes: &'a [u8],
    ghost fits: { place + length bytes.now < 2 ^ 63 },
}

impl<'a> Cursor<'a> {
    ghost use Rattle.message_text.specs.Printing.{taken, onward, over_gap, number_in};
    ghost use Rattle.message_text.specs.Seen.{place_seen};
    ghost use Rattle.dbus_values.specs.Alignments.{IsAlignment};

    /// The next bytes.
    #[inline]
    pub(crate) fn taken(self, len: usize) -> &'a [u8]
        ensures { result.now ≡ taken len (place_seen self.entry) }
    {
        let (bytes, _) = self.bytes.split_at(len.min(self.bytes.len()));
        bytes
    }

    /// The cursor after this many bytes.
    #[inline]
    pub(crate) fn onward(self, len: usize) -> Cursor<'a>
        ensures { place_seen result ≡ onward len (place_seen self.entry) }
    {
        let len = len.min(self.bytes.len());
        let (_, bytes) = self.bytes.split_at(len);
        Cursor {
            place: self.place + len,
            bytes,
        }
    }

    /// The cursor at the next multiple of an alignment.
    #[inline]
    pub(crate) fn over_gap(self, alignment: usize) -> Cursor<'a>
        requires { IsAlignment alignment }
        ensures { place_seen result ≡ over_gap alignment (place_seen self.entry) }
    {
        self.onward(padding(alignment, self.place))
    }

    /// The next byte, or 0 at the end.
    #[inline]
    pub(crate) fn front(self) -> u8
        ensures { result ≡ front_code self.entry.bytes.now }
    {
        match self.bytes {
            [byte, ..] => *byte,
            [] => 0,
        }
    }

    /// The number in the next bytes.
    #[inline]
    pub(crate) fn number(self, order: Order, width: usize) -> u64
        ensures { result ≡ number_in order (taken width (place_seen self.entry)) }
    {
        number(order, self.taken(width))
    }
}
