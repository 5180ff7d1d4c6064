//! A place in a message, from which bytes are taken.
ghost use Rattle.std.specs.Prelude.{◌≡◌, ◌≤◌, ◌<◌, ◌+◌, ◌^◌, Some, None, IfSome, option_map, length};

use crate::Order;

/// Bytes of a message, and the place of the first of them. Values are aligned by that place.
#[derive(Clone, Copy)]
pub(crate) struct Cursor<'a> {
    pub(crate) place: usize,
    pub(crate) bytes: &'a [u8],
    ghost fits: { place + length bytes.now < 2 ^ 63 },
}
