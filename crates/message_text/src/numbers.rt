//! Numbers by their bytes.
ghost use Rattle.std.specs.Prelude.{◌≡◌, ◌⊎◌, ◌≤◌};
ghost use Rattle.dbus_values.specs.Alignments.{IsAlignment};
ghost use Rattle.dbus_values.specs.Walk.{alignment_by};
ghost use Rattle.message_text.specs.Printing.{number_in, width_of};

use dbus_values::Order;

/// The number that 1, 2, 4 or 8 bytes are.
pub(crate) fn number(order: Order, bytes: &[u8]) -> u64
    ensures { result ≡ number_in order bytes.now }
{
    match bytes {
        [byte] => u64::from(*byte),
        [_, _] => u64::from(order.read_u16(bytes)),
        [_, _, _, _] => u64::from(order.read_u32(bytes)),
        [_, _, _, _, _, _, _, _] => order.read_u64(bytes),
        _ => 0,
    }
}

/// How many bytes a number has, by its type's code (D-Bus Specification, "Type System", "Summary of types").
#[inline]
pub(crate) fn width(code: u8) -> usize
    ensures value { result ≡ width_of code }
    ensures power { IsAlignment result }
    ensures most { result ≤ 8 }
{
    match code {
        b'y' => 1,
        b'n' | b'q' => 2,
        b'x' | b't' | b'd' => 8,
        _ => 4,
    }
}

/// The alignment of a type, by its code (D-Bus Specification, "Type System", "Summary of types").
#[inline]
pub(crate) fn alignment(code: u8) -> usize
    ensures value { result ≡ alignment_by code }
    ensures power { IsAlignment result }
{
    match code {
        b'n' | b'q' => 2,
        b'b' | b'i' | b'u' | b'h' | b's' | b'o' | b'a' => 4,
        b'x' | b't' | b'd' | b'(' | b'{' => 8,
        _ => 1,
    }
}
