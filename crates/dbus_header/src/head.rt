//! The first sixteen bytes of a message.
ghost use Rattle.std.specs.Prelude.{◌≡◌, ◌≤◌, ◌<◌, ◌+◌, ◌^◌, IfOk, length, get_or};
ghost use Rattle.dbus_header.specs.Message.{body_place};
ghost use Rattle.dbus_header.specs.Malformed.{order_of as order_by, order_in as stated_order, head_fault, whole_len};
ghost use Rattle.dbus_header.specs.Refusals.{refusal};
ghost use Rattle.dbus_header.specs.HeaderReading.{number_at};

use crate::{Malformed, MalformedKind};
use dbus_values::{Order, padding};

/// The bytes of a message before its header fields.
pub(crate) const HEAD_LEN: usize = 16;

/// The maximum length of the header fields (D-Bus Specification, "Message Format": an array's limit).
const FIELDS_LIMIT: u32 = 67_108_864;

/// The maximum length of a message (D-Bus Specification, "Message Format").
const MESSAGE_LIMIT: u64 = 134_217_728;

/// Reads a number of four bytes.
pub(crate) fn read_u32(order: Order, bytes: &[u8], at: usize) -> u32
    requires { at + 4 ≤ length bytes.now }
    ensures { result ≡ number_at order bytes.now at }
{
    order.read_u32(&bytes[at..])
}

/// The byte order that the first byte states.
fn order_of(first: u8) -> Option<Order>
    ensures { result ≡ order_by first }
{
    match first {
        b'l' => Some(Order::Little),
        b'B' => Some(Order::Big),
        _ => None,
    }
}

/// The byte order of a message's numbers.
pub(crate) fn order_in(bytes: &[u8]) -> Order
    requires { 16 ≤ length bytes.now }
    ensures { result ≡ stated_order bytes.now }
{
    match order_of(bytes[0]) {
        Some(order) => order,
        None => Order::Little,
    }
}

/// Where the body begins after header fields of this length.
pub(crate) fn body_start(fields_len: u32) -> u64
    ensures { result ≡ body_place fields_len }
{
    let end = HEAD_LEN + fields_len as usize;
    (end + padding(8, end)) as u64
}

/// The length of the whole message, or what is wrong with its first sixteen bytes.
#[tactic(auto, unfolding(crate::specs::Malformed::head_fault))]
pub(crate) fn check_head(bytes: &[u8]) -> Result<u32, Malformed>
    requires { 16 ≤ length bytes.now }
    ensures refusal { refusal result ≡ head_fault bytes.now }
    ensures length { IfOk result (λ n. n ≡ whole_len bytes.now) }
{
    if order_of(bytes[0]).is_none() {
        return Err(Malformed {
            kind: MalformedKind::ByteOrder,
            at: 0,
        });
    }
    if bytes[1] == 0 {
        return Err(Malformed {
            kind: MalformedKind::MessageType,
            at: 1,
        });
    }
    if bytes[3] != 1 {
        return Err(Malformed {
            kind: MalformedKind::Version,
            at: 3,
        });
    }
    let order = order_in(bytes);
    let fields_len = read_u32(order, bytes, 12);
    if fields_len > FIELDS_LIMIT {
        return Err(Malformed {
            kind: MalformedKind::Length,
            at: 12,
        });
    }
    let len = body_start(fields_len) + read_u32(order, bytes, 4) as u64;
    if len > MESSAGE_LIMIT {
        return Err(Malformed {
            kind: MalformedKind::Length,
            at: 4,
        });
    }
    if read_u32(order, bytes, 8) == 0 {
        return Err(Malformed {
            kind: MalformedKind::Serial,
            at: 8,
        });
    }
    Ok(len as u32)
}

/// The length of the whole message, as its first sixteen bytes state it. Otherwise the first of ByteOrder, MessageType,
/// Version, Length and Serial that is wrong with them (D-Bus Specification, "Message Format").
pub fn length(first16: &[u8; 16]) -> Result<u32, Malformed>
    ensures refusal { refusal result ≡ head_fault first16.now }
    ensures length { IfOk result (λ n. n ≡ whole_len first16.now) }
{
    check_head(first16)
}
