//! Lists of names, cut to those that are seen.
use crate::policies::policy_of;
use crate::whole::is_whole;
use bytes::BytesMut;
use dbus_header::{Message, Places, decode};
use dbus_values::Order;
use name_filters::cut;
use policy_args::Policy;
use std::alloc::{AllocError, Global};
use std::test::Fail;
use unique_names::Tracker;

/// A return of ListNames up to its body: serial 30, REPLY_SERIAL, DESTINATION, SENDER and SIGNATURE.
fn front(
    alloc: Global,
    order: Order,
    reply_serial: u8,
    body_len: u8,
) -> Result<Vec<u8>, AllocError> {
    let (before_len, before_serial, after_serial) = match order {
        Order::Little => LITTLE_FRONT,
        Order::Big => BIG_FRONT,
    };
    let mut bytes = Vec::from_slice(alloc, before_len)?;
    bytes.push(body_len)?;
    bytes.extend_from_slice(before_serial)?;
    bytes.push(reply_serial)?;
    bytes.extend_from_slice(after_serial)?;
    bytes.extend_from_slice(b"org.freedesktop.DBus\0\0\0\0\x08\x01g\0\x02as\0")?;
    Ok(bytes)
}

/// The bytes of a return before the length of its body, between that and REPLY_SERIAL's value, and after it up to
/// SENDER's value.
type Front = (&'static [u8], &'static [u8], &'static [u8]);

const LITTLE_FRONT: Front = (
    b"l\x02\x01\x01",
    b"\0\0\0\x1e\0\0\0\x40\0\0\0\x05\x01u\0",
    b"\0\0\0\x06\x01s\0\x05\0\0\0:1.40\0\0\0\x07\x01s\0\x14\0\0\0",
);

const BIG_FRONT: Front = (
    b"B\x02\x01\x01\0\0\0",
    b"\0\0\0\x1e\0\0\0\x40\x05\x01u\0\0\0\0",
    b"\x06\x01s\0\0\0\0\x05:1.40\0\0\0\x07\x01s\0\0\0\0\x14",
);

/// The message with this body.
pub(crate) fn message(
    alloc: Global,
    order: Order,
    reply_serial: u8,
    body: &[u8],
) -> Result<Vec<u8>, AllocError> {
    let mut bytes = front(alloc, order, reply_serial, body.len().min(255) as u8)?;
    bytes.extend_from_slice(body)?;
    Ok(bytes)
}

/// `abc`, followed by the cut message, if its body is a list.
fn cut_behind_abc(
    alloc: Global,
    policy: &Policy,
    tracker: &Tracker,
    message: &[u8],
) -> Result<BytesMut, AllocError> {
    let mut into = BytesMut::new(alloc);
    into.extend_from_slice(b"abc")?;
    if !is_whole(message) {
        return Ok(into);
    }
    let mut places = Places::none();
    let Ok(message) = decode(message, &mut places) else {
        return Ok(into);
    };
    add_cut(&mut into, policy, tracker, &message)?;
    Ok(into)
}

/// Appends the cut message, if its body is a list.
fn add_cut(
    into: &mut BytesMut,
    policy: &Policy,
    tracker: &Tracker,
    message: &Message<'_>,
) -> Result<(), AllocError> {
    if message.signature.as_bytes() == b"as".as_slice() && message.reply_serial().is_some() {
        cut(into, policy, tracker, message, 7)?;
    }
    Ok(())
}

/// Bodies in little-endian order, each with the one to which it is cut.
const LITTLE: [(&[u8], &[u8]); 7] = [
    // No names.
    (b"\0\0\0\0", b"\0\0\0\0"),
    // Only a hidden name.
    (b"\x0c\0\0\0\x07\0\0\0org.h.X\0", b"\0\0\0\0"),
    // Hidden first.
    (
        b"\x18\0\0\0\x07\0\0\0org.h.X\0\x07\0\0\0org.a.A\0",
        b"\x0c\0\0\0\x07\0\0\0org.a.A\0",
    ),
    // Hidden between others, with padding before what moves.
    (
        b"\x28\0\0\0\x08\0\0\0org.a.BB\0\0\0\0\x07\0\0\0org.h.X\0\x07\0\0\0org.a.A\0",
        b"\x1c\0\0\0\x08\0\0\0org.a.BB\0\0\0\0\x07\0\0\0org.a.A\0",
    ),
    // Hidden last, after an empty text.
    (
        b"\x3d\0\0\0\x07\0\0\0org.a.A\0\x08\0\0\0org.hh.X\0\0\0\0\x08\0\0\0org.a.BB\0\0\0\0\0\0\0\0\0\0\0\0\x04\0\0\0:1.6\0",
        b"\x19\0\0\0\x07\0\0\0org.a.A\0\x08\0\0\0org.a.BB\0",
    ),
    // Texts that aren't names, and a unique name that the client met.
    (
        b"\x26\0\0\0\0\0\0\0\0\0\0\0\x03\0\0\0a b\0\x04\0\0\0:1.5\0\0\0\0\x05\0\0\0org.a\0",
        b"\x16\0\0\0\x04\0\0\0:1.5\0\0\0\0\x05\0\0\0org.a\0",
    ),
    // The bus's own name.
    (
        b"\x44\0\0\0\x14\0\0\0org.freedesktop.DBus\0\0\0\0\x07\0\0\0org.a.A\0\x08\0\0\0org.h.N0\0\0\0\0\x07\0\0\0org.a.B\0",
        b"\x34\0\0\0\x14\0\0\0org.freedesktop.DBus\0\0\0\0\x07\0\0\0org.a.A\0\x07\0\0\0org.a.B\0",
    ),
];

const BIG: [(&[u8], &[u8]); 5] = [
    (b"\0\0\0\0", b"\0\0\0\0"),
    (
        b"\0\0\0\x18\0\0\0\x07org.h.X\0\0\0\0\x07org.a.A\0",
        b"\0\0\0\x0c\0\0\0\x07org.a.A\0",
    ),
    (
        b"\0\0\0\x28\0\0\0\x08org.a.BB\0\0\0\0\0\0\0\x07org.h.X\0\0\0\0\x07org.a.A\0",
        b"\0\0\0\x1c\0\0\0\x08org.a.BB\0\0\0\0\0\0\0\x07org.a.A\0",
    ),
    (
        b"\0\0\0\x3d\0\0\0\x07org.a.A\0\0\0\0\x08org.hh.X\0\0\0\0\0\0\0\x08org.a.BB\0\0\0\0\0\0\0\0\0\0\0\0\0\0\0\x04:1.6\0",
        b"\0\0\0\x19\0\0\0\x07org.a.A\0\0\0\0\x08org.a.BB\0",
    ),
    (
        b"\0\0\0\x26\0\0\0\0\0\0\0\0\0\0\0\x03a b\0\0\0\0\x04:1.5\0\0\0\0\0\0\0\x05org.a\0",
        b"\0\0\0\x16\0\0\0\x04:1.5\0\0\0\0\0\0\0\x05org.a\0",
    ),
];

/// Whether a list is cut to another one.
fn is_cut_to(
    alloc: Global,
    policy: &Policy,
    tracker: &Tracker,
    given: &[u8],
    left: &[u8],
) -> Result<bool, AllocError> {
    let found = cut_behind_abc(alloc, policy, tracker, given)?;
    let [b'a', b'b', b'c', message @ ..] = found.as_slice() else {
        return Ok(false);
    };
    Ok(message == left)
}

/// A tracker for which the client met `:1.5`.
fn met(alloc: Global, policy: &Policy) -> Result<Tracker, AllocError> {
    let mut tracker = Tracker::new(alloc);
    tracker.learn_met(policy, ":1.5")?;
    Ok(tracker)
}

/// Whether each list of an order is cut to the one beside it.
fn are_cut(
    alloc: Global,
    policy: &Policy,
    order: Order,
    lists: &[(&[u8], &[u8])],
) -> Result<bool, AllocError> {
    let tracker = met(alloc, policy)?;
    for (given, left) in lists {
        let given = message(alloc, order, 1, given)?;
        let left = message(alloc, order, 7, left)?;
        if !is_cut_to(alloc, policy, &tracker, &given, &left)? {
            return Ok(false);
        }
    }
    Ok(true)
}

#[test]
fn lists_are_cut(rt: HostRuntime) -> Result<(), Fail> {
    let policy = policy_of(rt.alloc(), "--filter\0--see=org.a.*\0")?;
    assert!(rt; are_cut(rt.alloc(), &policy, Order::Little, &LITTLE)?);
    assert!(rt; are_cut(rt.alloc(), &policy, Order::Big, &BIG)?);
    Ok(())
}
