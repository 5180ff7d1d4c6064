//! Messages that are appended to the bytes that wait for a side.
ghost use Rattle.std.specs.Prelude.{◌≡◌, ◌≤◌, ◌<◌, ◌+◌, ◌++◌, IfOk, IsSome, OnOk, OnErr, codes, length, take, drop};
ghost use Rattle.std.specs.Int.{w32};
ghost use Rattle.dbus_values.specs.Values.{number_bytes};
ghost use Rattle.dbus_header.specs.Contents.{message_in};
ghost use Rattle.dbus_header.specs.Message.{spell, with_reply_serial, with_serial as serial_changed};
ghost use Rattle.dbus_header.specs.Read.{message_seen};
ghost use Rattle.policy_view.specs.Shown.{cut as cut_by};
ghost use Rattle.proxy_core.specs.Incoming.{incoming_message};
ghost use Rattle.unique_names.specs.Taught.{kept_level};

use crate::incoming::Incoming;
use bytes::BytesMut;
use dbus_header::{Message, SERIAL_PLACE, is_spelled, set_serial};
use name_filters::cut;
use out_queue::OutQueue;
use policy_args::Policy;
use std::alloc::{AllocError, Global};
use unique_names::Tracker;

/// A copy of a message, with another serial.
pub(crate) fn with_serial(
    alloc: Global,
    message: &Message<'_>,
    serial: u32,
) -> Result<BytesMut, AllocError>
    requires { 0 < serial }
    ensures { IfOk result (λ bytes. bytes.items ≡ spell (serial_changed serial (message_in message.now.bytes.now))) }
{
    is_spelled(message.bytes);
    let mut bytes = BytesMut::copy_from_slice(alloc, message.bytes)?;
    set_serial(bytes.as_mut_slice(), serial);
    Ok(bytes)
}

/// Appends a message with the four-byte number at a place replaced.
fn push_with(
    queue: &mut OutQueue,
    incoming: &Incoming<'_, '_>,
    place: usize,
    number: u32,
) -> Result<(), AllocError>
    requires { place + 4 ≤ length incoming.now.message.now.bytes.now }
    ensures ok { OnOk result (queue.new ≡ queue.old ++ (take place incoming.now.message.now.bytes.now ++ number_bytes incoming.now.message.now.order w32 number ++ drop (place + 4) incoming.now.message.now.bytes.now)) }
    ensures err { OnErr result (queue.new ≡ queue.old) }
{
    let cells = incoming.message.order.bytes_of_u32(number);
    match incoming.shared {
        Some(bytes) => queue.push_shared(bytes, place, cells),
        None => queue.push_with(incoming.message.bytes, place, cells),
    }
}

/// Appends a message with another serial.
pub(crate) fn push_message(
    queue: &mut OutQueue,
    incoming: &Incoming<'_, '_>,
    serial: u32,
) -> Result<(), AllocError>
    ensures ok { OnOk result (queue.new ≡ queue.old ++ spell (serial_changed serial (incoming_message incoming.now))) }
    ensures err { OnErr result (queue.new ≡ queue.old) }
{
    is_spelled(incoming.message.bytes);
    push_with(queue, incoming, SERIAL_PLACE, serial)
}

/// Appends an answer with another REPLY_SERIAL.
pub(crate) fn push_reply(
    queue: &mut OutQueue,
    incoming: &Incoming<'_, '_>,
    serial: u32,
) -> Result<(), AllocError>
    requires { IsSome (message_seen incoming.now.message.now).parts.reply_serial }
    ensures ok { OnOk result (queue.new ≡ queue.old ++ spell (with_reply_serial serial (incoming_message incoming.now))) }
    ensures err { OnErr result (queue.new ≡ queue.old) }
{
    is_spelled(incoming.message.bytes);
    match incoming.message.reply_serial_place() {
        Some(place) => push_with(queue, incoming, place, serial),
        None => unreachable!(),
    }
}

/// Appends the bytes of a message.
fn push_bytes(queue: &mut OutQueue, incoming: &Incoming<'_, '_>) -> Result<(), AllocError>
    ensures ok { OnOk result (queue.new ≡ queue.old ++ incoming.now.message.now.bytes.now) }
    ensures err { OnErr result (queue.new ≡ queue.old) }
{
    match incoming.shared {
        Some(bytes) => queue.push(bytes.clone()?),
        None => queue.push_slice(incoming.message.bytes),
    }
}

/// Appends a message unchanged.
pub(crate) fn push_whole(
    queue: &mut OutQueue,
    incoming: &Incoming<'_, '_>,
) -> Result<(), AllocError>
    ensures ok { OnOk result (queue.new ≡ queue.old ++ spell (incoming_message incoming.now)) }
    ensures err { OnErr result (queue.new ≡ queue.old) }
{
    is_spelled(incoming.message.bytes);
    push_bytes(queue, incoming)
}

/// Appends a message with its list of names cut to those that may be seen, and with another REPLY_SERIAL.
pub(crate) fn push_cut(
    alloc: Global,
    queue: &mut OutQueue,
    policy: &Policy,
    tracker: &Tracker,
    message: &Message<'_>,
    serial: u32,
) -> Result<(), AllocError>
    requires list { message.now.signature.bytes.now ≡ codes "as" }
    requires reply { IsSome (message_seen message.now).parts.reply_serial }
    ensures ok { OnOk result (queue.new ≡ queue.old ++ spell (with_reply_serial serial (cut_by (kept_level policy.now tracker.now) (message_in message.now.bytes.now)))) }
    ensures err { OnErr result (queue.new ≡ queue.old) }
{
    let mut shown = BytesMut::new(alloc);
    cut(&mut shown, policy, tracker, message, serial)?;
    queue.push(shown.freeze()?)
}
