//! Messages with a list of names.
ghost use Rattle.std.specs.Prelude.{◌≡◌, ◌≤◌, ◌<◌, ◌++◌, ◌+◌, ◌^◌, IsSome, List, OnErr, OnOk, Some, codes, length, take};
ghost use Rattle.dbus_header.specs.Contents.{message_of};
ghost use Rattle.dbus_header.specs.Message.{Message as MessageTree, spell, with_reply_serial};
ghost use Rattle.dbus_header.specs.Read.{message_seen};
ghost use Rattle.name_filters.specs.Names.{cut_parts, with_numbers};
ghost use Rattle.policy_args.specs.Levels.{level_of};
ghost use Rattle.policy_args.specs.declared.fact.Fact.{Fact};
ghost use Rattle.policy_view.specs.Shown.{cut as cut_by};
ghost use Rattle.unique_names.specs.Taught.{Taught, kept_level};

use crate::names::{put_names, write_number};
use bytes::BytesMut;
use dbus_header::{Message, is_spelled};
use dbus_values::{Order, text_list};
use policy_args::Policy;
use std::alloc::AllocError;
use unique_names::Tracker;

/// The place of the body's length in a message (D-Bus Specification, "Message Format").
const BODY_LEN_PLACE: usize = 4;

/// Room for the length of an array.
const NO_LEN: [u8; 4] = [0; 4];

/// Appends the message with its list cut to the names that may be seen, and with another REPLY_SERIAL. Its body must be
/// an array of strings, as in the bus's answers to ListNames and ListActivatableNames (D-Bus Specification,
/// "org.freedesktop.DBus.ListNames").
pub fn cut(
    into: &mut BytesMut,
    policy: &Policy,
    tracker: &Tracker,
    message: &Message<'_>,
    reply_serial: u32,
) -> Result<(), AllocError>
    requires list { message.now.signature.bytes.now ≡ codes "as" }
    requires reply { IsSome (message_seen message.now).parts.reply_serial }

    // The message is appended as it is defined to be seen, given what the tracker keeps.
    ensures ok { OnOk result ((m : MessageTree) → message_of message.now.bytes.now ≡ Some m → into.new.items ≡ into.old.items ++ spell (with_reply_serial reply_serial (cut_by (kept_level policy.now tracker.now) m))) }

    // So it is seen with all facts that the tracker has learned.
    ensures exact { OnOk result ((facts : List Fact) (m : MessageTree) → Taught tracker.now policy.now facts → message_of message.now.bytes.now ≡ Some m → into.new.items ≡ into.old.items ++ spell (with_reply_serial reply_serial (cut_by (level_of policy.now facts) m))) }
    ensures len { OnOk result (length into.new.items ≤ length into.old.items + length message.now.bytes.now) }

    // Memory is asked for once. It isn't refused if as many bytes are spare as the message has.
    ensures err { OnErr result (into.new.items ≡ into.old.items) }
    ensures room { OnErr result (into.old.spare < length message.now.bytes.now) }
{
    is_spelled(message.bytes);
    into.reserve(message.bytes.len())?;
    let start = into.len();
    let body = message.bytes.len() - message.body.len();
    put_parts(into, policy, tracker, message, body);
    write_numbers(
        into,
        message.order,
        start,
        body,
        place_of(message),
        reply_serial,
    );
    Ok(())
}

/// Appends the message with 0 as the length of its list and with the names that are kept. Its body begins at a place of
/// the message.
fn put_parts(
    into: &mut BytesMut,
    policy: &Policy,
    tracker: &Tracker,
    message: &Message<'_>,
    body: usize,
)
    requires list { message.now.signature.bytes.now ≡ codes "as" }
    requires body { body + length message.now.body.now ≡ length message.now.bytes.now }
    requires room { length message.now.bytes.now ≤ into.old.spare }
    ensures parts { (m : MessageTree) → message_of message.now.bytes.now ≡ Some m → into.new.items ≡ into.old.items ++ cut_parts policy.now tracker.now m (take body message.now.bytes.now) }
    ensures low { length into.old.items + body + 4 ≤ length into.new.items }
    ensures high { length into.new.items ≤ length into.old.items + length message.now.bytes.now }
{
    is_spelled(message.bytes);
    let start = into.len();
    let names = text_list(message.order, message.body);
    into.extend_reserved(&message.bytes[..body]);
    into.extend_reserved(&NO_LEN);
    put_names(into, policy, tracker, message.order, start, names);
}

/// The place of REPLY_SERIAL's number in a message that has one.
fn place_of(message: &Message<'_>) -> usize
    requires { IsSome (message_seen message.now).parts.reply_serial }
    ensures { (message_seen message.now).reply_place ≡ Some result }
{
    match message.reply_serial_place() {
        Some(place) => place,
        None => unreachable!(),
    }
}

/// Writes the lengths of a message's body and of the array that is the body, and its reply serial at its place. The
/// message is at the end of the bytes, and its body begins at a place of the message.
fn write_numbers(
    into: &mut BytesMut,
    order: Order,
    start: usize,
    body: usize,
    place: usize,
    reply_serial: u32,
)
    requires head { 16 ≤ body }
    requires place { place + 4 ≤ body }
    requires low { start + body + 4 ≤ length into.old.items }
    requires high { length into.old.items < start + 2 ^ 32 }
    ensures bytes { into.new.items ≡ with_numbers order start body place reply_serial into.old.items }
    ensures len { length into.new.items ≡ length into.old.items }
{
    let len = (into.len() - (start + body)) as u32;
    write_number(into, order, start + BODY_LEN_PLACE, len);
    write_number(into, order, start + body, len - 4);
    write_number(into, order, start + place, reply_serial);
}
