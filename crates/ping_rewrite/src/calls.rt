//! The proxy's calls to the bus.
ghost use Rattle.std.specs.Prelude.{◌≡◌, ◌≤◌, ◌<◌, ◌++◌, ◌+◌, ◌^◌, ℕ, IsTrue, OnErr, OnOk, length};
ghost use Rattle.bytes.specs.Filled.{UsesSpare};
ghost use Rattle.dbus_header.specs.Message.{spell, with_serial};
ghost use Rattle.dbus_names.specs.Names.{is_well_known};
ghost use Rattle.ping_rewrite.specs.Fronts.{front_with, rule_before};
ghost use Rattle.policy_view.specs.Own.{ping as ping_call, list_names as names_call, add_match as match_call, get_owner as owner_call};

use bytes::BytesMut;
use dbus_header::{SERIAL_PLACE, write_u32};
use dbus_values::Order;
use name_patterns::Pattern;
use std::alloc::AllocError;

/// The length of a call with a text, up to the text.
const FRONT_LEN: usize = 148;

/// The place of the body's length in these bytes.
const BODY_LEN_PLACE: usize = 4;

/// The place of the text's length, with which the body begins.
const TEXT_LEN_PLACE: usize = 144;

/// The length of a body of one text, without the text: the text's length, and the NUL after it.
const BESIDE_TEXT: u32 = 5;

/// A call of Ping with serial 0.
const PING: [u8; 120] = *b"\
    l\x01\0\x01\0\0\0\0\0\0\0\0\x65\0\0\0\
    \x01\x01o\0\x01\0\0\0/\0\0\0\0\0\0\0\
    \x02\x01s\0\x19\0\0\0org.freedesktop.DBus.Peer\0\0\0\0\0\0\0\
    \x03\x01s\0\x04\0\0\0Ping\0\0\0\0\
    \x06\x01s\0\x14\0\0\0org.freedesktop.DBus\0\0\0\0";

/// A call of ListNames with serial 0.
const LIST_NAMES: [u8; 136] = *b"\
    l\x01\0\x01\0\0\0\0\0\0\0\0\x75\0\0\0\
    \x01\x01o\0\x15\0\0\0/org/freedesktop/DBus\0\0\0\
    \x02\x01s\0\x14\0\0\0org.freedesktop.DBus\0\0\0\0\
    \x03\x01s\0\x09\0\0\0ListNames\0\0\0\0\0\0\0\
    \x06\x01s\0\x14\0\0\0org.freedesktop.DBus\0\0\0\0";

/// A call of AddMatch up to its text, with 0 as the lengths of its body and its text and as its serial.
const ADD_MATCH: [u8; FRONT_LEN] = *b"\
    l\x01\0\x01\0\0\0\0\0\0\0\0\x7f\0\0\0\
    \x01\x01o\0\x15\0\0\0/org/freedesktop/DBus\0\0\0\
    \x02\x01s\0\x14\0\0\0org.freedesktop.DBus\0\0\0\0\
    \x03\x01s\0\x08\0\0\0AddMatch\0\0\0\0\0\0\0\0\
    \x06\x01s\0\x14\0\0\0org.freedesktop.DBus\0\0\0\0\
    \x08\x01g\0\x01s\0\0\
    \0\0\0\0";

/// A call of GetNameOwner up to its text, with 0 as the lengths of its body and its text and as its serial.
const GET_OWNER: [u8; FRONT_LEN] = *b"\
    l\x01\0\x01\0\0\0\0\0\0\0\0\x7f\0\0\0\
    \x01\x01o\0\x15\0\0\0/org/freedesktop/DBus\0\0\0\
    \x02\x01s\0\x14\0\0\0org.freedesktop.DBus\0\0\0\0\
    \x03\x01s\0\x0c\0\0\0GetNameOwner\0\0\0\0\
    \x06\x01s\0\x14\0\0\0org.freedesktop.DBus\0\0\0\0\
    \x08\x01g\0\x01s\0\0\
    \0\0\0\0";

/// What follows a text in a body.
const TEXT_END: &str = "\0";

/// What follows the name in a match rule, and then the rule.
const RULE_END: &str = "'\0";

/// A call of org.freedesktop.DBus.Peer.Ping (D-Bus Specification, "org.freedesktop.DBus.Peer").
pub fn ping(serial: u32) -> [u8; 120]
    ensures { result ≡ spell (with_serial serial ping_call) }
{
    let mut bytes = PING;
    write_u32(Order::Little, &mut bytes, SERIAL_PLACE, serial);
    bytes
}

/// A call of ListNames (D-Bus Specification, "org.freedesktop.DBus.ListNames").
pub fn list_names(serial: u32) -> [u8; 136]
    ensures { result ≡ spell (with_serial serial names_call) }
{
    let mut bytes = LIST_NAMES;
    write_u32(Order::Little, &mut bytes, SERIAL_PLACE, serial);
    bytes
}

/// The length of the call that `add_match` appends: at most 268 bytes beside the name.
pub fn add_match_len(pattern: &Pattern) -> usize
    ensures len { (serial : ℕ) → result ≡ length (spell (with_serial serial (match_call pattern.now))) }
    ensures short { result ≤ 523 }
{
    FRONT_LEN + rule_front(pattern.is_exact()).len() + pattern.name().len() + RULE_END.len()
}

/// Appends a call of AddMatch that asks the bus for the signal NameOwnerChanged of the names that the pattern covers
/// (D-Bus Specification, "org.freedesktop.DBus.AddMatch" and "Match Rules").
///
/// If as many bytes are spare as the call has, memory isn't refused.
pub fn add_match(calls: &mut BytesMut, serial: u32, pattern: &Pattern) -> Result<(), AllocError>
    ensures ok { OnOk result (calls.new.items ≡ calls.old.items ++ spell (with_serial serial (match_call pattern.now))) }
    ensures err { OnErr result (calls.new.items ≡ calls.old.items) }
    ensures spare { UsesSpare result calls.old.spare calls.new.spare (length (spell (with_serial serial (match_call pattern.now)))) }
{
    let rule = rule_front(pattern.is_exact());
    let name = pattern.name();
    let front = call_front(&ADD_MATCH, serial, rule.len() + name.len() + 1);
    put(calls, &front, rule, name, RULE_END)
}

/// The length of the call that `get_owner` appends: 149 bytes beside the name.
pub fn get_owner_len(name: &str) -> usize
    ensures len { (serial : ℕ) → result ≡ length (spell (with_serial serial (owner_call name.now))) }
    ensures short { IsTrue (is_well_known name.now) → result ≤ 404 }
{
    FRONT_LEN + name.len() + TEXT_END.len()
}

/// Appends a call of GetNameOwner that asks the bus who owns a well-known name (D-Bus Specification,
/// "org.freedesktop.DBus.GetNameOwner").
///
/// If as many bytes are spare as the call has, memory isn't refused.
pub fn get_owner(calls: &mut BytesMut, serial: u32, name: &str) -> Result<(), AllocError>
    requires { IsTrue (is_well_known name.now) }
    ensures ok { OnOk result (calls.new.items ≡ calls.old.items ++ spell (with_serial serial (owner_call name.now))) }
    ensures err { OnErr result (calls.new.items ≡ calls.old.items) }
    ensures spare { UsesSpare result calls.old.spare calls.new.spare (length (spell (with_serial serial (owner_call name.now)))) }
{
    let front = call_front(&GET_OWNER, serial, name.len());
    put(calls, &front, "", name, TEXT_END)
}

/// Appends the parts of a call. Memory is asked for once.
fn put(
    calls: &mut BytesMut,
    front: &[u8],
    rule: &str,
    name: &str,
    end: &str,
) -> Result<(), AllocError>
    requires { length front.now + length rule.now + length name.now + length end.now < 2 ^ 64 }
    ensures ok { OnOk result (calls.new.items ≡ calls.old.items ++ (front.now ++ (rule.now ++ (name.now ++ end.now)))) }
    ensures err { OnErr result (calls.new.items ≡ calls.old.items) }
    ensures spare { UsesSpare result calls.old.spare calls.new.spare (length front.now + length rule.now + length name.now + length end.now) }
{
    calls.reserve(front.len() + rule.len() + name.len() + end.len())?;
    calls.extend_reserved(front);
    calls.extend_reserved(rule.as_bytes());
    calls.extend_reserved(name.as_bytes());
    calls.extend_reserved(end.as_bytes());
    Ok(())
}

/// The bytes of a call up to its text.
fn call_front(template: &[u8; FRONT_LEN], serial: u32, text_len: usize) -> [u8; FRONT_LEN]
    requires { text_len + BESIDE_TEXT < 2 ^ 32 }
    ensures { result ≡ front_with serial text_len template.now }
{
    let text_len = text_len as u32;
    let body_len = text_len + BESIDE_TEXT;
    let mut front = *template;
    write_u32(Order::Little, &mut front, BODY_LEN_PLACE, body_len);
    write_u32(Order::Little, &mut front, SERIAL_PLACE, serial);
    write_u32(Order::Little, &mut front, TEXT_LEN_PLACE, text_len);
    front
}

/// A match rule for NameOwnerChanged, up to the name.
fn rule_front(is_exact: bool) -> &'static str
    ensures { result.now ≡ rule_before is_exact }
{
    if is_exact {
        "type='signal',sender='org.freedesktop.DBus',interface='org.freedesktop.DBus',member='NameOwnerChanged',arg0='"
    } else {
        "type='signal',sender='org.freedesktop.DBus',interface='org.freedesktop.DBus',member='NameOwnerChanged',arg0namespace='"
    }
}
