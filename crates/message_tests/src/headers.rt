//! Bytes as messages, what is wrong with others, and the numbers that are changed in place.
ghost use Rattle.std.specs.Prelude.{◌≡◌, ◌≤◌, None, length};
ghost use Rattle.dbus_header.specs.Malformed.{head_fault, whole_len};

use crate::messages::{changed, deep_call, is_whole};
use dbus_header::{
    KnownTexts, Malformed, MalformedKind, Message, Places, SERIAL_PLACE, decode, decode_knowing,
    length, set_reply_serial, set_serial, write_u32,
};
use dbus_values::Order;
use std::alloc::{AllocError, Global};
use std::str;
use std::test::Fail;
use test_tables::{plain, wrong_row};

/// The first sixteen bytes of messages, and the length of the whole message, or what is wrong with them and its place.
const HEADS: &str = "\
l%01~%01~~~~%07~~~@~~~ => 80
B%01~%01~~~%03%01%02%03%04~~~, => 67
l%09~%01~~~~%07~~~~~~~ => 16
b~~~~~~~~~~~~~~~ => ByteOrder 0
l~~~~~~~~~~~~~~~ => MessageType 1
B~~~~~~~~~~~~~~~ => MessageType 1
l%01~%02~~~~~~~~%01~~%04 => Version 3
l%01~%01~~~~~~~~%01~~%04 => Length 12
B%01~%01~~~~~~~~%04~~%01 => Length 12
l%01~%01%F1%FF%FF%07~~~~~~~~ => Length 4
B%01~%01%FF%FF%FF%FF~~~~~~~~ => Length 4
l%01~%01%F0%FF%FF%07~~~~~~~~ => Serial 8
B%01~%01~~~~~~~~~~~~ => Serial 8
";

/// Messages that are changed, and whether they are valid, or what is wrong with them and its place.
const CHANGES: &str = "\
call 16=0 => Fields 16
call 18=s => Fields 16
call 24=p => Fields 16
call 27=1 => Fields 27
call 64=2 => Fields 58
call 71=1 => Fields 58
call 1=2 => Required 12
call 48=10 => Required 12
big_call 32=1 => Fields 26
big_call 60=1 => Fields 60
big_call 32=10 => Required 12
big_call 1=4 => Required 12
boolean 20=0 => Fields 16
boolean 31=1 => Fields 31
boolean 32=2 => Body 32
boolean 24=10 => Body 32
boolean 29=y => Body 33
call 1=9 => valid
big_boolean 35=2 => Body 32
descriptors => valid
descriptors 28=1 => Descriptors 12
big_descriptors => valid
big_descriptors 31=1 => Descriptors 12
empty_array => valid
empty_array 4=4 cut=68 => Body 64
";

/// Messages, and the order, the type, the serial, the path, the interface, the member, the destination, the sender, the
/// reply serial and its place, with `-` or 0 for none, the signature and the length of the body.
const MESSAGES: &str = "\
call => Little 1 7 /p org.a.I A org.a.T - 0 0  0
return => Little 2 60 - - - :1.40 :1.7 2 20  0
big_call => Big 1 16909060 / - M a.b - 0 0  0
boolean => Little 2 9 - - - - - 2 20 b 4
big_boolean => Big 2 9 - - - - - 2 20 b 4
";

/// A message that a stream has repeated, and one that follows it, and what the latter is read as.
const FOLLOWING: &str = "\
return; return => Little 2 60 - - - :1.40 :1.7 2 20  0
return; return 8=61 20=7 => Little 2 61 - - - :1.40 :1.7 7 20  0
return; return 23=1 => Little 2 60 - - - :1.40 :1.7 16777218 20  0
return; return 20=0 => Fields 16
return; return 19=1 => Fields 16
return; return 24=7 => Fields 38
return; return 54=1 => Fields 53
return; return 1=3 => Required 12
return, boolean; return 20=9 => Little 2 60 - - - :1.40 :1.7 9 20  0
return, boolean; boolean 20=9 => Little 2 9 - - - - - 9 20 b 4
return, boolean; boolean 20=0 => Fields 16
boolean; boolean 32=0 => Little 2 9 - - - - - 2 20 b 4
boolean; boolean 29=y => Body 33
boolean; boolean 29=u => Little 2 9 - - - - - 2 20 u 4
boolean, boolean 29=u; boolean => Little 2 9 - - - - - 2 20 b 4
boolean, boolean 29=u; boolean 32=7 => Body 32
boolean; big_boolean 23=5 => Big 2 9 - - - - - 5 20 b 4
big_boolean; big_boolean 20=1 => Big 2 9 - - - - - 16777218 20 b 4
big_boolean; big_boolean 23=0 => Fields 16
big_boolean; boolean => Little 2 9 - - - - - 2 20 b 4
call; call 8=9 25=q => Little 1 9 /q org.a.I A org.a.T - 0 0  0
call, call 25=q; call => Little 1 7 /p org.a.I A org.a.T - 0 0  0
call, return, boolean, big_call, big_boolean; call 64=2 => Fields 58
call, return, boolean, big_call, big_boolean; return 20=7 => Little 2 60 - - - :1.40 :1.7 7 20  0
call, return, boolean, big_call, big_boolean; big_call => Big 1 16909060 / - M a.b - 0 0  0
call, return, boolean, big_call, big_boolean, descriptors; call => Little 1 7 /p org.a.I A org.a.T - 0 0  0
descriptors; descriptors 28=1 => Descriptors 12
";

/// A serial and a message, a change, and whether the message with that serial is the message with that change.
const SERIALS: &str = "\
258 call, 8=2 9=1 10=0 11=0 => true
258 big_call, 8=0 9=0 10=1 11=2 => true
";

/// A reply serial and a message, a change, and whether the message with that reply serial is the message with that
/// change.
const REPLY_SERIALS: &str = "\
7 return, 20=7 => true
258 big_boolean, 20=0 21=0 22=1 23=2 => true
";

fn told_length(alloc: Global, row: &str) -> Result<String, AllocError> {
    let bytes = plain(alloc, row)?;
    match bytes.first_chunk::<16>() {
        Some(first16) => told_length_of(alloc, first16),
        None => String::from_str(alloc, "cut"),
    }
}

fn told_length_of(alloc: Global, first16: &[u8; 16]) -> Result<String, AllocError> {
    match length(first16) {
        Ok(len) => format!(in alloc; "{len}"),
        Err(fault) => told_fault(alloc, fault),
    }
}

fn told_fault(alloc: Global, fault: Malformed) -> Result<String, AllocError> {
    format!(in alloc; "{:?} {}", fault.kind, fault.at)
}

fn told_validity(
    alloc: Global,
    read: Result<Message<'_>, Malformed>,
) -> Result<String, AllocError> {
    match read {
        Ok(_) => String::from_str(alloc, "valid"),
        Err(fault) => told_fault(alloc, fault),
    }
}

fn told_message(alloc: Global, read: Result<Message<'_>, Malformed>) -> Result<String, AllocError> {
    match read {
        Ok(message) => told_parts(alloc, &message),
        Err(fault) => told_fault(alloc, fault),
    }
}

/// The number of times that a message is read until its texts are known.
const TIMES: u32 = 70;

/// The known texts of a row's message without its changes.
fn known_before(alloc: Global, row: &str) -> Result<KnownTexts, AllocError> {
    let (name, _) = row.split_once(' ').unwrap_or((row, ""));
    let bytes = changed(alloc, name)?;
    let mut known = KnownTexts::new(alloc);
    if is_whole(&bytes) {
        for _ in 0..TIMES {
            let _is_valid = decode_knowing(&bytes, &mut known, &mut Places::none()).is_ok();
        }
    }
    Ok(known)
}

/// What a message is read as, if that is the same whether or not messages before it are known.
fn told_following(alloc: Global, row: &str) -> Result<String, AllocError> {
    let (before, name) = row.split_once("; ").unwrap_or(("", row));
    let mut known = KnownTexts::new(alloc);
    for _ in 0..TIMES {
        for earlier in before.split(", ") {
            let bytes = changed(alloc, earlier)?;
            if is_whole(&bytes) {
                let _is_valid = decode_knowing(&bytes, &mut known, &mut Places::none()).is_ok();
            }
        }
    }
    let bytes = changed(alloc, name)?;
    if !is_whole(&bytes) {
        return String::from_str(alloc, "cut");
    }
    told_twice(alloc, &bytes, &mut known)
}

/// What a message is read as alone, and also with others known if that differs.
fn told_twice(alloc: Global, bytes: &[u8], known: &mut KnownTexts) -> Result<String, AllocError>
    requires long { 16 ≤ length bytes.now }
    requires whole { head_fault bytes.now ≡ None → length bytes.now ≡ whole_len bytes.now }
{
    let (mut places, mut known_places) = (Places::none(), Places::none());
    let alone = told_message(alloc, decode(bytes, &mut places))?;
    let told = told_message(alloc, decode_knowing(bytes, known, &mut known_places))?;
    if alone.as_str() != told.as_str() {
        return format!(in alloc; "{alone} or {told}");
    }
    Ok(told)
}

fn told_validity_of(alloc: Global, row: &str) -> Result<String, AllocError> {
    let bytes = changed(alloc, row)?;
    if !is_whole(&bytes) {
        return String::from_str(alloc, "cut");
    }
    let mut places = Places::none();
    told_validity(alloc, decode(&bytes, &mut places))
}

fn told_validity_where_known(alloc: Global, row: &str) -> Result<String, AllocError> {
    let bytes = changed(alloc, row)?;
    let mut known = known_before(alloc, row)?;
    if !is_whole(&bytes) {
        return String::from_str(alloc, "cut");
    }
    let mut places = Places::none();
    told_validity(alloc, decode_knowing(&bytes, &mut known, &mut places))
}

fn told_message_of(alloc: Global, row: &str) -> Result<String, AllocError> {
    let bytes = changed(alloc, row)?;
    if !is_whole(&bytes) {
        return String::from_str(alloc, "cut");
    }
    let mut places = Places::none();
    told_message(alloc, decode(&bytes, &mut places))
}

fn told_message_where_known(alloc: Global, row: &str) -> Result<String, AllocError> {
    let bytes = changed(alloc, row)?;
    let mut known = known_before(alloc, row)?;
    if !is_whole(&bytes) {
        return String::from_str(alloc, "cut");
    }
    let mut places = Places::none();
    told_message(alloc, decode_knowing(&bytes, &mut known, &mut places))
}

fn told_parts(alloc: Global, message: &Message<'_>) -> Result<String, AllocError> {
    let mut told = format!(in alloc; "{:?} {} {}", message.order, message.kind, message.serial)?;
    for text in [
        message.path(),
        message.interface(),
        message.member(),
        message.destination(),
        message.sender(),
    ] {
        told.push(' ')?;
        told.push_str(text.unwrap_or("-"))?;
    }
    let reply = message.reply_serial().unwrap_or(0);
    let place = message.reply_serial_place().unwrap_or(0);
    let signature = str::from_utf8(message.signature.as_bytes()).unwrap_or("-");
    let numbers = format!(in alloc; " {reply} {place} {signature} {}", message.body.len())?;
    told.push_str(&numbers)?;
    Ok(told)
}

fn renumbered(bytes: &mut [u8], serial: u32) -> bool {
    if serial == 0 || !is_whole(bytes) {
        return false;
    }
    if decode(bytes, &mut Places::none()).is_err() {
        return false;
    }
    set_serial(bytes, serial);
    true
}

fn answering(bytes: &mut [u8], serial: u32) -> bool {
    if serial == 0 || !is_whole(bytes) {
        return false;
    }
    let mut places = Places::none();
    match decode(bytes, &mut places) {
        Ok(message) if message.reply_serial().is_some() => (),
        _ => return false,
    }
    set_reply_serial(bytes, serial);
    true
}

/// The serial and the message of a row, and the message with its change.
fn both(alloc: Global, row: &str) -> Result<(u32, Vec<u8>, Vec<u8>), AllocError> {
    let (front, change) = row.split_once(", ").unwrap_or((row, ""));
    let (serial, name) = front.split_once(' ').unwrap_or((front, ""));
    let row = format!(in alloc; "{name} {change}")?;
    let serial = serial.parse().unwrap_or(0);
    Ok((serial, changed(alloc, name)?, changed(alloc, &row)?))
}

fn told_serial(alloc: Global, row: &str) -> Result<String, AllocError> {
    let (serial, mut bytes, expected) = both(alloc, row)?;
    let same = renumbered(&mut bytes, serial) && bytes == expected;
    format!(in alloc; "{same}")
}

fn told_reply_serial(alloc: Global, row: &str) -> Result<String, AllocError> {
    let (serial, mut bytes, expected) = both(alloc, row)?;
    let same = answering(&mut bytes, serial) && bytes == expected;
    format!(in alloc; "{same}")
}

#[test]
fn the_first_sixteen_bytes_tell_the_length_or_a_fault(rt: HostRuntime) -> Result<(), Fail> {
    assert_eq!(rt; wrong_row(rt.alloc(), HEADS, &told_length)?, None);
    Ok(())
}

#[test]
fn a_changed_message_is_malformed(rt: HostRuntime) -> Result<(), Fail> {
    assert_eq!(rt; wrong_row(rt.alloc(), CHANGES, &told_validity_of)?, None);
    Ok(())
}

#[test]
fn a_message_is_read_in_place(rt: HostRuntime) -> Result<(), Fail> {
    assert_eq!(rt; wrong_row(rt.alloc(), MESSAGES, &told_message_of)?, None);
    Ok(())
}

#[test]
fn a_message_is_the_same_where_texts_are_known(rt: HostRuntime) -> Result<(), Fail> {
    assert_eq!(rt;
        wrong_row(rt.alloc(), CHANGES, &told_validity_where_known)?,
        None
    );
    assert_eq!(rt;
        wrong_row(rt.alloc(), MESSAGES, &told_message_where_known)?,
        None
    );
    Ok(())
}

#[test]
fn a_message_is_the_same_where_headers_are_known(rt: HostRuntime) -> Result<(), Fail> {
    assert_eq!(rt; wrong_row(rt.alloc(), FOLLOWING, &told_following)?, None);
    Ok(())
}

#[test]
fn a_header_that_is_too_long_to_be_kept_is_read(rt: HostRuntime) -> Result<(), Fail> {
    let bytes = deep_call(rt.alloc())?;
    let mut known = KnownTexts::new(rt.alloc());
    let mut read: u32 = 0;
    for _ in 0..TIMES {
        if is_whole(&bytes) {
            let told = told_twice(rt.alloc(), &bytes, &mut known)?;
            if told.as_str().starts_with("Little 1 7 /aaa") && told.len() > 600 {
                read = read.wrapping_add(1);
            }
        }
    }
    assert_eq!(rt; read, TIMES);
    Ok(())
}

#[test]
fn a_serial_alone_changes(rt: HostRuntime) -> Result<(), Fail> {
    assert_eq!(rt; wrong_row(rt.alloc(), SERIALS, &told_serial)?, None);
    assert_eq!(rt;
        wrong_row(rt.alloc(), REPLY_SERIALS, &told_reply_serial)?,
        None
    );
    Ok(())
}

#[test]
fn a_number_is_written_in_its_order(rt: HostRuntime) {
    for (order, expected) in [
        (Order::Little, [9, 2, 1, 0, 0, 9]),
        (Order::Big, [9, 0, 0, 1, 2, 9]),
    ] {
        let mut bytes = [9; 14];
        write_u32(order, &mut bytes, SERIAL_PLACE, 258);
        assert_eq!(rt; &bytes[7..13], expected.as_slice());
    }
}

#[test]
fn says_what_is_wrong(rt: HostRuntime) -> Result<(), Fail> {
    let kind = MalformedKind::Length;
    let told = format!(in rt.alloc(); "{}", Malformed { kind, at: 12 });
    let expected = "byte 12: the header fields or the message are too long";
    assert_eq!(rt; told?.as_str(), expected);
    Ok(())
}
