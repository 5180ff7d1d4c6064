//! The proxy's own messages, byte for byte.
use crate::whole::is_message;
use bytes::BytesMut;
use dbus_header::Instead;
use dbus_names::is_well_known;
use dbus_values::Order;
use name_patterns::Pattern;
use ping_rewrite::{
    add_match, add_match_len, answer_in_place, get_owner, get_owner_len, list_names, ping,
};
use std::alloc::{AllocError, Global};
use std::test::Fail;

/// The bytes that a text spells: two hexadecimal digits for each byte, and ASCII in brackets.
fn bytes_of(alloc: Global, text: &str) -> Result<Vec<u8>, AllocError> {
    let mut bytes = Vec::new(alloc);
    let mut in_brackets = false;
    let mut high = None;
    for &byte in text.as_bytes() {
        match byte {
            b'[' => in_brackets = true,
            b']' => in_brackets = false,
            _ if in_brackets => bytes.push(byte)?,
            b' ' => {}
            _ => match high.take() {
                Some(high) => bytes.push(high << 4 | digit(byte))?,
                None => high = Some(digit(byte)),
            },
        }
    }
    Ok(bytes)
}

/// The value of a hexadecimal digit.
fn digit(byte: u8) -> u8 {
    match byte {
        b'0'..=b'9' => byte - b'0',
        b'a'..=b'f' => byte - b'a' + 10,
        _ => 0,
    }
}

/// A name of two elements with this length, from 2 on.
fn name_of(alloc: Global, len: usize) -> Result<String, AllocError> {
    let mut name = String::from_str(alloc, "a.")?;
    for _ in 2..len {
        name.push('b')?;
    }
    Ok(name)
}

/// Whether the bytes are a valid message that the text spells.
fn is_message_of(alloc: Global, bytes: &[u8], text: &str) -> Result<bool, AllocError> {
    let expected = bytes_of(alloc, text)?;
    Ok(bytes == expected.as_slice() && is_message(bytes))
}

#[test]
fn calls_without_a_text(rt: HostRuntime) -> Result<(), Fail> {
    let ping_text = "6c010001 00000000 02000000 65000000 \
         01016f00 01000000 2f00 000000000000 \
         02017300 19000000 6f72672e667265656465736b746f702e444275732e5065657200 000000000000 \
         03017300 04000000 50696e6700 000000 \
         06017300 14000000 6f72672e667265656465736b746f702e4442757300 000000";
    assert!(rt; is_message_of(rt.alloc(), &ping(2), ping_text)?);
    let list_names_text = "6c010001 00000000 04030201 75000000 \
         01016f00 15000000 [/org/freedesktop/DBus] 00 0000 \
         02017300 14000000 [org.freedesktop.DBus] 00 000000 \
         03017300 09000000 [ListNames] 00 000000000000 \
         06017300 14000000 [org.freedesktop.DBus] 00 000000";
    assert!(rt; is_message_of(rt.alloc(), &list_names(0x0102_0304), list_names_text)?);
    assert!(rt; is_message(&ping(1)) && is_message(&list_names(u32::MAX)));
    Ok(())
}

#[test]
fn calls_with_a_text(rt: HostRuntime) -> Result<(), Fail> {
    let exact = Pattern::read(rt.alloc(), "a.b")?;
    let subtree = Pattern::read(rt.alloc(), "a.b.*")?;
    let mut calls = BytesMut::new(rt.alloc());
    calls.extend_from_slice(b"before")?;
    calls.reserve(add_match_len(&exact) + add_match_len(&subtree) + get_owner_len("a.b"))?;
    add_match(&mut calls, 3, &exact)?;
    add_match(&mut calls, 0x0102_0304, &subtree)?;
    assert!(rt; is_well_known(b"a.b"));
    get_owner(&mut calls, u32::MAX, "a.b")?;
    let expected = bytes_of(
        rt.alloc(),
        "[before] \
         6c010001 76000000 03000000 7f000000 \
         01016f00 15000000 [/org/freedesktop/DBus] 00 0000 \
         02017300 14000000 [org.freedesktop.DBus] 00 000000 \
         03017300 08000000 [AddMatch] 00 00000000000000 \
         06017300 14000000 [org.freedesktop.DBus] 00 000000 \
         08016700 017300 00 \
         71000000 [type='signal',sender='org.freedesktop.DBus',interface='org.freedesktop.DBus',] \
         [member='NameOwnerChanged',arg0='a.b'] 00 \
         6c010001 7f000000 04030201 7f000000 \
         01016f00 15000000 [/org/freedesktop/DBus] 00 0000 \
         02017300 14000000 [org.freedesktop.DBus] 00 000000 \
         03017300 08000000 [AddMatch] 00 00000000000000 \
         06017300 14000000 [org.freedesktop.DBus] 00 000000 \
         08016700 017300 00 \
         7a000000 [type='signal',sender='org.freedesktop.DBus',interface='org.freedesktop.DBus',] \
         [member='NameOwnerChanged',arg0namespace='a.b'] 00 \
         6c010001 08000000 ffffffff 7f000000 \
         01016f00 15000000 [/org/freedesktop/DBus] 00 0000 \
         02017300 14000000 [org.freedesktop.DBus] 00 000000 \
         03017300 0c000000 [GetNameOwner] 00 000000 \
         06017300 14000000 [org.freedesktop.DBus] 00 000000 \
         08016700 017300 00 \
         03000000 [a.b] 00",
    )?;
    assert_eq!(rt; calls.as_slice(), expected.as_slice());
    Ok(())
}

/// The length, if the bytes are a valid message of this length.
fn message_len(bytes: &[u8], len: usize) -> Option<usize> {
    if is_message(bytes) && bytes.len() == len {
        Some(len)
    } else {
        None
    }
}

/// The length of the AddMatch for a pattern: a name of this length, followed by this end.
fn match_len(alloc: Global, len: usize, end: &str) -> Result<Option<usize>, Fail> {
    let mut text = name_of(alloc, len)?;
    text.push_str(end)?;
    match_len_of(alloc, &Pattern::read(alloc, text.as_str())?)
}

fn match_len_of(alloc: Global, pattern: &Pattern) -> Result<Option<usize>, Fail> {
    let mut calls = BytesMut::new(alloc);
    add_match(&mut calls, 1, pattern)?;
    Ok(message_len(calls.as_slice(), add_match_len(pattern)))
}

/// The length of the GetNameOwner for a name of this length.
fn owner_len(alloc: Global, len: usize) -> Result<Option<usize>, Fail> {
    let name = name_of(alloc, len)?;
    owner_len_of(alloc, name.as_str())
}

fn owner_len_of(alloc: Global, name: &str) -> Result<Option<usize>, Fail> {
    if !is_well_known(name.as_bytes()) {
        return Ok(None);
    }
    let mut calls = BytesMut::new(alloc);
    get_owner(&mut calls, 1, name)?;
    Ok(message_len(calls.as_slice(), get_owner_len(name)))
}

#[test]
fn calls_with_a_text_are_as_long_as_their_name_makes_them(rt: HostRuntime) -> Result<(), Fail> {
    for (len, end, expected) in [
        (3, "", 262),
        (3, ".*", 271),
        (255, "", 514),
        (255, ".*", 523),
    ] {
        assert_eq!(rt;
            match_len(rt.alloc(), len, end)?,
            Some(expected),
            "{len}{end}"
        );
    }
    for (len, expected) in [(3, 152), (255, 404)] {
        assert_eq!(rt; owner_len(rt.alloc(), len)?, Some(expected), "{len}");
    }
    Ok(())
}

/// Whether the answer in place, in this order and to this serial, is the message that the text spells.
fn is_answer(
    alloc: Global,
    order: Order,
    serials: (u32, u32),
    what: Instead,
    expected: &str,
) -> Result<bool, AllocError> {
    let (reply_serial, serial) = serials;
    let answer = answer_in_place(order, reply_serial, serial, what);
    is_message_of(alloc, answer.as_slice(), expected)
}

/// The answer in place of each kind that the test makes, in little-endian order.
fn in_little_order(what: Instead) -> &'static str {
    match what {
        Instead::AccessDenied => {
            "6c030101 1c000000 08070605 5f000000 \
             04017300 27000000 [org.freedesktop.DBus.Error.AccessDenied] 00 \
             05017500 04030201 \
             07017300 14000000 [org.freedesktop.DBus] 00 000000 \
             08016700 017300 00 \
             17000000 [access denied by policy] 00"
        }
        Instead::NameHasNoOwner => {
            "6c030101 16000000 ffffffff 67000000 \
             04017300 29000000 [org.freedesktop.DBus.Error.NameHasNoOwner] 00 000000000000 \
             05017500 01000000 \
             07017300 14000000 [org.freedesktop.DBus] 00 000000 \
             08016700 017300 00 \
             11000000 [name has no owner] 00"
        }
        Instead::ServiceUnknown => {
            "6c030101 14000000 65000000 67000000 \
             04017300 29000000 [org.freedesktop.DBus.Error.ServiceUnknown] 00 000000000000 \
             05017500 0a000000 \
             07017300 14000000 [org.freedesktop.DBus] 00 000000 \
             08016700 017300 00 \
             0f000000 [service unknown] 00"
        }
        Instead::False => {
            "6c020101 04000000 46000000 2f000000 \
             05017500 03000000 \
             07017300 14000000 [org.freedesktop.DBus] 00 000000 \
             08016700 016200 00 \
             00000000"
        }
    }
}

/// The answer in place of each kind that the test makes, in big-endian order.
fn in_big_order(what: Instead) -> &'static str {
    match what {
        Instead::AccessDenied => {
            "42030101 0000001c 05060708 0000005f \
             04017300 00000027 [org.freedesktop.DBus.Error.AccessDenied] 00 \
             05017500 01020304 \
             07017300 00000014 [org.freedesktop.DBus] 00 000000 \
             08016700 017300 00 \
             00000017 [access denied by policy] 00"
        }
        Instead::NameHasNoOwner => {
            "42030101 00000016 ffffffff 00000067 \
             04017300 00000029 [org.freedesktop.DBus.Error.NameHasNoOwner] 00 000000000000 \
             05017500 00000001 \
             07017300 00000014 [org.freedesktop.DBus] 00 000000 \
             08016700 017300 00 \
             00000011 [name has no owner] 00"
        }
        Instead::ServiceUnknown => {
            "42030101 00000014 00000065 00000067 \
             04017300 00000029 [org.freedesktop.DBus.Error.ServiceUnknown] 00 000000000000 \
             05017500 0000000a \
             07017300 00000014 [org.freedesktop.DBus] 00 000000 \
             08016700 017300 00 \
             0000000f [service unknown] 00"
        }
        Instead::False => {
            "42020101 00000004 00000046 0000002f \
             05017500 00000003 \
             07017300 00000014 [org.freedesktop.DBus] 00 000000 \
             08016700 016200 00 \
             00000000"
        }
    }
}

#[test]
fn answers_in_place_are_spelled_in_either_order(rt: HostRuntime) -> Result<(), Fail> {
    for (reply_serial, serial, what) in [
        (0x0102_0304, 0x0506_0708, Instead::AccessDenied),
        (1, 4_294_967_295, Instead::NameHasNoOwner),
        (10, 101, Instead::ServiceUnknown),
        (3, 70, Instead::False),
    ] {
        for (order, expected) in [
            (Order::Little, in_little_order(what)),
            (Order::Big, in_big_order(what)),
        ] {
            let serials = (reply_serial, serial);
            let is_expected = is_answer(rt.alloc(), order, serials, what, expected)?;
            assert!(rt; is_expected, "{what:?} {order:?}");
        }
    }
    Ok(())
}
