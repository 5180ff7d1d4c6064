//! The calls by which the proxy learns who owns the names of its policy.
use crate::name_lists::message;
use crate::policies::policy_of;
use crate::whole::is_whole;
use bytes::BytesMut;
use dbus_header::{Places, decode};
use dbus_names::is_well_known;
use dbus_values::{Order, Texts};
use name_patterns::Pattern;
use own_calls::{after_hello, after_names, asked, count};
use ping_rewrite::{add_match, get_owner, list_names};
use policy_args::Policy;
use reply_ledger::{Kind, Ledger};
use serial_map::Serials;
use std::alloc::{AllocError, Global};
use std::test::Fail;

/// The number of serials that are given before the first own call.
const GIVEN: u32 = 1;

/// Appends the call that a text names: `match PATTERN`, `owner NAME` or `names`.
fn put(alloc: Global, calls: &mut BytesMut, serial: u32, text: &str) -> Result<(), Fail> {
    match text.split_once(' ') {
        Some(("match", pattern)) => add_match(calls, serial, &Pattern::read(alloc, pattern)?)?,
        Some((_, name)) if is_well_known(name.as_bytes()) => get_owner(calls, serial, name)?,
        _ => calls.extend_from_slice(&list_names(serial))?,
    }
    Ok(())
}

/// The calls that a text names, joined by commas, after `abc`.
fn calls_of(alloc: Global, text: &str) -> Result<BytesMut, Fail> {
    let mut calls = BytesMut::new(alloc);
    calls.extend_from_slice(b"abc")?;
    let mut serial = GIVEN;
    if text.is_empty() {
        return Ok(calls);
    }
    for text in text.split(',') {
        serial = serial.wrapping_add(1);
        put(alloc, &mut calls, serial, text)?;
    }
    Ok(calls)
}

/// Whether the answer at the serial is expected for the call that a text names.
fn is_expected(ledger: &Ledger, serial: u32, text: &str) -> bool {
    match (ledger.peek(serial), text.split_once(' ')) {
        (Some(Kind::OwnMatch), Some(("match", _))) => true,
        (Some(Kind::OwnOwner(name)), Some(("owner", expected))) => name.as_str() == expected,
        (Some(Kind::OwnNames), None) => text == "names",
        _ => false,
    }
}

/// Whether answers are expected for the calls that a text names, and for no other.
fn are_expected(ledger: &Ledger, text: &str) -> bool {
    let mut serial = GIVEN;
    if !text.is_empty() {
        for text in text.split(',') {
            serial = serial.wrapping_add(1);
            if !is_expected(ledger, serial, text) {
                return false;
            }
        }
    }
    ledger.peek(GIVEN).is_none() && ledger.peek(serial.wrapping_add(1)).is_none()
}

/// Whether the calls after a Hello are those that a text names.
fn are_called(alloc: Global, policy: &Policy, text: &str) -> Result<bool, Fail> {
    let mut calls = BytesMut::new(alloc);
    calls.extend_from_slice(b"abc")?;
    let mut serials = Serials::after(GIVEN);
    let mut ledger = Ledger::new(alloc);
    if count(policy) > serials.left() {
        return Ok(false);
    }
    after_hello(alloc, &mut calls, policy, &mut serials, &mut ledger)?;
    let expected = calls_of(alloc, text)?;
    Ok(calls.as_slice() == expected.as_slice() && are_expected(&ledger, text))
}

#[test]
fn each_pattern_is_asked_for_once(rt: HostRuntime) -> Result<(), Fail> {
    for (words, calls) in [
        ("", ""),
        ("--talk=org.a.A", "match org.a.A,owner org.a.A"),
        ("--see=org.a.*", "match org.a.*,names"),
        // A name, and the names below it.
        (
            "--see=org.a.A.*\0--see=org.a.A",
            "match org.a.A.*,match org.a.A,owner org.a.A,names",
        ),
        // Patterns that occur in more than one entry.
        (
            "--see=org.a.*\0--talk=org.b.B\0--own=org.a.*\0--call=org.b.B=*\0--see=org.c.C\0--broadcast=org.a.*=*",
            "match org.a.*,match org.b.B,owner org.b.B,match org.c.C,owner org.c.C,names",
        ),
    ] {
        let policy = policy_of(rt.alloc(), words)?;
        assert!(rt; are_called(rt.alloc(), &policy, calls)?, "{words}");
    }
    Ok(())
}

/// An array of `org.a.A`, `:1.5`, `org.b.B`, an empty text, `org.a.A` again, `org.a b` and `org.c`.
const LIST: &[u8] =
    b"\x4e\0\0\0\x07\0\0\0org.a.A\0\x04\0\0\0:1.5\0\0\0\0\x07\0\0\0org.b.B\0\0\0\0\0\0\0\0\0\x07\0\0\0org.a.A\0\x07\0\0\0org.a b\0\x05\0\0\0org.c\0";

/// Whether the calls on an answer to ListNames are those that a text names.
fn are_called_then(
    alloc: Global,
    policy: &Policy,
    names: Texts<'_>,
    text: &str,
) -> Result<bool, Fail> {
    let names = asked(alloc, policy, names)?;
    let mut calls = BytesMut::new(alloc);
    calls.extend_from_slice(b"abc")?;
    let mut serials = Serials::after(GIVEN);
    let mut ledger = Ledger::new(alloc);
    if names.len() as u64 > u64::from(serials.left()) {
        return Ok(false);
    }
    after_names(alloc, &mut calls, &names, &mut serials, &mut ledger)?;
    let expected = calls_of(alloc, text)?;
    Ok(calls.as_slice() == expected.as_slice() && are_expected(&ledger, text))
}

/// Whether the calls on an answer with these bytes are those that a text names.
fn are_called_on(alloc: Global, policy: &Policy, answer: &[u8], text: &str) -> Result<bool, Fail> {
    if !is_whole(answer) {
        return Ok(false);
    }
    let mut places = Places::none();
    let Ok(message) = decode(answer, &mut places) else {
        return Ok(false);
    };
    match message.text_list() {
        Some(names) => are_called_then(alloc, policy, names, text),
        None => Ok(false),
    }
}

#[test]
fn owners_of_covered_names_are_asked_for(rt: HostRuntime) -> Result<(), Fail> {
    let answer = message(rt.alloc(), Order::Little, 1, LIST)?;
    for (words, calls) in [
        ("", ""),
        ("--talk=org.a.A", ""),
        ("--see=org.a.*", "owner org.a.A,owner org.a.A"),
        ("--see=org.a.A.*", "owner org.a.A,owner org.a.A"),
        (
            "--see=org.*",
            "owner org.a.A,owner org.b.B,owner org.a.A,owner org.c",
        ),
        // Names that exact patterns name.
        (
            "--see=org.*\0--talk=org.a.A\0--see=org.d",
            "owner org.b.B,owner org.c",
        ),
        (
            "--call=org.c=*\0--see=org.*\0--see=org.b.*",
            "owner org.a.A,owner org.b.B,owner org.a.A",
        ),
    ] {
        let policy = policy_of(rt.alloc(), words)?;
        assert!(rt;
            are_called_on(rt.alloc(), &policy, &answer, calls)?,
            "{words}"
        );
    }
    Ok(())
}
