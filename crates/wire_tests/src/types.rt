//! Which bytes are signatures, and what follows a type.
ghost use Rattle.std.specs.Prelude.{◌≡◌, ◌↔◌, IsTrue};

use dbus_types::{BadSignature, Signature, behind_type};
use std::alloc::{AllocError, Global};
use std::str;
use std::test::Fail;
use test_tables::wrong_row;

/// Texts, and whether they are signatures, or why they aren't.
const SIGNATURES: &str = "\
y => signature
 => signature
v => signature
a{sv} => signature
(ii)ai => signature
a(ai) => signature
aa{s(iav)} => signature
a => Form
z => Form
( => Form
) => Form
() => Form
sa => Form
a{s} => Form
{sv} => Form
({sv}) => Form
a{vs} => Form
a{(i)s} => Form
a{ass} => Form
a{svs} => Form
a{sv => Form
a} => Form
a{s) => Form
((i) => Form
a(i} => Form
i\0 => Form
";

/// Type codes, each with its number of repetitions, and whether they are a signature, or why they aren't. A signature
/// has at most 255 bytes, and arrays and structs are nested at most 32 deep each, counted along one path.
const LIMITS: &str = "\
y*255 => signature
y*256 => TooLong
z*256 => TooLong
a*32 y*1 => signature
a*33 y*1 => Depth
a*33 z*1 => Form
(*32 y*1 )*32 => signature
(*33 y*1 )*33 => Depth
(*32 y*1 )*33 => Form
a*31 (*1 a*1 i*1 a*1 i*1 )*1 i*1 => signature
a*31 (*1 a*2 i*2 )*1 i*1 => Depth
";

/// Types, and what follows the first.
const BEHIND: &str = "\
a{sv}us => us
(i(ss))x => x
sv => v
aa(a{sv})a => a
{sa(i)}i => i
y => 
";

fn told_signature(alloc: Global, text: &str) -> Result<String, AllocError> {
    match Signature::read(text.as_bytes()) {
        Ok(signature) if signature.as_bytes() == text.as_bytes() => {
            String::from_str(alloc, "signature")
        }
        Ok(_) => String::from_str(alloc, "other bytes"),
        Err(why) => told_reason(alloc, why),
    }
}

fn told_reason(alloc: Global, why: BadSignature) -> Result<String, AllocError> {
    format!(in alloc; "{why:?}")
}

/// Refusals are equal exactly if they are the same.
fn are_equal(one: BadSignature, other: BadSignature) -> bool
    ensures { IsTrue result ↔ (one ≡ other) }
{
    one == other
}

fn told_repeated(alloc: Global, row: &str) -> Result<String, AllocError> {
    let mut text = String::new(alloc);
    for word in row.split(' ') {
        let (code, count) = word.split_once('*').unwrap_or((word, ""));
        for _ in 0..count.parse().unwrap_or(0_u32) {
            text.push_str(code)?;
        }
    }
    told_signature(alloc, &text)
}

fn told_behind(alloc: Global, types: &str) -> Result<String, AllocError> {
    let rest = behind_type(types.as_bytes());
    String::from_str(alloc, str::from_utf8(rest).unwrap_or("no text"))
}

#[test]
fn signatures_are_told_by_their_form(rt: HostRuntime) -> Result<(), Fail> {
    assert_eq!(rt; wrong_row(rt.alloc(), SIGNATURES, &told_signature)?, None);
    Ok(())
}

#[test]
fn signatures_are_within_their_limits(rt: HostRuntime) -> Result<(), Fail> {
    assert_eq!(rt; wrong_row(rt.alloc(), LIMITS, &told_repeated)?, None);
    Ok(())
}

#[test]
fn what_is_behind_a_type(rt: HostRuntime) -> Result<(), Fail> {
    assert_eq!(rt; wrong_row(rt.alloc(), BEHIND, &told_behind)?, None);
    Ok(())
}

#[test]
fn refused_signatures_are_told(rt: HostRuntime) -> Result<(), Fail> {
    let long = BadSignature::TooLong;
    let told = format!(in rt.alloc(); "{long}; {}; {}", BadSignature::Depth, BadSignature::Form);
    let expected = "the signature is longer than 255 bytes; \
        the signature is more than 32 arrays or 32 structs deep; \
        the signature is no list of complete types";
    assert_eq!(rt; told?.as_str(), expected);
    assert_eq!(rt; are_equal(long, BadSignature::TooLong), true, "the same");
    assert_eq!(rt; are_equal(long, BadSignature::Depth), false, "another");
    Ok(())
}
