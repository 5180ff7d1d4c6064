//! Where values end, and the texts of bodies.
ghost use Rattle.dbus_values.specs.Bodies.{HasBody};

use dbus_types::Signature;
use dbus_values::{BadValue, Order, first_text, text_list, texts3, two_texts, value_end};
use std::alloc::{AllocError, Global};
use std::test::Fail;
use test_tables::{plain, wrong_row};

/// A byte order, a signature and bytes, and where its values end, or where the last valid one ended.
const ENDS: &str = "\
little   => 0
big   => 0
little y %FF => 1
big y %FF => 1
little b %01~~~ => 4
big b ~~~%01 => 4
little b %02~~~ => at 0
big b ~~~%02 => at 0
little yq %05~%01%02 => 4
big yq %05~%01%02 => 4
little yq %05%01%01%02 => at 1
big yq %05%01%01%02 => at 1
little yx %05~~~~~~~abcdefgh => 16
big yx %05~~~~~~~abcdefgh => 16
little s %02~~~ab~ => 7
big s ~~~%02ab~ => 7
little s %02~~~ab%01 => at 0
big s ~~~%02ab%01 => at 0
little s %02~~~a~~ => at 0
big s ~~~%02a~~ => at 0
little s %02~~~%C3%A9~ => 7
big s ~~~%02%C3%A9~ => 7
little s %02~~~%C0%80~ => at 0
big s ~~~%02%C0%80~ => at 0
little o %02~~~/p~ => 7
big o ~~~%02/p~ => 7
little o %02~~~p/~ => at 0
big o ~~~%02p/~ => at 0
little g %02su~ => 4
big g %02su~ => 4
little g %02()~ => at 0
big g %02()~ => at 0
little v %01y~%07 => 4
big v %01y~%07 => 4
little v %02yy~%07%07 => at 0
big v %02yy~%07%07 => at 0
little at ~~~~~~~~ => 8
big at ~~~~~~~~ => 8
little at ~~~~ => at 0
big at ~~~~ => at 0
little au %06~~~abcdef => at 0
big au ~~~%06abcdef => at 0
little (yy)ai %01%02~~%04~~~abcd => 12
big (yy)ai %01%02~~~~~%04abcd => 12
little su %02~~~ab~~%07~~~%01%01 => 12
little suyy %02~~~ab~~%07~~~%01%01 => 14
little suyyy %02~~~ab~~%07~~~%01%01 => at 14
little suyb %02~~~ab~~%07~~~%01%01 => at 13
little a{sv} %10~~~~~~~%01~~~a~%01u~~~~%07~~~ => 24
little a{sv} %11~~~~~~~%01~~~a~%01u~~~~%07~~~~ => at 0
";

/// How many variants lie around a byte, and where the outermost ends, or where it was to begin.
const VARIANTS: &str = "\
1 => 4
64 => 193
65 => at 0
";

fn told_end(alloc: Global, row: &str) -> Result<String, AllocError> {
    let (order, values) = row.split_once(' ').unwrap_or((row, ""));
    let (signature, bytes) = values.split_once(' ').unwrap_or((values, ""));
    let order = if order == "big" {
        Order::Big
    } else {
        Order::Little
    };
    told_values(alloc, order, signature, &plain(alloc, bytes)?)
}

fn told_values(
    alloc: Global,
    order: Order,
    signature: &str,
    bytes: &[u8],
) -> Result<String, AllocError> {
    match Signature::read(signature.as_bytes()) {
        Ok(signature) => told(alloc, value_end(order, signature, bytes, 0)),
        Err(_) => String::from_str(alloc, "no signature"),
    }
}

fn told(alloc: Global, end: Result<usize, BadValue>) -> Result<String, AllocError> {
    match end {
        Ok(end) => format!(in alloc; "{end}"),
        Err(BadValue { at }) => format!(in alloc; "at {at}"),
    }
}

fn told_variants(alloc: Global, count: &str) -> Result<String, AllocError> {
    let mut bytes = Vec::new(alloc);
    for _ in 1..count.parse().unwrap_or(0_u32) {
        bytes.extend_from_slice(b"\x01v\0")?;
    }
    bytes.extend_from_slice(b"\x01y\0\x01")?;
    told_values(alloc, Order::Little, "v", &bytes)
}

#[test]
fn values_end_where_their_spelling_does(rt: HostRuntime) -> Result<(), Fail> {
    assert_eq!(rt; wrong_row(rt.alloc(), ENDS, &told_end)?, None);
    assert_eq!(rt; wrong_row(rt.alloc(), VARIANTS, &told_variants)?, None);
    Ok(())
}

fn told_texts(alloc: Global) -> Result<String, AllocError> {
    let body = b"\x01\0\0\0a\0\0\0\0\0\0\0\0\0\0\0\x02\0\0\0bc\0";
    let first = match Signature::read(b"sss") {
        Ok(signature) => first_text(Order::Little, signature, body).unwrap_or("-"),
        Err(_) => "-",
    };
    let [one, two, three] = texts3(Order::Little, body);
    format!(in alloc; "{first}|{one}|{two}|{three}")
}

/// The first text and the first two texts of a valid body.
fn told_first(
    alloc: Global,
    order: Order,
    signature: &[u8],
    body: &[u8],
) -> Result<String, AllocError>
    requires { HasBody order signature.now body.now }
{
    match Signature::read(signature) {
        Ok(signature) => {
            let first = first_text(order, signature, body);
            let two = two_texts(order, signature, body);
            format!(in alloc; "{first:?} {two:?}")
        }
        Err(_) => String::from_str(alloc, "no signature"),
    }
}

/// What is read of bodies in little order, one after the other.
fn told_in_little(alloc: Global) -> Result<String, AllocError> {
    let order = Order::Little;
    let none = told_first(alloc, order, b"", b"")?;
    let s = told_first(alloc, order, b"s", b"\x01\0\0\0a\0")?;
    let ss = told_first(alloc, order, b"ss", b"\x01\0\0\0a\0\0\0\x02\0\0\0bc\0")?;
    let su = told_first(alloc, order, b"su", b"\x01\0\0\0a\0\0\0\x07\0\0\0")?;
    let us = told_first(alloc, order, b"us", b"\x07\0\0\0\x01\0\0\0a\0")?;
    format!(in alloc; "{none}|{s}|{ss}|{su}|{us}")
}

/// What is read of bodies in big order.
fn told_in_big(alloc: Global) -> Result<String, AllocError> {
    let order = Order::Big;
    let s = told_first(alloc, order, b"s", b"\0\0\0\x01a\0")?;
    let sss = told_first(
        alloc,
        order,
        b"sss",
        b"\0\0\0\x01a\0\0\0\0\0\0\0\0\0\0\0\0\0\0\x02bc\0",
    )?;
    let ssv = told_first(
        alloc,
        order,
        b"ssv",
        b"\0\0\0\x01a\0\0\0\0\0\0\x02bc\0\x01y\0\x07",
    )?;
    format!(in alloc; "{s}|{sss}|{ssv}")
}

/// The strings of a list, one of which was taken from a clone of it.
fn told_list(alloc: Global) -> Result<String, AllocError> {
    let list = b"\x0f\0\0\0\x01\0\0\0a\0\0\0\x02\0\0\0bc\0";
    let texts = text_list(Order::Little, list);
    let mut told = String::new(alloc);
    told.push_str(texts.clone()?.next().unwrap_or("-"))?;
    told.push(' ')?;
    for text in texts {
        told.push_str(text)?;
        told.push('|')?;
    }
    Ok(told)
}

#[test]
fn texts_of_a_body_are_lent(rt: HostRuntime) -> Result<(), Fail> {
    assert_eq!(rt; told_texts(rt.alloc())?.as_str(), "a|a||bc", "sss");
    assert_eq!(rt; told_list(rt.alloc())?.as_str(), "a a|bc|", "as");
    Ok(())
}

#[test]
fn first_texts_are_told_by_the_signature(rt: HostRuntime) -> Result<(), Fail> {
    assert_eq!(rt;
        told_in_little(rt.alloc())?.as_str(),
        "None None|Some(\"a\") None|Some(\"a\") Some((\"a\", \"bc\"))|Some(\"a\") None|None None"
    );
    assert_eq!(rt;
        told_in_big(rt.alloc())?.as_str(),
        "Some(\"a\") None|Some(\"a\") Some((\"a\", \"\"))|Some(\"a\") Some((\"a\", \"bc\"))"
    );
    Ok(())
}

#[test]
fn a_bad_value_is_told(rt: HostRuntime) -> Result<(), Fail> {
    let told = format!(in rt.alloc(); "{}", BadValue { at: 8 });
    let expected = "byte 8: no value of the signature's next type";
    assert_eq!(rt; told?.as_str(), expected);
    Ok(())
}
