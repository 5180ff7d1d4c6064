//! The strings of messages' bodies.
use crate::messages::is_whole;
use dbus_header::{Message, Places, decode};
use std::alloc::{AllocError, Global};
use std::test::Fail;
use test_tables::{plain, wrong_row};

/// The byte order, the signature, with `-` for none, and the body of a return; and its first text, its first two texts,
/// and the one text, the three texts and the list of texts that are the whole body.
const BODIES: &str = "\
l s %03~~~abc~ => Some(\"abc\") None Some(\"abc\") None None
B s ~~~%03abc~ => Some(\"abc\") None Some(\"abc\") None None
l s ~~~~~ => Some(\"\") None Some(\"\") None None
l s %02~~~%C3%A9~ => Some(\"é\") None Some(\"é\") None None
l ss %01~~~a~~~%01~~~b~ => Some(\"a\") Some((\"a\", \"b\")) None None None
B ss ~~~%01a~~~~~~%01b~ => Some(\"a\") Some((\"a\", \"b\")) None None None
l ss %03~~~abc~%02~~~%C3%A9~ => Some(\"abc\") Some((\"abc\", \"é\")) None None None
B ss ~~~%03abc~~~~%02%C3%A9~ => Some(\"abc\") Some((\"abc\", \"é\")) None None None
l ss ~~~~~~~~~~~~~ => Some(\"\") Some((\"\", \"\")) None None None
l ssv %01~~~a~~~%01~~~b~%01u~~~~%07~~~ => Some(\"a\") Some((\"a\", \"b\")) None None None
B ssv ~~~%01a~~~~~~%01b~%01u~~~~~~~%07 => Some(\"a\") Some((\"a\", \"b\")) None None None
l sss %01~~~a~~~%01~~~b~~~%02~~~cd~ => Some(\"a\") Some((\"a\", \"b\")) None Some((\"a\", \"b\", \"cd\")) None
B sss ~~~%01a~~~~~~%01b~~~~~~%02cd~ => Some(\"a\") Some((\"a\", \"b\")) None Some((\"a\", \"b\", \"cd\")) None
l sss ~~~~~~~~~~~~~~~~~~~~~ => Some(\"\") Some((\"\", \"\")) None Some((\"\", \"\", \"\")) None
l ssss %01~~~a~~~%01~~~b~~~%01~~~c~~~%01~~~d~ => Some(\"a\") Some((\"a\", \"b\")) None None None
l su %01~~~a~~~%07~~~ => Some(\"a\") None None None None
B su ~~~%01a~~~~~~%07 => Some(\"a\") None None None None
l us %07~~~%01~~~a~ => None None None None None
B us ~~~%07~~~%01a~ => None None None None None
l ssu %01~~~a~~~%01~~~b~~~%07~~~ => Some(\"a\") Some((\"a\", \"b\")) None None None
l sus %01~~~a~~~%07~~~%01~~~b~ => Some(\"a\") None None None None
l so %01~~~a~~~%02~~~/p~ => Some(\"a\") None None None None
l os %02~~~/p~~%01~~~a~ => None None None None None
l as %0F~~~%01~~~a~~~%02~~~bc~ => None None None None Some([\"a\", \"bc\"])
B as ~~~%0F~~~%01a~~~~~~%02bc~ => None None None None Some([\"a\", \"bc\"])
l as ~~~~ => None None None None Some([])
B as ~~~~ => None None None None Some([])
l asas ~~~~~~~~ => None None None None None
l sas %01~~~a~~~~~~~ => Some(\"a\") None None None None
l ao ~~~~ => None None None None None
l o %02~~~/p~ => None None None None None
l g %01s~ => None None None None None
l v %01s~~%01~~~a~ => None None None None None
l vs %01u~~%07~~~%01~~~a~ => None None None None None
l (s) %01~~~a~ => None None None None None
l (ss) %01~~~a~~~%01~~~b~ => None None None None None
l s(s) %01~~~a~~~%01~~~b~ => Some(\"a\") None None None None
l - => None None None None None
B - => None None None None None
";

/// A number as four bytes in an order.
fn number(order: &str, value: usize) -> [u8; 4] {
    let [a, b, c, d, ..] = value.to_le_bytes();
    if order == "B" {
        [d, c, b, a]
    } else {
        [a, b, c, d]
    }
}

/// The answer to serial 2, with serial 9.
fn message(alloc: Global, row: &str) -> Result<Vec<u8>, AllocError> {
    let (order, rest) = row.split_once(' ').unwrap_or((row, ""));
    let (signature, body) = rest.split_once(' ').unwrap_or((rest, ""));
    let body = plain(alloc, body)?;
    let fields = header_fields(alloc, order, signature)?;
    let mut bytes = Vec::from_slice(alloc, order.as_bytes())?;
    bytes.extend_from_slice(&[2, 1, 1])?;
    bytes.extend_from_slice(&number(order, body.len()))?;
    bytes.extend_from_slice(&number(order, 9))?;
    bytes.extend_from_slice(&number(order, fields.len()))?;
    bytes.extend_from_slice(&fields)?;
    pad(&mut bytes)?;
    bytes.extend_from_slice(&body)?;
    Ok(bytes)
}

fn header_fields(alloc: Global, order: &str, signature: &str) -> Result<Vec<u8>, AllocError> {
    let mut fields = Vec::from_slice(alloc, &[5, 1, b'u', 0])?;
    fields.extend_from_slice(&number(order, 2))?;
    if signature != "-" {
        let [len, ..] = signature.len().to_le_bytes();
        fields.extend_from_slice(&[8, 1, b'g', 0, len])?;
        fields.extend_from_slice(signature.as_bytes())?;
        fields.push(0)?;
    }
    Ok(fields)
}

/// Adds zeros up to a multiple of eight bytes.
fn pad(bytes: &mut Vec<u8>) -> Result<(), AllocError> {
    let over = bytes.len() % 8;
    if over == 0 {
        return Ok(());
    }
    bytes.extend_from_slice(&[0; 8][over..])
}

fn told_bodies(alloc: Global, row: &str) -> Result<String, AllocError> {
    let bytes = message(alloc, row)?;
    if !is_whole(&bytes) {
        return String::from_str(alloc, "cut");
    }
    let mut places = Places::none();
    match decode(&bytes, &mut places) {
        Ok(message) => told_texts(alloc, &message),
        Err(_) => String::from_str(alloc, "malformed"),
    }
}

fn told_texts(alloc: Global, message: &Message<'_>) -> Result<String, AllocError> {
    let first = message.first_text();
    let two = message.two_texts();
    let only = message.only_text();
    let three = message.three_texts();
    let list = told_list(alloc, message)?;
    format!(in alloc; "{first:?} {two:?} {only:?} {three:?} {list}")
}

fn told_list(alloc: Global, message: &Message<'_>) -> Result<String, AllocError> {
    let Some(texts) = message.text_list() else {
        return String::from_str(alloc, "None");
    };
    let mut listed = Vec::new(alloc);
    for text in texts {
        listed.push(text)?;
    }
    format!(in alloc; "Some({:?})", listed.as_slice())
}

#[test]
fn the_texts_of_a_body_are_told_by_its_signature(rt: HostRuntime) -> Result<(), Fail> {
    assert_eq!(rt; wrong_row(rt.alloc(), BODIES, &told_bodies)?, None);
    Ok(())
}
