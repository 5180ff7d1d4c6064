//! Messages that rows of tables describe.
use std::alloc::{AllocError, Global};

/// A message in little-endian order with serial 9. The row has its kind, and then words for its header fields and for
/// the values of its body, in order, with a space before each.
pub fn message(alloc: Global, row: &str) -> Result<Vec<u8>, AllocError> {
    let (kind, words) = row.split_once(' ').unwrap_or((row, ""));
    let mut fields = Vec::new(alloc);
    let mut body = Vec::new(alloc);
    for word in words.split(' ') {
        add_word(&mut fields, &mut body, word)?;
    }
    let mut bytes = front(alloc, kind, body.len(), fields.len())?;
    bytes.extend_from_slice(&fields)?;
    pad_to_eight(&mut bytes)?;
    bytes.extend_from_slice(&body)?;
    Ok(bytes)
}

/// Adds the header field or the value that a word describes.
fn add_word(fields: &mut Vec<u8>, body: &mut Vec<u8>, word: &str) -> Result<(), AllocError> {
    let (key, value) = word.split_once('=').unwrap_or((word, ""));
    add_field(fields, key, value)?;
    add_value(body, key, value)
}

/// The bytes before the header fields of a message of a kind, with these lengths of its body and of its fields.
fn front(alloc: Global, kind: &str, body: usize, fields: usize) -> Result<Vec<u8>, AllocError> {
    let [kind, flags] = type_and_flags(kind);
    let mut bytes = Vec::from_slice(alloc, &[b'l', kind, flags, 1])?;
    for value in [body, 9, fields] {
        bytes.extend_from_slice(&number(value))?;
    }
    Ok(bytes)
}

/// The type and the flags of a kind of message.
fn type_and_flags(kind: &str) -> [u8; 2] {
    match kind {
        "call" => [1, 0],
        "no_reply" => [1, 1],
        "no_start" => [1, 2],
        "both" => [1, 3],
        "return" => [2, 1],
        "error" => [3, 1],
        "signal" => [4, 1],
        "type_9" => [9, 0],
        _ => [0, 0],
    }
}

/// Adds the header field that a word describes, if it describes one.
fn add_field(fields: &mut Vec<u8>, key: &str, value: &str) -> Result<(), AllocError> {
    match key {
        "path" => add_text(fields, [1, 1, b'o', 0], value),
        "interface" => add_text(fields, [2, 1, b's', 0], value),
        "member" => add_text(fields, [3, 1, b's', 0], value),
        "error" => add_text(fields, [4, 1, b's', 0], value),
        "reply" => add_reply(fields, value),
        "to" => add_text(fields, [6, 1, b's', 0], value),
        "from" => add_text(fields, [7, 1, b's', 0], value),
        "signature" => add_signature(fields, value),
        "unknown" => add_text(fields, [10, 1, b'o', 0], value),
        "greatest" => add_text(fields, [255, 1, b's', 0], value),
        _ => Ok(()),
    }
}

/// Adds the code and the type of a header field, and its text.
fn add_text(fields: &mut Vec<u8>, head: [u8; 4], text: &str) -> Result<(), AllocError> {
    pad_to_eight(fields)?;
    fields.extend_from_slice(&head)?;
    add_string(fields, text)
}

fn add_reply(fields: &mut Vec<u8>, serial: &str) -> Result<(), AllocError> {
    pad_to_eight(fields)?;
    fields.extend_from_slice(&[5, 1, b'u', 0])?;
    fields.extend_from_slice(&number(serial.parse().unwrap_or(0)))
}

fn add_signature(fields: &mut Vec<u8>, signature: &str) -> Result<(), AllocError> {
    let [len, ..] = signature.len().to_le_bytes();
    pad_to_eight(fields)?;
    fields.extend_from_slice(&[8, 1, b'g', 0, len])?;
    fields.extend_from_slice(signature.as_bytes())?;
    fields.push(0)?;
    Ok(())
}

/// Adds the value that a word describes, if it describes one: a string, a number, a variant of a number or an empty
/// list.
fn add_value(body: &mut Vec<u8>, key: &str, value: &str) -> Result<(), AllocError> {
    match key {
        "text" => add_body_text(body, value),
        "number" => add_number(body, value),
        "variant" => add_variant(body, value),
        "no_texts" => add_number(body, "0"),
        _ => Ok(()),
    }
}

fn add_body_text(body: &mut Vec<u8>, text: &str) -> Result<(), AllocError> {
    pad_to_four(body)?;
    add_string(body, text)
}

fn add_variant(body: &mut Vec<u8>, value: &str) -> Result<(), AllocError> {
    body.extend_from_slice(b"\x01u\0")?;
    add_number(body, value)
}

fn add_number(body: &mut Vec<u8>, value: &str) -> Result<(), AllocError> {
    pad_to_four(body)?;
    body.extend_from_slice(&number(value.parse().unwrap_or(0)))
}

fn add_string(bytes: &mut Vec<u8>, text: &str) -> Result<(), AllocError> {
    bytes.extend_from_slice(&number(text.len()))?;
    bytes.extend_from_slice(text.as_bytes())?;
    bytes.push(0)?;
    Ok(())
}

/// Adds zeros up to a multiple of four bytes.
fn pad_to_four(bytes: &mut Vec<u8>) -> Result<(), AllocError> {
    let over = bytes.len() % 4;
    add_zeros_from(bytes, &[0; 4], over)
}

/// Adds zeros up to a multiple of eight bytes.
fn pad_to_eight(bytes: &mut Vec<u8>) -> Result<(), AllocError> {
    let over = bytes.len() % 8;
    add_zeros_from(bytes, &[0; 8], over)
}

/// Adds the zeros from a place on, and none for the place 0.
fn add_zeros_from(bytes: &mut Vec<u8>, zeros: &[u8], place: usize) -> Result<(), AllocError> {
    if place == 0 {
        return Ok(());
    }
    bytes.extend_from_slice(zeros.get(place..).unwrap_or(&[]))
}

/// A number as four bytes, the lowest byte first.
fn number(value: usize) -> [u8; 4] {
    let [a, b, c, d, ..] = value.to_le_bytes();
    [a, b, c, d]
}
