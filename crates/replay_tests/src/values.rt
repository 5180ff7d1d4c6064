//! The bytes of values in little order (D-Bus Specification, "Marshaling").
use std::alloc::{AllocError, Global};

/// The types that values may have here.
const TYPES: [&str; 7] = ["a{sv}", "as", "u", "b", "s", "o", "v"];

/// Adds the values of a signature, which spaces part.
pub fn add_values(
    alloc: Global,
    body: &mut Vec<u8>,
    signature: &str,
    values: &str,
) -> Result<(), AllocError> {
    let mut types = signature;
    for value in values.split(' ') {
        let (first, rest) = first_type(types);
        add_value(alloc, body, first, value)?;
        types = rest;
    }
    Ok(())
}

/// The first of some types, and those after it.
fn first_type(types: &str) -> (&str, &str) {
    for first in TYPES {
        if let Some(rest) = types.strip_prefix(first) {
            return (first, rest);
        }
    }
    ("", "")
}

/// Adds a value of a type. `''` is the text without a byte, `as` has texts between brackets, which commas part, `a{sv}`
/// has no entry, and `v` has a number.
fn add_value(
    alloc: Global,
    body: &mut Vec<u8>,
    of_type: &str,
    value: &str,
) -> Result<(), AllocError> {
    match of_type {
        "a{sv}" => add_no_entries(body),
        "as" => add_list(body, &strings(alloc, value)?),
        "u" | "b" => add_number(body, value),
        "s" | "o" => add_string(body, value),
        "v" => add_variant(body, value),
        _ => Ok(()),
    }
}

fn add_no_entries(body: &mut Vec<u8>) -> Result<(), AllocError> {
    add_number(body, "0")?;
    pad_to_eight(body)
}

/// Adds a variant of a `u`.
fn add_variant(body: &mut Vec<u8>, value: &str) -> Result<(), AllocError> {
    body.extend_from_slice(b"\x01u\0")?;
    add_number(body, value)
}

fn add_list(body: &mut Vec<u8>, strings: &[u8]) -> Result<(), AllocError> {
    pad_to_four(body)?;
    body.extend_from_slice(&length(strings))?;
    body.extend_from_slice(strings)
}

/// The strings of a list, as they stand from a multiple of four on.
fn strings(alloc: Global, list: &str) -> Result<Vec<u8>, AllocError> {
    let mut strings = Vec::new(alloc);
    let texts = list.strip_prefix('[').unwrap_or(list);
    let texts = texts.strip_suffix(']').unwrap_or(texts);
    if !texts.is_empty() {
        for text in texts.split(',') {
            add_string(&mut strings, text)?;
        }
    }
    Ok(strings)
}

/// Adds a string: its length, its bytes and a zero.
pub fn add_string(bytes: &mut Vec<u8>, text: &str) -> Result<(), AllocError> {
    let text = if text == "''" { "" } else { text };
    pad_to_four(bytes)?;
    bytes.extend_from_slice(&length(text.as_bytes()))?;
    bytes.extend_from_slice(text.as_bytes())?;
    bytes.push(0)?;
    Ok(())
}

/// Adds a number of four bytes.
pub fn add_number(bytes: &mut Vec<u8>, value: &str) -> Result<(), AllocError> {
    pad_to_four(bytes)?;
    bytes.extend_from_slice(&number(value))
}

/// A number as four bytes, the lowest first.
pub fn number(text: &str) -> [u8; 4] {
    text.parse().unwrap_or(0_u32).to_le_bytes()
}

/// The length of some bytes as four bytes, the lowest first.
pub fn length(bytes: &[u8]) -> [u8; 4] {
    let [a, b, c, d, ..] = bytes.len().to_le_bytes();
    [a, b, c, d]
}

/// Adds zeros up to a multiple of four bytes.
fn pad_to_four(bytes: &mut Vec<u8>) -> Result<(), AllocError> {
    let over = bytes.len() % 4;
    if over == 0 {
        return Ok(());
    }
    bytes.extend_from_slice(&[0; 4][over..])
}

/// Adds zeros up to a multiple of eight bytes.
pub fn pad_to_eight(bytes: &mut Vec<u8>) -> Result<(), AllocError> {
    let over = bytes.len() % 8;
    if over == 0 {
        return Ok(());
    }
    bytes.extend_from_slice(&[0; 8][over..])
}
