//! Values of basic types, read from a text.
ghost use Rattle.std.specs.Prelude.{◌≡◌, ◌≤◌, ◌++◌, IfOk, option_map, length, suc, drop, min};
ghost use Rattle.std.specs.Str.{is_utf8 as is_utf8_text};
ghost use Rattle.message_text.specs.Reading.{escape_at, byte_at, bytes_to_quote, quoted_at, with_len, with_short_len, with_gap as with_zeros, number_part, read_number, hex_bytes as bytes_of_hex, read_double, read_text, read_signature, read_basic};
ghost use Rattle.message_text.specs.Seen.{number_seen, bytes_seen};
ghost use Rattle.dbus_values.specs.Alignments.{IsAlignment};

use crate::numbers::width;
use crate::print_values::{after_code, front_code};
use crate::tokens::{after, after_byte, hex_byte, number};
use dbus_header::write_u32;
use dbus_values::{Order, padding};
use std::alloc::AllocError;
use std::str;

/// What follows in the text, or nothing if it hasn't the form.
pub(crate) type Rest<'a> = Result<Option<&'a [u8]>, AllocError>;

/// Room for a length that isn't known yet.
pub(crate) const NO_LEN: [u8; 4] = [0; 4];

/// The byte whose escape follows a backslash.
fn escape(text: &[u8]) -> Option<(u8, &[u8])>
    ensures { option_map number_seen result ≡ escape_at text.now }
{
    match text {
        [byte @ (b'\\' | b'"'), rest @ ..] => Some((*byte, rest)),
        [b'x', digits @ ..] => {
            let (byte, rest) = hex_byte(digits)?;
            if byte < 0x20 || byte == 0x7f {
                Some((byte, rest))
            } else {
                None
            }
        }
        _ => None,
    }
}

/// A byte in quotes. Only those are escaped that have to be.
#[inline]
fn byte(text: &[u8]) -> Option<(u8, &[u8])>
    ensures { option_map number_seen result ≡ byte_at text.now }
{
    match text {
        [b'\\', rest @ ..] => escape(rest),
        [b'"', ..] => None,
        [byte, rest @ ..] if *byte >= 0x20 && *byte != 0x7f => Some((*byte, rest)),
        _ => None,
    }
}

/// The bytes up to the closing quote.
fn to_quote<'a>(text: &'a [u8], out: &mut Vec<u8>) -> Rest<'a>
    ensures { IfOk result (λ x. option_map (bytes_seen out.new.items) x ≡ bytes_to_quote (suc (length text.now)) out.old.items text.now) }
{
    let mut rest = text;
    // Each byte takes one of the text at least.
    let mut most = text.len() + 1;
    while most > 0 {
        if front_code(rest) == b'"' {
            return Ok(Some(after_code(rest)));
        }
        let (byte, after) = match byte(rest) {
            Some(found) => found,
            None => return Ok(None),
        };
        out.push(byte)?;
        rest = after;
        most -= 1;
    }
    Ok(None)
}

fn is_utf8(text: &[u8]) -> bool
    ensures { result ≡ is_utf8_text text.now }
{
    match str::from_utf8(text) {
        Ok(_) => true,
        Err(_) => false,
    }
}

/// Whether the bytes from a place on are UTF-8.
fn is_text_from(start: usize, bytes: &[u8]) -> bool
    ensures { result ≡ is_utf8_text (drop (min start (length bytes.now)) bytes.now) }
{
    let (_, text) = bytes.split_at(start.min(bytes.len()));
    is_utf8(text)
}

/// A text in quotes.
fn quoted<'a>(text: &'a [u8], out: &mut Vec<u8>) -> Rest<'a>
    ensures { IfOk result (λ x. option_map (bytes_seen out.new.items) x ≡ quoted_at out.old.items text.now) }
{
    let start = out.len();
    let inside = match after_byte(b'"', text) {
        Some(found) => found,
        None => return Ok(None),
    };
    let rest = match to_quote(inside, out)? {
        Some(found) => found,
        None => return Ok(None),
    };
    if is_text_from(start, out) {
        Ok(Some(rest))
    } else {
        Ok(None)
    }
}

/// Zeros up to the next multiple of an alignment.
pub(crate) fn put_gap(out: &mut Vec<u8>, alignment: usize) -> Result<(), AllocError>
    requires { IsAlignment alignment }
    ensures { IfOk result (λ done. out.new.items ≡ with_zeros alignment out.old.items) }
{
    let len = padding(alignment, out.len());
    out.resize(out.len() + len, 0)
}

/// Writes the length of what begins at a place at another place, where room was left for it. A length that doesn't fit
/// four bytes is that of no valid message.
fn write_len(order: Order, place: usize, start: usize, out: &mut [u8])
    ensures { out.new ≡ with_len order place start out.old }
{
    let len = out.len().saturating_sub(start).min(0xffff_ffff) as u32;
    if out.len() >= 4 && place <= out.len() - 4 {
        write_u32(order, out, place, len);
    }
}

/// Writes the length as `write_len` does, in bytes that may grow.
pub(crate) fn put_len(order: Order, place: usize, start: usize, out: &mut Vec<u8>)
    ensures { out.new.items ≡ with_len order place start out.old.items }
{
    write_len(order, place, start, out);
}

/// Writes a signature's length, which is one byte.
fn put_short_len(place: usize, out: &mut [u8])
    ensures { out.new ≡ with_short_len place out.old }
{
    let len = out.len();
    if place < len {
        out[place] = (len - (place + 1)).min(255) as u8;
    }
}

/// The last bytes of a number.
fn put_number(order: Order, width: usize, number: u64, out: &mut Vec<u8>) -> Result<(), AllocError>
    requires { width ≤ 8 }
    ensures { IfOk result (λ done. out.new.items ≡ out.old.items ++ number_part order width number) }
{
    let bytes = order.bytes_of_u64(number);
    match order {
        Order::Little => out.extend_from_slice(&bytes[..width]),
        Order::Big => out.extend_from_slice(&bytes[8 - width..]),
    }
}

/// A number of the type with a code. A double isn't among them.
fn number_value<'a>(order: Order, code: u8, text: &'a [u8], out: &mut Vec<u8>) -> Rest<'a>
    ensures { IfOk result (λ x. option_map (bytes_seen out.new.items) x ≡ read_number order code out.old.items text.now) }
{
    let (number, rest) = match number(code, text) {
        Some(found) => found,
        None => return Ok(None),
    };
    let width = width(code);
    put_gap(out, width)?;
    put_number(order, width, number, out)?;
    Ok(Some(rest))
}

/// This many bytes, each of two hexadecimal digits.
fn hex_bytes<'a>(len: usize, text: &'a [u8], out: &mut Vec<u8>) -> Rest<'a>
    ensures { IfOk result (λ x. option_map (bytes_seen out.new.items) x ≡ bytes_of_hex len out.old.items text.now) }
{
    let mut rest = text;
    let mut left = len;
    while left > 0 {
        let (byte, after) = match hex_byte(rest) {
            Some(found) => found,
            None => return Ok(None),
        };
        out.push(byte)?;
        rest = after;
        left -= 1;
    }
    Ok(Some(rest))
}

/// A double, by its bytes in the order in which they stand.
fn double<'a>(text: &'a [u8], out: &mut Vec<u8>) -> Rest<'a>
    ensures { IfOk result (λ x. option_map (bytes_seen out.new.items) x ≡ read_double out.old.items text.now) }
{
    let digits = match after(b"0x", text) {
        Some(found) => found,
        None => return Ok(None),
    };
    put_gap(out, 8)?;
    hex_bytes(8, digits, out)
}

/// A string or an object path.
fn string<'a>(order: Order, text: &'a [u8], out: &mut Vec<u8>) -> Rest<'a>
    ensures { IfOk result (λ x. option_map (bytes_seen out.new.items) x ≡ read_text order out.old.items text.now) }
{
    put_gap(out, 4)?;
    let place = out.len();
    out.extend_from_slice(&NO_LEN)?;
    let start = out.len();
    let rest = match quoted(text, out)? {
        Some(found) => found,
        None => return Ok(None),
    };
    put_len(order, place, start, out);
    out.push(0)?;
    Ok(Some(rest))
}

fn signature<'a>(text: &'a [u8], out: &mut Vec<u8>) -> Rest<'a>
    ensures { IfOk result (λ x. option_map (bytes_seen out.new.items) x ≡ read_signature out.old.items text.now) }
{
    let place = out.len();
    out.push(0)?;
    let rest = match quoted(text, out)? {
        Some(found) => found,
        None => return Ok(None),
    };
    put_short_len(place, out);
    out.push(0)?;
    Ok(Some(rest))
}

/// A value of the basic type with a code.
pub(crate) fn basic<'a>(order: Order, code: u8, text: &'a [u8], out: &mut Vec<u8>) -> Rest<'a>
    ensures { IfOk result (λ x. option_map (bytes_seen out.new.items) x ≡ read_basic order code out.old.items text.now) }
{
    match code {
        b's' | b'o' => string(order, text, out),
        b'g' => signature(text, out),
        b'd' => double(text, out),
        _ => number_value(order, code, text, out),
    }
}
