//! The words of a text: numbers, and texts in quotes.
ghost use Rattle.std.specs.Prelude.{◌≡◌, ◌<◌, ◌≤◌, ◌++◌, ◌∷◌, [], ◌^◌, IfOk, decimal, codes};
ghost use Rattle.std.specs.List.{flat_map};
ghost use Rattle.message_text.specs.MessageText.{hex_digit as digit_of, hex_byte as byte_in_hex, escaped as escape_of, quoted as text_in_quotes};
ghost use Rattle.message_text.specs.Printing.{signed_from, number_word};

use dbus_values::Order;
use itoa::Buffer;
use std::alloc::AllocError;

/// A number in decimal.
pub(crate) fn decimal(out: &mut Vec<u8>, number: u64) -> Result<(), AllocError>
    ensures { IfOk result (λ done. out.new.items ≡ out.old.items ++ decimal number) }
{
    let mut buffer = Buffer::new();
    out.extend_from_slice(buffer.format(number).as_bytes())
}

/// A number whose greater half represents the negative ones, in decimal.
fn signed(out: &mut Vec<u8>, half: u64, number: u64) -> Result<(), AllocError>
    ensures { IfOk result (λ done. out.new.items ≡ out.old.items ++ signed_from half number) }
{
    if number < half {
        return decimal(out, number);
    }
    out.push(b'-')?;
    decimal(out, half.saturating_sub(number - half))
}

/// A lower hexadecimal digit.
#[inline]
pub(crate) fn hex_digit(digit: u8) -> u8
    requires { digit < 16 }
    ensures { result ≡ digit_of digit }
{
    if digit < 10 {
        b'0' + digit
    } else {
        b'a' - 10 + digit
    }
}

/// A byte as two hexadecimal digits.
#[inline]
pub(crate) fn hex_byte(byte: u8) -> [u8; 2]
    ensures { result ≡ byte_in_hex byte }
{
    [hex_digit(byte / 16), hex_digit(byte % 16)]
}

/// Bytes as hexadecimal digits.
fn hex(out: &mut Vec<u8>, bytes: &[u8]) -> Result<(), AllocError>
    ensures { IfOk result (λ done. out.new.items ≡ out.old.items ++ flat_map byte_in_hex bytes.now) }
{
    for byte in bytes {
        out.extend_from_slice(&hex_byte(*byte))?;
    }
    Ok(())
}

/// A double's bytes in the order in which they stand.
fn double(out: &mut Vec<u8>, order: Order, number: u64) -> Result<(), AllocError>
    ensures { IfOk result (λ done. out.new.items ≡ out.old.items ++ number_word order 100 number) }
{
    out.extend_from_slice(b"0x")?;
    hex(out, &order.bytes_of_u64(number))
}

/// A number of the type with a code.
pub(crate) fn number(
    out: &mut Vec<u8>,
    order: Order,
    code: u8,
    number: u64,
) -> Result<(), AllocError>
    ensures { IfOk result (λ done. out.new.items ≡ out.old.items ++ number_word order code number) }
{
    match code {
        b'b' if number == 0 => out.extend_from_slice(b"false"),
        b'b' => out.extend_from_slice(b"true"),
        b'n' => signed(out, 1 << 15, number),
        b'i' => signed(out, 1 << 31, number),
        b'x' => signed(out, 1 << 63, number),
        b'd' => double(out, order, number),
        _ => decimal(out, number),
    }
}

/// A byte of a text, escaped if it has to be.
#[inline]
fn escaped(out: &mut Vec<u8>, byte: u8) -> Result<(), AllocError>
    ensures { IfOk result (λ done. out.new.items ≡ out.old.items ++ escape_of byte) }
{
    if byte == b'\\' || byte == b'"' {
        out.extend_from_slice(&[b'\\', byte])
    } else if byte < 0x20 || byte == 0x7f {
        let [first, second] = hex_byte(byte);
        out.extend_from_slice(&[b'\\', b'x', first, second])
    } else {
        Ok(out.push(byte)?)
    }
}

/// A text in double quotes.
pub(crate) fn quoted(out: &mut Vec<u8>, text: &[u8]) -> Result<(), AllocError>
    ensures { IfOk result (λ done. out.new.items ≡ out.old.items ++ text_in_quotes text.now) }
{
    out.push(b'"')?;
    for byte in text {
        escaped(out, *byte)?;
    }
    Ok(out.push(b'"')?)
}
