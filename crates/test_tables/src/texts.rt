//! Bytes as texts.
ghost use Rattle.std.specs.Prelude.{◌≡◌, ◌<◌, ◌++◌, ℕ, ◌∷◌, IfOk, IfSome, option_map, OnOk, length, string_bytes};
ghost use Rattle.test_tables.specs.Texts.{IsFirst, bytes_of, digit_of, digit_value, text_of_byte, text_of_bytes};

use std::alloc::{AllocError, Global};

/// The bytes of a text, in which `~` is a zero byte and `%` precedes the two hexadecimal digits of a byte.
pub fn plain(alloc: Global, text: &str) -> Result<Vec<u8>, AllocError>
    ensures { IfOk result (λ bytes. bytes.items ≡ bytes_of text.now) }
{
    let mut bytes = Vec::new(alloc);
    let mut rest = text.as_bytes();
    while let Some((byte, behind)) = first_byte(rest) {
        bytes.push(byte)?;
        rest = behind;
    }
    Ok(bytes)
}

/// The first byte of a text, and the text after it.
fn first_byte(text: &[u8]) -> Option<(u8, &[u8])>
    ensures first { IsFirst text.now (option_map (λ p. (p.0, p.1.now)) result) }
    ensures shorter { IfSome result (λ p. length p.1.now < length text.now) }
{
    match text {
        [b'%', high, low, behind @ ..] => Some((digit(*high) * 16 + digit(*low), behind)),
        [b'%', ..] | [] => None,
        [b'~', behind @ ..] => Some((0, behind)),
        [byte, behind @ ..] => Some((*byte, behind)),
    }
}

/// The value of a hexadecimal digit.
fn digit(byte: u8) -> u8
    ensures value { result ≡ digit_value byte }
    ensures small { result < 16 }
{
    match byte {
        b'0'..=b'9' => byte - b'0',
        b'A'..=b'F' => byte - b'A' + 10,
        _ => 0,
    }
}

/// Adds bytes as such a text.
pub fn add_text(told: &mut String, bytes: &[u8]) -> Result<(), AllocError>
    ensures { OnOk result (string_bytes told.new ≡ string_bytes told.old ++ text_of_bytes bytes.now) }
{
    for byte in bytes {
        add_byte(told, *byte)?;
    }
    Ok(())
}

/// Adds one byte as such a text.
fn add_byte(told: &mut String, byte: u8) -> Result<(), AllocError>
    ensures { OnOk result (string_bytes told.new ≡ string_bytes told.old ++ text_of_byte byte) }
{
    match byte {
        0 => told.push('~')?,
        b' '..=b'$' | b'&'..=b'}' => told.push(char::from(byte))?,
        _ => {
            told.push('%')?;
            told.push(hexadecimal(byte / 16))?;
            told.push(hexadecimal(byte % 16))?;
        }
    }
    Ok(())
}

/// The hexadecimal digit of a number below 16.
fn hexadecimal(number: u8) -> char
    requires { number < 16 }
    ensures digit { result ≡ digit_of number }
    ensures ascii { result < 128 }
{
    if number < 10 {
        char::from(b'0' + number)
    } else {
        char::from(b'A' + (number - 10))
    }
}

/// The bytes as such a text.
pub fn text_of(alloc: Global, bytes: &[u8]) -> Result<String, AllocError>
    ensures { IfOk result (λ text. string_bytes text ≡ text_of_bytes bytes.now) }
{
    let mut told = String::new(alloc);
    add_text(&mut told, bytes)?;
    Ok(told)
}
