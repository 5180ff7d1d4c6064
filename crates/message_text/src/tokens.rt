//! The words of a text that is read: numbers and hexadecimal digits.
ghost use Rattle.std.specs.Prelude.{◌≡◌, ◌<◌, ◌≤◌, ◌^◌, option_map, IfSome, length};
ghost use Rattle.message_text.specs.Reading.{after as after_word, after_byte as after_one, digits_from, decimal_at, number_to, negative_at, signed_at, boolean_at, hex_value as value_of_hex, hex_at as byte_of_hex, number_at};
ghost use Rattle.message_text.specs.Seen.{number_seen, rest_seen};

use itoa::Buffer;

/// What follows the word that stands in front.
pub(crate) fn after<'a>(word: &[u8], text: &'a [u8]) -> Option<&'a [u8]>
    ensures { option_map rest_seen result ≡ after_word word.now text.now }
{
    if text.starts_with(word) {
        Some(&text[word.len()..])
    } else {
        None
    }
}

/// What follows a byte.
#[inline]
pub(crate) fn after_byte(byte: u8, text: &[u8]) -> Option<&[u8]>
    ensures { option_map rest_seen result ≡ after_one byte text.now }
{
    match text {
        [first, rest @ ..] if *first == byte => Some(rest),
        _ => None,
    }
}

/// The number of the digits in front, by its last 64 bits.
fn digits(text: &[u8]) -> u64
    ensures { result ≡ digits_from 0 text.now }
{
    let mut number: u64 = 0;
    let mut rest = text;
    while let [digit @ b'0'..=b'9', others @ ..] = rest {
        number = number.wrapping_mul(10).wrapping_add(u64::from(*digit % 16));
        rest = others;
    }
    number
}

/// A decimal number without leading zeros. A number is read if it is printed again as it stands, so that none is too
/// great.
pub(crate) fn decimal(text: &[u8]) -> Option<(u64, &[u8])>
    ensures { option_map number_seen result ≡ decimal_at text.now }
{
    let number = digits(text);
    let mut buffer = Buffer::new();
    let rest = after(buffer.format(number).as_bytes(), text)?;
    Some((number, rest))
}

/// A number of at most so much.
pub(crate) fn number_up_to(most: u64, text: &[u8]) -> Option<(u64, &[u8])>
    ensures read { option_map number_seen result ≡ number_to most text.now }
    ensures small { IfSome result (λ x. x.0 ≤ most) }
{
    let (number, rest) = decimal(text)?;
    if number <= most {
        Some((number, rest))
    } else {
        None
    }
}

/// A negative number after its sign: the greater half of the unsigned numbers represents those.
fn negative(half: u64, text: &[u8]) -> Option<(u64, &[u8])>
    requires { half ≤ 2 ^ 63 }
    ensures { option_map number_seen result ≡ negative_at half text.now }
{
    let (number, rest) = decimal(text)?;
    if number > 0 && number <= half {
        Some((half - number + half, rest))
    } else {
        None
    }
}

/// A number whose greater half represents the negative ones.
fn signed(half: u64, text: &[u8]) -> Option<(u64, &[u8])>
    requires high { half ≤ 2 ^ 63 }
    requires low { 0 < half }
    ensures { option_map number_seen result ≡ signed_at half text.now }
{
    match text {
        [] => None,
        [b'-', rest @ ..] => negative(half, rest),
        _ => number_up_to(half - 1, text),
    }
}

fn boolean(text: &[u8]) -> Option<(u64, &[u8])>
    ensures { option_map number_seen result ≡ boolean_at text.now }
{
    if text.starts_with(b"true") {
        return Some((1, &text[4..]));
    }
    let rest = after(b"false", text)?;
    Some((0, rest))
}

/// A number of the type with a code. A double isn't among them.
pub(crate) fn number(code: u8, text: &[u8]) -> Option<(u64, &[u8])>
    ensures { option_map number_seen result ≡ number_at code text.now }
{
    match code {
        b'b' => boolean(text),
        b'y' => number_up_to(0xff, text),
        b'n' => signed(1 << 15, text),
        b'q' => number_up_to(0xffff, text),
        b'i' => signed(1 << 31, text),
        b'u' | b'h' => number_up_to(0xffff_ffff, text),
        b'x' => signed(1 << 63, text),
        b't' => number_up_to(u64::MAX, text),
        _ => None,
    }
}

/// The value of a lower hexadecimal digit, or 16 of another byte.
#[inline]
fn hex_value(digit: u8) -> u8
    ensures value { result ≡ value_of_hex digit }
    ensures small { result ≤ 16 }
{
    match digit {
        b'0'..=b'9' => digit - b'0',
        b'a'..=b'f' => digit - b'a' + 10,
        _ => 16,
    }
}

/// A byte of two hexadecimal digits.
pub(crate) fn hex_byte(text: &[u8]) -> Option<(u8, &[u8])>
    ensures { option_map number_seen result ≡ byte_of_hex text.now }
{
    match text {
        [first, second, rest @ ..] => {
            let (high, low) = (hex_value(*first), hex_value(*second));
            if high < 16 && low < 16 {
                Some((high * 16 + low, rest))
            } else {
                None
            }
        }
        _ => None,
    }
}
