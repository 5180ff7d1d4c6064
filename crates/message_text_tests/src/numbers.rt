//! Numbers outside the range of their type, and spelled otherwise than in decimal without leading zeros.
use crate::rows::{Answer, answer_to, text_in};
use message_text::BadText;
use std::alloc::{AllocError, Global};
use std::test::Fail;
use test_tables::wrong_row;

/// A text with `*` in the place of a word, the words that are put there, `''` being an empty one, and the words with
/// which the text is read and with which it is NotValid. With all others it is Form. The last 64 bits of the numbers
/// above 2^64 are a number in range.
const WORDS: &str = "\
l 5 0 1|8 g \"y\"|body *| : 0 255 '' 256 1000 -1 -255 01 00 000 0255 \
    -0 +0 +1 1. 1.0 0x1 1e1 a 18446744073709551616 18446744073709551617 340282366920938463463374607431768211457 => \
    read: 0 255, NotValid:
l 5 0 1|8 g \"n\"|body *| : -32768 32767 '' -32769 32768 65535 -65535 01 -01 00 -00 -0 +0 +1 --1 - 1- -18446744073709551615 18446744073709551617 -18446744073709551617 => read: -32768 32767, NotValid:
l 5 0 1|8 g \"q\"|body *| : 0 65535 '' 65536 -1 -65535 01 00 -0 +1 18446744073709551617 => read: 0 65535, NotValid:
l 5 0 1|8 g \"i\"|body *| : -2147483648 2147483647 '' -2147483649 \
    2147483648 4294967295 01 -01 00 -00 -0 +0 +1 --1 - 18446744073709551617 -18446744073709551617 => \
    read: -2147483648 2147483647, NotValid:
l 5 0 1|8 g \"u\"|body *| : 0 4294967295 '' 4294967296 -1 01 00 -0 +1 18446744073709551617 => read: 0 4294967295, NotValid:
l 5 0 1|8 g \"x\"|body *| : -9223372036854775808 9223372036854775807 \
    '' -9223372036854775809 9223372036854775808 18446744073709551615 \
    -18446744073709551615 01 -01 00 -00 -0 +0 +1 --1 - 18446744073709551617 -18446744073709551617 => \
    read: -9223372036854775808 9223372036854775807, NotValid:
l 5 0 1|8 g \"t\"|body *| : 0 18446744073709551615 '' 18446744073709551616 18446744073709551617 99999999999999999999 184467440737095516150 -1 01 00 -0 +1 => read: 0 18446744073709551615, NotValid:
l 5 0 1|8 g \"h\"|body *| : 0 4294967295 '' 4294967296 -1 01 00 -0 +1 18446744073709551617 => read: 0 4294967295, NotValid:
l 5 0 1|8 g \"b\"|body *| : true false '' 0 1 2 True TRUE FALSE t f tru truefalse trues \"true\" yes => read: true false, NotValid:
l 5 0 1|8 g \"d\"|body *| : 0x0123456789abcdef '' 0x0123456789ABCDEF \
    0X0123456789abcdef 0123456789abcdef 0x0123456789abcde 0x0123456789abcdeff \
    0x0123456789abcdeg 0x 0 1 1.5 -1 nan inf 0x01234567_9abcdef => read: 0x0123456789abcdef, NotValid:
l * 0 1|1 o \"/\"|2 s \"a.b\"|3 s \"C\"|4 s \"a.b\"|5 u 1|body| : '' 0 1 2 3 4 5 255 256 01 00 -0 -1 +1 18446744073709551617 18446744073709551616 => read: 1 2 3 4 5 255, NotValid: 0
l 5 * 1|body| : '' 0 1 255 256 00 01 -0 -1 +1 18446744073709551616 => read: 0 1 255, NotValid:
l 5 0 *|body| : '' 0 1 4294967295 4294967296 4294967297 00 01 -0 -1 +1 0x1 18446744073709551617 => read: 1 4294967295, NotValid: 0
l 5 0 1|* y 1|body| : '' 0 10 255 256 266 010 -10 +10 0x10 18446744073709551626 => read: 10 255, NotValid: 0
";

/// What reading a text with a word in it answers.
fn answer_to_word(
    alloc: Global,
    before: &str,
    word: &str,
    after: &str,
) -> Result<Answer, AllocError> {
    let word = if word == "''" { "" } else { word };
    let row = format!(in alloc; "{before}{word}{after}")?;
    answer_to(alloc, &text_in(alloc, &row)?)
}

/// The words of a row with which its text is read and with which it is NotValid.
fn told_with_words(alloc: Global, row: &str) -> Result<String, AllocError> {
    let (text, words) = row.split_once(" : ").unwrap_or((row, ""));
    let (before, after) = text.split_once('*').unwrap_or((text, ""));
    let mut read = String::new(alloc);
    let mut not_valid = String::new(alloc);
    for word in words.split(' ') {
        let told_word = format!(in alloc; " {word}")?;
        match answer_to_word(alloc, before, word, after)? {
            Answer::Read(_) => read.push_str(&told_word)?,
            Answer::PrintedOtherwise => read.push_str(" printed otherwise")?,
            Answer::Refused(BadText::NotValid) => not_valid.push_str(&told_word)?,
            Answer::Refused(BadText::Form) => (),
        }
    }
    format!(in alloc; "read:{read}, NotValid:{not_valid}")
}

#[test]
fn numbers_have_one_spelling_and_the_range_of_their_type(rt: HostRuntime) -> Result<(), Fail> {
    assert_eq!(rt; wrong_row(rt.alloc(), WORDS, &told_with_words)?, None);
    Ok(())
}
