//! The words of a file.
ghost use Rattle.std.specs.Prelude.{◌≡◌, map, position, string_bytes};
ghost use Rattle.std.specs.List.{before_first, after_first};
ghost use Rattle.policy_args.specs.Gives.{Gives, StepGives};
ghost use Rattle.policy_args.specs.Steps.{is_nul, text_in};
ghost use Rattle.policy_args.specs.Words.{words_in};

use crate::WordKind;
use crate::refusals::{LineRefusal, WordRefusal};
use std::alloc::Global;
use std::str;

/// The words of a file: each ends at a NUL, which may be absent after the last one, so no bytes are no words
/// (xdg-dbus-proxy(1), `--args`).
///
/// The first word that isn't UTF-8 is an `UnknownOption` at its index, since no option is like that.
pub fn words_of(alloc: Global, bytes: &[u8]) -> Result<Vec<String>, LineRefusal>
    ensures { Gives (λ v. map (λ w. string_bytes w) v.items) result (words_in bytes.now) }
{
    let mut words = Vec::new(alloc);
    let mut rest = bytes;
    while !rest.is_empty() {
        let (word, after) = cut(rest);
        match text(alloc, word) {
            Ok(text) => words.push(text)?,
            Err(refusal) => return Err(refusal.at(words.len())),
        }
        rest = after;
    }
    Ok(words)
}

// The bytes before the first NUL, and those after it.
fn cut(bytes: &[u8]) -> (&[u8], &[u8])
    ensures word { result.0.now ≡ before_first is_nul bytes.now }
    ensures after { result.1.now ≡ after_first is_nul bytes.now }
{
    match first_nul(bytes) {
        Some(end) => (&bytes[..end], &bytes[end + 1..]),
        None => (bytes, &[]),
    }
}

fn first_nul(bytes: &[u8]) -> Option<usize>
    ensures { result ≡ position is_nul bytes.now }
{
    bytes.iter().position(|byte| *byte == 0)
}

// A word as text.
fn text(alloc: Global, word: &[u8]) -> Result<String, WordRefusal>
    ensures { StepGives (λ text. string_bytes text) result (text_in word.now) }
{
    match str::from_utf8(word) {
        Ok(text) => Ok(String::from_str(alloc, text)?),
        Err(_) => Err(WordRefusal::Bad(WordKind::UnknownOption)),
    }
}
