//! The words that a process was started with.
ghost use Rattle.std.specs.Prelude.{◌≡◌, ℕ, List, Option, None, option_map, string_bytes, slice_get, drop, IfOk, IfErr, IfSome};
ghost use Rattle.std.specs.Str.{IsUtf8};
ghost use Rattle.link_traits.specs.Texts.{texts_of};
ghost use Rattle.process_streams.specs.Words.{Explains};

use crate::faults::ProcessFault;
use std::alloc::{AllocError, Global};
use std::env::{Env, FillError};

/// The room for a word that is tried first, in bytes.
const FIRST_ROOM: usize = 256;

/// The words that a process was started with. The program's name is the one at index 0.
pub trait Arguments {
    /// The words, if they are known.
    ghost told: { Self → Option (List (List ℕ)) };

    /// The bytes of the word at an index. `None` after the last word.
    fn word(&self, alloc: Global, index: usize) -> Result<Option<Vec<u8>>, AllocError>
        ensures { IfOk result (λ word. IfSome (told self.now) (λ words. option_map (λ w. w.items) word ≡ slice_get words index)) };
}

/// The words after the program's name.
pub fn words_of_process<A: Arguments>(
    alloc: Global,
    arguments: &A,
) -> Result<Vec<String>, ProcessFault>
    ensures ok { IfOk result (λ texts. IfSome (A.told arguments.now) (λ words. texts_of texts.items ≡ drop 1 words)) }
    ensures err { IfErr result (λ fault. IfSome (A.told arguments.now) (λ words. Explains (drop 1 words) fault)) }
{
    let mut texts = Vec::new(alloc);
    for index in 1..usize::MAX {
        let bytes = match arguments.word(alloc, index) {
            Ok(Some(bytes)) => bytes,
            Ok(None) => return Ok(texts),
            Err(_) => return Err(ProcessFault::Memory),
        };
        let Some(text) = text_of(bytes) else {
            return Err(ProcessFault::NotText { before: texts });
        };
        if texts.push(text).is_err() {
            return Err(ProcessFault::Memory);
        }
    }
    Err(ProcessFault::Memory)
}

/// The text of these bytes, if they are UTF-8.
fn text_of(bytes: Vec<u8>) -> Option<String>
    ensures some { IfSome result (λ text. string_bytes text ≡ bytes.items) }
    ensures none { result ≡ None → ¬ (IsUtf8 bytes.items) }
{
    String::from_utf8(bytes).ok()
}

/// The words that this process was started with.
#[derive(Clone, Copy)]
pub struct ProcessArguments<'a, E: Env> {
    env: &'a E,
}

impl<'a, E: Env> ProcessArguments<'a, E> {
    /// The words that the runtime gives.
    pub fn new(env: &'a E) -> ProcessArguments<'a, E> {
        ProcessArguments { env }
    }
}

impl<'a, E: Env> Arguments for ProcessArguments<'a, E> {
    ghost use Rattle.std.specs.Prelude.{None};

    ghost told = { λ _. None };

    fn word(&self, alloc: Global, index: usize) -> Result<Option<Vec<u8>>, AllocError> {
        let mut room = FIRST_ROOM;
        for _ in 0..usize::BITS {
            let mut bytes = vec![in alloc; 0; room]?;
            match self.env.arg(index, &mut bytes) {
                Ok(length) => {
                    bytes.truncate(length);
                    return Ok(Some(bytes));
                }
                Err(FillError::NotPresent) => return Ok(None),
                Err(FillError::TooLong) => room = room.saturating_mul(2),
            }
        }
        Err(AllocError)
    }
}
