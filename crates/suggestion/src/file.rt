//! The words of a policy as a file has them.
ghost use Rattle.std.specs.Prelude.{◌≡◌, ◌++◌, IfOk, OnOk, string_bytes};
ghost use Rattle.suggestion.specs.Suggestion.{entry_words, file_of as file_text, file_word};

use policy_args::Policy;
use std::alloc::{AllocError, Global};

/// Puts a word of a policy file after others.
fn push_word(text: &mut String, word: &str) -> Result<(), AllocError>
    ensures { OnOk result (string_bytes text.new ≡ string_bytes text.old ++ file_word word.now) }
{
    text.push_str(word)?;
    text.push_str("\0")
}

/// Puts the words of a policy's entries after others.
fn push_entries(text: &mut String, policy: &Policy) -> Result<(), AllocError>
    ensures { OnOk result (string_bytes text.new ≡ string_bytes text.old ++ entry_words policy.now.entries) }
{
    for place in 0..policy.len() {
        push_word(text, policy.word(place + 1))?;
    }
    Ok(())
}

/// The policy file of a policy.
pub fn file_of(alloc: Global, policy: &Policy) -> Result<String, AllocError>
    ensures { IfOk result (λ text. string_bytes text ≡ file_text policy.now) }
{
    let mut text = String::new(alloc);
    push_word(&mut text, "--filter")?;
    push_entries(&mut text, policy)?;
    Ok(text)
}
