//! The words of the least policy that permits requests.
ghost use Rattle.std.specs.Prelude.{◌≡◌, ◌++◌, ◌∷◌, IfOk, OnOk, codes, map, string_bytes};
ghost use Rattle.policy_args.specs.Policy.{entry_word};
ghost use Rattle.policy_suggest.specs.Facts.{word_by};
ghost use Rattle.policy_suggest.specs.Seen.{target_seen};
ghost use Rattle.policy_suggest.specs.Suggest.{rule_for, suggested};

use crate::facts::Facts;
use crate::targets::{Target, Targets};
use policy_args::Asked;
use std::alloc::{AllocError, Global};

// The words of the suggested policy's entries, in their order.
pub(crate) fn suggested_words(alloc: Global, asked: &[Asked]) -> Result<Vec<String>, AllocError>
    ensures { IfOk result (λ words. map (λ w. string_bytes w) words.items ≡ map entry_word (suggested asked.now).entries) }
{
    let facts = Facts::of(alloc, asked)?;
    let targets = facts.targets(alloc, asked)?;
    words_of(alloc, &facts, &targets)
}

// The words of the entries for the targets.
fn words_of<'a>(
    alloc: Global,
    facts: &Facts<'a>,
    targets: &Targets<'a>,
) -> Result<Vec<String>, AllocError>
    ensures { IfOk result (λ words. map (λ w. string_bytes w) words.items ≡ map (word_by facts.now) targets.now) }
{
    let mut words = Vec::new(alloc);
    for target in targets.iter() {
        words.push(facts.word(alloc, *target)?)?;
    }
    Ok(words)
}

// Puts an option with a name after a text.
pub(crate) fn push_name_word(text: &mut String, option: &str, name: &str) -> Result<(), AllocError>
    ensures { OnOk result (string_bytes text.new ≡ string_bytes text.old ++ option.now ++ name.now) }
{
    text.push_str(option)?;
    text.push_str(name)
}

// Puts the word of a Call entry after a text.
pub(crate) fn push_call_word(text: &mut String, target: Target<'_>) -> Result<(), AllocError>
    ensures { OnOk result (string_bytes text.new ≡ string_bytes text.old ++ codes "--call=" ++ target.entry.name.now ++ 61 ∷ (rule_for (target_seen target.entry)).text) }
{
    push_name_word(text, "--call=", target.name)?;
    text.push_str("=")?;
    if !target.interface.is_empty() {
        text.push_str(target.interface)?;
        text.push_str(".")?;
        text.push_str(target.member)?;
    }
    text.push_str("@")?;
    text.push_str(target.path)
}
