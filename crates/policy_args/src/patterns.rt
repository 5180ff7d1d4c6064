//! The patterns of a policy's entries, each once.
ghost use Rattle.std.specs.Prelude.{◌≡◌, ◌<◌, true, IfOk, OnOk, OnErr, Some as Just, length, slice_get, string_bytes};
ghost use Rattle.name_patterns.specs.Patterns.{is_pattern};
ghost use Rattle.policy_args.specs.Distinct.{no_patterns, noted, pattern_key};

use indexmap::IndexSet;
use name_patterns::Pattern;
use std::alloc::{AllocError, Global};
use std::marker::Model;

// The patterns, in the order of their first entries: their keys, and the numbers of those entries.
#[derive(Drop)]
pub(crate) struct Patterns {
    keys: IndexSet<String>,
    firsts: Vec<u32>,
}

impl Model for Patterns {
    ghost use Rattle.std.specs.Prelude.{map, string_bytes};
    ghost use Rattle.policy_args.specs.Distinct.{Distinct};

    ghost Value = { Distinct };

    ghost view = { λ p. record { keys = map (λ k. string_bytes k) p.keys.keys; firsts = p.firsts.items } };
}

impl Patterns {
    // No patterns.
    pub(crate) fn new(alloc: Global) -> Patterns
        ensures { result ≡ no_patterns }
    {
        Patterns {
            keys: IndexSet::new(alloc),
            firsts: Vec::new(alloc),
        }
    }

    // The number of patterns.
    pub(crate) fn len(&self) -> usize
        ensures { result ≡ length self.now.firsts }
    {
        self.firsts.len()
    }

    // The number of the first entry that has the pattern at a place.
    pub(crate) fn first(&self, index: usize) -> u32
        requires { index < length self.now.firsts }
        ensures { slice_get self.now.firsts index ≡ Just result }
    {
        self.firsts[index]
    }

    // Adds the pattern of the entry with this number, unless it is there already.
    pub(crate) fn add(
        &mut self,
        alloc: Global,
        pattern: &Pattern,
        number: u32,
    ) -> Result<(), AllocError>
        ensures ok { OnOk result (self.new ≡ noted self.old (pattern_key pattern.now) number) }
        ensures grammar { OnOk result (is_pattern pattern.now ≡ true) }
        ensures err { OnErr result (self.new ≡ self.old) }
    {
        let key = key_of(alloc, pattern)?;
        self.firsts.reserve(1)?;
        if self.keys.insert(key)? {
            self.firsts.push_reserved(number);
        }
        Ok(())
    }
}

// A text that no other pattern has.
fn key_of(alloc: Global, pattern: &Pattern) -> Result<String, AllocError>
    ensures key { IfOk result (λ key. string_bytes key ≡ pattern_key pattern.now) }
    ensures grammar { OnOk result (is_pattern pattern.now ≡ true) }
{
    let mut key = String::from_str(alloc, if pattern.is_exact() { "=" } else { "*" })?;
    key.push_str(pattern.name())?;
    Ok(key)
}
