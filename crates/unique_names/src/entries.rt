//! The numbers of a name's entries, in order.
ghost use Rattle.std.specs.Prelude.{◌≡◌, ◌≤◌, ◌<◌, ◌+◌, ◌-◌, ◌∷◌, [], MatchOption, drop, length};
ghost use Rattle.std.specs.Iterator.{YieldsFirst};
ghost use Rattle.name_patterns.specs.Ranks.{elements};
ghost use Rattle.unique_names.specs.Merged.{first_known, lesser_of, merged_from, passed as passed_in};

use name_patterns::Steps;
use policy_args::Policy;
use std::marker::{Brand, Model};
use std::sync::ledger::{Blank, Ledger};

/// An iterator over the numbers of the entries that apply to a name, from 1, ascending and each once. Finding each
/// takes at most one look-up for each element of the name.
#[derive(Drop)]
pub struct Entries<'a> {
    policy: &'a Policy,
    name: &'a str,
    /// The number of the first entry that wasn't tested yet.
    number: u32,
    /// The known numbers from that number on.
    known: &'a [u32],
    /// Whether entries are tested, or the known numbers are all.
    looks: bool,
}

impl<'a> Model for Entries<'a> {
    ghost use Rattle.std.specs.Prelude.{◌≤◌, ◌-◌, drop, if◌then◌else◌};
    ghost use Rattle.unique_names.specs.Merged.{NameNumbers, merged_from};

    ghost Value = { NameNumbers };

    ghost view = { λ e. record { name = e.name.now; numbers = if e.looks then merged_from e.name.now e.number (drop (e.number - 1) e.policy.now.entries) e.known.now else e.known.now } };

    ghost invariant = { λ e. (1 ≤ e.number) × (e.number ≤ 65536) };
}

impl<'a> Entries<'a> {
    /// The known numbers, and those of the entries that cover the name.
    pub(crate) fn covering(policy: &'a Policy, name: &'a str, known: &'a [u32]) -> Entries<'a>
        ensures name { result.name ≡ name.entry.now }
        ensures numbers { result.numbers ≡ merged_from name.entry.now 1 policy.entry.now.entries known.entry.now }
    {
        Entries {
            policy,
            name,
            number: 1,
            known,
            looks: true,
        }
    }

    /// The known numbers only.
    pub(crate) fn known(policy: &'a Policy, name: &'a str, known: &'a [u32]) -> Entries<'a>
        ensures name { result.name ≡ name.entry.now }
        ensures numbers { result.numbers ≡ known.entry.now }
    {
        Entries {
            policy,
            name,
            number: 1,
            known,
            looks: false,
        }
    }
}

impl Entries<'_> {
    /// Does as `next` does, and counts the steps.
    pub fn next_counted<L: Ledger>(&mut self, steps: &mut Steps<L>) -> Option<u32>
        ensures gives { YieldsFirst (λ e. e.numbers) self.old result self.new }
        ensures name { self.new.name ≡ self.old.name }
        ensures cost { steps.new ≤ steps.old + elements self.old.name }
    {
        if !self.looks {
            let [first, rest @ ..] = self.known else {
                return None;
            };
            self.known = rest;
            return Some(*first);
        }
        let found = find(self.policy, self.name, self.number, self.known, steps)?;
        self.known = passed(found, self.known);
        self.number = found + 1;
        Some(found)
    }
}

impl Iterator for Entries<'_> {
    type Item = u32;

    ghost use Rattle.std.specs.Iterator.{YieldsFirst, item_count};

    ghost next_gives = { YieldsFirst (λ e. e.numbers) };

    ghost remaining = { item_count (λ e. e.numbers) };

    fn next(&mut self) -> Option<u32> {
        next_from::<Brand>(self, Blank::new(1))
    }
}

// Counts the steps in a ledger of its own.
fn next_from<L: Ledger>(entries: &mut Entries<'_>, blank: Blank) -> Option<u32>
    requires name { blank.name ≡ L.name }
    requires parts { blank.parts ≡ L.parts }
    requires some { 0 < blank.parts }
    ensures { YieldsFirst (λ e. e.numbers) entries.old result entries.new }
{
    let mut steps: Steps<L> = Steps::new(blank);
    entries.next_counted(&mut steps)
}

// The known numbers without the first, if that is this one.
fn passed(number: u32, known: &[u32]) -> &[u32]
    ensures { result.now ≡ passed_in number known.now }
{
    match known {
        [first, rest @ ..] if *first == number => rest,
        _ => known,
    }
}

// The lowest number, from a number on, that is known or whose entry covers the name.
fn find<L: Ledger>(
    policy: &Policy,
    name: &str,
    from: u32,
    known: &[u32],
    steps: &mut Steps<L>,
) -> Option<u32>
    requires low { 1 ≤ from }
    requires high { from ≤ 65536 }
    ensures found { MatchOption result (merged_from name.now from (drop (from - 1) policy.now.entries) known.now ≡ []) (λ n. merged_from name.now from (drop (from - 1) policy.now.entries) known.now ≡ n ∷ merged_from name.now (n + 1) (drop n policy.now.entries) (passed_in n known.now)) }
    ensures within { MatchOption result (from ≡ from) (λ n. (from ≤ n) × (n ≤ 65535)) }
    ensures cost { steps.new ≤ steps.old + elements name.now }
{
    let covering = policy.next_covering(name, from, steps);
    lesser(first_within(known, from, policy.len()), covering)
}

// The first of the known numbers, if it is between these two.
fn first_within(known: &[u32], from: u32, last: u32) -> Option<u32>
    ensures { result ≡ first_known known.now from last }
{
    match known {
        [first, ..] if from <= *first && *first <= last => Some(*first),
        _ => None,
    }
}

// The lower of two numbers, each of which may be absent.
fn lesser(left: Option<u32>, right: Option<u32>) -> Option<u32>
    ensures { result ≡ lesser_of left right }
{
    match (left, right) {
        (Some(left), Some(right)) => Some(left.min(right)),
        (left, None) => left,
        (None, right) => right,
    }
}
