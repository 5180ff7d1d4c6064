//! The places of the patterns that cover a name.
ghost use Rattle.std.specs.Prelude.{◌≡◌, ◌++◌, List, [], length, option_map, ◌<◌, IfSome};
ghost use Rattle.name_patterns.specs.PatternIndex.{Indexes, places_below, prefixes, texts_left};
ghost use Rattle.name_patterns.specs.Ranks.{AreCovering, Ranked};

use crate::index::PatternIndex;
use std::marker::Model;

/// An iterator over the places of the patterns that cover a name, each once, in any order. Finding them takes one
/// look-up for each element of the name and one more, and no memory.
#[derive(Drop)]
pub struct Covering<'a> {
    index: &'a PatternIndex,
    // The places that were found and not returned yet.
    found: &'a [u32],
    // The text that is looked up next: the name, or its prefix before one of its dots.
    left: Option<&'a str>,
}

impl<'a> Model for Covering<'a> {
    ghost use Rattle.std.specs.Prelude.{ℕ, List, ◌++◌, option_map, ◌<◌, IfSome};
    ghost use Rattle.name_patterns.specs.PatternIndex.{places_below, texts_left};

    ghost Value = { List ℕ };

    ghost view = { λ c. c.found.now ++ places_below c.index.now (texts_left (option_map (λ t. t.now) c.left)) };
}

impl<'a> Covering<'a> {
    // The patterns of the index that cover the name.
    pub(crate) fn new(index: &'a PatternIndex, name: &'a str) -> Covering<'a>
        ensures { (added : List Ranked) → Indexes added index.entry.now → AreCovering added name.entry.now result }
    {
        Covering {
            index,
            found: index.exact_places(name),
            left: Some(name),
        }
    }
}

impl Iterator for Covering<'_> {
    type Item = u32;

    ghost use Rattle.std.specs.Iterator.{YieldsFirst, item_count};

    ghost next_gives = { YieldsFirst (λ s. s) };

    ghost remaining = { item_count (λ s. s) };

    fn next(&mut self) -> Option<u32> {
        let (found, left) = advance(self.index, self.found, self.left);
        let [first, rest @ ..] = found else {
            return None;
        };
        self.found = rest;
        self.left = left;
        Some(*first)
    }
}

// Looks up texts until places are found, or no text is left.
fn advance<'a>(
    index: &'a PatternIndex,
    mut found: &'a [u32],
    mut left: Option<&'a str>,
) -> (&'a [u32], Option<&'a str>)
    ensures same { result.0.now ++ places_below index.entry.now (texts_left (option_map (λ t. t.now) result.1)) ≡ found.entry.now ++ places_below index.entry.now (texts_left (option_map (λ t. t.now) left.entry)) }
    ensures all { result.0.now ≡ [] → texts_left (option_map (λ t. t.now) result.1) ≡ [] }
{
    while found.is_empty() {
        let Some(text) = left else {
            break;
        };
        found = index.subtree_places(text);
        left = before_last_dot(text);
    }
    (found, left)
}

// The text before the last dot.
fn before_last_dot(text: &str) -> Option<&str>
    ensures texts { texts_left (option_map (λ t. t.now) result) ≡ prefixes text.now }
    ensures shorter { IfSome result (λ t. length t.now < length text.now) }
{
    match text.rsplit_once('.') {
        Some((front, _)) => Some(front),
        None => None,
    }
}
