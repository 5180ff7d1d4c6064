//! Patterns with ranks, found by their names.
ghost use Rattle.std.specs.Prelude.{◌≡◌, ◌+◌, ◌≤◌, ◌<◌, ℕ, max, nat_lt, List, ◌∷◌, ◌++◌, [], Some, None, IsSome, OnOk, OnErr, length};
ghost use Rattle.std.specs.HashMap.{get_by_text};
ghost use Rattle.std.specs.List.{list_any};
ghost use Rattle.std.specs.List.Sorted.{IsPartitionedBy};
ghost use Rattle.name_patterns.specs.PatternIndex.{HasRoom, Indexes, first_from as first_in_list, has_room, kept_at, kept_in, lesser, raised, with_place};
ghost use Rattle.name_patterns.specs.Ranks.{AreCovering, Ranked, covers_name, elements, greatest as greatest_of, greatest_rank, is_exact_for, is_subtree_of, next_place};

use crate::Pattern;
use crate::covering::Covering;
use std::alloc::{AllocError, Global};
use std::collections::HashMap;
use std::marker::Model;
use std::sync::ledger::{Blank, Book, Ledger, Share};

/// The number of counted steps. A step is one look-up of a name in a `PatternIndex`, or what the holder of the count
/// adds as one: the look-up of another key, or the test of an entry. It takes no bytes.
#[derive(Drop)]
pub struct Steps<L: Ledger> {
    book: Book<L>,
    share: Share<L>,
}

impl<L: Ledger> Model for Steps<L> {
    ghost use Rattle.std.specs.Prelude.{ℕ, ◌<◌};

    ghost Value = { ℕ };

    ghost view = { λ s. s.book.total };

    ghost invariant = { λ s. 0 < s.share.parts };
}

impl<L: Ledger> Steps<L> {
    /// No steps yet. They are counted in the ledger of a blank that has a part, such as `Blank::new(1)`.
    pub fn new(blank: Blank) -> Steps<L>
        requires name { blank.name ≡ L.name }
        requires parts { blank.parts ≡ L.parts }
        requires some { 0 < blank.parts }
        ensures { result ≡ 0 }
    {
        let (book, share) = blank.open();
        Steps { book, share }
    }

    /// Counts one step. This does nothing at run time.
    pub fn tick(&mut self)
        ensures { self.new ≡ self.old + 1 }
    {
        self.book.add(&mut self.share, 1);
    }
}

// The greatest ranks of the patterns with one name.
#[derive(Clone, Copy, Drop)]
struct NameRanks {
    // That of the pattern that is exactly the name.
    exact: u8,
    // That of `NAME.*`.
    subtree: u8,
}

const NO_RANKS: NameRanks = NameRanks {
    exact: 0,
    subtree: 0,
};

// The greatest ranks of the patterns with one name, and the places of these patterns, ascending.
#[derive(Drop)]
struct NameEntries {
    ranks: NameRanks,
    // Those of the patterns that are exactly the name.
    exact: Vec<u32>,
    // Those of `NAME.*`.
    subtree: Vec<u32>,
}

/// Patterns with ranks, by their names. The patterns that cover a name are found by one look-up for each of its
/// elements, without a pass over the patterns.
///
/// A rank says how much a pattern gives to the names that it covers. The greatest counts, and 0 is nothing. The place
/// of a pattern is its number in the order in which the patterns were added, from 1.
#[derive(Drop)]
pub struct PatternIndex {
    by_name: HashMap<String, NameEntries>,
}

impl PatternIndex {
    /// An index without patterns.
    pub fn new(alloc: Global) -> PatternIndex
        ensures { Indexes [] result }
    {
        PatternIndex {
            by_name: HashMap::new(alloc),
        }
    }

    /// The greatest rank of the patterns that cover the name (xdg-dbus-proxy(1), "Filtering"), or 0 if there is none.
    ///
    /// This takes one look-up for each element of the name.
    pub fn greatest<L: Ledger>(&self, name: &str, steps: &mut Steps<L>) -> u8
        ensures rank { (added : List Ranked) → Indexes added self.now → result ≡ greatest_rank added name.now }
        ensures cost { steps.new ≡ steps.old + elements name.now }
    {
        let whole = self.look_up(name, steps);
        let mut rank = greater(whole.exact, whole.subtree);
        let mut rest = name;
        while let Some((front, _)) = rest.rsplit_once('.') {
            rank = greater(rank, self.look_up(front, steps).subtree);
            rest = front;
        }
        rank
    }

    /// The greatest rank of the patterns that are exactly the name, or 0 if there is none. This takes one look-up.
    pub fn exact<L: Ledger>(&self, name: &str, steps: &mut Steps<L>) -> u8
        ensures rank { (added : List Ranked) → Indexes added self.now → result ≡ greatest_of (is_exact_for name.now) added }
        ensures cost { steps.new ≡ steps.old + 1 }
    {
        self.look_up(name, steps).exact
    }

    /// The greatest rank of the patterns `FRONT.*`, or 0 if there is none. This takes one look-up.
    pub fn below<L: Ledger>(&self, front: &str, steps: &mut Steps<L>) -> u8
        ensures rank { (added : List Ranked) → Indexes added self.now → result ≡ greatest_of (is_subtree_of front.now) added }
        ensures cost { steps.new ≡ steps.old + 1 }
    {
        self.look_up(front, steps).subtree
    }

    /// Whether a pattern is exactly the name.
    pub fn is_named(&self, name: &str) -> bool
        ensures { (added : List Ranked) → Indexes added self.now → result ≡ list_any (is_exact_for name.now) added }
    {
        !self.exact_places(name).is_empty()
    }

    /// The lowest place, at least `from`, of a pattern that covers the name (xdg-dbus-proxy(1), "Filtering").
    ///
    /// This takes one look-up for each element of the name, a binary search in what each finds, and no memory.
    pub fn next_covering<L: Ledger>(
        &self,
        name: &str,
        from: u32,
        steps: &mut Steps<L>,
    ) -> Option<u32>
        requires { 1 ≤ from }
        ensures next { (added : List Ranked) → Indexes added self.now → result ≡ next_place (covers_name name.now) from added }
        ensures cost { steps.new ≡ steps.old + elements name.now }
    {
        let mut next = self.next_named(name, from, steps);
        let mut left = name;
        while let Some((front, _)) = left.rsplit_once('.') {
            next = earlier(next, self.next_below(front, from, steps));
            left = front;
        }
        next
    }

    /// The places of all patterns that cover the name, each once, in any order. It allocates nothing.
    pub fn covering<'a>(&'a self, name: &'a str) -> Covering<'a>
        ensures { (added : List Ranked) → Indexes added self.entry.now → AreCovering added name.entry.now result }
    {
        Covering::new(self, name)
    }

    /// Makes room for the pattern, so that `add_reserved` can take it. It adds nothing.
    pub fn make_room(&mut self, alloc: Global, pattern: &Pattern) -> Result<(), AllocError>
        ensures room { OnOk result (HasRoom self.new pattern.now) }
        ensures same { (added : List Ranked) → Indexes added self.old → Indexes added self.new }
    {
        self.add_name(alloc, pattern.name())?;
        match self.by_name.get_mut(pattern.name()) {
            Some(entries) => entries.reserve(pattern.is_exact()),
            None => unreachable!(),
        }
    }

    /// Adds a pattern for which `make_room` has made room, with its rank, at the next place.
    pub fn add_reserved(&mut self, pattern: &Pattern, rank: u8, place: u32)
        requires { HasRoom self.old pattern.now }
        ensures { (added : List Ranked) → Indexes added self.old → place ≡ length added + 1 → Indexes (added ++ (pattern.now, rank) ∷ []) self.new }
    {
        match self.by_name.get_mut(pattern.name()) {
            Some(entries) => entries.add(pattern.is_exact(), rank, place),
            None => unreachable!(),
        }
    }

    /// Adds a pattern with its rank, at the next place. If memory runs out, nothing is added.
    pub fn add(
        &mut self,
        alloc: Global,
        pattern: &Pattern,
        rank: u8,
        place: u32,
    ) -> Result<(), AllocError>
        ensures ok { OnOk result ((added : List Ranked) → Indexes added self.old → place ≡ length added + 1 → Indexes (added ++ (pattern.now, rank) ∷ []) self.new) }
        ensures err { OnErr result ((added : List Ranked) → Indexes added self.old → Indexes added self.new) }
    {
        self.make_room(alloc, pattern)?;
        self.add_reserved(pattern, rank, place);
        Ok(())
    }

    // The places of the patterns that are exactly the name.
    pub(crate) fn exact_places(&self, name: &str) -> &[u32]
        ensures { result.now ≡ (kept_at self.now name.now).exact }
    {
        match self.by_name.get(name) {
            Some(entries) => &entries.exact,
            None => &[],
        }
    }

    // The places of the patterns `NAME.*`.
    pub(crate) fn subtree_places(&self, name: &str) -> &[u32]
        ensures { result.now ≡ (kept_at self.now name.now).subtree }
    {
        match self.by_name.get(name) {
            Some(entries) => &entries.subtree,
            None => &[],
        }
    }

    // Looks a name up, which is one step.
    fn look_up<L: Ledger>(&self, name: &str, steps: &mut Steps<L>) -> NameRanks
        ensures ranks { result ≡ (kept_at self.now name.now).ranks }
        ensures cost { steps.new ≡ steps.old + 1 }
    {
        steps.tick();
        match self.by_name.get(name) {
            Some(entries) => entries.ranks,
            None => NO_RANKS,
        }
    }

    // The lowest place, at least `from`, of a pattern with the name, found in one step.
    fn next_named<L: Ledger>(&self, name: &str, from: u32, steps: &mut Steps<L>) -> Option<u32>
        requires { 1 ≤ from }
        ensures next { (added : List Ranked) → Indexes added self.now → result ≡ lesser (next_place (is_exact_for name.now) from added) (next_place (is_subtree_of name.now) from added) }
        ensures cost { steps.new ≡ steps.old + 1 }
    {
        steps.tick();
        match self.by_name.get(name) {
            Some(entries) => earlier(
                first_from(&entries.exact, from),
                first_from(&entries.subtree, from),
            ),
            None => None,
        }
    }

    // The lowest place, at least `from`, of a pattern `FRONT.*`, found in one step.
    fn next_below<L: Ledger>(&self, front: &str, from: u32, steps: &mut Steps<L>) -> Option<u32>
        requires { 1 ≤ from }
        ensures next { (added : List Ranked) → Indexes added self.now → result ≡ next_place (is_subtree_of front.now) from added }
        ensures cost { steps.new ≡ steps.old + 1 }
    {
        steps.tick();
        first_from(self.subtree_places(front), from)
    }

    // Adds a name without patterns, if it isn't there.
    fn add_name(&mut self, alloc: Global, name: &str) -> Result<(), AllocError>
        ensures room { OnOk result (IsSome (get_by_text self.new.by_name name.now)) }
        ensures same { (added : List Ranked) → Indexes added self.old → Indexes added self.new }
    {
        if self.by_name.contains_key(name) {
            return Ok(());
        }
        let key = String::from_str(alloc, name)?;
        self.by_name.insert(key, NameEntries::new(alloc))?;
        Ok(())
    }
}

impl NameEntries {
    // No patterns.
    fn new(alloc: Global) -> NameEntries
        ensures { kept_in (Some result) ≡ kept_in None }
    {
        NameEntries {
            ranks: NO_RANKS,
            exact: Vec::new(alloc),
            subtree: Vec::new(alloc),
        }
    }

    // Makes room for the place of one more pattern.
    fn reserve(&mut self, exact: bool) -> Result<(), AllocError>
        ensures room { OnOk result (has_room exact (Some self.new)) }
        ensures same { kept_in (Some self.new) ≡ kept_in (Some self.old) }
    {
        if exact {
            self.exact.reserve(1)
        } else {
            self.subtree.reserve(1)
        }
    }

    // Adds one more pattern.
    fn add(&mut self, exact: bool, rank: u8, place: u32)
        requires { has_room exact (Some self.old) }
        ensures { kept_in (Some self.new) ≡ with_place exact rank place (kept_in (Some self.old)) }
    {
        self.ranks = self.ranks.raise(exact, rank);
        if exact {
            self.exact.push_reserved(place);
        } else {
            self.subtree.push_reserved(place);
        }
    }
}

impl NameRanks {
    // The ranks with that of one more pattern.
    fn raise(self, exact: bool, rank: u8) -> NameRanks
        ensures { result ≡ raised exact rank self }
    {
        if exact {
            NameRanks {
                exact: greater(self.exact, rank),
                subtree: self.subtree,
            }
        } else {
            NameRanks {
                exact: self.exact,
                subtree: greater(self.subtree, rank),
            }
        }
    }
}

fn greater(a: u8, b: u8) -> u8
    ensures { result ≡ max a b }
{
    a.max(b)
}

// The lower of two places, either of which may be absent.
fn earlier(a: Option<u32>, b: Option<u32>) -> Option<u32>
    ensures { result ≡ lesser a b }
{
    match (a, b) {
        (Some(first), Some(second)) => Some(first.min(second)),
        (Some(first), None) => Some(first),
        (None, second) => second,
    }
}

// The first of ascending places that is at least `from`.
fn first_from(places: &[u32], from: u32) -> Option<u32>
    ensures { IsPartitionedBy (λ place. nat_lt place from) places.now → result ≡ first_in_list from places.now }
{
    let at = places.partition_point(|place| *place < from);
    places.get(at).copied()
}
