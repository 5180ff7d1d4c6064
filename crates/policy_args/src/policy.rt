//! A policy: the entries that were given by words.
ghost use Rattle.std.specs.Prelude.{◌≡◌, ◌≤◌, ◌<◌, ◌+◌, ◌-◌, ◌==◌, ◌&&◌, ℕ, true, false, List, Some as Just, [], bytes_eq, length, option_map, slice_get, if◌then◌else◌, IfSome, OnErr};
ghost use Rattle.std.specs.List.{list_all, list_any};
ghost use Rattle.dbus_names.specs.Names.{is_bus as is_bus_name, is_unique};
ghost use Rattle.name_patterns.specs.Patterns.{covers, is_pattern};
ghost use Rattle.name_patterns.specs.Ranks.{elements};
ghost use Rattle.policy_args.specs.Covering.{AreCovering, next_covering as next_covering_of};
ghost use Rattle.policy_args.specs.Gives.{StepGives};
ghost use Rattle.policy_args.specs.Policy.{entry_word, granted as granted_by, greater, level, patterns_of, policy_of};
ghost use Rattle.policy_args.specs.Requests.{asked_name, has_entry, permits, rule_matches};
ghost use Rattle.policy_args.specs.Steps.{with_one_more};
ghost use Rattle.policy_args.specs.declared.Level.TheVariants.{Talk};

use crate::entry::Entry;
use crate::patterns::Patterns;
use crate::refusals::WordRefusal;
use crate::requests::Asked;
use crate::{Level, WordKind};
use dbus_names::is_bus;
use indexmap::IndexSet;
use name_patterns::{Covering, Pattern, PatternIndex, Steps};
use std::alloc::Global;
use std::marker::{Brand, Model};
use std::sync::ledger::{Blank, Ledger};

/// The maximum number of entries of a policy.
const MOST_ENTRIES: usize = 65_535;

/// The maximum number of entries that are tried one by one for a name. With more, the index is quicker, which hashes
/// the name and its prefixes before each dot.
const FEW_ENTRIES: usize = 16;

/// What the options allow: entries, each once, in the order of their first words (xdg-dbus-proxy(1), "Filtering").
pub struct Policy {
    // The words that gave the entries, in the same order.
    words: IndexSet<String>,
    entries: Vec<Entry>,
    patterns: Patterns,
    index: PatternIndex,
    sloppy: bool,
    known_fields: bool,
    start_called: bool,
}

// Its drop is a call, so that a function that drops one is short to prove.
impl Drop for Policy {
    fn drop(self) {
        let Policy {
            words: _words,
            entries: _entries,
            patterns: _patterns,
            index: _index,
            sloppy: _sloppy,
            known_fields: _known_fields,
            start_called: _start_called,
        } = self;
    }
}

impl Model for Policy {
    ghost use Rattle.std.specs.Prelude.{◌≡◌, ◌≤◌, map, length, string_bytes};
    ghost use Rattle.std.specs.Prelude.{true};
    ghost use Rattle.std.specs.List.{list_all};
    ghost use Rattle.name_patterns.specs.Patterns.{is_pattern};
    ghost use Rattle.policy_args.specs.Distinct.{AreOf};
    ghost use Rattle.name_patterns.specs.PatternIndex.{Indexes};
    ghost use Rattle.policy_args.specs.EntryRanks.{ranked};
    ghost use Rattle.policy_args.specs.Policy.{Policy as PolicyValue, entry_word, policy_with};

    ghost Value = { PolicyValue };

    ghost view = { λ p. policy_with p.entries.items p.sloppy p.known_fields p.start_called };

    ghost invariant = { λ p. (map (λ k. string_bytes k) p.words.keys ≡ map entry_word p.entries.items) × (length p.entries.items ≤ 65535) × (AreOf p.entries.items p.patterns) × (list_all (λ e. is_pattern e.pattern) p.entries.items ≡ true) × (Indexes (ranked p.entries.items) p.index) };
}

impl Policy {
    /// The policy without entries: only the bus itself may be talked to.
    pub fn new(alloc: Global) -> Policy
        ensures { result ≡ policy_of [] }
    {
        Policy {
            words: IndexSet::new(alloc),
            entries: Vec::new(alloc),
            patterns: Patterns::new(alloc),
            index: PatternIndex::new(alloc),
            sloppy: false,
            known_fields: false,
            start_called: false,
        }
    }

    /// Whether owner changes of all unique names are shown (xdg-dbus-proxy(1), "--sloppy-names").
    pub fn sloppy(&self) -> bool
        ensures { result ≡ self.now.sloppy }
    {
        self.sloppy
    }

    /// Whether a message of the client that has a header field with a code above 9 is refused. The D-Bus Specification
    /// ("Message Format", "Header Fields") names no such field, and a bus may pass it on to others unread.
    pub fn known_fields(&self) -> bool
        ensures { result ≡ self.now.known_fields }
    {
        self.known_fields
    }

    /// Whether a name at See that a Call entry covers may be started by StartServiceByName. A client that uses GLib
    /// starts the service of the name that it wants to call, and gives up if that is refused.
    pub fn start_called(&self) -> bool
        ensures { result ≡ self.now.start_called }
    {
        self.start_called
    }

    // Shows owner changes of all unique names from now on.
    pub(crate) fn set_sloppy(&mut self)
        ensures { self.new ≡ record self.old { sloppy = true } }
    {
        self.sloppy = true;
    }

    // Refuses header fields of unknown codes from now on.
    pub(crate) fn set_known_fields(&mut self)
        ensures { self.new ≡ record self.old { known_fields = true } }
    {
        self.known_fields = true;
    }

    // Lets names that may be called be started, from now on.
    pub(crate) fn set_start_called(&mut self)
        ensures { self.new ≡ record self.old { start_called = true } }
    {
        self.start_called = true;
    }

    // Sets what a block's first options ask for.
    pub(crate) fn set_first(&mut self, sloppy: bool, known_fields: bool, start_called: bool)
        ensures { self.new ≡ record self.old { sloppy = sloppy; known_fields = known_fields; start_called = start_called } }
    {
        self.sloppy = sloppy;
        self.known_fields = known_fields;
        self.start_called = start_called;
    }

    /// The number of entries, at most 65,535.
    pub fn len(&self) -> u32
        ensures count { result ≡ length self.now.entries }
        ensures most { result ≤ 65535 }
    {
        self.entries.len() as u32
    }

    /// Whether the policy has no entry.
    pub fn is_empty(&self) -> bool
        ensures { result ≡ (length self.now.entries == 0) }
    {
        self.entries.is_empty()
    }

    /// The entry with a number, from 1 to `len`.
    pub fn entry(&self, number: u32) -> &Entry
        requires first { 1 ≤ number }
        requires last { number ≤ length self.now.entries }
        ensures { slice_get self.now.entries (number - 1) ≡ Just result.now }
    {
        &self.entries[number as usize - 1]
    }

    /// The word of the entry with a number, from 1 to `len`.
    pub fn word(&self, number: u32) -> &str
        requires first { 1 ≤ number }
        requires last { number ≤ length self.now.entries }
        ensures { option_map entry_word (slice_get self.now.entries (number - 1)) ≡ Just result.now }
    {
        match self.words.get_index(number as usize - 1) {
            Some(word) => word.as_str(),
            None => unreachable!(),
        }
    }

    /// The number of patterns of the entries, each counted once.
    pub fn pattern_count(&self) -> u32
        ensures { result ≡ length (patterns_of self.now.entries) }
    {
        self.patterns.len() as u32
    }

    /// The pattern with a number, from 1 to their count, in the order of their first entries.
    pub fn pattern(&self, number: u32) -> &Pattern
        requires first { 1 ≤ number }
        requires last { number ≤ length (patterns_of self.now.entries) }
        ensures { slice_get (patterns_of self.now.entries) (number - 1) ≡ Just result.now }
    {
        let first = self.patterns.first(number as usize - 1);
        &self.entries[first as usize - 1].pattern
    }

    /// How far a name may be used: the greatest level that an entry gives it, and at least `Talk` for the bus itself,
    /// `org.freedesktop.DBus` (xdg-dbus-proxy(1), "Filtering").
    pub fn level(&self, name: &str) -> Level
        ensures { result ≡ level self.now name.now }
    {
        with_bus(name, self.granted_uncounted(name))
    }

    /// Does as `level` does and counts the steps. A step is one look-up in the index, and at most k + 1 are counted for
    /// a name of k elements.
    pub fn level_counted<L: Ledger>(&self, name: &str, steps: &mut Steps<L>) -> Level
        ensures level { result ≡ level self.now name.now }
        ensures cost { steps.new ≤ steps.old + elements name.now + 1 }
    {
        with_bus(name, self.granted(name, steps))
    }

    /// Whether an entry covers the name.
    pub fn covers(&self, name: &str) -> bool
        ensures { result ≡ list_any (λ e. covers e.pattern name.now) self.now.entries }
    {
        self.granted_uncounted(name).is_at_least(Level::See)
    }

    /// The lowest number, from `from` on, of an entry that covers the name. This takes at most one look-up in the index
    /// for each element of the name.
    pub fn next_covering<L: Ledger>(
        &self,
        name: &str,
        from: u32,
        steps: &mut Steps<L>,
    ) -> Option<u32>
        requires { 1 ≤ from }
        ensures next { result ≡ next_covering_of self.now.entries name.now from }
        ensures most { IfSome result (λ number. number ≤ 65535) }
        ensures cost { steps.new ≤ steps.old + elements name.now }
    {
        if self.entries.len() <= FEW_ENTRIES {
            self.next_in_pass(name, from)
        } else {
            self.index.next_covering(name, from, steps)
        }
    }

    // The lowest number, from `from` on, of an entry that covers the name, found by a pass over the entries.
    fn next_in_pass(&self, name: &str, from: u32) -> Option<u32>
        requires { 1 ≤ from }
        ensures next { result ≡ next_covering_of self.now.entries name.now from }
        ensures most { IfSome result (λ number. number ≤ 65535) }
    {
        for index in from - 1..self.len() {
            let number = index + 1;
            if self.entry(number).pattern.covers(name) {
                return Some(number);
            }
        }
        None
    }

    /// Whether an entry names exactly this name, without the names below it.
    pub fn names(&self, name: &str) -> bool
        ensures { result ≡ list_any (λ e. e.pattern.exact && bytes_eq e.pattern.name name.now) self.now.entries }
    {
        self.index.is_named(name)
    }

    // The greatest level that a covering entry gives the name.
    fn granted<L: Ledger>(&self, name: &str, steps: &mut Steps<L>) -> Level
        ensures level { result ≡ granted_by self.now.entries name.now }
        ensures cost { steps.new ≤ steps.old + elements name.now }
    {
        if self.entries.len() <= FEW_ENTRIES {
            self.granted_in_pass(name)
        } else {
            Level::of_rank(self.index.greatest(name, steps))
        }
    }

    // The greatest level that a covering entry gives the name, for a caller that counts no steps.
    fn granted_uncounted(&self, name: &str) -> Level
        ensures { result ≡ granted_by self.now.entries name.now }
    {
        granted_from::<Brand>(NameOf { policy: self, name }, Blank::new(1))
    }

    // The greatest level that a covering entry gives the name, found by a pass over the entries.
    fn granted_in_pass(&self, name: &str) -> Level
        ensures { result ≡ granted_by self.now.entries name.now }
    {
        let mut level = Level::None;
        for entry in &self.entries {
            if entry.pattern.covers(name) {
                level = level.max_with(entry.grant.level());
            }
        }
        level
    }

    /// The numbers of all entries that cover the name, each once, in any order. It allocates nothing.
    pub fn covering<'a>(&'a self, name: &'a str) -> Covering<'a>
        ensures { AreCovering self.entry.now.entries name.entry.now result }
    {
        self.index.covering(name)
    }

    /// Whether the policy permits a request. It allocates nothing.
    pub fn permits(&self, asked: &Asked) -> bool
        ensures { result ≡ permits self.now asked.now }
    {
        self.level(asked.name()).is_at_least(asked.level()) || self.has_rule(asked)
    }

    // Whether an entry that covers the name has a rule that matches the request.
    fn has_rule(&self, asked: &Asked) -> bool
        ensures { result ≡ has_entry self.now (asked_name asked.now) (rule_matches asked.now) }
    {
        for number in self.covering(asked.name()) {
            if self.entry(number).grant.matches(asked) {
                return true;
            }
        }
        false
    }

    /// No entry covers a unique name: the names of entries only have elements of well-known names.
    pub fn covers_no_unique_name(&self)
        ensures { (name : List ℕ) → is_unique name ≡ true → list_any (λ e. covers e.pattern name) self.now.entries ≡ false }
    {
        let _entries = self.entries.len();
    }

    /// Each pattern of the entries is in the grammar of patterns.
    pub fn has_patterns(&self)
        ensures { list_all is_pattern (patterns_of self.now.entries) ≡ true }
    {
        let _entries = self.entries.len();
    }

    // Adds the entry that a word gives. A word that was added before adds nothing.
    pub(crate) fn add(&mut self, alloc: Global, word: &str, entry: Entry) -> Result<(), WordRefusal>
        requires { entry_word entry ≡ word.now }
        ensures exact { StepGives (λ _. self.new) result (with_one_more self.old entry) }
        ensures err { OnErr result (self.new ≡ self.old) }
    {
        if self.words.contains(word) {
            return Ok(());
        }
        if self.entries.len() == MOST_ENTRIES {
            return Err(WordRefusal::Bad(WordKind::TooMany));
        }
        let word = String::from_str(alloc, word)?;
        self.entries.reserve(1)?;
        self.words.reserve(1)?;
        self.index.make_room(alloc, &entry.pattern)?;
        let number = self.entries.len() as u32 + 1;
        self.patterns.add(alloc, &entry.pattern, number)?;
        let rank = entry.grant.level().rank();
        self.index.add_reserved(&entry.pattern, rank, number);
        match self.words.insert(word) {
            Ok(_) => {}
            Err(_) => unreachable!(),
        }
        self.entries.push_reserved(entry);
        Ok(())
    }
}

// A name under a policy, for a caller that counts no steps.
#[derive(Drop)]
struct NameOf<'a> {
    policy: &'a Policy,
    name: &'a str,
}

// Counts the steps in a ledger of its own.
fn granted_from<L: Ledger>(asked: NameOf, blank: Blank) -> Level
    requires name { blank.name ≡ L.name }
    requires parts { blank.parts ≡ L.parts }
    requires some { 0 < blank.parts }
    ensures { result ≡ granted_by asked.entry.policy.now.entries asked.entry.name.now }
{
    let mut steps: Steps<L> = Steps::new(blank);
    asked.policy.granted(asked.name, &mut steps)
}

// The level that entries give the name; for the bus itself at least `Talk`.
fn with_bus(name: &str, granted: Level) -> Level
    ensures { result ≡ (if is_bus_name name.now then greater Talk granted else granted) }
{
    if is_bus(name) {
        Level::Talk.max_with(granted)
    } else {
        granted
    }
}
