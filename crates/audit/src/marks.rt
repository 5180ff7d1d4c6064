//! Marks of the entries that cover a name.
ghost use Rattle.std.specs.Prelude.{◌≡◌, ◌<◌, ◌+◌, ◌==◌, ◌++◌, ◌∷◌, ◌||◌, ℕ, List, [], Some, IfOk, OnOk, false, true, get_or, length, option_map, slice_get, string_bytes};
ghost use Rattle.dbus_names.specs.Texts.{Text};
ghost use Rattle.name_patterns.specs.Patterns.{covers};
ghost use Rattle.policy_args.specs.declared.entry.Entry.{Entry as EntryValue};
ghost use Rattle.audit.specs.Tallies.{Marked};

use policy_args::Policy;
use std::alloc::{AllocError, Global};

/// Which entries of a policy cover one of the names so far.
#[derive(Drop)]
pub struct Marks {
    marks: Vec<bool>,
    /// The name that came last: if it comes again, nothing is left to mark.
    last: Option<String>,
}

/// Marks what another mark marks.
fn join_mark(mark: &mut bool, other: bool)
    ensures { mark.new ≡ (mark.old || other) }
{
    if other {
        *mark = true;
    }
}

impl Marks {
    /// No entry is marked yet.
    pub fn new(alloc: Global, policy: &Policy) -> Result<Marks, AllocError>
        ensures { IfOk result (λ marks. Marked policy.now.entries [] marks) }
    {
        Ok(Marks {
            marks: vec![in alloc; false; policy.len() as usize]?,
            last: None,
        })
    }

    /// Whether the entry at a place is marked, the place of the first being 0.
    pub fn is_marked(&self, place: usize) -> bool
        ensures { result ≡ get_or self.now.marks.items place false }
    {
        match self.marks.get(place) {
            Some(mark) => *mark,
            None => false,
        }
    }

    /// Whether the name came last.
    fn is_last(&self, name: &str) -> bool
        ensures { result ≡ true → option_map (λ text. string_bytes text) self.now.last ≡ Some name.now }
    {
        match &self.last {
            Some(last) => last.as_str() == name,
            None => false,
        }
    }

    /// The name comes last from now on. Its memory is that of the name before.
    fn keep_last(&mut self, alloc: Global, name: &str) -> Result<(), AllocError>
        ensures last { OnOk result (option_map (λ text. string_bytes text) self.new.last ≡ Some name.now) }
        ensures marks { self.new.marks ≡ self.old.marks }
    {
        match &mut self.last {
            Some(last) => {
                last.clear();
                last.push_str(name)
            }
            None => {
                self.last = Some(String::from_str(alloc, name)?);
                Ok(())
            }
        }
    }

    /// Marks the entry of a number, from 1. Beyond the last entry nothing is marked.
    fn mark_number(&mut self, number: u32)
        ensures last { self.new.last ≡ self.old.last }
        ensures len { length self.new.marks.items ≡ length self.old.marks.items }
        ensures at { (place : ℕ) → place < length self.old.marks.items → get_or self.new.marks.items place false ≡ (get_or self.old.marks.items place false || place + 1 == number) }
    {
        let Some(place) = (number as usize).checked_sub(1) else {
            return;
        };
        if let Some(mark) = self.marks.get_mut(place) {
            *mark = true;
        }
    }

    /// Marks the entries of a policy that cover a name, of which the policy knows the numbers.
    fn mark_covering(&mut self, policy: &Policy, name: &str)
        ensures last { self.new.last ≡ self.old.last }
        ensures len { length self.new.marks.items ≡ length self.old.marks.items }
        ensures at { (place : ℕ) (entry : EntryValue) → length self.old.marks.items ≡ length policy.now.entries → slice_get policy.now.entries place ≡ Some entry → get_or self.new.marks.items place false ≡ (get_or self.old.marks.items place false || covers entry.pattern name.now) }
    {
        for number in policy.covering(name) {
            self.mark_number(number);
        }
    }

    /// Marks the entries that cover a name.
    pub fn mark(&mut self, alloc: Global, policy: &Policy, name: &str) -> Result<(), AllocError>
        ensures { (names : List Text) → Marked policy.now.entries names self.old → OnOk result (Marked policy.now.entries (names ++ name.now ∷ []) self.new) }
    {
        if self.is_last(name) {
            return Ok(());
        }
        self.mark_covering(policy, name);
        self.keep_last(alloc, name)
    }

    /// Marks what others have marked too.
    pub fn add(&mut self, other: &Marks)
        ensures { (entries : List EntryValue) (names more : List Text) → Marked entries names self.old → Marked entries more other.now → Marked entries (names ++ more) self.new }
    {
        for place in 0..self.marks.len() {
            join_mark(&mut self.marks[place], other.is_marked(place));
        }
    }
}
