//! How entries, their words and their numbers relate, and what policies permit by their entries.
ghost use Rattle.std.specs.Prelude.{◌≡◌, ◌&&◌, ℕ, Bool, true, false, List, length, Ok};
ghost use Rattle.std.specs.List.{list_all, list_any};
ghost use Rattle.dbus_names.specs.Names.{is_bus};
ghost use Rattle.name_patterns.specs.Patterns.{covers};
ghost use Rattle.policy_args.specs.Covering.{AreCovering, is_number, passes_at};
ghost use Rattle.policy_args.specs.Policy.{InGrammar, Policy as PolicyValue, entry_word};
ghost use Rattle.policy_args.specs.Requests.{Within, asked_name, grant_permits, permits};
ghost use Rattle.policy_args.specs.Words.{entry_of};
ghost use Rattle.policy_args.specs.declared.entry.Entry.{Entry as EntryValue};
ghost use Rattle.policy_args.specs.declared.requests.Asked.{Asked as AskedValue};

/// A word that gives an entry is that entry's word: two words give the same entry only if they are equal byte for byte.
pub fn entries_have_one_word()
    ensures { (word : List ℕ) (entry : EntryValue) → entry_of word ≡ Ok entry → entry_word entry ≡ word }
{}

/// The word of an entry whose name and rule are in their grammars gives that entry.
pub fn words_give_their_entries()
    ensures { (entry : EntryValue) → InGrammar entry → entry_of (entry_word entry) ≡ Ok entry }
{}

/// A test holds for some entry that covers a name exactly if it holds for the entry of one of the covering numbers.
pub fn covering_numbers_find_entries()
    ensures { (entries : List EntryValue) (name numbers : List ℕ) (test : EntryValue → Bool) → AreCovering entries name numbers → list_any (passes_at test entries) numbers ≡ list_any (λ e. covers e.pattern name && test e) entries }
{}

/// The numbers that cover a name are numbers of entries.
pub fn covering_numbers_have_entries()
    ensures { (entries : List EntryValue) (name numbers : List ℕ) → AreCovering entries name numbers → list_all (is_number (length entries)) numbers ≡ true }
{}

/// A policy permits a request of a name other than the bus's own exactly if the grant of one entry that covers the name
/// permits it.
pub fn permits_by_entries()
    ensures { (policy : PolicyValue) (asked : AskedValue) → is_bus (asked_name asked) ≡ false → permits policy asked ≡ list_any (λ e. covers e.pattern (asked_name asked) && grant_permits e.grant asked) policy.entries }
{}

/// A policy is within itself.
pub fn within_itself()
    ensures { (a : PolicyValue) → Within a a }
{}

/// If a policy is within a second one and that is within a third, the first is within the third.
pub fn within_through()
    ensures { (a b c : PolicyValue) → Within a b → Within b c → Within a c }
{}
