//! The tracker of unique names.
ghost use Rattle.std.specs.Prelude.{◌≡◌, ◌≤◌, ◌<◌, ◌+◌, ◌*◌, ◌∷◌, ◌++◌, [], List, OnOk, OnErr, length};
ghost use Rattle.std.specs.FinMap as map;
ghost use Rattle.std.specs.Option.{option_copied};
ghost use Rattle.policy_args.specs.Policy.{Policy as PolicyValue};
ghost use Rattle.policy_args.specs.Levels.{entries as entries_of, level_of};
ghost use Rattle.policy_args.specs.declared.fact.Fact.{Fact as FactValue};
ghost use Rattle.policy_args.specs.declared.fact.Fact.TheVariants.{Owned, SelfId, Met};
ghost use Rattle.name_patterns.specs.Ranks.{elements};
ghost use Rattle.unique_names.specs.Known.{Known as KnownValue};
ghost use Rattle.unique_names.specs.Merged.{look_ups, merged_from};
ghost use Rattle.unique_names.specs.Taught.{AreNumbers, Fits, Taught, kept_level, kept_numbers, learned, raised as raised_from};

use crate::entries::Entries;
use crate::known::{Known, level_in, numbers_in};
use crate::looked_up::LookedUp;
use dbus_names::{BusName, is_unique, is_well_known};
use name_patterns::Steps;
use policy_args::{Fact, Level, Policy};
use std::alloc::{AllocError, Global};
use std::collections::BTreeMap;
use std::marker::{Brand, Model};
use std::sync::ledger::{Blank, Ledger};

/// What is known of unique names, from the facts that were learned under one policy.
///
/// Each call must be given the same policy. What is known of a unique name takes memory once.
pub struct Tracker {
    ids: BTreeMap<String, Known>,
    alloc: Global,
}

// Its drop is a call, so that a function that drops one is short to prove.
impl Drop for Tracker {
    fn drop(self) {
        let Tracker {
            ids: _ids,
            alloc: _alloc,
        } = self;
    }
}

impl Model for Tracker {
    ghost use Rattle.std.specs.Prelude.{ℕ};
    ghost use Rattle.std.specs.Ordering.{nat_cmp};
    ghost use Rattle.std.specs.Cmp.Lexicographic.{slice_cmp};
    ghost use Rattle.std.specs.FinMap as map;
    ghost use Rattle.std.specs.Coded.{codes, coded_ℕ, coded_list};
    ghost use Rattle.byte_lists.specs.TextMaps.{by_bytes};
    ghost use Rattle.unique_names.specs.Known.{Known as KnownValue};
    ghost use Rattle.unique_names.specs.Taught.{Ids};

    ghost Value = { Ids };

    ghost coded = { map.code {X = KnownValue} (coded_list coded_ℕ) (Prim.hlevel (codes, coded_list coded_ℕ)) };

    ghost view = { λ t. map.from_entries (by_bytes t.ids.entries) };
}

impl Tracker {
    /// A tracker that knows nothing.
    pub fn new(alloc: Global) -> Tracker
        ensures empty { result ≡ map.empty }
        ensures taught { (policy : PolicyValue) → Taught result policy [] }
        ensures fits { (policy : PolicyValue) → Fits result policy }
    {
        Tracker::empty(alloc)
    }

    /// How far a name, unique or well-known, may be used: `None` for any other text.
    pub fn level(&self, policy: &Policy, name: &str) -> Level
        ensures kept { result ≡ kept_level policy.now self.now name.now }

        // It is the level that follows from all facts that were learned.
        ensures exact { (facts : List FactValue) → Taught self.now policy.now facts → result ≡ level_of policy.now facts name.now }
    {
        let asked = AskedName {
            tracker: self,
            policy,
            name,
        };
        level_from::<Brand>(asked, Blank::new(1))
    }

    /// Does as `level` does, with at most one look-up for each element of the name and one more.
    pub fn level_counted<L: Ledger>(
        &self,
        policy: &Policy,
        name: &str,
        steps: &mut Steps<L>,
    ) -> Level
        ensures kept { result ≡ kept_level policy.now self.now name.now }
        ensures cost { steps.new ≤ steps.old + elements name.now + 1 }
    {
        self.level_of(policy, name, steps)
    }

    /// The numbers of the entries that cover a name, or a name that it has owned, from 1, ascending and each once.
    pub fn entries<'a>(&'a self, policy: &'a Policy, name: &'a str) -> Entries<'a>
        ensures name { result.name ≡ name.entry.now }
        ensures kept { result.numbers ≡ kept_numbers policy.entry.now self.entry.now name.entry.now }
        ensures exact { (facts : List FactValue) → Taught self.entry.now policy.entry.now facts → result.numbers ≡ entries_of policy.entry.now facts name.entry.now }
        ensures within { Fits self.entry.now policy.entry.now → AreNumbers (length policy.entry.now.entries) result.numbers }
    {
        policy.covers_no_unique_name();
        self.entries_of(policy, name)
    }

    /// Looks up what is known of a bus name, once for all questions about it.
    pub fn look_up<'a, L: Ledger>(
        &'a self,
        policy: &'a Policy,
        name: BusName<'a>,
        steps: &mut Steps<L>,
    ) -> LookedUp<'a>
        ensures tracker { result.tracker.now ≡ self.entry.now }
        ensures policy { result.policy.now ≡ policy.entry.now }
        ensures name { result.name.now ≡ name.entry.text.now }
        ensures cost { steps.new ≤ steps.old + 1 }
    {
        LookedUp::new(self, policy, name, steps)
    }

    /// Learns a fact. A fact that is known already adds nothing, and nothing is kept of one that gives no level. If
    /// memory is refused, nothing changes.
    pub fn learn(&mut self, policy: &Policy, fact: Fact) -> Result<(), AllocError>
        ensures learned { OnOk result (self.new ≡ learned policy.now self.old fact) }
        ensures taught { OnOk result ((facts : List FactValue) → Taught self.old policy.now facts → Taught self.new policy.now (facts ++ fact ∷ [])) }
        ensures fits { OnOk result (Fits self.old policy.now → Fits self.new policy.now) }
        ensures err { OnErr result (self.new ≡ self.old) }
    {
        match fact {
            Fact::Owned { name, id } => self.learn_owner(policy, name.as_str(), id.as_str()),
            Fact::SelfId(id) => self.learn_self(policy, id.as_str()),
            Fact::Met(id) => self.learn_met(policy, id.as_str()),
        }
    }

    /// Learns that a unique name owns a name, or has owned it.
    pub fn learn_owner(&mut self, policy: &Policy, name: &str, id: &str) -> Result<(), AllocError>
        ensures learned { OnOk result (self.new ≡ learned policy.now self.old (Owned name.now id.now)) }
        ensures taught { OnOk result ((facts : List FactValue) → Taught self.old policy.now facts → Taught self.new policy.now (facts ++ Owned name.now id.now ∷ [])) }
        ensures fits { OnOk result (Fits self.old policy.now → Fits self.new policy.now) }
        ensures err { OnErr result (self.new ≡ self.old) }
    {
        self.own(policy, name, id)
    }

    /// Does as `learn_owner` does, with the look-ups of the name and of the unique name, and twice those of the entries
    /// that cover the name.
    pub fn learn_owner_counted<L: Ledger>(
        &mut self,
        policy: &Policy,
        name: &str,
        id: &str,
        steps: &mut Steps<L>,
    ) -> Result<(), AllocError>
        ensures learned { OnOk result (self.new ≡ learned policy.now self.old (Owned name.now id.now)) }
        ensures err { OnErr result (self.new ≡ self.old) }
        ensures cost { steps.new ≤ steps.old + elements name.now + 2 + 2 * look_ups name.now (merged_from name.now 1 policy.now.entries []) }
    {
        self.own_counted(policy, name, id, steps)
    }

    /// Learns that a unique name is the client's own.
    pub fn learn_self(&mut self, policy: &Policy, id: &str) -> Result<(), AllocError>
        ensures learned { OnOk result (self.new ≡ learned policy.now self.old (SelfId id.now)) }
        ensures taught { OnOk result ((facts : List FactValue) → Taught self.old policy.now facts → Taught self.new policy.now (facts ++ SelfId id.now ∷ [])) }
        ensures fits { OnOk result (Fits self.old policy.now → Fits self.new policy.now) }
        ensures err { OnErr result (self.new ≡ self.old) }
    {
        // (only the contract needs the policy)
        let _policy = policy;
        self.raise(id, Level::Talk)
    }

    /// Learns that the client met a unique name.
    pub fn learn_met(&mut self, policy: &Policy, id: &str) -> Result<(), AllocError>
        ensures learned { OnOk result (self.new ≡ learned policy.now self.old (Met id.now)) }
        ensures taught { OnOk result ((facts : List FactValue) → Taught self.old policy.now facts → Taught self.new policy.now (facts ++ Met id.now ∷ [])) }
        ensures fits { OnOk result (Fits self.old policy.now → Fits self.new policy.now) }
        ensures err { OnErr result (self.new ≡ self.old) }
    {
        // (only the contract needs the policy)
        let _policy = policy;
        self.raise(id, Level::See)
    }

    fn empty(alloc: Global) -> Tracker
        ensures { result ≡ map.empty }
    {
        Tracker {
            ids: BTreeMap::new(alloc),
            alloc,
        }
    }

    /// What is known of a unique name.
    pub(crate) fn known(&self, id: &str) -> Option<&Known>
        ensures { option_copied result ≡ map.get self.now id.now }
    {
        self.ids.get(id)
    }

    // The level of a name, from what is kept.
    fn level_of<L: Ledger>(&self, policy: &Policy, name: &str, steps: &mut Steps<L>) -> Level
        ensures level { result ≡ kept_level policy.now self.now name.now }
        ensures cost { steps.new ≤ steps.old + elements name.now + 1 }
    {
        if is_well_known(name.as_bytes()) {
            policy.level_counted(name, steps)
        } else if is_unique(name.as_bytes()) {
            steps.tick();
            level_in(self.known(name))
        } else {
            Level::None
        }
    }

    // The entries of a name, from what is kept.
    fn entries_of<'a>(&'a self, policy: &'a Policy, name: &'a str) -> Entries<'a>
        ensures name { result.name ≡ name.entry.now }
        ensures numbers { result.numbers ≡ kept_numbers policy.entry.now self.entry.now name.entry.now }
    {
        let known = numbers_in(self.known(name));
        if is_unique(name.as_bytes()) {
            Entries::known(policy, name, known)
        } else {
            Entries::covering(policy, name, known)
        }
    }

    // Learns that a unique name owns a name, for a caller that counts no steps.
    fn own(&mut self, policy: &Policy, name: &str, id: &str) -> Result<(), AllocError>
        ensures ok { OnOk result (self.new ≡ learned policy.now self.old (Owned name.now id.now)) }
        ensures err { OnErr result (self.new ≡ self.old) }
    {
        let owned = OwnedName { policy, name, id };
        own_from::<Brand>(self, owned, Blank::new(1))
    }

    // Learns that a unique name owns a name. Looking up what is known of it is a step.
    fn own_counted<L: Ledger>(
        &mut self,
        policy: &Policy,
        name: &str,
        id: &str,
        steps: &mut Steps<L>,
    ) -> Result<(), AllocError>
        ensures ok { OnOk result (self.new ≡ learned policy.now self.old (Owned name.now id.now)) }
        ensures err { OnErr result (self.new ≡ self.old) }
        ensures cost { steps.new ≤ steps.old + elements name.now + 2 + 2 * look_ups name.now (merged_from name.now 1 policy.now.entries []) }
    {
        let level = policy.level_counted(name, steps);
        if !level.is_at_least(Level::See) {
            return Ok(());
        }
        steps.tick();
        match self.ids.get_mut(id) {
            Some(known) => known.own(policy, name, level, steps),
            None => {
                let mut known = Known::new(self.alloc);
                known.own(policy, name, level, steps)?;
                self.keep(id, known)
            }
        }
    }

    // Raises the level of a unique name to at least this one.
    fn raise(&mut self, id: &str, level: Level) -> Result<(), AllocError>
        ensures ok { OnOk result (self.new ≡ map.insert self.old id.now (raised_from level (map.get self.old id.now))) }
        ensures err { OnErr result (self.new ≡ self.old) }
    {
        match self.ids.get_mut(id) {
            Some(known) => {
                known.raise(level);
                Ok(())
            }
            None => {
                let mut known = Known::new(self.alloc);
                known.raise(level);
                self.keep(id, known)
            }
        }
    }

    // Keeps what is known of a unique name.
    fn keep(&mut self, id: &str, known: Known) -> Result<(), AllocError>
        ensures ok { OnOk result (self.new ≡ map.insert self.old id.now known) }
        ensures err { OnErr result (self.new ≡ self.old) }
    {
        let id = String::from_str(self.alloc, id)?;
        self.ids.insert(id, known)?;
        Ok(())
    }
}

// A name, unique or well-known, under a policy.
#[derive(Drop)]
struct AskedName<'a> {
    tracker: &'a Tracker,
    policy: &'a Policy,
    name: &'a str,
}

// The level of a name. The steps are counted in a ledger of their own.
fn level_from<L: Ledger>(asked: AskedName<'_>, blank: Blank) -> Level
    requires name { blank.name ≡ L.name }
    requires parts { blank.parts ≡ L.parts }
    requires some { 0 < blank.parts }
    ensures { result ≡ kept_level asked.entry.policy.now asked.entry.tracker.now asked.entry.name.now }
{
    let mut steps: Steps<L> = Steps::new(blank);
    asked.tracker.level_of(asked.policy, asked.name, &mut steps)
}

// A name that a unique name owns, under a policy.
#[derive(Drop)]
struct OwnedName<'a> {
    policy: &'a Policy,
    name: &'a str,
    id: &'a str,
}

// Learns that a unique name owns a name. The steps are counted in a ledger of their own.
fn own_from<L: Ledger>(
    tracker: &mut Tracker,
    owned: OwnedName<'_>,
    blank: Blank,
) -> Result<(), AllocError>
    requires name { blank.name ≡ L.name }
    requires parts { blank.parts ≡ L.parts }
    requires some { 0 < blank.parts }
    ensures ok { OnOk result (tracker.new ≡ learned owned.entry.policy.now tracker.old (Owned owned.entry.name.now owned.entry.id.now)) }
    ensures err { OnErr result (tracker.new ≡ tracker.old) }
{
    let mut steps: Steps<L> = Steps::new(blank);
    tracker.own_counted(owned.policy, owned.name, owned.id, &mut steps)
}
