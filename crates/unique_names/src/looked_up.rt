//! What is known of one bus name.
ghost use Rattle.std.specs.Prelude.{◌≡◌, ◌≤◌, ◌+◌, true};
ghost use Rattle.std.specs.FinMap as map;
ghost use Rattle.std.specs.Option.{option_copied};
ghost use Rattle.dbus_names.specs.Names.{is_bus_name, is_unique as is_unique_name};
ghost use Rattle.name_patterns.specs.Ranks.{elements};
ghost use Rattle.unique_names.specs.Taught.{kept_level, kept_numbers};

use crate::entries::Entries;
use crate::known::{Known, level_in, numbers_in};
use crate::tracker::Tracker;
use dbus_names::BusName;
use name_patterns::Steps;
use policy_args::{Level, Policy};
use std::sync::ledger::Ledger;

/// A bus name under a policy. What is known of a unique name was looked up once, for all questions about it.
#[derive(Clone, Copy)]
pub struct LookedUp<'a> {
    tracker: &'a Tracker,
    policy: &'a Policy,
    name: &'a str,
    is_unique: bool,
    known: Option<&'a Known>,
    ghost named: { is_bus_name name.now ≡ true },
    ghost kind: { is_unique ≡ is_unique_name name.now },
    ghost found: { is_unique ≡ true → option_copied known ≡ map.get tracker.now name.now },
}

impl<'a> LookedUp<'a> {
    pub(crate) fn new<L: Ledger>(
        tracker: &'a Tracker,
        policy: &'a Policy,
        name: BusName<'a>,
        steps: &mut Steps<L>,
    ) -> LookedUp<'a>
        ensures tracker { result.tracker.now ≡ tracker.entry.now }
        ensures policy { result.policy.now ≡ policy.entry.now }
        ensures name { result.name.now ≡ name.entry.text.now }
        ensures cost { steps.new ≤ steps.old + 1 }
    {
        let is_unique = name.is_unique();
        let known = if is_unique {
            steps.tick();
            tracker.known(name.text)
        } else {
            None
        };
        LookedUp {
            tracker,
            policy,
            name: name.text,
            is_unique,
            known,
        }
    }

    /// How far the name may be used, as `Tracker::level` says.
    pub fn level<L: Ledger>(self, steps: &mut Steps<L>) -> Level
        ensures level { result ≡ kept_level self.entry.policy.now self.entry.tracker.now self.entry.name.now }
        ensures cost { steps.new ≤ steps.old + elements self.entry.name.now + 1 }
    {
        if self.is_unique {
            level_in(self.known)
        } else {
            self.policy.level_counted(self.name, steps)
        }
    }

    /// The numbers of the name's entries, as `Tracker::entries` says.
    pub fn entries<L: Ledger>(self, steps: &mut Steps<L>) -> Entries<'a>
        ensures name { result.name ≡ self.entry.name.now }
        ensures numbers { result.numbers ≡ kept_numbers self.entry.policy.now self.entry.tracker.now self.entry.name.now }
        ensures cost { steps.new ≤ steps.old + 1 }
    {
        if self.is_unique {
            Entries::known(self.policy, self.name, numbers_in(self.known))
        } else {
            steps.tick();
            let known = numbers_in(self.tracker.known(self.name));
            Entries::covering(self.policy, self.name, known)
        }
    }
}
