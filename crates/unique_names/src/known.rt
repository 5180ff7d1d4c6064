//! What is kept of a unique name.
ghost use Rattle.std.specs.Prelude.{◌≡◌, ◌≤◌, ◌+◌, ◌*◌, [], IsOk, OnErr, OnOk, Some};
ghost use Rattle.std.specs.Option.{option_copied};
ghost use Rattle.policy_args.specs.Policy.{level as policy_level};
ghost use Rattle.unique_names.specs.Inserted.{missing_in};
ghost use Rattle.unique_names.specs.Merged.{look_ups, merged_from};
ghost use Rattle.unique_names.specs.Taught.{known_level, known_numbers, nothing_known, owning, raised};

use crate::numbers::merge;
use name_patterns::Steps;
use policy_args::{Level, Policy};
use std::alloc::{AllocError, Global};
use std::marker::Model;
use std::sync::ledger::Ledger;

/// What the facts give a unique name.
#[derive(Drop)]
pub(crate) struct Known {
    level: Level,
    numbers: Vec<u32>,
}

impl Model for Known {
    ghost use Rattle.std.specs.Prelude.{◌≡◌, true};
    ghost use Rattle.unique_names.specs.Inserted.{ascends_from};
    ghost use Rattle.unique_names.specs.Known.{Known as KnownValue};

    ghost Value = { KnownValue };

    ghost view = { λ k. record { level = k.level; numbers = k.numbers.items } };

    ghost invariant = { λ k. ascends_from 1 k.numbers.items ≡ true };
}

impl Known {
    /// Nothing is known.
    pub(crate) fn new(alloc: Global) -> Known
        ensures { result ≡ nothing_known }
    {
        Known {
            level: Level::None,
            numbers: Vec::new(alloc),
        }
    }

    /// How far the name may be used.
    pub(crate) fn level(&self) -> Level
        ensures { result ≡ self.now.level }
    {
        self.level
    }

    /// The numbers of the entries that cover a name that it has owned, ascending.
    pub(crate) fn numbers(&self) -> &[u32]
        ensures { result.now ≡ self.now.numbers }
    {
        &self.numbers
    }

    /// Raises the level to at least this one.
    pub(crate) fn raise(&mut self, level: Level)
        ensures { self.new ≡ raised level (Some self.old) }
    {
        self.level = self.level.max_with(level);
    }

    /// Adds a name that it owns, to which the policy gives this level. If memory is refused, nothing changes.
    pub(crate) fn own<L: Ledger>(
        &mut self,
        policy: &Policy,
        name: &str,
        level: Level,
        steps: &mut Steps<L>,
    ) -> Result<(), AllocError>
        requires { level ≡ policy_level policy.now name.now }
        ensures ok { OnOk result (self.new ≡ owning policy.now name.now (Some self.old)) }

        // If all its entries are known, it takes no memory.
        ensures known { missing_in self.old.numbers (merged_from name.now 1 policy.now.entries []) ≡ 0 → IsOk result }
        ensures err { OnErr result (self.new ≡ self.old) }
        ensures cost { steps.new ≤ steps.old + 2 * look_ups name.now (merged_from name.now 1 policy.now.entries []) }
    {
        merge(policy, name, &mut self.numbers, steps)?;
        self.level = self.level.max_with(level);
        Ok(())
    }
}

/// The level of a unique name, of which something may be known.
pub(crate) fn level_in(known: Option<&Known>) -> Level
    ensures { result ≡ known_level (option_copied known.entry) }
{
    match known {
        Some(known) => known.level(),
        None => Level::None,
    }
}

/// The numbers of the entries of a unique name.
pub(crate) fn numbers_in(known: Option<&Known>) -> &[u32]
    ensures { result.now ≡ known_numbers (option_copied known.entry) }
{
    match known {
        Some(known) => known.numbers(),
        None => &[],
    }
}
