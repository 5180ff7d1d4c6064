//! The answer of the comparison of two policies.
ghost use Rattle.std.specs.Prelude.{◌≡◌};

use policy_args::Asked;
use std::marker::Model;

/// Numbers of entries, from 1, ascending and each once.
#[derive(Drop)]
pub struct Numbers {
    items: Vec<u32>,
}

impl Model for Numbers {
    ghost use Rattle.std.specs.Prelude.{List, ℕ};

    ghost Value = { List ℕ };

    ghost view = { λ n. n.items.items };
}

impl Numbers {
    /// The numbers of a vector, in its memory.
    pub fn new(items: Vec<u32>) -> Numbers
        ensures { result ≡ items.items }
    {
        Numbers { items }
    }

    /// The numbers as a slice.
    pub fn as_slice(&self) -> &[u32]
        ensures { result.now ≡ self.now }
    {
        self.items.as_slice()
    }
}

/// An entry of the inner policy, with entries of the outer policy that permit what it permits.
#[derive(Drop)]
pub struct CoveredEntry {
    /// The number of the entry, from 1.
    pub entry: u32,
    /// The numbers of the outer policy's entries.
    pub by: Numbers,
}

/// The entries of the inner policy, in their order.
#[derive(Drop)]
pub struct CoveredEntries {
    items: Vec<CoveredEntry>,
}

impl Model for CoveredEntries {
    ghost use Rattle.std.specs.Prelude.{List};
    ghost use Rattle.policy_within.specs.declared.answer.CoveredEntry.{CoveredEntry as CoveredEntryValue};

    ghost Value = { List CoveredEntryValue };

    ghost view = { λ c. c.items.items };
}

impl CoveredEntries {
    /// The entries of a vector. They keep its memory.
    pub fn new(items: Vec<CoveredEntry>) -> CoveredEntries
        ensures { result ≡ items.items }
    {
        CoveredEntries { items }
    }

    /// The entries as a slice.
    pub fn as_slice(&self) -> &[CoveredEntry]
        ensures { result.now ≡ self.now }
    {
        self.items.as_slice()
    }
}

/// The answer to whether one policy, the inner one, permits a request that another, the outer one, doesn't permit.
#[derive(Drop)]
pub enum WithinAnswer {
    /// It permits none. Each of its entries has entries of the outer policy that permit what it permits.
    Yes(CoveredEntries),
    /// It permits this request, and the outer policy doesn't.
    No(Asked),
}
