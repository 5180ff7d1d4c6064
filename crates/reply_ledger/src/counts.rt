//! Serials, and how many replies are outstanding for each.
ghost use Rattle.std.specs.Prelude.{◌≡◌, ◌+◌, ◌-◌, ◌^◌, ◌<◌, IfOk, IfSome, IfNone, OnOk, OnErr, Some, None, is_some};
ghost use Rattle.std.specs.FinMap as map;
ghost use Rattle.reply_ledger.specs.Owed.{count_in, one_less_in, one_more_in};

use std::alloc::{AllocError, Global};
use std::collections::BTreeMap;
use std::marker::Model;

/// The next count, or an error above 2^64 - 1.
pub(crate) fn one_more(count: u64) -> Result<u64, AllocError>
    ensures { IfOk result (λ more. more ≡ count + 1) }
{
    count.checked_add(1).ok_or(AllocError)
}

/// The number of outstanding replies for each serial.
#[derive(Drop)]
pub(crate) struct Counts {
    counts: BTreeMap<u32, u64>,
}

impl Model for Counts {
    ghost use Rattle.std.specs.FinMap as map;
    ghost use Rattle.std.specs.Coded.{coded_ℕ};
    ghost use Rattle.reply_ledger.specs.Owed.{Serials};

    ghost Value = { Serials };

    ghost coded = { map.code coded_ℕ coded_ℕ };

    ghost view = { λ c. map.from_entries c.counts.entries };
}

impl Counts {
    pub(crate) fn new(alloc: Global) -> Counts
        ensures { result ≡ map.empty }
    {
        Counts {
            counts: BTreeMap::new(alloc),
        }
    }

    pub(crate) fn count(&self, serial: u32) -> u64
        ensures { result ≡ count_in self.now serial }
    {
        self.counts.get(&serial).copied().unwrap_or(0)
    }

    /// Counts a serial once more.
    pub(crate) fn add(&mut self, serial: u32) -> Result<(), AllocError>
        ensures ok { OnOk result (self.new ≡ one_more_in self.old serial) }
        ensures err { OnErr result (self.new ≡ self.old) }
    {
        let count = one_more(self.count(serial))?;
        self.counts.insert(serial, count)?;
        Ok(())
    }

    /// Counts a serial once less, and forgets it at 0. Returns whether it was counted.
    pub(crate) fn take(&mut self, serial: u32) -> bool
        ensures was { result ≡ is_some (map.get self.old serial) }
        ensures left { self.new ≡ one_less_in self.old serial }
    {
        match self.counts.get_mut(&serial) {
            None => false,
            Some(count) if *count > 1 => {
                *count -= 1;
                true
            }
            Some(_) => {
                self.counts.remove(&serial);
                true
            }
        }
    }

    /// Removes one serial with its count.
    pub(crate) fn pop(&mut self) -> Option<(u32, u64)>
        ensures some { IfSome result (λ p. (map.get self.old p.0 ≡ Some p.1) × (self.new ≡ map.remove self.old p.0)) }
        ensures none { IfNone result ((self.old ≡ map.empty) × (self.new ≡ map.empty)) }
    {
        self.counts.pop_first()
    }
}
