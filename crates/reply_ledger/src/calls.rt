//! The calls of one sender to which replies are owed.
ghost use Rattle.std.specs.Prelude.{◌≡◌, ◌+◌, ◌-◌, ◌^◌, ◌<◌, OnOk, OnErr};
ghost use Rattle.std.specs.FinMap as map;
ghost use Rattle.reply_ledger.specs.Answered.{IsAnswered};
ghost use Rattle.reply_ledger.specs.Owed.{IsKept, count_in, one_more_in};

use crate::counts::{Counts, one_more};
use std::alloc::{AllocError, Global};
use std::marker::Model;

/// The effect of a reply.
#[derive(Clone, Copy)]
pub(crate) enum Answered {
    /// No reply was owed, and nothing changed.
    NotOwed,
    /// One reply less is owed.
    Taken,
    /// It was the last reply that was owed to the sender, who must be forgotten.
    Last,
}

/// The calls of one sender to which replies are owed: at least one.
///
/// A sender mostly waits for one reply. One of its serials is kept here, without memory of its own.
#[derive(Drop)]
pub(crate) struct Calls {
    serial: u32,
    count: u64,
    others: Counts,
}

impl Model for Calls {
    ghost use Rattle.std.specs.FinMap as map;
    ghost use Rattle.std.specs.Coded.{coded_ℕ};
    ghost use Rattle.reply_ledger.specs.Owed.{Serials};

    ghost Value = { Serials };

    ghost coded = { map.code coded_ℕ coded_ℕ };

    ghost use Rattle.reply_ledger.specs.Apart.{AreApart};

    ghost view = { λ c. map.insert c.others c.serial c.count };

    ghost invariant = { λ c. AreApart c.serial c.count c.others };
}

impl Calls {
    /// A sender with one call.
    pub(crate) fn one(alloc: Global, serial: u32) -> Calls
        ensures { result ≡ one_more_in map.empty serial }
    {
        Calls {
            serial,
            count: 1,
            others: Counts::new(alloc),
        }
    }

    /// The number of replies that are owed to calls with this serial.
    pub(crate) fn count(&self, serial: u32) -> u64
        ensures { result ≡ count_in self.now serial }
    {
        if serial == self.serial {
            self.count
        } else {
            self.others.count(serial)
        }
    }

    /// Counts one more call.
    pub(crate) fn add(&mut self, serial: u32) -> Result<(), AllocError>
        ensures ok { OnOk result (self.new ≡ one_more_in self.old serial) }
        ensures err { OnErr result (self.new ≡ self.old) }
    {
        if serial == self.serial {
            self.count = one_more(self.count)?;
            return Ok(());
        }
        self.others.add(serial)?;
        Ok(())
    }

    /// Counts one reply.
    pub(crate) fn answer(&mut self, serial: u32) -> Answered
        ensures answered { IsAnswered self.old serial self.new result }
        ensures kept { IsKept self.new }
    {
        if serial != self.serial {
            if self.others.take(serial) {
                return Answered::Taken;
            }
            return Answered::NotOwed;
        }
        if self.count > 1 {
            self.count -= 1;
            return Answered::Taken;
        }
        match self.others.pop() {
            Some((serial, count)) => {
                self.serial = serial;
                self.count = count;
                Answered::Taken
            }
            None => Answered::Last,
        }
    }
}
