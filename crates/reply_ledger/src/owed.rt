//! The replies that are owed, by the senders of the calls.
ghost use Rattle.std.specs.Prelude.{◌≡◌, ◌+◌, ◌-◌, ◌^◌, ◌<◌, ℕ, false, OnOk, OnErr, nat_lt, if◌then◌else◌};
ghost use Rattle.std.specs.FinMap as map;
ghost use Rattle.dbus_names.specs.Texts.{Text};
ghost use Rattle.reply_ledger.specs.Owed.{KeepsOwedAlone, count_of, is_pair, one_less, one_more};

use crate::calls::{Answered, Calls};
use std::alloc::{AllocError, Global};
use std::collections::BTreeMap;
use std::marker::Model;

/// The senders to which replies are owed, each with its calls.
#[derive(Drop)]
pub(crate) struct Owed {
    senders: BTreeMap<String, Calls>,
    alloc: Global,
}

impl Model for Owed {
    ghost use Rattle.std.specs.FinMap as map;
    ghost use Rattle.std.specs.Coded.{coded_ℕ, coded_list};
    ghost use Rattle.byte_lists.specs.TextMaps.{by_bytes};
    ghost use Rattle.reply_ledger.specs.Owed.{KeepsOwedAlone, Replies};

    ghost Value = { Replies };

    ghost coded = { map.code (coded_list coded_ℕ) (map.code coded_ℕ coded_ℕ) };

    ghost view = { λ o. map.from_entries (by_bytes o.senders.entries) };

    ghost invariant = { λ o. KeepsOwedAlone (map.from_entries (by_bytes o.senders.entries)) };
}

impl Owed {
    pub(crate) fn new(alloc: Global) -> Owed
        ensures { result ≡ map.empty }
    {
        Owed {
            senders: BTreeMap::new(alloc),
            alloc,
        }
    }

    pub(crate) fn count(&self, sender: &str, serial: u32) -> u64
        ensures count { result ≡ count_of self.now sender.now serial }
        ensures kept { KeepsOwedAlone self.now }
    {
        match self.senders.get(sender) {
            Some(calls) => calls.count(serial),
            None => 0,
        }
    }

    /// Counts one more owed reply.
    pub(crate) fn add(&mut self, sender: &str, serial: u32) -> Result<(), AllocError>
        ensures counted { OnOk result ((s : Text) (n : ℕ) → count_of self.new s n ≡ (if is_pair sender.now serial s n then count_of self.old s n + 1 else count_of self.old s n)) }
        ensures ok { OnOk result (self.new ≡ one_more self.old sender.now serial) }
        ensures kept { KeepsOwedAlone self.new }
        ensures err { OnErr result (self.new ≡ self.old) }
    {
        if let Some(calls) = self.senders.get_mut(sender) {
            calls.add(serial)?;
            return Ok(());
        }
        let sender = String::from_str(self.alloc, sender)?;
        self.senders.insert(sender, Calls::one(self.alloc, serial))?;
        Ok(())
    }

    /// Counts one owed reply less. Returns whether one was owed.
    pub(crate) fn answer(&mut self, sender: &str, serial: u32) -> bool
        ensures was { result ≡ nat_lt 0 (count_of self.old sender.now serial) }
        ensures counted { (s : Text) (n : ℕ) → count_of self.new s n ≡ (if is_pair sender.now serial s n then count_of self.old s n - 1 else count_of self.old s n) }
        ensures left { self.new ≡ one_less self.old sender.now serial }
        ensures kept { KeepsOwedAlone self.new }
        ensures unchanged { result ≡ false → self.new ≡ self.old }
    {
        let Some(calls) = self.senders.get_mut(sender) else {
            return false;
        };
        match calls.answer(serial) {
            Answered::NotOwed => false,
            Answered::Taken => true,
            Answered::Last => {
                self.senders.remove(sender);
                true
            }
        }
    }
}
