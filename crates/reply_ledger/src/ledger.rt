//! The ledger.
ghost use Rattle.std.specs.Prelude.{◌≡◌, ◌+◌, ◌-◌, ◌^◌, ◌<◌, ◌≤◌, ℕ, Bool, false, OnOk, OnErr, nat_lt, if◌then◌else◌};
ghost use Rattle.std.specs.FinMap as map;
ghost use Rattle.std.specs.Option.{option_copied};
ghost use Rattle.dbus_names.specs.Texts.{Text};
ghost use Rattle.reply_ledger.specs.Expected.{TakeCost};
ghost use Rattle.reply_ledger.specs.Owed.{KeepsOwedAlone, count_of, is_pair, one_less, one_more};

use crate::expected::Expected;
use crate::kind::Kind;
use crate::owed::Owed;
use name_patterns::Steps;
use std::alloc::{AllocError, Global};
use std::marker::{Brand, Model};
use std::sync::ledger::{Blank, Ledger as StepLedger};

/// The answers of the bus that are expected, and the replies that the client owes.
///
/// The caller reports what was sent and received. The ledger takes memory for what is outstanding, and a little more:
/// the queue of expected answers keeps its room until it is empty, and then room for at most 64 answers.
pub struct Ledger {
    expected: Expected,
    owed: Owed,
}

// Its drop is a call, so that a function that drops one is short to prove.
impl Drop for Ledger {
    fn drop(self) {
        let Ledger {
            expected: _expected,
            owed: _owed,
        } = self;
    }
}

impl Model for Ledger {
    ghost use Rattle.std.specs.FinMap as map;
    ghost use Rattle.std.specs.Ordering.{nat_cmp};
    ghost use Rattle.std.specs.Cmp.Lexicographic.{slice_cmp};
    ghost use Rattle.std.specs.Coded.{codes, coded_ℕ, coded_list};
    ghost use Rattle.reply_ledger.specs.Ledger.{Ledger as LedgerValue};
    ghost use Rattle.reply_ledger.specs.declared.kind.Kind.{Kind as KindValue};

    ghost Value = { LedgerValue };

    ghost coded = { Prim.hlevel (codes, map.code {X = KindValue} {R = nat_cmp} coded_ℕ (Prim.hlevel (codes, coded_list coded_ℕ)), map.code {R = slice_cmp nat_cmp} (coded_list coded_ℕ) (map.code {R = nat_cmp} coded_ℕ coded_ℕ)) };

    ghost view = { λ l. record { expected = l.expected; owed = l.owed } };
}

impl Ledger {
    /// No answer is expected, and no reply is owed.
    pub fn new(alloc: Global) -> Ledger
        ensures { result ≡ record { expected = map.empty; owed = map.empty } }
    {
        Ledger {
            expected: Expected::new(alloc),
            owed: Owed::new(alloc),
        }
    }

    /// Expects the answer to the message that was sent with this serial, for this.
    pub fn expect(&mut self, position: u32, kind: Kind) -> Result<(), AllocError>
        ensures ok { OnOk result (self.new ≡ record self.old { expected = map.insert self.old.expected position kind }) }
        ensures err { OnErr result (self.new ≡ self.old) }
    {
        expect_from::<Brand>(self, position, kind, Blank::new(1))
    }

    /// Does as `expect` does, with at most three look-ups.
    pub fn expect_counted<L: StepLedger>(
        &mut self,
        position: u32,
        kind: Kind,
        steps: &mut Steps<L>,
    ) -> Result<(), AllocError>
        ensures ok { OnOk result (self.new ≡ record self.old { expected = map.insert self.old.expected position kind }) }
        ensures err { OnErr result (self.new ≡ self.old) }
        ensures cost { steps.new ≤ steps.old + 3 }
    {
        self.expected.expect(position, kind, steps)
    }

    /// What the answer to the message that was sent with this serial is for, if one is expected.
    pub fn peek(&self, position: u32) -> Option<&Kind>
        ensures { option_copied result ≡ map.get self.now.expected position }
    {
        peek_from::<Brand>(self, position, Blank::new(1))
    }

    /// Does as `peek` does, with at most two look-ups.
    pub fn peek_counted<L: StepLedger>(&self, position: u32, steps: &mut Steps<L>) -> Option<&Kind>
        ensures is { option_copied result ≡ map.get self.now.expected position }
        ensures cost { steps.new ≤ steps.old + 2 }
    {
        self.expected.peek(position, steps)
    }

    /// Takes what that answer is for. It is then no longer expected.
    pub fn take(&mut self, position: u32) -> Option<Kind>
        ensures was { result ≡ map.get self.old.expected position }
        ensures left { self.new ≡ record self.old { expected = map.remove self.old.expected position } }
    {
        take_from::<Brand>(self, position, Blank::new(1))
    }

    /// Does as `take` does, with at most two look-ups, and one for each earlier answer that is passed over. Each is
    /// passed over once, so all takes together cost no more than two look-ups each and one for each `expect`.
    pub fn take_counted<L: StepLedger>(
        &mut self,
        position: u32,
        steps: &mut Steps<L>,
    ) -> Option<Kind>
        ensures was { result ≡ map.get self.old.expected position }
        ensures left { self.new ≡ record self.old { expected = map.remove self.old.expected position } }
        ensures cost { TakeCost self.old.expected position steps.old steps.new }
    {
        self.expected.take(position, steps)
    }

    /// Counts a call from this sender with this serial that wants a reply. If memory is refused, or the count would
    /// exceed 2^64 - 1, nothing changes.
    pub fn called(&mut self, sender: &str, serial: u32) -> Result<(), AllocError>
        ensures ok { OnOk result (self.new ≡ record self.old { owed = one_more self.old.owed sender.now serial }) }

        // One more reply is owed to that pair, and to every other as many as before.
        ensures counted { OnOk result ((s : Text) (n : ℕ) → count_of self.new.owed s n ≡ (if is_pair sender.now serial s n then count_of self.old.owed s n + 1 else count_of self.old.owed s n)) }

        // Nothing is kept of a pair or a sender to which nothing is owed.
        ensures kept { KeepsOwedAlone self.new.owed }

        ensures expected { self.new.expected ≡ self.old.expected }
        ensures err { OnErr result (self.new ≡ self.old) }
    {
        self.owed.add(sender, serial)
    }

    /// Whether a reply is owed to the calls of this destination with this serial.
    pub fn owed(&self, dest: &str, serial: u32) -> bool
        ensures { result ≡ nat_lt 0 (count_of self.now.owed dest.now serial) }
    {
        self.owed.count(dest, serial) > 0
    }

    /// Counts a reply of the client: if one was owed, one less is; else nothing changes.
    pub fn answer(&mut self, dest: &str, serial: u32) -> bool
        ensures was { result ≡ nat_lt 0 (count_of self.old.owed dest.now serial) }
        ensures left { self.new ≡ record self.old { owed = one_less self.old.owed dest.now serial } }

        // One reply less is owed to that pair, and to every other as many as before.
        ensures counted { (s : Text) (n : ℕ) → count_of self.new.owed s n ≡ (if is_pair dest.now serial s n then count_of self.old.owed s n - 1 else count_of self.old.owed s n) }

        // Nothing is kept of a pair or a sender to which nothing is owed.
        ensures kept { KeepsOwedAlone self.new.owed }

        ensures expected { self.new.expected ≡ self.old.expected }
        ensures unchanged { result ≡ false → self.new ≡ self.old }
    {
        self.owed.answer(dest, serial)
    }
}

// Expects an answer. The steps are counted in a ledger of their own.
fn expect_from<L: StepLedger>(
    ledger: &mut Ledger,
    position: u32,
    kind: Kind,
    blank: Blank,
) -> Result<(), AllocError>
    requires name { blank.name ≡ L.name }
    requires parts { blank.parts ≡ L.parts }
    requires some { 0 < blank.parts }
    ensures ok { OnOk result (ledger.new ≡ record ledger.old { expected = map.insert ledger.old.expected position kind }) }
    ensures err { OnErr result (ledger.new ≡ ledger.old) }
{
    let mut steps: Steps<L> = Steps::new(blank);
    ledger.expect_counted(position, kind, &mut steps)
}

// What an answer is for, with the steps counted in a ledger of their own.
fn peek_from<L: StepLedger>(ledger: &Ledger, position: u32, blank: Blank) -> Option<&Kind>
    requires name { blank.name ≡ L.name }
    requires parts { blank.parts ≡ L.parts }
    requires some { 0 < blank.parts }
    ensures { option_copied result ≡ map.get ledger.now.expected position }
{
    let mut steps: Steps<L> = Steps::new(blank);
    ledger.peek_counted(position, &mut steps)
}

// Takes an answer, with the steps counted in a ledger of their own.
fn take_from<L: StepLedger>(ledger: &mut Ledger, position: u32, blank: Blank) -> Option<Kind>
    requires name { blank.name ≡ L.name }
    requires parts { blank.parts ≡ L.parts }
    requires some { 0 < blank.parts }
    ensures was { result ≡ map.get ledger.old.expected position }
    ensures left { ledger.new ≡ record ledger.old { expected = map.remove ledger.old.expected position } }
{
    let mut steps: Steps<L> = Steps::new(blank);
    ledger.take_counted(position, &mut steps)
}
