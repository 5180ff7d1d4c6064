//! Numbers that are counted up, each by its place.
ghost use Rattle.std.specs.Prelude.{◌≡◌, ◌+◌, ◌==◌, ℕ, cond, get_or, IfOk, OnOk};
ghost use Rattle.std.proofs.Math.ListN.{set};
ghost use Rattle.audit.specs.Tallies.{Counts};

use std::alloc::{AllocError, Global};
use std::marker::Model;

/// A row of numbers, which only grow.
#[derive(Drop)]
pub struct Counters {
    counts: Vec<u64>,
}

impl Model for Counters {
    ghost use Rattle.std.specs.Prelude.{ℕ, List};

    ghost Value = { List ℕ };

    ghost view = { λ counters. counters.counts.items };
}

impl Counters {
    /// A row of this length, in which nothing is counted yet.
    pub fn new(alloc: Global, len: usize) -> Result<Counters, AllocError>
        ensures { IfOk result (λ counters. Counts len (λ place. 0) counters) }
    {
        Ok(Counters {
            counts: vec![in alloc; 0; len]?,
        })
    }

    /// The number at a place, which is 0 beyond the last place.
    pub fn get(&self, place: usize) -> u64
        ensures { result ≡ get_or self.now place 0 }
    {
        match self.counts.get(place) {
            Some(count) => *count,
            None => 0,
        }
    }

    /// Adds to the number at a place. Beyond the last place nothing is added.
    fn add_at(&mut self, place: usize, more: u64) -> Result<(), AllocError>
        ensures { OnOk result (self.new ≡ set self.old place (get_or self.old place 0 + more)) }
    {
        if let Some(count) = self.counts.get_mut(place) {
            match count.checked_add(more) {
                Some(sum) => *count = sum,
                None => return Err(AllocError),
            }
        }
        Ok(())
    }

    /// Counts one more at a place. Beyond the last place nothing is counted.
    pub fn raise(&mut self, place: usize) -> Result<(), AllocError>
        ensures { (len : ℕ) (count : ℕ → ℕ) → Counts len count self.old → OnOk result (Counts len (λ i. count i + cond (place == i) 1 0) self.new) }
    {
        self.add_at(place, 1)
    }

    /// Adds the numbers of another row, place by place.
    pub fn add(&mut self, other: &Counters) -> Result<(), AllocError>
        ensures { (len : ℕ) (count more : ℕ → ℕ) → Counts len count self.old → Counts len more other.now → OnOk result (Counts len (λ i. count i + more i) self.new) }
    {
        for place in 0..self.counts.len() {
            self.add_at(place, other.get(place))?;
        }
        Ok(())
    }
}
