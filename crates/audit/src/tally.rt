//! What is counted of notes.
ghost use Rattle.std.specs.Prelude.{◌≡◌, ◌+◌, ◌++◌, ◌∷◌, List, [], IfOk, OnOk, cond, is_some};
ghost use Rattle.policy_view.specs.Notes.{Note as NoteValue};
ghost use Rattle.audit.specs.Audit.{denied_by};
ghost use Rattle.audit.specs.Tallies.{TallyOf};

use crate::sums::Sums;
use note_gathering::Gatherer;
use policy_args::Policy;
use policy_view::{Decision, Note, Verdict};
use std::alloc::{AllocError, Global};

/// How many notes and denials a recording has, and what is counted by reasons and by entries.
#[derive(Drop)]
pub struct Tally {
    pub items: u64,
    pub denied: u64,
    pub sums: Sums,
}

/// How many denials a decision is: 1 if it doesn't pass a message of the client, else 0.
fn denials_in(decision: Decision) -> u64
    ensures { result ≡ cond (is_some (denied_by decision)) 1 0 }
{
    match decision {
        Decision::Judged(Verdict::Ping(_, _)) | Decision::Judged(Verdict::Drop(_)) => 1,
        _ => 0,
    }
}

impl Tally {
    /// Nothing was counted yet.
    pub fn new(alloc: Global, policy: &Policy) -> Result<Tally, AllocError>
        ensures { IfOk result (λ tally. TallyOf policy.now [] tally) }
    {
        Ok(Tally {
            items: 0,
            denied: 0,
            sums: Sums::new(alloc, policy)?,
        })
    }

    /// Counts a note.
    fn count(&mut self, alloc: Global, policy: &Policy, note: &Note) -> Result<(), AllocError>
        ensures { (notes : List NoteValue) → TallyOf policy.now notes self.old → OnOk result (TallyOf policy.now (notes ++ note.now ∷ []) self.new) }
    {
        self.items = sum_of(self.items, 1)?;
        self.denied = sum_of(self.denied, denials_in(note.decision()))?;
        self.sums.count(alloc, policy, note)
    }
}

/// The sum of two numbers. Refused if it is too large.
fn sum_of(count: u64, more: u64) -> Result<u64, AllocError>
    ensures { IfOk result (λ sum. sum ≡ count + more) }
{
    match count.checked_add(more) {
        Some(sum) => Ok(sum),
        None => Err(AllocError),
    }
}

/// What counts notes under a policy.
#[derive(Drop)]
pub struct Count<'a> {
    pub policy: &'a Policy,
}

impl<'a> Gatherer for Count<'a> {
    type Gathered = Tally;

    ghost stands_for = { λ count notes tally. TallyOf count.policy.now notes tally };

    fn start(&self, alloc: Global) -> Result<Tally, AllocError> {
        Tally::new(alloc, self.policy)
    }

    fn take(&self, alloc: Global, gathered: &mut Tally, note: &Note) -> Result<(), AllocError> {
        gathered.count(alloc, self.policy, note)
    }
}
