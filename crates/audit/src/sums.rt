//! The denials by their reasons and entries, and the entries that are named.
ghost use Rattle.std.specs.Prelude.{◌≡◌, ◌<◌, ◌++◌, ◌∷◌, List, [], Some, IfOk, OnOk};
ghost use Rattle.policy_args.specs.Policy.{Policy as PolicyValue};
ghost use Rattle.policy_view.specs.Notes.{Note as NoteValue};
ghost use Rattle.audit.specs.Audit.{denial, named_by, reason_place as place_of_reason};
ghost use Rattle.audit.specs.Tallies.{SumsOf};

use crate::counters::Counters;
use crate::marks::Marks;
use crate::names::{mark_bus_names, mark_client_names};
use dbus_header::Places;
use explain_log::reason_entry_number;
use policy_args::Policy;
use policy_view::{Decision, Note, Reason, Showing, Verdict};
use std::alloc::{AllocError, Global};

/// The reasons in their order. Each that rests on an entry is one reason for all entries.
pub const REASONS: [Reason; 17] = [
    Reason::NotVisible,
    Reason::OnlySee(0),
    Reason::NoRule(0),
    Reason::BusMember,
    Reason::BusInterface,
    Reason::ArgNotVisible,
    Reason::ArgNotTalk,
    Reason::ArgNotOwn,
    Reason::Eavesdrop,
    Reason::NotOutstanding,
    Reason::UnknownType,
    Reason::BadArgument,
    Reason::SenderNotTalk,
    Reason::NameHidden,
    Reason::NotExpected,
    Reason::OwnAnswer,
    Reason::UnknownField,
];

/// The place of a reason among them, from 0.
pub fn reason_place(reason: Reason) -> usize
    ensures place { result ≡ place_of_reason reason }
    ensures few { result < 17 }
{
    match reason {
        Reason::NotVisible => 0,
        Reason::OnlySee(_) => 1,
        Reason::NoRule(_) => 2,
        Reason::BusMember => 3,
        Reason::BusInterface => 4,
        Reason::ArgNotVisible => 5,
        Reason::ArgNotTalk => 6,
        Reason::ArgNotOwn => 7,
        Reason::Eavesdrop => 8,
        Reason::NotOutstanding => 9,
        Reason::UnknownType => 10,
        Reason::BadArgument => 11,
        Reason::SenderNotTalk => 12,
        Reason::NameHidden => 13,
        Reason::NotExpected => 14,
        Reason::OwnAnswer => 15,
        Reason::UnknownField => 16,
    }
}

/// What is counted of notes by reasons and by entries.
#[derive(Drop)]
pub struct Sums {
    /// The denials with each reason.
    pub reasons: Counters,
    /// The denials that rest on the entry of each number, and at 0 those that rest on none.
    pub entries: Counters,
    /// The entries that are named.
    pub named: Marks,
}

impl Sums {
    /// Nothing was counted yet.
    pub fn new(alloc: Global, policy: &Policy) -> Result<Sums, AllocError>
        ensures { IfOk result (λ sums. SumsOf policy.now [] sums) }
    {
        Ok(Sums {
            reasons: Counters::new(alloc, REASONS.len())?,
            entries: Counters::new(alloc, policy.len() as usize + 1)?,
            named: Marks::new(alloc, policy)?,
        })
    }

    /// Counts a denial.
    fn deny(&mut self, reason: Reason) -> Result<(), AllocError>
        ensures { (policy : PolicyValue) (notes : List NoteValue) (note : NoteValue) → denial note ≡ Some reason → named_by note ≡ [] → SumsOf policy notes self.old → OnOk result (SumsOf policy (notes ++ note ∷ []) self.new) }
    {
        self.reasons.raise(reason_place(reason))?;
        self.entries.raise(reason_entry_number(reason) as usize)
    }

    /// Counts a note. Its message is read only if it may name an entry.
    pub fn count(&mut self, alloc: Global, policy: &Policy, note: &Note) -> Result<(), AllocError>
        ensures { (notes : List NoteValue) → SumsOf policy.now notes self.old → OnOk result (SumsOf policy.now (notes ++ note.now ∷ []) self.new) }
    {
        let mut places = Places::none();
        match note.decision() {
            Decision::Judged(Verdict::Pass) => {
                let message = note.message(&mut places);
                mark_client_names(alloc, policy, &message, &mut self.named)
            }
            Decision::Judged(Verdict::Ping(_, reason)) => self.deny(reason),
            Decision::Judged(Verdict::Drop(reason)) => self.deny(reason),
            Decision::Shown(Showing::Whole) => {
                let message = note.message(&mut places);
                mark_bus_names(alloc, policy, &message, &mut self.named)
            }
            Decision::Shown(_) => Ok(()),
        }
    }

    /// Adds what was counted of other notes.
    pub fn add(&mut self, other: &Sums) -> Result<(), AllocError>
        ensures { (policy : PolicyValue) (notes more : List NoteValue) → SumsOf policy notes self.old → SumsOf policy more other.now → OnOk result (SumsOf policy (notes ++ more) self.new) }
    {
        self.reasons.add(&other.reasons)?;
        self.entries.add(&other.entries)?;
        self.named.add(&other.named);
        Ok(())
    }
}
