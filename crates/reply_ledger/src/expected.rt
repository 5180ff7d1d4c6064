//! The answers that are expected.
ghost use Rattle.std.specs.Prelude.{◌≡◌, ◌≤◌, ◌<◌, ◌+◌, ◌↔◌, false, IfNone, IfSome, IsTrue, OnErr, OnOk, All, Some, drop, length, slice_set, take};
ghost use Rattle.std.specs.FinMap as map;
ghost use Rattle.std.specs.Option.{option_copied, option_map};
ghost use Rattle.reply_ledger.specs.Expected.{IsAbsent, IsAscending, IsInOrder, TakeCost, kinds_of, position_at, with_queue};

use crate::kind::Kind;
use name_patterns::Steps;
use std::alloc::{AllocError, Global};
use std::collections::{BTreeMap, VecDeque};
use std::marker::Model;
use std::sync::ledger::Ledger as StepLedger;

/// The maximum room, in entries, that a queue without entries keeps.
const KEPT: usize = 64;

/// What the answer to the message with this serial is for.
#[derive(Drop)]
pub(crate) struct Awaited {
    position: u32,
    kind: Kind,
}

/// The answers that are expected, by the serials of the messages that were sent.
///
/// Serials are given in ascending order, and a bus mostly answers in that order. So an entry is appended to a queue and
/// taken from its start, without a search. The others are those that were added with a serial below the last one's, and
/// those that the bus passed over when it answered a later message: each of these is moved once.
///
/// ```text
///   queue, ascending             others
/// +----+----+----+----+        +---+---+
/// | 12 | 13 | 15 | 16 |        | 3 | 9 |
/// +----+----+----+----+        +---+---+
///   ^ take              ^ expect
/// ```
#[derive(Drop)]
pub(crate) struct Expected {
    queue: VecDeque<Awaited>,
    others: BTreeMap<u32, Kind>,
    alloc: Global,
}

impl Model for Expected {
    ghost use Rattle.std.specs.FinMap as map;
    ghost use Rattle.std.specs.Ordering.{nat_cmp};
    ghost use Rattle.std.specs.Coded.{codes, coded_ℕ, coded_list};
    ghost use Rattle.reply_ledger.specs.declared.kind.Kind.{Kind as KindValue};

    ghost Value = { map.FinMap nat_cmp KindValue };

    ghost coded = { map.code {X = KindValue} {R = nat_cmp} coded_ℕ (Prim.hlevel (codes, coded_list coded_ℕ)) };

    ghost use Rattle.reply_ledger.specs.Expected.{IsInOrder, kinds_of, with_queue};

    ghost view = { λ e. with_queue (kinds_of e.others.entries) e.queue.items };

    ghost invariant = { λ e. IsInOrder (kinds_of e.others.entries) e.queue.items };
}

impl Expected {
    /// No answer is expected.
    pub(crate) fn new(alloc: Global) -> Expected
        ensures { result ≡ map.empty }
    {
        Expected {
            queue: VecDeque::new(alloc),
            others: BTreeMap::new(alloc),
            alloc,
        }
    }

    /// Expects the answer to the message with this serial, for this.
    pub(crate) fn expect<L: StepLedger>(
        &mut self,
        position: u32,
        kind: Kind,
        steps: &mut Steps<L>,
    ) -> Result<(), AllocError>
        ensures ok { OnOk result (self.new ≡ map.insert self.old position kind) }
        ensures err { OnErr result (self.new ≡ self.old) }
        ensures cost { steps.new ≤ steps.old + 3 }
    {
        if is_behind(&self.queue, position) && !has(&self.others, position, steps) {
            self.queue.push_back(Awaited { position, kind })?;
            return Ok(());
        }
        match index_of(&self.queue, position, steps) {
            Some(index) => {
                replace(&mut self.queue, index, Awaited { position, kind });
                Ok(())
            }
            None => put(&mut self.others, position, kind, steps),
        }
    }

    /// What the answer to the message with this serial is for, if one is expected.
    pub(crate) fn peek<L: StepLedger>(&self, position: u32, steps: &mut Steps<L>) -> Option<&Kind>
        ensures is { option_copied result ≡ map.get self.now position }
        ensures cost { steps.new ≤ steps.old + 2 }
    {
        if let Some(first) = self.queue.front()
            && first.position == position
        {
            return Some(&first.kind);
        }
        steps.tick();
        if let Some(kind) = self.others.get(&position) {
            return Some(kind);
        }
        match index_of(&self.queue, position, steps) {
            Some(index) => Some(&self.queue[index].kind),
            None => None,
        }
    }

    /// Takes what that answer is for. It is then no longer expected.
    pub(crate) fn take<L: StepLedger>(
        &mut self,
        position: u32,
        steps: &mut Steps<L>,
    ) -> Option<Kind>
        ensures was { result ≡ map.get self.old position }
        ensures left { self.new ≡ map.remove self.old position }
        ensures cost { TakeCost self.old position steps.old steps.new }
    {
        let kind = remove(&mut self.queue, &mut self.others, position, steps);
        self.release();
        kind
    }

    /// Frees the room that a queue without entries doesn't keep.
    fn release(&mut self)
        ensures { self.new ≡ self.old }
    {
        if self.queue.is_empty() && self.queue.capacity() > KEPT {
            self.queue = VecDeque::new(self.alloc);
        }
    }
}

/// Removes what the answer at a position is for, from a queue or the others.
fn remove<L: StepLedger>(
    queue: &mut VecDeque<Awaited>,
    others: &mut BTreeMap<u32, Kind>,
    position: u32,
    steps: &mut Steps<L>,
) -> Option<Kind>
    requires { IsInOrder (kinds_of others.old.entries) queue.old.items }
    ensures order { IsInOrder (kinds_of others.new.entries) queue.new.items }
    ensures was { result ≡ map.get (with_queue (kinds_of others.old.entries) queue.old.items) position }
    ensures left { with_queue (kinds_of others.new.entries) queue.new.items ≡ map.remove (with_queue (kinds_of others.old.entries) queue.old.items) position }

    // An answer that is passed over is a step ..
    ensures cost { TakeCost (with_queue (kinds_of others.old.entries) queue.old.items) position steps.old steps.new }

    // .. and leaves the queue. So each answer is passed over once: all takes together cost at most two steps each, and
    // one for each answer that was expected.
    ensures once { steps.new + length queue.new.items ≤ steps.old + 2 + length queue.old.items }
{
    if is_first(queue, position) {
        return kind_of(queue.pop_front());
    }
    remove_later(queue, others, position, steps)
}

/// Does as `remove` does, for an answer that isn't the next one to be expected. It is a call, so that no room is cleared
/// for its results while the bus answers in order.
#[inline(never)]
fn remove_later<L: StepLedger>(
    queue: &mut VecDeque<Awaited>,
    others: &mut BTreeMap<u32, Kind>,
    position: u32,
    steps: &mut Steps<L>,
) -> Option<Kind>
    requires { IsInOrder (kinds_of others.old.entries) queue.old.items }
    ensures order { IsInOrder (kinds_of others.new.entries) queue.new.items }
    ensures was { result ≡ map.get (with_queue (kinds_of others.old.entries) queue.old.items) position }
    ensures left { with_queue (kinds_of others.new.entries) queue.new.items ≡ map.remove (with_queue (kinds_of others.old.entries) queue.old.items) position }
    ensures cost { TakeCost (with_queue (kinds_of others.old.entries) queue.old.items) position steps.old steps.new }
    ensures once { steps.new + length queue.new.items ≤ steps.old + 2 + length queue.old.items }
{
    steps.tick();
    if let Some(kind) = others.remove(&position) {
        return Some(kind);
    }
    match index_of(queue, position, steps) {
        Some(index) => {
            // The bus passed over those before it. If memory for them is refused, they stay in the queue.
            let moved = move_front(queue, others, index, steps);
            kind_of(queue.remove(index - moved))
        }
        None => None,
    }
}

/// Whether a position is above all positions of an ascending queue.
fn is_behind(queue: &VecDeque<Awaited>, position: u32) -> bool
    ensures { IsAscending queue.now.items → (IsTrue result ↔ All (λ a. a.position < position) queue.now.items) }
{
    match queue.back() {
        Some(last) => last.position < position,
        None => true,
    }
}

/// Whether the first entry of a queue has this position.
fn is_first(queue: &VecDeque<Awaited>, position: u32) -> bool
    ensures { IsTrue result ↔ (position_at queue.now.items 0 ≡ Some position) }
{
    match queue.front() {
        Some(first) => first.position == position,
        None => false,
    }
}

/// What an entry is for.
fn kind_of(entry: Option<Awaited>) -> Option<Kind>
    ensures { result ≡ option_map (λ a. a.kind) entry }
{
    entry.map(|awaited| awaited.kind)
}

/// Replaces the entry at an index of the queue.
fn replace(queue: &mut VecDeque<Awaited>, index: usize, entry: Awaited)
    requires { index < length queue.old.items }
    ensures { queue.new.items ≡ slice_set queue.old.items index entry }
{
    queue[index] = entry;
}

/// Whether one of the others has this position.
fn has<L: StepLedger>(others: &BTreeMap<u32, Kind>, position: u32, steps: &mut Steps<L>) -> bool
    ensures has { result ≡ map.contains_key (kinds_of others.now.entries) position }
    ensures cost { steps.new ≤ steps.old + 1 }
{
    if others.is_empty() {
        return false;
    }
    steps.tick();
    others.contains_key(&position)
}

/// The index of a position in an ascending queue, if it is there.
fn index_of<L: StepLedger>(
    queue: &VecDeque<Awaited>,
    position: u32,
    steps: &mut Steps<L>,
) -> Option<usize>
    ensures found { IfSome result (λ i. position_at queue.now.items i ≡ Some position) }
    ensures absent { IfNone result (IsAscending queue.now.items → IsAbsent queue.now.items position) }
    ensures cost { steps.new ≡ steps.old + 1 }
{
    steps.tick();
    queue
        .binary_search_by_key(&position, |awaited| awaited.position)
        .ok()
}

/// Adds what an answer is for to the others.
fn put<L: StepLedger>(
    others: &mut BTreeMap<u32, Kind>,
    position: u32,
    kind: Kind,
    steps: &mut Steps<L>,
) -> Result<(), AllocError>
    ensures ok { OnOk result (kinds_of others.new.entries ≡ map.insert (kinds_of others.old.entries) position kind) }
    ensures err { OnErr result (others.new.entries ≡ others.old.entries) }
    ensures cost { steps.new ≡ steps.old + 1 }
{
    steps.tick();
    others.insert(position, kind)?;
    Ok(())
}

/// Moves the first `count` entries of a queue to the others, or fewer if memory is refused. Returns how many.
fn move_front<L: StepLedger>(
    queue: &mut VecDeque<Awaited>,
    others: &mut BTreeMap<u32, Kind>,
    count: usize,
    steps: &mut Steps<L>,
) -> usize
    ensures most { result ≤ count }
    ensures queue { queue.new.items ≡ drop result queue.old.items }
    ensures others { kinds_of others.new.entries ≡ with_queue (kinds_of others.old.entries) (take result queue.old.items) }
    ensures cost { steps.new ≡ steps.old + result }
{
    for moved in 0..count {
        if !move_first(queue, others) {
            return moved;
        }
        steps.tick();
    }
    count
}

/// Moves the first entry of a queue to the others, if there is one and memory for it. Returns whether it did.
fn move_first(queue: &mut VecDeque<Awaited>, others: &mut BTreeMap<u32, Kind>) -> bool
    ensures queue { IsTrue result → queue.new.items ≡ drop 1 queue.old.items }
    ensures others { IsTrue result → kinds_of others.new.entries ≡ with_queue (kinds_of others.old.entries) (take 1 queue.old.items) }
    ensures kept { result ≡ false → (queue.new.items ≡ queue.old.items) × (others.new.entries ≡ others.old.entries) }
{
    let Some(first) = queue.pop_front() else {
        return false;
    };
    match others.insert(first.position, first.kind) {
        Ok(_) => true,
        Err(refused) => {
            let (position, kind) = refused.value;
            queue.push_front_reserved(Awaited { position, kind });
            false
        }
    }
}
