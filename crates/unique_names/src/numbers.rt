//! Ascending numbers of entries, changed in place.
ghost use Rattle.std.specs.Prelude.{◌≡◌, ◌≤◌, ◌<◌, ◌+◌, ◌*◌, [], if◌then◌else◌, true, false, IsOk, OnErr, OnOk, vec_capacity, vec_len};
ghost use Rattle.unique_names.specs.Inserted.{ascends_from, is_in, missing_in, place_of, with_number, with_numbers};
ghost use Rattle.unique_names.specs.Merged.{look_ups, merged_from};

use crate::entries::Entries;
use name_patterns::Steps;
use policy_args::Policy;
use std::alloc::AllocError;
use std::sync::ledger::Ledger;

/// Inserts the numbers of the entries that cover a name, and removes those that aren't numbers of entries. If memory is
/// refused, nothing changes.
pub(crate) fn merge<L: Ledger>(
    policy: &Policy,
    name: &str,
    numbers: &mut Vec<u32>,
    steps: &mut Steps<L>,
) -> Result<(), AllocError>
    requires { ascends_from 1 numbers.old.items ≡ true }
    ensures ok { OnOk result (numbers.new.items ≡ merged_from name.now 1 policy.now.entries numbers.old.items) }

    // If all are there already, it takes no memory.
    ensures known { missing_in numbers.old.items (merged_from name.now 1 policy.now.entries []) ≡ 0 → IsOk result }
    ensures err { OnErr result (numbers.new.items ≡ numbers.old.items) }

    // The entries that cover the name are walked once to count those that are missing, and once to insert them.
    ensures cost { steps.new ≤ steps.old + 2 * look_ups name.now (merged_from name.now 1 policy.now.entries []) }
{
    insert_missing(policy, name, numbers, steps)?;
    match place(numbers, policy.len() + 1) {
        Ok(end) => numbers.truncate(end),
        Err(end) => numbers.truncate(end),
    }
    Ok(())
}

// Inserts the numbers of the entries that cover a name.
fn insert_missing<L: Ledger>(
    policy: &Policy,
    name: &str,
    numbers: &mut Vec<u32>,
    steps: &mut Steps<L>,
) -> Result<(), AllocError>
    requires { ascends_from 1 numbers.old.items ≡ true }
    ensures ok { OnOk result (numbers.new.items ≡ with_numbers (merged_from name.now 1 policy.now.entries []) numbers.old.items) }
    ensures known { missing_in numbers.old.items (merged_from name.now 1 policy.now.entries []) ≡ 0 → IsOk result }
    ensures err { OnErr result (numbers.new.items ≡ numbers.old.items) }
    ensures cost { steps.new ≤ steps.old + 2 * look_ups name.now (merged_from name.now 1 policy.now.entries []) }
{
    let count = count_missing(policy, name, numbers, steps);
    if count == 0 {
        return Ok(());
    }
    numbers.reserve(count)?;
    insert_covering(policy, name, numbers, steps);
    Ok(())
}

// The number of entries that cover a name and whose numbers aren't there yet.
fn count_missing<L: Ledger>(
    policy: &Policy,
    name: &str,
    numbers: &[u32],
    steps: &mut Steps<L>,
) -> usize
    requires { ascends_from 1 numbers.now ≡ true }
    ensures count { result ≡ missing_in numbers.now (merged_from name.now 1 policy.now.entries []) }
    ensures cost { steps.new ≤ steps.old + look_ups name.now (merged_from name.now 1 policy.now.entries []) }
{
    let mut count = 0;
    let mut entries = Entries::covering(policy, name, &[]);
    while let Some(number) = entries.next_counted(steps) {
        if place(numbers, number).is_err() {
            count += 1;
        }
    }
    count
}

// Inserts the numbers of the entries that cover a name. Memory for them was reserved.
fn insert_covering<L: Ledger>(
    policy: &Policy,
    name: &str,
    numbers: &mut Vec<u32>,
    steps: &mut Steps<L>,
)
    requires ascending { ascends_from 1 numbers.old.items ≡ true }
    requires room { vec_len numbers.old + missing_in numbers.old.items (merged_from name.now 1 policy.now.entries []) ≤ vec_capacity numbers.old }
    ensures items { numbers.new.items ≡ with_numbers (merged_from name.now 1 policy.now.entries []) numbers.old.items }
    ensures cost { steps.new ≤ steps.old + look_ups name.now (merged_from name.now 1 policy.now.entries []) }
{
    let mut entries = Entries::covering(policy, name, &[]);
    while let Some(number) = entries.next_counted(steps) {
        insert(numbers, number);
    }
}

// Inserts a number at its place, unless it is there already.
fn insert(numbers: &mut Vec<u32>, number: u32)
    requires ascending { ascends_from 1 numbers.old.items ≡ true }
    requires room { is_in number numbers.old.items ≡ false → vec_len numbers.old < vec_capacity numbers.old }
    ensures items { numbers.new.items ≡ with_number number numbers.old.items }
    ensures len { vec_len numbers.new ≡ (if is_in number numbers.old.items then vec_len numbers.old else vec_len numbers.old + 1) }
    ensures capacity { vec_capacity numbers.new ≡ vec_capacity numbers.old }
{
    if let Err(place) = place(numbers, number) {
        match numbers.insert(place, number) {
            Ok(()) => {}
            Err(_) => unreachable!(),
        }
    }
}

// The place of a number, or else the place at which it would be inserted.
fn place(numbers: &[u32], number: u32) -> Result<usize, usize>
    requires { ascends_from 1 numbers.now ≡ true }
    ensures { result ≡ place_of number numbers.now }
{
    numbers.binary_search(&number)
}
