//! The entries of a policy that permit what an entry of another permits.
ghost use Rattle.std.specs.Prelude.{◌≡◌, ◌&&◌, true, length, IfOk, OnOk};
ghost use Rattle.policy_args.specs.Covering.{is_number, passes_at};
ghost use Rattle.policy_args.specs.Requests.{grant_permits};
ghost use Rattle.policy_within.specs.Apart.{IsPlain};
ghost use Rattle.policy_within.specs.Steps.{cover_of, is_below as is_number_below, with_number};
ghost use Rattle.policy_within.specs.Within.{lowest as lowest_number};

use crate::answer::Numbers;
use crate::points::points;
use policy_args::{Asked, Entry, Policy, covering_numbers_have_entries, permits_by_entries};
use std::alloc::{AllocError, Global};

/// The lowest entries of a policy that permit the points of an entry, or the first point that the policy doesn't
/// permit.
pub(crate) fn cover(
    alloc: Global,
    fresh: &str,
    entry: &Entry,
    policy: &Policy,
) -> Result<Result<Numbers, Asked>, AllocError>
    requires { IsPlain fresh.now }
    ensures { IfOk result (λ cover. cover ≡ cover_of policy.now fresh.now entry.now) }
{
    permits_by_entries();
    let mut points = points(alloc, fresh, entry)?;
    let mut numbers = Vec::new(alloc);
    for index in 0..points.len() {
        match lowest(policy, &points[index]) {
            Some(number) => add(&mut numbers, number)?,
            None => return Ok(Err(points.swap_remove(index))),
        }
    }
    Ok(Ok(Numbers::new(numbers)))
}

// The lowest number of an entry that permits a request by itself.
fn lowest(policy: &Policy, asked: &Asked) -> Option<u32>
    ensures { result ≡ lowest_number policy.now.entries asked.now }
{
    covering_numbers_have_entries();
    let mut least = None;
    for number in policy.covering(asked.name()) {
        if is_lower(policy, asked, number, least) {
            least = Some(number);
        }
    }
    least
}

// Whether the entry with a number precedes the lowest so far, and its grant permits the request.
fn is_lower(policy: &Policy, asked: &Asked, number: u32, least: Option<u32>) -> bool
    requires { is_number (length policy.now.entries) number ≡ true }
    ensures { result ≡ (is_number_below number least && passes_at (λ e. grant_permits e.grant asked.now) policy.now.entries number) }
{
    is_below(number, least) && policy.entry(number).grant.permits(asked)
}

fn is_below(number: u32, least: Option<u32>) -> bool
    ensures { result ≡ is_number_below number least }
{
    match least {
        Some(least) => number < least,
        None => true,
    }
}

// Inserts a number among ascending ones, unless it is there already.
fn add(numbers: &mut Vec<u32>, number: u32) -> Result<(), AllocError>
    ensures { OnOk result (numbers.new.items ≡ with_number number numbers.old.items) }
{
    let mut place = 0;
    while place < numbers.len() && numbers[place] < number {
        place += 1;
    }
    if place == numbers.len() || numbers[place] != number {
        numbers.insert(place, number)?;
    }
    Ok(())
}
