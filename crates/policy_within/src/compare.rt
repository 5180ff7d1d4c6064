//! The comparison of two policies, entry by entry.
ghost use Rattle.std.specs.Prelude.{◌≡◌, true, IfOk, OnOk};
ghost use Rattle.policy_within.specs.Apart.{are_patterns, are_rooted};
ghost use Rattle.policy_within.specs.Elements.{IsFirstFree, elements, fresh};
ghost use Rattle.policy_within.specs.Within.{answer_of};

use crate::answer::{CoveredEntries, CoveredEntry, WithinAnswer};
use crate::cover::cover;
use crate::z_words::fresh_element;
use policy_args::Policy;
use std::alloc::{AllocError, Global};

/// Finds the first point of the inner policy's entries that the outer policy doesn't permit, or else the entries of the
/// outer policy that permit them.
pub(crate) fn compare(
    alloc: Global,
    inner: &Policy,
    outer: &Policy,
) -> Result<WithinAnswer, AllocError>
    ensures exact { IfOk result (λ answer. answer ≡ answer_of inner.now outer.now) }
    ensures free { OnOk result (IsFirstFree (elements outer.now.entries) (fresh outer.now.entries)) }
    ensures rooted { OnOk result (are_rooted outer.now.entries ≡ true) }
{
    let fresh = fresh_element(alloc, outer)?;
    let mut covered = Vec::new(alloc);
    for index in 0..inner.len() {
        match cover(alloc, fresh.as_str(), inner.entry(index + 1), outer)? {
            Ok(by) => covered.push(CoveredEntry {
                entry: index + 1,
                by,
            })?,
            Err(asked) => return Ok(WithinAnswer::No(asked)),
        }
    }
    Ok(WithinAnswer::Yes(CoveredEntries::new(covered)))
}

/// Each entry's pattern is in the grammar of patterns.
pub(crate) fn check_patterns(policy: &Policy)
    ensures { are_patterns policy.now.entries ≡ true }
{
    for index in 0..policy.len() {
        let _name = policy.entry(index + 1).pattern.name();
    }
}
