//! Whether one policy is within another: whether it permits no request of a name that the other doesn't permit.
#![tactic(auto)]

ghost use Rattle.std.specs.Prelude.{◌≡◌, ◌↔◌, IfOk, IsTrue, OnOk};
ghost use Rattle.policy_args.specs.Requests.{Within};
ghost use Rattle.policy_within.specs.Elements.{IsFirstFree, elements, fresh};
ghost use Rattle.policy_within.specs.Within.{Tells, answer_of, is_yes};

mod answer;
mod compare;
mod cover;
mod points;
mod z_words;

pub use answer::{CoveredEntries, CoveredEntry, Numbers, WithinAnswer};
use compare::{check_patterns, compare};
use policy_args::{Policy, permits_by_entries};
use std::alloc::{AllocError, Global};

/// Whether the outer policy permits each request that the inner policy permits.
///
/// Only requests of well-known names other than the bus's own count. The filter and the logs of the options aren't
/// compared.
pub fn within(alloc: Global, inner: &Policy, outer: &Policy) -> Result<WithinAnswer, AllocError>
    // The points use the first of z0, z1 .. that the outer policy doesn't name.
    ensures exact { IfOk result (λ answer. answer ≡ answer_of inner.now outer.now) }
    ensures free { OnOk result (IsFirstFree (elements outer.now.entries) (fresh outer.now.entries)) }

    // It is Yes exactly if the outer policy permits all that the inner one permits.
    ensures yes { IfOk result (λ answer. IsTrue (is_yes answer) ↔ Within inner.now outer.now) }

    // A No has a request that only the inner policy permits, and a Yes the entries that permit what each entry permits.
    ensures tells { IfOk result (λ answer. Tells inner.now outer.now answer) }
{
    permits_by_entries();
    check_patterns(inner);
    compare(alloc, inner, outer)
}
