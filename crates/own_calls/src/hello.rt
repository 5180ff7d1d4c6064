//! The calls right after the first `Hello`: those for each pattern of the policy, and ListNames if one is `N.*`.
ghost use Rattle.std.specs.Prelude.{◌≡◌, ◌≤◌, ◌++◌, ◌+◌, OnErr, OnOk, length};
ghost use Rattle.std.specs.List.{list_any};
ghost use Rattle.own_calls.specs.Sending.{AreCutOff, expecting};
ghost use Rattle.policy_args.specs.Policy.{patterns_of};
ghost use Rattle.policy_view.specs.Sent.{calls_for, is_subtree, own_calls, spelled_from};
ghost use Rattle.serial_map.specs.Serials.{most_serials};

use crate::sending::{put_calls_for, put_names};
use bytes::BytesMut;
use name_patterns::Pattern;
use policy_args::Policy;
use reply_ledger::Ledger;
use serial_map::Serials;
use std::alloc::{AllocError, Global};

/// The number of calls that `after_hello` appends: one or two for each pattern, and one more if a pattern is `N.*`.
pub fn count(policy: &Policy) -> u32
    ensures { result ≡ length (own_calls policy.now) }
{
    let mut count = 0;
    for index in 0..pattern_count(policy) {
        count += calls_for_count(policy.pattern(index + 1));
    }
    if has_subtree(policy) {
        count + 1
    } else {
        count
    }
}

/// Appends the calls that follow the first `Hello`: for each pattern of the policy, in order and once, an AddMatch,
/// followed by a GetNameOwner if the name is exact; and a ListNames at the end if a pattern is `N.*`. If memory is
/// refused, the appended bytes, the used serials and the expected answers are each those of a prefix of these calls.
pub fn after_hello(
    alloc: Global,
    calls: &mut BytesMut,
    policy: &Policy,
    serials: &mut Serials,
    ledger: &mut Ledger,
) -> Result<(), AllocError>
    requires { serials.old + length (own_calls policy.now) ≤ most_serials }
    ensures bytes { OnOk result (calls.new.items ≡ calls.old.items ++ spelled_from (serials.old + 1) (own_calls policy.now)) }
    ensures serials { OnOk result (serials.new ≡ serials.old + length (own_calls policy.now)) }
    ensures ledger { OnOk result (ledger.new ≡ record ledger.old { expected = expecting ledger.old.expected (serials.old + 1) (own_calls policy.now) }) }
    ensures err { OnErr result (AreCutOff (own_calls policy.now) calls.old.items serials.old ledger.old calls.new.items serials.new ledger.new) }
{
    for index in 0..pattern_count(policy) {
        put_calls_for(alloc, calls, serials, ledger, policy.pattern(index + 1))?;
    }
    if has_subtree(policy) {
        put_names(calls, serials, ledger)?;
    }
    Ok(())
}

/// The number of patterns of the policy, which is at most that of its entries.
pub(crate) fn pattern_count(policy: &Policy) -> u32
    ensures count { result ≡ length (patterns_of policy.now.entries) }
    ensures most { result ≤ 65535 }
{
    let _entries = policy.len();
    policy.pattern_count()
}

/// Whether a pattern of the policy is `N.*`.
fn has_subtree(policy: &Policy) -> bool
    ensures { result ≡ list_any is_subtree policy.now.entries }
{
    for index in 0..policy.len() {
        if !policy.entry(index + 1).pattern.is_exact() {
            return true;
        }
    }
    false
}

/// The number of calls that find who owns the names of a pattern.
fn calls_for_count(pattern: &Pattern) -> u32
    ensures count { result ≡ length (calls_for pattern.now) }
    ensures few { result ≤ 2 }
{
    if pattern.is_exact() { 2 } else { 1 }
}
