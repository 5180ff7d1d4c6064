//! The lengths of the proxy's own calls.
ghost use Rattle.std.specs.Prelude.{◌≡◌, ◌≤◌, ◌+◌, ◌*◌, ℕ, List, Some, length, map};
ghost use Rattle.dbus_header.specs.Message.{Message, spell, text_list};
ghost use Rattle.dbus_names.specs.Texts.{Text};
ghost use Rattle.policy_args.specs.Policy.{Policy as PolicyValue};
ghost use Rattle.policy_view.specs.Sent.{asked, own_calls, spelled_from, OwnOwner};

use crate::hello::pattern_count;
use policy_args::Policy;

/// The calls for the names of a list are at most 19 times as long as the message with the list: a name of n bytes, at
/// least 3, takes n + 5 bytes or more in the list, and a GetNameOwner for it has 149 + n.
pub fn lengths_of_asked()
    ensures { (policy : PolicyValue) (m : Message) (names : List Text) (serial : ℕ) → text_list m ≡ Some names → length (spelled_from serial (map OwnOwner (asked policy names))) ≤ 19 * length (spell m) }
{}

/// The calls that follow the first `Hello` are short: for each of at most 65,535 patterns an AddMatch of at most 514
/// bytes and a GetNameOwner of at most 404, or an AddMatch of at most 523; and 136 for ListNames. Calling this takes no
/// walk over the patterns.
pub fn after_hello_is_short(policy: &Policy)
    ensures { (serial : ℕ) → length (spelled_from serial (own_calls policy.now)) ≤ 65535 * 918 + 136 }
{
    policy.has_patterns();
    let _patterns = pattern_count(policy);
}
