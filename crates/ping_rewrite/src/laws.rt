//! The lengths of the proxy's own messages.
ghost use Rattle.std.specs.Prelude.{◌≡◌, ◌+◌, ℕ, List, true, false, length};
ghost use Rattle.dbus_header.specs.declared.Instead.TheVariants.{AccessDenied, NameHasNoOwner, ServiceUnknown, False};
ghost use Rattle.dbus_header.specs.Message.{with_serial};
ghost use Rattle.dbus_values.specs.declared.Order.{Order};
ghost use Rattle.name_patterns.specs.Patterns.{Pattern};
ghost use Rattle.policy_view.specs.Own.{ping, list_names, add_match, get_owner, answer_in_place};
ghost use Rattle.ping_rewrite.specs.Lengths.{HasLengths};

/// The lengths of the calls, and of their header fields.
pub fn lengths_of_calls()
    ensures ping { (serial : ℕ) → HasLengths (with_serial serial ping) 120 101 }
    ensures list_names { (serial : ℕ) → HasLengths (with_serial serial list_names) 136 117 }
    ensures add_match_exact { (serial : ℕ) (pattern : Pattern) → pattern.exact ≡ true → HasLengths (with_serial serial (add_match pattern)) (259 + length pattern.name) 127 }
    ensures add_match_subtree { (serial : ℕ) (pattern : Pattern) → pattern.exact ≡ false → HasLengths (with_serial serial (add_match pattern)) (268 + length pattern.name) 127 }
    ensures get_owner { (serial : ℕ) (name : List ℕ) → HasLengths (with_serial serial (get_owner name)) (149 + length name) 127 }
{}

/// The lengths of the answers in place, and of their header fields.
pub fn lengths_of_answers()
    ensures access_denied { (order : Order) (reply serial : ℕ) → HasLengths (answer_in_place order reply serial AccessDenied) 140 95 }
    ensures name_has_no_owner { (order : Order) (reply serial : ℕ) → HasLengths (answer_in_place order reply serial NameHasNoOwner) 142 103 }
    ensures service_unknown { (order : Order) (reply serial : ℕ) → HasLengths (answer_in_place order reply serial ServiceUnknown) 140 103 }
    ensures returned_false { (order : Order) (reply serial : ℕ) → HasLengths (answer_in_place order reply serial False) 68 47 }
{}
