//! What the suggested policy permits, and what its words give.
ghost use Rattle.std.specs.Prelude.{◌≡◌, ◌≤◌, ◌∷◌, codes, length, map, true, List, Ok};
ghost use Rattle.std.specs.List.{list_all};
ghost use Rattle.policy_args.specs.Policy.{Policy as PolicyValue, entry_word};
ghost use Rattle.policy_args.specs.Requests.{Within, permits};
ghost use Rattle.policy_args.specs.Words.{options_of};
ghost use Rattle.policy_args.specs.declared.requests.Asked.{Asked as AskedValue};
ghost use Rattle.policy_suggest.specs.Needs.{once};
ghost use Rattle.policy_suggest.specs.Suggest.{AreInGrammar, filtered, is_asked, suggested};

/// The suggested policy permits each request.
pub fn suggested_permits_all()
    ensures { (all : List AskedValue) → list_all is_asked all ≡ true → list_all (permits (suggested all)) all ≡ true }
{}

/// The suggested policy is within each policy of words that permits the requests.
pub fn suggested_is_least()
    ensures { (all : List AskedValue) (policy : PolicyValue) → list_all is_asked all ≡ true → AreInGrammar policy.entries → list_all (permits policy) all ≡ true → Within (suggested all) policy }
{}

/// The words of the suggested policy's entries, after `--filter`, give it again.
pub fn suggested_is_read()
    ensures { (all : List AskedValue) → list_all is_asked all ≡ true → length (suggested all).entries ≤ 65535 → options_of (codes "--filter" ∷ map entry_word (suggested all).entries) ≡ Ok (filtered (suggested all)) }
{}

/// Of requests that need the same entry the first suffices.
pub fn once_suffices()
    ensures { (all : List AskedValue) → list_all is_asked all ≡ true → suggested (once all) ≡ suggested all }
{}
