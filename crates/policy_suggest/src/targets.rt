//! What entries are for, in order and each once.
ghost use Rattle.std.specs.Prelude.{◌≡◌, [], OnOk, map};
ghost use Rattle.std.specs.BTreeSet.{insert_key};
ghost use Rattle.policy_suggest.specs.Seen.{has, target_seen};
ghost use Rattle.policy_suggest.specs.Suggest.{compare, of_name as named, of_path as at_path};

use std::alloc::{AllocError, Global};
use std::collections::BTreeSet;
use std::collections::btree_set::Iter;
use std::marker::Model;

/// A name, and for an entry with a rule a path, and for a rule of one method the method too. A part that is absent is
/// empty. Targets are in order by name, then by path, then by interface, then by member.
#[derive(Clone, Copy, PartialEq, Eq, PartialOrd, Ord)]
pub(crate) struct Target<'a> {
    pub(crate) name: &'a str,
    pub(crate) path: &'a str,
    pub(crate) interface: &'a str,
    pub(crate) member: &'a str,
}

impl<'a> Target<'a> {
    // Of a name alone.
    pub(crate) fn of_name(name: &'a str) -> Target<'a>
        ensures { target_seen result ≡ named name.entry.now }
    {
        Target::of_path(name, "")
    }

    // Of a path of the name.
    pub(crate) fn of_path(name: &'a str, path: &'a str) -> Target<'a>
        ensures { target_seen result ≡ at_path name.entry.now path.entry.now }
    {
        Target {
            name,
            path,
            interface: "",
            member: "",
        }
    }
}

/// Targets in order, each once.
#[derive(Drop)]
pub(crate) struct Targets<'a> {
    set: BTreeSet<Target<'a>>,
}

impl<'a> Model for Targets<'a> {
    ghost use Rattle.std.specs.Prelude.{List, map};
    ghost use Rattle.policy_suggest.specs.Seen.{target_seen};
    ghost use Rattle.policy_suggest.specs.Suggest.{Target as TargetValue};

    ghost Value = { List TargetValue };

    ghost view = { λ t. map target_seen t.set.keys };
}

impl<'a> Targets<'a> {
    // No target.
    pub(crate) fn new(alloc: Global) -> Targets<'a>
        ensures { result ≡ [] }
    {
        Targets {
            set: BTreeSet::new(alloc),
        }
    }

    // Takes a target, unless it is there.
    pub(crate) fn insert(&mut self, target: Target<'a>) -> Result<(), AllocError>
        ensures { OnOk result (self.new ≡ insert_key compare self.old (target_seen target.entry)) }
    {
        self.set.insert(target)?;
        Ok(())
    }

    // The targets, in order.
    pub(crate) fn iter(&self) -> Iter<'_, Target<'a>>
        ensures { map target_seen result ≡ self.now }
    {
        self.set.iter()
    }

    // Whether the target is there.
    pub(crate) fn contains(&self, target: Target<'a>) -> bool
        ensures { result ≡ has self.now (target_seen target.entry) }
    {
        self.set.contains(&target)
    }
}
