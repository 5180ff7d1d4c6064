//! Levels and entries of unique names, from learned facts.
ghost use Rattle.std.specs.Prelude.{◌≡◌, ◌<◌};

use crate::policies::options_of;
use dbus_names::{BusName, Name};
use name_patterns::Steps;
use policy_args::{Fact, Level, Policy};
use std::alloc::Global;
use std::marker::Brand;
use std::process::Abort;
use std::sync::ledger::{Blank, Ledger};
use std::test::Fail;
use unique_names::{Entries, Tracker};

fn name(alloc: Global, text: &str) -> Result<Name, Fail> {
    Ok(Name::new(String::from_str(alloc, text)?))
}

/// The fact that a text describes: `NAME ID` if the unique name ID owns NAME, `self ID`, or `met ID`.
fn fact(alloc: Global, text: &str) -> Result<Fact, Fail> {
    let (front, id) = text.split_once(' ').ok_or("no fact")?;
    let id = name(alloc, id)?;
    Ok(match front {
        "self" => Fact::SelfId(id),
        "met" => Fact::Met(id),
        owned => Fact::Owned {
            name: name(alloc, owned)?,
            id,
        },
    })
}

/// A tracker that has learned the facts, which are joined by commas.
fn taught(alloc: Global, policy: &Policy, facts: &str) -> Result<Tracker, Fail> {
    let mut tracker = Tracker::new(alloc);
    if facts.is_empty() {
        return Ok(tracker);
    }
    for text in facts.split(',') {
        tracker.learn(policy, fact(alloc, text)?)?;
    }
    Ok(tracker)
}

/// Whether these are the numbers of the entries.
fn has_entries(entries: Entries<'_>, expected: &[u32]) -> bool {
    let mut left = expected;
    for number in entries {
        match left {
            [first, rest @ ..] if *first == number => left = rest,
            _ => return false,
        }
    }
    left.is_empty()
}

/// A bus name that is looked up, and the numbers that its entries must have.
#[derive(Drop)]
struct Expected<'a> {
    tracker: &'a Tracker,
    policy: &'a Policy,
    name: BusName<'a>,
    entries: &'a [u32],
}

/// The level of the name, if its entries have these numbers.
fn looked_up<L: Ledger>(expected: Expected<'_>, blank: Blank) -> Option<Level>
    requires name { blank.name ≡ L.name }
    requires parts { blank.parts ≡ L.parts }
    requires some { 0 < blank.parts }
{
    let mut steps: Steps<L> = Steps::new(blank);
    let known = expected
        .tracker
        .look_up(expected.policy, expected.name, &mut steps);
    let level = known.level(&mut steps);
    if has_entries(known.entries(&mut steps), expected.entries) {
        Some(level)
    } else {
        None
    }
}

/// The level of a text. If it is a bus name, it must be looked up with the same level and with entries of these
/// numbers; otherwise it must have no entries.
fn level_with(tracker: &Tracker, policy: &Policy, text: &str, entries: &[u32]) -> Option<Level> {
    let level = tracker.level(policy, text);
    let is_told = match BusName::read(text) {
        Some(name) => {
            let expected = Expected {
                tracker,
                policy,
                name,
                entries,
            };
            looked_up::<Brand>(expected, Blank::new(1)) == Some(level)
        }
        None => entries.is_empty(),
    };
    if is_told { Some(level) } else { None }
}

fn assert_known(
    rt: &impl Abort,
    tracker: &Tracker,
    policy: &Policy,
    name: &str,
    level: Level,
    entries: &[u32],
) {
    let told = level_with(tracker, policy, name, entries);
    assert_eq!(rt; told, Some(level), "{name}");
}

/// The level of `:1.7` that follows from the facts, if its entries have these numbers.
fn level_by(
    alloc: Global,
    policy: &Policy,
    facts: &str,
    entries: &[u32],
) -> Result<Option<Level>, Fail> {
    let tracker = taught(alloc, policy, facts)?;
    Ok(level_with(&tracker, policy, ":1.7", entries))
}

#[test]
fn an_id_has_the_greatest_level_of_what_is_known(rt: HostRuntime) -> Result<(), Fail> {
    let words = "--see=org.a.*\0--talk=org.a.T\0--own=org.o.O\0--call=org.c.C=*\0--see=org.o.*";
    let options = options_of(rt.alloc(), words)?;
    let policy = &options.policy;
    let see: &[u32] = &[1];
    let talk: &[u32] = &[1, 2];
    for (facts, level, entries) in [
        ("", Level::None, &[] as &[u32]),
        ("met :1.7", Level::See, &[]),
        ("self :1.7", Level::Talk, &[]),
        ("self :1.7,met :1.7", Level::Talk, &[]),
        ("met :1.7,self :1.7", Level::Talk, &[]),
        ("org.a.B :1.7", Level::See, see),
        ("org.a.B :1.7,org.a.B :1.7", Level::See, see),
        ("org.a.B :1.7,self :1.7", Level::Talk, see),
        ("self :1.7,org.a.B :1.7,met :1.7", Level::Talk, see),
        ("org.a.T :1.7", Level::Talk, talk),
        ("org.a.T :1.7,org.a.B :1.7", Level::Talk, talk),
        ("org.a.B :1.7,org.a.T :1.7", Level::Talk, talk),
        ("org.o.O :1.7", Level::Own, &[3, 5]),
        ("org.o.O :1.7,self :1.7", Level::Own, &[3, 5]),
        ("org.o.O :1.7,org.a.T :1.7", Level::Own, &[1, 2, 3, 5]),
        ("org.a.T :1.7,org.o.O :1.7", Level::Own, &[1, 2, 3, 5]),
        ("org.c.C :1.7,met :1.7", Level::See, &[4]),
        ("org.h.X :1.7", Level::None, &[]),
        ("org.h.X :1.7,met :1.7", Level::See, &[]),
        ("org.a.T :1.8,met :1.9,self :1.6", Level::None, &[]),
    ] {
        let told = level_by(rt.alloc(), policy, facts, entries)?;
        assert_eq!(rt; told, Some(level), "{facts}");
    }
    Ok(())
}

#[test]
fn a_name_that_was_lost_still_counts(rt: HostRuntime) -> Result<(), Fail> {
    let options = options_of(rt.alloc(), "--talk=org.a.T\0--own=org.o.O")?;
    let policy = &options.policy;
    // The name goes from :1.7 to :1.8: an owner change names both.
    let tracker = taught(rt.alloc(), policy, "org.a.T :1.7,org.a.T :1.8,org.o.O :1.8")?;
    assert_known(&rt, &tracker, policy, ":1.7", Level::Talk, &[1]);
    assert_known(&rt, &tracker, policy, ":1.8", Level::Own, &[1, 2]);
    assert_known(&rt, &tracker, policy, "org.a.T", Level::Talk, &[1]);
    assert_known(&rt, &tracker, policy, "org.o.O", Level::Own, &[2]);
    assert_known(&rt, &tracker, policy, "org.h.X", Level::None, &[]);
    assert_known(&rt, &tracker, policy, "org", Level::None, &[]);
    assert_known(&rt, &tracker, policy, "", Level::None, &[]);
    assert_known(
        &rt,
        &tracker,
        policy,
        "org.freedesktop.DBus",
        Level::Talk,
        &[],
    );
    Ok(())
}

/// A tracker that has learned an owner, the client's own name, and a name that the client met.
fn learned_by_names(alloc: Global, policy: &Policy) -> Result<Tracker, Fail> {
    let mut tracker = Tracker::new(alloc);
    tracker.learn_owner(policy, "org.a.B", ":1.7")?;
    tracker.learn_self(policy, ":1.8")?;
    tracker.learn_met(policy, ":1.9")?;
    Ok(tracker)
}

#[test]
fn facts_are_learned_by_their_names(rt: HostRuntime) -> Result<(), Fail> {
    let options = options_of(rt.alloc(), "--see=org.a.*")?;
    let policy = &options.policy;
    let tracker = learned_by_names(rt.alloc(), policy)?;
    assert_known(&rt, &tracker, policy, ":1.7", Level::See, &[1]);
    assert_known(&rt, &tracker, policy, ":1.8", Level::Talk, &[]);
    assert_known(&rt, &tracker, policy, ":1.9", Level::See, &[]);
    Ok(())
}

#[test]
fn patterns_are_told_once(rt: HostRuntime) -> Result<(), Fail> {
    let words =
        "--see=org.a.*\0--talk=org.a\u{2d}b.T\0--own=org.a.*\0--see=org.a.A\0--call=org.a.A=*\0--talk=org.a.*";
    let options = options_of(rt.alloc(), words)?;
    let policy = &options.policy;
    assert_eq!(rt; (policy.len(), policy.pattern_count()), (6, 3));
    for (number, name, is_exact) in [
        (1, "org.a", false),
        (2, "org.a-b.T", true),
        (3, "org.a.A", true),
    ] {
        assert!(rt; 1 <= number && number <= policy.pattern_count());
        let pattern = policy.pattern(number);
        assert_eq!(rt; (pattern.name(), pattern.is_exact()), (name, is_exact));
    }
    Ok(())
}
