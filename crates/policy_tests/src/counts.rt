//! Levels under a policy of many entries, with counted look-ups.
ghost use Rattle.std.specs.Prelude.{◌≡◌, ◌≤◌, ◌<◌, ◌+◌};

use name_patterns::Steps;
use policy_args::{Level, Options, Policy, read_options, words_of};
use std::alloc::Global;
use std::fmt::Write;
use std::marker::Brand;
use std::sync::ledger::{Blank, Ledger};
use std::test::Fail;

/// The number of names that are seen, each by its own entry, before those that may be owned.
const NAMES: u32 = 60_000;

/// `--see=org.a.N0` and so on, and `--own=org.a.*` at the end.
fn many_entries(alloc: Global) -> Result<Options, Fail> {
    let mut words = String::new(alloc);
    for number in 0..NAMES {
        write!(words, "--see=org.a.N{number}\0")?;
    }
    words.push_str("--own=org.a.*\0")?;
    let words = words_of(alloc, words.as_bytes())?;
    Ok(read_options(alloc, &words)?)
}

/// The level of a name of three elements, with at most four look-ups.
fn level_of_three<L: Ledger>(policy: &Policy, steps: &mut Steps<L>) -> Level
    ensures { steps.new ≤ steps.old + 4 }
{
    policy.level_counted("org.a.N7", steps)
}

/// The level of a name of two elements, with at most three look-ups.
fn level_of_two<L: Ledger>(policy: &Policy, steps: &mut Steps<L>) -> Level
    ensures { steps.new ≤ steps.old + 3 }
{
    policy.level_counted("org.b", steps)
}

/// Both levels, with at most seven steps, counted from none.
fn both_levels<L: Ledger>(policy: &Policy, blank: Blank) -> (Level, Level)
    requires name { blank.name ≡ L.name }
    requires parts { blank.parts ≡ L.parts }
    requires some { 0 < blank.parts }
{
    let mut steps: Steps<L> = Steps::new(blank);
    let of_three = level_of_three(policy, &mut steps);
    let of_two = level_of_two(policy, &mut steps);
    (of_three, of_two)
}

#[test]
fn a_level_takes_a_look_up_for_each_element(rt: HostRuntime) -> Result<(), Fail> {
    let options = many_entries(rt.alloc())?;
    let levels = both_levels::<Brand>(&options.policy, Blank::new(1));
    assert_eq!(rt; levels, (Level::Own, Level::None));
    assert_eq!(rt; options.policy.level("org.a.N7"), Level::Own);
    assert_eq!(rt; options.policy.level("org.b"), Level::None);
    Ok(())
}
