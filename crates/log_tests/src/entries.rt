//! The lines of the entries on which decisions rest.
use crate::frames::CALL;
use crate::noted::noted;
use dbus_header::Instead;
use explain_log::entry_line;
use policy_args::{LineRefusal, Options, Policy, read_options};
use policy_view::{Decision, Reason, Showing, Side, Verdict};
use std::alloc::{AllocError, Global};
use std::test::Fail;

/// The words of a policy of five entries: a word that stands again gives none.
const WORDS: [&str; 7] = [
    "--filter",
    "--see=org.a.See",
    "--talk=org.a.Talk.*",
    "--see=org.a.See",
    "--own=org.a.Own",
    "--call=org.a.Call=org.a.I.M@/p/*",
    "--broadcast=org.a.Cast=*",
];

/// Decisions, and the line of the entry on which each rests.
const RESTS: [(Decision, Option<&str>); 13] = [
    (Decision::Judged(Verdict::Pass), None),
    (Decision::Judged(Verdict::Drop(Reason::BusMember)), None),
    (Decision::Judged(Verdict::Drop(Reason::OnlySee(0))), None),
    (
        Decision::Judged(Verdict::Drop(Reason::OnlySee(1))),
        Some("entry 1 --see=org.a.See\n"),
    ),
    (
        Decision::Judged(Verdict::Ping(Instead::AccessDenied, Reason::OnlySee(2))),
        Some("entry 2 --talk=org.a.Talk.*\n"),
    ),
    (
        Decision::Judged(Verdict::Drop(Reason::NoRule(3))),
        Some("entry 3 --own=org.a.Own\n"),
    ),
    (
        Decision::Judged(Verdict::Ping(Instead::AccessDenied, Reason::NoRule(4))),
        Some("entry 4 --call=org.a.Call=org.a.I.M@/p/*\n"),
    ),
    (
        Decision::Shown(Showing::Hide(Reason::OnlySee(5))),
        Some("entry 5 --broadcast=org.a.Cast=*\n"),
    ),
    (Decision::Judged(Verdict::Drop(Reason::NoRule(6))), None),
    (
        Decision::Judged(Verdict::Drop(Reason::OnlySee(u32::MAX))),
        None,
    ),
    (Decision::Shown(Showing::Whole), None),
    (Decision::Shown(Showing::Cut(1)), None),
    (Decision::Shown(Showing::Hide(Reason::NameHidden)), None),
];

/// The options of the words. Bad words are told as if memory had run out.
fn options(alloc: Global) -> Result<Options, AllocError> {
    let mut words = Vec::new(alloc);
    for word in WORDS {
        words.push(String::from_str(alloc, word)?)?;
    }
    match read_options(alloc, &words) {
        Ok(options) => Ok(options),
        Err(LineRefusal::Bad(_) | LineRefusal::Memory) => Err(AllocError),
    }
}

/// Whether the decision on a call has this line of an entry.
fn rests(
    alloc: Global,
    policy: &Policy,
    decision: Decision,
    expected: Option<&str>,
) -> Result<bool, AllocError> {
    let note = noted(alloc, 1, Side::Client, CALL, decision)?;
    match entry_line(alloc, policy, &note)? {
        Some(line) => Ok(expected == Some(line.as_str())),
        None => Ok(expected.is_none()),
    }
}

/// The first of the decisions that has another line.
fn wrong_entry(alloc: Global, policy: &Policy) -> Result<Option<Decision>, AllocError> {
    for (decision, expected) in RESTS {
        if !rests(alloc, policy, decision, expected)? {
            return Ok(Some(decision));
        }
    }
    Ok(None)
}

#[test]
fn each_entry_has_its_line(rt: HostRuntime) -> Result<(), Fail> {
    let options = options(rt.alloc())?;
    assert_eq!(rt; options.policy.len(), 5);
    assert_eq!(rt; wrong_entry(rt.alloc(), &options.policy)?, None);
    Ok(())
}
