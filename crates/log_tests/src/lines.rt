//! The lines of notes.
use crate::frames::{CALL, ERROR, RETURN, SIGNAL, TYPE_5, TYPE_255, WHOLE_CALL};
use crate::noted::noted;
use dbus_header::Instead;
use dbus_values::Order;
use explain_log::line;
use policy_view::{Decision, Reason, Showing, Side, Verdict};
use std::alloc::{AllocError, Global};
use std::test::Fail;

/// Messages that the client sent, and the line of each as the second message of the first session, which passed.
const MESSAGES: [(&[u8], &str); 7] = [
    (
        CALL,
        "1 c 2 call serial=7 reply=- from=- dest=org.a.T path=/p iface=org.a.I member=A pass\n",
    ),
    (
        RETURN,
        "1 c 2 return serial=60 reply=2 from=:1.7 dest=:1.40 path=- iface=- member=- pass\n",
    ),
    (
        ERROR,
        "1 c 2 error serial=16909060 reply=84281096 from=org.freedesktop.DBus dest=- path=- iface=- member=- pass\n",
    ),
    (
        SIGNAL,
        "1 c 2 signal serial=9 reply=- from=:1.2 dest=- path=/org/a iface=org.a.I member=Changed pass\n",
    ),
    (
        WHOLE_CALL,
        "1 c 2 call serial=10 reply=3 from=:1.9 dest=org.a.T path=/ iface=org.a.I member=M pass\n",
    ),
    (
        TYPE_5,
        "1 c 2 type5 serial=1 reply=- from=- dest=- path=- iface=- member=- pass\n",
    ),
    (
        TYPE_255,
        "1 c 2 type255 serial=4294967295 reply=4294967295 from=- dest=- path=- iface=- member=- pass\n",
    ),
];

/// How a line begins that tells of a message of type 5.
const FRONT: &str = "0 b 1 type5 serial=1 reply=- from=- dest=- path=- iface=- member=- ";

/// How the log line of a message that was dropped begins.
const DROPPED: &str = "0 b 1 type5 serial=1 reply=- from=- dest=- path=- iface=- member=- drop ";

/// How the log line of a message that was hidden begins.
const HIDDEN: &str = "0 b 1 type5 serial=1 reply=- from=- dest=- path=- iface=- member=- hide ";

/// Decisions, and how the line of each ends.
const DECISIONS: [(Decision, &str); 13] = [
    (Decision::Judged(Verdict::Pass), "pass\n"),
    (
        Decision::Judged(Verdict::Ping(Instead::AccessDenied, Reason::BusMember)),
        "ping BusMember 0 AccessDenied\n",
    ),
    (
        Decision::Judged(Verdict::Ping(Instead::NameHasNoOwner, Reason::NotVisible)),
        "ping NotVisible 0 NameHasNoOwner\n",
    ),
    (
        Decision::Judged(Verdict::Ping(Instead::ServiceUnknown, Reason::NoRule(3))),
        "ping NoRule 3 ServiceUnknown\n",
    ),
    (
        Decision::Judged(Verdict::Ping(Instead::False, Reason::ArgNotVisible)),
        "ping ArgNotVisible 0 False\n",
    ),
    (Decision::Shown(Showing::Whole), "show\n"),
    (Decision::Shown(Showing::Reply(8)), "show\n"),
    (Decision::Shown(Showing::Cut(9)), "cut\n"),
    (
        Decision::Shown(Showing::Instead {
            order: Order::Little,
            reply: 4,
            what: Instead::AccessDenied,
        }),
        "instead AccessDenied\n",
    ),
    (
        Decision::Shown(Showing::Instead {
            order: Order::Big,
            reply: 4,
            what: Instead::NameHasNoOwner,
        }),
        "instead NameHasNoOwner\n",
    ),
    (
        Decision::Shown(Showing::Instead {
            order: Order::Big,
            reply: 4,
            what: Instead::ServiceUnknown,
        }),
        "instead ServiceUnknown\n",
    ),
    (
        Decision::Shown(Showing::Instead {
            order: Order::Big,
            reply: 4,
            what: Instead::False,
        }),
        "instead False\n",
    ),
    (
        Decision::Shown(Showing::Hide(Reason::OnlySee(65_535))),
        "hide OnlySee 65535\n",
    ),
];

/// Reasons, and how the line of each ends.
const REASONS: [(Reason, &str); 19] = [
    (Reason::NotVisible, "NotVisible 0\n"),
    (Reason::OnlySee(0), "OnlySee 0\n"),
    (Reason::OnlySee(12), "OnlySee 12\n"),
    (Reason::NoRule(0), "NoRule 0\n"),
    (Reason::NoRule(u32::MAX), "NoRule 4294967295\n"),
    (Reason::BusMember, "BusMember 0\n"),
    (Reason::BusInterface, "BusInterface 0\n"),
    (Reason::ArgNotVisible, "ArgNotVisible 0\n"),
    (Reason::ArgNotTalk, "ArgNotTalk 0\n"),
    (Reason::ArgNotOwn, "ArgNotOwn 0\n"),
    (Reason::Eavesdrop, "Eavesdrop 0\n"),
    (Reason::NotOutstanding, "NotOutstanding 0\n"),
    (Reason::UnknownType, "UnknownType 0\n"),
    (Reason::BadArgument, "BadArgument 0\n"),
    (Reason::SenderNotTalk, "SenderNotTalk 0\n"),
    (Reason::NameHidden, "NameHidden 0\n"),
    (Reason::NotExpected, "NotExpected 0\n"),
    (Reason::OwnAnswer, "OwnAnswer 0\n"),
    (Reason::UnknownField, "UnknownField 0\n"),
];

/// The longest line that tells no text.
const LONGEST: &str =
    "4294967295 b 18446744073709551615 type255 serial=4294967295 reply=4294967295 from=- dest=- path=- iface=- member=- ping OnlySee 4294967295 NameHasNoOwner\n";

/// The line of a message that the client sent, which passed.
fn line_of_passed(alloc: Global, bytes: &[u8]) -> Result<String, AllocError> {
    let note = noted(
        alloc,
        2,
        Side::Client,
        bytes,
        Decision::Judged(Verdict::Pass),
    )?;
    line(alloc, 1, &note)
}

/// Whether the line of a message of type 5, on which this was decided, is the beginning and the end.
fn is_line(alloc: Global, decision: Decision, front: &str, end: &str) -> Result<bool, AllocError> {
    let note = noted(alloc, 1, Side::Bus, TYPE_5, decision)?;
    let line = line(alloc, 0, &note)?;
    Ok(line.as_str().strip_prefix(front) == Some(end))
}

/// Whether the reason is told so of a message that was dropped and of one that was hidden.
fn is_told(alloc: Global, reason: Reason, end: &str) -> Result<bool, AllocError> {
    let dropped = Decision::Judged(Verdict::Drop(reason));
    let hidden = Decision::Shown(Showing::Hide(reason));
    Ok(is_line(alloc, dropped, DROPPED, end)? && is_line(alloc, hidden, HIDDEN, end)?)
}

#[test]
fn each_message_has_its_line(rt: HostRuntime) -> Result<(), Fail> {
    for (bytes, expected) in MESSAGES {
        assert_eq!(rt; line_of_passed(rt.alloc(), bytes)?.as_str(), expected);
    }
    Ok(())
}

#[test]
fn each_decision_is_told(rt: HostRuntime) -> Result<(), Fail> {
    for (decision, end) in DECISIONS {
        assert!(rt; is_line(rt.alloc(), decision, FRONT, end)?, "{end}");
    }
    Ok(())
}

#[test]
fn each_reason_is_told(rt: HostRuntime) -> Result<(), Fail> {
    for (reason, end) in REASONS {
        assert!(rt; is_told(rt.alloc(), reason, end)?, "{end}");
    }
    Ok(())
}

/// The line with the greatest numbers fills the room that it was given, which so wasn't too small for any other.
#[test]
fn the_longest_line_fits(rt: HostRuntime) -> Result<(), Fail> {
    let reason = Reason::OnlySee(u32::MAX);
    let decision = Decision::Judged(Verdict::Ping(Instead::NameHasNoOwner, reason));
    let note = noted(rt.alloc(), u64::MAX, Side::Bus, TYPE_255, decision)?;
    let line = line(rt.alloc(), u32::MAX, &note)?;
    assert_eq!(rt; line.as_str(), LONGEST);
    assert_eq!(rt; line.capacity(), LONGEST.len());
    Ok(())
}
