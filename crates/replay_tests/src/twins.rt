//! Two recordings under one policy: where the visible parts of their sessions first differ.
//!
//! A comparison has a line for each thing. `policy`, `lines`, `client`, `bus` and `client_ends` are as in a case, and
//! of both recordings; after `one` or `other` they are of that one alone, and after `many` with a count so often of
//! the other, with a number from 0 on in the place of each `#`. `says` has what is printed.
use crate::cases::{Case, SIZES, add_line, empty_case, recording_of};
use crate::runs::{Ended, twin};
use std::alloc::{AllocError, Global};
use std::process::Abort;
use std::str;
use std::thread::Threads;

/// Comparisons. Each element counts one: of `--talk=org.a.T` after a Hello the client's Hello, its answer, and the
/// answer that the proxy itself asked for.
const TWINS: [&str; 28] = [
    // Owner changes of unique names make a difference if the policy shows them.
    "\
policy --filter --sloppy-names
one bus owner_change 1 :1.31 :1.31 ''
says differ 1
",
    "\
policy --filter
one bus owner_change 1 :1.31 :1.31 ''
says same
",
    // What is hidden makes no difference, however much it is.
    "\
policy --filter --talk=org.a.T
client bus 1 Hello
bus ret 1 1 | s :1.40
many 500 bus signal 100 path=/h interface=org.h.I member=S sender=:1.60
bus ret 2 2
bus ret 3 3 | s :1.7
bus owner_change 4 org.a.T :1.7 ''
many 40 bus owner_change 200 org.h.X# '' :1.60
client call 2 path=/p interface=org.a.I member=M destination=:1.7
says same
",
    // An owner that is learned does.
    "\
policy --filter --talk=org.a.T
client bus 1 Hello
bus ret 1 1 | s :1.40
bus ret 2 2
one bus ret 3 3 | s :1.7
other bus ret 3 3 | s :1.8
bus owner_change 4 org.a.T :1.7 ''
client call 2 path=/p interface=org.a.I member=M destination=:1.7
says differ 3
",
    // The owner may be refused in any way.
    "\
policy --filter --talk=org.a.T
client bus 1 Hello
bus ret 1 1 | s :1.40
one bus error 90 error_name=org.freedesktop.DBus.Error.NameHasNoOwner reply=3 destination=:1.40 sender=org.freedesktop.DBus | s no
other bus ret 91 3 | s org.a.T
says same
",
    "\
policy --filter --talk=org.a.T
client bus 1 Hello
bus ret 1 1 | s :1.40
one bus ret 3 3 | s :1.7
other bus error 90 error_name=org.freedesktop.DBus.Error.NameHasNoOwner reply=3 destination=:1.40 sender=org.freedesktop.DBus | s no
says differ 3
",
    // Three messages of the client, an answer, an answer to a ping, and an answer.
    "\
policy --filter --talk=org.a.T
client call 1 path=/p interface=org.a.I member=A destination=org.a.T
client call 2 path=/p interface=org.a.I member=A destination=org.h.X
client call 3 path=/p interface=org.a.I member=B destination=org.a.T
bus return 50 reply=3 destination=:1.40 sender=:1.7
bus ret 51 2
bus return 52 reply=1 destination=:1.40 sender=:1.7
says same
",
    "\
policy --filter --talk=org.a.T
client call 1 path=/p interface=org.a.I member=A destination=org.a.T
client call 2 path=/p interface=org.a.I member=A destination=org.h.X
client call 3 path=/p interface=org.a.I member=B destination=org.a.T
bus return 50 reply=3 destination=:1.40 sender=:1.7
bus ret 51 2
one bus return 52 reply=1 destination=:1.40 sender=:1.7
says differ 6
",
    "\
policy --filter --talk=org.a.T
client call 1 path=/p interface=org.a.I member=A destination=org.a.T
client call 2 path=/p interface=org.a.I member=A destination=org.h.X
client call 3 path=/p interface=org.a.I member=B destination=org.a.T
bus return 50 reply=3 destination=:1.40 sender=:1.7
bus ret 51 2
other bus return 52 reply=1 destination=:1.40 sender=:1.7
says differ 6
",
    // Of a ping's answer its serial is seen, and not its bytes.
    "\
policy --filter
client call 1 path=/p interface=org.a.I member=A destination=org.h.X
one bus ret 51 1
other bus error 51 error_name=org.h.E reply=1 destination=:1.40 sender=org.freedesktop.DBus | s no
says same
",
    "\
policy --filter
client call 1 path=/p interface=org.a.I member=A destination=org.h.X
one bus ret 51 1
other bus ret 52 1
says differ 2
",
    // Messages of the client are compared whole, also those that are refused.
    "\
policy --filter
one client call 1 path=/p interface=org.a.I member=A destination=org.h.X
other client call 1 path=/p interface=org.a.I member=A destination=org.h.Y
says differ 1
",
    // The End is the last place.
    "\
policy --filter
client call 1 path=/p interface=org.a.I member=A destination=org.h.X
client_ends
says same
",
    "\
policy --filter
client call 1 path=/p interface=org.a.I member=A destination=org.h.X
one client_ends
says differ 2
",
    "\
policy --filter
client call 1 path=/p interface=org.a.I member=A destination=org.h.X
one client_ends
other client bytes ~~~~~~~~~~~~~~~~
says differ 2
",
    "\
policy --filter
one client bytes %FF%FF%FF%FF%FF%FF%FF%FF%FF%FF%FF%FF%FF%FF%FF%FF
other client bytes ~~~~~~~~~~~~~~~~
says same
",
    // What stands in the place of the other's End is no End.
    "\
policy --filter
one client_ends
other client call 1 path=/p interface=org.a.I member=A destination=org.h.X
says differ 1
",
    // The client's NUL is a place of its own, and lines are compared as they came.
    "\
policy --filter
lines
client bytes ~
one client bytes AUTH EXTERNAL 30%0D%0A
other client bytes AUTH EXTERNAL 31%0D%0A
says differ 2
",
    "\
policy --filter
lines
client bytes ~
one client bytes NEGOTIATE_UNIX_FD%0D%0A
other client bytes NO_UNIX_FD%0D%0A
says differ 2
",
    "\
policy --filter
lines
client bytes ~AUTH EXTERNAL 30%0D%0A
one bus bytes OK 0123%0D%0A
other bus bytes OK 4567%0D%0A
says differ 3
",
    "\
policy --filter
lines
one client bytes ~AUTH EXTERNAL 30%0D%0ABEGIN%0D%0A
other client bytes ~AUTH EXTER
other client bytes NAL 30%0D%0ABEGIN%0D
other client bytes %0A
bus bytes OK 0123%0D%0A
says same
",
    // A list is compared as it is shown: its hidden names are no part of it, and the order of the others is.
    "\
policy --filter --see=org.a.A --see=org.a.B
client bus 1 ListNames
one bus ret 30 1 | as [org.a.A,org.h.X,org.a.B]
other bus ret 30 1 | as [org.h.Y,org.a.A,org.h.Z.W,org.a.B,org.h.X]
says same
",
    "\
policy --filter --see=org.a.A --see=org.a.B
client bus 1 ListNames
one bus ret 30 1 | as [org.a.A,org.a.B]
other bus ret 30 1 | as [org.a.B,org.a.A]
says differ 2
",
    // Of the list that the proxy asked for itself the names are seen whose owners it asks for.
    "\
policy --filter --talk=org.a.*
client bus 1 Hello
bus ret 1 1 | s :1.40
bus ret 2 2
one bus ret 3 3 | as [org.h.X,org.a.X,:1.9]
other bus ret 9 3 | as [org.a.X,org.h.Y.Z]
says same
",
    "\
policy --filter --talk=org.a.*
client bus 1 Hello
bus ret 1 1 | s :1.40
bus ret 2 2
one bus ret 3 3 | as [org.a.X,org.a.Y]
other bus ret 3 3 | as [org.a.Y,org.a.X]
says differ 3
",
    // A list of no such name isn't a refusal.
    "\
policy --filter --talk=org.a.*
client bus 1 Hello
bus ret 1 1 | s :1.40
one bus ret 3 3 | as [org.h.X]
other bus ret 3 3
says differ 3
",
    // The comparison filters, whatever the policy file says.
    "\
policy --talk=org.a.T
client call 1 path=/p interface=org.a.I member=A destination=org.a.T
many 3 bus signal 100 path=/h interface=org.h.I member=S sender=:1.60
says same
",
    // Nothing and nothing.
    "\
policy --filter
says same
",
];

/// Both recordings of a comparison, and what is printed.
#[derive(Drop)]
struct Twins {
    one: Case,
    other: Case,
    says: String,
}

fn twins_of(alloc: Global, text: &str) -> Result<Twins, AllocError> {
    let mut twins = Twins {
        one: empty_case(alloc),
        other: empty_case(alloc),
        says: String::new(alloc),
    };
    for line in text.lines() {
        add_twin_line(alloc, &mut twins, line)?;
    }
    Ok(twins)
}

fn add_twin_line(alloc: Global, twins: &mut Twins, line: &str) -> Result<(), AllocError> {
    let (what, rest) = line.split_once(' ').unwrap_or((line, ""));
    match what {
        "one" => add_line(alloc, &mut twins.one, rest),
        "other" => add_line(alloc, &mut twins.other, rest),
        "many" => add_many(alloc, &mut twins.other, rest),
        "says" => {
            twins.says.push_str(rest)?;
            twins.says.push('\n')
        }
        _ => {
            add_line(alloc, &mut twins.one, line)?;
            add_line(alloc, &mut twins.other, line)
        }
    }
}

/// Adds a line so often, with a number in the place of each `#`.
fn add_many(alloc: Global, case: &mut Case, text: &str) -> Result<(), AllocError> {
    let (count, line) = text.split_once(' ').unwrap_or((text, ""));
    let count: u16 = count.parse().unwrap_or(0);
    for number in 0..count {
        add_line(alloc, case, &numbered(alloc, line, number)?)?;
    }
    Ok(())
}

/// The line with a number in the place of each `#`.
fn numbered(alloc: Global, line: &str, number: u16) -> Result<String, AllocError> {
    let digits = format!(in alloc; "{number}")?;
    let mut text = String::new(alloc);
    for (index, part) in line.split('#').enumerate() {
        if index > 0 {
            text.push_str(&digits)?;
        }
        text.push_str(part)?;
    }
    Ok(text)
}

fn run_of<R: Threads + Sync>(
    rt: &R,
    alloc: Global,
    twins: &Twins,
    size: usize,
) -> Result<Ended, AllocError> {
    let one = recording_of(alloc, &twins.one, size)?;
    let other = recording_of(alloc, &twins.other, 100_000)?;
    twin(rt, alloc, &twins.one.policy, &one, &other)
}

fn assert_twins<R: Abort + Threads + Sync>(
    rt: &R,
    alloc: Global,
    text: &str,
) -> Result<(), AllocError> {
    let twins = twins_of(alloc, text)?;
    let code = if twins.says.as_str() == "same\n" {
        0
    } else {
        7
    };
    for size in SIZES {
        let ended = run_of(rt, alloc, &twins, size)?;
        assert_eq!(rt;
            str::from_utf8(&ended.out.bytes).unwrap_or("no text"),
            twins.says.as_str(),
            "{text}"
        );
        assert_eq!(rt; ended.code, code, "{text}");
        assert_eq!(rt; ended.err.bytes.len(), 0, "{text}");
    }
    Ok(())
}

#[test]
fn twins_differ_where_they_are_seen_to(rt: HostRuntime) {
    for text in TWINS {
        if assert_twins(&rt, rt.alloc(), text).is_err() {
            panic!(rt; "{text}: out of memory");
        }
    }
}
