//! What a policy denies of recordings, counted.
//!
//! An audit has a line for each thing. `policy` has the words of the policy file, and `recording` begins a further
//! recording. `lines`, `client`, `bus` and `client_ends` are as in a case, and of the last recording. `says` has a line
//! of what is printed.
use crate::cases::{Case, SIZES, add_line, empty_case, recording_of};
use crate::runs::{Ended, audit};
use std::alloc::{AllocError, Global};
use std::process::Abort;
use std::str;
use std::thread::Threads;

/// Audits.
const AUDITS: [&str; 9] = [
    // One call of three is denied. The answers of the bus are counted as items.
    "\
policy --filter --talk=org.a.T
recording
client call 1 path=/p interface=org.a.I member=A destination=org.a.T
client call 2 path=/p interface=org.a.I member=A destination=org.h.X
client call 3 path=/p interface=org.a.I member=B destination=org.a.T
bus return 50 reply=3 destination=:1.40 sender=:1.7
bus ret 51 2
bus return 52 reply=1 destination=:1.40 sender=:1.7
says recording 1 items 6 denied 1
says reason NotVisible 1
",
    // Reasons stand in their own order, and each entry has its denials.
    "\
policy --filter --see=org.a.S --call=org.a.C=org.a.I.M
recording
client call 1 path=/p interface=org.a.I member=N destination=org.a.C
client call 2 path=/p interface=org.a.I member=M destination=org.a.S
client call 3 path=/p interface=org.a.I member=M destination=org.h.X
client call 4 path=/p interface=org.a.I member=N destination=org.a.S
client bus 5 Foo
says recording 1 items 5 denied 5
says reason NotVisible 1
says reason OnlySee 2
says reason NoRule 1
says reason BusMember 1
says entry 1 denied 2
says entry 2 denied 1
says unnamed 1 --see=org.a.S
says unnamed 2 --call=org.a.C=org.a.I.M
",
    // Entries of all kinds are named by what passes, and by owner changes that are shown.
    "\
policy --filter --see=org.a.S --talk=org.a.T --own=org.a.O.* --call=org.a.C=org.a.I.* --broadcast=org.a.B=* --property=org.a.P=org.a.I.Volume
recording
client call 1 path=/p interface=org.a.I member=M destination=org.a.T
client call 2 path=/p interface=org.a.I member=M destination=org.a.C
client bus 3 RequestName | su org.a.O.X 0
bus owner_change 4 org.a.S '' :1.9
says recording 1 items 4 denied 0
says unnamed 5 --broadcast=org.a.B=*
says unnamed 6 --property=org.a.P=org.a.I.Volume
",
    // A call of a property and an owner change of a name below.
    "\
policy --filter --broadcast=org.a.B.*=* --property=org.a.P=org.a.I.Volume
recording
client call 1 path=/p interface=org.freedesktop.DBus.Properties member=Get destination=org.a.P | ss org.a.I Volume
bus owner_change 2 org.a.B.X.Y '' :1.9
says recording 1 items 2 denied 0
",
    // What is hidden or refused names nothing, and no other message of the bus does.
    "\
policy --filter --see=org.a.S --talk=org.a.T
recording
client call 1 path=/p interface=org.a.I member=M destination=org.a.S
bus signal 2 path=/p interface=org.a.I member=S sender=:1.60
bus owner_change 3 org.h.X '' :1.60
bus call 4 path=/p interface=org.a.T member=org_a_T destination=:1.40 sender=:1.7
says recording 1 items 4 denied 1
says reason OnlySee 1
says entry 1 denied 1
says unnamed 1 --see=org.a.S
says unnamed 2 --talk=org.a.T
",
    // A call to the bus names the bus and its first text. Without an interface it is a call to the bus, too.
    "\
policy --filter --see=org.freedesktop.DBus --see=org.a.S --see=org.a.R
recording
client bus 1 NameHasOwner | s org.a.S
client call 2 path=/p member=NameHasOwner destination=org.freedesktop.DBus | s org.a.R
says recording 1 items 2 denied 0
",
    // Each recording is counted, and an entry that one of them names is named.
    "\
policy --filter --talk=org.a.T --talk=org.a.U --talk=org.a.V
recording
client call 1 path=/p interface=org.a.I member=M destination=org.a.T
client call 2 path=/p interface=org.a.I member=M destination=org.h.X
recording
recording
client call 1 path=/p interface=org.a.I member=M destination=org.a.V
client call 2 path=/p interface=org.a.I member=M destination=org.h.X
client call 3 path=/p interface=org.a.I member=M destination=org.h.Y
says recording 1 items 2 denied 1
says recording 2 items 0 denied 0
says recording 3 items 3 denied 2
says reason NotVisible 3
says unnamed 2 --talk=org.a.U
",
    // Without the filter there are no items.
    "\
policy --talk=org.a.T
recording
client call 1 path=/p interface=org.a.I member=M destination=org.h.X
says recording 1 items 0 denied 0
says unnamed 1 --talk=org.a.T
",
    // Nothing at all after lines of authentication.
    "\
policy --filter
recording
lines
says recording 1 items 0 denied 0
",
];

/// The policy, the recordings, and what is printed.
#[derive(Drop)]
struct Audit {
    policy: Case,
    recordings: Vec<Case>,
    says: String,
}

fn audit_of(alloc: Global, text: &str) -> Result<Audit, AllocError> {
    let mut audit = Audit {
        policy: empty_case(alloc),
        recordings: Vec::new(alloc),
        says: String::new(alloc),
    };
    for line in text.lines() {
        add_audit_line(alloc, &mut audit, line)?;
    }
    Ok(audit)
}

fn add_audit_line(alloc: Global, audit: &mut Audit, line: &str) -> Result<(), AllocError> {
    let (what, rest) = line.split_once(' ').unwrap_or((line, ""));
    match what {
        "policy" => add_line(alloc, &mut audit.policy, line),
        "recording" => {
            audit.recordings.push(empty_case(alloc))?;
            Ok(())
        }
        "says" => {
            audit.says.push_str(rest)?;
            audit.says.push('\n')
        }
        _ => match audit.recordings.last_mut() {
            Some(recording) => add_line(alloc, recording, line),
            None => add_line(alloc, &mut audit.policy, line),
        },
    }
}

fn run_of<R: Threads + Sync>(
    rt: &R,
    alloc: Global,
    text: &Audit,
    size: usize,
) -> Result<Ended, AllocError> {
    let mut recordings = Vec::new(alloc);
    for recording in &text.recordings {
        recordings.push(recording_of(alloc, recording, size)?)?;
    }
    audit(rt, alloc, &text.policy.policy, &recordings)
}

fn assert_audit<R: Abort + Threads + Sync>(
    rt: &R,
    alloc: Global,
    text: &str,
) -> Result<(), AllocError> {
    let audit = audit_of(alloc, text)?;
    for size in SIZES {
        let ended = run_of(rt, alloc, &audit, size)?;
        assert_eq!(rt;
            str::from_utf8(&ended.out.bytes).unwrap_or("no text"),
            audit.says.as_str(),
            "{text}"
        );
        assert_eq!(rt; ended.code, 0, "{text}");
        assert_eq!(rt; ended.err.bytes.len(), 0, "{text}");
    }
    Ok(())
}

#[test]
fn what_is_denied_is_counted(rt: HostRuntime) {
    for text in AUDITS {
        if assert_audit(&rt, rt.alloc(), text).is_err() {
            panic!(rt; "{text}: out of memory");
        }
    }
}
