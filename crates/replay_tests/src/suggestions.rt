//! The policies that are suggested for recordings.
//!
//! A suggestion has a line for each thing. `recording` begins a recording. `lines`, `client`, `bus` and `client_ends`
//! are as in a case, and of the last recording. `says` has a word of the policy, and `within` the words of a policy
//! that the suggested one is within.
use crate::cases::{Case, SIZES, add_line, empty_case, recording_of};
use crate::runs::{audit, suggest, within};
use std::alloc::{AllocError, Global};
use std::process::Abort;
use std::str;
use std::thread::Threads;

/// Suggestions.
const SUGGESTIONS: [&str; 12] = [
    // Calls that pass, and one to a name that is hidden.
    "\
recording
client call 1 path=/p interface=org.a.I member=A destination=org.a.T
client call 2 path=/p interface=org.a.I member=A destination=org.h.X
client call 3 path=/p interface=org.a.I member=B destination=org.a.T
bus return 50 reply=3 destination=:1.40 sender=:1.7
bus ret 51 2
bus return 52 reply=1 destination=:1.40 sender=:1.7
says --call=org.a.T=org.a.I.A@/p
says --call=org.a.T=org.a.I.B@/p
says --call=org.h.X=org.a.I.A@/p
within --talk=org.a.T --talk=org.h.X
within --call=org.a.*=org.a.I.* --call=org.h.X=@/p
within --own=org.*
",
    // A call of properties is a call.
    "\
recording
client call 1 path=/p interface=org.freedesktop.DBus.Properties member=Get destination=org.a.P | ss org.a.I Volume
says --call=org.a.P=org.freedesktop.DBus.Properties.Get@/p
within --call=org.a.P=org.freedesktop.DBus.Properties.*
within --talk=org.a.P
",
    // A signal to a name, and a start of one.
    "\
recording
client signal 1 path=/p interface=org.a.I member=S destination=org.a.T
client bus 2 StartServiceByName | su org.a.U 0
says --talk=org.a.T
says --talk=org.a.U
within --talk=org.a.*
",
    // The members of the bus that ask for a name of one's own.
    "\
recording
client bus 1 RequestName | su org.a.O 0
client bus 2 ReleaseName | s org.a.P
client bus 3 ListQueuedOwners | s org.a.Q
says --own=org.a.O
says --own=org.a.P
says --own=org.a.Q
within --own=org.a.*
",
    // Those that ask for an owner.
    "\
recording
client bus 1 NameHasOwner | s org.a.A
client bus 2 GetNameOwner | s org.a.B
client bus 3 GetConnectionUnixUser | s org.a.C
client bus 4 GetConnectionUnixProcessID | s org.a.D
client bus 5 GetConnectionCredentials | s org.a.E
client bus 6 GetAdtAuditSessionData | s org.a.F
client bus 7 GetConnectionSELinuxSecurityContext | s org.a.G
client call 8 path=/p member=GetNameOwner destination=org.freedesktop.DBus | s org.a.H
says --see=org.a.A
says --see=org.a.B
says --see=org.a.C
says --see=org.a.D
says --see=org.a.E
says --see=org.a.F
says --see=org.a.G
says --see=org.a.H
within --see=org.a.*
",
    // Nothing is asked by other members of the bus, broadcasts, replies, calls to unique names and to the bus itself,
    // nor by the bus.
    "\
recording
client bus 1 Hello
client bus 2 ListNames
client bus 3 AddMatch | s sender='org.a.T'
client bus 4 GetNameOwner | s :1.7
client bus 5 GetNameOwner | s org.freedesktop.DBus
client bus 6 Foo | s org.a.T
client signal 7 path=/p interface=org.a.I member=S
client call 8 path=/p interface=org.a.I member=M destination=:1.7
client return 9 reply=3 destination=:1.7
client call 10 path=/p interface=org.freedesktop.DBus.Peer member=Ping destination=org.freedesktop.DBus
bus call 50 path=/p interface=org.a.I member=M destination=org.a.T sender=:1.7
",
    // A call without an interface opens its path alone.
    "\
recording
client call 1 path=/p interface=org.a.I member=A destination=org.a.T
client call 2 path=/q interface=org.a.I member=B destination=org.a.T
client call 3 path=/p member=C destination=org.a.T
client call 4 path=/p interface=org.a.J member=D destination=org.a.T
says --call=org.a.T=@/p
says --call=org.a.T=org.a.I.B@/q
within --call=org.a.T=@/p --call=org.a.T=@/q
within --call=org.a.*=*
",
    // A name that is to be owned has one entry, whatever else is asked of it.
    "\
recording
client call 1 path=/p interface=org.a.I member=A destination=org.a.T
client signal 2 path=/p interface=org.a.I member=S destination=org.a.T
client bus 3 NameHasOwner | s org.a.T
client bus 4 RequestName | su org.a.T 0
says --own=org.a.T
within --own=org.a.T
",
    // So has one to which a signal goes.
    "\
recording
client call 1 path=/p interface=org.a.I member=A destination=org.a.T
client bus 2 NameHasOwner | s org.a.T
client signal 3 path=/p interface=org.a.I member=S destination=org.a.T
says --talk=org.a.T
within --own=org.a.T
",
    // A name that is called is not seen beside.
    "\
recording
client bus 1 NameHasOwner | s org.a.T
client call 2 path=/p interface=org.a.I member=A destination=org.a.T
client call 3 path=/p interface=org.a.I member=A destination=org.a.T
says --call=org.a.T=org.a.I.A@/p
within --call=org.a.T=*
",
    // Names, paths, interfaces and members stand by their bytes.
    "\
recording
client call 1 path=/p interface=org.b.I member=b destination=org.b.T
client call 2 path=/p interface=org.b.I member=a destination=org.b.T
client call 3 path=/p interface=org.B.I member=z destination=org.b.T
client call 4 path=/P interface=org.c.I member=z destination=org.b.T
client call 5 path=/ interface=org.d.I member=z destination=org.b.T
client bus 6 NameHasOwner | s org.b
client bus 7 NameHasOwner | s org.B.Z
client bus 8 NameHasOwner | s org.b-c
says --see=org.B.Z
says --see=org.b
says --see=org.b-c
says --call=org.b.T=org.d.I.z@/
says --call=org.b.T=org.c.I.z@/P
says --call=org.b.T=org.B.I.z@/p
says --call=org.b.T=org.b.I.a@/p
says --call=org.b.T=org.b.I.b@/p
within --see=org.* --talk=org.b.T
",
    // What the recordings ask together. A level in the last is enough for the calls in the first.
    "\
recording
lines
recording
client call 1 path=/p interface=org.a.I member=A destination=org.a.T
client call 2 path=/p interface=org.a.I member=A destination=org.a.U
recording
client bus 1 StartServiceByName | su org.a.T 0
client call 2 path=/p interface=org.a.I member=B destination=org.a.U
says --talk=org.a.T
says --call=org.a.U=org.a.I.A@/p
says --call=org.a.U=org.a.I.B@/p
within --talk=org.a.*
",
];

/// The recordings, the words of the policy that is suggested, and policies that it is within.
#[derive(Drop)]
struct Suggestion {
    recordings: Vec<Case>,
    says: Vec<u8>,
    withins: Vec<Case>,
}

fn suggestion_of(alloc: Global, text: &str) -> Result<Suggestion, AllocError> {
    let mut suggestion = Suggestion {
        recordings: Vec::new(alloc),
        says: Vec::new(alloc),
        withins: Vec::new(alloc),
    };
    suggestion.says.extend_from_slice(b"--filter\0")?;
    for line in text.lines() {
        add_suggestion_line(alloc, &mut suggestion, line)?;
    }
    Ok(suggestion)
}

fn add_suggestion_line(
    alloc: Global,
    suggestion: &mut Suggestion,
    line: &str,
) -> Result<(), AllocError> {
    let (what, rest) = line.split_once(' ').unwrap_or((line, ""));
    match what {
        "recording" => suggestion.recordings.push(empty_case(alloc))?,
        "says" => {
            suggestion.says.extend_from_slice(rest.as_bytes())?;
            suggestion.says.push(0)?;
        }
        "within" => {
            let mut case = empty_case(alloc);
            let words = format!(in alloc; "policy {rest}")?;
            add_line(alloc, &mut case, &words)?;
            suggestion.withins.push(case)?;
        }
        _ => {
            if let Some(recording) = suggestion.recordings.last_mut() {
                add_line(alloc, recording, line)?;
            }
        }
    }
    Ok(())
}

fn recordings_of(
    alloc: Global,
    suggestion: &Suggestion,
    size: usize,
) -> Result<Vec<Vec<u8>>, AllocError> {
    let mut recordings = Vec::new(alloc);
    for recording in &suggestion.recordings {
        recordings.push(recording_of(alloc, recording, size)?)?;
    }
    Ok(recordings)
}

/// Whether a line of an audit tells of a denial by the name of a call, or of a call's member.
fn is_denial_by_name(line: &str) -> bool {
    line.starts_with("reason NotVisible ")
        || line.starts_with("reason OnlySee ")
        || line.starts_with("reason NoRule ")
        || line.starts_with("reason ArgNot")
}

fn assert_suggestion<R: Abort + Threads + Sync>(
    rt: &R,
    alloc: Global,
    text: &str,
) -> Result<(), AllocError> {
    let suggestion = suggestion_of(alloc, text)?;
    for size in SIZES {
        assert_suggested(rt, alloc, &suggestion, size, text)?;
    }
    for policy in &suggestion.withins {
        let ended = within(rt, alloc, &suggestion.says, &policy.policy)?;
        assert_eq!(rt; ended.code, 0, "{text}");
    }
    Ok(())
}

/// Asserts what is suggested from recordings in pieces of one size.
fn assert_suggested<R: Abort + Threads + Sync>(
    rt: &R,
    alloc: Global,
    suggestion: &Suggestion,
    size: usize,
    text: &str,
) -> Result<(), AllocError> {
    let recordings = recordings_of(alloc, suggestion, size)?;
    let ended = suggest(rt, alloc, &recordings)?;
    let said = str::from_utf8(&ended.out.bytes).unwrap_or("no text");
    let expected = str::from_utf8(&suggestion.says).unwrap_or("no text");
    assert_eq!(rt; said, expected, "{text}");
    assert_eq!(rt; ended.code, 0, "{text}");
    assert_eq!(rt; ended.err.bytes.len(), 0, "{text}");
    assert_permits(rt, alloc, &ended.out.bytes, &recordings, text)
}

/// Nothing that was asked of a name is denied under the suggested policy. A name that is asked for is denied if it is
/// unique or the bus's own, so of those recordings the words of the table ask nothing.
fn assert_permits<R: Abort + Threads + Sync>(
    rt: &R,
    alloc: Global,
    policy: &[u8],
    recordings: &[Vec<u8>],
    text: &str,
) -> Result<(), AllocError> {
    if policy == b"--filter\0".as_slice() {
        return Ok(());
    }
    let ended = audit(rt, alloc, policy, recordings)?;
    assert_eq!(rt; ended.code, 0, "{text}");
    for line in str::from_utf8(&ended.out.bytes).unwrap_or("").lines() {
        assert!(rt; !is_denial_by_name(line), "{line}: {text}");
        assert!(rt; !line.starts_with("unnamed "), "{line}: {text}");
    }
    Ok(())
}

#[test]
fn least_policy_is_suggested(rt: HostRuntime) {
    for text in SUGGESTIONS {
        if assert_suggestion(&rt, rt.alloc(), text).is_err() {
            panic!(rt; "{text}: out of memory");
        }
    }
}
