//! A session that ends early: after each prefix of what the client sends, and after each prefix of what the bus sends.
//!
//! A stream that ends inside a line or inside a message isn't malformed: the session ends with the end of that side.
//! Nothing of the unfinished line or message goes to the other side, but for the zero that precedes the client's first
//! line.
use crate::cases::{Case, add_record, assert_cases, case_of, empty_recording};
use crate::runs::replay;
use std::alloc::{AllocError, Global};
use std::test::Fail;
use std::thread::Threads;

/// A sandboxed application opens a file by a portal. It calls a name that it doesn't see, asks for the list of names,
/// and the bus sends a signal that it isn't shown.
const SESSION: &str = "\
policy --filter --log --call=org.freedesktop.portal.*=* --broadcast=org.freedesktop.portal.*=@/org/freedesktop/portal/*
lines
client bytes ~AUTH EXTERNAL%0D%0ADATA%0D%0ANEGOTIATE_UNIX_FD%0D%0ABEGIN%0D%0A
bus bytes DATA%0D%0AOK 0123456789abcdef0123456789abcdef%0D%0AERROR%0D%0A
client bus 1 Hello
bus ret 1 1 | s :1.40
bus signal 2 path=/org/freedesktop/DBus interface=org.freedesktop.DBus member=NameAcquired destination=:1.40 sender=org.freedesktop.DBus | s :1.40
bus ret 3 2
bus ret 4 3 | as [org.freedesktop.DBus,:1.40,org.freedesktop.portal.Desktop,org.kde.Secret,:1.9]
bus ret 5 4 | s :1.9
client bus 2 AddMatch | s type='signal',sender='org.freedesktop.portal.Desktop'
bus ret 6 5
client call 3 path=/org/freedesktop/portal/desktop interface=org.freedesktop.portal.FileChooser member=OpenFile destination=org.freedesktop.portal.Desktop | ssa{sv} '' Open []
client call 4 path=/x interface=org.kde.Secret member=Get destination=org.kde.Secret
client bus 5 ListNames
bus return 20 reply=6 destination=:1.40 sender=:1.9 | o /org/freedesktop/portal/desktop/request/1_40/t
bus ret 21 7
bus signal 22 path=/h interface=org.h.I member=S sender=:1.60 | s hidden
bus ret 23 8 | as [org.freedesktop.DBus,:1.40,org.freedesktop.portal.Desktop,org.kde.Secret,:1.9,:1.60]
bus signal 24 path=/org/freedesktop/portal/desktop/request/1_40/t interface=org.freedesktop.portal.Request member=Response destination=:1.40 sender=:1.9 | ua{sv} 0 []
bus call 25 path=/c interface=org.freedesktop.DBus.Peer member=Ping destination=:1.40 sender=:1.9
client return 6 reply=25 destination=:1.9
bus signal 26 path=/org/freedesktop/portal/desktop interface=org.freedesktop.DBus.Properties member=PropertiesChanged sender=:1.9 | sa{sv}as org.freedesktop.portal.Settings [] []
to_bus bytes ~AUTH EXTERNAL%0D%0ADATA%0D%0ANO_UNIX_FD%0D%0ABEGIN%0D%0A
to_bus bus 1 Hello
to_bus add_match 2 org.freedesktop.portal.*
to_bus list_names 3
to_bus get_owner 4 org.freedesktop.portal.Desktop
to_bus bus 5 AddMatch | s type='signal',sender='org.freedesktop.portal.Desktop'
to_bus call 6 path=/org/freedesktop/portal/desktop interface=org.freedesktop.portal.FileChooser member=OpenFile destination=org.freedesktop.portal.Desktop | ssa{sv} '' Open []
to_bus ping 7
to_bus bus 8 ListNames
to_bus return 9 reply=25 destination=:1.9
to_client bytes DATA%0D%0AOK 0123456789abcdef0123456789abcdef%0D%0AERROR%0D%0A
to_client ret 1 1 | s :1.40
to_client signal 2 path=/org/freedesktop/DBus interface=org.freedesktop.DBus member=NameAcquired destination=:1.40 sender=org.freedesktop.DBus | s :1.40
to_client ret 6 2
to_client return 20 reply=3 destination=:1.40 sender=:1.9 | o /org/freedesktop/portal/desktop/request/1_40/t
to_client unknown 21 4
to_client ret 23 5 | as [org.freedesktop.DBus,:1.40,org.freedesktop.portal.Desktop,:1.9]
to_client signal 24 path=/org/freedesktop/portal/desktop/request/1_40/t interface=org.freedesktop.portal.Request member=Response destination=:1.40 sender=:1.9 | ua{sv} 0 []
to_client call 25 path=/c interface=org.freedesktop.DBus.Peer member=Ping destination=:1.40 sender=:1.9
to_client signal 26 path=/org/freedesktop/portal/desktop interface=org.freedesktop.DBus.Properties member=PropertiesChanged sender=:1.9 | sa{sv}as org.freedesktop.portal.Settings [] []
log 1 c 1 call serial=1 reply=- from=- dest=org.freedesktop.DBus path=/org/freedesktop/DBus iface=org.freedesktop.DBus member=Hello pass
log 1 b 2 return serial=1 reply=1 from=org.freedesktop.DBus dest=:1.40 path=- iface=- member=- show
log 1 b 3 signal serial=2 reply=- from=org.freedesktop.DBus dest=:1.40 path=/org/freedesktop/DBus iface=org.freedesktop.DBus member=NameAcquired show
log 1 b 4 return serial=3 reply=2 from=org.freedesktop.DBus dest=:1.40 path=- iface=- member=- hide OwnAnswer 0
log 1 b 5 return serial=4 reply=3 from=org.freedesktop.DBus dest=:1.40 path=- iface=- member=- hide OwnAnswer 0
log 1 b 6 return serial=5 reply=4 from=org.freedesktop.DBus dest=:1.40 path=- iface=- member=- hide OwnAnswer 0
log 1 c 7 call serial=2 reply=- from=- dest=org.freedesktop.DBus path=/org/freedesktop/DBus iface=org.freedesktop.DBus member=AddMatch pass
log 1 b 8 return serial=6 reply=5 from=org.freedesktop.DBus dest=:1.40 path=- iface=- member=- show
log 1 c 9 call serial=3 reply=- from=- dest=org.freedesktop.portal.Desktop path=/org/freedesktop/portal/desktop iface=org.freedesktop.portal.FileChooser member=OpenFile pass
log 1 c 10 call serial=4 reply=- from=- dest=org.kde.Secret path=/x iface=org.kde.Secret member=Get ping NotVisible 0 ServiceUnknown
log 1 c 11 call serial=5 reply=- from=- dest=org.freedesktop.DBus path=/org/freedesktop/DBus iface=org.freedesktop.DBus member=ListNames pass
log 1 b 12 return serial=20 reply=6 from=:1.9 dest=:1.40 path=- iface=- member=- show
log 1 b 13 return serial=21 reply=7 from=org.freedesktop.DBus dest=:1.40 path=- iface=- member=- instead ServiceUnknown
log 1 b 14 signal serial=22 reply=- from=:1.60 dest=- path=/h iface=org.h.I member=S hide SenderNotTalk 0
log 1 b 15 return serial=23 reply=8 from=org.freedesktop.DBus dest=:1.40 path=- iface=- member=- cut
log 1 b 16 signal serial=24 reply=- from=:1.9 dest=:1.40 path=/org/freedesktop/portal/desktop/request/1_40/t iface=org.freedesktop.portal.Request member=Response show
log 1 b 17 call serial=25 reply=- from=:1.9 dest=:1.40 path=/c iface=org.freedesktop.DBus.Peer member=Ping show
log 1 c 18 return serial=6 reply=25 from=- dest=:1.9 path=- iface=- member=- pass
log 1 b 19 signal serial=26 reply=- from=:1.9 dest=- path=/org/freedesktop/portal/desktop iface=org.freedesktop.DBus.Properties member=PropertiesChanged show
";

/// The room for the output of a replay.
const ROOM: usize = 10_000;

/// A side whose stream is cut: the kinds of its bytes and of its end in a recording, and the number of its end in an
/// output.
struct CutSide {
    bytes: u8,
    finished: u8,
    end: u8,
}

const CLIENT: CutSide = CutSide {
    bytes: 0,
    finished: 2,
    end: 3,
};

const BUS: CutSide = CutSide {
    bytes: 1,
    finished: 3,
    end: 4,
};

/// What a replay gives.
struct Given {
    to_bus: Vec<u8>,
    to_client: Vec<u8>,
    end: Vec<u8>,
    log: Vec<u8>,
}

// Its drop is a call, so that a function that drops one is short to prove.
impl Drop for Given {
    fn drop(self) {
        let Given {
            to_bus: _to_bus,
            to_client: _to_client,
            end: _end,
            log: _log,
        } = self;
    }
}

/// The bytes of the first record of a kind, and none without such a record.
fn record(output: &[u8], kind: u8) -> &[u8] {
    let mut rest = output;
    for _ in 0..3 {
        let [found, a, b, c, d, records @ ..] = rest else {
            return &[];
        };
        let length = u32::from_le_bytes([*a, *b, *c, *d]) as usize;
        let end = length.min(records.len());
        if *found == kind {
            return records.get(..end).unwrap_or(&[]);
        }
        rest = records.get(end..).unwrap_or(&[]);
    }
    &[]
}

/// The length of a side's stream.
fn stream_length(case: &Case, side: &CutSide) -> usize {
    let mut length = 0_usize;
    for came in &case.came {
        if came.kind == side.bytes {
            length = length.saturating_add(came.bytes.len());
        }
    }
    length
}

/// The recording of a case up to a number of bytes of a side, which then ends.
fn cut_recording(
    alloc: Global,
    case: &Case,
    side: &CutSide,
    length: usize,
) -> Result<Vec<u8>, AllocError> {
    let mut recording = empty_recording(alloc, case)?;
    let mut left = length;
    for came in &case.came {
        if came.kind != side.bytes {
            add_record(&mut recording, came.kind, &came.bytes)?;
        } else if left < came.bytes.len() {
            add_record(
                &mut recording,
                side.bytes,
                came.bytes.get(..left).unwrap_or(&[]),
            )?;
            break;
        } else {
            add_record(&mut recording, side.bytes, &came.bytes)?;
            left = left.saturating_sub(came.bytes.len());
        }
    }
    add_record(&mut recording, side.finished, &[])?;
    Ok(recording)
}

/// What the replay of a case gives that is cut after a number of bytes of a side. `None` if the run fails.
fn cut_run<R: Threads + Sync>(
    rt: &R,
    alloc: Global,
    case: &Case,
    side: &CutSide,
    length: usize,
) -> Result<Option<Given>, AllocError> {
    let recording = cut_recording(alloc, case, side, length)?;
    let ended = replay(rt, alloc, &case.policy, &recording, ROOM)?;
    if ended.code != 0 {
        return Ok(None);
    }
    let output = ended.out.bytes.as_slice();
    Ok(Some(Given {
        to_bus: Vec::from_slice(alloc, record(output, 16))?,
        to_client: Vec::from_slice(alloc, record(output, 17))?,
        end: Vec::from_slice(alloc, record(output, 18))?,
        log: Vec::from_slice(alloc, &ended.err.bytes)?,
    }))
}

/// What the whole case gives.
fn whole(alloc: Global, case: &Case) -> Result<Given, AllocError> {
    Ok(Given {
        to_bus: Vec::from_slice(alloc, &case.to_bus)?,
        to_client: Vec::from_slice(alloc, &case.to_client)?,
        end: Vec::new(alloc),
        log: Vec::from_slice(alloc, case.log.as_bytes())?,
    })
}

/// The first part that isn't a prefix of the same part of another replay.
fn first_no_prefix(given: &Given, other: &Given) -> Option<&'static str> {
    if !other.to_bus.starts_with(&given.to_bus) {
        return Some("what the bus is sent");
    }
    if !other.to_client.starts_with(&given.to_client) {
        return Some("what the client is shown");
    }
    if !other.log.starts_with(&given.log) {
        return Some("the log");
    }
    None
}

/// What is wrong with what a cut replay gives, beside a shorter one and the whole one.
fn fault(given: &Given, shorter: &Given, whole: &Given, side: &CutSide) -> Option<&'static str> {
    if given.end.as_slice() != [side.end].as_slice() {
        return Some("the End");
    }
    match first_no_prefix(shorter, given) {
        Some(part) => Some(part),
        None => first_no_prefix(given, whole),
    }
}

/// The first prefix of a side's stream for which something wrong is given. All of the stream gives the other side all
/// that it gets.
fn wrong_prefix<R: Threads + Sync>(
    rt: &R,
    alloc: Global,
    case: &Case,
    side: &CutSide,
) -> Result<Option<String>, AllocError> {
    let whole = whole(alloc, case)?;
    let Some(mut shorter) = cut_run(rt, alloc, case, side, 0)? else {
        return Ok(Some(format!(in alloc; "0 bytes: the run fails")?));
    };
    for length in 0..=stream_length(case, side) {
        let Some(given) = cut_run(rt, alloc, case, side, length)? else {
            return Ok(Some(format!(in alloc; "{length} bytes: the run fails")?));
        };
        if let Some(part) = fault(&given, &shorter, &whole, side) {
            return Ok(Some(format!(in alloc; "{length} bytes: {part}")?));
        }
        shorter = given;
    }
    match first_no_prefix(&whole, &shorter) {
        Some(part) => Ok(Some(format!(in alloc; "all bytes: {part}")?)),
        None => Ok(None),
    }
}

#[test]
fn the_session_is_filtered(rt: HostRuntime) {
    assert_cases(&rt, rt.alloc(), &[SESSION]);
}

#[test]
fn each_prefix_of_the_clients_stream_gives_a_prefix(rt: HostRuntime) -> Result<(), Fail> {
    let case = case_of(rt.alloc(), SESSION)?;
    assert_eq!(rt; wrong_prefix(&rt, rt.alloc(), &case, &CLIENT)?, None);
    Ok(())
}

#[test]
fn each_prefix_of_the_buss_stream_gives_a_prefix(rt: HostRuntime) -> Result<(), Fail> {
    let case = case_of(rt.alloc(), SESSION)?;
    assert_eq!(rt; wrong_prefix(&rt, rt.alloc(), &case, &BUS)?, None);
    Ok(())
}
