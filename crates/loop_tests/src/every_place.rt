//! A fault at each place: the k-th read, write, accept or connect of a run fails or isn't ready, for each k; a link or
//! the log has room for n bytes, for each n. All runs are of the session in `rich_session`.
//!
//! The numbers of bytes that are tried are those up to 8, the multiples of 97, and the greatest.
use crate::rich_session::{
    PIECES, Run, Sent, differing_link, differing_part, part_beyond, run_server, steps, whole,
};
use proxy_loop::Turn;
use std::alloc::{AllocError, Global};
use std::test::Fail;

/// A line with a log for one session.
const ONE: &str = "unix:path=/bus /p --filter --log --talk=org.a.T --sessions=1";

/// A line with a log for two sessions.
const TWO: &str = "unix:path=/bus /p --filter --log --talk=org.a.T --sessions=2";

/// Two blocks; the first has a log.
const TWO_BLOCKS: &str =
    "unix:path=/bus /p --filter --log --talk=org.a.T unix:path=/bus2 /q --filter --talk=org.a.T --sessions=2";

/// The orders in which the sides end.
const ENDS: [[&str; 2]; 2] = [["c", "b"], ["b", "c"]];

/// More reads, and more writes, than a run of one session has.
const MOST_CALLS: usize = 16;

/// More reads, and more writes, than a run of two sessions has.
const MOST_CALLS_OF_TWO: usize = 32;

/// Room for the whole log.
const LOG_ROOM: usize = 9_999;

/// Each number of bytes up to this one is tried.
const EACH_UP_TO: usize = 8;

/// Calls that fail or are refused memory, with a number that is greater than that of such calls in a run of two
/// sessions.
const FAILS: [(&str, usize); 6] = [
    ("ReadFails", MOST_CALLS_OF_TWO),
    ("WriteFails", MOST_CALLS_OF_TWO),
    ("AcceptFails", 3),
    ("AcceptRefused", 3),
    ("ConnectFails", 3),
    ("ConnectRefused", 3),
];

/// Calls that aren't ready, also with such a number.
const NOT_READY: [(&str, usize); 3] = [
    ("ReadNotReady", MOST_CALLS_OF_TWO),
    ("WriteNotReady", MOST_CALLS_OF_TWO),
    ("AcceptNotReady", 3),
];

/// Whether a number of bytes is tried.
fn is_tried(bytes: usize, most: usize) -> bool {
    bytes <= EACH_UP_TO || bytes % 97 == 0 || bytes == most
}

/// What is sent in a run of one session with this many first pieces, if exceptions precede the script. `None` if the
/// server doesn't stop.
fn one(
    alloc: Global,
    exceptions: &str,
    pieces: usize,
    ends: [&str; 2],
) -> Result<Option<Sent>, AllocError> {
    let script = format!(in alloc; "{exceptions}, {}", steps(alloc, &[0], pieces, ends)?)?;
    let mut run = run_server(alloc, ONE, &script, 1, LOG_ROOM)?;
    match run.end {
        Ok(Turn::Stopped) => Ok(run.sessions.pop()),
        _ => Ok(None),
    }
}

/// The text of a wrong case, if a part of it is wrong.
fn told(
    alloc: Global,
    case: &str,
    ends: [&str; 2],
    part: Option<&'static str>,
) -> Result<Option<String>, AllocError> {
    let [first, _] = ends;
    match part {
        Some(part) => Ok(Some(format!(in alloc; "{case}, {first}1 ends first: {part}")?)),
        None => Ok(None),
    }
}

/// What is wrong with a session that must be sent exactly this.
fn fault(sent: &Option<Sent>, expected: &Sent) -> Option<&'static str> {
    match sent {
        Some(sent) => differing_part(sent, expected),
        None => Some("the end of the server"),
    }
}

/// What is wrong with a session that must be sent a prefix of this.
fn prefix_fault(sent: &Option<Sent>, expected: &Sent) -> Option<&'static str> {
    match sent {
        Some(sent) => part_beyond(sent, expected),
        None => Some("the end of the server"),
    }
}

/// The first read whose failure has another effect than the absence of the later pieces. Each piece is read by one
/// read.
fn wrong_failed_read(alloc: Global, ends: [&str; 2]) -> Result<Option<String>, AllocError> {
    let whole = whole(alloc)?;
    for pieces in 0..MOST_CALLS {
        let case = format!(in alloc; "ReadFails {}", pieces.saturating_add(1))?;
        let sent = one(alloc, &case, PIECES.len(), ends)?;
        let Some(cut) = one(alloc, "", pieces, ends)? else {
            return told(alloc, &case, ends, Some("the run without it"));
        };
        let part = fault(&sent, &cut).or(part_beyond(&cut, &whole));
        if part.is_some() {
            return told(alloc, &case, ends, part);
        }
    }
    Ok(None)
}

/// The first write whose failure doesn't leave a prefix of what the run without it sends, or not more than the failure
/// of the write before.
fn wrong_failed_write(alloc: Global, ends: [&str; 2]) -> Result<Option<String>, AllocError> {
    let whole = whole(alloc)?;
    let mut before = None;
    for call in 1..=MOST_CALLS {
        let case = format!(in alloc; "WriteFails {call}")?;
        let sent = one(alloc, &case, PIECES.len(), ends)?;
        let part = prefix_fault(&sent, &whole).or(growth_fault(&before, &sent, &whole));
        if part.is_some() {
            return told(alloc, &case, ends, part);
        }
        before = sent;
    }
    told(alloc, "no WriteFails", ends, fault(&before, &whole))
}

/// What is wrong with a session that must be sent more than another one, unless it is sent all.
fn growth_fault(before: &Option<Sent>, sent: &Option<Sent>, whole: &Sent) -> Option<&'static str> {
    let (Some(before), Some(sent)) = (before, sent) else {
        return None;
    };
    if differing_link(before, sent).is_none() && differing_part(sent, whole).is_some() {
        return Some("no byte more");
    }
    part_beyond(before, sent)
}

/// The first call that isn't ready and changes something.
fn wrong_not_ready(alloc: Global, ends: [&str; 2]) -> Result<Option<String>, AllocError> {
    let whole = whole(alloc)?;
    for (kind, most) in NOT_READY {
        for call in 1..=most.min(MOST_CALLS) {
            let case = format!(in alloc; "{kind} {call}")?;
            let part = fault(&one(alloc, &case, PIECES.len(), ends)?, &whole);
            if part.is_some() {
                return told(alloc, &case, ends, part);
            }
        }
    }
    Ok(None)
}

/// Three writes in a row that aren't ready, from the k-th on.
fn pause(alloc: Global, call: usize) -> Result<String, AllocError> {
    let second = call.saturating_add(1);
    let third = call.saturating_add(2);
    format!(in alloc; "WriteNotReady {call}, WriteNotReady {second}, WriteNotReady {third}")
}

/// What is wrong with a session if one side must be sent exactly this, and the other side a prefix of it.
fn half_fault(sent: &Option<Sent>, expected: &Sent, lost: &str) -> Option<&'static str> {
    let Some(sent) = sent else {
        return Some("the end of the server");
    };
    let is_kept = match lost {
        "c" => sent.to_bus.as_slice() == expected.to_bus.as_slice(),
        _ => sent.to_client.as_slice() == expected.to_client.as_slice(),
    };
    if is_kept {
        part_beyond(sent, expected)
    } else {
        Some("what waited for the other side")
    }
}

/// The first writes that aren't ready before the first end, and after which not all that waits for the other side is
/// written.
fn wrong_pause_before_end(alloc: Global, ends: [&str; 2]) -> Result<Option<String>, AllocError> {
    let whole = whole(alloc)?;
    let [first, _] = ends;
    for call in 1..=MOST_CALLS {
        let case = pause(alloc, call)?;
        let part = half_fault(&one(alloc, &case, PIECES.len(), ends)?, &whole, first);
        if part.is_some() {
            return told(alloc, &case, ends, part);
        }
    }
    Ok(None)
}

/// The first writes that aren't ready before a failing read, from each fourth write on, and after which not all that
/// waits for the other side is written.
fn wrong_pause_before_failed_read(
    alloc: Global,
    pieces: usize,
    side: &str,
) -> Result<Option<String>, AllocError> {
    let [ends, _] = ENDS;
    let Some(cut) = one(alloc, "", pieces, ends)? else {
        return told(alloc, "no fault", ends, Some("the end of the server"));
    };
    for call in 1..=MOST_CALLS {
        if call % 4 != 1 {
            continue;
        }
        let read = pieces.saturating_add(1);
        let case = format!(in alloc; "ReadFails {read}, {}", pause(alloc, call)?)?;
        let part = half_fault(&one(alloc, &case, PIECES.len(), ends)?, &cut, side);
        if part.is_some() {
            return told(alloc, &case, ends, part);
        }
    }
    Ok(None)
}

/// The first number of bytes that changes something if the links take that many in a write.
fn wrong_pace(alloc: Global, ends: [&str; 2]) -> Result<Option<String>, AllocError> {
    let whole = whole(alloc)?;
    for bytes in [1, 2, 3, 7, 64] {
        let case = format!(in alloc; "pace c1 {bytes}, pace b1 {bytes}")?;
        let part = fault(&one(alloc, &case, PIECES.len(), ends)?, &whole);
        if part.is_some() {
            return told(alloc, &case, ends, part);
        }
    }
    Ok(None)
}

/// The first limit on a link's bytes with which the link isn't sent a prefix of this length.
fn wrong_limit(alloc: Global, side: &str) -> Result<Option<String>, AllocError> {
    let whole = whole(alloc)?;
    let [ends, _] = ENDS;
    let most = if side == "c" {
        whole.to_client.len()
    } else {
        whole.to_bus.len()
    };
    for bytes in 0..=most {
        if !is_tried(bytes, most) {
            continue;
        }
        let case = format!(in alloc; "limit {side}1 {bytes}")?;
        let sent = one(alloc, &case, PIECES.len(), ends)?;
        let part = prefix_fault(&sent, &whole).or(length_fault(&sent, side, bytes));
        if part.is_some() {
            return told(alloc, &case, ends, part);
        }
    }
    Ok(None)
}

/// What is wrong with a session if one of its sides must be sent this number of bytes.
fn length_fault(sent: &Option<Sent>, side: &str, bytes: usize) -> Option<&'static str> {
    let length = match (sent, side) {
        (Some(sent), "c") => sent.to_client.len(),
        (Some(sent), _) => sent.to_bus.len(),
        (None, _) => 0,
    };
    if length == bytes {
        None
    } else {
        Some("the number of bytes")
    }
}

/// The runs of the first pieces, for each number of pieces from 0 on.
fn cuts(alloc: Global, ends: [&str; 2]) -> Result<Vec<Run>, AllocError> {
    let mut cuts = Vec::new(alloc);
    for pieces in 0..=PIECES.len() {
        let script = steps(alloc, &[0], pieces, ends)?;
        cuts.push(run_server(alloc, ONE, &script, 1, LOG_ROOM)?)?;
    }
    Ok(cuts)
}

/// The run up to the first piece with a line that doesn't fit into the log, or else the whole run.
fn reached(cuts: &[Run], room: usize) -> Option<&Run> {
    for cut in cuts {
        if cut.log.len() > room {
            return Some(cut);
        }
    }
    cuts.last()
}

/// What is wrong with a run whose log has room for this number of bytes.
fn room_fault(run: &Run, cuts: &[Run], room: usize) -> Option<&'static str> {
    let (Some(cut), Some(whole)) = (reached(cuts, room), cuts.last()) else {
        return Some("the runs of the first pieces");
    };
    if run.end != Ok(Turn::Stopped) {
        return Some("the end of the server");
    }
    if run.log.as_slice() != whole.log.get(..room).unwrap_or(&whole.log) {
        return Some("the log");
    }
    match (run.sessions.first(), cut.sessions.first()) {
        (Some(sent), Some(expected)) => differing_link(sent, expected),
        _ => Some("the sessions"),
    }
}

/// The first room of a log with which the log isn't the first bytes of the whole one, or another message is the last.
fn wrong_log_room(alloc: Global) -> Result<Option<String>, AllocError> {
    let [ends, _] = ENDS;
    let cuts = cuts(alloc, ends)?;
    let length = cuts.last().map_or(0, |whole| whole.log.len());
    let script = steps(alloc, &[0], PIECES.len(), ends)?;
    for room in 0..=length {
        if !is_tried(room, length) {
            continue;
        }
        let run = run_server(alloc, ONE, &script, 1, room)?;
        let part = room_fault(&run, &cuts, room);
        if part.is_some() {
            return told(
                alloc,
                &format!(in alloc; "{room} bytes of log")?,
                ends,
                part,
            );
        }
    }
    Ok(None)
}

/// The run of two sessions side by side, in which exceptions precede the script.
fn two(alloc: Global, exceptions: &str, ends: [&str; 2]) -> Result<Run, AllocError> {
    let steps = steps(alloc, &[0, 0], PIECES.len(), ends)?;
    let script = format!(in alloc; "{exceptions}, {steps}")?;
    run_server(alloc, TWO, &script, 2, LOG_ROOM)
}

/// What is wrong with two sessions if at least `least` of them must be sent all, and the others a prefix.
fn fault_of_two(run: &Run, whole: &Sent, least: usize) -> Option<&'static str> {
    let mut count = 0_usize;
    for sent in &run.sessions {
        if let Some(part) = part_beyond(sent, whole) {
            return Some(part);
        }
        if differing_part(sent, whole).is_none() {
            count = count.saturating_add(1);
        }
    }
    if run.end != Ok(Turn::Stopped) {
        return Some("the end of the server");
    }
    if count < least {
        Some("the other session")
    } else {
        None
    }
}

/// The first failing call that changes more than one of two sessions. The last one is after all calls, and must change
/// none.
fn wrong_failure_of_two(alloc: Global, ends: [&str; 2]) -> Result<Option<String>, AllocError> {
    let whole = whole(alloc)?;
    for (kind, most) in FAILS {
        for call in 1..=most {
            let case = format!(in alloc; "{kind} {call}")?;
            let least = if call == most { 2 } else { 1 };
            let part = fault_of_two(&two(alloc, &case, ends)?, &whole, least);
            if part.is_some() {
                return told(alloc, &case, ends, part);
            }
        }
    }
    Ok(None)
}

/// The first call that isn't ready and changes one of two sessions; each second call is tried.
fn wrong_not_ready_of_two(alloc: Global, ends: [&str; 2]) -> Result<Option<String>, AllocError> {
    let whole = whole(alloc)?;
    for (kind, most) in NOT_READY {
        for call in 1..=most {
            if call % 2 == 0 {
                continue;
            }
            let case = format!(in alloc; "{kind} {call}")?;
            let part = fault_of_two(&two(alloc, &case, ends)?, &whole, 2);
            if part.is_some() {
                return told(alloc, &case, ends, part);
            }
        }
    }
    Ok(None)
}

/// What is wrong with two sessions if the log of one fails and the other has none.
fn log_fault_of_two(run: &Run, whole: &Sent) -> Option<&'static str> {
    let [first, second] = run.sessions.as_slice() else {
        return Some("the sessions");
    };
    if run.end != Ok(Turn::Stopped) {
        return Some("the end of the server");
    }
    if !whole.to_client.starts_with(&first.to_client) || !whole.to_bus.starts_with(&first.to_bus) {
        return Some("the session with a log");
    }
    if !second.log.is_empty() {
        return Some("the log");
    }
    differing_link(second, whole)
}

/// The first room of one session's log, of the multiples of 97, that changes what another session without a log is
/// sent.
fn wrong_log_room_of_two(alloc: Global) -> Result<Option<String>, AllocError> {
    let whole = whole(alloc)?;
    let [ends, _] = ENDS;
    let script = steps(alloc, &[0, 1], PIECES.len(), ends)?;
    for room in 0..=whole.log.len() {
        if room % 97 != 0 {
            continue;
        }
        let run = run_server(alloc, TWO_BLOCKS, &script, 2, room)?;
        let part = log_fault_of_two(&run, &whole);
        if part.is_some() {
            return told(
                alloc,
                &format!(in alloc; "{room} bytes of log")?,
                ends,
                part,
            );
        }
    }
    Ok(None)
}

#[test]
fn the_session_is_served(rt: HostRuntime) -> Result<(), Fail> {
    for ends in ENDS {
        let part = fault(
            &one(rt.alloc(), "", PIECES.len(), ends)?,
            &whole(rt.alloc())?,
        );
        assert_eq!(rt; part, None);
    }
    Ok(())
}

#[test]
fn each_failing_read_leaves_what_came_before(rt: HostRuntime) -> Result<(), Fail> {
    let [ends, _] = ENDS;
    assert_eq!(rt; wrong_failed_read(rt.alloc(), ends)?, None);
    Ok(())
}

#[test]
fn each_failing_write_leaves_a_prefix(rt: HostRuntime) -> Result<(), Fail> {
    for ends in ENDS {
        assert_eq!(rt; wrong_failed_write(rt.alloc(), ends)?, None);
    }
    Ok(())
}

#[test]
fn no_call_that_is_not_ready_changes_a_byte(rt: HostRuntime) -> Result<(), Fail> {
    let [ends, _] = ENDS;
    assert_eq!(rt; wrong_not_ready(rt.alloc(), ends)?, None);
    Ok(())
}

#[test]
fn what_waits_at_each_end_is_written(rt: HostRuntime) -> Result<(), Fail> {
    for ends in ENDS {
        assert_eq!(rt; wrong_pause_before_end(rt.alloc(), ends)?, None);
    }
    Ok(())
}

#[test]
fn what_waits_at_each_failing_read_is_written(rt: HostRuntime) -> Result<(), Fail> {
    let mut pieces = 0_usize;
    for (side, _) in PIECES {
        assert_eq!(rt;
            wrong_pause_before_failed_read(rt.alloc(), pieces, side)?,
            None
        );
        pieces = pieces.saturating_add(1);
    }
    Ok(())
}

#[test]
fn links_that_take_few_bytes_are_sent_all(rt: HostRuntime) -> Result<(), Fail> {
    for ends in ENDS {
        assert_eq!(rt; wrong_pace(rt.alloc(), ends)?, None);
    }
    Ok(())
}

#[test]
fn links_that_fail_after_each_byte_are_sent_a_prefix(rt: HostRuntime) -> Result<(), Fail> {
    assert_eq!(rt; wrong_limit(rt.alloc(), "c")?, None);
    assert_eq!(rt; wrong_limit(rt.alloc(), "b")?, None);
    Ok(())
}

#[test]
fn a_log_of_each_room_takes_that_prefix(rt: HostRuntime) -> Result<(), Fail> {
    assert_eq!(rt; wrong_log_room(rt.alloc())?, None);
    Ok(())
}

#[test]
fn each_failing_call_leaves_the_other_session_whole(rt: HostRuntime) -> Result<(), Fail> {
    let [ends, _] = ENDS;
    assert_eq!(rt; wrong_failure_of_two(rt.alloc(), ends)?, None);
    Ok(())
}

#[test]
fn no_call_that_is_not_ready_changes_one_of_two_sessions(rt: HostRuntime) -> Result<(), Fail> {
    let [ends, _] = ENDS;
    assert_eq!(rt; wrong_not_ready_of_two(rt.alloc(), ends)?, None);
    Ok(())
}

#[test]
fn a_full_log_leaves_the_session_without_a_log_whole(rt: HostRuntime) -> Result<(), Fail> {
    assert_eq!(rt; wrong_log_room_of_two(rt.alloc())?, None);
    Ok(())
}
