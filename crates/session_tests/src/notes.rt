//! The notes that a session makes of its messages.
use crate::sessions::{asked, bytes_of, told_steps};
use crate::texts::options_of;
use dbus_header::Places;
use policy_args::Options;
use policy_view::{Mode, Note};
use proxy_core::Session;
use proxy_core::laws::session_at;
use std::alloc::{AllocError, Global};
use std::test::Fail;
use test_tables::wrong_row;

/// The number of serials that count as given, the words of a policy, separated by commas, and the steps and their
/// results, as in the table of sessions. The result for a note is its number and side, the type, serial and length of
/// its message, and the decision.
///
/// Messages of both sides are counted together, from 1, and each has a note: one that passes and its answer, one that a
/// ping replaces and what is then shown, and those that are dropped and hidden. A message that is received byte by byte
/// has one. Taking notes doesn't change their numbers. If a stream is malformed, what came before it has its notes; a
/// message for which no serial is left has none.
const NOTES: &str = "\
0 --filter; note => none; None
0 --filter,--talk=org.a.T; client call; bus return; note; note; note => - 80 0; - 80 56; 1 Client 1 7 80 Judged(Pass); 2 Bus 2 60 56 Shown(Reply(7)); none; None
0 --filter; client call; bus return; note; note; note => - 120 0; - 120 140; \
    1 Client 1 7 80 Judged(Ping(ServiceUnknown, NotVisible)); 2 Bus 2 60 56 Shown(Instead { order: Little, reply: 7, \
    what: ServiceUnknown }); none; None
0 --filter; bus return; note; client call 2=1; note; client return; note; note => - 0 0; \
    1 Bus 2 60 56 Shown(Hide(NotExpected)); - 0 0; 2 Client 1 7 80 Judged(Drop(NotVisible)); - 0 0; \
    3 Client 2 60 56 Judged(Drop(NotOutstanding)); none; None
0 --filter,--talk=org.a.T; bytes call; bus call; note; note; note => - 80 0; - 80 80; 1 Client 1 7 80 Judged(Pass); 2 Bus 1 7 80 Shown(Whole); none; None
0 --filter,--talk=org.a.T; client call; client ones; bus return; note; note => - 80 0; \
    ClientMalformed(Message(Malformed { kind: ByteOrder, at: 0 })) 80 0; \
    ClientMalformed(Message(Malformed { kind: ByteOrder, at: 0 })) 80 0; 1 Client 1 7 80 Judged(Pass); none; \
    Some(ClientMalformed(Message(Malformed { kind: ByteOrder, at: 0 })))
0 --filter,--talk=org.a.T; client call; client call cut=79; client_ended; note; note => - 80 0; - 80 0; ClientEnd 80 0; 1 Client 1 7 80 Judged(Pass); none; Some(ClientEnd)
4294967294 --filter,--talk=org.a.T; client call; client call; note; note => - 80 0; SerialsSpent 80 0; 1 Client 1 7 80 Judged(Pass); none; Some(SerialsSpent)
4294967295 --filter,--talk=org.a.T; client return; client call; note; note => - 0 0; SerialsSpent 0 0; 1 Client 2 60 56 Judged(Drop(NotOutstanding)); none; Some(SerialsSpent)
";

/// Lines of both sides, which have no notes, and then a message; or bytes of both sides if messages aren't filtered.
const LINES: &str = "\
--filter,--talk=org.a.T; client auth; bus ok; note; client begin; client call; note; note => - 19 0; - 19 37; none; - 26 37; - 106 37; 1 Client 1 7 80 Judged(Pass); none; None
--log; client auth; bus ok; note; client begin; client call; bus ones; note => - 19 0; - 19 37; none; - 26 37; - 106 37; - 106 53; none; None
--log; client auth; bus ok; bus ones; client begin => - 19 0; - 19 37; BusMalformed(Line(LineFault { kind: EarlyBus, \
    at: 37 })) 19 37; BusMalformed(Line(LineFault { kind: EarlyBus, at: 37 })) 19 37; \
    Some(BusMalformed(Line(LineFault { kind: EarlyBus, at: 37 })))
";

/// Messages that are filtered, with notes.
const NOTED: Mode = Mode {
    auth: false,
    filter: true,
    notes: true,
};

/// Filtered messages after lines, with notes.
const WITH_LINES: Mode = Mode {
    auth: true,
    filter: true,
    notes: true,
};

/// The text of a note, if there is one.
pub fn told_note(alloc: Global, note: Option<Note>) -> Result<String, AllocError> {
    match note {
        None => String::from_str(alloc, "none; "),
        Some(note) => told_parts(alloc, &note),
    }
}

/// The text of a note.
pub fn told_parts(alloc: Global, note: &Note) -> Result<String, AllocError> {
    let (number, side, decision) = (note.number(), note.side(), note.decision());
    let mut places = Places::none();
    let (message, length) = (note.message(&mut places), note.frame().len());
    format!(in alloc;
        "{number} {side:?} {} {} {length} {decision:?}; ",
        message.kind, message.serial
    )
}

fn told_notes(alloc: Global, row: &str) -> Result<String, AllocError> {
    let (given, row) = row.split_once(' ').unwrap_or((row, ""));
    let (words, steps) = row.split_once("; ").unwrap_or((row, ""));
    let options = options_of(alloc, words)?;
    told_from(alloc, &options, given.parse().unwrap_or(0), steps)
}

fn told_from(
    alloc: Global,
    options: &Options,
    given: u32,
    steps: &str,
) -> Result<String, AllocError> {
    let mut session = session_at(alloc, &options.policy, NOTED, given)?;
    told_steps(alloc, &mut session, &options.policy, steps)
}

fn told_lines(alloc: Global, row: &str) -> Result<String, AllocError> {
    let (words, steps) = row.split_once("; ").unwrap_or((row, ""));
    let options = options_of(alloc, words)?;
    told_behind_lines(alloc, &options, steps)
}

fn told_behind_lines(alloc: Global, options: &Options, steps: &str) -> Result<String, AllocError> {
    let mut session = Session::new(alloc, &options.policy, asked(options, WITH_LINES))?;
    told_steps(alloc, &mut session, &options.policy, steps)
}

/// The bytes in the note on a message of the client.
fn kept_frame(alloc: Global, frame: &[u8]) -> Result<Vec<u8>, AllocError> {
    let options = options_of(alloc, "--filter")?;
    let mut session = Session::new(alloc, &options.policy, NOTED)?;
    let _end = session.feed_client(&options.policy, frame);
    match session.next_note() {
        Some(note) => Vec::from_slice(alloc, note.frame()),
        None => Err(AllocError),
    }
}

#[test]
fn each_message_has_a_note(rt: HostRuntime) -> Result<(), Fail> {
    assert_eq!(rt; wrong_row(rt.alloc(), NOTES, &told_notes)?, None);
    Ok(())
}

#[test]
fn lines_have_no_note(rt: HostRuntime) -> Result<(), Fail> {
    assert_eq!(rt; wrong_row(rt.alloc(), LINES, &told_lines)?, None);
    Ok(())
}

#[test]
fn a_note_keeps_the_bytes_of_its_message(rt: HostRuntime) -> Result<(), Fail> {
    assert_eq!(rt;
        kept_frame(rt.alloc(), bytes_of("call"))?.as_slice(),
        bytes_of("call")
    );
    Ok(())
}
