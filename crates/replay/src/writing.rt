//! Writing what a session gives out, piece by piece as it lies in the session. If the session has a number, each record
//! has it between its kind and its length.
ghost use Rattle.std.specs.Prelude.{◌≡◌, ◌≤◌, ◌<◌, ◌^◌, ◌∷◌, ◌++◌, [], length, drop, OnOk, OnErr};
ghost use Rattle.std.specs.Int.{w64, to_le_bytes};
ghost use Rattle.link_traits.specs.Told.{added, Part};
ghost use Rattle.link_traits.specs.Views.{SinkRose};
ghost use Rattle.dbus_header.specs.Malformed.{kind_number};
ghost use Rattle.sasl_watch.specs.Lines.{line_number};
ghost use Rattle.proxy_core.specs.Sessions.{IsFront, waits_for};
ghost use Rattle.replay_output.specs.Output.{header, fault_bytes, end_bytes};
ghost use Rattle.replay.specs.SessionsOutput.{named_end, named_header, named_record, named_where_any};
ghost use Rattle.replay.specs.Waiting.{with_waiting, kind_of, named_output};

use dbus_header::MalformedKind;
use link_traits::{Sink, SinkFault, write_all};
use policy_view::{End, Fault, Side};
use proxy_core::Session;
use sasl_watch::LineKind;

/// The kind of the record that says why the session ended.
const END_KIND: u8 = 18;

/// How many bytes wait for a side.
fn waiting(session: &Session, side: Side) -> u64
    ensures { result ≡ length (waits_for side session.now) }
{
    match side {
        Side::Client => session.client_waits(),
        Side::Bus => session.bus_waits(),
    }
}

/// The next piece that waits for a side.
fn piece(session: &Session, side: Side) -> &[u8]
    ensures front { IsFront result.now (waits_for side session.now) }
    ensures all { length result.now ≡ 0 → waits_for side session.now ≡ [] }
{
    match side {
        Side::Client => session.to_client(),
        Side::Bus => session.to_bus(),
    }
}

/// The first bytes that waited for a side were taken.
fn took(session: &mut Session, side: Side, n: usize)
    requires { n ≤ length (waits_for side session.old) }
    ensures { session.new ≡ with_waiting side (drop n (waits_for side session.old)) session.old }
{
    match side {
        Side::Client => session.took_client(n),
        Side::Bus => session.took_bus(n),
    }
}

/// The kind of a side's record.
fn kind(side: Side) -> u8
    ensures { result ≡ kind_of side }
{
    match side {
        Side::Bus => 16,
        Side::Client => 17,
    }
}

/// Writes what waits for a side, piece by piece.
fn write_waiting<O: Sink>(session: &mut Session, side: Side, out: &mut O) -> Result<(), SinkFault>
    ensures ok { OnOk result ((O.view out.new).told ≡ added (waits_for side session.old) (O.view out.old).told) }
    ensures part { Part (O.view out.old).told (O.view out.new).told (waits_for side session.old) }
    ensures session { session.new ≡ with_waiting side (waits_for side session.new) session.old }
    ensures cause { OnErr result (SinkRose (O.view out.old) (O.view out.new)) }
    ensures count { (O.view out.old).faults ≤ (O.view out.new).faults }
{
    while waiting(session, side) > 0 {
        let n = {
            let next = piece(session, side);
            write_all(out, next)?;
            next.len()
        };
        took(session, side, n);
    }
    Ok(())
}

/// Writes a record's kind and length, with the session's number between them if there is one.
#[tactic(auto, unfolding(replay_output::specs::Output::header))]
fn write_header<O: Sink>(
    named: Option<u32>,
    kind: u8,
    len: u64,
    out: &mut O,
) -> Result<(), SinkFault>
    requires { len < 2 ^ 32 }
    ensures ok { OnOk result ((O.view out.new).told ≡ added (named_header named kind len) (O.view out.old).told) }
    ensures part { Part (O.view out.old).told (O.view out.new).told (named_header named kind len) }
    ensures cause { OnErr result (SinkRose (O.view out.old) (O.view out.new)) }
    ensures count { (O.view out.old).faults ≤ (O.view out.new).faults }
{
    let [a, b, c, d] = (len as u32).to_le_bytes();
    match named {
        None => write_all(out, &[kind, a, b, c, d]),
        Some(session) => {
            let [e, f, g, h] = session.to_le_bytes();
            write_all(out, &[kind, e, f, g, h, a, b, c, d])
        }
    }
}

/// Writes the record of what waits for a side.
#[tactic(auto, using(link_traits::proofs::Parts::part_first, link_traits::proofs::Parts::part_second, link_traits::proofs::Parts::then_all))]
fn write_record<O: Sink>(
    named: Option<u32>,
    session: &mut Session,
    side: Side,
    out: &mut O,
) -> Result<(), SinkFault>
    requires { length (waits_for side session.old) < 2 ^ 32 }
    ensures ok { OnOk result ((O.view out.new).told ≡ added (named_record named (kind_of side) (waits_for side session.old)) (O.view out.old).told) }
    ensures part { Part (O.view out.old).told (O.view out.new).told (named_record named (kind_of side) (waits_for side session.old)) }
    ensures session { session.new ≡ with_waiting side (waits_for side session.new) session.old }
    ensures cause { OnErr result (SinkRose (O.view out.old) (O.view out.new)) }
    ensures count { (O.view out.old).faults ≤ (O.view out.new).faults }
{
    write_header(named, kind(side), waiting(session, side), out)?;
    write_waiting(session, side, out)
}

/// Writes the record of what waits for a side, if something does.
#[tactic(auto, using(link_traits::proofs::Parts::part_none))]
fn write_side<O: Sink>(
    named: Option<u32>,
    session: &mut Session,
    side: Side,
    out: &mut O,
) -> Result<(), SinkFault>
    requires { length (waits_for side session.old) < 2 ^ 32 }
    ensures ok { OnOk result ((O.view out.new).told ≡ added (named_where_any named (kind_of side) (waits_for side session.old)) (O.view out.old).told) }
    ensures part { Part (O.view out.old).told (O.view out.new).told (named_where_any named (kind_of side) (waits_for side session.old)) }
    ensures session { session.new ≡ with_waiting side (waits_for side session.new) session.old }
    ensures cause { OnErr result (SinkRose (O.view out.old) (O.view out.new)) }
    ensures count { (O.view out.old).faults ≤ (O.view out.new).faults }
{
    if waiting(session, side) == 0 {
        return Ok(());
    }
    write_record(named, session, side, out)
}

/// The number of a kind of malformed message.
fn malformed_kind(kind: MalformedKind) -> u8
    ensures { result ≡ kind_number kind }
{
    match kind {
        MalformedKind::ByteOrder => 1,
        MalformedKind::MessageType => 2,
        MalformedKind::Version => 3,
        MalformedKind::Length => 4,
        MalformedKind::Serial => 5,
        MalformedKind::Fields => 6,
        MalformedKind::Required => 7,
        MalformedKind::Body => 8,
        MalformedKind::Descriptors => 9,
    }
}

/// Writes the record of an End that is a number alone.
#[tactic(auto, unfolding(replay_output::specs::Output::header))]
fn write_number<O: Sink>(named: Option<u32>, number: u8, out: &mut O) -> Result<(), SinkFault>
    ensures ok { OnOk result ((O.view out.new).told ≡ added (named_record named END_KIND (number ∷ [])) (O.view out.old).told) }
    ensures part { Part (O.view out.old).told (O.view out.new).told (named_record named END_KIND (number ∷ [])) }
    ensures cause { OnErr result (SinkRose (O.view out.old) (O.view out.new)) }
    ensures count { (O.view out.old).faults ≤ (O.view out.new).faults }
{
    match named {
        None => write_all(out, &[END_KIND, 1, 0, 0, 0, number]),
        Some(session) => {
            let [a, b, c, d] = session.to_le_bytes();
            write_all(out, &[END_KIND, a, b, c, d, 1, 0, 0, 0, number])
        }
    }
}

/// The number of a kind of faulty line.
fn line_kind(kind: LineKind) -> u8
    ensures { result ≡ line_number kind }
{
    match kind {
        LineKind::NoNul => 1,
        LineKind::LineTooLong => 2,
        LineKind::BadByte => 3,
        LineKind::EarlyBus => 4,
        LineKind::Agreed => 5,
    }
}

/// A fault as its record has it.
struct FaultParts {
    form: u8,
    kind: u8,
    at: u64,
}

/// The form of a fault, its kind and its place.
fn parts_of(fault: Fault) -> FaultParts
    ensures { fault_bytes fault ≡ result.form ∷ result.kind ∷ to_le_bytes w64 result.at }
{
    match fault {
        Fault::Line(line) => FaultParts {
            form: 0,
            kind: line_kind(line.kind),
            at: line.at,
        },
        Fault::Message(malformed) => FaultParts {
            form: 1,
            kind: malformed_kind(malformed.kind),
            at: u64::from(malformed.at),
        },
    }
}

/// The bytes of the record of an End by a malformed stream.
fn malformed_bytes(number: u8, fault: Fault) -> [u8; 11]
    ensures { result ≡ number ∷ fault_bytes fault }
{
    let FaultParts { form, kind, at } = parts_of(fault);
    let [a, b, c, d, e, f, g, h] = at.to_le_bytes();
    [number, form, kind, a, b, c, d, e, f, g, h]
}

/// Writes the record of an End by a malformed stream.
#[tactic(auto, using(link_traits::proofs::Parts::part_first, link_traits::proofs::Parts::part_second, link_traits::proofs::Parts::then_all))]
fn write_malformed<O: Sink>(
    named: Option<u32>,
    number: u8,
    fault: Fault,
    out: &mut O,
) -> Result<(), SinkFault>
    ensures ok { OnOk result ((O.view out.new).told ≡ added (named_record named END_KIND (number ∷ fault_bytes fault)) (O.view out.old).told) }
    ensures part { Part (O.view out.old).told (O.view out.new).told (named_record named END_KIND (number ∷ fault_bytes fault)) }
    ensures cause { OnErr result (SinkRose (O.view out.old) (O.view out.new)) }
    ensures count { (O.view out.old).faults ≤ (O.view out.new).faults }
{
    write_header(named, END_KIND, 11, out)?;
    write_all(out, &malformed_bytes(number, fault))
}

/// Writes the record of the End, if the session ended.
#[tactic(auto, using(link_traits::proofs::Parts::part_none))]
fn write_end<O: Sink>(named: Option<u32>, ended: Option<End>, out: &mut O) -> Result<(), SinkFault>
    ensures ok { OnOk result ((O.view out.new).told ≡ added (named_end named ended) (O.view out.old).told) }
    ensures part { Part (O.view out.old).told (O.view out.new).told (named_end named ended) }
    ensures cause { OnErr result (SinkRose (O.view out.old) (O.view out.new)) }
    ensures count { (O.view out.old).faults ≤ (O.view out.new).faults }
{
    match ended {
        None => Ok(()),
        Some(End::ClientMalformed(fault)) => write_malformed(named, 1, fault, out),
        Some(End::BusMalformed(fault)) => write_malformed(named, 2, fault, out),
        Some(End::ClientEnd) => write_number(named, 3, out),
        Some(End::BusEnd) => write_number(named, 4, out),
        Some(End::SerialsSpent) => write_number(named, 5, out),
        Some(End::Memory) => write_number(named, 6, out),
        Some(End::ClientRead) => write_number(named, 7, out),
        Some(End::ClientWrite) => write_number(named, 8, out),
        Some(End::BusRead) => write_number(named, 9, out),
        Some(End::BusWrite) => write_number(named, 10, out),
        Some(End::BusConnect) => write_number(named, 11, out),
        Some(End::LogFault) => write_number(named, 12, out),
    }
}

/// Writes all that waits, and the End, with the session's number in each record if there is one.
#[tactic(auto, using(link_traits::proofs::Parts::part_first, link_traits::proofs::Parts::part_second, link_traits::proofs::Parts::then_all))]
pub fn write_output<O: Sink>(
    named: Option<u32>,
    session: &mut Session,
    out: &mut O,
) -> Result<(), SinkFault>
    requires bus { length session.old.bus_side < 2 ^ 32 }
    requires client { length session.old.client_side < 2 ^ 32 }
    ensures ok { OnOk result ((O.view out.new).told ≡ added (named_output named session.old) (O.view out.old).told) }
    ensures part { Part (O.view out.old).told (O.view out.new).told (named_output named session.old) }
    ensures cause { OnErr result (SinkRose (O.view out.old) (O.view out.new)) }
    ensures count { (O.view out.old).faults ≤ (O.view out.new).faults }
{
    write_side(named, session, Side::Bus, out)?;
    write_side(named, session, Side::Client, out)?;
    write_end(named, session.ended(), out)
}
