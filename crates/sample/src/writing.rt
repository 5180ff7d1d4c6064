//! Writing a sample as a recording (version 1, without the authentication lines).
ghost use Rattle.std.specs.Prelude.{◌≡◌, ◌≤◌, ◌<◌, ◌^◌, ◌∷◌, ◌++◌, flat_map, length, OnErr, OnOk, IsErrOf};
ghost use Rattle.link_traits.specs.Told.{added, Part};
ghost use Rattle.link_traits.specs.Views.{SinkRose};
ghost use Rattle.recording.specs.Recording.{magic, spelled_event, spelled_record, spelled_recording};
ghost use Rattle.sample.specs.Made.{made_events};
ghost use Rattle.sample.specs.Sample.{opening, sample as sample_of};
ghost use Rattle.sample.specs.Written.{Moved};

use crate::draws::{Draws, Made};
use crate::generator::MOST_DRAWS;
use crate::opening::{GREETED, HELLO, MATCHED, OWNED};
use bytes::BytesMut;
use link_traits::{Sink, SinkFault, write_all};
use std::alloc::{AllocError, Global};
use thiserror::Error;

/// Once this many bytes are made, they are written.
const PIECE_LEN: usize = 65_536;

/// The kind of a record with bytes of the client.
const CLIENT_BYTES: u8 = 0;

/// The kind of a record with bytes of the bus.
const BUS_BYTES: u8 = 1;

/// Why a sample stopped.
#[derive(Clone, Copy, Debug, PartialEq, Eq, Error)]
pub enum SampleFault {
    /// The sample, or its summary, could not be written; a prefix of it may have been.
    #[error("the sample could not be written")]
    Out,
    /// Memory was refused; in a summary, perhaps to the session.
    #[error("out of memory")]
    Memory,
}

impl From<SinkFault> for SampleFault {
    ghost use Rattle.std.specs.Prelude.{◌≡◌};
    ghost use Rattle.sample.specs.declared.writing.SampleFault.TheVariants.{Out};

    ghost from_gives = { λ _ e. e ≡ Out };

    fn from(_fault: SinkFault) -> SampleFault {
        SampleFault::Out
    }
}

impl From<AllocError> for SampleFault {
    ghost use Rattle.std.specs.Prelude.{◌≡◌};
    ghost use Rattle.sample.specs.declared.writing.SampleFault.TheVariants.{Memory};

    ghost from_gives = { λ _ e. e ≡ Memory };

    fn from(_error: AllocError) -> SampleFault {
        SampleFault::Memory
    }
}

/// Puts a record after the others, in one growth.
fn put_record(out: &mut BytesMut, kind: u8, bytes: &[u8]) -> Result<(), AllocError>
    requires { length bytes.now < 2 ^ 32 }
    ensures { OnOk result (out.new.items ≡ out.old.items ++ spelled_record kind bytes.now) }
{
    out.reserve(bytes.len() + 5)?;
    out.extend_reserved(&[kind]);
    out.extend_reserved(&(bytes.len() as u32).to_le_bytes());
    out.extend_reserved(bytes);
    Ok(())
}

/// Puts the records of the messages that a draw made.
fn put_made(out: &mut BytesMut, made: &Made) -> Result<(), AllocError>
    requires { (length made.now.client.items < 2 ^ 32) × (length made.now.bus.items < 2 ^ 32) }
    ensures { OnOk result (out.new.items ≡ out.old.items ++ flat_map spelled_event (made_events made.now)) }
{
    if made.asked {
        put_record(out, CLIENT_BYTES, made.client.as_slice())?;
    }
    put_record(out, BUS_BYTES, made.bus.as_slice())
}

/// What comes before the draws.
fn put_opening(out: &mut BytesMut) -> Result<(), AllocError>
    ensures { OnOk result (out.new.items ≡ out.old.items ++ (magic ++ 1 ∷ 0 ∷ flat_map spelled_event opening)) }
{
    out.extend_from_slice(b"DBPR\x01\0")?;
    put_record(out, CLIENT_BYTES, &HELLO)?;
    put_record(out, BUS_BYTES, &GREETED)?;
    put_record(out, BUS_BYTES, &MATCHED)?;
    put_record(out, BUS_BYTES, &OWNED)
}

/// Writes what was made so far, if that is much. Less than a piece is left.
fn write_much<S: Sink>(out: &mut BytesMut, sink: &mut S) -> Result<(), SinkFault>
    ensures ok { OnOk result (Moved (S.view sink.old).told (S.view sink.new).told out.old.items out.new.items) }
    ensures short { OnOk result (length out.new.items < PIECE_LEN) }
    ensures part { OnErr result (Part (S.view sink.old).told (S.view sink.new).told out.old.items) }
    ensures cause { OnErr result (SinkRose (S.view sink.old) (S.view sink.new)) }
    ensures count { (S.view sink.old).faults ≤ (S.view sink.new).faults }
{
    if out.len() < PIECE_LEN {
        return Ok(());
    }
    write_all(sink, out.as_slice())?;
    out.clear();
    Ok(())
}

/// Writes the sample of a number of draws after a seed as a recording (version 1). It is made piece by piece, so memory
/// doesn't grow with it.
pub fn sample<S: Sink>(alloc: Global, n: u32, seed: u64, sink: &mut S) -> Result<(), SampleFault>
    requires { n ≤ MOST_DRAWS }
    ensures ok { OnOk result ((S.view sink.new).told ≡ added (spelled_recording (sample_of n seed)) (S.view sink.old).told) }
    ensures part { Part (S.view sink.old).told (S.view sink.new).told (spelled_recording (sample_of n seed)) }
    ensures cause { IsErrOf result SampleFault.Out → SinkRose (S.view sink.old) (S.view sink.new) }
    ensures count { (S.view sink.old).faults ≤ (S.view sink.new).faults }
{
    let mut out = BytesMut::new(alloc);
    put_opening(&mut out)?;
    let mut made = Made::new(alloc);
    let mut draws = Draws::new(n, seed);
    while draws.left > 0 {
        draws.next(&mut made)?;
        put_made(&mut out, &made)?;
        write_much(&mut out, sink)?;
    }
    write_all(sink, out.as_slice())?;
    Ok(())
}
