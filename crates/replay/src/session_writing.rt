//! Writing what many sessions give out, one session after the other.
ghost use Rattle.std.specs.Prelude.{◌≡◌, ◌≤◌, ◌<◌, ◌^◌, Some, OnOk, OnErr, flat_map, length};
ghost use Rattle.std.specs.List.{AllByRecursion};
ghost use Rattle.link_traits.specs.Told.{added, Part};
ghost use Rattle.link_traits.specs.Views.{SinkRose};
ghost use Rattle.replay.specs.SessionsPlayed.{IsShort};
ghost use Rattle.replay.specs.Waiting.{named_output};

use crate::writing::write_output;
use link_traits::{Sink, SinkFault};
use proxy_core::Session;
use std::collections::BTreeMap;

/// Writes all that waits in the session of a number, and its End.
fn write_session<O: Sink>(number: u32, session: Session, out: &mut O) -> Result<(), SinkFault>
    requires bus { length session.bus_side < 2 ^ 32 }
    requires client { length session.client_side < 2 ^ 32 }
    ensures ok { OnOk result ((O.view out.new).told ≡ added (named_output (Some number) session) (O.view out.old).told) }
    ensures part { Part (O.view out.old).told (O.view out.new).told (named_output (Some number) session) }
    ensures cause { OnErr result (SinkRose (O.view out.old) (O.view out.new)) }
    ensures count { (O.view out.old).faults ≤ (O.view out.new).faults }
{
    let mut session = session;
    write_output(Some(number), &mut session, out)
}

/// Writes all that waits in each session, and its End, in the ascending order of their numbers.
pub fn write_sessions<O: Sink>(
    running: &mut BTreeMap<u32, Session>,
    out: &mut O,
) -> Result<(), SinkFault>
    requires few { AllByRecursion IsShort running.old.entries }
    ensures ok { OnOk result ((O.view out.new).told ≡ added (flat_map (λ entry. named_output (Some entry.0) entry.1) running.old.entries) (O.view out.old).told) }
    ensures part { Part (O.view out.old).told (O.view out.new).told (flat_map (λ entry. named_output (Some entry.0) entry.1) running.old.entries) }
    ensures cause { OnErr result (SinkRose (O.view out.old) (O.view out.new)) }
    ensures count { (O.view out.old).faults ≤ (O.view out.new).faults }
{
    while let Some((number, session)) = running.pop_first() {
        write_session(number, session, out)?;
    }
    Ok(())
}
