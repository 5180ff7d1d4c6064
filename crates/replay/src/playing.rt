//! Giving a session the events of a recording.
ghost use Rattle.std.specs.Prelude.{◌≡◌, ◌≤◌, ◌<◌, ◌+◌, ◌*◌, ◌^◌, ◌∷◌, ◌++◌, true, false, None, List, [], length, map, IfOk, OnErr};
ghost use Rattle.explain_log.specs.Lines.{log};
ghost use Rattle.policy_args.specs.Policy.{Policy as PolicyValue};
ghost use Rattle.policy_args.specs.Seen.{options_seen};
ghost use Rattle.policy_view.specs.Elements.{BringsBytes};
ghost use Rattle.policy_view.specs.History.{Event as SessionEvent, Bytes, Finished};
ghost use Rattle.policy_view.specs.Notes.{notes};
ghost use Rattle.proxy_core.specs.Sessions.{StandsFor, Taken, nothing, is_memory as ended_for_memory};
ghost use Rattle.proxy_core.specs.Steps.{IsLight};
ghost use Rattle.recording.specs.Seen.{recording_seen, seen, size, size_of};
ghost use Rattle.replay_output.specs.Output.{event_of, events_of, side_of, history_of, output_of_recording, log_of_recording};
ghost use Rattle.replay_output.specs.Explained.{noting_as, with_log};
ghost use Rattle.replay.specs.Waiting.{output_of};

use policy_args::{Options, Policy};
use policy_view::{End, Mode};
use proxy_core::Session;
use recording::{Event, RECORDING_LIMIT, Recording, Side};
use std::alloc::{AllocError, Global};

/// How many bytes the largest recording gives to both sides at most: nineteen for each of its own, and the proxy's own
/// calls.
pub const MOST_BYTES: u64 = 1_335_229_682;

/// A piece of a side's stream came.
pub fn feed(session: &mut Session, policy: &Policy, side: Side, piece: &[u8])
    ensures bytes { BringsBytes (Bytes (side_of side) piece.now) }
    ensures stands { (events : List SessionEvent) (taken : Taken) → StandsFor policy.now session.old events taken → StandsFor policy.now session.new (Bytes (side_of side) piece.now ∷ events) taken }
    ensures light { IsLight policy.now (length piece.now) session.old session.new }
{
    let _ = match side {
        Side::Client => session.feed_client(policy, piece),
        Side::Bus => session.feed_bus(policy, piece),
    };
}

/// A side's stream ended.
pub fn finish(session: &mut Session, side: Side)
    ensures stands { (policy : PolicyValue) (events : List SessionEvent) (taken : Taken) → StandsFor policy session.old events taken → StandsFor policy session.new (Finished (side_of side) ∷ events) taken }
    ensures light { (policy : PolicyValue) → IsLight policy 0 session.old session.new }
    ensures mode { session.new.mode ≡ session.old.mode }
{
    let _ = match side {
        Side::Client => session.client_ended(),
        Side::Bus => session.bus_ended(),
    };
}

/// Plays one event. A session that has ended takes it without an effect.
pub fn play_event(session: &mut Session, policy: &Policy, event: &Event)
    ensures bytes { BringsBytes (event_of (seen event.now)) }
    ensures stands { (events : List SessionEvent) (taken : Taken) → StandsFor policy.now session.old events taken → StandsFor policy.now session.new (event_of (seen event.now) ∷ events) taken }
    ensures light { IsLight policy.now (size_of (seen event.now)) session.old session.new }
{
    match event {
        Event::Bytes(side, bytes) => feed(session, policy, *side, bytes.as_slice()),
        Event::Finished(side) => finish(session, *side),
    }
}

/// Plays events in order on a session that has taken nothing.
fn play_events(session: &mut Session, policy: &Policy, events: &[Event])
    ensures stands { StandsFor policy.now session.old [] nothing → StandsFor policy.now session.new (events_of (map seen events.now)) nothing }
    ensures light { IsLight policy.now (size (map seen events.now)) session.old session.new }
{
    for event in events {
        play_event(session, policy, event);
    }
}

/// Lets go the bytes that wait for either side.
pub fn let_go_bytes(session: &mut Session)
    ensures view { session.new ≡ record session.old { bus_side = []; client_side = [] } }
    ensures stands { (policy : PolicyValue) (events : List SessionEvent) (taken : Taken) → StandsFor policy session.old events taken → StandsFor policy session.new events (record taken { bus_side = taken.bus_side ++ session.old.bus_side; client_side = taken.client_side ++ session.old.client_side }) }
{
    let for_bus = session.bus_waits();
    session.took_bus(for_bus as usize);
    let for_client = session.client_waits();
    session.took_client(for_client as usize);
}

/// Whether a session ended for want of memory.
pub fn is_memory(ended: Option<End>) -> bool
    ensures { result ≡ ended_for_memory ended }
{
    match ended {
        Some(End::Memory) => true,
        _ => false,
    }
}

/// Nothing more, unless the session ended for want of memory.
pub fn none_unless_memory<T>(ended: Option<End>) -> Result<Option<T>, AllocError>
    ensures ok { IfOk result (λ next. (next ≡ None) × (ended_for_memory ended ≡ false)) }
    ensures err { OnErr result (ended_for_memory ended ≡ true) }
{
    if is_memory(ended) {
        return Err(AllocError);
    }
    Ok(None)
}

/// The session of a recording, once all of its events were played; it makes notes if it is asked to, whatever the
/// options say. It is refused if memory is refused, also to the session.
pub fn play(
    alloc: Global,
    options: &Options,
    recording: &Recording,
    noting: bool,
) -> Result<Session, AllocError>
    requires size { size (recording_seen recording.now).events ≤ RECORDING_LIMIT }
    ensures output { IfOk result (λ s. output_of s ≡ output_of_recording (noting_as noting (options_seen options.now)) (recording_seen recording.now)) }
    ensures log { IfOk result (λ s. log 1 s.notes ≡ log_of_recording (noting_as noting (options_seen options.now)) (recording_seen recording.now)) }
    ensures noted { IfOk result (λ s. noting ≡ true → s.notes ≡ notes options.now.policy (history_of (with_log (options_seen options.now)) (recording_seen recording.now))) }
    ensures asked { IfOk result (λ s. 0 < length s.notes → noting ≡ true) }
    ensures few { IfOk result (λ s. length s.bus_side + length s.client_side ≤ MOST_BYTES) }
{
    let mode = Mode {
        auth: recording.auth,
        filter: options.filter,
        notes: noting,
    };
    let mut session = Session::new(alloc, &options.policy, mode)?;
    play_events(&mut session, &options.policy, &recording.events);
    if is_memory(session.ended()) {
        return Err(AllocError);
    }
    Ok(session)
}
