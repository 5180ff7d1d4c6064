//! Giving each session of a recording its own events, in one pass over all of them.
ghost use Rattle.std.specs.Prelude.{◌≡◌, ◌≤◌, ◌<◌, ◌+◌, ◌++◌, ◌∷◌, [], ℕ, List, OnOk, IfOk, IsSome, Some, true, flat_map, length, map};
ghost use Rattle.std.specs.BTreeMap.{get};
ghost use Rattle.std.specs.List.{AllByRecursion};
ghost use Rattle.std.specs.Ordering.{nat_cmp};
ghost use Rattle.explain_log.specs.Lines.{log};
ghost use Rattle.policy_args.specs.Policy.{Policy as PolicyValue};
ghost use Rattle.policy_args.specs.Seen.{options_seen};
ghost use Rattle.policy_view.specs.History.{Event as SessionEventValue};
ghost use Rattle.policy_view.specs.declared.Mode.{Mode as ModeValue};
ghost use Rattle.proxy_core.specs.Sessions.{StandsFor, Taken, is_from_outside, nothing};
ghost use Rattle.proxy_core.specs.Steps.{IsLight};
ghost use Rattle.recording.specs.Sessions.{SessionEvent as Recorded, Stopped, with_session};
ghost use Rattle.recording.specs.SessionsSeen.{IsReadable, session_event_seen, sessions_seen, sessions_size, what_seen, what_size};
ghost use Rattle.replay.specs.SessionsOutput.{end_by, event_by, in_session, log_of_sessions, noted_in, output_of_sessions, session_log, session_events};
ghost use Rattle.replay.specs.SessionsPlayed.{AllPlay, IsShort, PlayedSoFar, Plays, PlaysOn};
ghost use Rattle.replay.specs.Waiting.{named_output, output_of};

use crate::playing::{MOST_BYTES, is_memory, play_event};
use crate::session_notes::{SessionNote, take_notes};
use policy_args::{Options, Policy};
use policy_view::{End, Mode};
use proxy_core::Session;
use recording::{SessionEvent, Sessions, What};
use std::alloc::{AllocError, Global};
use std::collections::BTreeMap;

/// The sessions of a recording while its events are played.
#[derive(Drop)]
pub struct Players {
    /// The sessions of which an event was played, by their numbers.
    pub running: BTreeMap<u32, Session>,
    /// The notes of all sessions, in the order of the events that brought them.
    pub notes: Vec<SessionNote>,
}

/// The End that a failed call gave, by its number from 7 to 11.
fn end_of_stop(number: u8) -> End
    ensures end { result ≡ end_by number }
    ensures outside { is_from_outside result ≡ true }
{
    match number {
        7 => End::ClientRead,
        8 => End::ClientWrite,
        9 => End::BusRead,
        10 => End::BusWrite,
        _ => End::BusConnect,
    }
}

/// A failed call of a link ends the session, unless it has ended.
fn stop(session: &mut Session, number: u8)
    ensures stands { (policy : PolicyValue) (events : List SessionEventValue) (taken : Taken) → StandsFor policy session.old events taken → StandsFor policy session.new (event_by (Stopped number) ∷ events) taken }
    ensures light { (policy : PolicyValue) → IsLight policy 1 session.old session.new }
{
    let _ = session.stop(end_of_stop(number));
}

/// Plays what happened in a session. A session that has ended takes it without an effect.
fn play_what(session: &mut Session, policy: &Policy, what: &What)
    ensures stands { (events : List SessionEventValue) (taken : Taken) → StandsFor policy.now session.old events taken → StandsFor policy.now session.new (event_by (what_seen what.now) ∷ events) taken }
    ensures light { IsLight policy.now (what_size (what_seen what.now)) session.old session.new }
{
    match what {
        What::Event(event) => play_event(session, policy, event),
        What::Stopped(number) => stop(session, *number),
    }
}

/// Plays an event of a session, and puts the notes that it brings after the others. Refused if memory is refused.
fn play_own(
    session: &mut Session,
    policy: &Policy,
    event: &SessionEvent,
    notes: &mut Vec<SessionNote>,
) -> Result<(), AllocError>
    ensures { (mode : ModeValue) (events : List Recorded) → Plays policy.now mode events event.now.session session.old → OnOk result (PlaysOn policy.now mode events (session_event_seen event.now) session.new notes.old.items notes.new.items) }
{
    play_what(session, policy, &event.what);
    if is_memory(session.ended()) {
        return Err(AllocError);
    }
    take_notes(session, event.session, notes)
}

/// Makes the session of a number, unless it is there.
fn start_if_new(
    alloc: Global,
    policy: &Policy,
    mode: Mode,
    number: u32,
    running: &mut BTreeMap<u32, Session>,
) -> Result<(), AllocError>
    ensures there { OnOk result (IsSome (get nat_cmp running.new number)) }
    ensures all { (events : List Recorded) (named : List ℕ) → AllPlay policy.now mode events named running.old → OnOk result (AllPlay policy.now mode events (with_session named number) running.new) }
{
    if running.contains_key(&number) {
        return Ok(());
    }
    let session = Session::new(alloc, policy, mode)?;
    running.insert(number, session)?;
    Ok(())
}

/// Plays an event on its session. The session is made if this is its first event.
fn play_next(
    alloc: Global,
    policy: &Policy,
    mode: Mode,
    event: &SessionEvent,
    players: &mut Players,
) -> Result<(), AllocError>
    ensures { (events : List Recorded) → PlayedSoFar policy.now mode events players.old → OnOk result (PlayedSoFar policy.now mode (events ++ session_event_seen event.now ∷ []) players.new) }
{
    start_if_new(alloc, policy, mode, event.session, &mut players.running)?;
    match players.running.get_mut(&event.session) {
        Some(session) => play_own(session, policy, event, &mut players.notes),
        None => unreachable!(),
    }
}

/// Plays events of many sessions in order.
fn play_all(
    alloc: Global,
    policy: &Policy,
    mode: Mode,
    events: &[SessionEvent],
) -> Result<Players, AllocError>
    ensures { IfOk result (λ players. PlayedSoFar policy.now mode (map session_event_seen events.now) players) }
{
    let mut players = Players {
        running: BTreeMap::new(alloc),
        notes: Vec::new(alloc),
    };
    for event in events {
        play_next(alloc, policy, mode, event, &mut players)?;
    }
    Ok(players)
}

/// The sessions of a recording of version 2 after all of its events were played, each session by its own. Refused if
/// memory is refused, also to a session.
pub fn play_sessions(
    alloc: Global,
    options: &Options,
    sessions: &Sessions,
) -> Result<Players, AllocError>
    requires version { sessions.now.version ≡ 1 → ⊥ }
    requires readable { IsReadable (sessions_seen sessions.now) }
    ensures output { IfOk result (λ p. flat_map (λ entry. named_output (Some entry.0) entry.1) p.running.entries ≡ output_of_sessions (options_seen options.now) (sessions_seen sessions.now)) }
    ensures noted { IfOk result (λ p. p.notes.items ≡ noted_in (options_seen options.now) (sessions_seen sessions.now)) }
    ensures log { IfOk result (λ p. session_log p.notes.items ≡ log_of_sessions (options_seen options.now) (sessions_seen sessions.now)) }
    ensures asked { IfOk result (λ p. 0 < length p.notes.items → options.now.log ≡ true) }
    ensures few { IfOk result (λ p. AllByRecursion IsShort p.running.entries) }
{
    let mode = Mode {
        auth: sessions.auth,
        filter: options.filter,
        notes: options.log,
    };
    play_all(alloc, &options.policy, mode, &sessions.events)
}

/// Plays events that are all of one session, in order.
fn play_each(session: &mut Session, policy: &Policy, events: &[SessionEvent])
    ensures stands { StandsFor policy.now session.old [] nothing → StandsFor policy.now session.new (session_events (map session_event_seen events.now)) nothing }
    ensures light { IsLight policy.now (sessions_size (map session_event_seen events.now)) session.old session.new }
{
    for event in events {
        play_what(session, policy, &event.what);
    }
}

/// The session of a recording of version 1 after all of its events were played. Refused if memory is refused, also to
/// the session.
pub fn play_only(
    alloc: Global,
    options: &Options,
    sessions: &Sessions,
) -> Result<Session, AllocError>
    requires version { sessions.now.version ≡ 1 }
    requires readable { IsReadable (sessions_seen sessions.now) }
    ensures output { IfOk result (λ s. output_of s ≡ output_of_sessions (options_seen options.now) (sessions_seen sessions.now)) }
    ensures noted { IfOk result (λ s. map (in_session 1) s.notes ≡ noted_in (options_seen options.now) (sessions_seen sessions.now)) }
    ensures log { IfOk result (λ s. log 1 s.notes ≡ log_of_sessions (options_seen options.now) (sessions_seen sessions.now)) }
    ensures asked { IfOk result (λ s. 0 < length s.notes → options.now.log ≡ true) }
    ensures few { IfOk result (λ s. length s.bus_side + length s.client_side ≤ MOST_BYTES) }
{
    let mode = Mode {
        auth: sessions.auth,
        filter: options.filter,
        notes: options.log,
    };
    let mut session = Session::new(alloc, &options.policy, mode)?;
    play_each(&mut session, &options.policy, &sessions.events);
    if is_memory(session.ended()) {
        return Err(AllocError);
    }
    Ok(session)
}
