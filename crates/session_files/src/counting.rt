//! Counting what the sessions of a recording have, in one pass over its events.
ghost use Rattle.std.specs.Prelude.{◌≡◌, ◌≤◌, ◌<◌, ◌+◌, ◌++◌, ◌∷◌, [], ℕ, List, OnOk, OnErr, IfOk, IsSome, Some, None, length, map};
ghost use Rattle.std.specs.BTreeMap.{get};
ghost use Rattle.std.specs.Ordering.{nat_cmp};
ghost use Rattle.recording.specs.Sessions.{SessionEvent as EventValue, What as WhatValue, with_session};
ghost use Rattle.recording.specs.SessionsSeen.{IsReadable, session_event_seen, sessions_seen, what_seen};
ghost use Rattle.session_files.specs.Counting.{AllCounted, AreCountable, Counted, IsCountable, only_session};
ghost use Rattle.session_files.specs.Listing.{bus_len, client_len, end_number, sessions_in};

use crate::{ONLY_SESSION, VERSION};
use recording::{Event, SessionEvent, Sessions, Side, What};
use std::alloc::{AllocError, Global};
use std::collections::BTreeMap;

/// What is counted of a session.
#[derive(Clone, Copy)]
pub struct Counts {
    /// The bytes of the client.
    pub client: u64,
    /// The bytes of the bus.
    pub bus: u64,
    /// The records.
    pub events: u64,
    /// The number of the End that the first record which brings one brings: 3 for the client's end, 4 for the bus's,
    /// and for a failed call the number in its record.
    pub end: Option<u8>,
}

/// How many bytes came from the client by what happened.
fn from_client(what: &What) -> u64
    ensures { result ≡ client_len (what_seen what.now) }
{
    match what {
        What::Event(Event::Bytes(Side::Client, bytes)) => bytes.len() as u64,
        What::Event(Event::Bytes(Side::Bus, _) | Event::Finished(_)) | What::Stopped(_) => 0,
    }
}

/// How many bytes came from the bus by what happened.
fn from_bus(what: &What) -> u64
    ensures { result ≡ bus_len (what_seen what.now) }
{
    match what {
        What::Event(Event::Bytes(Side::Bus, bytes)) => bytes.len() as u64,
        What::Event(Event::Bytes(Side::Client, _) | Event::Finished(_)) | What::Stopped(_) => 0,
    }
}

/// The number of the End that a session has by what happened, if it has one.
fn end_of(what: &What) -> Option<u8>
    ensures { result ≡ end_number (what_seen what.now) }
{
    match what {
        What::Event(Event::Bytes(_, _)) => None,
        What::Event(Event::Finished(Side::Client)) => Some(3),
        What::Event(Event::Finished(Side::Bus)) => Some(4),
        What::Stopped(number) => Some(*number),
    }
}

impl Counts {
    /// The counts of a session in which nothing happened.
    fn new() -> Counts
        ensures { Counted [] result }
    {
        Counts {
            client: 0,
            bus: 0,
            events: 0,
            end: None,
        }
    }

    /// Counts what happened next in the session. No count of a recording comes near the greatest number.
    fn add(&mut self, what: &What)
        ensures { (whats : List WhatValue) → Counted whats self.old → IsCountable (whats ++ what_seen what.now ∷ []) → Counted (whats ++ what_seen what.now ∷ []) self.new }
    {
        self.client = self.client.saturating_add(from_client(what));
        self.bus = self.bus.saturating_add(from_bus(what));
        self.events = self.events.saturating_add(1);
        self.end = self.end.or(end_of(what));
    }
}

/// Makes the counts of a session, unless they are there.
fn start_if_new(counts: &mut BTreeMap<u32, Counts>, session: u32) -> Result<(), AllocError>
    ensures there { OnOk result (IsSome (get nat_cmp counts.new session)) }
    ensures all { (events : List EventValue) (sessions : List ℕ) → AllCounted events sessions counts.old → OnOk result (AllCounted events (with_session sessions session) counts.new) }
{
    if counts.contains_key(&session) {
        return Ok(());
    }
    counts.insert(session, Counts::new())?;
    Ok(())
}

/// Counts an event for its session.
fn count_event(counts: &mut BTreeMap<u32, Counts>, event: &SessionEvent) -> Result<(), AllocError>
    ensures { (events : List EventValue) (sessions : List ℕ) → AllCounted events sessions counts.old → AreCountable (events ++ session_event_seen event.now ∷ []) → OnOk result (AllCounted (events ++ session_event_seen event.now ∷ []) (with_session sessions event.now.session) counts.new) }
{
    start_if_new(counts, event.session)?;
    match counts.get_mut(&event.session) {
        Some(session) => {
            session.add(&event.what);
            Ok(())
        }
        None => unreachable!(),
    }
}

/// The counts before any event. A recording of version 1 has session 1, also if nothing happened in it.
fn first_counts(alloc: Global, version: u8) -> Result<BTreeMap<u32, Counts>, AllocError>
    ensures { IfOk result (λ counts. AllCounted [] (only_session version) counts) }
{
    let mut counts = BTreeMap::new(alloc);
    if version != VERSION {
        return Ok(counts);
    }
    start_if_new(&mut counts, ONLY_SESSION)?;
    Ok(counts)
}

/// The counts of each session of a recording, by its number.
pub fn counts_of(alloc: Global, sessions: &Sessions) -> Result<BTreeMap<u32, Counts>, AllocError>
    requires { IsReadable (sessions_seen sessions.now) }
    ensures { IfOk result (λ counts. AllCounted (sessions_seen sessions.now).events (sessions_in (sessions_seen sessions.now)) counts) }
{
    let mut counts = first_counts(alloc, sessions.version)?;
    for event in &sessions.events {
        count_event(&mut counts, event)?;
    }
    Ok(counts)
}
