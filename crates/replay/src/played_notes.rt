//! A recording of which the notes are given one by one, as its events are played.
ghost use Rattle.std.specs.Prelude.{◌≡◌, ◌≤◌, ◌<◌, ◌+◌, ◌-◌, ◌^◌, ◌∷◌, List, [], true, false, IfOk, length, take, drop};
ghost use Rattle.policy_args.specs.Policy.{Policy as PolicyValue};
ghost use Rattle.policy_args.specs.Words.{PolicyOptions};
ghost use Rattle.policy_args.specs.Seen.{options_seen};
ghost use Rattle.policy_view.specs.History.{Event as SessionEvent, Bytes, Finished};
ghost use Rattle.policy_view.specs.Notes.{Note as NoteValue};
ghost use Rattle.proxy_core.specs.Sessions.{StandsFor, Taken};
ghost use Rattle.recording.specs.Recording.{Recording as RecordingValue};
ghost use Rattle.recording.specs.Seen.{recording_seen};
ghost use Rattle.replay_output.specs.Output.{side_of};
ghost use Rattle.replay.specs.PlayedNotes.{GaveNextNote, GaveNotes, GaveWaitingNote, left_of, most_pieces};

use crate::playing::{feed, finish, let_go_bytes, none_unless_memory};
use policy_args::{Options, Policy};
use policy_view::{Mode, Note, an_unfiltered_session_passes_all, cuts_change_no_bytes};
use proxy_core::Session;
use recording::{Event, Recording, Side};
use std::alloc::{AllocError, Global};

/// The most bytes that are played at once. No more than their notes are held at a time.
const PIECE: usize = 65_536;

/// The notes of a recording, one by one. `next_note` plays the events as far as the next note, so that neither the
/// notes nor the bytes that wait for either side grow with the recording.
#[derive(Drop)]
pub struct PlayedNotes {
    session: Session,
    /// The number of events that were played whole.
    played: usize,
    /// The number of bytes of the next event that were played.
    begun: usize,
}

/// The place of the first event that is played, of this many events.
fn first_event(filter: bool, events: usize) -> usize
    ensures all { filter ≡ true → result ≡ 0 }
    ensures none { filter ≡ false → result ≡ events }
{
    if filter { 0 } else { events }
}

/// The first bytes, at most this many.
fn front_of(most: usize, bytes: &[u8]) -> &[u8]
    ensures { result.now ≡ take most bytes.now }
{
    if bytes.len() > most {
        &bytes[..most]
    } else {
        bytes
    }
}

/// What follows this many of the first bytes.
fn behind(bytes: &[u8], begun: usize) -> &[u8]
    ensures { result.now ≡ drop begun bytes.now }
{
    if begun < bytes.len() {
        &bytes[begun..]
    } else {
        &[]
    }
}

impl PlayedNotes {
    /// Nothing was played yet. Without the filter nothing will be, since there are no notes then.
    pub fn new(
        alloc: Global,
        options: &Options,
        recording: &Recording,
    ) -> Result<PlayedNotes, AllocError>
        ensures { IfOk result (λ played. GaveNotes (options_seen options.now) (recording_seen recording.now) played []) }
    {
        an_unfiltered_session_passes_all();
        let mode = Mode {
            auth: recording.auth,
            filter: options.filter,
            notes: true,
        };
        Ok(PlayedNotes {
            session: Session::new(alloc, &options.policy, mode)?,
            played: first_event(options.filter, recording.events.len()),
            begun: 0,
        })
    }

    /// Plays the next piece of an event's bytes.
    fn play_piece(&mut self, policy: &Policy, side: Side, bytes: &[u8])
        requires { self.old.played < 2 ^ 63 }
        ensures stands { (events : List SessionEvent) (taken : Taken) → StandsFor policy.now self.old.session events taken → StandsFor policy.now self.new.session (Bytes (side_of side) (take PIECE (drop self.old.begun bytes.now)) ∷ events) taken }
        ensures whole { length bytes.now - self.old.begun ≤ PIECE → (self.new.played ≡ self.old.played + 1) × (self.new.begun ≡ 0) }
        ensures begun { PIECE < length bytes.now - self.old.begun → (self.new.played ≡ self.old.played) × (self.new.begun ≡ self.old.begun + PIECE) }
        ensures mode { self.new.session.mode ≡ self.old.session.mode }
    {
        let piece = front_of(PIECE, behind(bytes, self.begun));
        feed(&mut self.session, policy, side, piece);
        if bytes.len().saturating_sub(self.begun) <= PIECE {
            self.played += 1;
            self.begun = 0;
        } else {
            self.begun += PIECE;
        }
    }

    /// Plays the end of a side.
    fn play_end(&mut self, side: Side)
        requires { self.old.played < 2 ^ 63 }
        ensures stands { (policy : PolicyValue) (events : List SessionEvent) (taken : Taken) → StandsFor policy self.old.session events taken → StandsFor policy self.new.session (Finished (side_of side) ∷ events) taken }
        ensures played { (self.new.played ≡ self.old.played + 1) × (self.new.begun ≡ 0) }
        ensures mode { self.new.session.mode ≡ self.old.session.mode }
    {
        finish(&mut self.session, side);
        self.played += 1;
        self.begun = 0;
    }

    /// Plays the next event, or the next piece of its bytes.
    fn play_next(&mut self, options: &Options, recording: &Recording)
        requires { self.old.played < length recording.now.events.items }
        ensures gave { (given : List NoteValue) → GaveNotes (options_seen options.now) (recording_seen recording.now) self.old given → GaveNotes (options_seen options.now) (recording_seen recording.now) self.new given }
        ensures less { most_pieces (left_of (recording_seen recording.now).events self.new) < most_pieces (left_of (recording_seen recording.now).events self.old) }
    {
        cuts_change_no_bytes();
        match &recording.events[self.played] {
            Event::Bytes(side, bytes) => {
                self.play_piece(&options.policy, *side, bytes.as_slice())
            }
            Event::Finished(side) => self.play_end(*side),
        }
    }

    /// Lets go the bytes that wait for either side.
    fn let_go(&mut self)
        ensures gave { (options : PolicyOptions) (recording : RecordingValue) (given : List NoteValue) → GaveNotes options recording self.old given → GaveNotes options recording self.new given }
        ensures played { (self.new.played ≡ self.old.played) × (self.new.begun ≡ self.old.begun) }
    {
        let_go_bytes(&mut self.session);
    }

    /// The next note that waits.
    fn next_waiting(&mut self) -> Option<Note>
        ensures gave { (options : PolicyOptions) (recording : RecordingValue) (given : List NoteValue) → GaveNotes options recording self.old given → GaveWaitingNote options recording self.new given result }
        ensures played { (self.new.played ≡ self.old.played) × (self.new.begun ≡ self.old.begun) }
    {
        self.session.next_note()
    }

    /// The next note of the recording, or none if there are no more. Refused if memory is refused, also to the session.
    pub fn next_note(
        &mut self,
        options: &Options,
        recording: &Recording,
    ) -> Result<Option<Note>, AllocError>
        ensures { (given : List NoteValue) → GaveNotes (options_seen options.now) (recording_seen recording.now) self.old given → IfOk result (λ next. GaveNextNote (options_seen options.now) (recording_seen recording.now) self.new given next) }
    {
        loop {
            if let Some(note) = self.next_waiting() {
                return Ok(Some(note));
            }
            if self.played >= recording.events.len() {
                return none_unless_memory(self.session.ended());
            }
            self.play_next(options, recording);
            self.let_go();
        }
    }
}
