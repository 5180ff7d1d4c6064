//! A recording of which the visible part is given element by element, as its events are played.
ghost use Rattle.std.specs.Prelude.{◌≡◌, ◌<◌, ◌+◌, List, [], IfOk, IfNone, length};
ghost use Rattle.policy_args.specs.Policy.{Policy as PolicyValue};
ghost use Rattle.policy_view.specs.declared.visible.Visible.{Visible as Element};
ghost use Rattle.recording.specs.Recording.{Recording as RecordingValue};
ghost use Rattle.recording.specs.Seen.{recording_seen};
ghost use Rattle.replay.specs.Watching.{Gave, GaveNext, GaveWaiting, NothingWaits};

use crate::playing::{let_go_bytes, none_unless_memory, play_event};
use policy_args::Policy;
use policy_view::{End, Visible};
use proxy_core::Session;
use recording::Recording;
use std::alloc::{AllocError, Global};

/// The session of a recording, and how many of its events were played. Between two events it has nothing that waits for
/// either side, and of the visible part no more than what the last event brought.
#[derive(Drop)]
pub struct Watched {
    session: Session,
    played: usize,
}

impl Watched {
    /// Nothing was played yet.
    pub fn new(alloc: Global, policy: &Policy, recording: &Recording) -> Result<Watched, AllocError>
        ensures { IfOk result (λ watched. Gave policy.now (recording_seen recording.now) watched []) }
    {
        Ok(Watched {
            session: Session::watching(alloc, policy, recording.auth)?,
            played: 0,
        })
    }

    /// Plays the next event. No element of the visible part waits before, so none is held but what this event brings.
    fn play_next(&mut self, policy: &Policy, recording: &Recording)
        requires left { self.old.played < length recording.now.events.items }
        requires given { self.old.session.visible ≡ [] }
        ensures gave { (given : List Element) → Gave policy.now (recording_seen recording.now) self.old given → Gave policy.now (recording_seen recording.now) self.new given }
        ensures played { self.new.played ≡ self.old.played + 1 }
        ensures none { NothingWaits self.new.session }
    {
        play_event(&mut self.session, policy, &recording.events[self.played]);
        self.played += 1;
        let_go_bytes(&mut self.session);
    }

    /// The next element that waits.
    fn next_waiting(&mut self) -> Option<Visible>
        ensures gave { (policy : PolicyValue) (recording : RecordingValue) (given : List Element) → Gave policy recording self.old given → GaveWaiting policy recording self.new given result }
        ensures played { self.new.played ≡ self.old.played }
        ensures none { IfNone result (self.new.session.visible ≡ []) }
    {
        self.session.next_visible()
    }

    /// The next element of the visible part, or none if there are no more. Refused if memory is refused, also to the
    /// session.
    pub fn next_element(
        &mut self,
        policy: &Policy,
        recording: &Recording,
    ) -> Result<Option<Visible>, AllocError>
        ensures { (given : List Element) → Gave policy.now (recording_seen recording.now) self.old given → IfOk result (λ next. GaveNext policy.now (recording_seen recording.now) self.new given next) }
    {
        loop {
            if let Some(element) = self.next_waiting() {
                return Ok(Some(element));
            }
            if self.played >= recording.events.len() {
                return none_unless_memory(self.session.ended());
            }
            self.play_next(policy, recording);
        }
    }

    /// Why the session ended.
    pub fn ended(&self) -> Option<End>
        ensures { result ≡ self.now.session.ended }
    {
        self.session.ended()
    }
}
