//! A message and the note on it. The note's memory is taken first, so that either both the note and the message's
//! effects happen, or neither.
ghost use Rattle.std.specs.Prelude.{◌≡◌, ◌<◌, ◌∷◌, ◌++◌, [], true, None, IfOk, OnOk, OnErr};
ghost use Rattle.std.specs.VecDeque.{deque_capacity, deque_len};
ghost use Rattle.proxy_core.specs.Incoming.{incoming_message};
ghost use Rattle.proxy_core.specs.Messages.{decision_in, with_message, with_noted_message};
ghost use Rattle.proxy_core.specs.Steps.{TookMessage};

use super::Session;
use crate::incoming::Incoming;
use dbus_header::is_spelled;
use policy_args::Policy;
use policy_view::{Decision, End, Note, Side};
use std::alloc::AllocError;
use std::collections::VecDeque;
use std::mem;

impl Session {
    /// Processes a message of a side. Returns what was decided on it.
    #[inline(always)]
    fn process_of_side(
        &mut self,
        policy: &Policy,
        side: Side,
        incoming: &Incoming<'_, '_>,
    ) -> Decision
        requires running { self.old.ended ≡ None }
        ensures took { TookMessage (with_message policy.now side (incoming_message incoming.now) self.old) self.old self.new }
        ensures decision { result ≡ decision_in policy.now side (incoming_message incoming.now) self.old }
    {
        match side {
            Side::Client => Decision::Judged(self.process_client_message(policy, incoming)),
            Side::Bus => Decision::Shown(self.process_bus_message(policy, incoming)),
        }
    }

    /// Takes the notes out of the session, with room for one more. They and the room stay outside while a message is
    /// processed.
    fn reserved_notes(&mut self) -> Result<VecDeque<Note>, AllocError>
        ensures notes { IfOk result (λ queue. queue.items ≡ self.old.notes) }
        ensures room { IfOk result (λ queue. deque_len queue < deque_capacity queue) }
        ensures ok { OnOk result (self.new ≡ record self.old { notes = [] }) }
        ensures err { OnErr result (self.new ≡ self.old) }
    {
        self.notes.reserve(1)?;
        Ok(mem::replace(&mut self.notes, VecDeque::new(self.alloc)))
    }

    /// Puts the notes back, with one more in the room that was reserved for it.
    fn put_note(&mut self, mut queue: VecDeque<Note>, note: Note)
        requires { deque_len queue < deque_capacity queue }
        ensures { self.new ≡ record self.old { notes = queue.items ++ note ∷ []; numbered = note.number } }
    {
        self.numbered = note.number();
        queue.push_back_reserved(note);
        self.notes = queue;
    }

    /// Processes a message of a side and makes a note of it. If the session ends instead, there is no note.
    #[inline(never)]
    fn process_noted(&mut self, policy: &Policy, side: Side, incoming: &Incoming<'_, '_>)
        requires running { self.old.ended ≡ None }
        requires notes { self.old.mode.notes ≡ true }
        ensures { TookMessage (with_noted_message policy.now side (incoming_message incoming.now) self.old) self.old self.new }
    {
        is_spelled(incoming.message.bytes);
        let Some(number) = self.numbered.checked_add(1) else {
            return self.end_with(End::Memory);
        };
        let Ok(frame) = incoming.frame(self.alloc) else {
            return self.end_with(End::Memory);
        };
        let Ok(queue) = self.reserved_notes() else {
            return self.end_with(End::Memory);
        };
        let decision = self.process_of_side(policy, side, incoming);
        if self.ended.is_some() {
            self.notes = queue;
            return;
        }
        self.put_note(queue, Note::new(number, side, frame, decision));
    }

    /// Processes a message of a side, and makes a note of it if the session makes notes.
    #[inline(always)]
    pub(super) fn process_unwatched(
        &mut self,
        policy: &Policy,
        side: Side,
        incoming: &Incoming<'_, '_>,
    )
        requires running { self.old.ended ≡ None }
        ensures { TookMessage (with_noted_message policy.now side (incoming_message incoming.now) self.old) self.old self.new }
    {
        if self.mode.notes {
            return self.process_noted(policy, side, incoming);
        }
        let _decision = self.process_of_side(policy, side, incoming);
    }
}
