//! What is left of lines and messages in the visible part of a session's history. A session that watches keeps it.
ghost use Rattle.std.specs.Prelude.{◌≡◌, ◌∷◌, ◌++◌, [], true, None, OnErr, OnOk, length, take};
ghost use Rattle.dbus_header.specs.Contents.{message_in};
ghost use Rattle.policy_view.specs.declared.visible.Visible.TheVariants as element;
ghost use Rattle.proxy_core.specs.Incoming.{incoming_message};
ghost use Rattle.proxy_core.specs.Messages.{elements_in, unless_ended, with_elements, with_noted_message, with_watched_message};
ghost use Rattle.proxy_core.specs.Steps.{TookMessage};

use super::Session;
use crate::elements::element;
use crate::incoming::Incoming;
use crate::watch::Watch;
use dbus_header::Message;
use policy_args::Policy;
use policy_view::{End, Side};
use std::alloc::AllocError;

impl Session {
    /// The number of elements that are kept.
    pub(super) fn kept(&self) -> usize
        ensures { result ≡ length self.now.visible }
    {
        match &self.watch {
            Some(watch) => watch.len(),
            None => 0,
        }
    }

    /// Keeps only the first `n` elements.
    pub(super) fn keep_first(&mut self, n: usize)
        ensures { self.new ≡ record self.old { visible = take n self.old.visible } }
    {
        if let Some(watch) = &mut self.watch {
            watch.truncate_unless(false, n);
        }
    }

    /// Keeps a line of a side, as received, if the session watches.
    pub(super) fn keep_line(&mut self, side: Side, line: &[u8]) -> Result<(), AllocError>
        ensures ok { OnOk result (self.new ≡ with_elements (element.Line side line.now ∷ []) self.old) }
        ensures err { OnErr result (self.new ≡ self.old) }
    {
        match &mut self.watch {
            Some(watch) => watch.push_line(self.alloc, side, line),
            None => Ok(()),
        }
    }

    /// Keeps what is left of a message of a side.
    fn keep_message(
        &self,
        policy: &Policy,
        side: Side,
        message: &Message<'_>,
        watch: &mut Watch,
    ) -> Result<(), AllocError>
        ensures ok { OnOk result (watch.new ≡ watch.old ++ elements_in policy.now side (message_in message.now.bytes.now) self.now) }
        ensures err { OnErr result (watch.new ≡ watch.old) }
    {
        match element(
            self.alloc,
            policy,
            &self.tracker,
            &self.ledger,
            side,
            message,
        )? {
            Some(element) => watch.push(element),
            None => Ok(()),
        }
    }

    /// Processes a message of a side, and keeps what is left of it. The memory for that is taken first, so that either
    /// it is kept and the message has its effects, or neither; if the session ends instead, nothing is kept.
    #[inline(never)]
    fn process_watched(
        &mut self,
        policy: &Policy,
        side: Side,
        incoming: &Incoming<'_, '_>,
        watch: &mut Watch,
    )
        requires running { self.old.ended ≡ None }
        ensures took { TookMessage (with_noted_message policy.now side (incoming_message incoming.now) self.old) self.old self.new }
        ensures kept { watch.new ≡ watch.old ++ unless_ended self.new.ended (elements_in policy.now side (incoming_message incoming.now) self.old) }
    {
        let earlier = watch.len();
        let Ok(()) = self.keep_message(policy, side, incoming.message, watch) else {
            return self.end_with(End::Memory);
        };
        self.process_unwatched(policy, side, incoming);
        watch.truncate_unless(self.ended.is_none(), earlier);
    }

    /// Puts what is kept back into the session.
    fn put_watch(&mut self, watch: Box<Watch>)
        ensures { self.new ≡ record self.old { watches = true; visible = watch.value } }
    {
        self.watch = Some(watch);
    }

    /// Processes a message of a side, makes a note of it if the session makes notes, and keeps what is left of it if
    /// the session watches. What is kept is outside the session meanwhile.
    pub(super) fn process_message(
        &mut self,
        policy: &Policy,
        side: Side,
        incoming: &Incoming<'_, '_>,
    )
        requires { self.old.ended ≡ None }
        ensures { TookMessage (with_watched_message policy.now side (incoming_message incoming.now) self.old) self.old self.new }
    {
        match self.watch.take() {
            None => self.process_unwatched(policy, side, incoming),
            Some(mut watch) => {
                self.process_watched(policy, side, incoming, &mut watch);
                self.put_watch(watch);
            }
        }
    }
}
