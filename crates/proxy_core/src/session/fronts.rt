//! The first message of a side's stream. The rest of the stream is moved out of the session meanwhile, so that the
//! message is read in place and once.
ghost use Rattle.std.specs.Prelude.{◌≡◌, ◌==◌, ◌≤◌, ◌+◌, [], false, true, None, Some, IfOk, IfErr, OnOk, OnErr, length, take, drop};
ghost use Rattle.dbus_framing.specs.Framing.{Takes};
ghost use Rattle.dbus_framing.specs.Knows.{IsWhole};
ghost use Rattle.dbus_header.specs.Contents.{message_in};
ghost use Rattle.dbus_header.specs.Malformed.{fault};
ghost use Rattle.dbus_header.specs.Message.{Message as MessageTree};
ghost use Rattle.dbus_header.specs.Placed.{IsPlaced};
ghost use Rattle.policy_view.specs.History.{malformed as malformed_by, longest_stream};
ghost use Rattle.policy_view.specs.declared.Fault.TheVariants.{Message as OfMessage};
ghost use Rattle.proxy_core.specs.Messages.{ended_by, with_watched_message};
ghost use Rattle.proxy_core.specs.Seen.{TookFirst, IsLent, with_came};
ghost use Rattle.proxy_core.specs.Sessions.{stream_of};
ghost use Rattle.proxy_core.specs.Steps.{with_left, with_bytes, with_pushed, drained, Took, TookMessage, IsLight};
ghost use Rattle.proxy_core.specs.Streams.{InMessages};

use super::{Session, malformed};
use crate::incoming::Incoming;
use dbus_framing::{Framer, Front, Messages};
use dbus_header::{Malformed, Places};
use policy_args::Policy;
use policy_view::{End, Fault, Side};
use std::alloc::AllocError;

/// One read of a link gives no more bytes. A longer piece may hold long messages, whose bytes can only be shared if a
/// framer holds them.
const LONGEST_IN_PLACE: usize = 65_536;

/// Shorter messages aren't shared: to copy one costs less.
const LONG: usize = 65_536;

impl Session {
    /// Moves what is left of the messages of a side's stream out of the session.
    fn lend_messages(&mut self, side: Side) -> Framer
        requires { (stream_of side self.old).phase ≡ InMessages }
        ensures left { result ≡ (stream_of side self.old).left }
        ensures rest { self.new ≡ with_left side [] self.old }
    {
        match side {
            Side::Client => self.client.lend_messages(),
            Side::Bus => self.bus.lend_messages(),
        }
    }

    /// Counts a piece of a side's messages as received, while none of their bytes are left, and gives its messages. The
    /// piece isn't copied.
    fn lend_piece<'a>(&mut self, side: Side, piece: &'a [u8]) -> Result<Messages<'a>, AllocError>
        requires messages { (stream_of side self.old).phase ≡ InMessages }
        requires none { (stream_of side self.old).left ≡ [] }
        requires room { (stream_of side self.old).came + length piece.now ≤ longest_stream }
        ensures piece { IfOk result (λ messages. messages ≡ piece.now) }
        ensures ok { OnOk result (self.new ≡ with_came side (length piece.now) self.old) }
        ensures err { OnErr result (self.new ≡ self.old) }
    {
        match side {
            Side::Client => self.client.lend_piece(piece),
            Side::Bus => self.bus.lend_piece(piece),
        }
    }

    /// Checks the first message of what was moved out of a side's stream; its head states its length.
    #[inline(always)]
    fn check_message(
        &mut self,
        side: Side,
        messages: &Messages<'_>,
        len: usize,
        places: &mut Places,
    ) -> Result<(), Malformed>
        requires { IsWhole messages.now len }
        ensures placed { OnOk result (IsPlaced (take len messages.now) places.new) }
        ensures bad { IfErr result (λ f. fault messages.now ≡ Some f) }
        ensures stays { self.new ≡ self.old }
    {
        match side {
            Side::Client => self.client.check_message(messages, len, places),
            Side::Bus => self.bus.check_message(messages, len, places),
        }
    }

    /// Puts what is left back into the session.
    fn put_messages(&mut self, side: Side, messages: Messages<'_>)
        requires { IsLent side self.old }
        ensures { self.new ≡ with_left side messages.entry self.old }
    {
        match side {
            Side::Client => self.client.put_messages(messages),
            Side::Bus => self.bus.put_messages(messages),
        }
    }

    /// Ends the session with a fault of a side's stream. Returns that no more may follow.
    fn end_malformed(&mut self, side: Side, fault: Malformed) -> bool
        ensures ended { self.new ≡ ended_by (malformed_by side (OfMessage fault)) self.old }
        ensures stops { result ≡ false }
    {
        self.end_with(malformed(side, Fault::Message(fault)));
        false
    }

    /// Processes the first message, which is long and was checked. Its bytes are shared if they can be.
    #[inline(never)]
    fn process_long(
        &mut self,
        policy: &Policy,
        side: Side,
        messages: &mut Messages<'_>,
        len: usize,
        places: &Places,
    )
        requires running { self.old.ended ≡ None }
        requires whole { IsWhole messages.old len }
        requires placed { IsPlaced (take len messages.old) places.now }
        ensures took { TookMessage (with_watched_message policy.now side (message_in (take len messages.old)) self.old) self.old self.new }
        ensures valid { (m : MessageTree) × Takes messages.old (take len messages.old) (drop len messages.old) m }
        ensures stays { messages.new ≡ messages.old }
    {
        let shared = messages.shared(len);
        let message = messages.checked(len, places);
        let incoming = Incoming::new(&message, shared.as_ref());
        self.process_message(policy, side, &incoming);
    }

    /// Processes the first message, which is short and was checked.
    #[inline(always)]
    fn process_short<'a>(
        &mut self,
        policy: &Policy,
        side: Side,
        messages: &'a Messages<'_>,
        len: usize,
        places: &'a Places,
    )
        requires running { self.old.ended ≡ None }
        requires whole { IsWhole messages.now len }
        requires placed { IsPlaced (take len messages.now) places.now }
        ensures took { TookMessage (with_watched_message policy.now side (message_in (take len messages.now)) self.old) self.old self.new }
        ensures valid { (m : MessageTree) × Takes messages.now (take len messages.now) (drop len messages.now) m }
    {
        let message = messages.checked(len, places);
        let incoming = Incoming::new(&message, None);
        self.process_message(policy, side, &incoming);
    }

    /// Processes the first message, which was checked.
    #[inline(always)]
    fn process_checked(
        &mut self,
        policy: &Policy,
        side: Side,
        messages: &mut Messages<'_>,
        len: usize,
        places: &Places,
    )
        requires running { self.old.ended ≡ None }
        requires whole { IsWhole messages.old len }
        requires placed { IsPlaced (take len messages.old) places.now }
        ensures took { TookMessage (with_watched_message policy.now side (message_in (take len messages.old)) self.old) self.old self.new }
        ensures valid { (m : MessageTree) × Takes messages.old (take len messages.old) (drop len messages.old) m }
        ensures stays { messages.new ≡ messages.old }
    {
        if len < LONG {
            self.process_short(policy, side, messages, len, places);
        } else {
            self.process_long(policy, side, messages, len, places);
        }
    }

    /// Processes the first message, whose head states its length, or ends the session if it is malformed. Returns
    /// whether more may follow.
    #[inline(always)]
    fn process_stated(
        &mut self,
        policy: &Policy,
        side: Side,
        messages: &mut Messages<'_>,
        len: usize,
        places: &mut Places,
    ) -> bool
        requires running { self.old.ended ≡ None }
        requires whole { IsWhole messages.old len }
        ensures { TookFirst policy.now side messages.old messages.new self.old self.new result }
    {
        match self.check_message(side, messages, len, places) {
            Ok(()) => {
                self.process_checked(policy, side, messages, len, places);
                messages.take(len);
                self.ended.is_none()
            }
            Err(fault) => self.end_malformed(side, fault),
        }
    }

    /// Processes the first of a side's messages, or ends the session if its head is wrong. Returns whether more
    /// messages may follow.
    fn process_first(
        &mut self,
        policy: &Policy,
        side: Side,
        messages: &mut Messages<'_>,
        places: &mut Places,
    ) -> bool
        requires { self.old.ended ≡ None }
        ensures { TookFirst policy.now side messages.old messages.new self.old self.new result }
    {
        match messages.front() {
            Front::Whole(len) => self.process_stated(policy, side, messages, len, places),
            Front::Incomplete => false,
            Front::Bad(fault) => self.end_malformed(side, fault),
        }
    }

    /// Processes messages from the start of those of a side's stream, at most `most`, until none is whole or the
    /// session has ended.
    fn process_messages(
        &mut self,
        policy: &Policy,
        side: Side,
        messages: &mut Messages<'_>,
        most: usize,
    )
        requires running { self.old.ended ≡ None }
        requires lent { IsLent side self.old }
        requires filtered { self.old.mode.filter ≡ true }
        ensures took { Took policy.now side (drained policy.now side most (with_left side messages.old self.old)) (with_left side messages.old self.old) (with_left side messages.new self.new) }
        ensures light { IsLight policy.now 0 (with_left side messages.old self.old) (with_left side messages.new self.new) }
        ensures lent { IsLent side self.new }
    {
        // The places of a message's parts, which each message overwrites.
        let mut places = Places::none();
        let mut left = most;
        while left > 0 {
            if !self.process_first(policy, side, messages, &mut places) {
                return;
            }
            left -= 1;
        }
    }

    /// Processes messages from the start of a side's stream, at most `most`, until none is whole or the session has
    /// ended.
    pub(super) fn drain_messages(&mut self, policy: &Policy, side: Side, most: usize)
        requires running { self.old.ended ≡ None }
        requires messages { (stream_of side self.old).phase ≡ InMessages }
        requires filtered { self.old.mode.filter ≡ true }
        ensures took { Took policy.now side (drained policy.now side most self.old) self.old self.new }
        ensures light { IsLight policy.now 0 self.old self.new }
    {
        let framer = self.lend_messages(side);
        let mut messages = Messages::kept(framer);
        self.process_messages(policy, side, &mut messages, most);
        self.put_messages(side, messages);
    }

    /// Whether a piece of a side's stream is processed in place: the stream is in its messages, they are filtered, and
    /// none of their bytes are left.
    pub(super) fn processes_in_place(&self, side: Side, piece: &[u8]) -> bool
        ensures messages { result ≡ true → (stream_of side self.now).phase ≡ InMessages }
        ensures none { result ≡ true → (stream_of side self.now).left ≡ [] }
        ensures filtered { result ≡ true → self.now.mode.filter ≡ true }
    {
        self.mode.filter
            && piece.len() <= LONGEST_IN_PLACE
            && !self.is_in_lines(side)
            && self.left_len(side) == 0
    }

    /// Receives a piece of a side's messages while none of their bytes are left. The messages are processed in place,
    /// and only the rest is copied.
    pub(super) fn receive_in_place(&mut self, policy: &Policy, side: Side, piece: &[u8])
        requires running { self.old.ended ≡ None }
        requires some { (length piece.now == 0) ≡ false }
        requires room { (stream_of side self.old).came + length piece.now ≤ longest_stream }
        requires messages { (stream_of side self.old).phase ≡ InMessages }
        requires none { (stream_of side self.old).left ≡ [] }
        requires filtered { self.old.mode.filter ≡ true }
        ensures took { Took policy.now side (with_bytes policy.now side piece.now self.old) (with_pushed side piece.now self.old) self.new }
        ensures light { IsLight policy.now (length piece.now) self.old self.new }
    {
        match self.lend_piece(side, piece) {
            Ok(mut messages) => {
                self.process_messages(policy, side, &mut messages, piece.len() + 2);
                self.put_messages(side, messages);
            }
            Err(_) => self.end_with(End::Memory),
        }
    }
}
