//! What is sent to the bus for a message of the client: the message itself, or a ping in its place, and after the first
//! Hello the proxy's own calls.
ghost use Rattle.std.specs.Prelude.{◌≡◌, ◌≤◌, ◌+◌, ◌&&◌, ◌∷◌, [], true, false, not, None, IfOk, OnOk, OnErr, length};
ghost use Rattle.policy_view.specs.History.{most_sent};
ghost use Rattle.policy_view.specs.Past.{replied_on};
ghost use Rattle.policy_view.specs.Sent.{Passed, Pinged, is_hello as hello, own_calls as calls_of, spelled_from};
ghost use Rattle.policy_view.specs.Verdicts.{client_role, verdict as verdict_on};
ghost use Rattle.policy_view.specs.declared.Verdict.TheVariants.{Pass};
ghost use Rattle.proxy_core.specs.Incoming.{incoming_message};
ghost use Rattle.proxy_core.specs.Messages.{KeepsSides, awaiting, known, noted, queued, with_client_message, with_due, with_replied, with_sent, with_verdict};
ghost use Rattle.dbus_header.specs.Contents.{message_in};
ghost use Rattle.proxy_core.specs.Steps.{TookMessage};

use super::Session;
use crate::incoming::Incoming;
use crate::queue::{push_message, with_serial};
use crate::requests::{expected, is_hello};
use bytes::BytesMut;
use dbus_header::{Instead, Message};
use own_calls::{after_hello, count};
use ping_rewrite::ping;
use policy_args::Policy;
use policy_view::{End, Verdict};
use reply_ledger::Kind;
use std::alloc::AllocError;
use verdicts::judge;

impl Session {
    /// Expects the answer to a call that has the last serial that was given, if the client wants one.
    fn expect_answer(&mut self, message: &Message<'_>, serial: u32) -> Result<(), AllocError>
        requires { serial ≡ self.old.sent }
        ensures ok { OnOk result (self.new ≡ awaiting (Passed (message_in message.now.bytes.now)) self.old) }
        ensures err { OnErr result (self.new ≡ self.old) }
    {
        if message.is_method_call() && message.expects_reply() {
            return self.ledger.expect(serial, expected(message));
        }
        Ok(())
    }

    /// Sends the message to the bus with the last serial that was given.
    fn pass(&mut self, incoming: &Incoming<'_, '_>, serial: u32) -> Result<(), AllocError>
        requires { serial ≡ self.old.sent }
        ensures ok { OnOk result (self.new ≡ queued (Passed (incoming_message incoming.now)) self.old) }
        ensures err { OnErr result (KeepsSides self.old self.new) }
    {
        self.expect_answer(incoming.message, serial)?;
        push_message(&mut self.to_bus, incoming, serial)
    }

    /// Sends a ping to the bus in the call's place, with the last serial that was given. The client gets its answer
    /// when the ping's answer is received.
    fn ping(&mut self, message: &Message<'_>, what: Instead, serial: u32) -> Result<(), AllocError>
        requires { serial ≡ self.old.sent }
        ensures ok { OnOk result (self.new ≡ queued (Pinged (message_in message.now.bytes.now) what) self.old) }
        ensures err { OnErr result (KeepsSides self.old self.new) }
    {
        let expected = Kind::Ping {
            serial: message.serial,
            order: message.order,
            what,
        };
        self.ledger.expect(serial, expected)?;
        self.to_bus.push_slice(&ping(serial))
    }

    /// Counts a reply to a call from the bus as no longer owed.
    fn reply(&mut self, message: &Message<'_>)
        ensures { self.new ≡ with_replied (replied_on (message_in message.now.bytes.now) (client_role (message_in message.now.bytes.now)) Pass) self.old }
    {
        if !message.is_reply() {
            return;
        }
        if let Some(destination) = message.destination() {
            self.ledger
                .answer(destination, message.reply_serial().unwrap_or(0));
        }
    }

    /// Sends a message that passes, if a serial is left. It isn't the first Hello.
    fn send(&mut self, incoming: &Incoming<'_, '_>)
        requires running { self.old.ended ≡ None }
        requires alone { (hello (incoming_message incoming.now) && not self.old.greeted) ≡ false }
        ensures { TookMessage (with_due (Passed (incoming_message incoming.now) ∷ []) (replied_on (incoming_message incoming.now) (client_role (incoming_message incoming.now)) Pass) self.old) self.old self.new }
    {
        let Ok(serial) = self.serials.next() else {
            return self.end_with(End::SerialsSpent);
        };
        if self.pass(incoming, serial).is_err() {
            return self.end_with(End::Memory);
        }
        self.reply(incoming.message);
    }

    /// Sends a ping in a call's place, if a serial is left.
    fn send_ping(&mut self, message: &Message<'_>, what: Instead)
        requires { self.old.ended ≡ None }
        ensures { TookMessage (with_due (Pinged (message_in message.now.bytes.now) what ∷ []) [] self.old) self.old self.new }
    {
        let Ok(serial) = self.serials.next() else {
            return self.end_with(End::SerialsSpent);
        };
        if self.ping(message, what, serial).is_err() {
            self.end_with(End::Memory);
        }
    }

    /// The Hello and the proxy's own calls as one block of bytes, with the next serials.
    fn greeting(&mut self, policy: &Policy, message: &Message<'_>) -> Result<BytesMut, AllocError>
        requires { self.old.sent + length (Passed (message_in message.now.bytes.now) ∷ calls_of policy.now) ≤ most_sent }
        ensures bytes { IfOk result (λ calls. calls.items ≡ spelled_from (self.old.sent + 1) (Passed (message_in message.now.bytes.now) ∷ calls_of policy.now)) }
        ensures ok { OnOk result (self.new ≡ noted (Passed (message_in message.now.bytes.now) ∷ calls_of policy.now) self.old) }
        ensures err { OnErr result (KeepsSides self.old self.new) }
    {
        let Ok(serial) = self.serials.next() else {
            unreachable!()
        };
        self.expect_answer(message, serial)?;
        let mut calls = with_serial(self.alloc, message, serial)?;
        after_hello(
            self.alloc,
            &mut calls,
            policy,
            &mut self.serials,
            &mut self.ledger,
        )?;
        Ok(calls)
    }

    /// Sends the first Hello to the bus, followed by the proxy's own calls.
    fn send_greeting(&mut self, policy: &Policy, message: &Message<'_>) -> Result<(), AllocError>
        requires room { self.old.sent + length (Passed (message_in message.now.bytes.now) ∷ calls_of policy.now) ≤ most_sent }
        requires hello { hello (message_in message.now.bytes.now) ≡ true }
        ensures ok { OnOk result (self.new ≡ with_sent (Passed (message_in message.now.bytes.now) ∷ calls_of policy.now) self.old) }
        ensures err { OnErr result (KeepsSides self.old self.new) }
    {
        let calls = self.greeting(policy, message)?;
        self.to_bus.push(calls.freeze()?)?;
        self.greeted = true;
        Ok(())
    }

    /// Sends the first Hello and the proxy's own calls, if serials are left for all of them.
    fn greet(&mut self, policy: &Policy, message: &Message<'_>)
        requires running { self.old.ended ≡ None }
        requires hello { hello (message_in message.now.bytes.now) ≡ true }
        ensures { TookMessage (with_due (Passed (message_in message.now.bytes.now) ∷ calls_of policy.now) [] self.old) self.old self.new }
    {
        if self.serials.left() <= count(policy) {
            return self.end_with(End::SerialsSpent);
        }
        if self.send_greeting(policy, message).is_err() {
            self.end_with(End::Memory);
        }
    }

    /// Sends a message that passes. The first Hello is followed by the proxy's own calls.
    fn pass_on(&mut self, policy: &Policy, incoming: &Incoming<'_, '_>)
        requires { self.old.ended ≡ None }
        ensures { TookMessage (with_verdict policy.now (incoming_message incoming.now) Pass self.old) self.old self.new }
    {
        if !self.greeted && is_hello(incoming.message) {
            self.greet(policy, incoming.message);
        } else {
            self.send(incoming);
        }
    }

    /// Applies the verdict on a message of the client: it passes, a ping is sent in its place, or it is dropped.
    fn apply_verdict(&mut self, policy: &Policy, incoming: &Incoming<'_, '_>, verdict: Verdict)
        requires { self.old.ended ≡ None }
        ensures { TookMessage (with_verdict policy.now (incoming_message incoming.now) verdict self.old) self.old self.new }
    {
        match verdict {
            Verdict::Pass => self.pass_on(policy, incoming),
            Verdict::Ping(what, _) => self.send_ping(incoming.message, what),
            Verdict::Drop(_) => {}
        }
    }

    /// Judges a message of the client, and applies and returns the verdict.
    #[inline(never)]
    pub(super) fn process_client_message(
        &mut self,
        policy: &Policy,
        incoming: &Incoming<'_, '_>,
    ) -> Verdict
        requires { self.old.ended ≡ None }
        ensures took { TookMessage (with_client_message policy.now (incoming_message incoming.now) self.old) self.old self.new }
        ensures decision { result ≡ verdict_on policy.now (known policy.now self.old) (incoming_message incoming.now) }
    {
        let verdict = judge(policy, &self.tracker, &self.ledger, incoming.message);
        self.apply_verdict(policy, incoming, verdict);
        verdict
    }
}
