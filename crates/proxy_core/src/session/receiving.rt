//! What the proxy learns from a message of the bus, what the client is shown of it, and what the proxy then asks.
ghost use Rattle.std.specs.Prelude.{◌≡◌, ◌≤◌, ◌+◌, ◌==◌, ◌||◌, true, None, All, IfSome, OnOk, OnErr, length, map};
ghost use Rattle.dbus_header.specs.Message.{reply_serial as reply_serial_of, three_texts as three_texts_of};
ghost use Rattle.dbus_names.specs.Names.{is_well_known as is_well_known_name};
ghost use Rattle.dbus_header.specs.Seen.{text_seen, texts_seen};
ghost use Rattle.policy_args.specs.declared.fact.Fact.TheVariants.{Owned, SelfId, Met};
ghost use Rattle.policy_view.specs.History.{most_sent};
ghost use Rattle.policy_view.specs.Past.{fact_of, learned_at, owners_of};
ghost use Rattle.policy_view.specs.Sent.{OwnOwner, asked as names_asked};
ghost use Rattle.policy_view.specs.declared.Showing.TheVariants.{Cut, Instead as InPlace};
ghost use Rattle.policy_view.specs.Shown.{CallIn, NamesAnswer, bus_role, role_of_reply, role_of_signal, showing_at};
ghost use Rattle.proxy_core.specs.Incoming.{incoming_message};
ghost use Rattle.proxy_core.specs.Messages.{KeepsSides, known, own_names, sending, with_bus_message, with_facts, with_role, with_sent, with_shown, with_told, with_used};
ghost use Rattle.dbus_header.specs.Contents.{message_in};
ghost use Rattle.proxy_core.specs.Shapes.{ShownBy};
ghost use Rattle.proxy_core.specs.Steps.{TookMessage};
ghost use Rattle.verdicts.specs.Kept.{expected_at};

use super::Session;
use crate::facts::{is_covered, returned_id, returned_names, unique, unique_sender};
use crate::incoming::Incoming;
use crate::queue::{push_cut, push_reply, push_whole};
use bytes::BytesMut;
use dbus_header::{Instead, Message};
use dbus_values::{Order, Texts};
use own_calls::{after_names, asked};
use ping_rewrite::answer_in_place;
use policy_args::Policy;
use policy_view::{End, Showing};
use reply_ledger::Kind;
use std::alloc::AllocError;
use verdicts::{is_owner_change, show};

impl Session {
    /// Learns that a unique name is the client's own, if there is one.
    fn learn_self(&mut self, policy: &Policy, id: Option<&str>) -> Result<(), AllocError>
        ensures ok { OnOk result (self.new ≡ with_facts policy.now (fact_of SelfId (text_seen id.entry)) self.old) }
        ensures err { OnErr result (self.new ≡ self.old) }
    {
        match id {
            Some(id) => self.tracker.learn_self(policy, id),
            None => Ok(()),
        }
    }

    /// Learns that the client met a unique name, if there is one.
    fn learn_met(&mut self, policy: &Policy, id: Option<&str>) -> Result<(), AllocError>
        ensures ok { OnOk result (self.new ≡ with_facts policy.now (fact_of Met (text_seen id.entry)) self.old) }
        ensures err { OnErr result (self.new ≡ self.old) }
    {
        match id {
            Some(id) => self.tracker.learn_met(policy, id),
            None => Ok(()),
        }
    }

    /// Learns that a unique name owns or owned a name, if there is one.
    fn learn_owner(
        &mut self,
        policy: &Policy,
        name: &str,
        id: Option<&str>,
    ) -> Result<(), AllocError>
        ensures ok { OnOk result (self.new ≡ with_facts policy.now (fact_of (Owned name.now) (text_seen id.entry)) self.old) }
        ensures err { OnErr result (self.new ≡ self.old) }
    {
        match id {
            Some(id) => self.tracker.learn_owner(policy, name, id),
            None => Ok(()),
        }
    }

    /// Learns both owners of a name whose owner changed, if an entry covers it.
    fn learn_owners(
        &mut self,
        policy: &Policy,
        texts: Option<(&str, &str, &str)>,
    ) -> Result<(), AllocError>
        ensures ok { OnOk result (self.new ≡ with_facts policy.now (owners_of policy.now (texts_seen texts.entry)) self.old) }
        ensures err { OnErr result (KeepsSides self.old self.new) }
    {
        let Some((name, before, after)) = texts else {
            return Ok(());
        };
        if !is_covered(policy, name) {
            return Ok(());
        }
        self.learn_owner(policy, name, unique(Some(before)))?;
        self.learn_owner(policy, name, unique(Some(after)))
    }

    /// Learns from a signal that says that a name's owner changed.
    #[inline(never)]
    fn learn_change(&mut self, policy: &Policy, message: &Message<'_>) -> Result<(), AllocError>
        ensures ok { OnOk result (self.new ≡ with_facts policy.now (owners_of policy.now (three_texts_of (message_in message.now.bytes.now))) self.old) }
        ensures err { OnErr result (KeepsSides self.old self.new) }
    {
        self.learn_owners(policy, message.three_texts())
    }

    /// Learns from an answer: the client's own name, or the owner of a name.
    fn learn_answer(
        &mut self,
        policy: &Policy,
        message: &Message<'_>,
        answered: &Option<Kind>,
    ) -> Result<(), AllocError>
        ensures ok { OnOk result (self.new ≡ with_facts policy.now (learned_at policy.now (message_in message.now.bytes.now) (role_of_reply (message.now.kind == 2) answered.now)) self.old) }
        ensures err { OnErr result (self.new ≡ self.old) }
    {
        match answered {
            Some(Kind::Hello(_)) => self.learn_self(policy, returned_id(message)),
            Some(Kind::OwnOwner(name)) => {
                self.learn_owner(policy, name.as_str(), returned_id(message))
            }
            Some(
                Kind::Call(_)
                | Kind::Names(_)
                | Kind::Ping { .. }
                | Kind::OwnMatch
                | Kind::OwnNames,
            )
            | None => Ok(()),
        }
    }

    /// Learns from a call from the bus: the client meets its sender, and owes it a reply if it wants one.
    fn learn_call(&mut self, policy: &Policy, message: &Message<'_>) -> Result<(), AllocError>
        ensures ok { OnOk result (self.new ≡ with_told policy.now (message_in message.now.bytes.now) CallIn self.old) }
        ensures err { OnErr result (KeepsSides self.old self.new) }
    {
        self.learn_met(policy, unique_sender(message))?;
        match message.sender() {
            Some(sender) if message.expects_reply() => self.ledger.called(sender, message.serial),
            _ => Ok(()),
        }
    }

    /// Learns from a signal: one of the bus itself may name owners; otherwise the client meets the sender of a signal
    /// with a DESTINATION.
    fn learn_signal(&mut self, policy: &Policy, message: &Message<'_>) -> Result<(), AllocError>
        ensures ok { OnOk result (self.new ≡ with_told policy.now (message_in message.now.bytes.now) (role_of_signal (message_in message.now.bytes.now)) self.old) }
        ensures err { OnErr result (KeepsSides self.old self.new) }
    {
        if is_owner_change(message) {
            self.learn_change(policy, message)
        } else if message.destination().is_some() {
            self.learn_met(policy, unique_sender(message))
        } else {
            Ok(())
        }
    }

    /// Learns from a message of the bus, which answers what was expected.
    fn learn(
        &mut self,
        policy: &Policy,
        message: &Message<'_>,
        answered: &Option<Kind>,
    ) -> Result<(), AllocError>
        ensures ok { OnOk result (self.new ≡ with_told policy.now (message_in message.now.bytes.now) (bus_role answered.now (message_in message.now.bytes.now)) self.old) }
        ensures err { OnErr result (KeepsSides self.old self.new) }
    {
        if message.is_reply() {
            self.learn_answer(policy, message, answered)
        } else if message.is_method_call() {
            self.learn_call(policy, message)
        } else if message.is_signal() {
            self.learn_signal(policy, message)
        } else {
            Ok(())
        }
    }

    /// Sends the client a list of names without those that it may not see.
    #[inline(never)]
    fn show_cut(
        &mut self,
        policy: &Policy,
        message: &Message<'_>,
        serial: u32,
    ) -> Result<(), AllocError>
        requires { ShownBy message.now (Cut serial) }
        ensures ok { OnOk result (self.new ≡ with_shown policy.now (message_in message.now.bytes.now) (Cut serial) self.old) }
        ensures err { OnErr result (self.new ≡ self.old) }
    {
        push_cut(
            self.alloc,
            &mut self.to_client,
            policy,
            &self.tracker,
            message,
            serial,
        )
    }

    /// Sends the client the answer to its refused call, when the answer to the ping in its place has come.
    #[inline(never)]
    fn show_instead(
        &mut self,
        policy: &Policy,
        message: &Message<'_>,
        order: Order,
        reply: u32,
        what: Instead,
    ) -> Result<(), AllocError>
        ensures ok { OnOk result (self.new ≡ with_shown policy.now (message_in message.now.bytes.now) (InPlace order reply what) self.old) }
        ensures err { OnErr result (self.new ≡ self.old) }
    {
        // (only the contract needs the policy)
        let _policy = policy;
        self.to_client.push_slice(answer_in_place(order, reply, message.serial, what).as_slice())
    }

    /// Sends the client what it is shown of a message.
    fn show_as(
        &mut self,
        policy: &Policy,
        incoming: &Incoming<'_, '_>,
        showing: Showing,
    ) -> Result<(), AllocError>
        requires { ShownBy incoming.now.message.now showing }
        ensures ok { OnOk result (self.new ≡ with_shown policy.now (incoming_message incoming.now) showing self.old) }
        ensures err { OnErr result (self.new ≡ self.old) }
    {
        match showing {
            Showing::Whole => push_whole(&mut self.to_client, incoming),
            Showing::Reply(serial) => push_reply(&mut self.to_client, incoming, serial),
            Showing::Cut(serial) => self.show_cut(policy, incoming.message, serial),
            Showing::Instead { order, reply, what } => {
                self.show_instead(policy, incoming.message, order, reply, what)
            }
            Showing::Hide(_) => Ok(()),
        }
    }

    /// Asks for the owners of these names, one by one.
    fn send_owner_calls(&mut self, names: &[&str]) -> Result<(), AllocError>
        requires room { self.old.sent + length names.now ≤ most_sent }
        requires names { All (λ name. is_well_known_name name.now ≡ true) names.now }
        ensures ok { OnOk result (self.new ≡ with_sent (map OwnOwner (map (λ n. n.now) names.now)) self.old) }
        ensures err { OnErr result (KeepsSides self.old self.new) }
    {
        let mut calls = BytesMut::new(self.alloc);
        after_names(
            self.alloc,
            &mut calls,
            names,
            &mut self.serials,
            &mut self.ledger,
        )?;
        self.to_bus.push(calls.freeze()?)
    }

    /// Asks for the owners of the names of a list whose owners are wanted, if serials are left for all of them.
    fn ask_owners(&mut self, policy: &Policy, names: Texts<'_>)
        requires { self.old.ended ≡ None }
        ensures { TookMessage (sending (map OwnOwner (names_asked policy.now names.entry)) self.old self.old) self.old self.new }
    {
        let Ok(names) = asked(self.alloc, policy, names) else {
            return self.end_with(End::Memory);
        };
        if names.len() as u64 > u64::from(self.serials.left()) {
            return self.end_with(End::SerialsSpent);
        }
        if self.send_owner_calls(&names).is_err() {
            self.end_with(End::Memory);
        }
    }

    /// Takes what a message answers, which is no longer expected.
    fn take_answer(&mut self, message: &Message<'_>) -> Option<Kind>
        ensures reply { IfSome result (λ _. (message.now.kind == 2 || message.now.kind == 3) ≡ true) }
        ensures role { bus_role result (message_in message.now.bytes.now) ≡ bus_role (expected_at self.old.ledger.expected (reply_serial_of (message_in message.now.bytes.now))) (message_in message.now.bytes.now) }
        ensures left { self.new ≡ with_used (message_in message.now.bytes.now) self.old }
    {
        if !message.is_reply() {
            return None;
        }
        match message.reply_serial() {
            Some(serial) => self.ledger.take(serial),
            None => None,
        }
    }

    /// Processes the answer to the proxy's own ListNames: asks for the owners of its names.
    #[inline(never)]
    fn process_names(&mut self, policy: &Policy, message: &Message<'_>)
        requires { self.old.ended ≡ None }
        ensures { TookMessage (with_role policy.now (message_in message.now.bytes.now) NamesAnswer self.old) self.old self.new }
    {
        if let Some(names) = returned_names(message) {
            self.ask_owners(policy, names);
        }
    }

    /// Learns from a message of the bus, and sends the client what it is shown of it.
    fn learn_and_show(
        &mut self,
        policy: &Policy,
        incoming: &Incoming<'_, '_>,
        answered: &Option<Kind>,
        showing: Showing,
    ) -> Result<(), AllocError>
        requires { ShownBy incoming.now.message.now showing }
        ensures ok { OnOk result (self.new ≡ with_shown policy.now (incoming_message incoming.now) showing (with_told policy.now (incoming_message incoming.now) (bus_role answered.now (incoming_message incoming.now)) self.old)) }
        ensures err { OnErr result (KeepsSides self.old self.new) }
    {
        self.learn(policy, incoming.message, answered)?;
        self.show_as(policy, incoming, showing)
    }

    /// Applies what is shown of a message of the bus, given what it answers.
    fn apply_showing(
        &mut self,
        policy: &Policy,
        incoming: &Incoming<'_, '_>,
        answered: &Option<Kind>,
        showing: Showing,
    )
        requires running { self.old.ended ≡ None }
        requires shown { ShownBy incoming.now.message.now showing }
        requires role { showing ≡ showing_at policy.now (known policy.now self.old) (incoming_message incoming.now) (bus_role answered.now (incoming_message incoming.now)) }
        requires reply { IfSome answered.now (λ _. (incoming.now.message.now.kind == 2 || incoming.now.message.now.kind == 3) ≡ true) }
        ensures { TookMessage (with_role policy.now (incoming_message incoming.now) (bus_role answered.now (incoming_message incoming.now)) self.old) self.old self.new }
    {
        if is_own_names(answered) {
            return self.process_names(policy, incoming.message);
        }
        let done = self.learn_and_show(policy, incoming, answered, showing);
        self.goes_on(done);
    }

    /// Processes a message of the bus. Returns what the client is shown of it.
    #[inline(never)]
    pub(super) fn process_bus_message(
        &mut self,
        policy: &Policy,
        incoming: &Incoming<'_, '_>,
    ) -> Showing
        requires { self.old.ended ≡ None }
        ensures took { TookMessage (with_bus_message policy.now (incoming_message incoming.now) self.old) self.old self.new }
        ensures decision { result ≡ showing_at policy.now (known policy.now self.old) (incoming_message incoming.now) (bus_role (expected_at self.old.ledger.expected (reply_serial_of (incoming_message incoming.now))) (incoming_message incoming.now)) }
    {
        let answered = self.take_answer(incoming.message);
        let showing = show(policy, &self.tracker, answered.as_ref(), incoming.message);
        self.apply_showing(policy, incoming, &answered, showing);
        showing
    }
}

/// Whether this answers the proxy's own ListNames.
fn is_own_names(answered: &Option<Kind>) -> bool
    ensures { result ≡ own_names answered.now }
{
    matches!(answered, Some(Kind::OwnNames))
}
