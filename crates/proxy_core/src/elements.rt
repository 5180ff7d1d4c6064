//! What is left of a message in the visible part of a session's history.
ghost use Rattle.std.specs.Prelude.{◌≡◌, ◌∷◌, ◌==◌, ◌||◌, true, [], IfOk, IfSome, IsSome, Some, codes, flat_map, map, option_to_list};
ghost use Rattle.std.specs.Option.{option_copied};
ghost use Rattle.dbus_header.specs.Message.{reply_serial as reply_serial_of, spell};
ghost use Rattle.dbus_header.specs.Seen.{text_seen};
ghost use Rattle.policy_view.specs.Elements.{given_of};
ghost use Rattle.dbus_header.specs.Contents.{message_in};
ghost use Rattle.dbus_header.specs.Read.{message_seen};
ghost use Rattle.policy_view.specs.Shown.{bus_role, cut as cut_by};
ghost use Rattle.policy_view.specs.declared.visible.Visible.TheVariants as element;
ghost use Rattle.policy_view.specs.Visible.{names_asked, position_of, visible_hidden};
ghost use Rattle.proxy_core.specs.Messages.{elements_by, own_names, own_owner};
ghost use Rattle.unique_names.specs.Taught.{kept_level};
ghost use Rattle.verdicts.specs.Kept.{expected_at};

use crate::facts::{returned_id, returned_names};
use bytes::{Bytes, BytesMut};
use dbus_header::{Message, is_spelled};
use dbus_names::Name;
use dbus_values::Texts;
use name_filters::cut;
use own_calls::asked;
use policy_args::Policy;
use policy_view::{NameList, Showing, Side, Visible};
use reply_ledger::{Kind, Ledger};
use std::alloc::{AllocError, Global};
use unique_names::Tracker;
use verdicts::show;

/// What is left of a message of a side, if anything, given what is known when it is received.
pub(crate) fn element(
    alloc: Global,
    policy: &Policy,
    tracker: &Tracker,
    ledger: &Ledger,
    side: Side,
    message: &Message<'_>,
) -> Result<Option<Visible>, AllocError>
    ensures { IfOk result (λ r. option_to_list r ≡ elements_by policy.now tracker.now ledger.now side (message_in message.now.bytes.now)) }
{
    match side {
        Side::Client => Ok(Some(Visible::Client(frame_of(alloc, message)?))),
        Side::Bus => bus_element(alloc, policy, tracker, ledger, message),
    }
}

/// A copy of the message's bytes.
fn frame_of(alloc: Global, message: &Message<'_>) -> Result<Bytes, AllocError>
    ensures { IfOk result (λ frame. frame ≡ spell (message_in message.now.bytes.now)) }
{
    is_spelled(message.bytes);
    Bytes::copy_from_slice(alloc, message.bytes)
}

/// What is left of a message of the bus.
fn bus_element(
    alloc: Global,
    policy: &Policy,
    tracker: &Tracker,
    ledger: &Ledger,
    message: &Message<'_>,
) -> Result<Option<Visible>, AllocError>
    ensures { IfOk result (λ r. option_to_list r ≡ elements_by policy.now tracker.now ledger.now Side.Bus (message_in message.now.bytes.now)) }
{
    let answer = answered(ledger, message);
    match show(policy, tracker, answer, message) {
        Showing::Whole => shown_element(alloc, message),
        Showing::Reply(_) => shown_element(alloc, message),
        Showing::Cut(_) => Ok(Some(Visible::Cut(cut_list(alloc, policy, tracker, message)?))),
        Showing::Instead { .. } => Ok(Some(Visible::Ping {
            position: position(message),
            serial: message.serial,
        })),
        Showing::Hide(_) => hidden_element(alloc, policy, answer, message),
    }
}

/// What is left of a message that the client is shown.
fn shown_element(alloc: Global, message: &Message<'_>) -> Result<Option<Visible>, AllocError>
    ensures { IfOk result (λ r. option_to_list r ≡ element.Shown (spell (message_in message.now.bytes.now)) ∷ []) }
{
    Ok(Some(Visible::Shown(frame_of(alloc, message)?)))
}

/// The place, among the messages that were sent to the bus, of the one that a message answers.
fn position(message: &Message<'_>) -> u32
    ensures { result ≡ position_of (message_in message.now.bytes.now) }
{
    message.reply_serial().unwrap_or(0)
}

/// The message with its list of names cut to those that may be seen, and with its original REPLY_SERIAL.
fn cut_list(
    alloc: Global,
    policy: &Policy,
    tracker: &Tracker,
    message: &Message<'_>,
) -> Result<Bytes, AllocError>
    requires list { message.now.signature.bytes.now ≡ codes "as" }
    requires reply { IsSome (message_seen message.now).parts.reply_serial }
    ensures { IfOk result (λ bytes. bytes ≡ spell (cut_by (kept_level policy.now tracker.now) (message_in message.now.bytes.now))) }
{
    is_spelled(message.bytes);
    let mut bytes = BytesMut::new(alloc);
    cut(&mut bytes, policy, tracker, message, position(message))?;
    Ok(bytes.freeze()?)
}

/// What is left of a message that the client isn't shown: its answer to a call of the proxy's own.
fn hidden_element(
    alloc: Global,
    policy: &Policy,
    answer: Option<&Kind>,
    message: &Message<'_>,
) -> Result<Option<Visible>, AllocError>
    requires reply { IfSome answer (λ _. (message.now.kind == 2 || message.now.kind == 3) ≡ true) }
    ensures { IfOk result (λ r. option_to_list r ≡ flat_map given_of (visible_hidden policy.now (message_in message.now.bytes.now) (bus_role (option_copied answer.entry) (message_in message.now.bytes.now)))) }
{
    if is_for_owner(answer) {
        return Ok(Some(Visible::Owner {
            position: position(message),
            owner: kept_name(alloc, returned_id(message))?,
        }));
    }
    if is_for_names(answer) {
        return Ok(Some(Visible::Asked {
            position: position(message),
            names: names_to_ask(alloc, policy, returned_names(message))?,
        }));
    }
    Ok(None)
}

/// Whether this answers a GetNameOwner of the proxy's own.
fn is_for_owner(answer: Option<&Kind>) -> bool
    ensures { result ≡ own_owner (option_copied answer.entry) }
{
    matches!(answer, Some(Kind::OwnOwner(_)))
}

/// Whether this answers the proxy's own ListNames.
fn is_for_names(answer: Option<&Kind>) -> bool
    ensures { result ≡ own_names (option_copied answer.entry) }
{
    matches!(answer, Some(Kind::OwnNames))
}

/// What a message of the bus answers, if it is a return or an error.
fn answered<'a>(ledger: &'a Ledger, message: &Message<'_>) -> Option<&'a Kind>
    ensures reply { IfSome result (λ _. (message.now.kind == 2 || message.now.kind == 3) ≡ true) }
    ensures role { bus_role (option_copied result) (message_in message.now.bytes.now) ≡ bus_role (expected_at ledger.now.expected (reply_serial_of (message_in message.now.bytes.now))) (message_in message.now.bytes.now) }
{
    if !message.is_reply() {
        return None;
    }
    match message.reply_serial() {
        Some(serial) => ledger.peek(serial),
        None => None,
    }
}

/// A copy of the name, if there is one.
fn kept_name(alloc: Global, name: Option<&str>) -> Result<Option<Name>, AllocError>
    ensures { IfOk result (λ kept. kept ≡ text_seen name.entry) }
{
    match name {
        Some(name) => Ok(Some(Name::new(String::from_str(alloc, name)?))),
        None => Ok(None),
    }
}

/// Copies of those names of a list whose owners are asked for, if there is a list.
fn names_to_ask(
    alloc: Global,
    policy: &Policy,
    names: Option<Texts<'_>>,
) -> Result<Option<NameList>, AllocError>
    ensures { IfOk result (λ kept. kept ≡ names_asked policy.now names.entry) }
{
    match names {
        Some(names) => {
            let names = asked(alloc, policy, names)?;
            Ok(Some(NameList::new(kept_names(alloc, &names)?)))
        }
        None => Ok(None),
    }
}

/// Copies of names, in their order.
fn kept_names(alloc: Global, names: &[&str]) -> Result<Vec<Name>, AllocError>
    ensures { IfOk result (λ kept. kept.items ≡ map (λ name. name.now) names.now) }
{
    let mut kept = Vec::new(alloc);
    for name in names {
        kept.push(Name::new(String::from_str(alloc, name)?))?;
    }
    Ok(kept)
}
