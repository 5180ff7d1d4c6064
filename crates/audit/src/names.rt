//! The names that a passed or shown message names.
ghost use Rattle.std.specs.Prelude.{◌≡◌, ◌==◌, ◌&&◌, ◌++◌, List, OnOk, codes};
ghost use Rattle.dbus_names.specs.Names.{bus_name};
ghost use Rattle.dbus_names.specs.Texts.{Text};
ghost use Rattle.dbus_header.specs.Read.{message_seen};
ghost use Rattle.dbus_header.specs.Seen.{text_seen};
ghost use Rattle.dbus_header.specs.Contents.{message_in};
ghost use Rattle.policy_view.specs.Sent.{is_bus_or_absent as is_name_of_bus_or_absent};
ghost use Rattle.policy_view.specs.Texts.{has_text};
ghost use Rattle.audit.specs.Audit.{listed, named_by_bus, named_by_client, where_well_known};
ghost use Rattle.audit.specs.Tallies.{Marked};

use crate::marks::Marks;
use dbus_header::Message;
use dbus_names::{BUS_NAME, is_bus, is_well_known};
use policy_args::Policy;
use std::alloc::{AllocError, Global};

/// Whether a name is absent or the bus's own.
fn is_bus_or_absent(name: Option<&str>) -> bool
    ensures { result ≡ is_name_of_bus_or_absent (text_seen name.entry) }
{
    match name {
        None => true,
        Some(name) => is_bus(name),
    }
}

/// Whether a message is a call to the bus, by its own interface or by none.
fn is_bus_call(message: &Message<'_>) -> bool
    ensures { result ≡ (message.now.kind == 1 && is_name_of_bus_or_absent (message_seen message.now).parts.destination && is_name_of_bus_or_absent (message_seen message.now).parts.interface) }
{
    message.is_method_call()
        && is_bus_or_absent(message.destination())
        && is_bus_or_absent(message.interface())
}

/// Whether there is a text, and it is this one.
fn is_text(text: Option<&str>, wanted: &str) -> bool
    ensures { result ≡ has_text (text_seen text.entry) wanted.now }
{
    match text {
        None => false,
        Some(text) => text == wanted,
    }
}

/// Whether a message is the signal NameOwnerChanged of the bus.
fn is_owner_change(message: &Message<'_>) -> bool
    ensures { result ≡ (message.now.kind == 4 && (has_text (message_seen message.now).parts.sender bus_name && has_text (message_seen message.now).parts.interface bus_name && has_text (message_seen message.now).parts.member (codes "NameOwnerChanged"))) }
{
    message.is_signal()
        && is_text(message.sender(), BUS_NAME)
        && is_text(message.interface(), BUS_NAME)
        && is_text(message.member(), "NameOwnerChanged")
}

/// Marks the entries that cover a text, if there is one.
fn mark_text(
    alloc: Global,
    policy: &Policy,
    text: Option<&str>,
    marks: &mut Marks,
) -> Result<(), AllocError>
    ensures { (names : List Text) → Marked policy.now.entries names marks.old → OnOk result (Marked policy.now.entries (names ++ listed (text_seen text.entry)) marks.new) }
{
    match text {
        None => Ok(()),
        Some(text) => marks.mark(alloc, policy, text),
    }
}

/// Marks the entries that cover the destination of a message, if that is a well-known name.
fn mark_destination(
    alloc: Global,
    policy: &Policy,
    destination: Option<&str>,
    marks: &mut Marks,
) -> Result<(), AllocError>
    ensures { (names : List Text) → Marked policy.now.entries names marks.old → OnOk result (Marked policy.now.entries (names ++ where_well_known (text_seen destination.entry)) marks.new) }
{
    match destination {
        Some(name) if is_well_known(name.as_bytes()) => marks.mark(alloc, policy, name),
        _ => Ok(()),
    }
}

/// Marks the entries that cover what a passed message of the client names.
pub fn mark_client_names(
    alloc: Global,
    policy: &Policy,
    message: &Message<'_>,
    marks: &mut Marks,
) -> Result<(), AllocError>
    ensures { (names : List Text) → Marked policy.now.entries names marks.old → OnOk result (Marked policy.now.entries (names ++ named_by_client (message_in message.now.bytes.now)) marks.new) }
{
    mark_destination(alloc, policy, message.destination(), marks)?;
    if is_bus_call(message) {
        mark_text(alloc, policy, message.first_text(), marks)?;
    }
    Ok(())
}

/// Marks the entries that cover the name of which the owner changed, if that is what a message of the bus tells.
pub fn mark_bus_names(
    alloc: Global,
    policy: &Policy,
    message: &Message<'_>,
    marks: &mut Marks,
) -> Result<(), AllocError>
    ensures { (names : List Text) → Marked policy.now.entries names marks.old → OnOk result (Marked policy.now.entries (names ++ named_by_bus (message_in message.now.bytes.now)) marks.new) }
{
    if is_owner_change(message) {
        mark_text(alloc, policy, message.first_text(), marks)?;
    }
    Ok(())
}
