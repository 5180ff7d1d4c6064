//! What a client asks the bus for.
ghost use Rattle.std.specs.Prelude.{◌≡◌};
ghost use Rattle.dbus_header.specs.Read.{message_seen};
ghost use Rattle.dbus_header.specs.Seen.{text_seen};
ghost use Rattle.policy_view.specs.Sent.{Passed, asks_names as names_asked, expected_of, is_bus_or_absent as bus_or_absent, is_hello as hello};
ghost use Rattle.policy_view.specs.Texts.{has_text as text_is};
ghost use Rattle.proxy_core.specs.Messages.{is_bus_call_by, is_bus_member_by};
ghost use Rattle.dbus_header.specs.Contents.{message_in};

use dbus_header::Message;
use dbus_names::is_bus;
use reply_ledger::Kind;

fn is_bus_or_absent(name: Option<&str>) -> bool
    ensures { result ≡ bus_or_absent (text_seen name.entry) }
{
    match name {
        None => true,
        Some(name) => is_bus(name),
    }
}

fn has_text(text: Option<&str>, wanted: &str) -> bool
    ensures { result ≡ text_is (text_seen text.entry) wanted.now }
{
    match text {
        None => false,
        Some(text) => text == wanted,
    }
}

/// Whether it is a call to the bus, with the bus's interface or none.
fn is_bus_call(message: &Message<'_>) -> bool
    ensures { result ≡ is_bus_call_by (message_seen message.now) }
{
    message.is_method_call()
        && is_bus_or_absent(message.destination())
        && is_bus_or_absent(message.interface())
}

/// Whether it is a call to the bus of this member, with the bus's interface or none.
fn is_bus_member(message: &Message<'_>, member: &str) -> bool
    ensures { result ≡ is_bus_member_by member.now (message_seen message.now) }
{
    is_bus_call(message) && has_text(message.member(), member)
}

/// Whether this asks the bus for a unique name (D-Bus Specification, "org.freedesktop.DBus.Hello").
pub(crate) fn is_hello(message: &Message<'_>) -> bool
    ensures { result ≡ hello (message_in message.now.bytes.now) }
{
    is_bus_member(message, "Hello")
}

/// Whether this asks the bus for a list of names (D-Bus Specification, "org.freedesktop.DBus.ListNames" and
/// "org.freedesktop.DBus.ListActivatableNames").
fn asks_names(message: &Message<'_>) -> bool
    ensures { result ≡ names_asked (message_in message.now.bytes.now) }
{
    is_bus_member(message, "ListNames") || is_bus_member(message, "ListActivatableNames")
}

/// What the answer to a call that passes is used for.
pub(crate) fn expected(message: &Message<'_>) -> Kind
    ensures { result ≡ expected_of (Passed (message_in message.now.bytes.now)) }
{
    if !is_bus_call(message) {
        Kind::Call(message.serial)
    } else if is_hello(message) {
        Kind::Hello(message.serial)
    } else if asks_names(message) {
        Kind::Names(message.serial)
    } else {
        Kind::Call(message.serial)
    }
}
