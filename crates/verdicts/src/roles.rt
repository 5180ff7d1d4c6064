//! The roles of messages: what a message is, by its own contents and by the sent call that it answers.
ghost use Rattle.std.specs.Prelude.{◌≡◌, true, false};
ghost use Rattle.std.specs.Option.{option_copied};
ghost use Rattle.dbus_header.specs.Seen.{name_seen, text_seen};
ghost use Rattle.dbus_header.specs.Contents.{message_in};
ghost use Rattle.policy_view.specs.Shown.{bus_role as bus_role_of, is_owner_change as changes_owner, role_of_reply as reply_role, role_of_signal as bus_signal_role};
ghost use Rattle.policy_view.specs.Texts.{has_text as text_is, is_one_of};
ghost use Rattle.policy_view.specs.Verdicts.{client_role as client_role_of, role_of_bus_call as bus_call_role, role_of_call as call_role, role_of_signal as signal_role, standard_interfaces};
ghost use Rattle.verdicts.specs.Seen.{bus_role_seen, client_role_seen};

use crate::properties::PROPERTIES_INTERFACE;
use dbus_header::{Instead, Message, MessageType};
use dbus_names::{BUS_NAME, BusName, Name, is_bus};
use dbus_values::Order;
use reply_ledger::Kind;

/// What a client's message is.
#[derive(Clone, Copy)]
pub(crate) enum ClientRole<'a> {
    /// Its type has no name.
    OfUnknownType,
    /// A return or an error.
    Reply,
    /// A signal without DESTINATION.
    Broadcast,
    /// A signal for this name.
    SignalTo(BusName<'a>),
    /// A call to the bus with an interface that each object has.
    StandardBusCall,
    /// A call to the bus with any other interface than these and its own.
    OtherBusCall,
    /// A call to the bus with its own interface, or without one.
    BusCall,
    /// A call to another name.
    CallTo(BusName<'a>),
}

/// What a message of the bus is.
#[derive(Clone, Copy)]
pub(crate) enum BusRole<'a> {
    /// Its type has no name.
    NoRole,
    /// It answers nothing that was sent.
    Unexpected,
    /// The answer to an AddMatch of the proxy's own.
    MatchAnswer,
    /// The answer to the proxy's own GetNameOwner for this name.
    OwnerAnswer(&'a Name),
    /// The answer to the proxy's own ListNames.
    NamesAnswer,
    /// The answer to the ping for the client's call with this serial.
    PingAnswer {
        serial: u32,
        order: Order,
        what: Instead,
    },
    /// The list of names for the client's call with this serial.
    NameList(u32),
    /// The answer to the client's `Hello` with this serial.
    HelloAnswer(u32),
    /// The answer to another call of the client, with this serial.
    OtherAnswer(u32),
    /// A call to the client.
    CallIn,
    /// NameOwnerChanged from the bus.
    OwnerChange,
    /// A signal to the client.
    SignalIn,
    /// A broadcast signal.
    BroadcastIn,
}

/// The role of a client's message.
#[tactic(auto, unfolding(policy_view::specs::Verdicts::client_role))]
pub(crate) fn client_role<'a>(message: &Message<'a>) -> ClientRole<'a>
    ensures { client_role_seen result ≡ client_role_of (message_in message.now.bytes.now) }
{
    match message.message_type() {
        MessageType::MethodCall => role_of_call(message.destination_name(), message.interface()),
        MessageType::MethodReturn | MessageType::Error => ClientRole::Reply,
        MessageType::Signal => role_of_signal(message.destination_name()),
        MessageType::Unnamed => ClientRole::OfUnknownType,
    }
}

fn role_of_call<'a>(destination: Option<BusName<'a>>, interface: Option<&str>) -> ClientRole<'a>
    ensures { client_role_seen result ≡ call_role (name_seen destination.entry) (text_seen interface.entry) }
{
    match destination {
        None => role_of_bus_call(interface),
        Some(name) => {
            if is_bus(name.text) {
                role_of_bus_call(interface)
            } else {
                ClientRole::CallTo(name)
            }
        }
    }
}

fn role_of_bus_call<'a>(interface: Option<&str>) -> ClientRole<'a>
    ensures { client_role_seen result ≡ bus_call_role (text_seen interface.entry) }
{
    match interface {
        None => ClientRole::BusCall,
        Some(interface) => {
            if is_standard(interface) {
                ClientRole::StandardBusCall
            } else if is_bus(interface) {
                ClientRole::BusCall
            } else {
                ClientRole::OtherBusCall
            }
        }
    }
}

// Whether each object has the interface (D-Bus Specification, "Standard Interfaces").
fn is_standard(interface: &str) -> bool
    ensures { result ≡ is_one_of interface.now standard_interfaces }
{
    interface == "org.freedesktop.DBus.Peer"
        || interface == PROPERTIES_INTERFACE
        || interface == "org.freedesktop.DBus.Introspectable"
}

fn role_of_signal(destination: Option<BusName<'_>>) -> ClientRole<'_>
    ensures { client_role_seen result ≡ signal_role (name_seen destination.entry) }
{
    match destination {
        None => ClientRole::Broadcast,
        Some(name) => ClientRole::SignalTo(name),
    }
}

/// The role of a bus message, given what it is the answer to.
#[tactic(auto, unfolding(policy_view::specs::Shown::bus_role))]
pub(crate) fn bus_role<'a>(answered: Option<&'a Kind>, message: &Message<'_>) -> BusRole<'a>
    ensures { bus_role_seen result ≡ bus_role_of (option_copied answered.entry) (message_in message.now.bytes.now) }
{
    match message.message_type() {
        MessageType::MethodCall => BusRole::CallIn,
        MessageType::MethodReturn => role_of_reply(true, answered),
        MessageType::Error => role_of_reply(false, answered),
        MessageType::Signal => role_of_bus_signal(message),
        MessageType::Unnamed => BusRole::NoRole,
    }
}

// The role of a return or an error, given what it is the answer to.
fn role_of_reply(is_return: bool, answer: Option<&Kind>) -> BusRole<'_>
    ensures { bus_role_seen result ≡ reply_role is_return (option_copied answer.entry) }
{
    match answer {
        None => BusRole::Unexpected,
        Some(kind) => role_of_answer(is_return, kind),
    }
}

fn role_of_answer(is_return: bool, kind: &Kind) -> BusRole<'_>
    ensures { bus_role_seen result ≡ reply_role is_return (Some kind.now) }
{
    match kind {
        Kind::Call(serial) => BusRole::OtherAnswer(*serial),
        Kind::Hello(serial) => BusRole::HelloAnswer(*serial),
        Kind::Names(serial) => {
            if is_return {
                BusRole::NameList(*serial)
            } else {
                BusRole::OtherAnswer(*serial)
            }
        }
        Kind::Ping {
            serial,
            order,
            what,
        } => BusRole::PingAnswer {
            serial: *serial,
            order: *order,
            what: *what,
        },
        Kind::OwnMatch => BusRole::MatchAnswer,
        Kind::OwnOwner(name) => BusRole::OwnerAnswer(name),
        Kind::OwnNames => BusRole::NamesAnswer,
    }
}

fn role_of_bus_signal<'a>(message: &Message<'_>) -> BusRole<'a>
    ensures { bus_role_seen result ≡ bus_signal_role (message_in message.now.bytes.now) }
{
    if is_owner_change(message) {
        BusRole::OwnerChange
    } else if message.destination_name().is_some() {
        BusRole::SignalIn
    } else {
        BusRole::BroadcastIn
    }
}

/// Whether it is NameOwnerChanged from the bus (D-Bus Specification, "org.freedesktop.DBus.NameOwnerChanged").
#[tactic(auto, unfolding(policy_view::specs::Shown::is_owner_change))]
pub fn is_owner_change(message: &Message<'_>) -> bool
    ensures { result ≡ changes_owner (message_in message.now.bytes.now) }
{
    is_name(message.sender_name(), BUS_NAME)
        && is_text(message.interface(), BUS_NAME)
        && is_text(message.member(), "NameOwnerChanged")
}

// Whether the name is this text.
fn is_name(name: Option<BusName<'_>>, wanted: &str) -> bool
    ensures { result ≡ text_is (name_seen name.entry) wanted.now }
{
    match name {
        None => false,
        Some(name) => name.text == wanted,
    }
}

/// Whether the text is this one.
pub(crate) fn is_text(text: Option<&str>, wanted: &str) -> bool
    ensures { result ≡ text_is (text_seen text.entry) wanted.now }
{
    match text {
        None => false,
        Some(text) => text == wanted,
    }
}
