//! Requests of properties, by calls of `org.freedesktop.DBus.Properties` (the section of that name in the D-Bus
//! Specification).
ghost use Rattle.std.specs.Prelude.{◌≡◌};
ghost use Rattle.dbus_header.specs.Message.{first_text as first_text_of, two_texts as two_texts_of};
ghost use Rattle.dbus_header.specs.Seen.{text_seen};
ghost use Rattle.dbus_header.specs.Contents.{message_in};
ghost use Rattle.policy_view.specs.Properties.{is_method as is_method_of, method_request as method_request_of, permits as rule_permits, property_request as property_request_of, request_of_all as request_of_text, request_of_one as request_of_texts};
ghost use Rattle.verdicts.specs.Seen.{request_seen};

use crate::roles::is_text;
use call_rules::PropertyRule;
use dbus_header::Message;

/// The interface whose members read and set properties.
pub(crate) const PROPERTIES_INTERFACE: &str = "org.freedesktop.DBus.Properties";

/// What is requested of an object's properties.
#[derive(Clone, Copy)]
pub(crate) struct PropertyRequest<'a> {
    /// The interface that has the properties.
    pub(crate) interface: &'a str,
    /// The property, or `None` for all of the interface.
    pub(crate) property: Option<&'a str>,
}

/// The property request that a call makes, or `None` if it makes none.
#[tactic(auto, unfolding(policy_view::specs::Properties::property_request))]
pub(crate) fn property_request<'a>(message: &Message<'a>) -> Option<PropertyRequest<'a>>
    ensures { request_seen result ≡ property_request_of (message_in message.now.bytes.now) }
{
    if is_text(message.interface(), PROPERTIES_INTERFACE) {
        method_request(message)
    } else {
        None
    }
}

// The request of a call of this interface, by its member and signature.
fn method_request<'a>(message: &Message<'a>) -> Option<PropertyRequest<'a>>
    ensures { request_seen result ≡ method_request_of (message_in message.now.bytes.now) }
{
    if is_method(message, "Get", b"ss") || is_method(message, "Set", b"ssv") {
        request_of_one(message)
    } else if is_method(message, "GetAll", b"s") {
        request_of_all(message)
    } else {
        None
    }
}

// Whether the message has this member and its body this signature.
fn is_method(message: &Message<'_>, name: &str, types: &[u8]) -> bool
    ensures { result ≡ is_method_of name.now types.now (message_in message.now.bytes.now) }
{
    is_text(message.member(), name) && message.signature().as_bytes() == types
}

// The request of the property that the second text of the body names.
fn request_of_one<'a>(message: &Message<'a>) -> Option<PropertyRequest<'a>>
    ensures { request_seen result ≡ request_of_texts (two_texts_of (message_in message.now.bytes.now)) }
{
    let (interface, property) = message.two_texts()?;
    Some(PropertyRequest {
        interface,
        property: Some(property),
    })
}

// The request of all properties of the interface that the first text of the body names.
fn request_of_all<'a>(message: &Message<'a>) -> Option<PropertyRequest<'a>>
    ensures { request_seen result ≡ request_of_text (first_text_of (message_in message.now.bytes.now)) }
{
    let interface = message.first_text()?;
    Some(PropertyRequest {
        interface,
        property: None,
    })
}

/// Whether a rule matches the request, made at the path.
pub(crate) fn permits(
    rule: &PropertyRule,
    path: Option<&str>,
    request: Option<PropertyRequest<'_>>,
) -> bool
    ensures { result ≡ rule_permits rule.now (text_seen path.entry) (request_seen request.entry) }
{
    match (path, request) {
        (Some(path), Some(request)) => rule.matches(path, request.interface, request.property),
        _ => false,
    }
}
