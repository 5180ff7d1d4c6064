//! What messages of the bus say of names.
ghost use Rattle.std.specs.Prelude.{◌≡◌};
ghost use Rattle.dbus_header.specs.Message.{sender as sender_of};
ghost use Rattle.dbus_header.specs.Seen.{text_seen};
ghost use Rattle.policy_view.specs.Past.{if_unique, is_covered as covered, returned_names as names_returned, returned_text};
ghost use Rattle.dbus_header.specs.Contents.{message_in};

use dbus_header::Message;
use dbus_names::{is_unique, is_well_known};
use dbus_values::Texts;
use policy_args::Policy;

/// The text, if it is a unique name.
pub(crate) fn unique(text: Option<&str>) -> Option<&str>
    ensures { text_seen result ≡ if_unique (text_seen text.entry) }
{
    match text {
        Some(text) if is_unique(text.as_bytes()) => Some(text),
        _ => None,
    }
}

/// The unique name that is the body of a return.
pub(crate) fn returned_id<'a>(message: &Message<'a>) -> Option<&'a str>
    ensures { text_seen result ≡ if_unique (returned_text (message_in message.now.bytes.now)) }
{
    if message.is_method_return() {
        unique(message.only_text())
    } else {
        None
    }
}

/// The list of names that is the body of a return.
pub(crate) fn returned_names<'a>(message: &Message<'a>) -> Option<Texts<'a>>
    ensures { result ≡ names_returned (message_in message.now.bytes.now) }
{
    if message.is_method_return() {
        message.text_list()
    } else {
        None
    }
}

/// The sender of a message, if it is a unique name.
pub(crate) fn unique_sender<'a>(message: &Message<'a>) -> Option<&'a str>
    ensures { text_seen result ≡ if_unique (sender_of (message_in message.now.bytes.now)) }
{
    match message.sender_name() {
        Some(name) if name.is_unique() => Some(name.text),
        _ => None,
    }
}

/// Whether it is a well-known name that an entry of the policy covers.
pub(crate) fn is_covered(policy: &Policy, name: &str) -> bool
    ensures { result ≡ covered policy.now name.now }
{
    is_well_known(name.as_bytes()) && policy.covers(name)
}
