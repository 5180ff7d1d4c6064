//! The parts of a message's header: each is that of the message which the bytes spell.
ghost use Rattle.std.specs.Prelude.{◌≡◌};
ghost use Rattle.dbus_header.specs.Contents.{message_in};
ghost use Rattle.dbus_header.specs.KnownHeaders.{found_at};
ghost use Rattle.dbus_header.specs.Message.{path as path_of, interface as interface_of, member as member_of, error_name as error_name_of, destination as destination_of, sender as sender_of, reply_serial as reply_serial_of, reply_place as reply_place_of, signature as signature_of, has_unknown_field as unknown_field_in};
ghost use Rattle.dbus_header.specs.Read.{message_seen};
ghost use Rattle.dbus_header.specs.Seen.{text_seen};

use crate::message::Message;
use crate::spans::{number_at, place_in_message, text_at};
use dbus_types::Signature;

/// What was read of a message is what the message that its bytes spell has.
pub(crate) fn is_read(message: &Message<'_>)
    ensures kind { message.now.kind ≡ (message_in message.now.bytes.now).kind }
    ensures flags { message.now.flags ≡ (message_in message.now.bytes.now).flags }
    ensures path { (found_at message.now.order message.now.fields.now message.now.places.now).parts.path ≡ path_of (message_in message.now.bytes.now) }
    ensures interface { (found_at message.now.order message.now.fields.now message.now.places.now).parts.interface ≡ interface_of (message_in message.now.bytes.now) }
    ensures member { (found_at message.now.order message.now.fields.now message.now.places.now).parts.member ≡ member_of (message_in message.now.bytes.now) }
    ensures error_name { (found_at message.now.order message.now.fields.now message.now.places.now).parts.error_name ≡ error_name_of (message_in message.now.bytes.now) }
    ensures reply_serial { (found_at message.now.order message.now.fields.now message.now.places.now).parts.reply_serial ≡ reply_serial_of (message_in message.now.bytes.now) }
    ensures reply_place { (found_at message.now.order message.now.fields.now message.now.places.now).reply_place ≡ reply_place_of (message_in message.now.bytes.now) }
    ensures destination { (found_at message.now.order message.now.fields.now message.now.places.now).parts.destination ≡ destination_of (message_in message.now.bytes.now) }
    ensures sender { (found_at message.now.order message.now.fields.now message.now.places.now).parts.sender ≡ sender_of (message_in message.now.bytes.now) }
    ensures signature { message.now.signature.bytes.now ≡ signature_of (message_in message.now.bytes.now) }
    ensures unknown { message.now.places.now.has_unknown ≡ unknown_field_in (message_in message.now.bytes.now) }
{
    let _message = message;
}

impl<'a> Message<'a> {
    /// The path of the object that a call is for, or that sends a signal.
    #[inline(always)]
    pub fn path(&self) -> Option<&'a str>
        ensures spelled { text_seen result ≡ path_of (message_in self.now.bytes.now) }
        ensures seen { text_seen result ≡ (message_seen self.now).parts.path }
    {
        is_read(self);
        text_at(self.places.path, self.fields)
    }

    /// The interface of its member.
    #[inline(always)]
    pub fn interface(&self) -> Option<&'a str>
        ensures spelled { text_seen result ≡ interface_of (message_in self.now.bytes.now) }
        ensures seen { text_seen result ≡ (message_seen self.now).parts.interface }
    {
        is_read(self);
        text_at(self.places.interface, self.fields)
    }

    /// The method that is called, or the signal.
    #[inline(always)]
    pub fn member(&self) -> Option<&'a str>
        ensures spelled { text_seen result ≡ member_of (message_in self.now.bytes.now) }
        ensures seen { text_seen result ≡ (message_seen self.now).parts.member }
    {
        is_read(self);
        text_at(self.places.member, self.fields)
    }

    /// The name of the error that it answers with.
    #[inline(always)]
    pub fn error_name(&self) -> Option<&'a str>
        ensures spelled { text_seen result ≡ error_name_of (message_in self.now.bytes.now) }
        ensures seen { text_seen result ≡ (message_seen self.now).parts.error_name }
    {
        is_read(self);
        text_at(self.places.error_name, self.fields)
    }

    /// The serial of the message that it answers.
    #[inline(always)]
    pub fn reply_serial(&self) -> Option<u32>
        ensures spelled { result ≡ reply_serial_of (message_in self.now.bytes.now) }
        ensures seen { result ≡ (message_seen self.now).parts.reply_serial }
    {
        is_read(self);
        number_at(self.order, self.places.reply_serial, self.fields)
    }

    /// The place of REPLY_SERIAL's number in the bytes, if the message has that field.
    #[inline(always)]
    pub fn reply_serial_place(&self) -> Option<usize>
        ensures spelled { result ≡ reply_place_of (message_in self.now.bytes.now) }
        ensures seen { result ≡ (message_seen self.now).reply_place }
    {
        is_read(self);
        place_in_message(self.places.reply_serial)
    }

    /// The connection to which it is sent: a bus name.
    #[inline(always)]
    pub fn destination(&self) -> Option<&'a str>
        ensures spelled { text_seen result ≡ destination_of (message_in self.now.bytes.now) }
        ensures seen { text_seen result ≡ (message_seen self.now).parts.destination }
    {
        is_read(self);
        text_at(self.places.destination, self.fields)
    }

    /// The connection that sent it: a bus name.
    #[inline(always)]
    pub fn sender(&self) -> Option<&'a str>
        ensures spelled { text_seen result ≡ sender_of (message_in self.now.bytes.now) }
        ensures seen { text_seen result ≡ (message_seen self.now).parts.sender }
    {
        is_read(self);
        text_at(self.places.sender, self.fields)
    }

    /// The types of the body's values.
    pub fn signature(&self) -> Signature<'a>
        ensures { result.bytes.now ≡ signature_of (message_in self.now.bytes.now) }
    {
        is_read(self);
        self.signature
    }

    /// Whether a header field has a code that the specification doesn't name.
    pub fn has_unknown_field(&self) -> bool
        ensures { result ≡ unknown_field_in (message_in self.now.bytes.now) }
    {
        is_read(self);
        self.places.has_unknown
    }
}
