//! The strings of a message's body.
ghost use Rattle.std.specs.Prelude.{◌≡◌, Some, bytes_eq};
ghost use Rattle.dbus_header.specs.Contents.{message_in, message_of};
ghost use Rattle.dbus_header.specs.Message.{Message as MessageTree, Valid, first_text as first_text_of, two_texts as two_texts_of, only_text as only_text_of, three_texts as three_texts_of, text_list as text_list_of};
ghost use Rattle.dbus_header.specs.Seen.{text_seen, two_seen, texts_seen};

use crate::message::Message;
use dbus_values::Texts;

/// A message that was read is valid.
pub(crate) fn is_valid(bytes: &[u8])
    ensures { (m : MessageTree) → message_of bytes.now ≡ Some m → Valid m }
{
    let _bytes = bytes;
}

// Whether its signature is this one.
fn is_signed(message: &Message<'_>, signature: &[u8]) -> bool
    ensures { result ≡ bytes_eq message.now.signature.bytes.now signature.now }
{
    message.signature.as_bytes() == signature
}

impl<'a> Message<'a> {
    /// The first value of the body, if it is a string: `None` exactly if SIGNATURE doesn't begin with `s`.
    pub fn first_text(&self) -> Option<&'a str>
        ensures { text_seen result ≡ first_text_of (message_in self.now.bytes.now) }
    {
        is_valid(self.bytes);
        dbus_values::first_text(self.order, self.signature, self.body)
    }

    /// The first two values of the body, if both are strings: `None` exactly if SIGNATURE doesn't begin with `ss`.
    pub fn two_texts(&self) -> Option<(&'a str, &'a str)>
        ensures { two_seen result ≡ two_texts_of (message_in self.now.bytes.now) }
    {
        is_valid(self.bytes);
        dbus_values::two_texts(self.order, self.signature, self.body)
    }

    /// The string that is the whole body: `None` exactly if SIGNATURE isn't `s`.
    pub fn only_text(&self) -> Option<&'a str>
        ensures { text_seen result ≡ only_text_of (message_in self.now.bytes.now) }
    {
        if is_signed(self, b"s") {
            self.first_text()
        } else {
            None
        }
    }

    /// The three strings that are the whole body: `None` exactly if SIGNATURE isn't `sss`.
    pub fn three_texts(&self) -> Option<(&'a str, &'a str, &'a str)>
        ensures { texts_seen result ≡ three_texts_of (message_in self.now.bytes.now) }
    {
        is_valid(self.bytes);
        if is_signed(self, b"sss") {
            let [first, second, third] = dbus_values::texts3(self.order, self.body);
            Some((first, second, third))
        } else {
            None
        }
    }

    /// The strings of the array that is the whole body: `None` exactly if SIGNATURE isn't `as`.
    pub fn text_list(&self) -> Option<Texts<'a>>
        ensures { result ≡ text_list_of (message_in self.now.bytes.now) }
    {
        is_valid(self.bytes);
        if is_signed(self, b"as") {
            Some(dbus_values::text_list(self.order, self.body))
        } else {
            None
        }
    }
}
