//! The bus names in a message's header.
ghost use Rattle.std.specs.Prelude.{◌≡◌};
ghost use Rattle.dbus_header.specs.Contents.{message_in};
ghost use Rattle.dbus_header.specs.Message.{destination as destination_of, sender as sender_of};
ghost use Rattle.dbus_header.specs.Seen.{AreBusNames, name_seen};

use crate::bodies::is_valid;
use crate::message::Message;
use crate::parts::is_read;
use dbus_names::BusName;

// DESTINATION and SENDER are bus names.
fn has_bus_names(message: &Message<'_>)
    ensures destination { AreBusNames (destination_of (message_in message.now.bytes.now)) }
    ensures sender { AreBusNames (sender_of (message_in message.now.bytes.now)) }
{
    is_valid(message.bytes);
    is_read(message);
}

impl<'a> Message<'a> {
    /// The name of the connection to which the message is sent, if it has a DESTINATION (D-Bus Specification, "Message
    /// Format", "Header Fields"). Its grammar isn't checked again.
    pub fn destination_name(&self) -> Option<BusName<'a>>
        ensures { name_seen result ≡ destination_of (message_in self.now.bytes.now) }
    {
        has_bus_names(self);
        let text = self.destination()?;
        Some(BusName { text })
    }

    /// The name of the connection that sent the message, if it has a SENDER (D-Bus Specification, "Message Format",
    /// "Header Fields"). Its grammar isn't checked again.
    pub fn sender_name(&self) -> Option<BusName<'a>>
        ensures { name_seen result ≡ sender_of (message_in self.now.bytes.now) }
    {
        has_bus_names(self);
        let text = self.sender()?;
        Some(BusName { text })
    }
}
