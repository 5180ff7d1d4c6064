//! The types and the flags of messages (D-Bus Specification, "Message Format").
ghost use Rattle.std.specs.Prelude.{◌≡◌, ◌==◌, ◌||◌, nat_lt};
ghost use Rattle.dbus_header.specs.Contents.{message_in};
ghost use Rattle.dbus_header.specs.Kinds.{expects_reply as reply_expected, forbids_auto_start as auto_start_forbidden, kind_of, type_seen};

use crate::message::Message;
use crate::parts::is_read;

/// The type of a method call.
pub const METHOD_CALL: u8 = 1;

/// The type of a method return, which answers a call.
pub const METHOD_RETURN: u8 = 2;

/// The type of an error, which answers a call.
pub const ERROR: u8 = 3;

/// The type of a signal. Greater types are valid but have no name.
pub const SIGNAL: u8 = 4;

/// The type of a message by its name.
#[derive(Clone, Copy, Debug, PartialEq, Eq)]
pub enum MessageType {
    MethodCall,
    MethodReturn,
    Error,
    Signal,
    /// A type above 4, which has no name.
    Unnamed,
}

/// The flag of a call whose sender waits for no reply.
pub const NO_REPLY_EXPECTED: u8 = 1;

/// The flag of a call that must not start the service to which it is sent.
pub const NO_AUTO_START: u8 = 2;

impl Message<'_> {
    /// Its type.
    #[tactic(auto, unfolding(crate::specs::Kinds::kind_of))]
    pub fn message_type(&self) -> MessageType
        ensures { type_seen result ≡ kind_of (message_in self.now.bytes.now) }
    {
        is_read(self);
        match self.kind {
            METHOD_CALL => MessageType::MethodCall,
            METHOD_RETURN => MessageType::MethodReturn,
            ERROR => MessageType::Error,
            SIGNAL => MessageType::Signal,
            _ => MessageType::Unnamed,
        }
    }

    /// Whether it is a method call.
    pub fn is_method_call(&self) -> bool
        ensures { result ≡ (self.now.kind == 1) }
    {
        self.kind == METHOD_CALL
    }

    /// Whether it is a method return.
    pub fn is_method_return(&self) -> bool
        ensures { result ≡ (self.now.kind == 2) }
    {
        self.kind == METHOD_RETURN
    }

    /// Whether it answers a call: it is a return or an error.
    pub fn is_reply(&self) -> bool
        ensures { result ≡ (self.now.kind == 2 || self.now.kind == 3) }
    {
        self.kind == METHOD_RETURN || self.kind == ERROR
    }

    /// Whether it is a signal.
    pub fn is_signal(&self) -> bool
        ensures { result ≡ (self.now.kind == 4) }
    {
        self.kind == SIGNAL
    }

    /// Whether its type has no name.
    pub fn has_unknown_type(&self) -> bool
        ensures { result ≡ nat_lt 4 self.now.kind }
    {
        self.kind > SIGNAL
    }

    /// Whether the sender of a call waits for its reply: NO_REPLY_EXPECTED isn't set.
    pub fn expects_reply(&self) -> bool
        ensures { result ≡ reply_expected (message_in self.now.bytes.now) }
    {
        is_read(self);
        self.flags % (2 * NO_REPLY_EXPECTED) == 0
    }

    /// Whether a call must not start a service: NO_AUTO_START is set.
    pub fn forbids_auto_start(&self) -> bool
        ensures { result ≡ auto_start_forbidden (message_in self.now.bytes.now) }
    {
        is_read(self);
        (self.flags / NO_AUTO_START) % 2 == 1
    }
}
