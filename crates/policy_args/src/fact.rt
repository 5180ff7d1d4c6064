//! Facts about unique names.
use dbus_names::Name;

/// A fact about a unique name, learned from a message of the bus (D-Bus Specification, "Message Bus Specification"). It
/// is never withdrawn.
#[derive(Debug, Drop)]
pub enum Fact {
    /// The connection `id` owns the name, or has owned it.
    Owned { name: Name, id: Name },
    /// The unique name is the client's own.
    SelfId(Name),
    /// The client met this unique name: it called the client, or sent it a signal with a DESTINATION.
    Met(Name),
}
