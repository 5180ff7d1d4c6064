//! What answers are for.
use dbus_header::Instead;
use dbus_names::Name;
use dbus_values::Order;

/// What the answer to a sent message is for. The numbers are serials of the client.
#[derive(Debug, Drop)]
pub enum Kind {
    /// A call of the client that passed.
    Call(u32),
    /// The client's `Hello`, whose answer has its unique name.
    Hello(u32),
    /// A call of the client for the bus's list of names, which is cut in the answer.
    Names(u32),
    /// A ping that was sent in place of a call of the client. The call is answered with this, in the call's byte order.
    Ping {
        serial: u32,
        order: Order,
        what: Instead,
    },
    /// An AddMatch of the proxy's own.
    OwnMatch,
    /// The proxy's own GetNameOwner for a name.
    OwnOwner(Name),
    /// The proxy's own ListNames.
    OwnNames,
}
