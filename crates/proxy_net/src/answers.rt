//! What a net over sockets answers.
use link_traits::{Accepted, Got, Link, NetFault, Ready, Took};

/// What one call of a net answered, without its path or its bytes.
#[derive(Clone, Copy)]
pub enum Answer {
    Listen(Result<u32, NetFault>),
    Wait(Ready),
    /// An accept at a listener.
    Accept(u32, Accepted),
    /// A connect of a session to its bus.
    Connect(u32, Result<(), NetFault>),
    Read(Link, Got),
    Write(Link, Took),
    Shut(Link),
}
