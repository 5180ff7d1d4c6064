//! What a sample's draws are counted by, and what one of them made.
ghost use Rattle.std.specs.Prelude.{◌≡◌, ◌≤◌, ◌+◌};

use bytes::BytesMut;

/// The draws that are still to come.
#[derive(Drop)]
pub(crate) struct Draws {
    /// How many they are.
    pub(crate) left: u32,
    /// The number of the next, from 1.
    pub(crate) number: u32,
    /// What was drawn last.
    pub(crate) drawn: u32,
    /// The next serial of the client.
    pub(crate) client_serial: u32,
    /// The next serial of the bus.
    pub(crate) bus_serial: u32,
    ghost few: { number + left ≤ 100001 },
    ghost client: { client_serial ≤ number + 1 },
    ghost bus: { bus_serial ≡ number + 3 },
}

/// The messages of a draw.
#[derive(Drop)]
pub(crate) struct Made {
    /// Whether the client has one.
    pub(crate) asked: bool,
    /// The client's.
    pub(crate) client: BytesMut,
    /// The bus's.
    pub(crate) bus: BytesMut,
}
