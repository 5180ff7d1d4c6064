//! Memory that sessions use one after the other. A session in which nothing waits keeps little of its own.
ghost use Rattle.std.specs.Prelude.{◌≡◌, []};

use crate::session::Session;
use bytes::BytesMut;
use policy_view::Side;
use std::alloc::Global;
use std::collections::VecDeque;

/// Memory for received and waiting bytes, which the sessions of a server use one after the other. It holds no bytes.
#[derive(Drop)]
pub struct Room {
    to_bus: BytesMut,
    to_client: BytesMut,
    stream: Vec<u8>,
    ghost to_bus_is_empty: { to_bus.items ≡ [] },
    ghost to_client_is_empty: { to_client.items ≡ [] },
    ghost stream_is_empty: { stream.items ≡ [] },
}

impl Room {
    /// A room without memory, before a session gives some back.
    pub fn new(alloc: Global) -> Room {
        Room {
            to_bus: BytesMut::new(alloc),
            to_client: BytesMut::new(alloc),
            stream: Vec::new(alloc),
        }
    }
}

impl Session {
    /// Takes the memory that other sessions gave back, for a piece of a side and for what then waits. Nothing else
    /// changes.
    pub fn take_room(&mut self, side: Side, room: &mut Room)
        ensures { self.new ≡ self.old }
    {
        self.to_bus.take_room(&mut room.to_bus);
        self.to_client.take_room(&mut room.to_client);
        match side {
            Side::Client => self.client.take_room(&mut room.stream),
            Side::Bus => self.bus.take_room(&mut room.stream),
        }
    }

    /// Gives back the memory in which nothing waits. Nothing else changes.
    pub fn give_room(&mut self, room: &mut Room)
        ensures { self.new ≡ self.old }
    {
        self.to_bus.give_room(&mut room.to_bus);
        self.to_client.give_room(&mut room.to_client);
        self.client.give_room(&mut room.stream);
        self.bus.give_room(&mut room.stream);
        if self.notes.is_empty() {
            self.notes = VecDeque::new(self.alloc);
        }
    }
}
