//! The visible part of a history: what is left of it, element by element, if all that the policy hides is erased.
ghost use Rattle.std.specs.Prelude.{◌≡◌, ◌↔◌, IsTrue};

use crate::Side;
use bytes::Bytes;
use dbus_names::Name;
use std::marker::Model;

/// A list of names, which contracts see as their texts.
#[derive(Debug, Drop)]
pub struct NameList {
    names: Vec<Name>,
}

impl Model for NameList {
    ghost use Rattle.std.specs.Prelude.{List, ℕ};

    ghost Value = { List (List ℕ) };

    ghost view = { λ list. list.names.items };
}

impl NameList {
    /// The list of these names.
    pub fn new(names: Vec<Name>) -> NameList
        ensures { result ≡ names.items }
    {
        NameList { names }
    }

    /// The names of the list.
    pub fn as_slice(&self) -> &[Name]
        ensures { result.now ≡ self.now }
    {
        &self.names
    }
}

/// An element of the visible part of a history: a line, a message, or what is left of an answer that the client isn't
/// shown unchanged. A position is a place among the messages that were sent to the bus, from 1. Messages are whole
/// frames; those of the bus have their original REPLY_SERIAL.
#[derive(Debug)]
pub enum Visible {
    /// A line of the authentication protocol, as received.
    Line(Side, Bytes),
    /// A message of the client.
    Client(Bytes),
    /// A message of the bus that the client is shown.
    Shown(Bytes),
    /// A message of the bus that the client is shown with its list of names cut, after the cut.
    Cut(Bytes),
    /// The answer to a ping.
    Ping {
        position: u32,
        serial: u32,
    },
    /// The answer to the proxy's own GetNameOwner: the unique name of the owner, or None if the call was refused.
    Owner {
        position: u32,
        owner: Option<Name>,
    },
    /// The answer to the proxy's own ListNames: the names whose owners are then asked for, or None if the call was
    /// refused.
    Asked {
        position: u32,
        names: Option<NameList>,
    },
}

// Its drop is a call, so that a function that drops one is short to prove.
impl Drop for Visible {
    fn drop(self) {
        match self {
            Visible::Line(_side, _bytes) => {}
            Visible::Client(_bytes) => {}
            Visible::Shown(_bytes) => {}
            Visible::Cut(_bytes) => {}
            Visible::Ping {
                position: _position,
                serial: _serial,
            } => {}
            Visible::Owner {
                position: _position,
                owner: _owner,
            } => {}
            Visible::Asked {
                position: _position,
                names: _names,
            } => {}
        }
    }
}

impl Visible {
    /// Whether both are the same element.
    pub fn is_same(&self, other: &Visible) -> bool
        ensures { IsTrue result ↔ (self.now ≡ other.now) }
    {
        match (self, other) {
            (Visible::Line(side, bytes), Visible::Line(other_side, other_bytes)) => {
                side == other_side && bytes == other_bytes
            }
            (Visible::Client(bytes), Visible::Client(other_bytes)) => bytes == other_bytes,
            (Visible::Shown(bytes), Visible::Shown(other_bytes)) => bytes == other_bytes,
            (Visible::Cut(bytes), Visible::Cut(other_bytes)) => bytes == other_bytes,
            (
                Visible::Ping { position, serial },
                Visible::Ping {
                    position: other_position,
                    serial: other_serial,
                },
            ) => position == other_position && serial == other_serial,
            (
                Visible::Owner { position, owner },
                Visible::Owner {
                    position: other_position,
                    owner: other_owner,
                },
            ) => position == other_position && is_same_owner(owner, other_owner),
            (
                Visible::Asked { position, names },
                Visible::Asked {
                    position: other_position,
                    names: other_names,
                },
            ) => position == other_position && are_same_names(names, other_names),
            _ => false,
        }
    }
}

/// Whether both are refusals, or both are the same name.
fn is_same_owner(owner: &Option<Name>, other: &Option<Name>) -> bool
    ensures { IsTrue result ↔ (owner.now ≡ other.now) }
{
    match (owner, other) {
        (Some(owner), Some(other)) => owner.as_str() == other.as_str(),
        (None, None) => true,
        _ => false,
    }
}

/// Whether both are refusals, or both have the same names in the same order.
fn are_same_names(names: &Option<NameList>, other: &Option<NameList>) -> bool
    ensures { IsTrue result ↔ (names.now ≡ other.now) }
{
    match (names, other) {
        (Some(names), Some(other)) => are_equal(names.as_slice(), other.as_slice()),
        (None, None) => true,
        _ => false,
    }
}

/// Whether both have the same names in the same order.
fn are_equal(names: &[Name], other: &[Name]) -> bool
    ensures { IsTrue result ↔ (names.now ≡ other.now) }
{
    if names.len() != other.len() {
        return false;
    }
    for index in 0..names.len() {
        if names[index].as_str() != other[index].as_str() {
            return false;
        }
    }
    true
}
