//! The strings of a list, written one after the other.
ghost use Rattle.std.specs.Prelude.{◌≡◌, ◌≤◌, ◌<◌, ◌++◌, ◌+◌, ◌-◌, ◌^◌, length};
ghost use Rattle.dbus_header.specs.Message.{with_number};
ghost use Rattle.dbus_values.specs.Values.{a_string, spelled};
ghost use Rattle.name_filters.specs.Names.{kept_names, names_bytes};

use bytes::BytesMut;
use dbus_header::write_u32;
use dbus_values::{Order, Texts};
use policy_args::{Level, Policy};
use unique_names::Tracker;

/// The padding before a string whose place isn't a multiple of 4.
const ZEROS: [u8; 4] = [0; 4];

/// What follows a string.
const END: [u8; 1] = [0];

/// Appends the names at See or more, as the elements of an array of strings. The message that contains the array begins
/// at a place of the bytes.
pub(crate) fn put_names(
    into: &mut BytesMut,
    policy: &Policy,
    tracker: &Tracker,
    order: Order,
    start: usize,
    names: Texts<'_>,
)
    requires start { start ≤ length into.old.items }
    requires room { length (names_bytes order (length into.old.items - start) names) ≤ into.old.spare }
    requires short { length (names_bytes order (length into.old.items - start) names) < 2 ^ 32 }
    ensures { into.new.items ≡ into.old.items ++ names_bytes order (length into.old.items - start) (kept_names policy.now tracker.now names.entry) }
{
    for name in names {
        if tracker.level(policy, name).is_at_least(Level::See) {
            put_name(into, order, start, name);
        }
    }
}

/// Appends a name, as a string of the message that begins at a place of the bytes.
fn put_name(into: &mut BytesMut, order: Order, start: usize, name: &str)
    requires start { start ≤ length into.old.items }
    requires room { length (spelled order (length into.old.items - start) (a_string name.now)) ≤ into.old.spare }
    requires short { length name.now < 2 ^ 32 }
    ensures name { into.new.items ≡ into.old.items ++ spelled order (length into.old.items - start) (a_string name.now) }
    ensures spare { into.new.spare + length (spelled order (length into.old.items - start) (a_string name.now)) ≡ into.old.spare }
{
    let padding = (4 - (into.len() - start) % 4) % 4;
    into.extend_reserved(&ZEROS[..padding]);
    into.extend_reserved(&order.bytes_of_u32(name.len() as u32));
    into.extend_reserved(name.as_bytes());
    into.extend_reserved(&END);
}

/// Writes a number of four bytes at a place.
pub(crate) fn write_number(into: &mut BytesMut, order: Order, place: usize, number: u32)
    requires { place + 4 ≤ length into.old.items }
    ensures bytes { into.new.items ≡ with_number order place number into.old.items }
    ensures len { length into.new.items ≡ length into.old.items }
{
    write_u32(order, into.as_mut_slice(), place, number);
}
