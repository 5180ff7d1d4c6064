//! The answers to refused calls. Each replaces the bus's answer to the ping that was sent in place of the call.
ghost use Rattle.std.specs.Prelude.{◌≡◌, ◌≤◌, ◌+◌, ℕ, length};
ghost use Rattle.dbus_header.specs.Message.{spell, with_number};
ghost use Rattle.dbus_header.specs.declared.numbers.TheConstants.{SERIAL_PLACE};
ghost use Rattle.policy_view.specs.Own.{answer_in_place as in_place};
ghost use Rattle.ping_rewrite.specs.declared.answers.TheConstants.{LONGEST};

use dbus_header::{Instead, SERIAL_PLACE, write_u32};
use dbus_values::Order;
use std::marker::Model;

/// The maximum length of an answer.
const LONGEST: usize = 142;

const LITTLE_ACCESS_DENIED: [u8; 140] = *b"\
    l\x03\x01\x01\x1c\0\0\0\0\0\0\0\x5f\0\0\0\
    \x04\x01s\0\x27\0\0\0org.freedesktop.DBus.Error.AccessDenied\0\x05\x01u\0\0\0\0\0\
    \x07\x01s\0\x14\0\0\0org.freedesktop.DBus\0\0\0\0\
    \x08\x01g\0\x01s\0\0\
    \x17\0\0\0access denied by policy\0";

const LITTLE_NAME_HAS_NO_OWNER: [u8; 142] = *b"\
    l\x03\x01\x01\x16\0\0\0\0\0\0\0\x67\0\0\0\
    \x04\x01s\0\x29\0\0\0org.freedesktop.DBus.Error.NameHasNoOwner\0\0\0\0\0\0\0\x05\x01u\0\0\0\0\0\
    \x07\x01s\0\x14\0\0\0org.freedesktop.DBus\0\0\0\0\
    \x08\x01g\0\x01s\0\0\
    \x11\0\0\0name has no owner\0";

const LITTLE_SERVICE_UNKNOWN: [u8; 140] = *b"\
    l\x03\x01\x01\x14\0\0\0\0\0\0\0\x67\0\0\0\
    \x04\x01s\0\x29\0\0\0org.freedesktop.DBus.Error.ServiceUnknown\0\0\0\0\0\0\0\x05\x01u\0\0\0\0\0\
    \x07\x01s\0\x14\0\0\0org.freedesktop.DBus\0\0\0\0\
    \x08\x01g\0\x01s\0\0\
    \x0f\0\0\0service unknown\0";

const LITTLE_FALSE: [u8; 68] = *b"\
    l\x02\x01\x01\x04\0\0\0\0\0\0\0\x2f\0\0\0\
    \x05\x01u\0\0\0\0\0\
    \x07\x01s\0\x14\0\0\0org.freedesktop.DBus\0\0\0\0\
    \x08\x01g\0\x01b\0\0\
    \0\0\0\0";

const BIG_ACCESS_DENIED: [u8; 140] = *b"\
    B\x03\x01\x01\0\0\0\x1c\0\0\0\0\0\0\0\x5f\
    \x04\x01s\0\0\0\0\x27org.freedesktop.DBus.Error.AccessDenied\0\x05\x01u\0\0\0\0\0\
    \x07\x01s\0\0\0\0\x14org.freedesktop.DBus\0\0\0\0\
    \x08\x01g\0\x01s\0\0\
    \0\0\0\x17access denied by policy\0";

const BIG_NAME_HAS_NO_OWNER: [u8; 142] = *b"\
    B\x03\x01\x01\0\0\0\x16\0\0\0\0\0\0\0\x67\
    \x04\x01s\0\0\0\0\x29org.freedesktop.DBus.Error.NameHasNoOwner\0\0\0\0\0\0\0\x05\x01u\0\0\0\0\0\
    \x07\x01s\0\0\0\0\x14org.freedesktop.DBus\0\0\0\0\
    \x08\x01g\0\x01s\0\0\
    \0\0\0\x11name has no owner\0";

const BIG_SERVICE_UNKNOWN: [u8; 140] = *b"\
    B\x03\x01\x01\0\0\0\x14\0\0\0\0\0\0\0\x67\
    \x04\x01s\0\0\0\0\x29org.freedesktop.DBus.Error.ServiceUnknown\0\0\0\0\0\0\0\x05\x01u\0\0\0\0\0\
    \x07\x01s\0\0\0\0\x14org.freedesktop.DBus\0\0\0\0\
    \x08\x01g\0\x01s\0\0\
    \0\0\0\x0fservice unknown\0";

const BIG_FALSE: [u8; 68] = *b"\
    B\x02\x01\x01\0\0\0\x04\0\0\0\0\0\0\0\x2f\
    \x05\x01u\0\0\0\0\0\
    \x07\x01s\0\0\0\0\x14org.freedesktop.DBus\0\0\0\0\
    \x08\x01g\0\x01b\0\0\
    \0\0\0\0";

/// An answer with 0 as its serial and its REPLY_SERIAL, and the place of REPLY_SERIAL's number.
#[derive(Clone, Copy)]
struct Template {
    bytes: &'static [u8],
    reply_serial_place: usize,
    ghost short: { length bytes.now ≤ LONGEST },
    ghost behind_serial: { SERIAL_PLACE + 4 ≤ reply_serial_place },
    ghost inside: { reply_serial_place + 4 ≤ length bytes.now },
}

impl Template {
    fn new(bytes: &'static [u8], reply_serial_place: usize) -> Template
        requires short { length bytes.now ≤ LONGEST }
        requires behind_serial { SERIAL_PLACE + 4 ≤ reply_serial_place }
        requires inside { reply_serial_place + 4 ≤ length bytes.now }
        ensures bytes { result.bytes.now ≡ bytes.now }
        ensures place { result.reply_serial_place ≡ reply_serial_place }
    {
        Template {
            bytes,
            reply_serial_place,
        }
    }
}

/// The answer of a kind in a byte order.
fn template_of(order: Order, what: Instead) -> Template
    ensures { (reply serial : ℕ) → with_number order result.reply_serial_place reply (with_number order SERIAL_PLACE serial result.bytes.now) ≡ spell (in_place order reply serial what) }
{
    match (order, what) {
        (Order::Little, Instead::AccessDenied) => Template::new(&LITTLE_ACCESS_DENIED, 68),
        (Order::Little, Instead::NameHasNoOwner) => Template::new(&LITTLE_NAME_HAS_NO_OWNER, 76),
        (Order::Little, Instead::ServiceUnknown) => Template::new(&LITTLE_SERVICE_UNKNOWN, 76),
        (Order::Little, Instead::False) => Template::new(&LITTLE_FALSE, 20),
        (Order::Big, Instead::AccessDenied) => Template::new(&BIG_ACCESS_DENIED, 68),
        (Order::Big, Instead::NameHasNoOwner) => Template::new(&BIG_NAME_HAS_NO_OWNER, 76),
        (Order::Big, Instead::ServiceUnknown) => Template::new(&BIG_SERVICE_UNKNOWN, 76),
        (Order::Big, Instead::False) => Template::new(&BIG_FALSE, 20),
    }
}

/// The bytes of an answer to a refused call.
#[derive(Debug, Drop)]
pub struct AnswerInPlace {
    bytes: [u8; LONGEST],
    len: usize,
}

impl Model for AnswerInPlace {
    ghost use Rattle.std.specs.Prelude.{◌≤◌, ℕ, List, take};
    ghost use Rattle.ping_rewrite.specs.declared.answers.TheConstants.{LONGEST};

    ghost Value = { List ℕ };

    ghost view = { λ a. take a.len a.bytes };

    ghost invariant = { λ a. a.len ≤ LONGEST };
}

impl AnswerInPlace {
    fn new(bytes: &[u8]) -> AnswerInPlace
        requires { length bytes.now ≤ LONGEST }
        ensures { result ≡ bytes.now }
    {
        let len = bytes.len();
        let mut room = [0; LONGEST];
        room[..len].copy_from_slice(bytes);
        AnswerInPlace { bytes: room, len }
    }

    /// Writes a number of four bytes at a place.
    fn write(&mut self, order: Order, place: usize, number: u32)
        requires { place + 4 ≤ length self.old }
        ensures { self.new ≡ with_number order place number self.old }
    {
        write_u32(order, &mut self.bytes[..self.len], place, number);
    }

    /// All of the bytes.
    pub fn as_slice(&self) -> &[u8]
        ensures { result.now ≡ self.now }
    {
        &self.bytes[..self.len]
    }
}

/// The answer to a refused call, in the call's byte order. `reply_serial` is the call's serial, and `serial` that of
/// the bus's answer to the ping.
pub fn answer_in_place(order: Order, reply_serial: u32, serial: u32, what: Instead) -> AnswerInPlace
    ensures { result ≡ spell (in_place order reply_serial serial what) }
{
    let template = template_of(order, what);
    let mut answer = AnswerInPlace::new(template.bytes);
    answer.write(order, SERIAL_PLACE, serial);
    answer.write(order, template.reply_serial_place, reply_serial);
    answer
}
