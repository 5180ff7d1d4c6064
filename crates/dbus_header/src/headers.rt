//! Headers that were read. An equal header is then read without a walk over its fields.
ghost use Rattle.std.specs.Prelude.{◌≡◌, ◌==◌, ◌+◌, true, false, IfSome, length};
ghost use Rattle.dbus_header.specs.Message.{body_place};
ghost use Rattle.dbus_header.specs.KnownHeaders.{AreKnown, AreAlike, AreRead, AreWithin, found_at};

use crate::head::read_u32;
use crate::spans::Places;
use dbus_values::Order;
use std::alloc::Global;

/// The header fields of a message that was read, or none.
#[derive(Drop)]
pub(crate) struct KnownHeader {
    /// The number of messages that had been read when it was used last.
    pub(crate) used: u64,
    order: Order,
    fields_len: u32,
    /// The bytes of the fields and of the padding after them.
    bytes: Vec<u8>,
    pub(crate) places: Places,
    ghost known: { (length bytes.items == 0) ≡ false → AreKnown order fields_len bytes.items places },
}

impl KnownHeader {
    /// No header. It allocates nothing.
    pub(crate) fn none(alloc: Global) -> KnownHeader {
        KnownHeader {
            used: 0,
            order: Order::Little,
            fields_len: 0,
            bytes: Vec::new(alloc),
            places: Places::none(),
        }
    }

    /// Whether these bytes equal the kept ones except for REPLY_SERIAL's number, which isn't 0.
    fn is_alike(&self, bytes: &[u8]) -> bool
        requires known { AreKnown self.now.order self.now.fields_len self.now.bytes.items self.now.places }
        requires len { length bytes.now ≡ length self.now.bytes.items }
        ensures { result ≡ true → AreAlike self.now.order self.now.places.reply_serial self.now.bytes.items bytes.now }
    {
        let kept = self.bytes.as_slice();
        let Some(at) = self.places.reply_serial else {
            return kept == bytes;
        };
        let at = at as usize;
        let (kept_front, kept_rest) = kept.split_at(at);
        let (front, rest) = bytes.split_at(at);
        let (_, kept_back) = kept_rest.split_at(4);
        let (_, back) = rest.split_at(4);
        if kept_front != front {
            return false;
        }
        if kept_back != back {
            return false;
        }
        read_u32(self.order, bytes, at) > 0
    }

    /// Whether these header fields equal the kept ones except for REPLY_SERIAL's number.
    fn is_header(&self, order: Order, fields_len: u32, bytes: &[u8]) -> bool
        requires { length bytes.now + 16 ≡ body_place fields_len }
        ensures order { result ≡ true → self.now.order ≡ order }
        ensures len { result ≡ true → self.now.fields_len ≡ fields_len }
        ensures some { result ≡ true → (length self.now.bytes.items == 0) ≡ false }
        ensures alike { result ≡ true → AreAlike self.now.order self.now.places.reply_serial self.now.bytes.items bytes.now }
    {
        self.order == order
            && self.fields_len == fields_len
            && !self.bytes.is_empty()
            && self.is_alike(bytes)
    }

    /// Whether these header fields equal the kept ones except for REPLY_SERIAL's number. If so, their parts have the
    /// same places.
    pub(crate) fn has(&self, order: Order, fields_len: u32, bytes: &[u8]) -> bool
        requires { length bytes.now + 16 ≡ body_place fields_len }
        ensures within { result ≡ true → AreWithin bytes.now self.now.places }
        ensures read { result ≡ true → AreRead order fields_len bytes.now (found_at order bytes.now self.now.places) }
    {
        self.is_header(order, fields_len, bytes)
    }

    /// Keeps header fields that were read, unless memory is short.
    pub(crate) fn keep(
        &mut self,
        read: u64,
        order: Order,
        fields_len: u32,
        bytes: &[u8],
        places: &Places,
    )
        requires { AreKnown order fields_len bytes.now places.now }
    {
        self.bytes.clear();
        self.used = read;
        self.order = order;
        self.fields_len = fields_len;
        self.places = *places;
        let _kept = self.bytes.extend_from_slice(bytes);
    }
}
