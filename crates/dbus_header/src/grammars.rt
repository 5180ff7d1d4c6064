//! The grammars of the texts in header fields, and the texts and headers of earlier messages that are kept.
ghost use Rattle.std.specs.Prelude.{◌≡◌, ◌≢◌, ◌==◌, ◌||◌, ◌+◌, ◌<◌, true, false, Some, None, is_none, IfSome, option_map, length, if◌then◌else◌};
ghost use Rattle.dbus_types.specs.Signature.{signature_fault};
ghost use Rattle.dbus_header.specs.HeaderReading.{is_text_of as is_value_text, is_sound_of};
ghost use Rattle.dbus_header.specs.KnownHeaders.{AreRead, AreWithin, found_at};
ghost use Rattle.dbus_header.specs.Message.{body_place};

use crate::fields::{DESTINATION, ERROR_NAME, INTERFACE, MEMBER, PATH, SENDER, SIGNATURE};
use crate::headers::KnownHeader;
use crate::spans::Places;
use dbus_names::{is_bus_name, is_error_name, is_interface, is_member, is_path};
use dbus_types::Signature;
use dbus_values::Order;
use std::alloc::Global;

/// No longer text is kept. Only a path may be longer (D-Bus Specification, "Valid Names").
const LONGEST_KEPT: usize = 255;

/// A header with more bytes of fields isn't kept. Those of a desktop's messages have 100 to 250.
const LONGEST_HEADER: usize = 512;

/// The number of headers that a stream keeps.
const HEADERS_KEPT: usize = 4;

/// Once the unknown headers outnumber the known ones by this number, only every eighth message's header is looked up
/// and kept, so that a stream whose headers all differ is hardly slower.
const MISSES: u8 = 16;

/// The number of messages that are read before a text or a header is kept. A stream of few messages keeps none.
const OFTEN: u64 = 64;

/// Whether a text is in the grammar of the field with this code.
fn is_in_grammar(code: u8, text: &[u8]) -> bool
    requires { code ≢ 8 }
    ensures { result ≡ is_value_text code text.now }
{
    match code {
        PATH => is_path(text),
        INTERFACE => is_interface(text),
        MEMBER => is_member(text),
        ERROR_NAME => is_error_name(text),
        DESTINATION => is_bus_name(text),
        SENDER => is_bus_name(text),
        _ => false,
    }
}

/// A text that is in the grammar of the field with this code, or none.
#[derive(Drop)]
struct KnownText {
    code: u8,
    text: Vec<u8>,
    ghost sound: { (length text.items == 0 || is_sound_of code text.items) ≡ true },
}

impl KnownText {
    /// No text. It allocates nothing.
    fn none(alloc: Global) -> KnownText {
        KnownText {
            code: 0,
            text: Vec::new(alloc),
        }
    }

    /// Whether this is the kept text of the field with this code. If it is, it is in the field's grammar.
    fn is(&self, code: u8, text: &[u8]) -> bool
        ensures { result ≡ true → is_sound_of code text.now ≡ true }
    {
        self.code == code && !self.text.is_empty() && self.text.as_slice() == text
    }

    /// Keeps a text that is in the grammar of the field with this code, unless it is too long or memory is short.
    fn keep(&mut self, code: u8, text: &[u8])
        requires { is_sound_of code text.now ≡ true }
    {
        if text.len() > LONGEST_KEPT {
            return;
        }
        self.text.clear();
        self.code = code;
        let _kept = self.text.extend_from_slice(text);
    }
}

/// The texts and the headers that are kept of a stream. They allocate nothing until many messages were read.
#[derive(Drop)]
struct Kept {
    /// The last text of each field, by the fields' codes.
    texts: Vec<KnownText>,
    /// The headers of the kinds of messages that were read last.
    headers: Vec<KnownHeader>,
    /// The number of messages that were read.
    read: u64,
    /// By how many the unknown headers outnumber the known ones, from 0 to [`MISSES`].
    missed: u8,
    alloc: Global,
}

impl Kept {
    /// Whether this is the kept text of the field with this code.
    fn has(&self, code: u8, text: &[u8]) -> bool
        ensures { result ≡ true → is_sound_of code text.now ≡ true }
    {
        match self.texts.get(code as usize) {
            Some(known) => known.is(code, text),
            None => false,
        }
    }

    /// Keeps a text that is in the grammar of the field with this code, if many messages were read and memory is left.
    fn keep(&mut self, code: u8, text: &[u8])
        requires { is_sound_of code text.now ≡ true }
    {
        if self.read <= OFTEN {
            return;
        }
        let place = code as usize;
        let alloc = self.alloc;
        if self.texts.len() <= place {
            let _made = self.texts.resize_with(place + 1, || KnownText::none(alloc));
        }
        if let Some(known) = self.texts.get_mut(place) {
            known.keep(code, text);
        }
    }

    /// Whether the header of the current message is looked up and kept.
    fn is_turn(&self) -> bool {
        self.read > OFTEN && (self.missed < MISSES || self.read % 8 == 0)
    }

    /// Counts a message.
    fn count(&mut self) {
        self.read = self.read.wrapping_add(1);
    }

    /// The places of the parts of these header fields, if a kept header has them.
    fn places(&mut self, order: Order, fields_len: u32, bytes: &[u8]) -> Option<&Places>
        requires { length bytes.now + 16 ≡ body_place fields_len }
        ensures within { IfSome result (λ p. AreWithin bytes.now p.now) }
        ensures read { IfSome result (λ p. AreRead order fields_len bytes.now (found_at order bytes.now p.now)) }
    {
        if !self.is_turn() {
            return None;
        }
        let read = self.read;
        for place in 0..self.headers.len() {
            if self.headers[place].has(order, fields_len, bytes) {
                self.missed = self.missed.saturating_sub(1);
                let header = &mut self.headers[place];
                header.used = read;
                return Some(&header.places);
            }
        }
        self.missed = self.missed.saturating_add(1).min(MISSES);
        None
    }

    /// Answers as `places` does, without counting hits and misses.
    fn find(&self, order: Order, fields_len: u32, bytes: &[u8]) -> Option<&Places>
        requires { length bytes.now + 16 ≡ body_place fields_len }
        ensures within { IfSome result (λ p. AreWithin bytes.now p.now) }
        ensures read { IfSome result (λ p. AreRead order fields_len bytes.now (found_at order bytes.now p.now)) }
    {
        for header in &self.headers {
            if header.has(order, fields_len, bytes) {
                return Some(&header.places);
            }
        }
        None
    }

    /// The place of the header that wasn't used for the longest time.
    fn oldest(&self) -> usize
        requires { 0 < length self.now.headers.items }
        ensures { result < length self.now.headers.items }
    {
        let mut oldest = 0;
        for place in 1..self.headers.len() {
            if self.headers[place].used < self.headers[oldest].used {
                oldest = place;
            }
        }
        oldest
    }

    /// The place in which the next header is kept, if memory is left.
    fn place(&mut self) -> Option<usize>
        ensures { IfSome result (λ place. place < length self.new.headers.items) }
    {
        if self.headers.len() < HEADERS_KEPT {
            let header = KnownHeader::none(self.alloc);
            if self.headers.push(header).is_err() {
                return None;
            }
            return Some(self.headers.len() - 1);
        }
        Some(self.oldest())
    }

    /// Keeps the header fields of a message that was read, if many were read and memory is left.
    fn keep_header(&mut self, order: Order, fields_len: u32, bytes: &[u8], places: &Places)
        requires read { AreRead order fields_len bytes.now (found_at order bytes.now places.now) }
        requires len { length bytes.now + 16 ≡ body_place fields_len }
        requires within { AreWithin bytes.now places.now }
    {
        // (no part of a header overlaps its REPLY_SERIAL's number, which isn't proved)
        if bytes.len() > LONGEST_HEADER || !self.is_turn() || !places.are_apart() {
            return;
        }
        let Some(place) = self.place() else {
            return;
        };
        self.headers[place].keep(self.read, order, fields_len, bytes, places);
    }
}

/// What is kept of a stream's earlier messages: the headers of the last four kinds, and the last text of each field. If
/// a message's header equals a kept one except for its reply serial, its parts are found at the same places. In any
/// other header, each text is compared with the last one of its field, and is checked only if it differs.
#[derive(Drop)]
pub struct KnownTexts {
    kept: Option<Kept>,
}

impl KnownTexts {
    /// Nothing is known yet; what is read is kept.
    pub fn new(alloc: Global) -> KnownTexts {
        KnownTexts {
            kept: Some(Kept {
                texts: Vec::new(alloc),
                headers: Vec::new(alloc),
                read: 0,
                missed: 0,
                alloc,
            }),
        }
    }

    /// Nothing is known and nothing is kept: for a message that is read alone.
    pub fn none() -> KnownTexts {
        KnownTexts { kept: None }
    }

    /// Whether this is the kept text of the field with this code.
    fn is_known(&self, code: u8, text: &[u8]) -> bool
        ensures { result ≡ true → is_sound_of code text.now ≡ true }
    {
        match &self.kept {
            Some(kept) => kept.has(code, text),
            None => false,
        }
    }

    /// Keeps a text that is in the grammar of the field with this code, if texts are kept.
    fn keep(&mut self, code: u8, text: &[u8])
        requires { is_sound_of code text.now ≡ true }
    {
        if let Some(kept) = &mut self.kept {
            kept.keep(code, text);
        }
    }

    /// The places of the parts of these header fields, if a known header has them.
    pub(crate) fn places(&mut self, order: Order, fields_len: u32, bytes: &[u8]) -> Option<&Places>
        requires { length bytes.now + 16 ≡ body_place fields_len }
        ensures within { IfSome result (λ p. AreWithin bytes.now p.now) }
        ensures read { IfSome result (λ p. AreRead order fields_len bytes.now (found_at order bytes.now p.now)) }
    {
        match &mut self.kept {
            Some(kept) => {
                kept.count();
                kept.places(order, fields_len, bytes)
            }
            None => None,
        }
    }

    /// Answers as `places` does, without counting hits and misses.
    pub(crate) fn find(&self, order: Order, fields_len: u32, bytes: &[u8]) -> Option<&Places>
        requires { length bytes.now + 16 ≡ body_place fields_len }
        ensures within { IfSome result (λ p. AreWithin bytes.now p.now) }
        ensures read { IfSome result (λ p. AreRead order fields_len bytes.now (found_at order bytes.now p.now)) }
    {
        match &self.kept {
            Some(kept) => kept.find(order, fields_len, bytes),
            None => None,
        }
    }

    /// Keeps the header fields of a message that was read, if headers are kept.
    pub(crate) fn keep_header(
        &mut self,
        order: Order,
        fields_len: u32,
        bytes: &[u8],
        places: &Places,
    )
        requires read { AreRead order fields_len bytes.now (found_at order bytes.now places.now) }
        requires len { length bytes.now + 16 ≡ body_place fields_len }
        requires within { AreWithin bytes.now places.now }
    {
        if let Some(kept) = &mut self.kept {
            kept.keep_header(order, fields_len, bytes, places);
        }
    }

    /// Whether a text is in the grammar of the field with this code.
    pub(crate) fn is_text_of(&mut self, code: u8, text: &[u8]) -> bool
        requires { code ≢ 8 }
        ensures { result ≡ is_value_text code text.now }
    {
        if self.is_known(code, text) {
            return true;
        }
        let is_text = is_in_grammar(code, text);
        if is_text {
            self.keep(code, text);
        }
        is_text
    }

    /// The signature that these bytes spell, if they spell one.
    pub(crate) fn signature<'a>(&mut self, text: &'a [u8]) -> Option<Signature<'a>>
        ensures { option_map (λ s. s.bytes.now) result ≡ (if is_none (signature_fault text.now) then Some text.now else None) }
    {
        if self.is_known(SIGNATURE, text) {
            return Some(Signature { bytes: text });
        }
        let signature = Signature::read(text).ok();
        if signature.is_some() {
            self.keep(SIGNATURE, text);
        }
        signature
    }
}
