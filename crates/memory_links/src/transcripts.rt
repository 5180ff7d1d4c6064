//! The journal of a net in memory.
ghost use Rattle.std.specs.Prelude.{◌≡◌, ◌≤◌, ◌<◌, ◌-◌, [], ◌∷◌, length, true, false, IfOk};
ghost use Rattle.link_traits.specs.Journals.{written, written_by};
ghost use Rattle.memory_links.specs.Transcripts.{entry_of, bytes_of};

use link_traits::links::{Call, Link, Ready};
use link_traits::tables::is_same;
use std::alloc::{AllocError, Global};
use std::marker::Model;

/// The result of one call, without its path or its bytes.
#[derive(Clone, Copy)]
pub enum Note {
    Listened(u32),
    Ready(Ready),
    Accepted(u32, u32),
    Connected(u32),
    Read(Link),
    Finished(Link),
    Wrote(Link),
    NotReady(Call),
    Failed(Call),
    Refused(Call),
    Shut(Link),
}

/// A note, and the number of its bytes.
#[derive(Clone, Copy)]
pub struct Noted {
    pub note: Note,
    pub length: usize,
}

/// The notes of a net's calls, in the order of the calls, and their bytes one after another. Memory for both is taken
/// when it is made.
#[derive(Drop)]
pub struct Transcript {
    notes: Vec<Noted>,
    bytes: Vec<u8>,
    entries_left: usize,
    bytes_left: usize,
    tells: bool,
}

impl Model for Transcript {
    ghost use Rattle.std.specs.Prelude.{◌≡◌, ◌≤◌, ◌+◌, length, reverse, vec_len, vec_capacity};
    ghost use Rattle.memory_links.specs.Transcripts.{TranscriptView, entries_of, bytes_in};

    ghost Value = { TranscriptView };

    ghost view = { λ t. record { tells = t.tells; entries = reverse (entries_of t.notes.items t.bytes.items); entries_left = t.entries_left; bytes_left = t.bytes_left } };

    ghost invariant = { λ t. (bytes_in t.notes.items ≡ length t.bytes.items) × (vec_len t.notes + t.entries_left ≤ vec_capacity t.notes) × (vec_len t.bytes + t.bytes_left ≤ vec_capacity t.bytes) };
}

/// The bytes of a note that were written to a link.
fn written_part(link: Link, note: Note, bytes: &[u8]) -> &[u8]
    ensures { result.now ≡ written_by link (entry_of note bytes.now) }
{
    match note {
        Note::Wrote(at) => { if is_same(link, at) { bytes } else { &[] } }
        Note::Listened(_) => &[],
        Note::Ready(_) => &[],
        Note::Accepted(_, _) => &[],
        Note::Connected(_) => &[],
        Note::Read(_) => &[],
        Note::Finished(_) => &[],
        Note::NotReady(_) => &[],
        Note::Failed(_) => &[],
        Note::Refused(_) => &[],
        Note::Shut(_) => &[],
    }
}

impl Transcript {
    ghost use Rattle.memory_links.specs.Transcripts.{is_spent, ceased, with_entry};

    /// An empty transcript, with room for this number of entries and bytes. Memory for them is taken at once.
    pub fn new(alloc: Global, entries: usize, bytes: usize) -> Result<Transcript, AllocError>
        ensures { IfOk result (λ t. t ≡ record { tells = true; entries = []; entries_left = entries; bytes_left = bytes }) }
    {
        Ok(Transcript {
            notes: Vec::with_capacity(alloc, entries)?,
            bytes: Vec::with_capacity(alloc, bytes)?,
            entries_left: entries,
            bytes_left: bytes,
            tells: true,
        })
    }

    /// Whether there is no room for an entry, or for a byte.
    pub fn is_spent(&self) -> bool
        ensures { result ≡ is_spent self.now }
    {
        self.entries_left == 0 || self.bytes_left == 0
    }

    /// The number of entries for which there is room.
    pub fn entries_left(&self) -> usize
        ensures { result ≡ self.now.entries_left }
    {
        self.entries_left
    }

    /// The number of bytes for which there is room.
    pub fn bytes_left(&self) -> usize
        ensures { result ≡ self.now.bytes_left }
    {
        self.bytes_left
    }

    /// Ends the journal: it is no longer kept.
    pub fn cease(&mut self)
        ensures { self.new ≡ ceased self.old }
    {
        self.tells = false;
    }

    /// Adds the result of a call, which takes no memory.
    pub fn add(&mut self, note: Note, bytes: &[u8])
        requires entry { 0 < self.old.entries_left }
        requires bytes { length bytes.now ≤ self.old.bytes_left }
        requires own { bytes_of (entry_of note bytes.now) ≡ bytes.now }
        ensures { self.new ≡ with_entry (entry_of note bytes.now) self.old }
    {
        let length = bytes.len();
        let _ = self.notes.push(Noted { note, length });
        let _ = self.bytes.extend_from_slice(bytes);
        self.entries_left -= 1;
        self.bytes_left -= length;
    }

    /// All bytes that were written to a link.
    pub fn written(&self, alloc: Global, link: Link) -> Result<Vec<u8>, AllocError>
        ensures { IfOk result (λ v. v.items ≡ written link self.now.entries) }
    {
        let mut all = Vec::new(alloc);
        let mut rest = self.bytes.as_slice();
        for noted in &self.notes {
            let (bytes, after) = rest.split_at(noted.length);
            all.extend_from_slice(written_part(link, noted.note, bytes))?;
            rest = after;
        }
        Ok(all)
    }
}
