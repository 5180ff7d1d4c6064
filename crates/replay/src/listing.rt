//! The notes of a recording's messages.
ghost use Rattle.std.specs.Prelude.{◌≡◌, ◌++◌, IfOk};
ghost use Rattle.policy_view.specs.Notes.{Note as NoteValue};

use policy_view::Note;
use proxy_core::Session;
use std::alloc::{AllocError, Global};
use std::marker::Model;

/// Notes, in the order of their messages.
#[derive(Drop)]
pub struct NoteList {
    notes: Vec<Note>,
}

impl Model for NoteList {
    ghost use Rattle.std.specs.Prelude.{List};
    ghost use Rattle.std.specs.Coded.{coded_list};
    ghost use Rattle.policy_view.specs.Notes.{Note as NoteValue};

    ghost Value = { List NoteValue };

    ghost view = { λ list. list.notes.items };
}

impl NoteList {
    /// The list of these notes.
    pub fn new(notes: Vec<Note>) -> NoteList
        ensures { result ≡ notes.items }
    {
        NoteList { notes }
    }

    /// The notes, lent.
    pub fn as_slice(&self) -> &[Note]
        ensures { result.now ≡ self.now }
    {
        &self.notes
    }
}

/// All notes that wait.
pub fn waiting_notes(alloc: Global, session: &mut Session) -> Result<NoteList, AllocError>
    ensures { IfOk result (λ list. list ≡ session.old.notes) }
{
    let mut notes = Vec::new(alloc);
    while let Some(note) = session.next_note() {
        notes.push(note)?;
    }
    Ok(NoteList::new(notes))
}
