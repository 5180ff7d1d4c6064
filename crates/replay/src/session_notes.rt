//! The notes of many sessions, in the order in which the sessions made them.
ghost use Rattle.std.specs.Prelude.{◌≡◌, ◌++◌, [], List, OnOk, map};
ghost use Rattle.policy_args.specs.Policy.{Policy as PolicyValue};
ghost use Rattle.policy_view.specs.History.{Event as SessionEvent};
ghost use Rattle.proxy_core.specs.Sessions.{StandsFor, Taken};
ghost use Rattle.replay.specs.SessionsOutput.{in_session};

use policy_view::Note;
use proxy_core::Session;
use std::alloc::AllocError;

/// A note, and the number of the session that made it.
#[derive(Drop)]
pub struct SessionNote {
    pub session: u32,
    pub note: Note,
}

/// Takes the notes that wait in the session of a number, and puts them after the others.
pub fn take_notes(
    session: &mut Session,
    number: u32,
    notes: &mut Vec<SessionNote>,
) -> Result<(), AllocError>
    ensures taken { OnOk result (notes.new.items ≡ notes.old.items ++ map (in_session number) session.old.notes) }
    ensures session { OnOk result (session.new ≡ record session.old { notes = [] }) }
    ensures stands { OnOk result ((policy : PolicyValue) (events : List SessionEvent) (taken : Taken) → StandsFor policy session.old events taken → StandsFor policy session.new events (record taken { notes = taken.notes ++ session.old.notes })) }
{
    while let Some(note) = session.next_note() {
        notes.push(SessionNote {
            session: number,
            note,
        })?;
    }
    Ok(())
}
