//! What is gathered from the notes of recordings.
//!
//! Each recording is played by a job of its own, and the jobs may be done in parallel. A job takes the notes of its
//! recording as they come and keeps none of them.
#![tactic(auto)]

ghost use Rattle.std.specs.Prelude.{◌≡◌, ◌++◌, ◌∷◌, List, [], IfOk, OnOk};
ghost use Rattle.std.specs.List.{AllZip};
ghost use Rattle.policy_args.specs.Seen.{options_seen};
ghost use Rattle.policy_view.specs.Notes.{Note as NoteValue};
ghost use Rattle.recording.specs.Seen.{recording_seen};
ghost use Rattle.replay.specs.PlayedNotes.{GaveNotes, notes_under};

use audit_pool::{Job, answers};
use link_traits::Gate;
use policy_args::Options;
use policy_view::Note;
use recording::Recording;
use replay::PlayedNotes;
use std::alloc::{AllocError, Global};
use std::thread::Threads;

/// What is gathered from notes.
pub trait Gatherer {
    /// What was gathered so far.
    type Gathered: Drop;

    // What may have been gathered from these notes, which came in this order.
    ghost stands_for: { Self → List NoteValue → Self.Gathered → Type 0 };

    /// Nothing was gathered yet.
    fn start(&self, alloc: Global) -> Result<Self::Gathered, AllocError>
        ensures { IfOk result (stands_for self.now []) };

    /// Takes one more note.
    fn take(
        &self,
        alloc: Global,
        gathered: &mut Self::Gathered,
        note: &Note,
    ) -> Result<(), AllocError>
        ensures { (notes : List NoteValue) → stands_for self.now notes gathered.old → OnOk result (stands_for self.now (notes ++ note.now ∷ []) gathered.new) };
}

/// Takes the notes of a recording as they come, after what was gathered so far: nothing.
fn take_all<G: Gatherer>(
    alloc: Global,
    gather: &G,
    options: &Options,
    recording: &Recording,
    played: &mut PlayedNotes,
    gathered: &mut G::Gathered,
) -> Result<(), AllocError>
    requires unplayed { GaveNotes (options_seen options.now) (recording_seen recording.now) played.old [] }
    requires none { G.stands_for gather.now [] gathered.old }
    ensures { OnOk result (G.stands_for gather.now (notes_under (options_seen options.now) (recording_seen recording.now)) gathered.new) }
{
    for _item in 0..u64::MAX {
        match played.next_note(options, recording)? {
            Some(note) => gather.take(alloc, gathered, &note)?,
            None => return Ok(()),
        }
    }
    Err(AllocError)
}

/// Gathers from the notes of a recording of which nothing was played yet.
fn gathered_from<G: Gatherer>(
    alloc: Global,
    gather: &G,
    options: &Options,
    recording: &Recording,
    played: &mut PlayedNotes,
) -> Result<G::Gathered, AllocError>
    requires { GaveNotes (options_seen options.now) (recording_seen recording.now) played.old [] }
    ensures { IfOk result (G.stands_for gather.now (notes_under (options_seen options.now) (recording_seen recording.now))) }
{
    let mut gathered = gather.start(alloc)?;
    take_all(alloc, gather, options, recording, played, &mut gathered)?;
    Ok(gathered)
}

/// Plays a recording under the options, and gathers from its notes as they come.
fn gathered_of<G: Gatherer>(
    alloc: Global,
    gather: &G,
    options: &Options,
    recording: &Recording,
) -> Result<G::Gathered, AllocError>
    ensures { IfOk result (G.stands_for gather.now (notes_under (options_seen options.now) (recording_seen recording.now))) }
{
    let mut played = PlayedNotes::new(alloc, options, recording)?;
    gathered_from(alloc, gather, options, recording, &mut played)
}

/// The job that plays a recording and gathers from its notes.
#[derive(Drop)]
struct RecordingJob<'a, T, G> {
    gate: &'a T,
    alloc: Global,
    gather: &'a G,
    options: &'a Options,
    recording: &'a Recording,
    /// The recording's number, from 1.
    number: u32,
}

impl<'a, T: Gate + Sync, G: Gatherer + Sync> Job for RecordingJob<'a, T, G>
where
    G::Gathered: Send,
{
    type Answer = G::Gathered;

    ghost allows = { λ job answer. G.stands_for job.gather.now (notes_under (options_seen job.options.now) (recording_seen job.recording.now)) answer };

    fn answer(&self) -> Result<G::Gathered, AllocError> {
        self.gate.enter(self.number);
        gathered_of(self.alloc, self.gather, self.options, self.recording)
    }
}

/// The jobs of recordings, in their order.
fn jobs_of<'a, T: Gate + Sync, G: Gatherer + Sync>(
    gate: &'a T,
    alloc: Global,
    gather: &'a G,
    options: &'a Options,
    recordings: &'a [Recording],
) -> Result<Vec<RecordingJob<'a, T, G>>, AllocError>
    ensures { IfOk result (λ jobs. AllZip (λ recording job. (job.gather.now ≡ gather.entry.now) × (job.options.now ≡ options.entry.now) × (job.recording.now ≡ recording)) recordings.entry.now jobs.items) }
{
    let mut jobs = Vec::with_capacity(alloc, recordings.len())?;
    let mut number: u32 = 0;
    for recording in recordings {
        number = match number.checked_add(1) {
            Some(next) => next,
            None => return Err(AllocError),
        };
        jobs.push(RecordingJob {
            gate,
            alloc,
            gather,
            options,
            recording,
            number,
        })?;
    }
    Ok(jobs)
}

/// What is gathered from the notes of each recording under the options, in the order of the recordings. Each is played
/// by a job, which enters the gate with the number of the recording, from 1, before it begins. Refused if memory is
/// refused, also to a session.
pub fn gather<R: Threads + Sync, T: Gate + Sync, G: Gatherer + Sync>(
    rt: &R,
    gate: &T,
    alloc: Global,
    gather: &G,
    options: &Options,
    recordings: &[Recording],
) -> Result<Vec<G::Gathered>, AllocError>
where
    G::Gathered: Send,
    ensures { IfOk result (λ all. AllZip (λ recording gathered. G.stands_for gather.now (notes_under (options_seen options.now) (recording_seen recording)) gathered) recordings.now all.items) }
{
    let jobs = jobs_of(gate, alloc, gather, options, recordings)?;
    answers(rt, alloc, &jobs)
}
