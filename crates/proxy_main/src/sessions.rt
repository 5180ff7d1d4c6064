//! The tools on the sessions of a recording: one of them as a recording of its own, and a list of all.
ghost use Rattle.std.specs.Prelude.{◌≡◌, ◌++◌, ℕ, List, Option, Some, IfErr, IfOk, OnOk};
ghost use Rattle.link_traits.specs.Views.{FilesRose, SinkRose};
ghost use Rattle.recording.specs.SessionsSeen.{IsReadable, sessions_seen};
ghost use Rattle.session_files.specs.OneSession.{IsOfFile};
ghost use Rattle.proxy_main.specs.Words.{Command, ListSessions, Session};
ghost use Rattle.proxy_main.specs.Answers.{Agrees, IsSettled, answer_to, extracting, listed};
ghost use Rattle.proxy_main.specs.FilesRead.{paths_of, policies_of, needed, ReadUntil, ReadsNeeded, StopsWork};
ghost use Rattle.proxy_main.specs.Loads.{StopsBy, CausedBy, Keeps, IsDone, IsSession};

use crate::files::load_sessions;
use crate::messages::write_bytes;
use crate::{Refusal, Status, Stop};
use link_traits::{Files, Sink};
use recording::Sessions;
use session_files::{listing, session_file};
use std::alloc::Global;

/// Reads a recording, and writes the recording of one of its sessions. It has no log.
pub fn work_session<'a, F: Files, O: Sink>(
    alloc: Global,
    recording: &'a str,
    number: u64,
    files: &mut F,
    out: &mut O,
) -> Result<Status, Stop<'a>>
    ensures done { IfOk result (λ status. IsDone (answer_to (F.view files.old).told (Some (Session recording.now number))) (O.view out.old).told (O.view out.new).told status.code) }
    ensures end { IfOk result (λ status. status.code ≡ 0) }
    ensures stops { IfErr result (λ stop. StopsBy (F.view files.old).told (Some (Session recording.now number)) stop) }
    ensures cause { IfErr result (λ stop. CausedBy (FilesRose (F.view files.old) (F.view files.new)) (SinkRose (O.view out.old) (O.view out.new)) ⊥ stop) }
    ensures keeps { IfErr result (λ stop. Keeps (answer_to (F.view files.old).told (Some (Session recording.now number))) (O.view out.old).told (O.view out.new).told stop) }
    ensures read { OnOk result ((F.view files.new).reads ≡ (F.view files.old).reads ++ paths_of (Some (Session recording.now number))) }
    ensures until { IfErr result (ReadUntil (policies_of (Some (Session recording.now number))) (paths_of (Some (Session recording.now number))) (F.view files.old).reads (F.view files.new).reads) }
    ensures needed { ReadsNeeded (IsSettled (answer_to (F.view files.old).told (Some (Session recording.now number)))) (needed (F.view files.old).told (Some (Session recording.now number))) (F.view files.old).reads (F.view files.new).reads result }
{
    match load_sessions(alloc, files, recording) {
        Ok(sessions) => write_session(alloc, &sessions, number, out),
        Err(stop) => Err(stop),
    }
}

/// Writes the recording of the session of a number, if there is one.
fn write_session<'a, O: Sink>(
    alloc: Global,
    sessions: &Sessions,
    number: u64,
    out: &mut O,
) -> Result<Status, Stop<'a>>
    requires { IsOfFile (sessions_seen sessions.now) }
    ensures done { IfOk result (λ status. IsDone (extracting number (sessions_seen sessions.now)) (O.view out.old).told (O.view out.new).told status.code) }
    ensures end { IfOk result (λ status. status.code ≡ 0) }
    ensures stops { IfErr result (λ stop. (told : List ℕ → Option (List ℕ)) (command : Option Command) → Agrees (answer_to told command) (extracting number (sessions_seen sessions.now)) → IsSession command → StopsBy told command stop) }
    ensures cause { IfErr result (λ stop. CausedBy ⊥ (SinkRose (O.view out.old) (O.view out.new)) ⊥ stop) }
    ensures keeps { IfErr result (λ stop. Keeps (extracting number (sessions_seen sessions.now)) (O.view out.old).told (O.view out.new).told stop) }
    ensures work { IfErr result StopsWork }
{
    match session_file(alloc, sessions, number) {
        Ok(Some(file)) => write_bytes(file.as_slice(), out),
        Ok(None) => Err(Stop::Refused(Refusal::NoSuchSession)),
        Err(_) => Err(Stop::Memory),
    }
}

/// Reads a recording, and lists its sessions. It has no log.
pub fn work_sessions<'a, F: Files, O: Sink>(
    alloc: Global,
    recording: &'a str,
    files: &mut F,
    out: &mut O,
) -> Result<Status, Stop<'a>>
    ensures done { IfOk result (λ status. IsDone (answer_to (F.view files.old).told (Some (ListSessions recording.now))) (O.view out.old).told (O.view out.new).told status.code) }
    ensures end { IfOk result (λ status. status.code ≡ 0) }
    ensures stops { IfErr result (λ stop. StopsBy (F.view files.old).told (Some (ListSessions recording.now)) stop) }
    ensures cause { IfErr result (λ stop. CausedBy (FilesRose (F.view files.old) (F.view files.new)) (SinkRose (O.view out.old) (O.view out.new)) ⊥ stop) }
    ensures keeps { IfErr result (λ stop. Keeps (answer_to (F.view files.old).told (Some (ListSessions recording.now))) (O.view out.old).told (O.view out.new).told stop) }
    ensures read { OnOk result ((F.view files.new).reads ≡ (F.view files.old).reads ++ paths_of (Some (ListSessions recording.now))) }
    ensures until { IfErr result (ReadUntil (policies_of (Some (ListSessions recording.now))) (paths_of (Some (ListSessions recording.now))) (F.view files.old).reads (F.view files.new).reads) }
    ensures needed { ReadsNeeded (IsSettled (answer_to (F.view files.old).told (Some (ListSessions recording.now)))) (needed (F.view files.old).told (Some (ListSessions recording.now))) (F.view files.old).reads (F.view files.new).reads result }
{
    match load_sessions(alloc, files, recording) {
        Ok(sessions) => write_listing(alloc, &sessions, out),
        Err(stop) => Err(stop),
    }
}

/// Writes a line for each session.
fn write_listing<'a, O: Sink>(
    alloc: Global,
    sessions: &Sessions,
    out: &mut O,
) -> Result<Status, Stop<'a>>
    requires { IsReadable (sessions_seen sessions.now) }
    ensures done { IfOk result (λ status. IsDone (listed (sessions_seen sessions.now)) (O.view out.old).told (O.view out.new).told status.code) }
    ensures end { IfOk result (λ status. status.code ≡ 0) }
    ensures stops { IfErr result (λ stop. (told : List ℕ → Option (List ℕ)) (command : Option Command) → Agrees (answer_to told command) (listed (sessions_seen sessions.now)) → StopsBy told command stop) }
    ensures cause { IfErr result (λ stop. CausedBy ⊥ (SinkRose (O.view out.old) (O.view out.new)) ⊥ stop) }
    ensures keeps { IfErr result (λ stop. Keeps (listed (sessions_seen sessions.now)) (O.view out.old).told (O.view out.new).told stop) }
    ensures work { IfErr result StopsWork }
{
    match listing(alloc, sessions) {
        Ok(text) => write_bytes(text.as_bytes(), out),
        Err(_) => Err(Stop::Memory),
    }
}
