//! The tools on one message: its text, and the message of a text.
ghost use Rattle.std.specs.Prelude.{◌≡◌, ◌++◌, ◌∷◌, ℕ, [], List, Option, Some, IfErr, IfOk, OnOk};
ghost use Rattle.link_traits.specs.Views.{FilesRose, SinkRose};
ghost use Rattle.proxy_main.specs.Words.{Command, Show, Compose};
ghost use Rattle.proxy_main.specs.Answers.{Wrote, answer_to, Agrees, IsSettled, IsWork};
ghost use Rattle.proxy_main.specs.FilesRead.{paths_of, policies_of, needed, IsOfInput, StopsAt, ReadUntil, ReadsNeeded, StopsWork};
ghost use Rattle.proxy_main.specs.Loads.{StopsBy, CausedBy, Keeps, IsDone};

use crate::{Refusal, Status, Stop};
use link_traits::{FileFault, Files, Sink, read_whole, write_all};
use message_files::{
    BadMessage, BadTextFile, ComposeRefusal, MESSAGE_LIMIT, MessageFault, ShowRefusal, TEXT_LIMIT,
    composed, shown,
};
use std::alloc::Global;

/// Reads the file of a message, and writes the message's text. It has no log.
pub fn work_show<'a, F: Files, O: Sink>(
    alloc: Global,
    path: &'a str,
    files: &mut F,
    out: &mut O,
) -> Result<Status, Stop<'a>>
    ensures done { IfOk result (λ status. IsDone (answer_to (F.view files.old).told (Some (Show path.now))) (O.view out.old).told (O.view out.new).told status.code) }
    ensures end { IfOk result (λ status. status.code ≡ 0) }
    ensures stops { IfErr result (λ stop. StopsBy (F.view files.old).told (Some (Show path.now)) stop) }
    ensures cause { IfErr result (λ stop. CausedBy (FilesRose (F.view files.old) (F.view files.new)) (SinkRose (O.view out.old) (O.view out.new)) ⊥ stop) }
    ensures keeps { IfErr result (λ stop. Keeps (answer_to (F.view files.old).told (Some (Show path.now))) (O.view out.old).told (O.view out.new).told stop) }
    ensures read { OnOk result ((F.view files.new).reads ≡ (F.view files.old).reads ++ paths_of (Some (Show path.now))) }
    ensures until { IfErr result (ReadUntil (policies_of (Some (Show path.now))) (paths_of (Some (Show path.now))) (F.view files.old).reads (F.view files.new).reads) }
    ensures needed { ReadsNeeded (IsSettled (answer_to (F.view files.old).told (Some (Show path.now)))) (needed (F.view files.old).told (Some (Show path.now))) (F.view files.old).reads (F.view files.new).reads result }
{
    match load_shown(alloc, files, path) {
        Ok(text) => write_bytes(&text, out),
        Err(stop) => Err(stop),
    }
}

/// Reads the file of a message's text, and writes the message. It has no log.
pub fn work_compose<'a, F: Files, O: Sink>(
    alloc: Global,
    path: &'a str,
    files: &mut F,
    out: &mut O,
) -> Result<Status, Stop<'a>>
    ensures done { IfOk result (λ status. IsDone (answer_to (F.view files.old).told (Some (Compose path.now))) (O.view out.old).told (O.view out.new).told status.code) }
    ensures end { IfOk result (λ status. status.code ≡ 0) }
    ensures stops { IfErr result (λ stop. StopsBy (F.view files.old).told (Some (Compose path.now)) stop) }
    ensures cause { IfErr result (λ stop. CausedBy (FilesRose (F.view files.old) (F.view files.new)) (SinkRose (O.view out.old) (O.view out.new)) ⊥ stop) }
    ensures keeps { IfErr result (λ stop. Keeps (answer_to (F.view files.old).told (Some (Compose path.now))) (O.view out.old).told (O.view out.new).told stop) }
    ensures read { OnOk result ((F.view files.new).reads ≡ (F.view files.old).reads ++ paths_of (Some (Compose path.now))) }
    ensures until { IfErr result (ReadUntil (policies_of (Some (Compose path.now))) (paths_of (Some (Compose path.now))) (F.view files.old).reads (F.view files.new).reads) }
    ensures needed { ReadsNeeded (IsSettled (answer_to (F.view files.old).told (Some (Compose path.now)))) (needed (F.view files.old).told (Some (Compose path.now))) (F.view files.old).reads (F.view files.new).reads result }
{
    match load_composed(alloc, files, path) {
        Ok(bytes) => write_bytes(&bytes, out),
        Err(stop) => Err(stop),
    }
}

/// Reads the file of a message, and gives the message's text.
fn load_shown<'a, F: Files>(
    alloc: Global,
    files: &mut F,
    path: &'a str,
) -> Result<Vec<u8>, Stop<'a>>
    ensures loaded { IfOk result (λ text. Agrees (answer_to (F.view files.old).told (Some (Show path.now))) (Wrote text.items [])) }
    ensures stops { IfErr result (λ stop. StopsBy (F.view files.old).told (Some (Show path.now)) stop) }
    ensures cause { IfErr result (λ stop. CausedBy (FilesRose (F.view files.old) (F.view files.new)) ⊥ ⊥ stop) }
    ensures read { (F.view files.new).reads ≡ (F.view files.old).reads ++ path.now ∷ [] }
    ensures at { IfErr result (StopsAt IsOfInput path.now) }
{
    match read_whole(alloc, files, path, MESSAGE_LIMIT) {
        Ok(bytes) => match shown(alloc, &bytes) {
            Ok(text) => Ok(text),
            Err(ShowRefusal::Bad(bad)) => Err(Stop::Refused(Refusal::Message(bad))),
            Err(ShowRefusal::Memory(_)) => Err(Stop::Memory),
        },
        Err(FileFault::TooLong) => Err(Stop::Refused(Refusal::Message(BadMessage {
            kind: MessageFault::TooLong,
            at: MESSAGE_LIMIT,
        }))),
        Err(FileFault::Failed) => Err(Stop::File(path)),
        Err(FileFault::Memory) => Err(Stop::Memory),
    }
}

/// Reads the file of a message's text, and gives the message.
fn load_composed<'a, F: Files>(
    alloc: Global,
    files: &mut F,
    path: &'a str,
) -> Result<Vec<u8>, Stop<'a>>
    ensures loaded { IfOk result (λ bytes. Agrees (answer_to (F.view files.old).told (Some (Compose path.now))) (Wrote bytes.items [])) }
    ensures stops { IfErr result (λ stop. StopsBy (F.view files.old).told (Some (Compose path.now)) stop) }
    ensures cause { IfErr result (λ stop. CausedBy (FilesRose (F.view files.old) (F.view files.new)) ⊥ ⊥ stop) }
    ensures read { (F.view files.new).reads ≡ (F.view files.old).reads ++ path.now ∷ [] }
    ensures at { IfErr result (StopsAt IsOfInput path.now) }
{
    match read_whole(alloc, files, path, TEXT_LIMIT) {
        Ok(text) => match composed(alloc, &text) {
            Ok(bytes) => Ok(bytes),
            Err(ComposeRefusal::Bad(bad)) => Err(Stop::Refused(Refusal::Text(bad))),
            Err(ComposeRefusal::Memory(_)) => Err(Stop::Memory),
        },
        Err(FileFault::TooLong) => Err(Stop::Refused(Refusal::Text(BadTextFile::TooLong))),
        Err(FileFault::Failed) => Err(Stop::File(path)),
        Err(FileFault::Memory) => Err(Stop::Memory),
    }
}

/// Writes bytes. There is no log.
pub fn write_bytes<'a, O: Sink>(bytes: &[u8], out: &mut O) -> Result<Status, Stop<'a>>
    ensures done { IfOk result (λ status. IsDone (Wrote bytes.now []) (O.view out.old).told (O.view out.new).told status.code) }
    ensures end { IfOk result (λ status. status.code ≡ 0) }
    ensures stops { IfErr result (λ stop. (told : List ℕ → Option (List ℕ)) (command : Option Command) → (IsSettled (answer_to told command) → IsWork (answer_to told command)) → StopsBy told command stop) }
    ensures cause { IfErr result (λ stop. CausedBy ⊥ (SinkRose (O.view out.old) (O.view out.new)) ⊥ stop) }
    ensures keeps { IfErr result (λ stop. Keeps (Wrote bytes.now []) (O.view out.old).told (O.view out.new).told stop) }
    ensures work { IfErr result StopsWork }
{
    match write_all(out, bytes) {
        Ok(()) => Ok(Status { code: 0 }),
        Err(_) => Err(Stop::Output),
    }
}
