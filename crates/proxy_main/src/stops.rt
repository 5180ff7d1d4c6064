//! What is said of a run that stopped, and its status.
ghost use Rattle.std.specs.Prelude.{◌≡◌, ◌≤◌, if◌then◌else◌};
ghost use Rattle.link_traits.specs.Views.{SinkRose};
ghost use Rattle.proxy_main.specs.Answers.{refusal_code};
ghost use Rattle.proxy_main.specs.Lines.{refusal_line, file_line, memory_line, is_policy_kind};
ghost use Rattle.proxy_main.specs.Endings.{Said, IsTold, StopTold};

use crate::lines::{file_text, is_of_policy, refusal_text, say};
use crate::{Refusal, Status, Stop};
use link_traits::Sink;
use policy_args::WordKind;
use std::alloc::Global;

/// Says why a run stopped, and gives its status.
pub fn tell<E: Sink>(alloc: Global, stop: Stop<'_>, err: &mut E) -> Status
    ensures told { StopTold (SinkRose (E.view err.old) (E.view err.new)) (E.view err.old).told (E.view err.new).told result.code stop.entry }
    ensures count { (E.view err.old).faults ≤ (E.view err.new).faults }
{
    match stop {
        Stop::Refused(refusal) => tell_refusal(alloc, refusal, err),
        Stop::File(path) => tell_file(alloc, path, err),
        Stop::Output => Status { code: 6 },
        Stop::Log => Status { code: 6 },
        Stop::Memory => tell_memory(err),
    }
}

/// Says the line of a refusal.
fn tell_refusal<E: Sink>(alloc: Global, refusal: Refusal, err: &mut E) -> Status
    ensures told { IsTold (refusal_code refusal) (refusal_line refusal) (SinkRose (E.view err.old) (E.view err.new)) (E.view err.old).told (E.view err.new).told result.code }
    ensures count { (E.view err.old).faults ≤ (E.view err.new).faults }
{
    if let Ok(text) = refusal_text(alloc, refusal) {
        say(err, text.as_str());
        return Status {
            code: code(refusal),
        };
    }
    tell_memory(err)
}

/// Says the line of a file that was not read.
fn tell_file<E: Sink>(alloc: Global, path: &str, err: &mut E) -> Status
    ensures told { IsTold 4 (file_line path.now) (SinkRose (E.view err.old) (E.view err.new)) (E.view err.old).told (E.view err.new).told result.code }
    ensures count { (E.view err.old).faults ≤ (E.view err.new).faults }
{
    if let Ok(text) = file_text(alloc, path) {
        say(err, text.as_str());
        return Status { code: 4 };
    }
    tell_memory(err)
}

/// Says that memory ran out.
pub fn tell_memory<E: Sink>(err: &mut E) -> Status
    ensures code { result.code ≡ 8 }
    ensures said { Said (SinkRose (E.view err.old) (E.view err.new)) (E.view err.old).told (E.view err.new).told memory_line }
    ensures count { (E.view err.old).faults ≤ (E.view err.new).faults }
{
    say(err, "error: memory\n");
    Status { code: 8 }
}

/// The status of a refusal.
fn code(refusal: Refusal) -> u8
    ensures code { result ≡ refusal_code refusal }
    ensures small { result ≤ 9 }
{
    match refusal {
        Refusal::Usage => 1,
        Refusal::LineWord(bad) => line_word_code(bad.kind),
        Refusal::ArgsTooLong => 1,
        Refusal::PolicyWord(_) => 2,
        Refusal::PolicyTooLong => 2,
        Refusal::Recording(_) => 3,
        Refusal::NoSuchMessage => 9,
        Refusal::NoSuchSession => 9,
        Refusal::TooManyEntries => 7,
        Refusal::Message(_) => 3,
        Refusal::Text(_) => 3,
    }
}

/// The status of a bad word of a proxy line.
fn line_word_code(kind: WordKind) -> u8
    ensures code { result ≡ (if is_policy_kind kind then 2 else 1) }
    ensures small { result ≤ 9 }
{
    if is_of_policy(kind) { 2 } else { 1 }
}
