//! The line on err of each status that has one.
ghost use Rattle.std.specs.Prelude.{◌≡◌, ◌≤◌, IfOk, string_bytes};
ghost use Rattle.link_traits.specs.Views.{SinkRose};
ghost use Rattle.proxy_main.specs.Lines.{refusal_line, word_line, plain_word_line, line_word_line, is_policy_kind, kind_name, recording_line, fault_name as name_of_fault, file_line, malformed_name as name_of_malformed, message_fault_name as name_of_message_fault, message_line, bad_text_name as name_of_bad_text, text_fault_name as name_of_text_fault, text_line};
ghost use Rattle.proxy_main.specs.Endings.{Said};

use crate::Refusal;
use dbus_header::MalformedKind;
use link_traits::{Sink, write_all};
use message_files::{BadMessage, BadTextFile, MessageFault};
use message_text::BadText;
use policy_args::{BadWord, WordKind};
use recording::{BadRecording, RecordingKind};
use std::alloc::{AllocError, Global};

/// The line of a refusal.
pub fn refusal_text(alloc: Global, refusal: Refusal) -> Result<String, AllocError>
    ensures { IfOk result (λ text. string_bytes text ≡ refusal_line refusal) }
{
    match refusal {
        Refusal::Usage => String::from_str(alloc, "error: usage\n"),
        Refusal::LineWord(bad) => line_word_text(alloc, bad),
        Refusal::ArgsTooLong => String::from_str(alloc, "error: args file too long\n"),
        Refusal::PolicyWord(bad) => word_text(alloc, bad.index, name(bad.kind)),
        Refusal::PolicyTooLong => String::from_str(alloc, "error: policy file too long\n"),
        Refusal::Recording(fault) => recording_text(alloc, fault),
        Refusal::NoSuchMessage => String::from_str(alloc, "error: no such message\n"),
        Refusal::NoSuchSession => String::from_str(alloc, "error: no such session\n"),
        Refusal::TooManyEntries => String::from_str(alloc, "error: too many entries\n"),
        Refusal::Message(bad) => message_text(alloc, bad),
        Refusal::Text(bad) => bad_file_text(alloc, bad),
    }
}

/// The line of a file that was not read.
#[tactic(auto, unfolding(crate::specs::Lines::file_line))]
pub fn file_text(alloc: Global, path: &str) -> Result<String, AllocError>
    ensures { IfOk result (λ text. string_bytes text ≡ file_line path.now) }
{
    format!(in alloc; "error: file {path}\n")
}

/// Says a line. If the sink fails, it got a prefix of it.
pub fn say<E: Sink>(err: &mut E, line: &str)
    ensures said { Said (SinkRose (E.view err.old) (E.view err.new)) (E.view err.old).told (E.view err.new).told line.now }
    ensures count { (E.view err.old).faults ≤ (E.view err.new).faults }
{
    let _ = write_all(err, line.as_bytes());
}

/// The line of a bad word of a policy file.
fn word_text(alloc: Global, index: usize, kind: &str) -> Result<String, AllocError>
    ensures { IfOk result (λ text. string_bytes text ≡ word_line index kind.now) }
{
    format!(in alloc; "error: policy word {index}: {kind}\n")
}

/// The line of a bad word of a proxy line.
fn line_word_text(alloc: Global, bad: BadWord) -> Result<String, AllocError>
    ensures { IfOk result (λ text. string_bytes text ≡ line_word_line bad) }
{
    if is_of_policy(bad.kind) {
        word_text(alloc, bad.index, name(bad.kind))
    } else {
        plain_word_text(alloc, bad.index, name(bad.kind))
    }
}

/// The line of a bad word that is none of a policy.
fn plain_word_text(alloc: Global, index: usize, kind: &str) -> Result<String, AllocError>
    ensures { IfOk result (λ text. string_bytes text ≡ plain_word_line index kind.now) }
{
    format!(in alloc; "error: word {index}: {kind}\n")
}

/// Whether a word of a proxy line is bad as one of a policy is.
pub fn is_of_policy(kind: WordKind) -> bool
    ensures { result ≡ is_policy_kind kind }
{
    match kind {
        WordKind::BadName | WordKind::BadRule => true,
        WordKind::UnknownOption
        | WordKind::BadAddress
        | WordKind::NoPath
        | WordKind::OptionBeforeAddress
        | WordKind::BadNumber
        | WordKind::TooMany => false,
    }
}

/// The line of a recording with a fault.
fn recording_text(alloc: Global, fault: BadRecording) -> Result<String, AllocError>
    ensures { IfOk result (λ text. string_bytes text ≡ recording_line fault) }
{
    let kind = fault_name(fault.kind);
    let place = fault.at;
    format!(in alloc; "error: recording: {kind} at {place}\n")
}

/// The name of what is wrong with a word.
fn name(kind: WordKind) -> &'static str
    ensures { result.now ≡ kind_name kind }
{
    match kind {
        WordKind::UnknownOption => "UnknownOption",
        WordKind::BadName => "BadName",
        WordKind::BadRule => "BadRule",
        WordKind::BadAddress => "BadAddress",
        WordKind::NoPath => "NoPath",
        WordKind::OptionBeforeAddress => "OptionBeforeAddress",
        WordKind::BadNumber => "BadNumber",
        WordKind::TooMany => "TooMany",
    }
}

/// The name of what is wrong with a recording.
fn fault_name(kind: RecordingKind) -> &'static str
    ensures { result.now ≡ name_of_fault kind }
{
    match kind {
        RecordingKind::BadMagic => "BadMagic",
        RecordingKind::BadVersion => "BadVersion",
        RecordingKind::BadKind => "BadKind",
        RecordingKind::Cut => "Cut",
        RecordingKind::BadAuth => "BadAuth",
        RecordingKind::BadLength => "BadLength",
        RecordingKind::TooLong => "TooLong",
        RecordingKind::BadSession => "BadSession",
        RecordingKind::TooManySessions => "TooManySessions",
        RecordingKind::BadEnd => "BadEnd",
    }
}

/// The line of a file that isn't one valid message.
fn message_text(alloc: Global, bad: BadMessage) -> Result<String, AllocError>
    ensures { IfOk result (λ text. string_bytes text ≡ message_line bad) }
{
    let kind = message_fault_name(bad.kind);
    let place = bad.at;
    format!(in alloc; "error: message: {kind} at {place}\n")
}

/// The name of what is wrong with the file of a message.
fn message_fault_name(fault: MessageFault) -> &'static str
    ensures { result.now ≡ name_of_message_fault fault }
{
    match fault {
        MessageFault::TooLong => "TooLong",
        MessageFault::Cut => "Cut",
        MessageFault::Extra => "Extra",
        MessageFault::Malformed(kind) => malformed_name(kind),
    }
}

/// The name of what is wrong with bytes that are no valid message.
fn malformed_name(kind: MalformedKind) -> &'static str
    ensures { result.now ≡ name_of_malformed kind }
{
    match kind {
        MalformedKind::ByteOrder => "ByteOrder",
        MalformedKind::MessageType => "MessageType",
        MalformedKind::Version => "Version",
        MalformedKind::Length => "Length",
        MalformedKind::Serial => "Serial",
        MalformedKind::Fields => "Fields",
        MalformedKind::Required => "Required",
        MalformedKind::Body => "Body",
        MalformedKind::Descriptors => "Descriptors",
    }
}

/// The line of a file that is no message's text.
fn bad_file_text(alloc: Global, bad: BadTextFile) -> Result<String, AllocError>
    ensures { IfOk result (λ text. string_bytes text ≡ text_line bad) }
{
    let kind = text_fault_name(bad);
    format!(in alloc; "error: text: {kind}\n")
}

/// The name of what is wrong with the file of a text.
fn text_fault_name(fault: BadTextFile) -> &'static str
    ensures { result.now ≡ name_of_text_fault fault }
{
    match fault {
        BadTextFile::TooLong => "TooLong",
        BadTextFile::Text(bad) => bad_text_name(bad),
    }
}

/// The name of what is wrong with a text.
fn bad_text_name(bad: BadText) -> &'static str
    ensures { result.now ≡ name_of_bad_text bad }
{
    match bad {
        BadText::Form => "Form",
        BadText::NotValid => "NotValid",
    }
}
