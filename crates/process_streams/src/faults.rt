//! How a process ends before its work.
ghost use Rattle.std.specs.Prelude.{◌≡◌, ◌≤◌, string_bytes, IfOk};
ghost use Rattle.link_traits.specs.Views.{SinkRose};
ghost use Rattle.link_traits.specs.Texts.{texts_of};
ghost use Rattle.process_streams.specs.Faults.{Ends, FaultEnds, NotTextEnds, begins_tool as begins_with_tool, is_tool_name as is_name, word_line};

use link_traits::{Sink, write_all};
use std::alloc::{AllocError, Global};
use thiserror::Error;

/// Why a process ends before its work.
#[derive(Debug, Drop, Error)]
pub enum ProcessFault {
    /// A word isn't UTF-8. These are the words before the first such word.
    #[error("a word is not UTF-8")]
    NotText {
        /// The words before it.
        before: Vec<String>,
    },
    /// A standard stream is closed, and nothing can be opened in its place.
    #[error("a standard stream is closed")]
    ClosedStream,
    /// The system gives no net to listen and wait with.
    #[error("there is no net")]
    NoNet,
    /// Memory was refused.
    #[error("out of memory")]
    Memory,
}

/// Writes the line of a fault, and gives the status of the process.
pub fn tell_fault<E: Sink>(alloc: Global, fault: ProcessFault, err: &mut E) -> u8
    ensures ends { FaultEnds (SinkRose (E.view err.old) (E.view err.new)) (E.view err.old).told (E.view err.new).told fault result }
    ensures small { result ≤ 9 }
{
    match fault {
        ProcessFault::NotText { before } => tell_not_text(alloc, &before, err),
        ProcessFault::ClosedStream => tell(5, "error: standard streams\n", err),
        ProcessFault::NoNet => tell(5, "error: wait\n", err),
        ProcessFault::Memory => tell(8, "error: memory\n", err),
    }
}

/// Writes the line of a word that isn't UTF-8.
fn tell_not_text<E: Sink>(alloc: Global, before: &[String], err: &mut E) -> u8
    ensures ends { NotTextEnds (SinkRose (E.view err.old) (E.view err.new)) (E.view err.old).told (E.view err.new).told (texts_of before.now) result }
    ensures small { result ≤ 9 }
{
    if begins_tool(before) {
        return tell(1, "error: usage\n", err);
    }
    match word_text(alloc, before.len()) {
        Ok(text) => tell(1, text.as_str(), err),
        Err(_) => tell(8, "error: memory\n", err),
    }
}

/// Whether the first of these words names a tool.
fn begins_tool(words: &[String]) -> bool
    ensures { result ≡ begins_with_tool (texts_of words.now) }
{
    match words {
        [word, ..] => is_tool_name(word),
        [] => false,
    }
}

/// Whether a word is the name of a tool. Such a word is the first of a tool's words, and no address.
pub fn is_tool_name(word: &str) -> bool
    ensures { result ≡ is_name word.now }
{
    matches!(
        word,
        "replay"
            | "explain"
            | "twin"
            | "sample"
            | "audit"
            | "within"
            | "suggest"
            | "show"
            | "compose"
            | "session"
            | "sessions"
    )
}

/// The line of a word of a proxy line that isn't UTF-8.
fn word_text(alloc: Global, index: usize) -> Result<String, AllocError>
    ensures { IfOk result (λ text. string_bytes text ≡ word_line index) }
{
    format!(in alloc; "error: word {index}: UnknownOption\n")
}

/// Writes a line, and gives the status back.
fn tell<E: Sink>(code: u8, line: &str, err: &mut E) -> u8
    ensures ends { Ends (SinkRose (E.view err.old) (E.view err.new)) (E.view err.old).told (E.view err.new).told code line.now result }
    ensures code { result ≡ code }
{
    let _ = write_all(err, line.as_bytes());
    code
}
