//! The two lines of a note.
ghost use Rattle.std.specs.Prelude.{◌≡◌, ◌++◌, IfOk, OnErr, OnOk, codes, option_map, string_bytes};
ghost use Rattle.explain_log.specs.Lines.{entry_line as line_of_entry, log_line};

use crate::decisions::entry_number;
use crate::pieces::{Numbers, pieces};
use dbus_header::Places;
use itoa::Buffer;
use policy_args::Policy;
use policy_view::Note;
use std::alloc::{AllocError, Global};

/// The most bytes that an entry's line has beside the entry's word.
const BESIDE_WORD: usize = "entry 65535 \n".len();

/// The number of bytes of the pieces together.
fn length_of(pieces: &[&str]) -> usize {
    let mut length: usize = 0;
    for piece in pieces {
        length = length.saturating_add(piece.len());
    }
    length
}

/// The line of a note, with the number of its session. Its memory is taken at once.
pub fn line(alloc: Global, session: u32, note: &Note) -> Result<String, AllocError>
    ensures { IfOk result (λ line. string_bytes line ≡ log_line session note.now) }
{
    let mut places = Places::none();
    let message = note.message(&mut places);
    let mut numbers = Numbers::new();
    let pieces = pieces(&mut numbers, session, note, &message);
    let mut line = String::with_capacity(alloc, length_of(&pieces))?;
    for piece in pieces {
        line.push_str(piece)?;
    }
    Ok(line)
}

/// Puts the line of a note after others. If memory is refused none is put.
pub fn push_line(
    alloc: Global,
    lines: &mut String,
    session: u32,
    note: &Note,
) -> Result<(), AllocError>
    ensures ok { OnOk result (string_bytes lines.new ≡ string_bytes lines.old ++ log_line session note.now) }
    ensures err { OnErr result (string_bytes lines.new ≡ string_bytes lines.old) }
{
    let text = line(alloc, session, note)?;
    lines.push_str(&text)
}

/// The line of the entry on which the decision of a note rests, if it rests on one of the policy's. Its memory is taken
/// at once; refused if memory is refused.
pub fn entry_line(alloc: Global, policy: &Policy, note: &Note) -> Result<Option<String>, AllocError>
    ensures { IfOk result (λ line. option_map (λ text. string_bytes text) line ≡ line_of_entry policy.now note.now) }
{
    let number = entry_number(note.decision());
    if number == 0 {
        return Ok(None);
    }
    if policy.len() < number {
        return Ok(None);
    }
    let word = policy.word(number);
    let mut line = String::with_capacity(alloc, BESIDE_WORD.saturating_add(word.len()))?;
    line.push_str("entry ")?;
    line.push_str(Buffer::new().format(number))?;
    line.push_str(" ")?;
    line.push_str(word)?;
    line.push_str("\n")?;
    Ok(Some(line))
}
