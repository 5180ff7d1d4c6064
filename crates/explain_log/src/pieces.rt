//! The pieces of a line in order: its fixed words, its printed numbers and its texts.
ghost use Rattle.std.specs.Prelude.{◌≡◌, ◌++◌, codes, flat_map};
ghost use Rattle.dbus_header.specs.Contents.{contents_of, message_in};
ghost use Rattle.dbus_header.specs.Kinds.{kind_by};
ghost use Rattle.dbus_header.specs.Read.{message_seen};
ghost use Rattle.dbus_header.specs.Seen.{text_seen};
ghost use Rattle.explain_log.specs.Lines.{log_line, number_word as word_of_number, side_word as word_of_side, text_word as word_of_text, type_word};

use crate::decisions::decision_pieces;
use dbus_header::{ERROR, METHOD_CALL, METHOD_RETURN, Message, SIGNAL};
use itoa::Buffer;
use policy_view::{Note, Side};

/// The number of pieces of a line.
const PIECES: usize = 24;

/// The numbers of a line, printed.
#[derive(Drop)]
pub(crate) struct Numbers {
    session: Buffer,
    number: Buffer,
    kind: Buffer,
    serial: Buffer,
    reply: Buffer,
    entry: Buffer,
}

impl Numbers {
    /// Room for the numbers of a line.
    pub(crate) fn new() -> Numbers {
        Numbers {
            session: Buffer::new(),
            number: Buffer::new(),
            kind: Buffer::new(),
            serial: Buffer::new(),
            reply: Buffer::new(),
            entry: Buffer::new(),
        }
    }
}

/// The word of a side, with a space before and after it.
fn side_word(side: Side) -> &'static str
    ensures { result.now ≡ codes " " ++ word_of_side side ++ codes " " }
{
    match side {
        Side::Client => " c ",
        Side::Bus => " b ",
    }
}

/// A space and the word of a message's type. The second piece is the number of a type that has no name.
fn kind_pieces<'a>(number: &'a mut Buffer, kind: u8) -> [&'a str; 2]
    ensures { flat_map (λ piece. piece.now) result ≡ codes " " ++ type_word kind (kind_by kind) }
{
    match kind {
        METHOD_CALL => [" call", ""],
        METHOD_RETURN => [" return", ""],
        ERROR => [" error", ""],
        SIGNAL => [" signal", ""],
        _ => [" type", number.format(kind)],
    }
}

/// A number, or a dash if there is none.
fn number_word<'a>(buffer: &'a mut Buffer, number: Option<u32>) -> &'a str
    ensures { result.now ≡ word_of_number number }
{
    match number {
        Some(number) => buffer.format(number),
        None => "-",
    }
}

/// A text, or a dash if there is none.
fn text_word<'a>(text: Option<&'a str>) -> &'a str
    ensures { result.now ≡ word_of_text (text_seen text.entry) }
{
    text.unwrap_or("-")
}

/// The pieces of a note's line, whose message was read. A piece that the line hasn't is empty.
pub(crate) fn pieces<'a>(
    numbers: &'a mut Numbers,
    session: u32,
    note: &'a Note,
    message: &'a Message<'a>,
) -> [&'a str; PIECES]
    requires { message_seen message.now ≡ contents_of (message_in note.now.frame) }
    ensures { flat_map (λ piece. piece.now) result ≡ log_line session note.now }
{
    let side: &'a str = side_word(note.side());
    let [kind, code] = kind_pieces(&mut numbers.kind, message.kind);
    let sender = text_word(message.sender());
    let destination = text_word(message.destination());
    let path = text_word(message.path());
    let interface = text_word(message.interface());
    let member = text_word(message.member());
    let [decision, reason, entry, answer] = decision_pieces(&mut numbers.entry, note.decision());
    [
        numbers.session.format(session),
        side,
        numbers.number.format(note.number()),
        kind,
        code,
        " serial=",
        numbers.serial.format(message.serial),
        " reply=",
        number_word(&mut numbers.reply, message.reply_serial()),
        " from=",
        sender,
        " dest=",
        destination,
        " path=",
        path,
        " iface=",
        interface,
        " member=",
        member,
        decision,
        reason,
        entry,
        answer,
        "\n",
    ]
}
