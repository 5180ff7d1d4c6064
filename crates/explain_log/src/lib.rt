//! The lines of the log: what was decided on each message of a session, and the entry of the policy on which that
//! rests.
//!
//! `LineBuffer` writes the line of each note of a session to a sink, and loses none for want of memory. `line` is the
//! line of one note, `push_line` puts it after others in a string, and `entry_line` is the line of the entry.
#![tactic(auto)]

mod buffer;
mod decisions;
mod lines;
mod pieces;

ghost use Rattle.std.specs.Prelude.{◌≡◌, ℕ, List};
ghost use Rattle.dbus_header.specs.Message.{Message, Valid};
ghost use Rattle.policy_args.specs.Policy.{Policy};
ghost use Rattle.policy_view.specs.Past.{Item};
ghost use Rattle.policy_view.specs.declared.Decision.{Decision};
ghost use Rattle.policy_view.specs.declared.Side.{Side};
ghost use Rattle.explain_log.specs.Laws.{SpeakOf, TellsMessage};

pub use buffer::{LONG, LineBuffer};
pub use decisions::{reason_entry_number, reason_word};
pub use lines::{entry_line, line, push_line};

/// The line of a note tells the message that the note's frame spells.
pub fn lines_tell_their_messages()
    ensures { (session number : ℕ) (side : Side) (m : Message) (decision : Decision) → Valid m → TellsMessage session number side m decision }
{}

/// The notes of a history speak of the policy that they were made by: the number of an entry in one is that of an entry
/// of the policy, so that each decision which rests on an entry has the line of that entry.
pub fn notes_speak_of_their_policy()
    ensures { (policy : Policy) (items : List Item) → SpeakOf policy items }
{}
