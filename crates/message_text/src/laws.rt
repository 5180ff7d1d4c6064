//! Laws of the definitions: a message and its text are each other's opposite.
ghost use Rattle.std.specs.Prelude.{◌≡◌, Result, Ok, IfOk};
ghost use Rattle.dbus_header.specs.Message.{Message as MessageTree, Valid};
ghost use Rattle.message_text.specs.MessageText.{Text, message_text, ReadsAs};
ghost use Rattle.message_text.specs.declared.BadText.{BadText as Fault};

/// No two valid messages have one text.
pub fn texts_are_apart()
    ensures { (m n : MessageTree) → Valid m → Valid n → message_text m ≡ message_text n → m ≡ n }
{}

/// The text of a valid message is read as that message.
pub fn printed_texts_are_read()
    ensures { (m : MessageTree) (answer : Result MessageTree Fault) → Valid m → ReadsAs (message_text m) answer → answer ≡ Ok m }
{}

/// A message that a text is read as is valid and is printed as that text.
pub fn read_texts_are_printed()
    ensures { (text : Text) (answer : Result MessageTree Fault) → ReadsAs text answer → IfOk answer (λ m. Valid m × (message_text m ≡ text)) }
{}
