//! A law of the definitions: what a text is read as.
ghost use Rattle.std.specs.Prelude.{◌≡◌, Result};
ghost use Rattle.dbus_header.specs.Message.{Message};
ghost use Rattle.message_text.specs.MessageText.{Text, ReadsAs};
ghost use Rattle.message_text.specs.declared.BadText.{BadText};
ghost use Rattle.message_files.specs.Files.{reading};

/// Each text is read as one message, or has one fault: what the definition computes is what the relation between texts
/// and messages says, and nothing else is.
pub fn each_text_has_one_reading()
    ensures reads { (text : Text) → ReadsAs text (reading text) }
    ensures one { (text : Text) (answer : Result Message BadText) → ReadsAs text answer → answer ≡ reading text }
{}
