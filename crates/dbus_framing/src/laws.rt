//! What was taken from a stream agrees with all that was pushed.
ghost use Rattle.std.specs.Prelude.{◌≡◌, ℕ, ◌++◌, List, Some};
ghost use Rattle.dbus_header.specs.Message.{Message};
ghost use Rattle.dbus_header.specs.Malformed.{fault};
ghost use Rattle.dbus_header.specs.declared.Malformed.{Malformed as Fault};
ghost use Rattle.dbus_header.specs.Stream.{messages, rest as rest_of, bad};
ghost use Rattle.dbus_framing.specs.Framing.{Gives, Stands, Follows};
ghost use Rattle.dbus_framing.specs.declared.Next.{Next as Given};
ghost use Rattle.dbus_framing.specs.declared.Next.TheVariants.{Bad};

/// However the stream was cut into pieces, the messages that were taken are its first ones. The bytes that are left
/// hold its other messages, its rest and its fault.
pub fn given_are_messages()
    ensures { (pushed : List ℕ) (given : List Message) (left : List ℕ) → Stands pushed given left
        → (messages pushed ≡ given ++ messages left) × (rest_of pushed ≡ rest_of left) × (bad pushed ≡ bad left) }
{}

/// A piece that is pushed follows all bytes before it.
pub fn more_is_pushed()
    ensures { (pushed : List ℕ) (given : List Message) (left piece : List ℕ) → Stands pushed given left
        → Stands (pushed ++ piece) given (left ++ piece) }
{}

/// `next` gives the next message of all that was pushed. At `Incomplete` and `Bad` all messages were given.
pub fn next_is_given()
    ensures { (pushed : List ℕ) (given : List Message) (old : List ℕ) (next : Given) (new : List ℕ) → Stands pushed given old
        → Gives old next new → Follows pushed given next new }
{}

/// After a fault, each later answer of `next` is the same.
pub fn bad_is_given_again()
    ensures { (old : List ℕ) (f : Fault) (next : Given) (new : List ℕ) → fault old ≡ Some f → Gives old next new
        → (next ≡ Bad f) × (fault new ≡ Some f) }
{}
