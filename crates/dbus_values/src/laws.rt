//! Laws of the definitions: spelling and reading are inverse to each other.
ghost use Rattle.std.specs.Prelude.{◌≡◌, ◌+◌, ◌<◌, ℕ, List, ◌++◌, length, get_or, Some, None, IsTrue};
ghost use Rattle.dbus_types.specs.Signature.{Complete, is_complete};
ghost use Rattle.dbus_values.specs.Values.{Value, type_of, spelled, is_value, is_within};
ghost use Rattle.dbus_values.specs.Reading.{At, value_at};
ghost use Rattle.dbus_values.specs.Ends.{IsSpelled, NoneSpelled};
ghost use Rattle.dbus_values.specs.declared.Order.{Order};

/// A value's spelling at a place is read there as that value, whatever follows it. So no spelling begins another of its
/// type, and each value has one spelling.
pub fn spelled_values_are_read()
    ensures { (order : Order) (place : ℕ) (value : Value) (rest : List ℕ) → IsTrue (is_within 64 value) → IsTrue (is_value order place value) → IsTrue (is_complete (type_of value)) → value_at order (type_of value) (record { place = place; bytes = spelled order place value ++ rest }) ≡ Some (value, record { place = place + length (spelled order place value); bytes = rest }) }
{}

/// A value that was read as one of a type has that type, is within the limits, and is spelled by the bytes that it
/// takes.
pub fn read_values_are_spelled()
    ensures { (order : Order) (type : Complete) (at : At) (x : Value × At) → IsTrue (is_complete type) → ((i : ℕ) → get_or at.bytes i 0 < 256) → value_at order type at ≡ Some x → IsSpelled order type at x }
{}

/// If no value of a type is read, none is spelled there.
pub fn unread_values_are_not_spelled()
    ensures { (order : Order) (type : Complete) (at : At) → IsTrue (is_complete type) → value_at order type at ≡ None → NoneSpelled order type at }
{}
