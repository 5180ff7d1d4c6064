//! Texts that are known to be bus names.
ghost use Rattle.std.specs.Prelude.{◌≡◌, true, is_some, IfSome};
ghost use Rattle.dbus_names.specs.Names.{is_bus_name as is_either_bus_name, is_unique as is_unique_name};

use crate::is_bus_name;

/// A bus name, unique or well-known, as in a destination or a sender (D-Bus Specification, "Message Protocol", "Valid
/// Names").
#[derive(Clone, Copy)]
pub struct BusName<'a> {
    pub text: &'a str,
    ghost valid: { is_either_bus_name text.now ≡ true },
}

impl<'a> BusName<'a> {
    /// Reads a text as a bus name, if it is one.
    pub fn read(text: &'a str) -> Option<BusName<'a>>
        ensures found { is_some result ≡ is_either_bus_name text.now }
        ensures text { IfSome result (λ name. name.text.now ≡ text.now) }
    {
        if is_bus_name(text.as_bytes()) {
            Some(BusName { text })
        } else {
            None
        }
    }

    /// Whether it is unique; otherwise it is well-known. The first byte decides.
    pub fn is_unique(self) -> bool
        ensures { result ≡ is_unique_name self.entry.text.now }
    {
        match self.text.as_bytes() {
            [b':', ..] => true,
            _ => false,
        }
    }
}
