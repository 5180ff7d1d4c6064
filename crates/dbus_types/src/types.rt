//! Complete types in a signature.
ghost use Rattle.std.specs.Prelude.{◌≡◌, ◌++◌, ◌+◌, ◌<◌, ◌^◌, ℕ, List};
ghost use Rattle.dbus_types.specs.Signature.{Complete, spelled_type};
ghost use Rattle.dbus_types.specs.Behind.{behind, open_after};

use crate::codes::{Code, code_of};

/// What follows the first complete type, which may be a dict entry: the other types of a signature, or the rest of a
/// struct's.
pub fn behind_type(types: &[u8]) -> &[u8]
    ensures behind { result.now ≡ behind 0 types.now }
    ensures rest { (t : Complete) (rest : List ℕ) → types.now ≡ spelled_type t ++ rest → result.now ≡ rest }
{
    let mut brackets = 0;
    for (index, byte) in types.iter().enumerate() {
        let code = code_of(*byte);
        brackets = brackets_after(code, brackets);
        if !code.is_array() && brackets == 0 {
            return &types[index + 1..];
        }
    }
    &[]
}

// The number of brackets that are open after the code, if `brackets` were open before it.
#[inline]
fn brackets_after(code: Code, brackets: usize) -> usize
    requires { brackets + 1 < 2 ^ 64 }
    ensures { result ≡ open_after code brackets }
{
    match code {
        Code::StructStart | Code::EntryStart => brackets + 1,
        Code::StructEnd | Code::EntryEnd => brackets.saturating_sub(1),
        Code::Unknown | Code::Basic | Code::Variant | Code::Array => brackets,
    }
}
