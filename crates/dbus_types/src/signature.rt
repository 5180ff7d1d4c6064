//! Signatures, read in place.
ghost use Rattle.std.specs.Prelude.{◌≡◌, ℕ, [], Option, None, IfOk};
ghost use Rattle.dbus_types.specs.Signature.{signature_fault};

use crate::BadSignature;
use crate::scan::fault_of;

/// A valid signature: complete types one after the other, in at most 255 bytes, with at most 32 nested arrays and 32
/// nested structs (D-Bus Specification, "Type System", "Valid Signatures").
#[derive(Clone, Copy, Debug, PartialEq, Eq)]
pub struct Signature<'a> {
    /// The spelling of the types.
    pub bytes: &'a [u8],
    ghost valid: { signature_fault bytes.now ≡ None },
}

impl<'a> Signature<'a> {
    ghost use Rattle.dbus_types.specs.Refusals.{refusal};

    /// The signature without types.
    pub fn empty() -> Signature<'static>
        ensures { result.bytes.now ≡ [] }
    {
        Signature { bytes: b"" }
    }

    /// The spelling of the types.
    pub fn as_bytes(&self) -> &'a [u8]
        ensures { result.now ≡ self.now.bytes.now }
    {
        self.bytes
    }

    /// Checks that the bytes are a signature. A signature that is too long is refused before anything else is read, and
    /// one that is too deep only if it has no other fault.
    pub fn read(bytes: &'a [u8]) -> Result<Signature<'a>, BadSignature>
        ensures refusal { refusal result ≡ signature_fault bytes.now }
        ensures bytes { IfOk result (λ s. s.bytes.now ≡ bytes.now) }
    {
        match fault_of(bytes) {
            None => Ok(Signature { bytes }),
            Some(why) => Err(why),
        }
    }
}
