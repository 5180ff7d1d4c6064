//! D-Bus types and signatures: their trees, their spelling, and the laws between the two.
//!
//! `Signature::read` checks a signature; `behind_type` passes over one type of it.
#![tactic(auto)]

mod codes;
mod level;
mod scan;
mod signature;
mod types;

ghost use Rattle.std.specs.Prelude.{◌≡◌, ℕ, List, Some, IsTrue};
ghost use Rattle.dbus_types.specs.Signature.{Complete, spelled_types, types_of, is_signature, signature_of};

pub use signature::Signature;
use thiserror::Error;
pub use types::behind_type;

/// Why bytes aren't a signature (D-Bus Specification, "Type System", "Valid Signatures").
#[derive(Clone, Copy, Debug, PartialEq, Eq, Error)]
pub enum BadSignature {
    /// More than 255 bytes ("Valid Signatures": the maximum length of a signature).
    #[error("the signature is longer than 255 bytes")]
    TooLong,
    /// The bytes spell types, but with more than 32 nested arrays or 32 nested structs ("Valid Signatures": the maximum
    /// depth of container type nesting).
    #[error("the signature is more than 32 arrays or 32 structs deep")]
    Depth,
    /// The bytes don't spell types ("Valid Signatures": a list of single complete types).
    #[error("the signature is no list of complete types")]
    Form,
}

/// Types that are spelled as a signature are read from it again.
pub fn spelled_types_are_read()
    ensures { (types : List Complete) → types_of (spelled_types types) ≡ Some types }
{}

/// Types that are read from bytes are spelled so, and are within the limits.
pub fn read_types_are_spelled()
    ensures { (bytes : List ℕ) (types : List Complete) → signature_of bytes ≡ Some types → (spelled_types types ≡ bytes) × IsTrue (is_signature types) }
{}
