//! The meaning of each byte of a signature.
ghost use Rattle.std.specs.Prelude.{◌≡◌};
ghost use Rattle.dbus_types.specs.Codes.{code_of as code_of_byte, is_array as is_array_code};

/// The meanings of a byte of a signature (D-Bus Specification, "Type System", "Summary of types").
#[derive(Clone, Copy)]
pub(crate) enum Code {
    /// Not a code.
    Unknown,
    /// A basic type.
    Basic,
    /// A variant.
    Variant,
    /// An array; the type of its elements follows.
    Array,
    /// `(`
    StructStart,
    /// `)`
    StructEnd,
    /// `{`
    EntryStart,
    /// `}`
    EntryEnd,
}

impl Code {
    #[inline]
    pub(crate) fn is_array(self) -> bool
        ensures { result ≡ is_array_code self }
    {
        matches!(self, Code::Array)
    }
}

// The code of each byte, as a digit.
static CODES: [u8; 256] = *b"\
    00000000000000000000000000000000\
    00000000450000000000000000000000\
    00000000000000000000000000000000\
    03101001110000110101112011060700\
    00000000000000000000000000000000\
    00000000000000000000000000000000\
    00000000000000000000000000000000\
    00000000000000000000000000000000";

#[inline]
#[tactic(auto, unfolding(crate::specs::Codes::code_of))]
pub(crate) fn code_of(byte: u8) -> Code
    ensures { result ≡ code_of_byte byte }
{
    match CODES[byte as usize] {
        b'1' => Code::Basic,
        b'2' => Code::Variant,
        b'3' => Code::Array,
        b'4' => Code::StructStart,
        b'5' => Code::StructEnd,
        b'6' => Code::EntryStart,
        b'7' => Code::EntryEnd,
        _ => Code::Unknown,
    }
}
