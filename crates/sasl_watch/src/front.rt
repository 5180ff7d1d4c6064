//! The first line of a stream.
ghost use Rattle.std.specs.Prelude.{◌≡◌, ◌<◌, ◌≤◌, ◌+◌, true, false, length, slice_index};
ghost use Rattle.sasl_watch.specs.Fronts.{is_plain as is_plain_byte, Plain, PlainFront, IsFront};

use crate::LineKind;

/// The maximum length of a line with its CR LF: far more than any mechanism's data, and short enough to be kept for
/// each connection.
const LINE_LIMIT: usize = 16_384;

/// What is first in a stream.
#[derive(Clone, Copy)]
pub(crate) enum Front {
    /// No whole line yet, and no fault.
    Partial,
    /// A line of this length, with its CR LF.
    Whole(usize),
    /// A faulty byte after this number of bytes.
    Faulty(LineKind, usize),
}

/// Whether a line may have the byte before its ending.
#[inline]
fn is_plain(byte: u8) -> bool
    ensures { result ≡ is_plain_byte byte }
{
    matches!(byte, 0x20..=0x7E)
}

/// The number of plain bytes at the start, up to those that a line may have before its last byte; `known` are known to
/// be plain.
pub(crate) fn plain_len(left: &[u8], known: usize) -> usize
    requires { Plain known left.now }
    ensures { PlainFront result left.now }
{
    let end = left.len().min(LINE_LIMIT - 1);
    for at in known..end {
        if !is_plain(left[at]) {
            return at;
        }
    }
    end
}

/// What is first in the stream if it begins with `plain` plain bytes.
pub(crate) fn line_in_front(left: &[u8], plain: usize) -> Front
    requires { PlainFront plain left.now }
    ensures { IsFront left.now result }
{
    if plain == left.len() {
        return Front::Partial;
    }
    if plain == LINE_LIMIT - 1 {
        return Front::Faulty(LineKind::LineTooLong, plain);
    }
    if left[plain] != b'\r' {
        return Front::Faulty(LineKind::BadByte, plain);
    }
    let at = plain + 1;
    if at == left.len() {
        return Front::Partial;
    }
    if left[at] == b'\n' {
        return Front::Whole(at + 1);
    }
    if at == LINE_LIMIT - 1 {
        return Front::Faulty(LineKind::LineTooLong, at);
    }
    Front::Faulty(LineKind::BadByte, at)
}
