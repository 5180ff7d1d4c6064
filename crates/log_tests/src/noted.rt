//! Notes on messages.
use dbus_framing::{Framer, Next};
use policy_view::{Decision, Note, Side};
use std::alloc::{AllocError, Global};

/// The note on the message that the bytes are. Bytes that are none are told as if memory had run out.
pub fn noted(
    alloc: Global,
    number: u64,
    side: Side,
    bytes: &[u8],
    decision: Decision,
) -> Result<Note, AllocError> {
    let mut framer = Framer::new(alloc);
    framer.push(bytes)?;
    match framer.next()? {
        Next::Whole(frame) => Ok(Note::new(number, side, frame, decision)),
        Next::Incomplete | Next::Bad(_) => Err(AllocError),
    }
}
