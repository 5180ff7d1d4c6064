//! A message that was received, with its bytes if they can be passed on without a copy.
ghost use Rattle.std.specs.Prelude.{◌≡◌, IfOk};
ghost use Rattle.std.specs.Option.{ForSome};

use bytes::Bytes;
use dbus_header::Message;
use std::alloc::{AllocError, Global};

/// The first message of a side's stream. The bytes of a long one are shared, so that they are passed on and kept
/// without a copy.
#[derive(Drop)]
pub(crate) struct Incoming<'a, 'b> {
    pub(crate) message: &'a Message<'b>,
    pub(crate) shared: Option<&'a Bytes>,
    ghost same: { ForSome shared (λ bytes. bytes.now ≡ message.now.bytes.now) },
}

impl<'a, 'b> Incoming<'a, 'b> {
    /// A message, with its bytes if they are shared.
    pub(crate) fn new(message: &'a Message<'b>, shared: Option<&'a Bytes>) -> Incoming<'a, 'b>
        requires { ForSome shared (λ bytes. bytes.now ≡ message.now.bytes.now) }
        ensures { result.message.now ≡ message.now }
    {
        Incoming { message, shared }
    }

    /// The message's bytes: the shared ones, or a copy.
    pub(crate) fn frame(&self, alloc: Global) -> Result<Bytes, AllocError>
        ensures { IfOk result (λ bytes. bytes ≡ self.now.message.now.bytes.now) }
    {
        match self.shared {
            Some(bytes) => bytes.clone(),
            None => Bytes::copy_from_slice(alloc, self.message.bytes),
        }
    }
}
