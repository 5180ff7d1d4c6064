//! The message whose text a file holds.
ghost use Rattle.message_files.specs.Gives.{Composes};

use crate::{BadTextFile, ComposeRefusal, TEXT_LIMIT};
use message_text::{TextRefusal, read};
use std::alloc::Global;

/// The bytes of the valid message whose text a file holds. `Bad` says that the file is longer than `TEXT_LIMIT`, or
/// else why it is the text of no valid message.
pub fn composed(alloc: Global, text: &[u8]) -> Result<Vec<u8>, ComposeRefusal>
    ensures { Composes text.now result }
{
    if text.len() > TEXT_LIMIT {
        return Err(ComposeRefusal::Bad(BadTextFile::TooLong));
    }
    match read(alloc, text) {
        Ok(bytes) => Ok(bytes),
        Err(TextRefusal::Bad(bad)) => Err(ComposeRefusal::Bad(BadTextFile::Text(bad))),
        Err(TextRefusal::Memory(error)) => Err(ComposeRefusal::Memory(error)),
    }
}
