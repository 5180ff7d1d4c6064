//! The policies of words.
use policy_args::{LineRefusal, Options, read_options};
use std::alloc::{AllocError, Global};

/// What the words of a policy file, separated by commas, ask for. Bad words are reported as refused memory.
pub fn options_of(alloc: Global, row: &str) -> Result<Options, AllocError> {
    let mut words = Vec::new(alloc);
    for word in row.split(',') {
        words.push(String::from_str(alloc, word)?)?;
    }
    match read_options(alloc, &words) {
        Ok(options) => Ok(options),
        Err(LineRefusal::Bad(_) | LineRefusal::Memory) => Err(AllocError),
    }
}
