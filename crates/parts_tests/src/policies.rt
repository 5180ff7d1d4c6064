//! Options and policies of words.
use policy_args::{LineRefusal, Options, Policy, read_options, words_of};
use std::alloc::Global;
use std::test::Fail;

/// The options of words.
pub fn read(alloc: Global, words: &[String]) -> Result<Options, LineRefusal> {
    read_options(alloc, words)
}

/// The words of a file.
fn words_in(alloc: Global, file: &[u8]) -> Result<Vec<String>, LineRefusal> {
    words_of(alloc, file)
}

/// The options of the words of a file.
pub fn options_of(alloc: Global, file: &str) -> Result<Options, Fail> {
    let words = words_in(alloc, file.as_bytes())?;
    Ok(read(alloc, &words)?)
}

/// The policy of the words of a file.
pub fn policy_of(alloc: Global, file: &str) -> Result<Policy, Fail> {
    Ok(options_of(alloc, file)?.policy)
}
