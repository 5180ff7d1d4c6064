//! Words, with the words of each named file in its place, and the proxy line that they give.
ghost use Rattle.std.specs.Prelude.{◌≡◌, ◌≤◌, ℕ, [], ◌∷◌, ◌++◌, List, Ok, length, option_map, string_bytes, IfOk, IfErr, IfSome, OnOk};
ghost use Rattle.link_traits.specs.Views.{FilesRose};
ghost use Rattle.link_traits.specs.Texts.{texts_of};
ghost use Rattle.policy_args.specs.Reading.{line_seen};
ghost use Rattle.policy_args.specs.Words.{behind as behind_front, words_in};
ghost use Rattle.line_words.specs.Words.{args_path, descriptor_path, Reads, line_in};
ghost use Rattle.line_words.specs.FilesRead.{paths_in, ReadUntil, IsNamedBy, needed_by, ReadsNeeded, NoneIsBad, EndsNeeded};
ghost use Rattle.line_words.specs.Stops.{IsSettled, Agrees, StopsBy, StopsFrom, FileStops, IsBehind, Expands, CausedBy};

use link_traits::{FileFault, Files, read_whole};
use policy_args::{BadWord, LineRefusal, ProxyLine, read_descriptor, read_line, words_of};
use std::alloc::{AllocError, Global};
use thiserror::Error;

/// The maximum size of a file of words, 16 MiB, as of a policy file.
pub const ARGS_LIMIT: usize = 16_777_216;

/// Why words don't give a proxy line.
#[derive(Debug, Drop, PartialEq, Eq, Error)]
pub enum LineStop {
    /// The file at this path, which a word names, wasn't read.
    #[error("the file {0} could not be read")]
    File(String),
    /// A file of words has more than `ARGS_LIMIT` bytes.
    #[error("a file of words has too many bytes")]
    TooLong,
    /// A word is bad. Its index counts the words of each file in the place of the word that names it.
    #[error("the word at index {} is bad", .0.index)]
    Bad(BadWord),
    /// Memory was refused.
    #[error("out of memory")]
    Memory,
}

/// Reads a proxy line. `--args-file=FILE` is replaced by the words in FILE, each ended by a NUL as in a policy file,
/// and `--args=FD` by those in `/dev/fd/FD`, if `policy_args::read_descriptor` accepts FD. These two options can't be
/// used in such a file. The files are read first, in the order of the words, and each is cut into words before the
/// next is read.
pub fn read_words<F: Files>(
    alloc: Global,
    files: &mut F,
    words: &[String],
) -> Result<ProxyLine, LineStop>
    ensures line { IfOk result (λ line. Agrees (line_in (F.view files.old).told (texts_of words.now)) (Reads (line_seen line))) }
    ensures stops { IfErr result (λ stop. StopsBy (F.view files.old).told (texts_of words.now) stop) }
    ensures cause { IfErr result (λ stop. CausedBy (FilesRose (F.view files.old) (F.view files.new)) stop) }
    ensures count { (F.view files.old).faults ≤ (F.view files.new).faults }
    ensures kept { (p : List ℕ) → (F.view files.new).told p ≡ (F.view files.old).told p }

    // Each file that the words name was read once, in the order of the words, and no other file. On an error a prefix
    // of them was read, up to the one that couldn't be read.
    ensures read { OnOk result ((F.view files.new).reads ≡ (F.view files.old).reads ++ paths_in (texts_of words.now)) }
    ensures until { IfErr result (λ stop. ReadUntil (paths_in (texts_of words.now)) (F.view files.old).reads (F.view files.new).reads stop) }

    // No file was read after one that is known to be bad. If the result of the words is settled by what is known of the
    // files, they are refused only after all files up to that one were read.
    ensures needed { ReadsNeeded (IsSettled (line_in (F.view files.old).told (texts_of words.now))) (needed_by (F.view files.old).told (texts_of words.now)) (F.view files.old).reads (F.view files.new).reads result }
{
    match expand(alloc, files, words) {
        Ok(all) => match read_line(alloc, &all) {
            Ok(line) => Ok(line),
            Err(LineRefusal::Bad(bad)) => Err(LineStop::Bad(bad)),
            Err(LineRefusal::Memory) => Err(LineStop::Memory),
        },
        Err(stop) => Err(stop),
    }
}

/// All words, with those of each file in the place of the word that names it.
fn expand<F: Files>(alloc: Global, files: &mut F, words: &[String]) -> Result<Vec<String>, LineStop>
    ensures words { IfOk result (λ all. Expands (F.view files.old).told [] (texts_of words.now) (texts_of all.items) []) }
    ensures stops { IfErr result (λ stop. StopsBy (F.view files.old).told (texts_of words.now) stop) }
    ensures cause { IfErr result (λ stop. CausedBy (FilesRose (F.view files.old) (F.view files.new)) stop) }
    ensures count { (F.view files.old).faults ≤ (F.view files.new).faults }
    ensures kept { (p : List ℕ) → (F.view files.new).told p ≡ (F.view files.old).told p }
    ensures read { OnOk result ((F.view files.new).reads ≡ (F.view files.old).reads ++ paths_in (texts_of words.now)) }
    ensures until { IfErr result (λ stop. ReadUntil (paths_in (texts_of words.now)) (F.view files.old).reads (F.view files.new).reads stop) }
    ensures needed { ReadsNeeded (IsSettled (line_in (F.view files.old).told (texts_of words.now))) (needed_by (F.view files.old).told (texts_of words.now)) (F.view files.old).reads (F.view files.new).reads result }
    ensures sound { OnOk result (NoneIsBad (F.view files.old).told (texts_of words.now)) }
{
    let mut all = Vec::new(alloc);
    for word in words {
        let path = match path_in(alloc, word) {
            Ok(path) => path,
            Err(_) => return Err(LineStop::Memory),
        };
        match add_word(alloc, files, word, path, &mut all) {
            Ok(()) => {}
            Err(stop) => return Err(stop),
        }
    }
    Ok(all)
}

/// Appends a word to these, or the words of the file whose path it names.
fn add_word<F: Files>(
    alloc: Global,
    files: &mut F,
    word: &str,
    path: Option<String>,
    all: &mut Vec<String>,
) -> Result<(), LineStop>
    requires { option_map (λ path. string_bytes path) path ≡ args_path word.now }
    ensures words { OnOk result ((rest : List (List ℕ)) → Expands (F.view files.old).told (texts_of all.old.items) (word.now ∷ rest) (texts_of all.new.items) rest) }
    ensures stops { IfErr result (λ stop. (rest : List (List ℕ)) → StopsFrom (F.view files.old).told (texts_of all.old.items) (word.now ∷ rest) stop) }
    ensures cause { IfErr result (λ stop. CausedBy (FilesRose (F.view files.old) (F.view files.new)) stop) }
    ensures count { (F.view files.old).faults ≤ (F.view files.new).faults }
    ensures kept { (p : List ℕ) → (F.view files.new).told p ≡ (F.view files.old).told p }
    ensures read { (F.view files.new).reads ≡ (F.view files.old).reads ++ paths_in (word.now ∷ []) }
    ensures named { IfErr result (λ stop. IsNamedBy word.now stop) }
    ensures sound { OnOk result (NoneIsBad (F.view files.old).told (word.now ∷ [])) }
    ensures ends { IfErr result (λ stop. EndsNeeded (F.view files.old).told (texts_of all.old.items) word.now stop) }
{
    match path {
        Some(path) => match file_words(alloc, files, path) {
            Ok(mut words) => match all.append(&mut words) {
                Ok(()) => Ok(()),
                Err(_) => Err(LineStop::Memory),
            },
            Err(stop) => Err(behind(all.len(), stop)),
        },
        None => match add_copy(alloc, word, all) {
            Ok(()) => Ok(()),
            Err(_) => Err(LineStop::Memory),
        },
    }
}

/// The path of the file that a word names.
fn path_in(alloc: Global, word: &str) -> Result<Option<String>, AllocError>
    ensures { IfOk result (λ path. option_map (λ path. string_bytes path) path ≡ args_path word.now) }
{
    match after("--args-file=", word) {
        Some(path) => Ok(Some(String::from_str(alloc, path)?)),
        None => match after("--args=", word) {
            Some(text) => path_of(alloc, text),
            None => Ok(None),
        },
    }
}

/// The text after the prefix of a word, if the word has it.
fn after<'a>(front: &str, word: &'a str) -> Option<&'a str>
    ensures { option_map (λ text. text.now) result ≡ behind_front front.now word.now }
{
    word.strip_prefix(front)
}

/// The path of a descriptor, if the text is the number of one.
fn path_of(alloc: Global, text: &str) -> Result<Option<String>, AllocError>
    ensures { IfOk result (λ path. option_map (λ path. string_bytes path) path ≡ descriptor_path text.now) }
{
    match read_descriptor(text) {
        Some(_) => Ok(Some(format!(in alloc; "/dev/fd/{text}")?)),
        None => Ok(None),
    }
}

/// Why words stop, if a file's words follow this many others. An index beyond all numbers is reported as refused
/// memory.
fn behind(count: usize, stop: LineStop) -> LineStop
    ensures { IsBehind count stop result }
{
    match stop {
        LineStop::Bad(bad) => match count.checked_add(bad.index) {
            Some(index) => LineStop::Bad(BadWord {
                index,
                kind: bad.kind,
            }),
            None => LineStop::Memory,
        },
        other => other,
    }
}

/// Appends a copy of a word.
fn add_copy(alloc: Global, word: &str, all: &mut Vec<String>) -> Result<(), AllocError>
    ensures { OnOk result (texts_of all.new.items ≡ texts_of all.old.items ++ word.now ∷ []) }
{
    all.push(String::from_str(alloc, word)?)?;
    Ok(())
}

/// The words of a file.
fn file_words<F: Files>(alloc: Global, files: &mut F, path: String) -> Result<Vec<String>, LineStop>
    ensures words { IfOk result (λ words. IfSome ((F.view files.old).told (string_bytes path)) (λ bytes. (length bytes ≤ ARGS_LIMIT) × (words_in bytes ≡ Ok (texts_of words.items)))) }
    ensures stops { IfErr result (λ stop. FileStops ((F.view files.old).told (string_bytes path)) (string_bytes path) stop) }
    ensures cause { IfErr result (λ stop. CausedBy (FilesRose (F.view files.old) (F.view files.new)) stop) }
    ensures count { (F.view files.old).faults ≤ (F.view files.new).faults }
    ensures kept { (p : List ℕ) → (F.view files.new).told p ≡ (F.view files.old).told p }
    ensures read { (F.view files.new).reads ≡ (F.view files.old).reads ++ string_bytes path ∷ [] }
{
    match read_whole(alloc, files, path.as_str(), ARGS_LIMIT) {
        Ok(bytes) => match words_of(alloc, &bytes) {
            Ok(words) => Ok(words),
            Err(LineRefusal::Bad(bad)) => Err(LineStop::Bad(bad)),
            Err(LineRefusal::Memory) => Err(LineStop::Memory),
        },
        Err(FileFault::TooLong) => Err(LineStop::TooLong),
        Err(FileFault::Failed) => Err(LineStop::File(path)),
        Err(FileFault::Memory) => Err(LineStop::Memory),
    }
}
