//! The words of a proxy line: blocks of a bus address, a path, and options.
ghost use Rattle.std.specs.Prelude.{◌≡◌, OnOk, length, map, string_bytes};
ghost use Rattle.policy_args.specs.Gives.{Gives, StepGives, refusal_at};
ghost use Rattle.policy_args.specs.ProxyLine.{args_word, descriptor_of, finished, first_option, has_leading_zero, line_address, line_of, line_path, line_step, line_word, no_words, option_word, other_option, placed_option, replace_option, sessions_of, with_block_option, with_record, with_sessions, with_starter};
ghost use Rattle.policy_args.specs.Reading.{block_seen, line_seen, with_block, worth_of};
ghost use Rattle.policy_args.specs.Words.{each_word, or_kind};
ghost use Rattle.policy_args.specs.declared.WordKind.TheVariants.{BadNumber};
ghost use Rattle.policy_args.specs.declared.refusals.WordRefusal.TheVariants.{Bad};

use crate::address::read_address;
use crate::entry::behind;
use crate::options::{FirstOptions, Options};
use crate::refusals::{LineRefusal, WordRefusal};
use crate::{BadWord, WordKind};
use std::alloc::{AllocError, Global};
use std::marker::Model;
use std::mem;

/// The maximum number of blocks of a line.
const MOST_BLOCKS: usize = 65_535;

/// The greatest number that `--sessions` takes.
const MOST_SESSIONS: u32 = 1_000_000;

/// The greatest number of a file descriptor, which is an `int` (POSIX.1-2024, `open`).
const MOST_DESCRIPTOR: u32 = 2_147_483_647;

/// The number of served sessions if `--sessions` isn't given.
const ALL_SESSIONS: u32 = 4_294_967_295;

/// One proxy: the bus to which it connects its clients, and the socket on which it listens (xdg-dbus-proxy(1),
/// "Synopsis").
pub struct Block {
    /// The path of the bus's Unix socket, with each `%XX` of its address replaced.
    pub address: String,
    /// The path of the socket on which it listens.
    pub path: String,
    /// What the options of this block ask for.
    pub options: Options,
}

// Its drop is a call, so that a function that drops one is short to prove.
impl Drop for Block {
    fn drop(self) {
        let Block {
            address: _address,
            path: _path,
            options: _options,
        } = self;
    }
}

/// What a proxy line asks for.
#[derive(Drop)]
pub struct ProxyLine {
    /// The blocks, one or more and at most 65,535, in their order.
    pub blocks: Vec<Block>,
    /// The number of sessions that are served in all: 1 to 1,000,000, or 4,294,967,295 if it isn't given.
    pub sessions: u32,
    /// The path of the file in which the sessions are recorded, if one is given: that of the last `--record=FILE`. It
    /// isn't empty.
    pub record_to: Option<String>,
    /// The number of the descriptor of the starter's pipe, at most 2,147,483,647, if one is given: that of the last
    /// `--fd=FD` (xdg-dbus-proxy(1), `--fd`).
    pub starter: Option<u32>,
    /// Whether a socket or an empty file at a block's path is replaced: `--replace` was among the words.
    pub replaces: bool,
}

// What the words so far give. The last block is kept apart, since options are added to it.
#[derive(Drop)]
struct Reading {
    blocks: Vec<Block>,
    last: Option<Block>,
    sessions: u32,
    record_to: Option<String>,
    starter: Option<u32>,
    replaces: bool,
    // The options with which every block begins.
    first: FirstOptions,
    // The bus's path of a block whose own path is the next word.
    pending: Option<String>,
}

impl Model for Reading {
    ghost use Rattle.std.specs.Prelude.{◌≡◌, None, []};
    ghost use Rattle.policy_args.specs.ProxyLine.{SoFar};
    ghost use Rattle.policy_args.specs.Reading.{rest_seen, so_far};
    ghost use Rattle.policy_args.specs.Seen.{first_seen};

    ghost Value = { SoFar };

    ghost view = { λ r. so_far r.blocks.items r.last (rest_seen r.sessions r.record_to r.starter r.replaces) (first_seen r.first) r.pending };

    ghost invariant = { λ r. r.last ≡ None → r.blocks.items ≡ [] };
}

impl Reading {
    // No words.
    fn new(alloc: Global) -> Reading
        ensures { result ≡ no_words }
    {
        Reading {
            blocks: Vec::new(alloc),
            last: None,
            sessions: ALL_SESSIONS,
            record_to: None,
            starter: None,
            replaces: false,
            first: FirstOptions {
                sloppy: false,
                known_fields: false,
                start_called: false,
            },
            pending: None,
        }
    }

    // Takes one more word.
    fn take(&mut self, alloc: Global, word: &str) -> Result<(), WordRefusal>
        ensures { StepGives (λ _. self.new) result (line_step self.old word.now) }
    {
        match mem::take(&mut self.pending) {
            Some(address) => self.take_path(alloc, address, word),
            None => self.take_word(alloc, word),
        }
    }

    // Takes the path of a block.
    fn take_path(&mut self, alloc: Global, address: String, word: &str) -> Result<(), WordRefusal>
        ensures { StepGives (λ _. self.new) result (line_path self.old (string_bytes address) word.now) }
    {
        if word.is_empty() || word.starts_with("--") {
            return Err(WordRefusal::Bad(WordKind::NoPath));
        }
        let path = match String::from_str(alloc, word) {
            Ok(path) => path,
            Err(_) => return Err(WordRefusal::Memory),
        };
        let block = Block {
            address,
            path,
            options: Options::begin(alloc, self.first),
        };
        match self.begin(block) {
            Ok(()) => Ok(()),
            Err(_) => Err(WordRefusal::Memory),
        }
    }

    // Begins one more block.
    fn begin(&mut self, block: Block) -> Result<(), AllocError>
        ensures { OnOk result (self.new ≡ with_block (block_seen block) self.old) }
    {
        self.pending = None;
        if let Some(last) = mem::replace(&mut self.last, Some(block)) {
            self.blocks.push(last)?;
        }
        Ok(())
    }

    // Takes an address or an option.
    fn take_word(&mut self, alloc: Global, word: &str) -> Result<(), WordRefusal>
        ensures { StepGives (λ _. self.new) result (line_word self.old word.now) }
    {
        if word.starts_with("--") {
            return self.take_option(alloc, word);
        }
        match read_address(alloc, word) {
            Ok(Some(address)) => self.take_address(address),
            Ok(None) => Err(WordRefusal::Bad(WordKind::BadAddress)),
            Err(_) => Err(WordRefusal::Memory),
        }
    }

    // Takes the address of one more block.
    fn take_address(&mut self, address: String) -> Result<(), WordRefusal>
        ensures { StepGives (λ _. self.new) result (line_address self.old (string_bytes address)) }
    {
        if self.count() == MOST_BLOCKS {
            return Err(WordRefusal::Bad(WordKind::TooMany));
        }
        self.pending = Some(address);
        Ok(())
    }

    // Takes one more option.
    fn take_option(&mut self, alloc: Global, word: &str) -> Result<(), WordRefusal>
        ensures { StepGives (λ _. self.new) result (option_word self.old word.now) }
    {
        match behind("--fd=", word) {
            Some(text) => self.take_starter(text),
            None => self.take_replace(alloc, word),
        }
    }

    // Takes the descriptor of the starter's pipe.
    fn take_starter(&mut self, text: &str) -> Result<(), WordRefusal>
        ensures { StepGives (λ _. self.new) result (with_starter self.old text.now) }
    {
        match read_descriptor(text) {
            Some(starter) => {
                self.starter = Some(starter);
                Ok(())
            }
            None => Err(WordRefusal::Bad(WordKind::BadNumber)),
        }
    }

    // Takes an option other than `--fd`.
    fn take_replace(&mut self, alloc: Global, word: &str) -> Result<(), WordRefusal>
        ensures { StepGives (λ _. self.new) result (replace_option self.old word.now) }
    {
        if word == "--replace" {
            self.replaces = true;
            return Ok(());
        }
        self.take_args(alloc, word)
    }

    // Takes an option other than `--fd` and `--replace`. A remaining `--args` is no option, since it names no file.
    fn take_args(&mut self, alloc: Global, word: &str) -> Result<(), WordRefusal>
        ensures { StepGives (λ _. self.new) result (args_word self.old word.now) }
    {
        match behind("--args=", word) {
            Some(text) if read_descriptor(text).is_none() => {
                Err(WordRefusal::Bad(WordKind::BadNumber))
            }
            _ => self.take_placed_option(alloc, word),
        }
    }

    // Takes an option of the last block or, before the first address, of every block.
    fn take_placed_option(&mut self, alloc: Global, word: &str) -> Result<(), WordRefusal>
        ensures { StepGives (λ _. self.new) result (placed_option self.old word.now) }
    {
        if self.last.is_none() {
            return self.take_first_option(word);
        }
        match behind("--sessions=", word) {
            Some(text) => self.take_sessions(text),
            None => self.take_other_option(alloc, word),
        }
    }

    // Takes an option before the first address.
    fn take_first_option(&mut self, word: &str) -> Result<(), WordRefusal>
        ensures { StepGives (λ _. self.new) result (first_option self.old word.now) }
    {
        match self.first.take(word) {
            Ok(()) => Ok(()),
            Err(refusal) => Err(refusal),
        }
    }

    // Takes an option other than `--sessions`.
    fn take_other_option(&mut self, alloc: Global, word: &str) -> Result<(), WordRefusal>
        ensures { StepGives (λ _. self.new) result (other_option self.old word.now) }
    {
        match behind("--record=", word) {
            Some(path) => self.take_record(alloc, path),
            None => self.take_block_option(alloc, word),
        }
    }

    // Takes the path of the file in which the sessions are recorded.
    fn take_record(&mut self, alloc: Global, path: &str) -> Result<(), WordRefusal>
        ensures { StepGives (λ _. self.new) result (with_record self.old path.now) }
    {
        if path.is_empty() {
            return Err(WordRefusal::Bad(WordKind::UnknownOption));
        }
        match String::from_str(alloc, path) {
            Ok(path) => {
                self.record_to = Some(path);
                Ok(())
            }
            Err(_) => Err(WordRefusal::Memory),
        }
    }

    // Takes the number of served sessions.
    fn take_sessions(&mut self, text: &str) -> Result<(), WordRefusal>
        ensures { StepGives (λ _. self.new) result (with_sessions self.old text.now) }
    {
        match read_sessions(text) {
            Some(sessions) => {
                self.sessions = sessions;
                Ok(())
            }
            None => Err(WordRefusal::Bad(WordKind::BadNumber)),
        }
    }

    // Takes one more option of the last block, other than `--sessions` and `--record`.
    fn take_block_option(&mut self, alloc: Global, word: &str) -> Result<(), WordRefusal>
        ensures { StepGives (λ _. self.new) result (with_block_option self.old word.now) }
    {
        match mem::take(&mut self.last) {
            Some(mut block) => {
                let taken = block.options.take(alloc, word);
                self.last = Some(block);
                taken
            }
            None => Err(WordRefusal::Bad(WordKind::OptionBeforeAddress)),
        }
    }

    // The number of blocks.
    fn count(&self) -> usize
        ensures { result ≡ length self.now.line.blocks }
    {
        match &self.last {
            Some(_) => self.blocks.len() + 1,
            None => self.blocks.len(),
        }
    }

    // The line, if no path is missing and there is a block.
    fn finish(mut self, words: usize) -> Result<ProxyLine, LineRefusal>
        ensures { Gives line_seen result (finished words self) }
    {
        if self.pending.is_some() {
            return Err(bad(words, WordKind::NoPath));
        }
        match mem::take(&mut self.last) {
            Some(last) => {
                self.blocks.push(last)?;
                Ok(ProxyLine {
                    blocks: self.blocks,
                    sessions: self.sessions,
                    record_to: self.record_to,
                    starter: self.starter,
                    replaces: self.replaces,
                })
            }
            None => Err(bad(words, WordKind::BadAddress)),
        }
    }
}

fn bad(index: usize, kind: WordKind) -> LineRefusal
    ensures { result ≡ refusal_at index (Bad kind) }
{
    LineRefusal::Bad(BadWord { index, kind })
}

// The number of sessions: from 1 to 1,000,000, in decimal without leading zeros.
fn read_sessions(text: &str) -> Option<u32>
    ensures { or_kind BadNumber result ≡ sessions_of text.now }
{
    let digits = text.as_bytes();
    if digits.is_empty() || digits[0] == b'0' {
        return None;
    }
    read_digits(digits, MOST_SESSIONS)
}

/// Reads the number of a file descriptor: a decimal number without leading zeros, at most 2,147,483,647, since a
/// descriptor is an `int` (POSIX.1-2024, `open`).
pub fn read_descriptor(text: &str) -> Option<u32>
    ensures { result ≡ descriptor_of text.now }
{
    let digits = text.as_bytes();
    if digits.is_empty() || has_leading_zero(digits) {
        return None;
    }
    read_digits(digits, MOST_DESCRIPTOR)
}

// Whether digits begin with a zero that is followed by more digits.
fn has_leading_zero(digits: &[u8]) -> bool
    ensures { result ≡ has_leading_zero digits.now }
{
    match digits {
        [first, _, ..] => *first == b'0',
        _ => false,
    }
}

// The value of decimal digits, if it is at most `most`.
fn read_digits(digits: &[u8], most: u32) -> Option<u32>
    ensures { result ≡ worth_of most digits.now }
{
    let mut number: u64 = 0;
    for digit in digits {
        if !digit.is_ascii_digit() {
            return None;
        }
        number = number * 10 + (*digit - b'0') as u64;
        if number > most as u64 {
            return None;
        }
    }
    Some(number as u32)
}

/// Reads a proxy line, or finds its first bad word.
///
/// A line has blocks, each a bus address, a path to listen on, and then options, which begin with `--`
/// (xdg-dbus-proxy(1), "Synopsis"). The options are those of `read_options`, `--sessions=N` and `--record=FILE`. The
/// last two may be in any block, and the last one of each counts; N is 1 to 1,000,000, and FILE isn't empty.
///
/// `--fd=FD`, of which the last counts, and `--replace` may be in any block and before the first one. `--sloppy-names`,
/// `--known-fields` and `--start-called` may also be before the first one, and then every block has them.
///
/// Of an address, the `path` of its first part that begins with `unix:` and has one is taken (D-Bus Specification,
/// "Server Addresses"). `BadAddress` is an address without such a path, or whose path is empty, has a NUL, isn't UTF-8
/// or has `%` without two hexadecimal digits; or, at the index after the last word, a missing address. `NoPath` is an
/// empty word, an option or the end in place of the path. `OptionBeforeAddress` is any other option before the first
/// block. `BadNumber` is a wrong N, an FD that `read_descriptor` refuses, or `--args=FD` with such an FD.
/// `UnknownOption` is also an empty FILE, and `TooMany` also the address of block 65,536.
pub fn read_line(alloc: Global, words: &[String]) -> Result<ProxyLine, LineRefusal>
    ensures { Gives line_seen result (line_of (map (λ w. string_bytes w) words.now)) }
{
    match read_words(alloc, words) {
        Ok(reading) => reading.finish(words.len()),
        Err(refusal) => Err(refusal),
    }
}

// What the words give, one after the other.
fn read_words(alloc: Global, words: &[String]) -> Result<Reading, LineRefusal>
    ensures { Gives (λ r. r) result (each_word line_step 0 no_words (map (λ w. string_bytes w) words.now)) }
{
    let mut reading = Reading::new(alloc);
    for (index, word) in words.iter().enumerate() {
        if let Err(refusal) = reading.take(alloc, word.as_str()) {
            return Err(refusal.at(index));
        }
    }
    Ok(reading)
}
