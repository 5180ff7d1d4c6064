//! The options in the words of a policy file.
ghost use Rattle.std.specs.Prelude.{◌≡◌, map, string_bytes, OnErr};
ghost use Rattle.policy_args.specs.Gives.{Gives, StepGives};
ghost use Rattle.policy_args.specs.ProxyLine.{option_for_all};
ghost use Rattle.policy_args.specs.Seen.{first_seen, options_seen};
ghost use Rattle.policy_args.specs.Words.{no_options, options_of, with_option};

use crate::WordKind;
use crate::entry::read_entry;
use crate::policy::Policy;
use crate::refusals::{LineRefusal, WordRefusal};
use std::alloc::Global;

/// What words ask for (xdg-dbus-proxy(1), "Options").
#[derive(Drop)]
pub struct Options {
    /// Whether messages are filtered: `--filter` was among the words.
    pub filter: bool,
    /// Whether each filtered message has a line in the log: `--log` was among the words.
    pub log: bool,
    /// What the other words allow.
    pub policy: Policy,
}

// What the options before the first address of a line ask for in every block.
#[derive(Clone, Copy)]
pub(crate) struct FirstOptions {
    // `--sloppy-names` was among them.
    pub(crate) sloppy: bool,
    // `--known-fields` was.
    pub(crate) known_fields: bool,
    // `--start-called` was.
    pub(crate) start_called: bool,
}

impl FirstOptions {
    // Takes one more word.
    pub(crate) fn take(&mut self, word: &str) -> Result<(), WordRefusal>
        ensures { StepGives (λ _. first_seen self.new) result (option_for_all (first_seen self.old) word.now) }
    {
        if word == "--sloppy-names" {
            self.sloppy = true;
            return Ok(());
        }
        if word == "--known-fields" {
            self.known_fields = true;
            return Ok(());
        }
        if word == "--start-called" {
            self.start_called = true;
            return Ok(());
        }
        Err(WordRefusal::Bad(WordKind::OptionBeforeAddress))
    }
}

impl Options {
    // The options with which a block begins.
    pub(crate) fn begin(alloc: Global, first: FirstOptions) -> Options
        ensures { options_seen result ≡ first_seen first }
    {
        let mut options = Options::new(alloc);
        options
            .policy
            .set_first(first.sloppy, first.known_fields, first.start_called);
        options
    }

    // The options without any words.
    pub(crate) fn new(alloc: Global) -> Options
        ensures { options_seen result ≡ no_options }
    {
        Options {
            filter: false,
            log: false,
            policy: Policy::new(alloc),
        }
    }

    // Takes one more word.
    pub(crate) fn take(&mut self, alloc: Global, word: &str) -> Result<(), WordRefusal>
        ensures exact { StepGives (λ _. options_seen self.new) result (with_option (options_seen self.old) word.now) }
        ensures err { OnErr result (self.new ≡ self.old) }
    {
        if word == "--filter" {
            self.filter = true;
            return Ok(());
        }
        if word == "--log" {
            self.log = true;
            return Ok(());
        }
        if word == "--sloppy-names" {
            self.policy.set_sloppy();
            return Ok(());
        }
        if word == "--known-fields" {
            self.policy.set_known_fields();
            return Ok(());
        }
        if word == "--start-called" {
            self.policy.set_start_called();
            return Ok(());
        }
        match read_entry(alloc, word) {
            Ok(entry) => self.policy.add(alloc, word, entry),
            Err(refusal) => Err(refusal),
        }
    }
}

/// Reads options, or finds the first bad word (xdg-dbus-proxy(1), "Options").
///
/// `--filter` asks for the filter, and `--log` for a line of the log for each message. With `--sloppy-names`, owner
/// changes of all unique names are shown. With `--known-fields`, messages of the client with a header field of an
/// unknown code are refused. With `--start-called`, also an option of this program, names at See that a Call entry
/// covers may be started.
///
/// Each other word gives an entry: `--see=NAME`, `--talk=NAME` and `--own=NAME` a level, and `--call=NAME=RULE`,
/// `--broadcast=NAME=RULE` and `--property=NAME=RULE` the level `See` and what a rule matches. The RULE of `--call` and
/// `--broadcast` is `[METHOD][@PATH]`. That of `--property`, an option of this program, is `INTERFACE.PROPERTY[@PATH]`:
/// those properties may be read and set. NAME is a well-known bus name or `N.*`, and before a RULE it ends at the first
/// `=`.
///
/// Any other NAME is a `BadName`, and after a good NAME a missing or wrong RULE is a `BadRule`. A word that is none of
/// these is an `UnknownOption`. A repeated word adds nothing, and the word that would give entry 65,536 is one of
/// `TooMany`.
pub fn read_options(alloc: Global, words: &[String]) -> Result<Options, LineRefusal>
    ensures { Gives options_seen result (options_of (map (λ w. string_bytes w) words.now)) }
{
    let mut options = Options::new(alloc);
    for (index, word) in words.iter().enumerate() {
        if let Err(refusal) = options.take(alloc, word.as_str()) {
            return Err(refusal.at(index));
        }
    }
    Ok(options)
}
