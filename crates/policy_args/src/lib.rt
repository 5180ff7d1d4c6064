//! The words of a policy and of a proxy line, and the policy that they give.
//!
//! A policy file has one option in each word, as xdg-dbus-proxy(1) reads them from its `--args` file. A proxy line has
//! blocks of a bus address, a path to listen on, and options.
#![tactic(auto)]

ghost use Rattle.std.specs.Prelude.{◌≡◌};
ghost use Rattle.policy_args.specs.EntryRanks.{level_of_rank, rank_of};
ghost use Rattle.policy_args.specs.Policy.{at_least, greater};

mod address;
mod entry;
mod fact;
mod laws;
mod line;
mod options;
mod patterns;
mod policy;
mod refusals;
mod requests;
mod words;

pub use entry::{Entry, Grant};
pub use fact::Fact;
pub use laws::{
    covering_numbers_find_entries, covering_numbers_have_entries, entries_have_one_word,
    permits_by_entries, within_itself, within_through, words_give_their_entries,
};
pub use line::{Block, ProxyLine, read_descriptor, read_line};
pub use name_patterns::{Covering, Steps};
pub use options::{Options, read_options};
pub use policy::Policy;
pub use refusals::LineRefusal;
pub use requests::{Access, Asked};
use thiserror::Error;
pub use words::words_of;

/// How far a policy lets a name be used (xdg-dbus-proxy(1), "Filtering").
#[derive(Clone, Copy, Debug, PartialEq, Eq)]
pub enum Level {
    /// The name is hidden.
    None,
    /// The name is visible.
    See,
    /// The name's methods may also be called.
    Talk,
    /// The name may also be owned.
    Own,
}

impl Level {
    /// The greater of two levels.
    pub fn max_with(self, other: Level) -> Level
        ensures { result ≡ greater self other }
    {
        match (self, other) {
            (Level::Own, _) | (_, Level::Own) => Level::Own,
            (Level::Talk, _) | (_, Level::Talk) => Level::Talk,
            (Level::See, _) | (_, Level::See) => Level::See,
            (Level::None, Level::None) => Level::None,
        }
    }

    /// Whether this level is `least` or greater.
    pub fn is_at_least(self, least: Level) -> bool
        ensures { result ≡ at_least least self }
    {
        match (least, self) {
            (Level::None, _) => true,
            (_, Level::None) => false,
            (Level::See, _) => true,
            (_, Level::See) => false,
            (Level::Talk, _) | (_, Level::Own) => true,
            (Level::Own, Level::Talk) => false,
        }
    }

    // The rank of the level. A greater level has a greater rank.
    pub(crate) fn rank(self) -> u8
        ensures { result ≡ rank_of self }
    {
        match self {
            Level::None => 0,
            Level::See => 1,
            Level::Talk => 2,
            Level::Own => 3,
        }
    }

    // The level with the rank.
    pub(crate) fn of_rank(rank: u8) -> Level
        ensures { result ≡ level_of_rank rank }
    {
        match rank {
            0 => Level::None,
            1 => Level::See,
            2 => Level::Talk,
            _ => Level::Own,
        }
    }
}

/// What is wrong with a word.
#[derive(Clone, Copy, Debug, PartialEq, Eq, Error)]
pub enum WordKind {
    /// The word is no option (xdg-dbus-proxy(1), "Options").
    #[error("unknown option")]
    UnknownOption,
    /// The option's name isn't a bus name that the option takes (xdg-dbus-proxy(1), "Filtering"; D-Bus Specification,
    /// "Valid Names").
    #[error("the option's name is no bus name that it takes")]
    BadName,
    /// The option's rule is missing, or isn't a rule that the option takes (xdg-dbus-proxy(1), `--call`).
    #[error("the option's rule is no rule that it takes")]
    BadRule,
    /// The bus address isn't valid (D-Bus Specification, "Server Addresses").
    #[error("the word is no bus address with the path of a socket")]
    BadAddress,
    /// No path follows a bus address (xdg-dbus-proxy(1), "Synopsis").
    #[error("no path follows the bus address")]
    NoPath,
    /// An option of one block precedes the first bus address (xdg-dbus-proxy(1), "Synopsis").
    #[error("an option stands before the first bus address")]
    OptionBeforeAddress,
    /// The option's number isn't a number, or is out of its range.
    #[error("the option has no number in its range")]
    BadNumber,
    /// The word would give more entries than the 65,535 that a policy may have, or more blocks than the 65,535 that a
    /// line may have.
    #[error("more than 65,535 entries or blocks")]
    TooMany,
}

/// The first bad word.
#[derive(Clone, Copy, Debug, PartialEq, Eq, Error)]
#[error("word {index}: {kind}")]
pub struct BadWord {
    /// Its index among the words, from 0. A missing path or address has the index after the last word.
    pub index: usize,
    /// What is wrong with it.
    pub kind: WordKind,
}
