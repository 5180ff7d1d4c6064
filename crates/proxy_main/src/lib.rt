//! What the program does with its command line.
//!
//! `ADDRESS PATH [OPTION..]` and further such blocks are a proxy line: the program listens at each PATH, and serves
//! each client that comes between it and the bus at ADDRESS, by the block's options. With the option `--record=FILE` it
//! records what the links of its sessions give. With `--fd=FD` and `--replace` the net is asked to tell its starter
//! that it listens, and to replace sockets.
//!
//! The tools work on files. `replay POLICY RECORDING` plays a recorded session under a policy, and writes what its
//! sides get on the standard output; if the policy asks for a log, that is written first, on the standard error.
//! `explain POLICY RECORDING N` plays it, too, and writes what was decided on its message of number N, and the entry of
//! the policy on which that rests. `twin POLICY A B` plays two, and writes whether they are the same to the policy, or
//! where they first differ. `sample N SEED` plays a generated session, and sums it up. `audit POLICY RECORDING..` plays
//! up to 16, and writes what the policy denies of them. `within A B` writes whether the policy A permits nothing that B
//! doesn't. `suggest RECORDING..` plays up to 16, and writes the least policy that permits what their clients asked.
//! `show FILE` writes the text of the message that a file holds, and `compose FILE` the message whose text a file
//! holds. `session RECORDING N` writes one session of a recording of many as a recording of its own, and `sessions
//! RECORDING` lists the sessions that it has. `--help` and `--version` write what they say.
//!
//! A run ends with a status, and with a line on the standard error if the status says that something is wrong.
#![tactic(auto)]

mod containment;
mod disk;
mod disk_files;
mod files;
mod lines;
mod messages;
mod process;
mod program;
mod recorded;
mod serving;
mod sessions;
mod stops;
mod texts;
mod tools;
mod words;
mod work;

ghost use Rattle.std.specs.Prelude.{◌≤◌};

pub use disk::{Disk, SystemDisk};
pub use disk_files::DiskFiles;
use message_files::{BadMessage, BadTextFile};
use policy_args::BadWord;
pub use process::{Start, fault_status, start_process};
pub use program::run;
use recording::BadRecording;
pub use texts::{HELP, VERSION};
use thiserror::Error;
pub use tools::tool;

/// The most bytes that a policy file may have, 16 MiB: far more than the 65,535 entries of a
/// policy take, and little beside the memory of a program.
pub const POLICY_LIMIT: usize = 16_777_216;

/// Why the words or a file are refused.
#[derive(Clone, Copy, Debug, PartialEq, Eq, Error)]
pub enum Refusal {
    /// The words of a tool aren't those that it takes.
    #[error("the words are not those that the tool takes")]
    Usage,
    /// A word of a proxy line is bad.
    #[error("the word at index {} of the proxy line is bad", .0.index)]
    LineWord(BadWord),
    /// A file of words of a proxy line has more than `line_words::ARGS_LIMIT` bytes.
    #[error("a file of words has too many bytes")]
    ArgsTooLong,
    /// A word of the policy file is bad.
    #[error("the word at index {} of the policy file is bad", .0.index)]
    PolicyWord(BadWord),
    /// The policy file has more than `POLICY_LIMIT` bytes.
    #[error("the policy file has too many bytes")]
    PolicyTooLong,
    /// The recording has this first fault, which may be that it has more than
    /// `recording::RECORDING_LIMIT` bytes.
    #[error("the recording is bad at {}", .0.at)]
    Recording(BadRecording),
    /// The recording has no message of the number.
    #[error("the recording has no message of the number")]
    NoSuchMessage,
    /// The recording has no session of the number.
    #[error("the recording has no session of the number")]
    NoSuchSession,
    /// The policy that is asked for would have more than 65,535 entries.
    #[error("the policy would have too many entries")]
    TooManyEntries,
    /// The file of `show` isn't one valid message, which may be since it has more than `message_files::MESSAGE_LIMIT`
    /// bytes.
    #[error("the message is bad at {}", .0.at)]
    Message(BadMessage),
    /// The file of `compose` is no valid message's text, which may be since it has more than
    /// `message_files::TEXT_LIMIT` bytes.
    #[error("the file is no message's text")]
    Text(BadTextFile),
}

/// Why a run stops before its work is done.
#[derive(Clone, Copy, Debug, PartialEq, Eq, Error)]
pub(crate) enum Stop<'a> {
    /// The words, a file, the number of a message or of a session, or a policy with too many entries are refused,
    /// and nothing was written.
    #[error("{0}")]
    Refused(Refusal),
    /// The file at this path, which the words name, was not read, or not made or written.
    #[error("the file {0} failed")]
    File(&'a str),
    /// The output was not written; a prefix of it may have been. The whole log was written before.
    #[error("the output could not be written")]
    Output,
    /// The log was not written; a prefix of it may have been. Only a replay whose options ask for a log has one.
    #[error("the log could not be written")]
    Log,
    /// Memory was refused.
    #[error("out of memory")]
    Memory,
}

/// The status of a run.
///
/// 0: the whole log and the whole output were written, or nothing is left to be served. 1: the words are refused, or a
/// file of them is too long. 2: a word of a policy, or its NAME or RULE in a proxy line, is refused, or the policy file
/// is too long. 3: a recording, or the file of a message or of a text, is refused. 4: a file was not read, or the file
/// of a recording could not be made or written. 5: the net could not listen or wait, or didn't take the line's setting.
/// 6: the output or the log of a tool was not written. 7: the parts differ that the policy leaves of two recordings, or
/// a policy is not within another. 8: memory ran out. 9: the recording has no message, or no session, of the number.
#[derive(Clone, Copy, Debug, PartialEq, Eq)]
pub struct Status {
    /// The number that the process ends with.
    pub code: u8,
    ghost small: { code ≤ 9 },
}
