//! Auditing recordings: what a policy denies in them, and which of its entries none of them needs.
//!
//! What is counted of each recording is gathered from its notes by a job of its own.
#![tactic(auto)]

mod counters;
mod lines;
mod marks;
mod names;
mod sums;
mod tally;

ghost use Rattle.std.specs.Prelude.{◌≡◌, IfOk, map, string_bytes};
ghost use Rattle.policy_args.specs.Seen.{options_seen};
ghost use Rattle.recording.specs.Seen.{recording_seen};
ghost use Rattle.audit.specs.Audit.{audit_of};

use lines::audit_text;
use link_traits::Gate;
use note_gathering::gather;
use policy_args::Options;
use recording::Recording;
use std::alloc::{AllocError, Global};
use std::thread::Threads;
use tally::Count;

/// The denials that recordings meet under the options, counted, and the entries that no item of a recording names: a
/// line for each recording, for each reason and each entry with denials, and for each entry that isn't named. Each
/// recording is played by a job, which enters the gate with the number of the recording, from 1, before it begins.
/// Refused if memory is refused, also to a session, or if a count is too large.
pub fn audit<R: Threads + Sync, G: Gate + Sync>(
    rt: &R,
    gate: &G,
    alloc: Global,
    options: &Options,
    recordings: &[Recording],
) -> Result<String, AllocError>
    ensures { IfOk result (λ text. string_bytes text ≡ audit_of (options_seen options.now) (map recording_seen recordings.now)) }
{
    let count = Count {
        policy: &options.policy,
    };
    let tallies = gather(rt, gate, alloc, &count, options, recordings)?;
    audit_text(alloc, &options.policy, &tallies)
}
