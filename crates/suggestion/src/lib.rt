//! The policy file that is suggested for recordings: the least policy that permits what their clients asked.
#![tactic(auto)]

mod file;
mod requests;

ghost use Rattle.std.specs.Prelude.{◌≡◌, ◌≤◌, ◌<◌, IfOk, IsErrOf, OnOk, length, map, string_bytes};
ghost use Rattle.recording.specs.Seen.{recording_seen};
ghost use Rattle.suggestion.specs.Suggestion.{policy_for, suggestion_of};

use file::file_of;
use link_traits::Gate;
use policy_suggest::{SuggestRefusal, once_suffices, suggest};
use recording::Recording;
use requests::requests_of;
use std::alloc::Global;
use std::thread::Threads;

/// The policy file of the least policy that permits what the clients of recordings asked of well-known names, whatever
/// the proxy decided on it: `--filter` and the words of the entries, each ended by NUL. Each recording is played under
/// `--filter` alone by a job, which enters the gate with the number of the recording, from 1, before it begins.
///
/// It is `TooMany` if the policy would have more than 65,535 entries, and `Memory` if memory is refused, also if a
/// session ended so.
pub fn suggestion<R: Threads + Sync, T: Gate + Sync>(
    rt: &R,
    gate: &T,
    alloc: Global,
    recordings: &[Recording],
) -> Result<String, SuggestRefusal>
    ensures text { IfOk result (λ text. string_bytes text ≡ suggestion_of (map recording_seen recordings.now)) }
    ensures few { OnOk result (length (policy_for (map recording_seen recordings.now)).entries ≤ 65535) }
    ensures too_many { IsErrOf result SuggestRefusal.TooMany → 65535 < length (policy_for (map recording_seen recordings.now)).entries }
{
    once_suffices();
    let requests = requests_of(rt, gate, alloc, recordings)?;
    let policy = suggest(alloc, requests.as_slice())?;
    Ok(file_of(alloc, &policy)?)
}
