//! Comparing two recordings by what the policy lets be seen of them.
ghost use Rattle.std.specs.Prelude.{◌≡◌, ◌↔◌, [], IfOk, IsTrue};
ghost use Rattle.recording.specs.Seen.{recording_seen};
ghost use Rattle.replay_output.specs.Output.{output_of_recording};
ghost use Rattle.replay.specs.Watching.{Gave};
ghost use Rattle.replay.specs.Twins.{Compares, ComparesEnds, compared_under, part_of_recording};

use crate::watching::Watched;
use policy_args::Policy;
use policy_view::{
    End, Visible, bytes_only_grow, elements_tell_the_part, parts_differ_as_given,
    what_is_hidden_changes_nothing,
};
use recording::Recording;
use std::alloc::{AllocError, Global};

/// What a comparison of two recordings answers.
#[derive(Clone, Copy, Debug, PartialEq, Eq)]
pub enum TwinAnswer {
    /// The visible parts are equal.
    Same,
    /// The first place, from 1, at which the visible parts differ; where the shorter one ends is a place too.
    Differ(u64),
}

/// Whether both are the same element, or neither is one.
fn are_same(one: &Option<Visible>, other: &Option<Visible>) -> bool
    ensures { IsTrue result ↔ (one.now ≡ other.now) }
{
    match (one, other) {
        (Some(one), Some(other)) => one.is_same(other),
        (None, None) => true,
        _ => false,
    }
}

/// Compares the Ends, whose place is this one, after equal elements.
fn compare_ends(one: Option<End>, other: Option<End>, place: u64) -> TwinAnswer
    ensures { ComparesEnds one other place result }
{
    if one == other {
        TwinAnswer::Same
    } else {
        TwinAnswer::Differ(place)
    }
}

/// Compares the elements as they come, and then the Ends. Neither recording is ahead by more than what an event of it
/// brought.
fn compare_watched(
    policy: &Policy,
    one: &Recording,
    other: &Recording,
    first: &mut Watched,
    second: &mut Watched,
) -> Result<TwinAnswer, AllocError>
    requires one { Gave policy.now (recording_seen one.now) first.old [] }
    requires other { Gave policy.now (recording_seen other.now) second.old [] }
    ensures { IfOk result (λ answer. Compares (part_of_recording policy.now (recording_seen one.now)) (part_of_recording policy.now (recording_seen other.now)) answer) }
{
    bytes_only_grow();
    elements_tell_the_part();
    parts_differ_as_given();
    for same in 0..u64::MAX {
        let element = first.next_element(policy, one)?;
        let against = second.next_element(policy, other)?;
        if !are_same(&element, &against) {
            return Ok(TwinAnswer::Differ(same + 1));
        }
        if element.is_none() {
            return Ok(compare_ends(first.ended(), second.ended(), same + 1));
        }
    }
    Err(AllocError)
}

/// Plays another recording beside the first, of which nothing was played yet, and compares what is left of both.
fn compare_with(
    alloc: Global,
    policy: &Policy,
    one: &Recording,
    other: &Recording,
    first: &mut Watched,
) -> Result<TwinAnswer, AllocError>
    requires { Gave policy.now (recording_seen one.now) first.old [] }
    ensures { IfOk result (λ answer. Compares (part_of_recording policy.now (recording_seen one.now)) (part_of_recording policy.now (recording_seen other.now)) answer) }
{
    let mut second = Watched::new(alloc, policy, other)?;
    compare_watched(policy, one, other, first, &mut second)
}

/// Plays both recordings, and compares what is left of them.
fn compare(
    alloc: Global,
    policy: &Policy,
    one: &Recording,
    other: &Recording,
) -> Result<TwinAnswer, AllocError>
    ensures { IfOk result (λ answer. Compares (part_of_recording policy.now (recording_seen one.now)) (part_of_recording policy.now (recording_seen other.now)) answer) }
{
    let mut first = Watched::new(alloc, policy, one)?;
    compare_with(alloc, policy, one, other, &mut first)
}

/// Plays two recordings under a policy, always filtering, and compares the policy-visible parts of their histories,
/// element by element as they come, and then their Ends. If the parts are equal, both recordings have the same output,
/// whatever the policy hides in either. Refused if memory is refused, also to a session.
pub fn twin(
    alloc: Global,
    policy: &Policy,
    one: &Recording,
    other: &Recording,
) -> Result<TwinAnswer, AllocError>
    ensures compared { IfOk result (λ answer. Compares (part_of_recording policy.now (recording_seen one.now)) (part_of_recording policy.now (recording_seen other.now)) answer) }
    ensures output { IfOk result (λ answer. answer ≡ TwinAnswer.Same → output_of_recording (compared_under policy.now) (recording_seen one.now) ≡ output_of_recording (compared_under policy.now) (recording_seen other.now)) }
{
    what_is_hidden_changes_nothing();
    compare(alloc, policy, one, other)
}
