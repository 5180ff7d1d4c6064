//! The summary of a sample.
ghost use Rattle.std.specs.Prelude.{◌≡◌, ◌≤◌, IfOk, OnOk, IsErrOf, string_bytes};
ghost use Rattle.link_traits.specs.Told.{added, Part};
ghost use Rattle.link_traits.specs.Views.{SinkRose};
ghost use Rattle.sample.specs.Summary.{sample_history, sample_options, summary_of};

use crate::generator::MOST_DRAWS;
use crate::playing::count_sample;
use crate::writing::SampleFault;
use link_traits::{Sink, write_all};
use std::alloc::{AllocError, Global};

/// The line of a sample.
#[tactic(auto, unfolding(crate::specs::Summary::summary_of))]
fn summary_line(alloc: Global, n: u32, seed: u64) -> Result<String, AllocError>
    requires { n ≤ MOST_DRAWS }
    ensures { IfOk result (λ line. string_bytes line ≡ summary_of sample_options.policy (sample_history n seed)) }
{
    let counts = count_sample(alloc, n, seed)?;
    counts.line(alloc)
}

/// Plays the sample of a number of draws after a seed under its policy, and writes one line: how many messages it has
/// and what becomes of them, and how many bytes there are for either side. The recording isn't held: a message is made
/// once the one before it was played. The line is written once all were.
#[tactic(auto, using(link_traits::proofs::Parts::part_none))]
pub fn summary<O: Sink>(alloc: Global, n: u32, seed: u64, out: &mut O) -> Result<(), SampleFault>
    requires { n ≤ MOST_DRAWS }

    // out gets the line: all of it, or a prefix if out fails, or nothing if memory is refused.
    ensures ok { OnOk result ((O.view out.new).told ≡ added (summary_of sample_options.policy (sample_history n seed)) (O.view out.old).told) }
    ensures part { Part (O.view out.old).told (O.view out.new).told (summary_of sample_options.policy (sample_history n seed)) }
    ensures memory { IsErrOf result SampleFault.Memory → (O.view out.new).told ≡ (O.view out.old).told }

    // out is named only if it failed.
    ensures cause { IsErrOf result SampleFault.Out → SinkRose (O.view out.old) (O.view out.new) }
    ensures count { (O.view out.old).faults ≤ (O.view out.new).faults }
{
    let line = summary_line(alloc, n, seed)?;
    write_all(out, line.as_bytes())?;
    Ok(())
}
