//! Jobs that are done in parallel, each once.
#![tactic(auto)]

#[cfg(test)]
mod meetings;

ghost use Rattle.std.specs.Prelude.{◌≡◌, ◌++◌, ◌∷◌, [], IfOk};
ghost use Rattle.std.specs.List.{AllZip};
ghost use Rattle.std.specs.Thread.{IsSync};

use std::alloc::{AllocError, Global};
use std::thread::{Threads, join};

/// A job, which may be done on any thread and doesn't change.
pub trait Job: Sync {
    /// The type of the job's answer.
    type Answer: Send + Drop;

    // The answers that the job may give. If only one is possible, parallel jobs give the same answers as one thread.
    ghost allows: { Self → Self.Answer → Type 0 };

    /// Does the job. It fails if memory is refused.
    fn answer(&self) -> Result<Self::Answer, AllocError>
        ensures { IfOk result (allows self.now) };
}

/// Does all jobs and returns their answers, one for each, in their order. The jobs are halved down to one, and the
/// runtime joins both halves, so that they may be done at the same time. It fails if memory is refused, also in a job;
/// the other jobs may then have been done or not.
pub fn answers<R: Threads + Sync, J: Job>(
    rt: &R,
    alloc: Global,
    jobs: &[J],
) -> Result<Vec<J::Answer>, AllocError>
    ensures { IfOk result (λ found. AllZip J.allows jobs.now found.items) }
{
    match jobs {
        [] => Ok(Vec::new(alloc)),
        [job] => answer_of(alloc, job),
        _ => {
            let (front, back) = jobs.split_at(jobs.len() / 2);
            let (first, second) = join(
                rt,
                || -> Result<Vec<J::Answer>, AllocError>
                    requires { IsSync R.row × IsSync J.row }
                    ensures { IfOk result (λ found. AllZip J.allows front.entry.now found.items) }
                { answers(rt, alloc, front) },
                || -> Result<Vec<J::Answer>, AllocError>
                    requires { IsSync R.row × IsSync J.row }
                    ensures { IfOk result (λ found. AllZip J.allows back.entry.now found.items) }
                { answers(rt, alloc, back) },
            );
            both(first?, second?)
        }
    }
}

/// The answer of one job.
fn answer_of<J: Job>(alloc: Global, job: &J) -> Result<Vec<J::Answer>, AllocError>
    ensures { IfOk result (λ found. AllZip J.allows (job.now ∷ []) found.items) }
{
    let mut found = Vec::with_capacity(alloc, 1)?;
    found.push(job.answer()?)?;
    Ok(found)
}

/// The answers of two lists, one list after the other.
fn both<A: Drop>(first: Vec<A>, second: Vec<A>) -> Result<Vec<A>, AllocError>
    ensures { IfOk result (λ found. found.items ≡ first.items ++ second.items) }
{
    let mut found = first;
    let mut others = second;
    found.append(&mut others)?;
    Ok(found)
}
