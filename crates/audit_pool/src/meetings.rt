//! Tests of jobs: they are done at the same time, and their answers are in order.
use crate::{Job, answers};
use std::alloc::AllocError;
use std::sync::atomic::{AtomicBool, Ordering};
use std::test::Fail;

/// The maximum number of times that a job looks at the flag.
const LOOKS: u32 = 1_000_000_000;

/// A job that raises its own flag, and answers whether it sees that of another job.
#[derive(Drop)]
struct Meeting<'a> {
    own: &'a AtomicBool,
    other: &'a AtomicBool,
}

impl Job for Meeting<'_> {
    type Answer = bool;

    ghost allows = { λ _ _. Unit {0} };

    fn answer(&self) -> Result<bool, AllocError> {
        self.own.store(true, Ordering::SeqCst);
        for _ in 0..LOOKS {
            if self.other.load(Ordering::SeqCst) {
                return Ok(true);
            }
        }
        Ok(false)
    }
}

/// A job that answers its number.
#[derive(Drop)]
struct Numbered {
    number: u32,
}

impl Job for Numbered {
    type Answer = u32;

    ghost use Rattle.std.specs.Prelude.{◌≡◌};

    ghost allows = { λ job answer. answer ≡ job.number };

    fn answer(&self) -> Result<u32, AllocError> {
        Ok(self.number)
    }
}

#[test]
fn two_jobs_meet(rt: HostRuntime) -> Result<(), Fail> {
    let first = AtomicBool::new(false);
    let second = AtomicBool::new(false);
    let jobs = [
        Meeting {
            own: &first,
            other: &second,
        },
        Meeting {
            own: &second,
            other: &first,
        },
    ];
    let met = answers(&rt, rt.alloc(), &jobs)?;
    assert!(rt; met.as_slice() == &[true, true][..]);
    Ok(())
}

#[test]
fn answers_have_the_order_of_their_jobs(rt: HostRuntime) -> Result<(), Fail> {
    let mut jobs = Vec::new(rt.alloc());
    for number in 0..17u32 {
        let found = answers(&rt, rt.alloc(), &jobs)?;
        assert_eq!(rt; found.len(), number as usize);
        for (index, answer) in found.iter().enumerate() {
            assert_eq!(rt; *answer as usize, index);
        }
        jobs.push(Numbered { number })?;
    }
    Ok(())
}
