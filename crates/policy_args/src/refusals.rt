//! Why words are refused.
ghost use Rattle.std.specs.Prelude.{◌≡◌};
ghost use Rattle.policy_args.specs.Gives.{refusal_at};

use crate::{BadWord, WordKind};
use call_rules::BadRule;
use std::alloc::{AllocError, AllocFailed};
use thiserror::Error;

/// Why words weren't read.
#[derive(Debug, Drop, Error)]
pub enum LineRefusal {
    /// A word isn't an option, or isn't as its option requires.
    #[error(transparent)]
    Bad(BadWord),
    /// Memory ran out.
    #[error("out of memory")]
    Memory,
}

impl From<AllocError> for LineRefusal {
    ghost use Rattle.policy_args.specs.declared.refusals.LineRefusal.TheVariants.{Memory};

    ghost from_gives = { λ _ e. e ≡ Memory };

    fn from(_error: AllocError) -> LineRefusal {
        LineRefusal::Memory
    }
}

impl<T: Drop> From<AllocFailed<T>> for LineRefusal {
    ghost use Rattle.policy_args.specs.declared.refusals.LineRefusal.TheVariants.{Memory};

    ghost from_gives = { λ _ e. e ≡ Memory };

    fn from(_error: AllocFailed<T>) -> LineRefusal {
        LineRefusal::Memory
    }
}

// Why one word was refused.
#[derive(Drop)]
pub(crate) enum WordRefusal {
    // The word isn't an option, or isn't as its option requires.
    Bad(WordKind),
    // Memory ran out.
    Memory,
}

impl WordRefusal {
    // The refusal of the word at an index.
    pub(crate) fn at(self, index: usize) -> LineRefusal
        ensures { result ≡ refusal_at index self }
    {
        match self {
            WordRefusal::Bad(kind) => LineRefusal::Bad(BadWord { index, kind }),
            WordRefusal::Memory => LineRefusal::Memory,
        }
    }
}

impl From<BadRule> for WordRefusal {
    ghost use Rattle.policy_args.specs.Gives.{refusal_of_rule};

    ghost from_gives = { λ error refusal. refusal ≡ refusal_of_rule error };

    fn from(error: BadRule) -> WordRefusal {
        match error {
            BadRule::Form => WordRefusal::Bad(WordKind::BadRule),
            BadRule::Memory => WordRefusal::Memory,
        }
    }
}

impl From<AllocError> for WordRefusal {
    ghost use Rattle.policy_args.specs.declared.refusals.WordRefusal.TheVariants.{Memory};

    ghost from_gives = { λ _ e. e ≡ Memory };

    fn from(_error: AllocError) -> WordRefusal {
        WordRefusal::Memory
    }
}

impl<T: Drop> From<AllocFailed<T>> for WordRefusal {
    ghost use Rattle.policy_args.specs.declared.refusals.WordRefusal.TheVariants.{Memory};

    ghost from_gives = { λ _ e. e ≡ Memory };

    fn from(_error: AllocFailed<T>) -> WordRefusal {
        WordRefusal::Memory
    }
}
