//! The least policy that permits requests.
ghost use Rattle.std.specs.Prelude.{◌≡◌, ◌≤◌, ◌<◌, IfOk, IsErrOf, OnOk, length, true};
ghost use Rattle.std.specs.List.{list_all};
ghost use Rattle.policy_suggest.specs.Suggest.{is_asked, suggested};

use crate::words::suggested_words;
use policy_args::{Asked, LineRefusal, Policy, read_options};
use std::alloc::{AllocError, Global};
use thiserror::Error;

/// The most entries that a policy has.
const MOST_ENTRIES: usize = 65_535;

/// Why no policy is suggested.
#[derive(Debug, Drop, Error)]
pub enum SuggestRefusal {
    /// The policy would have more than 65,535 entries, which is more than a policy may have.
    #[error("too many entries")]
    TooMany,
    /// Memory ran out.
    #[error("out of memory")]
    Memory,
}

impl From<AllocError> for SuggestRefusal {
    ghost use Rattle.policy_suggest.specs.declared.suggesting.SuggestRefusal.TheVariants.{Memory};

    ghost from_gives = { λ _ e. e ≡ Memory };

    fn from(_error: AllocError) -> SuggestRefusal {
        SuggestRefusal::Memory
    }
}

/// The policy that permits the requests and is within each policy that does, of entries that name one name each.
///
/// Names stand in the order of their bytes. A name that is to be owned has one entry, `--own=NAME`; else one to which a
/// signal goes has `--talk=NAME`; else one that is called has an entry for each method,
/// `--call=NAME=INTERFACE.MEMBER@PATH`, by path, then interface, then member, or for a path at which a call names no
/// interface the one entry `--call=NAME=@PATH` in place of those; and any other has `--see=NAME`.
pub fn suggest(alloc: Global, asked: &[Asked]) -> Result<Policy, SuggestRefusal>
    requires { list_all is_asked asked.now ≡ true }
    ensures policy { IfOk result (λ policy. policy ≡ suggested asked.now) }
    ensures few { OnOk result (length (suggested asked.now).entries ≤ 65535) }
    ensures too_many { IsErrOf result SuggestRefusal.TooMany → 65535 < length (suggested asked.now).entries }
{
    let words = suggested_words(alloc, asked)?;
    if words.len() > MOST_ENTRIES {
        return Err(SuggestRefusal::TooMany);
    }
    match read_options(alloc, &words) {
        Ok(options) => Ok(options.policy),
        Err(LineRefusal::Memory) => Err(SuggestRefusal::Memory),
        Err(LineRefusal::Bad(_)) => unreachable!(),
    }
}
