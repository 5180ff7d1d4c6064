//! Rules of calls and broadcasts, as xdg-dbus-proxy(1) has them after `--call=NAME=` and `--broadcast=NAME=`.
//!
//! A rule is `[METHOD][@PATH]`: METHOD names an interface and one of its members or all of them, and PATH names an
//! object path, or a path and all below it. A rule without METHOD is for any member, and one without PATH for any path.
#![tactic(auto)]

mod parts;
mod property_rule;
mod rule;

pub use property_rule::PropertyRule;
pub use rule::Rule;
use std::alloc::AllocError;
use thiserror::Error;

/// Why a rule wasn't read.
#[derive(Clone, Copy, Debug, PartialEq, Eq, Error)]
pub enum BadRule {
    /// The text isn't a rule (xdg-dbus-proxy(1), `--call`).
    #[error("the text is no rule")]
    Form,
    /// Memory ran out.
    #[error("out of memory")]
    Memory,
}

impl From<AllocError> for BadRule {
    ghost use Rattle.std.specs.Prelude.{◌≡◌};
    ghost use Rattle.call_rules.specs.declared.BadRule.TheVariants.{Memory};

    ghost from_gives = { λ _ e. e ≡ Memory };

    fn from(_error: AllocError) -> BadRule {
        BadRule::Memory
    }
}
