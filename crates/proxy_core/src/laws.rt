//! Sessions that no events make, for tests only.
ghost use Rattle.std.specs.Prelude.{◌≡◌, IfOk, IsTrue, false};
ghost use Rattle.proxy_core.specs.Sessions.{at_start};

use crate::Session;
use policy_args::Policy;
use policy_view::Mode;
use serial_map::Serials;
use std::alloc::{AllocError, Global};

/// A session in which this many serials count as used, and which has received nothing and expects nothing.
pub fn session_at(
    alloc: Global,
    policy: &Policy,
    mode: Mode,
    given: u32,
) -> Result<Session, AllocError>
    requires messages { mode.auth ≡ false }
    requires filter { IsTrue mode.filter }
    ensures { IfOk result (λ s. s ≡ record (at_start mode) { sent = given }) }
{
    let mut session = Session::new(alloc, policy, mode)?;
    session.set_serials(Serials::after(given));
    Ok(session)
}
