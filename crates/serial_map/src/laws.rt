//! Serials in states that take long to reach, for tests.
ghost use Rattle.std.specs.Prelude.{◌≡◌};

use crate::Serials;

impl Serials {
    /// The serials after `given` calls of `next`.
    pub fn after(given: u32) -> Serials
        ensures { result ≡ given }
    {
        Serials { given }
    }
}
