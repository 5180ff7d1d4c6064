//! The record of the files that were read. Only contracts use it, and it takes no memory at run time.
ghost use Rattle.std.specs.Prelude.{◌≡◌, ℕ, List, [], ◌∷◌, ◌++◌};
ghost use Rattle.std.specs.Borrow.{ftrue};

use std::marker::{Model, PhantomData};

/// The paths of files that were read, in order: those with which `add` was called. So whoever keeps it for files adds
/// the path of each read, and adds nothing else.
#[derive(Drop)]
pub struct ReadPaths {
    marker: PhantomData<u8>,
    pub ghost paths: { List (List ℕ) },
}

impl Model for ReadPaths {
    ghost also_owns = { λ _. ftrue };
}

impl ReadPaths {
    /// No paths.
    pub fn new() -> ReadPaths
        ensures { result.paths ≡ [] }
    {
        ReadPaths {
            marker: PhantomData,
        }
    }

    /// Appends a path.
    pub fn add(&mut self, _path: &str)
        ensures { self.new.paths ≡ self.old.paths ++ _path.now ∷ [] }
    {}
}
