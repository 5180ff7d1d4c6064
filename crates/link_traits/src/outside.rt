//! Files and sinks, and calls that work with any of them.
ghost use Rattle.std.specs.Prelude.{◌≡◌, ◌≢◌, ◌≤◌, ◌<◌, ◌++◌, ◌∷◌, ℕ, List, [], Option, Err, length, take, OnOk, OnErr, IfOk, IfErr, IfSome, IsErrOf, IsSome};
ghost use Rattle.link_traits.specs.Told.{added, Part, Given};
ghost use Rattle.link_traits.specs.Views.{FilesRose, FilesView, SinkRose, SinkView};

use std::alloc::Global;
use thiserror::Error;

/// Why a file was not read or written.
#[derive(Clone, Copy, Debug, PartialEq, Eq, Error)]
pub enum FileFault {
    /// There is no such file, or it could not be read or written. The count of faults rises.
    #[error("the file could not be read")]
    Failed,
    /// The file has more bytes than the limit.
    #[error("the file has too many bytes")]
    TooLong,
    /// Memory was refused.
    #[error("out of memory")]
    Memory,
}

/// A sink took nothing of a piece that isn't empty. Its count of faults rises.
#[derive(Clone, Copy, Debug, PartialEq, Eq, Error)]
#[error("the bytes could not be written")]
pub struct SinkFault;

/// Files, by their paths.
pub trait Files {
    /// What contracts see of the files: their bytes if these are known, the count of faults, and the paths that were
    /// read.
    ghost view: { Self → FilesView };

    /// Appends the whole file to `into`, in the caller's memory. A file of more than `limit` bytes is refused. If a
    /// read is refused or fails, `into` doesn't change.
    fn read(&mut self, path: &str, limit: usize, into: &mut Vec<u8>) -> Result<(), FileFault>
        ensures given { OnOk result (Given limit ((view self.old).told path.now) into.old.items into.new.items) }
        ensures too_long { IsErrOf result FileFault.TooLong → IfSome ((view self.old).told path.now) (λ bytes. limit < length bytes) }
        ensures cause { IsErrOf result FileFault.Failed → FilesRose (view self.old) (view self.new) }
        ensures err { OnErr result (into.new.items ≡ into.old.items) }
        ensures count { (view self.old).faults ≤ (view self.new).faults }
        ensures kept { (p : List ℕ) → (view self.new).told p ≡ (view self.old).told p }
        ensures path { (view self.new).reads ≡ (view self.old).reads ++ path.now ∷ [] };

    /// Makes the file of a path, or empties the existing one: after `Ok` it has no bytes. If it is refused or fails, no
    /// file changes. It never returns `TooLong`.
    fn create(&mut self, path: &str) -> Result<(), FileFault>
        ensures empty { OnOk result (IfSome ((view self.new).told path.now) (λ bytes. bytes ≡ [])) }
        ensures tells { IsSome ((view self.old).told path.now) → IsSome ((view self.new).told path.now) }
        ensures others { (p : List ℕ) → p ≢ path.now → (view self.new).told p ≡ (view self.old).told p }
        ensures err { OnErr result ((p : List ℕ) → (view self.new).told p ≡ (view self.old).told p) }
        ensures cause { IsErrOf result FileFault.Failed → FilesRose (view self.old) (view self.new) }
        ensures short { result ≢ Err FileFault.TooLong }
        ensures count { (view self.old).faults ≤ (view self.new).faults }
        ensures unread { (view self.new).reads ≡ (view self.old).reads };

    /// Appends a prefix of the piece to the file of a path, at least one byte if the piece has one, and returns its
    /// length. If it is refused or fails, no file changes. It never returns `TooLong`.
    fn append(&mut self, path: &str, piece: &[u8]) -> Result<usize, FileFault>
        ensures added { IfOk result (λ n. (view self.new).told path.now ≡ added (take n piece.now) ((view self.old).told path.now)) }
        ensures within { IfOk result (λ n. n ≤ length piece.now) }
        ensures progress { IfOk result (λ n. 0 < length piece.now → 0 < n) }
        ensures others { (p : List ℕ) → p ≢ path.now → (view self.new).told p ≡ (view self.old).told p }
        ensures err { OnErr result ((p : List ℕ) → (view self.new).told p ≡ (view self.old).told p) }
        ensures cause { IsErrOf result FileFault.Failed → FilesRose (view self.old) (view self.new) }
        ensures short { result ≢ Err FileFault.TooLong }
        ensures count { (view self.old).faults ≤ (view self.new).faults }
        ensures unread { (view self.new).reads ≡ (view self.old).reads };
}

/// A place to which bytes are written, in pieces.
pub trait Sink {
    /// What contracts see of the sink: all bytes that it took, if these are known, and the count of faults.
    ghost view: { Self → SinkView };

    /// Takes a prefix of the piece, at least one byte if there is one, and returns its length. If it fails, it took
    /// nothing.
    fn write(&mut self, piece: &[u8]) -> Result<usize, SinkFault>
        ensures took { IfOk result (λ n. (view self.new).told ≡ added (take n piece.now) (view self.old).told) }
        ensures within { IfOk result (λ n. n ≤ length piece.now) }
        ensures progress { IfOk result (λ n. 0 < length piece.now → 0 < n) }
        ensures cause { OnErr result (SinkRose (view self.old) (view self.new)) }
        ensures err { OnErr result ((view self.new).told ≡ (view self.old).told) }
        ensures count { (view self.old).faults ≤ (view self.new).faults };
}

/// Reads a whole file, of at most `limit` bytes.
pub fn read_whole<F: Files>(
    alloc: Global,
    files: &mut F,
    path: &str,
    limit: usize,
) -> Result<Vec<u8>, FileFault>
    ensures given { IfOk result (λ v. Given limit ((F.view files.old).told path.now) [] v.items) }
    ensures too_long { IsErrOf result FileFault.TooLong → IfSome ((F.view files.old).told path.now) (λ bytes. limit < length bytes) }
    ensures cause { IsErrOf result FileFault.Failed → FilesRose (F.view files.old) (F.view files.new) }
    ensures count { (F.view files.old).faults ≤ (F.view files.new).faults }
    ensures kept { (p : List ℕ) → (F.view files.new).told p ≡ (F.view files.old).told p }
    ensures path { (F.view files.new).reads ≡ (F.view files.old).reads ++ path.now ∷ [] }
{
    let mut bytes = Vec::new(alloc);
    match files.read(path, limit, &mut bytes) {
        Ok(()) => Ok(bytes),
        Err(fault) => Err(fault),
    }
}

/// Writes all bytes, in as many pieces as the sink takes. If it fails, the sink took a prefix of them.
pub fn write_all<S: Sink>(sink: &mut S, bytes: &[u8]) -> Result<(), SinkFault>
    ensures ok { OnOk result ((S.view sink.new).told ≡ added bytes.now (S.view sink.old).told) }
    ensures part { Part (S.view sink.old).told (S.view sink.new).told bytes.now }
    ensures cause { OnErr result (SinkRose (S.view sink.old) (S.view sink.new)) }
    ensures count { (S.view sink.old).faults ≤ (S.view sink.new).faults }
{
    let mut done = 0;
    while done < bytes.len() {
        match sink.write(&bytes[done..]) {
            Ok(n) => done += n,
            Err(fault) => return Err(fault),
        }
    }
    Ok(())
}
