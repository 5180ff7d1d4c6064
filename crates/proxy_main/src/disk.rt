//! What opens files, makes them and appends to them, and the disk of the system.
ghost use Rattle.std.specs.Prelude.{◌≡◌, ◌≢◌, ◌≤◌, ◌<◌, ◌++◌, ◌∷◌, ℕ, List, [], Option, IfOk, IfSome, IsSome, OnErr, OnOk, length, take};
ghost use Rattle.link_traits.specs.Told.{added};

use link_traits::ReadPaths;
use std::fs::File;
use std::io::{self, Error, ErrorKind, Read, Write};

/// A disk, which opens, makes and writes files by their paths.
pub trait Disk {
    /// What an opened file is read by.
    type Opened: Read + Drop;

    /// The bytes that a path holds, if that is told.
    ghost held: { Self → List ℕ → Option (List ℕ) };

    /// The paths that were opened, in order: each call is in it once, whatever it answered.
    ghost opened: { Self → List (List ℕ) };

    /// Opens the file at a path, to be read from its beginning.
    fn open(&mut self, path: &str) -> io::Result<Self::Opened>
        ensures holds { IfOk result (λ file. Self.Opened.remaining file ≡ held self.old path.now) }
        ensures kept { (p : List ℕ) → held self.new p ≡ held self.old p }
        ensures path { opened self.new ≡ opened self.old ++ path.now ∷ [] };

    /// Makes the file of a path, or empties the one that is there. If it fails, each path holds what it held.
    fn create(&mut self, path: &str) -> io::Result<()>
        ensures empty { OnOk result (IfSome (held self.new path.now) (λ bytes. bytes ≡ [])) }
        ensures tells { IsSome (held self.old path.now) → IsSome (held self.new path.now) }
        ensures others { (p : List ℕ) → p ≢ path.now → held self.new p ≡ held self.old p }
        ensures err { OnErr result ((p : List ℕ) → held self.new p ≡ held self.old p) }
        ensures unopened { opened self.new ≡ opened self.old };

    /// Puts a prefix of the piece at the end of a file that was made, at least a byte if the piece has one, and answers
    /// how many bytes it put there. If it fails, each path holds what it held.
    fn append(&mut self, path: &str, piece: &[u8]) -> io::Result<usize>
        ensures added { IfOk result (λ n. held self.new path.now ≡ added (take n piece.now) (held self.old path.now)) }
        ensures within { IfOk result (λ n. n ≤ length piece.now) }
        ensures progress { IfOk result (λ n. 0 < length piece.now → 0 < n) }
        ensures others { (p : List ℕ) → p ≢ path.now → held self.new p ≡ held self.old p }
        ensures err { OnErr result ((p : List ℕ) → held self.new p ≡ held self.old p) }
        ensures unopened { opened self.new ≡ opened self.old };
}

/// A file that was made, which stays open for what is appended to it.
#[derive(Drop)]
struct Made {
    path: String,
    file: File,
}

/// Writes a prefix of a piece, at least a byte if the piece has one.
fn write_some<W: Write>(writer: &mut W, piece: &[u8]) -> io::Result<usize>
    ensures within { IfOk result (λ n. n ≤ length piece.now) }
    ensures progress { IfOk result (λ n. 0 < length piece.now → 0 < n) }
{
    let written = writer.write(piece)?;
    if written == 0 && !piece.is_empty() {
        return Err(Error::from(ErrorKind::WriteZero));
    }
    Ok(written)
}

/// The disk of the system. What its files hold is not told, since others may write to them at any time.
///
/// That it opens the path that it adds to `opened`, and no other, is trusted, and rests on the two lines of `open`.
/// That it makes the file of the path that it is given, and appends to that file and no other, is trusted too.
///
/// It keeps the file open that it made last, and appends to no other.
#[derive(Drop)]
pub struct SystemDisk<'a> {
    rt: &'a HostRuntime,
    paths: ReadPaths,
    made: Option<Made>,
}

impl<'a> SystemDisk<'a> {
    /// The disk of the system that the runtime gives access to, before any file was opened.
    pub fn new(rt: &'a HostRuntime) -> SystemDisk<'a>
        ensures { result.paths.paths ≡ [] }
    {
        SystemDisk {
            rt,
            paths: ReadPaths::new(),
            made: None,
        }
    }
}

impl<'a> Disk for SystemDisk<'a> {
    ghost use Rattle.std.specs.Prelude.{None};

    type Opened = File;

    ghost held = { λ _ _. None };

    ghost opened = { λ disk. disk.paths.paths };

    fn open(&mut self, path: &str) -> io::Result<File> {
        self.paths.add(path);
        File::open(self.rt, path)
    }

    fn create(&mut self, path: &str) -> io::Result<()> {
        let copy = String::from_str(self.rt.alloc(), path)?;
        let file = File::create(self.rt, path)?;
        self.made = Some(Made { path: copy, file });
        Ok(())
    }

    fn append(&mut self, path: &str, piece: &[u8]) -> io::Result<usize> {
        match &mut self.made {
            Some(made) if made.path.as_str() == path => write_some(&mut made.file, piece),
            _ => Err(Error::from(ErrorKind::NotFound)),
        }
    }
}
