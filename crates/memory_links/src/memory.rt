//! Files and a sink in memory. All that they hold is known.
ghost use Rattle.std.specs.Prelude.{◌≡◌, ◌≢◌, ◌≤◌, ◌<◌, ◌+◌, ◌-◌, ◌^◌, ◌++◌, ◌∷◌, ◌↔◌, ℕ, List, [], Some, None, Err, OnOk, OnErr, IfOk, IfSome, IfNone, IsErr, IsErrOf, IsSome, is_ok, length, take, min, vec_len, vec_capacity, option_map, if◌then◌else◌, false};
ghost use Rattle.memory_links.specs.Memory.{file_of, told_of, fails_in, IsPlace, is_named, read_of, create_of, append_of, after_append, Answers, Reads, faults_after};
ghost use Rattle.link_traits.specs.Counts.{one_more};
ghost use Rattle.link_traits.specs.Told.{added, Rose, Given};

use link_traits::outside::{FileFault, Files, Sink, SinkFault};
use link_traits::read_paths::ReadPaths;
use std::alloc::{AllocError, Global};

/// A file in memory.
#[derive(Drop)]
pub struct MemFile {
    /// The path by which it is read and written.
    pub path: String,
    /// The bytes that it holds.
    pub bytes: Vec<u8>,
    /// Whether each call on it fails.
    pub fails: bool,
}

/// The results of appends to files in memory, by the numbers of the appends, from 1.
#[derive(Clone, Copy, Debug)]
pub struct Appends {
    /// The number of appends that were made, up to the greatest `u64`.
    pub made: u64,
    /// The maximum number of bytes that one takes. An append of a piece that isn't empty takes at least one byte.
    pub most: usize,
    /// The number of the one that fails, if any.
    pub fails: Option<u64>,
    /// The number of the one that is refused memory, if any.
    pub refused: Option<u64>,
}

/// Files in memory. If two have the same path, the first is read and written.
#[derive(Drop)]
pub struct MemFiles {
    /// The files, in order.
    pub files: Vec<MemFile>,
    /// How many calls have failed, up to the greatest `u64`.
    pub faults: u64,
    /// The paths that were read.
    pub reads: ReadPaths,
    /// The results of appends.
    pub appends: Appends,
}

impl MemFiles {
    /// These files, before any call. An append takes its whole piece.
    pub fn new(files: Vec<MemFile>) -> MemFiles
        ensures files { result.files.items ≡ files.items }
        ensures faults { result.faults ≡ 0 }
        ensures reads { result.reads.paths ≡ [] }
        ensures appends { result.appends ≡ record { made = 0; most = 2 ^ 64 - 1; fails = None; refused = None } }
    {
        MemFiles {
            files,
            faults: 0,
            reads: ReadPaths::new(),
            appends: Appends {
                made: 0,
                most: usize::MAX,
                fails: None,
                refused: None,
            },
        }
    }
}

/// The first file with this path.
fn find<'a>(files: &'a [MemFile], path: &str) -> Option<&'a MemFile>
    ensures { option_map (λ f. f.now) result ≡ file_of files.now path.now }
{
    let mut rest = files;
    while let [file, after @ ..] = rest {
        if file.path.as_str() == path {
            return Some(file);
        }
        rest = after;
    }
    None
}

/// The place of the first file with this path.
fn place_of(files: &[MemFile], path: &str) -> Option<usize>
    ensures place { IfSome result (IsPlace files.now path.now) }
    ensures within { IfSome result (λ place. place < length files.now) }
    ensures none { IfNone result (file_of files.now path.now ≡ None) }
{
    for (place, file) in files.iter().enumerate() {
        if file.path.as_str() == path {
            return Some(place);
        }
    }
    None
}

/// Whether an append with this number is the one that is named.
fn is_named(named: Option<u64>, place: u64) -> bool
    ensures { result ≡ is_named named place }
{
    match named {
        Some(named) => named == place,
        None => false,
    }
}

/// The result of an append of this many bytes, unless memory is refused.
fn append_answer(appends: Appends, len: usize, file: Option<&MemFile>) -> Result<usize, FileFault>
    ensures { result ≡ append_of appends len (option_map (λ f. f.now) file.entry) }
{
    let Some(file) = file else {
        return Err(FileFault::Failed);
    };
    let number = appends.made.saturating_add(1);
    if file.fails {
        return Err(FileFault::Failed);
    }
    if is_named(appends.fails, number) {
        return Err(FileFault::Failed);
    }
    if is_named(appends.refused, number) {
        return Err(FileFault::Memory);
    }
    Ok(len.min(appends.most.max(1)))
}

/// Whether each call on a file fails, if there is one.
fn is_failing(file: Option<&MemFile>) -> bool
    ensures { result ≡ fails_in (option_map (λ f. f.now) file.entry) }
{
    match file {
        Some(file) => file.fails,
        None => false,
    }
}

/// Appends bytes to the first file with this path, if there is one.
fn extend(files: &mut Vec<MemFile>, path: &str, bytes: &[u8]) -> Result<(), AllocError>
    ensures ok { OnOk result (told_of files.new.items path.now ≡ added bytes.now (told_of files.old.items path.now)) }
    ensures err { OnErr result ((p : List ℕ) → told_of files.new.items p ≡ told_of files.old.items p) }
    ensures others { (p : List ℕ) → p ≢ path.now → told_of files.new.items p ≡ told_of files.old.items p }
    ensures failing { (p : List ℕ) → fails_in (file_of files.new.items p) ≡ fails_in (file_of files.old.items p) }
{
    if let Some(place) = place_of(files, path) {
        let file = &mut files[place];
        file.bytes.extend_from_slice(bytes)?;
    }
    Ok(())
}

/// Empties the first file with this path, or adds one that holds no bytes.
fn make_empty(files: &mut Vec<MemFile>, path: &str) -> Result<(), AllocError>
    ensures ok { OnOk result (told_of files.new.items path.now ≡ Some []) }
    ensures err { OnErr result ((p : List ℕ) → told_of files.new.items p ≡ told_of files.old.items p) }
    ensures others { (p : List ℕ) → p ≢ path.now → told_of files.new.items p ≡ told_of files.old.items p }
    ensures failing { (p : List ℕ) → fails_in (file_of files.new.items p) ≡ fails_in (file_of files.old.items p) }
{
    if let Some(place) = place_of(files, path) {
        let file = &mut files[place];
        file.bytes.clear();
        return Ok(());
    }
    add_file(files, path)
}

/// Adds a file without bytes, after the others.
fn add_file(files: &mut Vec<MemFile>, path: &str) -> Result<(), AllocError>
    requires new { file_of files.old.items path.now ≡ None }
    ensures ok { OnOk result (told_of files.new.items path.now ≡ Some []) }
    ensures err { OnErr result (files.new.items ≡ files.old.items) }
    ensures others { (p : List ℕ) → p ≢ path.now → told_of files.new.items p ≡ told_of files.old.items p }
    ensures failing { (p : List ℕ) → fails_in (file_of files.new.items p) ≡ fails_in (file_of files.old.items p) }
{
    let alloc = *files.allocator();
    let file = MemFile {
        path: String::from_str(alloc, path)?,
        bytes: Vec::new(alloc),
        fails: false,
    };
    files.push(file)?;
    Ok(())
}

impl Files for MemFiles {
    ghost view = { λ m. record { told = told_of m.files.items; faults = m.faults; reads = m.reads.paths } };

    /// It fails if no file has the path, and if the first file with it fails; otherwise the file is too long if it has
    /// more bytes than the limit.
    fn read(&mut self, path: &str, limit: usize, into: &mut Vec<u8>) -> Result<(), FileFault>
        ensures reads { Reads (read_of limit (file_of self.old.files.items path.now)) result into.old.items into.new.items }
        ensures faults { self.new.faults ≡ faults_after (read_of limit (file_of self.old.files.items path.now)) self.old.faults }
        ensures files { self.new.files.items ≡ self.old.files.items }

        // The clauses of the trait.
        ensures given { OnOk result (Given limit (told_of self.old.files.items path.now) into.old.items into.new.items) }
        ensures too_long { IsErrOf result FileFault.TooLong → IfSome (told_of self.old.files.items path.now) (λ bytes. limit < length bytes) }
        ensures cause { IsErrOf result FileFault.Failed → Rose self.old.faults self.new.faults }
        ensures err { OnErr result (into.new.items ≡ into.old.items) }
        ensures count { self.old.faults ≤ self.new.faults }
        ensures kept { (p : List ℕ) → told_of self.new.files.items p ≡ told_of self.old.files.items p }
        ensures path { self.new.reads.paths ≡ self.old.reads.paths ++ path.now ∷ [] }
    {
        self.reads.add(path);
        match find(&self.files, path) {
            Some(file) if !file.fails => {
                if file.bytes.len() > limit {
                    return Err(FileFault::TooLong);
                }
                match into.extend_from_slice(&file.bytes) {
                    Ok(()) => Ok(()),
                    Err(_) => Err(FileFault::Memory),
                }
            }
            _ => {
                self.faults = self.faults.saturating_add(1);
                Err(FileFault::Failed)
            }
        }
    }

    /// It fails exactly if the first file with the path fails.
    fn create(&mut self, path: &str) -> Result<(), FileFault>
        ensures answer { Answers (create_of (file_of self.old.files.items path.now)) result }
        ensures created { OnOk result (told_of self.new.files.items path.now ≡ Some []) }
        ensures faults { self.new.faults ≡ faults_after (create_of (file_of self.old.files.items path.now)) self.old.faults }
        ensures failing { (p : List ℕ) → fails_in (file_of self.new.files.items p) ≡ fails_in (file_of self.old.files.items p) }
        ensures appends { self.new.appends ≡ self.old.appends }

        // The clauses of the trait.
        ensures empty { OnOk result (IfSome (told_of self.new.files.items path.now) (λ bytes. bytes ≡ [])) }
        ensures tells { IsSome (told_of self.old.files.items path.now) → IsSome (told_of self.new.files.items path.now) }
        ensures others { (p : List ℕ) → p ≢ path.now → told_of self.new.files.items p ≡ told_of self.old.files.items p }
        ensures err { OnErr result ((p : List ℕ) → told_of self.new.files.items p ≡ told_of self.old.files.items p) }
        ensures cause { IsErrOf result FileFault.Failed → Rose self.old.faults self.new.faults }
        ensures short { result ≢ Err FileFault.TooLong }
        ensures count { self.old.faults ≤ self.new.faults }
        ensures unread { self.new.reads.paths ≡ self.old.reads.paths }
    {
        if is_failing(find(&self.files, path)) {
            self.faults = self.faults.saturating_add(1);
            return Err(FileFault::Failed);
        }
        match make_empty(&mut self.files, path) {
            Ok(()) => Ok(()),
            Err(_) => Err(FileFault::Memory),
        }
    }

    /// It fails if no file has the path, if the first file with it fails, and if it is the append that must fail.
    fn append(&mut self, path: &str, piece: &[u8]) -> Result<usize, FileFault>
        ensures answer { Answers (append_of self.old.appends (length piece.now) (file_of self.old.files.items path.now)) result }
        ensures faults { self.new.faults ≡ faults_after (append_of self.old.appends (length piece.now) (file_of self.old.files.items path.now)) self.old.faults }
        ensures failing { (p : List ℕ) → fails_in (file_of self.new.files.items p) ≡ fails_in (file_of self.old.files.items p) }
        ensures appends { self.new.appends ≡ after_append self.old.appends }

        // The clauses of the trait.
        ensures added { IfOk result (λ n. told_of self.new.files.items path.now ≡ added (take n piece.now) (told_of self.old.files.items path.now)) }
        ensures within { IfOk result (λ n. n ≤ length piece.now) }
        ensures progress { IfOk result (λ n. 0 < length piece.now → 0 < n) }
        ensures others { (p : List ℕ) → p ≢ path.now → told_of self.new.files.items p ≡ told_of self.old.files.items p }
        ensures err { OnErr result ((p : List ℕ) → told_of self.new.files.items p ≡ told_of self.old.files.items p) }
        ensures cause { IsErrOf result FileFault.Failed → Rose self.old.faults self.new.faults }
        ensures short { result ≢ Err FileFault.TooLong }
        ensures count { self.old.faults ≤ self.new.faults }
        ensures unread { self.new.reads.paths ≡ self.old.reads.paths }
    {
        let answer = append_answer(self.appends, piece.len(), find(&self.files, path));
        self.appends.made = self.appends.made.saturating_add(1);
        match answer {
            Ok(n) => match extend(&mut self.files, path, &piece[..n]) {
                Ok(()) => Ok(n),
                Err(_) => Err(FileFault::Memory),
            },
            Err(FileFault::Failed) => {
                self.faults = self.faults.saturating_add(1);
                Err(FileFault::Failed)
            }
            Err(_) => Err(FileFault::Memory),
        }
    }
}

/// A sink in memory. It takes as many bytes as it has room for, and fails if it has none left.
#[derive(Drop)]
pub struct MemSink {
    /// The bytes that were written.
    pub bytes: Vec<u8>,
    /// The number of bytes that it still takes. Memory for them is reserved.
    pub room: usize,
    /// How many writes have failed, up to the greatest `u64`.
    pub faults: u64,
    ghost reserved: { vec_len bytes + room ≤ vec_capacity bytes },
}

impl MemSink {
    /// An empty sink with room for this many bytes, which are reserved at once.
    pub fn new(alloc: Global, room: usize) -> Result<MemSink, AllocError>
        ensures bytes { IfOk result (λ m. m.bytes.items ≡ []) }
        ensures room { IfOk result (λ m. m.room ≡ room) }
        ensures faults { IfOk result (λ m. m.faults ≡ 0) }
    {
        Ok(MemSink {
            bytes: Vec::with_capacity(alloc, room)?,
            room,
            faults: 0,
        })
    }
}

impl Sink for MemSink {
    ghost view = { λ m. record { told = Some m.bytes.items; faults = m.faults } };

    /// It fails if the piece has bytes and no room is left. Otherwise it takes as many bytes as there is room for.
    fn write(&mut self, piece: &[u8]) -> Result<usize, SinkFault>
        ensures fails { IsErr result ↔ ((0 < length piece.now) × (self.old.room ≡ 0)) }
        ensures answer { IfOk result (λ n. n ≡ min (length piece.now) self.old.room) }
        ensures bytes { self.new.bytes.items ≡ self.old.bytes.items ++ take self.old.room piece.now }
        ensures room { self.new.room ≡ self.old.room - length piece.now }
        ensures faults { self.new.faults ≡ (if is_ok result then self.old.faults else one_more self.old.faults) }

        // The clauses of the trait.
        ensures took { IfOk result (λ n. Some self.new.bytes.items ≡ added (take n piece.now) (Some self.old.bytes.items)) }
        ensures within { IfOk result (λ n. n ≤ length piece.now) }
        ensures progress { IfOk result (λ n. 0 < length piece.now → 0 < n) }
        ensures cause { OnErr result (Rose self.old.faults self.new.faults) }
        ensures err { OnErr result (Some self.new.bytes.items ≡ Some self.old.bytes.items) }
        ensures count { self.old.faults ≤ self.new.faults }
    {
        let n = piece.len().min(self.room);
        if n == 0 && !piece.is_empty() {
            self.faults = self.faults.saturating_add(1);
            return Err(SinkFault);
        }
        let _ = self.bytes.extend_from_slice(&piece[..n]);
        self.room -= n;
        Ok(n)
    }
}
