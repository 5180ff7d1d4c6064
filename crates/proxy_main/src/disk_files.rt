//! Files on a disk.
ghost use Rattle.std.specs.Prelude.{◌≡◌, ◌≢◌, ◌≤◌, ◌<◌, ◌+◌, ◌++◌, ◌∷◌, ℕ, List, [], Ok, Err, IfOk, IfErr, IfSome, IsSome, OnOk, OnErr, IsErrOf, length, take};
ghost use Rattle.std.specs.IoError.{error_kind};
ghost use Rattle.link_traits.specs.Told.{Given, Rose, added};
ghost use Rattle.proxy_main.specs.Faults.{reads_failed};

use crate::disk::Disk;
use link_traits::{FileFault, Files};
use std::io::{self, ErrorKind, Read};

/// The files of a disk, by their paths. They hold what the disk tells.
#[derive(Drop)]
pub struct DiskFiles<D: Disk + Drop> {
    disk: D,
    faults: u64,
}

impl<D: Disk + Drop> DiskFiles<D> {
    /// The files of a disk, before any call has failed.
    pub fn new(disk: D) -> DiskFiles<D>
        ensures disk { result.disk ≡ disk }
        ensures faults { result.faults ≡ 0 }
    {
        DiskFiles { disk, faults: 0 }
    }

    /// What is told of a write that failed. It is counted, unless it was for want of memory.
    fn failed(&mut self, error: &io::Error) -> FileFault
        ensures cause { result ≡ FileFault.Failed → Rose self.old.faults self.new.faults }
        ensures short { result ≢ FileFault.TooLong }
        ensures disk { self.new.disk ≡ self.old.disk }
        ensures count { self.old.faults ≤ self.new.faults }
    {
        if error.kind() == ErrorKind::OutOfMemory {
            return FileFault::Memory;
        }
        self.faults = self.faults.saturating_add(1);
        FileFault::Failed
    }
}

impl<D: Disk + Drop> Files for DiskFiles<D> {
    ghost view = { λ files. record { told = D.held files.disk; faults = files.faults; reads = D.opened files.disk } };

    fn read(&mut self, path: &str, limit: usize, into: &mut Vec<u8>) -> Result<(), FileFault>
        ensures given { OnOk result (Given limit (D.held self.old.disk path.now) into.old.items into.new.items) }
        ensures too_long { IsErrOf result FileFault.TooLong → IfSome (D.held self.old.disk path.now) (λ bytes. limit < length bytes) }
        ensures cause { IsErrOf result FileFault.Failed → Rose self.old.faults self.new.faults }
        ensures err { OnErr result (into.new.items ≡ into.old.items) }
        ensures count { self.old.faults ≤ self.new.faults }
        ensures kept { (p : List ℕ) → D.held self.new.disk p ≡ D.held self.old.disk p }
        ensures path { D.opened self.new.disk ≡ D.opened self.old.disk ++ path.now ∷ [] }
        ensures faults { self.new.faults ≡ reads_failed result self.old.faults }
    {
        let result = read_opened(self.disk.open(path), limit, into);
        if let Err(FileFault::Failed) = result {
            self.faults = self.faults.saturating_add(1);
        }
        result
    }

    fn create(&mut self, path: &str) -> Result<(), FileFault> {
        match self.disk.create(path) {
            Ok(()) => Ok(()),
            Err(error) => Err(self.failed(&error)),
        }
    }

    fn append(&mut self, path: &str, piece: &[u8]) -> Result<usize, FileFault> {
        match self.disk.append(path, piece) {
            Ok(count) => Ok(count),
            Err(error) => Err(self.failed(&error)),
        }
    }
}

/// Puts what a file holds after what `into` holds, if it could be opened and has at most this many bytes.
fn read_opened<R: Read + Drop>(
    opened: io::Result<R>,
    limit: usize,
    into: &mut Vec<u8>,
) -> Result<(), FileFault>
    ensures given { OnOk result (IfOk opened (λ file. Given limit (R.remaining file) into.old.items into.new.items)) }
    ensures within { OnOk result (length into.new.items ≤ length into.old.items + limit) }
    ensures too_long { IsErrOf result FileFault.TooLong → IfOk opened (λ file. IfSome (R.remaining file) (λ bytes. limit < length bytes)) }
    ensures failed { OnErr opened (IsErrOf result FileFault.Failed) }
    ensures err { OnErr result (into.new.items ≡ into.old.items) }
{
    match opened {
        Ok(file) => read_limited(file, limit, into),
        Err(_) => Err(FileFault::Failed),
    }
}

/// Puts all bytes up to the file's end after what `into` holds, if they are at most this many. One byte more is read,
/// to tell that.
fn read_limited<R: Read + Drop>(file: R, limit: usize, into: &mut Vec<u8>) -> Result<(), FileFault>
    ensures given { OnOk result (Given limit (R.remaining file) into.old.items into.new.items) }
    ensures too_long { IsErrOf result FileFault.TooLong → IfSome (R.remaining file) (λ bytes. limit < length bytes) }
    ensures err { OnErr result (into.new.items ≡ into.old.items) }
{
    let before = into.len();
    let read = file.take(limit.saturating_add(1) as u64).read_to_end(into);
    let result = told(read, limit);
    if result.is_err() {
        into.truncate(before);
    }
    result
}

/// What is told of this many bytes that were read, or of an error.
fn told(read: io::Result<usize>, limit: usize) -> Result<(), FileFault>
    ensures within { IfOk read (λ n. n ≤ limit → result ≡ Ok tt) }
    ensures too_long { IfOk read (λ n. limit < n → IsErrOf result FileFault.TooLong) }
    ensures memory { IfErr read (λ e. error_kind e ≡ ErrorKind.OutOfMemory → IsErrOf result FileFault.Memory) }
    ensures failed { IfErr read (λ e. error_kind e ≢ ErrorKind.OutOfMemory → IsErrOf result FileFault.Failed) }
{
    match read {
        Ok(count) if count <= limit => Ok(()),
        Ok(_) => Err(FileFault::TooLong),
        Err(error) if error.kind() == ErrorKind::OutOfMemory => Err(FileFault::Memory),
        Err(_) => Err(FileFault::Failed),
    }
}
