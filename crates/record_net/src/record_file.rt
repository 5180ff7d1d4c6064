//! The file of a recording, and how records are appended to it.
ghost use Rattle.std.specs.Prelude.{◌≡◌, ◌≢◌, ◌≤◌, ◌<◌, ◌+◌, ℕ, List, Option, None, Some, Err, OnOk, IfOk, IfSome, IsErrOf, length, string_bytes, vec_capacity};
ghost use Rattle.record_net.specs.Records.{spelled_record, bytes_kind, head};
ghost use Rattle.link_traits.specs.Journals.{Journal};
ghost use Rattle.link_traits.specs.Views.{FilesRose};
ghost use Rattle.record_net.specs.Starts.{IsRecording, start_of};
ghost use Rattle.record_net.specs.Tapes.{Appended, Puts, tape_of};

use crate::spelling::spell;
use crate::{READ_LIMIT, RECORD_HEAD_LEN};
use link_traits::{FileFault, Files, Side};
use recording::session_file_head;
use std::alloc::Global;

/// The file to which a recorder appends. Memory for the longest record is taken when it is made.
#[derive(Drop)]
pub struct RecordFile {
    path: String,
    buffer: Vec<u8>,
    failed: Option<FileFault>,
    ghost room: { 65545 ≤ vec_capacity buffer },
}

impl RecordFile {
    /// Makes the file of a path, or empties the existing one, and writes the first six bytes of a recording. It returns
    /// `Failed` only if the files' count of faults rose. After an error the file may hold a prefix of these bytes.
    pub fn create<F: Files>(
        alloc: Global,
        files: &mut F,
        path: String,
    ) -> Result<RecordFile, FileFault>
        ensures path { IfOk result (λ file. string_bytes file.path ≡ string_bytes path) }
        ensures failed { IfOk result (λ file. file.failed ≡ None) }
        ensures head { OnOk result (IfSome ((F.view files.new).told (string_bytes path)) (λ bytes. bytes ≡ head)) }

        // A recording of what the net does from now on starts here, whatever the net's journal is now.
        ensures starts { IfOk result (λ file. (journal : Option Journal) → IsRecording (start_of journal (F.view files.new) (string_bytes path)) journal (tape_of (F.view files.new) file.failed)) }

        // The other files, and errors.
        ensures others { (p : List ℕ) → p ≢ string_bytes path → (F.view files.new).told p ≡ (F.view files.old).told p }
        ensures cause { IsErrOf result FileFault.Failed → FilesRose (F.view files.old) (F.view files.new) }
        ensures short { IsErrOf result FileFault.TooLong → ⊥ }
        ensures count { (F.view files.old).faults ≤ (F.view files.new).faults }
        ensures unread { (F.view files.new).reads ≡ (F.view files.old).reads }
    {
        let Ok(buffer) = Vec::with_capacity(alloc, RECORD_HEAD_LEN + READ_LIMIT) else {
            return Err(FileFault::Memory);
        };
        begin(files, &path)?;
        Ok(RecordFile {
            path,
            buffer,
            failed: None,
        })
    }

    /// The first error of an append since the file was made.
    pub fn failed(&self) -> Option<FileFault>
        ensures { result ≡ self.now.failed }
    {
        self.failed
    }

    /// Appends a record, unless an append failed before.
    pub(crate) fn put<F: Files>(&mut self, files: &mut F, bytes: &[u8])
        ensures puts { Puts (string_bytes self.old.path) bytes.now (tape_of (F.view files.old) self.old.failed) (tape_of (F.view files.new) self.new.failed) }
        ensures path { string_bytes self.new.path ≡ string_bytes self.old.path }
    {
        append_unless_failed(files, &self.path, &mut self.failed, bytes);
    }

    /// Appends the record of bytes that were received from a side, unless an append failed before.
    pub(crate) fn put_bytes<F: Files>(
        &mut self,
        files: &mut F,
        side: Side,
        session: u32,
        bytes: &[u8],
    )
        requires { length bytes.now ≤ READ_LIMIT }
        ensures puts { Puts (string_bytes self.old.path) (spelled_record (bytes_kind side) session bytes.now) (tape_of (F.view files.old) self.old.failed) (tape_of (F.view files.new) self.new.failed) }
        ensures path { string_bytes self.new.path ≡ string_bytes self.old.path }
    {
        spell(&mut self.buffer, side, session, bytes);
        append_unless_failed(files, &self.path, &mut self.failed, &self.buffer);
    }
}

/// Makes the file of a path with the first bytes of a recording, if a recording can start.
fn begin<F: Files>(files: &mut F, path: &str) -> Result<(), FileFault>
    ensures starts { OnOk result ((journal : Option Journal) → IsRecording (start_of journal (F.view files.new) path.now) journal (tape_of (F.view files.new) None)) }
    ensures head { OnOk result (IfSome ((F.view files.new).told path.now) (λ bytes. bytes ≡ head)) }
    ensures others { (p : List ℕ) → p ≢ path.now → (F.view files.new).told p ≡ (F.view files.old).told p }
    ensures cause { IsErrOf result FileFault.Failed → FilesRose (F.view files.old) (F.view files.new) }
    ensures short { result ≢ Err FileFault.TooLong }
    ensures count { (F.view files.old).faults ≤ (F.view files.new).faults }
    ensures unread { (F.view files.new).reads ≡ (F.view files.old).reads }
{
    create_with_head(files, path)
}

/// Makes the file of a path with the first bytes of a recording.
fn create_with_head<F: Files>(files: &mut F, path: &str) -> Result<(), FileFault>
    ensures head { OnOk result (IfSome ((F.view files.new).told path.now) (λ bytes. bytes ≡ head)) }
    ensures others { (p : List ℕ) → p ≢ path.now → (F.view files.new).told p ≡ (F.view files.old).told p }
    ensures cause { IsErrOf result FileFault.Failed → FilesRose (F.view files.old) (F.view files.new) }
    ensures short { result ≢ Err FileFault.TooLong }
    ensures count { (F.view files.old).faults ≤ (F.view files.new).faults }
    ensures unread { (F.view files.new).reads ≡ (F.view files.old).reads }
{
    match files.create(path) {
        Ok(()) => append_all(files, path, &session_file_head(true)),
        Err(fault) => Err(fault),
    }
}

/// Appends a record, unless an append failed before, and keeps the error if this one fails.
fn append_unless_failed<F: Files>(
    files: &mut F,
    path: &str,
    failed: &mut Option<FileFault>,
    bytes: &[u8],
)
    ensures { Puts path.now bytes.now (tape_of (F.view files.old) failed.old) (tape_of (F.view files.new) failed.new) }
{
    if failed.is_some() {
        return;
    }
    if let Err(fault) = append_all(files, path, bytes) {
        *failed = Some(fault);
    }
}

/// Appends all bytes, in as many pieces as the files take. If it fails, a prefix that lacks at least one byte was
/// appended.
fn append_all<F: Files>(files: &mut F, path: &str, bytes: &[u8]) -> Result<(), FileFault>
    ensures { Appended path.now bytes.now result (F.view files.old) (F.view files.new) }
{
    let mut done = 0;
    while done < bytes.len() {
        match files.append(path, &bytes[done..]) {
            Ok(n) => done += n,
            Err(fault) => return Err(fault),
        }
    }
    Ok(())
}
