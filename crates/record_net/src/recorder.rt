//! The net that records.
ghost use Rattle.std.specs.Prelude.{◌≡◌, ◌≤◌, ◌<◌, ◌+◌, ◌^◌, [], ◌∷◌, ℕ, true, Some, None, IfOk, IsErrOf, OnOk, length, drop, string_bytes};
ghost use Rattle.std.specs.Option.{option_map};
ghost use Rattle.link_traits.specs.Journals.{Journal, accepts, listens};
ghost use Rattle.link_traits.specs.Entries.{ready, shut};
ghost use Rattle.link_traits.specs.Views.{NetView, Adds, RoseAt, KeepsOthers, KeepsWishes};
ghost use Rattle.link_traits.specs.Answers.{listen_entry, accept_entry, connect_entry, read_entry, write_entry, no_wishes, client_link, bus_link, AfterAccept};
ghost use Rattle.link_traits.specs.declared.links.Count.{Count};
ghost use Rattle.link_traits.specs.declared.links.Wishes.{Wishes};
ghost use Rattle.record_net.specs.Records.{record_by, head};
ghost use Rattle.record_net.specs.Tapes.{Puts, tape_of};
ghost use Rattle.record_net.specs.Starts.{IsRecording, start_of};

use crate::READ_LIMIT;
use crate::record_file::RecordFile;
use crate::spelling::{CONNECT_END, end_record, failed_record, read_end, write_end};
use link_traits::{Accepted, FileFault, Files, Got, Link, Net, NetFault, Ready, Setting, Took};

/// A net that passes each call on to another net, and appends a record of what that net's links gave to a file.
///
/// Its results are the other net's. The files must be those in which the file of the recording was made.
#[derive(Drop)]
pub struct Recorder<'a, N: Net, F: Files> {
    pub(crate) net: &'a mut N,
    pub(crate) files: &'a mut F,
    pub(crate) file: &'a mut RecordFile,
}

impl<'a, N: Net, F: Files> Recorder<'a, N, F> {
    /// A recorder of what a net does from now on.
    pub fn new(net: &'a mut N, files: &'a mut F, file: &'a mut RecordFile) -> Recorder<'a, N, F>
        ensures net { result.net.now ≡ net.old }
        ensures net_name { result.net.ghost_name ≡ net.entry.ghost_name }
        ensures files { result.files.now ≡ files.old }
        ensures files_name { result.files.ghost_name ≡ files.entry.ghost_name }
        ensures file { result.file.now ≡ file.old }
        ensures file_name { result.file.ghost_name ≡ file.entry.ghost_name }
    {
        Recorder { net, files, file }
    }

    /// The first error of an append since the file was made. After it, nothing more is appended.
    pub fn failed(&self) -> Option<FileFault>
        ensures { result ≡ self.now.file.now.failed }
    {
        self.file.failed()
    }
}

impl<N: Net, F: Files> Net for Recorder<'_, N, F> {
    ghost view = { λ r. N.view r.net.now };

    ghost takes = { λ old setting new. N.takes old.net.now setting new.net.now };

    fn prepare(&mut self, setting: Setting) -> Result<(), NetFault>
        // Nothing is recorded.
        ensures files { self.new.files ≡ self.old.files }
        ensures file { self.new.file ≡ self.old.file }
        ensures net_name { self.new.net.ghost_name ≡ self.old.net.ghost_name }

        // The clauses of the trait.
        ensures taken { OnOk result (N.takes self.old.net.now setting self.new.net.now) }
        ensures told { Adds (N.view self.old.net.now) (N.view self.new.net.now) [] }
        ensures failed { IsErrOf result NetFault.Failed → RoseAt Count.Own (N.view self.old.net.now) (N.view self.new.net.now) }
        ensures wishes { KeepsWishes (N.view self.old.net.now) (N.view self.new.net.now) }
    {
        self.net.prepare(setting)
    }

    fn listen(&mut self, path: &str) -> Result<u32, NetFault>
        // Nothing is recorded.
        ensures files { self.new.files ≡ self.old.files }
        ensures file { self.new.file ≡ self.old.file }
        ensures net_name { self.new.net.ghost_name ≡ self.old.net.ghost_name }

        // The clauses of the trait.
        ensures told { Adds (N.view self.old.net.now) (N.view self.new.net.now) (listen_entry path.now result ∷ []) }
        ensures numbered { IfOk result (λ listener. (before : Journal) → (N.view self.old.net.now).journal ≡ Some before → listener ≡ listens before) }
        ensures failed { IsErrOf result NetFault.Failed → RoseAt Count.Own (N.view self.old.net.now) (N.view self.new.net.now) }
        ensures wishes { KeepsWishes (N.view self.old.net.now) (N.view self.new.net.now) }
    {
        self.net.listen(path)
    }

    fn wait(&mut self) -> Ready
        // Nothing is recorded.
        ensures files { self.new.files ≡ self.old.files }
        ensures file { self.new.file ≡ self.old.file }
        ensures net_name { self.new.net.ghost_name ≡ self.old.net.ghost_name }

        // The clauses of the trait.
        ensures told { Adds (N.view self.old.net.now) (N.view self.new.net.now) (ready result ∷ []) }
        ensures failed { result ≡ Ready.Failed → RoseAt Count.Own (N.view self.old.net.now) (N.view self.new.net.now) }
        ensures quiet { result ≡ Ready.Quiet → (N.view self.new.net.now).script_done ≡ true }
        ensures wishes { KeepsWishes (N.view self.old.net.now) (N.view self.new.net.now) }
    {
        self.net.wait()
    }

    fn accept(&mut self, listener: u32) -> Accepted
        // Nothing is recorded.
        ensures files { self.new.files ≡ self.old.files }
        ensures file { self.new.file ≡ self.old.file }
        ensures net_name { self.new.net.ghost_name ≡ self.old.net.ghost_name }

        // The clauses of the trait.
        ensures told { Adds (N.view self.old.net.now) (N.view self.new.net.now) (accept_entry listener result ∷ []) }
        ensures numbered { (session : ℕ) → result ≡ Accepted.New session → (before : Journal) → (N.view self.old.net.now).journal ≡ Some before → session ≡ accepts before + 1 }
        ensures failed { result ≡ Accepted.Failed → RoseAt (Count.Listener listener) (N.view self.old.net.now) (N.view self.new.net.now) }
        ensures not_ready { result ≡ Accepted.NotReady → RoseAt Count.Waits (N.view self.old.net.now) (N.view self.new.net.now) }
        ensures new_wishes { (session : ℕ) → result ≡ Accepted.New session → (N.view self.new.net.now).wishes (client_link session) ≡ Some no_wishes }
        ensures wishes { AfterAccept result (N.view self.old.net.now) (N.view self.new.net.now) }
    {
        self.net.accept(listener)
    }

    fn connect(&mut self, session: u32, path: &str) -> Result<(), NetFault>
        // What is recorded: the record of the result's entry.
        ensures puts { Puts (string_bytes self.old.file.now.path) (record_by (connect_entry session path.now result)) (tape_of (F.view self.old.files.now) self.old.file.now.failed) (tape_of (F.view self.new.files.now) self.new.file.now.failed) }
        ensures path { string_bytes self.new.file.now.path ≡ string_bytes self.old.file.now.path }
        ensures net_name { self.new.net.ghost_name ≡ self.old.net.ghost_name }
        ensures files_name { self.new.files.ghost_name ≡ self.old.files.ghost_name }
        ensures file_name { self.new.file.ghost_name ≡ self.old.file.ghost_name }

        // The clauses of the trait.
        ensures told { Adds (N.view self.old.net.now) (N.view self.new.net.now) (connect_entry session path.now result ∷ []) }
        ensures failed { IsErrOf result NetFault.Failed → RoseAt (Count.Link (bus_link session)) (N.view self.old.net.now) (N.view self.new.net.now) }
        ensures new_wishes { OnOk result ((N.view self.new.net.now).wishes (bus_link session) ≡ Some no_wishes) }
        ensures wishes { KeepsOthers (bus_link session) (N.view self.old.net.now) (N.view self.new.net.now) }
    {
        let answer = self.net.connect(session, path);
        if let Err(NetFault::Failed) = answer {
            let record = failed_record(session, CONNECT_END);
            self.file.put(self.files, &record);
        }
        answer
    }

    fn want(&mut self, link: Link, read: bool, write: bool)
        // Nothing is recorded.
        ensures files { self.new.files ≡ self.old.files }
        ensures file { self.new.file ≡ self.old.file }
        ensures net_name { self.new.net.ghost_name ≡ self.old.net.ghost_name }

        // The clauses of the trait.
        ensures told { Adds (N.view self.old.net.now) (N.view self.new.net.now) [] }
        ensures own { (N.view self.new.net.now).wishes link ≡ option_map (λ (_ : Wishes). record { read = read; write = write }) ((N.view self.old.net.now).wishes link) }
        ensures wishes { KeepsOthers link (N.view self.old.net.now) (N.view self.new.net.now) }
    {
        self.net.want(link, read, write);
    }

    /// The call is passed on with at most the first 65,536 bytes of the buffer.
    fn read(&mut self, link: Link, into: &mut [u8]) -> Got
        // What is recorded: the record of the result's entry.
        ensures puts { Puts (string_bytes self.old.file.now.path) (record_by (read_entry link into.new result)) (tape_of (F.view self.old.files.now) self.old.file.now.failed) (tape_of (F.view self.new.files.now) self.new.file.now.failed) }
        ensures path { string_bytes self.new.file.now.path ≡ string_bytes self.old.file.now.path }
        ensures net_name { self.new.net.ghost_name ≡ self.old.net.ghost_name }
        ensures files_name { self.new.files.ghost_name ≡ self.old.files.ghost_name }
        ensures file_name { self.new.file.ghost_name ≡ self.old.file.ghost_name }

        // No more than the limit is read at once, and the buffer after it doesn't change.
        ensures limit { (n : ℕ) → result ≡ Got.Bytes n → n ≤ READ_LIMIT }
        ensures rest { drop READ_LIMIT into.new ≡ drop READ_LIMIT into.old }

        // The session is a number of four bytes.
        ensures session { link.session < 2 ^ 32 }

        // The clauses of the trait.
        ensures told { Adds (N.view self.old.net.now) (N.view self.new.net.now) (read_entry link into.new result ∷ []) }
        ensures within { (n : ℕ) → result ≡ Got.Bytes n → n ≤ length into.new }
        ensures progress { (n : ℕ) → result ≡ Got.Bytes n → 0 < length into.new → 0 < n }
        ensures failed { result ≡ Got.Failed → RoseAt (Count.Link link) (N.view self.old.net.now) (N.view self.new.net.now) }
        ensures not_ready { result ≡ Got.NotReady → RoseAt Count.Waits (N.view self.old.net.now) (N.view self.new.net.now) }
        ensures wishes { KeepsWishes (N.view self.old.net.now) (N.view self.new.net.now) }
    {
        let session = link.session;
        let got = read_front(self.net, link, into);
        match got {
            Got::Bytes(n) => {
                self.file
                    .put_bytes(self.files, link.side, session, &into[..n]);
            }
            Got::Finished => {
                let record = end_record(link.side, session);
                self.file.put(self.files, &record);
            }
            Got::Failed => {
                let record = failed_record(session, read_end(link.side));
                self.file.put(self.files, &record);
            }
            Got::NotReady => {}
        }
        got
    }

    fn write(&mut self, link: Link, piece: &[u8]) -> Took
        // What is recorded: the record of the result's entry.
        ensures puts { Puts (string_bytes self.old.file.now.path) (record_by (write_entry link piece.now result)) (tape_of (F.view self.old.files.now) self.old.file.now.failed) (tape_of (F.view self.new.files.now) self.new.file.now.failed) }
        ensures path { string_bytes self.new.file.now.path ≡ string_bytes self.old.file.now.path }
        ensures net_name { self.new.net.ghost_name ≡ self.old.net.ghost_name }
        ensures files_name { self.new.files.ghost_name ≡ self.old.files.ghost_name }
        ensures file_name { self.new.file.ghost_name ≡ self.old.file.ghost_name }

        // The session is a number of four bytes.
        ensures session { link.session < 2 ^ 32 }

        // The clauses of the trait.
        ensures told { Adds (N.view self.old.net.now) (N.view self.new.net.now) (write_entry link piece.now result ∷ []) }
        ensures within { (n : ℕ) → result ≡ Took.Bytes n → n ≤ length piece.now }
        ensures progress { (n : ℕ) → result ≡ Took.Bytes n → 0 < length piece.now → 0 < n }
        ensures failed { result ≡ Took.Failed → RoseAt (Count.Link link) (N.view self.old.net.now) (N.view self.new.net.now) }
        ensures not_ready { result ≡ Took.NotReady → RoseAt Count.Waits (N.view self.old.net.now) (N.view self.new.net.now) }
        ensures wishes { KeepsWishes (N.view self.old.net.now) (N.view self.new.net.now) }
    {
        let session = link.session;
        let took = self.net.write(link, piece);
        match took {
            Took::Failed => {
                let record = failed_record(session, write_end(link.side));
                self.file.put(self.files, &record);
            }
            Took::Bytes(_) | Took::NotReady => {}
        }
        took
    }

    fn shut(&mut self, link: Link)
        // Nothing is recorded.
        ensures files { self.new.files ≡ self.old.files }
        ensures file { self.new.file ≡ self.old.file }
        ensures net_name { self.new.net.ghost_name ≡ self.old.net.ghost_name }

        // The clauses of the trait.
        ensures told { Adds (N.view self.old.net.now) (N.view self.new.net.now) (shut link ∷ []) }
        ensures gone { (N.view self.new.net.now).wishes link ≡ None }
        ensures wishes { KeepsOthers link (N.view self.old.net.now) (N.view self.new.net.now) }
    {
        self.net.shut(link);
    }
}

/// Reads into at most the first 65,536 bytes of a buffer.
fn read_front<N: Net>(net: &mut N, link: Link, into: &mut [u8]) -> Got
    ensures limit { (n : ℕ) → result ≡ Got.Bytes n → n ≤ READ_LIMIT }
    ensures rest { drop READ_LIMIT into.new ≡ drop READ_LIMIT into.old }
    ensures told { Adds (N.view net.old) (N.view net.new) (read_entry link into.new result ∷ []) }
    ensures within { (n : ℕ) → result ≡ Got.Bytes n → n ≤ length into.new }
    ensures progress { (n : ℕ) → result ≡ Got.Bytes n → 0 < length into.new → 0 < n }
    ensures failed { result ≡ Got.Failed → RoseAt (Count.Link link) (N.view net.old) (N.view net.new) }
    ensures not_ready { result ≡ Got.NotReady → RoseAt Count.Waits (N.view net.old) (N.view net.new) }
    ensures wishes { KeepsWishes (N.view net.old) (N.view net.new) }
{
    let most = into.len().min(READ_LIMIT);
    net.read(link, &mut into[..most])
}
