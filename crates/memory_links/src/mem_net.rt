//! A net in memory, which keeps a journal of its calls.
ghost use Rattle.std.specs.Prelude.{◌≡◌, ◌≢◌, ◌≤◌, ◌<◌, ◌+◌, ◌-◌, ◌^◌, ◌↔◌, ◌||◌, nat_lt, [], ◌∷◌, ℕ, Some, None, Err, IfOk, IfSome, IfNone, IsErrOf, IsSome, IsTrue, OnOk, OnErr, length, true, false, vec_len};
ghost use Rattle.std.specs.Option.{option_map};
ghost use Rattle.link_traits.specs.Entries.{Entry, ready, accepted, not_ready, failed, refused, shut};
ghost use Rattle.link_traits.specs.Journals.{Journal, accepts, listens, accepts_by, listens_by, written};
ghost use Rattle.memory_links.specs.Transcripts.{entry_of, bytes_of, is_spent, ceased, with_entry, entered, entered_unless_spent};
ghost use Rattle.link_traits.specs.Tables.{wishes_in, HasWish};
ghost use Rattle.memory_links.specs.Scripts.{next_place};

use crate::scripts::{Coming, Exception, Script};
use crate::transcripts::{Note, Transcript};
use link_traits::links::{
    Accepted, Call, Count, Got, Link, Net, NetFault, Ready, Setting, Side, Took, Wishes,
};
use link_traits::tables::LinkTable;
use std::alloc::{AllocError, Global};

/// The number of calls of each kind.
#[derive(Clone, Copy)]
struct Calls {
    prepares: u64,
    listens: u64,
    waits: u64,
    accepts: u64,
    connects: u64,
    reads: u64,
    writes: u64,
}

/// A net in memory. Its script says what happens, and it keeps its journal as long as there is room.
///
/// A wait names the first event in the script's order that wasn't named yet and has its wish. If there is none, the
/// script is done. If the net has no room for an entry or for a byte, `listen`, `accept` and `connect` answer that
/// memory was refused, and `wait`, `read` and `write` fail.
pub struct MemNet {
    transcript: Transcript,
    table: LinkTable,
    script: Script,
    calls: Calls,
    sessions: u32,
    done: bool,
    setting: Option<Setting>,
    ghost listeners: { vec_len table.listeners ≡ listens transcript.entries },
    ghost accepted: { sessions ≡ accepts transcript.entries },
}

// Its drop is a call, so that a function that drops one is short to prove.
impl Drop for MemNet {
    fn drop(self) {
        let MemNet {
            transcript: _transcript,
            table: _table,
            script: _script,
            calls: _calls,
            sessions: _sessions,
            done: _done,
            setting: _setting,
        } = self;
    }
}

impl MemNet {
    ghost use Rattle.link_traits.specs.Views.{Adds, RoseAt, KeepsWishes};
    ghost use Rattle.memory_links.specs.MemNets.{mem_view, IsNew};
    ghost use Rattle.memory_links.specs.Scripts.{script_of};

    /// A net with this script, before anything happened, with room for this number of entries of its journal and of
    /// bytes of paths and of what is read and written. Memory for them is taken at once.
    pub fn new(
        alloc: Global,
        script: Script,
        entries: usize,
        bytes: usize,
    ) -> Result<MemNet, AllocError>
        ensures new { IfOk result (λ net. IsNew (mem_view net)) }
        ensures script { IfOk result (λ net. script_of net.script ≡ script_of script) }
        ensures room { IfOk result (λ net. net.transcript ≡ record { tells = true; entries = []; entries_left = entries; bytes_left = bytes }) }
        ensures setting { IfOk result (λ net. net.setting ≡ None) }
    {
        let mut script = script;
        script.reserve()?;
        Ok(MemNet {
            transcript: Transcript::new(alloc, entries, bytes)?,
            table: LinkTable::new(alloc),
            script,
            calls: Calls {
                prepares: 0,
                listens: 0,
                waits: 0,
                accepts: 0,
                connects: 0,
                reads: 0,
                writes: 0,
            },
            sessions: 0,
            done: false,
            setting: None,
        })
    }

    /// All bytes that were written to a link, as long as the net keeps its journal.
    pub fn written(&self, alloc: Global, link: Link) -> Result<Vec<u8>, AllocError>
        ensures { IfOk result (λ v. (journal : Journal) → (mem_view self.now).journal ≡ Some journal → v.items ≡ written link journal) }
    {
        self.transcript.written(alloc, link)
    }

    /// The setting of the last prepare that succeeded.
    pub fn setting(&self) -> Option<Setting>
        ensures { result ≡ self.now.setting }
    {
        self.setting
    }

    /// Adds an entry to the journal, and raises a count.
    fn tell(&mut self, count: Option<Count>, note: Note, bytes: &[u8])
        requires entry { 0 < self.old.transcript.entries_left }
        requires bytes { length bytes.now ≤ self.old.transcript.bytes_left }
        requires own { bytes_of (entry_of note bytes.now) ≡ bytes.now }
        requires accepts { accepts_by (entry_of note bytes.now) ≡ 0 }
        requires listens { listens_by (entry_of note bytes.now) ≡ 0 }
        ensures transcript { self.new.transcript ≡ with_entry (entry_of note bytes.now) self.old.transcript }
        ensures told { Adds (mem_view self.old) (mem_view self.new) (entry_of note bytes.now ∷ []) }
        ensures rose { (c : Count) → count ≡ Some c → RoseAt c (mem_view self.old) (mem_view self.new) }
        ensures wishes { KeepsWishes (mem_view self.old) (mem_view self.new) }
        ensures done { self.new.done ≡ self.old.done }
    {
        if let Some(count) = count {
            self.table.raise(count);
        }
        self.transcript.add(note, bytes);
    }

    /// Fails for lack of room. The journal is no longer kept from then on.
    fn fail_spent(&mut self, count: Count)
        ensures transcript { self.new.transcript ≡ ceased self.old.transcript }
        ensures told { (entry : Entry) → Adds (mem_view self.old) (mem_view self.new) (entry ∷ []) }
        ensures rose { RoseAt count (mem_view self.old) (mem_view self.new) }
        ensures wishes { KeepsWishes (mem_view self.old) (mem_view self.new) }
        ensures done { self.new.done ≡ self.old.done }
    {
        self.table.raise(count);
        self.transcript.cease();
    }

    /// Refuses a call for lack of memory. If no entry is left, the journal is no longer kept from then on.
    fn refuse(&mut self, call: Call)
        ensures transcript { self.new.transcript ≡ entered (refused call) self.old.transcript }
        ensures told { Adds (mem_view self.old) (mem_view self.new) (refused call ∷ []) }
        ensures wishes { KeepsWishes (mem_view self.old) (mem_view self.new) }
        ensures done { self.new.done ≡ self.old.done }
    {
        if self.transcript.entries_left() == 0 {
            self.transcript.cease();
        } else {
            self.transcript.add(Note::Refused(call), &[]);
        }
    }

    /// Fails a call.
    fn fail(&mut self, count: Count, call: Call)
        requires { 0 < self.old.transcript.entries_left }
        ensures transcript { self.new.transcript ≡ with_entry (failed call) self.old.transcript }
        ensures told { Adds (mem_view self.old) (mem_view self.new) (failed call ∷ []) }
        ensures rose { RoseAt count (mem_view self.old) (mem_view self.new) }
        ensures wishes { KeepsWishes (mem_view self.old) (mem_view self.new) }
        ensures done { self.new.done ≡ self.old.done }
    {
        self.tell(Some(count), Note::Failed(call), &[]);
    }

    /// Answers that a call isn't ready.
    fn put_off(&mut self, call: Call)
        requires { 0 < self.old.transcript.entries_left }
        ensures transcript { self.new.transcript ≡ with_entry (not_ready call) self.old.transcript }
        ensures told { Adds (mem_view self.old) (mem_view self.new) (not_ready call ∷ []) }
        ensures rose { RoseAt Count.Waits (mem_view self.old) (mem_view self.new) }
        ensures wishes { KeepsWishes (mem_view self.old) (mem_view self.new) }
        ensures done { self.new.done ≡ self.old.done }
    {
        self.tell(Some(Count::Waits), Note::NotReady(call), &[]);
    }
}

impl MemNet {
    ghost use Rattle.link_traits.specs.Views.{Adds, RoseAt, KeepsWishes, KeepsOthers};
    ghost use Rattle.link_traits.specs.Answers.{listen_entry, accept_entry, connect_entry, no_wishes, client_link, bus_link, AfterAccept};
    ghost use Rattle.memory_links.specs.MemNets.{mem_view};

    /// Makes the next listener.
    fn make_listener(&mut self, listener: u32, path: &[u8]) -> Result<u32, NetFault>
        requires entry { 0 < self.old.transcript.entries_left }
        requires bytes { length path.now ≤ self.old.transcript.bytes_left }
        requires next { listener ≡ listens self.old.transcript.entries }
        ensures transcript { self.new.transcript ≡ with_entry (listen_entry path.now result) self.old.transcript }
        ensures told { Adds (mem_view self.old) (mem_view self.new) (listen_entry path.now result ∷ []) }
        ensures next { IfOk result (λ made. made ≡ listener) }
        ensures failed { result ≢ Err NetFault.Failed }
        ensures wishes { KeepsWishes (mem_view self.old) (mem_view self.new) }
        ensures done { self.new.done ≡ self.old.done }
    {
        if self.table.add_listener().is_err() {
            self.refuse(Call::Listen);
            return Err(NetFault::Memory);
        }
        self.transcript.add(Note::Listened(listener), path);
        Ok(listener)
    }

    /// Makes the next session, if memory allows.
    fn make_session(&mut self, listener: u32) -> Option<u32>
        requires entry { 0 < self.old.transcript.entries_left }
        requires next { self.old.sessions < 4294967295 }
        ensures some { IfSome result (λ session. (session ≡ accepts self.old.transcript.entries + 1) × Adds (mem_view self.old) (mem_view self.new) (accepted listener session ∷ [])) }
        ensures some_transcript { IfSome result (λ session. self.new.transcript ≡ with_entry (accepted listener session) self.old.transcript) }
        ensures none { IfNone result (Adds (mem_view self.old) (mem_view self.new) (refused (Call.Accept listener) ∷ [])) }
        ensures none_transcript { IfNone result (self.new.transcript ≡ with_entry (refused (Call.Accept listener)) self.old.transcript) }
        ensures own { IfSome result (λ session. (mem_view self.new).wishes (client_link session) ≡ Some no_wishes) }
        ensures others { IfSome result (λ session. KeepsOthers (client_link session) (mem_view self.old) (mem_view self.new)) }
        ensures kept { IfNone result (KeepsWishes (mem_view self.old) (mem_view self.new)) }
        ensures done { self.new.done ≡ self.old.done }
    {
        let session = self.sessions + 1;
        let link = Link {
            session,
            side: Side::Client,
        };
        if self.table.add_link(link).is_err() {
            self.refuse(Call::Accept(listener));
            return None;
        }
        self.transcript.add(Note::Accepted(listener, session), &[]);
        self.sessions = session;
        Some(session)
    }

    /// Makes the link of a session to its bus.
    fn make_bus_link(&mut self, session: u32, path: &[u8]) -> Result<(), NetFault>
        requires entry { 0 < self.old.transcript.entries_left }
        requires bytes { length path.now ≤ self.old.transcript.bytes_left }
        ensures transcript { self.new.transcript ≡ with_entry (connect_entry session path.now result) self.old.transcript }
        ensures told { Adds (mem_view self.old) (mem_view self.new) (connect_entry session path.now result ∷ []) }
        ensures failed { result ≢ Err NetFault.Failed }
        ensures own { OnOk result ((mem_view self.new).wishes (bus_link session) ≡ Some no_wishes) }
        ensures others { KeepsOthers (bus_link session) (mem_view self.old) (mem_view self.new) }
        ensures done { self.new.done ≡ self.old.done }
    {
        let link = Link {
            session,
            side: Side::Bus,
        };
        if self.table.add_link(link).is_err() {
            self.refuse(Call::Connect(session));
            return Err(NetFault::Memory);
        }
        self.transcript.add(Note::Connected(session), path);
        Ok(())
    }

    /// Whether a link was made and isn't shut.
    fn is_made(&self, link: Link) -> bool
        ensures { IsTrue result ↔ IsSome (wishes_in self.now.table link) }
    {
        self.table.wishes(link).is_some()
    }

    /// Whether there is no room for a path.
    fn has_no_room(&self, path: &[u8]) -> bool
        ensures answer { result ≡ (is_spent self.now.transcript || nat_lt self.now.transcript.bytes_left (length path.now)) }
        ensures entry { result ≡ false → 0 < self.now.transcript.entries_left }
        ensures bytes { result ≡ false → length path.now ≤ self.now.transcript.bytes_left }
    {
        self.transcript.is_spent() || path.len() > self.transcript.bytes_left()
    }
}

impl Net for MemNet {
    ghost use Rattle.link_traits.specs.Views.{Adds, RoseAt, KeepsWishes, KeepsOthers};
    ghost use Rattle.link_traits.specs.Answers.{listen_entry, accept_entry, connect_entry, read_entry, write_entry, no_wishes, client_link, bus_link, AfterAccept};
    ghost use Rattle.memory_links.specs.MemNets.{mem_view, HasEndNext, IsPrepareRefused, IsPrepareFailing};
    ghost use Rattle.link_traits.specs.declared.links.Link.{Link};
    ghost use Rattle.link_traits.specs.declared.links.Wishes.{Wishes};

    ghost view = { mem_view };

    ghost takes = { λ old setting new. new.setting ≡ Some setting };

    /// It fails or is refused memory only if the script says so, and has no entry in the journal. It takes no room.
    fn prepare(&mut self, setting: Setting) -> Result<(), NetFault>
        ensures taken { OnOk result (self.new.setting ≡ Some setting) }
        ensures kept { OnErr result (self.new.setting ≡ self.old.setting) }
        ensures refuses { IsErrOf result NetFault.Memory ↔ IsPrepareRefused self.old }
        ensures fails { IsErrOf result NetFault.Failed ↔ IsPrepareFailing self.old }
        ensures transcript { self.new.transcript ≡ self.old.transcript }
        ensures done { self.new.done ≡ self.old.done }

        // The clauses of the trait.
        ensures told { Adds (mem_view self.old) (mem_view self.new) [] }
        ensures failed { IsErrOf result NetFault.Failed → RoseAt Count.Own (mem_view self.old) (mem_view self.new) }
        ensures wishes { KeepsWishes (mem_view self.old) (mem_view self.new) }
    {
        let place = counted(self.calls.prepares);
        self.calls.prepares = place;
        if self.script.has(Exception::PrepareRefused(place)) {
            return Err(NetFault::Memory);
        }
        if self.script.has(Exception::PrepareFails(place)) {
            self.table.raise(Count::Own);
            return Err(NetFault::Failed);
        }
        self.setting = Some(setting);
        Ok(())
    }

    /// It answers that memory was refused if the room is spent or too small for the path. Such an answer is entered in
    /// the journal if an entry is left.
    fn listen(&mut self, path: &str) -> Result<u32, NetFault>
        ensures transcript { self.new.transcript ≡ entered (listen_entry path.now result) self.old.transcript }
        ensures spent { IsTrue (is_spent self.old.transcript) → IsErrOf result NetFault.Memory }
        ensures done { self.new.done ≡ self.old.done }

        // The clauses of the trait.
        ensures told { Adds (mem_view self.old) (mem_view self.new) (listen_entry path.now result ∷ []) }
        ensures numbered { IfOk result (λ listener. (before : Journal) → (mem_view self.old).journal ≡ Some before → listener ≡ listens before) }
        ensures failed { IsErrOf result NetFault.Failed → RoseAt Count.Own (mem_view self.old) (mem_view self.new) }
        ensures wishes { KeepsWishes (mem_view self.old) (mem_view self.new) }
    {
        let path = path.as_bytes();
        let place = counted(self.calls.listens);
        self.calls.listens = place;
        if self.has_no_room(path) || self.script.has(Exception::ListenRefused(place)) {
            self.refuse(Call::Listen);
            return Err(NetFault::Memory);
        }
        if self.script.has(Exception::ListenFails(place)) {
            self.fail(Count::Own, Call::Listen);
            return Err(NetFault::Failed);
        }
        let Ok(listener) = u32::try_from(self.table.listeners.len()) else {
            self.fail(Count::Own, Call::Listen);
            return Err(NetFault::Failed);
        };
        self.make_listener(listener, path)
    }

    /// It fails if the room is spent, and the journal is no longer kept from then on. It names a link only for a wish
    /// that is true.
    fn wait(&mut self) -> Ready
        ensures transcript { self.new.transcript ≡ entered_unless_spent (ready result) self.old.transcript }
        ensures spent { IsTrue (is_spent self.old.transcript) → result ≡ Ready.Failed }
        ensures wished { (link : Link) → result ≡ Ready.Link link → HasWish (wishes_in self.old.table link) }
        ensures done { result ≢ Ready.Quiet → self.new.done ≡ self.old.done }

        // The clauses of the trait.
        ensures told { Adds (mem_view self.old) (mem_view self.new) (ready result ∷ []) }
        ensures failed { result ≡ Ready.Failed → RoseAt Count.Own (mem_view self.old) (mem_view self.new) }
        ensures quiet { result ≡ Ready.Quiet → (mem_view self.new).script_done ≡ true }
        ensures wishes { KeepsWishes (mem_view self.old) (mem_view self.new) }
    {
        let place = counted(self.calls.waits);
        self.calls.waits = place;
        if self.transcript.is_spent() {
            self.fail_spent(Count::Own);
            return Ready::Failed;
        }
        if self.script.has(Exception::WaitFails(place)) {
            self.tell(Some(Count::Own), Note::Ready(Ready::Failed), &[]);
            return Ready::Failed;
        }
        match self.script.next(&self.table) {
            Some(ready) => {
                self.tell(None, Note::Ready(ready), &[]);
                ready
            }
            None => {
                self.done = true;
                self.tell(None, Note::Ready(Ready::Quiet), &[]);
                Ready::Quiet
            }
        }
    }

    /// It answers that memory was refused if the room is spent. Such an answer is entered in the journal if an entry is
    /// left.
    fn accept(&mut self, listener: u32) -> Accepted
        ensures transcript { self.new.transcript ≡ entered (accept_entry listener result) self.old.transcript }
        ensures spent { IsTrue (is_spent self.old.transcript) → result ≡ Accepted.Memory }
        ensures done { self.new.done ≡ self.old.done }

        // The clauses of the trait.
        ensures told { Adds (mem_view self.old) (mem_view self.new) (accept_entry listener result ∷ []) }
        ensures numbered { (session : ℕ) → result ≡ Accepted.New session → (before : Journal) → (mem_view self.old).journal ≡ Some before → session ≡ accepts before + 1 }
        ensures failed { result ≡ Accepted.Failed → RoseAt (Count.Listener listener) (mem_view self.old) (mem_view self.new) }
        ensures not_ready { result ≡ Accepted.NotReady → RoseAt Count.Waits (mem_view self.old) (mem_view self.new) }
        ensures new_wishes { (session : ℕ) → result ≡ Accepted.New session → (mem_view self.new).wishes (client_link session) ≡ Some no_wishes }
        ensures wishes { AfterAccept result (mem_view self.old) (mem_view self.new) }
    {
        let call = Call::Accept(listener);
        let place = counted(self.calls.accepts);
        self.calls.accepts = place;
        if self.transcript.is_spent() || self.script.has(Exception::AcceptRefused(place)) {
            self.refuse(call);
            return Accepted::Memory;
        }
        if self.script.has(Exception::AcceptFails(place)) || self.sessions == u32::MAX {
            self.fail(Count::Listener(listener), call);
            return Accepted::Failed;
        }
        if self.script.has(Exception::AcceptNotReady(place)) {
            self.script.name_arrival_again(listener);
            self.put_off(call);
            return Accepted::NotReady;
        }
        if !self.script.take_arrival(listener) {
            self.put_off(call);
            return Accepted::NotReady;
        }
        match self.make_session(listener) {
            Some(session) => Accepted::New(session),
            None => Accepted::Memory,
        }
    }

    /// It answers that memory was refused if the room is spent or too small for the path. Such an answer is entered in
    /// the journal if an entry is left. It fails if the session already has a link to its bus.
    fn connect(&mut self, session: u32, path: &str) -> Result<(), NetFault>
        ensures transcript { self.new.transcript ≡ entered (connect_entry session path.now result) self.old.transcript }
        ensures spent { IsTrue (is_spent self.old.transcript) → IsErrOf result NetFault.Memory }
        ensures done { self.new.done ≡ self.old.done }

        // The clauses of the trait.
        ensures told { Adds (mem_view self.old) (mem_view self.new) (connect_entry session path.now result ∷ []) }
        ensures failed { IsErrOf result NetFault.Failed → RoseAt (Count.Link (bus_link session)) (mem_view self.old) (mem_view self.new) }
        ensures new_wishes { OnOk result ((mem_view self.new).wishes (bus_link session) ≡ Some no_wishes) }
        ensures wishes { KeepsOthers (bus_link session) (mem_view self.old) (mem_view self.new) }
    {
        let path = path.as_bytes();
        let link = Link {
            session,
            side: Side::Bus,
        };
        let place = counted(self.calls.connects);
        self.calls.connects = place;
        if self.has_no_room(path) || self.script.has(Exception::ConnectRefused(place)) {
            self.refuse(Call::Connect(session));
            return Err(NetFault::Memory);
        }
        if self.script.has(Exception::ConnectFails(place)) || self.is_made(link) {
            self.fail(Count::Link(link), Call::Connect(session));
            return Err(NetFault::Failed);
        }
        self.make_bus_link(session, path)
    }

    fn want(&mut self, link: Link, read: bool, write: bool)
        ensures transcript { self.new.transcript ≡ self.old.transcript }
        ensures done { self.new.done ≡ self.old.done }

        // The clauses of the trait.
        ensures told { Adds (mem_view self.old) (mem_view self.new) [] }
        ensures own { (mem_view self.new).wishes link ≡ option_map (λ (_ : Wishes). record { read = read; write = write }) ((mem_view self.old).wishes link) }
        ensures wishes { KeepsOthers link (mem_view self.old) (mem_view self.new) }
    {
        self.table.want(link, Wishes { read, write });
    }

    /// It fails if the room is spent, and the journal is no longer kept from then on. It also fails if the link isn't
    /// there. It returns the end of a link exactly if the end is next on the link in the script, however often it is
    /// read.
    fn read(&mut self, link: Link, into: &mut [u8]) -> Got
        ensures transcript { self.new.transcript ≡ entered_unless_spent (read_entry link into.new result) self.old.transcript }
        ensures spent { IsTrue (is_spent self.old.transcript) → result ≡ Got.Failed }
        ensures finished { (result ≡ Got.Finished) ↔ HasEndNext self.old link }
        ensures done { self.new.done ≡ self.old.done }

        // The clauses of the trait.
        ensures told { Adds (mem_view self.old) (mem_view self.new) (read_entry link into.new result ∷ []) }
        ensures within { (n : ℕ) → result ≡ Got.Bytes n → n ≤ length into.new }
        ensures progress { (n : ℕ) → result ≡ Got.Bytes n → 0 < length into.new → 0 < n }
        ensures failed { result ≡ Got.Failed → RoseAt (Count.Link link) (mem_view self.old) (mem_view self.new) }
        ensures not_ready { result ≡ Got.NotReady → RoseAt Count.Waits (mem_view self.old) (mem_view self.new) }
        ensures wishes { KeepsWishes (mem_view self.old) (mem_view self.new) }
    {
        let call = Call::Read(link);
        let place = counted(self.calls.reads);
        self.calls.reads = place;
        if self.transcript.is_spent() {
            self.fail_spent(Count::Link(link));
            return Got::Failed;
        }
        if self.script.has(Exception::ReadFails(place)) || !self.is_made(link) {
            self.fail(Count::Link(link), call);
            return Got::Failed;
        }
        if self.script.has(Exception::ReadNotReady(place)) {
            self.script.name_again(link);
            self.put_off(call);
            return Got::NotReady;
        }
        match self.script.read(link, into, self.transcript.bytes_left()) {
            Coming::Bytes(n) => {
                self.tell(None, Note::Read(link), &into[..n]);
                Got::Bytes(n)
            }
            Coming::End => {
                self.tell(None, Note::Finished(link), &[]);
                Got::Finished
            }
            Coming::Nothing => {
                self.put_off(call);
                Got::NotReady
            }
        }
    }

    /// It fails if the room is spent, and the journal is no longer kept from then on. It also fails if the link isn't
    /// there, and if the link took all that its script allows. It takes no more than there is room for.
    fn write(&mut self, link: Link, piece: &[u8]) -> Took
        ensures transcript { self.new.transcript ≡ entered_unless_spent (write_entry link piece.now result) self.old.transcript }
        ensures spent { IsTrue (is_spent self.old.transcript) → result ≡ Took.Failed }
        ensures done { self.new.done ≡ self.old.done }

        // The clauses of the trait.
        ensures told { Adds (mem_view self.old) (mem_view self.new) (write_entry link piece.now result ∷ []) }
        ensures within { (n : ℕ) → result ≡ Took.Bytes n → n ≤ length piece.now }
        ensures progress { (n : ℕ) → result ≡ Took.Bytes n → 0 < length piece.now → 0 < n }
        ensures failed { result ≡ Took.Failed → RoseAt (Count.Link link) (mem_view self.old) (mem_view self.new) }
        ensures not_ready { result ≡ Took.NotReady → RoseAt Count.Waits (mem_view self.old) (mem_view self.new) }
        ensures wishes { KeepsWishes (mem_view self.old) (mem_view self.new) }
    {
        let call = Call::Write(link);
        let place = counted(self.calls.writes);
        self.calls.writes = place;
        if self.transcript.is_spent() {
            self.fail_spent(Count::Link(link));
            return Took::Failed;
        }
        if self.script.has(Exception::WriteFails(place)) || !self.is_made(link) {
            self.fail(Count::Link(link), call);
            return Took::Failed;
        }
        if self.script.has(Exception::WriteNotReady(place)) {
            self.script.again(link);
            self.put_off(call);
            return Took::NotReady;
        }
        let Some(most) = self.script.room_of(link) else {
            self.fail(Count::Link(link), call);
            return Took::Failed;
        };
        let n = piece.len().min(most).min(self.transcript.bytes_left());
        if n == 0 && !piece.is_empty() {
            self.put_off(call);
            return Took::NotReady;
        }
        self.script.took(link, n);
        self.tell(None, Note::Wrote(link), &piece[..n]);
        Took::Bytes(n)
    }

    /// If no entry is left, the net's own count rises, and the journal is no longer kept from then on.
    fn shut(&mut self, link: Link)
        ensures transcript { self.new.transcript ≡ entered (shut link) self.old.transcript }
        ensures unentered { self.old.transcript.entries_left ≡ 0 → RoseAt Count.Own (mem_view self.old) (mem_view self.new) }
        ensures done { self.new.done ≡ self.old.done }

        // The clauses of the trait.
        ensures told { Adds (mem_view self.old) (mem_view self.new) (shut link ∷ []) }
        ensures gone { (mem_view self.new).wishes link ≡ None }
        ensures wishes { KeepsOthers link (mem_view self.old) (mem_view self.new) }
    {
        self.table.remove_link(link);
        if self.transcript.entries_left() == 0 {
            self.fail_spent(Count::Own);
        } else {
            self.tell(None, Note::Shut(link), &[]);
        }
    }
}

/// The number of calls plus one, up to the greatest `u64`.
fn counted(calls: u64) -> u64
    ensures { result ≡ next_place calls }
{
    calls.saturating_add(1)
}
