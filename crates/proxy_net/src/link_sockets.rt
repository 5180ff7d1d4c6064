//! What is kept of each link: its wishes, its faults and its socket.
ghost use Rattle.std.specs.Prelude.{◌≡◌, ◌≢◌, ◌≤◌, ◌<◌, ◌+◌, ◌*◌, ◌&&◌, ◌||◌, ◌⊎◌, ◌↔◌, not, ℕ, Bool, Some, IsTrue, length, true, false};
ghost use Rattle.link_traits.specs.Told.{Rose};
ghost use Rattle.link_traits.specs.Tables.{HasWish};
ghost use Rattle.link_traits.specs.Answers.{no_wishes};
ghost use Rattle.proxy_net.specs.Naming.{is_ready, is_link_placed, is_link_closed, is_to_fail};
ghost use Rattle.proxy_net.specs.Registering.{is_registered_by, is_connected_by};
ghost use Rattle.proxy_net.specs.Noting.{is_link_noted, may_have_more};
ghost use Rattle.proxy_net.specs.Delays.{is_overdue};
ghost use Rattle.proxy_net.specs.Connecting.{IsLater, is_open, is_pending, is_given_up as is_failed, due_of, tried_path};
ghost use Rattle.std.specs.Prelude.{List};
ghost use Rattle.proxy_net.specs.Steps.{Steps, IsRead, IsLinkWrite, IsConnectionWrite, IsAsked, IsRoomAwaited, IsWatched, IsRetryOf, IsRetryIn, IsRetryBy, IsRetryAs, IsAttempt, IsNoRoom, IsShut, IsNoted, got_of};
ghost use Rattle.std.specs.String.{string_bytes};
ghost use Rattle.std.specs.Time.{instant_nanos};

use crate::delays::{FIRST_DELAY, LONGEST_DELAY, is_by, later};
use crate::streams::{StreamRead, StreamWrite, read_stream, write_stream};
use crate::system::{Numbered, Sockets};
use link_traits::{Got, Wishes};
use std::io::ErrorKind;
use std::time::{Duration, Instant};

/// The seconds in which a connect is tried again.
const TRIED_FOR: u64 = 5;

/// A count one higher, or at its greatest number.
pub fn raised(count: u64) -> u64
    ensures rose { Rose count result }
    ensures grows { count ≤ result }
    ensures some { 0 < result }
{
    count.saturating_add(1)
}

/// A connect to a bus that had no room for one more, and is tried again.
#[derive(Drop)]
pub struct Retry {
    path: String,
    // The number that its stream is to be made with.
    token: u64,
    delay: u64,
    due: Instant,
    until: Instant,
}

/// The stream of a link.
#[derive(Drop)]
pub enum Connection<T> {
    Open(Numbered<T>),
    /// The bus had no room yet. Reads and writes aren't ready.
    Pending(Retry),
    /// It was given up. Reads and writes fail.
    Failed,
}

/// What came of a try to connect.
#[derive(Drop)]
enum Connected<T> {
    To(Numbered<T>),
    /// It wasn't time for one.
    NotDue,
    /// The bus had no room.
    WouldBlock,
    /// It was connected or given up before.
    Before,
    /// It can't be connected, or not be watched.
    Failed,
}

/// What a try to connect did.
#[derive(Clone, Copy)]
pub enum Attempt {
    /// It wasn't time for one.
    NotDue,
    /// The bus had no room.
    WouldBlock,
    /// Nothing is to be tried any more.
    Done,
}

/// What a write to a link did.
#[derive(Clone, Copy)]
pub enum LinkWrite {
    Bytes(usize),
    NotReady,
    /// The peer closed. The link's count rose.
    PeerClosed,
    /// The link's count rose.
    Failed,
}

/// A link that was made and isn't shut.
///
/// The system reports each change once. So a link is kept as readable until a read answers that it would wait or
/// doesn't fill its buffer, and as writable until a write would wait. It is readable again once the system reports
/// something new of it, and once more if a write finds for the first time that its peer closed. One whose end was
/// reported stays readable until that is read. It is registered for reading alone; for writing too from a write that
/// would have waited until there is room again.
///
/// A write to a peer that closed isn't ready until what the peer wrote before was read to its end.
#[derive(Drop)]
pub struct LinkSocket<T> {
    /// What the link is watched for.
    pub wishes: Wishes,
    /// How often it failed.
    pub faults: u64,
    connection: Connection<T>,
    readable: bool,
    writable: bool,
    // The system reported that no bytes come after those that are there.
    ending: bool,
    peer_closed: bool,
    end_read: bool,
    given_up: bool,
    queued: bool,
}

impl Retry {
    /// A connect that had no room now.
    pub fn new(token: u64, path: String, now: Instant) -> Retry
        ensures token { result.token ≡ token }
        ensures path { result.path ≡ path }
        ensures delay { result.delay ≡ FIRST_DELAY }
        ensures due { IsLater now (FIRST_DELAY * 1_000_000) result.due }
        ensures until { IsLater now (TRIED_FOR * 1_000_000_000) result.until }
    {
        Retry {
            path,
            token,
            delay: FIRST_DELAY,
            due: later(now, Duration::from_millis(FIRST_DELAY)),
            until: later(now, Duration::from_secs(TRIED_FOR)),
        }
    }

    /// Tries again to connect, if it is time to.
    fn connect<S: Sockets>(&mut self, system: &mut S, now: Instant) -> Connected<S::Stream>
        ensures token { is_connected_by self.old.token result ≡ true }
        ensures early { instant_nanos now < instant_nanos self.old.due → (result ≡ Connected.NotDue) × (self.new ≡ self.old) }
        ensures again { result ≡ Connected.WouldBlock → instant_nanos now ≤ instant_nanos self.old.until }
        ensures due { result ≡ Connected.WouldBlock → IsLater now (self.new.delay * 1_000_000) self.new.due }
        ensures tried { result ≢ Connected.Before }
        ensures rest { self.new ≡ record self.old { delay = self.new.delay; due = self.new.due } }
        ensures told { Steps (IsRetryOf self.old.token (string_bytes self.old.path)) (S.journal system.old) (S.journal system.new) }
        ensures late { instant_nanos self.old.due ≤ instant_nanos now → result ≢ Connected.NotDue }
        ensures left { (result ≡ Connected.NotDue) ⊎ (result ≡ Connected.WouldBlock) → instant_nanos now ≤ instant_nanos self.new.due }
        ensures retried { Steps (IsRetryBy self.old now result) (S.journal system.old) (S.journal system.new) }
    {
        if !is_by(self.due, now) {
            return Connected::NotDue;
        }
        match system.connect(self.path.as_str(), self.token) {
            Ok(stream) => Connected::To(stream),
            Err(error) => {
                if self.is_tried_on(error.kind(), now) {
                    self.put_off(now);
                    return Connected::WouldBlock;
                }
                Connected::Failed
            }
        }
    }

    /// Whether it is tried again after it was refused so.
    fn is_tried_on(&self, kind: ErrorKind, now: Instant) -> bool
        ensures yes { result ≡ true → IsNoRoom kind × (instant_nanos now ≤ instant_nanos self.now.until) }
        ensures no { result ≡ false → IsNoRoom kind → instant_nanos self.now.until ≤ instant_nanos now }
    {
        if !is_put_off(kind) {
            return false;
        }
        self.has_time(now)
    }

    /// Whether it may be tried again.
    fn has_time(&self, now: Instant) -> bool
        ensures yes { result ≡ true → instant_nanos now ≤ instant_nanos self.now.until }
        ensures no { instant_nanos now < instant_nanos self.now.until → result ≡ true }
    {
        now < self.until
    }

    /// Puts the next try off.
    fn put_off(&mut self, now: Instant)
        ensures short { self.old.delay * 2 ≤ LONGEST_DELAY → self.new.delay ≡ self.old.delay * 2 }
        ensures long { LONGEST_DELAY < self.old.delay * 2 → self.new.delay ≡ LONGEST_DELAY }
        ensures due { IsLater now (self.new.delay * 1_000_000) self.new.due }
        ensures after { instant_nanos now ≤ instant_nanos self.new.due }
        ensures rest { self.new ≡ record self.old { delay = self.new.delay; due = self.new.due } }
    {
        self.delay = self.delay.saturating_mul(2).min(LONGEST_DELAY);
        self.due = later(now, Duration::from_millis(self.delay));
    }
}

/// Whether a connect that was refused so is to be tried again.
pub fn is_put_off(kind: ErrorKind) -> bool
    ensures { IsTrue result ↔ ((kind ≡ ErrorKind.WouldBlock) ⊎ (kind ≡ ErrorKind.Interrupted)) }
{
    kind == ErrorKind::WouldBlock || kind == ErrorKind::Interrupted
}

impl<T: Drop> LinkSocket<T> {
    /// A link without a wish.
    pub fn new(faults: u64, connection: Connection<T>) -> LinkSocket<T>
        ensures wishes { result.wishes ≡ no_wishes }
        ensures faults { result.faults ≡ faults }
        ensures connection { result.connection ≡ connection }
        ensures quiet { (result.queued ≡ false) × (result.readable ≡ false) × (result.given_up ≡ false) }
        ensures open { (result.peer_closed ≡ false) × (result.end_read ≡ false) }
    {
        let writable = matches!(connection, Connection::Open(_));
        LinkSocket {
            wishes: Wishes {
                read: false,
                write: false,
            },
            faults,
            connection,
            readable: false,
            writable,
            ending: false,
            peer_closed: false,
            end_read: false,
            given_up: false,
            queued: false,
        }
    }

    /// Reads once.
    pub fn read<S: Sockets<Stream = T>>(&mut self, system: &mut S, into: &mut [u8]) -> Got
        ensures within { (n : ℕ) → result ≡ Got.Bytes n → n ≤ length into.new }
        ensures progress { (n : ℕ) → result ≡ Got.Bytes n → 0 < length into.new → 0 < n }
        ensures failed { result ≡ Got.Failed → Rose self.old.faults self.new.faults }
        ensures pending { is_pending self.old.connection ≡ true → result ≡ Got.NotReady }
        ensures never { is_failed self.old.connection ≡ true → result ≡ Got.Failed }
        ensures finished { result ≡ Got.Finished → (self.new.end_read ≡ true) × (self.new.given_up ≡ self.old.peer_closed) }
        ensures goes_on { result ≢ Got.Finished → (self.new.end_read ≡ self.old.end_read) × (self.new.given_up ≡ self.old.given_up) }
        ensures left { (n : ℕ) → result ≡ Got.Bytes n → self.new.readable ≡ (self.old.readable && may_have_more n (length into.new) self.old) }
        ensures readable { (result ≡ Got.Finished) ⊎ (result ≡ Got.Failed) → self.new.readable ≡ self.old.readable }
        ensures unread { self.new.readable ≡ true → self.old.readable ≡ true }
        ensures waits { result ≡ Got.NotReady → self.new.readable ≡ false }
        ensures rest { (self.new.writable ≡ self.old.writable) × (self.new.ending ≡ self.old.ending) × (self.new.peer_closed ≡ self.old.peer_closed) }
        ensures queued { self.new.queued ≡ self.old.queued }
        ensures token { (token : ℕ) → is_registered_by token self.old.connection ≡ true → is_registered_by token self.new.connection ≡ true }
        ensures faults { self.old.faults ≤ self.new.faults }
        ensures wishes { self.new.wishes ≡ self.old.wishes }
        ensures told { (number : ℕ) → is_registered_by number self.old.connection ≡ true → Steps (IsRead (is_open self.old.connection) number into.new result) (S.journal system.old) (S.journal system.new) }
        ensures without { is_open self.old.connection ≡ false → is_pending self.old.connection ≡ false → result ≡ Got.Failed }
        ensures connection { self.new.connection ≡ self.old.connection }
    {
        match self.read_connection(system, into) {
            StreamRead::Bytes(n) => {
                self.note_read(n, into.len());
                Got::Bytes(n)
            }
            StreamRead::End => {
                self.end_read = true;
                self.given_up = self.peer_closed;
                Got::Finished
            }
            StreamRead::Nothing => {
                self.readable = false;
                Got::NotReady
            }
            StreamRead::Fault => {
                self.faults = raised(self.faults);
                Got::Failed
            }
        }
    }

    /// Notes that this many bytes were read into this much room. If there was room for more, all that had come was read
    /// (epoll(7)), and what comes later is reported, but for an end that was reported already.
    fn note_read(&mut self, n: usize, room: usize)
        ensures { self.new ≡ record self.old { readable = self.old.readable && may_have_more n room self.old } }
    {
        if n < room && !self.ending && !self.peer_closed {
            self.readable = false;
        }
    }

    fn read_connection<S: Sockets<Stream = T>>(&self, system: &mut S, into: &mut [u8]) -> StreamRead
        ensures within { (n : ℕ) → result ≡ StreamRead.Bytes n → n ≤ length into.new }
        ensures progress { (n : ℕ) → result ≡ StreamRead.Bytes n → 0 < length into.new → 0 < n }
        ensures pending { is_pending self.now.connection ≡ true → result ≡ StreamRead.Nothing }
        ensures never { is_failed self.now.connection ≡ true → result ≡ StreamRead.Fault }
        ensures told { (number : ℕ) → is_registered_by number self.now.connection ≡ true → Steps (IsRead (is_open self.now.connection) number into.new (got_of result)) (S.journal system.old) (S.journal system.new) }
        ensures without { is_open self.now.connection ≡ false → is_pending self.now.connection ≡ false → result ≡ StreamRead.Fault }
    {
        match &self.connection {
            Connection::Open(stream) => read_stream(system, stream, into),
            Connection::Pending(_) => StreamRead::Nothing,
            Connection::Failed => StreamRead::Fault,
        }
    }

    /// Writes once.
    pub fn write<S: Sockets<Stream = T>>(&mut self, system: &mut S, piece: &[u8]) -> LinkWrite
        ensures within { (n : ℕ) → result ≡ LinkWrite.Bytes n → n ≤ length piece.now }
        ensures progress { (n : ℕ) → result ≡ LinkWrite.Bytes n → 0 < length piece.now → 0 < n }
        ensures failed { result ≡ LinkWrite.Failed → Rose self.old.faults self.new.faults }
        ensures closed { result ≡ LinkWrite.PeerClosed → Rose self.old.faults self.new.faults }
        ensures pending { is_pending self.old.connection ≡ true → result ≡ LinkWrite.NotReady }
        ensures never { is_failed self.old.connection ≡ true → result ≡ LinkWrite.Failed }
        ensures peer { result ≡ LinkWrite.PeerClosed → (self.new.peer_closed ≡ true) × (self.new.readable ≡ (self.old.readable || not self.old.peer_closed)) }
        ensures goes_on { result ≢ LinkWrite.PeerClosed → (self.new.peer_closed ≡ self.old.peer_closed) × (self.new.readable ≡ self.old.readable) }
        ensures room { (n : ℕ) → result ≡ LinkWrite.Bytes n → self.new.writable ≡ self.old.writable }
        ensures given_up { result ≢ LinkWrite.PeerClosed → self.new.given_up ≡ self.old.given_up }
        ensures end { self.new.end_read ≡ self.old.end_read }
        ensures queued { self.new.queued ≡ self.old.queued }
        ensures token { (token : ℕ) → is_registered_by token self.old.connection ≡ true → is_registered_by token self.new.connection ≡ true }
        ensures faults { self.old.faults ≤ self.new.faults }
        ensures wishes { self.new.wishes ≡ self.old.wishes }
        ensures told { (number : ℕ) → is_registered_by number self.old.connection ≡ true → Steps (IsLinkWrite number piece.now result) (S.journal system.old) (S.journal system.new) }
        ensures asked { (number : ℕ) → is_registered_by number self.old.connection ≡ true → is_open self.old.connection ≡ true → Steps IsAsked (S.journal system.old) (S.journal system.new) }
        ensures without { is_open self.old.connection ≡ false → is_pending self.old.connection ≡ false → result ≡ LinkWrite.Failed }
        ensures connection { self.new.connection ≡ self.old.connection }
    {
        match self.write_connection(system, piece) {
            StreamWrite::Bytes(n) => LinkWrite::Bytes(n),
            StreamWrite::Full => self.await_room(system),
            StreamWrite::PeerClosed => {
                self.note_closed();
                LinkWrite::PeerClosed
            }
            StreamWrite::Again => LinkWrite::NotReady,
            StreamWrite::Fault => {
                self.faults = raised(self.faults);
                LinkWrite::Failed
            }
        }
    }

    fn write_connection<S: Sockets<Stream = T>>(&self, system: &mut S, piece: &[u8]) -> StreamWrite
        ensures within { (n : ℕ) → result ≡ StreamWrite.Bytes n → n ≤ length piece.now }
        ensures progress { (n : ℕ) → result ≡ StreamWrite.Bytes n → 0 < length piece.now → 0 < n }
        ensures pending { is_pending self.now.connection ≡ true → result ≡ StreamWrite.Again }
        ensures never { is_failed self.now.connection ≡ true → result ≡ StreamWrite.Fault }
        ensures told { (number : ℕ) → is_registered_by number self.now.connection ≡ true → Steps (IsConnectionWrite number piece.now result) (S.journal system.old) (S.journal system.new) }
        ensures asked { is_open self.now.connection ≡ true → Steps IsAsked (S.journal system.old) (S.journal system.new) }
        ensures without { is_open self.now.connection ≡ false → is_pending self.now.connection ≡ false → result ≡ StreamWrite.Fault }
    {
        match &self.connection {
            Connection::Open(stream) => write_stream(system, stream, piece),
            Connection::Pending(_) => StreamWrite::Again,
            Connection::Failed => StreamWrite::Fault,
        }
    }

    /// Notes that a write was refused since the peer closed. What it wrote before is there to be read, and then the
    /// end, so the first such write has the link read once more. A later one doesn't: a peer that only shut its reading
    /// may never send anything, and what it does next is reported.
    fn note_closed(&mut self)
        ensures rose { Rose self.old.faults self.new.faults }
        ensures faults { self.old.faults ≤ self.new.faults }
        ensures closed { self.new ≡ record self.old { faults = self.new.faults; peer_closed = true; readable = self.old.readable || not self.old.peer_closed; writable = false; given_up = self.old.end_read } }
    {
        self.faults = raised(self.faults);
        self.readable = self.readable || !self.peer_closed;
        self.peer_closed = true;
        self.writable = false;
        self.given_up = self.end_read;
    }

    /// Has the system report when there is room to write.
    fn await_room<S: Sockets<Stream = T>>(&mut self, system: &mut S) -> LinkWrite
        ensures bytes { (n : ℕ) → result ≡ LinkWrite.Bytes n → ⊥ }
        ensures failed { result ≡ LinkWrite.Failed → Rose self.old.faults self.new.faults }
        ensures closed { result ≡ LinkWrite.PeerClosed → ⊥ }
        ensures faults { self.old.faults ≤ self.new.faults }
        ensures rest { self.new ≡ record self.old { faults = self.new.faults; writable = false } }
        ensures told { (number : ℕ) → is_registered_by number self.old.connection ≡ true → Steps (IsRoomAwaited (self.old.writable && is_open self.old.connection) number result) (S.journal system.old) (S.journal system.new) }
    {
        if self.writable {
            self.writable = false;
            if !self.watch(system, true) {
                self.faults = raised(self.faults);
                return LinkWrite::Failed;
            }
        }
        LinkWrite::NotReady
    }

    /// Has the system report when there is something to read, and when there is room to write if that is asked for.
    /// Answers whether it could.
    fn watch<S: Sockets<Stream = T>>(&mut self, system: &mut S, writable: bool) -> bool
        ensures same { self.new ≡ self.old }
        ensures told { (number : ℕ) → is_registered_by number self.old.connection ≡ true → Steps (IsWatched (is_open self.old.connection) number writable result) (S.journal system.old) (S.journal system.new) }
    {
        match &mut self.connection {
            Connection::Open(stream) => system.watch(stream, writable).is_ok(),
            Connection::Pending(_) | Connection::Failed => true,
        }
    }

    /// Notes what the system reports. One that can't be watched on counts a fault.
    pub fn note<S: Sockets<Stream = T>>(
        &mut self,
        system: &mut S,
        readable: bool,
        writable: bool,
        ending: bool,
    )
        ensures noted { is_link_noted readable writable ending (Some self.new) ≡ true }
        ensures kept { (read write end : Bool) → is_link_noted read write end (Some self.old) ≡ true → is_link_noted read write end (Some self.new) ≡ true }
        ensures readable { self.new.readable ≡ (self.old.readable || readable) }
        ensures writable { self.new.writable ≡ (self.old.writable || (writable && not self.old.peer_closed)) }
        ensures ending { self.new.ending ≡ (self.old.ending || ending) }
        ensures rest { self.new ≡ record self.old { faults = self.new.faults; readable = self.new.readable; writable = self.new.writable; ending = self.new.ending } }
        ensures told { (number : ℕ) → is_registered_by number self.old.connection ≡ true → Steps (IsNoted number) (S.journal system.old) (S.journal system.new) }
        ensures faults { self.old.faults ≤ self.new.faults }
    {
        self.readable = self.readable || readable;
        self.ending = self.ending || ending;
        if writable && !self.writable && !self.peer_closed {
            self.writable = true;
            if !self.watch(system, false) {
                self.faults = raised(self.faults);
            }
        }
    }

    /// Closes its stream, if it has one.
    pub fn close<S: Sockets<Stream = T>>(self, system: &mut S)
        ensures { (number : ℕ) → is_registered_by number self.connection ≡ true → Steps (IsShut (is_open self.connection) number) (S.journal system.old) (S.journal system.new) }
    {
        let LinkSocket { connection, .. } = self;
        if let Connection::Open(stream) = connection {
            system.close(stream);
        }
    }

    /// Whether its peer is known to have closed.
    pub fn is_peer_closed(&self) -> bool
        ensures { result ≡ self.now.peer_closed }
    {
        self.peer_closed
    }

    /// Whether nothing more passes between it and its peer.
    pub fn is_closed(&self) -> bool
        ensures { result ≡ is_link_closed self.now }
    {
        self.peer_closed || self.end_read
    }

    /// Whether its writes fail by now: its peer closed, and nothing of it is to be read any more.
    pub fn is_given_up(&self) -> bool
        ensures { result ≡ self.now.given_up }
    {
        self.given_up
    }

    /// Judges whether its writes are to fail, by whether its session's other link is shut or closed.
    pub fn judge(&mut self, is_other_closed: bool)
        ensures given_up { self.new.given_up ≡ is_to_fail is_other_closed self.old }
        ensures rest { self.new ≡ record self.old { given_up = self.new.given_up } }
    {
        let is_done = self.end_read || !self.wishes.read && is_other_closed;
        self.given_up = self.peer_closed && is_done;
    }

    /// Whether it is ready for what is wished.
    pub fn is_nameable(&self) -> bool
        ensures ready { result ≡ is_ready self.now }
        ensures wished { result ≡ true → HasWish (Some self.now.wishes) }
    {
        let can_write = self.writable || self.given_up;
        self.wishes.read && self.readable || self.wishes.write && can_write
    }

    /// Takes a place among what is to be named, if it is ready for what is wished and has none. Answers whether it took
    /// one.
    pub fn take_place(&mut self) -> bool
        ensures took { result ≡ (is_ready self.old && not self.old.queued) }
        ensures placed { is_link_placed (Some self.new) ≡ true }
        ensures given_up { self.new.given_up ≡ self.old.given_up }
        ensures same { self.new ≡ record self.old { queued = self.old.queued || is_ready self.old } }
    {
        if self.queued || !self.is_nameable() {
            return false;
        }
        self.queued = true;
        true
    }

    /// Gives up its place among what is to be named.
    pub fn leave_place(&mut self)
        ensures { self.new ≡ record self.old { queued = false } }
    {
        self.queued = false;
    }
}

impl<T: Drop> LinkSocket<T> {
    ghost use Rattle.std.specs.declared.time.Instant.{Instant};

    /// When the next try to connect is due, if there is one.
    pub fn due(&self) -> Option<Instant>
        ensures { result ≡ due_of self.now.connection }
    {
        match &self.connection {
            Connection::Pending(retry) => Some(retry.due),
            Connection::Open(_) | Connection::Failed => None,
        }
    }

    /// Tries again to connect, if it is time to. If the clock can't be read, it fails.
    pub fn attempt<S: Sockets<Stream = T>>(
        &mut self,
        system: &mut S,
        now: Option<Instant>,
    ) -> Attempt
        ensures token { (token : ℕ) → is_registered_by token self.old.connection ≡ true → is_registered_by token self.new.connection ≡ true }
        ensures noted { (read write end : Bool) → is_link_noted read write end (Some self.old) ≡ true → is_link_noted read write end (Some self.new) ≡ true }
        ensures other { is_pending self.old.connection ≡ false → self.new ≡ self.old }
        ensures early { (time due : Instant) → now ≡ Some time → due_of self.old.connection ≡ Some due → instant_nanos time < instant_nanos due → (result ≡ Attempt.NotDue) × (self.new ≡ self.old) }
        ensures done { result ≡ Attempt.Done → is_pending self.new.connection ≡ false }
        ensures pending { result ≢ Attempt.Done → is_pending self.new.connection ≡ true }
        ensures queued { self.new.queued ≡ self.old.queued }
        ensures closed { self.new.peer_closed ≡ self.old.peer_closed }
        ensures faults { self.old.faults ≤ self.new.faults }
        ensures wishes { self.new.wishes ≡ self.old.wishes }
        ensures paths { (path : List ℕ) → tried_path self.new.connection ≡ Some path → tried_path self.old.connection ≡ Some path }
        ensures late { (time due : Instant) → now ≡ Some time → due_of self.old.connection ≡ Some due → instant_nanos due ≤ instant_nanos time → result ≢ Attempt.NotDue }
        ensures tried { is_overdue (due_of self.new.connection) now ≡ false }
        ensures made { Steps (IsAttempt self.old.connection now self.new.connection) (S.journal system.old) (S.journal system.new) }
        ensures told { Steps (IsRetryIn self.old.connection) (S.journal system.old) (S.journal system.new) }
    {
        match self.connect(system, now) {
            Connected::To(stream) => {
                self.open(stream);
                Attempt::Done
            }
            Connected::NotDue => Attempt::NotDue,
            Connected::WouldBlock => Attempt::WouldBlock,
            Connected::Before => Attempt::Done,
            Connected::Failed => {
                self.fail();
                Attempt::Done
            }
        }
    }

    fn connect<S: Sockets<Stream = T>>(
        &mut self,
        system: &mut S,
        now: Option<Instant>,
    ) -> Connected<T>
        ensures to { (token : ℕ) → is_registered_by token self.old.connection ≡ true → is_connected_by token result ≡ true }
        ensures token { (token : ℕ) → is_registered_by token self.new.connection ≡ is_registered_by token self.old.connection }
        ensures before { result ≡ Connected.Before → is_pending self.old.connection ≡ false }
        ensures other { is_pending self.old.connection ≡ false → (result ≡ Connected.Before) × (self.new ≡ self.old) }
        ensures pending { is_pending self.new.connection ≡ is_pending self.old.connection }
        ensures early { (time due : Instant) → now ≡ Some time → due_of self.old.connection ≡ Some due → instant_nanos time < instant_nanos due → (result ≡ Connected.NotDue) × (self.new ≡ self.old) }
        ensures rest { self.new ≡ record self.old { connection = self.new.connection } }
        ensures path { tried_path self.new.connection ≡ tried_path self.old.connection }
        ensures told { Steps (IsRetryIn self.old.connection) (S.journal system.old) (S.journal system.new) }
        ensures late { (time due : Instant) → now ≡ Some time → due_of self.old.connection ≡ Some due → instant_nanos due ≤ instant_nanos time → result ≢ Connected.NotDue }
        ensures left { (result ≡ Connected.NotDue) ⊎ (result ≡ Connected.WouldBlock) → is_overdue (due_of self.new.connection) now ≡ false }
        ensures retried { Steps (IsRetryAs self.old.connection now result) (S.journal system.old) (S.journal system.new) }
    {
        match &mut self.connection {
            Connection::Pending(retry) => match now {
                Some(now) => retry.connect(system, now),
                None => Connected::Failed,
            },
            Connection::Open(_) | Connection::Failed => Connected::Before,
        }
    }

    /// Goes on with a stream that was connected.
    fn open(&mut self, stream: Numbered<T>)
        ensures { self.new ≡ record self.old { connection = Connection.Open stream; writable = true } }
    {
        self.connection = Connection::Open(stream);
        self.writable = true;
    }

    /// Counts a fault, and has reads and writes fail from now on.
    fn fail(&mut self)
        ensures failed { self.new ≡ record self.old { faults = self.new.faults; connection = Connection.Failed; readable = true; writable = true } }
        ensures rose { Rose self.old.faults self.new.faults }
        ensures faults { self.old.faults ≤ self.new.faults }
    {
        self.faults = raised(self.faults);
        self.connection = Connection::Failed;
        self.readable = true;
        self.writable = true;
    }
}
