//! A system of sockets in memory, which tells what its calls answered.
ghost use Rattle.std.specs.Prelude.{◌≡◌, ◌≢◌, ◌≤◌, ◌<◌, ◌++◌, ◌∷◌, ◌↔◌, [], ℕ, None, Some, true, take, length, IfOk, IfSome, IsSome, OnOk, OnErr, vec_len, vec_capacity};
ghost use Rattle.std.specs.IoError.{error_kind};
ghost use Rattle.proxy_net.specs.declared.system.TheConstants.{REPORTS};
ghost use Rattle.memory_sockets.specs.Notes.{told_in};
ghost use Rattle.std.specs.List.{All};
ghost use Rattle.memory_sockets.specs.Streams.{IsRoomAwaited, KeepsWatches};
ghost use Rattle.memory_sockets.specs.Calls.{count_of, counted as counted_calls, one_more};
ghost use Rattle.memory_sockets.specs.Scripts.{refusal_in};
ghost use Rattle.memory_sockets.specs.Clocks.{IsReading};
ghost use Rattle.std.specs.Duration.{as_nanos};
ghost use Rattle.memory_sockets.specs.Sockets.{coming, written, KeepsBytes, KeepsOtherBytes};

use crate::clocks::ClockInMemory;
use crate::listeners::Listeners;
use crate::notes::{CallNotes, Note, Noted};
use crate::scripts::{CallKind, SocketScript};
use proxy_net::system::REPORTS;
use proxy_net::{Answer, FileKind, FoundFile, Numbered, Report, Sockets};
use std::alloc::{AllocError, Global};
use std::io::{self, ErrorKind};
use std::time::{Duration, Instant};

/// A socket of a system in memory. All that is kept of it is kept by its number.
#[derive(Clone, Copy)]
pub struct SocketInMemory;

/// How often each call was made.
#[derive(Clone, Copy)]
struct Calls {
    binds: u64,
    awaits: u64,
    accepts: u64,
    connects: u64,
    watches: u64,
    reads: u64,
    writes: u64,
    waits: u64,
    starter_opens: u64,
    starter_notices: u64,
}

/// A system of sockets in memory. Its script says what happens, and its journal has what its calls answered as long as
/// memory for that isn't refused.
///
/// A wait has the next step of the script happen whose socket is there and watched for it. If there is none, the time
/// that it was to wait for goes by; with no such time it fails, since nothing would ever happen. A read gives what came
/// by then.
///
/// A connect reaches a bus at each path. Bytes, ends and room of streams come by the numbers of their sockets: once a
/// socket is closed, what came on it and wasn't read is lost, and what comes later is for the next socket of that
/// number.
pub struct SocketsInMemory {
    notes: CallNotes,
    script: SocketScript,
    listeners: Listeners,
    calls: Calls,
    clock: ClockInMemory,
}

// Its drop is a call, so that a function that drops one is short to prove.
impl Drop for SocketsInMemory {
    fn drop(self) {
        let SocketsInMemory {
            notes: _notes,
            script: _script,
            listeners: _listeners,
            calls: _calls,
            clock: _clock,
        } = self;
    }
}

impl SocketsInMemory {
    /// A system of a script, before anything happened.
    pub fn new(alloc: Global, script: SocketScript) -> SocketsInMemory
        ensures told { told_in result.notes ≡ Some [] }
        ensures script { result.script ≡ script }
    {
        SocketsInMemory {
            notes: CallNotes::new(alloc),
            script,
            listeners: Listeners::new(alloc),
            calls: Calls {
                binds: 0,
                awaits: 0,
                accepts: 0,
                connects: 0,
                watches: 0,
                reads: 0,
                writes: 0,
                waits: 0,
                starter_opens: 0,
                starter_notices: 0,
            },
            clock: ClockInMemory::new(),
        }
    }

    /// What was written to the sockets of a number, in order.
    pub fn written(&self, number: u64) -> &[u8]
        ensures { result.now ≡ written self.now number }
    {
        self.script.streams.written(number)
    }

    /// Puts a file that no bind made at a path.
    pub fn add_file(&mut self, path: &str, kind: FileKind) -> Result<(), AllocError>
        ensures notes { self.new.notes ≡ self.old.notes }
        ensures script { self.new.script ≡ self.old.script }
    {
        self.listeners.add_file(path, kind)
    }

    /// The calls, the oldest first. `None` if memory for one was refused.
    pub fn calls(&self) -> Option<&[Noted]>
        ensures calls { IfSome result (λ calls. calls.now ≡ self.now.notes.calls.items) }
        ensures some { IsSome result ↔ (self.now.notes.tells ≡ true) }
    {
        self.notes.calls()
    }

    /// How much time went by.
    pub fn elapsed(&self) -> Duration
        ensures { result ≡ self.now.clock.time }
    {
        self.clock.elapsed()
    }

    /// Counts a call. Answers why it fails, if the script says so.
    fn refusal(&mut self, call: CallKind) -> Option<ErrorKind>
        ensures refusal { result ≡ refusal_in self.old.script.exceptions.items call (count_of call self.new.calls) }
        ensures counted { self.new.calls ≡ counted_calls call self.old.calls }
        ensures rest { self.new ≡ record self.old { calls = self.new.calls } }
    {
        let place = counted(&mut self.calls, call);
        self.script.refusal(call, place)
    }

    fn bind_at(&mut self, path: &str, number: u64) -> Result<(), ErrorKind>
        ensures notes { self.new.notes ≡ self.old.notes }
        ensures script { self.new.script ≡ self.old.script }
    {
        match self.refusal(CallKind::Bind) {
            Some(kind) => Err(kind),
            None => self.listeners.bind(path, number),
        }
    }

    fn await_clients_of(&mut self, number: u64) -> Result<(), ErrorKind>
        ensures notes { self.new.notes ≡ self.old.notes }
        ensures script { self.new.script ≡ self.old.script }
    {
        match self.refusal(CallKind::AwaitClients) {
            Some(kind) => Err(kind),
            None => {
                self.listeners.await_clients(number);
                Ok(())
            }
        }
    }

    fn accept_at(&mut self, listener: u64, number: u64) -> Result<(), ErrorKind>
        ensures notes { self.new.notes ≡ self.old.notes }
        ensures kept { KeepsBytes self.old self.new }
    {
        if let Some(kind) = self.refusal(CallKind::Accept) {
            if kind == ErrorKind::WouldBlock {
                self.script.report_listener_next(listener);
            }
            return Err(kind);
        }
        if !self.listeners.take_client(listener) {
            return Err(ErrorKind::WouldBlock);
        }
        self.script.streams.open(number)
    }

    fn connect_to(&mut self, number: u64) -> Result<(), ErrorKind>
        ensures notes { self.new.notes ≡ self.old.notes }
        ensures kept { KeepsBytes self.old self.new }
    {
        match self.refusal(CallKind::Connect) {
            Some(kind) => Err(kind),
            None => self.script.streams.open(number),
        }
    }

    fn watch_for(&mut self, number: u64, writable: bool) -> Result<(), ErrorKind>
        ensures notes { self.new.notes ≡ self.old.notes }
        ensures kept { KeepsBytes self.old self.new }
    {
        match self.refusal(CallKind::Watch) {
            Some(kind) => Err(kind),
            None => self.script.streams.watch(number, writable),
        }
    }

    fn read_from(&mut self, number: u64, into: &mut [u8]) -> Result<usize, ErrorKind>
        ensures notes { self.new.notes ≡ self.old.notes }
        ensures within { IfOk result (λ n. n ≤ length into.new) }
        ensures bytes { IfOk result (λ n. coming self.old number ≡ take n into.new ++ coming self.new number) }
        ensures err { OnErr result (KeepsBytes self.old self.new) }
        ensures written { written self.new number ≡ written self.old number }
        ensures others { KeepsOtherBytes number self.old self.new }
    {
        match self.refusal(CallKind::Read) {
            Some(kind) => {
                if kind == ErrorKind::WouldBlock {
                    self.script.report_next(number);
                }
                Err(kind)
            }
            None => self.read_part(number, into),
        }
    }

    /// Reads what a stream gives at once. If that leaves room in the buffer and bytes that came, the next wait reports
    /// the stream again.
    fn read_part(&mut self, number: u64, into: &mut [u8]) -> Result<usize, ErrorKind>
        ensures notes { self.new.notes ≡ self.old.notes }
        ensures within { IfOk result (λ n. n ≤ length into.new) }
        ensures bytes { IfOk result (λ n. coming self.old number ≡ take n into.new ++ coming self.new number) }
        ensures err { OnErr result (KeepsBytes self.old self.new) }
        ensures written { written self.new number ≡ written self.old number }
        ensures others { KeepsOtherBytes number self.old self.new }
    {
        let n = self.script.streams.read(number, into)?;
        if n < into.len() && self.script.streams.has_more(number) {
            self.script.report_next(number);
        }
        Ok(n)
    }

    fn write_to(&mut self, number: u64, piece: &[u8]) -> Result<usize, ErrorKind>
        ensures notes { self.new.notes ≡ self.old.notes }
        ensures within { IfOk result (λ n. n ≤ length piece.now) }
        ensures written { IfOk result (λ n. written self.new number ≡ written self.old number ++ take n piece.now) }
        ensures err { OnErr result (KeepsBytes self.old self.new) }
        ensures coming { coming self.new number ≡ coming self.old number }
        ensures others { KeepsOtherBytes number self.old self.new }
    {
        match self.refusal(CallKind::Write) {
            Some(kind) => {
                if kind == ErrorKind::WouldBlock {
                    self.script.report_room_last(number);
                }
                Err(kind)
            }
            None => self.script.streams.write(number, piece),
        }
    }

    /// Has the next steps happen, or lets the time go by.
    fn await_reports(
        &mut self,
        reports: &mut Vec<Report>,
        timeout: Option<Duration>,
    ) -> Result<(), ErrorKind>
        requires empty { reports.old.items ≡ [] }
        requires room { REPORTS ≤ vec_capacity reports.old }
        ensures notes { self.new.notes ≡ self.old.notes }
        ensures kept { KeepsBytes self.old self.new }
        ensures count { vec_len reports.new ≤ REPORTS }
        ensures capacity { vec_capacity reports.new ≡ vec_capacity reports.old }
        ensures awaited { All (IsRoomAwaited self.old.script.streams) reports.new.items }
        ensures err { OnErr result (reports.new.items ≡ []) }
    {
        if let Some(kind) = self.refusal(CallKind::Wait) {
            return Err(kind);
        }
        self.put_reports(reports);
        if !reports.is_empty() {
            return Ok(());
        }
        match timeout {
            Some(duration) => {
                self.clock.pass(duration);
                Ok(())
            }
            None => Err(ErrorKind::TimedOut),
        }
    }

    /// Has the next step happen that can, and those that are joined to it. Puts a report of each.
    #[tactic(auto, using(crate::proofs::Awaiting::awaited_last))]
    fn put_reports(&mut self, reports: &mut Vec<Report>)
        requires empty { reports.old.items ≡ [] }
        requires room { REPORTS ≤ vec_capacity reports.old }
        ensures notes { self.new.notes ≡ self.old.notes }
        ensures kept { KeepsBytes self.old self.new }
        ensures count { vec_len reports.new ≤ REPORTS }
        ensures capacity { vec_capacity reports.new ≡ vec_capacity reports.old }
        ensures awaited { All (IsRoomAwaited self.old.script.streams) reports.new.items }
    {
        for place in 0..self.script.steps() {
            if reports.len() >= REPORTS || !reports.is_empty() && !self.script.is_joined(place) {
                return;
            }
            if let Some(report) = self.happen(place) {
                reports.push_reserved(report);
            }
        }
    }

    /// Has the step at a place happen, if it can. Answers what is reported then.
    fn happen(&mut self, place: usize) -> Option<Report>
        ensures notes { self.new.notes ≡ self.old.notes }
        ensures kept { KeepsBytes self.old self.new }
        ensures awaited { IfSome result (IsRoomAwaited self.old.script.streams) }
        ensures watches { KeepsWatches self.old.script.streams self.new.script.streams }
    {
        let report = self.script.report_at(place, &self.listeners)?;
        self.script.happen_at(place, &mut self.listeners);
        Some(report)
    }
}

impl Sockets for SocketsInMemory {
    ghost use Rattle.std.specs.Prelude.{◌≤◌, ◌<◌, ◌∷◌, [], ℕ, List, Option, IfOk, OnErr, length, vec_len, vec_capacity};
    ghost use Rattle.std.specs.IoError.{error_kind};
    ghost use Rattle.proxy_net.specs.Answers.{entry_of};
    ghost use Rattle.proxy_net.specs.Delays.{nanos_of};
    ghost use Rattle.proxy_net.specs.SystemCalls.{SystemCall, bind, await_clients, accept, connect, watch, read, write, close, wait, identify, remove, open_starter, notify_starter, answered, fault_of, IsToldRead, IsToldWrite, Tells};

    type Listener = SocketInMemory;

    type Stream = SocketInMemory;

    ghost journal = { λ system. told_in system.notes };

    ghost shows = { λ _. Unit {0} };

    /// It is refused if a file is at the path.
    fn bind(&mut self, path: &str, number: u64) -> io::Result<Numbered<SocketInMemory>>
        ensures kept { KeepsBytes self.old self.new }

        // What the trait says.
        ensures number { IfOk result (λ listener. listener.number ≡ number) }
        ensures told { Tells (told_in self.old.notes) (told_in self.new.notes) (bind number path.now (fault_of error_kind result) ∷ []) }
    {
        match self.bind_at(path, number) {
            Ok(()) => {
                self.notes
                    .note(Note::Bind(number, None), path.as_bytes(), &[]);
                Ok(Numbered::new(SocketInMemory, number))
            }
            Err(kind) => {
                self.notes
                    .note(Note::Bind(number, Some(kind)), path.as_bytes(), &[]);
                Err(io::Error::from(kind))
            }
        }
    }

    fn await_clients(&mut self, listener: &mut Numbered<SocketInMemory>) -> io::Result<()>
        ensures kept { KeepsBytes self.old self.new }

        // What the trait says.
        ensures same { listener.new ≡ listener.old }
        ensures told { Tells (told_in self.old.notes) (told_in self.new.notes) (await_clients listener.old.number (fault_of error_kind result) ∷ []) }
    {
        let number = listener.number();
        match self.await_clients_of(number) {
            Ok(()) => {
                self.notes.note(Note::AwaitClients(number, None), &[], &[]);
                Ok(())
            }
            Err(kind) => {
                self.notes
                    .note(Note::AwaitClients(number, Some(kind)), &[], &[]);
                Err(io::Error::from(kind))
            }
        }
    }

    /// It would wait if no client waits at the listener's path.
    fn accept(
        &mut self,
        listener: &Numbered<SocketInMemory>,
        number: u64,
    ) -> io::Result<Numbered<SocketInMemory>>
        ensures kept { KeepsBytes self.old self.new }

        // What the trait says.
        ensures number { IfOk result (λ stream. stream.number ≡ number) }
        ensures told { Tells (told_in self.old.notes) (told_in self.new.notes) (accept listener.now.number number (fault_of error_kind result) ∷ []) }
    {
        let at = listener.number();
        match self.accept_at(at, number) {
            Ok(()) => {
                self.notes.note(Note::Accept(at, number, None), &[], &[]);
                Ok(Numbered::new(SocketInMemory, number))
            }
            Err(kind) => {
                self.notes
                    .note(Note::Accept(at, number, Some(kind)), &[], &[]);
                Err(io::Error::from(kind))
            }
        }
    }

    fn connect(&mut self, path: &str, number: u64) -> io::Result<Numbered<SocketInMemory>>
        ensures kept { KeepsBytes self.old self.new }

        // What the trait says.
        ensures number { IfOk result (λ stream. stream.number ≡ number) }
        ensures told { Tells (told_in self.old.notes) (told_in self.new.notes) (connect number path.now (fault_of error_kind result) ∷ []) }
    {
        match self.connect_to(number) {
            Ok(()) => {
                self.notes
                    .note(Note::Connect(number, None), path.as_bytes(), &[]);
                Ok(Numbered::new(SocketInMemory, number))
            }
            Err(kind) => {
                self.notes
                    .note(Note::Connect(number, Some(kind)), path.as_bytes(), &[]);
                Err(io::Error::from(kind))
            }
        }
    }

    fn watch(&mut self, stream: &mut Numbered<SocketInMemory>, writable: bool) -> io::Result<()>
        ensures kept { KeepsBytes self.old self.new }

        // What the trait says.
        ensures same { stream.new ≡ stream.old }
        ensures told { Tells (told_in self.old.notes) (told_in self.new.notes) (watch stream.old.number writable (fault_of error_kind result) ∷ []) }
    {
        let number = stream.number();
        match self.watch_for(number, writable) {
            Ok(()) => {
                self.notes
                    .note(Note::Watch(number, writable, None), &[], &[]);
                Ok(())
            }
            Err(kind) => {
                self.notes
                    .note(Note::Watch(number, writable, Some(kind)), &[], &[]);
                Err(io::Error::from(kind))
            }
        }
    }

    fn read(&mut self, stream: &Numbered<SocketInMemory>, into: &mut [u8]) -> io::Result<usize>
        // It gives the next bytes of the socket's number, and of no other number.
        ensures bytes { IfOk result (λ n. coming self.old stream.now.number ≡ take n into.new ++ coming self.new stream.now.number) }
        ensures err { OnErr result (KeepsBytes self.old self.new) }
        ensures unwritten { written self.new stream.now.number ≡ written self.old stream.now.number }
        ensures others { KeepsOtherBytes stream.now.number self.old self.new }

        // What the trait says.
        ensures within { IfOk result (λ n. n ≤ length into.new) }
        ensures told { IsToldRead error_kind stream.now.number into.new result (told_in self.old.notes) (told_in self.new.notes) }
    {
        let number = stream.number();
        match self.read_from(number, into) {
            Ok(n) => {
                self.notes.note(Note::Read(number, None), &into[..n], &[]);
                Ok(n)
            }
            Err(kind) => {
                self.notes.note(Note::Read(number, Some(kind)), &[], &[]);
                Err(io::Error::from(kind))
            }
        }
    }

    fn write(&mut self, stream: &Numbered<SocketInMemory>, piece: &[u8]) -> io::Result<usize>
        // What it takes is kept after what the socket's number took before, and nothing else.
        ensures written { IfOk result (λ n. written self.new stream.now.number ≡ written self.old stream.now.number ++ take n piece.now) }
        ensures err { OnErr result (KeepsBytes self.old self.new) }
        ensures unread { coming self.new stream.now.number ≡ coming self.old stream.now.number }
        ensures others { KeepsOtherBytes stream.now.number self.old self.new }

        // What the trait says.
        ensures within { IfOk result (λ n. n ≤ length piece.now) }
        ensures told { IsToldWrite error_kind stream.now.number piece.now result (told_in self.old.notes) (told_in self.new.notes) }
    {
        let number = stream.number();
        match self.write_to(number, piece) {
            Ok(n) => {
                self.notes.note(Note::Write(number, None), &piece[..n], &[]);
                Ok(n)
            }
            Err(kind) => {
                self.notes.note(Note::Write(number, Some(kind)), &[], &[]);
                Err(io::Error::from(kind))
            }
        }
    }

    fn close(&mut self, stream: Numbered<SocketInMemory>)
        // What was written to it is still there.
        ensures written { written self.new stream.number ≡ written self.old stream.number }
        ensures others { KeepsOtherBytes stream.number self.old self.new }

        // What the trait says.
        ensures told { Tells (told_in self.old.notes) (told_in self.new.notes) (close stream.number ∷ []) }
    {
        let number = stream.number();
        self.script.streams.close(number);
        self.notes.note(Note::Close(number), &[], &[]);
    }

    fn wait(&mut self, reports: &mut Vec<Report>, timeout: Option<Duration>) -> io::Result<()>
        requires { REPORTS ≤ vec_capacity reports.old }
        ensures kept { KeepsBytes self.old self.new }

        // Room to write is reported only of an open socket for which it is awaited.
        ensures awaited { All (IsRoomAwaited self.old.script.streams) reports.new.items }

        // What the trait says.
        ensures count { vec_len reports.new ≤ REPORTS }
        ensures capacity { vec_capacity reports.new ≡ vec_capacity reports.old }
        ensures err { OnErr result (reports.new.items ≡ []) }
        ensures told { Tells (told_in self.old.notes) (told_in self.new.notes) (wait reports.new.items (nanos_of timeout) (fault_of error_kind result) ∷ []) }
    {
        reports.clear();
        match self.await_reports(reports, timeout) {
            Ok(()) => {
                self.notes.note(Note::Wait(timeout, None), &[], reports);
                Ok(())
            }
            Err(kind) => {
                self.notes.note(Note::Wait(timeout, Some(kind)), &[], &[]);
                Err(io::Error::from(kind))
            }
        }
    }

    fn identify(&mut self, path: &str) -> Option<FoundFile>
        ensures kept { KeepsBytes self.old self.new }

        // What the trait says.
        ensures told { Tells (told_in self.old.notes) (told_in self.new.notes) (identify path.now result ∷ []) }
    {
        let found = self.listeners.identify(path);
        self.notes.note(Note::Identify(found), path.as_bytes(), &[]);
        found
    }

    fn remove_file(&mut self, path: &str) -> io::Result<()>
        ensures kept { KeepsBytes self.old self.new }

        // What the trait says.
        ensures told { Tells (told_in self.old.notes) (told_in self.new.notes) (remove path.now ∷ []) }
    {
        self.notes.note(Note::Remove, path.as_bytes(), &[]);
        if self.listeners.remove_file(path) {
            Ok(())
        } else {
            Err(io::Error::from(ErrorKind::NotFound))
        }
    }

    fn open_starter(&mut self, descriptor: u32) -> io::Result<()>
        ensures kept { KeepsBytes self.old self.new }

        // What the trait says.
        ensures told { Tells (told_in self.old.notes) (told_in self.new.notes) (open_starter descriptor (fault_of error_kind result) ∷ []) }
    {
        match self.refusal(CallKind::OpenStarter) {
            Some(kind) => {
                self.notes
                    .note(Note::OpenStarter(descriptor, Some(kind)), &[], &[]);
                Err(io::Error::from(kind))
            }
            None => {
                self.script.open_starter();
                self.notes
                    .note(Note::OpenStarter(descriptor, None), &[], &[]);
                Ok(())
            }
        }
    }

    fn notify_starter(&mut self) -> io::Result<()>
        ensures kept { KeepsBytes self.old self.new }

        // What the trait says.
        ensures told { Tells (told_in self.old.notes) (told_in self.new.notes) (notify_starter (fault_of error_kind result) ∷ []) }
    {
        match self.refusal(CallKind::NotifyStarter) {
            Some(kind) => {
                self.notes.note(Note::NotifyStarter(Some(kind)), &[], &[]);
                Err(io::Error::from(kind))
            }
            None => {
                self.notes.note(Note::NotifyStarter(None), &[], &[]);
                Ok(())
            }
        }
    }

    fn now(&self) -> Option<Instant>
        ensures { IsReading self.now.clock.start (as_nanos self.now.clock.time) result }
    {
        self.clock.read()
    }

    fn tell(&mut self, answer: Answer, bytes: &[u8])
        ensures kept { KeepsBytes self.old self.new }

        // What the trait says.
        ensures told { Tells (told_in self.old.notes) (told_in self.new.notes) (answered (entry_of answer bytes.now) ∷ []) }
    {
        self.notes.note(Note::Answered(answer), bytes, &[]);
    }
}

/// Counts a call of a kind. Answers its place among the calls of that kind, from 1.
fn counted(calls: &mut Calls, call: CallKind) -> u64
    ensures place { result ≡ count_of call calls.new }
    ensures calls { calls.new ≡ counted_calls call calls.old }
{
    match call {
        CallKind::Bind => raised(&mut calls.binds),
        CallKind::AwaitClients => raised(&mut calls.awaits),
        CallKind::Accept => raised(&mut calls.accepts),
        CallKind::Connect => raised(&mut calls.connects),
        CallKind::Watch => raised(&mut calls.watches),
        CallKind::Read => raised(&mut calls.reads),
        CallKind::Write => raised(&mut calls.writes),
        CallKind::Wait => raised(&mut calls.waits),
        CallKind::OpenStarter => raised(&mut calls.starter_opens),
        CallKind::NotifyStarter => raised(&mut calls.starter_notices),
    }
}

/// Raises a count, unless it is at its greatest number. Answers the count.
fn raised(count: &mut u64) -> u64
    ensures value { result ≡ count.new }
    ensures raised { count.new ≡ one_more count.old }
{
    *count = count.saturating_add(1);
    *count
}
