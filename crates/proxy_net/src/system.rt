//! What the system gives: Unix sockets, the files that their binds make, and the starter's pipe.
ghost use Rattle.std.specs.Prelude.{◌≡◌, ◌≤◌, [], IfOk, None, length, map, true, false, vec_capacity};
ghost use Rattle.mio.specs.Events.{items, capacity as events_capacity};
ghost use Rattle.mio.specs.Interest.{is_readable, is_writable, is_priority};
ghost use Rattle.proxy_net.specs.Reports.{report_of};
ghost use Rattle.proxy_net.specs.declared.system.TheConstants.{REPORTS};

use crate::answers::Answer;
use crate::bound_files::{FileIdentity, FileKind, FoundFile};
use crate::reports::Report;
use crate::starters::STARTER;
use mio::event::Event;
use mio::net::{UnixListener, UnixStream};
use mio::unix::SourceFd;
use mio::{Events, Interest, Poll, Token};
use std::fs::{self, File, Metadata, OpenOptions};
use std::io::{self, ErrorKind, Read, Write};
use std::os::fd::AsRawFd;
use std::os::unix::fs::{FileTypeExt, MetadataExt};
use std::time::{Duration, Instant};

/// How many reports a wait gives at most.
pub const REPORTS: usize = 256;

/// A socket, with the number that the system reports it by.
#[derive(Drop)]
pub struct Numbered<T> {
    socket: T,
    number: u64,
}

impl<T> Numbered<T> {
    /// A socket that was made with a number.
    pub fn new(socket: T, number: u64) -> Numbered<T>
        ensures number { result.number ≡ number }
        ensures socket { result.socket ≡ socket }
    {
        Numbered { socket, number }
    }

    /// The number that the socket was made with.
    pub fn number(&self) -> u64
        ensures { result ≡ self.now.number }
    {
        self.number
    }
}

/// A system that gives sockets. Each has the number that it is made with, which the caller chooses.
pub trait Sockets {
    ghost use Rattle.std.specs.Prelude.{◌≤◌, ◌<◌, ◌∷◌, [], ℕ, List, Option, OnErr, length, vec_len, vec_capacity};
    ghost use Rattle.std.specs.IoError.{error_kind};
    ghost use Rattle.std.specs.declared.time.Instant.{Instant};
    ghost use Rattle.proxy_net.specs.Answers.{entry_of};
    ghost use Rattle.proxy_net.specs.Delays.{nanos_of};
    ghost use Rattle.proxy_net.specs.SystemCalls.{SystemCall, bind, await_clients, accept, connect, watch, read, write, close, wait, identify, remove, open_starter, notify_starter, answered, fault_of, IsToldRead, IsToldWrite, Tells};

    /// A socket that listens.
    type Listener: Drop;

    /// A socket that is read and written.
    type Stream: Drop;

    /// The calls that were made, with what they answered, the newest first, if that is known.
    ghost journal: { Self → Option (List SystemCall) };

    /// What its clock showed at some time. Only `now` tells it.
    ghost shows: { Option Instant → Type 0 };

    /// Binds a socket to a path, which makes a file there. It isn't watched yet.
    fn bind(&mut self, path: &str, number: u64) -> io::Result<Numbered<Self::Listener>>
        ensures number { IfOk result (λ listener. listener.number ≡ number) }
        ensures told { Tells (journal self.old) (journal self.new) (bind number path.now (fault_of error_kind result) ∷ []) };

    /// Has it reported when a client comes to a listener.
    fn await_clients(&mut self, listener: &mut Numbered<Self::Listener>) -> io::Result<()>
        ensures same { listener.new ≡ listener.old }
        ensures told { Tells (journal self.old) (journal self.new) (await_clients listener.old.number (fault_of error_kind result) ∷ []) };

    /// Takes a client that waits at a listener, and watches it for reading.
    fn accept(
        &mut self,
        listener: &Numbered<Self::Listener>,
        number: u64,
    ) -> io::Result<Numbered<Self::Stream>>
        ensures number { IfOk result (λ stream. stream.number ≡ number) }
        ensures told { Tells (journal self.old) (journal self.new) (accept listener.now.number number (fault_of error_kind result) ∷ []) };

    /// Connects to a path, and watches the connection for reading.
    fn connect(&mut self, path: &str, number: u64) -> io::Result<Numbered<Self::Stream>>
        ensures number { IfOk result (λ stream. stream.number ≡ number) }
        ensures told { Tells (journal self.old) (journal self.new) (connect number path.now (fault_of error_kind result) ∷ []) };

    /// Watches a stream for reading, and for writing too if that is asked for.
    fn watch(&mut self, stream: &mut Numbered<Self::Stream>, writable: bool) -> io::Result<()>
        ensures same { stream.new ≡ stream.old }
        ensures told { Tells (journal self.old) (journal self.new) (watch stream.old.number writable (fault_of error_kind result) ∷ []) };

    /// Reads into a prefix of a buffer.
    fn read(&mut self, stream: &Numbered<Self::Stream>, into: &mut [u8]) -> io::Result<usize>
        ensures within { IfOk result (λ n. n ≤ length into.new) }
        ensures told { IsToldRead error_kind stream.now.number into.new result (journal self.old) (journal self.new) };

    /// Writes a prefix of a piece.
    fn write(&mut self, stream: &Numbered<Self::Stream>, piece: &[u8]) -> io::Result<usize>
        ensures within { IfOk result (λ n. n ≤ length piece.now) }
        ensures told { IsToldWrite error_kind stream.now.number piece.now result (journal self.old) (journal self.new) };

    /// Closes a stream.
    fn close(&mut self, stream: Numbered<Self::Stream>)
        ensures { Tells (journal self.old) (journal self.new) (close stream.number ∷ []) };

    /// Waits until a socket that is watched is ready, and puts the reports in place of what `reports` holds.
    fn wait(&mut self, reports: &mut Vec<Report>, timeout: Option<Duration>) -> io::Result<()>
        requires { REPORTS ≤ vec_capacity reports.old }
        ensures count { vec_len reports.new ≤ REPORTS }
        ensures capacity { vec_capacity reports.new ≡ vec_capacity reports.old }
        ensures err { OnErr result (reports.new.items ≡ []) }
        ensures told { Tells (journal self.old) (journal self.new) (wait reports.new.items (nanos_of timeout) (fault_of error_kind result) ∷ []) };

    /// The file at a path. A link is found itself, not the file that it names. `None` if there is none, or the system
    /// doesn't say.
    fn identify(&mut self, path: &str) -> Option<FoundFile>
        ensures { Tells (journal self.old) (journal self.new) (identify path.now result ∷ []) };

    /// Removes the file at a path.
    fn remove_file(&mut self, path: &str) -> io::Result<()>
        ensures { Tells (journal self.old) (journal self.new) (remove path.now ∷ []) };

    /// Opens the starter's pipe, which this process has as a descriptor of this number, and watches it for the close of
    /// its reading end. That is reported by the number `STARTER`. What isn't a pipe is refused.
    fn open_starter(&mut self, descriptor: u32) -> io::Result<()>
        ensures { Tells (journal self.old) (journal self.new) (open_starter descriptor (fault_of error_kind result) ∷ []) };

    /// Writes one byte to the starter's pipe.
    fn notify_starter(&mut self) -> io::Result<()>
        ensures { Tells (journal self.old) (journal self.new) (notify_starter (fault_of error_kind result) ∷ []) };

    /// The time, if the clock can be read.
    fn now(&self) -> Option<Instant>
        ensures { shows result };

    /// Notes in the journal what a net over these sockets answered, with its path or its bytes. It does nothing else.
    fn tell(&mut self, answer: Answer, bytes: &[u8])
        ensures { Tells (journal self.old) (journal self.new) (answered (entry_of answer bytes.now) ∷ []) };
}

/// The sockets of the system, over epoll. It tells no journal.
///
/// That each call does what it is asked is trusted: that it binds and connects the path that it is given, reads and
/// writes the socket that it is given, watches it by its own number, looks at and removes the file of the path that it
/// is given, and opens and writes to the pipe that it is given.
#[derive(Drop)]
pub struct SystemSockets<'a> {
    rt: &'a HostRuntime,
    poll: Poll,
    events: Events,
    // The starter's pipe, if it was opened.
    starter: Option<File>,
    ghost room: { events_capacity events ≡ REPORTS },
}

impl<'a> SystemSockets<'a> {
    /// The system that the runtime gives access to, before a socket is made.
    pub fn new(rt: &'a HostRuntime) -> io::Result<SystemSockets<'a>>
        ensures runtime { IfOk result (λ system. system.rt ≡ rt.entry) }
        ensures starter { IfOk result (λ system. system.starter ≡ None) }
        ensures events { IfOk result (λ system. items system.events ≡ []) }
    {
        Ok(SystemSockets {
            rt,
            poll: Poll::new(rt)?,
            events: Events::with_capacity(rt.alloc(), REPORTS)?,
            starter: None,
        })
    }
}

impl<'a> Sockets for SystemSockets<'a> {
    ghost use Rattle.std.specs.Prelude.{◌∷◌, None};
    ghost use Rattle.proxy_net.specs.SystemCalls.{Tells, close};

    type Listener = UnixListener;

    type Stream = UnixStream;

    ghost journal = { λ _. None };

    ghost shows = { λ _. Unit {0} };

    fn bind(&mut self, path: &str, number: u64) -> io::Result<Numbered<UnixListener>> {
        Ok(Numbered::new(UnixListener::bind(self.rt, path)?, number))
    }

    fn await_clients(&mut self, listener: &mut Numbered<UnixListener>) -> io::Result<()> {
        let token = Token(listener.number as usize);
        let registry = self.poll.registry();
        registry.register(&mut listener.socket, token, Interest::READABLE)
    }

    fn accept(
        &mut self,
        listener: &Numbered<UnixListener>,
        number: u64,
    ) -> io::Result<Numbered<UnixStream>> {
        let (mut stream, _) = listener.socket.accept()?;
        let registry = self.poll.registry();
        registry.register(&mut stream, Token(number as usize), Interest::READABLE)?;
        Ok(Numbered::new(stream, number))
    }

    fn connect(&mut self, path: &str, number: u64) -> io::Result<Numbered<UnixStream>> {
        let mut stream = UnixStream::connect(self.rt, path)?;
        let registry = self.poll.registry();
        registry.register(&mut stream, Token(number as usize), Interest::READABLE)?;
        Ok(Numbered::new(stream, number))
    }

    fn watch(&mut self, stream: &mut Numbered<UnixStream>, writable: bool) -> io::Result<()> {
        let token = Token(stream.number as usize);
        let registry = self.poll.registry();
        registry.reregister(&mut stream.socket, token, interest_in(writable))
    }

    fn read(&mut self, stream: &Numbered<UnixStream>, into: &mut [u8]) -> io::Result<usize> {
        let mut socket = &stream.socket;
        socket.read(into)
    }

    fn write(&mut self, stream: &Numbered<UnixStream>, piece: &[u8]) -> io::Result<usize> {
        let mut socket = &stream.socket;
        socket.write(piece)
    }

    fn close(&mut self, stream: Numbered<UnixStream>)
        ensures { Tells None None (close stream.number ∷ []) }
    {
        drop(stream);
    }

    fn wait(&mut self, reports: &mut Vec<Report>, timeout: Option<Duration>) -> io::Result<()> {
        reports.clear();
        self.poll.poll(&mut self.events, timeout)?;
        put_reports(&self.events, reports);
        Ok(())
    }

    fn identify(&mut self, path: &str) -> Option<FoundFile> {
        match fs::symlink_metadata(self.rt, path) {
            Ok(metadata) => Some(FoundFile {
                identity: FileIdentity::new(metadata.dev(), metadata.ino()),
                kind: kind_of(&metadata),
            }),
            Err(_) => None,
        }
    }

    fn remove_file(&mut self, path: &str) -> io::Result<()> {
        fs::remove_file(self.rt, path)
    }

    /// The pipe is opened anew by the name of the descriptor: what is opened so is closed again, and the descriptor
    /// stays as it is.
    ///
    /// An open of a FIFO for writing alone waits until another process opens it for reading. So it is opened for both
    /// before, for a moment: a FIFO that nobody reads is then reported as one whose reading end is closed, and a FIFO
    /// that this process may not read is refused.
    fn open_starter(&mut self, descriptor: u32) -> io::Result<()> {
        let path = format!(in self.rt.alloc(); "/dev/fd/{descriptor}")?;
        let metadata = fs::metadata(self.rt, &path)?;
        if !metadata.file_type().is_fifo() {
            return Err(io::Error::from(ErrorKind::InvalidInput));
        }
        let reader = OpenOptions::new()
            .read(true)
            .write(true)
            .open(self.rt, &path)?;
        let pipe = OpenOptions::new().write(true).open(self.rt, &path)?;
        drop(reader);
        // A writing end is never readable, so nothing is reported of it but that the reading end is closed.
        self.poll.registry().register(
            &mut SourceFd(&pipe.as_raw_fd()),
            Token(STARTER as usize),
            Interest::READABLE,
        )?;
        self.starter = Some(pipe);
        Ok(())
    }

    fn notify_starter(&mut self) -> io::Result<()> {
        match &mut self.starter {
            Some(pipe) => pipe.write_all(b"x"),
            None => Err(io::Error::from(ErrorKind::NotFound)),
        }
    }

    fn now(&self) -> Option<Instant> {
        Instant::now(self.rt).ok()
    }

    fn tell(&mut self, _answer: Answer, _bytes: &[u8]) {}
}

/// What a file is.
fn kind_of(metadata: &Metadata) -> FileKind {
    let file_type = metadata.file_type();
    if file_type.is_socket() {
        FileKind::Socket
    } else if file_type.is_file() && metadata.len() == 0 {
        FileKind::EmptyFile
    } else {
        FileKind::Other
    }
}

/// Reading, and writing too if that is asked for.
fn interest_in(writable: bool) -> Interest
    ensures reads { is_readable result ≡ true }
    ensures writes { is_writable result ≡ writable }
    ensures other { is_priority result ≡ false }
{
    if writable {
        Interest::READABLE | Interest::WRITABLE
    } else {
        Interest::READABLE
    }
}

/// Puts a report of each event, in their order.
fn put_reports(events: &Events, reports: &mut Vec<Report>)
    requires empty { reports.old.items ≡ [] }
    requires room { length (items events.now) ≤ vec_capacity reports.old }
    ensures reports { reports.new.items ≡ map report_of (items events.now) }
    ensures capacity { vec_capacity reports.new ≡ vec_capacity reports.old }
{
    for event in events.iter() {
        reports.push_reserved(reported(event));
    }
}

/// What an event reports.
fn reported(event: &Event) -> Report
    ensures { result ≡ report_of event.now }
{
    Report {
        number: event.token().0 as u64,
        readable: event.is_error() || event.is_readable() || event.is_read_closed(),
        writable: event.is_error() || event.is_writable() || event.is_write_closed(),
        ending: event.is_error() || event.is_read_closed(),
        closed: event.is_error() || event.is_write_closed(),
    }
}
