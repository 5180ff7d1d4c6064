//! The streams of a system in memory.
ghost use Rattle.std.specs.Prelude.{◌≡◌, ◌≢◌, ◌≤◌, ◌++◌, ℕ, [], min, take, drop, length, true, false, IfOk, OnOk, OnErr, IfSome, IsSome};
ghost use Rattle.std.specs.Ordering.{nat_cmp};
ghost use Rattle.std.specs.BTreeMap as tree;

use proxy_net::Report;
use std::alloc::{AllocError, Global};
use std::collections::BTreeMap;
use std::io::ErrorKind;

/// What is kept of the stream of a number, whether its socket is open or not.
#[derive(Drop)]
pub struct StreamInMemory {
    // What the script has for it, in order.
    bytes: Vec<u8>,
    // How much of that came.
    came: usize,
    // How much of what came was read, or was lost when a socket of this number was closed.
    read: usize,
    written: Vec<u8>,
    // How many bytes it gives in one read.
    most_read: usize,
    // How many bytes it takes in one write.
    most: usize,
    // How many bytes it takes from now on, and the error that follows.
    left: usize,
    refusal: ErrorKind,
    is_open: bool,
    awaits_room: bool,
    is_ended: bool,
    is_reset: bool,
    takes_nothing: bool,
    ghost read_came: { read ≤ came },
    ghost came_in_range: { came ≤ length bytes.items },
}

impl StreamInMemory {
    ghost use Rattle.memory_sockets.specs.Streams.{coming_of, written_of, IsKept};

    /// A stream that nothing comes on, without a socket.
    fn new(alloc: Global) -> StreamInMemory
        ensures coming { coming_of result ≡ [] }
        ensures written { written_of result ≡ [] }
    {
        StreamInMemory {
            bytes: Vec::new(alloc),
            came: 0,
            read: 0,
            written: Vec::new(alloc),
            most_read: usize::MAX,
            most: usize::MAX,
            left: usize::MAX,
            refusal: ErrorKind::BrokenPipe,
            is_open: false,
            awaits_room: false,
            is_ended: false,
            is_reset: false,
            takes_nothing: false,
        }
    }

    /// Opens its socket.
    fn open(&mut self)
        ensures { IsKept self.old self.new }
    {
        self.is_open = true;
        self.awaits_room = false;
        self.is_ended = false;
        self.is_reset = false;
        self.takes_nothing = false;
    }

    /// Closes its socket. What came and wasn't read is lost.
    fn close(&mut self)
        ensures { written_of self.new ≡ written_of self.old }
    {
        self.is_open = false;
        self.read = self.came;
    }

    /// Reads a prefix of what came and wasn't read.
    fn read(&mut self, into: &mut [u8]) -> Result<usize, ErrorKind>
        ensures within { IfOk result (λ n. n ≤ length into.new) }
        ensures bytes { IfOk result (λ n. coming_of self.old ≡ take n into.new ++ coming_of self.new) }
        ensures err { OnErr result (coming_of self.new ≡ coming_of self.old) }
        ensures written { written_of self.new ≡ written_of self.old }
    {
        if self.read == self.came {
            return self.read_end();
        }
        let end = self.read.saturating_add(self.most_read.max(1));
        let end = end.min(self.came);
        let n = copy_prefix(&self.bytes[self.read..end], into);
        self.read += n;
        Ok(n)
    }

    /// Has more bytes come at some time.
    fn add(&mut self, bytes: &[u8]) -> Result<(), AllocError>
        ensures coming { OnOk result (coming_of self.new ≡ coming_of self.old ++ bytes.now) }
        ensures err { OnErr result (coming_of self.new ≡ coming_of self.old) }
        ensures written { written_of self.new ≡ written_of self.old }
    {
        self.bytes.extend_from_slice(bytes)
    }

    /// This number of bytes more came.
    fn come(&mut self, count: usize)
        ensures kept { IsKept self.old self.new }
        ensures is_open { self.new.is_open ≡ self.old.is_open }
        ensures room { self.new.awaits_room ≡ self.old.awaits_room }
    {
        self.came = self.came.saturating_add(count).min(self.bytes.len());
    }

    /// Reads if no byte is left.
    fn read_end(&mut self) -> Result<usize, ErrorKind>
        ensures none { IfOk result (λ n. n ≡ 0) }
        ensures kept { IsKept self.old self.new }
    {
        if self.is_reset {
            self.is_reset = false;
            self.is_ended = true;
            return Err(ErrorKind::ConnectionReset);
        }
        if self.is_ended {
            Ok(0)
        } else {
            Err(ErrorKind::WouldBlock)
        }
    }

    /// Takes a prefix of a piece.
    fn write(&mut self, piece: &[u8]) -> Result<usize, ErrorKind>
        ensures within { IfOk result (λ n. n ≤ length piece.now) }
        ensures written { IfOk result (λ n. written_of self.new ≡ written_of self.old ++ take n piece.now) }
        ensures err { OnErr result (written_of self.new ≡ written_of self.old) }
        ensures coming { coming_of self.new ≡ coming_of self.old }
    {
        if self.takes_nothing {
            return Err(ErrorKind::BrokenPipe);
        }
        if self.left == 0 {
            return Err(self.refusal);
        }
        let n = piece.len().min(self.most).min(self.left);
        if n == 0 && !piece.is_empty() {
            return Err(ErrorKind::WouldBlock);
        }
        if self.written.extend_from_slice(&piece[..n]).is_err() {
            return Err(ErrorKind::OutOfMemory);
        }
        self.left -= n;
        Ok(n)
    }
}

/// Copies as much of the first bytes as there is room for. Answers how many it copied.
fn copy_prefix(bytes: &[u8], into: &mut [u8]) -> usize
    ensures count { result ≡ min (length bytes.now) (length into.old) }
    ensures room { length into.new ≡ length into.old }
    ensures bytes { take result into.new ≡ take result bytes.now }
{
    let n = bytes.len().min(into.len());
    into[..n].copy_from_slice(&bytes[..n]);
    n
}

/// The streams, by the numbers of their sockets. One is there from what the script says of it on, and stays when its
/// socket is closed.
#[derive(Drop)]
pub struct Streams {
    alloc: Global,
    rows: BTreeMap<u64, StreamInMemory>,
}

impl Streams {
    ghost use Rattle.memory_sockets.specs.Streams.{coming_in, has_more_in, written_in, KeepsStreams, KeepsOthers};

    /// No stream.
    pub fn new(alloc: Global) -> Streams
        ensures coming { (number : ℕ) → coming_in result number ≡ [] }
        ensures written { (number : ℕ) → written_in result number ≡ [] }
    {
        Streams {
            alloc,
            rows: BTreeMap::new(alloc),
        }
    }

    /// What was written to the streams of a number.
    pub fn written(&self, number: u64) -> &[u8]
        ensures { result.now ≡ written_in self.now number }
    {
        match self.rows.get(&number) {
            Some(row) => &row.written,
            None => &[],
        }
    }

    /// Makes the stream of a number, if it isn't there.
    fn make(&mut self, number: u64) -> Result<(), AllocError>
        ensures made { OnOk result (IsSome (tree.get nat_cmp self.new.rows number)) }
        ensures kept { KeepsStreams self.old self.new }
    {
        if !self.rows.contains_key(&number) {
            self.rows.insert(number, StreamInMemory::new(self.alloc))?;
        }
        Ok(())
    }

    /// Has more bytes come on a stream at some time.
    pub fn add(&mut self, number: u64, bytes: &[u8]) -> Result<(), AllocError>
        ensures own { OnOk result (coming_in self.new number ≡ coming_in self.old number ++ bytes.now) }
        ensures err { OnErr result (KeepsStreams self.old self.new) }
        ensures written { written_in self.new number ≡ written_in self.old number }
        ensures others { KeepsOthers number self.old self.new }
    {
        self.make(number)?;
        match self.rows.get_mut(&number) {
            Some(row) => row.add(bytes),
            None => unreachable!(),
        }
    }

    /// Has a stream give at most this number of bytes a read, and one at least.
    pub fn trickle(&mut self, number: u64, most: usize) -> Result<(), AllocError>
        ensures { KeepsStreams self.old self.new }
    {
        self.make(number)?;
        if let Some(row) = self.rows.get_mut(&number) {
            row.most_read = most;
        }
        Ok(())
    }

    /// Has a stream take at most this number of bytes a write.
    pub fn pace(&mut self, number: u64, most: usize) -> Result<(), AllocError>
        ensures { KeepsStreams self.old self.new }
    {
        self.make(number)?;
        if let Some(row) = self.rows.get_mut(&number) {
            row.most = most;
        }
        Ok(())
    }

    /// Has a stream take this number of bytes in all, and then refuse each write.
    pub fn limit(&mut self, number: u64, left: usize, refusal: ErrorKind) -> Result<(), AllocError>
        ensures { KeepsStreams self.old self.new }
    {
        self.make(number)?;
        if let Some(row) = self.rows.get_mut(&number) {
            row.left = left;
            row.refusal = refusal;
        }
        Ok(())
    }

    /// Opens a socket of a number that no open socket has.
    pub fn open(&mut self, number: u64) -> Result<(), ErrorKind>
        ensures { KeepsStreams self.old self.new }
    {
        if self.make(number).is_err() {
            return Err(ErrorKind::OutOfMemory);
        }
        match self.rows.get_mut(&number) {
            Some(row) if !row.is_open => {
                row.open();
                Ok(())
            }
            _ => Err(ErrorKind::AlreadyExists),
        }
    }

    /// Closes the socket of a number. What came on it and wasn't read is lost.
    pub fn close(&mut self, number: u64)
        ensures written { written_in self.new number ≡ written_in self.old number }
        ensures others { KeepsOthers number self.old self.new }
    {
        if let Some(row) = self.rows.get_mut(&number) {
            row.close();
        }
    }

    /// Reads a prefix of what came on a stream.
    pub fn read(&mut self, number: u64, into: &mut [u8]) -> Result<usize, ErrorKind>
        ensures within { IfOk result (λ n. n ≤ length into.new) }
        ensures bytes { IfOk result (λ n. coming_in self.old number ≡ take n into.new ++ coming_in self.new number) }
        ensures err { OnErr result (KeepsStreams self.old self.new) }
        ensures written { written_in self.new number ≡ written_in self.old number }
        ensures others { KeepsOthers number self.old self.new }
    {
        match self.rows.get_mut(&number) {
            Some(row) => row.read(into),
            None => Err(ErrorKind::NotConnected),
        }
    }

    /// Whether bytes of a stream came and weren't read.
    pub fn has_more(&self, number: u64) -> bool
        ensures { result ≡ has_more_in self.now number }
    {
        match self.rows.get(&number) {
            Some(row) => row.read < row.came,
            None => false,
        }
    }

    /// Writes a prefix of a piece to a stream.
    pub fn write(&mut self, number: u64, piece: &[u8]) -> Result<usize, ErrorKind>
        ensures within { IfOk result (λ n. n ≤ length piece.now) }
        ensures written { IfOk result (λ n. written_in self.new number ≡ written_in self.old number ++ take n piece.now) }
        ensures err { OnErr result (KeepsStreams self.old self.new) }
        ensures coming { coming_in self.new number ≡ coming_in self.old number }
        ensures others { KeepsOthers number self.old self.new }
    {
        match self.rows.get_mut(&number) {
            Some(row) => row.write(piece),
            None => Err(ErrorKind::NotConnected),
        }
    }

    /// Has room to write to a stream reported, or not.
    pub fn watch(&mut self, number: u64, writable: bool) -> Result<(), ErrorKind>
        ensures { KeepsStreams self.old self.new }
    {
        match self.rows.get_mut(&number) {
            Some(row) => {
                row.awaits_room = writable;
                Ok(())
            }
            None => Err(ErrorKind::NotFound),
        }
    }
}

impl Streams {
    ghost use Rattle.memory_sockets.specs.Streams.{KeepsStreams, KeepsWatches, IsWatched};

    /// Bytes came on a stream.
    pub fn come(&mut self, number: u64, count: usize)
        ensures streams { KeepsStreams self.old self.new }
        ensures watches { KeepsWatches self.old self.new }
    {
        if let Some(row) = self.rows.get_mut(&number) {
            row.come(count);
        }
    }

    /// A stream ended: no more bytes come.
    pub fn end(&mut self, number: u64)
        ensures streams { KeepsStreams self.old self.new }
        ensures watches { KeepsWatches self.old self.new }
    {
        if let Some(row) = self.rows.get_mut(&number) {
            row.is_ended = true;
        }
    }

    /// The peer of a stream closed: no more bytes come, and none are taken.
    pub fn hang_up(&mut self, number: u64)
        ensures streams { KeepsStreams self.old self.new }
        ensures watches { KeepsWatches self.old self.new }
    {
        if let Some(row) = self.rows.get_mut(&number) {
            row.is_ended = true;
            row.takes_nothing = true;
        }
    }

    /// The peer of a stream closed with bytes unread: after what came, the stream is reset.
    pub fn reset(&mut self, number: u64)
        ensures streams { KeepsStreams self.old self.new }
        ensures watches { KeepsWatches self.old self.new }
    {
        if let Some(row) = self.rows.get_mut(&number) {
            row.is_reset = true;
            row.takes_nothing = true;
        }
    }

    /// What is reported of a stream, if its socket is open: room only if it is awaited.
    pub fn report(
        &self,
        number: u64,
        readable: bool,
        writable: bool,
        ending: bool,
    ) -> Option<Report>
        ensures { IfSome result (IsWatched self.now) }
    {
        match self.rows.get(&number) {
            Some(row) if row.is_open => {
                let writable = writable && row.awaits_room;
                if readable || writable {
                    Some(Report {
                        number,
                        readable,
                        writable,
                        ending,
                        closed: false,
                    })
                } else {
                    None
                }
            }
            _ => None,
        }
    }
}
