//! The listeners of a system in memory, and its files: those that binds make, and those of the script.
ghost use Rattle.std.specs.Prelude.{◌≡◌, [], false, map, find, is_some, None, Some, IfNone, IfSome, OnErr, OnOk};
ghost use Rattle.std.specs.List.{list_any};
ghost use Rattle.memory_sockets.specs.Listeners.{is_bound_at, is_file_at as is_other_at, has_client as has_client_of, awaited, reached, unlinked, removed, served, taken, found_from, found_in, IsBound, IsAdded, IsBindAnswer};

use proxy_net::{FileIdentity, FileKind, FoundFile, Report};
use std::alloc::{AllocError, Global};
use std::io::ErrorKind;

/// A listener, with the path that it was bound to.
#[derive(Drop)]
struct ListenerInMemory {
    number: u64,
    path: String,
    // Whether the file that its bind made is still there.
    has_file: bool,
    is_awaited: bool,
    // How many clients came and weren't taken.
    waiting: u32,
}

/// A file that no bind made.
#[derive(Drop)]
struct FileInMemory {
    path: String,
    kind: FileKind,
    is_there: bool,
}

/// The listeners, in the order of their binds, and the files that no bind made.
#[derive(Drop)]
pub struct Listeners {
    alloc: Global,
    listeners: Vec<ListenerInMemory>,
    files: Vec<FileInMemory>,
}

/// The device of the files that no bind made. Those of binds are on the device 0.
const OTHER_DEVICE: u64 = 1;

impl ListenerInMemory {
    /// Whether its file is at a path.
    fn is_at(&self, path: &str) -> bool
        ensures { result ≡ is_bound_at path.now self.now }
    {
        self.has_file && self.path.as_str() == path
    }

    /// Whether a client waits at it, if it has this number.
    fn has_client(&self, number: u64) -> bool
        ensures { result ≡ has_client_of number self.now }
    {
        self.number == number && 0 < self.waiting
    }

    /// Has its clients reported, if it has this number.
    fn await_clients(&mut self, number: u64)
        ensures { self.new ≡ awaited number self.old }
    {
        self.is_awaited = self.is_awaited || self.number == number;
    }

    /// A client came to it, if its file is at this path.
    fn arrive(&mut self, path: &str)
        ensures { self.new ≡ reached path.now self.old }
    {
        if self.is_at(path) {
            self.waiting = self.waiting.saturating_add(1);
        }
    }

    /// Lets go a client that waits at it.
    fn serve(&mut self)
        ensures { self.new ≡ served self.old }
    {
        self.waiting = self.waiting.saturating_sub(1);
    }

    /// Removes its file, if that is at this path.
    fn unlink(&mut self, path: &str)
        ensures { self.new ≡ unlinked path.now self.old }
    {
        self.has_file = self.has_file && !self.is_at(path);
    }
}

impl FileInMemory {
    /// Whether it is there, at this path.
    fn is_at(&self, path: &str) -> bool
        ensures { result ≡ is_other_at path.now self.now }
    {
        self.is_there && self.path.as_str() == path
    }

    /// Removes it, if it is at this path.
    fn remove(&mut self, path: &str)
        ensures { self.new ≡ removed path.now self.old }
    {
        self.is_there = self.is_there && !self.is_at(path);
    }
}

impl Listeners {
    /// No listener.
    pub fn new(alloc: Global) -> Listeners
        ensures listeners { result.listeners.items ≡ [] }
        ensures files { result.files.items ≡ [] }
    {
        Listeners {
            alloc,
            listeners: Vec::new(alloc),
            files: Vec::new(alloc),
        }
    }

    /// Puts a file that no bind made at a path.
    pub fn add_file(&mut self, path: &str, kind: FileKind) -> Result<(), AllocError>
        ensures ok { OnOk result (IsAdded path.now kind self.old.files.items self.new.files.items) }
        ensures err { OnErr result (self.new.files.items ≡ self.old.files.items) }
        ensures listeners { self.new.listeners ≡ self.old.listeners }
    {
        let path = String::from_str(self.alloc, path)?;
        self.files.push(FileInMemory {
            path,
            kind,
            is_there: true,
        })?;
        Ok(())
    }

    /// The file that is at a path and that no bind made.
    fn other_file(&self, path: &str) -> Option<FoundFile>
        ensures { result ≡ found_from path.now 0 self.now.files.items }
    {
        for place in 0..self.files.len() {
            let file = &self.files[place];
            if file.is_at(path) {
                return Some(FoundFile {
                    identity: FileIdentity::new(OTHER_DEVICE, place as u64),
                    kind: file.kind,
                });
            }
        }
        None
    }

    /// The first listener whose file is at a path.
    fn at(&self, path: &str) -> Option<&ListenerInMemory>
        ensures some { IfSome result (λ listener. find (is_bound_at path.now) self.now.listeners.items ≡ Some listener.now) }
        ensures none { IfNone result (find (is_bound_at path.now) self.now.listeners.items ≡ None) }
    {
        let mut rest = self.listeners.as_slice();
        while let [listener, later @ ..] = rest {
            if listener.is_at(path) {
                return Some(listener);
            }
            rest = later;
        }
        None
    }

    /// Binds a listener to a path, if no file is there.
    pub fn bind(&mut self, path: &str, number: u64) -> Result<(), ErrorKind>
        ensures answer { IsBindAnswer (found_in path.now self.old) result }
        ensures ok { OnOk result (IsBound path.now number self.old.listeners.items self.new.listeners.items) }
        ensures err { OnErr result (self.new.listeners.items ≡ self.old.listeners.items) }
        ensures files { self.new.files ≡ self.old.files }
    {
        if self.identify(path).is_some() {
            return Err(ErrorKind::AddrInUse);
        }
        match self.add(path, number) {
            Ok(()) => Ok(()),
            Err(_) => Err(ErrorKind::OutOfMemory),
        }
    }

    fn add(&mut self, path: &str, number: u64) -> Result<(), AllocError>
        ensures ok { OnOk result (IsBound path.now number self.old.listeners.items self.new.listeners.items) }
        ensures err { OnErr result (self.new.listeners.items ≡ self.old.listeners.items) }
        ensures files { self.new.files ≡ self.old.files }
    {
        let path = String::from_str(self.alloc, path)?;
        self.listeners.push(ListenerInMemory {
            number,
            path,
            has_file: true,
            is_awaited: false,
            waiting: 0,
        })?;
        Ok(())
    }

    /// Has the clients of a listener reported.
    pub fn await_clients(&mut self, number: u64)
        ensures listeners { self.new.listeners.items ≡ map (awaited number) self.old.listeners.items }
        ensures files { self.new.files ≡ self.old.files }
    {
        await_all(self.listeners.as_mut_slice(), number);
    }

    /// What is reported if a client comes to a path.
    pub fn report(&self, path: &str) -> Option<Report>
        ensures { IfSome result (λ report. report.writable ≡ false) }
    {
        match self.at(path) {
            Some(listener) if listener.is_awaited => Some(Report {
                number: listener.number,
                readable: true,
                writable: false,
                ending: false,
                closed: false,
            }),
            _ => None,
        }
    }

    /// What is reported of the listener of a number.
    pub fn report_of(&self, number: u64) -> Option<Report>
        ensures { IfSome result (λ report. report.writable ≡ false) }
    {
        for listener in &self.listeners {
            if listener.number == number && listener.is_awaited {
                return Some(Report {
                    number,
                    readable: true,
                    writable: false,
                    ending: false,
                    closed: false,
                });
            }
        }
        None
    }

    /// A client came to a path.
    pub fn arrive(&mut self, path: &str)
        ensures listeners { self.new.listeners.items ≡ map (reached path.now) self.old.listeners.items }
        ensures files { self.new.files ≡ self.old.files }
    {
        arrive_at(self.listeners.as_mut_slice(), path);
    }

    /// Takes a client that waits at a listener. Answers whether there was one.
    pub fn take_client(&mut self, number: u64) -> bool
        ensures any { result ≡ list_any (has_client_of number) self.old.listeners.items }
        ensures listeners { self.new.listeners.items ≡ taken number self.old.listeners.items }
        ensures files { self.new.files ≡ self.old.files }
    {
        serve_first(self.listeners.as_mut_slice(), number)
    }

    /// The file at a path.
    pub fn identify(&self, path: &str) -> Option<FoundFile>
        ensures { result ≡ found_in path.now self.now }
    {
        match self.at(path) {
            Some(listener) => Some(FoundFile {
                identity: FileIdentity::new(0, listener.number),
                kind: FileKind::Socket,
            }),
            None => self.other_file(path),
        }
    }

    /// Removes the file at a path. Answers whether there was one.
    pub fn remove_file(&mut self, path: &str) -> bool
        ensures found { result ≡ is_some (found_in path.now self.old) }
        ensures listeners { self.new.listeners.items ≡ map (unlinked path.now) self.old.listeners.items }
        ensures files { self.new.files.items ≡ map (removed path.now) self.old.files.items }
    {
        let is_there = self.identify(path).is_some();
        unlink_all(self.listeners.as_mut_slice(), path);
        remove_all(self.files.as_mut_slice(), path);
        is_there
    }
}

/// Has the clients of the listeners of a number reported.
fn await_all(listeners: &mut [ListenerInMemory], number: u64)
    ensures { listeners.new ≡ map (awaited number) listeners.old }
{
    for listener in listeners.iter_mut() {
        listener.await_clients(number);
    }
}

/// A client came to the listeners whose files are at a path.
fn arrive_at(listeners: &mut [ListenerInMemory], path: &str)
    ensures { listeners.new ≡ map (reached path.now) listeners.old }
{
    for listener in listeners.iter_mut() {
        listener.arrive(path);
    }
}

/// Lets go a client of the first listener of a number at which one waits. Answers whether there was one.
fn serve_first(listeners: &mut [ListenerInMemory], number: u64) -> bool
    ensures any { result ≡ list_any (has_client_of number) listeners.old }
    ensures listeners { listeners.new ≡ taken number listeners.old }
{
    for listener in listeners.iter_mut() {
        if listener.has_client(number) {
            listener.serve();
            return true;
        }
    }
    false
}

/// Removes the files of the listeners that are at a path.
fn unlink_all(listeners: &mut [ListenerInMemory], path: &str)
    ensures { listeners.new ≡ map (unlinked path.now) listeners.old }
{
    for listener in listeners.iter_mut() {
        listener.unlink(path);
    }
}

/// Removes the files that are at a path.
fn remove_all(files: &mut [FileInMemory], path: &str)
    ensures { files.new ≡ map (removed path.now) files.old }
{
    for file in files.iter_mut() {
        file.remove(path);
    }
}
