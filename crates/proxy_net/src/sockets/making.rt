//! How listeners and links are made.
ghost use Rattle.std.specs.Prelude.{◌≡◌, ◌≢◌, ◌≤◌, ◌<◌, ◌+◌, ◌++◌, ◌∷◌, ◌⊎◌, ◌^◌, ℕ, List, [], Err, None, Some, true, false, IsErrOf, IsSome, IfSome, IfOk, OnErr, OnOk, vec_len};
ghost use Rattle.std.specs.VecDeque.{deque_len, deque_capacity};
ghost use Rattle.std.specs.Option.{option_map};
ghost use Rattle.std.specs.String.{string_bytes};
ghost use Rattle.proxy_net.specs.Delays.{next_delay};
ghost use Rattle.proxy_net.specs.Steps.{Steps, IsMade, IsUnmade, IsConnect, IsFileKept, IsListen, IsBind, IsAwait, IsCleanUp, IsMadeRemoval, IsArrivalAt, IsAccept};
ghost use Rattle.link_traits.specs.Answers.{no_wishes, client_link, bus_link};
ghost use Rattle.link_traits.specs.Numbers.{number_of as link_number};

use super::{LISTENERS, SocketSet};
use crate::bound_files::{BoundFile, FoundFile, clear, remove_made};
use crate::link_sockets::{Connection, Retry, is_put_off, raised};
use crate::listeners::{Arrival, ListenerSocket};
use crate::system::{Numbered, Sockets};
use link_traits::tables::number_of;
use link_traits::{Accepted, Count, Link, NetFault, Side};
use std::alloc::{AllocError, Global};

impl<T: Drop, L: Drop> SocketSet<T, L> {
    ghost use Rattle.proxy_net.specs.Sockets.{file_at, HasRoomFor, RoseIn, Grows, GoesOn, KeepsWishesIn, StaysUnread, path_at};

    /// Listens at a path. An empty one is refused, since the system would take a name of its own for it. A socket or an
    /// empty regular file that is there is removed first, if it `replaces`.
    pub fn listen<S: Sockets<Stream = T, Listener = L>>(
        &mut self,
        alloc: Global,
        system: &mut S,
        path: &str,
        replaces: bool,
    ) -> Result<u32, NetFault>
        ensures numbered { IfOk result (λ listener. listener ≡ vec_len self.old.listeners) }
        ensures made { OnOk result (vec_len self.new.listeners ≡ vec_len self.old.listeners + 1) }
        ensures path { OnOk result (path.now ≢ []) }
        ensures err { OnErr result (vec_len self.new.listeners ≡ vec_len self.old.listeners) }
        ensures file { (own : List ℕ) → path_at self.new (vec_len self.old.listeners) ≡ Some own → own ≡ path.now }
        ensures kept { OnOk result (Steps (IsFileKept (LISTENERS + vec_len self.old.listeners) path.now replaces (file_at self.new (vec_len self.old.listeners))) (S.journal system.old) (S.journal system.new)) }
        ensures failed { IsErrOf result NetFault.Failed → RoseIn Count.Own self.old self.new }
        ensures told { Steps (IsListen (LISTENERS + vec_len self.old.listeners) path.now replaces result) (S.journal system.old) (S.journal system.new) }
        ensures unread { StaysUnread self.old self.new }
        ensures sessions { self.new.sessions ≡ self.old.sessions }
        ensures wishes { KeepsWishesIn self.old self.new }
        ensures grows { Grows self.old self.new }
    {
        match self.make_listener(alloc, system, path, replaces) {
            Err(NetFault::Failed) => {
                self.own = raised(self.own);
                Err(NetFault::Failed)
            }
            answer => answer,
        }
    }

    /// Makes the next listener, and counts nothing.
    fn make_listener<S: Sockets<Stream = T, Listener = L>>(
        &mut self,
        alloc: Global,
        system: &mut S,
        path: &str,
        replaces: bool,
    ) -> Result<u32, NetFault>
        ensures numbered { IfOk result (λ listener. listener ≡ vec_len self.old.listeners) }
        ensures made { OnOk result (vec_len self.new.listeners ≡ vec_len self.old.listeners + 1) }
        ensures path { OnOk result (path.now ≢ []) }
        ensures err { OnErr result (vec_len self.new.listeners ≡ vec_len self.old.listeners) }
        ensures file { (own : List ℕ) → path_at self.new (vec_len self.old.listeners) ≡ Some own → own ≡ path.now }
        ensures kept { OnOk result (Steps (IsFileKept (LISTENERS + vec_len self.old.listeners) path.now replaces (file_at self.new (vec_len self.old.listeners))) (S.journal system.old) (S.journal system.new)) }
        ensures told { Steps (IsListen (LISTENERS + vec_len self.old.listeners) path.now replaces result) (S.journal system.old) (S.journal system.new) }
        ensures unread { StaysUnread self.old self.new }
        ensures sessions { self.new.sessions ≡ self.old.sessions }
        ensures wishes { KeepsWishesIn self.old self.new }
        ensures grows { Grows self.old self.new }
    {
        let Ok(listener) = u32::try_from(self.listeners.len()) else {
            return Err(NetFault::Failed);
        };
        let Ok(own_path) = String::from_str(alloc, path) else {
            return Err(NetFault::Memory);
        };
        if self.reserve_listener().is_err() {
            return Err(NetFault::Memory);
        }
        let Some(socket) = bound(system, path, LISTENERS + u64::from(listener), replaces) else {
            return Err(NetFault::Failed);
        };
        let found = system.identify(path);
        let file = bound_file(own_path, found);
        let answer = self.add_listener(system, listener, socket, file);
        cleaned_up(system, path, found, answer)
    }

    /// Takes the room for one more listener.
    fn reserve_listener(&mut self) -> Result<(), AllocError>
        ensures room { OnOk result (HasRoomFor 1 self.new) }
        ensures number { vec_len self.new.listeners ≡ vec_len self.old.listeners }
        ensures unread { StaysUnread self.old self.new }
        ensures goes { GoesOn self.old self.new }
    {
        self.listeners.reserve(1)?;
        self.reserve()
    }

    fn add_listener<S: Sockets<Stream = T, Listener = L>>(
        &mut self,
        system: &mut S,
        listener: u32,
        socket: Numbered<L>,
        file: Option<BoundFile>,
    ) -> Result<u32, NetFault>
        requires room { HasRoomFor 1 self.old }
        requires next { listener ≡ vec_len self.old.listeners }
        requires own { socket.number ≡ LISTENERS + listener }
        ensures numbered { IfOk result (λ number. number ≡ listener) }
        ensures made { OnOk result (vec_len self.new.listeners ≡ vec_len self.old.listeners + 1) }
        ensures err { OnErr result (vec_len self.new.listeners ≡ vec_len self.old.listeners) }
        ensures file { OnOk result (path_at self.new listener ≡ option_map (λ (f : BoundFile). string_bytes f.path) file) }
        ensures kept { OnOk result (file_at self.new listener ≡ file) }
        ensures told { Steps (IsAwait (LISTENERS + listener) result) (S.journal system.old) (S.journal system.new) }
        ensures unread { StaysUnread self.old self.new }
        ensures sessions { self.new.sessions ≡ self.old.sessions }
        ensures wishes { KeepsWishesIn self.old self.new }
        ensures grows { Grows self.old self.new }
    {
        let mut socket = socket;
        match system.await_clients(&mut socket) {
            Ok(()) => self.keep_listener(listener, socket, file),
            Err(_) => Err(NetFault::Failed),
        }
    }

    /// Keeps a socket whose clients are awaited, as the next listener.
    fn keep_listener(
        &mut self,
        listener: u32,
        socket: Numbered<L>,
        file: Option<BoundFile>,
    ) -> Result<u32, NetFault>
        requires room { HasRoomFor 1 self.old }
        requires next { listener ≡ vec_len self.old.listeners }
        requires own { socket.number ≡ LISTENERS + listener }
        ensures numbered { IfOk result (λ number. number ≡ listener) }
        ensures made { OnOk result (vec_len self.new.listeners ≡ vec_len self.old.listeners + 1) }
        ensures err { OnErr result (vec_len self.new.listeners ≡ vec_len self.old.listeners) }
        ensures fault { result ≢ Err NetFault.Failed }
        ensures file { OnOk result (path_at self.new listener ≡ option_map (λ (f : BoundFile). string_bytes f.path) file) }
        ensures kept { OnOk result (file_at self.new listener ≡ file) }
        ensures unread { StaysUnread self.old self.new }
        ensures sessions { self.new.sessions ≡ self.old.sessions }
        ensures wishes { KeepsWishesIn self.old self.new }
        ensures grows { Grows self.old self.new }
    {
        match self
            .listeners
            .push(ListenerSocket::new(self.absent, socket, file))
        {
            Ok(()) => Ok(listener),
            Err(_) => Err(NetFault::Memory),
        }
    }
}

/// Binds a socket to a path. `None` if it is empty, and if the system refuses it, as it does if a file is there.
fn bound<S: Sockets>(
    system: &mut S,
    path: &str,
    number: u64,
    replaces: bool,
) -> Option<Numbered<S::Listener>>
    ensures path { IsSome result → path.now ≢ [] }
    ensures number { IfSome result (λ listener. listener.number ≡ number) }
    ensures told { Steps (IsBind number path.now replaces result) (S.journal system.old) (S.journal system.new) }
{
    if path.is_empty() {
        return None;
    }
    clear(system, path, replaces);
    match system.bind(path, number) {
        Ok(listener) => Some(listener),
        Err(_) => None,
    }
}

/// The file that a bind made at a path, if the system says which it is.
fn bound_file(path: String, found: Option<FoundFile>) -> Option<BoundFile>
    ensures is { result ≡ option_map (λ (file : FoundFile). record { path = path; identity = file.identity }) found }
    ensures path { (own : BoundFile) → result ≡ Some own → own.path ≡ path }
{
    match found {
        Some(file) => Some(BoundFile::new(path, file.identity)),
        None => None,
    }
}

/// Removes the file that a bind made, if the socket can't listen.
fn cleaned_up<S: Sockets>(
    system: &mut S,
    path: &str,
    made: Option<FoundFile>,
    answer: Result<u32, NetFault>,
) -> Result<u32, NetFault>
    ensures answer { result ≡ answer }
    ensures told { Steps (IsCleanUp path.now made answer) (S.journal system.old) (S.journal system.new) }
{
    match answer {
        Ok(listener) => Ok(listener),
        Err(fault) => {
            remove_bound(system, path, made);
            Err(fault)
        }
    }
}

/// Removes the file that a bind made at a path, if the system said which it is.
fn remove_bound<S: Sockets>(system: &mut S, path: &str, made: Option<FoundFile>)
    ensures { Steps (IsMadeRemoval path.now made) (S.journal system.old) (S.journal system.new) }
{
    if let Some(file) = made {
        remove_made(system, path, file.identity);
    }
}

impl<T: Drop, L: Drop> SocketSet<T, L> {
    ghost use Rattle.proxy_net.specs.Sockets.{GoesOn, has_file_at, file_at, files_of};
    ghost use Rattle.proxy_net.specs.Steps.{IsFileRemoval, AreRemovals};

    /// Looks at what is at the path of each file that the bind of a listener made, and removes it if it is that file.
    pub fn remove_files<S: Sockets<Stream = T, Listener = L>>(&mut self, system: &mut S)
        ensures removed { (place : ℕ) → has_file_at self.new place ≡ false }
        ensures told { Steps (AreRemovals (files_of self.old)) (S.journal system.old) (S.journal system.new) }
        ensures number { vec_len self.new.listeners ≡ vec_len self.old.listeners }
        ensures goes { GoesOn self.old self.new }
    {
        for place in 0..self.listeners.len() {
            self.remove_file(system, place);
        }
    }

    fn remove_file<S: Sockets<Stream = T, Listener = L>>(&mut self, system: &mut S, place: usize)
        requires { place < 2 ^ 63 }
        ensures removed { has_file_at self.new place ≡ false }
        ensures others { (other : ℕ) → has_file_at self.old other ≡ false → has_file_at self.new other ≡ false }
        ensures told { Steps (IsFileRemoval (file_at self.old place)) (S.journal system.old) (S.journal system.new) }
        ensures files { (other : ℕ) → other ≢ place → file_at self.new other ≡ file_at self.old other }
        ensures number { vec_len self.new.listeners ≡ vec_len self.old.listeners }
        ensures goes { GoesOn self.old self.new }
    {
        if let Some(socket) = self.listeners.get_mut(place) {
            socket.remove_file(system);
        }
    }
}

impl<T: Drop, L: Drop> SocketSet<T, L> {
    ghost use Rattle.proxy_net.specs.Sockets.{is_open_at, HasRoomFor, wishes_in, RoseIn, Grows, GoesOn, AfterAcceptIn, StaysUnread, is_put_off_at, delay_at, sessions_after, is_listener_registered};

    /// Takes a client that waits at a listener.
    pub fn accept<S: Sockets<Stream = T, Listener = L>>(
        &mut self,
        system: &mut S,
        listener: u32,
    ) -> Accepted
        ensures numbered { (session : ℕ) → result ≡ Accepted.New session → (session ≡ self.old.sessions + 1) × (self.new.sessions ≡ session) }
        ensures missing { vec_len self.old.listeners ≤ listener → (result ≡ Accepted.Failed) ⊎ (result ≡ Accepted.Memory) }
        ensures failed { result ≡ Accepted.Failed → RoseIn (Count.Listener listener) self.old self.new }
        ensures not_ready { result ≡ Accepted.NotReady → RoseIn Count.Waits self.old self.new }
        ensures new_wishes { (session : ℕ) → result ≡ Accepted.New session → wishes_in self.new (client_link session) ≡ Some no_wishes }
        ensures open { (session : ℕ) → result ≡ Accepted.New session → is_open_at self.new (link_number (client_link session)) ≡ true }
        ensures wishes { AfterAcceptIn result self.old self.new }
        ensures put_off { (result ≡ Accepted.Failed) ⊎ (result ≡ Accepted.Memory) → is_put_off_at self.new listener ≡ true }
        ensures served { (session : ℕ) → result ≡ Accepted.New session → delay_at self.new listener ≡ 0 }
        ensures told { is_listener_registered self.old listener ≡ true → Steps (IsAccept listener (vec_len self.old.listeners) self.old.sessions result) (S.journal system.old) (S.journal system.new) }
        ensures sessions { self.new.sessions ≡ sessions_after result self.old.sessions }
        ensures number { vec_len self.new.listeners ≡ vec_len self.old.listeners }
        ensures unread { StaysUnread self.old self.new }
        ensures grows { Grows self.old self.new }
    {
        if self.reserve().is_err() {
            self.stall(system, listener);
            return Accepted::Memory;
        }
        let Some(session) = self.sessions.checked_add(1) else {
            return self.fail_accept(system, listener);
        };
        let link = Link {
            session,
            side: Side::Client,
        };
        match self.take_client(system, listener, number_of(link)) {
            Arrival::Client(stream) => self.make_session(system, listener, session, stream),
            Arrival::NotReady => Accepted::NotReady,
            Arrival::Failed => self.fail_accept(system, listener),
        }
    }

    fn take_client<S: Sockets<Stream = T, Listener = L>>(
        &mut self,
        system: &mut S,
        listener: u32,
        number: u64,
    ) -> Arrival<T>
        ensures number { (stream : _) → result ≡ Arrival.Client stream → stream.number ≡ number }
        ensures room { HasRoomFor 1 self.old → HasRoomFor 1 self.new }
        ensures not_ready { result ≡ Arrival.NotReady → RoseIn Count.Waits self.old self.new }
        ensures missing { vec_len self.old.listeners ≤ listener → result ≡ Arrival.Failed }
        ensures served { (stream : _) → result ≡ Arrival.Client stream → delay_at self.new listener ≡ 0 }
        ensures told { is_listener_registered self.old listener ≡ true → Steps (IsArrivalAt listener (vec_len self.old.listeners) number result) (S.journal system.old) (S.journal system.new) }
        ensures unread { StaysUnread self.old self.new }
        ensures goes { GoesOn self.old self.new }
    {
        let arrival = self.accept_at(system, listener, number);
        if matches!(arrival, Arrival::NotReady) {
            self.waits = raised(self.waits);
        }
        arrival
    }

    /// Accepts once, and queues a listener again that is to be named by that.
    fn accept_at<S: Sockets<Stream = T, Listener = L>>(
        &mut self,
        system: &mut S,
        listener: u32,
        number: u64,
    ) -> Arrival<T>
        ensures number { (stream : _) → result ≡ Arrival.Client stream → stream.number ≡ number }
        ensures room { HasRoomFor 1 self.old → HasRoomFor 1 self.new }
        ensures missing { vec_len self.old.listeners ≤ listener → result ≡ Arrival.Failed }
        ensures waits { self.new.waits ≡ self.old.waits }
        ensures served { (stream : _) → result ≡ Arrival.Client stream → delay_at self.new listener ≡ 0 }
        ensures told { is_listener_registered self.old listener ≡ true → Steps (IsArrivalAt listener (vec_len self.old.listeners) number result) (S.journal system.old) (S.journal system.new) }
        ensures unread { StaysUnread self.old self.new }
        ensures goes { GoesOn self.old self.new }
    {
        match self.listeners.get_mut(listener as usize) {
            Some(socket) => {
                let (arrival, is_new) = socket.accept(system, number);
                self.queue(LISTENERS + u64::from(listener), is_new);
                arrival
            }
            None => Arrival::Failed,
        }
    }

    /// Counts an accept that failed, and stalls its listener.
    fn fail_accept<S: Sockets>(&mut self, system: &S, listener: u32) -> Accepted
        ensures failed { result ≡ Accepted.Failed }
        ensures rose { RoseIn (Count.Listener listener) self.old self.new }
        ensures put_off { is_put_off_at self.new listener ≡ true }
        ensures delay { listener < vec_len self.old.listeners → delay_at self.new listener ≡ next_delay (delay_at self.old listener) }
        ensures unread { StaysUnread self.old self.new }
        ensures goes { GoesOn self.old self.new }
    {
        match self.listeners.get_mut(listener as usize) {
            Some(socket) => {
                socket.faults = raised(socket.faults);
                socket.stall(system.now());
            }
            None => self.absent = raised(self.absent),
        }
        Accepted::Failed
    }

    /// Has a listener not be named until a link is shut, another client comes, or its delay is over.
    fn stall<S: Sockets>(&mut self, system: &S, listener: u32)
        ensures put_off { is_put_off_at self.new listener ≡ true }
        ensures delay { listener < vec_len self.old.listeners → delay_at self.new listener ≡ next_delay (delay_at self.old listener) }
        ensures unread { StaysUnread self.old self.new }
        ensures goes { GoesOn self.old self.new }
    {
        if let Some(socket) = self.listeners.get_mut(listener as usize) {
            socket.stall(system.now());
        }
    }

    /// Makes a session of a client.
    fn make_session<S: Sockets>(
        &mut self,
        system: &S,
        listener: u32,
        session: u32,
        stream: Numbered<T>,
    ) -> Accepted
        requires room { HasRoomFor 1 self.old }
        requires own { stream.number ≡ link_number (client_link session) }
        ensures numbered { (other : ℕ) → result ≡ Accepted.New other → (other ≡ session) × (self.new.sessions ≡ session) }
        ensures failed { result ≡ Accepted.Failed → RoseIn (Count.Listener listener) self.old self.new }
        ensures ready { result ≢ Accepted.NotReady }
        ensures fault { result ≢ Accepted.Failed }
        ensures new_wishes { (other : ℕ) → result ≡ Accepted.New other → wishes_in self.new (client_link other) ≡ Some no_wishes }
        ensures open { (other : ℕ) → result ≡ Accepted.New other → is_open_at self.new (link_number (client_link other)) ≡ true }
        ensures wishes { AfterAcceptIn result self.old self.new }
        ensures put_off { (result ≡ Accepted.Failed) ⊎ (result ≡ Accepted.Memory) → is_put_off_at self.new listener ≡ true }
        ensures listeners { (other : ℕ) → result ≡ Accepted.New other → self.new.listeners ≡ self.old.listeners }
        ensures sessions { self.new.sessions ≡ sessions_after result self.old.sessions }
        ensures number { vec_len self.new.listeners ≡ vec_len self.old.listeners }
        ensures unread { StaysUnread self.old self.new }
        ensures grows { Grows self.old self.new }
    {
        let link = Link {
            session,
            side: Side::Client,
        };
        match self.add_link(link, Connection::Open(stream)) {
            Ok(()) => {
                self.sessions = session;
                Accepted::New(session)
            }
            Err(_) => {
                self.stall(system, listener);
                Accepted::Memory
            }
        }
    }
}

impl<T: Drop, L: Drop> SocketSet<T, L> {
    ghost use Rattle.proxy_net.specs.Sockets.{is_open_at, tried_path_at, HasRoomFor, wishes_in, RoseIn, Grows, GoesOn, KeepsOthersIn, KeepsWishesIn, StaysUnread, has_link_at};

    /// Connects a session to the bus at a path. An empty one is refused, since the system would take a name of its own
    /// for it, and so is a session that has a link to its bus. If the bus has no room for one more, it is tried again
    /// later.
    pub fn connect<S: Sockets<Stream = T, Listener = L>>(
        &mut self,
        alloc: Global,
        system: &mut S,
        session: u32,
        path: &str,
    ) -> Result<(), NetFault>
        ensures path { OnOk result (path.now ≢ []) }
        ensures fresh { OnOk result (wishes_in self.old (bus_link session) ≡ None) }
        ensures unmade { result ≡ Err NetFault.Failed → S.shows None ⊎ Steps (IsUnmade (link_number (bus_link session)) path.now) (S.journal system.old) (S.journal system.new) }
        ensures err { OnErr result (KeepsWishesIn self.old self.new) }
        ensures failed { IsErrOf result NetFault.Failed → RoseIn (Count.Link (bus_link session)) self.old self.new }
        ensures own { OnOk result (wishes_in self.new (bus_link session) ≡ Some no_wishes) }
        ensures made { OnOk result (Steps (IsMade (is_open_at self.new (link_number (bus_link session))) (link_number (bus_link session)) path.now) (S.journal system.old) (S.journal system.new)) }
        ensures later { OnOk result (is_open_at self.new (link_number (bus_link session)) ≡ false → tried_path_at self.new (link_number (bus_link session)) ≡ Some path.now) }
        ensures told { Steps (IsConnect (link_number (bus_link session)) path.now (has_link_at self.old (link_number (bus_link session))) result) (S.journal system.old) (S.journal system.new) }
        ensures others { KeepsOthersIn (bus_link session) self.old self.new }
        ensures sessions { self.new.sessions ≡ self.old.sessions }
        ensures number { vec_len self.new.listeners ≡ vec_len self.old.listeners }
        ensures unread { StaysUnread self.old self.new }
        ensures grows { Grows self.old self.new }
    {
        let link = Link {
            session,
            side: Side::Bus,
        };
        match self.make_bus_link(alloc, system, link, path) {
            Ok(()) => Ok(()),
            Err(NetFault::Failed) => {
                self.raise(Count::Link(link));
                Err(NetFault::Failed)
            }
            Err(NetFault::Memory) => Err(NetFault::Memory),
        }
    }

    fn make_bus_link<S: Sockets<Stream = T, Listener = L>>(
        &mut self,
        alloc: Global,
        system: &mut S,
        link: Link,
        path: &str,
    ) -> Result<(), NetFault>
        ensures path { OnOk result (path.now ≢ []) }
        ensures fresh { OnOk result (wishes_in self.old link ≡ None) }
        ensures unmade { result ≡ Err NetFault.Failed → S.shows None ⊎ Steps (IsUnmade (link_number link) path.now) (S.journal system.old) (S.journal system.new) }
        ensures told { Steps (IsConnect (link_number link) path.now (has_link_at self.old (link_number link)) result) (S.journal system.old) (S.journal system.new) }
        ensures err { OnErr result (GoesOn self.old self.new) }
        ensures own { OnOk result (wishes_in self.new link ≡ Some no_wishes) }
        ensures made { OnOk result (Steps (IsMade (is_open_at self.new (link_number link)) (link_number link) path.now) (S.journal system.old) (S.journal system.new)) }
        ensures later { OnOk result (is_open_at self.new (link_number link) ≡ false → tried_path_at self.new (link_number link) ≡ Some path.now) }
        ensures others { KeepsOthersIn link self.old self.new }
        ensures sessions { self.new.sessions ≡ self.old.sessions }
        ensures number { vec_len self.new.listeners ≡ vec_len self.old.listeners }
        ensures unread { StaysUnread self.old self.new }
        ensures grows { Grows self.old self.new }
    {
        let number = number_of(link);
        if path.is_empty() || self.links.contains_key(&number) {
            return Err(NetFault::Failed);
        }
        if self.reserve_pending().is_err() {
            return Err(NetFault::Memory);
        }
        match system.connect(path, number) {
            Ok(stream) => self.join(link, stream),
            Err(error) => {
                if is_put_off(error.kind()) {
                    return self.join_later(alloc, system, link, path);
                }
                Err(NetFault::Failed)
            }
        }
    }

    /// Takes the room for a link that isn't connected yet.
    fn reserve_pending(&mut self) -> Result<(), AllocError>
        ensures room { OnOk result (HasRoomFor 1 self.new) }
        ensures pending { OnOk result (deque_len self.new.pending < deque_capacity self.new.pending) }
        ensures unread { StaysUnread self.old self.new }
        ensures goes { GoesOn self.old self.new }
    {
        self.pending.reserve(1)?;
        self.reserve()
    }

    /// Makes a link of a stream.
    fn join(&mut self, link: Link, stream: Numbered<T>) -> Result<(), NetFault>
        requires room { HasRoomFor 1 self.old }
        requires own { stream.number ≡ link_number link }
        ensures fault { result ≢ Err NetFault.Failed }
        ensures err { OnErr result (GoesOn self.old self.new) }
        ensures own { OnOk result (wishes_in self.new link ≡ Some no_wishes) }
        ensures open { OnOk result (is_open_at self.new (link_number link) ≡ true) }
        ensures others { KeepsOthersIn link self.old self.new }
        ensures sessions { self.new.sessions ≡ self.old.sessions }
        ensures number { vec_len self.new.listeners ≡ vec_len self.old.listeners }
        ensures unread { StaysUnread self.old self.new }
        ensures grows { Grows self.old self.new }
    {
        match self.add_link(link, Connection::Open(stream)) {
            Ok(()) => Ok(()),
            Err(_) => Err(NetFault::Memory),
        }
    }

    /// Makes a link that is to be connected later. The connect would have waited, and is counted so. If memory is
    /// refused, its number is among those that are tried again until the next try, which finds no link.
    fn join_later<S: Sockets>(
        &mut self,
        alloc: Global,
        system: &S,
        link: Link,
        path: &str,
    ) -> Result<(), NetFault>
        requires room { HasRoomFor 1 self.old }
        requires pending { deque_len self.old.pending < deque_capacity self.old.pending }
        ensures pending { OnOk result (self.new.pending.items ≡ self.old.pending.items ++ link_number link ∷ []) }
        ensures fault { result ≡ Err NetFault.Failed → S.shows None }
        ensures err { OnErr result (GoesOn self.old self.new) }
        ensures own { OnOk result (wishes_in self.new link ≡ Some no_wishes) }
        ensures open { OnOk result (is_open_at self.new (link_number link) ≡ false) }
        ensures later { OnOk result (tried_path_at self.new (link_number link) ≡ Some path.now) }
        ensures others { KeepsOthersIn link self.old self.new }
        ensures sessions { self.new.sessions ≡ self.old.sessions }
        ensures number { vec_len self.new.listeners ≡ vec_len self.old.listeners }
        ensures unread { StaysUnread self.old self.new }
        ensures grows { Grows self.old self.new }
    {
        let Some(now) = system.now() else {
            return Err(NetFault::Failed);
        };
        let Ok(path) = String::from_str(alloc, path) else {
            return Err(NetFault::Memory);
        };
        let number = number_of(link);
        let _ = self.pending.push_back(number);
        match self.add_link(link, Connection::Pending(Retry::new(number, path, now))) {
            Ok(()) => {
                self.waits = raised(self.waits);
                Ok(())
            }
            Err(_) => Err(NetFault::Memory),
        }
    }
}
