//! The sockets that listen.
ghost use Rattle.std.specs.Prelude.{◌≡◌, ◌≢◌, ◌≤◌, ◌*◌, ◌&&◌, ◌||◌, ◌⊎◌, not, Some, None, true, false};
ghost use Rattle.proxy_net.specs.Connecting.{IsLater};
ghost use Rattle.proxy_net.specs.Delays.{next_delay, is_accept_due, accept_left, nanos_of};
ghost use Rattle.proxy_net.specs.Naming.{is_awaited, is_listener_placed};
ghost use Rattle.proxy_net.specs.Noting.{is_listener_noted};
ghost use Rattle.proxy_net.specs.Steps.{Steps, IsArrival, IsFileRemoval};

use crate::bound_files::BoundFile;
use crate::delays::{BLIND_DELAY, delay_after, delay_until, is_time, later};
use crate::system::{Numbered, Sockets};
use std::io::ErrorKind;
use std::time::{Duration, Instant};

/// A socket that listens.
///
/// One whose accept failed is stalled: mostly no descriptor is left. It isn't named again until a link is shut, another
/// client comes, or its delay is over, since to name it on would spin. The delay doubles while accepts fail.
///
/// One that was named and of which nothing was accepted isn't named again until something is accepted or another client
/// comes.
#[derive(Drop)]
pub struct ListenerSocket<L> {
    /// How often it failed.
    pub faults: u64,
    listener: Numbered<L>,
    // What its bind made, until that is removed.
    file: Option<BoundFile>,
    ready: bool,
    stalled: bool,
    queued: bool,
    // It was named, and nothing was accepted since.
    unheeded: bool,
    // The milliseconds that it was put off last. They are 0 once a client was accepted.
    delay: u64,
    // When it is tried again, if it is stalled. It isn't known if the clock couldn't be read.
    due: Option<Instant>,
}

/// What came of an accept.
#[derive(Drop)]
pub enum Arrival<T> {
    Client(Numbered<T>),
    NotReady,
    /// The listener's count rose.
    Failed,
}

impl<L: Drop> ListenerSocket<L> {
    ghost use Rattle.std.specs.declared.time.Instant.{Instant};

    /// A listener to which nobody came.
    pub fn new(faults: u64, listener: Numbered<L>, file: Option<BoundFile>) -> ListenerSocket<L>
        ensures listener { result.listener ≡ listener }
        ensures file { result.file ≡ file }
        ensures faults { result.faults ≡ faults }
        ensures quiet { (result.ready ≡ false) × (result.queued ≡ false) }
        ensures awaited { (result.stalled ≡ false) × (result.unheeded ≡ false) }
    {
        ListenerSocket {
            faults,
            listener,
            file,
            ready: false,
            stalled: false,
            queued: false,
            unheeded: false,
            delay: 0,
            due: None,
        }
    }

    /// Takes a client. Answers also whether it is to be queued. A failure isn't counted here.
    pub fn accept<S: Sockets<Listener = L>>(
        &mut self,
        system: &mut S,
        number: u64,
    ) -> (Arrival<S::Stream>, bool)
        ensures placed { is_listener_placed (Some self.new) ≡ true }
        ensures queued { result.1 ≡ true → (self.new.queued ≡ true) × (self.old.queued ≡ false) }
        ensures stays { result.1 ≡ false → self.new.queued ≡ self.old.queued }
        ensures listener { self.new.listener ≡ self.old.listener }
        ensures uncounted { self.new.faults ≡ self.old.faults }
        ensures ready { result.0 ≢ Arrival.NotReady → self.new.ready ≡ self.old.ready }
        ensures stalled { self.new.stalled ≡ self.old.stalled }
        ensures file { self.new.file ≡ self.old.file }
        ensures served { (stream : _) → result.0 ≡ Arrival.Client stream → self.new.delay ≡ 0 }
        ensures delay { result.0 ≡ Arrival.Failed → self.new.delay ≡ self.old.delay }
        ensures number { (stream : _) → result.0 ≡ Arrival.Client stream → stream.number ≡ number }
        ensures told { Steps (IsArrival self.old.listener.number number result.0) (S.journal system.old) (S.journal system.new) }
    {
        let arrival = self.take_client(system, number);
        (arrival, self.take_place())
    }

    fn take_client<S: Sockets<Listener = L>>(
        &mut self,
        system: &mut S,
        number: u64,
    ) -> Arrival<S::Stream>
        ensures heeded { self.new.unheeded ≡ false }
        ensures ready { result ≢ Arrival.NotReady → self.new.ready ≡ self.old.ready }
        ensures served { (stream : _) → result ≡ Arrival.Client stream → self.new.delay ≡ 0 }
        ensures delay { result ≡ Arrival.Failed → self.new.delay ≡ self.old.delay }
        ensures number { (stream : _) → result ≡ Arrival.Client stream → stream.number ≡ number }
        ensures told { Steps (IsArrival self.old.listener.number number result) (S.journal system.old) (S.journal system.new) }
        ensures rest { self.new ≡ record self.old { ready = self.new.ready; unheeded = false; delay = self.new.delay } }
    {
        self.unheeded = false;
        match system.accept(&self.listener, number) {
            Ok(stream) => {
                self.delay = 0;
                Arrival::Client(stream)
            }
            Err(error) => self.refuse(error.kind()),
        }
    }

    /// Answers an accept that the system refused. It isn't counted here.
    fn refuse<T>(&mut self, kind: ErrorKind) -> Arrival<T>
        ensures none { (stream : _) → result ≡ Arrival.Client stream → ⊥ }
        ensures nobody { kind ≡ ErrorKind.WouldBlock → (result ≡ Arrival.NotReady) × (self.new.ready ≡ false) }
        ensures again { kind ≡ ErrorKind.Interrupted → (result ≡ Arrival.NotReady) × (self.new.ready ≡ self.old.ready) }
        ensures fault { kind ≢ ErrorKind.WouldBlock → kind ≢ ErrorKind.Interrupted → result ≡ Arrival.Failed }
        ensures waits { result ≡ Arrival.NotReady → (kind ≡ ErrorKind.WouldBlock) ⊎ (kind ≡ ErrorKind.Interrupted) }
        ensures ready { result ≢ Arrival.NotReady → self.new.ready ≡ self.old.ready }
        ensures rest { self.new ≡ record self.old { ready = self.new.ready } }
    {
        match kind {
            ErrorKind::WouldBlock => {
                self.ready = false;
                Arrival::NotReady
            }
            ErrorKind::Interrupted => Arrival::NotReady,
            _ => Arrival::Failed,
        }
    }

    /// Isn't named until it is noted or revived, or its delay is over.
    pub fn stall(&mut self, now: Option<Instant>)
        ensures stalled { self.new ≡ record self.old { stalled = true; delay = next_delay self.old.delay; due = self.new.due } }
        ensures due { (clock : Instant) → now ≡ Some clock → (time : Instant) × (self.new.due ≡ Some time) × IsLater clock (self.new.delay * 1_000_000) time }
        ensures blind { now ≡ None → self.new.due ≡ None }
    {
        self.stalled = true;
        self.delay = delay_after(self.delay);
        self.due = match now {
            Some(now) => Some(later(now, Duration::from_millis(self.delay))),
            None => None,
        };
    }

    /// Whether it is stalled.
    pub fn is_stalled(&self) -> bool
        ensures { result ≡ self.now.stalled }
    {
        self.stalled
    }

    /// How long it is until it is tried again, if it is stalled.
    pub fn delay_left(&self, now: Option<Instant>) -> Option<Duration>
        ensures { nanos_of result ≡ accept_left now self.now }
    {
        if !self.stalled {
            return None;
        }
        match self.due {
            Some(due) => Some(delay_until(due, now)),
            None => Some(Duration::from_millis(BLIND_DELAY)),
        }
    }

    /// Is named again, if it is stalled and its delay is over. Answers whether it is to be queued.
    pub fn retry(&mut self, now: Option<Instant>) -> bool
        ensures queued { result ≡ (is_accept_due now self.old && not self.old.queued) }
        ensures other { is_accept_due now self.old ≡ false → self.new ≡ self.old }
        ensures due { is_accept_due now self.old ≡ true → self.new ≡ record self.old { ready = true; stalled = false; unheeded = false; queued = true } }
        ensures rest { self.new ≡ record self.old { ready = self.new.ready; stalled = self.new.stalled; unheeded = self.new.unheeded; queued = self.new.queued } }
        ensures placed { is_listener_placed (Some self.old) ≡ true → is_listener_placed (Some self.new) ≡ true }
        ensures noted { is_listener_noted (Some self.old) ≡ true → is_listener_noted (Some self.new) ≡ true }
        ensures done { is_accept_due now self.new ≡ false }
        ensures stays { result ≡ false → self.new.queued ≡ self.old.queued }
    {
        if !self.is_accept_due(now) {
            return false;
        }
        self.note()
    }

    fn is_accept_due(&self, now: Option<Instant>) -> bool
        ensures { result ≡ is_accept_due now self.now }
    {
        self.stalled && is_time(self.due, now)
    }

    /// Looks at what is at the path of its file, if it has one, and removes it if it is that file.
    pub fn remove_file<S: Sockets>(&mut self, system: &mut S)
        ensures told { Steps (IsFileRemoval self.old.file) (S.journal system.old) (S.journal system.new) }
        ensures rest { self.new ≡ record self.old { file = None } }
    {
        if let Some(file) = self.file.take() {
            file.remove(system);
        }
    }

    /// Is named again, if it was stalled. Answers whether it is to be queued.
    pub fn revive(&mut self) -> bool
        ensures queued { result ≡ (self.old.stalled && not self.old.queued) }
        ensures other { self.old.stalled ≡ false → self.new ≡ self.old }
        ensures stalled { self.old.stalled ≡ true → self.new ≡ record self.old { ready = true; stalled = false; unheeded = false; queued = true } }
    {
        if !self.stalled {
            return false;
        }
        self.note()
    }

    /// Notes that a client came. Answers whether it is to be queued.
    pub fn note(&mut self) -> bool
        ensures queued { result ≡ not self.old.queued }
        ensures noted { self.new ≡ record self.old { ready = true; stalled = false; unheeded = false; queued = true } }
    {
        let was_queued = self.queued;
        self.ready = true;
        self.stalled = false;
        self.unheeded = false;
        self.queued = true;
        !was_queued
    }

    /// Whether it is to be named. One that isn't leaves its place in the queue.
    pub fn keeps_place(&mut self) -> bool
        ensures place { result ≡ is_awaited self.old }
        ensures named { self.new ≡ record self.old { queued = is_awaited self.old; unheeded = self.old.unheeded || is_awaited self.old } }
    {
        self.queued = self.is_awaited();
        self.unheeded = self.unheeded || self.queued;
        self.queued
    }

    fn is_awaited(&self) -> bool
        ensures { result ≡ is_awaited self.now }
    {
        self.ready && !self.stalled && !self.unheeded
    }

    /// Takes a place among what is to be named, if it is to be named and has none. Answers whether it took one.
    fn take_place(&mut self) -> bool
        ensures took { result ≡ (is_awaited self.old && not self.old.queued) }
        ensures placed { is_listener_placed (Some self.new) ≡ true }
        ensures same { self.new ≡ record self.old { queued = self.old.queued || is_awaited self.old } }
    {
        if self.queued || !self.is_awaited() {
            return false;
        }
        self.queued = true;
        true
    }
}
