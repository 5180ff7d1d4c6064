//! The scripts of nets in memory.
//!
//! A script has steps, in the order in which they happen: clients arrive, bytes are received, links end. Beside them it
//! has exceptions: the first, the second or a later call of a kind fails, is refused memory or isn't ready, and a link
//! takes at most a certain number of bytes, in each write or in all.
ghost use Rattle.std.specs.Prelude.{◌≡◌, ◌≢◌, ◌≤◌, ◌<◌, ◌+◌, ◌↔◌, ℕ, false, length, IfSome, IfNone, Contains, IsTrue, OnOk, OnErr};
ghost use Rattle.memory_links.specs.Scripts.{IsWished, hint_of, comes_on as is_of, is_end, ends_next};

use link_traits::links::{Link, Ready};
use link_traits::tables::{LinkTable, is_same};
use std::alloc::{AllocError, Global};

/// A call whose result isn't that of the steps, given by its place among the calls of its kind on the net, from 1.
///
/// A call that fails or is refused memory takes and gives nothing. After one that isn't ready, the event is named
/// again, for a later call.
#[derive(Clone, Copy, Debug, PartialEq, Eq)]
pub enum Exception {
    PrepareFails(u64),
    PrepareRefused(u64),
    ListenFails(u64),
    ListenRefused(u64),
    WaitFails(u64),
    AcceptFails(u64),
    AcceptRefused(u64),
    AcceptNotReady(u64),
    ConnectFails(u64),
    ConnectRefused(u64),
    ReadFails(u64),
    ReadNotReady(u64),
    WriteFails(u64),
    WriteNotReady(u64),
}

/// An event.
#[derive(Clone, Copy)]
enum Event {
    /// A client arrives at a listener.
    Arrival(u32),
    /// The bytes of the script between two places are received on a link.
    Piece(Link, usize, usize),
    /// A link ends.
    End(Link),
    /// A link that wasn't ready to be written is ready again.
    Room(Link),
    /// Nothing: the event was taken.
    Over,
}

/// An event, and whether a wait named it. It is named again if a call left a part of it.
#[derive(Clone, Copy)]
struct Step {
    event: Event,
    named: bool,
}

/// A link that takes at most `most` bytes in a write.
#[derive(Clone, Copy)]
struct Pace {
    link: Link,
    most: usize,
}

/// A link that takes `left` more bytes, and then fails.
#[derive(Clone, Copy)]
struct Limit {
    link: Link,
    left: usize,
}

/// What is read of a link.
#[derive(Clone, Copy)]
pub enum Coming {
    Bytes(usize),
    End,
    Nothing,
}

/// What happens at a net in memory. A script is made step by step, and then given to the net.
#[derive(Drop)]
pub struct Script {
    bytes: Vec<u8>,
    steps: Vec<Step>,
    exceptions: Vec<Exception>,
    paces: Vec<Pace>,
    limits: Vec<Limit>,
}

impl Script {
    ghost use Rattle.memory_links.specs.Scripts.{script_of, nothing_said, then_happens, then_comes, then_excepts, then_paces, then_limits};

    /// A script without steps and exceptions.
    pub fn new(alloc: Global) -> Script
        ensures { script_of result ≡ nothing_said }
    {
        Script {
            bytes: Vec::new(alloc),
            steps: Vec::new(alloc),
            exceptions: Vec::new(alloc),
            paces: Vec::new(alloc),
            limits: Vec::new(alloc),
        }
    }

    fn add(&mut self, event: Event) -> Result<(), AllocError>
        ensures ok { OnOk result (script_of self.new ≡ then_happens event (script_of self.old)) }
        ensures err { OnErr result (script_of self.new ≡ script_of self.old) }
    {
        self.steps.push(Step {
            event,
            named: false,
        })?;
        Ok(())
    }

    /// Adds a step: a client arrives at a listener.
    pub fn arrival(&mut self, listener: u32) -> Result<(), AllocError>
        ensures ok { OnOk result (script_of self.new ≡ then_happens (Event.Arrival listener) (script_of self.old)) }
        ensures err { OnErr result (script_of self.new ≡ script_of self.old) }
    {
        self.add(Event::Arrival(listener))
    }

    /// Adds a step: a piece is received on a link. Each piece is read by itself. An empty piece adds nothing.
    pub fn piece(&mut self, link: Link, bytes: &[u8]) -> Result<(), AllocError>
        ensures ok { OnOk result (script_of self.new ≡ then_comes link bytes.now (script_of self.old)) }
        ensures err { OnErr result (script_of self.new ≡ script_of self.old) }
    {
        if bytes.is_empty() {
            return Ok(());
        }
        self.steps.reserve(1)?;
        let from = self.bytes.len();
        self.bytes.extend_from_slice(bytes)?;
        let end = self.bytes.len();
        let _ = self.steps.push(Step {
            event: Event::Piece(link, from, end),
            named: false,
        });
        Ok(())
    }

    /// Adds a step: a link ends.
    pub fn end(&mut self, link: Link) -> Result<(), AllocError>
        ensures ok { OnOk result (script_of self.new ≡ then_happens (Event.End link) (script_of self.old)) }
        ensures err { OnErr result (script_of self.new ≡ script_of self.old) }
    {
        self.add(Event::End(link))
    }

    /// Adds an exception.
    pub fn except(&mut self, exception: Exception) -> Result<(), AllocError>
        ensures ok { OnOk result (script_of self.new ≡ then_excepts exception (script_of self.old)) }
        ensures err { OnErr result (script_of self.new ≡ script_of self.old) }
    {
        self.exceptions.push(exception)?;
        Ok(())
    }

    /// Lets a link take at most `most` bytes in a write. If it takes none, it is never ready to be written.
    pub fn pace(&mut self, link: Link, most: usize) -> Result<(), AllocError>
        ensures ok { OnOk result (script_of self.new ≡ then_paces link most (script_of self.old)) }
        ensures err { OnErr result (script_of self.new ≡ script_of self.old) }
    {
        self.paces.push(Pace { link, most })?;
        Ok(())
    }

    /// Lets a link take this number of bytes in all. Each later write of it fails.
    pub fn limit(&mut self, link: Link, bytes: usize) -> Result<(), AllocError>
        ensures ok { OnOk result (script_of self.new ≡ then_limits link bytes (script_of self.old)) }
        ensures err { OnErr result (script_of self.new ≡ script_of self.old) }
    {
        self.limits.push(Limit { link, left: bytes })?;
        Ok(())
    }

    /// Reserves memory for what is added while the net runs: a step for each exception.
    pub(crate) fn reserve(&mut self) -> Result<(), AllocError>
        ensures { script_of self.new ≡ script_of self.old }
    {
        self.steps.reserve(self.exceptions.len())
    }

    /// Whether the script has an exception.
    pub(crate) fn has(&self, exception: Exception) -> bool
        ensures { IsTrue result ↔ Contains self.now.exceptions.items exception }
    {
        for other in &self.exceptions {
            if *other == exception {
                return true;
            }
        }
        false
    }

    /// The number of bytes that a link takes in a write.
    fn pace_of(&self, link: Link) -> usize {
        for pace in &self.paces {
            if is_same(pace.link, link) {
                return pace.most;
            }
        }
        usize::MAX
    }

    /// The number of bytes that the next write on a link may take, or `None` if it must fail.
    pub(crate) fn room_of(&self, link: Link) -> Option<usize> {
        let most = self.pace_of(link);
        for limit in &self.limits {
            if is_same(limit.link, link) {
                return if limit.left == 0 {
                    None
                } else {
                    Some(most.min(limit.left))
                };
            }
        }
        Some(most)
    }

    /// Counts bytes that a write on a link took.
    pub(crate) fn took(&mut self, link: Link, bytes: usize) {
        for place in 0..self.limits.len() {
            let limit = self.limits[place];
            if is_same(limit.link, link) {
                let left = limit.left.saturating_sub(bytes);
                self.limits[place] = Limit { link, left };
            }
        }
    }

    /// Adds a step: a link that wasn't ready to be written is ready again, after all else was named. It allocates
    /// nothing after `reserve`.
    pub(crate) fn again(&mut self, link: Link) {
        let _ = self.steps.push(Step {
            event: Event::Room(link),
            named: false,
        });
    }

    /// The event that is named next: the first that wasn't named yet and for which there is a wish.
    pub(crate) fn next(&mut self, table: &LinkTable) -> Option<Ready>
        ensures { IfSome result (IsWished table.now) }
    {
        for place in 0..self.steps.len() {
            let step = self.steps[place];
            if !step.named && is_wished(table, step.event) {
                self.steps[place].named = true;
                return hint(step.event);
            }
        }
        None
    }

    /// The place of the first client that arrived at a listener and wasn't taken.
    fn arrival_at(&self, listener: u32) -> Option<usize>
        ensures { IfSome result (λ place. place < length self.now.steps.items) }
    {
        for place in 0..self.steps.len() {
            if let Event::Arrival(at) = self.steps[place].event
                && at == listener
            {
                return Some(place);
            }
        }
        None
    }

    /// Takes a client that arrived at a listener, and returns whether there was one.
    pub(crate) fn take_arrival(&mut self, listener: u32) -> bool {
        match self.arrival_at(listener) {
            Some(place) => {
                self.steps[place].event = Event::Over;
                true
            }
            None => false,
        }
    }

    /// Lets the first arrival at a listener be named again.
    pub(crate) fn name_arrival_again(&mut self, listener: u32) {
        if let Some(place) = self.arrival_at(listener) {
            self.steps[place].named = false;
        }
    }

    /// What is next on a link, and its place.
    fn next_on(&self, link: Link) -> Option<(usize, Event)>
        ensures some { IfSome result (λ next. (next.0 < length self.now.steps.items) × (is_end next.1 ≡ ends_next link self.now.steps.items)) }
        ensures none { IfNone result (ends_next link self.now.steps.items ≡ false) }
    {
        let mut place = 0;
        let mut rest = self.steps.as_slice();
        while let [step, after @ ..] = rest {
            if comes_on(step.event, link) {
                return Some((place, step.event));
            }
            place += 1;
            rest = after;
        }
        None
    }

    /// Lets what is next on a link be named again.
    pub(crate) fn name_again(&mut self, link: Link) {
        if let Some((place, _)) = self.next_on(link) {
            self.steps[place].named = false;
        }
    }

    /// Reads the beginning of what is next on a link, at most `most` bytes of a piece. The end of a link stays next.
    pub(crate) fn read(&mut self, link: Link, into: &mut [u8], most: usize) -> Coming
        ensures end { (result ≡ Coming.End) ↔ IsTrue (ends_next link self.old.steps.items) }
        ensures within { (n : ℕ) → result ≡ Coming.Bytes n → n ≤ length into.new }
        ensures room { (n : ℕ) → result ≡ Coming.Bytes n → n ≤ most }
        ensures progress { (n : ℕ) → result ≡ Coming.Bytes n → 0 < length into.new → 0 < most → 0 < n }
    {
        match self.next_on(link) {
            Some((place, Event::Piece(at, from, end))) => {
                self.read_piece(place, at, from, end, into, most)
            }
            Some((_, Event::End(_))) => Coming::End,
            Some((_, Event::Arrival(_) | Event::Room(_) | Event::Over)) => Coming::Nothing,
            None => Coming::Nothing,
        }
    }

    /// Reads the beginning of the bytes between two places, and leaves the rest to the step.
    fn read_piece(
        &mut self,
        place: usize,
        link: Link,
        from: usize,
        end: usize,
        into: &mut [u8],
        most: usize,
    ) -> Coming
        requires { place < length self.old.steps.items }
        ensures end { result ≢ Coming.End }
        ensures within { (n : ℕ) → result ≡ Coming.Bytes n → n ≤ length into.new }
        ensures room { (n : ℕ) → result ≡ Coming.Bytes n → n ≤ most }
        ensures progress { (n : ℕ) → result ≡ Coming.Bytes n → 0 < length into.new → 0 < most → 0 < n }
    {
        let Some(piece) = self.bytes.get(from..end) else {
            return Coming::Nothing;
        };
        if piece.is_empty() {
            return Coming::Nothing;
        }
        let n = piece.len().min(into.len()).min(most);
        into[..n].copy_from_slice(&piece[..n]);
        self.steps[place] = rest_of(link, from + n, end);
        Coming::Bytes(n)
    }
}

/// Whether an event is bytes or the end of a link.
fn comes_on(event: Event, link: Link) -> bool
    ensures { result ≡ is_of event link }
{
    match event {
        Event::Piece(at, _, _) => is_same(at, link),
        Event::End(at) => is_same(at, link),
        Event::Arrival(_) => false,
        Event::Room(_) => false,
        Event::Over => false,
    }
}

/// The step for what is left of a piece.
fn rest_of(link: Link, from: usize, end: usize) -> Step {
    let event = if from < end {
        Event::Piece(link, from, end)
    } else {
        Event::Over
    };
    Step {
        event,
        named: false,
    }
}

/// Whether the event has its wish: a listener is there, or a link is watched for it.
fn is_wished(table: &LinkTable, event: Event) -> bool
    ensures { IsTrue result → IfSome (hint_of event) (IsWished table.now) }
{
    match event {
        Event::Arrival(listener) => (listener as usize) < table.listeners.len(),
        Event::Piece(link, _, _) | Event::End(link) => match table.wishes(link) {
            Some(wishes) => wishes.read,
            None => false,
        },
        Event::Room(link) => match table.wishes(link) {
            Some(wishes) => wishes.write,
            None => false,
        },
        Event::Over => false,
    }
}

/// What a wait returns for an event.
fn hint(event: Event) -> Option<Ready>
    ensures { result ≡ hint_of event }
{
    match event {
        Event::Arrival(listener) => Some(Ready::Listener(listener)),
        Event::Piece(link, _, _) => Some(Ready::Link(link)),
        Event::End(link) => Some(Ready::Link(link)),
        Event::Room(link) => Some(Ready::Link(link)),
        Event::Over => None,
    }
}
