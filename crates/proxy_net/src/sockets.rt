//! The sockets of a net, and what of them is to be named.
//!
//! What is ready and wished for is in a queue, and what was named goes to its end, so that a busy link doesn't hold up
//! the others. Room in the queue is taken when a listener or a link is made. What is marked as queued is in it.
ghost use Rattle.std.specs.Prelude.{◌≡◌, ◌≤◌, ◌+◌, ◌++◌, ◌∷◌, ◌||◌, [], not, nat_eq, ℕ, Bool, List, Option, true, if◌then◌else◌, unwrap_or, None, Some, IfOk, OnOk, OnErr, vec_len};
ghost use Rattle.std.specs.VecDeque.{deque_len, deque_capacity};
ghost use Rattle.std.specs.Option.{option_map};
ghost use Rattle.std.specs.Ordering.{nat_cmp};
ghost use Rattle.std.specs.BTreeMap as tree;
ghost use Rattle.link_traits.specs.Answers.{no_wishes};
ghost use Rattle.link_traits.specs.Numbers.{number_of as link_number};
ghost use Rattle.proxy_net.specs.Naming.{is_to_fail, other_of};
ghost use Rattle.proxy_net.specs.Room.{room_for};
ghost use Rattle.std.specs.List.{list_any};
ghost use Rattle.proxy_net.specs.Connecting.{is_pending, is_open, tried_path};
ghost use Rattle.proxy_net.specs.Registering.{is_registered_by};
ghost use Rattle.proxy_net.specs.Steps.{Steps, IsShut};
ghost use Rattle.proxy_net.specs.SystemCalls.{SystemCall};
ghost use Rattle.proxy_net.specs.declared.starters.Starter.{Starter};

mod calls;
mod making;
mod naming;

use crate::link_sockets::{Connection, LinkSocket, raised};
use crate::listeners::ListenerSocket;
use crate::system::Sockets;
use link_traits::tables::number_of;
use link_traits::{Count, Link, Wishes};
use std::alloc::{AllocError, Global};
use std::collections::{BTreeMap, VecDeque};

/// The number of the first listener, above those of all links.
const LISTENERS: u64 = 0x2_0000_0000;

/// The sockets of listeners and links, with what is counted of them.
///
/// No count falls: what is counted of a listener or a link that isn't there is `absent`, which is at least what was
/// counted of any link that was shut, and which a new listener or link begins with. So a link that was shut takes no
/// room.
#[derive(Drop)]
pub struct SocketSet<T, L> {
    /// The net's own faults.
    own: u64,
    /// Calls that would have waited.
    waits: u64,
    /// What is counted of listeners and links that aren't there.
    absent: u64,
    listeners: Vec<ListenerSocket<L>>,
    /// The links that were made and aren't shut, by their numbers.
    links: BTreeMap<u64, LinkSocket<T>>,
    /// How many clients were accepted.
    sessions: u32,
    /// Numbers of what is to be named.
    ready: VecDeque<u64>,
    /// How much was named since the system was asked.
    named: u32,
    /// Numbers of links that aren't connected yet.
    pending: VecDeque<u64>,
    ghost room: { room_for 0 (deque_len ready) listeners.items links.entries ≤ deque_capacity ready },
}

/// The number of the other link of a link's session.
fn other_number(number: u64) -> u64
    ensures { result ≡ other_of number }
{
    if number % 2 == 0 {
        number + 1
    } else {
        number - 1
    }
}

impl<T: Drop, L: Drop> SocketSet<T, L> {
    ghost use Rattle.proxy_net.specs.Sockets.{due_at, tried_path_at, is_peer_closed_at, is_closed_at, given_up_at, is_to_fail_at, KeepsReports, StaysUnread, StaysClosed, shown, count_in, wishes_in, RoseIn, Grows, GoesOn, KeepsOthersIn, IsUnused, IsConsistent, HasRoomFor, has_place, is_link_registered, is_open_at};
    ghost use Rattle.link_traits.specs.declared.links.Wishes.{Wishes};

    /// No sockets.
    pub fn new(alloc: Global) -> SocketSet<T, L>
        ensures unused { (calls : Option (List SystemCall)) (starter : Starter) → IsUnused (shown result calls starter) }
        ensures empty { (vec_len result.listeners ≡ 0) × (result.sessions ≡ 0) }
        ensures consistent { IsConsistent result }
    {
        SocketSet {
            own: 0,
            waits: 0,
            absent: 0,
            listeners: Vec::new(alloc),
            links: BTreeMap::new(alloc),
            sessions: 0,
            ready: VecDeque::new(alloc),
            named: 0,
            pending: VecDeque::new(alloc),
        }
    }

    /// Raises a count, unless it is at its greatest number.
    pub fn raise(&mut self, count: Count)
        ensures rose { RoseIn count self.old self.new }
        ensures unread { StaysUnread self.old self.new }
        ensures closed { StaysClosed self.old self.new }
        ensures dues { (number : ℕ) → due_at self.new number ≡ due_at self.old number }
        ensures goes { GoesOn self.old self.new }
    {
        match count {
            Count::Own => self.own = raised(self.own),
            Count::Waits => self.waits = raised(self.waits),
            Count::Listener(listener) => self.raise_listener(listener),
            Count::Link(link) => self.raise_link(link),
        }
    }

    fn raise_listener(&mut self, listener: u32)
        ensures rose { RoseIn (Count.Listener listener) self.old self.new }
        ensures unread { StaysUnread self.old self.new }
        ensures closed { StaysClosed self.old self.new }
        ensures dues { (number : ℕ) → due_at self.new number ≡ due_at self.old number }
        ensures goes { GoesOn self.old self.new }
    {
        match self.listeners.get_mut(listener as usize) {
            Some(socket) => socket.faults = raised(socket.faults),
            None => self.absent = raised(self.absent),
        }
    }

    fn raise_link(&mut self, link: Link)
        ensures rose { RoseIn (Count.Link link) self.old self.new }
        ensures unread { StaysUnread self.old self.new }
        ensures closed { StaysClosed self.old self.new }
        ensures dues { (number : ℕ) → due_at self.new number ≡ due_at self.old number }
        ensures goes { GoesOn self.old self.new }
    {
        match self.links.get_mut(&number_of(link)) {
            Some(socket) => socket.faults = raised(socket.faults),
            None => self.absent = raised(self.absent),
        }
    }

    /// What is counted.
    pub fn count(&self, count: Count) -> u64
        ensures { result ≡ count_in self.now count }
    {
        match count {
            Count::Own => self.own,
            Count::Waits => self.waits,
            Count::Listener(listener) => self.listener_faults(listener),
            Count::Link(link) => self.link_faults(link),
        }
    }

    fn listener_faults(&self, listener: u32) -> u64
        ensures { result ≡ count_in self.now (Count.Listener listener) }
    {
        match self.listeners.get(listener as usize) {
            Some(socket) => socket.faults,
            None => self.absent,
        }
    }

    fn link_faults(&self, link: Link) -> u64
        ensures { result ≡ count_in self.now (Count.Link link) }
    {
        match self.links.get(&number_of(link)) {
            Some(socket) => socket.faults,
            None => self.absent,
        }
    }

    /// Makes a link, without a wish.
    fn add_link(&mut self, link: Link, connection: Connection<T>) -> Result<(), AllocError>
        requires room { HasRoomFor 1 self.old }
        requires token { is_registered_by (link_number link) connection ≡ true }
        requires tried { (not (is_pending connection) || list_any (nat_eq (link_number link)) self.old.pending.items) ≡ true }
        ensures sessions { self.new.sessions ≡ self.old.sessions }
        ensures pending { self.new.pending ≡ self.old.pending }
        ensures listeners { self.new.listeners ≡ self.old.listeners }
        ensures own { OnOk result (wishes_in self.new link ≡ Some no_wishes) }
        ensures open { OnOk result (is_open_at self.new (link_number link) ≡ is_open connection) }
        ensures path { OnOk result (tried_path_at self.new (link_number link) ≡ tried_path connection) }
        ensures others { KeepsOthersIn link self.old self.new }
        ensures unread { StaysUnread self.old self.new }
        ensures grows { Grows self.old self.new }
        ensures err { OnErr result (GoesOn self.old self.new) }
    {
        let number = number_of(link);
        let faults = self.link_faults(link);
        self.links
            .insert(number, LinkSocket::new(faults, connection))?;
        Ok(())
    }

    /// Closes a link and forgets it. One that isn't there stays so.
    fn remove_link<S: Sockets<Stream = T, Listener = L>>(&mut self, system: &mut S, link: Link)
        ensures told { is_link_registered self.old (link_number link) ≡ true → Steps (IsShut (is_open_at self.old (link_number link)) (link_number link)) (S.journal system.old) (S.journal system.new) }
        ensures gone { wishes_in self.new link ≡ None }
        ensures sessions { self.new.sessions ≡ self.old.sessions }
        ensures number { vec_len self.new.listeners ≡ vec_len self.old.listeners }
        ensures others { KeepsOthersIn link self.old self.new }
        ensures unread { StaysUnread self.old self.new }
        ensures grows { Grows self.old self.new }
    {
        if let Some(socket) = self.links.remove(&number_of(link)) {
            self.absent = self.absent.max(socket.faults);
            socket.close(system);
        }
    }

    /// Replaces the wishes of a link. Answers whether its peer is known to have closed.
    fn set_wishes(&mut self, link: Link, wishes: Wishes) -> bool
        ensures closed { result ≡ is_peer_closed_at self.new (link_number link) }
        ensures sessions { self.new.sessions ≡ self.old.sessions }
        ensures number { vec_len self.new.listeners ≡ vec_len self.old.listeners }
        ensures own { wishes_in self.new link ≡ option_map (λ (_ : Wishes). wishes) (wishes_in self.old link) }
        ensures others { KeepsOthersIn link self.old self.new }
        ensures reports { KeepsReports self.old self.new }
        ensures grows { Grows self.old self.new }
    {
        let number = number_of(link);
        match self.links.get_mut(&number) {
            Some(socket) => {
                socket.wishes = wishes;
                let is_new = socket.take_place();
                let is_peer_closed = socket.is_peer_closed();
                self.queue(number, is_new);
                is_peer_closed
            }
            None => false,
        }
    }

    /// Whether nothing more passes between the link of a number and its peer. A link that isn't there is closed too.
    fn is_closed(&self, number: u64) -> bool
        ensures { result ≡ is_closed_at self.now number }
    {
        match self.links.get(&number) {
            Some(socket) => socket.is_closed(),
            None => true,
        }
    }

    /// Judges whether the writes of a link whose peer closed are to fail, and queues it if they are.
    fn judge(&mut self, number: u64)
        ensures judged { unwrap_or (given_up_at self.new number) true ≡ is_to_fail_at self.old number }
        ensures same { (other : ℕ) → is_to_fail_at self.new other ≡ is_to_fail_at self.old other }
        ensures reports { KeepsReports self.old self.new }
        ensures goes { GoesOn self.old self.new }
    {
        let is_other_closed = self.is_closed(other_number(number));
        self.judge_by(number, is_other_closed);
    }

    fn judge_by(&mut self, number: u64, is_other_closed: bool)
        ensures judged { given_up_at self.new number ≡ option_map (is_to_fail is_other_closed) (tree.get nat_cmp self.old.links number) }
        ensures closed { (other : ℕ) → is_closed_at self.new other ≡ is_closed_at self.old other }
        ensures to_fail { (other : ℕ) (closed : Bool) → option_map (is_to_fail closed) (tree.get nat_cmp self.new.links other) ≡ option_map (is_to_fail closed) (tree.get nat_cmp self.old.links other) }
        ensures reports { KeepsReports self.old self.new }
        ensures goes { GoesOn self.old self.new }
    {
        if let Some(socket) = self.links.get_mut(&number) {
            socket.judge(is_other_closed);
            let is_new = socket.take_place();
            self.queue(number, is_new);
        }
    }

    /// Puts a number at the queue's end, if its socket took a new place there. Room for that was taken when its socket
    /// was made.
    fn queue(&mut self, number: u64, is_new: bool)
        requires { is_new ≡ true → HasRoomFor 1 self.old }
        ensures queue { self.new.ready.items ≡ (if is_new then self.old.ready.items ++ number ∷ [] else self.old.ready.items) }
        ensures len { deque_len self.new.ready ≡ deque_len self.old.ready + (if is_new then 1 else 0) }
        ensures capacity { deque_capacity self.old.ready ≤ deque_capacity self.new.ready }
        ensures placed { is_new ≡ true → has_place self.new number ≡ true }
        ensures kept { (other : ℕ) → has_place self.old other ≡ true → has_place self.new other ≡ true }
        ensures own { self.new.own ≡ self.old.own }
        ensures waits { self.new.waits ≡ self.old.waits }
        ensures absent { self.new.absent ≡ self.old.absent }
        ensures listeners { self.new.listeners ≡ self.old.listeners }
        ensures links { self.new.links ≡ self.old.links }
        ensures sessions { self.new.sessions ≡ self.old.sessions }
        ensures named { self.new.named ≡ self.old.named }
        ensures pending { self.new.pending ≡ self.old.pending }
    {
        if is_new {
            let _ = self.ready.push_back(number);
        }
    }

    /// Takes the room for one more in the queue, whatever is in it and however many go back to it.
    fn reserve(&mut self) -> Result<(), AllocError>
        ensures room { OnOk result (HasRoomFor 1 self.new) }
        ensures pending { self.new.pending ≡ self.old.pending }
        ensures number { vec_len self.new.listeners ≡ vec_len self.old.listeners }
        ensures unread { StaysUnread self.old self.new }
        ensures goes { GoesOn self.old self.new }
    {
        let most = self.links.len().saturating_add(self.listeners.len());
        self.ready.reserve(most.saturating_add(1))
    }
}
