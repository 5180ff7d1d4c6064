//! What is done with links that stand: their wishes, reads, writes and ends.
ghost use Rattle.std.specs.Prelude.{◌≡◌, ◌≤◌, ◌<◌, ◌&&◌, ℕ, None, length, false, true, unwrap_or, vec_len};
ghost use Rattle.std.specs.Option.{option_map};
ghost use Rattle.link_traits.specs.Numbers.{number_of as link_number};
ghost use Rattle.proxy_net.specs.Naming.{other_of};
ghost use Rattle.proxy_net.specs.Steps.{Steps, IsRead, IsWrite, IsLinkWrite, IsAsked, IsShut};

use super::{SocketSet, other_number};
use crate::link_sockets::{LinkWrite, raised};
use crate::system::Sockets;
use link_traits::tables::number_of;
use link_traits::{Count, Got, Link, Took, Wishes};

impl<T: Drop, L: Drop> SocketSet<T, L> {
    ghost use Rattle.proxy_net.specs.Sockets.{is_stalled_at, is_peer_closed_at, is_readable_at, may_have_more_at, StaysUnread, StaysClosed, KeepsReports, IsJudgedAt, wishes_in, is_pending_in, given_up_at, is_closed_at, is_to_fail_at, is_link_registered, is_open_at, RoseIn, Grows, GoesOn, KeepsOthersIn};
    ghost use Rattle.link_traits.specs.declared.links.Wishes.{Wishes};

    /// Replaces the wishes of a link.
    pub fn want(&mut self, link: Link, wishes: Wishes)
        ensures judged { is_peer_closed_at self.new (link_number link) ≡ true → IsJudgedAt self.new (link_number link) }
        ensures own { wishes_in self.new link ≡ option_map (λ (_ : Wishes). wishes) (wishes_in self.old link) }
        ensures sessions { self.new.sessions ≡ self.old.sessions }
        ensures number { vec_len self.new.listeners ≡ vec_len self.old.listeners }
        ensures others { KeepsOthersIn link self.old self.new }
        ensures reports { KeepsReports self.old self.new }
        ensures grows { Grows self.old self.new }
    {
        if self.set_wishes(link, wishes) {
            self.judge(number_of(link));
        }
    }

    /// Reads once.
    pub fn read<S: Sockets<Stream = T, Listener = L>>(
        &mut self,
        system: &mut S,
        link: Link,
        into: &mut [u8],
    ) -> Got
        ensures within { (n : ℕ) → result ≡ Got.Bytes n → n ≤ length into.new }
        ensures progress { (n : ℕ) → result ≡ Got.Bytes n → 0 < length into.new → 0 < n }
        ensures missing { wishes_in self.old link ≡ None → result ≡ Got.Failed }
        ensures pending { is_pending_in self.old link ≡ true → result ≡ Got.NotReady }
        ensures failed { result ≡ Got.Failed → RoseIn (Count.Link link) self.old self.new }
        ensures not_ready { result ≡ Got.NotReady → RoseIn Count.Waits self.old self.new }
        ensures finished { result ≡ Got.Finished → is_closed_at self.new (link_number link) ≡ true }
        ensures waits { result ≡ Got.NotReady → is_readable_at self.new (link_number link) ≡ false }
        ensures left { (n : ℕ) → result ≡ Got.Bytes n → is_readable_at self.new (link_number link) ≡ (is_readable_at self.old (link_number link) && may_have_more_at self.old (link_number link) n (length into.new)) }
        ensures unread { StaysUnread self.old self.new }
        ensures closed { StaysClosed self.old self.new }
        ensures told { is_link_registered self.old (link_number link) ≡ true → Steps (IsRead (is_open_at self.old (link_number link)) (link_number link) into.new result) (S.journal system.old) (S.journal system.new) }
        ensures without { is_open_at self.old (link_number link) ≡ false → is_pending_in self.old link ≡ false → result ≡ Got.Failed }
        ensures goes { GoesOn self.old self.new }
    {
        let got = self.read_link(system, link, into);
        if got == Got::NotReady {
            self.waits = raised(self.waits);
        }
        got
    }

    /// Reads once, and counts no wait.
    fn read_link<S: Sockets<Stream = T, Listener = L>>(
        &mut self,
        system: &mut S,
        link: Link,
        into: &mut [u8],
    ) -> Got
        ensures within { (n : ℕ) → result ≡ Got.Bytes n → n ≤ length into.new }
        ensures progress { (n : ℕ) → result ≡ Got.Bytes n → 0 < length into.new → 0 < n }
        ensures missing { wishes_in self.old link ≡ None → result ≡ Got.Failed }
        ensures pending { is_pending_in self.old link ≡ true → result ≡ Got.NotReady }
        ensures failed { result ≡ Got.Failed → RoseIn (Count.Link link) self.old self.new }
        ensures finished { result ≡ Got.Finished → is_closed_at self.new (link_number link) ≡ true }
        ensures waits { result ≡ Got.NotReady → is_readable_at self.new (link_number link) ≡ false }
        ensures left { (n : ℕ) → result ≡ Got.Bytes n → is_readable_at self.new (link_number link) ≡ (is_readable_at self.old (link_number link) && may_have_more_at self.old (link_number link) n (length into.new)) }
        ensures unread { StaysUnread self.old self.new }
        ensures closed { StaysClosed self.old self.new }
        ensures uncounted { self.new.waits ≡ self.old.waits }
        ensures told { is_link_registered self.old (link_number link) ≡ true → Steps (IsRead (is_open_at self.old (link_number link)) (link_number link) into.new result) (S.journal system.old) (S.journal system.new) }
        ensures without { is_open_at self.old (link_number link) ≡ false → is_pending_in self.old link ≡ false → result ≡ Got.Failed }
        ensures goes { GoesOn self.old self.new }
    {
        let number = number_of(link);
        match self.links.get_mut(&number) {
            Some(socket) => {
                let got = socket.read(system, into);
                let is_new = socket.take_place();
                self.queue(number, is_new);
                got
            }
            None => {
                self.absent = raised(self.absent);
                Got::Failed
            }
        }
    }

    /// Writes once.
    pub fn write<S: Sockets<Stream = T, Listener = L>>(
        &mut self,
        system: &mut S,
        link: Link,
        piece: &[u8],
    ) -> Took
        ensures within { (n : ℕ) → result ≡ Took.Bytes n → n ≤ length piece.now }
        ensures progress { (n : ℕ) → result ≡ Took.Bytes n → 0 < length piece.now → 0 < n }
        ensures missing { wishes_in self.old link ≡ None → result ≡ Took.Failed }
        ensures pending { is_pending_in self.old link ≡ true → result ≡ Took.NotReady }
        ensures failed { result ≡ Took.Failed → RoseIn (Count.Link link) self.old self.new }
        ensures not_ready { result ≡ Took.NotReady → RoseIn Count.Waits self.old self.new }
        ensures unread { is_peer_closed_at self.new (link_number link) ≡ is_peer_closed_at self.old (link_number link) → StaysUnread self.old self.new }
        ensures closed { StaysClosed self.old self.new }
        ensures told { is_link_registered self.old (link_number link) ≡ true → Steps (IsWrite (link_number link) piece.now result) (S.journal system.old) (S.journal system.new) }
        ensures asked { is_link_registered self.old (link_number link) ≡ true → is_open_at self.old (link_number link) ≡ true → Steps IsAsked (S.journal system.old) (S.journal system.new) }
        ensures without { is_open_at self.old (link_number link) ≡ false → is_pending_in self.old link ≡ false → result ≡ Took.Failed }
        ensures goes { GoesOn self.old self.new }
    {
        match self.write_link(system, link, piece) {
            LinkWrite::Bytes(n) => Took::Bytes(n),
            LinkWrite::NotReady => {
                self.waits = raised(self.waits);
                Took::NotReady
            }
            LinkWrite::PeerClosed => self.answer_closed(number_of(link)),
            LinkWrite::Failed => Took::Failed,
        }
    }

    /// Writes once, and counts no wait.
    fn write_link<S: Sockets<Stream = T, Listener = L>>(
        &mut self,
        system: &mut S,
        link: Link,
        piece: &[u8],
    ) -> LinkWrite
        ensures within { (n : ℕ) → result ≡ LinkWrite.Bytes n → n ≤ length piece.now }
        ensures progress { (n : ℕ) → result ≡ LinkWrite.Bytes n → 0 < length piece.now → 0 < n }
        ensures missing { wishes_in self.old link ≡ None → result ≡ LinkWrite.Failed }
        ensures pending { is_pending_in self.old link ≡ true → result ≡ LinkWrite.NotReady }
        ensures failed { result ≡ LinkWrite.Failed → RoseIn (Count.Link link) self.old self.new }
        ensures closed { result ≡ LinkWrite.PeerClosed → RoseIn (Count.Link link) self.old self.new }
        ensures unread { is_peer_closed_at self.new (link_number link) ≡ is_peer_closed_at self.old (link_number link) → StaysUnread self.old self.new }
        ensures peers { StaysClosed self.old self.new }
        ensures waits { self.new.waits ≡ self.old.waits }
        ensures told { is_link_registered self.old (link_number link) ≡ true → Steps (IsLinkWrite (link_number link) piece.now result) (S.journal system.old) (S.journal system.new) }
        ensures asked { is_link_registered self.old (link_number link) ≡ true → is_open_at self.old (link_number link) ≡ true → Steps IsAsked (S.journal system.old) (S.journal system.new) }
        ensures without { is_open_at self.old (link_number link) ≡ false → is_pending_in self.old link ≡ false → result ≡ LinkWrite.Failed }
        ensures goes { GoesOn self.old self.new }
    {
        let number = number_of(link);
        match self.links.get_mut(&number) {
            Some(socket) => {
                let wrote = socket.write(system, piece);
                let is_new = socket.take_place();
                self.queue(number, is_new);
                wrote
            }
            None => {
                self.absent = raised(self.absent);
                LinkWrite::Failed
            }
        }
    }

    /// Answers a write that was refused since the peer closed. It isn't ready as long as there may be something to
    /// read.
    fn answer_closed(&mut self, number: u64) -> Took
        ensures bytes { (n : ℕ) → result ≡ Took.Bytes n → ⊥ }
        ensures failed { result ≡ Took.Failed → is_to_fail_at self.old number ≡ true }
        ensures waits { result ≡ Took.NotReady → is_to_fail_at self.old number ≡ false }
        ensures not_ready { result ≡ Took.NotReady → RoseIn Count.Waits self.old self.new }
        ensures reports { KeepsReports self.old self.new }
        ensures goes { GoesOn self.old self.new }
    {
        self.judge_both(number);
        if self.is_given_up(number) {
            return Took::Failed;
        }
        self.waits = raised(self.waits);
        Took::NotReady
    }

    /// Whether writes of a link fail by now.
    fn is_given_up(&self, number: u64) -> bool
        ensures { result ≡ unwrap_or (given_up_at self.now number) true }
    {
        match self.links.get(&number) {
            Some(socket) => socket.is_given_up(),
            None => true,
        }
    }

    fn judge_both(&mut self, number: u64)
        ensures judged { unwrap_or (given_up_at self.new number) true ≡ is_to_fail_at self.old number }
        ensures reports { KeepsReports self.old self.new }
        ensures goes { GoesOn self.old self.new }
    {
        self.judge(other_number(number));
        self.judge(number);
    }

    /// Closes a link and forgets it. One that isn't there stays so.
    pub fn shut<S: Sockets<Stream = T, Listener = L>>(&mut self, system: &mut S, link: Link)
        ensures told { is_link_registered self.old (link_number link) ≡ true → Steps (IsShut (is_open_at self.old (link_number link)) (link_number link)) (S.journal system.old) (S.journal system.new) }
        ensures judged { IsJudgedAt self.new (other_of (link_number link)) }
        ensures revived { (listener : ℕ) → is_stalled_at self.new listener ≡ false }
        ensures gone { wishes_in self.new link ≡ None }
        ensures sessions { self.new.sessions ≡ self.old.sessions }
        ensures number { vec_len self.new.listeners ≡ vec_len self.old.listeners }
        ensures others { KeepsOthersIn link self.old self.new }
        ensures unread { StaysUnread self.old self.new }
        ensures grows { Grows self.old self.new }
    {
        self.remove_link(system, link);
        self.settle(number_of(link));
    }

    /// Has the other link of a session and the stalled listeners go on without a link that was shut.
    fn settle(&mut self, number: u64)
        ensures judged { IsJudgedAt self.new (other_of number) }
        ensures revived { (listener : ℕ) → is_stalled_at self.new listener ≡ false }
        ensures unread { StaysUnread self.old self.new }
        ensures goes { GoesOn self.old self.new }
    {
        self.judge(other_number(number));
        self.revive_all();
    }

    /// Names the stalled listeners again.
    fn revive_all(&mut self)
        ensures revived { (listener : ℕ) → is_stalled_at self.new listener ≡ false }
        ensures links { self.new.links ≡ self.old.links }
        ensures goes { GoesOn self.old self.new }
    {
        for place in 0..self.listeners.len() {
            self.revive(place);
        }
    }
}
