//! What the system reports of sockets, and what is named for it.
ghost use Rattle.std.specs.Prelude.{◌≡◌, ◌≢◌, ◌≤◌, ◌<◌, ◌%◌, ◌&&◌, ◌⊎◌, ◌++◌, ◌+◌, ◌-◌, ◌^◌, ◌∷◌, min, vec_len, vec_capacity, ℕ, Option, nat_eq, nat_lt, [], true, false, Some, None, IfSome, IfNone, OnErr, drop, take, slice_get};
ghost use Rattle.std.specs.VecDeque.{deque_len};
ghost use Rattle.std.specs.Option.{option_map};
ghost use Rattle.std.specs.Time.{instant_nanos};
ghost use Rattle.std.specs.Duration.{as_nanos};
ghost use Rattle.std.specs.List.{list_all, list_any};
ghost use Rattle.std.specs.Ordering.{nat_cmp};
ghost use Rattle.std.specs.BTreeMap as tree;
ghost use Rattle.link_traits.specs.Numbers.{number_of as link_number};
ghost use Rattle.proxy_net.specs.Delays.{IsWithin, connect_left, nanos_of};
ghost use Rattle.proxy_net.specs.Noting.{is_link_noted, is_listener_noted, reports_number, reports_read};
ghost use Rattle.proxy_net.specs.Naming.{is_link_unmarked, is_listener_unmarked};
ghost use Rattle.proxy_net.specs.Steps.{Steps, AreNoteCalls, IsAttemptOf};
ghost use Rattle.proxy_net.specs.SystemCalls.{Tells, wait, fault_of};
ghost use Rattle.std.specs.IoError.{error_kind};
ghost use Rattle.proxy_net.specs.Sockets.{HasLink, IsTriedTo, is_link_registered};

use super::{LISTENERS, SocketSet};
use crate::delays::delay_until;
use crate::link_sockets::{Attempt, raised};
use crate::reports::Report;
use crate::system::{REPORTS, Sockets};
use link_traits::{Link, Ready, Side};
use std::io;
use std::time::{Duration, Instant};

/// How many times something is named before the system is asked for more.
const NAMED_BETWEEN_ASKS: u32 = 16;

/// The link of a number.
fn link_of(number: u64) -> Link
    requires { number < LISTENERS }
    ensures { link_number result ≡ number }
{
    let side = if number % 2 == 0 {
        Side::Client
    } else {
        Side::Bus
    };
    Link {
        session: (number / 2) as u32,
        side,
    }
}

/// Whether a number is that of a session's bus link.
fn is_bus(number: u64) -> bool
    ensures { result ≡ (nat_lt number LISTENERS && nat_eq (number % 2) 1) }
{
    number < LISTENERS && number % 2 == 1
}

impl<T: Drop, L: Drop> SocketSet<T, L> {
    ghost use Rattle.proxy_net.specs.Sockets.{due_at, is_retried, IsTried, KeepsEarly, is_stalled_at, GoesOn, IsTimeout, IsReadIf, KeepsReports, KeepsStalls, KeepsUnreported, KeepsAccepts, IsWished, is_noted, is_report_noted, is_side_noted, KeepsNotes};

    /// Asks the system what became ready, and waits for it if nothing is to be named yet.
    pub fn ask<S: Sockets<Stream = T, Listener = L>>(
        &mut self,
        system: &mut S,
        reports: &mut Vec<Report>,
    ) -> io::Result<()>
        requires { REPORTS ≤ vec_capacity reports.old }
        ensures named { self.new.named ≡ 0 }
        ensures err { OnErr result (reports.new.items ≡ []) }
        ensures count { vec_len reports.new ≤ REPORTS }
        ensures capacity { vec_capacity reports.new ≡ vec_capacity reports.old }
        ensures reports { KeepsReports self.old self.new }
        ensures listeners { self.new.listeners ≡ self.old.listeners }
        ensures told { (nanos : Option ℕ) × IsTimeout S.shows self.old nanos × Tells (S.journal system.old) (S.journal system.new) (wait reports.new.items nanos (fault_of error_kind result) ∷ []) }
        ensures goes { GoesOn self.old self.new }
    {
        let timeout = self.timeout(system);
        self.named = 0;
        system.wait(reports, timeout)
    }

    /// Notes what the system reported, of clients before what it reported of buses.
    pub fn note_all<S: Sockets<Stream = T, Listener = L>>(
        &mut self,
        system: &mut S,
        reports: &[Report],
    )
        ensures noted { list_all (is_report_noted self.new) reports.now ≡ true }
        ensures tried { ((number : ℕ) → is_retried self.old number ≡ true) → IsTried S.shows self.new }
        ensures early { KeepsEarly S.shows self.old self.new }
        ensures accepts { KeepsAccepts S.shows (λ number. list_any (reports_number number) reports.now) self.old self.new }
        ensures reported { IsReadIf (λ number. list_any (reports_read number) reports.now) self.old self.new }
        ensures kept { KeepsNotes self.old self.new }
        ensures told { ((number : ℕ) → is_link_registered self.old number ≡ true) → Steps (AreNoteCalls (HasLink self.old) (IsTriedTo self.old)) (S.journal system.old) (S.journal system.new) }
        ensures goes { GoesOn self.old self.new }
    {
        self.note_side(system, reports, false);
        self.note_side(system, reports, true);
        self.retry_all(system);
    }

    /// Notes what the system reported of buses, or of all else.
    fn note_side<S: Sockets<Stream = T, Listener = L>>(
        &mut self,
        system: &mut S,
        reports: &[Report],
        of_buses: bool,
    )
        ensures noted { list_all (is_side_noted of_buses self.new) reports.now ≡ true }
        ensures listeners { KeepsUnreported (λ number. list_any (reports_number number) reports.now) self.old self.new }
        ensures reported { IsReadIf (λ number. list_any (reports_read number) reports.now) self.old self.new }
        ensures kept { KeepsNotes self.old self.new }
        ensures dues { (number : ℕ) → due_at self.new number ≡ due_at self.old number }
        ensures told { ((number : ℕ) → is_link_registered self.old number ≡ true) → Steps (AreNoteCalls (HasLink self.old) (IsTriedTo self.old)) (S.journal system.old) (S.journal system.new) }
        ensures goes { GoesOn self.old self.new }
    {
        for report in reports {
            self.note_of_side(system, report, of_buses);
        }
    }

    /// Notes what was reported of a bus, or of all else.
    fn note_of_side<S: Sockets<Stream = T, Listener = L>>(
        &mut self,
        system: &mut S,
        report: &Report,
        of_buses: bool,
    )
        ensures noted { is_side_noted of_buses self.new report.now ≡ true }
        ensures listeners { KeepsUnreported (λ number. reports_number number report.now) self.old self.new }
        ensures reported { IsReadIf (λ number. reports_read number report.now) self.old self.new }
        ensures kept { KeepsNotes self.old self.new }
        ensures dues { (number : ℕ) → due_at self.new number ≡ due_at self.old number }
        ensures told { ((number : ℕ) → is_link_registered self.old number ≡ true) → Steps (AreNoteCalls (HasLink self.old) (IsTriedTo self.old)) (S.journal system.old) (S.journal system.new) }
        ensures goes { GoesOn self.old self.new }
    {
        if is_bus(report.number) == of_buses {
            self.note_report(system, report);
        }
    }

    fn note_report<S: Sockets<Stream = T, Listener = L>>(&mut self, system: &mut S, report: &Report)
        ensures noted { is_report_noted self.new report.now ≡ true }
        ensures listeners { KeepsUnreported (λ number. reports_number number report.now) self.old self.new }
        ensures reported { IsReadIf (λ number. reports_read number report.now) self.old self.new }
        ensures kept { KeepsNotes self.old self.new }
        ensures dues { (number : ℕ) → due_at self.new number ≡ due_at self.old number }
        ensures told { ((number : ℕ) → is_link_registered self.old number ≡ true) → Steps (AreNoteCalls (HasLink self.old) (IsTriedTo self.old)) (S.journal system.old) (S.journal system.new) }
        ensures goes { GoesOn self.old self.new }
    {
        let Report {
            number,
            readable,
            writable,
            ending,
            ..
        } = *report;
        self.note(system, number, readable, writable, ending);
    }

    /// Notes that a listener has a client, or what a link is ready for.
    fn note<S: Sockets<Stream = T, Listener = L>>(
        &mut self,
        system: &mut S,
        number: u64,
        readable: bool,
        writable: bool,
        ending: bool,
    )
        ensures noted { is_noted self.new number readable writable ending ≡ true }
        ensures listeners { KeepsUnreported (nat_eq number) self.old self.new }
        ensures reported { IsReadIf (λ other. nat_eq number other && readable) self.old self.new }
        ensures kept { KeepsNotes self.old self.new }
        ensures dues { (other : ℕ) → due_at self.new other ≡ due_at self.old other }
        ensures told { ((number : ℕ) → is_link_registered self.old number ≡ true) → Steps (AreNoteCalls (HasLink self.old) (IsTriedTo self.old)) (S.journal system.old) (S.journal system.new) }
        ensures goes { GoesOn self.old self.new }
    {
        if number >= LISTENERS {
            self.note_listener(number);
        } else {
            self.note_link(system, number, readable, writable, ending);
        }
    }

    fn note_link<S: Sockets<Stream = T, Listener = L>>(
        &mut self,
        system: &mut S,
        number: u64,
        readable: bool,
        writable: bool,
        ending: bool,
    )
        ensures noted { is_link_noted readable writable ending (tree.get nat_cmp self.new.links number) ≡ true }
        ensures listeners { self.new.listeners ≡ self.old.listeners }
        ensures reported { IsReadIf (λ other. nat_eq number other && readable) self.old self.new }
        ensures kept { KeepsNotes self.old self.new }
        ensures dues { (other : ℕ) → due_at self.new other ≡ due_at self.old other }
        ensures told { ((number : ℕ) → is_link_registered self.old number ≡ true) → Steps (AreNoteCalls (HasLink self.old) (IsTriedTo self.old)) (S.journal system.old) (S.journal system.new) }
        ensures goes { GoesOn self.old self.new }
    {
        if let Some(socket) = self.links.get_mut(&number) {
            socket.note(system, readable, writable, ending);
            let is_new = socket.take_place();
            self.queue(number, is_new);
        }
    }

    fn note_listener(&mut self, number: u64)
        requires { LISTENERS ≤ number }
        ensures noted { is_listener_noted (slice_get self.new.listeners.items (number - LISTENERS)) ≡ true }
        ensures others { KeepsUnreported (nat_eq number) self.old self.new }
        ensures links { self.new.links ≡ self.old.links }
        ensures kept { KeepsNotes self.old self.new }
        ensures goes { GoesOn self.old self.new }
    {
        let place = (number - LISTENERS) as usize;
        if let Some(socket) = self.listeners.get_mut(place) {
            let is_new = socket.note();
            self.queue(number, is_new);
        }
    }

    /// Names the listener at a place again, if it is stalled.
    pub(super) fn revive(&mut self, place: usize)
        requires { place < 2 ^ 63 }
        ensures revived { is_stalled_at self.new place ≡ false }
        ensures others { (other : ℕ) → is_stalled_at self.old other ≡ false → is_stalled_at self.new other ≡ false }
        ensures number { vec_len self.new.listeners ≡ vec_len self.old.listeners }
        ensures links { self.new.links ≡ self.old.links }
        ensures goes { GoesOn self.old self.new }
    {
        if let Some(socket) = self.listeners.get_mut(place) {
            let is_new = socket.revive();
            self.queue(LISTENERS + place as u64, is_new);
        }
    }

    /// The next that is to be named, unless there is none or the system is to be asked first.
    pub fn next(&mut self) -> Option<Ready>
        ensures ask { NAMED_BETWEEN_ASKS ≤ self.old.named → result ≡ None }
        ensures none { IfNone result (self.old.named < NAMED_BETWEEN_ASKS → deque_len self.new.ready ≡ 0) }
        ensures counted { IfSome result (λ _. self.new.named ≡ self.old.named + 1) }
        ensures uncounted { IfNone result (self.new.named ≡ self.old.named) }
        ensures wished { IfSome result (IsWished self.old self.new) }
        ensures reports { KeepsReports self.old self.new }
        ensures stalls { KeepsStalls self.old self.new }
        ensures goes { GoesOn self.old self.new }
    {
        if self.named >= NAMED_BETWEEN_ASKS {
            return None;
        }
        while !self.ready.is_empty() {
            if let Some(ready) = self.name_first() {
                return Some(ready);
            }
        }
        None
    }

    /// What the first number of the queue names. It goes to the queue's end, or leaves the queue if it isn't to be
    /// named.
    fn name_first(&mut self) -> Option<Ready>
        requires { 0 < deque_len self.old.ready }
        ensures named { IfSome result (λ _. self.new.ready.items ≡ drop 1 self.old.ready.items ++ take 1 self.old.ready.items) }
        ensures left { IfNone result (deque_len self.new.ready < deque_len self.old.ready) }
        ensures counted { IfSome result (λ _. self.new.named ≡ min (self.old.named + 1) (2 ^ 32 - 1)) }
        ensures uncounted { IfNone result (self.new.named ≡ self.old.named) }
        ensures wished { IfSome result (IsWished self.old self.new) }
        ensures reports { KeepsReports self.old self.new }
        ensures stalls { KeepsStalls self.old self.new }
        ensures goes { GoesOn self.old self.new }
    {
        let Some(&number) = self.ready.front() else {
            unreachable!();
        };
        if number >= LISTENERS {
            self.name_listener(number)
        } else {
            self.name_link(number)
        }
    }

    /// What the link of the queue's first number names.
    fn name_link(&mut self, number: u64) -> Option<Ready>
        requires of_link { number < LISTENERS }
        requires first { slice_get self.old.ready.items 0 ≡ Some number }
        ensures named { IfSome result (λ _. self.new.ready.items ≡ drop 1 self.old.ready.items ++ take 1 self.old.ready.items) }
        ensures left { IfNone result (deque_len self.new.ready < deque_len self.old.ready) }
        ensures counted { IfSome result (λ _. self.new.named ≡ min (self.old.named + 1) (2 ^ 32 - 1)) }
        ensures uncounted { IfNone result (self.new.named ≡ self.old.named) }
        ensures wished { IfSome result (IsWished self.old self.new) }
        ensures reports { KeepsReports self.old self.new }
        ensures stalls { KeepsStalls self.old self.new }
        ensures goes { GoesOn self.old self.new }
    {
        let Some(socket) = self.links.get_mut(&number) else {
            let _ = self.ready.pop_front();
            return None;
        };
        if socket.is_nameable() {
            self.named = self.named.saturating_add(1);
            self.ready.rotate_left(1);
            return Some(Ready::Link(link_of(number)));
        }
        socket.leave_place();
        let _ = self.ready.pop_front();
        None
    }

    /// What the listener of the queue's first number names.
    fn name_listener(&mut self, number: u64) -> Option<Ready>
        requires of_listener { LISTENERS ≤ number }
        requires first { slice_get self.old.ready.items 0 ≡ Some number }
        ensures named { IfSome result (λ _. self.new.ready.items ≡ drop 1 self.old.ready.items ++ take 1 self.old.ready.items) }
        ensures left { IfNone result (deque_len self.new.ready < deque_len self.old.ready) }
        ensures counted { IfSome result (λ _. self.new.named ≡ min (self.old.named + 1) (2 ^ 32 - 1)) }
        ensures uncounted { IfNone result (self.new.named ≡ self.old.named) }
        ensures wished { IfSome result (IsWished self.old self.new) }
        ensures reports { KeepsReports self.old self.new }
        ensures stalls { KeepsStalls self.old self.new }
        ensures goes { GoesOn self.old self.new }
    {
        let place = number - LISTENERS;
        let Ok(listener) = u32::try_from(place) else {
            let _ = self.ready.pop_front();
            return None;
        };
        let Some(socket) = self.listeners.get_mut(place as usize) else {
            let _ = self.ready.pop_front();
            return None;
        };
        if socket.keeps_place() {
            self.named = self.named.saturating_add(1);
            self.ready.rotate_left(1);
            return Some(Ready::Listener(listener));
        }
        let _ = self.ready.pop_front();
        None
    }
}

impl<T: Drop, L: Drop> SocketSet<T, L> {
    ghost use Rattle.proxy_net.specs.Sockets.{GoesOn, IsReadIf, KeepsNotes, IsTried, KeepsEarly, KeepsAccepts, is_retried, is_overdue_at, due_at, IsDelay, IsIdleTimeout, IsFirstDue, IsFirstLeft, is_pending_at, accept_left_at, is_stalled_at, is_accept_due_at};
    ghost use Rattle.std.specs.declared.time.Duration.{Duration};

    /// How long the system is waited for: not at all if something is to be named, and otherwise until the next try to
    /// connect or to accept.
    fn timeout<S: Sockets>(&self, system: &S) -> Option<Duration>
        ensures busy { self.now.ready.items ≢ [] → option_map (λ (d : Duration). as_nanos d) result ≡ Some 0 }
        ensures idle { result ≡ None → self.now.ready.items ≡ [] }
        ensures waits { result ≡ None → IsFirstDue self.now self.now.pending.items None }
        ensures none_stalled { result ≡ None → (place : ℕ) → is_stalled_at self.now place ≡ false }
        ensures until { self.now.ready.items ≡ [] → IsIdleTimeout S.shows self.now (nanos_of result) }
    {
        if !self.ready.is_empty() {
            return Some(Duration::ZERO);
        }
        let due = self.next_due();
        if due.is_none() && !self.has_stalled() {
            return None;
        }
        self.delay(due, system.now())
    }

    /// How long it is until the connect that is due then, or the first accept that failed, is tried again, whichever is
    /// earlier. `None` if there is neither.
    fn delay(&self, due: Option<Instant>, now: Option<Instant>) -> Option<Duration>
        ensures delay { (nanos : ℕ) → nanos_of result ≡ Some nanos → IsDelay self.now due now nanos }
        ensures none { result ≡ None → due ≡ None }
        ensures none_stalled { result ≡ None → (place : ℕ) → is_stalled_at self.now place ≡ false }
    {
        shorter(connect_delay(due, now), self.accept_delay(now))
    }

    /// How long it is until the first accept that failed is tried again, if there is one.
    fn accept_delay(&self, now: Option<Instant>) -> Option<Duration>
        ensures { IsFirstLeft self.now now (vec_len self.now.listeners) (nanos_of result) }
    {
        let mut first = None;
        for place in 0..self.listeners.len() {
            first = shorter(first, self.accept_left(place, now));
        }
        first
    }

    /// How long it is until the accept of the listener at a place is tried again, if it failed.
    fn accept_left(&self, place: usize, now: Option<Instant>) -> Option<Duration>
        requires { place < 2 ^ 63 }
        ensures { nanos_of result ≡ accept_left_at self.now now place }
    {
        match self.listeners.get(place) {
            Some(socket) => socket.delay_left(now),
            None => None,
        }
    }

    /// Whether an accept that failed is to be tried again.
    fn has_stalled(&self) -> bool
        ensures { result ≡ false → (place : ℕ) → is_stalled_at self.now place ≡ false }
    {
        for place in 0..self.listeners.len() {
            if self.is_stalled(place) {
                return true;
            }
        }
        false
    }

    fn is_stalled(&self, place: usize) -> bool
        requires { place < 2 ^ 63 }
        ensures { result ≡ is_stalled_at self.now place }
    {
        match self.listeners.get(place) {
            Some(socket) => socket.is_stalled(),
            None => false,
        }
    }

    /// When the next try to connect a link is due, if there is one.
    fn due(&self, number: u64) -> Option<Instant>
        ensures { result ≡ due_at self.now number }
    {
        match self.links.get(&number) {
            Some(socket) => socket.due(),
            None => None,
        }
    }

    /// When the next try to connect is due, if there is one.
    fn next_due(&self) -> Option<Instant>
        ensures { IsFirstDue self.now self.now.pending.items result }
    {
        let mut next = None;
        for number in &self.pending {
            if let Some(due) = self.due(*number) {
                next = Some(earlier(next, due));
            }
        }
        next
    }

    /// Tries again what the system refused for a time, as far as it is time to.
    fn retry_all<S: Sockets<Stream = T, Listener = L>>(&mut self, system: &mut S)
        ensures tried { ((number : ℕ) → is_retried self.old number ≡ true) → IsTried S.shows self.new }
        ensures early { KeepsEarly S.shows self.old self.new }
        ensures accepts { KeepsAccepts S.shows (λ _. false) self.old self.new }
        ensures reported { IsReadIf (λ _. false) self.old self.new }
        ensures kept { KeepsNotes self.old self.new }
        ensures told { ((number : ℕ) → is_link_registered self.old number ≡ true) → Steps (AreNoteCalls (HasLink self.old) (IsTriedTo self.old)) (S.journal system.old) (S.journal system.new) }
        ensures goes { GoesOn self.old self.new }
    {
        if self.pending.is_empty() && !self.has_stalled() {
            return;
        }
        let now = system.now();
        self.retry_accepts(now);
        self.retry_connects(system, now);
    }

    /// Names the stalled listeners again whose delay is over.
    fn retry_accepts(&mut self, now: Option<Instant>)
        ensures retried { (place : ℕ) → is_accept_due_at self.new now place ≡ false }
        ensures others { (place : ℕ) → is_accept_due_at self.old now place ≡ false → slice_get self.new.listeners.items place ≡ slice_get self.old.listeners.items place }
        ensures links { self.new.links ≡ self.old.links }
        ensures kept { KeepsNotes self.old self.new }
        ensures goes { GoesOn self.old self.new }
    {
        for place in 0..self.listeners.len() {
            self.retry_accept(place, now);
        }
    }

    fn retry_accept(&mut self, place: usize, now: Option<Instant>)
        requires { place < 2 ^ 63 }
        ensures retried { is_accept_due_at self.new now place ≡ false }
        ensures others { (other : ℕ) → is_accept_due_at self.old now other ≡ false → slice_get self.new.listeners.items other ≡ slice_get self.old.listeners.items other }
        ensures number { vec_len self.new.listeners ≡ vec_len self.old.listeners }
        ensures links { self.new.links ≡ self.old.links }
        ensures kept { KeepsNotes self.old self.new }
        ensures goes { GoesOn self.old self.new }
    {
        if let Some(socket) = self.listeners.get_mut(place) {
            let is_new = socket.retry(now);
            self.queue(LISTENERS + place as u64, is_new);
        }
    }

    /// Tries again to connect the links that aren't connected yet.
    fn retry_connects<S: Sockets<Stream = T, Listener = L>>(
        &mut self,
        system: &mut S,
        now: Option<Instant>,
    )
        ensures tried { (number : ℕ) → is_retried self.old number ≡ true → is_overdue_at self.new now number ≡ false }
        ensures listeners { self.new.listeners ≡ self.old.listeners }
        ensures early { (number : ℕ) (time due : Instant) → now ≡ Some time → due_at self.old number ≡ Some due → instant_nanos time < instant_nanos due → due_at self.new number ≡ Some due }
        ensures reported { IsReadIf (λ _. false) self.old self.new }
        ensures kept { KeepsNotes self.old self.new }
        ensures told { ((number : ℕ) → is_link_registered self.old number ≡ true) → Steps (AreNoteCalls (HasLink self.old) (IsTriedTo self.old)) (S.journal system.old) (S.journal system.new) }
        ensures goes { GoesOn self.old self.new }
    {
        for _tries in 0..self.pending.len() {
            self.retry_first(system, now);
        }
    }

    /// Tries the first of these again. It goes to their end, unless nothing is to be tried any more.
    fn retry_first<S: Sockets<Stream = T, Listener = L>>(
        &mut self,
        system: &mut S,
        now: Option<Instant>,
    )
        ensures listeners { self.new.listeners ≡ self.old.listeners }
        ensures first { (number : ℕ) → slice_get self.old.pending.items 0 ≡ Some number → is_overdue_at self.new now number ≡ false }
        ensures others { (other : ℕ) → is_overdue_at self.old now other ≡ false → is_overdue_at self.new now other ≡ false }
        ensures early { (number : ℕ) (time due : Instant) → now ≡ Some time → due_at self.old number ≡ Some due → instant_nanos time < instant_nanos due → due_at self.new number ≡ Some due }
        ensures queue { (self.new.pending.items ≡ drop 1 self.old.pending.items ++ take 1 self.old.pending.items) ⊎ (self.new.pending.items ≡ drop 1 self.old.pending.items) }
        ensures reported { IsReadIf (λ _. false) self.old self.new }
        ensures kept { KeepsNotes self.old self.new }
        ensures told { ((number : ℕ) → is_link_registered self.old number ≡ true) → Steps (AreNoteCalls (HasLink self.old) (IsTriedTo self.old)) (S.journal system.old) (S.journal system.new) }
        ensures goes { GoesOn self.old self.new }
    {
        let Some(&number) = self.pending.front() else {
            return;
        };
        match self.attempt(system, number, now) {
            Attempt::NotDue => self.pending.rotate_left(1),
            Attempt::WouldBlock => {
                self.waits = raised(self.waits);
                self.pending.rotate_left(1);
            }
            Attempt::Done => {
                let _ = self.pending.pop_front();
            }
        }
    }

    /// Tries again to connect a link. If it isn't there any more, nothing is to be tried.
    fn attempt<S: Sockets<Stream = T, Listener = L>>(
        &mut self,
        system: &mut S,
        number: u64,
        now: Option<Instant>,
    ) -> Attempt
        ensures pending { self.new.pending ≡ self.old.pending }
        ensures listeners { self.new.listeners ≡ self.old.listeners }
        ensures done { result ≡ Attempt.Done → is_pending_at self.new number ≡ false }
        ensures late { (time due : Instant) → now ≡ Some time → due_at self.old number ≡ Some due → instant_nanos due ≤ instant_nanos time → result ≢ Attempt.NotDue }
        ensures early { (time due : Instant) → now ≡ Some time → due_at self.old number ≡ Some due → instant_nanos time < instant_nanos due → (result ≡ Attempt.NotDue) × (due_at self.new number ≡ Some due) }
        ensures tried { is_overdue_at self.new now number ≡ false }
        ensures made { Steps (IsAttemptOf (tree.get nat_cmp self.old.links number) now (tree.get nat_cmp self.new.links number)) (S.journal system.old) (S.journal system.new) }
        ensures others { (other : ℕ) → nat_eq number other ≡ false → due_at self.new other ≡ due_at self.old other }
        ensures reported { IsReadIf (λ _. false) self.old self.new }
        ensures kept { KeepsNotes self.old self.new }
        ensures told { ((number : ℕ) → is_link_registered self.old number ≡ true) → Steps (AreNoteCalls (HasLink self.old) (IsTriedTo self.old)) (S.journal system.old) (S.journal system.new) }
        ensures goes { GoesOn self.old self.new }
    {
        match self.links.get_mut(&number) {
            Some(socket) => {
                let attempt = socket.attempt(system, now);
                let is_new = socket.take_place();
                self.queue(number, is_new);
                attempt
            }
            None => Attempt::Done,
        }
    }
}

/// How long it is until the connect that is due then is tried again, if one is.
fn connect_delay(due: Option<Instant>, now: Option<Instant>) -> Option<Duration>
    ensures { nanos_of result ≡ connect_left due now }
{
    match due {
        Some(time) => Some(delay_until(time, now)),
        None => None,
    }
}

/// The shorter of two times, of which each may be missing.
fn shorter(one: Option<Duration>, other: Option<Duration>) -> Option<Duration>
    ensures one { (nanos : ℕ) → nanos_of one ≡ Some nanos → IsWithin nanos (nanos_of result) }
    ensures other { (nanos : ℕ) → nanos_of other ≡ Some nanos → IsWithin nanos (nanos_of result) }
    ensures either { (result ≡ one) ⊎ (result ≡ other) }
{
    match (one, other) {
        (Some(first), Some(second)) if first < second => one,
        (_, Some(_)) => other,
        (_, None) => one,
    }
}

/// The earlier of two times.
fn earlier(time: Option<Instant>, other: Instant) -> Instant
    ensures time { IfSome time (λ t. instant_nanos result ≤ instant_nanos t) }
    ensures other { instant_nanos result ≤ instant_nanos other }
    ensures one { (result ≡ other) ⊎ (time ≡ Some result) }
{
    match time {
        Some(time) if time < other => time,
        _ => other,
    }
}
