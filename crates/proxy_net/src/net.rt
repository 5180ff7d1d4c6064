//! A net over Unix sockets.
ghost use Rattle.std.specs.Prelude.{◌≡◌, ◌≤◌, IfOk, IfSome, vec_capacity, vec_len};
ghost use Rattle.proxy_net.specs.Starters.{is_gone, is_present};
ghost use Rattle.proxy_net.specs.Sockets.{IsConsistent, AreBound};
ghost use Rattle.proxy_net.specs.Answers.{IsCounted};
ghost use Rattle.proxy_net.specs.declared.system.TheConstants.{REPORTS};

use crate::answers::Answer;
use crate::reports::Report;
use crate::sockets::SocketSet;
use crate::starters::Starter;
use crate::system::{REPORTS, Sockets, SystemSockets};
use link_traits::{Accepted, Count, Got, Link, Net, NetFault, Ready, Setting, Took, Wishes};
use std::alloc::{AllocError, Global};
use std::io;

/// A net over Unix sockets. It keeps its journal in that of its system: it notes each of its answers there.
///
/// It names a link only for a wish that is true. A link or listener that is ready is named again and again, in turn
/// with the others, until it answered that it would wait. A link that answered so to a read isn't named for reading
/// again until the system reports something new of it, but for once when a write finds that its peer closed. A listener
/// of which nothing is accepted when it is named isn't named again until something is accepted of it or another client
/// comes. One whose accept failed is named again after 1 millisecond, and after twice as long each time that the accept
/// fails again, up to 32 milliseconds.
///
/// Nothing that a client wrote before it closed is lost: a write to it isn't ready until what it wrote was read to its
/// end, and then fails. Each such write counts as one that would have waited and as a fault of its link. If the link
/// isn't wished to be read any more, it fails too as soon as the other link of its session is shut or closed.
///
/// A connect to a bus that has no room for one more succeeds, and is tried again while the net waits, for five seconds.
/// Until then reads and writes of that link aren't ready, and afterwards they fail.
///
/// A starter gets its byte when the net waits for the first time. Once it is gone, waits are quiet.
pub struct MioNet<S: Sockets + Drop> {
    alloc: Global,
    system: S,
    sockets: SocketSet<S::Stream, S::Listener>,
    reports: Vec<Report>,
    // Whether a listen removes a socket or an empty regular file at its path.
    replaces: bool,
    starter: Starter,
    ghost consistent: { IsConsistent sockets },
    ghost room: { REPORTS ≤ vec_capacity reports },
    ghost counted: { IsCounted (S.journal system) (vec_len sockets.listeners) sockets.sessions },
    ghost bound: { AreBound (S.journal system) sockets },
}

// Its drop is a call, so that a function that drops one is short to prove.
impl<S: Sockets + Drop> Drop for MioNet<S> {
    fn drop(self) {
        let MioNet {
            alloc: _alloc,
            system: _system,
            sockets: _sockets,
            reports: _reports,
            replaces: _replaces,
            starter: _starter,
        } = self;
    }
}

/// What came of naming, or of asking the system once.
enum Turn {
    /// This is named.
    Named(Ready),
    /// The starter is gone.
    Ended,
    /// The system failed.
    Failed,
    /// Nothing is to be named yet.
    Again,
}

impl<'a> MioNet<SystemSockets<'a>> {
    ghost use Rattle.std.specs.Prelude.{None, false};
    ghost use Rattle.proxy_net.specs.Sockets.{shown, IsUnused};

    /// A net over the sockets of the system, without listeners and links.
    pub fn new(rt: &'a HostRuntime) -> io::Result<MioNet<SystemSockets<'a>>>
        ensures unused { IfOk result (λ net. IsUnused (shown net.sockets None net.starter)) }
        ensures setting { IfOk result (λ net. (net.replaces ≡ false) × (is_present net.starter ≡ false)) }
    {
        Ok(MioNet::over(rt.alloc(), SystemSockets::new(rt)?)?)
    }
}

impl<S: Sockets + Drop> MioNet<S> {
    ghost use Rattle.std.specs.Prelude.{ℕ, ◌<◌, ◌+◌, false, true, ◌≢◌, ◌↔◌, IsErrOf, OnErr, OnOk};
    ghost use Rattle.std.specs.List.{list_any};
    ghost use Rattle.proxy_net.specs.Answers.{IsUnanswered};
    ghost use Rattle.proxy_net.specs.Noting.{reports_number};
    ghost use Rattle.proxy_net.specs.declared.sockets.naming.TheConstants.{NAMED_BETWEEN_ASKS};
    ghost use Rattle.proxy_net.specs.Starters.{after_prepare, is_waiting};
    ghost use Rattle.proxy_net.specs.Steps.{Steps, AreWaits, AreRemovals, IsNoticed, IsOpened, IsPrepare, IsTurn, is_failed};
    ghost use Rattle.link_traits.specs.Views.{KeepsWishes};
    ghost use Rattle.proxy_net.specs.Sockets.{IsTried, IsNamedOrTried, KeepsEarly, KeepsAccepts, KeepsStalls, shown, RoseIn, GoesOn, IsUnused, IsWished, StaysClosed, HasLink, IsTriedTo, has_file_at, files_of};

    /// A net over the sockets of a system, without listeners and links. No other net may have used that system.
    pub fn over(alloc: Global, system: S) -> Result<MioNet<S>, AllocError>
        requires { IsUnanswered (S.journal system) }
        ensures unused { IfOk result (λ net. IsUnused (shown net.sockets (S.journal net.system) net.starter)) }
        ensures setting { IfOk result (λ net. (net.replaces ≡ false) × (is_present net.starter ≡ false)) }
    {
        Ok(MioNet {
            alloc,
            system,
            sockets: SocketSet::new(alloc),
            reports: Vec::with_capacity(alloc, REPORTS)?,
            replaces: false,
            starter: Starter::Absent,
        })
    }

    /// The system, as the calls left it.
    pub fn system(&self) -> &S
        ensures { result.now ≡ self.now.system }
    {
        &self.system
    }

    /// What is counted: faults, and calls that would have waited.
    pub fn count(&self, count: Count) -> u64
        ensures { result ≡ (shown self.now.sockets (S.journal self.now.system) self.now.starter).counts count }
    {
        self.sockets.count(count)
    }

    /// Looks at what is at the path of each file that its listens made, and removes it if it is that file. Call it once
    /// nothing more is to be accepted: a client that connects later finds no socket.
    pub fn remove_sockets(&mut self)
        // No listener has a file any more, and nothing else changes.
        ensures removed { (listener : ℕ) → has_file_at self.new.sockets listener ≡ false }
        ensures listeners { vec_len self.new.sockets.listeners ≡ vec_len self.old.sockets.listeners }
        ensures asked { Steps (AreRemovals (files_of self.old.sockets)) (S.journal self.old.system) (S.journal self.new.system) }
        ensures setting { (self.new.replaces ≡ self.old.replaces) × (self.new.starter ≡ self.old.starter) }

        // A file that a listener has was made by its bind.
        ensures bound { AreBound (S.journal self.old.system) self.old.sockets }

        ensures goes { GoesOn self.old.sockets self.new.sockets }
        ensures wishes { KeepsWishes (shown self.old.sockets (S.journal self.old.system) self.old.starter) (shown self.new.sockets (S.journal self.new.system) self.new.starter) }
    {
        self.sockets.remove_files(&mut self.system);
    }

    /// Opens the pipe of a starter, if one is named.
    fn open_named(&mut self, starter: Option<u32>) -> Result<(), NetFault>
        ensures asked { Steps (IsPrepare (is_present self.old.starter) starter result) (S.journal self.old.system) (S.journal self.new.system) }
        ensures starter { OnOk result (self.new.starter ≡ after_prepare starter self.old.starter) }
        ensures kept { OnErr result (self.new.starter ≡ self.old.starter) }
        ensures failed { IsErrOf result NetFault.Failed → RoseIn Count.Own self.old.sockets self.new.sockets }
        ensures goes { GoesOn self.old.sockets self.new.sockets }
        ensures replaces { self.new.replaces ≡ self.old.replaces }
    {
        match starter {
            Some(descriptor) => self.open_starter(descriptor),
            None => Ok(()),
        }
    }

    fn open_starter(&mut self, descriptor: u32) -> Result<(), NetFault>
        ensures asked { Steps (IsOpened (is_present self.old.starter) descriptor result) (S.journal self.old.system) (S.journal self.new.system) }
        ensures starter { OnOk result (self.new.starter ≡ Starter.Waiting) }
        ensures kept { OnErr result (self.new.starter ≡ self.old.starter) }
        ensures failed { IsErrOf result NetFault.Failed → RoseIn Count.Own self.old.sockets self.new.sockets }
        ensures goes { GoesOn self.old.sockets self.new.sockets }
        ensures replaces { self.new.replaces ≡ self.old.replaces }
    {
        if self.starter.is_present() {
            self.sockets.raise(Count::Own);
            return Err(NetFault::Failed);
        }
        match self.system.open_starter(descriptor) {
            Ok(()) => {
                self.starter = Starter::Waiting;
                Ok(())
            }
            Err(_) => {
                self.sockets.raise(Count::Own);
                Err(NetFault::Failed)
            }
        }
    }

    /// Writes the byte for the starter, if that waits for it.
    fn notify_starter(&mut self)
        ensures once { is_waiting self.new.starter ≡ false }
        ensures present { is_present self.new.starter ≡ is_present self.old.starter }
        ensures gone { is_gone self.old.starter ≡ true → is_gone self.new.starter ≡ true }
        ensures told { Steps (IsNoticed self.old.starter self.new.starter) (S.journal self.old.system) (S.journal self.new.system) }
        ensures sockets { self.new.sockets ≡ self.old.sockets }
        ensures replaces { self.new.replaces ≡ self.old.replaces }
    {
        self.starter = self.starter.notify(&mut self.system);
    }

    /// Names what is to be named, or else asks the system once.
    fn turn(&mut self) -> Turn
        requires { is_gone self.old.starter ≡ false }
        ensures wished { (ready : _) → result ≡ Turn.Named ready → IsWished self.old.sockets self.new.sockets ready }
        ensures ended { (result ≡ Turn.Ended) ↔ (is_gone self.new.starter ≡ true) }
        ensures tried { result ≡ Turn.Again → IsTried S.shows self.new.sockets }
        ensures present { is_present self.new.starter ≡ is_present self.old.starter }
        ensures once { is_waiting self.old.starter ≡ false → is_waiting self.new.starter ≡ false }
        ensures closed { StaysClosed self.old.sockets self.new.sockets }
        ensures early { KeepsEarly S.shows self.old.sockets self.new.sockets }
        ensures accepts { result ≡ Turn.Again → KeepsAccepts S.shows (λ number. list_any (reports_number number) self.new.reports.items) self.old.sockets self.new.sockets }
        ensures stalls { result ≢ Turn.Again → KeepsStalls self.old.sockets self.new.sockets }
        ensures named { (ready : _) → result ≡ Turn.Named ready → (self.old.sockets.named < NAMED_BETWEEN_ASKS) × (self.new.sockets.named ≡ self.old.sockets.named + 1) }
        ensures kept { (ready : _) → result ≡ Turn.Named ready → IsTried S.shows self.old.sockets → IsTried S.shows self.new.sockets }
        ensures asked { Steps (IsTurn (HasLink self.old.sockets) (IsTriedTo self.old.sockets) self.old.starter self.new.starter result) (S.journal self.old.system) (S.journal self.new.system) }
        ensures goes { GoesOn self.old.sockets self.new.sockets }
        ensures replaces { self.new.replaces ≡ self.old.replaces }
    {
        if let Some(ready) = self.sockets.next() {
            return Turn::Named(ready);
        }
        match self.sockets.ask(&mut self.system, &mut self.reports) {
            Err(_) => Turn::Failed,
            Ok(()) => {
                self.starter = self.starter.after(&self.reports);
                if self.starter.is_gone() {
                    return Turn::Ended;
                }
                self.sockets.note_all(&mut self.system, &self.reports);
                Turn::Again
            }
        }
    }

    /// Waits until something is to be named or the starter is gone. It fails if the system fails.
    fn next(&mut self) -> Ready
        requires { is_gone self.old.starter ≡ false }
        ensures wished { result ≢ Ready.Failed → result ≢ Ready.Quiet → IsWished self.old.sockets self.new.sockets result }
        ensures quiet { (result ≡ Ready.Quiet) ↔ (is_gone self.new.starter ≡ true) }
        ensures present { is_present self.new.starter ≡ is_present self.old.starter }
        ensures once { is_waiting self.old.starter ≡ false → is_waiting self.new.starter ≡ false }
        ensures closed { StaysClosed self.old.sockets self.new.sockets }
        ensures early { KeepsEarly S.shows self.old.sockets self.new.sockets }
        ensures tried { result ≢ Ready.Failed → result ≢ Ready.Quiet → IsNamedOrTried S.shows self.old.sockets self.new.sockets }
        ensures asked { Steps (AreWaits (HasLink self.old.sockets) (IsTriedTo self.old.sockets) self.old.starter self.new.starter (is_failed result)) (S.journal self.old.system) (S.journal self.new.system) }
        ensures goes { GoesOn self.old.sockets self.new.sockets }
        ensures replaces { self.new.replaces ≡ self.old.replaces }
    {
        for _turn in 0..u64::MAX {
            match self.turn() {
                Turn::Named(ready) => return ready,
                Turn::Ended => return Ready::Quiet,
                Turn::Failed => return Ready::Failed,
                Turn::Again => {}
            }
        }
        Ready::Failed
    }

    /// Waits unless the starter is gone, counts a failure, and tells no answer.
    fn next_or_end(&mut self) -> Ready
        ensures wished { result ≢ Ready.Failed → result ≢ Ready.Quiet → IsWished self.old.sockets self.new.sockets result }
        ensures quiet { (result ≡ Ready.Quiet) ↔ (is_gone self.new.starter ≡ true) }
        ensures stays { is_gone self.old.starter ≡ true → result ≡ Ready.Quiet }
        ensures present { is_present self.new.starter ≡ is_present self.old.starter }
        ensures once { is_waiting self.old.starter ≡ false → is_waiting self.new.starter ≡ false }
        ensures closed { StaysClosed self.old.sockets self.new.sockets }
        ensures early { KeepsEarly S.shows self.old.sockets self.new.sockets }
        ensures tried { result ≢ Ready.Failed → result ≢ Ready.Quiet → IsNamedOrTried S.shows self.old.sockets self.new.sockets }
        ensures failed { result ≡ Ready.Failed → RoseIn Count.Own self.old.sockets self.new.sockets }
        ensures asked { Steps (AreWaits (HasLink self.old.sockets) (IsTriedTo self.old.sockets) self.old.starter self.new.starter (is_failed result)) (S.journal self.old.system) (S.journal self.new.system) }
        ensures goes { GoesOn self.old.sockets self.new.sockets }
        ensures replaces { self.new.replaces ≡ self.old.replaces }
    {
        if self.starter.is_gone() {
            return Ready::Quiet;
        }
        let ready = self.next();
        if ready == Ready::Failed {
            self.sockets.raise(Count::Own);
        }
        ready
    }
}

impl<S: Sockets + Drop> Net for MioNet<S> {
    ghost use Rattle.std.specs.Prelude.{◌≢◌, ◌≤◌, ◌<◌, ◌+◌, ◌⊎◌, ◌↔◌, ◌&&◌, ℕ, [], ◌∷◌, length, None, Some, OnOk, OnErr, IsErrOf, IsSome, true, false};
    ghost use Rattle.link_traits.specs.Entries.{ready, shut};
    ghost use Rattle.link_traits.specs.Journals.{Journal, accepts, listens};
    ghost use Rattle.link_traits.specs.Answers.{listen_entry, accept_entry, connect_entry, read_entry, write_entry, no_wishes, client_link, bus_link, AfterAccept};
    ghost use Rattle.link_traits.specs.Numbers.{number_of};
    ghost use Rattle.link_traits.specs.Views.{Adds, RoseAt, KeepsOthers, KeepsWishes};
    ghost use Rattle.link_traits.specs.declared.links.Wishes.{Wishes};
    ghost use Rattle.std.specs.Option.{option_map};
    ghost use Rattle.proxy_net.specs.Naming.{other_of};
    ghost use Rattle.proxy_net.specs.Registering.{listeners_from};
    ghost use Rattle.proxy_net.specs.Steps.{Steps, IsAnswered, IsPrepare, IsWait, IsFileKept, IsListen, IsAccept, IsMade, IsUnmade, IsConnect, IsRead, IsPolled, IsWrite, IsAsked, IsShut, is_failed};
    ghost use Rattle.proxy_net.specs.Starters.{after_prepare, is_waiting};
    ghost use Rattle.std.specs.Prelude.{List};
    ghost use Rattle.proxy_net.specs.Sockets.{IsNamedOrTried, KeepsEarly, tried_path_at, file_at, path_at, is_put_off_at, delay_at, is_readable_at, may_have_more_at, StaysUnread, StaysClosed, KeepsReports, HasLink, IsTriedTo, has_link_at};
    ghost use Rattle.proxy_net.specs.Sockets.{shown, is_open_at, is_pending_in, is_closed_at, is_peer_closed_at, is_stalled_at, IsJudgedAt, IsWished};

    ghost view = { λ net. shown net.sockets (S.journal net.system) net.starter };

    ghost takes = { λ old setting new. (new.replaces ≡ setting.replaces) × (new.starter ≡ after_prepare setting.starter old.starter) };

    /// It fails if there is a starter already, if the descriptor isn't open, and if it isn't that of a pipe.
    fn prepare(&mut self, setting: Setting) -> Result<(), NetFault>
        ensures replaces { OnOk result (self.new.replaces ≡ setting.replaces) }
        ensures starter { OnOk result (self.new.starter ≡ after_prepare setting.starter self.old.starter) }
        ensures kept { OnErr result ((self.new.replaces ≡ self.old.replaces) × (self.new.starter ≡ self.old.starter)) }

        // What the system is asked for it. The net notes no answer.
        ensures asked { Steps (IsPrepare (is_present self.old.starter) setting.starter result) (S.journal self.old.system) (S.journal self.new.system) }

        // What the trait says.
        ensures taken { OnOk result ((self.new.replaces ≡ setting.replaces) × (self.new.starter ≡ after_prepare setting.starter self.old.starter)) }
        ensures told { Adds (shown self.old.sockets (S.journal self.old.system) self.old.starter) (shown self.new.sockets (S.journal self.new.system) self.new.starter) [] }
        ensures failed { IsErrOf result NetFault.Failed → RoseAt Count.Own (shown self.old.sockets (S.journal self.old.system) self.old.starter) (shown self.new.sockets (S.journal self.new.system) self.new.starter) }
        ensures wishes { KeepsWishes (shown self.old.sockets (S.journal self.old.system) self.old.starter) (shown self.new.sockets (S.journal self.new.system) self.new.starter) }
    {
        match self.open_named(setting.starter) {
            Ok(()) => {
                self.replaces = setting.replaces;
                Ok(())
            }
            Err(fault) => Err(fault),
        }
    }

    /// It fails if the path is empty and if a file is there, but for one that is replaced by the setting: a socket or
    /// an empty regular file, which is looked at and removed before the bind. No other file that was there is removed.
    fn listen(&mut self, path: &str) -> Result<u32, NetFault>
        // Listeners are numbered in the order of their listens.
        ensures order { IfOk result (λ listener. listener ≡ vec_len self.old.sockets.listeners) }
        ensures made { OnOk result (vec_len self.new.sockets.listeners ≡ vec_len self.old.sockets.listeners + 1) }
        ensures err { OnErr result (vec_len self.new.sockets.listeners ≡ vec_len self.old.sockets.listeners) }
        ensures path { OnOk result (path.now ≢ []) }

        // A file that is removed for the listener later is removed at this path.
        ensures file { (own : List ℕ) → path_at self.new.sockets (vec_len self.old.sockets.listeners) ≡ Some own → own ≡ path.now }

        // It is the file that was found after the bind.
        ensures kept { OnOk result (Steps (IsAnswered (listen_entry path.now result) (IsFileKept (listeners_from + vec_len self.old.sockets.listeners) path.now self.old.replaces (file_at self.new.sockets (vec_len self.old.sockets.listeners)))) (S.journal self.old.system) (S.journal self.new.system)) }

        // The setting stays.
        ensures setting { (self.new.replaces ≡ self.old.replaces) × (self.new.starter ≡ self.old.starter) }

        // It makes no link readable.
        ensures unread { StaysUnread self.old.sockets self.new.sockets }

        // What the system is asked for it, before the net notes its answer.
        ensures asked { Steps (IsAnswered (listen_entry path.now result) (IsListen (listeners_from + vec_len self.old.sockets.listeners) path.now self.old.replaces result)) (S.journal self.old.system) (S.journal self.new.system) }

        // What the trait says.
        ensures told { Adds (shown self.old.sockets (S.journal self.old.system) self.old.starter) (shown self.new.sockets (S.journal self.new.system) self.new.starter) (listen_entry path.now result ∷ []) }
        ensures numbered { IfOk result (λ listener. (before : Journal) → (shown self.old.sockets (S.journal self.old.system) self.old.starter).journal ≡ Some before → listener ≡ listens before) }
        ensures failed { IsErrOf result NetFault.Failed → RoseAt Count.Own (shown self.old.sockets (S.journal self.old.system) self.old.starter) (shown self.new.sockets (S.journal self.new.system) self.new.starter) }
        ensures wishes { KeepsWishes (shown self.old.sockets (S.journal self.old.system) self.old.starter) (shown self.new.sockets (S.journal self.new.system) self.new.starter) }
    {
        let answer = self
            .sockets
            .listen(self.alloc, &mut self.system, path, self.replaces);
        self.system.tell(Answer::Listen(answer), path.as_bytes());
        answer
    }

    /// The first wait after a prepare with a starter writes the byte before it waits. It is quiet exactly if the
    /// starter is gone.
    fn wait(&mut self) -> Ready
        // It names a link only for a wish that is true, for reading only while it is readable, and a listener only for
        // a client that came and wasn't named before.
        ensures wished { result ≢ Ready.Failed → result ≢ Ready.Quiet → IsWished self.old.sockets self.new.sockets result }

        // It is quiet if the starter is gone, from then on, and never without a starter.
        ensures gone { (result ≡ Ready.Quiet) ↔ (is_gone self.new.starter ≡ true) }
        ensures ever { is_gone self.old.starter ≡ true → result ≡ Ready.Quiet }
        ensures never { is_present self.old.starter ≡ false → result ≢ Ready.Quiet }
        ensures present { is_present self.new.starter ≡ is_present self.old.starter }

        // The byte isn't written again after it.
        ensures once { is_waiting self.new.starter ≡ false }
        ensures replaces { self.new.replaces ≡ self.old.replaces }

        // It forgets no close.
        ensures closed { StaysClosed self.old.sockets self.new.sockets }

        // It leaves a connect that is tried again as it is until that is due, by a time that the clock showed.
        ensures early { KeepsEarly S.shows self.old.sockets self.new.sockets }

        // Of seventeen in a row that name something, one asks the system, and then tries again all that is due.
        ensures tried { result ≢ Ready.Failed → result ≢ Ready.Quiet → IsNamedOrTried S.shows self.old.sockets self.new.sockets }

        // What the system is asked for it, before the net notes its answer.
        ensures asked { Steps (IsAnswered (ready result) (IsWait (HasLink self.old.sockets) (IsTriedTo self.old.sockets) self.old.starter self.new.starter (is_failed result))) (S.journal self.old.system) (S.journal self.new.system) }

        // What the trait says.
        ensures told { Adds (shown self.old.sockets (S.journal self.old.system) self.old.starter) (shown self.new.sockets (S.journal self.new.system) self.new.starter) (ready result ∷ []) }
        ensures failed { result ≡ Ready.Failed → RoseAt Count.Own (shown self.old.sockets (S.journal self.old.system) self.old.starter) (shown self.new.sockets (S.journal self.new.system) self.new.starter) }
        ensures quiet { result ≡ Ready.Quiet → (shown self.new.sockets (S.journal self.new.system) self.new.starter).script_done ≡ true }
        ensures wishes { KeepsWishes (shown self.old.sockets (S.journal self.old.system) self.old.starter) (shown self.new.sockets (S.journal self.new.system) self.new.starter) }
    {
        self.notify_starter();
        let ready = self.next_or_end();
        self.system.tell(Answer::Wait(ready), &[]);
        ready
    }

    /// If it fails or is refused memory, the listener isn't named again until a link is shut, another client comes, or
    /// its delay is over.
    fn accept(&mut self, listener: u32) -> Accepted
        // Sessions are numbered from 1 in the order of their accepts.
        ensures order { (session : ℕ) → result ≡ Accepted.New session → (session ≡ self.old.sockets.sessions + 1) × (self.new.sockets.sessions ≡ session) }

        // The client link of a new session has its stream.
        ensures open { (session : ℕ) → result ≡ Accepted.New session → is_open_at self.new.sockets (number_of (client_link session)) ≡ true }

        // A listener whose accept failed is put off by a delay, which begins anew once a client was accepted.
        ensures put_off { (result ≡ Accepted.Failed) ⊎ (result ≡ Accepted.Memory) → is_put_off_at self.new.sockets listener ≡ true }
        ensures served { (session : ℕ) → result ≡ Accepted.New session → delay_at self.new.sockets listener ≡ 0 }

        // Nobody comes to a listener that wasn't made.
        ensures missing { vec_len self.old.sockets.listeners ≤ listener → (result ≡ Accepted.Failed) ⊎ (result ≡ Accepted.Memory) }

        // The setting stays.
        ensures setting { (self.new.replaces ≡ self.old.replaces) × (self.new.starter ≡ self.old.starter) }

        // It makes no link readable.
        ensures unread { StaysUnread self.old.sockets self.new.sockets }

        // What the system is asked for it, before the net notes its answer.
        ensures asked { Steps (IsAnswered (accept_entry listener result) (IsAccept listener (vec_len self.old.sockets.listeners) self.old.sockets.sessions result)) (S.journal self.old.system) (S.journal self.new.system) }

        // What the trait says.
        ensures told { Adds (shown self.old.sockets (S.journal self.old.system) self.old.starter) (shown self.new.sockets (S.journal self.new.system) self.new.starter) (accept_entry listener result ∷ []) }
        ensures numbered { (session : ℕ) → result ≡ Accepted.New session → (before : Journal) → (shown self.old.sockets (S.journal self.old.system) self.old.starter).journal ≡ Some before → session ≡ accepts before + 1 }
        ensures failed { result ≡ Accepted.Failed → RoseAt (Count.Listener listener) (shown self.old.sockets (S.journal self.old.system) self.old.starter) (shown self.new.sockets (S.journal self.new.system) self.new.starter) }
        ensures not_ready { result ≡ Accepted.NotReady → RoseAt Count.Waits (shown self.old.sockets (S.journal self.old.system) self.old.starter) (shown self.new.sockets (S.journal self.new.system) self.new.starter) }
        ensures new_wishes { (session : ℕ) → result ≡ Accepted.New session → (shown self.new.sockets (S.journal self.new.system) self.new.starter).wishes (client_link session) ≡ Some no_wishes }
        ensures wishes { AfterAccept result (shown self.old.sockets (S.journal self.old.system) self.old.starter) (shown self.new.sockets (S.journal self.new.system) self.new.starter) }
    {
        let answer = self.sockets.accept(&mut self.system, listener);
        self.system.tell(Answer::Accept(listener, answer), &[]);
        answer
    }

    /// It is refused if the session has a link to its bus, and if the path is empty.
    fn connect(&mut self, session: u32, path: &str) -> Result<(), NetFault>
        ensures path { OnOk result (path.now ≢ []) }
        ensures fresh { OnOk result ((shown self.old.sockets (S.journal self.old.system) self.old.starter).wishes (bus_link session) ≡ None) }

        // It fails for an error other than want of room, or if the clock can't be read when the connect is put off.
        ensures unmade { result ≡ Err NetFault.Failed → S.shows None ⊎ Steps (IsAnswered (connect_entry session path.now result) (IsUnmade (number_of (bus_link session)) path.now)) (S.journal self.old.system) (S.journal self.new.system) }

        // The link has a stream if the system made the connect, and is tried again to that path if it didn't.
        ensures made { OnOk result (Steps (IsAnswered (connect_entry session path.now result) (IsMade (is_open_at self.new.sockets (number_of (bus_link session))) (number_of (bus_link session)) path.now)) (S.journal self.old.system) (S.journal self.new.system)) }
        ensures later { OnOk result (is_open_at self.new.sockets (number_of (bus_link session)) ≡ false → tried_path_at self.new.sockets (number_of (bus_link session)) ≡ Some path.now) }
        ensures err { OnErr result (KeepsWishes (shown self.old.sockets (S.journal self.old.system) self.old.starter) (shown self.new.sockets (S.journal self.new.system) self.new.starter)) }

        // The setting stays.
        ensures setting { (self.new.replaces ≡ self.old.replaces) × (self.new.starter ≡ self.old.starter) }

        // It makes no link readable.
        ensures unread { StaysUnread self.old.sockets self.new.sockets }

        // What the system is asked for it, before the net notes its answer.
        ensures asked { Steps (IsAnswered (connect_entry session path.now result) (IsConnect (number_of (bus_link session)) path.now (has_link_at self.old.sockets (number_of (bus_link session))) result)) (S.journal self.old.system) (S.journal self.new.system) }

        // What the trait says.
        ensures told { Adds (shown self.old.sockets (S.journal self.old.system) self.old.starter) (shown self.new.sockets (S.journal self.new.system) self.new.starter) (connect_entry session path.now result ∷ []) }
        ensures failed { IsErrOf result NetFault.Failed → RoseAt (Count.Link (bus_link session)) (shown self.old.sockets (S.journal self.old.system) self.old.starter) (shown self.new.sockets (S.journal self.new.system) self.new.starter) }
        ensures new_wishes { OnOk result ((shown self.new.sockets (S.journal self.new.system) self.new.starter).wishes (bus_link session) ≡ Some no_wishes) }
        ensures wishes { KeepsOthers (bus_link session) (shown self.old.sockets (S.journal self.old.system) self.old.starter) (shown self.new.sockets (S.journal self.new.system) self.new.starter) }
    {
        let answer = self
            .sockets
            .connect(self.alloc, &mut self.system, session, path);
        self.system
            .tell(Answer::Connect(session, answer), path.as_bytes());
        answer
    }

    fn want(&mut self, link: Link, read: bool, write: bool)
        // Whether the writes of a link whose peer closed fail is judged by the new wishes.
        ensures judged { is_peer_closed_at self.new.sockets (number_of link) ≡ true → IsJudgedAt self.new.sockets (number_of link) }

        // The setting stays.
        ensures setting { (self.new.replaces ≡ self.old.replaces) × (self.new.starter ≡ self.old.starter) }

        // Wishes make no link readable.
        ensures reports { KeepsReports self.old.sockets self.new.sockets }

        // What the trait says.
        ensures told { Adds (shown self.old.sockets (S.journal self.old.system) self.old.starter) (shown self.new.sockets (S.journal self.new.system) self.new.starter) [] }
        ensures own { (shown self.new.sockets (S.journal self.new.system) self.new.starter).wishes link ≡ option_map (λ (_ : Wishes). record { read = read; write = write }) ((shown self.old.sockets (S.journal self.old.system) self.old.starter).wishes link) }
        ensures wishes { KeepsOthers link (shown self.old.sockets (S.journal self.old.system) self.old.starter) (shown self.new.sockets (S.journal self.new.system) self.new.starter) }
    {
        self.sockets.want(link, Wishes { read, write });
    }

    fn read(&mut self, link: Link, into: &mut [u8]) -> Got
        ensures missing { (shown self.old.sockets (S.journal self.old.system) self.old.starter).wishes link ≡ None → result ≡ Got.Failed }
        ensures pending { is_pending_in self.old.sockets link ≡ true → result ≡ Got.NotReady }

        // Without a stream, a link whose connect isn't tried again fails.
        ensures without { is_open_at self.old.sockets (number_of link) ≡ false → is_pending_in self.old.sockets link ≡ false → result ≡ Got.Failed }

        // A link that was read to its end is known to be closed from then on.
        ensures finished { result ≡ Got.Finished → is_closed_at self.new.sockets (number_of link) ≡ true }

        // The setting stays.
        ensures setting { (self.new.replaces ≡ self.old.replaces) × (self.new.starter ≡ self.old.starter) }

        // A link that answers that it would wait isn't readable any more, and neither is one whose bytes left room in
        // the buffer, unless its end is to be read after them. A read makes no link readable, and forgets no close.
        ensures waits { result ≡ Got.NotReady → is_readable_at self.new.sockets (number_of link) ≡ false }
        ensures left { (n : ℕ) → result ≡ Got.Bytes n → is_readable_at self.new.sockets (number_of link) ≡ (is_readable_at self.old.sockets (number_of link) && may_have_more_at self.old.sockets (number_of link) n (length into.new)) }
        ensures unread { StaysUnread self.old.sockets self.new.sockets }
        ensures closed { StaysClosed self.old.sockets self.new.sockets }

        // What the system is asked for it, before the net notes its answer.
        ensures asked { Steps (IsAnswered (read_entry link into.new result) (IsRead (is_open_at self.old.sockets (number_of link)) (number_of link) into.new result)) (S.journal self.old.system) (S.journal self.new.system) }

        // A link that is connected isn't said to have nothing yet without a read of its socket.
        ensures polled { is_pending_in self.old.sockets link ≡ false → result ≡ Got.NotReady → Steps (IsAnswered (read_entry link into.new result) (IsPolled (number_of link))) (S.journal self.old.system) (S.journal self.new.system) }

        // What the trait says.
        ensures told { Adds (shown self.old.sockets (S.journal self.old.system) self.old.starter) (shown self.new.sockets (S.journal self.new.system) self.new.starter) (read_entry link into.new result ∷ []) }
        ensures within { (n : ℕ) → result ≡ Got.Bytes n → n ≤ length into.new }
        ensures progress { (n : ℕ) → result ≡ Got.Bytes n → 0 < length into.new → 0 < n }
        ensures failed { result ≡ Got.Failed → RoseAt (Count.Link link) (shown self.old.sockets (S.journal self.old.system) self.old.starter) (shown self.new.sockets (S.journal self.new.system) self.new.starter) }
        ensures not_ready { result ≡ Got.NotReady → RoseAt Count.Waits (shown self.old.sockets (S.journal self.old.system) self.old.starter) (shown self.new.sockets (S.journal self.new.system) self.new.starter) }
        ensures wishes { KeepsWishes (shown self.old.sockets (S.journal self.old.system) self.old.starter) (shown self.new.sockets (S.journal self.new.system) self.new.starter) }
    {
        let got = self.sockets.read(&mut self.system, link, into);
        self.system.tell(Answer::Read(link, got), into);
        got
    }

    fn write(&mut self, link: Link, piece: &[u8]) -> Took
        ensures missing { (shown self.old.sockets (S.journal self.old.system) self.old.starter).wishes link ≡ None → result ≡ Took.Failed }
        ensures pending { is_pending_in self.old.sockets link ≡ true → result ≡ Took.NotReady }

        // Without a stream, a link whose connect isn't tried again fails.
        ensures without { is_open_at self.old.sockets (number_of link) ≡ false → is_pending_in self.old.sockets link ≡ false → result ≡ Took.Failed }

        // The setting stays.
        ensures setting { (self.new.replaces ≡ self.old.replaces) × (self.new.starter ≡ self.old.starter) }

        // Only the write that finds for the first time that the peer closed makes a link readable. A write forgets no
        // close.
        ensures unread { is_peer_closed_at self.new.sockets (number_of link) ≡ is_peer_closed_at self.old.sockets (number_of link) → StaysUnread self.old.sockets self.new.sockets }
        ensures closed { StaysClosed self.old.sockets self.new.sockets }

        // What the system is asked for it, before the net notes its answer.
        ensures asked { Steps (IsAnswered (write_entry link piece.now result) (IsWrite (number_of link) piece.now result)) (S.journal self.old.system) (S.journal self.new.system) }

        // A link that has a stream isn't answered without a call of the system.
        ensures reached { is_open_at self.old.sockets (number_of link) ≡ true → Steps (IsAnswered (write_entry link piece.now result) IsAsked) (S.journal self.old.system) (S.journal self.new.system) }

        // What the trait says.
        ensures told { Adds (shown self.old.sockets (S.journal self.old.system) self.old.starter) (shown self.new.sockets (S.journal self.new.system) self.new.starter) (write_entry link piece.now result ∷ []) }
        ensures within { (n : ℕ) → result ≡ Took.Bytes n → n ≤ length piece.now }
        ensures progress { (n : ℕ) → result ≡ Took.Bytes n → 0 < length piece.now → 0 < n }
        ensures failed { result ≡ Took.Failed → RoseAt (Count.Link link) (shown self.old.sockets (S.journal self.old.system) self.old.starter) (shown self.new.sockets (S.journal self.new.system) self.new.starter) }
        ensures not_ready { result ≡ Took.NotReady → RoseAt Count.Waits (shown self.old.sockets (S.journal self.old.system) self.old.starter) (shown self.new.sockets (S.journal self.new.system) self.new.starter) }
        ensures wishes { KeepsWishes (shown self.old.sockets (S.journal self.old.system) self.old.starter) (shown self.new.sockets (S.journal self.new.system) self.new.starter) }
    {
        let took = self.sockets.write(&mut self.system, link, piece);
        self.system.tell(Answer::Write(link, took), piece);
        took
    }

    fn shut(&mut self, link: Link)
        // Whether the writes of its session's other link fail is judged without it, and no listener stays stalled.
        ensures judged { IsJudgedAt self.new.sockets (other_of (number_of link)) }
        ensures revived { (listener : ℕ) → is_stalled_at self.new.sockets listener ≡ false }

        // The setting stays.
        ensures setting { (self.new.replaces ≡ self.old.replaces) × (self.new.starter ≡ self.old.starter) }

        // It makes no link readable.
        ensures unread { StaysUnread self.old.sockets self.new.sockets }

        // What the system is asked for it, before the net notes its answer.
        ensures asked { Steps (IsAnswered (shut link) (IsShut (is_open_at self.old.sockets (number_of link)) (number_of link))) (S.journal self.old.system) (S.journal self.new.system) }

        // What the trait says.
        ensures told { Adds (shown self.old.sockets (S.journal self.old.system) self.old.starter) (shown self.new.sockets (S.journal self.new.system) self.new.starter) (shut link ∷ []) }
        ensures gone { (shown self.new.sockets (S.journal self.new.system) self.new.starter).wishes link ≡ None }
        ensures wishes { KeepsOthers link (shown self.old.sockets (S.journal self.old.system) self.old.starter) (shown self.new.sockets (S.journal self.new.system) self.new.starter) }
    {
        self.sockets.shut(&mut self.system, link);
        self.system.tell(Answer::Shut(link), &[]);
    }
}
