//! The session: it processes each side's stream line by line and then message by message. If messages aren't filtered,
//! it passes the bytes after the lines on unread.
ghost use Rattle.std.specs.Prelude.{◌≡◌, ◌≤◌, ◌<◌, ◌+◌, ◌^◌, ◌∷◌, ◌++◌, ℕ, List, [], Some, None, true, false, IfOk, IfNone, IfSome, OnOk, OnErr, length, take, drop, option_to_list};
ghost use Rattle.policy_view.specs.History.{Event, Bytes, Finished, Stopped, finished as finished_by, malformed as malformed_by, longest_stream, most_sent};
ghost use Rattle.dbus_header.specs.Contents.{contents_of, message_in};
ghost use Rattle.dbus_header.specs.Read.{message_seen};
ghost use Rattle.policy_view.specs.Notes.{Note as NoteValue};
ghost use Rattle.policy_view.specs.declared.End.{End as SessionEnd};
ghost use Rattle.policy_view.specs.declared.visible.Visible.{Visible as Element};
ghost use Rattle.policy_view.specs.declared.End.TheVariants.{ClientEnd, BusEnd};
ghost use Rattle.policy_args.specs.Policy.{Policy as PolicyValue};
ghost use Rattle.proxy_core.specs.Streams.{InMessages, is_in_lines as in_lines, pushed};
ghost use Rattle.proxy_core.specs.Sessions.{StandsFor, Closes, Taken, nothing, at_start, watching_at_start, stream_of, answer_of, is_from_outside, IsFront};
ghost use Rattle.proxy_core.specs.Messages.{ended_by};
ghost use Rattle.proxy_core.specs.Steps.{with_stream, with_left, step_of, drained, room_of, with_bytes, with_piece, with_pushed, Grows, Took, Stepped, IsLight, weight};

mod fronts;
mod lines;
mod noting;
mod raw;
mod receiving;
mod rooms;
mod sending;
mod watching;

use crate::stream::Stream;
use crate::watch::{Watch, next_of};
use dbus_header::{Message, Places};
use out_queue::OutQueue;
use own_calls::after_hello_is_short;
use policy_args::Policy;
use policy_view::{End, Fault, Mode, Note, Side, Visible};
use reply_ledger::Ledger;
pub use rooms::Room;
use serial_map::Serials;
use std::alloc::{AllocError, Global};
use std::collections::VecDeque;
use std::marker::Model;
use unique_names::Tracker;

/// The maximum number of bytes that a session takes of a side's stream.
pub const LONGEST_STREAM: u64 = 1_152_921_504_606_846_976;

/// The maximum number of bytes of the proxy's own calls after a Hello: those for 65,535 patterns of names of 255 bytes.
pub const MOST_OWN_BYTES: u64 = 60_161_266;

/// A session between a client and its bus. It takes bytes from either side and gives bytes for either side.
pub struct Session {
    mode: Mode,
    to_bus: OutQueue,
    to_client: OutQueue,
    ended: Option<End>,
    client: Stream,
    bus: Stream,
    serials: Serials,
    greeted: bool,
    ledger: Ledger,
    tracker: Tracker,
    notes: VecDeque<Note>,
    numbered: u64,
    watch: Option<Box<Watch>>,
    alloc: Global,
}

// Its drop is a call, so that a function that drops one is short to prove.
impl Drop for Session {
    fn drop(self) {
        let Session {
            mode: _mode,
            to_bus: _to_bus,
            to_client: _to_client,
            ended: _ended,
            client: _client,
            bus: _bus,
            serials: _serials,
            greeted: _greeted,
            ledger: _ledger,
            tracker: _tracker,
            notes: _notes,
            numbered: _numbered,
            watch: _watch,
            alloc: _alloc,
        } = self;
    }
}

impl Model for Session {
    ghost use Rattle.std.specs.Ordering.{nat_cmp};
    ghost use Rattle.std.specs.Cmp.Lexicographic.{slice_cmp};
    ghost use Rattle.std.specs.FinMap as map;
    ghost use Rattle.std.specs.Coded.{codes, coded_list, coded_ℕ};
    ghost use Rattle.std.specs.Prelude.{is_some};
    ghost use Rattle.proxy_core.specs.Sessions.{SessionView, waiting_in};
    ghost use Rattle.reply_ledger.specs.declared.kind.Kind.{Kind as KindValue};
    ghost use Rattle.unique_names.specs.Known.{Known as KnownValue};

    ghost Value = { SessionView };

    ghost coded = { Prim.hlevel (codes, map.code {X = KindValue} {R = nat_cmp} coded_ℕ (Prim.hlevel (codes, coded_list coded_ℕ)), map.code {R = slice_cmp nat_cmp} (coded_list coded_ℕ) (map.code {R = nat_cmp} coded_ℕ coded_ℕ), map.code {X = KnownValue} {R = slice_cmp nat_cmp} (coded_list coded_ℕ) (Prim.hlevel (codes, coded_list coded_ℕ))) };

    ghost view = { λ s. record { mode = s.mode; bus_side = s.to_bus; client_side = s.to_client; ended = s.ended; client = s.client; bus = s.bus; sent = s.serials; greeted = s.greeted; ledger = s.ledger; ids = s.tracker; notes = s.notes.items; numbered = s.numbered; watches = is_some s.watch; visible = waiting_in s.watch } };
}

/// The End for the end of a side's stream.
fn finished(side: Side) -> End
    ensures { result ≡ finished_by side }
{
    match side {
        Side::Client => End::ClientEnd,
        Side::Bus => End::BusEnd,
    }
}

/// The End for a fault of a side's stream.
fn malformed(side: Side, fault: Fault) -> End
    ensures { result ≡ malformed_by side fault }
{
    match side {
        Side::Client => End::ClientMalformed(fault),
        Side::Bus => End::BusMalformed(fault),
    }
}

/// The first bytes of a piece, at most as many as there is room for.
fn front_of(room: u64, piece: &[u8]) -> &[u8]
    ensures { result.now ≡ take room piece.now }
{
    if piece.len() as u64 > room {
        &piece[..room as usize]
    } else {
        piece
    }
}

impl Session {
    /// A session that has received nothing. Its other calls must be given the same policy.
    pub fn new(alloc: Global, policy: &Policy, mode: Mode) -> Result<Session, AllocError>
        ensures stands { IfOk result (λ s. StandsFor policy.now s [] nothing) }
        ensures start { IfOk result (λ s. s ≡ at_start mode) }
        ensures light { IfOk result (λ s. weight policy.now s ≤ MOST_OWN_BYTES) }
    {
        // A bound on the own calls bounds what will wait for the bus.
        after_hello_is_short(policy);
        Ok(Session {
            mode,
            to_bus: OutQueue::new(alloc),
            to_client: OutQueue::new(alloc),
            ended: None,
            client: Stream::new(alloc, mode.auth),
            bus: Stream::new(alloc, mode.auth),
            serials: Serials::new(),
            greeted: false,
            ledger: Ledger::new(alloc),
            tracker: Tracker::new(alloc),
            notes: VecDeque::new(alloc),
            numbered: 0,
            watch: None,
            alloc,
        })
    }

    /// A session that filters messages, makes no notes, and keeps the elements of the visible part of its history. It
    /// has received nothing, and its other calls must be given the same policy.
    pub fn watching(alloc: Global, policy: &Policy, auth: bool) -> Result<Session, AllocError>
        ensures stands { IfOk result (λ s. StandsFor policy.now s [] nothing) }
        ensures start { IfOk result (λ s. s ≡ watching_at_start auth) }
        ensures light { IfOk result (λ s. weight policy.now s ≤ MOST_OWN_BYTES) }
    {
        let mode = Mode {
            auth,
            filter: true,
            notes: false,
        };
        let mut session = Session::new(alloc, policy, mode)?;
        session.watch = Some(Box::new(alloc, Watch::new(alloc))?);
        Ok(session)
    }

    /// Takes a piece received from the client. The messages that the policy lets pass then wait for the bus, with a
    /// ping in place of each call that is answered with an error, and with the proxy's own calls after the first Hello.
    /// If messages aren't filtered, the bytes after the lines wait for the bus unchanged. The error is the End of a
    /// session that has ended; later pieces have no effect.
    pub fn feed_client(&mut self, policy: &Policy, piece: &[u8]) -> Result<(), End>
        ensures stands { (events : List Event) (taken : Taken) → StandsFor policy.now self.old events taken → StandsFor policy.now self.new (Bytes Side.Client piece.now ∷ events) taken }
        ensures closes { Closes policy.now (Bytes Side.Client piece.now) self.old self.new }
        ensures answer { result ≡ answer_of self.new.ended }
        ensures last { (end : SessionEnd) → self.old.ended ≡ Some end → self.new ≡ self.old }
        ensures grows { Grows self.old self.new }
        ensures light { IsLight policy.now (length piece.now) self.old self.new }
    {
        self.feed(policy, Side::Client, piece)
    }

    /// Takes a piece received from the bus. The messages that the policy shows then wait for the client: the answers
    /// for which it waits, each once, calls, and signals. What the messages say of names is learned, and calls that ask
    /// for more wait for the bus. If messages aren't filtered, the bytes after the lines wait for the client unchanged.
    /// The error is the End of a session that has ended; later pieces have no effect.
    pub fn feed_bus(&mut self, policy: &Policy, piece: &[u8]) -> Result<(), End>
        ensures stands { (events : List Event) (taken : Taken) → StandsFor policy.now self.old events taken → StandsFor policy.now self.new (Bytes Side.Bus piece.now ∷ events) taken }
        ensures closes { Closes policy.now (Bytes Side.Bus piece.now) self.old self.new }
        ensures answer { result ≡ answer_of self.new.ended }
        ensures last { (end : SessionEnd) → self.old.ended ≡ Some end → self.new ≡ self.old }
        ensures grows { Grows self.old self.new }
        ensures light { IsLight policy.now (length piece.now) self.old self.new }
    {
        self.feed(policy, Side::Bus, piece)
    }

    /// Ends the session, because the client's stream ended. Returns its End, which is an earlier one if it had ended
    /// already.
    pub fn client_ended(&mut self) -> End
        ensures stands { (policy : PolicyValue) (events : List Event) (taken : Taken) → StandsFor policy self.old events taken → StandsFor policy self.new (Finished Side.Client ∷ events) taken }
        ensures closes { (policy : PolicyValue) → Closes policy (Finished Side.Client) self.old self.new }
        ensures answer { self.new ≡ ended_by result self.old }
        ensures first { self.old.ended ≡ None → result ≡ ClientEnd }
        ensures last { (end : SessionEnd) → self.old.ended ≡ Some end → result ≡ end }
    {
        self.end_first(End::ClientEnd)
    }

    /// Ends the session, because the bus's stream ended. Returns its End, which is an earlier one if it had ended
    /// already.
    pub fn bus_ended(&mut self) -> End
        ensures stands { (policy : PolicyValue) (events : List Event) (taken : Taken) → StandsFor policy self.old events taken → StandsFor policy self.new (Finished Side.Bus ∷ events) taken }
        ensures closes { (policy : PolicyValue) → Closes policy (Finished Side.Bus) self.old self.new }
        ensures answer { self.new ≡ ended_by result self.old }
        ensures first { self.old.ended ≡ None → result ≡ BusEnd }
        ensures last { (end : SessionEnd) → self.old.ended ≡ Some end → result ≡ end }
    {
        self.end_first(End::BusEnd)
    }

    /// Ends the session, because of its links or the log. Returns its End, which is an earlier one if it had ended
    /// already.
    pub fn stop(&mut self, end: End) -> End
        requires { is_from_outside end ≡ true }
        ensures stands { (policy : PolicyValue) (events : List Event) (taken : Taken) → StandsFor policy self.old events taken → StandsFor policy self.new (Stopped end ∷ events) taken }
        ensures closes { (policy : PolicyValue) → Closes policy (Stopped end) self.old self.new }
        ensures answer { self.new ≡ ended_by result self.old }
        ensures first { self.old.ended ≡ None → result ≡ end }
        ensures last { (earlier : SessionEnd) → self.old.ended ≡ Some earlier → result ≡ earlier }
    {
        self.end_first(end)
    }

    /// The first of the bytes that wait for the bus. It is empty only if none wait.
    pub fn to_bus(&self) -> &[u8]
        ensures front { IsFront result.now self.now.bus_side }
        ensures all { length result.now ≡ 0 → self.now.bus_side ≡ [] }
    {
        self.to_bus.front()
    }

    /// The first of the bytes that wait for the client. It is empty only if none wait.
    pub fn to_client(&self) -> &[u8]
        ensures front { IsFront result.now self.now.client_side }
        ensures all { length result.now ≡ 0 → self.now.client_side ≡ [] }
    {
        self.to_client.front()
    }

    /// The number of bytes that wait for the bus.
    pub fn bus_waits(&self) -> u64
        ensures { result ≡ length self.now.bus_side }
    {
        self.to_bus.len()
    }

    /// The number of bytes that wait for the client.
    pub fn client_waits(&self) -> u64
        ensures { result ≡ length self.now.client_side }
    {
        self.to_client.len()
    }

    /// Removes the first `n` bytes that wait for the bus, after they were written.
    pub fn took_bus(&mut self, n: usize)
        requires { n ≤ length self.old.bus_side }
        ensures view { self.new ≡ record self.old { bus_side = drop n self.old.bus_side } }
        ensures stands { (policy : PolicyValue) (events : List Event) (taken : Taken) → StandsFor policy self.old events taken → StandsFor policy self.new events (record taken { bus_side = taken.bus_side ++ take n self.old.bus_side }) }
    {
        self.to_bus.took(n);
    }

    /// Removes the first `n` bytes that wait for the client, after they were written.
    pub fn took_client(&mut self, n: usize)
        requires { n ≤ length self.old.client_side }
        ensures view { self.new ≡ record self.old { client_side = drop n self.old.client_side } }
        ensures stands { (policy : PolicyValue) (events : List Event) (taken : Taken) → StandsFor policy self.old events taken → StandsFor policy self.new events (record taken { client_side = taken.client_side ++ take n self.old.client_side }) }
    {
        self.to_client.took(n);
    }

    /// Takes the next note, if one waits. Notes say what was decided on each message, in the order of the messages.
    pub fn next_note(&mut self) -> Option<Note>
        ensures none { IfNone result ((self.old.notes ≡ []) × (self.new ≡ self.old)) }
        ensures some { IfSome result (λ note. (rest : List NoteValue) × (self.old.notes ≡ note ∷ rest) × (self.new ≡ record self.old { notes = rest })) }
        ensures stands { (policy : PolicyValue) (events : List Event) (taken : Taken) → StandsFor policy self.old events taken → StandsFor policy self.new events (record taken { notes = taken.notes ++ option_to_list result }) }
    {
        self.notes.pop_front()
    }

    /// Reads the message of a note of this session. Its header isn't checked again if its stream still knows it.
    /// The places of its parts are put into `places`.
    pub fn message_of<'a>(&self, note: &'a Note, places: &'a mut Places) -> Message<'a>
        ensures bytes { result.bytes.now ≡ note.now.frame }
        ensures contents { message_seen result ≡ contents_of (message_in note.now.frame) }
    {
        match note.side() {
            Side::Client => self.client.message_of(note, places),
            Side::Bus => self.bus.message_of(note, places),
        }
    }

    /// Takes the next element of the visible part, if one waits, in the order of the history. Only a session that was
    /// made by `watching` has any. The End is no such element.
    pub fn next_visible(&mut self) -> Option<Visible>
        ensures none { IfNone result ((self.old.visible ≡ []) × (self.new ≡ self.old)) }
        ensures some { IfSome result (λ element. (rest : List Element) × (self.old.visible ≡ element ∷ rest) × (self.new ≡ record self.old { visible = rest })) }
        ensures stands { (policy : PolicyValue) (events : List Event) (taken : Taken) → StandsFor policy self.old events taken → StandsFor policy self.new events (record taken { visible = taken.visible ++ option_to_list result }) }
    {
        next_of(&mut self.watch)
    }

    /// The session's End, if it has ended.
    pub fn ended(&self) -> Option<End>
        ensures { result ≡ self.now.ended }
    {
        self.ended
    }

    /// Sets the serials that are given from now on.
    pub(crate) fn set_serials(&mut self, serials: Serials)
        ensures { self.new ≡ record self.old { sent = serials } }
    {
        self.serials = serials;
    }

    /// Ends the session.
    fn end_with(&mut self, end: End)
        ensures { self.new ≡ ended_by end self.old }
    {
        self.ended = Some(end);
    }

    /// Whether a side's stream is still in its lines.
    fn is_in_lines(&self, side: Side) -> bool
        ensures { result ≡ in_lines (stream_of side self.now).phase }
    {
        match side {
            Side::Client => self.client.is_in_lines(),
            Side::Bus => self.bus.is_in_lines(),
        }
    }

    /// Processes the first line of a side's stream, or all that is left if unfiltered messages follow the lines. Ends
    /// the session if there is a fault. Returns whether more may follow.
    fn process_front(&mut self, policy: &Policy, side: Side) -> bool
        requires running { self.old.ended ≡ None }
        requires unfiltered { in_lines (stream_of side self.old).phase ≡ false → self.old.mode.filter ≡ false }
        ensures step { Stepped (step_of policy.now side self.old) self.old self.new result }
        ensures light { IsLight policy.now 0 self.old self.new }
    {
        if !self.is_in_lines(side) {
            return self.pass_raw(policy, side);
        }
        match side {
            Side::Client => self.process_client_line(policy),
            Side::Bus => self.process_bus_line(policy),
        }
    }

    /// Processes lines and messages from the start of a side's stream, at most `most` of them.
    fn drain(&mut self, policy: &Policy, side: Side, most: usize)
        requires { self.old.ended ≡ None }
        ensures took { Took policy.now side (drained policy.now side most self.old) self.old self.new }
        ensures light { IsLight policy.now 0 self.old self.new }
    {
        let mut left = most;
        while left > 0 {
            if !self.is_in_lines(side) && self.mode.filter {
                self.drain_messages(policy, side, left);
                return;
            }
            if !self.process_front(policy, side) {
                return;
            }
            left -= 1;
        }
    }

    /// The number of bytes of a side's stream that aren't yet a whole line or message.
    fn left_len(&self, side: Side) -> usize
        ensures value { result ≡ length (stream_of side self.now).left }
        ensures bound { result < 2 ^ 63 }
    {
        match side {
            Side::Client => self.client.len(),
            Side::Bus => self.bus.len(),
        }
    }

    /// Appends bytes to what is left of a side's stream.
    fn push(&mut self, side: Side, bytes: &[u8]) -> Result<(), AllocError>
        requires { (stream_of side self.old).came + length bytes.now ≤ longest_stream }
        ensures ok { OnOk result (self.new ≡ with_stream side (pushed bytes.now (stream_of side self.old)) self.old) }
        ensures err { OnErr result (self.new ≡ self.old) }
    {
        match side {
            Side::Client => self.client.push(bytes),
            Side::Bus => self.bus.push(bytes),
        }
    }

    /// Appends bytes to what is left of a side's stream, and processes what is then whole.
    fn receive_bytes(&mut self, policy: &Policy, side: Side, bytes: &[u8])
        requires running { self.old.ended ≡ None }
        requires room { (stream_of side self.old).came + length bytes.now ≤ longest_stream }
        ensures took { Took policy.now side (with_bytes policy.now side bytes.now self.old) (with_pushed side bytes.now self.old) self.new }
        ensures light { IsLight policy.now (length bytes.now) self.old self.new }
    {
        if bytes.is_empty() {
            return;
        }
        if self.processes_in_place(side, bytes) {
            self.receive_in_place(policy, side, bytes);
            return;
        }
        match self.push(side, bytes) {
            Ok(()) => {
                let most = self.left_len(side) + 2;
                self.drain(policy, side, most);
            }
            Err(_) => self.end_with(End::Memory),
        }
    }

    /// The number of bytes that were received from a side.
    fn came(&self, side: Side) -> u64
        ensures value { result ≡ (stream_of side self.now).came }
        ensures bound { result ≤ longest_stream }
    {
        match side {
            Side::Client => self.client.came(),
            Side::Bus => self.bus.came(),
        }
    }

    /// Receives a piece of a side's stream, up to the stream's limit.
    fn receive(&mut self, policy: &Policy, side: Side, piece: &[u8])
        requires { self.old.ended ≡ None }
        ensures took { Took policy.now side (with_piece policy.now side piece.now self.old) (with_pushed side (take (room_of side self.old) piece.now) self.old) self.new }
        ensures light { IsLight policy.now (length piece.now) self.old self.new }
    {
        let room = LONGEST_STREAM - self.came(side);
        self.receive_bytes(policy, side, front_of(room, piece));
        if piece.len() as u64 > room && self.ended.is_none() {
            self.end_with(finished(side));
        }
    }

    /// Receives a piece of a side's stream. The error is the End of a session that has ended.
    fn feed(&mut self, policy: &Policy, side: Side, piece: &[u8]) -> Result<(), End>
        ensures stands { (events : List Event) (taken : Taken) → StandsFor policy.now self.old events taken → StandsFor policy.now self.new (Bytes side piece.now ∷ events) taken }
        ensures closes { Closes policy.now (Bytes side piece.now) self.old self.new }
        ensures answer { result ≡ answer_of self.new.ended }
        ensures last { (end : SessionEnd) → self.old.ended ≡ Some end → self.new ≡ self.old }
        ensures grows { Grows self.old self.new }
        ensures light { IsLight policy.now (length piece.now) self.old self.new }
    {
        if let Some(end) = self.ended {
            return Err(end);
        }
        policy.covers_no_unique_name();
        self.receive(policy, side, piece);
        match self.ended {
            None => Ok(()),
            Some(end) => Err(end),
        }
    }

    /// Ends the session, unless it has ended. Returns its End.
    fn end_first(&mut self, end: End) -> End
        ensures answer { self.new ≡ ended_by result self.old }
        ensures first { self.old.ended ≡ None → result ≡ end }
        ensures last { (earlier : SessionEnd) → self.old.ended ≡ Some earlier → result ≡ earlier }
    {
        match self.ended {
            Some(earlier) => earlier,
            None => {
                self.end_with(end);
                end
            }
        }
    }
}
