//! What a turn does on one link of a session.
ghost use Rattle.std.specs.Prelude.{◌≡◌, ◌≤◌, ◌<◌, ◌∷◌, ◌⊎◌, ◌||◌, ◌&&◌, not, [], ℕ, List, Some, None, take, drop, length, true, false, is_some, option_map};
ghost use Rattle.dbus_names.specs.Names.{is_empty};
ghost use Rattle.link_traits.specs.Views.{Adds, KeepsWishes, KeepsOthers};
ghost use Rattle.link_traits.specs.declared.links.Wishes.{Wishes};
ghost use Rattle.policy_args.specs.Policy.{Policy as PolicyValue};
ghost use Rattle.policy_view.specs.declared.End.{End as SessionEnd};
ghost use Rattle.policy_view.specs.History.{Event, Bytes, Finished, Stopped};
ghost use Rattle.proxy_core.specs.Sessions.{StandsFor, Taken, IsFront, is_memory};
ghost use Rattle.proxy_core.specs.Messages.{ended_by};
ghost use Rattle.proxy_loop.specs.Sessions.{side_of as side_of_link, read_end, write_end};
ghost use Rattle.proxy_loop.specs.Works.{Any, Only, queue_of, other_queue, ShutWhere, shuts_now, is_full as is_full_side, wishes_of, with_queue, with_taken, Goes, OneWrite, WroteOut, FedOnce, read_room, KeepsEnd, is_failed, KeepsWaiting};
ghost use Rattle.proxy_loop.specs.Writing.{Written};

use link_traits::{Got, Link, Net, Side, Took};
use policy_args::Policy;
use policy_view::End;
use proxy_core::Session;

/// What is left of a link: whether its end was read or one of its calls failed, and whether it is shut.
#[derive(Clone, Copy)]
pub struct LinkState {
    pub gone: bool,
    pub shut: bool,
}

/// This many bytes that wait for the other side keep a side from being read, so that a peer that doesn't read holds up
/// the one that writes to it, and memory doesn't grow.
const MOST_WAITING: u64 = 1_048_576;

/// The front of what waits for a side.
fn queue(session: &Session, side: Side) -> &[u8]
    ensures front { IsFront result.now (queue_of side session.now) }
    ensures all { length result.now ≡ 0 → queue_of side session.now ≡ [] }
{
    match side {
        Side::Client => session.to_client(),
        Side::Bus => session.to_bus(),
    }
}

/// Whether nothing waits for a side.
fn is_idle(session: &Session, side: Side) -> bool
    ensures { result ≡ is_empty (queue_of side session.now) }
{
    let waiting = match side {
        Side::Client => session.client_waits(),
        Side::Bus => session.bus_waits(),
    };
    waiting == 0
}

/// A link took the first bytes that waited for it.
fn took(session: &mut Session, side: Side, n: usize)
    requires { n ≤ length (queue_of side session.old) }
    ensures view { session.new ≡ with_queue side (drop n (queue_of side session.old)) session.old }
    ensures stands { (policy : PolicyValue) (events : List Event) (taken : Taken) → StandsFor policy session.old events taken → StandsFor policy session.new events (with_taken side (take n (queue_of side session.old)) taken) }
{
    match side {
        Side::Client => session.took_client(n),
        Side::Bus => session.took_bus(n),
    }
}

/// A write to a link failed.
fn stop_write(session: &mut Session, side: Side) -> End
    ensures stands { (policy : PolicyValue) (events : List Event) (taken : Taken) → StandsFor policy session.old events taken → StandsFor policy session.new (Stopped (write_end side) ∷ events) taken }
    ensures answer { session.new ≡ ended_by result session.old }
    ensures first { session.old.ended ≡ None → result ≡ write_end side }
    ensures last { (end : SessionEnd) → session.old.ended ≡ Some end → result ≡ end }
{
    match side {
        Side::Client => session.stop(End::ClientWrite),
        Side::Bus => session.stop(End::BusWrite),
    }
}

/// Writes once to a link that something waits for.
fn write_once<N: Net>(net: &mut N, session: &mut Session, link: Link) -> Took
    requires { is_empty (queue_of link.side session.old) ≡ false }
    ensures goes { Goes Any link.session session.old session.new (N.view net.old) (N.view net.new) (OneWrite link session.old session.new result) }
    ensures less { (n : ℕ) → result ≡ Took.Bytes n → length (queue_of link.side session.new) < length (queue_of link.side session.old) }
    ensures ended { is_some session.new.ended ≡ (is_some session.old.ended || is_failed result) }
    ensures other { other_queue link.side session.new ≡ other_queue link.side session.old }
    ensures end { KeepsEnd session.old session.new }
    ensures wishes { KeepsWishes (N.view net.old) (N.view net.new) }
{
    let answer = net.write(link, queue(session, link.side));
    match answer {
        Took::Bytes(n) => took(session, link.side, n),
        Took::NotReady => {}
        Took::Failed => {
            stop_write(session, link.side);
        }
    }
    answer
}

/// Writes what waits for a link, until nothing waits, or the link isn't ready or fails. Answers whether it failed.
fn write_all<N: Net>(net: &mut N, session: &mut Session, link: Link) -> bool
    ensures goes { Goes Any link.session session.old session.new (N.view net.old) (N.view net.new) (WroteOut link session.old session.new result) }
    ensures ended { is_some session.new.ended ≡ (is_some session.old.ended || result) }
    ensures other { other_queue link.side session.new ≡ other_queue link.side session.old }
    ensures end { KeepsEnd session.old session.new }
    ensures wishes { KeepsWishes (N.view net.old) (N.view net.new) }
{
    while !is_idle(session, link.side) {
        match write_once(net, session, link) {
            Took::Bytes(_) => {}
            Took::NotReady => return false,
            Took::Failed => return true,
        }
    }
    false
}

/// Whether nothing is to be written to a link any more.
fn is_closed(state: LinkState) -> bool
    ensures { result ≡ (state.gone || state.shut) }
{
    state.gone || state.shut
}

/// Writes what waits for a link, unless nothing is to be written to it any more.
pub fn write_out<N: Net>(
    net: &mut N,
    session: &mut Session,
    state: LinkState,
    link: Link,
) -> LinkState
    ensures goes { Goes Any link.session session.old session.new (N.view net.old) (N.view net.new) (Written link session.old session.new state result) }
    ensures shut { result.shut ≡ state.shut }
    ensures other { other_queue link.side session.new ≡ other_queue link.side session.old }
    ensures gone { result.gone ≡ true → (state.gone ≡ true) ⊎ (is_some session.new.ended ≡ true) }
    ensures end { KeepsEnd session.old session.new }
    ensures wishes { KeepsWishes (N.view net.old) (N.view net.new) }
{
    if is_closed(state) {
        return state;
    }
    let failed = write_all(net, session, link);
    LinkState {
        gone: failed,
        shut: false,
    }
}

/// A session is fed what came of a link.
fn feed(session: &mut Session, policy: &Policy, side: Side, piece: &[u8])
    ensures stands { (events : List Event) (taken : Taken) → StandsFor policy.now session.old events taken → StandsFor policy.now session.new (Bytes (side_of_link side) piece.now ∷ events) taken }
    ensures last { (end : SessionEnd) → session.old.ended ≡ Some end → session.new ≡ session.old }
    ensures mode { session.new.mode ≡ session.old.mode }
    ensures waits { KeepsWaiting session.old session.new }
{
    match side {
        Side::Client => {
            let _ = session.feed_client(policy, piece);
        }
        Side::Bus => {
            let _ = session.feed_bus(policy, piece);
        }
    }
}

/// The end of a link was read.
fn finish(session: &mut Session, side: Side) -> End
    ensures stands { (policy : PolicyValue) (events : List Event) (taken : Taken) → StandsFor policy session.old events taken → StandsFor policy session.new (Finished (side_of_link side) ∷ events) taken }
    ensures answer { session.new ≡ ended_by result session.old }
    ensures own { session.old.ended ≡ None → is_memory (Some result) ≡ false }
    ensures last { (end : SessionEnd) → session.old.ended ≡ Some end → result ≡ end }
{
    match side {
        Side::Client => session.client_ended(),
        Side::Bus => session.bus_ended(),
    }
}

/// A read of a link failed.
fn stop_read(session: &mut Session, side: Side) -> End
    ensures stands { (policy : PolicyValue) (events : List Event) (taken : Taken) → StandsFor policy session.old events taken → StandsFor policy session.new (Stopped (read_end side) ∷ events) taken }
    ensures answer { session.new ≡ ended_by result session.old }
    ensures first { session.old.ended ≡ None → result ≡ read_end side }
    ensures last { (end : SessionEnd) → session.old.ended ≡ Some end → result ≡ end }
{
    match side {
        Side::Client => session.stop(End::ClientRead),
        Side::Bus => session.stop(End::BusRead),
    }
}

/// Reads a link once, and feeds what came. Answers whether the link is gone.
pub fn read_once<N: Net>(
    net: &mut N,
    policy: &Policy,
    session: &mut Session,
    link: Link,
    buffer: &mut [u8],
) -> bool
    requires { length buffer.old ≡ read_room }
    ensures goes { Goes (Only policy.now) link.session session.old session.new (N.view net.old) (N.view net.new) (FedOnce link session.old session.new result) }
    ensures gone { result ≡ true → is_some session.new.ended ≡ true }
    ensures wishes { KeepsWishes (N.view net.old) (N.view net.new) }
{
    let answer = net.read(link, buffer);
    match answer {
        Got::Bytes(n) => {
            feed(session, policy, link.side, &buffer[..n]);
            false
        }
        Got::Finished => {
            finish(session, link.side);
            true
        }
        Got::NotReady => false,
        Got::Failed => {
            stop_read(session, link.side);
            true
        }
    }
}

/// Whether too much waits for the other side to read this one.
pub fn is_full(session: &Session, side: Side) -> bool
    ensures { result ≡ is_full_side side session.now }
{
    let waiting = match side {
        Side::Client => session.bus_waits(),
        Side::Bus => session.client_waits(),
    };
    waiting >= MOST_WAITING
}

/// Whether a link is to be shut now.
fn is_to_shut(session: &Session, state: LinkState, side: Side) -> bool
    ensures { result ≡ (not state.shut && shuts_now side session.now state.gone) }
{
    if state.shut || session.ended().is_none() {
        return false;
    }
    state.gone || is_idle(session, side)
}

/// Shuts a link, if the session has ended and nothing is to be written to it any more.
pub fn shut_done<N: Net>(net: &mut N, session: &Session, state: LinkState, link: Link) -> LinkState
    ensures goes { Goes Any link.session session.now session.now (N.view net.old) (N.view net.new) (ShutWhere link (not state.shut && shuts_now link.side session.now state.gone)) }
    ensures shut { result.shut ≡ (state.shut || shuts_now link.side session.now state.gone) }
    ensures gone { result.gone ≡ state.gone }
    ensures wishes { KeepsOthers link (N.view net.old) (N.view net.new) }
    ensures still { result.shut ≡ false → KeepsWishes (N.view net.old) (N.view net.new) }
{
    if is_to_shut(session, state, link.side) {
        net.shut(link);
        return LinkState {
            gone: state.gone,
            shut: true,
        };
    }
    state
}

/// States the wishes of a link that isn't shut.
pub fn state_wishes<N: Net>(net: &mut N, session: &Session, state: LinkState, link: Link)
    ensures told { Adds (N.view net.old) (N.view net.new) [] }
    ensures still { state.shut ≡ true → N.view net.new ≡ N.view net.old }
    ensures own { state.shut ≡ false → (N.view net.new).wishes link ≡ option_map (λ (_ : Wishes). wishes_of link.side session.now) ((N.view net.old).wishes link) }
    ensures wishes { KeepsOthers link (N.view net.old) (N.view net.new) }
{
    if state.shut {
        return;
    }
    net.want(
        link,
        session.ended().is_none() && !is_full(session, link.side),
        !is_idle(session, link.side),
    );
}
