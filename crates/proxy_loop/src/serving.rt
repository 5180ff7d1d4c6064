//! What a turn does for one session.
ghost use Rattle.std.specs.Prelude.{◌≡◌, ◌||◌, ◌&&◌, not, false, is_some, option_map, [], None, length};
ghost use Rattle.link_traits.specs.Answers.{client_link as client_of, bus_link as bus_of};
ghost use Rattle.link_traits.specs.Views.{Adds, KeepsWishes};
ghost use Rattle.link_traits.specs.declared.links.Wishes.{Wishes};
ghost use Rattle.proxy_loop.specs.Works.{Any, Goes, Stood, read_room, shuts_now, wishes_of, ShutBoth, is_full as is_full_side, KeepsEnd};
ghost use Rattle.proxy_loop.specs.Runs.{Sound, KeepsPlace, KeepsShut, KeepsSessions, WroteBoth, Reads, LogsIf, ReadsAndLogs, Serving};

use crate::link_work::{LinkState, is_full, read_once, shut_done, state_wishes, write_out};
use crate::log_work::log_new;
use link_traits::{Link, Net, Side, Sink};
use policy_args::Policy;
use proxy_core::Session;
use std::alloc::Global;

/// A session that isn't over, with its number, the block that it runs under and the states of its links.
#[derive(Drop)]
pub struct Running {
    pub number: u32,
    pub block: usize,
    pub session: Session,
    pub client: LinkState,
    pub bus: LinkState,
}

fn client_link(session: u32) -> Link
    ensures { result ≡ client_of session }
{
    Link {
        session,
        side: Side::Client,
    }
}

fn bus_link(session: u32) -> Link
    ensures { result ≡ bus_of session }
{
    Link {
        session,
        side: Side::Bus,
    }
}

/// Writes what waits for either link.
fn write_both<N: Net>(net: &mut N, running: &mut Running)
    requires { Sound running.old }
    ensures goes { Goes Any running.old.number running.old.session running.new.session (N.view net.old) (N.view net.new) (WroteBoth running.old.number running.old running.new) }
    ensures place { KeepsPlace running.old running.new }
    ensures shut { KeepsShut running.old running.new }
    ensures end { KeepsEnd running.old.session running.new.session }
    ensures sound { Sound running.new }
    ensures wishes { KeepsWishes (N.view net.old) (N.view net.new) }
{
    let number = running.number;
    let client = write_out(
        net,
        &mut running.session,
        running.client,
        client_link(number),
    );
    running.client = client;
    let bus = write_out(net, &mut running.session, running.bus, bus_link(number));
    running.bus = bus;
}

/// Reads the named link once.
fn read_named<N: Net>(
    net: &mut N,
    policy: &Policy,
    running: &mut Running,
    side: Side,
    buffer: &mut [u8],
)
    requires sound { Sound running.old }
    requires runs { running.old.session.ended ≡ None }
    requires room { length buffer.old ≡ read_room }
    ensures reads { Reads policy.now running.old.number side running.old running.new (N.view net.old) (N.view net.new) }
    ensures place { KeepsPlace running.old running.new }
    ensures shut { KeepsShut running.old running.new }
    ensures wishes { KeepsWishes (N.view net.old) (N.view net.new) }
{
    let link = Link {
        session: running.number,
        side,
    };
    let gone = read_once(net, policy, &mut running.session, link, buffer);
    match side {
        Side::Client => {
            running.client = LinkState {
                gone,
                shut: running.client.shut,
            };
        }
        Side::Bus => {
            running.bus = LinkState {
                gone,
                shut: running.bus.shut,
            };
        }
    }
}

/// Logs a session's new notes, if there is a log.
fn log_if<S: Sink>(sink: &mut S, alloc: Global, log: bool, number: u32, session: &mut Session)
    ensures { LogsIf log number session.old session.new (S.view sink.old) (S.view sink.new) }
{
    if log {
        log_new(sink, alloc, number, session);
    }
}

/// Whether nothing is to be read from a side of a session.
fn is_unread(session: &Session, side: Side) -> bool
    ensures { result ≡ (is_some session.now.ended || is_full_side side session.now) }
{
    session.ended().is_some() || is_full(session, side)
}

/// Reads the named link once and logs the new notes, unless nothing is to be read.
fn read_and_log<N: Net, S: Sink>(
    net: &mut N,
    sink: &mut S,
    alloc: Global,
    policy: &Policy,
    log: bool,
    running: &mut Running,
    side: Side,
    buffer: &mut [u8],
)
    requires sound { Sound running.old }
    requires log { running.old.session.mode.notes ≡ log }
    requires room { length buffer.old ≡ read_room }
    ensures reads { ReadsAndLogs policy.now log running.old.number side (is_some running.old.session.ended || is_full_side side running.old.session) running.old running.new (N.view net.old) (N.view net.new) (S.view sink.old) (S.view sink.new) }
    ensures place { KeepsPlace running.old running.new }
    ensures shut { KeepsShut running.old running.new }
    ensures sound { Sound running.new }
    ensures wishes { KeepsWishes (N.view net.old) (N.view net.new) }
{
    if is_unread(&running.session, side) {
        return;
    }
    read_named(net, policy, running, side, buffer);
    log_if(sink, alloc, log, running.number, &mut running.session);
}

/// Shuts what is to be shut.
pub fn shut_both<N: Net>(net: &mut N, running: &mut Running)
    ensures goes { Goes Any running.old.number running.old.session running.old.session (N.view net.old) (N.view net.new) (ShutBoth running.old.number (not running.old.client.shut && running.new.client.shut) (not running.old.bus.shut && running.new.bus.shut)) }
    ensures place { KeepsPlace running.old running.new }
    ensures session { running.new.session ≡ running.old.session }
    ensures client_shut { running.new.client.shut ≡ (running.old.client.shut || shuts_now Side.Client running.old.session running.old.client.gone) }
    ensures bus_shut { running.new.bus.shut ≡ (running.old.bus.shut || shuts_now Side.Bus running.old.session running.old.bus.gone) }
    ensures client_gone { running.new.client.gone ≡ running.old.client.gone }
    ensures bus_gone { running.new.bus.gone ≡ running.old.bus.gone }
    ensures client_kept { running.new.client.shut ≡ false → (N.view net.new).wishes (client_of running.old.number) ≡ (N.view net.old).wishes (client_of running.old.number) }
    ensures bus_kept { running.new.bus.shut ≡ false → (N.view net.new).wishes (bus_of running.old.number) ≡ (N.view net.old).wishes (bus_of running.old.number) }
    ensures wishes { KeepsSessions running.old.number (N.view net.old) (N.view net.new) }
{
    let number = running.number;
    let client = shut_done(net, &running.session, running.client, client_link(number));
    running.client = client;
    let bus = shut_done(net, &running.session, running.bus, bus_link(number));
    running.bus = bus;
}

/// States the wishes of both links.
pub fn wish_both<N: Net>(net: &mut N, running: &Running)
    ensures told { Adds (N.view net.old) (N.view net.new) [] }
    ensures client { running.now.client.shut ≡ false → (N.view net.new).wishes (client_of running.now.number) ≡ option_map (λ (_ : Wishes). wishes_of Side.Client running.now.session) ((N.view net.old).wishes (client_of running.now.number)) }
    ensures bus { running.now.bus.shut ≡ false → (N.view net.new).wishes (bus_of running.now.number) ≡ option_map (λ (_ : Wishes). wishes_of Side.Bus running.now.session) ((N.view net.old).wishes (bus_of running.now.number)) }
    ensures wishes { KeepsSessions running.now.number (N.view net.old) (N.view net.new) }
{
    state_wishes(
        net,
        &running.session,
        running.client,
        client_link(running.number),
    );
    state_wishes(net, &running.session, running.bus, bus_link(running.number));
}

/// What a turn does for a session on one of whose links something is ready: what waits for either link is written; the
/// named link is read once, and the new notes are logged; what waits then is written; links are shut, and the wishes of
/// the others are stated.
pub fn serve<N: Net, S: Sink>(
    net: &mut N,
    sink: &mut S,
    alloc: Global,
    policy: &Policy,
    log: bool,
    running: &mut Running,
    side: Side,
    buffer: &mut [u8],
)
    requires sound { Sound running.old }
    requires log { running.old.session.mode.notes ≡ log }
    requires stood { Stood policy.now running.old.session }
    requires room { length buffer.old ≡ read_room }
    ensures serving { Serving policy.now log running.old.number side running.old running.new (N.view net.old) (N.view net.new) (S.view sink.old) (S.view sink.new) }
    ensures place { KeepsPlace running.old running.new }
    ensures sound { Sound running.new }
    ensures client_shut { running.new.client.shut ≡ (running.old.client.shut || shuts_now Side.Client running.new.session running.new.client.gone) }
    ensures bus_shut { running.new.bus.shut ≡ (running.old.bus.shut || shuts_now Side.Bus running.new.session running.new.bus.gone) }
    ensures client_wishes { running.new.client.shut ≡ false → (N.view net.new).wishes (client_of running.old.number) ≡ option_map (λ (_ : Wishes). wishes_of Side.Client running.new.session) ((N.view net.old).wishes (client_of running.old.number)) }
    ensures bus_wishes { running.new.bus.shut ≡ false → (N.view net.new).wishes (bus_of running.old.number) ≡ option_map (λ (_ : Wishes). wishes_of Side.Bus running.new.session) ((N.view net.old).wishes (bus_of running.old.number)) }
    ensures wishes { KeepsSessions running.old.number (N.view net.old) (N.view net.new) }
{
    write_both(net, running);
    read_and_log(net, sink, alloc, policy, log, running, side, buffer);
    write_both(net, running);
    shut_both(net, running);
    wish_both(net, running);
}
