//! The sessions that aren't over, by their numbers, and the one whose link is named.
ghost use Rattle.std.specs.Prelude.{◌≡◌, ◌<◌, nat_eq, length};
ghost use Rattle.std.specs.HashMap.{spare};
ghost use Rattle.proxy_loop.specs.Runs.{is_over};
ghost use Rattle.proxy_loop.specs.Works.{read_room};
ghost use Rattle.proxy_loop.specs.Tables.{at_in, table_of, Sets, unless_over, SoundUnder, SoundTable};
ghost use Rattle.proxy_loop.specs.Turns.{IsServed, LinkDid};

use crate::serving::{Running, serve};
use link_traits::{Link, Net, Side, Sink};
use policy_args::Block;
use proxy_core::Room;
use std::alloc::Global;
use std::collections::HashMap;

/// The sessions that aren't over, and how many were accepted.
#[derive(Drop)]
pub struct Sessions {
    pub accepted: u32,
    // Each stands in a place of its own, so that the table is small, and little is moved when it grows.
    pub running: HashMap<u32, Box<Running>>,
}

/// Whether a session has ended and both its links are shut.
fn is_session_over(running: &Running) -> bool
    ensures { result ≡ is_over running.now }
{
    running.session.ended().is_some() && running.client.shut && running.bus.shut
}

/// Serves one session under its block.
fn serve_at<N: Net, S: Sink>(
    net: &mut N,
    sink: &mut S,
    alloc: Global,
    blocks: &[Block],
    running: &mut Running,
    side: Side,
    buffer: &mut [u8],
)
    requires sound { SoundUnder blocks.now running.old }
    requires room { length buffer.old ≡ read_room }
    ensures served { IsServed blocks.now side running.old running.new (N.view net.old) (N.view net.new) (S.view sink.old) (S.view sink.new) }
{
    let block = &blocks[running.block];
    serve(
        net,
        sink,
        alloc,
        &block.options.policy,
        block.options.log,
        running,
        side,
        buffer,
    );
}

/// The side of a session's streams that a link feeds.
fn fed_side(side: Side) -> policy_view::Side {
    match side {
        Side::Client => policy_view::Side::Client,
        Side::Bus => policy_view::Side::Bus,
    }
}

/// Serves one session with the memory that the sessions before it gave back, and has it give back what it doesn't need.
fn serve_with<N: Net, S: Sink>(
    net: &mut N,
    sink: &mut S,
    alloc: Global,
    blocks: &[Block],
    running: &mut Running,
    side: Side,
    buffer: &mut [u8],
    spare: &mut Room,
)
    requires sound { SoundUnder blocks.now running.old }
    requires room { length buffer.old ≡ read_room }
    ensures served { IsServed blocks.now side running.old running.new (N.view net.old) (N.view net.new) (S.view sink.old) (S.view sink.new) }
{
    running.session.take_room(fed_side(side), spare);
    serve_at(net, sink, alloc, blocks, running, side, buffer);
    running.session.give_room(spare);
}

/// What a turn does for a link that is named.
pub fn serve_named<N: Net, S: Sink>(
    net: &mut N,
    sink: &mut S,
    alloc: Global,
    blocks: &[Block],
    sessions: &mut Sessions,
    link: Link,
    buffer: &mut [u8],
    spare: &mut Room,
)
    requires sound { SoundTable blocks.now (table_of sessions.old).at }
    requires room { length buffer.old ≡ read_room }
    ensures did { LinkDid blocks.now link ((table_of sessions.old).at link.session) (table_of sessions.old) (table_of sessions.new) (N.view net.old) (N.view net.new) (S.view sink.old) (S.view sink.new) }
{
    let Some(held) = sessions.running.get_mut(&link.session) else {
        return;
    };
    let running = &mut **held;
    serve_with(net, sink, alloc, blocks, running, link.side, buffer, spare);
    if !is_session_over(running) {
        return;
    }
    sessions.running.remove(&link.session);
}

/// Holds a new session, unless it is over. Its room was taken before.
pub fn hold(sessions: &mut HashMap<u32, Box<Running>>, running: Box<Running>)
    requires { 0 < spare sessions.old }
    ensures { Sets running.value.number (unless_over running.value) (at_in sessions.old) (at_in sessions.new) }
{
    if is_session_over(&*running) {
        sessions.remove(&running.number);
        return;
    }
    let _ = sessions.insert(running.number, running);
}
