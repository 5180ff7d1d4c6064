//! One turn of the sessions of a server.
ghost use Rattle.std.specs.Prelude.{◌≡◌, ◌<◌, ℕ, length, OnOk, OnErr, IsErrOf};
ghost use Rattle.link_traits.specs.Views.{RoseAt};
ghost use Rattle.link_traits.specs.declared.links.Count.TheVariants.{Own as OfNet};
ghost use Rattle.proxy_loop.specs.Works.{read_room};
ghost use Rattle.proxy_loop.specs.Tables.{table_of, SoundTable, AllWished};
ghost use Rattle.proxy_loop.specs.Turns.{Still, WouldAccept, ReadyDid, is_done, answer_at, TurnDid};
ghost use Rattle.proxy_loop.specs.Servers.{GoesOn, LogExact};

use crate::accept::accept_new;
use crate::table::{Sessions, serve_named};
use link_traits::{Net, Ready, Sink};
use policy_args::Block;
use proxy_core::Room;
use std::alloc::{AllocError, Global};
use thiserror::Error;

/// What a turn that goes on answers.
#[derive(Clone, Copy, Debug, PartialEq, Eq)]
pub enum Turn {
    /// There may be more to do.
    Went,
    /// Nothing is left to be done: the net is quiet, or as many sessions as are served were accepted, and all are over.
    Stopped,
}

/// Why a server ends.
#[derive(Clone, Copy, Debug, PartialEq, Eq, Error)]
pub enum ServerEnd {
    /// The path of this block, counted from 0, could not be listened at.
    #[error("the path of block {0} could not be listened at")]
    Listen(u32),
    /// The net could not wait.
    #[error("the net could not wait")]
    Wait,
    /// Memory was refused.
    #[error("out of memory")]
    Memory,
}

/// What a turn does for what was ready.
fn work_on<N: Net, S: Sink>(
    net: &mut N,
    sink: &mut S,
    alloc: Global,
    blocks: &[Block],
    limit: u32,
    sessions: &mut Sessions,
    ready: Ready,
    buffer: &mut [u8],
    spare: &mut Room,
) -> Result<(), AllocError>
    requires sound { SoundTable blocks.now (table_of sessions.old).at }
    requires room { length buffer.old ≡ read_room }
    ensures did { OnOk result (ReadyDid blocks.now limit ready (table_of sessions.old) (table_of sessions.new) (N.view net.old) (N.view net.new) (S.view sink.old) (S.view sink.new)) }
    ensures err { OnErr result (Still (table_of sessions.old) (table_of sessions.new) (N.view net.old) (N.view net.new) (S.view sink.old) (S.view sink.new) × WouldAccept limit blocks.now ready (table_of sessions.old)) }
{
    match ready {
        Ready::Listener(listener) => {
            if sessions.accepted >= limit {
                return Ok(());
            }
            if listener as usize >= blocks.len() {
                return Ok(());
            }
            accept_new(net, alloc, blocks, sessions, listener)
        }
        Ready::Link(link) => {
            serve_named(net, sink, alloc, blocks, sessions, link, buffer, spare);
            Ok(())
        }
        Ready::Quiet => Ok(()),
        Ready::Failed => Ok(()),
    }
}

/// Whether all sessions that may come were accepted, and are over.
fn is_all_done(limit: u32, sessions: &Sessions) -> bool
    ensures { result ≡ is_done limit (table_of sessions.now) }
{
    sessions.accepted >= limit && sessions.running.len() == 0
}

/// What a turn answers.
fn answer(ready: Ready, limit: u32, sessions: &Sessions) -> Result<Turn, ServerEnd>
    ensures { result ≡ answer_at (is_done limit (table_of sessions.now)) ready }
{
    let done = is_all_done(limit, sessions);
    match ready {
        Ready::Quiet => Ok(Turn::Stopped),
        Ready::Failed => {
            if done {
                Ok(Turn::Stopped)
            } else {
                Err(ServerEnd::Wait)
            }
        }
        Ready::Listener(_) | Ready::Link(_) => {
            if done {
                Ok(Turn::Stopped)
            } else {
                Ok(Turn::Went)
            }
        }
    }
}

/// One turn: waits once, and does the work for what was ready.
pub fn take_turn<N: Net, S: Sink>(
    net: &mut N,
    sink: &mut S,
    alloc: Global,
    blocks: &[Block],
    limit: u32,
    sessions: &mut Sessions,
    buffer: &mut [u8],
    spare: &mut Room,
) -> Result<Turn, ServerEnd>
    requires sound { SoundTable blocks.now (table_of sessions.old).at }
    requires room { length buffer.old ≡ read_room }
    ensures did { TurnDid blocks.now limit (table_of sessions.old) (table_of sessions.new) (N.view net.old) (N.view net.new) (S.view sink.old) (S.view sink.new) result }
    ensures sound { SoundTable blocks.now (table_of sessions.new).at }
    ensures serves { GoesOn blocks.now (table_of sessions.old) (table_of sessions.new) (N.view net.old) (N.view net.new) }
    ensures wished { AllWished (table_of sessions.old).at (N.view net.old) → AllWished (table_of sessions.new).at (N.view net.new) }
    ensures log { LogExact blocks.now (table_of sessions.old) (table_of sessions.new) (N.view net.old) (N.view net.new) (S.view sink.old) (S.view sink.new) }
    ensures wait { IsErrOf result ServerEnd.Wait → RoseAt OfNet (N.view net.old) (N.view net.new) }
{
    let ready = net.wait();
    let worked = work_on(
        net, sink, alloc, blocks, limit, sessions, ready, buffer, spare,
    );
    if worked.is_err() {
        return Err(ServerEnd::Memory);
    }
    answer(ready, limit, sessions)
}
