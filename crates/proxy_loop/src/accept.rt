//! A client that waits at a listener becomes a session.
ghost use Rattle.std.specs.Prelude.{◌≡◌, ◌<◌, ◌-◌, ◌^◌, [], false, Some, None, OnOk, OnErr, length, slice_get, string_bytes};
ghost use Rattle.link_traits.specs.Answers.{client_link as client_of, bus_link as bus_of, no_wishes};
ghost use Rattle.link_traits.specs.Views.{KeepsOthers};
ghost use Rattle.policy_args.specs.declared.line.Block.{Block as BlockData};
ghost use Rattle.proxy_loop.specs.Works.{Any, Goes, shuts_now, wishes_of};
ghost use Rattle.proxy_loop.specs.Runs.{Sound, KeepsPlace, KeepsSessions};
ghost use Rattle.proxy_loop.specs.Tables.{table_of, session_mode};
ghost use Rattle.proxy_loop.specs.Turns.{at_first, OneConnect, Opened, AcceptDid, SameTable};

use crate::link_work::LinkState;
use crate::serving::{Running, shut_both, wish_both};
use crate::table::{Sessions, hold};
use link_traits::{Accepted, Net, NetFault, Side};
use policy_args::{Block, Options};
use policy_view::{End, Mode};
use proxy_core::Session;
use std::alloc::{AllocError, Global};

/// How a session is held under the options of its block.
fn mode_of(options: &Options) -> Mode
    ensures { result ≡ session_mode options.now }
{
    Mode {
        auth: true,
        filter: options.filter,
        notes: options.log,
    }
}

/// Connects a new session to its bus.
fn connect_new<N: Net>(net: &mut N, running: &mut Running, address: &str)
    requires sound { Sound running.old }
    requires runs { running.old.session.ended ≡ None }
    requires open { running.old.bus.gone ≡ false }
    ensures goes { Goes Any running.old.number running.old.session running.new.session (N.view net.old) (N.view net.new) (OneConnect running.old.number address.now running.new.session.ended running.new.bus.gone) }
    ensures place { KeepsPlace running.old running.new }
    ensures client { running.new.client ≡ running.old.client }
    ensures shut { running.new.bus.shut ≡ running.old.bus.shut }
    ensures queue { running.new.session.bus_side ≡ running.old.session.bus_side }
    ensures sound { Sound running.new }
    ensures made { running.new.session.ended ≡ None → (N.view net.new).wishes (bus_of running.old.number) ≡ Some no_wishes }
    ensures wishes { KeepsOthers (bus_of running.old.number) (N.view net.old) (N.view net.new) }
{
    match net.connect(running.number, address) {
        Ok(()) => {}
        Err(NetFault::Failed) => {
            running.session.stop(End::BusConnect);
            running.bus = LinkState {
                gone: true,
                shut: running.bus.shut,
            };
        }
        Err(NetFault::Memory) => {
            running.session.stop(End::Memory);
        }
    }
}

/// A session that has no number and no links yet.
fn fresh_session(block: usize, session: Session) -> Running
    ensures block { result.block ≡ block }
    ensures session { result.session ≡ session }
    ensures client { result.client ≡ at_first }
    ensures bus { result.bus ≡ at_first }
{
    let state = LinkState {
        gone: false,
        shut: false,
    };
    Running {
        number: 0,
        block,
        session,
        client: state,
        bus: state,
    }
}

/// Opens the session of an accepted client: connects it, and states its wishes.
fn open_new<N: Net>(net: &mut N, running: &mut Running, number: u32, address: &str)
    requires sound { Sound running.old }
    requires runs { running.old.session.ended ≡ None }
    requires empty { running.old.session.bus_side ≡ [] }
    requires open { (running.old.client ≡ at_first) × (running.old.bus ≡ at_first) }
    requires made { (N.view net.old).wishes (client_of number) ≡ Some no_wishes }
    ensures goes { Goes Any number running.old.session running.new.session (N.view net.old) (N.view net.new) (Opened number address.now running.new) }
    ensures number { running.new.number ≡ number }
    ensures block { running.new.block ≡ running.old.block }
    ensures sound { Sound running.new }
    ensures client_shut { running.new.client.shut ≡ shuts_now Side.Client running.new.session running.new.client.gone }
    ensures bus_shut { running.new.bus.shut ≡ shuts_now Side.Bus running.new.session running.new.bus.gone }
    ensures client_wishes { running.new.client.shut ≡ false → (N.view net.new).wishes (client_of number) ≡ Some (wishes_of Side.Client running.new.session) }
    ensures bus_wishes { running.new.bus.shut ≡ false → (N.view net.new).wishes (bus_of number) ≡ Some (wishes_of Side.Bus running.new.session) }
    ensures wishes { KeepsSessions number (N.view net.old) (N.view net.new) }
{
    running.number = number;
    connect_new(net, running, address);
    shut_both(net, running);
    wish_both(net, running);
}

/// Accepts once, with all memory of the new session taken before.
pub fn accept_new<N: Net>(
    net: &mut N,
    alloc: Global,
    blocks: &[Block],
    sessions: &mut Sessions,
    listener: u32,
) -> Result<(), AllocError>
    requires listener { listener < length blocks.now }
    requires room { sessions.old.accepted < 2 ^ 32 - 1 }
    ensures did { OnOk result ((block : BlockData) → slice_get blocks.now listener ≡ Some block → AcceptDid blocks.now listener (string_bytes block.address) (table_of sessions.old) (table_of sessions.new) (N.view net.old) (N.view net.new)) }
    ensures err { OnErr result (SameTable (table_of sessions.old) (table_of sessions.new)) }
    ensures still { OnErr result (N.view net.new ≡ N.view net.old) }
{
    sessions.running.reserve(1)?;
    let place = listener as usize;
    let block = &blocks[place];
    let session = Session::new(alloc, &block.options.policy, mode_of(&block.options))?;
    let mut running = Box::new(alloc, fresh_session(place, session))?;
    match net.accept(listener) {
        Accepted::New(number) => {
            open_new(net, &mut *running, number, &block.address);
            sessions.accepted += 1;
            hold(&mut sessions.running, running);
            Ok(())
        }
        Accepted::NotReady => Ok(()),
        Accepted::Failed => Ok(()),
        Accepted::Memory => Ok(()),
    }
}
