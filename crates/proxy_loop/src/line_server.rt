//! The server of a proxy line.
ghost use Rattle.std.specs.Prelude.{◌≡◌, ◌<◌, ◌^◌, length};
ghost use Rattle.proxy_loop.specs.Works.{read_room};
ghost use Rattle.proxy_loop.specs.Tables.{table_of, SoundTable};

use crate::listening::listen;
use crate::table::Sessions;
use crate::turns::{ServerEnd, Turn, take_turn};
use link_traits::{Net, Sink};
use policy_args::{Block, ProxyLine};
use proxy_core::Room;
use std::alloc::{AllocError, Global};
use std::collections::HashMap;

/// How many bytes a link is read into at once.
const READ_ROOM: usize = 65_536;

/// A server of a proxy line: it listens at the path of each block, and connects each client that comes to that block's
/// bus. It is driven by `turn`, once `listen` was called.
#[derive(Drop)]
pub struct Server {
    alloc: Global,
    blocks: Vec<Block>,
    limit: u32,
    sessions: Sessions,
    // What a link is read into, for all sessions.
    buffer: Vec<u8>,
    // Memory that one session gives back, and the next one takes.
    spare: Room,
    ghost fits: { length blocks.items < 2 ^ 32 },
    ghost room: { length buffer.items ≡ read_room },
    ghost sound: { SoundTable blocks.items (table_of sessions).at },
}

impl Server {
    ghost use Rattle.std.specs.Prelude.{ℕ, IfOk, IsErrOf};
    ghost use Rattle.link_traits.specs.Journals.{Journal};
    ghost use Rattle.link_traits.specs.Views.{NetView, RoseAt};
    ghost use Rattle.link_traits.specs.declared.links.Count.TheVariants.{Own as OfNet};
    ghost use Rattle.proxy_loop.specs.Tables.{IsEmpty, AllWished};
    ghost use Rattle.proxy_loop.specs.Turns.{TurnDid};
    ghost use Rattle.proxy_loop.specs.Servers.{Serves, GoesOn, LogExact, LinksStand, QueuesStand, WithoutSessions};
    ghost use Rattle.proxy_loop.specs.Listening.{ListenDid};
    ghost use Rattle.proxy_loop.specs.LineServers.{blocks_of, limit_of, sessions_of};

    /// A server that has served nothing. Refused if memory is refused, and if the line has more blocks than there are
    /// numbers for listeners.
    pub fn new(alloc: Global, line: ProxyLine) -> Result<Server, AllocError>
        ensures blocks { IfOk result (λ s. blocks_of s ≡ line.blocks.items) }
        ensures limit { IfOk result (λ s. limit_of s ≡ line.sessions) }
        ensures empty { IfOk result (λ s. IsEmpty (sessions_of s)) }
        ensures serves { IfOk result (λ s. (journal : Journal) → WithoutSessions journal → Serves (blocks_of s) (sessions_of s) journal) }
        ensures wished { IfOk result (λ s. (net : NetView) → AllWished (sessions_of s).at net) }
    {
        if line.blocks.len() > u32::MAX as usize {
            return Err(AllocError);
        }
        let buffer = vec![in alloc; 0; READ_ROOM]?;
        Ok(Server {
            alloc,
            blocks: line.blocks,
            limit: line.sessions,
            sessions: Sessions {
                accepted: 0,
                running: HashMap::new(alloc),
            },
            buffer,
            spare: Room::new(alloc),
        })
    }

    /// Listens at the path of each block in the order of the blocks, and stops at the first one that is refused; the
    /// listeners before it stand. It is called once.
    pub fn listen<N: Net>(&mut self, net: &mut N) -> Result<(), ServerEnd>
        ensures did { ListenDid (blocks_of self.old) (N.view net.old) (N.view net.new) result }
        ensures same { self.new ≡ self.old }
        ensures serves { GoesOn (blocks_of self.old) (sessions_of self.old) (sessions_of self.old) (N.view net.old) (N.view net.new) }
        ensures cause { (k : ℕ) → IsErrOf result (ServerEnd.Listen k) → RoseAt OfNet (N.view net.old) (N.view net.new) }
    {
        listen(net, &self.blocks)
    }

    /// One turn: waits once until something is ready, and does the work for it. A client that waits is accepted, unless
    /// as many sessions as are served were accepted before. For a session on one of whose links something is ready,
    /// what waits is written, that link is read once, the lines of the new notes are logged, and what waits then is
    /// written.
    pub fn turn<N: Net, S: Sink>(&mut self, net: &mut N, sink: &mut S) -> Result<Turn, ServerEnd>
        ensures did { TurnDid (blocks_of self.old) (limit_of self.old) (sessions_of self.old) (sessions_of self.new) (N.view net.old) (N.view net.new) (S.view sink.old) (S.view sink.new) result }
        ensures blocks { blocks_of self.new ≡ blocks_of self.old }
        ensures limit { limit_of self.new ≡ limit_of self.old }
        ensures serves { GoesOn (blocks_of self.old) (sessions_of self.old) (sessions_of self.new) (N.view net.old) (N.view net.new) }
        ensures wished { AllWished (sessions_of self.old).at (N.view net.old) → AllWished (sessions_of self.new).at (N.view net.new) }
        ensures log { LogExact (blocks_of self.old) (sessions_of self.old) (sessions_of self.new) (N.view net.old) (N.view net.new) (S.view sink.old) (S.view sink.new) }
        ensures links { (journal : Journal) → Serves (blocks_of self.new) (sessions_of self.new) journal → LinksStand (blocks_of self.new) journal }
        ensures queues { (journal : Journal) → Serves (blocks_of self.new) (sessions_of self.new) journal → QueuesStand (blocks_of self.new) (sessions_of self.new) journal }
        ensures wait { IsErrOf result ServerEnd.Wait → RoseAt OfNet (N.view net.old) (N.view net.new) }
    {
        take_turn(
            net,
            sink,
            self.alloc,
            &self.blocks,
            self.limit,
            &mut self.sessions,
            &mut self.buffer,
            &mut self.spare,
        )
    }
}
