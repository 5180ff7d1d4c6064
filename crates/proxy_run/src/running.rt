//! Listening, and turns until one is the last.
ghost use Rattle.std.specs.Prelude.{◌≡◌, ◌≤◌, ℕ, IsErrOf};
ghost use Rattle.link_traits.specs.Views.{RoseAt};
ghost use Rattle.link_traits.specs.declared.links.Count.TheVariants.{Own as OfNet};
ghost use Rattle.proxy_loop.specs.Tables.{IsEmpty};
ghost use Rattle.proxy_loop.specs.LineServers.{blocks_of, limit_of, sessions_of};
ghost use Rattle.proxy_run.specs.Runs.{RunDid, TookTurns, RunLinks, end_at};
ghost use Rattle.proxy_run.specs.Logs.{RunLogs};

use link_traits::{Net, Sink};
use policy_args::ProxyLine;
use proxy_loop::{Server, ServerEnd, Turn};
use std::alloc::Global;

/// Serves a proxy line over a net: listens at the path of each block, and takes turns until a turn has nothing left to
/// do or ends the server, at most 18,446,744,073,709,551,615 of them. The lines of the messages of sessions whose block
/// has `--log` go to `log`.
pub fn serve<N: Net, S: Sink>(
    alloc: Global,
    line: ProxyLine,
    net: &mut N,
    log: &mut S,
) -> Result<(), ServerEnd>
    // Each turn did what a turn does, and the run ended by the answer of the last one.
    ensures did { RunDid line.blocks.items line.sessions (N.view net.old) (N.view net.new) (S.view log.old) (S.view log.new) result }

    // What was written to the links, and to the log, over the whole run.
    ensures links { RunLinks line.blocks.items (N.view net.old) (N.view net.new) }
    ensures log { RunLogs line.blocks.items (N.view net.old) (N.view net.new) (S.view log.old) (S.view log.new) }

    // Listening or waiting fails only if the net's own count of faults rose.
    ensures listen { (k : ℕ) → IsErrOf result (ServerEnd.Listen k) → RoseAt OfNet (N.view net.old) (N.view net.new) }
    ensures wait { IsErrOf result ServerEnd.Wait → RoseAt OfNet (N.view net.old) (N.view net.new) }
    ensures count { (S.view log.old).faults ≤ (S.view log.new).faults }
{
    listen_and_serve(alloc, line, net, log)
}

/// Listens, and takes turns once all paths are listened at.
fn listen_and_serve<N: Net, S: Sink>(
    alloc: Global,
    line: ProxyLine,
    net: &mut N,
    log: &mut S,
) -> Result<(), ServerEnd>
    ensures { RunDid line.blocks.items line.sessions (N.view net.old) (N.view net.new) (S.view log.old) (S.view log.new) result }
{
    match Server::new(alloc, line) {
        Ok(mut server) => {
            server.listen(net)?;
            take_turns(&mut server, net, log)
        }
        Err(_) => Err(ServerEnd::Memory),
    }
}

/// Takes turns until one is the last.
fn take_turns<N: Net, S: Sink>(
    server: &mut Server,
    net: &mut N,
    log: &mut S,
) -> Result<(), ServerEnd>
    requires { IsEmpty (sessions_of server.old) }
    ensures { TookTurns (blocks_of server.old) (limit_of server.old) (N.view net.old) (N.view net.new) (S.view log.old) (S.view log.new) result }
{
    for count in 0..u64::MAX {
        if let Some(end) = end_of(server.turn(net, log)) {
            return end;
        }
    }
    Ok(())
}

/// How a run ends with the answer of a turn, if it does.
fn end_of(answer: Result<Turn, ServerEnd>) -> Option<Result<(), ServerEnd>>
    ensures { result ≡ end_at answer }
{
    match answer {
        Ok(Turn::Went) => None,
        Ok(Turn::Stopped) => Some(Ok(())),
        Err(end) => Some(Err(end)),
    }
}
