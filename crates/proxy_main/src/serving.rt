//! The run of a proxy line.
ghost use Rattle.std.specs.Prelude.{◌≡◌, ◌≢◌, ◌≤◌, ◌⊎◌, [], ℕ, List, Some, IsErrOf, IsOk, OnErr, OnOk, true, false};
ghost use Rattle.link_traits.specs.Views.{FilesRose, SinkRose, Adds, KeepsWishes, RoseAt};
ghost use Rattle.link_traits.specs.declared.links.Count.TheVariants.{Own as OfNet};
ghost use Rattle.link_traits.specs.Texts.{texts_of};
ghost use Rattle.proxy_main.specs.Endings.{Said};
ghost use Rattle.proxy_main.specs.LineRuns.{LineRun, LineRan, LineWent, MadeBy, EndSaid, asks_setting, record_path, setting_of, IsToldAs, SettingSaid};

use crate::lines::say;
use crate::recorded::record_line;
use crate::stops::{tell, tell_memory};
use crate::{Refusal, Status, Stop};
use line_words::{LineStop, read_words};
use link_traits::{Files, Net, NetFault, Setting, Sink};
use policy_args::ProxyLine;
use proxy_loop::ServerEnd;
use proxy_run::serve;
use std::alloc::Global;

/// Serves the proxy line of the words, and gives the status.
pub fn serve_words<F: Files, N: Net, E: Sink>(
    alloc: Global,
    words: &[String],
    files: &mut F,
    net: &mut N,
    err: &mut E,
) -> Status
    ensures { LineRun (MadeBy N.view N.takes net.old) (texts_of words.now) (F.view files.old) (F.view files.new) (N.view net.old) (N.view net.new) (E.view err.old) (E.view err.new) result.code }
{
    match read_words(alloc, files, words) {
        Ok(line) => serve_line(alloc, line, files, net, err),
        Err(stop) => tell(alloc, told_as(&stop), err),
    }
}

/// Serves a line over a net, once that has taken what the line asks of it beside carrying links.
fn serve_line<F: Files, N: Net, E: Sink>(
    alloc: Global,
    line: ProxyLine,
    files: &mut F,
    net: &mut N,
    err: &mut E,
) -> Status
    ensures went { LineWent (MadeBy N.view N.takes net.old) line (F.view files.new).told (FilesRose (F.view files.old) (F.view files.new)) (SinkRose (E.view err.old) (E.view err.new)) (N.view net.old) (N.view net.new) (E.view err.old) (E.view err.new) result.code }
    ensures others { (p : List ℕ) → record_path line ≢ Some p → (F.view files.new).told p ≡ (F.view files.old).told p }
    ensures unread { (F.view files.new).reads ≡ (F.view files.old).reads }
    ensures count { (F.view files.old).faults ≤ (F.view files.new).faults }
{
    match prepare(&line, net) {
        Ok(()) => run_line(alloc, line, files, net, err),
        Err(fault) => tell_unprepared(fault, err),
    }
}

/// Has a net take what a line asks of it beside carrying links. The net isn't called for a line that asks for nothing.
fn prepare<N: Net>(line: &ProxyLine, net: &mut N) -> Result<(), NetFault>
    ensures unasked { asks_setting line.now ≡ false → net.new ≡ net.old }
    ensures asked { OnErr result (asks_setting line.now ≡ true) }
    ensures taken { OnOk result (asks_setting line.now ≡ true → N.takes net.old (setting_of line.now) net.new) }
    ensures told { Adds (N.view net.old) (N.view net.new) [] }
    ensures failed { IsErrOf result NetFault.Failed → RoseAt OfNet (N.view net.old) (N.view net.new) }
    ensures wishes { KeepsWishes (N.view net.old) (N.view net.new) }
{
    if !asks_setting(line) {
        return Ok(());
    }
    net.prepare(Setting {
        replaces: line.replaces,
        starter: line.starter,
    })
}

/// Whether a line asks its net for anything beside carrying links.
fn asks_setting(line: &ProxyLine) -> bool
    ensures { result ≡ asks_setting line.now }
{
    line.replaces || line.starter.is_some()
}

/// Says why a net didn't take a setting, and gives the status.
fn tell_unprepared<E: Sink>(fault: NetFault, err: &mut E) -> Status
    ensures said { SettingSaid (SinkRose (E.view err.old) (E.view err.new)) (E.view err.old) (E.view err.new) result.code fault }
    ensures count { (E.view err.old).faults ≤ (E.view err.new).faults }
{
    match fault {
        NetFault::Failed => tell_fault("error: fd\n", err),
        NetFault::Memory => tell_memory(err),
    }
}

/// Runs a line over a net, and records what the net gives, if the line asks for that.
fn run_line<F: Files, N: Net, E: Sink>(
    alloc: Global,
    line: ProxyLine,
    files: &mut F,
    net: &mut N,
    err: &mut E,
) -> Status
    ensures ran { LineRan line (F.view files.new).told (FilesRose (F.view files.old) (F.view files.new)) (SinkRose (E.view err.old) (E.view err.new)) (N.view net.old) (N.view net.new) (E.view err.old) (E.view err.new) result.code }
    ensures others { (p : List ℕ) → record_path line ≢ Some p → (F.view files.new).told p ≡ (F.view files.old).told p }
    ensures unread { (F.view files.new).reads ≡ (F.view files.old).reads }
    ensures count { (F.view files.old).faults ≤ (F.view files.new).faults }
{
    let mut line = line;
    match line.record_to.take() {
        Some(path) => record_line(alloc, line, path, files, net, err),
        None => {
            let end = serve(alloc, line, net, err);
            tell_end(end, err)
        }
    }
}

/// Why words give no line, as why a run stops.
fn told_as(stop: &LineStop) -> Stop<'_>
    ensures { IsToldAs stop.entry.now result }
{
    match stop {
        LineStop::File(path) => Stop::File(path.as_str()),
        LineStop::TooLong => Stop::Refused(Refusal::ArgsTooLong),
        LineStop::Bad(bad) => Stop::Refused(Refusal::LineWord(*bad)),
        LineStop::Memory => Stop::Memory,
    }
}

/// Says how a server ended, if something is wrong, and gives the status.
pub fn tell_end<E: Sink>(end: Result<(), ServerEnd>, err: &mut E) -> Status
    ensures told { EndSaid (SinkRose (E.view err.old) (E.view err.new)) (E.view err.old) (E.view err.new) result.code end }
    ensures count { (E.view err.old).faults ≤ (E.view err.new).faults }
{
    match end {
        Ok(()) => Status { code: 0 },
        Err(ServerEnd::Listen(_)) => tell_fault("error: listen\n", err),
        Err(ServerEnd::Wait) => tell_fault("error: wait\n", err),
        Err(ServerEnd::Memory) => tell_memory(err),
    }
}

/// Says that the net failed.
fn tell_fault<E: Sink>(line: &str, err: &mut E) -> Status
    ensures code { result.code ≡ 5 }
    ensures said { Said (SinkRose (E.view err.old) (E.view err.new)) (E.view err.old).told (E.view err.new).told line.now }
    ensures count { (E.view err.old).faults ≤ (E.view err.new).faults }
{
    say(err, line);
    Status { code: 5 }
}
