//! The tools: what works on files.
ghost use Rattle.std.specs.Prelude.{◌≡◌, ◌↔◌, false, None, IfSome};
ghost use Rattle.link_traits.specs.Texts.{texts_of};
ghost use Rattle.proxy_main.specs.Words.{names_tool};
ghost use Rattle.proxy_main.specs.ToolRuns.{ToolRun};

use crate::Status;
use crate::stops::tell;
use crate::words::is_tool;
use crate::work::work;
use link_traits::{Files, Gate, Sink};
use std::alloc::Global;
use std::thread::Threads;

/// The tool that the words name, if they name one: the first of them does, or `--help` or `--version` is the only one.
/// Else nothing is read or written. `rt` is the runtime by which the jobs of `audit` and of `suggest` are joined, and
/// `gate` is entered by each job, which has the number of its recording from 1, before its work.
///
/// The tool reads its words, then each file that they name, and does its work. What it gives out goes to `out`. Before
/// that the log goes to `err`, if one is asked for, and a line on what went wrong follows it there. Memory grows with
/// the bytes of the files.
pub fn tool<R: Threads + Sync, G: Gate + Sync, F: Files, O: Sink, E: Sink>(
    rt: &R,
    gate: &G,
    alloc: Global,
    words: &[String],
    files: &mut F,
    out: &mut O,
    err: &mut E,
) -> Option<Status>
    ensures none { (names_tool (texts_of words.now) ≡ false) ↔ (result ≡ None) }
    ensures runs { IfSome result (λ status. ToolRun (texts_of words.now) (F.view files.old) (F.view files.new) (O.view out.old) (O.view out.new) (E.view err.old) (E.view err.new) status.code) }
    ensures files { result ≡ None → files.new ≡ files.old }
    ensures out { result ≡ None → out.new ≡ out.old }
    ensures err { result ≡ None → err.new ≡ err.old }
{
    if is_tool(words) {
        return Some(run_tool(rt, gate, alloc, words, files, out, err));
    }
    None
}

/// The run of the tool that the words name, or of none.
fn run_tool<R: Threads + Sync, G: Gate + Sync, F: Files, O: Sink, E: Sink>(
    rt: &R,
    gate: &G,
    alloc: Global,
    words: &[String],
    files: &mut F,
    out: &mut O,
    err: &mut E,
) -> Status
    ensures { ToolRun (texts_of words.now) (F.view files.old) (F.view files.new) (O.view out.old) (O.view out.new) (E.view err.old) (E.view err.new) result.code }
{
    match work(rt, gate, alloc, words, files, out, err) {
        Ok(status) => status,
        Err(stop) => tell(alloc, stop, err),
    }
}
