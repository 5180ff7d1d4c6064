//! A whole run.
ghost use Rattle.std.specs.Prelude.{◌≡◌, true, false};
ghost use Rattle.link_traits.specs.Texts.{texts_of};
ghost use Rattle.proxy_main.specs.Words.{names_tool};
ghost use Rattle.proxy_main.specs.ToolRuns.{ToolRun};
ghost use Rattle.proxy_main.specs.LineRuns.{LineRun, MadeBy};

use crate::Status;
use crate::serving::serve_words;
use crate::tools::tool;
use link_traits::{Files, Net, OpenGate, Sink};
use std::alloc::Global;
use std::thread::Threads;

/// The program. The words are those after the program's name: a tool's, or a proxy line. A tool works on the files, and
/// has no part of the net. A proxy line is served over the net until nothing is left to be served; its log goes to
/// `err`, and `out` gets nothing. `rt` is the runtime by which a tool's jobs are joined.
pub fn run<R: Threads + Sync, F: Files, N: Net, O: Sink, E: Sink>(
    rt: &R,
    alloc: Global,
    words: &[String],
    files: &mut F,
    net: &mut N,
    out: &mut O,
    err: &mut E,
) -> Status
    // A tool: each part of `ToolRun` is a promise. The net is as before.
    ensures tool { names_tool (texts_of words.now) ≡ true → ToolRun (texts_of words.now) (F.view files.old) (F.view files.new) (O.view out.old) (O.view out.new) (E.view err.old) (E.view err.new) result.code }
    ensures net { names_tool (texts_of words.now) ≡ true → net.new ≡ net.old }

    // A proxy line: each part of `LineRun` is a promise. What `out` has is as before.
    ensures line { names_tool (texts_of words.now) ≡ false → LineRun (MadeBy N.view N.takes net.old) (texts_of words.now) (F.view files.old) (F.view files.new) (N.view net.old) (N.view net.new) (E.view err.old) (E.view err.new) result.code }
    ensures out { names_tool (texts_of words.now) ≡ false → out.new ≡ out.old }
{
    match tool(rt, &OpenGate, alloc, words, files, out, err) {
        Some(status) => status,
        None => serve_words(alloc, words, files, net, err),
    }
}
