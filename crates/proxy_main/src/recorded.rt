//! The run of a proxy line whose net is recorded.
ghost use Rattle.std.specs.Prelude.{◌≡◌, ◌≢◌, ◌≤◌, ℕ, List, Some, string_bytes};
ghost use Rattle.link_traits.specs.Views.{FilesRose, SinkRose};
ghost use Rattle.proxy_main.specs.LineRuns.{RecordRan, RecordSaid, TapeSaid};

use crate::serving::tell_end;
use crate::stops::{tell, tell_memory};
use crate::{Status, Stop};
use link_traits::{FileFault, Files, Net, Sink};
use policy_args::ProxyLine;
use recorded_run::{Recorded, serve_recorded};
use std::alloc::Global;

/// Serves a line while what its net gives is recorded in the file of a path. The file is made before anything is
/// listened at.
pub fn record_line<F: Files, N: Net, E: Sink>(
    alloc: Global,
    line: ProxyLine,
    path: String,
    files: &mut F,
    net: &mut N,
    err: &mut E,
) -> Status
    ensures ran { RecordRan line.blocks.items line.sessions (string_bytes path) (F.view files.new).told (FilesRose (F.view files.old) (F.view files.new)) (SinkRose (E.view err.old) (E.view err.new)) (N.view net.old) (N.view net.new) (E.view err.old) (E.view err.new) result.code }
    ensures others { (p : List ℕ) → p ≢ string_bytes path → (F.view files.new).told p ≡ (F.view files.old).told p }
    ensures unread { (F.view files.new).reads ≡ (F.view files.old).reads }
    ensures count { (F.view files.old).faults ≤ (F.view files.new).faults }
{
    let shown = path.as_str();
    match String::from_str(alloc, shown) {
        Ok(copy) => record_in(alloc, line, copy, shown, files, net, err),
        Err(_) => tell_memory(err),
    }
}

/// Serves a recorded line whose path is at hand twice: for the recording, and to be told if the file fails.
fn record_in<F: Files, N: Net, E: Sink>(
    alloc: Global,
    line: ProxyLine,
    path: String,
    shown: &str,
    files: &mut F,
    net: &mut N,
    err: &mut E,
) -> Status
    requires same { shown.now ≡ string_bytes path }
    ensures ran { RecordRan line.blocks.items line.sessions shown.now (F.view files.new).told (FilesRose (F.view files.old) (F.view files.new)) (SinkRose (E.view err.old) (E.view err.new)) (N.view net.old) (N.view net.new) (E.view err.old) (E.view err.new) result.code }
    ensures others { (p : List ℕ) → p ≢ shown.now → (F.view files.new).told p ≡ (F.view files.old).told p }
    ensures unread { (F.view files.new).reads ≡ (F.view files.old).reads }
    ensures count { (F.view files.old).faults ≤ (F.view files.new).faults }
{
    match serve_recorded(alloc, line, path, files, net, err) {
        Ok(recorded) => tell_recorded(alloc, shown, recorded, err),
        Err(fault) => tell_tape(alloc, shown, Some(fault), err),
    }
}

/// Says how a server ended, or if it is done that its recording failed, and gives the status.
fn tell_recorded<E: Sink>(alloc: Global, path: &str, recorded: Recorded, err: &mut E) -> Status
    ensures said { RecordSaid (SinkRose (E.view err.old) (E.view err.new)) (E.view err.old) (E.view err.new) result.code path.now recorded.end recorded.failed }
    ensures count { (E.view err.old).faults ≤ (E.view err.new).faults }
{
    match recorded.end {
        Ok(()) => tell_tape(alloc, path, recorded.failed, err),
        Err(why) => tell_end(Err(why), err),
    }
}

/// Says that the file of a recording failed, if it did, and gives the status.
fn tell_tape<E: Sink>(alloc: Global, path: &str, failed: Option<FileFault>, err: &mut E) -> Status
    ensures said { TapeSaid (SinkRose (E.view err.old) (E.view err.new)) (E.view err.old) (E.view err.new) result.code path.now failed }
    ensures count { (E.view err.old).faults ≤ (E.view err.new).faults }
{
    match failed {
        None => Status { code: 0 },
        Some(FileFault::Failed) => tell(alloc, Stop::File(path), err),
        Some(FileFault::TooLong) => tell(alloc, Stop::File(path), err),
        Some(FileFault::Memory) => tell_memory(err),
    }
}
