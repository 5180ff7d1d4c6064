//! The words of a process, and what they name.
ghost use Rattle.std.specs.Prelude.{◌≡◌, Some, pos};
ghost use Rattle.link_traits.specs.Views.{SinkRose};
ghost use Rattle.process_streams.specs.Faults.{FaultEnds};
ghost use Rattle.proxy_main.specs.Starts.{Starts, Ends, IsLine};
ghost use Rattle.proxy_main.specs.declared.process.Start.TheVariants.{Line};

use crate::Status;
use crate::tools::tool;
use link_traits::{Files, OpenGate, Sink};
use process_streams::{Arguments, ProcessFault, tell_fault, words_of_process};
use std::alloc::Global;
use std::os::fd::AsRawFd;
use std::thread::Threads;

/// What the words of a process come to before a net is needed.
#[derive(Drop)]
pub enum Start {
    /// The process ends with this status.
    Ended(Status),
    /// The words of a proxy line, which is to be served.
    Line(Vec<String>),
}

/// Runs the tool that the words of the process name. If they are a proxy line they are given back, and nothing is read
/// or written. `out` is standard output, and `err` is standard error.
pub fn start_process<
    R: Threads + Sync,
    A: Arguments,
    F: Files,
    O: Sink + AsRawFd,
    E: Sink + AsRawFd,
>(rt: &R, alloc: Global, arguments: &A, files: &mut F, out: &mut O, err: &mut E) -> Start
    requires out { O.raw_fd out.old ≡ Some (pos 1) }
    requires err { E.raw_fd err.old ≡ Some (pos 2) }
    ensures starts { Starts result (Ends (A.told arguments.now) (F.view files.old) (F.view files.new) (O.view out.old) (O.view out.new) (E.view err.old) (E.view err.new)) (IsLine (A.told arguments.now)) }
    ensures files { (words : _) → result ≡ Line words → files.new ≡ files.old }
    ensures out { (words : _) → result ≡ Line words → out.new ≡ out.old }
    ensures err { (words : _) → result ≡ Line words → err.new ≡ err.old }
{
    let words = match words_of_process(alloc, arguments) {
        Ok(words) => words,
        Err(fault) => return Start::Ended(fault_status(alloc, fault, err)),
    };
    match tool(rt, &OpenGate, alloc, &words, files, out, err) {
        Some(status) => Start::Ended(status),
        None => Start::Line(words),
    }
}

/// Writes the line of a fault, and gives its status.
pub fn fault_status<E: Sink>(alloc: Global, fault: ProcessFault, err: &mut E) -> Status
    ensures { FaultEnds (SinkRose (E.view err.old) (E.view err.new)) (E.view err.old).told (E.view err.new).told fault result.code }
{
    Status {
        code: tell_fault(alloc, fault, err),
    }
}
