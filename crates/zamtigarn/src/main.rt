//! A filtering D-Bus proxy: its program.
//!
//! It fills closed standard streams, and gives the words, the disk's files and the standard streams to
//! `proxy_main::start_process`, which runs a tool. A proxy line is served by `proxy_main::run` over Unix sockets. The
//! program ends with the status that these answer.
#![tactic(auto)]

ghost use Rattle.std.specs.Prelude.{◌≡◌, ◌≢◌};
ghost use Rattle.std.specs.IoError.{error_kind};

use process_streams::{ProcessArguments, ProcessFault, StdSink, SystemDescriptors, fill_closed};
use proxy_main::{DiskFiles, Start, SystemDisk, fault_status, run, start_process};
use proxy_net::MioNet;
use std::io::{self, ErrorKind};
use std::process::ExitCode;

/// Why there is no net: memory was refused, or the system gives none.
fn without_net(error: &io::Error) -> ProcessFault
    ensures memory { error_kind error.now ≡ ErrorKind.OutOfMemory → result ≡ ProcessFault.Memory }
    ensures none { error_kind error.now ≢ ErrorKind.OutOfMemory → result ≡ ProcessFault.NoNet }
{
    if error.kind() == ErrorKind::OutOfMemory {
        ProcessFault::Memory
    } else {
        ProcessFault::NoNet
    }
}

fn main(rt: HostRuntime) -> ExitCode {
    let mut out = StdSink::new(rt.stdout(), &rt);
    let mut err = StdSink::new(rt.stderr(), &rt);

    // The descriptors in place of closed streams stay open to the end.
    let mut descriptors = SystemDescriptors::new(&rt);
    let held = match fill_closed(rt.alloc(), &mut descriptors) {
        Ok(held) => held,
        Err(fault) => return ExitCode::from(fault_status(rt.alloc(), fault, &mut err).code),
    };

    let mut files = DiskFiles::new(SystemDisk::new(&rt));
    let arguments = ProcessArguments::new(&rt);
    let started = start_process(&rt, rt.alloc(), &arguments, &mut files, &mut out, &mut err);
    let words = match started {
        Start::Ended(status) => return ExitCode::from(status.code),
        Start::Line(words) => words,
    };

    let mut net = match MioNet::new(&rt) {
        Ok(net) => net,
        Err(error) => {
            let status = fault_status(rt.alloc(), without_net(&error), &mut err);
            return ExitCode::from(status.code);
        }
    };
    let status = run(
        &rt,
        rt.alloc(),
        &words,
        &mut files,
        &mut net,
        &mut out,
        &mut err,
    );
    net.remove_sockets();
    drop(held);
    ExitCode::from(status.code)
}
