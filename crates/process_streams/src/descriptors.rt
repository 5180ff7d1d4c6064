//! The three standard descriptors, which must be open before anything else is opened.
ghost use Rattle.std.specs.Prelude.{◌≡◌, ◌++◌, ◌∷◌, [], ℤ, Bool, Option, List, map, IfOk, IfErr, IfSome, OnErr};
ghost use Rattle.process_streams.specs.Descriptors.{Filled, StopsFor, is_standard as is_standard_number};

use crate::faults::ProcessFault;
use std::alloc::Global;
use std::fs::{File, OpenOptions};
use std::os::fd::{AsFd, AsRawFd, RawFd};
use thiserror::Error;

/// The device that takes all and gives nothing.
const NULL_DEVICE: &str = "/dev/null";

/// The error number of Linux for a descriptor that is closed.
const EBADF: i32 = 9;

/// The number of standard descriptors.
const STANDARD_COUNT: usize = 3;

/// The greatest number of a standard descriptor, that of standard error.
const GREATEST_STANDARD: RawFd = 2;

/// Why the null device was not opened.
#[derive(Clone, Copy, Debug, PartialEq, Eq, Error)]
pub enum OpenFault {
    /// There is no such device, or it could not be opened.
    #[error("the null device could not be opened")]
    Failed,
    /// Memory was refused.
    #[error("out of memory")]
    Memory,
}

/// What opens descriptors.
pub trait Descriptors {
    /// An open descriptor.
    type Opened: Drop;

    /// Its number.
    ghost number: { Self.Opened → ℤ };

    /// The numbers of the descriptors that `open_null` has opened, in order.
    ghost given: { Self → List ℤ };

    /// Whether one of the three standard descriptors is closed, if that is known.
    ghost closed: { Self → Option Bool };

    /// Opens the null device. The system gives the lowest number that is free.
    fn open_null(&mut self) -> Result<Self::Opened, OpenFault>
        ensures ok { IfOk result (λ opened. given self.new ≡ given self.old ++ number opened ∷ []) }
        ensures err { OnErr result (given self.new ≡ given self.old) };

    /// The number of a descriptor.
    fn number_of(&self, opened: &Self::Opened) -> RawFd
        ensures { result ≡ number opened.now };

    /// Whether one of the three standard descriptors is closed.
    fn has_closed(&self) -> bool
        ensures { IfSome (closed self.now) (λ c. result ≡ c) };
}

/// Whether a number is that of a standard descriptor.
fn is_standard(number: RawFd) -> bool
    ensures { result ≡ is_standard_number number }
{
    number <= GREATEST_STANDARD
}

/// Opens the null device as each of the three standard descriptors that is closed. These stay open as long as the
/// result is kept.
///
/// The system gives the lowest number that is free, so all three are open once it gives a greater one, which is closed
/// again. If the null device cannot be opened, each of the three is tested by a duplicate of it.
pub fn fill_closed<D: Descriptors>(
    alloc: Global,
    descriptors: &mut D,
) -> Result<Vec<D::Opened>, ProcessFault>
    ensures filled { IfOk result (λ held. Filled (D.given descriptors.old) (D.given descriptors.new) (map D.number held.items) (D.closed descriptors.new)) }
    ensures err { IfErr result (λ fault. StopsFor (D.closed descriptors.new) fault) }
{
    let mut held = Vec::new(alloc);
    for _ in 0..STANDARD_COUNT {
        match descriptors.open_null() {
            Ok(opened) if is_standard(descriptors.number_of(&opened)) => {
                if held.push(opened).is_err() {
                    return Err(ProcessFault::Memory);
                }
            }
            Ok(_) => return Ok(held),
            Err(OpenFault::Memory) => return Err(ProcessFault::Memory),
            Err(OpenFault::Failed) if descriptors.has_closed() => {
                return Err(ProcessFault::ClosedStream);
            }
            Err(OpenFault::Failed) => return Ok(held),
        }
    }
    Ok(held)
}

/// The descriptors of this process.
#[derive(Drop)]
pub struct SystemDescriptors<'a> {
    rt: &'a HostRuntime,
    numbers: Vec<RawFd>,
}

impl<'a> SystemDescriptors<'a> {
    /// The descriptors of this process, before one was opened.
    pub fn new(rt: &'a HostRuntime) -> SystemDescriptors<'a>
        ensures { result.numbers.items ≡ [] }
    {
        SystemDescriptors {
            rt,
            numbers: Vec::new(rt.alloc()),
        }
    }
}

impl<'a> Descriptors for SystemDescriptors<'a> {
    ghost use Rattle.std.specs.Prelude.{None};
    ghost use Rattle.std.specs.Fd.{file_raw_fd};

    type Opened = File;

    ghost number = { λ file. file_raw_fd file };

    ghost given = { λ descriptors. descriptors.numbers.items };

    ghost closed = { λ _. None };

    fn open_null(&mut self) -> Result<File, OpenFault> {
        if self.numbers.reserve(1).is_err() {
            return Err(OpenFault::Memory);
        }
        let mut options = OpenOptions::new();
        options.read(true).write(true);
        match options.open(self.rt, NULL_DEVICE) {
            Ok(file) => {
                let _ = self.numbers.push(file.as_raw_fd());
                Ok(file)
            }
            Err(_) => Err(OpenFault::Failed),
        }
    }

    fn number_of(&self, opened: &File) -> RawFd {
        opened.as_raw_fd()
    }

    fn has_closed(&self) -> bool {
        is_closed(&self.rt.stdin()) || is_closed(&self.rt.stdout()) || is_closed(&self.rt.stderr())
    }
}

/// Whether a descriptor is closed. A second descriptor of it, which the system makes for any that is open, has a number
/// above 2 and is closed at once.
fn is_closed<S: AsFd>(stream: &S) -> bool {
    match stream.as_fd().try_clone_to_owned() {
        Ok(_) => false,
        Err(error) => error.raw_os_error() == Some(EBADF),
    }
}
