//! The calls of a system in memory, with what they answered.
ghost use Rattle.std.specs.Prelude.{◌≡◌, ◌↔◌, [], ◌∷◌, ◌++◌, true, IfSome, IsSome, OnOk, OnErr};
ghost use Rattle.proxy_net.specs.SystemCalls.{Tells};
ghost use Rattle.memory_sockets.specs.Notes.{call_of, calls_in, told_in};

use proxy_net::{Answer, FoundFile, Report};
use std::alloc::{AllocError, Global};
use std::io::ErrorKind;
use std::time::Duration;

/// What one call was asked for and answered, without its path, its bytes and its reports. Of one that was refused it
/// has the kind of the error.
#[derive(Clone, Copy)]
pub enum Note {
    /// A bind, with the listener's number.
    Bind(u64, Option<ErrorKind>),
    AwaitClients(u64, Option<ErrorKind>),
    /// An accept, with the numbers of the listener and of the stream.
    Accept(u64, u64, Option<ErrorKind>),
    Connect(u64, Option<ErrorKind>),
    /// A watch, and whether room to write is awaited.
    Watch(u64, bool, Option<ErrorKind>),
    Read(u64, Option<ErrorKind>),
    Write(u64, Option<ErrorKind>),
    Close(u64),
    /// A wait, with the time for which it waits at most.
    Wait(Option<Duration>, Option<ErrorKind>),
    /// A look at a path, and the file that was found.
    Identify(Option<FoundFile>),
    Remove,
    /// The opening of the starter's pipe, with the number of its descriptor.
    OpenStarter(u32, Option<ErrorKind>),
    NotifyStarter(Option<ErrorKind>),
    /// What a net over the system answered.
    Answered(Answer),
}

/// A call: its note, with its path or the bytes that it gave or took, and its reports.
#[derive(Drop)]
pub struct Noted {
    pub note: Note,
    pub bytes: Vec<u8>,
    pub reports: Vec<Report>,
}

/// The calls in their order, as long as memory for them isn't refused.
#[derive(Drop)]
pub struct CallNotes {
    alloc: Global,
    calls: Vec<Noted>,
    tells: bool,
}

impl CallNotes {
    /// No call.
    pub fn new(alloc: Global) -> CallNotes
        ensures tells { result.tells ≡ true }
        ensures calls { calls_in result ≡ [] }
    {
        CallNotes {
            alloc,
            calls: Vec::new(alloc),
            tells: true,
        }
    }

    /// The calls, the oldest first. `None` if memory for one was refused.
    pub fn calls(&self) -> Option<&[Noted]>
        ensures calls { IfSome result (λ calls. calls.now ≡ self.now.calls.items) }
        ensures some { IsSome result ↔ (self.now.tells ≡ true) }
    {
        if self.tells { Some(&self.calls) } else { None }
    }

    /// Notes a call. If memory for it is refused, there is no journal from now on.
    pub fn note(&mut self, note: Note, bytes: &[u8], reports: &[Report])
        ensures { Tells (told_in self.old) (told_in self.new) (call_of note bytes.now reports.now ∷ []) }
    {
        if self.add(note, bytes, reports).is_err() {
            self.tells = false;
        }
    }

    fn add(&mut self, note: Note, bytes: &[u8], reports: &[Report]) -> Result<(), AllocError>
        ensures ok { OnOk result (calls_in self.new ≡ call_of note bytes.now reports.now ∷ calls_in self.old) }
        ensures tells { self.new.tells ≡ self.old.tells }
    {
        let bytes = Vec::from_slice(self.alloc, bytes)?;
        let reports = Vec::from_slice(self.alloc, reports)?;
        self.calls.push(Noted {
            note,
            bytes,
            reports,
        })?;
        Ok(())
    }
}
