//! A recorder whose type says where its recording began.
ghost use Rattle.std.specs.Prelude.{◌≡◌, ℕ, string_bytes};
ghost use Rattle.std.proofs.Props.{props};
ghost use Rattle.record_net.specs.Tapes.{tape_of};
ghost use Rattle.record_net.specs.Starts.{Start, IsRecording, no_start};

use crate::recorder::Recorder;
use link_traits::{Accepted, Files, Got, Link, Net, NetFault, Ready, Setting, Took};
use std::marker::{Brand, PhantomData};

/// Where a recording began, and by which borrows its recorder holds the net and the files. A function that makes a
/// `TrackedRecorder` takes it as a type parameter, and its caller chooses the members at `Brand`.
pub trait RecordingStart {
    /// The net's journal, the files and the path.
    ghost start: { Start };

    /// The name of the borrow of the net.
    ghost net_name: { ℕ };

    /// The name of the borrow of the files.
    ghost files_name: { ℕ };
}

impl RecordingStart for Brand {
    ghost start = { no_start };

    ghost net_name = { 0 };

    ghost files_name = { 0 };
}

/// A recorder that is passed to code that is generic over nets. Its type says what is true of its file since the start,
/// so that is true after any calls that the code made.
#[derive(Drop)]
pub struct TrackedRecorder<'a, N: Net, F: Files, K: RecordingStart> {
    /// The recorder, which is given back when the code is done.
    pub recorder: Recorder<'a, N, F>,
    /// The start.
    pub start: PhantomData<K>,
    ghost path: { string_bytes recorder.file.now.path ≡ K.start.path },
    ghost net: { recorder.net.ghost_name ≡ K.net_name },
    ghost files: { recorder.files.ghost_name ≡ K.files_name },
    ghost recording: { IsRecording K.start (N.view recorder.net.now).journal (tape_of (F.view recorder.files.now) recorder.file.now.failed) } by { Prim.hlevel props },
}

impl<N: Net, F: Files, K: RecordingStart> Net for TrackedRecorder<'_, N, F, K> {
    ghost view = { λ r. N.view r.recorder.net.now };

    ghost takes = { λ old setting new. N.takes old.recorder.net.now setting new.recorder.net.now };

    fn prepare(&mut self, setting: Setting) -> Result<(), NetFault> {
        self.recorder.prepare(setting)
    }

    fn listen(&mut self, path: &str) -> Result<u32, NetFault> {
        self.recorder.listen(path)
    }

    fn wait(&mut self) -> Ready {
        self.recorder.wait()
    }

    fn accept(&mut self, listener: u32) -> Accepted {
        self.recorder.accept(listener)
    }

    fn connect(&mut self, session: u32, path: &str) -> Result<(), NetFault> {
        self.recorder.connect(session, path)
    }

    fn want(&mut self, link: Link, read: bool, write: bool) {
        self.recorder.want(link, read, write);
    }

    fn read(&mut self, link: Link, into: &mut [u8]) -> Got {
        self.recorder.read(link, into)
    }

    fn write(&mut self, link: Link, piece: &[u8]) -> Took {
        self.recorder.write(link, piece)
    }

    fn shut(&mut self, link: Link) {
        self.recorder.shut(link);
    }
}
