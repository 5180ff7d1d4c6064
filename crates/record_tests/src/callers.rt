//! A caller that hands a recorder to code over any net, and learns what the file holds then.
ghost use Rattle.std.specs.Prelude.{◌≡◌, [], ◌∷◌, ◌++◌, ℕ, List, Some, None, IfOk, string_bytes};
ghost use Rattle.link_traits.specs.Journals.{Journal};
ghost use Rattle.link_traits.specs.Views.{Adds};
ghost use Rattle.link_traits.specs.Entries.{ready};
ghost use Rattle.record_net.specs.Records.{recorded};
ghost use Rattle.record_net.specs.Tapes.{tape_of};
ghost use Rattle.record_net.specs.Starts.{IsRecording};

use link_traits::{FileFault, Files, Net, Ready};
use record_net::{RecordFile, Recorder, RecordingStart, TrackedRecorder};
use std::alloc::Global;
use std::marker::{Brand, PhantomData};

/// Waits once, over any net.
fn wait_once<N: Net>(net: &mut N) -> Ready
    ensures { Adds (N.view net.old) (N.view net.new) (ready result ∷ []) }
{
    net.wait()
}

/// Waits once over a recorder, whose type keeps what is true of the file.
fn wait_tracked<'a, N: Net, F: Files, K: RecordingStart>(
    recorder: Recorder<'a, N, F>,
) -> Recorder<'a, N, F>
    requires path { string_bytes recorder.file.now.path ≡ K.start.path }
    requires net { recorder.net.ghost_name ≡ K.net_name }
    requires files { recorder.files.ghost_name ≡ K.files_name }
    requires recording { IsRecording K.start (N.view recorder.net.now).journal (tape_of (F.view recorder.files.now) recorder.file.now.failed) }
    ensures net { result.net.ghost_name ≡ K.net_name }
    ensures files { result.files.ghost_name ≡ K.files_name }
    ensures recording { IsRecording K.start (N.view result.net.now).journal (tape_of (F.view result.files.now) result.file.now.failed) }
{
    let mut tracked = TrackedRecorder::<'a, N, F, K> {
        recorder,
        start: PhantomData,
    };
    let _ = wait_once(&mut tracked);
    tracked.recorder
}

/// Records what a net does at one wait. If no append failed, the file is the recording of the entries that the net
/// added.
pub fn record_wait<N: Net, F: Files>(
    alloc: Global,
    net: &mut N,
    files: &mut F,
    path: String,
) -> Result<Option<FileFault>, FileFault>
    ensures { IfOk result (λ failed. (before since : Journal) (bytes : List ℕ) → (N.view net.old).journal ≡ Some before → (N.view net.new).journal ≡ Some (since ++ before) → (F.view files.new).told (string_bytes path) ≡ Some bytes → failed ≡ None → bytes ≡ recorded since) }
{
    let mut file = RecordFile::create(alloc, files, path)?;
    let recorder = Recorder::new(net, files, &mut file);
    let recorder = wait_tracked::<N, F, Brand>(recorder);
    Ok(recorder.failed())
}
