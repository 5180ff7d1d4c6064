//! Serving a line over a net that is recorded.
ghost use Rattle.std.specs.Prelude.{◌≡◌, ◌≢◌, ◌≤◌, ℕ, List, IfOk, OnOk, OnErr, IsErrOf, string_bytes};
ghost use Rattle.link_traits.specs.Views.{RoseAt, FilesRose};
ghost use Rattle.link_traits.specs.declared.links.Count.TheVariants.{Own as OfNet};
ghost use Rattle.proxy_run.specs.Runs.{RunDid, RunLinks};
ghost use Rattle.proxy_run.specs.Logs.{RunLogs};
ghost use Rattle.record_net.specs.Starts.{IsRecording, start_of};
ghost use Rattle.record_net.specs.Tapes.{tape_of};
ghost use Rattle.recorded_run.specs.Recordings.{FitsFormat, IsExact, IsReadBack, TellsHistories};
ghost use Rattle.recorded_run.specs.Runs.{RunServed, RunAdded, FromNoSessions, LinksRecorded, LinksReplayed};

use crate::laws::{
    recorded_events_have_the_histories, recorded_links_stand, what_a_server_records_fits,
};
use link_traits::{FileFault, Files, Net, Sink};
use policy_args::ProxyLine;
use proxy_loop::ServerEnd;
use proxy_run::serve;
use record_net::{RecordFile, Recorder, RecordingStart, TrackedRecorder, recorded_is_read};
use std::alloc::Global;
use std::marker::{Brand, PhantomData};

/// What came of a line that was served while its net was recorded.
#[derive(Clone, Copy, Debug, PartialEq, Eq)]
pub struct Recorded {
    /// How the server ended.
    pub end: Result<(), ServerEnd>,
    /// The first error that an append to the file answered. From it on nothing more was recorded. `Failed` is answered
    /// only if the files' count of faults rose, and `Memory` if memory was refused.
    pub failed: Option<FileFault>,
}

/// Makes the file of a recording, and then serves a proxy line over a net as `serve` does. Each read that gives bytes,
/// each end and each failed call of a link is appended to the file as a record of version 2. The first append that
/// fails ends the recording, and the line is served on.
///
/// An error means that the file could not be made, and that nothing was listened at. `Failed` comes only if the files'
/// count of faults rose, and `Memory` if memory was refused.
pub fn serve_recorded<F: Files, N: Net, E: Sink>(
    alloc: Global,
    line: ProxyLine,
    path: String,
    files: &mut F,
    net: &mut N,
    err: &mut E,
) -> Result<Recorded, FileFault>
    // Once the file is made, the line is served as it is over any net.
    ensures did { IfOk result (λ r. RunDid line.blocks.items line.sessions (N.view net.old) (N.view net.new) (E.view err.old) (E.view err.new) r.end) }
    ensures links { OnOk result (RunLinks line.blocks.items (N.view net.old) (N.view net.new)) }
    ensures log { OnOk result (RunLogs line.blocks.items (N.view net.old) (N.view net.new) (E.view err.old) (E.view err.new)) }
    ensures listen { IfOk result (λ r. (k : ℕ) → IsErrOf r.end (ServerEnd.Listen k) → RoseAt OfNet (N.view net.old) (N.view net.new)) }
    ensures wait { IfOk result (λ r. IsErrOf r.end ServerEnd.Wait → RoseAt OfNet (N.view net.old) (N.view net.new)) }
    ensures count { (E.view err.old).faults ≤ (E.view err.new).faults }

    // The file is the recording of what the net added, or a prefix of it once an append failed.
    ensures recording { IfOk result (λ r. IsRecording (start_of (N.view net.old).journal (F.view files.old) (string_bytes path)) (N.view net.new).journal (tape_of (F.view files.new) r.failed)) }
    ensures exact { IfOk result (λ r. RunAdded (N.view net.old) (N.view net.new) (λ was since. IsExact ((F.view files.new).told (string_bytes path)) r.failed since)) }

    // A file can have each record, and a reader finds in it what was recorded.
    ensures fits { OnOk result (RunAdded (N.view net.old) (N.view net.new) (FromNoSessions FitsFormat)) }
    ensures read { IfOk result (λ r. RunAdded (N.view net.old) (N.view net.new) (FromNoSessions (IsReadBack ((F.view files.new).told (string_bytes path)) r.failed))) }

    // The recording tells the history of each session, and so what was written to its links.
    ensures histories { OnOk result (RunAdded (N.view net.old) (N.view net.new) (λ was since. FromNoSessions (TellsHistories was) was since)) }
    ensures recorded_links { OnOk result (RunAdded (N.view net.old) (N.view net.new) (LinksRecorded line.blocks.items)) }
    ensures replayed_links { OnOk result (RunAdded (N.view net.old) (N.view net.new) (LinksReplayed line.blocks.items)) }

    // If the file can't be made, nothing is done over the net, and nothing is logged.
    ensures unserved { OnErr result (net.new ≡ net.old) }
    ensures unlogged { OnErr result (err.new ≡ err.old) }
    ensures cause { IsErrOf result FileFault.Failed → FilesRose (F.view files.old) (F.view files.new) }
    ensures short { IsErrOf result FileFault.TooLong → ⊥ }

    // In either case the other paths hold what they held, and no file is read.
    ensures others { (p : List ℕ) → p ≢ string_bytes path → (F.view files.new).told p ≡ (F.view files.old).told p }
    ensures unread { (F.view files.new).reads ≡ (F.view files.old).reads }
    ensures faults { (F.view files.old).faults ≤ (F.view files.new).faults }
{
    recorded_is_read();
    what_a_server_records_fits();
    recorded_events_have_the_histories();
    recorded_links_stand();
    serve_from_start(alloc, line, path, files, net, err)
}

/// That a run recorded its sessions, by what the run did and by what the recorder kept.
fn serve_from_start<F: Files, N: Net, E: Sink>(
    alloc: Global,
    line: ProxyLine,
    path: String,
    files: &mut F,
    net: &mut N,
    err: &mut E,
) -> Result<Recorded, FileFault>
    ensures served { IfOk result (λ r. RunServed line.blocks.items line.sessions (N.view net.old) (N.view net.new) (E.view err.old) (E.view err.new) r.end) }
    ensures recording { IfOk result (λ r. IsRecording (start_of (N.view net.old).journal (F.view files.old) (string_bytes path)) (N.view net.new).journal (tape_of (F.view files.new) r.failed)) }
    ensures unserved { OnErr result (net.new ≡ net.old) }
    ensures unlogged { OnErr result (err.new ≡ err.old) }
    ensures cause { IsErrOf result FileFault.Failed → FilesRose (F.view files.old) (F.view files.new) }
    ensures short { IsErrOf result FileFault.TooLong → ⊥ }
    ensures others { (p : List ℕ) → p ≢ string_bytes path → (F.view files.new).told p ≡ (F.view files.old).told p }
    ensures unread { (F.view files.new).reads ≡ (F.view files.old).reads }
    ensures faults { (F.view files.old).faults ≤ (F.view files.new).faults }
{
    let mut file = RecordFile::create(alloc, files, path)?;
    let recorder = Recorder::new(net, files, &mut file);
    let mut end = Ok(());
    let recorder = serve_over::<N, F, E, Brand>(alloc, line, recorder, err, &mut end);
    Ok(Recorded {
        end,
        failed: recorder.failed(),
    })
}

/// Serves a line over a recorder, whose type keeps what is true of the file, and puts into `end` how the server ended.
fn serve_over<'a, N: Net, F: Files, E: Sink, K: RecordingStart>(
    alloc: Global,
    line: ProxyLine,
    recorder: Recorder<'a, N, F>,
    err: &mut E,
    end: &mut Result<(), ServerEnd>,
) -> Recorder<'a, N, F>
    requires path { string_bytes recorder.file.now.path ≡ K.start.path }
    requires net { recorder.net.ghost_name ≡ K.net_name }
    requires files { recorder.files.ghost_name ≡ K.files_name }
    requires recording { IsRecording K.start (N.view recorder.net.now).journal (tape_of (F.view recorder.files.now) recorder.file.now.failed) }
    ensures served { RunServed line.blocks.items line.sessions (N.view recorder.entry.net.now) (N.view result.net.now) (E.view err.old) (E.view err.new) end.new }
    ensures net { result.net.ghost_name ≡ K.net_name }
    ensures files { result.files.ghost_name ≡ K.files_name }
    ensures recording { IsRecording K.start (N.view result.net.now).journal (tape_of (F.view result.files.now) result.file.now.failed) }
{
    let mut tracked = TrackedRecorder::<'a, N, F, K> {
        recorder,
        start: PhantomData,
    };
    *end = serve(alloc, line, &mut tracked, err);
    tracked.recorder
}
