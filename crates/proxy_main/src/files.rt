//! The files that the words name.
ghost use Rattle.std.specs.Prelude.{◌≡◌, ◌≤◌, ◌<◌, ◌++◌, ◌∷◌, ℕ, List, [], Option, Some, Ok, Err, IfOk, IfErr, IfSome, OnOk, length, map};
ghost use Rattle.link_traits.specs.Views.{FilesRose};
ghost use Rattle.policy_args.specs.Gives.{Gives};
ghost use Rattle.policy_args.specs.Seen.{options_seen};
ghost use Rattle.policy_args.specs.Words.{PolicyOptions};
ghost use Rattle.recording.specs.Recording.{Recording as RecordingValue, recording_of};
ghost use Rattle.recording.specs.Seen.{recording_seen, size};
ghost use Rattle.recording.specs.Gives.{GivesUnlessMemory};
ghost use Rattle.recording.specs.Sessions.{sessions_of};
ghost use Rattle.recording.specs.SessionsSeen.{sessions_seen, IsReadable};
ghost use Rattle.session_files.specs.OneSession.{IsOfFile};
ghost use Rattle.proxy_main.specs.Words.{Audit, Replay, Suggest, Twin, Within};
ghost use Rattle.proxy_main.specs.Answers.{Answer, Compared, Contained, audited, suggesting, options_in, checked_policy, checked_recording, checked_sessions, replayed, then_load, answer_to, Agrees, IsSettled};
ghost use Rattle.proxy_main.specs.FilesRead.{IsOfPolicy, IsOfInput, StopsAt, ReadUntil, up_to_bad, needed, NeededUntil, ReadsNeeded};
ghost use Rattle.proxy_main.specs.Loads.{Loads, FilesStop, StopsBy, CausedBy};
ghost use Rattle.proxy_main.specs.ManyFiles.{AreGood, IsTold, StopsIn};

use crate::{POLICY_LIMIT, Refusal, Stop};
use link_traits::{FileFault, Files, read_whole};
use policy_args::{LineRefusal, Options, read_options, words_of};
use recording::{
    BadRecording, RECORDING_LIMIT, Recording, RecordingKind, RecordingRefusal, Sessions, read_any,
};
use std::alloc::Global;

/// What a message is explained of.
#[derive(Drop)]
pub struct Loaded {
    pub options: Options,
    pub recording: Recording,
}

/// Reads and checks both files, one after the other.
pub fn load<'a, F: Files>(
    alloc: Global,
    files: &mut F,
    policy: &'a str,
    recording: &'a str,
) -> Result<Loaded, Stop<'a>>
    ensures loaded { IfOk result (λ x. (work : PolicyOptions → RecordingValue → Answer) → Agrees (then_load (F.view files.old).told policy.now recording.now work) (work (options_seen x.options) (recording_seen x.recording))) }
    ensures options { IfOk result (λ x. IfSome ((F.view files.old).told policy.now) (λ bytes. checked_policy bytes ≡ Ok (options_seen x.options))) }
    ensures recording { IfOk result (λ x. IfSome ((F.view files.old).told recording.now) (λ bytes. checked_recording bytes ≡ Ok (recording_seen x.recording))) }
    ensures size { IfOk result (λ x. size (recording_seen x.recording).events ≤ RECORDING_LIMIT) }
    ensures stops { IfErr result (λ stop. FilesStop (F.view files.old).told policy.now recording.now stop) }
    ensures cause { IfErr result (λ stop. CausedBy (FilesRose (F.view files.old) (F.view files.new)) ⊥ ⊥ stop) }
    ensures count { (F.view files.old).faults ≤ (F.view files.new).faults }
    ensures kept { (p : List ℕ) → (F.view files.new).told p ≡ (F.view files.old).told p }
    ensures read { OnOk result ((F.view files.new).reads ≡ (F.view files.old).reads ++ policy.now ∷ recording.now ∷ []) }
    ensures until { IfErr result (λ stop. (after : List (List ℕ)) → ReadUntil 1 (policy.now ∷ recording.now ∷ after) (F.view files.old).reads (F.view files.new).reads stop) }
    ensures needed { OnOk result ((F.view files.new).reads ≡ (F.view files.old).reads ++ up_to_bad 1 (F.view files.old).told (policy.now ∷ recording.now ∷ [])) }
    ensures needed_until { IfErr result (λ stop. (after : List (List ℕ)) (work : PolicyOptions → RecordingValue → Answer) → NeededUntil (IsSettled (then_load (F.view files.old).told policy.now recording.now work)) (up_to_bad 1 (F.view files.old).told (policy.now ∷ recording.now ∷ after)) (F.view files.old).reads (F.view files.new).reads stop) }
{
    match load_policy(alloc, files, policy) {
        Ok(options) => match load_recording(alloc, files, recording) {
            Ok(recording) => Ok(Loaded { options, recording }),
            Err(stop) => Err(stop),
        },
        Err(stop) => Err(stop),
    }
}

/// What a replay works on.
#[derive(Drop)]
pub struct LoadedSessions {
    pub options: Options,
    pub sessions: Sessions,
}

/// Reads and checks the files of a replay: the policy file, and then the recording, which has one session or many.
pub fn load_replay<'a, F: Files>(
    alloc: Global,
    files: &mut F,
    policy: &'a str,
    recording: &'a str,
) -> Result<LoadedSessions, Stop<'a>>
    ensures loaded { IfOk result (λ x. Agrees (answer_to (F.view files.old).told (Some (Replay policy.now recording.now))) (replayed (options_seen x.options) (sessions_seen x.sessions))) }
    ensures options { IfOk result (λ x. IfSome ((F.view files.old).told policy.now) (λ bytes. checked_policy bytes ≡ Ok (options_seen x.options))) }
    ensures readable { IfOk result (λ x. IsReadable (sessions_seen x.sessions)) }
    ensures stops { IfErr result (λ stop. StopsBy (F.view files.old).told (Some (Replay policy.now recording.now)) stop) }
    ensures cause { IfErr result (λ stop. CausedBy (FilesRose (F.view files.old) (F.view files.new)) ⊥ ⊥ stop) }
    ensures read { OnOk result ((F.view files.new).reads ≡ (F.view files.old).reads ++ policy.now ∷ recording.now ∷ []) }
    ensures until { IfErr result (ReadUntil 1 (policy.now ∷ recording.now ∷ []) (F.view files.old).reads (F.view files.new).reads) }
    ensures needed { ReadsNeeded (IsSettled (answer_to (F.view files.old).told (Some (Replay policy.now recording.now)))) (needed (F.view files.old).told (Some (Replay policy.now recording.now))) (F.view files.old).reads (F.view files.new).reads result }
{
    match load_policy(alloc, files, policy) {
        Ok(options) => match load_sessions(alloc, files, recording) {
            Ok(sessions) => Ok(LoadedSessions { options, sessions }),
            Err(stop) => Err(stop),
        },
        Err(stop) => Err(stop),
    }
}

/// What two recordings are compared under, and both of them.
#[derive(Drop)]
pub struct LoadedTwins {
    pub options: Options,
    pub one: Recording,
    pub other: Recording,
}

/// Reads and checks the files of a comparison: the policy file, and then one recording after the other.
pub fn load_twins<'a, F: Files>(
    alloc: Global,
    files: &mut F,
    policy: &'a str,
    one: &'a str,
    other: &'a str,
) -> Result<LoadedTwins, Stop<'a>>
    ensures loaded { IfOk result (λ x. Agrees (answer_to (F.view files.old).told (Some (Twin policy.now one.now other.now))) (Compared x.options.policy (recording_seen x.one) (recording_seen x.other))) }
    ensures stops { IfErr result (λ stop. StopsBy (F.view files.old).told (Some (Twin policy.now one.now other.now)) stop) }
    ensures cause { IfErr result (λ stop. CausedBy (FilesRose (F.view files.old) (F.view files.new)) ⊥ ⊥ stop) }
    ensures read { OnOk result ((F.view files.new).reads ≡ (F.view files.old).reads ++ policy.now ∷ one.now ∷ other.now ∷ []) }
    ensures until { IfErr result (ReadUntil 1 (policy.now ∷ one.now ∷ other.now ∷ []) (F.view files.old).reads (F.view files.new).reads) }
    ensures needed { ReadsNeeded (IsSettled (answer_to (F.view files.old).told (Some (Twin policy.now one.now other.now)))) (needed (F.view files.old).told (Some (Twin policy.now one.now other.now))) (F.view files.old).reads (F.view files.new).reads result }
{
    match load(alloc, files, policy, one) {
        Ok(loaded) => match load_recording(alloc, files, other) {
            Ok(other) => Ok(LoadedTwins {
                options: loaded.options,
                one: loaded.recording,
                other,
            }),
            Err(stop) => Err(stop),
        },
        Err(stop) => Err(stop),
    }
}

/// What an audit works on.
#[derive(Drop)]
pub struct LoadedRecordings {
    pub options: Options,
    pub recordings: Vec<Recording>,
}

/// Reads and checks the files of an audit: the policy file, and then one recording after the other.
pub fn load_audit<'a, F: Files>(
    alloc: Global,
    files: &mut F,
    policy: &'a str,
    paths: &[&'a str],
) -> Result<LoadedRecordings, Stop<'a>>
    ensures loaded { IfOk result (λ x. Agrees (answer_to (F.view files.old).told (Some (Audit policy.now (map (λ path. path.now) paths.now)))) (audited (options_seen x.options) (map recording_seen x.recordings.items))) }
    ensures stops { IfErr result (λ stop. StopsBy (F.view files.old).told (Some (Audit policy.now (map (λ path. path.now) paths.now))) stop) }
    ensures cause { IfErr result (λ stop. CausedBy (FilesRose (F.view files.old) (F.view files.new)) ⊥ ⊥ stop) }
    ensures read { OnOk result ((F.view files.new).reads ≡ (F.view files.old).reads ++ policy.now ∷ map (λ path. path.now) paths.now) }
    ensures until { IfErr result (ReadUntil 1 (policy.now ∷ map (λ path. path.now) paths.now) (F.view files.old).reads (F.view files.new).reads) }
    ensures needed { ReadsNeeded (IsSettled (answer_to (F.view files.old).told (Some (Audit policy.now (map (λ path. path.now) paths.now))))) (needed (F.view files.old).told (Some (Audit policy.now (map (λ path. path.now) paths.now)))) (F.view files.old).reads (F.view files.new).reads result }
{
    match load_policy(alloc, files, policy) {
        Ok(options) => {
            let mut recordings = Vec::new(alloc);
            match load_recordings(alloc, files, paths, &mut recordings) {
                Ok(()) => Ok(LoadedRecordings {
                    options,
                    recordings,
                }),
                Err(stop) => Err(stop),
            }
        }
        Err(stop) => Err(stop),
    }
}

/// Reads and checks the recordings for which a policy is suggested, one after the other.
pub fn load_suggested<'a, F: Files>(
    alloc: Global,
    files: &mut F,
    paths: &[&'a str],
) -> Result<Vec<Recording>, Stop<'a>>
    ensures loaded { IfOk result (λ x. Agrees (answer_to (F.view files.old).told (Some (Suggest (map (λ path. path.now) paths.now)))) (suggesting (map recording_seen x.items))) }
    ensures stops { IfErr result (λ stop. StopsBy (F.view files.old).told (Some (Suggest (map (λ path. path.now) paths.now))) stop) }
    ensures cause { IfErr result (λ stop. CausedBy (FilesRose (F.view files.old) (F.view files.new)) ⊥ ⊥ stop) }
    ensures read { OnOk result ((F.view files.new).reads ≡ (F.view files.old).reads ++ map (λ path. path.now) paths.now) }
    ensures until { IfErr result (ReadUntil 0 (map (λ path. path.now) paths.now) (F.view files.old).reads (F.view files.new).reads) }
    ensures needed { ReadsNeeded (IsSettled (answer_to (F.view files.old).told (Some (Suggest (map (λ path. path.now) paths.now))))) (needed (F.view files.old).told (Some (Suggest (map (λ path. path.now) paths.now)))) (F.view files.old).reads (F.view files.new).reads result }
{
    let mut recordings = Vec::new(alloc);
    match load_recordings(alloc, files, paths, &mut recordings) {
        Ok(()) => Ok(recordings),
        Err(stop) => Err(stop),
    }
}

/// Reads and checks recordings one after the other, and puts them after others.
fn load_recordings<'a, F: Files>(
    alloc: Global,
    files: &mut F,
    paths: &[&'a str],
    loaded: &mut Vec<Recording>,
) -> Result<(), Stop<'a>>
    ensures loaded { OnOk result ((told : List ℕ → Option (List ℕ)) → IsTold told (F.view files.old).told → (more : List RecordingValue) × (map recording_seen loaded.new.items ≡ map recording_seen loaded.old.items ++ more) × AreGood told (map (λ path. path.now) paths.now) more) }
    ensures stops { IfErr result (λ stop. (told : List ℕ → Option (List ℕ)) → IsTold told (F.view files.old).told → StopsIn told (map (λ path. path.now) paths.now) (F.view files.old).reads (F.view files.new).reads stop) }
    ensures cause { IfErr result (λ stop. CausedBy (FilesRose (F.view files.old) (F.view files.new)) ⊥ ⊥ stop) }
    ensures count { (F.view files.old).faults ≤ (F.view files.new).faults }
    ensures read { OnOk result ((F.view files.new).reads ≡ (F.view files.old).reads ++ map (λ path. path.now) paths.now) }
{
    let [path, others @ ..] = paths else {
        return Ok(());
    };
    if loaded.reserve(1).is_err() {
        return Err(Stop::Memory);
    }
    match load_recording(alloc, files, path) {
        Ok(recording) => {
            loaded.push_reserved(recording);
            load_recordings(alloc, files, others, loaded)
        }
        Err(stop) => Err(stop),
    }
}

/// Two policies.
#[derive(Drop)]
pub struct LoadedPolicies {
    pub one: Options,
    pub other: Options,
}

/// Reads and checks two policy files, one after the other.
pub fn load_policies<'a, F: Files>(
    alloc: Global,
    files: &mut F,
    one: &'a str,
    other: &'a str,
) -> Result<LoadedPolicies, Stop<'a>>
    ensures loaded { IfOk result (λ x. Agrees (answer_to (F.view files.old).told (Some (Within one.now other.now))) (Contained x.one.policy x.other.policy)) }
    ensures stops { IfErr result (λ stop. StopsBy (F.view files.old).told (Some (Within one.now other.now)) stop) }
    ensures cause { IfErr result (λ stop. CausedBy (FilesRose (F.view files.old) (F.view files.new)) ⊥ ⊥ stop) }
    ensures read { OnOk result ((F.view files.new).reads ≡ (F.view files.old).reads ++ one.now ∷ other.now ∷ []) }
    ensures until { IfErr result (ReadUntil 2 (one.now ∷ other.now ∷ []) (F.view files.old).reads (F.view files.new).reads) }
    ensures needed { ReadsNeeded (IsSettled (answer_to (F.view files.old).told (Some (Within one.now other.now)))) (needed (F.view files.old).told (Some (Within one.now other.now))) (F.view files.old).reads (F.view files.new).reads result }
{
    match load_policy(alloc, files, one) {
        Ok(one) => match load_policy(alloc, files, other) {
            Ok(other) => Ok(LoadedPolicies { one, other }),
            Err(stop) => Err(stop),
        },
        Err(stop) => Err(stop),
    }
}

/// Reads and checks the policy file.
fn load_policy<'a, F: Files>(
    alloc: Global,
    files: &mut F,
    path: &'a str,
) -> Result<Options, Stop<'a>>
    ensures loads { Loads options_seen checked_policy ((F.view files.old).told path.now) path.now result }
    ensures cause { IfErr result (λ stop. CausedBy (FilesRose (F.view files.old) (F.view files.new)) ⊥ ⊥ stop) }
    ensures count { (F.view files.old).faults ≤ (F.view files.new).faults }
    ensures kept { (p : List ℕ) → (F.view files.new).told p ≡ (F.view files.old).told p }
    ensures read { (F.view files.new).reads ≡ (F.view files.old).reads ++ path.now ∷ [] }
    ensures at { IfErr result (StopsAt IsOfPolicy path.now) }
{
    match read_whole(alloc, files, path, POLICY_LIMIT) {
        Ok(bytes) => match policy_options(alloc, &bytes) {
            Ok(options) => Ok(options),
            Err(LineRefusal::Bad(word)) => Err(Stop::Refused(Refusal::PolicyWord(word))),
            Err(LineRefusal::Memory) => Err(Stop::Memory),
        },
        Err(FileFault::TooLong) => Err(Stop::Refused(Refusal::PolicyTooLong)),
        Err(FileFault::Failed) => Err(Stop::File(path)),
        Err(FileFault::Memory) => Err(Stop::Memory),
    }
}

/// The options that a policy file's words give.
fn policy_options(alloc: Global, bytes: &[u8]) -> Result<Options, LineRefusal>
    ensures { Gives options_seen result (options_in bytes.now) }
{
    let words = words_of(alloc, bytes)?;
    read_options(alloc, &words)
}

/// Reads and checks the recording.
fn load_recording<'a, F: Files>(
    alloc: Global,
    files: &mut F,
    path: &'a str,
) -> Result<Recording, Stop<'a>>
    ensures loads { Loads recording_seen checked_recording ((F.view files.old).told path.now) path.now result }
    ensures size { IfOk result (λ r. size (recording_seen r).events ≤ RECORDING_LIMIT) }
    ensures cause { IfErr result (λ stop. CausedBy (FilesRose (F.view files.old) (F.view files.new)) ⊥ ⊥ stop) }
    ensures count { (F.view files.old).faults ≤ (F.view files.new).faults }
    ensures kept { (p : List ℕ) → (F.view files.new).told p ≡ (F.view files.old).told p }
    ensures read { (F.view files.new).reads ≡ (F.view files.old).reads ++ path.now ∷ [] }
    ensures at { IfErr result (StopsAt IsOfInput path.now) }
{
    match read_whole(alloc, files, path, RECORDING_LIMIT) {
        Ok(bytes) => match recording::read(alloc, &bytes) {
            Ok(recording) => Ok(recording),
            Err(RecordingRefusal::Bad(fault)) => Err(Stop::Refused(Refusal::Recording(fault))),
            Err(RecordingRefusal::Memory) => Err(Stop::Memory),
        },
        Err(FileFault::TooLong) => Err(Stop::Refused(Refusal::Recording(too_long()))),
        Err(FileFault::Failed) => Err(Stop::File(path)),
        Err(FileFault::Memory) => Err(Stop::Memory),
    }
}

/// Reads and checks a recording of one session or of many.
pub fn load_sessions<'a, F: Files>(
    alloc: Global,
    files: &mut F,
    path: &'a str,
) -> Result<Sessions, Stop<'a>>
    ensures loads { Loads sessions_seen checked_sessions ((F.view files.old).told path.now) path.now result }
    ensures readable { IfOk result (λ s. IsReadable (sessions_seen s)) }
    ensures of_file { IfOk result (λ s. IsOfFile (sessions_seen s)) }
    ensures cause { IfErr result (λ stop. CausedBy (FilesRose (F.view files.old) (F.view files.new)) ⊥ ⊥ stop) }
    ensures count { (F.view files.old).faults ≤ (F.view files.new).faults }
    ensures read { (F.view files.new).reads ≡ (F.view files.old).reads ++ path.now ∷ [] }
    ensures at { IfErr result (StopsAt IsOfInput path.now) }
{
    match read_whole(alloc, files, path, RECORDING_LIMIT) {
        Ok(bytes) => match sessions_in(alloc, &bytes) {
            Ok(sessions) => Ok(sessions),
            Err(RecordingRefusal::Bad(fault)) => Err(Stop::Refused(Refusal::Recording(fault))),
            Err(RecordingRefusal::Memory) => Err(Stop::Memory),
        },
        Err(FileFault::TooLong) => Err(Stop::Refused(Refusal::Recording(too_long()))),
        Err(FileFault::Failed) => Err(Stop::File(path)),
        Err(FileFault::Memory) => Err(Stop::Memory),
    }
}

/// The recording of one session or of many that the bytes of a file are.
fn sessions_in(alloc: Global, bytes: &[u8]) -> Result<Sessions, RecordingRefusal>
    ensures exact { GivesUnlessMemory sessions_seen result (sessions_of bytes.now) }
    ensures readable { IfOk result (λ s. IsReadable (sessions_seen s)) }
    ensures of_file { IfOk result (λ s. IsOfFile (sessions_seen s)) }
{
    read_any(alloc, bytes)
}

/// The fault of a recording that was not read, since it is above its limit: the one that reading
/// would have found.
#[tactic(auto, unfolding(recording::specs::Recording::recording_of, recording::specs::Sessions::sessions_of))]
fn too_long() -> BadRecording
    ensures one { (bytes : List ℕ) → RECORDING_LIMIT < length bytes → recording_of bytes ≡ Err result }
    ensures many { (bytes : List ℕ) → RECORDING_LIMIT < length bytes → sessions_of bytes ≡ Err result }
{
    BadRecording {
        kind: RecordingKind::TooLong,
        at: RECORDING_LIMIT as u64,
    }
}
