//! The work that the words ask for.
ghost use Rattle.std.specs.Prelude.{◌≡◌, ◌≤◌, ◌⊎◌, ◌++◌, ℕ, [], List, Option, Some, map, string_bytes, IfErr, IfOk, OnOk};
ghost use Rattle.link_traits.specs.Told.{added};
ghost use Rattle.link_traits.specs.Views.{FilesRose, SinkRose};
ghost use Rattle.link_traits.specs.Texts.{texts_of};
ghost use Rattle.policy_args.specs.Seen.{options_seen};
ghost use Rattle.recording.specs.Seen.{recording_seen};
ghost use Rattle.proxy_main.specs.Words.{Command, reading, Replay, Explain, Twin, Sample, Audit, Within, Suggest, Show, Compose};
ghost use Rattle.proxy_main.specs.WithinText.{within_code, within_text};
ghost use Rattle.proxy_main.specs.Read.{command_of, HasFewDraws};
ghost use Rattle.proxy_main.specs.Answers.{Wrote, Compared, Contained, Agrees, audited, suggesting, answer_of, answer_to, IsSettled, IsWork, sampled, twin_code, twin_line, version_line};
ghost use Rattle.proxy_main.specs.FilesRead.{paths_of, policies_of, needed, ReadUntil, ReadsNeeded, StopsWork};
ghost use Rattle.proxy_main.specs.Loads.{StopsBy, CausedBy, Keeps, KeepsLog, IsDone, IsEnd, IsLogged, IsSuggest};

use crate::containment::containment_text;
use crate::files::{load, load_audit, load_policies, load_replay, load_suggested, load_twins};
use crate::messages::{work_compose, work_show, write_bytes};
use crate::sessions::{work_session, work_sessions};
use crate::texts::{HELP, VERSION};
use crate::words::{CommandWords, read_words};
use crate::{Refusal, Status, Stop};
use audit::audit;
use link_traits::{Files, Gate, Sink, write_all};
use policy_args::{Options, Policy};
use policy_suggest::SuggestRefusal;
use policy_within::{WithinAnswer, within};
use recording::Recording;
use replay::{ExplainFault, ReplayFault, TwinAnswer, explain, replay_sessions, twin};
use sample::{MOST_DRAWS, SampleFault, summary};
use std::alloc::{AllocError, Global};
use std::thread::Threads;
use suggestion::suggestion;

/// Reads the words and does what they ask for.
pub fn work<'a, R: Threads + Sync, G: Gate + Sync, F: Files, O: Sink, E: Sink>(
    rt: &R,
    gate: &G,
    alloc: Global,
    words: &'a [String],
    files: &mut F,
    out: &mut O,
    err: &mut E,
) -> Result<Status, Stop<'a>>
    ensures done { IfOk result (λ status. IsDone (answer_of (texts_of words.now) (F.view files.old).told) (O.view out.old).told (O.view out.new).told status.code) }
    ensures end { IfOk result (λ status. IsEnd (reading (texts_of words.now)) status.code) }
    ensures logged { OnOk result (IsLogged (F.view files.old).told (reading (texts_of words.now)) (E.view err.old).told (E.view err.new).told) }
    ensures stops { IfErr result (λ stop. StopsBy (F.view files.old).told (reading (texts_of words.now)) stop) }
    ensures cause { IfErr result (λ stop. CausedBy (FilesRose (F.view files.old) (F.view files.new)) (SinkRose (O.view out.old) (O.view out.new)) (SinkRose (E.view err.old) (E.view err.new)) stop) }
    ensures keeps { IfErr result (λ stop. Keeps (answer_of (texts_of words.now) (F.view files.old).told) (O.view out.old).told (O.view out.new).told stop) }
    ensures log { IfErr result (λ stop. KeepsLog (F.view files.old).told (reading (texts_of words.now)) (E.view err.old).told (E.view err.new).told stop) }
    ensures count { (E.view err.old).faults ≤ (E.view err.new).faults }
    ensures read { OnOk result ((F.view files.new).reads ≡ (F.view files.old).reads ++ paths_of (reading (texts_of words.now))) }
    ensures until { IfErr result (ReadUntil (policies_of (reading (texts_of words.now))) (paths_of (reading (texts_of words.now))) (F.view files.old).reads (F.view files.new).reads) }
    ensures needed { ReadsNeeded (IsSettled (answer_of (texts_of words.now) (F.view files.old).told)) (needed (F.view files.old).told (reading (texts_of words.now))) (F.view files.old).reads (F.view files.new).reads result }
{
    match read_words(alloc, words) {
        Ok(Some(command)) => work_command(rt, gate, alloc, command, files, out, err),
        Ok(None) => Err(Stop::Refused(Refusal::Usage)),
        Err(_) => Err(Stop::Memory),
    }
}

/// Does what a command asks for.
fn work_command<'a, R: Threads + Sync, G: Gate + Sync, F: Files, O: Sink, E: Sink>(
    rt: &R,
    gate: &G,
    alloc: Global,
    command: CommandWords<'a>,
    files: &mut F,
    out: &mut O,
    err: &mut E,
) -> Result<Status, Stop<'a>>
    requires { HasFewDraws command }
    ensures done { IfOk result (λ status. IsDone (answer_to (F.view files.old).told (Some (command_of command.entry))) (O.view out.old).told (O.view out.new).told status.code) }
    ensures end { IfOk result (λ status. IsEnd (Some (command_of command.entry)) status.code) }
    ensures logged { OnOk result (IsLogged (F.view files.old).told (Some (command_of command.entry)) (E.view err.old).told (E.view err.new).told) }
    ensures stops { IfErr result (λ stop. StopsBy (F.view files.old).told (Some (command_of command.entry)) stop) }
    ensures cause { IfErr result (λ stop. CausedBy (FilesRose (F.view files.old) (F.view files.new)) (SinkRose (O.view out.old) (O.view out.new)) (SinkRose (E.view err.old) (E.view err.new)) stop) }
    ensures keeps { IfErr result (λ stop. Keeps (answer_to (F.view files.old).told (Some (command_of command.entry))) (O.view out.old).told (O.view out.new).told stop) }
    ensures log { IfErr result (λ stop. KeepsLog (F.view files.old).told (Some (command_of command.entry)) (E.view err.old).told (E.view err.new).told stop) }
    ensures count { (E.view err.old).faults ≤ (E.view err.new).faults }
    ensures read { OnOk result ((F.view files.new).reads ≡ (F.view files.old).reads ++ paths_of (Some (command_of command.entry))) }
    ensures until { IfErr result (ReadUntil (policies_of (Some (command_of command.entry))) (paths_of (Some (command_of command.entry))) (F.view files.old).reads (F.view files.new).reads) }
    ensures needed { ReadsNeeded (IsSettled (answer_to (F.view files.old).told (Some (command_of command.entry)))) (needed (F.view files.old).told (Some (command_of command.entry))) (F.view files.old).reads (F.view files.new).reads result }
{
    match command {
        CommandWords::Replay { policy, recording } => {
            work_replay(alloc, policy, recording, files, out, err)
        }
        CommandWords::Explain {
            policy,
            recording,
            number,
        } => work_explain(alloc, policy, recording, number, files, out),
        CommandWords::Twin { policy, one, other } => {
            work_twin(alloc, policy, one, other, files, out)
        }
        CommandWords::Sample { draws, seed } => work_sample(alloc, draws, seed, out),
        CommandWords::Audit { policy, recordings } => {
            work_audit(rt, gate, alloc, policy, &recordings, files, out)
        }
        CommandWords::Within { one, other } => work_within(alloc, one, other, files, out),
        CommandWords::Suggest { recordings } => {
            work_suggest(rt, gate, alloc, &recordings, files, out)
        }
        CommandWords::Show { message } => work_show(alloc, message, files, out),
        CommandWords::Compose { text } => work_compose(alloc, text, files, out),
        CommandWords::Session { recording, number } => {
            work_session(alloc, recording, number, files, out)
        }
        CommandWords::ListSessions { recording } => work_sessions(alloc, recording, files, out),
        CommandWords::Help => work_text(HELP, out),
        CommandWords::Version => work_version(alloc, out),
    }
}

/// Reads the files of a replay and plays it.
fn work_replay<'a, F: Files, O: Sink, E: Sink>(
    alloc: Global,
    policy: &'a str,
    recording: &'a str,
    files: &mut F,
    out: &mut O,
    err: &mut E,
) -> Result<Status, Stop<'a>>
    ensures done { IfOk result (λ status. IsDone (answer_to (F.view files.old).told (Some (Replay policy.now recording.now))) (O.view out.old).told (O.view out.new).told status.code) }
    ensures end { IfOk result (λ status. status.code ≡ 0) }
    ensures logged { OnOk result (IsLogged (F.view files.old).told (Some (Replay policy.now recording.now)) (E.view err.old).told (E.view err.new).told) }
    ensures stops { IfErr result (λ stop. StopsBy (F.view files.old).told (Some (Replay policy.now recording.now)) stop) }
    ensures cause { IfErr result (λ stop. CausedBy (FilesRose (F.view files.old) (F.view files.new)) (SinkRose (O.view out.old) (O.view out.new)) (SinkRose (E.view err.old) (E.view err.new)) stop) }
    ensures keeps { IfErr result (λ stop. Keeps (answer_to (F.view files.old).told (Some (Replay policy.now recording.now))) (O.view out.old).told (O.view out.new).told stop) }
    ensures log { IfErr result (λ stop. KeepsLog (F.view files.old).told (Some (Replay policy.now recording.now)) (E.view err.old).told (E.view err.new).told stop) }
    ensures count { (E.view err.old).faults ≤ (E.view err.new).faults }
    ensures read { OnOk result ((F.view files.new).reads ≡ (F.view files.old).reads ++ paths_of (Some (Replay policy.now recording.now))) }
    ensures until { IfErr result (ReadUntil (policies_of (Some (Replay policy.now recording.now))) (paths_of (Some (Replay policy.now recording.now))) (F.view files.old).reads (F.view files.new).reads) }
    ensures needed { ReadsNeeded (IsSettled (answer_to (F.view files.old).told (Some (Replay policy.now recording.now)))) (needed (F.view files.old).told (Some (Replay policy.now recording.now))) (F.view files.old).reads (F.view files.new).reads result }
{
    match load_replay(alloc, files, policy, recording) {
        Ok(loaded) => match replay_sessions(alloc, &loaded.options, &loaded.sessions, out, err) {
            Ok(()) => Ok(Status { code: 0 }),
            Err(ReplayFault::Out) => Err(Stop::Output),
            Err(ReplayFault::Err) => Err(Stop::Log),
            Err(ReplayFault::Memory) => Err(Stop::Memory),
        },
        Err(stop) => Err(stop),
    }
}

/// Reads the files of a recording and explains one of its messages. It has no log.
fn work_explain<'a, F: Files, O: Sink>(
    alloc: Global,
    policy: &'a str,
    recording: &'a str,
    number: u64,
    files: &mut F,
    out: &mut O,
) -> Result<Status, Stop<'a>>
    ensures done { IfOk result (λ status. IsDone (answer_to (F.view files.old).told (Some (Explain policy.now recording.now number))) (O.view out.old).told (O.view out.new).told status.code) }
    ensures end { IfOk result (λ status. status.code ≡ 0) }
    ensures stops { IfErr result (λ stop. StopsBy (F.view files.old).told (Some (Explain policy.now recording.now number)) stop) }
    ensures cause { IfErr result (λ stop. CausedBy (FilesRose (F.view files.old) (F.view files.new)) (SinkRose (O.view out.old) (O.view out.new)) ⊥ stop) }
    ensures keeps { IfErr result (λ stop. Keeps (answer_to (F.view files.old).told (Some (Explain policy.now recording.now number))) (O.view out.old).told (O.view out.new).told stop) }
    ensures read { OnOk result ((F.view files.new).reads ≡ (F.view files.old).reads ++ paths_of (Some (Explain policy.now recording.now number))) }
    ensures until { IfErr result (ReadUntil (policies_of (Some (Explain policy.now recording.now number))) (paths_of (Some (Explain policy.now recording.now number))) (F.view files.old).reads (F.view files.new).reads) }
    ensures needed { ReadsNeeded (IsSettled (answer_to (F.view files.old).told (Some (Explain policy.now recording.now number)))) (needed (F.view files.old).told (Some (Explain policy.now recording.now number))) (F.view files.old).reads (F.view files.new).reads result }
{
    match load(alloc, files, policy, recording) {
        Ok(loaded) => match explain(alloc, &loaded.options, &loaded.recording, number, out) {
            Ok(()) => Ok(Status { code: 0 }),
            Err(ExplainFault::NoSuchMessage) => Err(Stop::Refused(Refusal::NoSuchMessage)),
            Err(ExplainFault::Out) => Err(Stop::Output),
            Err(ExplainFault::Memory) => Err(Stop::Memory),
        },
        Err(stop) => Err(stop),
    }
}

/// Reads the files of two recordings and compares them. It has no log.
fn work_twin<'a, F: Files, O: Sink>(
    alloc: Global,
    policy: &'a str,
    one: &'a str,
    other: &'a str,
    files: &mut F,
    out: &mut O,
) -> Result<Status, Stop<'a>>
    ensures done { IfOk result (λ status. IsDone (answer_to (F.view files.old).told (Some (Twin policy.now one.now other.now))) (O.view out.old).told (O.view out.new).told status.code) }
    ensures end { IfOk result (λ status. (status.code ≡ 0) ⊎ (status.code ≡ 7)) }
    ensures stops { IfErr result (λ stop. StopsBy (F.view files.old).told (Some (Twin policy.now one.now other.now)) stop) }
    ensures cause { IfErr result (λ stop. CausedBy (FilesRose (F.view files.old) (F.view files.new)) (SinkRose (O.view out.old) (O.view out.new)) ⊥ stop) }
    ensures keeps { IfErr result (λ stop. Keeps (answer_to (F.view files.old).told (Some (Twin policy.now one.now other.now))) (O.view out.old).told (O.view out.new).told stop) }
    ensures read { OnOk result ((F.view files.new).reads ≡ (F.view files.old).reads ++ paths_of (Some (Twin policy.now one.now other.now))) }
    ensures until { IfErr result (ReadUntil (policies_of (Some (Twin policy.now one.now other.now))) (paths_of (Some (Twin policy.now one.now other.now))) (F.view files.old).reads (F.view files.new).reads) }
    ensures needed { ReadsNeeded (IsSettled (answer_to (F.view files.old).told (Some (Twin policy.now one.now other.now)))) (needed (F.view files.old).told (Some (Twin policy.now one.now other.now))) (F.view files.old).reads (F.view files.new).reads result }
{
    match load_twins(alloc, files, policy, one, other) {
        Ok(twins) => compare(alloc, &twins.options.policy, &twins.one, &twins.other, out),
        Err(stop) => Err(stop),
    }
}

/// Compares two recordings, and writes how they compare.
fn compare<'a, O: Sink>(
    alloc: Global,
    policy: &Policy,
    one: &Recording,
    other: &Recording,
    out: &mut O,
) -> Result<Status, Stop<'a>>
    ensures done { IfOk result (λ status. IsDone (Compared policy.now (recording_seen one.now) (recording_seen other.now)) (O.view out.old).told (O.view out.new).told status.code) }
    ensures end { IfOk result (λ status. (status.code ≡ 0) ⊎ (status.code ≡ 7)) }
    ensures stops { IfErr result (λ stop. (told : List ℕ → Option (List ℕ)) (command : Option Command) → (IsSettled (answer_to told command) → IsWork (answer_to told command)) → StopsBy told command stop) }
    ensures cause { IfErr result (λ stop. CausedBy ⊥ (SinkRose (O.view out.old) (O.view out.new)) ⊥ stop) }
    ensures keeps { IfErr result (λ stop. Keeps (Compared policy.now (recording_seen one.now) (recording_seen other.now)) (O.view out.old).told (O.view out.new).told stop) }
    ensures work { IfErr result StopsWork }
{
    match twin(alloc, policy, one, other) {
        Ok(answer) => write_answer(alloc, answer, out),
        Err(_) => Err(Stop::Memory),
    }
}

/// Writes how two recordings compare.
fn write_answer<'a, O: Sink>(
    alloc: Global,
    answer: TwinAnswer,
    out: &mut O,
) -> Result<Status, Stop<'a>>
    ensures code { IfOk result (λ status. status.code ≡ twin_code answer) }
    ensures line { OnOk result ((O.view out.new).told ≡ added (twin_line answer) (O.view out.old).told) }
    ensures stops { IfErr result (λ stop. (told : List ℕ → Option (List ℕ)) (command : Option Command) → (IsSettled (answer_to told command) → IsWork (answer_to told command)) → StopsBy told command stop) }
    ensures cause { IfErr result (λ stop. CausedBy ⊥ (SinkRose (O.view out.old) (O.view out.new)) ⊥ stop) }
    ensures keeps { IfErr result (λ stop. Keeps (Wrote (twin_line answer) []) (O.view out.old).told (O.view out.new).told stop) }
    ensures work { IfErr result StopsWork }
{
    match twin_text(alloc, answer) {
        Ok(text) => match write_all(out, text.as_bytes()) {
            Ok(()) => Ok(twin_status(answer)),
            Err(_) => Err(Stop::Output),
        },
        Err(_) => Err(Stop::Memory),
    }
}

/// The line of a comparison.
fn twin_text(alloc: Global, answer: TwinAnswer) -> Result<String, AllocError>
    ensures { IfOk result (λ text. string_bytes text ≡ twin_line answer) }
{
    match answer {
        TwinAnswer::Same => String::from_str(alloc, "same\n"),
        TwinAnswer::Differ(place) => format!(in alloc; "differ {place}\n"),
    }
}

/// The status of a comparison.
fn twin_status(answer: TwinAnswer) -> Status
    ensures { result.code ≡ twin_code answer }
{
    match answer {
        TwinAnswer::Same => Status { code: 0 },
        TwinAnswer::Differ(_) => Status { code: 7 },
    }
}

/// Reads the files of an audit, and counts what the policy denies of the recordings. It has no log.
fn work_audit<'a, R: Threads + Sync, G: Gate + Sync, F: Files, O: Sink>(
    rt: &R,
    gate: &G,
    alloc: Global,
    policy: &'a str,
    recordings: &[&'a str],
    files: &mut F,
    out: &mut O,
) -> Result<Status, Stop<'a>>
    ensures done { IfOk result (λ status. IsDone (answer_to (F.view files.old).told (Some (Audit policy.now (map (λ path. path.now) recordings.now)))) (O.view out.old).told (O.view out.new).told status.code) }
    ensures end { IfOk result (λ status. status.code ≡ 0) }
    ensures stops { IfErr result (λ stop. StopsBy (F.view files.old).told (Some (Audit policy.now (map (λ path. path.now) recordings.now))) stop) }
    ensures cause { IfErr result (λ stop. CausedBy (FilesRose (F.view files.old) (F.view files.new)) (SinkRose (O.view out.old) (O.view out.new)) ⊥ stop) }
    ensures keeps { IfErr result (λ stop. Keeps (answer_to (F.view files.old).told (Some (Audit policy.now (map (λ path. path.now) recordings.now)))) (O.view out.old).told (O.view out.new).told stop) }
    ensures read { OnOk result ((F.view files.new).reads ≡ (F.view files.old).reads ++ paths_of (Some (Audit policy.now (map (λ path. path.now) recordings.now)))) }
    ensures until { IfErr result (ReadUntil (policies_of (Some (Audit policy.now (map (λ path. path.now) recordings.now)))) (paths_of (Some (Audit policy.now (map (λ path. path.now) recordings.now)))) (F.view files.old).reads (F.view files.new).reads) }
    ensures needed { ReadsNeeded (IsSettled (answer_to (F.view files.old).told (Some (Audit policy.now (map (λ path. path.now) recordings.now))))) (needed (F.view files.old).told (Some (Audit policy.now (map (λ path. path.now) recordings.now)))) (F.view files.old).reads (F.view files.new).reads result }
{
    match load_audit(alloc, files, policy, recordings) {
        Ok(loaded) => write_audit(rt, gate, alloc, &loaded.options, &loaded.recordings, out),
        Err(stop) => Err(stop),
    }
}

/// Counts what a policy denies of recordings, and writes the counts.
fn write_audit<'a, R: Threads + Sync, G: Gate + Sync, O: Sink>(
    rt: &R,
    gate: &G,
    alloc: Global,
    options: &Options,
    recordings: &[Recording],
    out: &mut O,
) -> Result<Status, Stop<'a>>
    ensures done { IfOk result (λ status. IsDone (audited (options_seen options.now) (map recording_seen recordings.now)) (O.view out.old).told (O.view out.new).told status.code) }
    ensures end { IfOk result (λ status. status.code ≡ 0) }
    ensures stops { IfErr result (λ stop. (told : List ℕ → Option (List ℕ)) (command : Option Command) → (IsSettled (answer_to told command) → IsWork (answer_to told command)) → StopsBy told command stop) }
    ensures cause { IfErr result (λ stop. CausedBy ⊥ (SinkRose (O.view out.old) (O.view out.new)) ⊥ stop) }
    ensures keeps { IfErr result (λ stop. Keeps (audited (options_seen options.now) (map recording_seen recordings.now)) (O.view out.old).told (O.view out.new).told stop) }
    ensures work { IfErr result StopsWork }
{
    match audit(rt, gate, alloc, options, recordings) {
        Ok(text) => match write_all(out, text.as_bytes()) {
            Ok(()) => Ok(Status { code: 0 }),
            Err(_) => Err(Stop::Output),
        },
        Err(_) => Err(Stop::Memory),
    }
}

/// Reads two policy files, and tells whether the one policy is within the other. It has no log.
fn work_within<'a, F: Files, O: Sink>(
    alloc: Global,
    one: &'a str,
    other: &'a str,
    files: &mut F,
    out: &mut O,
) -> Result<Status, Stop<'a>>
    ensures done { IfOk result (λ status. IsDone (answer_to (F.view files.old).told (Some (Within one.now other.now))) (O.view out.old).told (O.view out.new).told status.code) }
    ensures end { IfOk result (λ status. (status.code ≡ 0) ⊎ (status.code ≡ 7)) }
    ensures stops { IfErr result (λ stop. StopsBy (F.view files.old).told (Some (Within one.now other.now)) stop) }
    ensures cause { IfErr result (λ stop. CausedBy (FilesRose (F.view files.old) (F.view files.new)) (SinkRose (O.view out.old) (O.view out.new)) ⊥ stop) }
    ensures keeps { IfErr result (λ stop. Keeps (answer_to (F.view files.old).told (Some (Within one.now other.now))) (O.view out.old).told (O.view out.new).told stop) }
    ensures read { OnOk result ((F.view files.new).reads ≡ (F.view files.old).reads ++ paths_of (Some (Within one.now other.now))) }
    ensures until { IfErr result (ReadUntil (policies_of (Some (Within one.now other.now))) (paths_of (Some (Within one.now other.now))) (F.view files.old).reads (F.view files.new).reads) }
    ensures needed { ReadsNeeded (IsSettled (answer_to (F.view files.old).told (Some (Within one.now other.now)))) (needed (F.view files.old).told (Some (Within one.now other.now))) (F.view files.old).reads (F.view files.new).reads result }
{
    match load_policies(alloc, files, one, other) {
        Ok(loaded) => write_within(alloc, &loaded.one.policy, &loaded.other.policy, out),
        Err(stop) => Err(stop),
    }
}

/// Tells whether one policy is within another.
fn write_within<'a, O: Sink>(
    alloc: Global,
    one: &Policy,
    other: &Policy,
    out: &mut O,
) -> Result<Status, Stop<'a>>
    ensures done { IfOk result (λ status. IsDone (Contained one.now other.now) (O.view out.old).told (O.view out.new).told status.code) }
    ensures end { IfOk result (λ status. (status.code ≡ 0) ⊎ (status.code ≡ 7)) }
    ensures stops { IfErr result (λ stop. (told : List ℕ → Option (List ℕ)) (command : Option Command) → (IsSettled (answer_to told command) → IsWork (answer_to told command)) → StopsBy told command stop) }
    ensures cause { IfErr result (λ stop. CausedBy ⊥ (SinkRose (O.view out.old) (O.view out.new)) ⊥ stop) }
    ensures keeps { IfErr result (λ stop. Keeps (Contained one.now other.now) (O.view out.old).told (O.view out.new).told stop) }
    ensures work { IfErr result StopsWork }
{
    match within(alloc, one, other) {
        Ok(answer) => write_containment(alloc, &answer, out),
        Err(_) => Err(Stop::Memory),
    }
}

/// Writes what is known of two policies.
fn write_containment<'a, O: Sink>(
    alloc: Global,
    answer: &WithinAnswer,
    out: &mut O,
) -> Result<Status, Stop<'a>>
    ensures code { IfOk result (λ status. status.code ≡ within_code answer.now) }
    ensures lines { OnOk result ((O.view out.new).told ≡ added (within_text answer.now) (O.view out.old).told) }
    ensures stops { IfErr result (λ stop. (told : List ℕ → Option (List ℕ)) (command : Option Command) → (IsSettled (answer_to told command) → IsWork (answer_to told command)) → StopsBy told command stop) }
    ensures cause { IfErr result (λ stop. CausedBy ⊥ (SinkRose (O.view out.old) (O.view out.new)) ⊥ stop) }
    ensures keeps { IfErr result (λ stop. Keeps (Wrote (within_text answer.now) []) (O.view out.old).told (O.view out.new).told stop) }
    ensures work { IfErr result StopsWork }
{
    match containment_text(alloc, answer) {
        Ok(text) => match write_all(out, text.as_bytes()) {
            Ok(()) => Ok(containment_status(answer)),
            Err(_) => Err(Stop::Output),
        },
        Err(_) => Err(Stop::Memory),
    }
}

/// The status of what is known of two policies.
fn containment_status(answer: &WithinAnswer) -> Status
    ensures { result.code ≡ within_code answer.now }
{
    match answer {
        WithinAnswer::Yes(_) => Status { code: 0 },
        WithinAnswer::No(_) => Status { code: 7 },
    }
}

/// Reads recordings, and suggests a policy for them. It has no log.
fn work_suggest<'a, R: Threads + Sync, G: Gate + Sync, F: Files, O: Sink>(
    rt: &R,
    gate: &G,
    alloc: Global,
    recordings: &[&'a str],
    files: &mut F,
    out: &mut O,
) -> Result<Status, Stop<'a>>
    ensures done { IfOk result (λ status. IsDone (answer_to (F.view files.old).told (Some (Suggest (map (λ path. path.now) recordings.now)))) (O.view out.old).told (O.view out.new).told status.code) }
    ensures end { IfOk result (λ status. status.code ≡ 0) }
    ensures stops { IfErr result (λ stop. StopsBy (F.view files.old).told (Some (Suggest (map (λ path. path.now) recordings.now))) stop) }
    ensures cause { IfErr result (λ stop. CausedBy (FilesRose (F.view files.old) (F.view files.new)) (SinkRose (O.view out.old) (O.view out.new)) ⊥ stop) }
    ensures keeps { IfErr result (λ stop. Keeps (answer_to (F.view files.old).told (Some (Suggest (map (λ path. path.now) recordings.now)))) (O.view out.old).told (O.view out.new).told stop) }
    ensures read { OnOk result ((F.view files.new).reads ≡ (F.view files.old).reads ++ paths_of (Some (Suggest (map (λ path. path.now) recordings.now)))) }
    ensures until { IfErr result (ReadUntil (policies_of (Some (Suggest (map (λ path. path.now) recordings.now)))) (paths_of (Some (Suggest (map (λ path. path.now) recordings.now)))) (F.view files.old).reads (F.view files.new).reads) }
    ensures needed { ReadsNeeded (IsSettled (answer_to (F.view files.old).told (Some (Suggest (map (λ path. path.now) recordings.now))))) (needed (F.view files.old).told (Some (Suggest (map (λ path. path.now) recordings.now)))) (F.view files.old).reads (F.view files.new).reads result }
{
    match load_suggested(alloc, files, recordings) {
        Ok(loaded) => write_suggestion(rt, gate, alloc, &loaded, out),
        Err(stop) => Err(stop),
    }
}

/// Suggests a policy for recordings, and writes its file.
fn write_suggestion<'a, R: Threads + Sync, G: Gate + Sync, O: Sink>(
    rt: &R,
    gate: &G,
    alloc: Global,
    recordings: &[Recording],
    out: &mut O,
) -> Result<Status, Stop<'a>>
    ensures done { IfOk result (λ status. IsDone (suggesting (map recording_seen recordings.now)) (O.view out.old).told (O.view out.new).told status.code) }
    ensures end { IfOk result (λ status. status.code ≡ 0) }
    ensures stops { IfErr result (λ stop. (told : List ℕ → Option (List ℕ)) (command : Option Command) → Agrees (answer_to told command) (suggesting (map recording_seen recordings.now)) → IsSuggest command → StopsBy told command stop) }
    ensures cause { IfErr result (λ stop. CausedBy ⊥ (SinkRose (O.view out.old) (O.view out.new)) ⊥ stop) }
    ensures keeps { IfErr result (λ stop. Keeps (suggesting (map recording_seen recordings.now)) (O.view out.old).told (O.view out.new).told stop) }
    ensures work { IfErr result StopsWork }
{
    match suggestion(rt, gate, alloc, recordings) {
        Ok(text) => match write_all(out, text.as_bytes()) {
            Ok(()) => Ok(Status { code: 0 }),
            Err(_) => Err(Stop::Output),
        },
        Err(SuggestRefusal::TooMany) => Err(Stop::Refused(Refusal::TooManyEntries)),
        Err(SuggestRefusal::Memory) => Err(Stop::Memory),
    }
}

/// Plays a sample and sums it up. It reads no file, and has no log.
fn work_sample<'a, O: Sink>(
    alloc: Global,
    draws: u32,
    seed: u64,
    out: &mut O,
) -> Result<Status, Stop<'a>>
    requires { draws ≤ MOST_DRAWS }
    ensures done { IfOk result (λ status. IsDone (sampled draws seed) (O.view out.old).told (O.view out.new).told status.code) }
    ensures end { IfOk result (λ status. status.code ≡ 0) }
    ensures stops { IfErr result (λ stop. (told : List ℕ → Option (List ℕ)) → StopsBy told (Some (Sample draws seed)) stop) }
    ensures cause { IfErr result (λ stop. CausedBy ⊥ (SinkRose (O.view out.old) (O.view out.new)) ⊥ stop) }
    ensures keeps { IfErr result (λ stop. Keeps (sampled draws seed) (O.view out.old).told (O.view out.new).told stop) }
    ensures work { IfErr result StopsWork }
{
    match summary(alloc, draws, seed, out) {
        Ok(()) => Ok(Status { code: 0 }),
        Err(SampleFault::Out) => Err(Stop::Output),
        Err(SampleFault::Memory) => Err(Stop::Memory),
    }
}

/// Writes the version.
fn work_version<'a, O: Sink>(alloc: Global, out: &mut O) -> Result<Status, Stop<'a>>
    ensures done { IfOk result (λ status. IsDone (Wrote version_line []) (O.view out.old).told (O.view out.new).told status.code) }
    ensures end { IfOk result (λ status. status.code ≡ 0) }
    ensures stops { IfErr result (λ stop. (told : List ℕ → Option (List ℕ)) (command : Option Command) → IsWork (answer_to told command) → StopsBy told command stop) }
    ensures cause { IfErr result (λ stop. CausedBy ⊥ (SinkRose (O.view out.old) (O.view out.new)) ⊥ stop) }
    ensures keeps { IfErr result (λ stop. Keeps (Wrote version_line []) (O.view out.old).told (O.view out.new).told stop) }
    ensures work { IfErr result StopsWork }
{
    if let Ok(text) = version_text(alloc) {
        return work_text(text.as_str(), out);
    }
    Err(Stop::Memory)
}

/// The program's name and version.
fn version_text(alloc: Global) -> Result<String, AllocError>
    ensures { IfOk result (λ text. string_bytes text ≡ version_line) }
{
    format!(in alloc; "zamtigarn {VERSION}\n")
}

/// Writes a text. There is no log.
fn work_text<'a, O: Sink>(text: &str, out: &mut O) -> Result<Status, Stop<'a>>
    ensures done { IfOk result (λ status. IsDone (Wrote text.now []) (O.view out.old).told (O.view out.new).told status.code) }
    ensures end { IfOk result (λ status. status.code ≡ 0) }
    ensures stops { IfErr result (λ stop. (told : List ℕ → Option (List ℕ)) (command : Option Command) → IsWork (answer_to told command) → StopsBy told command stop) }
    ensures cause { IfErr result (λ stop. CausedBy ⊥ (SinkRose (O.view out.old) (O.view out.new)) ⊥ stop) }
    ensures keeps { IfErr result (λ stop. Keeps (Wrote text.now []) (O.view out.old).told (O.view out.new).told stop) }
    ensures work { IfErr result StopsWork }
{
    write_bytes(text.as_bytes(), out)
}
