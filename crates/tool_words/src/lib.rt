//! The words of the program's tools.
//!
//! Each tool has a simple command, which reads its words: the tool's name, and then one word for
//! each of its places.
#![tactic(auto)]

ghost use Rattle.std.specs.Prelude.{◌≡◌, ◌↔◌, ◌≤◌, ◌+◌, ◌++◌, [], ◌∷◌, List, Option, IfOk, OnOk, drop, fold, map, length, option_map, option_to_list, string_bytes, codes, true, false, IsTrue};
ghost use Rattle.clap.specs.Words.{Row, Text, app_of, first_of, found_of, is_simple_and_free, kind_of, new_rule, rows_of, rule_of, with_rule};
ghost use Rattle.tool_words.specs.Operands.{IsOneWordAtMost, IsOneWordEach, is_between, of_count, of_number, operands};
ghost use Rattle.tool_words.specs.Tools.{Parses, command_of, command_with, filled_at, required_word, replay_places, explain_places, twin_places, sample_places, within_places, audit_places, suggest_places, show_places, compose_places, session_places, sessions_places, more_recordings, read_of, taken, taken_by, taken_with, words_at, words_found};

use clap::error::ErrorKind;
use clap::{Arg, ArgMatches, Command, Error};
use std::alloc::{AllocError, Global};

/// The words of `replay POLICY RECORDING`.
#[derive(Clone, Copy, Debug, PartialEq, Eq)]
pub struct ReplayWords<'a> {
    /// The path of the policy file.
    pub policy: &'a str,
    /// The path of the recording.
    pub recording: &'a str,
}

/// The words of `explain POLICY RECORDING N`.
#[derive(Clone, Copy, Debug, PartialEq, Eq)]
pub struct ExplainWords<'a> {
    /// The path of the policy file.
    pub policy: &'a str,
    /// The path of the recording.
    pub recording: &'a str,
    /// The number of a message.
    pub number: &'a str,
}

/// The words of `twin POLICY A B`.
#[derive(Clone, Copy, Debug, PartialEq, Eq)]
pub struct TwinWords<'a> {
    /// The path of the policy file.
    pub policy: &'a str,
    /// The path of one recording.
    pub one: &'a str,
    /// The path of the other.
    pub other: &'a str,
}

/// The words of `within A B`.
#[derive(Clone, Copy, Debug, PartialEq, Eq)]
pub struct WithinWords<'a> {
    /// The path of the policy file that is to be within the other.
    pub one: &'a str,
    /// The path of the other.
    pub other: &'a str,
}

/// The words of `audit POLICY RECORDING..`.
#[derive(Drop)]
pub struct AuditWords<'a> {
    /// The path of the policy file.
    pub policy: &'a str,
    /// The paths of the recordings, 1 to 16.
    pub recordings: Vec<&'a str>,
}

/// The words of `suggest RECORDING..`.
#[derive(Drop)]
pub struct SuggestWords<'a> {
    /// The paths of the recordings, 1 to 16.
    pub recordings: Vec<&'a str>,
}

/// The words of `show FILE`.
#[derive(Clone, Copy, Debug, PartialEq, Eq)]
pub struct ShowWords<'a> {
    /// The path of the file of a message.
    pub message: &'a str,
}

/// The words of `compose FILE`.
#[derive(Clone, Copy, Debug, PartialEq, Eq)]
pub struct ComposeWords<'a> {
    /// The path of the file of a message's text.
    pub text: &'a str,
}

/// The words of `session RECORDING N`.
#[derive(Clone, Copy, Debug, PartialEq, Eq)]
pub struct SessionWords<'a> {
    /// The path of the recording.
    pub recording: &'a str,
    /// The number of a session.
    pub number: &'a str,
}

/// The words of `sessions RECORDING`.
#[derive(Clone, Copy, Debug, PartialEq, Eq)]
pub struct SessionsWords<'a> {
    /// The path of the recording.
    pub recording: &'a str,
}

/// The places of further recordings: 15 beside the first.
const MORE_RECORDINGS: [&str; 15] = [
    "RECORDING2",
    "RECORDING3",
    "RECORDING4",
    "RECORDING5",
    "RECORDING6",
    "RECORDING7",
    "RECORDING8",
    "RECORDING9",
    "RECORDING10",
    "RECORDING11",
    "RECORDING12",
    "RECORDING13",
    "RECORDING14",
    "RECORDING15",
    "RECORDING16",
];

/// The words of `sample N SEED`.
#[derive(Clone, Copy, Debug, PartialEq, Eq)]
pub struct SampleWords<'a> {
    /// How many draws there are.
    pub draws: &'a str,
    /// The seed of the draws.
    pub seed: &'a str,
}

/// The words of `replay POLICY RECORDING` after the tool's name, if its command takes them. It fails if memory is
/// refused.
pub fn replay_words(alloc: Global, words: &[String]) -> Result<Option<ReplayWords<'_>>, AllocError>
    // They are what the command finds.
    ensures found { IfOk result (λ r. option_map (λ w. w.policy.now ∷ w.recording.now ∷ []) r ≡ taken (codes "replay") replay_places (map (λ w. string_bytes w) words.now)) }

    // They are all words after the tool's name but a first `--`, if no word before that is an option, and if they are
    // as many as the places.
    ensures plain { IfOk result (λ r. option_map (λ w. w.policy.now ∷ w.recording.now ∷ []) r ≡ of_number 2 (operands (drop 1 (map (λ w. string_bytes w) words.now)))) }
{
    match matches_of(alloc, "replay", &["POLICY", "RECORDING"], words)? {
        Some(matches) => Ok(replay_places(&matches)),
        None => Ok(None),
    }
}

/// The words in the places of `replay`.
fn replay_places<'a>(matches: &ArgMatches<'a>) -> Option<ReplayWords<'a>>
    ensures { option_map (λ w. w.policy.now ∷ w.recording.now ∷ []) result ≡ words_at replay_places (rows_of (found_of matches.now)) }
{
    let policy = word_at(matches, "POLICY")?;
    let recording = word_at(matches, "RECORDING")?;
    Some(ReplayWords { policy, recording })
}

/// The words of `explain POLICY RECORDING N` after the tool's name, if its command takes them. It fails if memory is
/// refused.
pub fn explain_words(
    alloc: Global,
    words: &[String],
) -> Result<Option<ExplainWords<'_>>, AllocError>
    // They are what the command finds.
    ensures found { IfOk result (λ r. option_map (λ w. w.policy.now ∷ w.recording.now ∷ w.number.now ∷ []) r ≡ taken (codes "explain") explain_places (map (λ w. string_bytes w) words.now)) }

    // They are all words after the tool's name but a first `--`, if no word before that is an option, and if they are
    // as many as the places.
    ensures plain { IfOk result (λ r. option_map (λ w. w.policy.now ∷ w.recording.now ∷ w.number.now ∷ []) r ≡ of_number 3 (operands (drop 1 (map (λ w. string_bytes w) words.now)))) }
{
    match matches_of(alloc, "explain", &["POLICY", "RECORDING", "N"], words)? {
        Some(matches) => Ok(explain_places(&matches)),
        None => Ok(None),
    }
}

/// The words in the places of `explain`.
fn explain_places<'a>(matches: &ArgMatches<'a>) -> Option<ExplainWords<'a>>
    ensures { option_map (λ w. w.policy.now ∷ w.recording.now ∷ w.number.now ∷ []) result ≡ words_at explain_places (rows_of (found_of matches.now)) }
{
    let policy = word_at(matches, "POLICY")?;
    let recording = word_at(matches, "RECORDING")?;
    let number = word_at(matches, "N")?;
    Some(ExplainWords {
        policy,
        recording,
        number,
    })
}

/// The words of `twin POLICY A B` after the tool's name, if its command takes them. It fails if memory is refused.
pub fn twin_words(alloc: Global, words: &[String]) -> Result<Option<TwinWords<'_>>, AllocError>
    // They are what the command finds.
    ensures found { IfOk result (λ r. option_map (λ w. w.policy.now ∷ w.one.now ∷ w.other.now ∷ []) r ≡ taken (codes "twin") twin_places (map (λ w. string_bytes w) words.now)) }

    // They are all words after the tool's name but a first `--`, if no word before that is an option, and if they are
    // as many as the places.
    ensures plain { IfOk result (λ r. option_map (λ w. w.policy.now ∷ w.one.now ∷ w.other.now ∷ []) r ≡ of_number 3 (operands (drop 1 (map (λ w. string_bytes w) words.now)))) }
{
    match matches_of(alloc, "twin", &["POLICY", "A", "B"], words)? {
        Some(matches) => Ok(twin_places(&matches)),
        None => Ok(None),
    }
}

/// The words in the places of `twin`.
fn twin_places<'a>(matches: &ArgMatches<'a>) -> Option<TwinWords<'a>>
    ensures { option_map (λ w. w.policy.now ∷ w.one.now ∷ w.other.now ∷ []) result ≡ words_at twin_places (rows_of (found_of matches.now)) }
{
    let policy = word_at(matches, "POLICY")?;
    let one = word_at(matches, "A")?;
    let other = word_at(matches, "B")?;
    Some(TwinWords { policy, one, other })
}

/// The words of `sample N SEED` after the tool's name, if its command takes them. It fails if memory is refused.
pub fn sample_words(alloc: Global, words: &[String]) -> Result<Option<SampleWords<'_>>, AllocError>
    // They are what the command finds.
    ensures found { IfOk result (λ r. option_map (λ w. w.draws.now ∷ w.seed.now ∷ []) r ≡ taken (codes "sample") sample_places (map (λ w. string_bytes w) words.now)) }

    // They are all words after the tool's name but a first `--`, if no word before that is an option, and if they are
    // as many as the places.
    ensures plain { IfOk result (λ r. option_map (λ w. w.draws.now ∷ w.seed.now ∷ []) r ≡ of_number 2 (operands (drop 1 (map (λ w. string_bytes w) words.now)))) }
{
    match matches_of(alloc, "sample", &["N", "SEED"], words)? {
        Some(matches) => Ok(sample_places(&matches)),
        None => Ok(None),
    }
}

/// The words in the places of `sample`.
fn sample_places<'a>(matches: &ArgMatches<'a>) -> Option<SampleWords<'a>>
    ensures { option_map (λ w. w.draws.now ∷ w.seed.now ∷ []) result ≡ words_at sample_places (rows_of (found_of matches.now)) }
{
    let draws = word_at(matches, "N")?;
    let seed = word_at(matches, "SEED")?;
    Some(SampleWords { draws, seed })
}

/// The words of `within A B` after the tool's name, if its command takes them. It fails if memory is refused.
pub fn within_words(alloc: Global, words: &[String]) -> Result<Option<WithinWords<'_>>, AllocError>
    // They are what the command finds.
    ensures found { IfOk result (λ r. option_map (λ w. w.one.now ∷ w.other.now ∷ []) r ≡ taken (codes "within") within_places (map (λ w. string_bytes w) words.now)) }

    // They are all words after the tool's name but a first `--`, if no word before that is an option, and if they are
    // as many as the places.
    ensures plain { IfOk result (λ r. option_map (λ w. w.one.now ∷ w.other.now ∷ []) r ≡ of_number 2 (operands (drop 1 (map (λ w. string_bytes w) words.now)))) }
{
    match matches_of(alloc, "within", &["A", "B"], words)? {
        Some(matches) => Ok(within_places(&matches)),
        None => Ok(None),
    }
}

/// The words in the places of `within`.
fn within_places<'a>(matches: &ArgMatches<'a>) -> Option<WithinWords<'a>>
    ensures { option_map (λ w. w.one.now ∷ w.other.now ∷ []) result ≡ words_at within_places (rows_of (found_of matches.now)) }
{
    let one = word_at(matches, "A")?;
    let other = word_at(matches, "B")?;
    Some(WithinWords { one, other })
}

/// The words of `audit POLICY RECORDING..` after the tool's name, if its command takes them, with 1 to 16 recordings.
/// It fails if memory is refused.
pub fn audit_words(alloc: Global, words: &[String]) -> Result<Option<AuditWords<'_>>, AllocError>
    // They are what the command finds.
    ensures found { IfOk result (λ r. option_map (λ w. w.policy.now ∷ map (λ path. path.now) w.recordings.items) r ≡ taken_with (codes "audit") audit_places more_recordings (map (λ w. string_bytes w) words.now)) }

    // They are all words after the tool's name but a first `--`, if no word before that is an option, and if they are 2
    // to 17.
    ensures plain { IfOk result (λ r. option_map (λ w. w.policy.now ∷ map (λ path. path.now) w.recordings.items) r ≡ of_count (is_between 2 17) (operands (drop 1 (map (λ w. string_bytes w) words.now)))) }
{
    match filled(alloc, "audit", &["POLICY", "RECORDING"], words)? {
        Some(found) => Ok(Some(first_apart(found))),
        None => Ok(None),
    }
}

/// The first word is the policy's, and the others are those of recordings.
fn first_apart(found: Vec<&str>) -> AuditWords<'_>
    requires { 2 ≤ length found.items }
    ensures { result.policy.now ∷ map (λ path. path.now) result.recordings.items ≡ map (λ word. word.now) found.entry.items }
{
    let mut recordings = found;
    let policy = recordings.remove(0);
    AuditWords { policy, recordings }
}

/// The words of `suggest RECORDING..` after the tool's name, if its command takes them, with 1 to 16 recordings. It
/// fails if memory is refused.
pub fn suggest_words(
    alloc: Global,
    words: &[String],
) -> Result<Option<SuggestWords<'_>>, AllocError>
    // They are what the command finds.
    ensures found { IfOk result (λ r. option_map (λ w. map (λ path. path.now) w.recordings.items) r ≡ taken_with (codes "suggest") suggest_places more_recordings (map (λ w. string_bytes w) words.now)) }

    // They are all words after the tool's name but a first `--`, if no word before that is an option, and if they are 1
    // to 16.
    ensures plain { IfOk result (λ r. option_map (λ w. map (λ path. path.now) w.recordings.items) r ≡ of_count (is_between 1 16) (operands (drop 1 (map (λ w. string_bytes w) words.now)))) }
{
    match filled(alloc, "suggest", &["RECORDING"], words)? {
        Some(recordings) => Ok(Some(SuggestWords { recordings })),
        None => Ok(None),
    }
}

/// The words of `show FILE` after the tool's name, if its command takes them. It fails if memory is refused.
pub fn show_words(alloc: Global, words: &[String]) -> Result<Option<ShowWords<'_>>, AllocError>
    // They are what the command finds.
    ensures found { IfOk result (λ r. option_map (λ w. w.message.now ∷ []) r ≡ taken (codes "show") show_places (map (λ w. string_bytes w) words.now)) }

    // They are all words after the tool's name but a first `--`, if no word before that is an option, and if there is
    // one.
    ensures plain { IfOk result (λ r. option_map (λ w. w.message.now ∷ []) r ≡ of_number 1 (operands (drop 1 (map (λ w. string_bytes w) words.now)))) }
{
    match matches_of(alloc, "show", &["FILE"], words)? {
        Some(matches) => Ok(show_place(&matches)),
        None => Ok(None),
    }
}

/// The word in the place of `show`.
fn show_place<'a>(matches: &ArgMatches<'a>) -> Option<ShowWords<'a>>
    ensures { option_map (λ w. w.message.now ∷ []) result ≡ words_at show_places (rows_of (found_of matches.now)) }
{
    let message = word_at(matches, "FILE")?;
    Some(ShowWords { message })
}

/// The words of `compose FILE` after the tool's name, if its command takes them. It fails if memory is refused.
pub fn compose_words(
    alloc: Global,
    words: &[String],
) -> Result<Option<ComposeWords<'_>>, AllocError>
    // They are what the command finds.
    ensures found { IfOk result (λ r. option_map (λ w. w.text.now ∷ []) r ≡ taken (codes "compose") compose_places (map (λ w. string_bytes w) words.now)) }

    // They are all words after the tool's name but a first `--`, if no word before that is an option, and if there is
    // one.
    ensures plain { IfOk result (λ r. option_map (λ w. w.text.now ∷ []) r ≡ of_number 1 (operands (drop 1 (map (λ w. string_bytes w) words.now)))) }
{
    match matches_of(alloc, "compose", &["FILE"], words)? {
        Some(matches) => Ok(compose_place(&matches)),
        None => Ok(None),
    }
}

/// The word in the place of `compose`.
fn compose_place<'a>(matches: &ArgMatches<'a>) -> Option<ComposeWords<'a>>
    ensures { option_map (λ w. w.text.now ∷ []) result ≡ words_at compose_places (rows_of (found_of matches.now)) }
{
    let text = word_at(matches, "FILE")?;
    Some(ComposeWords { text })
}

/// The words of `session RECORDING N` after the tool's name, if its command takes them. It fails if memory is refused.
pub fn session_words(
    alloc: Global,
    words: &[String],
) -> Result<Option<SessionWords<'_>>, AllocError>
    // They are what the command finds.
    ensures found { IfOk result (λ r. option_map (λ w. w.recording.now ∷ w.number.now ∷ []) r ≡ taken (codes "session") session_places (map (λ w. string_bytes w) words.now)) }

    // They are all words after the tool's name but a first `--`, if no word before that is an option, and if they are
    // as many as the places.
    ensures plain { IfOk result (λ r. option_map (λ w. w.recording.now ∷ w.number.now ∷ []) r ≡ of_number 2 (operands (drop 1 (map (λ w. string_bytes w) words.now)))) }
{
    match matches_of(alloc, "session", &["RECORDING", "N"], words)? {
        Some(matches) => Ok(session_places(&matches)),
        None => Ok(None),
    }
}

/// The words in the places of `session`.
fn session_places<'a>(matches: &ArgMatches<'a>) -> Option<SessionWords<'a>>
    ensures { option_map (λ w. w.recording.now ∷ w.number.now ∷ []) result ≡ words_at session_places (rows_of (found_of matches.now)) }
{
    let recording = word_at(matches, "RECORDING")?;
    let number = word_at(matches, "N")?;
    Some(SessionWords { recording, number })
}

/// The words of `sessions RECORDING` after the tool's name, if its command takes them. It fails if memory is refused.
pub fn sessions_words(
    alloc: Global,
    words: &[String],
) -> Result<Option<SessionsWords<'_>>, AllocError>
    // They are what the command finds.
    ensures found { IfOk result (λ r. option_map (λ w. w.recording.now ∷ []) r ≡ taken (codes "sessions") sessions_places (map (λ w. string_bytes w) words.now)) }

    // They are all words after the tool's name but a first `--`, if no word before that is an option, and if there is
    // one.
    ensures plain { IfOk result (λ r. option_map (λ w. w.recording.now ∷ []) r ≡ of_number 1 (operands (drop 1 (map (λ w. string_bytes w) words.now)))) }
{
    match matches_of(alloc, "sessions", &["RECORDING"], words)? {
        Some(matches) => Ok(sessions_place(&matches)),
        None => Ok(None),
    }
}

/// The word in the place of `sessions`.
fn sessions_place<'a>(matches: &ArgMatches<'a>) -> Option<SessionsWords<'a>>
    ensures { option_map (λ w. w.recording.now ∷ []) result ≡ words_at sessions_places (rows_of (found_of matches.now)) }
{
    let recording = word_at(matches, "RECORDING")?;
    Some(SessionsWords { recording })
}

/// What the command of a tool finds, if it takes the words. It fails if memory is refused.
fn matches_of<'a>(
    alloc: Global,
    tool: &'a str,
    places: &[&'a str],
    words: &'a [String],
) -> Result<Option<ArgMatches<'a>>, AllocError>
    requires { IsOneWordEach tool.now (map (λ p. p.now) places.now) }
    ensures found { IfOk result (λ r. words_found (map (λ p. p.now) places.now) r ≡ taken tool.now (map (λ p. p.now) places.now) (map (λ w. string_bytes w) words.now)) }
    ensures plain { IfOk result (λ r. words_found (map (λ p. p.now) places.now) r ≡ of_number (length (map (λ p. p.now) places.now)) (operands (drop 1 (map (λ w. string_bytes w) words.now)))) }
{
    accepted(alloc, tool, places, &[], words)
}

/// The words in the filled places of the command of a tool that takes recordings, if it takes the words. It fails if
/// memory is refused.
fn filled<'a>(
    alloc: Global,
    tool: &'a str,
    places: &[&'a str],
    words: &'a [String],
) -> Result<Option<Vec<&'a str>>, AllocError>
    requires { IsOneWordAtMost tool.now (map (λ p. p.now) places.now) more_recordings }
    ensures found { IfOk result (λ r. option_map (λ found. map (λ word. word.now) found.items) r ≡ taken_with tool.now (map (λ p. p.now) places.now) more_recordings (map (λ w. string_bytes w) words.now)) }
    ensures plain { IfOk result (λ r. option_map (λ found. map (λ word. word.now) found.items) r ≡ of_count (is_between (length (map (λ p. p.now) places.now)) (length (map (λ p. p.now) places.now) + 15)) (operands (drop 1 (map (λ w. string_bytes w) words.now)))) }
{
    match accepted(alloc, tool, places, &MORE_RECORDINGS, words)? {
        Some(matches) => Ok(Some(all_filled(alloc, &matches, places)?)),
        None => Ok(None),
    }
}

/// The words in the filled places, and in those of further recordings.
fn all_filled<'a>(
    alloc: Global,
    matches: &ArgMatches<'a>,
    places: &[&str],
) -> Result<Vec<&'a str>, AllocError>
    ensures { IfOk result (λ found. map (λ word. word.now) found.items ≡ filled_at (map (λ p. p.now) places.now ++ more_recordings) (rows_of (found_of matches.now))) }
{
    let mut found = Vec::new(alloc);
    push_filled(matches, places, &mut found)?;
    push_filled(matches, &MORE_RECORDINGS, &mut found)?;
    Ok(found)
}

/// Puts the words in those of the places that are filled after others.
fn push_filled<'a>(
    matches: &ArgMatches<'a>,
    places: &[&str],
    found: &mut Vec<&'a str>,
) -> Result<(), AllocError>
    ensures { OnOk result (map (λ word. word.now) found.new.items ≡ map (λ word. word.now) found.old.items ++ filled_at (map (λ p. p.now) places.now) (rows_of (found_of matches.now))) }
{
    for place in places {
        push_some(word_at(matches, place), found)?;
    }
    Ok(())
}

/// Puts a word after others, if there is one.
fn push_some<'a>(word: Option<&'a str>, found: &mut Vec<&'a str>) -> Result<(), AllocError>
    ensures { OnOk result (map (λ word. word.now) found.new.items ≡ map (λ word. word.now) found.old.items ++ option_to_list (option_map (λ word. word.now) word.entry)) }
{
    if let Some(word) = word {
        found.push(word)?;
    }
    Ok(())
}

/// What the command of a tool finds, if it takes the words. It fails if memory is refused.
fn accepted<'a>(
    alloc: Global,
    tool: &'a str,
    places: &[&'a str],
    others: &[&'a str],
    words: &'a [String],
) -> Result<Option<ArgMatches<'a>>, AllocError>
    requires { is_simple_and_free (command_with tool.now (map (λ p. p.now) places.now) (map (λ p. p.now) others.now)) ≡ true }
    ensures { IfOk result (λ r. (read : List Row → Option (List Text)) → read_of read r ≡ taken_by (command_with tool.now (map (λ p. p.now) places.now) (map (λ p. p.now) others.now)) read (map (λ w. string_bytes w) words.now)) }
{
    match parse(alloc, tool, places, others, words) {
        Ok(matches) => Ok(Some(matches)),
        Err(error) => {
            if is_memory(&error) {
                return Err(AllocError);
            }
            Ok(None)
        }
    }
}

/// What the command of a tool makes of words.
fn parse<'a>(
    alloc: Global,
    tool: &'a str,
    places: &[&'a str],
    others: &[&'a str],
    words: &'a [String],
) -> Result<ArgMatches<'a>, Error>
    requires { is_simple_and_free (command_with tool.now (map (λ p. p.now) places.now) (map (λ p. p.now) others.now)) ≡ true }
    ensures { Parses (command_with tool.now (map (λ p. p.now) places.now) (map (λ p. p.now) others.now)) (map (λ w. string_bytes w) words.now) result }
{
    let command = tool_command(alloc, tool, places)?;
    with_others(alloc, command, others)?.try_get_matches_from(words)
}

/// The command of a tool with places that have to be filled.
fn tool_command<'a>(
    alloc: Global,
    tool: &'a str,
    places: &[&'a str],
) -> Result<Command<'a>, AllocError>
    ensures { IfOk result (λ c. app_of c ≡ command_of tool.now (map (λ p. p.now) places.now)) }
{
    let mut command = Command::new(alloc, tool);
    for place in places {
        command = command.arg(required(alloc, place))?;
    }
    Ok(command)
}

/// The command with further places, which may be left empty.
fn with_others<'a>(
    alloc: Global,
    command: Command<'a>,
    others: &[&'a str],
) -> Result<Command<'a>, AllocError>
    ensures { IfOk result (λ c. app_of c ≡ fold (λ made place. with_rule made (new_rule place)) (app_of command.entry) (map (λ p. p.now) others.now)) }
{
    let mut command = command;
    for place in others {
        command = command.arg(optional(alloc, place))?;
    }
    Ok(command)
}

/// A place for a word that has to be there.
fn required<'a>(alloc: Global, place: &'a str) -> Arg<'a>
    ensures rule { rule_of result ≡ required_word place.entry.now }
    ensures local { result.global ≡ false }
{
    Arg::new(alloc, place).required(true)
}

/// A place for a word that may be left out.
fn optional<'a>(alloc: Global, place: &'a str) -> Arg<'a>
    ensures rule { rule_of result ≡ new_rule place.entry.now }
    ensures local { result.global ≡ false }
{
    Arg::new(alloc, place)
}

/// Whether memory ran out.
fn is_memory(error: &Error) -> bool
    ensures { IsTrue result ↔ (kind_of error.now ≡ ErrorKind.OutOfMemory) }
{
    error.kind() == ErrorKind::OutOfMemory
}

/// The word in a place.
fn word_at<'a>(matches: &ArgMatches<'a>, place: &str) -> Option<&'a str>
    ensures { option_map (λ w. w.now) result ≡ first_of place.now (rows_of (found_of matches.now)) }
{
    matches.get_str(place)
}
