//! The words of the command line.
ghost use Rattle.std.specs.Prelude.{◌≡◌, ◌≤◌, [], ◌∷◌, map, option_map, codes, string_bytes, IfOk, IfSome};
ghost use Rattle.link_traits.specs.Texts.{texts_of};
ghost use Rattle.policy_args.specs.ProxyLine.{has_leading_zero as begins_with_zero};
ghost use Rattle.tool_words.specs.Tools.{taken, taken_with, replay_places, explain_places, twin_places, sample_places, within_places, audit_places, suggest_places, show_places, compose_places, session_places, sessions_places, more_recordings};
ghost use Rattle.proxy_main.specs.Words.{asks_alone as asks_for_text, names_tool, reading, named_by, alone_of, text_of, replay_of, explain_of, twin_of, sample_of, audit_of, within_of, suggest_of, show_of, compose_of, session_of, list_sessions_of, number_within};
ghost use Rattle.proxy_main.specs.Read.{command_of, HasFewDraws, worth_within};

use process_streams::is_tool_name;
use sample::MOST_DRAWS;
use std::alloc::{AllocError, Global};
use tool_words::{
    AuditWords, ComposeWords, ExplainWords, ReplayWords, SampleWords, SessionWords, SessionsWords,
    ShowWords, SuggestWords, TwinWords, WithinWords, audit_words, compose_words, explain_words,
    replay_words, sample_words, session_words, sessions_words, show_words, suggest_words,
    twin_words, within_words,
};

/// The words of a command.
#[derive(Drop)]
pub enum CommandWords<'a> {
    /// The paths that a replay is given.
    Replay {
        policy: &'a str,
        recording: &'a str,
    },
    /// The paths of a policy file and of a recording, and the number of the message that is explained.
    Explain {
        policy: &'a str,
        recording: &'a str,
        number: u64,
    },
    /// The paths of a policy file and of two recordings.
    Twin {
        policy: &'a str,
        one: &'a str,
        other: &'a str,
    },
    /// How many draws a sample has, and its seed.
    Sample {
        draws: u32,
        seed: u64,
    },
    /// The paths of a policy file and of recordings.
    Audit {
        policy: &'a str,
        recordings: Vec<&'a str>,
    },
    /// The paths of two policy files.
    Within {
        one: &'a str,
        other: &'a str,
    },
    /// The paths of recordings.
    Suggest {
        recordings: Vec<&'a str>,
    },
    /// The path of the file of a message.
    Show {
        message: &'a str,
    },
    /// The path of the file of a message's text.
    Compose {
        text: &'a str,
    },
    /// The path of a recording, and the number of the session that is taken out of it.
    Session {
        recording: &'a str,
        number: u64,
    },
    /// The path of the recording whose sessions are listed.
    ListSessions {
        recording: &'a str,
    },
    /// What the program can do.
    Help,
    /// Its version.
    Version,
}

/// Whether the words name a tool: the first of them does, or one asks for a text alone.
pub fn is_tool(words: &[String]) -> bool
    ensures { result ≡ names_tool (texts_of words.now) }
{
    match words {
        [word, ..] => is_tool_name(word) || asks_alone(words),
        [] => false,
    }
}

/// Whether the only word asks for a text.
fn asks_alone(words: &[String]) -> bool
    ensures { result ≡ asks_for_text (texts_of words.now) }
{
    match words {
        [word] => word.as_str() == "--help" || word.as_str() == "--version",
        _ => false,
    }
}

/// The words' reading, if they name a command.
pub fn read_words(alloc: Global, words: &[String]) -> Result<Option<CommandWords<'_>>, AllocError>
    ensures words { IfOk result (λ r. option_map command_of r ≡ reading (texts_of words.now)) }
    ensures few { IfOk result (λ r. IfSome r HasFewDraws) }
{
    match words {
        [tool, ..] => read_tool(alloc, tool, words),
        [] => Ok(None),
    }
}

/// The reading of all words, by the first of them.
fn read_tool<'a>(
    alloc: Global,
    tool: &str,
    words: &'a [String],
) -> Result<Option<CommandWords<'a>>, AllocError>
    ensures words { IfOk result (λ r. option_map command_of r ≡ named_by tool.now (map (λ w. string_bytes w) words.now)) }
    ensures few { IfOk result (λ r. IfSome r HasFewDraws) }
{
    if tool == "replay" {
        return Ok(read_replay(replay_words(alloc, words)?));
    }
    if tool == "explain" {
        return Ok(read_explain(explain_words(alloc, words)?));
    }
    if tool == "twin" {
        return Ok(read_twin(twin_words(alloc, words)?));
    }
    if tool == "sample" {
        return Ok(read_sample(sample_words(alloc, words)?));
    }
    if tool == "audit" {
        return Ok(read_audit(audit_words(alloc, words)?));
    }
    if tool == "within" {
        return Ok(read_within(within_words(alloc, words)?));
    }
    if tool == "suggest" {
        return Ok(read_suggest(suggest_words(alloc, words)?));
    }
    if tool == "show" {
        return Ok(read_show(show_words(alloc, words)?));
    }
    if tool == "compose" {
        return Ok(read_compose(compose_words(alloc, words)?));
    }
    if tool == "session" {
        return Ok(read_session(session_words(alloc, words)?));
    }
    if tool == "sessions" {
        return Ok(read_sessions(sessions_words(alloc, words)?));
    }
    Ok(read_alone(words))
}

/// The reading of the words of `replay`.
fn read_replay<'a>(words: Option<ReplayWords<'a>>) -> Option<CommandWords<'a>>
    ensures words { option_map command_of result ≡ replay_of (option_map (λ w. w.policy.now ∷ w.recording.now ∷ []) words.entry) }
    ensures few { IfSome result HasFewDraws }
{
    let words = words?;
    Some(CommandWords::Replay {
        policy: words.policy,
        recording: words.recording,
    })
}

/// The reading of the words of `explain`.
fn read_explain<'a>(words: Option<ExplainWords<'a>>) -> Option<CommandWords<'a>>
    ensures words { option_map command_of result ≡ explain_of (option_map (λ w. w.policy.now ∷ w.recording.now ∷ w.number.now ∷ []) words.entry) }
    ensures few { IfSome result HasFewDraws }
{
    let words = words?;
    Some(CommandWords::Explain {
        policy: words.policy,
        recording: words.recording,
        number: read_number(words.number, u64::MAX)?,
    })
}

/// The reading of the words of `twin`.
fn read_twin<'a>(words: Option<TwinWords<'a>>) -> Option<CommandWords<'a>>
    ensures words { option_map command_of result ≡ twin_of (option_map (λ w. w.policy.now ∷ w.one.now ∷ w.other.now ∷ []) words.entry) }
    ensures few { IfSome result HasFewDraws }
{
    let words = words?;
    Some(CommandWords::Twin {
        policy: words.policy,
        one: words.one,
        other: words.other,
    })
}

/// The reading of the words of `sample`.
fn read_sample<'a>(words: Option<SampleWords<'_>>) -> Option<CommandWords<'a>>
    ensures words { option_map command_of result ≡ sample_of (option_map (λ w. w.draws.now ∷ w.seed.now ∷ []) words.entry) }
    ensures few { IfSome result HasFewDraws }
{
    let words = words?;
    let draws = read_number(words.draws, MOST_DRAWS as u64)? as u32;
    let seed = read_number(words.seed, u64::MAX)?;
    Some(CommandWords::Sample { draws, seed })
}

/// The reading of the words of `audit`.
fn read_audit<'a>(words: Option<AuditWords<'a>>) -> Option<CommandWords<'a>>
    ensures words { option_map command_of result ≡ audit_of (option_map (λ w. w.policy.now ∷ map (λ path. path.now) w.recordings.items) words.entry) }
    ensures few { IfSome result HasFewDraws }
{
    let words = words?;
    Some(CommandWords::Audit {
        policy: words.policy,
        recordings: words.recordings,
    })
}

/// The reading of the words of `within`.
fn read_within<'a>(words: Option<WithinWords<'a>>) -> Option<CommandWords<'a>>
    ensures words { option_map command_of result ≡ within_of (option_map (λ w. w.one.now ∷ w.other.now ∷ []) words.entry) }
    ensures few { IfSome result HasFewDraws }
{
    let words = words?;
    Some(CommandWords::Within {
        one: words.one,
        other: words.other,
    })
}

/// The reading of the words of `suggest`.
fn read_suggest<'a>(words: Option<SuggestWords<'a>>) -> Option<CommandWords<'a>>
    ensures words { option_map command_of result ≡ suggest_of (option_map (λ w. map (λ path. path.now) w.recordings.items) words.entry) }
    ensures few { IfSome result HasFewDraws }
{
    let words = words?;
    Some(CommandWords::Suggest {
        recordings: words.recordings,
    })
}

/// The reading of the words of `show`.
fn read_show<'a>(words: Option<ShowWords<'a>>) -> Option<CommandWords<'a>>
    ensures words { option_map command_of result ≡ show_of (option_map (λ w. w.message.now ∷ []) words.entry) }
    ensures few { IfSome result HasFewDraws }
{
    let words = words?;
    Some(CommandWords::Show {
        message: words.message,
    })
}

/// The reading of the words of `compose`.
fn read_compose<'a>(words: Option<ComposeWords<'a>>) -> Option<CommandWords<'a>>
    ensures words { option_map command_of result ≡ compose_of (option_map (λ w. w.text.now ∷ []) words.entry) }
    ensures few { IfSome result HasFewDraws }
{
    let words = words?;
    Some(CommandWords::Compose { text: words.text })
}

/// The reading of the words of `session`.
fn read_session<'a>(words: Option<SessionWords<'a>>) -> Option<CommandWords<'a>>
    ensures words { option_map command_of result ≡ session_of (option_map (λ w. w.recording.now ∷ w.number.now ∷ []) words.entry) }
    ensures few { IfSome result HasFewDraws }
{
    let words = words?;
    Some(CommandWords::Session {
        recording: words.recording,
        number: read_number(words.number, u64::MAX)?,
    })
}

/// The reading of the words of `sessions`.
fn read_sessions<'a>(words: Option<SessionsWords<'a>>) -> Option<CommandWords<'a>>
    ensures words { option_map command_of result ≡ list_sessions_of (option_map (λ w. w.recording.now ∷ []) words.entry) }
    ensures few { IfSome result HasFewDraws }
{
    let words = words?;
    Some(CommandWords::ListSessions {
        recording: words.recording,
    })
}

/// The reading of a word that is the only one.
fn read_alone<'a>(words: &[String]) -> Option<CommandWords<'a>>
    ensures words { option_map command_of result ≡ alone_of (map (λ w. string_bytes w) words.now) }
    ensures few { IfSome result HasFewDraws }
{
    match words {
        [word] => read_text(word),
        _ => None,
    }
}

/// The reading of a word that asks for a text.
fn read_text<'a>(word: &str) -> Option<CommandWords<'a>>
    ensures words { option_map command_of result ≡ text_of word.now }
    ensures few { IfSome result HasFewDraws }
{
    if word == "--help" {
        return Some(CommandWords::Help);
    }
    if word == "--version" {
        return Some(CommandWords::Version);
    }
    None
}

/// The decimal number of a word, if it is at most this much. Leading zeros are refused.
fn read_number(word: &str, most: u64) -> Option<u64>
    ensures number { result ≡ number_within most word.now }
    ensures most { IfSome result (λ n. n ≤ most) }
{
    let digits = word.as_bytes();
    if digits.is_empty() {
        return None;
    }
    if has_leading_zero(digits) {
        return None;
    }
    read_digits(digits, most)
}

/// Whether there is a leading zero.
fn has_leading_zero(digits: &[u8]) -> bool
    ensures { result ≡ begins_with_zero digits.now }
{
    match digits {
        [first, _, ..] => *first == b'0',
        _ => false,
    }
}

/// What decimal digits are worth, if that is at most this much.
fn read_digits(digits: &[u8], most: u64) -> Option<u64>
    ensures number { result ≡ worth_within most digits.now }
    ensures most { IfSome result (λ n. n ≤ most) }
{
    let mut number: u128 = 0;
    for digit in digits {
        if !digit.is_ascii_digit() {
            return None;
        }
        number = number * 10 + (*digit - b'0') as u128;
        if number > most as u128 {
            return None;
        }
    }
    Some(number as u64)
}
