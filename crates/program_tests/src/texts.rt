//! What the program writes about itself.
use crate::runs::run_over;
use policy_args::read_options;
use proxy_main::{HELP, VERSION};
use std::alloc::{AllocError, Global};
use std::test::Fail;
use std::thread::Threads;
use tool_words::{
    audit_words, compose_words, explain_words, replay_words, sample_words, session_words,
    sessions_words, show_words, suggest_words, twin_words, within_words,
};

/// Each option of a policy file, as the help shows it, and a word of it.
const OPTIONS: [(&str, &str); 11] = [
    ("--filter", "--filter"),
    ("--log", "--log"),
    ("--see=NAME", "--see=org.a.B"),
    ("--talk=NAME", "--talk=org.a.B.*"),
    ("--own=NAME", "--own=org.a.B"),
    ("--call=NAME=RULE", "--call=org.a.B=org.a.I.*@/p"),
    ("--broadcast=NAME=RULE", "--broadcast=org.a.B=*"),
    (
        "--property=NAME=PROP",
        "--property=org.a.B=org.a.I.Volume@/p",
    ),
    ("--sloppy-names", "--sloppy-names"),
    ("--known-fields", "--known-fields"),
    ("--start-called", "--start-called"),
];

/// Each option that only a proxy line has, as the help shows it.
const LINE_OPTIONS: [&str; 6] = [
    "--sessions=N",
    "--record=FILE",
    "--fd=FD",
    "--replace",
    "--args-file=FILE",
    "--args=FD",
];

/// Each tool with its words, and the program's other words.
const TOOLS: [&str; 13] = [
    "replay POLICY RECORDING",
    "explain POLICY RECORDING N",
    "twin POLICY A B",
    "sample N SEED",
    "audit POLICY RECORDING..",
    "within A B",
    "suggest RECORDING..",
    "show FILE",
    "compose FILE",
    "session RECORDING N",
    "sessions RECORDING",
    "--help",
    "--version",
];

/// Each status.
const STATUSES: [u8; 10] = [0, 1, 2, 3, 4, 5, 6, 7, 8, 9];

/// The number of lines of the help that begin like this.
fn lines_with(start: &str) -> usize {
    let mut lines = 0usize;
    for line in HELP.lines() {
        if line.starts_with(start) {
            lines = lines.saturating_add(1);
        }
    }
    lines
}

fn split(alloc: Global, text: &str) -> Result<Vec<String>, AllocError> {
    let mut words = Vec::new(alloc);
    for word in text.split(' ') {
        words.push(String::from_str(alloc, word)?)?;
    }
    Ok(words)
}

/// Whether these are words of the tool that the first of them names.
fn is_taken(alloc: Global, words: &[String]) -> Result<bool, AllocError> {
    Ok(match words {
        [tool, ..] if tool.as_str() == "replay" => replay_words(alloc, words)?.is_some(),
        [tool, ..] if tool.as_str() == "explain" => explain_words(alloc, words)?.is_some(),
        [tool, ..] if tool.as_str() == "twin" => twin_words(alloc, words)?.is_some(),
        [tool, ..] if tool.as_str() == "sample" => sample_words(alloc, words)?.is_some(),
        [tool, ..] if tool.as_str() == "audit" => audit_words(alloc, words)?.is_some(),
        [tool, ..] if tool.as_str() == "within" => within_words(alloc, words)?.is_some(),
        [tool, ..] if tool.as_str() == "suggest" => suggest_words(alloc, words)?.is_some(),
        [tool, ..] if tool.as_str() == "show" => show_words(alloc, words)?.is_some(),
        [tool, ..] if tool.as_str() == "compose" => compose_words(alloc, words)?.is_some(),
        [tool, ..] if tool.as_str() == "session" => session_words(alloc, words)?.is_some(),
        [tool, ..] if tool.as_str() == "sessions" => sessions_words(alloc, words)?.is_some(),
        [tool] => tool.starts_with("--"),
        _ => false,
    })
}

/// Whether these words write the text, or a prefix of it with status 6 if there is no room for more.
fn is_written<R: Threads + Sync>(
    rt: &R,
    alloc: Global,
    words: &str,
    text: &str,
) -> Result<bool, AllocError> {
    let ended = run_over(rt, alloc, words, Vec::new(alloc), text.len())?;
    Ok(
        ended.code == 0
            && ended.err.bytes.is_empty()
            && ended.out.bytes.as_slice() == text.as_bytes()
            && is_cut(rt, alloc, words, text)?,
    )
}

fn is_cut<R: Threads + Sync>(
    rt: &R,
    alloc: Global,
    words: &str,
    text: &str,
) -> Result<bool, AllocError> {
    for room in 0..text.len() {
        let ended = run_over(rt, alloc, words, Vec::new(alloc), room)?;
        if ended.code != 6
            || !ended.err.bytes.is_empty()
            || ended.out.bytes.as_slice() != &text.as_bytes()[..room]
        {
            return Ok(false);
        }
    }
    Ok(true)
}

#[test]
fn help_and_version_are_written(rt: HostRuntime) -> Result<(), Fail> {
    assert!(rt; is_written(&rt, rt.alloc(), "--help", HELP)?);
    let version = format!(in rt.alloc(); "zamtigarn {VERSION}\n")?;
    assert_eq!(rt; version.as_str(), "zamtigarn 0.1.0\n");
    assert!(rt; is_written(&rt, rt.alloc(), "--version", version.as_str())?);
    Ok(())
}

#[test]
fn help_tells_each_option(rt: HostRuntime) -> Result<(), Fail> {
    for (shown, word) in OPTIONS {
        let start = format!(in rt.alloc(); "  {shown} ")?;
        assert_eq!(rt; lines_with(start.as_str()), 1);
        let words = split(rt.alloc(), word)?;
        assert!(rt; read_options(rt.alloc(), &words).is_ok());
    }
    for shown in LINE_OPTIONS {
        let start = format!(in rt.alloc(); "  {shown} ")?;
        assert_eq!(rt; lines_with(start.as_str()), 1);
    }
    assert_eq!(rt; lines_with("  --"), OPTIONS.len() + LINE_OPTIONS.len());
    Ok(())
}

#[test]
fn help_tells_each_tool_and_each_status(rt: HostRuntime) -> Result<(), Fail> {
    for tool in TOOLS {
        let start = format!(in rt.alloc(); "  zamtigarn {tool} ")?;
        assert_eq!(rt; lines_with(start.as_str()), 1);
        let words = split(rt.alloc(), tool)?;
        assert!(rt; is_taken(rt.alloc(), &words)?);
    }
    assert_eq!(rt;
        lines_with("  zamtigarn [OPTION]... ADDRESS PATH [OPTION]..."),
        1
    );
    assert_eq!(rt; lines_with("  zamtigarn "), TOOLS.len() + 1);
    for status in STATUSES {
        let start = format!(in rt.alloc(); "  {status}  ")?;
        assert_eq!(rt; lines_with(start.as_str()), 1);
    }
    Ok(())
}
