//! The words and the files of runs without a session, each with its status and its line.
use crate::runs::{Ended, file, replay, run_over};
use memory_links::MemFile;
use proxy_main::POLICY_LIMIT;
use recording::RECORDING_LIMIT;
use std::alloc::{AllocError, Global};
use std::str;
use std::test::Fail;
use std::thread::Threads;
use test_tables::{plain, wrong_row};

/// Words, and the status, the number of written bytes, and the line.
const WORDS: &str = "\
replay policy recording => 0 0 
 => 1 0 error: word 0: BadAddress
play policy recording => 1 0 error: word 0: BadAddress
replay => 1 0 error: usage
replay policy => 1 0 error: usage
replay policy recording more => 1 0 error: usage
replay policy recording 1 => 1 0 error: usage
replay missing recording => 4 0 error: file missing
replay policy missing => 4 0 error: file missing
replay neither nor => 4 0 error: file neither
replay help recording => 4 0 error: file help
replay  recording => 4 0 error: file 
explain policy recording 1 => 9 0 error: no such message
explain => 1 0 error: usage
explain policy => 1 0 error: usage
explain policy recording => 1 0 error: usage
explain policy recording 1 more => 1 0 error: usage
explain missing recording x => 1 0 error: usage
explain missing recording 0 => 4 0 error: file missing
explain policy missing 0 => 4 0 error: file missing
twin policy recording recording => 0 5 
twin => 1 0 error: usage
twin policy => 1 0 error: usage
twin policy recording => 1 0 error: usage
twin policy recording recording more => 1 0 error: usage
twin missing recording recording => 4 0 error: file missing
twin policy missing recording => 4 0 error: file missing
twin policy recording missing => 4 0 error: file missing
twin policy neither nor => 4 0 error: file neither
sample 3 1 => 0 77 
sample => 1 0 error: usage
sample 1 => 1 0 error: usage
sample 1 2 3 => 1 0 error: usage
sample 100001 1 => 1 0 error: usage
sample 01 1 => 1 0 error: usage
sample +1 1 => 1 0 error: usage
sample x 1 => 1 0 error: usage
sample 1 01 => 1 0 error: usage
sample 1 x => 1 0 error: usage
sample 1 -1 => 1 0 error: usage
sample 1 18446744073709551616 => 1 0 error: usage
session recording 1 => 0 6 
session recording 2 => 9 0 error: no such session
session => 1 0 error: usage
session recording => 1 0 error: usage
session recording 1 more => 1 0 error: usage
session missing x => 1 0 error: usage
session missing 1 => 4 0 error: file missing
sessions recording => 0 40 
sessions => 1 0 error: usage
sessions recording 1 => 1 0 error: usage
sessions missing => 4 0 error: file missing
";

/// Words with dashes, and the same results: a word that begins with a dash is no word of a tool, unless it is only a
/// dash or follows `--`.
const DASHES: &str = "\
replay --policy recording => 1 0 error: usage
replay -policy recording => 1 0 error: usage
replay policy -recording => 1 0 error: usage
replay policy recording -h => 1 0 error: usage
replay policy recording --help => 1 0 error: usage
replay -h => 1 0 error: usage
replay --help => 1 0 error: usage
replay --version => 1 0 error: usage
replay policy - => 4 0 error: file -
replay - recording => 4 0 error: file -
replay -- policy recording => 0 0 
replay policy -- recording => 0 0 
replay policy recording -- => 0 0 
replay -- policy => 1 0 error: usage
replay -- policy recording more => 1 0 error: usage
replay -- -policy recording => 4 0 error: file -policy
replay policy -- --recording => 4 0 error: file --recording
replay -- policy -- => 4 0 error: file --
-- replay policy recording => 1 0 error: word 0: OptionBeforeAddress
explain --policy recording 1 => 1 0 error: usage
explain policy -recording 1 => 1 0 error: usage
explain policy recording -1 => 1 0 error: usage
explain policy recording -- -1 => 1 0 error: usage
explain policy recording -- 1 => 9 0 error: no such message
explain - recording 0 => 4 0 error: file -
explain --help => 1 0 error: usage
twin --policy recording recording => 1 0 error: usage
twin policy recording -recording => 1 0 error: usage
twin policy recording -h => 1 0 error: usage
twin --help => 1 0 error: usage
twin policy recording - => 4 0 error: file -
twin -- policy recording recording => 0 5 
sample - 1 => 1 0 error: usage
sample 1 -h => 1 0 error: usage
sample --version => 1 0 error: usage
session -recording 1 => 1 0 error: usage
session recording -1 => 1 0 error: usage
session -- recording 1 => 0 6 
sessions --help => 1 0 error: usage
sessions - => 4 0 error: file -
sample -- 3 1 => 0 77 
";

/// Words that ask for a text, and words that don't and are a proxy line.
const ALONE: &str = "\
--version => 0 16 
--version more => 1 0 error: word 0: OptionBeforeAddress
--version --help => 1 0 error: word 0: OptionBeforeAddress
--help more => 1 0 error: word 0: OptionBeforeAddress
--help --version => 1 0 error: word 0: OptionBeforeAddress
--help= => 1 0 error: word 0: OptionBeforeAddress
--Help => 1 0 error: word 0: OptionBeforeAddress
-- => 1 0 error: word 0: OptionBeforeAddress
-- --help => 1 0 error: word 0: OptionBeforeAddress
-h => 1 0 error: word 0: BadAddress
-V => 1 0 error: word 0: BadAddress
help => 1 0 error: word 0: BadAddress
version => 1 0 error: word 0: BadAddress
";

/// A policy file and a recording, and the status, the number of written bytes, and the line.
const FILES: &str = "\
--filter~--colour~ DBPR%01~ => 2 0 error: policy word 1: UnknownOption
--talk=org DBPR%01~ => 2 0 error: policy word 0: BadName
--filter~--talk=org.a.T~--call=org.a.C=Foo~ DBPR%01~ => 2 0 error: policy word 2: BadRule
--filter~--sessions=1 DBPR%01~ => 2 0 error: policy word 1: UnknownOption
--filter~%FF DBPR%01~ => 2 0 error: policy word 1: UnknownOption
--colour DBP => 2 0 error: policy word 0: UnknownOption
--filter DBP => 3 0 error: recording: Cut at 3
--filter DBPR%09~ => 3 0 error: recording: BadVersion at 4
--filter DBPR%01~%07 => 3 0 error: recording: BadKind at 6
--filter DBPr%01~ => 3 0 error: recording: BadMagic at 0
--filter DBPR%01%02 => 3 0 error: recording: BadAuth at 5
--filter DBPR%01~%02%01~~~ => 3 0 error: recording: BadLength at 7
--filter DBPR%01~%03%01~~ => 3 0 error: recording: Cut at 10
--filter DBPR%01~%01%01~~~a%04 => 3 0 error: recording: BadKind at 12
";

fn told_words<R: Threads + Sync>(rt: &R, alloc: Global, words: &str) -> Result<String, AllocError> {
    let ended = run_over(rt, alloc, words, good_files(alloc)?, 100)?;
    told(alloc, &ended)
}

fn good_files(alloc: Global) -> Result<Vec<MemFile>, AllocError> {
    let mut files = Vec::new(alloc);
    files.push(file(alloc, "policy", b"--filter")?)?;
    files.push(file(alloc, "recording", b"DBPR\x01\0")?)?;
    Ok(files)
}

fn told_files<R: Threads + Sync>(rt: &R, alloc: Global, files: &str) -> Result<String, AllocError> {
    let (policy, recording) = files.split_once(' ').unwrap_or((files, ""));
    let (policy, recording) = (plain(alloc, policy)?, plain(alloc, recording)?);
    told_replay(rt, alloc, &policy, &recording)
}

fn told_replay<R: Threads + Sync>(
    rt: &R,
    alloc: Global,
    policy: &[u8],
    recording: &[u8],
) -> Result<String, AllocError> {
    let ended = replay(rt, alloc, policy, recording, 100)?;
    told(alloc, &ended)
}

/// How a run ended: the status, the number of written bytes, and the line.
pub fn told(alloc: Global, ended: &Ended) -> Result<String, AllocError> {
    let line = line_of(str::from_utf8(&ended.err.bytes).unwrap_or("no text"));
    format!(in alloc; "{} {} {line}", ended.code, ended.out.bytes.len())
}

/// A line without its end; none is empty.
fn line_of(text: &str) -> &str {
    if text.is_empty() {
        return text;
    }
    text.strip_suffix("\n").unwrap_or("no end of a line")
}

#[test]
fn words_of_a_tool_or_of_none_have_a_status_and_a_line(rt: HostRuntime) -> Result<(), Fail> {
    for table in [WORDS, DASHES, ALONE] {
        assert_eq!(rt;
            wrong_row(
                rt.alloc(),
                table,
                &|alloc, words| told_words(&rt, alloc, words)
            )?,
            None
        );
    }
    Ok(())
}

#[test]
fn bad_files_have_a_status_and_a_line(rt: HostRuntime) -> Result<(), Fail> {
    assert_eq!(rt;
        wrong_row(
            rt.alloc(),
            FILES,
            &|alloc, files| told_files(&rt, alloc, files)
        )?,
        None
    );
    Ok(())
}

/// A replay over a policy and a recording of zeros, with these lengths.
fn told_zeros<R: Threads + Sync>(
    rt: &R,
    alloc: Global,
    policy: usize,
    recording: usize,
) -> Result<String, AllocError> {
    let policy = vec![in alloc; 0; policy]?;
    let recording = vec![in alloc; 0; recording]?;
    told_replay(rt, alloc, &policy, &recording)
}

#[test]
fn files_above_their_limits_are_too_long(rt: HostRuntime) -> Result<(), Fail> {
    let told = told_zeros(&rt, rt.alloc(), POLICY_LIMIT + 1, 0);
    assert_eq!(rt; told?.as_str(), "2 0 error: policy file too long");
    let told = told_zeros(&rt, rt.alloc(), 0, RECORDING_LIMIT + 1);
    assert_eq!(rt; told?.as_str(), "3 0 error: recording: TooLong at 67108864");
    Ok(())
}
