//! The proxy line: bad words, files of words, and what is served over a net in memory.
use crate::runs::{Ended, file, run_on_net, run_over};
use line_words::ARGS_LIMIT;
use memory_links::MemFile;
use std::alloc::{AllocError, Global};
use std::str;
use std::test::Fail;
use std::thread::Threads;
use test_nets::{add_written, net_of};
use test_tables::{SESSION, plain, text_of, wrong_named_row, wrong_row};

/// Words, the bytes of the file `args` after a `|`, and the status and the line. Nothing is written on standard output.
const WORDS: &str = "\
--filter | => 1 error: word 0: OptionBeforeAddress
unix:path=/a | => 1 error: word 1: NoPath
unix:path=/a --filter | => 1 error: word 1: NoPath
unix:abstract=/a /p | => 1 error: word 0: BadAddress
unix:path=/a /p --talk=org | => 2 error: policy word 2: BadName
unix:path=/a /p --call=org.a.C=Foo | => 2 error: policy word 2: BadRule
unix:path=/a /p --colour | => 1 error: word 2: UnknownOption
unix:path=/a /p --sessions=0 | => 1 error: word 2: BadNumber
unix:path=/a /p --sessions=1000001 | => 1 error: word 2: BadNumber
unix:path=/a /p --record= | => 1 error: word 2: UnknownOption
--record=/r unix:path=/a /p | => 1 error: word 0: OptionBeforeAddress
unix:path=/a /p unix:path=/b | => 1 error: word 3: NoPath
unix:path=/a /p --args-file=args | --talk=org.a.T~--talk=org~--see=org.a.S => 2 error: policy word 3: BadName
unix:path=/a /p --args-file=args --colour | --talk=org.a.T~--talk=org.a.U => 1 error: word 4: UnknownOption
unix:path=/a /p --args-file=args | --args-file=args => 1 error: word 2: UnknownOption
unix:path=/a /p --args-file=args | --filter~%FF => 1 error: word 3: UnknownOption
--args-file=args /p --colour | unix:path=/a~ => 1 error: word 2: UnknownOption
--args-file=args | unix:path=/a => 1 error: word 1: NoPath
--args-file=args | => 1 error: word 0: BadAddress
--args-file=args | replay~policy~recording => 1 error: word 0: BadAddress
--args-file=args | --help => 1 error: word 0: OptionBeforeAddress
--colour --args-file=missing | => 4 error: file missing
--args-file=args --args-file=missing | %FF => 1 error: word 0: UnknownOption
--args-file=missing --args-file=args | %FF => 4 error: file missing
--args-file= | => 4 error: file 
--args=3 | => 4 error: file /dev/fd/3
--args=2147483647 --args-file=args | => 4 error: file /dev/fd/2147483647
unix:path=/a /p --args=3 | => 4 error: file /dev/fd/3
--args=x | => 1 error: word 0: BadNumber
--args= | => 1 error: word 0: BadNumber
--args=03 | => 1 error: word 0: BadNumber
--args=2147483648 | => 1 error: word 0: BadNumber
--args-file=args | --args=3 => 1 error: word 0: OptionBeforeAddress
--args-file=args | unix:path=/a~/p~--args=3 => 1 error: word 2: UnknownOption
--fd=x unix:path=/a /p | => 1 error: word 0: BadNumber
--args-file=args | --fd=35~--colour => 1 error: word 1: OptionBeforeAddress
--fd=3 | => 1 error: word 1: BadAddress
--replace=x unix:path=/a /p | => 1 error: word 0: OptionBeforeAddress
";

/// Words, a script of a net, and links; and the status, what was written to these links, and what was written on
/// standard error. If the room of standard error is limited, it precedes the words, with a `|` after it.
const SERVED: &str = "\
unix:path=/bus /p --filter --talk=org.a.T --sessions=1; \
    arrival 0, piece c1 {auth}BEGIN%0D, piece c1 %0A{call}, piece b1 {ok}{return}, end c1; \
    c1 b1 => 0, c1 {ok}{return}, b1 {auth}{begin}{call}
unix:path=/bus /p --filter --talk=org.a.T; ; c1 b1 => 0, c1 , b1 \n\
unix:path=/bus /p --filter --talk=a.b --talk=org.a.T --sessions=2; \
    limit b1 13, arrival 0, arrival 0, piece c1 ~{begin}{big}, piece c2 {auth}{begin}{call}, piece b2 {ok}{return}, \
    piece c1 {call}, end c2; \
    b1 c1 c2 b2 => 0, b1 ~{begin}B%01~%01~, c1 , c2 {ok}{return}, b2 {auth}{begin}{call}
unix:path=/bus /p --filter --talk=org.a.T --sessions=2; \
    ConnectFails 1, arrival 0, arrival 0, piece c1 {auth}{begin}{call}, piece c2 {auth}{begin}{call}, end c2; \
    c1 b1 c2 b2 => 0, c1 , b1 , c2 , b2 {auth}{begin}{call}
unix:path=/bus /p --filter --talk=org.a.T unix:path=/bus2 /q --filter --sessions=2; \
    arrival 1, arrival 0, piece c1 {auth}{begin}{call}, piece c2 {auth}{begin}{call}, end c1, end c2; \
    c1 b1 c2 b2 => 0, c1 , b1 {auth}{begin}{ping}, c2 , b2 {auth}{begin}{call}
unix:path=/bus /p --filter --log --talk=org.a.T --sessions=1; \
    arrival 0, piece c1 {auth}BEGIN%0D, piece c1 %0A{call}, piece b1 {ok}{return}, end c1; \
    c1 b1 => 0, c1 {ok}{return}, b1 {auth}{begin}{call}, \
    err 1 c 1 call serial=1 reply=- from=- dest=org.a.T path=/p iface=org.a.I member=A pass%0A1 b 2 return serial=9 reply=1 from=:1.7 dest=:1.40 path=- iface=- member=- show%0A
30 | unix:path=/bus /p --filter --log --talk=org.a.T --sessions=1; \
    arrival 0, piece c1 {auth}BEGIN%0D, piece c1 %0A{call}, piece b1 {ok}{return}, end c1; \
    c1 b1 => 0, c1 , b1 {auth}{begin}{call}, err 1 c 1 call serial=1 reply=- fr
84 | unix:path=/bus /p --filter --log --talk=org.a.T --sessions=1; \
    arrival 0, piece c1 {auth}BEGIN%0D, piece c1 %0A{call}, piece b1 {ok}{return}, end c1; \
    c1 b1 => 0, c1 {ok}{return}, b1 {auth}{begin}{call}, \
    err 1 c 1 call serial=1 reply=- from=- dest=org.a.T path=/p iface=org.a.I member=A pass%0A
unix:path=/bus /p --filter --log --talk=org.a.T unix:path=/bus2 /q --filter --talk=org.a.T --sessions=2; \
    arrival 1, arrival 0, piece c1 {auth}{begin}{call}, piece c2 {auth}{begin}{call}, end c1, end c2; \
    b1 b2 => 0, b1 {auth}{begin}{call}, b2 {auth}{begin}{call}, \
    err 2 c 1 call serial=1 reply=- from=- dest=org.a.T path=/p iface=org.a.I member=A pass%0A
unix:path=/bus /p --filter unix:path=/bus2 /q --filter; ListenFails 2; c1 => 5, c1 , err error: listen%0A
unix:path=/bus /p --filter unix:path=/bus2 /q --filter; ListenRefused 1; c1 => 8, c1 , err error: memory%0A
--fd=3 unix:path=/bus /p --filter; PrepareFails 1; c1 => 5, c1 , err error: fd%0A
--replace unix:path=/bus /p --filter; PrepareFails 1; c1 => 5, c1 , err error: fd%0A
5 | unix:path=/bus /p --fd=3; PrepareFails 1; c1 => 5, c1 , err error
unix:path=/bus /p --filter --fd=3; PrepareRefused 1; c1 => 8, c1 , err error: memory%0A
unix:path=/bus /p --filter; PrepareFails 1; c1 => 0, c1 \n\
--fd=3 --replace unix:path=/bus /p --filter; PrepareFails 2, ListenFails 1; c1 => 5, c1 , err error: listen%0A
unix:path=/bus /p --filter --talk=org.a.T; \
    WaitFails 3, arrival 0, piece c1 {auth}{begin}{call}, piece b1 {ok}{return}; \
    c1 b1 => 5, c1 , b1 {auth}{begin}{call}, err error: wait%0A
";

/// The words of a file, a script and links, and the same results: the only word names the file.
const FROM_FILE: &str = "\
unix:path=/bus /p --filter --talk=org.a.T --sessions=1; \
    arrival 0, piece c1 {auth}BEGIN%0D, piece c1 %0A{call}, piece b1 {ok}{return}, end c1; \
    c1 b1 => 0, c1 {ok}{return}, b1 {auth}{begin}{call}
";

/// Words of a line, and the setting that its net received.
const SETTINGS: &str = "\
unix:path=/bus /p --filter --sessions=1 => None
--fd=3 --replace unix:path=/bus /p => Some(Setting { replaces: true, starter: Some(3) })
unix:path=/bus /p --fd=0 unix:path=/bus2 /q --fd=35 => Some(Setting { replaces: false, starter: Some(35) })
unix:path=/bus /p --replace => Some(Setting { replaces: true, starter: None })
--replace unix:path=/bus /p --record=recorded => Some(Setting { replaces: true, starter: None })
--fd=x --replace unix:path=/bus /p => None
--fd=3 --replace unix:path=/bus --args-file=missing => None
";

fn told_setting<R: Threads + Sync>(rt: &R, alloc: Global, row: &str) -> Result<String, AllocError> {
    let mut net = net_of(alloc, "")?;
    run_on_net(rt, alloc, row, Vec::new(alloc), &mut net, (0, 999))?;
    format!(in alloc; "{:?}", net.setting())
}

fn told_words<R: Threads + Sync>(rt: &R, alloc: Global, row: &str) -> Result<String, AllocError> {
    let (words, bytes) = row.split_once(" |").unwrap_or((row, ""));
    let ended = run_over(rt, alloc, words, args_file(alloc, bytes.trim())?, 0)?;
    let line = str::from_utf8(&ended.err.bytes).unwrap_or("no text");
    let line = line.strip_suffix("\n").unwrap_or("no end of a line");
    format!(in alloc; "{} {line}", ended.code)
}

/// The file `args`.
fn args_file(alloc: Global, bytes: &str) -> Result<Vec<MemFile>, AllocError> {
    let mut files = Vec::new(alloc);
    files.push(file(alloc, "args", &plain(alloc, bytes)?)?)?;
    Ok(files)
}

fn told_served<R: Threads + Sync>(rt: &R, alloc: Global, row: &str) -> Result<String, AllocError> {
    let (words, rest) = row.split_once("; ").unwrap_or((row, ""));
    let (room, words) = match words.split_once(" | ") {
        Some((room, words)) => (room.parse().unwrap_or(0), words),
        None => (999, words),
    };
    told_line(rt, alloc, words, Vec::new(alloc), rest, room)
}

/// The result of the words of a row that are in the file of a path, for the word that names the file.
fn told_from_file<R: Threads + Sync>(
    rt: &R,
    alloc: Global,
    row: &str,
    path: &str,
    word: &str,
) -> Result<String, AllocError> {
    let (words, rest) = row.split_once("; ").unwrap_or((row, ""));
    let mut bytes = Vec::new(alloc);
    for byte in words.as_bytes() {
        bytes.push(if *byte == b' ' { 0 } else { *byte })?;
    }
    let mut files = Vec::new(alloc);
    files.push(file(alloc, path, &bytes)?)?;
    told_line(rt, alloc, word, files, rest, 999)
}

/// The result of a proxy line over the net of a script, which is followed by the links that are asked for.
fn told_line<R: Threads + Sync>(
    rt: &R,
    alloc: Global,
    words: &str,
    files: Vec<MemFile>,
    script: &str,
    room: usize,
) -> Result<String, AllocError> {
    let (script, links) = script.split_once("; ").unwrap_or((script, ""));
    let mut net = net_of(alloc, script)?;
    let ended = run_on_net(rt, alloc, words, files, &mut net, (0, room))?;
    let mut told = format!(in alloc; "{}", ended.code)?;
    add_written(alloc, &mut told, &net, links)?;
    add_error(alloc, &mut told, &ended)?;
    Ok(told)
}

fn add_error(alloc: Global, told: &mut String, ended: &Ended) -> Result<(), AllocError> {
    if !ended.err.bytes.is_empty() {
        told.push_str(", err ")?;
        told.push_str(&text_of(alloc, &ended.err.bytes)?)?;
    }
    Ok(())
}

#[test]
fn words_of_a_proxy_line_have_a_status_and_a_line(rt: HostRuntime) -> Result<(), Fail> {
    assert_eq!(rt;
        wrong_row(rt.alloc(), WORDS, &|alloc, row| told_words(&rt, alloc, row))?,
        None
    );
    Ok(())
}

#[test]
fn files_of_words_above_the_limit_are_too_long(rt: HostRuntime) -> Result<(), Fail> {
    for (path, word) in [("args", "--args-file=args"), ("/dev/fd/3", "--args=3")] {
        let mut files = Vec::new(rt.alloc());
        files.push(file(
            rt.alloc(),
            path,
            &vec![in rt.alloc(); b'a'; ARGS_LIMIT + 1]?,
        )?)?;
        let ended = run_over(&rt, rt.alloc(), word, files, 0)?;
        assert_eq!(rt; ended.code, 1);
        assert_eq!(rt;
            ended.err.bytes.as_slice(),
            b"error: args file too long\n".as_slice()
        );
    }
    Ok(())
}

#[test]
fn a_proxy_line_is_served(rt: HostRuntime) -> Result<(), Fail> {
    assert_eq!(rt;
        wrong_named_row(
            rt.alloc(),
            SESSION,
            SERVED,
            &|alloc, row| told_served(&rt, alloc, row)
        )?,
        None
    );
    Ok(())
}

#[test]
fn a_proxy_line_of_a_file_is_served(rt: HostRuntime) -> Result<(), Fail> {
    assert_eq!(rt;
        wrong_named_row(
            rt.alloc(),
            SESSION,
            FROM_FILE,
            &|alloc, row| told_from_file(&rt, alloc, row, "args", "--args-file=args")
        )?,
        None
    );
    assert_eq!(rt;
        wrong_named_row(
            rt.alloc(),
            SESSION,
            FROM_FILE,
            &|alloc, row| told_from_file(&rt, alloc, row, "/dev/fd/35", "--args=35")
        )?,
        None
    );
    Ok(())
}

#[test]
fn a_net_takes_what_a_line_asks_of_it(rt: HostRuntime) -> Result<(), Fail> {
    assert_eq!(rt;
        wrong_row(
            rt.alloc(),
            SETTINGS,
            &|alloc, row| told_setting(&rt, alloc, row)
        )?,
        None
    );
    Ok(())
}
