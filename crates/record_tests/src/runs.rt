//! What comes of a proxy line that is served while its net is recorded. A row has the line's words, what appends answer
//! and the net's script, and then how the server ends, the first error of an append, what was written to the links and
//! what the file holds. If the file can't be made, the error is told, and what the net answers to its first listen
//! then.
use crate::recordings::{files, held};
use link_traits::{Net, NetFault};
use memory_links::{MemNet, MemSink};
use recorded_run::serve_recorded;
use std::alloc::{AllocError, Global};
use std::test::Fail;
use test_nets::{add_written, net_of};
use test_servers::line_of;
use test_tables::{SESSION, wrong_named_row};

/// Two sessions, of which one is malformed from its first byte and one calls org.a.T and is answered: over files that
/// take all, a byte at each append, and that fail at an append. Files that can't be made. A line that can't be listened
/// for, and a connect that fails.
const RUNS: &str = "\
unix:path=/bus /p --filter --talk=org.a.T --sessions=2; ; \
    arrival 0, arrival 0, piece c1 A, piece c2 {auth}BEGIN%0D, piece c2 %0A{call}, piece b2 {ok}{return}, end c2 \
    => Ok(()), None, c1 , b1 , c2 {ok}{return}, b2 {auth}{begin}{call}, \
    DBPR%02%01~%01~~~%01~~~A~%02~~~%16~~~{auth}BEGIN%0D~%02~~~Q~~~%0A{call}%01%02~~~]~~~{ok}{return}%02%02~~~~~~~
unix:path=/bus /p --filter --talk=org.a.T --sessions=2; most 1; \
    arrival 0, arrival 0, piece c1 A, piece c2 {auth}BEGIN%0D, piece c2 %0A{call}, piece b2 {ok}{return}, end c2 \
    => Ok(()), None, c1 , b1 , c2 {ok}{return}, b2 {auth}{begin}{call}, \
    DBPR%02%01~%01~~~%01~~~A~%02~~~%16~~~{auth}BEGIN%0D~%02~~~Q~~~%0A{call}%01%02~~~]~~~{ok}{return}%02%02~~~~~~~
unix:path=/bus /p --filter --talk=org.a.T --sessions=2; fails 3; \
    arrival 0, arrival 0, piece c1 A, piece c2 {auth}BEGIN%0D, piece c2 %0A{call}, piece b2 {ok}{return}, end c2 \
    => Ok(()), Some(Failed), c1 , b1 , c2 {ok}{return}, b2 {auth}{begin}{call}, DBPR%02%01~%01~~~%01~~~A
unix:path=/bus /p --filter --talk=org.a.T --sessions=2; most 8, fails 3; \
    arrival 0, arrival 0, piece c1 A, piece c2 {auth}BEGIN%0D, piece c2 %0A{call}, piece b2 {ok}{return}, end c2 \
    => Ok(()), Some(Failed), c1 , b1 , c2 {ok}{return}, b2 {auth}{begin}{call}, DBPR%02%01~%01~~~%01~~
unix:path=/bus /p --filter --talk=org.a.T --sessions=2; refused 2; \
    arrival 0, arrival 0, piece c1 A, piece c2 {auth}BEGIN%0D, piece c2 %0A{call}, piece b2 {ok}{return}, end c2 \
    => Ok(()), Some(Memory), c1 , b1 , c2 {ok}{return}, b2 {auth}{begin}{call}, DBPR%02%01
unix:path=/bus /p --filter --talk=org.a.T --sessions=2; fails 1; \
    arrival 0, arrival 0, piece c1 A, piece c2 {auth}BEGIN%0D, piece c2 %0A{call}, piece b2 {ok}{return}, end c2 \
    => Failed, then Ok(0)
unix:path=/bus /p --filter --talk=org.a.T --sessions=2; refused 1; \
    arrival 0, arrival 0, piece c1 A, piece c2 {auth}BEGIN%0D, piece c2 %0A{call}, piece b2 {ok}{return}, end c2 \
    => Memory, then Ok(0)
unix:path=/bus /p --filter --talk=org.a.T --sessions=2; ; \
    ListenFails 1 \
    => Err(Listen(0)), None, c1 , b1 , c2 , b2 , DBPR%02%01
unix:path=/bus /p --filter --talk=org.a.T --sessions=1; ; \
    ConnectFails 1, arrival 0 \
    => Ok(()), None, c1 , b1 , c2 , b2 , DBPR%02%01%04%01~~~%01~~~%0B
";

fn told_run(alloc: Global, row: &str) -> Result<String, AllocError> {
    let (words, rest) = row.split_once("; ").unwrap_or((row, ""));
    let (appends, script) = rest.split_once("; ").unwrap_or(("", rest));
    let mut net = net_of(alloc, script)?;
    let mut files = files(alloc, appends);
    let mut log = MemSink::new(alloc, 999)?;
    let line = line_of(alloc, words)?;
    let path = String::from_str(alloc, "/r")?;
    match serve_recorded(alloc, line, path, &mut files, &mut net, &mut log) {
        Ok(run) => {
            let mut told = format!(in alloc; "{:?}, {:?}", run.end, run.failed)?;
            add_written(alloc, &mut told, &net, "c1 b1 c2 b2")?;
            let held = held(alloc, &files)?;
            told.push_str(", ")?;
            told.push_str(&held)?;
            Ok(told)
        }
        Err(fault) => format!(in alloc; "{fault:?}, then {:?}", first_listen(&mut net)),
    }
}

/// What a net answers to a listen.
fn first_listen(net: &mut MemNet) -> Result<u32, NetFault> {
    net.listen("/q")
}

#[test]
fn a_line_is_served_as_it_is_recorded(rt: HostRuntime) -> Result<(), Fail> {
    assert_eq!(rt;
        wrong_named_row(rt.alloc(), SESSION, RUNS, &told_run)?,
        None
    );
    Ok(())
}
