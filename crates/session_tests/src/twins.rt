//! Two recordings under a policy, compared.
use crate::sessions::message;
use crate::texts::options_of;
use recording::{Recording, read};
use replay::twin;
use std::alloc::{AllocError, Global};
use std::test::Fail;
use test_tables::wrong_row;

/// The words of a policy, separated by commas, and the steps of either of two sessions; and the result of comparing
/// their recordings. If `lines` is the first step, the streams begin with lines of authentication.
const TWINS: &str = "\
--filter,--talk=org.a.T: client call; bus return; client_ended | client call; bus return; client_ended => Same
--filter,--talk=org.a.T: nothing | nothing => Same
--filter,--talk=org.a.T: client call | client call; bus return => Differ(2)
--filter,--talk=org.a.T: client call; bus return | client call => Differ(2)
--filter,--talk=org.a.T: nothing | client call => Differ(1)
--filter,--talk=org.a.T: client call; client_ended | nothing => Differ(1)
--filter,--talk=org.a.T: client call; client_ended | client call; bus_ended => Differ(2)
--filter,--talk=org.a.T: client call; client_ended | client call => Differ(2)
--filter,--talk=org.a.T: client call; client ones | client call; client_ended => Differ(2)
--filter,--talk=org.a.T: client call; client_ended | client call; bus return; client_ended => Differ(2)
--filter,--talk=org.a.T: bytes call; bus return | client call; bus return => Same
--filter,--talk=org.a.T: client call; client call 8=9 | client call; client call 8=8 => Differ(2)
--filter,--talk=org.a.T: client call; bus return 20=9; bus return | client call; bus return => Same
--talk=org.a.T: client call; bus return 20=9; bus return | client call; bus return => Same
--filter,--talk=org.a.T: client call; bus return | client call; bus return 8=61 => Differ(2)
--filter: client call; bus return | client call; bus return 8=61 => Differ(2)
--filter: client call; bus return | client call; bus return 51=56 => Same
--filter: lines; client auth; bus ok; client begin | lines; client auth; bus ok; client begin => Same
--filter: lines; client auth; bus ok; client begin | lines; client auth 15=49; bus ok; client begin => Differ(2)
--filter: lines; client auth; bus ok; client begin | lines; client auth; bus ok 3=57; client begin => Differ(3)
--filter: lines; client auth; bus ok; client begin | lines; client auth; bus ok => Differ(4)
--filter: lines; client auth cut=1 | lines; nothing => Differ(1)
--filter,--talk=org.a.T: lines; client auth | client call => Differ(1)
--filter,--talk=org.a.T: client hello; bus owner | client hello; bus owner => Same
--filter,--talk=org.a.T: client hello; bus owner | client hello; bus owner 87=56 => Differ(2)
--filter,--see=org.a.A: client list; bus names | client list; bus names 106=67 => Same
--filter,--see=org.a.*: client list; bus names | client list; bus names 106=67 => Differ(2)
--filter,--see=org.a.*: client list; bus names | client list; bus names 94=66 106=65 => Differ(2)
--filter,--see=org.a.*: client hello; bus names 20=3 104=98 | client hello; bus names 20=3 104=99 => Same
--filter,--see=org.a.*: client hello; bus names 20=3 | client hello; bus names 20=3 94=66 106=65 => Differ(2)
";

fn told_twin(alloc: Global, row: &str) -> Result<String, AllocError> {
    let (words, sessions) = row.split_once(": ").unwrap_or((row, ""));
    let (one, other) = sessions.split_once(" | ").unwrap_or((sessions, ""));
    let options = options_of(alloc, words)?;
    let one = recording_of(alloc, one)?;
    let other = recording_of(alloc, other)?;
    let answer = twin(alloc, &options.policy, &one, &other)?;
    format!(in alloc; "{answer:?}")
}

/// The recording of the steps. Any other step makes a file that isn't a recording.
fn recording_of(alloc: Global, steps: &str) -> Result<Recording, AllocError> {
    match read(alloc, &file_of(alloc, steps)?) {
        Ok(recording) => Ok(recording),
        Err(_) => Err(AllocError),
    }
}

fn file_of(alloc: Global, steps: &str) -> Result<Vec<u8>, AllocError> {
    let mut file = Vec::from_slice(alloc, b"DBPR\x01\0")?;
    for step in steps.split("; ") {
        let (what, text) = step.split_once(' ').unwrap_or((step, ""));
        add_step(&mut file, what, &message(alloc, text)?)?;
    }
    Ok(file)
}

fn add_step(file: &mut Vec<u8>, what: &str, bytes: &[u8]) -> Result<(), AllocError> {
    match what {
        "nothing" => Ok(()),
        "lines" => {
            set_auth(file);
            Ok(())
        }
        "client" => add_record(file, 0, bytes),
        "bytes" => add_each(file, bytes),
        "bus" => add_record(file, 1, bytes),
        "client_ended" => add_record(file, 2, bytes),
        "bus_ended" => add_record(file, 3, bytes),
        _ => add_record(file, 255, bytes),
    }
}

/// Lets the streams begin with lines.
fn set_auth(file: &mut [u8]) {
    if let Some(auth) = file.get_mut(5) {
        *auth = 1;
    }
}

/// Adds a record of the client for each byte.
fn add_each(file: &mut Vec<u8>, bytes: &[u8]) -> Result<(), AllocError> {
    for byte in bytes {
        add_record(file, 0, &[*byte])?;
    }
    Ok(())
}

/// Adds a record: a kind, a length and that many bytes.
fn add_record(file: &mut Vec<u8>, kind: u8, bytes: &[u8]) -> Result<(), AllocError> {
    let [a, b, c, d, ..] = bytes.len().to_le_bytes();
    file.extend_from_slice(&[kind, a, b, c, d])?;
    file.extend_from_slice(bytes)
}

#[test]
fn tells_where_visible_parts_differ(rt: HostRuntime) -> Result<(), Fail> {
    assert_eq!(rt; wrong_row(rt.alloc(), TWINS, &told_twin)?, None);
    Ok(())
}
