//! A list of ten thousand names, of which the client sees three.
use crate::sessions::FILTERED;
use crate::texts::options_of;
use policy_args::Policy;
use policy_view::End;
use proxy_core::Session;
use std::alloc::{AllocError, Global};
use std::test::Fail;

/// The client's call of ListNames, with serial 1.
pub const CALL: &[u8] = b"l\x01\0\x01\0\0\0\0\x01\0\0\0\x75\0\0\0\
\x01\x01o\0\x15\0\0\0/org/freedesktop/DBus\0\0\0\
\x02\x01s\0\x14\0\0\0org.freedesktop.DBus\0\0\0\0\
\x03\x01s\0\x09\0\0\0ListNames\0\0\0\0\0\0\0\
\x06\x01s\0\x14\0\0\0org.freedesktop.DBus\0\0\0\0";

/// The header of the bus's return of names with serial 30, the answer to serial 1, with 0 for the body's length.
const HEADER: &[u8] = b"l\x02\x01\x01\0\0\0\0\x1e\0\0\0\x40\0\0\0\
\x05\x01u\0\x01\0\0\0\
\x06\x01s\0\x05\0\0\0:1.40\0\0\0\
\x07\x01s\0\x14\0\0\0org.freedesktop.DBus\0\0\0\0\
\x08\x01g\0\x02as\0";

/// What the client is shown: the return of three names, in a body of 56 bytes.
const SHOWN: &[u8] = b"l\x02\x01\x01\x38\0\0\0\x1e\0\0\0\x40\0\0\0\
\x05\x01u\0\x01\0\0\0\
\x06\x01s\0\x05\0\0\0:1.40\0\0\0\
\x07\x01s\0\x14\0\0\0org.freedesktop.DBus\0\0\0\0\
\x08\x01g\0\x02as\0\
\x34\0\0\0\x14\0\0\0org.freedesktop.DBus\0\0\0\0\
\x07\0\0\0org.a.A\0\x07\0\0\0org.a.B\0";

/// The length of some bytes as four bytes, the lowest first.
fn length(bytes: &[u8]) -> [u8; 4] {
    let [a, b, c, d, ..] = bytes.len().to_le_bytes();
    [a, b, c, d]
}

/// Adds a string of a list that begins at a multiple of four bytes.
fn add_name(names: &mut Vec<u8>, name: &str) -> Result<(), AllocError> {
    let over = names.len() % 4;
    if over > 0 {
        names.extend_from_slice(&[0; 4][over..])?;
    }
    names.extend_from_slice(&length(name.as_bytes()))?;
    names.extend_from_slice(name.as_bytes())?;
    names.push(0)?;
    Ok(())
}

/// The strings of ten thousand names: org.a.* covers the second and the last.
fn names(alloc: Global) -> Result<Vec<u8>, AllocError> {
    let mut names = Vec::new(alloc);
    add_name(&mut names, "org.freedesktop.DBus")?;
    add_name(&mut names, "org.a.A")?;
    for number in 0..9_997 {
        add_name(&mut names, &format!(in alloc; "org.h.N{number}")?)?;
    }
    add_name(&mut names, "org.a.B")?;
    Ok(names)
}

/// The bus's return of these names.
fn list(alloc: Global) -> Result<Vec<u8>, AllocError> {
    let names = names(alloc)?;
    let mut body = Vec::from_slice(alloc, &length(&names))?;
    body.extend_from_slice(&names)?;
    let (before, behind) = (&HEADER[..4], &HEADER[8..]);
    let mut list = Vec::from_slice(alloc, before)?;
    list.extend_from_slice(&length(&body))?;
    list.extend_from_slice(behind)?;
    list.extend_from_slice(&body)?;
    Ok(list)
}

fn feed_both(session: &mut Session, policy: &Policy, list: &[u8]) -> Result<(), End> {
    session.feed_client(policy, CALL)?;
    session.feed_bus(policy, list)
}

/// What the client is shown of the list.
fn shown(alloc: Global) -> Result<Vec<u8>, AllocError> {
    let options = options_of(alloc, "--filter,--see=org.a.*")?;
    let mut session = Session::new(alloc, &options.policy, FILTERED)?;
    let list = list(alloc)?;
    match feed_both(&mut session, &options.policy, &list) {
        Ok(()) => Vec::from_slice(alloc, session.to_client()),
        Err(_) => Err(AllocError),
    }
}

#[test]
fn a_list_of_ten_thousand_names_is_cut_to_three(rt: HostRuntime) -> Result<(), Fail> {
    assert_eq!(rt; shown(rt.alloc())?.as_slice(), SHOWN);
    Ok(())
}
