//! How a net goes on if the system has no descriptor left.
use crate::sessions::{accept, client, listening, must, one_client};
use link_traits::{Accepted, Count, Net, NetFault, Ready};
use std::fs::File;
use std::os::unix::net::UnixStream;
use std::test::Fail;
use std::time::{Duration, Instant};

/// The maximum number of descriptors that are taken.
const MOST: u32 = 200_000;

/// Takes all descriptors that are left. `None` if there are more than can be taken.
fn all_descriptors(rt: &HostRuntime) -> Result<Option<Vec<File>>, Fail> {
    let mut held = Vec::new(rt.alloc());
    for _ in 0..MOST {
        match File::open(rt, "/dev/null") {
            Ok(file) => held.push(file)?,
            Err(_) => return Ok(Some(held)),
        }
    }
    Ok(None)
}

/// If an accept fails, its listener is reported again as soon as a link is shut. A listen that fails leaves its path
/// free.
#[test]
fn none_left(rt: HostRuntime) -> Result<(), Fail> {
    let mut net = listening(&rt, "none_left")?;
    let _client_end = one_client(&rt, &mut net, "none_left")?;
    let _second = UnixStream::connect(&rt, "none_left")?;
    must(net.wait() == Ready::Listener(0), "the listener is named")?;
    let Some(held) = all_descriptors(&rt)? else {
        return Ok(());
    };
    assert_eq!(rt; net.accept(0), Accepted::Failed);
    assert_eq!(rt; net.count(Count::Listener(0)), 1);
    assert_eq!(rt; net.listen("none_left_other"), Err(NetFault::Failed));
    assert_eq!(rt; net.count(Count::Own), 1);
    assert_eq!(rt; net.connect(1, "none_left"), Err(NetFault::Failed));
    drop(held);
    net.shut(client(1));
    accept(&mut net, 2)?;
    assert_eq!(rt; net.listen("none_left_other"), Ok(1));
    Ok(())
}

/// With no link open, a client for which no descriptor was left is accepted once there is one again, even if no other
/// client connects. Until then the listener is named after a delay that doubles, and nothing is lost.
#[test]
fn freed_again(rt: HostRuntime) -> Result<(), Fail> {
    let mut net = listening(&rt, "freed_again")?;
    let _client_end = UnixStream::connect(&rt, "freed_again")?;
    let Some(held) = all_descriptors(&rt)? else {
        return Ok(());
    };
    let start = Instant::now(&rt)?;
    for tries in 1..=8u64 {
        assert_eq!(rt; net.wait(), Ready::Listener(0));
        assert_eq!(rt; net.accept(0), Accepted::Failed);
        assert_eq!(rt; net.count(Count::Listener(0)), tries);
    }
    // 1, 2, 4, 8, 16, 32 and 32 milliseconds passed.
    let waited = Instant::now(&rt)?.saturating_duration_since(start);
    assert!(rt; waited >= Duration::from_millis(95));
    drop(held);
    accept(&mut net, 1)?;
    Ok(())
}
