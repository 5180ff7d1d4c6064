//! Sessions of a net whose bus is the net itself: a client that it accepts is the other end of a bus link.
use link_traits::{Accepted, Link, Net, NetFault, Ready, Side};
use proxy_net::{MioNet, SystemSockets};
use std::io::Write;
use std::os::unix::net::UnixStream;
use std::test::Fail;

pub fn client(session: u32) -> Link {
    Link {
        session,
        side: Side::Client,
    }
}

pub fn bus(session: u32) -> Link {
    Link {
        session,
        side: Side::Bus,
    }
}

/// Fails the test if what must hold doesn't.
pub fn must(holds: bool, what: &str) -> Result<(), Fail> {
    if holds { Ok(()) } else { Err(Fail::new(what)) }
}

/// A net that listens at a path. Each test has its own path, since all tests may run in one folder.
pub fn listening<'a>(rt: &'a HostRuntime, path: &str) -> Result<MioNet<SystemSockets<'a>>, Fail> {
    let mut net = MioNet::new(rt)?;
    must(net.listen(path) == Ok(0), "listens at the first path")?;
    Ok(net)
}

/// Accepts the client that waits, as the next session.
pub fn accept(net: &mut MioNet<SystemSockets<'_>>, session: u32) -> Result<(), Fail> {
    must(net.wait() == Ready::Listener(0), "the listener is named")?;
    must(
        net.accept(0) == Accepted::New(session),
        "a client is accepted",
    )?;
    must(net.accept(0) == Accepted::NotReady, "no other client waits")
}

/// Has a client that the test makes start session 1, and returns the client.
pub fn one_client(
    rt: &HostRuntime,
    net: &mut MioNet<SystemSockets<'_>>,
    path: &str,
) -> Result<UnixStream, Fail> {
    let stream = UnixStream::connect(rt, path)?;
    accept(net, 1)?;
    Ok(stream)
}

/// Connects session 1, which a client of the test's own made, to the net itself, in which that makes session 2.
pub fn two_sessions(
    rt: &HostRuntime,
    net: &mut MioNet<SystemSockets<'_>>,
    path: &str,
) -> Result<UnixStream, Fail> {
    let stream = one_client(rt, net, path)?;
    must(net.connect(1, path) == Ok(()), "connects to itself")?;
    accept(net, 2)?;
    Ok(stream)
}

/// Listeners and sessions are numbered in the order in which they are made.
#[test]
fn numbers(rt: HostRuntime) -> Result<(), Fail> {
    let mut net = listening(&rt, "numbers")?;
    assert_eq!(rt; net.listen("numbers_other"), Ok(1));
    assert_eq!(rt; net.listen("numbers_third"), Ok(2));
    let _first = UnixStream::connect(&rt, "numbers_other")?;
    assert_eq!(rt; net.wait(), Ready::Listener(1));
    assert_eq!(rt; net.accept(0), Accepted::NotReady);
    assert_eq!(rt; net.accept(1), Accepted::New(1));
    let _second = UnixStream::connect(&rt, "numbers")?;
    let _third = UnixStream::connect(&rt, "numbers")?;
    assert_eq!(rt; net.accept(0), Accepted::New(2));
    assert_eq!(rt; net.accept(0), Accepted::New(3));
    assert_eq!(rt; net.accept(0), Accepted::NotReady);
    assert_eq!(rt; net.accept(3), Accepted::Failed);
    assert_eq!(rt; net.connect(3, "numbers_other"), Ok(()));
    assert_eq!(rt; net.connect(3, "numbers_other"), Err(NetFault::Failed));
    assert_eq!(rt; net.connect(2, "numbers_third"), Ok(()));
    assert_eq!(rt; net.accept(2), Accepted::New(4));
    assert_eq!(rt; net.accept(1), Accepted::New(5));
    Ok(())
}

/// A listener whose client isn't accepted when it is named isn't named again until another client connects.
#[test]
fn unheeded_listeners(rt: HostRuntime) -> Result<(), Fail> {
    let mut net = listening(&rt, "unheeded_listeners")?;
    let mut stream = one_client(&rt, &mut net, "unheeded_listeners")?;
    let _second = UnixStream::connect(&rt, "unheeded_listeners")?;
    assert_eq!(rt; net.wait(), Ready::Listener(0));
    stream.write_all(b"hello")?;
    net.want(client(1), true, false);
    for _ in 0..100 {
        assert_eq!(rt; net.wait(), Ready::Link(client(1)));
    }
    net.want(client(1), false, false);
    let _third = UnixStream::connect(&rt, "unheeded_listeners")?;
    assert_eq!(rt; net.wait(), Ready::Listener(0));
    assert_eq!(rt; net.accept(0), Accepted::New(2));
    assert_eq!(rt; net.accept(0), Accepted::New(3));
    Ok(())
}

/// A listener whose client is accepted after others were named is named again for the clients that still wait.
#[test]
fn late_accepts(rt: HostRuntime) -> Result<(), Fail> {
    let mut net = listening(&rt, "late_accepts")?;
    let mut stream = one_client(&rt, &mut net, "late_accepts")?;
    let _second = UnixStream::connect(&rt, "late_accepts")?;
    let _third = UnixStream::connect(&rt, "late_accepts")?;
    assert_eq!(rt; net.wait(), Ready::Listener(0));
    stream.write_all(b"hello")?;
    net.want(client(1), true, false);
    for _ in 0..3 {
        assert_eq!(rt; net.wait(), Ready::Link(client(1)));
    }
    assert_eq!(rt; net.accept(0), Accepted::New(2));
    let mut named = 0u32;
    for _ in 0..10 {
        if net.wait() == Ready::Listener(0) {
            named = named.saturating_add(1);
        }
    }
    assert_eq!(rt; named, 1);
    assert_eq!(rt; net.accept(0), Accepted::New(3));
    assert_eq!(rt; net.accept(0), Accepted::NotReady);
    Ok(())
}
