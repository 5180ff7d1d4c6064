//! Buses that accept no client for a time.
use crate::sessions::{accept, bus, client, listening, must, one_client};
use libc::net::listen;
use link_traits::{Count, Got, Net, Ready, Took};
use proxy_net::{MioNet, SystemSockets};
use std::io::{Read, Write};
use std::os::fd::AsRawFd;
use std::os::unix::net::{UnixListener, UnixStream};
use std::test::Fail;

/// A bus at a path, with a client that waits, and no room for another.
fn full_bus(rt: &HostRuntime, path: &str) -> Result<(UnixListener, UnixStream), Fail> {
    let listener = UnixListener::bind(rt, path)?;
    must(listen(listener.as_raw_fd(), 0) == 0, "listens anew")?;
    let waiting = UnixStream::connect(rt, path)?;
    Ok((listener, waiting))
}

/// Once the bus has room, a link that waited for it is connected.
#[test]
fn full_backlog(rt: HostRuntime) -> Result<(), Fail> {
    let mut net = listening(&rt, "full_backlog")?;
    let mut client_end = one_client(&rt, &mut net, "full_backlog")?;
    let (listener, _waiting) = full_bus(&rt, "full_backlog_bus")?;
    let waits = net.count(Count::Waits);
    assert_eq!(rt; net.connect(1, "full_backlog_bus"), Ok(()));
    assert!(rt; net.count(Count::Waits) > waits);
    let link = bus(1);
    let mut buffer = [0u8; 8];
    assert_eq!(rt; net.read(link, &mut buffer), Got::NotReady);
    assert_eq!(rt; net.write(link, b"early"), Took::NotReady);
    net.want(link, true, true);
    others_go_on(&rt, &mut net, &mut client_end, "full_backlog")?;
    let (_first, _) = listener.accept()?;
    assert_eq!(rt; net.wait(), Ready::Link(link));
    assert_eq!(rt; net.write(link, b"late"), Took::Bytes(4));
    let (mut bus_end, _) = listener.accept()?;
    let mut four = [0u8; 4];
    bus_end.read_exact(&mut four)?;
    assert_eq!(rt; four.as_slice(), b"late".as_slice());
    assert_eq!(rt; net.count(Count::Link(link)), 0);
    Ok(())
}

/// A client's link is named and read while the link of its session to the bus waits.
fn others_go_on(
    rt: &HostRuntime,
    net: &mut MioNet<SystemSockets<'_>>,
    client_end: &mut UnixStream,
    path: &str,
) -> Result<(), Fail> {
    let link = client(1);
    let mut buffer = [0u8; 8];
    client_end.write_all(b"hi")?;
    net.want(link, true, false);
    must(
        net.wait() == Ready::Link(link),
        "the client's link is named",
    )?;
    must(net.read(link, &mut buffer) == Got::Bytes(2), "it is read")?;
    must(net.read(link, &mut buffer) == Got::NotReady, "no more came")?;
    net.want(link, false, false);
    let _other = UnixStream::connect(rt, path)?;
    accept(net, 2)
}

/// A bus that has no room for seconds is given up.
#[test]
fn backlog_stays_full(rt: HostRuntime) -> Result<(), Fail> {
    let mut net = listening(&rt, "backlog_stays_full")?;
    let _client_end = one_client(&rt, &mut net, "backlog_stays_full")?;
    let (_listener, _waiting) = full_bus(&rt, "backlog_stays_full_bus")?;
    let link = bus(1);
    assert_eq!(rt; net.connect(1, "backlog_stays_full_bus"), Ok(()));
    assert_eq!(rt; net.write(link, b"x"), Took::NotReady);
    net.want(link, false, true);
    assert_eq!(rt; net.wait(), Ready::Link(link));
    assert_eq!(rt; net.count(Count::Link(link)), 1);
    let mut buffer = [0u8; 8];
    assert_eq!(rt; net.write(link, b"x"), Took::Failed);
    assert_eq!(rt; net.read(link, &mut buffer), Got::Failed);
    Ok(())
}

/// A bus that goes away while a link waits for it.
#[test]
fn bus_goes(rt: HostRuntime) -> Result<(), Fail> {
    let mut net = listening(&rt, "bus_goes")?;
    let _client_end = one_client(&rt, &mut net, "bus_goes")?;
    let (listener, _waiting) = full_bus(&rt, "bus_goes_bus")?;
    let link = bus(1);
    assert_eq!(rt; net.connect(1, "bus_goes_bus"), Ok(()));
    drop(listener);
    net.want(link, true, false);
    assert_eq!(rt; net.wait(), Ready::Link(link));
    let mut buffer = [0u8; 8];
    assert_eq!(rt; net.read(link, &mut buffer), Got::Failed);
    Ok(())
}
