//! Peers that are gone.
use crate::sessions::{accept, bus, client, listening, one_client, two_sessions};
use libc::net::{SHUT_RD, SHUT_WR, shutdown};
use link_traits::{Count, Got, Link, Net, Ready, Took};
use proxy_net::{MioNet, SystemSockets};
use std::io::Write;
use std::os::fd::AsRawFd;
use std::os::unix::net::UnixStream;
use std::test::Fail;

/// A client's bytes from before it closed are read to their end, even if a write to it came first.
#[test]
fn written_before_close(rt: HostRuntime) -> Result<(), Fail> {
    let mut net = listening(&rt, "written_before_close")?;
    let mut stream = one_client(&rt, &mut net, "written_before_close")?;
    let link = client(1);
    net.want(link, true, true);
    let waits = net.count(Count::Waits);
    stream.write_all(b"hello")?;
    drop(stream);
    assert_eq!(rt; net.write(link, b"x"), Took::NotReady);
    assert_eq!(rt; net.count(Count::Waits), waits.saturating_add(1));
    assert_eq!(rt; net.count(Count::Link(link)), 1);
    let mut buffer = [0u8; 3];
    assert_eq!(rt; net.wait(), Ready::Link(link));
    assert_eq!(rt; net.read(link, &mut buffer), Got::Bytes(3));
    assert_eq!(rt; net.write(link, b"x"), Took::NotReady);
    assert_eq!(rt; net.wait(), Ready::Link(link));
    assert_eq!(rt; net.read(link, &mut buffer), Got::Bytes(2));
    assert_eq!(rt; net.wait(), Ready::Link(link));
    assert_eq!(rt; net.read(link, &mut buffer), Got::Finished);
    assert_eq!(rt; net.count(Count::Link(link)), 2);
    assert_eq!(rt; net.write(link, b"x"), Took::Failed);
    assert_eq!(rt; net.count(Count::Link(link)), 3);
    Ok(())
}

/// A client that closes with unread bytes ends its link like one that read them all.
#[test]
fn unread_at_close(rt: HostRuntime) -> Result<(), Fail> {
    let mut net = listening(&rt, "unread_at_close")?;
    let mut stream = one_client(&rt, &mut net, "unread_at_close")?;
    let link = client(1);
    assert_eq!(rt; net.write(link, b"unread"), Took::Bytes(6));
    stream.write_all(b"last")?;
    drop(stream);
    net.want(link, true, false);
    assert_eq!(rt; net.write(link, b"x"), Took::NotReady);
    let mut buffer = [0u8; 8];
    assert_eq!(rt; net.wait(), Ready::Link(link));
    assert_eq!(rt; net.read(link, &mut buffer), Got::Bytes(4));
    assert_eq!(rt; &buffer[..4], b"last".as_slice());
    assert_eq!(rt; net.read(link, &mut buffer), Got::Finished);
    assert_eq!(rt; net.read(link, &mut buffer), Got::Finished);
    assert_eq!(rt; net.write(link, b"x"), Took::Failed);
    Ok(())
}

/// A link whose peer closed, and which isn't watched for reading, fails after the other link of its session is shut.
#[test]
fn other_link_shut(rt: HostRuntime) -> Result<(), Fail> {
    let mut net = listening(&rt, "other_link_shut")?;
    let stream = two_sessions(&rt, &mut net, "other_link_shut")?;
    let link = client(1);
    drop(stream);
    net.want(link, false, true);
    assert_eq!(rt; net.wait(), Ready::Link(link));
    assert_eq!(rt; net.write(link, b"x"), Took::NotReady);
    net.want(client(2), true, false);
    assert_eq!(rt; net.write(bus(1), b"y"), Took::Bytes(1));
    let mut buffer = [0u8; 8];
    assert_eq!(rt; net.wait(), Ready::Link(client(2)));
    assert_eq!(rt; net.read(client(2), &mut buffer), Got::Bytes(1));
    assert_eq!(rt; net.read(client(2), &mut buffer), Got::NotReady);
    assert_eq!(rt; net.write(link, b"x"), Took::NotReady);
    net.shut(bus(1));
    net.want(client(2), false, false);
    assert_eq!(rt; net.wait(), Ready::Link(link));
    assert_eq!(rt; net.write(link, b"x"), Took::Failed);
    net.shut(link);
    assert_eq!(rt; net.write(link, b"x"), Took::Failed);
    Ok(())
}

/// Two links of a session whose peers both closed, and which aren't watched for reading, both fail.
#[test]
fn both_peers_gone(rt: HostRuntime) -> Result<(), Fail> {
    let mut net = listening(&rt, "both_peers_gone")?;
    let stream = two_sessions(&rt, &mut net, "both_peers_gone")?;
    drop(stream);
    net.shut(client(2));
    assert_eq!(rt; net.write(client(1), b"x"), Took::NotReady);
    net.want(client(1), false, true);
    net.want(bus(1), false, true);
    assert_eq!(rt; net.wait(), Ready::Link(bus(1)));
    assert_eq!(rt; net.write(bus(1), b"x"), Took::Failed);
    assert_eq!(rt; net.write(client(1), b"x"), Took::Failed);
    Ok(())
}

/// A link whose peer closed, and which is read to its end without a wish to read, is named so that its writes fail.
#[test]
fn read_unwished(rt: HostRuntime) -> Result<(), Fail> {
    let mut net = listening(&rt, "read_unwished")?;
    let stream = two_sessions(&rt, &mut net, "read_unwished")?;
    let link = client(1);
    drop(stream);
    net.want(link, false, true);
    assert_eq!(rt; net.wait(), Ready::Link(link));
    assert_eq!(rt; net.write(link, b"x"), Took::NotReady);
    net.want(client(2), true, false);
    assert_eq!(rt; net.write(bus(1), b"y"), Took::Bytes(1));
    for _ in 0..3 {
        assert_eq!(rt; net.wait(), Ready::Link(client(2)));
    }
    let mut buffer = [0u8; 8];
    assert_eq!(rt; net.read(link, &mut buffer), Got::Finished);
    let mut named = false;
    for _ in 0..10 {
        named = named || net.wait() == Ready::Link(link);
    }
    assert!(rt; named);
    assert_eq!(rt; net.write(link, b"x"), Took::Failed);
    Ok(())
}

/// Has a client shut its reading, and a write to it be refused. If this makes a read ready, it returns `NotReady`.
fn reading_shut(net: &mut MioNet<SystemSockets<'_>>, client_end: &UnixStream, link: Link) -> bool {
    let mut buffer = [0u8; 8];
    shutdown(client_end.as_raw_fd(), SHUT_RD) == 0
        && net.write(link, b"x") == Took::NotReady
        && net.read(link, &mut buffer) == Got::NotReady
        && net.write(link, b"x") == Took::NotReady
}

/// A client that shuts its reading and stays isn't read again after each refused write, but only after it writes.
#[test]
fn reading_shut_stays(rt: HostRuntime) -> Result<(), Fail> {
    let mut net = listening(&rt, "reading_shut_stays")?;
    let mut client_end = one_client(&rt, &mut net, "reading_shut_stays")?;
    let link = client(1);
    net.want(link, true, true);
    assert!(rt; reading_shut(&mut net, &client_end, link));
    let _second_end = UnixStream::connect(&rt, "reading_shut_stays")?;
    accept(&mut net, 2)?;
    let _third_end = UnixStream::connect(&rt, "reading_shut_stays")?;
    assert_eq!(rt; net.write(link, b"x"), Took::NotReady);
    accept(&mut net, 3)?;
    client_end.write_all(b"more")?;
    assert_eq!(rt; net.wait(), Ready::Link(link));
    let mut buffer = [0u8; 8];
    assert_eq!(rt; net.read(link, &mut buffer), Got::Bytes(4));
    assert_eq!(rt; net.read(link, &mut buffer), Got::NotReady);
    Ok(())
}

/// A client that shuts its reading, and later closes or shuts its writing, is read to its end; then its writes fail.
#[test]
fn reading_shut_ends(rt: HostRuntime) -> Result<(), Fail> {
    let mut net = listening(&rt, "reading_shut_ends")?;
    let first_end = one_client(&rt, &mut net, "reading_shut_ends")?;
    let mut second_end = UnixStream::connect(&rt, "reading_shut_ends")?;
    accept(&mut net, 2)?;
    net.want(client(1), true, true);
    assert!(rt; reading_shut(&mut net, &first_end, client(1)));
    drop(first_end);
    assert_eq!(rt; net.wait(), Ready::Link(client(1)));
    let mut buffer = [0u8; 8];
    assert_eq!(rt; net.read(client(1), &mut buffer), Got::Finished);
    assert_eq!(rt; net.write(client(1), b"x"), Took::Failed);
    net.want(client(1), false, false);
    net.want(client(2), true, true);
    assert!(rt; reading_shut(&mut net, &second_end, client(2)));
    second_end.write_all(b"last")?;
    assert!(rt; shutdown(second_end.as_raw_fd(), SHUT_WR) == 0);
    assert_eq!(rt; net.wait(), Ready::Link(client(2)));
    assert_eq!(rt; net.read(client(2), &mut buffer), Got::Bytes(4));
    assert_eq!(rt; net.wait(), Ready::Link(client(2)));
    assert_eq!(rt; net.read(client(2), &mut buffer), Got::Finished);
    assert_eq!(rt; net.write(client(2), b"x"), Took::Failed);
    Ok(())
}
