//! Starters, over pipes of the system.
use link_traits::{Accepted, Count, Net, NetFault, Ready, Setting};
use proxy_net::MioNet;
use std::fs::File;
use std::io::{self, Read};
use std::os::fd::AsRawFd;
use std::os::unix::net::UnixStream;
use std::test::Fail;

/// The setting with the descriptor of a starter.
fn started_by<D: AsRawFd>(descriptor: &D) -> Setting {
    Setting {
        replaces: false,
        starter: u32::try_from(descriptor.as_raw_fd()).ok(),
    }
}

/// The byte is written with the first wait only. After the starter closes its end, waits are quiet, whatever else is
/// ready.
#[test]
fn starter_gone(rt: HostRuntime) -> Result<(), Fail> {
    let (mut reader, writer) = io::pipe(&rt)?;
    let mut net = MioNet::new(&rt)?;
    assert_eq!(rt; net.prepare(started_by(&writer)), Ok(()));
    assert_eq!(rt; net.listen("starter_first"), Ok(0));
    assert_eq!(rt; net.listen("starter_second"), Ok(1));
    let _first = UnixStream::connect(&rt, "starter_first")?;
    assert_eq!(rt; net.wait(), Ready::Listener(0));
    assert_eq!(rt; net.accept(0), Accepted::New(1));
    assert_eq!(rt; net.accept(0), Accepted::NotReady);
    let mut buffer = [0u8; 9];
    assert_eq!(rt; reader.read(&mut buffer)?, 1);
    let _second = UnixStream::connect(&rt, "starter_second")?;
    assert_eq!(rt; net.wait(), Ready::Listener(1));
    drop(reader);
    assert_eq!(rt; net.wait(), Ready::Quiet);
    let _third = UnixStream::connect(&rt, "starter_first")?;
    assert_eq!(rt; net.wait(), Ready::Quiet);
    assert_eq!(rt; net.count(Count::Own), 0);
    Ok(())
}

/// No byte is written before the first wait, and at most one in all.
#[test]
fn starter_bytes(rt: HostRuntime) -> Result<(), Fail> {
    let (mut reader, writer) = io::pipe(&rt)?;
    let mut net = MioNet::new(&rt)?;
    assert_eq!(rt; net.prepare(started_by(&writer)), Ok(()));
    assert_eq!(rt; net.listen("bytes_unwaited"), Ok(0));
    drop(net);
    drop(writer);
    let mut bytes = Vec::new(rt.alloc());
    assert_eq!(rt; reader.read_to_end(&mut bytes)?, 0);
    let (mut reader, writer) = io::pipe(&rt)?;
    let mut net = MioNet::new(&rt)?;
    assert_eq!(rt; net.prepare(started_by(&writer)), Ok(()));
    assert_eq!(rt; net.listen("bytes_waited"), Ok(0));
    for session in 1..=3u32 {
        let _stream = UnixStream::connect(&rt, "bytes_waited")?;
        assert_eq!(rt; net.wait(), Ready::Listener(0));
        assert_eq!(rt; net.accept(0), Accepted::New(session));
    }
    drop(net);
    drop(writer);
    assert_eq!(rt; reader.read_to_end(&mut bytes)?, 1);
    Ok(())
}

/// A starter whose end is closed before the first wait.
#[test]
fn starter_gone_at_first(rt: HostRuntime) -> Result<(), Fail> {
    let (reader, writer) = io::pipe(&rt)?;
    let mut net = MioNet::new(&rt)?;
    assert_eq!(rt; net.prepare(started_by(&writer)), Ok(()));
    assert_eq!(rt; net.listen("gone_at_first"), Ok(0));
    drop(reader);
    assert_eq!(rt; net.wait(), Ready::Quiet);
    Ok(())
}

/// A descriptor that isn't a pipe's is refused, and so is a second starter.
#[test]
fn starters_refused(rt: HostRuntime) -> Result<(), Fail> {
    let mut net = MioNet::new(&rt)?;
    let closed = Setting {
        replaces: false,
        starter: Some(999_999),
    };
    assert_eq!(rt; net.prepare(closed), Err(NetFault::Failed));
    let file = File::create(&rt, "starter_file")?;
    assert_eq!(rt; net.prepare(started_by(&file)), Err(NetFault::Failed));
    let device = File::open(&rt, "/dev/null")?;
    assert_eq!(rt; net.prepare(started_by(&device)), Err(NetFault::Failed));
    let (socket, _other) = UnixStream::pair(&rt)?;
    assert_eq!(rt; net.prepare(started_by(&socket)), Err(NetFault::Failed));
    assert_eq!(rt; net.count(Count::Own), 4);
    let (_reader, writer) = io::pipe(&rt)?;
    assert_eq!(rt; net.prepare(started_by(&writer)), Ok(()));
    assert_eq!(rt; net.prepare(started_by(&writer)), Err(NetFault::Failed));
    assert_eq!(rt; net.count(Count::Own), 5);
    Ok(())
}
