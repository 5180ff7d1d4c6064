//! Paths that are refused, and those whose files are replaced.
use crate::sessions::{bus, listening, one_client};
use link_traits::{Count, Got, Net, NetFault, Setting, Took};
use proxy_net::MioNet;
use std::fs;
use std::os::unix::fs::symlink;
use std::os::unix::net::{UnixListener, UnixStream};
use std::test::Fail;

/// A file at a path isn't changed, and an empty path is refused.
#[test]
fn taken_paths(rt: HostRuntime) -> Result<(), Fail> {
    let mut net = MioNet::new(&rt)?;
    fs::write(&rt, "taken", b"kept")?;
    assert_eq!(rt; net.listen("taken"), Err(NetFault::Failed));
    assert_eq!(rt; fs::read(&rt, "taken")?.as_slice(), b"kept".as_slice());
    assert_eq!(rt; net.count(Count::Own), 1);
    assert_eq!(rt; net.listen(""), Err(NetFault::Failed));
    assert_eq!(rt; net.listen("none/socket"), Err(NetFault::Failed));
    assert_eq!(rt; net.count(Count::Own), 3);
    assert_eq!(rt; net.listen("free"), Ok(0));
    assert_eq!(rt; net.listen("free"), Err(NetFault::Failed));
    assert_eq!(rt; net.count(Count::Own), 4);
    assert_eq!(rt; net.count(Count::Waits), 0);
    Ok(())
}

/// With the setting, a socket and an empty file are replaced, but no file with a byte, no folder and no link.
#[test]
fn replaced_paths(rt: HostRuntime) -> Result<(), Fail> {
    let mut net = MioNet::new(&rt)?;
    drop(UnixListener::bind(&rt, "replaced_stale")?);
    fs::write(&rt, "replaced_empty", b"")?;
    fs::write(&rt, "replaced_not", b"k")?;
    fs::create_dir(&rt, "replaced_folder")?;
    symlink(&rt, "replaced_stale", "replaced_link")?;
    assert_eq!(rt; net.listen("replaced_empty"), Err(NetFault::Failed));
    assert_eq!(rt; net.listen("replaced_stale"), Err(NetFault::Failed));
    let setting = Setting {
        replaces: true,
        starter: None,
    };
    assert_eq!(rt; net.prepare(setting), Ok(()));
    assert_eq!(rt; net.listen("replaced_not"), Err(NetFault::Failed));
    assert_eq!(rt; net.listen("replaced_folder"), Err(NetFault::Failed));
    assert_eq!(rt; net.listen("replaced_link"), Err(NetFault::Failed));
    assert_eq!(rt; fs::read(&rt, "replaced_not")?.as_slice(), b"k".as_slice());
    assert!(rt; fs::symlink_metadata(&rt, "replaced_folder")?.is_dir());
    assert!(rt; fs::symlink_metadata(&rt, "replaced_link")?.is_symlink());
    assert_eq!(rt; net.listen("replaced_stale"), Ok(0));
    assert_eq!(rt; net.listen("replaced_empty"), Ok(1));
    assert_eq!(rt; net.listen("replaced_new"), Ok(2));
    let _first = UnixStream::connect(&rt, "replaced_stale")?;
    let _second = UnixStream::connect(&rt, "replaced_empty")?;
    net.remove_sockets();
    assert!(rt; fs::symlink_metadata(&rt, "replaced_stale").is_err());
    assert!(rt; fs::symlink_metadata(&rt, "replaced_empty").is_err());
    Ok(())
}

/// A bus that isn't there.
#[test]
fn no_bus(rt: HostRuntime) -> Result<(), Fail> {
    let mut net = listening(&rt, "no_bus")?;
    let _stream = one_client(&rt, &mut net, "no_bus")?;
    let link = bus(1);
    assert_eq!(rt; net.connect(1, "none"), Err(NetFault::Failed));
    assert_eq!(rt; net.count(Count::Link(link)), 1);
    assert_eq!(rt; net.connect(1, ""), Err(NetFault::Failed));
    assert_eq!(rt; net.count(Count::Link(link)), 2);
    let mut buffer = [0u8; 4];
    assert_eq!(rt; net.read(link, &mut buffer), Got::Failed);
    assert_eq!(rt; net.write(link, b"x"), Took::Failed);
    assert_eq!(rt; net.count(Count::Link(link)), 4);
    assert_eq!(rt; net.listen("none"), Ok(1));
    assert_eq!(rt; net.connect(1, "none"), Ok(()));
    assert_eq!(rt; net.write(link, b"x"), Took::Bytes(1));
    assert_eq!(rt; net.count(Count::Link(link)), 4);
    Ok(())
}

/// The sockets that a net bound are removed, and nothing else: not a file that was there before, and not one that
/// another process put in a socket's place.
#[test]
fn sockets_removed(rt: HostRuntime) -> Result<(), Fail> {
    let mut net = listening(&rt, "removed_first")?;
    fs::write(&rt, "removed_not", b"kept")?;
    assert_eq!(rt; net.listen("removed_not"), Err(NetFault::Failed));
    assert_eq!(rt; net.listen("removed_second"), Ok(1));
    assert_eq!(rt; net.listen("removed_third"), Ok(2));
    assert_eq!(rt; net.listen("removed_fourth"), Ok(3));
    fs::remove_file(&rt, "removed_second")?;
    fs::write(&rt, "removed_second", b"other")?;
    fs::remove_file(&rt, "removed_fourth")?;
    let _other = UnixListener::bind(&rt, "removed_fourth")?;
    net.remove_sockets();
    assert!(rt; fs::symlink_metadata(&rt, "removed_first").is_err());
    assert!(rt; fs::symlink_metadata(&rt, "removed_third").is_err());
    assert_eq!(rt;
        fs::read(&rt, "removed_second")?.as_slice(),
        b"other".as_slice()
    );
    assert_eq!(rt;
        fs::read(&rt, "removed_not")?.as_slice(),
        b"kept".as_slice()
    );
    assert!(rt; fs::symlink_metadata(&rt, "removed_fourth").is_ok());
    net.remove_sockets();
    assert_eq!(rt; net.listen("removed_third"), Ok(4));
    assert!(rt; fs::symlink_metadata(&rt, "removed_third").is_ok());
    net.remove_sockets();
    assert!(rt; fs::symlink_metadata(&rt, "removed_third").is_err());
    Ok(())
}
