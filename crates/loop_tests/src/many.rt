//! A hundred sessions side by side.
use link_traits::{Link, Side};
use memory_links::{MemNet, MemSink, Script};
use proxy_loop::{Server, Turn};
use std::alloc::{AllocError, Global};
use std::test::Fail;
use test_servers::{line_of, serve};
use test_tables::plain;

/// Two blocks: the first talks to org.a.T, and the second knows no name.
const WORDS: &str =
    "unix:path=/bus /p --filter --talk=org.a.T unix:path=/bus2 /q --filter --sessions=100";

/// What each client sends: it authenticates itself and calls org.a.T.
const CLIENT: &str = "\
~AUTH EXTERNAL%0D%0ABEGIN%0D%0Al%01~%01~~~~%01~~~@~~~%01%01o~%02~~~/p~~~~~~%02%01s~%07~~~org.a.I~%03%01s~%01~~~A~~~~~~~%06%01s~%07~~~org.a.T~";

/// What each bus sends: it accepts the client, and answers the first message with a return without a body.
const BUS: &str = "\
OK 00112233445566778899aabbccddeeff%0D%0Al%02%01%01~~~~%09~~~%25~~~%05%01u~%01~~~%06%01s~%05~~~:1.40~~~%07%01s~%04~~~:1.7~~~~";

/// What the buses of the second block are sent: the lines, and a ping in place of the call.
const PINGED: &str = "\
~AUTH EXTERNAL%0D%0ABEGIN%0D%0Al%01~%01~~~~%01~~~e~~~%01%01o~%01~~~/~~~~~~~%02%01s~%19~~~org.freedesktop.DBus.Peer~~~~~~~%03%01s~%04~~~Ping~~~~%06%01s~%14~~~org.freedesktop.DBus~~~~";

/// What is left of a session's stream.
#[derive(Drop)]
struct Left {
    link: Link,
    bytes: Vec<u8>,
    at: usize,
}

/// A repeatable order that looks random.
#[derive(Clone, Copy)]
struct Mixer {
    state: u64,
}

impl Mixer {
    /// The next number below a bound.
    fn below(&mut self, bound: usize) -> usize {
        self.state = self
            .state
            .wrapping_mul(6_364_136_223_846_793_005)
            .wrapping_add(1_442_695_040_888_963_407);
        let high = (self.state >> 33) as usize;
        if bound == 0 { 0 } else { high % bound }
    }
}

/// The streams of one side of a hundred sessions.
fn streams(alloc: Global, side: Side, bytes: &[u8]) -> Result<Vec<Left>, AllocError> {
    let mut all = Vec::new(alloc);
    for session in 1..=100u32 {
        all.push(Left {
            link: Link { session, side },
            bytes: Vec::from_slice(alloc, bytes)?,
            at: 0,
        })?;
    }
    Ok(all)
}

/// Adds the streams' bytes in pieces of one to forty bytes, in a mixed order.
fn add_mixed(
    script: &mut Script,
    mixer: &mut Mixer,
    streams: &mut Vec<Left>,
) -> Result<(), AllocError> {
    for _ in 0..100_000u32 {
        if streams.is_empty() {
            break;
        }
        let place = mixer.below(streams.len());
        let most = mixer.below(40).saturating_add(1);
        if let Some(left) = streams.get_mut(place) {
            let end = left.bytes.len().min(left.at.saturating_add(most));
            script.piece(left.link, left.bytes.get(left.at..end).unwrap_or(&[]))?;
            left.at = end;
            if end == left.bytes.len() {
                let _ = streams.swap_remove(place);
            }
        }
    }
    Ok(())
}

/// A hundred clients that connect to both listeners in turn, and then all their bytes, and all those of their buses.
fn script(alloc: Global, seed: u64) -> Result<Script, AllocError> {
    let mut script = Script::new(alloc);
    let mut mixer = Mixer { state: seed };
    for session in 0..100u32 {
        script.arrival(session % 2)?;
    }
    add_mixed(
        &mut script,
        &mut mixer,
        &mut streams(alloc, Side::Client, &plain(alloc, CLIENT)?)?,
    )?;
    add_mixed(
        &mut script,
        &mut mixer,
        &mut streams(alloc, Side::Bus, &plain(alloc, BUS)?)?,
    )?;
    for session in 1..=100u32 {
        script.end(Link {
            session,
            side: Side::Client,
        })?;
    }
    Ok(script)
}

/// What was written to a link of a session.
fn written(alloc: Global, net: &MemNet, session: u32, side: Side) -> Result<Vec<u8>, AllocError> {
    net.written(alloc, Link { session, side })
}

/// The first session with a side to which something else was written than must be. The clients of the second block get
/// the proxy's error after the bus's line, which isn't compared here.
fn wrong_session(alloc: Global, net: &MemNet) -> Result<Option<u32>, AllocError> {
    let (client, bus) = (plain(alloc, CLIENT)?, plain(alloc, BUS)?);
    let pinged = plain(alloc, PINGED)?;
    for session in 1..=100u32 {
        let talks = session % 2 == 1;
        let to_bus = written(alloc, net, session, Side::Bus)?;
        let to_client = written(alloc, net, session, Side::Client)?;
        let expected = if talks { &client } else { &pinged };
        if to_bus.as_slice() != expected.as_slice() {
            return Ok(Some(session));
        }
        if talks && to_client.as_slice() != bus.as_slice() {
            return Ok(Some(session));
        }
    }
    Ok(None)
}

#[test]
fn a_hundred_mixed_sessions_get_their_own_bytes(rt: HostRuntime) -> Result<(), Fail> {
    for seed in [1u64, 2, 3] {
        let mut net = MemNet::new(rt.alloc(), script(rt.alloc(), seed)?, 100_000, 200_000)?;
        let mut log = MemSink::new(rt.alloc(), 0)?;
        let mut server = Server::new(rt.alloc(), line_of(rt.alloc(), WORDS)?)?;
        let end = serve(&mut server, &mut net, &mut log);
        assert_eq!(rt; end, Ok(Turn::Stopped));
        assert_eq!(rt; wrong_session(rt.alloc(), &net)?, None);
    }
    Ok(())
}
