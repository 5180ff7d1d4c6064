//! Bytes through links, and what is named.
use crate::sessions::{bus, client, listening, two_sessions};
use link_traits::{Got, Link, Net, Ready, Took};
use proxy_net::{MioNet, SystemSockets};
use std::io::{Read, Write};
use std::test::Fail;

/// The number of bytes in each direction.
const MEGABYTE: usize = 1_000_000;

/// Bytes go both ways, and a link is named as long as it is ready for a wish.
#[test]
fn both_ways(rt: HostRuntime) -> Result<(), Fail> {
    let mut net = listening(&rt, "both_ways")?;
    let mut stream = two_sessions(&rt, &mut net, "both_ways")?;
    let mut buffer = [0u8; 8];
    stream.write_all(b"hello")?;
    net.want(client(1), true, false);
    for _ in 0..3 {
        assert_eq!(rt; net.wait(), Ready::Link(client(1)));
    }
    assert_eq!(rt; net.read(client(1), &mut buffer), Got::Bytes(5));
    assert_eq!(rt; &buffer[..5], b"hello".as_slice());
    assert_eq!(rt; net.read(client(1), &mut buffer), Got::NotReady);
    assert_eq!(rt; net.write(client(1), b"you"), Took::Bytes(3));
    let mut three = [0u8; 3];
    stream.read_exact(&mut three)?;
    assert_eq!(rt; three.as_slice(), b"you".as_slice());
    net.want(client(2), true, false);
    assert_eq!(rt; net.write(bus(1), b"abc"), Took::Bytes(3));
    assert_eq!(rt; net.wait(), Ready::Link(client(2)));
    net.want(client(2), false, false);
    net.want(bus(1), false, true);
    assert_eq!(rt; net.wait(), Ready::Link(bus(1)));
    net.want(bus(1), false, false);
    net.want(client(2), true, false);
    assert_eq!(rt; net.wait(), Ready::Link(client(2)));
    assert_eq!(rt; net.read(client(2), &mut buffer), Got::Bytes(3));
    net.shut(bus(1));
    assert_eq!(rt; net.wait(), Ready::Link(client(2)));
    assert_eq!(rt; net.read(client(2), &mut buffer), Got::Finished);
    Ok(())
}

/// Two links that stay ready are named in turn.
#[test]
fn in_turn(rt: HostRuntime) -> Result<(), Fail> {
    let mut net = listening(&rt, "in_turn")?;
    let mut stream = two_sessions(&rt, &mut net, "in_turn")?;
    stream.write_all(b"one")?;
    assert_eq!(rt; net.write(client(2), b"two"), Took::Bytes(3));
    net.want(client(1), true, false);
    net.want(bus(1), true, false);
    let mut of_client = 0u32;
    let mut of_bus = 0u32;
    for _ in 0..100 {
        match net.wait() {
            Ready::Link(link) if link == client(1) => of_client = of_client.saturating_add(1),
            Ready::Link(link) if link == bus(1) => of_bus = of_bus.saturating_add(1),
            _ => {}
        }
    }
    assert_eq!(rt; of_client.saturating_add(of_bus), 100);
    assert!(rt; of_client > 40 && of_bus > 40);
    Ok(())
}

/// What one end of a stream of bytes has sent and received.
#[derive(Drop)]
struct End {
    link: Link,
    sent: usize,
    got: usize,
    all_right: bool,
    puts_off: u32,
}

/// The byte at a place of a stream.
fn byte_at(place: usize) -> u8 {
    (place % 251) as u8
}

fn end_of(link: Link) -> End {
    End {
        link,
        sent: 0,
        got: 0,
        all_right: true,
        puts_off: 0,
    }
}

impl End {
    fn is_done(&self) -> bool {
        self.sent >= MEGABYTE && self.got >= MEGABYTE
    }

    /// Writes once from what is left.
    fn send(&mut self, net: &mut MioNet<SystemSockets<'_>>) {
        let mut piece = [0u8; 65536];
        let most = MEGABYTE.saturating_sub(self.sent).min(piece.len());
        for place in 0..piece.len() {
            piece[place] = byte_at(self.sent.saturating_add(place));
        }
        match net.write(self.link, &piece[..most]) {
            Took::Bytes(n) => self.sent = self.sent.saturating_add(n),
            Took::NotReady => self.puts_off = self.puts_off.saturating_add(1),
            Took::Failed => self.all_right = false,
        }
    }

    /// Reads once.
    fn receive(&mut self, net: &mut MioNet<SystemSockets<'_>>) {
        let mut piece = [0u8; 65536];
        match net.read(self.link, &mut piece) {
            Got::Bytes(n) => {
                for place in 0..n {
                    let wanted = byte_at(self.got.saturating_add(place));
                    self.all_right = self.all_right && piece[place] == wanted;
                }
                self.got = self.got.saturating_add(n);
            }
            Got::NotReady => {}
            Got::Finished | Got::Failed => self.all_right = false,
        }
    }

    /// Continues with what is left, and states the wishes.
    fn go_on(&mut self, net: &mut MioNet<SystemSockets<'_>>) {
        if self.sent < MEGABYTE {
            self.send(net);
        }
        self.receive(net);
        net.want(self.link, self.got < MEGABYTE, self.sent < MEGABYTE);
    }
}

/// A megabyte goes each way at once, in order, by writes that take a part of what they are given.
#[test]
fn megabytes(rt: HostRuntime) -> Result<(), Fail> {
    let mut net = listening(&rt, "megabytes")?;
    let _stream = two_sessions(&rt, &mut net, "megabytes")?;
    let mut near = end_of(bus(1));
    let mut far = end_of(client(2));
    near.send(&mut net);
    for _ in 0..1000 {
        near.send(&mut net);
        if near.puts_off > 0 {
            break;
        }
    }
    assert!(rt; near.puts_off > 0 && near.sent < MEGABYTE);
    net.want(near.link, true, true);
    net.want(far.link, true, true);
    for _ in 0..100_000 {
        if near.is_done() && far.is_done() {
            break;
        }
        match net.wait() {
            Ready::Link(link) if link == near.link => near.go_on(&mut net),
            Ready::Link(_) => far.go_on(&mut net),
            _ => {}
        }
    }
    assert!(rt; near.is_done() && far.is_done());
    assert!(rt; near.all_right && far.all_right);
    assert_eq!(rt; near.got.saturating_add(far.got), 2 * MEGABYTE);
    Ok(())
}
