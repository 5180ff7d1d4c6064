//! Expected answers and owed replies.
use dbus_header::Instead;
use dbus_names::Name;
use dbus_values::Order;
use reply_ledger::{Kind, Ledger};
use std::alloc::{AllocError, Global};
use std::test::Fail;

/// Counts a call of a sender and a serial to which no reply is owed.
fn call(ledger: &mut Ledger, sender: &str, serial: u32) -> Result<(), AllocError> {
    if !ledger.owed(sender, serial) {
        ledger.called(sender, serial)?;
    }
    Ok(())
}

/// Counts two calls of such a sender and serial.
fn call_twice(ledger: &mut Ledger, sender: &str, serial: u32) -> Result<(), AllocError> {
    if !ledger.owed(sender, serial) {
        ledger.called(sender, serial)?;
        ledger.called(sender, serial)?;
    }
    Ok(())
}

/// A ledger that expects an answer to a Hello, to a GetNameOwner, to a ping and to a call.
fn expecting(alloc: Global) -> Result<Ledger, AllocError> {
    let mut ledger = Ledger::new(alloc);
    let name = Name::new(String::from_str(alloc, "org.a.A")?);
    ledger.expect(1, Kind::Hello(10))?;
    ledger.expect(2, Kind::OwnOwner(name))?;
    ledger.expect(
        4,
        Kind::Ping {
            serial: 12,
            order: Order::Big,
            what: Instead::False,
        },
    )?;
    ledger.expect(4_294_967_295, Kind::Call(11))?;
    Ok(ledger)
}

/// Whether the owner of this name is expected.
fn is_owner_of(kind: &Option<Kind>, name: &str) -> bool {
    match kind {
        Some(Kind::OwnOwner(expected)) => expected.as_str() == name,
        _ => false,
    }
}

/// Whether the ping is expected.
fn is_ping(kind: Option<&Kind>) -> bool {
    matches!(
        kind,
        Some(Kind::Ping {
            serial: 12,
            order: Order::Big,
            what: Instead::False,
        },)
    )
}

#[test]
fn kinds_are_given_once(rt: HostRuntime) -> Result<(), Fail> {
    let mut ledger = expecting(rt.alloc())?;
    assert!(rt; ledger.peek(3).is_none() && ledger.take(3).is_none());
    assert!(rt; matches!(ledger.peek(4_294_967_295), Some(Kind::Call(11))));
    assert!(rt; matches!(ledger.take(4_294_967_295), Some(Kind::Call(11))));
    assert!(rt; ledger.peek(4_294_967_295).is_none() && ledger.take(4_294_967_295).is_none());
    assert!(rt; is_owner_of(&ledger.take(2), "org.a.A"));
    assert!(rt; is_ping(ledger.peek(4)));
    assert!(rt; matches!(ledger.take(1), Some(Kind::Hello(10))));
    assert!(rt; ledger.take(2).is_none());
    Ok(())
}

/// A ledger that expects answers to calls whose serials ascend.
fn expecting_calls(alloc: Global, count: u32) -> Result<Ledger, AllocError> {
    let mut ledger = Ledger::new(alloc);
    for before in 0..count {
        expect_call(&mut ledger, before.wrapping_add(1))?;
    }
    Ok(ledger)
}

fn expect_call(ledger: &mut Ledger, serial: u32) -> Result<(), AllocError> {
    ledger.expect(serial, Kind::Call(serial))
}

#[test]
fn answers_come_in_any_order(rt: HostRuntime) -> Result<(), Fail> {
    // As they were sent, backwards, and each seventh, round and round. A step that is no multiple of a prime meets all.
    for (start, step) in [(0, 1), (100, 100), (3, 7)] {
        let mut ledger = expecting_calls(rt.alloc(), 101)?;
        for n in 0..101_u32 {
            let serial = n.wrapping_mul(step).wrapping_add(start) % 101 + 1;
            assert!(rt; matches!(ledger.peek(serial), Some(Kind::Call(call)) if *call == serial));
            assert!(rt; matches!(ledger.take(serial), Some(Kind::Call(call)) if call == serial));
            assert!(rt; ledger.take(serial).is_none());
        }
    }
    Ok(())
}

#[test]
fn another_kind_takes_the_place_of_the_first(rt: HostRuntime) -> Result<(), Fail> {
    let mut ledger = Ledger::new(rt.alloc());
    ledger.expect(7, Kind::OwnMatch)?;
    ledger.expect(7, Kind::OwnNames)?;
    assert!(rt; matches!(ledger.take(7), Some(Kind::OwnNames)));
    assert!(rt; ledger.take(7).is_none());
    Ok(())
}

/// Calls of two senders whose names begin alike.
fn owing(alloc: Global) -> Result<Ledger, AllocError> {
    let mut ledger = Ledger::new(alloc);
    call(&mut ledger, ":1.5", 7)?;
    call_twice(&mut ledger, ":1.50", 7)?;
    call(&mut ledger, ":1.50", 9)?;
    call_twice(&mut ledger, ":1.50", 8)?;
    Ok(ledger)
}

/// Whether a reply is owed, and whether it is counted as one that was owed.
fn answered(ledger: &mut Ledger, dest: &str, serial: u32) -> (bool, bool) {
    (ledger.owed(dest, serial), ledger.answer(dest, serial))
}

#[test]
fn replies_are_owed_to_pairs(rt: HostRuntime) -> Result<(), Fail> {
    let mut ledger = owing(rt.alloc())?;
    // Each reply in turn, and whether it was owed.
    for (dest, serial, owed) in [
        (":1.5", 8, false),
        (":1.", 7, false),
        ("", 7, false),
        (":1.5", 7, true),
        (":1.5", 7, false),
        (":1.50", 8, true),
        (":1.50", 7, true),
        (":1.50", 7, true),
        (":1.50", 7, false),
        (":1.50", 9, true),
        (":1.50", 9, false),
        (":1.50", 8, true),
        (":1.50", 8, false),
    ] {
        let told = answered(&mut ledger, dest, serial);
        assert_eq!(rt; told, (owed, owed), "{dest} {serial}");
    }
    call(&mut ledger, ":1.5", 7)?;
    assert!(rt; ledger.owed(":1.5", 7));
    Ok(())
}
