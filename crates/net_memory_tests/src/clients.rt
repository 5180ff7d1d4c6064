//! Clients that come and buses that are connected, over sockets in memory. Each row has a script, calls of the net, and
//! what each call answers.
use crate::calls::told_calls;
use std::test::Fail;
use test_tables::wrong_row;

/// Clients are taken in turn from where they came. A listener is named until an accept would wait; one without a client
/// has an accept that would wait.
const ACCEPTED: &str = "\
arrival /p, arrival /q; listen /p, listen /q, listen /p, wait, accept 0, accept 1, accept 0, wait, accept 1 => Ok(0), Ok(1), Err(Failed), Listener(0), New(1), NotReady, NotReady, Listener(1), New(2)
nobody /p, arrival /p; listen /p, wait, accept 0, wait, accept 0 => Ok(0), Listener(0), NotReady, Listener(0), New(1)
arrival /p, +arrival /p; listen /p, wait, accept 0, wait, accept 0, accept 0, accept 1 => Ok(0), Listener(0), New(1), Listener(0), New(2), NotReady, Failed
Accept 1 Interrupted, arrival /p; listen /p, wait, accept 0, wait, accept 0 => Ok(0), Listener(0), NotReady, Listener(0), New(1)
Accept 1 WouldBlock, arrival /p; listen /p, wait, accept 0, wait, accept 0 => Ok(0), Listener(0), NotReady, Listener(0), New(1)
Bind 1 Other, AwaitClients 1 Other, arrival /p; listen /p, listen /p, listen /p, wait, accept 0 => Err(Failed), Err(Failed), Ok(0), Listener(0), New(1)
arrival /p; listen /p, remove, wait => Ok(0), Failed
arrival /p; listen /p, remove, listen /p, wait, accept 1 => Ok(0), Ok(1), Listener(1), New(1)
";

/// An accept that fails, as one for which no descriptor is left, puts its listener off: by 1 millisecond, and by twice
/// as long each time. It isn't put off any more once a link is shut or another client comes.
const PUT_OFF: &str = "\
Accept 1 Other, arrival /p; listen /p, wait, milliseconds, accept 0, wait, milliseconds, accept 0 => Ok(0), Listener(0), 0, Failed, Listener(0), 1, New(1)
Accept 1-7 Other, arrival /p; listen /p, wait, accept 0, wait, accept 0, wait, accept 0, wait, accept 0, wait, \
    accept 0, wait, accept 0, wait, accept 0, wait, milliseconds, accept 0 => Ok(0), Listener(0), Failed, \
    Listener(0), Failed, Listener(0), Failed, Listener(0), Failed, Listener(0), Failed, Listener(0), Failed, \
    Listener(0), Failed, Listener(0), 95, New(1)
Accept 3 Other, arrival /p, arrival /p; open, wait, accept 0, shut c1, wait, milliseconds, accept 0 => New(1) Ok(()), Listener(0), Failed, Listener(0), 0, New(2)
Accept 1 Other, arrival /p, arrival /p; listen /p, wait, accept 0, wait, milliseconds, accept 0, accept 0 => Ok(0), Listener(0), Failed, Listener(0), 0, New(1), New(2)
";

/// A bus that has no room is tried again while the net waits, for five seconds. Until then its link isn't ready, and
/// afterwards it fails. What else happens goes on.
const FULL: &str = "\
Connect 1-2 WouldBlock, arrival /p; open, write b1 x, read b1 9, want b1 w, wait, milliseconds, write b1 x, written b1 => New(1) Ok(()), NotReady, NotReady, b1, 3, Bytes(1), [x]
Connect 1 Interrupted, arrival /p; open, want b1 w, wait, milliseconds => New(1) Ok(()), b1, 1
Connect 1-999 WouldBlock, arrival /p; open, write b1 x, want b1 w, wait, milliseconds, write b1 x, read b1 9, faults b1, written b1 => New(1) Ok(()), NotReady, b1, 5023, Failed, Failed, 3, []
Connect 1-3 WouldBlock, arrival /p, piece c1 hi; open, want c1 r, want b1 w, wait, milliseconds, read c1 9, read c1 9, wait, milliseconds => New(1) Ok(()), c1, 0, Bytes hi, NotReady, b1, 7
Connect 1 WouldBlock, Connect 2 ConnectionRefused, arrival /p; open, want b1 r, wait, read b1 9 => New(1) Ok(()), b1, Failed
Connect 1 WouldBlock, arrival /p; open, shut b1, want c1 w, wait, want c1 , wait => New(1) Ok(()), c1, Failed
Connect 1 ConnectionRefused, arrival /p; open, faults b1, connect 1 => New(1) Err(Failed), 1, Ok(())
";

#[test]
fn clients_are_accepted(rt: HostRuntime) -> Result<(), Fail> {
    assert_eq!(rt; wrong_row(rt.alloc(), ACCEPTED, &told_calls)?, None);
    Ok(())
}

#[test]
fn failing_accepts_are_put_off(rt: HostRuntime) -> Result<(), Fail> {
    assert_eq!(rt; wrong_row(rt.alloc(), PUT_OFF, &told_calls)?, None);
    Ok(())
}

#[test]
fn full_buses_are_tried_again(rt: HostRuntime) -> Result<(), Fail> {
    assert_eq!(rt; wrong_row(rt.alloc(), FULL, &told_calls)?, None);
    Ok(())
}
