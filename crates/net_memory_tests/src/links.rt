//! Links over sockets in memory. Each row has a script, calls of the net, and what each call answers.
use crate::calls::told_calls;
use std::test::Fail;
use test_tables::wrong_row;

/// A link is named for what came, until a read leaves room in its buffer or would wait, and for its end until that is
/// read. A report without anything there has one read that would wait.
const NAMED: &str = "\
arrival /p, piece c1 hi; open, want c1 r, wait, read c1 9, wait => New(1) Ok(()), c1, Bytes hi, Failed
arrival /p, piece c1 hi, +end c1; open, want c1 r, wait, read c1 9, wait, read c1 9 => New(1) Ok(()), c1, Bytes hi, c1, Finished
arrival /p, piece c1 hi, end c1; open, want c1 r, wait, read c1 9, wait, read c1 9 => New(1) Ok(()), c1, Bytes hi, c1, Finished
arrival /p, piece c1 hi, piece c1 you; open, want c1 r, wait, read c1 9, wait, read c1 9, wait => New(1) Ok(()), c1, Bytes hi, c1, Bytes you, Failed
arrival /p, piece c1 hello, end c1; open, want c1 r, wait, wait, read c1 9, read c1 9, wait, read c1 9, wait, want c1 , wait => New(1) Ok(()), c1, c1, Bytes hello, NotReady, c1, Finished, c1, Failed
arrival /p, spurious c1 r, piece c1 hi; open, want c1 r, wait, read c1 9, wait, read c1 9 => New(1) Ok(()), c1, NotReady, c1, Bytes hi
arrival /p, spurious b1 r, spurious c1 r; open, want c1 r, want b1 r, wait, read b1 9, wait, read c1 9, wait => New(1) Ok(()), b1, NotReady, c1, NotReady, Failed
arrival /p, spurious c1 rw, piece c1 a; open, want c1 w, wait, want c1 r, wait, read c1 9, wait, read c1 9 => New(1) Ok(()), c1, c1, NotReady, c1, Bytes a
arrival /p, piece b1 bus, +piece c1 client; open, want c1 r, want b1 r, wait, read c1 9, read c1 9, wait, read b1 9 => New(1) Ok(()), c1, Bytes client, NotReady, b1, Bytes bus
arrival /p, piece b1 bus, piece c1 client; open, want c1 r, want b1 r, wait, read b1 9, read b1 9, wait, read c1 9 => New(1) Ok(()), b1, Bytes bus, NotReady, c1, Bytes client
";

/// Reads and writes of a part, and those that a signal interrupts or that would wait.
const PARTS: &str = "\
arrival /p, piece c1 abcdef; open, want c1 r, wait, read c1 2, wait, read c1 2, read c1 9, read c1 9 => New(1) Ok(()), c1, Bytes ab, c1, Bytes cd, Bytes ef, NotReady
arrival /p, piece c1 ab, +piece c1 cd, piece c1 ef; open, want c1 r, wait, read c1 3, read c1 9, read c1 9, wait, read c1 9 => New(1) Ok(()), c1, Bytes abc, Bytes d, NotReady, c1, Bytes ef
trickle c1 2, arrival /p, piece c1 abcde; open, want c1 r, wait, read c1 9, wait, read c1 9, read c1 9, read c1 9 => New(1) Ok(()), c1, Bytes ab, c1, Bytes cd, Bytes e, NotReady
pace c1 2, arrival /p; open, write c1 abcdef, write c1 cdef, write c1 ef, write c1 , written c1, written b1 => New(1) Ok(()), Bytes(2), Bytes(2), Bytes(2), Bytes(0), [abcdef], []
Write 1 WouldBlock, arrival /p; open, write c1 ab, written c1, waits, want c1 w, wait, write c1 ab, written c1 => New(1) Ok(()), NotReady, [], 2, c1, Bytes(2), [ab]
Write 2 WouldBlock, arrival /p, piece b1 x; open, write c1 ab, write c1 cd, want c1 w, want b1 r, wait, want b1 , \
    wait, write c1 cd, written c1 => New(1) Ok(()), Bytes(2), NotReady, b1, c1, Bytes(2), [abcd]
Write 1-2 WouldBlock, arrival /p; open, write c1 ab, want c1 w, wait, write c1 ab, wait, write c1 ab, wait => New(1) Ok(()), NotReady, c1, NotReady, c1, Bytes(2), c1
pace b1 0, arrival /p, piece c1 hi; open, write b1 x, want b1 w, want c1 r, wait, read c1 9, want c1 , wait, written b1 => New(1) Ok(()), NotReady, c1, Bytes hi, Failed, []
Read 1 WouldBlock, arrival /p, piece c1 hi; open, want c1 r, wait, read c1 9, wait, read c1 9 => New(1) Ok(()), c1, NotReady, c1, Bytes hi
Read 1 Interrupted, arrival /p, piece c1 hi; open, want c1 r, wait, read c1 9, waits => New(1) Ok(()), c1, Bytes hi, 1
Write 1 Interrupted, arrival /p; open, write c1 hi, want c1 w, wait, write c1 hi, written c1 => New(1) Ok(()), NotReady, c1, Bytes(2), [hi]
arrival /p, Write 1 WouldBlock, piece c1 hi; open, write c1 x, want c1 rw, wait, read c1 9, read c1 9, wait, \
    write c1 x, written c1 => New(1) Ok(()), NotReady, c1, Bytes hi, NotReady, c1, Bytes(1), [x]
arrival /p, piece c1 hi; open, want c1 r, wait, want c1 rw, wait, read c1 9, write c1 x, read c1 9, wait, want c1 r, wait => New(1) Ok(()), c1, c1, Bytes hi, Bytes(1), NotReady, c1, Failed
";

/// Links that fail, and links whose peers are gone.
const GONE: &str = "\
Read 1 Other, arrival /p, piece c1 hi; open, want c1 r, wait, read c1 9, faults c1, faults b1, read c1 9 => New(1) Ok(()), c1, Failed, 1, 0, Bytes hi
Write 1 Other, arrival /p; open, write c1 hi, faults c1, written c1 => New(1) Ok(()), Failed, 1, []
limit b1 3, arrival /p; open, write b1 abcdef, write b1 def, written b1, faults b1 => New(1) Ok(()), Bytes(3), Failed, [abc], 1
arrival /p, piece c1 ab, reset c1; open, want c1 r, wait, read c1 9, read c1 9, wait, read c1 9, read c1 9, \
    write c1 x, faults c1 => New(1) Ok(()), c1, Bytes ab, NotReady, c1, Finished, Finished, Failed, 1
Read 1 ConnectionReset, arrival /p, piece c1 hi; open, want c1 r, wait, read c1 9 => New(1) Ok(()), c1, Finished
arrival /p, piece c1 hello, +hangup c1; open, want c1 r, wait, want c1 rw, write c1 x, read c1 3, write c1 x, wait, \
    read c1 3, wait, read c1 3, write c1 x, faults c1, written c1 => New(1) Ok(()), c1, NotReady, Bytes hel, \
    NotReady, c1, Bytes lo, c1, Finished, Failed, 3, []
arrival /p, hangup c1; open, want c1 r, wait, want c1 w, write c1 x, wait, shut b1, wait, write c1 x => New(1) Ok(()), c1, NotReady, Failed, c1, Failed
arrival /p, piece c1 hi, end c1; open, want c1 r, wait, read c1 9, read c1 9, wait, read c1 9, write c1 late, written c1 => New(1) Ok(()), c1, Bytes hi, NotReady, c1, Finished, Bytes(4), [late]
Watch 1 Other, Write 1 WouldBlock, arrival /p; open, write c1 x, faults c1 => New(1) Ok(()), Failed, 1
Wait 2 Other, arrival /p, piece c1 hi; open, want c1 r, wait, wait, read c1 9 => New(1) Ok(()), Failed, c1, Bytes hi
";

/// Links that are shut, and a number that is used again: nothing of the socket before is read.
const SHUT: &str = "\
arrival /p, piece c1 hi; open, want c1 r, shut c1, wait, read c1 9, write c1 x, written c1, shut c1, faults c1 => New(1) Ok(()), Failed, Failed, Failed, [], 2
arrival /p, piece b1 old, piece b1 new; open, want b1 r, wait, read b1 1, write b1 x, shut b1, connect 1, want b1 r, \
    wait, read b1 9, read b1 9, write b1 y, written b1 => New(1) Ok(()), b1, Bytes o, Bytes(1), Ok(()), b1, \
    Bytes new, NotReady, Bytes(1), [xy]
arrival /p, reset b1, piece b1 new; open, want b1 r, wait, shut b1, connect 1, write b1 y, want b1 r, wait, read b1 9, written b1 => New(1) Ok(()), b1, Ok(()), Bytes(1), b1, Bytes new, [y]
arrival /p; open, connect 1, shut b1, connect 1, faults b1 => New(1) Ok(()), Err(Failed), Ok(()), 1
";

#[test]
fn links_are_named(rt: HostRuntime) -> Result<(), Fail> {
    assert_eq!(rt; wrong_row(rt.alloc(), NAMED, &told_calls)?, None);
    Ok(())
}

#[test]
fn parts_are_read_and_written(rt: HostRuntime) -> Result<(), Fail> {
    assert_eq!(rt; wrong_row(rt.alloc(), PARTS, &told_calls)?, None);
    Ok(())
}

#[test]
fn peers_go(rt: HostRuntime) -> Result<(), Fail> {
    assert_eq!(rt; wrong_row(rt.alloc(), GONE, &told_calls)?, None);
    Ok(())
}

#[test]
fn links_are_shut(rt: HostRuntime) -> Result<(), Fail> {
    assert_eq!(rt; wrong_row(rt.alloc(), SHUT, &told_calls)?, None);
    Ok(())
}
