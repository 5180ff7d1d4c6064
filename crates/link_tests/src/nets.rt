//! What a net in memory answers, by what its script says. Each row has a script, calls, and what the calls answer.
use crate::calls::told_calls;
use link_traits::{Gate, OpenGate};
use std::alloc::{AllocError, Global};
use std::test::Fail;
use test_nets::net_of;
use test_tables::wrong_row;

/// Clients, pieces and ends come in the order of the script.
const STEPS: &str = "\
; listen, listen, wait => Ok(0), Ok(1), Quiet
arrival 0; listen, wait, accept 0, accept 0, connect 1, wait => Ok(0), Listener(0), New(1), NotReady, Ok(()), Quiet
arrival 1, arrival 0; listen, listen, wait, accept 1, wait, accept 0 => Ok(0), Ok(1), Listener(1), New(1), Listener(0), New(2)
arrival 1; listen, wait, listen, wait => Ok(0), Quiet, Ok(1), Listener(1)
arrival 0, piece c1 hello, piece c1 you, end c1; open, wait, read c1 4, wait, read c1 4, wait, read c1 4, wait, \
    read c1 4, read c1 4, wait => New(1), c1, Bytes hell, c1, Bytes o, c1, Bytes you, c1, Finished, Finished, Quiet
arrival 0, piece c1 hello, piece c1 you, end c1; open, read c1 9, read c1 9, read c1 9 => New(1), Bytes hello, Bytes you, Finished
arrival 0, piece b1 ok, piece c1 , end b1; open, wait, read b1 9, wait, read b1 9, wait => New(1), b1, Bytes ok, b1, Finished, Quiet
arrival 0, piece c1 hello; open, read c1 0, read b1 9, read c1 9, read c1 9 => New(1), Bytes , NotReady, Bytes hello, NotReady
arrival 0, end c1; open, read c1 0, shut c1, read c1 9, write c1 x => New(1), Finished, Failed, Failed
; read c1 9, write c1 x, want c1 rw, shut c1, wait => Failed, Failed, Quiet
arrival 0, arrival 0, piece c2 two, piece c1 one; listen, accept 0, accept 0, connect 1, connect 2, want c1 r, \
    want c2 r, wait, read c2 9, wait, read c1 9 => Ok(0), New(1), New(2), Ok(()), Ok(()), c2, Bytes two, c1, Bytes one
";

/// A link is named for a wish alone.
const WISHES: &str = "\
arrival 0, piece c1 hello; listen, wait, accept 0, wait, want c1 r, wait => Ok(0), Listener(0), New(1), Quiet, c1
arrival 0, piece c1 hello, piece b1 ok; open, want c1, want b1, wait, want b1 r, wait, want c1 r, wait => New(1), Quiet, b1, c1
arrival 0, piece c1 hello, end b1; open, want c1 w, want b1 w, wait => New(1), Quiet
arrival 0, piece c1 hello; open, shut c1, want c1 r, wait => New(1), Quiet
";

/// Calls that answer otherwise.
const EXCEPTIONS: &str = "\
; setting, prepare true 7, setting, prepare false, setting, wait => None, Ok(()), Some(Setting { replaces: true, starter: Some(7) }), Ok(()), Some(Setting { replaces: false, starter: None }), Quiet
PrepareFails 2; prepare true, prepare false 7, setting, prepare false, setting => Ok(()), Err(Failed), \
    Some(Setting { replaces: true, starter: None }), Ok(()), Some(Setting { replaces: false, starter: None })
PrepareRefused 1, PrepareFails 1; prepare true, setting, listen => Err(Memory), None, Ok(0)
room 0 0; prepare true, setting, listen => Ok(()), Some(Setting { replaces: true, starter: None }), Err(Memory)
ListenFails 2; listen, listen, listen => Ok(0), Err(Failed), Ok(1)
ListenRefused 1; listen, listen => Err(Memory), Ok(0)
WaitFails 2; wait, wait, wait => Quiet, Failed, Quiet
arrival 0, AcceptFails 1; listen, wait, accept 0, wait, accept 0 => Ok(0), Listener(0), Failed, Quiet, New(1)
arrival 0, AcceptRefused 1; listen, wait, accept 0, wait, accept 0 => Ok(0), Listener(0), Memory, Quiet, New(1)
arrival 0, AcceptNotReady 1; listen, wait, accept 0, wait, accept 0 => Ok(0), Listener(0), NotReady, Listener(0), New(1)
arrival 0, ConnectFails 1; listen, accept 0, connect 1, write b1 x, connect 1, write b1 x => Ok(0), New(1), Err(Failed), Failed, Ok(()), Bytes(1)
arrival 0, ConnectRefused 1; listen, accept 0, connect 1, write b1 x, connect 1, write b1 x => Ok(0), New(1), Err(Memory), Failed, Ok(()), Bytes(1)
arrival 0; open, connect 1 => New(1), Err(Failed)
arrival 0, piece c1 hello, ReadFails 2; open, read c1 2, read c1 2, read c1 9 => New(1), Bytes he, Failed, Bytes llo
arrival 0, piece c1 hello, ReadNotReady 1; open, wait, read c1 9, wait, read c1 9 => New(1), c1, NotReady, c1, Bytes hello
arrival 0, end c1, ReadNotReady 1, ReadFails 2; open, wait, read c1 9, wait, read c1 9, read c1 9 => New(1), c1, NotReady, c1, Failed, Finished
arrival 0, WriteFails 2; open, write b1 x, write b1 y, write b1 z, written b1 => New(1), Bytes(1), Failed, Bytes(1), xz
arrival 0, WriteNotReady 1; open, write b1 x, wait, want b1 w, wait, write b1 x, wait => New(1), NotReady, Quiet, b1, Bytes(1), Quiet
arrival 0, piece c1 hello, WriteNotReady 1; open, write b1 x, want b1 w, wait, wait, wait => New(1), NotReady, c1, b1, Quiet
";

/// What links take.
const WRITES: &str = "\
arrival 0; open, write b1 abc, write c1 de, write b1 f, written b1, written c1, written b2 => New(1), Bytes(3), Bytes(2), Bytes(1), abcf, de
arrival 0, pace b1 1; open, write b1 abc, write b1 bc, write c1 xy, written b1, written c1 => New(1), Bytes(1), Bytes(1), Bytes(2), ab, xy
arrival 0, pace b1 0; open, write b1 a, write b1 , want b1 w, wait, written b1 => New(1), NotReady, Bytes(0), Quiet
arrival 0, limit b1 13; open, write b1 0123456789, write b1 abcdefghij, write b1 k, write c1 x, written b1 => New(1), Bytes(10), Bytes(3), Failed, Bytes(1), 0123456789abc
arrival 0, pace b1 2, limit b1 3; open, write b1 abcd, write b1 cd, write b1 d, written b1 => New(1), Bytes(2), Bytes(1), Failed, abc
arrival 0, limit b1 0; open, write b1 a => New(1), Failed
arrival 0, arrival 0; listen, accept 0, accept 0, connect 2, write b2 two, write c1 one, write b1 x, written b2, written c1 => Ok(0), New(1), New(2), Ok(()), Bytes(3), Bytes(3), Failed, two, one
";

/// Where no entry or no byte is left. A listen takes two bytes of its path, and a connect four.
const ROOM: &str = "\
room 0 9; listen, wait, accept 0, connect 1, read c1 9, write c1 x => Err(Memory), Failed, Memory, Err(Memory), Failed, Failed
room 9 0; listen, wait, accept 0, connect 1, read c1 9, write c1 x => Err(Memory), Failed, Memory, Err(Memory), Failed, Failed
room 9 1; listen, wait => Err(Memory), Quiet
room 9 2; listen, wait => Ok(0), Failed
room 6 7, arrival 0, piece c1 hello; open, listen, read c1 9, read c1 9, wait, accept 0, listen, connect 2, \
    write b1 x => New(1), Err(Memory), Bytes h, Failed, Failed, Memory, Err(Memory), Err(Memory), Failed
room 9 8, arrival 0; open, write b1 abc, written b1, write b1 c => New(1), Bytes(2), ab, Failed
room 5 9, arrival 0; open, shut c1, shut b1, write b1 x => New(1), Failed
";

fn told(alloc: Global, row: &str) -> Result<String, AllocError> {
    let (script, calls) = row.split_once("; ").unwrap_or(("", row));
    told_calls(alloc, &mut net_of(alloc, script)?, calls)
}

#[test]
fn a_script_is_told_step_by_step(rt: HostRuntime) -> Result<(), Fail> {
    assert_eq!(rt; wrong_row(rt.alloc(), STEPS, &told)?, None);
    assert_eq!(rt; wrong_row(rt.alloc(), WISHES, &told)?, None);
    Ok(())
}

#[test]
fn calls_answer_otherwise(rt: HostRuntime) -> Result<(), Fail> {
    assert_eq!(rt; wrong_row(rt.alloc(), EXCEPTIONS, &told)?, None);
    Ok(())
}

#[test]
fn links_take_what_they_have_room_for(rt: HostRuntime) -> Result<(), Fail> {
    assert_eq!(rt; wrong_row(rt.alloc(), WRITES, &told)?, None);
    assert_eq!(rt; wrong_row(rt.alloc(), ROOM, &told)?, None);
    Ok(())
}

/// Enters through the bound alone.
fn enter<G: Gate>(gate: &G) {
    gate.enter(1);
}

#[test]
fn an_open_gate_lets_a_job_in(_rt: HostRuntime) {
    enter(&OpenGate);
}
