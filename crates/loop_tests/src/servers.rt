//! What servers do with the clients of a net in memory. Rows with a log are in `logged`.
use crate::served::told_server;
use std::test::Fail;
use test_servers::{ENDED, PLAYED};
use test_tables::{SESSION, wrong_named_row, wrong_row};

/// A listen for which the net has no memory left.
const REFUSED: &str = "\
unix:path=/bus /p --filter unix:path=/bus2 /q --filter; ListenRefused 1; c1 => Memory, c1 \n\
";

#[test]
fn sessions_are_served(rt: HostRuntime) -> Result<(), Fail> {
    assert_eq!(rt;
        wrong_named_row(rt.alloc(), SESSION, PLAYED, &told_server)?,
        None
    );
    Ok(())
}

#[test]
fn sessions_end_alone(rt: HostRuntime) -> Result<(), Fail> {
    assert_eq!(rt;
        wrong_named_row(rt.alloc(), SESSION, ENDED, &told_server)?,
        None
    );
    Ok(())
}

#[test]
fn a_listen_without_memory_is_an_end(rt: HostRuntime) -> Result<(), Fail> {
    assert_eq!(rt; wrong_row(rt.alloc(), REFUSED, &told_server)?, None);
    Ok(())
}
