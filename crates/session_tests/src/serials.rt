//! Sessions that give their last serials.
use crate::sessions::{FILTERED, told_steps};
use crate::texts::options_of;
use policy_args::Options;
use proxy_core::laws::session_at;
use std::alloc::{AllocError, Global};
use std::test::Fail;
use test_tables::wrong_row;

/// The number of serials that count as given, the words of a policy, separated by commas, and the steps and their
/// results, as in the table of sessions.
///
/// A call passes with the last serial and is answered, and the next call has none. Pings also need a serial; dropped
/// messages don't. A Hello and the calls after it are sent together or not at all, and so are the calls on a list of
/// names.
const SPENT: &str = "\
4294967294 --filter,--talk=org.a.T; client call; bus_byte 8; bus_byte 9; bus_byte 10; bus_byte 11; \
    bus return 20=255 21=255 22=255 23=255; client call => - 80 0; 255; 255; 255; 255; - 80 56; SerialsSpent 80 56; \
    Some(SerialsSpent)
4294967294 --filter,--talk=org.a.T; client call 2=1; client call => - 80 0; SerialsSpent 80 0; Some(SerialsSpent)
4294967294 --filter; client call; client call => - 120 0; SerialsSpent 120 0; Some(SerialsSpent)
4294967295 --filter; client call 2=1; client hello => - 0 0; SerialsSpent 0 0; Some(SerialsSpent)
4294967295 --filter,--talk=org.a.T; client call; client call => SerialsSpent 0 0; SerialsSpent 0 0; Some(SerialsSpent)
4294967294 --filter; client hello; client hello => - 128 0; SerialsSpent 128 0; Some(SerialsSpent)
4294967293 --filter,--talk=org.a.T; client hello => SerialsSpent 0 0; Some(SerialsSpent)
4294967292 --filter,--talk=org.a.T; client hello; client hello => - 550 0; SerialsSpent 550 0; Some(SerialsSpent)
4294967291 --filter,--talk=org.a.*; client hello; bus names 20=254 21=255 22=255 23=255 => - 537 0; SerialsSpent 537 0; Some(SerialsSpent)
4294967290 --filter,--talk=org.a.*; client hello; bus names 20=253 21=255 22=255 23=255; client hello => - 537 0; - 849 0; SerialsSpent 849 0; Some(SerialsSpent)
";

fn told_spent(alloc: Global, row: &str) -> Result<String, AllocError> {
    let (given, row) = row.split_once(' ').unwrap_or((row, ""));
    let (words, steps) = row.split_once("; ").unwrap_or((row, ""));
    let options = options_of(alloc, words)?;
    told_from(alloc, &options, given.parse().unwrap_or(0), steps)
}

fn told_from(
    alloc: Global,
    options: &Options,
    given: u32,
    steps: &str,
) -> Result<String, AllocError> {
    let mut session = session_at(alloc, &options.policy, FILTERED, given)?;
    told_steps(alloc, &mut session, &options.policy, steps)
}

#[test]
fn sessions_end_where_no_serial_is_left(rt: HostRuntime) -> Result<(), Fail> {
    assert_eq!(rt; wrong_row(rt.alloc(), SPENT, &told_spent)?, None);
    Ok(())
}
