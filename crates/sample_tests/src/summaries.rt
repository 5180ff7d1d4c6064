//! Summaries of samples.
use crate::rows::row_of;
use memory_links::MemSink;
use sample::{MOST_DRAWS, summary};
use std::alloc::{AllocError, Global};
use std::test::Fail;
use test_tables::{text_of, wrong_row};

/// A number of draws, a seed and the room of a sink, and the answer, what the sink got, and how many writes have
/// failed.
const SUMMARIES: &str = "\
0 1 200 => Ok(()) [items 4 passed 1 pings 0 shown 1 instead 0 hidden 2 to-bus 560 to-client 90%0A] 0
3 1 200 => Ok(()) [items 8 passed 1 pings 1 shown 3 instead 1 hidden 2 to-bus 680 to-client 434%0A] 0
5 0 200 => Ok(()) [items 13 passed 4 pings 1 shown 5 instead 1 hidden 2 to-bus 1010 to-client 542%0A] 0
5 2147483648 200 => Ok(()) [items 13 passed 4 pings 1 shown 5 instead 1 hidden 2 to-bus 1010 to-client 542%0A] 0
5 18446744073709551615 200 => Ok(()) [items 12 passed 1 pings 3 shown 3 instead 3 hidden 2 to-bus 920 to-client 714%0A] 0
1000 7 200 => Ok(()) [items 1482 passed 249 pings 230 shown 502 instead 230 hidden 271 to-bus 55908 to-client 76398%0A] 0
3 1 0 => Err(Out) [] 1
3 1 9 => Err(Out) [items 8 p] 1
3 1 76 => Err(Out) [items 8 passed 1 pings 1 shown 3 instead 1 hidden 2 to-bus 680 to-client 434] 1
";

fn told_summary(alloc: Global, row: &str) -> Result<String, AllocError> {
    let row = row_of(row);
    let mut sink = MemSink::new(alloc, row.room)?;
    let answer = summary(alloc, row.draws.min(MOST_DRAWS), row.seed, &mut sink);
    let written = text_of(alloc, &sink.bytes)?;
    format!(in alloc; "{answer:?} [{written}] {}", sink.faults)
}

#[test]
fn tells_what_becomes_of_each_message(rt: HostRuntime) -> Result<(), Fail> {
    assert_eq!(rt; wrong_row(rt.alloc(), SUMMARIES, &told_summary)?, None);
    Ok(())
}
