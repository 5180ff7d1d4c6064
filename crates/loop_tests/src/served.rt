//! What a server does with the clients of a script, as text.
use memory_links::MemSink;
use std::alloc::{AllocError, Global};
use test_nets::{add_written, net_of};
use test_servers::{add_log, row_of, told_end};

/// How the server of a row ends over the net of its script, what was written to each link that the row asks for, and
/// the log.
pub fn told_server(alloc: Global, row: &str) -> Result<String, AllocError> {
    let row = row_of(row);
    let mut net = net_of(alloc, row.script)?;
    let mut log = MemSink::new(alloc, row.room)?;
    let mut told = told_end(alloc, row.words, &mut net, &mut log)?;
    add_written(alloc, &mut told, &net, row.links)?;
    add_log(alloc, &mut told, &log)?;
    Ok(told)
}
