//! Queues that bytes are put into and taken from.
ghost use Rattle.std.specs.Prelude.{◌≤◌};

use bytes::Bytes;
use out_queue::OutQueue;
use std::alloc::{AllocError, Global};
use std::test::Fail;
use test_tables::{text_of, wrong_row};

/// What is put and taken, in order: `slice` puts a copy of a text, `with` a copy with `----` from a place on, `long`
/// that number of one letter, given whole, `shared` that number of `s` with `----` from a place on, and `took` takes
/// that number. The result of each step is how many bytes wait, how many of them lie together at the start, and the
/// first of them.
const QUEUES: &str = "\
took 0 => 0 0 []
slice abc, slice de, took 1, took 4 => 3 3 [abc], 5 5 [abcd], 4 4 [bcde], 0 0 []
with 2 abcdefgh => 8 8 [ab--]
with 0 abcd, with 4 abcdefgh => 4 4 [----], 12 12 [----]
slice ab, long 4096 x, slice cd, took 2, took 4096 => 2 2 [ab], 4098 4098 [abxx], 4100 4100 [abxx], 4098 4098 [xxxx], 2 2 [cd]
slice ab, long 4097 x, slice cd, took 1, took 1, took 4090, took 7, took 2 => 2 2 [ab], 4099 2 [ab], 4101 2 [ab], 4100 1 [b], 4099 4097 [xxxx], 9 7 [xxxx], 2 2 [cd], 0 0 []
long 5000 x, long 6000 y, slice cd, took 5000, slice ef => 5000 5000 [xxxx], 11000 5000 [xxxx], 11002 5000 [xxxx], 6002 6000 [yyyy], 6004 6000 [yyyy]
long 5000 x, long 6000 y, slice cd, took 10999, took 2 => 5000 5000 [xxxx], 11000 5000 [xxxx], 11002 5000 [xxxx], 3 1 [y], 1 1 [d]
shared 2 8 => 8 8 [ss--]
shared 8 4108 => 4108 4108 [ssss]
slice ab, shared 8 4109, slice cd, took 10, took 4, took 4097, took 2 => 2 2 [ab], 4111 14 [abss], 4113 14 [abss], 4103 4 [----], 4099 4097 [ssss], 2 2 [cd], 0 0 []
shared 0 9000, shared 0 8000, took 4, took 8996 => 9000 4 [----], 17000 4 [----], 16996 8996 [ssss], 8000 4 [----]
slices 65535 a, slice b, slice c, took 65536 => 65535 65535 [aaaa], 65536 65536 [aaaa], 65537 65536 [aaaa], 1 1 [c]
";

fn told_queue(alloc: Global, steps: &str) -> Result<String, AllocError> {
    let mut queue = OutQueue::new(alloc);
    let mut told = String::new(alloc);
    for step in steps.split(", ") {
        take_step(alloc, &mut queue, step)?;
        if !told.is_empty() {
            told.push_str(", ")?;
        }
        told.push_str(&told_waiting(alloc, &queue)?)?;
    }
    Ok(told)
}

fn take_step(alloc: Global, queue: &mut OutQueue, step: &str) -> Result<(), AllocError> {
    let (what, text) = step.split_once(' ').unwrap_or((step, ""));
    let (count, letter) = text.split_once(' ').unwrap_or((text, ""));
    let count: usize = count.parse().unwrap_or(0);
    match what {
        "slice" => queue.push_slice(text.as_bytes()),
        "slices" => queue.push_slice(&letters(alloc, count, letter)?),
        "long" => queue.push(Bytes::copy_from_slice(alloc, &letters(alloc, count, letter)?)?),
        "with" => put_with(queue, letter.as_bytes(), count),
        "shared" => put_shared(alloc, queue, letter.parse().unwrap_or(0), count),
        _ => {
            let waiting = usize::try_from(queue.len()).unwrap_or(usize::MAX);
            take(queue, count.min(waiting));
            Ok(())
        }
    }
}

fn put_with(queue: &mut OutQueue, bytes: &[u8], place: usize) -> Result<(), AllocError> {
    if place >= bytes.len() || bytes.len() - place < 4 {
        return Err(AllocError);
    }
    queue.push_with(bytes, place, *b"----")
}

fn put_shared(
    alloc: Global,
    queue: &mut OutQueue,
    count: usize,
    place: usize,
) -> Result<(), AllocError> {
    let bytes = Bytes::copy_from_slice(alloc, &letters(alloc, count, "s")?)?;
    if place >= bytes.len() || bytes.len() - place < 4 {
        return Err(AllocError);
    }
    queue.push_shared(&bytes, place, *b"----")
}

fn take(queue: &mut OutQueue, count: usize) {
    if count as u64 <= queue.len() {
        queue.took(count);
    }
}

/// This many bytes of one letter.
fn letters(alloc: Global, count: usize, letter: &str) -> Result<Vec<u8>, AllocError> {
    let mut all = Vec::new(alloc);
    all.resize(count, letter.as_bytes().first().copied().unwrap_or(b'?'))?;
    Ok(all)
}

fn told_waiting(alloc: Global, queue: &OutQueue) -> Result<String, AllocError> {
    let front = queue.front();
    let first = text_of(alloc, &front[..front.len().min(4)])?;
    format!(in alloc; "{} {} [{first}]", queue.len(), front.len())
}

#[test]
fn bytes_wait_in_order(rt: HostRuntime) -> Result<(), Fail> {
    assert_eq!(rt; wrong_row(rt.alloc(), QUEUES, &told_queue)?, None);
    Ok(())
}
