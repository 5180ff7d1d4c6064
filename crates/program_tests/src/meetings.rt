//! The recordings of an audit, and those for which a policy is suggested, are played at the same time.
use crate::audits::TWICE;
use crate::explaining::{SEE, SEEN};
use crate::runs::file;
use link_traits::Gate;
use memory_links::{MemFiles, MemSink};
use proxy_main::tool;
use std::alloc::{AllocError, Global};
use std::str;
use std::sync::atomic::{AtomicBool, AtomicUsize, Ordering};
use std::test::Fail;
use std::thread::Threads;

/// The maximum number of times that a job looks whether the other one has arrived.
const LOOKS: u32 = 1_000_000_000;

/// A gate at which two jobs wait for each other.
#[derive(Drop)]
struct Meeting {
    first: AtomicBool,
    second: AtomicBool,
    met: AtomicUsize,
}

impl Meeting {
    fn meet(&self, own: &AtomicBool, other: &AtomicBool) {
        own.store(true, Ordering::SeqCst);
        for _ in 0..LOOKS {
            if other.load(Ordering::SeqCst) {
                self.met.fetch_add(1, Ordering::SeqCst);
                return;
            }
        }
    }
}

impl Gate for Meeting {
    fn enter(&self, job: u32) {
        match job {
            1 => self.meet(&self.first, &self.second),
            2 => self.meet(&self.second, &self.first),
            _ => {}
        }
    }
}

/// A run of a tool over a policy and a recording, at a gate. It gives the output if the status is 0 and both jobs met,
/// and else nothing.
fn met<R: Threads + Sync>(rt: &R, alloc: Global, words: &[&str]) -> Result<Vec<u8>, AllocError> {
    let gate = Meeting {
        first: AtomicBool::new(false),
        second: AtomicBool::new(false),
        met: AtomicUsize::new(0),
    };
    let mut strings = Vec::new(alloc);
    for word in words {
        strings.push(String::from_str(alloc, word)?)?;
    }
    let mut files = Vec::new(alloc);
    files.push(file(alloc, "policy", SEE)?)?;
    files.push(file(alloc, "seen", SEEN)?)?;
    let mut files = MemFiles::new(files);
    let mut out = MemSink::new(alloc, 10_000)?;
    let mut err = MemSink::new(alloc, 100)?;
    let status = tool(rt, &gate, alloc, &strings, &mut files, &mut out, &mut err);
    if status.is_some_and(|status| status.code == 0) && gate.met.load(Ordering::SeqCst) == 2 {
        return Ok(out.bytes);
    }
    Ok(Vec::new(alloc))
}

#[test]
fn recordings_of_an_audit_are_played_at_the_same_time(rt: HostRuntime) -> Result<(), Fail> {
    let out = met(&rt, rt.alloc(), &["audit", "policy", "seen", "seen"])?;
    assert_eq!(rt; str::from_utf8(&out).unwrap_or("no text"), TWICE);
    Ok(())
}

#[test]
fn recordings_of_a_suggestion_are_played_at_the_same_time(rt: HostRuntime) -> Result<(), Fail> {
    let out = met(&rt, rt.alloc(), &["suggest", "seen", "seen"])?;
    assert_eq!(rt;
        str::from_utf8(&out).unwrap_or("no text"),
        "--filter\0--call=org.a.S=org.a.I.M@/p\0"
    );
    Ok(())
}
