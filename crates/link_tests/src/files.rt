//! Files in memory that are made and appended to. Each row has what appends answer, calls, and what each call answers,
//! what the file then holds, and how many calls have failed.
use link_traits::{FileFault, Files};
use memory_links::{MemFile, MemFiles};
use std::alloc::{AllocError, Global};
use std::test::Fail;
use test_tables::{text_of, wrong_row};

const CREATES: &str = "\
; create a, create c, append c xy, create c, create b => Ok(())  0, Ok(())  0, Ok(2) xy 0, Ok(())  0, Err(Failed) third 1
fails 1, refused 1; create a, create c => Ok(())  0, Ok(())  0
";

const APPENDS: &str = "\
; append a xy, append a , append a z => Ok(2) firstxy 0, Ok(0) firstxy 0, Ok(1) firstxyz 0
; append c xy, append b xy, create c, append c xy => Err(Failed) no file 1, Err(Failed) third 2, Ok(())  2, Ok(2) xy 2
most 1; append a xyz, append a yz, append a z => Ok(1) firstx 0, Ok(1) firstxy 0, Ok(1) firstxyz 0
most 2; append a xyz, append a , append a z => Ok(2) firstxy 0, Ok(0) firstxy 0, Ok(1) firstxyz 0
most 0; append a xyz => Ok(1) firstx 0
fails 1; append a x, append a y => Err(Failed) first 1, Ok(1) firsty 1
fails 2; append a x, append a y, append a z => Ok(1) firstx 0, Err(Failed) firstx 1, Ok(1) firstxz 1
fails 3; append a x, append c y, append a z, append a w => Ok(1) firstx 0, Err(Failed) no file 1, Err(Failed) firstx 2, Ok(1) firstxw 2
refused 2; append a x, append a y, append a z => Ok(1) firstx 0, Err(Memory) firstx 0, Ok(1) firstxz 0
most 1, fails 2, refused 3; append a xy, append a y, append a y, append a y => Ok(1) firstx 0, Err(Failed) firstx 1, Err(Memory) firstx 1, Ok(1) firstxy 1
";

/// A file `a`, a second one of that path, and a file `b` that fails.
fn files(alloc: Global, script: &str) -> Result<MemFiles, AllocError> {
    let mut files = Vec::new(alloc);
    files.push(file(alloc, "a", "first", false)?)?;
    files.push(file(alloc, "a", "second", false)?)?;
    files.push(file(alloc, "b", "third", true)?)?;
    let mut files = MemFiles::new(files);
    for word in script.split(", ") {
        let (kind, number) = word.split_once(' ').unwrap_or((word, ""));
        let number = number.parse().unwrap_or(0);
        match kind {
            "most" => files.appends.most = number as usize,
            "fails" => files.appends.fails = Some(number),
            "refused" => files.appends.refused = Some(number),
            _ => {}
        }
    }
    Ok(files)
}

fn file(alloc: Global, path: &str, bytes: &str, fails: bool) -> Result<MemFile, AllocError> {
    Ok(MemFile {
        path: String::from_str(alloc, path)?,
        bytes: Vec::from_slice(alloc, bytes.as_bytes())?,
        fails,
    })
}

/// What the first file of a path holds.
fn held(alloc: Global, files: &MemFiles, path: &str) -> Result<String, AllocError> {
    for file in &files.files {
        if file.path.as_str() == path {
            return text_of(alloc, &file.bytes);
        }
    }
    String::from_str(alloc, "no file")
}

/// Makes a file through the bound alone.
fn create<F: Files>(files: &mut F, path: &str) -> Result<(), FileFault> {
    files.create(path)
}

/// Appends through the bound alone.
fn append<F: Files>(files: &mut F, path: &str, piece: &str) -> Result<usize, FileFault> {
    files.append(path, piece.as_bytes())
}

fn told_call(alloc: Global, files: &mut MemFiles, call: &str) -> Result<String, AllocError> {
    let (kind, rest) = call.split_once(' ').unwrap_or((call, ""));
    let (path, piece) = rest.split_once(' ').unwrap_or((rest, ""));
    let answer = match kind {
        "create" => format!(in alloc; "{:?}", create(files, path))?,
        _ => format!(in alloc; "{:?}", append(files, path, piece))?,
    };
    let held = held(alloc, files, path)?;
    format!(in alloc; "{answer} {held} {}", files.faults)
}

fn told(alloc: Global, row: &str) -> Result<String, AllocError> {
    let (script, calls) = row.split_once("; ").unwrap_or(("", row));
    let mut files = files(alloc, script)?;
    let mut told = String::new(alloc);
    for call in calls.split(", ") {
        if !told.is_empty() {
            told.push_str(", ")?;
        }
        told.push_str(&told_call(alloc, &mut files, call)?)?;
    }
    Ok(told)
}

#[test]
fn files_are_made_and_emptied(rt: HostRuntime) -> Result<(), Fail> {
    assert_eq!(rt; wrong_row(rt.alloc(), CREATES, &told)?, None);
    Ok(())
}

#[test]
fn appends_take_a_prefix_or_fail(rt: HostRuntime) -> Result<(), Fail> {
    assert_eq!(rt; wrong_row(rt.alloc(), APPENDS, &told)?, None);
    Ok(())
}
