//! The words, the descriptors and the lines of a process.
ghost use Rattle.std.specs.Prelude.{Some};

use memory_links::MemSink;
use process_streams::{
    Descriptors, OpenFault, ProcessArguments, ProcessFault, SystemDescriptors, fill_closed,
    tell_fault, words_of_process,
};
use std::alloc::{AllocError, Global};
use std::env::{Env, FillError};
use std::os::fd::RawFd;
use std::test::Fail;

/// An environment with these words alone.
#[derive(Drop)]
struct WordsAlone {
    words: Vec<Vec<u8>>,
}

impl WordsAlone {
    fn new(alloc: Global, words: &[&[u8]]) -> Result<WordsAlone, AllocError> {
        let mut copies = Vec::new(alloc);
        for word in words {
            copies.push(word.to_vec(alloc)?)?;
        }
        Ok(WordsAlone { words: copies })
    }
}

impl Env for WordsAlone {
    fn arg(&self, i: usize, buf: &mut [u8]) -> Result<usize, FillError> {
        let Some(word) = self.words.get(i) else {
            return Err(FillError::NotPresent);
        };
        if word.len() > buf.len() {
            return Err(FillError::TooLong);
        }
        buf[..word.len()].copy_from_slice(word);
        Ok(word.len())
    }

    fn var(&self, _name: &str, _buf: &mut [u8]) -> Result<usize, FillError> {
        Err(FillError::NotPresent)
    }

    fn var_at(&self, _i: usize, _buf: &mut [u8]) -> Result<usize, FillError> {
        Err(FillError::NotPresent)
    }
}

/// Words of each length about that of the first buffer come whole, and the program's name isn't among them.
#[test]
fn words_of_each_length(rt: HostRuntime) -> Result<(), Fail> {
    for length in [0, 1, 255, 256, 257, 511, 512, 513, 1000] {
        let mut env = WordsAlone::new(rt.alloc(), &[b"name"])?;
        env.words.push(vec![in rt.alloc(); b'x'; length]?)?;
        env.words.push("\u{e9}".as_bytes().to_vec(rt.alloc())?)?;
        let texts = words_of_process(rt.alloc(), &ProcessArguments::new(&env))?;
        assert_eq!(rt; texts.len(), 2);
        assert_eq!(rt; texts[0].as_str().len(), length);
        assert_eq!(rt; texts[1].as_str(), "\u{e9}");
    }
    Ok(())
}

#[test]
fn no_words(rt: HostRuntime) -> Result<(), Fail> {
    for words in [[].as_slice(), [b"name".as_slice()].as_slice()] {
        let env = WordsAlone::new(rt.alloc(), words)?;
        let texts = words_of_process(rt.alloc(), &ProcessArguments::new(&env))?;
        assert_eq!(rt; texts.len(), 0);
    }
    Ok(())
}

/// The status and the line of a fault.
fn ended(alloc: Global, fault: ProcessFault) -> Result<(u8, MemSink), AllocError> {
    let mut err = MemSink::new(alloc, 100)?;
    let code = tell_fault(alloc, fault, &mut err);
    Ok((code, err))
}

/// The first word that isn't UTF-8 is named by its index, and a tool's words are refused as a whole.
#[test]
fn words_that_are_no_text(rt: HostRuntime) -> Result<(), Fail> {
    let bad = b"\xff".as_slice();
    for (words, line) in [
        (
            [b"p".as_slice(), bad, bad],
            "error: word 0: UnknownOption\n",
        ),
        (
            [bad, b"unix:path=/b\xff", b"a"],
            "error: word 0: UnknownOption\n",
        ),
        ([bad, b"a", bad], "error: word 1: UnknownOption\n"),
        ([bad, b"--help", bad], "error: word 1: UnknownOption\n"),
        ([bad, b"replay", b"\xc3"], "error: usage\n"),
        ([bad, b"explain", bad], "error: usage\n"),
        ([bad, b"twin", bad], "error: usage\n"),
        ([bad, b"sample", bad], "error: usage\n"),
    ] {
        let env = WordsAlone::new(rt.alloc(), &words)?;
        match words_of_process(rt.alloc(), &ProcessArguments::new(&env)) {
            Ok(_) => return Err(Fail::new("words that are no text were taken")),
            Err(fault) => {
                let (code, err) = ended(rt.alloc(), fault)?;
                assert_eq!(rt; code, 1);
                assert_eq!(rt; err.bytes.as_slice(), line.as_bytes());
            }
        }
    }
    Ok(())
}

#[test]
fn lines_of_faults(rt: HostRuntime) -> Result<(), Fail> {
    for (fault, status, line) in [
        (ProcessFault::ClosedStream, 5, "error: standard streams\n"),
        (ProcessFault::NoNet, 5, "error: wait\n"),
        (ProcessFault::Memory, 8, "error: memory\n"),
    ] {
        let (code, err) = ended(rt.alloc(), fault)?;
        assert_eq!(rt; code, status);
        assert_eq!(rt; err.bytes.as_slice(), line.as_bytes());
    }
    Ok(())
}

/// Descriptors whose numbers a script gives. `None` is an open that fails.
#[derive(Drop)]
struct ScriptedDescriptors<'a> {
    script: &'a [Option<RawFd>],
    given: Vec<RawFd>,
    closed: bool,
}

impl<'a> Descriptors for ScriptedDescriptors<'a> {
    type Opened = RawFd;

    ghost number = { λ number. number };

    ghost given = { λ descriptors. descriptors.given.items };

    ghost closed = { λ descriptors. Some descriptors.closed };

    fn open_null(&mut self) -> Result<RawFd, OpenFault> {
        let [first, rest @ ..] = self.script else {
            return Err(OpenFault::Failed);
        };
        self.script = rest;
        let Some(number) = *first else {
            return Err(OpenFault::Failed);
        };
        match self.given.push(number) {
            Ok(()) => Ok(number),
            Err(_) => Err(OpenFault::Memory),
        }
    }

    fn number_of(&self, opened: &RawFd) -> RawFd {
        *opened
    }

    fn has_closed(&self) -> bool {
        self.closed
    }
}

#[test]
fn scripted_descriptors(rt: HostRuntime) -> Result<(), Fail> {
    for (script, closed, held) in [
        ([Some(0), Some(1), Some(2)].as_slice(), false, Some(3)),
        ([Some(2), Some(9)].as_slice(), false, Some(1)),
        ([Some(0), Some(2), Some(3)].as_slice(), false, Some(2)),
        ([Some(3)].as_slice(), false, Some(0)),
        ([None].as_slice(), false, Some(0)),
        ([Some(1), None].as_slice(), false, Some(1)),
        ([None].as_slice(), true, None),
        ([Some(1), None].as_slice(), true, None),
    ] {
        let mut descriptors = ScriptedDescriptors {
            script,
            given: Vec::new(rt.alloc()),
            closed,
        };
        let result = fill_closed(rt.alloc(), &mut descriptors);
        assert_eq!(rt; result.ok().map(|numbers| numbers.len()), held);
    }
    Ok(())
}

/// Once they are filled, none of this process's three is closed.
#[test]
fn own_descriptors(rt: HostRuntime) -> Result<(), Fail> {
    let mut descriptors = SystemDescriptors::new(&rt);
    let held = fill_closed(rt.alloc(), &mut descriptors)?;
    assert!(rt; !descriptors.has_closed());
    assert!(rt; held.len() <= 3);
    Ok(())
}
