//! The client's lines.
ghost use Rattle.std.specs.Prelude.{◌≡◌, ◌<◌, None, true, IfOk, OnErr, length};
ghost use Rattle.sasl_watch.specs.Watching.{came, is_taken, client_ahead, ClientGives};

use crate::front::Front;
use crate::words::is_begin;
use crate::{LineKind, Lines, NextLine};
use std::alloc::AllocError;

impl Lines {
    /// Takes what is first in the stream: the NUL, and then each line up to the one whose word is `BEGIN`. At
    /// `Incomplete` nothing changes, and after `Bad` each answer is the same. `Done` is never returned. An error says
    /// that memory ran out for a line; then nothing changes, and no fault was reported.
    pub fn next_of_client(&mut self) -> Result<NextLine, AllocError>
        ensures gives { IfOk result (λ next. ClientGives self.old next self.new) }
        ensures shorter { IfOk result (λ next. is_taken next ≡ true → length self.new.left < length self.old.left) }
        ensures came { came self.new ≡ came self.old }
        ensures err { OnErr result (self.new ≡ self.old) }
        ensures sound { OnErr result (self.old.bad ≡ None) }
        ensures line { OnErr result (0 < length (client_ahead self.old).lines) }
    {
        if let Some(fault) = self.bad() {
            return Ok(NextLine::Bad(fault));
        }
        if self.place() == 0 {
            return Ok(self.next_nul());
        }
        match self.front() {
            Front::Partial => Ok(NextLine::Incomplete),
            Front::Faulty(kind, ahead) => Ok(NextLine::Bad(self.fail(kind, ahead))),
            Front::Whole(len) => {
                let line = self.take(len)?;
                Ok(if is_begin(line.as_slice()) {
                    NextLine::Begin(line)
                } else {
                    NextLine::Line(line)
                })
            }
        }
    }

    /// Takes the byte before the first line.
    fn next_nul(&mut self) -> NextLine
        requires start { self.old.place ≡ 0 }
        requires sound { self.old.bad ≡ None }
        ensures gives { ClientGives self.old result self.new }
        ensures shorter { is_taken result ≡ true → length self.new.left < length self.old.left }
        ensures came { came self.new ≡ came self.old }
    {
        match self.first() {
            None => NextLine::Incomplete,
            Some(0) => {
                self.skip(1);
                NextLine::Nul
            }
            Some(_) => NextLine::Bad(self.fail(LineKind::NoNul, 0)),
        }
    }
}
