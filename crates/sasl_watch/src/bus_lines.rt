//! The bus's lines.
ghost use Rattle.std.specs.Prelude.{◌≡◌, ◌<◌, None, true, ℕ, Bool, IfOk, OnErr, length};
ghost use Rattle.sasl_watch.specs.Watching.{came, is_taken, bus_ahead, BusGives};
ghost use Rattle.sasl_watch.specs.Fronts.{IsWhole};

use crate::front::Front;
use crate::words::agrees;
use crate::{LineKind, Lines, NextLine};
use std::alloc::AllocError;

impl Lines {
    /// Takes what is first in the stream. `unanswered` is the number of the client's lines that wait for an answer, and
    /// `begun` says whether the client has sent BEGIN. At `Incomplete` and `Done` nothing changes, and after `Bad` each
    /// answer is the same. `Nul` and `Begin` are never returned. An error says that memory ran out for a line; then
    /// nothing changes, and no fault was reported.
    pub fn next_of_bus(&mut self, unanswered: u64, begun: bool) -> Result<NextLine, AllocError>
        ensures gives { IfOk result (λ next. BusGives unanswered begun self.old next self.new) }
        ensures shorter { IfOk result (λ next. is_taken next ≡ true → length self.new.left < length self.old.left) }
        ensures came { came self.new ≡ came self.old }
        ensures err { OnErr result (self.new ≡ self.old) }
        ensures sound { OnErr result (self.old.bad ≡ None) }
        ensures asked { OnErr result (0 < unanswered) }
        ensures line { OnErr result (0 < length (bus_ahead self.old).lines) }
    {
        if let Some(fault) = self.bad() {
            return Ok(NextLine::Bad(fault));
        }
        if unanswered == 0 {
            return Ok(self.next_unasked(begun));
        }
        match self.front() {
            Front::Partial => Ok(NextLine::Incomplete),
            Front::Faulty(kind, ahead) => Ok(NextLine::Bad(self.fail(kind, ahead))),
            Front::Whole(len) => self.next_answer(len),
        }
    }

    /// Takes what is first if no line waits for its answer.
    fn next_unasked(&mut self, begun: bool) -> NextLine
        requires sound { self.old.bad ≡ None }
        ensures gives { BusGives 0 begun self.old result self.new }
        ensures shorter { is_taken result ≡ true → length self.new.left < length self.old.left }
        ensures came { came self.new ≡ came self.old }
    {
        if begun {
            NextLine::Done
        } else if self.len() == 0 {
            NextLine::Incomplete
        } else {
            NextLine::Bad(self.fail(LineKind::EarlyBus, 0))
        }
    }

    /// Takes the first line, which is whole and has this length, if a line waits for its answer.
    fn next_answer(&mut self, len: usize) -> Result<NextLine, AllocError>
        requires sound { self.old.bad ≡ None }
        requires whole { IsWhole len self.old.left }
        ensures gives { IfOk result (λ next. (unanswered : ℕ) (begun : Bool) → 0 < unanswered
            → BusGives unanswered begun self.old next self.new) }
        ensures shorter { IfOk result (λ next. is_taken next ≡ true → length self.new.left < length self.old.left) }
        ensures came { came self.new ≡ came self.old }
        ensures err { OnErr result (self.new ≡ self.old) }
        ensures line { OnErr result (0 < length (bus_ahead self.old).lines) }
    {
        if agrees(self.line(len)) {
            return Ok(NextLine::Bad(self.fail(LineKind::Agreed, len - 1)));
        }
        Ok(NextLine::Line(self.take(len)?))
    }
}
