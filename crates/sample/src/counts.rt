//! What is counted of a session, and the line that tells it.
ghost use Rattle.std.specs.Prelude.{◌≡◌, ◌+◌, ◌++◌, IfOk, OnOk, decimal, if◌then◌else◌, string_bytes};
ghost use Rattle.sample.specs.Playing.{with_decision};
ghost use Rattle.sample.specs.Summary.{is_hidden as tells_hidden, is_instead as tells_instead, is_passed as tells_passed, is_pinged as tells_pinged, is_shown as tells_shown, line_of};

use itoa::Buffer;
use policy_view::{Decision, Note, Showing, Verdict};
use std::alloc::{AllocError, Global};

/// The most bytes that the line has.
const LINE_ROOM: usize = "items 18446744073709551615 passed 18446744073709551615 \
    pings 18446744073709551615 shown 18446744073709551615 instead 18446744073709551615 \
    hidden 18446744073709551615 to-bus 18446744073709551615 to-client 18446744073709551615\n"
    .len();

/// How many messages a session has, and what becomes of them.
#[derive(Clone, Copy)]
pub(crate) struct Counts {
    /// All messages, of both sides.
    pub(crate) items: u64,
    /// Those of the client that pass.
    pub(crate) passed: u64,
    /// Those of the client in whose place a ping goes.
    pub(crate) pings: u64,
    /// Those of the bus that are shown, as they are or as an answer.
    pub(crate) shown: u64,
    /// Those of the bus in whose place another answer is shown.
    pub(crate) instead: u64,
    /// Those of the bus that are hidden.
    pub(crate) hidden: u64,
    /// The bytes for the bus.
    pub(crate) to_bus: u64,
    /// The bytes for the client.
    pub(crate) to_client: u64,
}

/// Whether a message passes.
fn is_passed(decision: Decision) -> bool
    ensures { result ≡ tells_passed decision }
{
    matches!(decision, Decision::Judged(Verdict::Pass))
}

/// Whether a ping goes in a message's place.
fn is_pinged(decision: Decision) -> bool
    ensures { result ≡ tells_pinged decision }
{
    matches!(decision, Decision::Judged(Verdict::Ping(..)))
}

/// Whether a message is shown, as it is or as an answer.
fn is_shown(decision: Decision) -> bool
    ensures { result ≡ tells_shown decision }
{
    matches!(
        decision,
        Decision::Shown(Showing::Whole) | Decision::Shown(Showing::Reply(_))
    )
}

/// Whether another answer is shown in a message's place.
fn is_instead(decision: Decision) -> bool
    ensures { result ≡ tells_instead decision }
{
    matches!(decision, Decision::Shown(Showing::Instead { .. }))
}

/// Whether a message is hidden.
fn is_hidden(decision: Decision) -> bool
    ensures { result ≡ tells_hidden decision }
{
    matches!(decision, Decision::Shown(Showing::Hide(_)))
}

/// A count that grew. A count that is spent counts as memory that is refused.
pub(crate) fn plus(count: u64, more: u64) -> Result<u64, AllocError>
    ensures { IfOk result (λ n. n ≡ count + more) }
{
    count.checked_add(more).ok_or(AllocError)
}

/// A count with one more if there is one.
fn plus_one_if(count: u64, is_one_more: bool) -> Result<u64, AllocError>
    ensures { IfOk result (λ n. n ≡ count + (if is_one_more then 1 else 0)) }
{
    plus(count, if is_one_more { 1 } else { 0 })
}

/// Pushes the name of a count, and the count.
fn push_count(line: &mut String, name: &str, count: u64) -> Result<(), AllocError>
    ensures { OnOk result (string_bytes line.new ≡ string_bytes line.old ++ name.now ++ decimal count) }
{
    let mut digits = Buffer::new();
    line.push_str(name)?;
    line.push_str(digits.format(count))
}

impl Counts {
    /// Nothing is counted yet.
    pub(crate) fn new() -> Counts
        ensures { result ≡ record { items = 0; passed = 0; pings = 0; shown = 0; instead = 0; hidden = 0; to_bus = 0; to_client = 0 } }
    {
        Counts {
            items: 0,
            passed: 0,
            pings: 0,
            shown: 0,
            instead: 0,
            hidden: 0,
            to_bus: 0,
            to_client: 0,
        }
    }

    /// Counts the message of a note by the decision on it.
    pub(crate) fn add(&mut self, note: Note) -> Result<(), AllocError>
        ensures { OnOk result (self.new ≡ with_decision note.decision self.old) }
    {
        let decision = note.decision();
        *self = Counts {
            items: plus(self.items, 1)?,
            passed: plus_one_if(self.passed, is_passed(decision))?,
            pings: plus_one_if(self.pings, is_pinged(decision))?,
            shown: plus_one_if(self.shown, is_shown(decision))?,
            instead: plus_one_if(self.instead, is_instead(decision))?,
            hidden: plus_one_if(self.hidden, is_hidden(decision))?,
            to_bus: self.to_bus,
            to_client: self.to_client,
        };
        Ok(())
    }

    /// The line that tells the counts. Its memory is taken at once; refused if memory is refused.
    pub(crate) fn line(&self, alloc: Global) -> Result<String, AllocError>
        ensures { IfOk result (λ line. string_bytes line ≡ line_of self.now) }
    {
        let mut line = String::with_capacity(alloc, LINE_ROOM)?;
        push_count(&mut line, "items ", self.items)?;
        push_count(&mut line, " passed ", self.passed)?;
        push_count(&mut line, " pings ", self.pings)?;
        push_count(&mut line, " shown ", self.shown)?;
        push_count(&mut line, " instead ", self.instead)?;
        push_count(&mut line, " hidden ", self.hidden)?;
        push_count(&mut line, " to-bus ", self.to_bus)?;
        push_count(&mut line, " to-client ", self.to_client)?;
        line.push_str("\n")?;
        Ok(line)
    }
}
