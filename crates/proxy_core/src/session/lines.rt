//! What a session does with a line of the authentication protocol: each is sent to the other side, whole. If memory for
//! a line is refused, it has no effect.
ghost use Rattle.std.specs.Prelude.{◌≡◌, ◌∷◌, ◌++◌, [], true, false, None, OnOk, OnErr, take};
ghost use Rattle.sasl_watch.specs.Lines.{for_bus as for_the_bus};
ghost use Rattle.policy_view.specs.declared.Side.TheVariants as Side;
ghost use Rattle.policy_view.specs.declared.visible.Visible.TheVariants as element;
ghost use Rattle.policy_view.specs.declared.End.TheVariants.{Memory};
ghost use Rattle.proxy_core.specs.Streams.{is_in_lines as in_lines};
ghost use Rattle.proxy_core.specs.Messages.{ended_by, with_elements};
ghost use Rattle.proxy_core.specs.Steps.{step_of, in_messages, unanswered as unanswered_lines, has_begun as begun, Did, MayHaveKept, Stepped, IsLight};

use super::Session;
use bytes::Bytes;
use policy_args::Policy;
use policy_view::{End, Fault, Side};
use sasl_watch::{NextLine, for_bus};
use std::alloc::AllocError;

impl Session {
    /// Goes on if memory sufficed, and ends the session if it was refused.
    pub(super) fn goes_on(&mut self, done: Result<(), AllocError>) -> bool
        ensures ok { OnOk done ((result ≡ true) × (self.new ≡ self.old)) }
        ensures err { OnErr done ((result ≡ false) × (self.new ≡ ended_by Memory self.old)) }
    {
        if done.is_err() {
            self.end_with(End::Memory);
            return false;
        }
        true
    }

    /// Goes on if memory sufficed for a line. If it was refused, the line is no longer kept, and the session ends.
    fn goes_on_from(&mut self, kept: usize, done: Result<(), AllocError>) -> bool
        ensures ok { OnOk done ((result ≡ true) × (self.new ≡ self.old)) }
        ensures err { OnErr done ((result ≡ false) × (self.new ≡ ended_by Memory (record self.old { visible = take kept self.old.visible }))) }
    {
        if done.is_err() {
            self.keep_first(kept);
            self.end_with(End::Memory);
            return false;
        }
        true
    }

    /// Keeps the client's NUL, and appends it to what waits for the bus.
    fn put_nul(&mut self) -> Result<(), AllocError>
        ensures ok { OnOk result (self.new ≡ with_elements (element.Line Side.Client (0 ∷ []) ∷ []) (record self.old { bus_side = self.old.bus_side ++ 0 ∷ [] })) }
        ensures err { OnErr result (MayHaveKept self.old self.new) }
    {
        self.keep_line(Side::Client, b"\0")?;
        self.to_bus.push_slice(b"\0")
    }

    /// Sends the client's NUL to the bus.
    fn send_nul(&mut self) -> bool
        ensures { Did (with_elements (element.Line Side.Client (0 ∷ []) ∷ []) (record self.old { bus_side = self.old.bus_side ++ 0 ∷ [] })) self.old self.new result }
    {
        let kept = self.kept();
        let done = self.put_nul();
        self.goes_on_from(kept, done)
    }

    /// Keeps a line of the client, and appends what the bus must get of it to what waits for the bus.
    fn put_line(&mut self, line: &Bytes) -> Result<(), AllocError>
        ensures ok { OnOk result (self.new ≡ with_elements (element.Line Side.Client line.now ∷ []) (record self.old { bus_side = self.old.bus_side ++ for_the_bus line.now })) }
        ensures err { OnErr result (MayHaveKept self.old self.new) }
    {
        self.keep_line(Side::Client, line.as_slice())?;
        let out = for_bus(self.alloc, line)?;
        self.to_bus.push(out)
    }

    /// Sends a line of the client to the bus.
    fn send_line(&mut self, line: &Bytes) -> bool
        ensures { Did (with_elements (element.Line Side.Client line.now ∷ []) (record self.old { bus_side = self.old.bus_side ++ for_the_bus line.now })) self.old self.new result }
    {
        let kept = self.kept();
        let done = self.put_line(line);
        self.goes_on_from(kept, done)
    }

    /// Keeps BEGIN, appends it to what waits for the bus, and goes on with messages. The line is dropped before the
    /// framer gets what follows it, so that those bytes have one owner and aren't copied.
    fn put_begin(&mut self, line: Bytes) -> Result<(), AllocError>
        requires { in_lines self.old.client.phase ≡ true }
        ensures ok { OnOk result (self.new ≡ with_elements (element.Line Side.Client line ∷ []) (record self.old { bus_side = self.old.bus_side ++ for_the_bus line; client = in_messages self.old.client })) }
        ensures err { OnErr result (MayHaveKept self.old self.new) }
    {
        self.keep_line(Side::Client, line.as_slice())?;
        let out = for_bus(self.alloc, &line)?;
        drop(line);
        self.client.begin_messages()?;
        self.to_bus.push(out)
    }

    /// Sends BEGIN to the bus, and goes on with messages.
    fn send_begin(&mut self, line: Bytes) -> bool
        requires { in_lines self.old.client.phase ≡ true }
        ensures { Did (with_elements (element.Line Side.Client line ∷ []) (record self.old { bus_side = self.old.bus_side ++ for_the_bus line; client = in_messages self.old.client })) self.old self.new result }
    {
        let kept = self.kept();
        let done = self.put_begin(line);
        self.goes_on_from(kept, done)
    }

    /// Keeps a line of the bus, and appends it to what waits for the client.
    fn put_bus_line(&mut self, line: &Bytes) -> Result<(), AllocError>
        ensures ok { OnOk result (self.new ≡ with_elements (element.Line Side.Bus line.now ∷ []) (record self.old { client_side = self.old.client_side ++ line.now })) }
        ensures err { OnErr result (MayHaveKept self.old self.new) }
    {
        self.keep_line(Side::Bus, line.as_slice())?;
        self.to_client.push_slice(line.as_slice())
    }

    /// Sends a line of the bus to the client.
    fn show_line(&mut self, line: &Bytes) -> bool
        ensures { Did (with_elements (element.Line Side.Bus line.now ∷ []) (record self.old { client_side = self.old.client_side ++ line.now })) self.old self.new result }
    {
        let kept = self.kept();
        let done = self.put_bus_line(line);
        self.goes_on_from(kept, done)
    }

    /// Goes on with messages after the bus's lines.
    fn end_bus_lines(&mut self) -> bool
        requires { in_lines self.old.bus.phase ≡ true }
        ensures { Did (record self.old { bus = in_messages self.old.bus }) self.old self.new result }
    {
        let done = self.bus.begin_messages();
        self.goes_on(done)
    }

    /// The number of the client's lines that the bus hasn't answered.
    fn unanswered(&self) -> u64
        ensures { result ≡ unanswered_lines self.now }
    {
        self.client.lines().saturating_sub(self.bus.lines())
    }

    /// Whether BEGIN was seen.
    fn has_begun(&self) -> bool
        ensures { result ≡ begun self.now }
    {
        !self.client.is_in_lines()
    }

    /// Processes the first line of the client's stream, or ends the session if there is a fault. Returns whether more
    /// may follow.
    pub(super) fn process_client_line(&mut self, policy: &Policy) -> bool
        requires running { self.old.ended ≡ None }
        requires lines { in_lines self.old.client.phase ≡ true }
        ensures step { Stepped (step_of policy.now Side.Client self.old) self.old self.new result }
        ensures light { IsLight policy.now 0 self.old self.new }
    {
        // (only the contract needs the policy)
        let _policy = policy;
        match self.client.next_client_line() {
            Ok(NextLine::Nul) => self.send_nul(),
            Ok(NextLine::Line(line)) => self.send_line(&line),
            Ok(NextLine::Begin(line)) => self.send_begin(line),
            Ok(NextLine::Done) => unreachable!(),
            Ok(NextLine::Incomplete) => false,
            Ok(NextLine::Bad(fault)) => {
                self.end_with(End::ClientMalformed(Fault::Line(fault)));
                false
            }
            Err(_) => {
                self.end_with(End::Memory);
                false
            }
        }
    }

    /// Processes the first line of the bus's stream, or the end of its lines; or ends the session if there is a fault.
    /// Returns whether more may follow.
    pub(super) fn process_bus_line(&mut self, policy: &Policy) -> bool
        requires running { self.old.ended ≡ None }
        requires lines { in_lines self.old.bus.phase ≡ true }
        ensures step { Stepped (step_of policy.now Side.Bus self.old) self.old self.new result }
        ensures light { IsLight policy.now 0 self.old self.new }
    {
        // (only the contract needs the policy)
        let _policy = policy;
        let (unanswered, begun) = (self.unanswered(), self.has_begun());
        match self.bus.next_bus_line(unanswered, begun) {
            Ok(NextLine::Line(line)) => self.show_line(&line),
            Ok(NextLine::Done) => self.end_bus_lines(),
            Ok(NextLine::Nul | NextLine::Begin(_)) => unreachable!(),
            Ok(NextLine::Incomplete) => false,
            Ok(NextLine::Bad(fault)) => {
                self.end_with(End::BusMalformed(Fault::Line(fault)));
                false
            }
            Err(_) => {
                self.end_with(End::Memory);
                false
            }
        }
    }
}
