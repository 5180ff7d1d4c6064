//! What a session does with raw bytes: if messages aren't filtered, each side's bytes are sent to the other side
//! unchanged.
ghost use Rattle.std.specs.Prelude.{◌≡◌, [], false, None, IfOk, OnOk, OnErr};
ghost use Rattle.proxy_core.specs.Streams.{InMessages};
ghost use Rattle.proxy_core.specs.Sessions.{stream_of};
ghost use Rattle.proxy_core.specs.Steps.{with_left, with_raw, step_of, Did, Stepped, IsLight};

use super::Session;
use bytes::Bytes;
use policy_args::Policy;
use policy_view::{End, Side};
use std::alloc::AllocError;

impl Session {
    /// Takes all bytes that are left of a side's stream.
    fn take_left(&mut self, side: Side) -> Result<Bytes, AllocError>
        requires { (stream_of side self.old).phase ≡ InMessages }
        ensures bytes { IfOk result (λ bytes. bytes ≡ (stream_of side self.old).left) }
        ensures ok { OnOk result (self.new ≡ with_left side [] self.old) }
        ensures err { OnErr result (self.new ≡ self.old) }
    {
        match side {
            Side::Client => self.client.left(),
            Side::Bus => self.bus.left(),
        }
    }

    /// Sends bytes of a side to the other.
    fn put_raw(&mut self, side: Side, bytes: Bytes) -> bool
        ensures { Did (with_raw side bytes self.old) self.old self.new result }
    {
        let done = match side {
            Side::Client => self.to_bus.push(bytes),
            Side::Bus => self.to_client.push(bytes),
        };
        self.goes_on(done)
    }

    /// Sends all that is left of a side's stream to the other side, unchanged. Returns that no more may follow.
    pub(super) fn pass_raw(&mut self, policy: &Policy, side: Side) -> bool
        requires running { self.old.ended ≡ None }
        requires messages { (stream_of side self.old).phase ≡ InMessages }
        requires unfiltered { self.old.mode.filter ≡ false }
        ensures step { Stepped (step_of policy.now side self.old) self.old self.new result }
        ensures light { IsLight policy.now 0 self.old self.new }
    {
        // (only the contract needs the policy)
        let _policy = policy;
        match self.take_left(side) {
            Ok(bytes) => {
                self.put_raw(side, bytes);
            }
            Err(_) => self.end_with(End::Memory),
        }
        false
    }
}
