//! Gates that jobs pass before they begin.

/// A gate that each job enters once. It may hold a job up. No contract speaks of what it changes; of `enter` it is only
/// known that it returns.
pub trait Gate {
    /// Enters the gate, for the job with this number, from 1.
    fn enter(&self, job: u32);
}

/// A gate that holds no job up.
#[derive(Clone, Copy, Debug, PartialEq, Eq)]
pub struct OpenGate;

impl Gate for OpenGate {
    /// Returns at once.
    fn enter(&self, _job: u32) {}
}
