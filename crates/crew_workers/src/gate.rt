//! What each worker calls before an evaluation.

/// Has no meaning: a call changes nothing that a contract speaks of.
pub trait Gate {
    /// Worker `worker` is about to evaluate the cycle.
    fn enter(&self, worker: u32, cycle: u64);
}

/// Does nothing.
#[derive(Drop)]
pub struct OpenGate;

impl Gate for OpenGate {
    fn enter(&self, _worker: u32, _cycle: u64) {}
}
