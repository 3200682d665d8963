//! What a run goes by.

use ground_net::{Cut, Ordered, Ports};
use stimulus::Stimulus;

/// A net in its order, the leaves by which it is fed, its stimulus, the numbers of the leaves that are watched, and how many workers run
/// it, from 1 to 64.
#[derive(Clone, Copy)]
pub struct Plan<'a> {
    pub ordered: &'a Ordered,
    pub ports: &'a Ports,
    pub stimulus: &'a Stimulus,
    pub watch: &'a [u32],
    pub workers: u32,
}

/// The same with the cut that is run, which has 1 to 64 parts, a worker for each.
#[derive(Clone, Copy)]
pub struct CutPlan<'a> {
    pub ordered: &'a Ordered,
    pub ports: &'a Ports,
    pub stimulus: &'a Stimulus,
    pub watch: &'a [u32],
    pub cut: &'a Cut,
}

/// What starts the threads and waits, and the gate that each worker enters before it evaluates.
#[derive(Drop)]
pub struct Host<'a, R, G> {
    pub rt: &'a R,
    pub gate: &'a G,
}
