//! What a run goes by.

use ground_net::{Ordered, Ports};
use net_run::Kept;
use stimulus::Stimulus;

/// A net in its order, the leaves by which it is fed and watched, and its stimulus.
#[derive(Clone, Copy)]
pub struct Plan<'a> {
    pub ordered: &'a Ordered,
    pub ports: &'a Ports,
    pub stimulus: &'a Stimulus,
}

/// What is kept after some cycles, and the lines of these cycles.
#[derive(Drop)]
pub struct Told {
    pub kept: Kept,
    pub lines: Vec<u8>,
}
