//! What the net of a circuit has is what the circuit has: settled values, next states, traces, and the first combinational loop; and what
//! holds of the design of an accepted circuit, whose flat order lists each leaf of the run once. Keeps the contracts of laws; the functions
//! do nothing.
#![tactic(auto)]

pub mod design_laws;
pub mod laws;
pub mod loop_laws;
