//! A run of a circuit, written line by line: the names of the watched leaves, and then a line for each cycle.
//! Keeps the contract that what is written is the trace of the circuit under the stimulus, or after a fault a prefix of it.
#![tactic(auto)]

mod cycles;
pub mod fault;
pub mod laws;
pub mod lines;
mod plan;
pub mod running;

pub use fault::RunFault;
pub use running::simulate;
