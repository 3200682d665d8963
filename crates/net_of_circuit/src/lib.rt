//! What it is to be the ground statements of a circuit, and the net of one: leaf by leaf, in flat order, what is left in it, what it
//! reads, what a register takes, and the ports of a memory. The definitions stand in specs/; the functions here do nothing: their
//! contracts are laws of the definitions.
#![tactic(auto)]

pub mod ground_of_circuit;
pub mod laws;
