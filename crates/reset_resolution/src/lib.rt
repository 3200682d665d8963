//! The feeds of a circuit, and the circuit in which each `Reset` is resolved. Keeps the contract that the answer is the resolved circuit, and
//! that what feeds what is what the definition says.
#![tactic(auto)]

pub mod component;
pub mod gathering;
pub mod grounds;
pub mod memories;
pub mod ranges;
pub mod reaching;
pub mod resolving;
pub mod steps;
pub mod walk;

pub use resolving::{resolve_resets, resolved_circuit};
