//! What the names of a circuit mean: the declaration of each reference, the module of each instance, and the modules that
//! the main one reaches. Keeps the contract that the answer is the scope of the circuit, or its first fault.
#![tactic(auto)]

pub mod fault;
mod gather;
mod graph;
pub mod laws;
mod loops;
mod namespace;
mod parts;
mod references;
mod scoping;
mod search;
mod walk;
mod ways;

pub use fault::NameFault;
pub use scoping::resolve;
