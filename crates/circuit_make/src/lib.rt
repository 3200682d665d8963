//! The text of a generated circuit with its stimulus: a ring of registers, and a chain that sums them. Keeps the contract that
//! `make_joined` gives exactly that text, byte by byte.
#![tactic(auto)]

pub mod fault;
pub mod laws;
pub mod ring;

pub use fault::MakeFault;
pub use ring::make_joined;
