//! The net of a flat circuit. Keeps the contract of `place_memories`: what a port reads in the same cycle is a load, what comes a
//! cycle later is captured, and all else is as in the flat circuit.
#![tactic(auto)]

pub mod drivers;
pub mod examples;
pub mod laws;
pub mod leaves;
pub mod memories;
pub mod placing;
pub mod reads;

pub use placing::place_memories;
