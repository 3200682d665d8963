//! Laws of the measure of a circuit. Keeps the contract that of every accepted circuit the numbers that the measure tells are those of the
//! run: the leaves in flat order, the bytes of their names and of those of memory elements, and the words of the state; so its nets have
//! few leaves and few sinks. Examples of the flat size stand beside it. The functions here do nothing: their contracts are the laws.
#![tactic(auto)]

pub mod examples;
pub mod laws;
