//! What the stages that don't look at types find of a circuit, they find of its resolved circuit: names, scopes, and the numbers of operands.
//! The functions do nothing.
#![tactic(auto)]

pub mod laws;
