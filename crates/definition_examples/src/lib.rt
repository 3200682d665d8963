//! Examples of what a circuit and a net mean, each against a reading that would be wrong: what statements are certain for and mention, what
//! memories write and show, what registers are made of, which input the clocks lead to, where the words of a state stand, and what a cycle
//! leaves behind. The circuits and nets stand in specs/; the functions here do nothing: their contracts are the facts.
#![tactic(auto)]

pub mod clocks;
pub mod memories;
pub mod net_examples;
pub mod registers;
pub mod runs;
pub mod sides;
