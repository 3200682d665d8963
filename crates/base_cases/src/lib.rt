//! Cases for the crates at the bottom: single calls whose answers are known from outside, on values that are made by hand; the shelves and
//! sinks that fail; lists of steps, and the table in threads.
#![tactic(auto)]

#[cfg(test)]
mod cases;
pub mod hand_codes;
pub mod hand_nets;

pub use hand_codes::{WordList, repeated};
pub use hand_nets::{choice, module_alone};
