//! The circuit that the lines of a text stand for: each item is put as its statements at the beginning of its module and in its own
//! place. Keeps the contract that the circuit is exactly that of the definitions in `item_lines`.
#![tactic(auto)]

mod heads;
pub mod maker;
pub mod modules;
mod walk;

pub use modules::stand;
