//! The type of each expression, and the first fault of a circuit's types. Keeps the contract that the answer is the list of
//! all types in text order, or the first fault.
#![tactic(auto)]

mod checking;
mod conditions;
mod declarations;
pub mod fault;
mod found;
mod judge;
pub mod laws;
mod memory;
mod reached;
mod rules;
mod steps;
mod texts;
mod walk;
mod whole;

pub use checking::check;
pub use fault::TypeFault;
