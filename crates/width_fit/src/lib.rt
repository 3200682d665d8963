//! The fitted types of a circuit under the least widths, and the first fault of its widths. Keeps the contract that the answer
//! is the types with these widths, or the first fault.
#![tactic(auto)]

pub mod fault;
mod faults;
mod found;
mod given;
mod instances;
mod judging;
pub mod laws;
mod memories;
mod survey;
mod telling;
mod walk;
mod wide;
mod widths;

pub use fault::WidthFault;
pub use judging::judge;
