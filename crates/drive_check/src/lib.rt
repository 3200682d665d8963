//! Which leaves of a circuit are driven whatever the values are. Keeps the contract that `covered` refuses a circuit exactly
//! where a leaf that must be driven may be undriven, with the first such place.
#![tactic(auto)]

mod covering;
pub mod fault;
pub mod laws;
pub mod leaf_set;
pub mod listing;
pub mod module_types;
pub mod names;
pub mod noted;
pub mod spot;
mod undriven;
mod walk;

pub use covering::covered;
pub use fault::DriveFault;
