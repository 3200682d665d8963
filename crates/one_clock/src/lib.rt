//! Whether a circuit has one clock. Keeps the contract that `clocks` refuses a circuit exactly where the clock of a register or of a
//! memory's port doesn't lead to main's first Clock input at some path, with the first such place.
#![tactic(auto)]

pub mod chains;
mod checking;
pub mod judging;
pub mod module_clocks;
pub mod places;
pub mod table;

pub use checking::clocks;
