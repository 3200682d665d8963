//! Values on the circuit as it is written, in a module that sees lists of values, by the tree's own meaning and without any lowering: of
//! expressions, of what statements leave in a leaf, of what a register holds next, and of what the ports of memories read and write. Keeps
//! the contract that each is exactly what the meaning of the tree gives.
#![tactic(auto)]

pub mod choosing;
pub mod driving;
pub mod evaluating;
pub mod fitting;
pub mod literals;
pub mod memory;
pub mod operating;
pub mod reading;
pub mod register;
pub mod setting;
pub mod sights;
pub mod site;
pub mod spot;
pub mod tree_drives;
pub mod writing;

pub use driving::left_in_leaf;
pub use evaluating::{evaluate, spot_of};
pub use fitting::{fitted_value, holds, zero};
pub use memory::{HeldPort, SeenMemory, stored_leaves};
pub use reading::read_by;
pub use register::{Register, Reset, next_of_register};
pub use sights::{seen, value_beside};
pub use site::{Site, View};
pub use spot::HeldSpot;
pub use writing::write;
