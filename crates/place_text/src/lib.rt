//! Places in a text, the line that names a fault at its place, and the order of faults: by line, then by column, and at one place by rank.
//!
//! The place of an offset is a fact about the text before it, and `place_of` keeps it for every text; `fault_line` gives
//! every byte of the line. What the faults of each stage tell is a trait, `Fault`, and `earliest` keeps the contract that it
//! answers a fault of the list which no other one of the list comes before.
#![tactic(auto)]

pub mod fault;
pub mod laws;
pub mod line;
pub mod order;
pub mod place;

pub use fault::Fault;
pub use line::fault_line;
pub use order::{earliest, is_not_later};
pub use place::{Place, TextPart, place_of};
