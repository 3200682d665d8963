//! Types with the widths that were found, and those that were made once, to be taken again. Keeps the contract that the answer is
//! the type with these widths, in the order of its places.
#![tactic(auto)]

mod counting;
mod filling;
pub mod made;
mod sharing;

pub use filling::filled;
