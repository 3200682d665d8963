//! The fitted types of components that are known, of their parts, and of choices between them. Keeps the contract that each is
//! the type with the widths of its places, and whether one of these is over the limit.
#![tactic(auto)]

pub mod choices;
pub mod fits;
pub mod reference;
pub mod widths;
