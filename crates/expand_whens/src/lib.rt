//! One driver for each leaf of each module, in place of statements that drive it under conditions. Keeps the contract of
//! `expand`: a driver has what the statements leave in its leaf, and mentions what the leaf's live connects do.
#![tactic(auto)]

pub mod circuit;
pub mod driver;
pub mod guard;
pub mod marks;
pub mod walk;

pub use circuit::expand;
