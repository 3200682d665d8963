//! What the rows of a run write: a head, a text for each row, and an end. A row may end the run, and then later ones write nothing.
//!
//! Keeps the contract that the texts of rows which come in pieces are those of all rows, up to the first one that ends the run.
#![tactic(auto)]

pub mod tell;
pub mod telling;

pub use tell::{Lines, tell_rows};
pub use telling::{Spot, Teller};
