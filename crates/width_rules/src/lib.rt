//! What the rules of a circuit's widths speak of: a variable for each place whose width is to be inferred, what is known of
//! components and their parts, and the widths of expressions as formulas over the variables. The crates above gather the rules, and
//! walk through the same text with the widths that are found.
#![tactic(auto)]

pub mod component;
pub mod gathering;
pub mod held;
pub mod indexed;
pub mod lists;
pub mod measuring;
pub mod memories;
pub mod pieces;
pub mod rule;
pub mod sizes;
pub mod slot;
pub mod steps;
pub mod walk;
pub mod widths;

pub use rule::{Formula, Rule, Rules};
pub use widths::Widths;
