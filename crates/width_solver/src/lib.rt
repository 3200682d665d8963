//! The rules of a circuit's widths, and the least widths that meet them: a variable for each place whose width is to be inferred, and for
//! each source of such a place the rule that the variable is at least the source's width. Keeps the contracts that the rules are exactly
//! those that the circuit's definition gives, and that the widths meet all rules and are, place by place, at or below every assignment
//! that does.
#![tactic(auto)]

mod driving;
mod formula;
mod found;
pub mod gathering;
mod readers;
mod rounds;
mod small;
mod solving;
pub mod walk;

pub use gathering::rules_of;
pub use solving::solve;
pub use width_rules::Widths;
