//! The refined cut of a net: from the cut of the rule on, one sink at a time is moved to another part as long as that lowers the greatest
//! number of assignments that a part has. Keeps the contract that each move is the best one, that at the end no move of any sink lowers
//! that number, which a table of moves shows, and that the text of a circuit's refined cut is one.
#![tactic(auto)]

mod by_rule;
mod counting;
mod fullest;
pub mod laws;
mod look;
mod refined;
mod refining;
mod standing;
mod targets;
mod walker;

pub use by_rule::{refined_cut, refined_of};
pub use refined::{Move, Refined};
pub use refining::refine;
