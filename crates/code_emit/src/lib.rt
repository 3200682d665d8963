//! The code of expressions: flat instructions for the value of an expression, with slots of its own for each value on the way, single
//! instructions on words where a few of them suffice. Keeps the contract that in every frame that solves the code the location has the value of
//! the expression at every instant that shows what the sources show (FIRRTL specification 3.0, "Expressions" and "Primitive Operations").
#![tactic(auto)]

pub mod chains;
pub mod choices;
pub mod emission;
pub mod fits;
pub mod forms;
pub mod laws;
pub mod nested;
pub mod on_one;
pub mod on_two;
pub mod operations;
pub mod pairs;
pub mod signed;
pub mod sums;
pub mod values;
pub mod ways;

pub use choices::choice_word;
pub use emission::emit;
pub use fits::fit_word;
pub use operations::operation_word;
pub use sums::lowest_word;
pub use ways::Measure;
