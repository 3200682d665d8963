//! A plain run of a net: what is kept before the first cycle, the values that settle in a cycle, and what is kept after it.
//! Keeps the contract that the values are settled, and that what is kept stands for the next state.
#![tactic(auto)]

pub mod advancing;
pub mod beginning;
pub mod capturing;
pub mod evaluating;
pub mod kept;
pub mod seen;
pub mod settling;
pub mod writing;

pub use advancing::{advance, registers_after};
pub use beginning::begin;
pub use evaluating::evaluate;
pub use kept::Kept;
pub use seen::Seen;
pub use settling::settle;
