//! The stimulus of a run: what a text sets main's inputs to, cycle by cycle, and the rows of values that they have then.
//! Keeps the contract that a text is answered by the one stimulus that it writes, or by its first fault.
#![tactic(auto)]

pub mod fault;
mod forms;
pub mod input_rows;
mod judging;
pub mod laws;
mod names;
mod progress;
pub mod reading;
pub mod stimulus;
mod words;

pub use fault::StimFault;
pub use input_rows::rows;
pub use reading::read_stimulus;
pub use stimulus::{Setting, Stimulus};
