//! An epoch of the codes of one cut, each code in a worker of its own, the workers in threads.
//!
//! Keeps the contract that an epoch gives the words and the outputs of the script of its codes, words and input rows, whichever
//! threads were refused, and a table that was opened for that script and closed behind its last cycle. It may wait; no clause
//! says that a worker that waits ever goes on, or that two workers run at once.
#![tactic(auto)]

mod collect;
mod crew;
mod crowd;
mod hire;
mod limit;
mod rows;
mod run;

pub use limit::ThreadLimit;
pub use run::{Epoch, Machine, run_epoch, run_epoch_within};
