//! The barrier of a parallel run as plain data: workers that evaluate a cycle in one phase and publish it in the next.
//!
//! `begin` gives the first state, `apply` takes one step where its condition holds, and `run_steps` takes a list of
//! steps. Whatever the steps are, the state is sound for its script; the laws say what that gives to a worker that
//! loads a word. There are no threads here: another crate takes soundness as the rule of a table of atomic words.
#![tactic(auto)]

mod laws;
mod model;
mod shape;
mod steps;

pub use laws::{ends_with_the_last, loads_the_cycle, stays_sound};
pub use model::{PhaseState, Publication, Script, Step, View};
pub use shape::is_script;
pub use steps::{apply, begin, run_steps};
