//! The top call `run_program`: it reads what the words name from a shelf, and writes the answer to a sink.
//!
//! Its clauses say for every command line and every text which status and which bytes come. What is to be said, or which circuit is
//! to be run under which stimulus, is decided before anything is written.
#![tactic(auto)]

pub mod example;
mod judge;
pub mod laws;
mod top;

pub use top::run_program;
