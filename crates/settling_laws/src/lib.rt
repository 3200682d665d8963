//! A circuit settles, on itself and without its net: its leaves are finitely many and read each other only, a settled valuation exists
//! and is found by sweeps over all leaves of the run, and what watched leaves have follows cycle by cycle. Keeps the contracts of laws;
//! the functions do nothing.
#![tactic(auto)]

pub mod leaf_reads;
pub mod sweep_laws;
pub mod sweep_runs;
