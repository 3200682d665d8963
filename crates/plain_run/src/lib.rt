//! A plain, slow evaluator of a circuit as it is written: a second witness of a compiled run, which shares nothing with the lowering.
//! Keeps the contract that its rows are those of a run of the circuit, each of a settled valuation, whichever of its leaves are watched.
#![tactic(auto)]

pub mod flat_order;
pub mod laws;
pub mod leaves;
pub mod running;
pub mod settling;

pub use running::plain_run;
pub use settling::settled;
