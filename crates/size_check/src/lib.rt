//! The size of a circuit that runs: its flat leaves, the bytes of their names, its flat size, the words of its state, and its
//! instance paths. Keeps the contract that `flat_measure` refuses a circuit exactly where it passes a limit, and else tells the
//! exact numbers.
#![tactic(auto)]

mod calls;
mod component;
pub mod fault;
mod known;
pub mod laws;
pub mod measure;
mod measuring;
mod owns;
mod reached;
mod rounds;
pub mod sums;
mod weights;

pub use fault::SizeFault;
pub use measure::Measure;
pub use measuring::flat_measure;
