//! What the judgement of clocks is made of: the links along which the Clock leaves of a module have their values, its registers, memory ports
//! and instances, and the search along links. Keeps the contracts that a walk through a module finds exactly those that its statements
//! have, and that a search finds exactly the leaves of the run that lead to its root. Laws say that these links are those of the circuit's
//! chains of clocks, and that what hangs on another clock is exactly a fault.
#![tactic(auto)]

mod drivers;
mod driving;
pub mod fault;
pub mod flat_key;
pub mod flat_set;
pub mod hung;
pub mod instances;
pub mod joining;
pub mod laws;
mod reach;
pub mod search;
pub mod walk;

pub use fault::ClockFault;
