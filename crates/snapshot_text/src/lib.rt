//! The state of a run as a text, and reading it. Keeps the contract that a text is that of the state, byte by byte, that it is read back as
//! the state and as no other, and that another text is answered by its first fault.
#![tactic(auto)]

pub mod cells;
pub mod fault;
pub mod laws;
pub mod lines;
pub mod printing;
pub mod reading;
pub mod snapshot;
pub mod walking;

pub use fault::StateFault;
pub use printing::print_state;
pub use reading::read_state;
pub use snapshot::Snapshot;
