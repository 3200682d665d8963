//! Cycles of a run on the circuit as it is written: the components of the run laid out in a list, sweeps over them, and what is held when
//! the next cycle begins. Keeps the contract that the list has every component of each module at each instance path once and nothing else,
//! that a sweep of values is exactly the sweep of the valuation that they give, and that the state that is held is the meaning's next one.
#![tactic(auto)]

pub mod asking;
pub mod declarations;
pub mod edge;
pub mod edge_memories;
pub mod finding;
pub mod layout;
pub mod places;
pub mod registers;
pub mod run;
pub mod sweep_memories;
pub mod sweeping;
pub mod tree_sites;

pub use declarations::{Declaration, Sort};
pub use edge::next_held;
pub use layout::{Layout, lay_out};
pub use run::{Held, Moment, Part, Run};
pub use sweeping::sweep;
