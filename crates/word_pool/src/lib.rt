//! Memory of words: slots, numbers that are taken and given back, and a region, one block that is cut into frames. Keeps the
//! contracts that `take` gives the least number that isn't live, and that frames stand side by side in their block.
#![tactic(auto)]

pub mod fault;
pub mod laws;
pub mod region;
pub mod slots;

pub use fault::PoolFault;
pub use region::Region;
pub use slots::Slots;
