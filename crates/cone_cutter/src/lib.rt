//! The cut of a net into partitions: each sink's cone, the rule by which sinks are placed, and the assignments of each partition,
//! of which what several need is in each (Wang and Beamer, "RepCut"). Keeps the contract that the partitions are those of the
//! rule, and that each has exactly the union of its sinks' cones.
#![tactic(auto)]

mod arranging;
mod buckets;
mod cutting;
mod holding;
pub mod laws;
mod loads;
mod marking;
mod needing;
mod placing;
mod rows;
mod sinks;
mod sizing;
mod tallies;
mod walking;

pub use cutting::{cut, parts_of};
pub use loads::{count_shared, give, without_bit};
pub use placing::Placing;
pub use rows::NetRows;
pub use sinks::{SinkAt, sinks_of};
pub use walking::{no_stamps, walk_cone};
