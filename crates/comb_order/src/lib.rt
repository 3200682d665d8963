//! The assignments of a net in an order, each after all that it reads, or the first leaf that is on a combinational loop. Keeps the
//! contract that there is an order exactly where no leaf reads itself, directly or through others. What each leaf reads is a row of plain
//! numbers, in which the leaves that indices may pick are one vertex: the rows tell exactly what is read, and their graph is searched,
//! with the same contract.
#![tactic(auto)]

mod fault;
mod first;
mod graph;
mod graph_fault;
mod graph_ordering;
pub mod laws;
mod ordering;
mod parts;
mod searching;
pub mod spread;
mod tables;

pub use fault::OrderFault;
pub use graph_fault::GraphFault;
pub use ordering::order;
pub use spread::{Spread, push_driver, push_leaf, push_leaves, push_told, spread_of};
