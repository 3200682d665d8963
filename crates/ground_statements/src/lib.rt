//! Statements of a module as ground statements: a connect for each leaf that a connect, an invalidate or a node may set, and the lists of
//! statements of whole bodies. Keeps the contract that, at every instant in range, they leave in each leaf what the statements of the text
//! leave in it, where the conditions around its declaration aren't asked, and read the same leaves; and that a node's leaves get the
//! values of its expression at its own place.
#![tactic(auto)]

pub mod body;
pub mod connects;
pub mod ground_bodies;
pub mod nodes;
pub mod sides;
pub mod targets;

pub use body::{Lowered, lower_body};
pub use connects::{connect, invalidate};
pub use nodes::node;
