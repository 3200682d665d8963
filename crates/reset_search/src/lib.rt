//! The resolution of `Reset`: the ground places of a circuit, which of them feed which, and what a `Reset` becomes; the places that a chain
//! of feeds leads to from an AsyncReset leaf, and the circuit in which each `Reset` there is an `AsyncReset`. Keeps the contracts that the
//! search finds exactly these places, and that the tree is the resolved circuit of what it found.
#![tactic(auto)]

pub mod copies;
pub mod ground;
pub mod laws;
pub mod masks;
pub mod rows;
pub mod search;
pub mod sources;
pub mod spot;
pub mod tree;
pub mod types;

pub use ground::{Ground, Word};
pub use spot::{Feed, Feeds, Reach, Spot};
