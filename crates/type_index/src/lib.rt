//! What is often asked of a type and of each of its parts, found once and then shared: the number of leaves, the bytes of the ways to
//! them, whether the part is passive, and the fields of a bundle by name; and numbers of the classes of equivalent types of a circuit, so
//! that two types are compared by their numbers. Keeps the contracts that each answer is that of the part, in a tree of the shape of the
//! type, and that two types that have numbers have the same one exactly where they are equivalent.
#![tactic(auto)]

pub mod circuits;
pub mod classes;
pub mod gathered;
pub mod keys;
pub mod known;
pub mod known_type;
pub mod making;
pub mod memories;
pub mod memory_classes;
pub mod noting;
pub mod numbering;
pub mod tree;

pub use classes::Classes;
pub use gathered::Gathered;
pub use known::{Known, KnownField};
pub use known_type::KnownType;
pub use memories::of_memory;
pub use tree::{Inside, TypeIndex};
