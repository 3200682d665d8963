//! The types of a circuit: ground types, bundles and vectors, their leaves, and the ports and memories that have them. They are plain data:
//! contracts see a type as the tree that it is, and lists in it as lists. The calls count and list leaves, judge passive and equivalent
//! types, copy a type, make the bundles of instances and memories, find a bundle's fields by name in constant time, and number the places
//! that have widths. A law says what a set of keys holds once one more key was taken.
#![tactic(auto)]

pub mod bundles;
pub mod copying;
pub mod counting;
pub mod equivalence;
pub mod fir_type;
pub mod index;
pub mod keys;
pub mod laws;
pub mod leaf;
pub mod listing;
pub mod memory;
pub mod name;
pub mod passivity;
pub mod port;
pub mod spots;
pub mod wide;

pub use bundles::{address_width, depth_of, element_of, instance_type, memory_type};
pub use copying::copy;
pub use counting::{has_clock, has_signal, leaf_count};
pub use equivalence::{equivalent, field_of};
pub use fir_type::{Field, FirType, Shape};
pub use index::{FieldIndex, FieldPlace};
pub use keys::taken_keys_are_held;
pub use leaf::{PathStep, TypeLeaf};
pub use listing::leaves;
pub use memory::{MemLine, Memory, PortMode, Under};
pub use name::Name;
pub use passivity::passive;
pub use port::Port;
pub use spots::{flips_of, inside_lengths, size};
pub use wide::{field_by, index_among, index_of};
