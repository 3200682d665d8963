//! What is kept from a cycle to the next: the next values of registers and of captured reads as expressions over the leaves of the cycle, and
//! the code that publishes them and what the ports of memories write. Keeps the contracts that these expressions have the next integers,
//! kinds and widths, and that exactly what a register or a memory leaves is published: of a register the words of its next integer, from its
//! own word on, in order; of a memory what its ports write, port by port in declared order, and then what its captured reads show next
//! (FIRRTL specification 3.0, "Registers" and "Memories").
#![tactic(auto)]

pub mod captures;
pub mod leaf;
pub mod leaves;
pub mod memories;
pub mod memory_sources;
pub mod next_reads;
pub mod places;
pub mod publishing;
pub mod registers;
pub mod writes;

pub use leaf::MemoryLeaf;
pub use memories::publish_memory;
pub use next_reads::captured_ground;
pub use places::{MemoryAt, PortAt, PortLeaf, memory_of, port_of};
pub use publishing::publish_registers;
pub use registers::next_ground;
pub use writes::publish_writes;
