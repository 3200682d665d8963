//! The net of a run: ground expressions and statements over numbered leaves, what they leave in a leaf and what the leaf reads, and the
//! circuits, nets, orders and cuts that are made of them, as plain data; and what a net means, cycle by cycle: the kinds and widths of
//! expressions, the values that settle in a cycle, the next state, well formed nets, and the words of a state. Keeps the contracts
//! of copies, of new numbers, of what leaves read, and of the leaves by which a run is fed and watched, and laws of the definitions.
#![tactic(auto)]

pub mod circuit;
pub mod copying;
pub mod ground;
pub mod laws;
pub mod mention_laws;
pub mod naming;
pub mod net;
pub mod new_numbers;
pub mod numbers;
pub mod ports;
pub mod reading;
pub mod renumbering;
pub mod stretch;

pub use circuit::{
    DrivenCircuit, DrivenModule, FlatCircuit, GroundArm, GroundCircuit, GroundInstance, GroundLeaf,
    GroundMemory, GroundModule, GroundRole, GroundStmt,
};
pub use copying::{
    copied, copied_all, copied_elements, copied_instances, copied_leaf, copied_leaves,
    copied_memories, copied_port, copied_ports, copied_register, copied_registers, copied_text,
};
pub use ground::Ground;
pub use naming::find_leaf;
pub use net::{
    Cut, CutPart, ElementLeaf, Leaf, Net, NetMemory, NetPort, NetRead, NetRegister, NetReset,
    NetWrite, Ordered, PortLeaf, Ports, Role,
};
pub use new_numbers::NewNumbers;
pub use numbers::Numbers;
pub use ports::ports_of;
pub use reading::{push_mentions, reads_of};
pub use renumbering::renumbered;
pub use stretch::{Span, Stretch};
