//! Code that grows.

use bit_words::List;
use flat_code::{Instr, Port, Wide};

/// Code that grows by one instruction after the other. Each slot is written once.
#[derive(Drop)]
pub struct Draft {
    /// The instructions.
    pub instrs: List<Instr>,
    /// What ports of memories write.
    pub ports: List<Port>,
    /// The wide values.
    pub wides: List<Wide>,
    /// The number of slots.
    pub slots: u32,
    /// The number of shared words.
    pub words: u32,
}
