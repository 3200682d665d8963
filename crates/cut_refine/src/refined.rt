//! A refined cut with its table.

use bit_words::List;
use ground_net::Cut;

/// A sink, another part for it, and the greatest cost of a part once it is there.
#[derive(Clone, Copy)]
pub struct Move {
    pub sink: u32,
    pub target: u32,
    pub greatest: u32,
}

/// A cut that no move of one sink improves, its greatest cost, and a move for each sink of the first part that has it.
#[derive(Drop)]
pub struct Refined {
    pub cut: Cut,
    pub greatest: u32,
    pub table: List<Move>,
}
