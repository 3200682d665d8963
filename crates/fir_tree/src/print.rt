//! What a `printf` prints.

use bit_words::{List, Text};

/// How a value is printed.
#[derive(Clone, Copy, Debug, PartialEq, Eq)]
pub enum Radix {
    /// The bits.
    Bin,
    /// The integer in decimal digits, with a minus where it is below zero.
    Dec,
    /// The bits in hexadecimal digits.
    Hex,
    /// The lowest eight bits as one byte.
    Char,
}

/// A piece of a format.
#[derive(Debug, Drop)]
pub enum Piece {
    /// These bytes.
    Bytes(Text),
    /// The value of the next argument.
    Show(Radix),
}

/// A `printf` or a `stop` of a circuit.
#[derive(Debug, Drop)]
pub struct PrintItem {
    /// The number of its module.
    pub module: u32,
    /// Its number among the items of the module.
    pub number: u32,
    /// The code of a `stop`.
    pub stop: Option<u128>,
    /// What a `printf` prints.
    pub pieces: List<Piece>,
}
