//! A circuit read from a laid list, or the first token that can't continue one: the whole text, its modules, and their lines, which are
//! statements with their blocks, memories, and the items `printf` and `stop`.
//! Keeps the contract that the answer is exactly that of the grammar: the circuit that the list spells in the version of its text, with
//! what its items stand for, or its first piece that can't continue a text or goes too deep, with its kind and place.
#![tactic(auto)]

pub mod block;
pub mod header;
mod item;
mod memory;
mod module;
pub mod parser;
mod statement;
pub mod symbols;
mod version;

pub use block::read_statements;
pub use header::{read_named, read_typed};
pub use parser::parse;
pub use symbols::{Expected, advance, fault_here, meets, take, take_close, take_open};
