//! What is known of the modules of a circuit.

use bit_words::List;
use fir_tree::Fitted;
use std::collections::BTreeMap;

/// What a component makes.
#[derive(Clone, Copy, Debug)]
pub enum Makes {
    /// So many leaves.
    Leaves(u32),
    /// An instance of the module of this number.
    Module(u32),
}

/// A component of a module.
#[derive(Clone, Copy, Debug)]
pub struct Row {
    /// The number of its name.
    pub name: u32,
    pub makes: Makes,
}

/// What is known of the modules of a circuit, by their numbers.
#[derive(Drop)]
pub struct Table<'a> {
    pub fitted: &'a Fitted,
    /// Of each module that main reaches its components, in text order.
    pub rows: Vec<List<Row>>,
    /// The numbers of its items among those of the circuit.
    pub own: Vec<List<usize>>,
    /// The numbers of names by their texts, where a `u32` holds them.
    pub numbers: BTreeMap<&'a [u8], u32>,
}
