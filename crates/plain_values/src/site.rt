//! Components of the run, and what a module sees of their values.

use bit_words::{List, Value};
use fir_types::{FirType, TypeLeaf};

/// A component of the module at an instance path.
#[derive(Drop)]
pub struct Site {
    /// The names of the instances that lead to its module, the outermost first.
    pub path: List<u32>,
    /// Its own name.
    pub name: u32,
    /// The name of the module that it makes, where it is an instance.
    pub target: Option<u32>,
    pub typ: FirType,
    /// The leaves of its type, in order.
    pub leaves: List<TypeLeaf>,
}

/// What the module at a path sees: all components of the run, and for each of them a value for each of its leaves.
#[derive(Clone, Copy)]
pub struct View<'a> {
    pub sites: &'a [Site],
    pub values: &'a [List<Value>],
    pub path: &'a [u32],
}
