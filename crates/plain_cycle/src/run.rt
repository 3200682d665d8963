//! What a sweep goes over.

use crate::declarations::Declaration;
use bit_words::{List, Value};
use drive_check::leaf_set::LeafKey;
use fir_tree::Fitted;
use plain_values::Site;

/// A circuit as it runs: its components, beside each its declaration, and main's input leaves in the order of a row of inputs.
#[derive(Clone, Copy)]
pub struct Run<'a> {
    pub fitted: &'a Fitted,
    pub sites: &'a [Site],
    pub declared: &'a [Declaration<'a>],
    pub inputs: &'a [LeafKey],
}

/// A component of the run with its declaration.
#[derive(Clone, Copy)]
pub struct Part<'a> {
    pub site: &'a Site,
    pub declaration: Declaration<'a>,
}

/// What is kept from a cycle to the next, for each component of the run. What isn't there is 0.
#[derive(Drop)]
pub struct Held {
    /// For each register a value for each of its leaves.
    pub registers: List<List<Value>>,
    /// For each memory the elements that hold something, from the first one on: a value for each leaf of an element.
    pub contents: List<List<List<Value>>>,
    /// For each memory a value for each of its leaves: what its ports have read there.
    pub captured: List<List<Value>>,
}

/// A moment of a cycle: what the cycle began with, its row of inputs, and what the leaves of the run have.
#[derive(Clone, Copy)]
pub struct Moment<'a> {
    pub held: &'a Held,
    pub row: &'a [Value],
    pub values: &'a [List<Value>],
}
