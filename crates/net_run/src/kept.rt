//! What is kept from a cycle to the next.

use bit_words::{List, Value};

/// The values of the registers, of the memories' contents and of the captured reads, each in the order of their numbers. A memory has
/// its elements one after the other, each leaf by leaf.
#[derive(Drop)]
pub struct Kept {
    pub registers: List<Value>,
    pub contents: List<List<Value>>,
    pub captured: List<Value>,
}
