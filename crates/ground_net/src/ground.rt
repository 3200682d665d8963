//! Ground expressions.

use crate::numbers::Numbers;
use bit_words::{Kind, List, Value};
use prim_ops::Prim;

/// An expression over numbered leaves, whose value is one value.
#[cycle(ground)]
#[derive(Drop)]
pub enum Ground {
    /// This value.
    Const(Value),
    /// The value of the leaf of this number.
    Leaf(u32),
    /// An operation with its operands and its parameters.
    Op(Prim, List<Ground>, List<u128>),
    /// Conditions and values in turn, and one item at the end: the value behind the first condition that is 1, else the last
    /// item. With three items it is the plain choice of one of two.
    Mux(List<Ground>),
    /// An index, and the items to select from: 0 past the last one.
    Select(List<Ground>, List<Ground>),
    /// Of the leaves of these numbers the one that the indices pick, where they are those of a leaf of each element of vectors of
    /// these lengths in one another: 0 where an index isn't below its length.
    Indexed(Numbers, List<Ground>, List<u128>),
    /// A leaf of the element of a memory at an address: the numbers of the memory and of the leaf, and the address and a
    /// condition. It is 0 where the condition isn't 1 or the memory has no such element.
    Load(u32, u32, List<Ground>),
    /// One item, fitted to a kind and a width.
    Fit(Kind, u8, List<Ground>),
}
