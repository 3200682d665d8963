//! The leaves of a type: its parts that are no bundles and no vectors.

use crate::fir_type::FirType;
use bit_words::List;

/// A leaf of a type.
#[derive(Drop)]
pub struct TypeLeaf {
    /// The way to it from the whole type.
    pub path: List<PathStep>,
    /// Whether an odd number of `flip`s stand on the way.
    pub flip: bool,
    pub typ: FirType,
}

/// A step from a type to a part of it.
#[derive(Clone, Copy, PartialEq, Eq)]
pub enum PathStep {
    /// To the field of this name, by the number of its text.
    Field(u32),
    /// To the element of this number, from 0.
    Element(u32),
}
