//! Leaves of memories' elements.

ghost use Rattle.std.specs.Prelude.{◌≤◌};

use bit_words::Kind;

/// A leaf of the elements of a memory: the memory's number, the leaf's own number, and its kind and width.
///
/// The width is at most 128.
#[derive(Clone, Copy)]
pub struct MemoryLeaf {
    pub memory: u32,
    pub number: u32,
    pub kind: Kind,
    pub width: u8,
    ghost narrow: { width ≤ 128 },
}
