//! What a line of a state is about, and where a walk over the lines of a net stands.

ghost use Rattle.std.specs.Prelude.{◌≤◌};

use bit_words::Kind;
use ground_net::Net;

/// What a line is about: its word, its name, and the kind and width of its value.
///
/// The width is at most 128.
#[derive(Clone, Copy)]
pub struct CellLine<'a> {
    pub word: &'a [u8],
    pub name: &'a [u8],
    /// Which element of the memory of this name, and which leaf of it.
    pub element: Option<ElementOf<'a>>,
    pub kind: Kind,
    pub width: u8,
    ghost narrow: { width ≤ 128 },
}

/// The number of an element, and the way to a leaf in it.
#[derive(Clone, Copy)]
pub struct ElementOf<'a> {
    pub index: u128,
    pub path: &'a [u8],
}

/// Which lines of a net are still ahead: from a register on, from a leaf of an element of a memory on, and the captured reads from a
/// leaf on.
#[derive(Clone, Copy)]
pub struct Cursor<'a> {
    pub net: &'a Net,
    pub register: usize,
    pub memory: usize,
    pub element: u128,
    pub leaf: usize,
    pub read: usize,
}
