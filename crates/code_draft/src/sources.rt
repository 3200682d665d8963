//! Where the values of leaves and of memories' elements are found.

ghost use Rattle.std.specs.Prelude.{◌≤◌};

use bit_words::{Kind, List, Value};
use flat_code::{Location, Region};

/// A value that is kept outside the frame, under a number.
///
/// The width is at most 128.
#[derive(Clone, Copy)]
pub struct Kept {
    pub kind: Kind,
    pub width: u8,
    pub number: u32,
    ghost narrow: { width ≤ 128 },
}

/// Where the value of a leaf is found.
#[derive(Clone, Copy)]
pub enum Source {
    /// In the shared words, from the word of this number on.
    Word(Kept),
    /// It is the input of this number.
    Input(Kept),
    /// In the frame.
    Frame(Location),
    /// It is always this.
    Constant(Value),
}

/// Where a leaf of the elements of a memory is found.
///
/// The width is at most 128.
#[derive(Clone, Copy)]
pub struct Elements {
    pub kind: Kind,
    pub width: u8,
    pub region: Region,
    ghost narrow: { width ≤ 128 },
}

/// The sources of leaves, by their numbers, and of memories, leaf by leaf of an element.
#[derive(Drop)]
pub struct Sources {
    pub leaves: List<Option<Source>>,
    pub memories: List<List<Elements>>,
}
