//! Leaves of the elements of vectors in one another.

use bit_words::List;

/// A vector on the way: how many elements it has, and how far their leaves stand from one another.
#[derive(Clone, Copy)]
pub struct Span {
    pub length: u128,
    pub stride: u32,
}

/// A leaf of the elements of vectors in one another: its number in the elements with the number 0, and the vectors, the outermost
/// first.
#[derive(Drop)]
pub struct Stretch {
    pub first: u32,
    pub spans: List<Span>,
}
