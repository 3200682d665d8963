//! Parts of components, as numbers of leaves.

use bit_words::List;
use ground_net::Ground;

/// A dynamic index on the way to a part: it picks one of so many elements, whose leaves stand a stride apart.
#[derive(Drop)]
pub struct Pick {
    pub index: Ground,
    pub length: u128,
    pub stride: u32,
}

/// A part of a component: the number of its first leaf where each index on the way is 0, and these indices, the outermost first.
#[derive(Drop)]
pub struct Part {
    pub first: u32,
    pub picks: List<Pick>,
}
