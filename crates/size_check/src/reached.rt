//! What an expression leads to.

use type_index::Known as Part;

/// An expression, or a reference up to some suffix: its type, with what is known of it, and the greatest number of leaves that a node
/// of it has.
#[derive(Clone, Copy)]
pub struct Reached<'a> {
    pub part: Part<'a>,
    pub most: u128,
}
