//! Trees of the shape of the bundles within a type.

use bit_words::{List, Shared};
use fir_types::FieldIndex;

/// What is known of the fields of a bundle.
#[cycle(table)]
#[derive(Drop)]
pub struct FieldTable {
    /// How many leaves the bundle has.
    pub leaves: usize,
    /// Where the fields stand by their names, each with the leaves before it.
    pub index: FieldIndex,
    /// What is known of the types of the fields, in order.
    pub inner: List<Inner>,
}

/// What is known of the type of a field.
#[cycle(table)]
#[derive(Drop)]
pub enum Inner {
    Nothing,
    Table(Shared<FieldTable>),
}
