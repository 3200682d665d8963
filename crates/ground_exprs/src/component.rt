//! Components, by the numbers of their leaves.

use field_tables::TabledType;

/// A component: its type with its table, and the number of its first leaf.
#[derive(Drop)]
pub struct Component {
    pub typ: TabledType,
    pub first: u32,
}
