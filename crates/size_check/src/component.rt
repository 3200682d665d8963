//! A module's component.

use type_index::KnownType;

/// A component: its type, with what is known of it and of its parts.
#[derive(Drop)]
pub struct Component {
    pub known: KnownType,
}
