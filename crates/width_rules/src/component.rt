//! What is known of a component, or of a part of one.

use crate::slot::Slot;
use bit_words::SharedList;
use fir_tree::Part;

/// A component or a part of one, with the widths of its type's places.
#[derive(Drop)]
pub struct Component {
    pub part: Part,
    pub slots: SharedList<Slot>,
}
