//! Where the widths of a component are held.

use crate::lists::Lists;
use crate::slot::Slot;
use bit_words::{Shared, SharedList};

/// The widths of a component's places: a list, or several lists, one behind another.
#[derive(Drop)]
pub enum Held {
    One(SharedList<Slot>),
    Many(Shared<Lists>),
}
