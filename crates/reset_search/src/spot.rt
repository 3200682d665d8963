//! The ground places of a circuit, and which of them feed which (FIRRTL specification 3.0, "Reset Type").

use bit_words::{List, SharedList};
use fir_types::FirType;

/// A ground place of a circuit. All instances of a module share the places of its ports, and all elements of a vector those of the element.
#[derive(Clone, Copy)]
pub enum Spot {
    /// The one AsyncReset leaf that each `asAsyncReset` counts as.
    Cast,
    /// The place of the text with this number: the ports of all modules come first, then the bodies, in text order.
    Declared(u32),
    /// The place of a node with this number, in text order.
    OfNode(u32),
}

/// One place feeds another.
#[derive(Clone, Copy)]
pub struct Feed {
    pub from: Spot,
    pub to: Spot,
}

/// What a component or an expression comes to: its type, and for each ground place of that the one of the circuit. What is no reference and
/// no `asAsyncReset` has no places.
#[derive(Drop)]
pub struct Reach {
    pub typ: FirType,
    pub spots: SharedList<Spot>,
}

/// What feeds what in a circuit, and its AsyncReset leaves.
#[derive(Drop)]
pub struct Feeds {
    pub feeds: List<Feed>,
    pub asyncs: List<Spot>,
}
