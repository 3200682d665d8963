//! Names as a circuit uses them.

use place_text::Place;

/// A use of a name: the number of its text in the circuit's names, and where it stands.
#[derive(Clone, Copy, PartialEq, Eq)]
pub struct Name {
    pub id: u32,
    pub place: Place,
}
