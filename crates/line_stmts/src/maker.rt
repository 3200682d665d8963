//! What has been made of lines.

use bit_words::List;
use fir_tree::{Names, PrintItem};
use place_text::Place;

/// What a walk through the lines of a module has come to.
#[derive(Drop)]
pub struct Maker {
    /// The names of the text, and of the items so far.
    pub names: Names,
    /// The number of the module.
    pub module: u32,
    /// The places of its items.
    pub places: List<Place>,
    /// The items of the modules before it, and its own.
    pub prints: List<PrintItem>,
}
