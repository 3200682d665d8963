//! What a survey has come to.

use crate::fault::WidthFault;
use bit_words::List;
use fir_tree::Part;
use fir_types::FirType;
use place_text::Place;
use prim_ops::Width;
use type_filling::made::Made;

/// The fitted types of expression nodes in text order, the faults, and the types at hand.
#[derive(Drop)]
pub struct Findings {
    pub nodes: Vec<FirType>,
    pub faults: Vec<WidthFault>,
    pub made: Made,
}

/// An expression: its place, its type with its flow, and the widths of its type's places.
#[derive(Drop)]
pub struct Surveyed {
    pub place: Place,
    pub part: Part,
    pub widths: List<Width>,
}
