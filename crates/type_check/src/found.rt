//! What a check has come to.

use crate::fault::TypeFault;
use fir_types::FirType;

/// The types of nodes in text order, an empty bundle for each node that has none, and the faults.
#[derive(Drop)]
pub struct Findings {
    pub types: Vec<FirType>,
    pub faults: Vec<TypeFault>,
}
