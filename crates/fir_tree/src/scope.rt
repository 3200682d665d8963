//! What the stages behind the parser find out about a circuit.

use crate::circuit::Circuit;
use bit_words::{List, Shared};
use fir_types::FirType;

/// What the names of a circuit mean. Modules and declarations are numbered from 0 in text order.
#[derive(Drop)]
pub struct Scope {
    /// For each module, whether the main module reaches it through instances. It reaches itself.
    pub reached: List<bool>,
    /// For each reference in text order, the number of its declaration in its module, ports first.
    pub uses: List<u32>,
    /// For each `inst` in text order, the number of its module.
    pub targets: List<u32>,
}

/// Types, one for each of a list of nodes or declarations.
pub type Types = List<FirType>;

/// A circuit whose names and types have no fault.
#[derive(Drop)]
pub struct Checked {
    /// The circuit as its text spells it.
    pub circuit: Shared<Circuit>,
    /// The same circuit with each `Reset` resolved, which all later stages read. Where none becomes an `AsyncReset`, it is the same value in
    /// memory.
    pub resolved: Shared<Circuit>,
    pub scope: Scope,
    /// The type of each expression node in text order.
    pub types: Types,
}

/// A circuit whose widths are known.
///
/// In a module that the main module doesn't reach, a place whose width is over 128 has no number.
#[derive(Drop)]
pub struct Fitted {
    pub checked: Checked,
    /// The type of each declaration in text order over all modules, with its width.
    pub declared: Types,
    /// The type of each expression node in text order, with its width.
    pub nodes: Types,
}
