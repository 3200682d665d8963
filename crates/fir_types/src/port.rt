//! The ports of a module.

use crate::fir_type::FirType;
use crate::name::Name;

/// A port of a module.
#[derive(Drop)]
pub struct Port {
    /// An `output`; else an `input`.
    pub output: bool,
    pub name: Name,
    pub typ: FirType,
}
