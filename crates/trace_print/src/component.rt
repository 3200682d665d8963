//! The declarations that a listing names.

/// A declaration of a module.
#[derive(Clone, Copy)]
pub struct Component {
    /// The number of the name of the module that holds it.
    pub holder: u32,
    /// The number of its own name.
    pub name: u32,
    /// Whether the listing of widths has lines of it: it is no instance, and the main module reaches the module that holds it.
    pub listed: bool,
}
