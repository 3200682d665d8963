//! The measure of a circuit.

/// How large a circuit is that runs.
#[derive(Clone, Copy)]
pub struct Measure {
    /// The flat leaves.
    pub leaves: u32,
    /// The bytes of all flat names.
    pub names: u32,
    /// The flat size.
    pub size: u32,
    /// The words of the state: two for each leaf of a register, of a memory's element, and of what a memory's port keeps.
    pub state_words: u32,
    /// The greatest number of names in an instance path.
    pub depth: u32,
}
