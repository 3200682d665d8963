//! The ground places of types (FIRRTL specification 3.0, "Ground Types").

/// What a text calls a ground place.
#[derive(Clone, Copy)]
pub enum Word {
    OfUint,
    OfSint,
    OfReset,
    OfAsync,
}

/// A ground place of a type.
#[derive(Clone, Copy)]
pub struct Ground {
    pub word: Word,
    /// Whether an odd number of flips stand on the way to it.
    pub flip: bool,
    /// Whether it has a leaf: none has one in a vector of length 0.
    pub leaf: bool,
}
