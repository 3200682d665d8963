//! Values of a kind and a width.

ghost use Rattle.std.specs.Prelude.{◌≤◌, ◌<◌, ◌^◌};

/// How the bits of a value are read: as a `UInt` or as an `SInt` (FIRRTL specification 3.0, "Ground Types").
#[derive(Clone, Copy, PartialEq, Eq)]
pub enum Kind {
    /// As a number from 0.
    Unsigned,
    /// In two's complement.
    Signed,
}

/// An integer of a kind and a width, held as its bits.
///
/// The width is at most 128, and the bits are below 2 to the power of the width.
#[derive(Clone, Copy, PartialEq, Eq)]
pub struct Value {
    /// How the bits are read.
    pub kind: Kind,
    /// How many bits there are.
    pub width: u8,
    /// The bits, the lowest first.
    pub bits: u128,
    ghost narrow: { width ≤ 128 },
    ghost within: { bits < 2 ^ width },
}
