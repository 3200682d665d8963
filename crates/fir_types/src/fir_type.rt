//! Types (FIRRTL specification 3.0, "Types").

use crate::name::Name;
use bit_words::{Shared, SharedList};
use place_text::Place;

/// A type as a circuit writes it, with the place of its first token.
#[cycle(fir_type)]
#[derive(Drop)]
pub struct FirType {
    pub place: Place,
    pub shape: Shape,
}

/// What a type is. A width is in bits, and None where the circuit leaves it to be inferred.
#[cycle(fir_type)]
#[derive(Drop)]
pub enum Shape {
    /// `UInt` or `UInt<w>`.
    Unsigned(Option<u128>),
    /// `SInt` or `SInt<w>`.
    Signed(Option<u128>),
    /// `Clock`.
    Clock,
    /// `Reset`, which is equivalent to `UInt<1>`.
    Reset,
    /// `AsyncReset`, which is equivalent to nothing else.
    AsyncReset,
    /// `{ field : type .. }`, the fields in text order.
    Bundle(SharedList<Field>),
    /// `type[n]`: n elements of one type. The length may be 0.
    Vector(Shared<FirType>, u128),
}

/// A field of a bundle.
#[cycle(fir_type)]
#[derive(Drop)]
pub struct Field {
    /// Whether the field's direction is turned round.
    pub flip: bool,
    pub name: Name,
    pub typ: FirType,
}
