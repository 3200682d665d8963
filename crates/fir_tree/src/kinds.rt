//! The kinds of types.

ghost use Rattle.std.specs.Prelude.{◌≡◌, IfOk};
ghost use Rattle.fir_tree.specs.Kinds.{sign_of, is_unsigned, is_a_clock, is_async, is_reset, ground, no_type};

use bit_words::{Kind, List, Shared};
use fir_types::{FirType, Shape};
use place_text::Place;
use std::alloc::{AllocError, Global};

/// The kind of a type as an operand; None for what is no number. `Reset` is `UInt<1>`.
pub fn sign_of(typ: &FirType) -> Option<Kind>
    ensures { result ≡ sign_of typ.now }
{
    match &typ.shape {
        Shape::Unsigned(_) | Shape::Reset => Some(Kind::Unsigned),
        Shape::Signed(_) => Some(Kind::Signed),
        Shape::Clock | Shape::AsyncReset | Shape::Bundle(_) | Shape::Vector(_, _) => None,
    }
}

/// Whether a type is a `UInt`.
pub fn is_unsigned(typ: &FirType) -> bool
    ensures { result ≡ is_unsigned typ.now }
{
    matches!(&typ.shape, Shape::Unsigned(_) | Shape::Reset)
}

/// Whether a type is a `Clock`.
pub fn is_clock(typ: &FirType) -> bool
    ensures { result ≡ is_a_clock typ.now }
{
    matches!(&typ.shape, Shape::Clock)
}

/// Whether a type is an `AsyncReset`.
pub fn is_async(typ: &FirType) -> bool
    ensures { result ≡ is_async typ.now }
{
    matches!(&typ.shape, Shape::AsyncReset)
}

/// Whether a register may have a reset of this type: a `UInt` or an `AsyncReset`.
pub fn is_reset(typ: &FirType) -> bool
    ensures { result ≡ is_reset typ.now }
{
    is_unsigned(typ) || is_async(typ)
}

/// A type of this kind.
pub fn ground(place: Place, kind: Kind, width: Option<u128>) -> FirType
    ensures { result ≡ ground place kind width }
{
    let shape = match kind {
        Kind::Unsigned => Shape::Unsigned(width),
        Kind::Signed => Shape::Signed(width),
    };
    FirType { place, shape }
}

/// What stands for the type of a node that has none.
pub fn no_type(alloc: Global, place: Place) -> Result<FirType, AllocError>
    ensures { IfOk result (λ typ. typ ≡ no_type place) }
{
    Ok(FirType {
        place,
        shape: Shape::Bundle(Shared::new(alloc, List::new(alloc))?),
    })
}
