//! Types taken once more.

ghost use Rattle.std.specs.Prelude.{◌≡◌, IfOk};

use crate::fir_type::{FirType, Shape};
use std::alloc::AllocError;

/// The same type once more. Its parts are shared, so it takes no memory.
pub fn copy(typ: &FirType) -> Result<FirType, AllocError>
    ensures { IfOk result (λ copied. copied ≡ typ.now) }
{
    let shape = match &typ.shape {
        Shape::Unsigned(width) => Shape::Unsigned(*width),
        Shape::Signed(width) => Shape::Signed(*width),
        Shape::Clock => Shape::Clock,
        Shape::Reset => Shape::Reset,
        Shape::AsyncReset => Shape::AsyncReset,
        Shape::Bundle(fields) => Shape::Bundle(fields.share()?),
        Shape::Vector(element, length) => Shape::Vector(element.share()?, *length),
    };
    Ok(FirType {
        place: typ.place,
        shape,
    })
}
