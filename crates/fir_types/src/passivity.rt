//! Passive types (FIRRTL specification 3.0, "Passive Types").

ghost use Rattle.std.specs.Prelude.{◌≡◌, ◌↔◌, IsTrue};
ghost use Rattle.std.specs.List.{list_any};
ghost use Rattle.fir_types.specs.Passivity.{IsPassive, has_flip, field_has_flip};

use crate::fir_type::{Field, FirType, Shape};

/// Whether a type is passive: no `flip` stands anywhere in it, also not in the element of a vector of length 0. Takes no
/// memory.
pub fn passive(typ: &FirType) -> bool
    ensures { IsTrue result ↔ IsPassive typ.now }
{
    !flip_in(typ)
}

#[cycle(flip)]
fn flip_in(typ: &FirType) -> bool
    ensures { result ≡ has_flip typ.now }
{
    let mut inside = typ;
    loop {
        match &inside.shape {
            Shape::Unsigned(_)
            | Shape::Signed(_)
            | Shape::Clock
            | Shape::Reset
            | Shape::AsyncReset => return false,
            Shape::Bundle(fields) => return flip_in_fields(fields.as_slice()),
            Shape::Vector(element, _) => inside = element.get(),
        }
    }
}

#[cycle(flip)]
fn flip_in_fields(fields: &[Field]) -> bool
    ensures { result ≡ list_any field_has_flip fields.now }
{
    for field in fields {
        if field.flip || flip_in(&field.typ) {
            return true;
        }
    }
    false
}
