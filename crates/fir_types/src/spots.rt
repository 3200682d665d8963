//! The places of types.

ghost use Rattle.std.specs.Prelude.{◌≡◌, ◌++◌, ◌-◌, ◌^◌, ◌≤◌, ℕ, min, map, flat_map, sum, false, OnOk, IfOk};
ghost use Rattle.fir_types.specs.Bundles.{mask_of};
ghost use Rattle.fir_types.specs.declared.fir_type.FirType.{FirType as AType, size-FirType};
ghost use Rattle.fir_types.specs.declared.fir_type.Shape.TheVariants as shape;
ghost use Rattle.fir_types.specs.Spots.{spots, size, field_spots, field_size, flip_of, flips_under};

use crate::fir_type::{Field, FirType, Shape};
use std::alloc::{AllocError, Global};

/// What stands inside a type's vector lengths, which has the same places.
pub fn inside_lengths(typ: &FirType) -> &FirType
    ensures places { spots result.now ≡ spots typ.now }
    ensures masks { spots (mask_of result.now) ≡ spots (mask_of typ.now) }
    ensures falls { size-FirType result.now ≤ size-FirType typ.now }
    ensures flat { (element : AType) (length : ℕ) → result.now.shape ≡ shape.Vector element length → ⊥ }
{
    let mut inside = typ;
    while let Shape::Vector(element, _) = &inside.shape {
        inside = element.get();
    }
    inside
}

/// The number of places that have widths, or 2^64 - 1 where there are more. Takes no memory.
#[cycle(size)]
pub fn size(typ: &FirType) -> usize
    ensures { result ≡ min (size typ.now) (2 ^ 64 - 1) }
{
    let inside = inside_lengths(typ);
    match &inside.shape {
        Shape::Unsigned(_) | Shape::Signed(_) | Shape::Reset | Shape::AsyncReset => 1,
        Shape::Clock => 0,
        Shape::Bundle(fields) => sizes(fields.as_slice()),
        Shape::Vector(_, _) => unreachable!(),
    }
}

#[cycle(size)]
fn sizes(fields: &[Field]) -> usize
    ensures { result ≡ min (sum (map field_size fields.now)) (2 ^ 64 - 1) }
{
    let mut total: usize = 0;
    for field in fields {
        total = total.saturating_add(size(&field.typ));
    }
    total
}

/// Whether each place is flipped.
pub fn flips_of(alloc: Global, typ: &FirType) -> Result<Vec<bool>, AllocError>
    ensures { IfOk result (λ flips. flips.items ≡ flips_under false typ.now) }
{
    let mut flips = Vec::new(alloc);
    push_flips(&mut flips, false, typ)?;
    Ok(flips)
}

#[cycle(flips)]
fn push_flips(flips: &mut Vec<bool>, flip: bool, typ: &FirType) -> Result<(), AllocError>
    ensures { OnOk result (flips.new.items ≡ flips.old.items ++ flips_under flip typ.now) }
{
    let inside = inside_lengths(typ);
    match &inside.shape {
        Shape::Unsigned(_) | Shape::Signed(_) | Shape::Reset | Shape::AsyncReset => {
            flips.push(flip)?;
            Ok(())
        }
        Shape::Clock => Ok(()),
        Shape::Bundle(fields) => push_field_flips(flips, flip, fields.as_slice()),
        Shape::Vector(_, _) => unreachable!(),
    }
}

#[cycle(flips)]
fn push_field_flips(flips: &mut Vec<bool>, flip: bool, fields: &[Field]) -> Result<(), AllocError>
    ensures { OnOk result (flips.new.items ≡ flips.old.items ++ map (flip_of flip) (flat_map field_spots fields.now)) }
{
    for field in fields {
        push_flips(flips, flip != field.flip, &field.typ)?;
    }
    Ok(())
}
