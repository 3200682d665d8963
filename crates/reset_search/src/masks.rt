//! The places of masks.

ghost use Rattle.std.specs.Prelude.{◌≡◌, ◌-◌, ◌^◌, min, map, sum, IfOk};
ghost use Rattle.reset_search.specs.Layers.{mask_size, field_mask_size};

use fir_types::{Field, FirType, Shape, inside_lengths};
use std::alloc::AllocError;

/// How many places a mask of this type has, one for each leaf, for a Clock as well. More than fit a `u32` are a want of memory.
pub fn mask_places(typ: &FirType) -> Result<usize, AllocError>
    ensures { IfOk result (λ count. count ≡ mask_size typ.now) }
{
    let count = mask_size(typ);
    if count > u32::MAX as usize {
        return Err(AllocError);
    }
    Ok(count)
}

/// How many there are, or 2^64 - 1 where there are more. Takes no memory.
#[cycle(mask)]
fn mask_size(typ: &FirType) -> usize
    ensures { result ≡ min (mask_size typ.now) (2 ^ 64 - 1) }
{
    let inside = inside_lengths(typ);
    match &inside.shape {
        Shape::Unsigned(_) | Shape::Signed(_) | Shape::Clock | Shape::Reset | Shape::AsyncReset =>
            1,
        Shape::Bundle(fields) => mask_sizes(fields.as_slice()),
        Shape::Vector(_, _) => unreachable!(),
    }
}

#[cycle(mask)]
fn mask_sizes(fields: &[Field]) -> usize
    ensures { result ≡ min (sum (map field_mask_size fields.now)) (2 ^ 64 - 1) }
{
    let mut total: usize = 0;
    for field in fields {
        total = total.saturating_add(mask_size(&field.typ));
    }
    total
}
