//! Types with the widths that were found.

ghost use Rattle.std.specs.Prelude.{◌≡◌, ◌++◌, ◌∷◌, [], IfOk, OnOk};
ghost use Rattle.type_filling.specs.Filling.{filled, taking, first_number, behind_first};
ghost use Rattle.type_filling.specs.Layers.{shape_taking, fields_taking};
ghost use Rattle.fir_types.specs.Runs.{within};

use bit_words::{List, Shared};
use fir_types::{Field, FirType, Shape};
use place_text::Place;
use prim_ops::Width;
use std::alloc::{AllocError, Global};

/// A copy of a type with these widths, in the order of its places.
pub fn filled(alloc: Global, typ: &FirType, widths: &[Width]) -> Result<FirType, AllocError>
    ensures { IfOk result (λ fitted. fitted ≡ filled typ.now widths.now) }
{
    let (fitted, _) = fill(alloc, typ, widths)?;
    Ok(fitted)
}

/// A copy of a type with the first widths, and those that are left. The lengths of vectors in one another are taken in a loop.
#[cycle(fill)]
#[tactic(auto, using(fir_types::proofs::Runs::within_last, crate::proofs::Runs::taking_run))]
pub fn fill<'a>(
    alloc: Global,
    typ: &FirType,
    widths: &'a [Width],
) -> Result<(FirType, &'a [Width]), AllocError>
    ensures { IfOk result (λ taken. (taken.0, taken.1.now) ≡ taking typ.now widths.now) }
{
    let mut lengths = Vec::new(alloc);
    let mut inside = typ;
    while let Shape::Vector(element, length) = &inside.shape {
        lengths.push((inside.place, *length))?;
        inside = element.get();
    }
    let (shape, rest) = fill_shape(alloc, &inside.shape, widths)?;
    let innermost = FirType {
        place: inside.place,
        shape,
    };
    Ok((put_within(alloc, lengths, innermost)?, rest))
}

/// A type with these lengths around it, the outermost first.
#[tactic(auto, using(fir_types::proofs::Runs::within_last))]
fn put_within(
    alloc: Global,
    lengths: Vec<(Place, u128)>,
    typ: FirType,
) -> Result<FirType, AllocError>
    ensures { IfOk result (λ whole. whole ≡ within lengths.items typ) }
{
    let mut whole = typ;
    let mut left = lengths;
    while let Some((place, length)) = left.pop() {
        whole = FirType {
            place,
            shape: Shape::Vector(Shared::new(alloc, whole)?, length),
        };
    }
    Ok(whole)
}

#[cycle(fill)]
fn fill_shape<'a>(
    alloc: Global,
    shape: &Shape,
    widths: &'a [Width],
) -> Result<(Shape, &'a [Width]), AllocError>
    ensures { IfOk result (λ taken. (taken.0, taken.1.now) ≡ shape_taking shape.now widths.now) }
{
    match shape {
        Shape::Unsigned(_) | Shape::Reset => {
            let (width, rest) = take_first(widths);
            Ok((Shape::Unsigned(width), rest))
        }
        Shape::Signed(_) => {
            let (width, rest) = take_first(widths);
            Ok((Shape::Signed(width), rest))
        }
        Shape::Clock => Ok((Shape::Clock, widths)),
        Shape::AsyncReset => {
            let (_, rest) = take_first(widths);
            Ok((Shape::AsyncReset, rest))
        }
        Shape::Bundle(fields) => {
            let (fields, rest) = fill_fields(alloc, fields.as_slice(), widths)?;
            Ok((Shape::Bundle(Shared::new(alloc, fields)?), rest))
        }
        Shape::Vector(element, length) => {
            let (element, rest) = fill(alloc, element.get(), widths)?;
            Ok((Shape::Vector(Shared::new(alloc, element)?, *length), rest))
        }
    }
}

#[cycle(fill)]
fn fill_fields<'a>(
    alloc: Global,
    fields: &[Field],
    widths: &'a [Width],
) -> Result<(List<Field>, &'a [Width]), AllocError>
    ensures { IfOk result (λ taken. (taken.0, taken.1.now) ≡ fields_taking fields.now widths.now) }
{
    let mut fitted = List::new(alloc);
    let mut rest = widths;
    for field in fields {
        let (typ, others) = fill(alloc, &field.typ, rest)?;
        push_filled(&mut fitted, field, typ)?;
        rest = others;
    }
    Ok((fitted, rest))
}

/// Adds a field with this type.
fn push_filled(fitted: &mut List<Field>, field: &Field, typ: FirType) -> Result<(), AllocError>
    ensures { OnOk result (fitted.new ≡ fitted.old ++ record { flip = field.now.flip; name = field.now.name; typ = typ } ∷ []) }
{
    fitted.push(Field {
        flip: field.flip,
        name: field.name,
        typ,
    })
}

/// The number of the first width, where there is one, and the widths behind it.
pub fn take_first(widths: &[Width]) -> (Option<u128>, &[Width])
    ensures number { result.0 ≡ first_number widths.now }
    ensures rest { result.1.now ≡ behind_first widths.now }
{
    match widths.split_first() {
        Some((Width::Bits(bits), rest)) => (Some(u128::from(*bits)), rest),
        Some((Width::Over, rest)) => (None, rest),
        None => (None, widths),
    }
}
