//! The numbers of types.

ghost use Rattle.std.specs.Prelude.{◌≡◌, Bool, true, false, List, map, IfOk, IfSome};
ghost use Rattle.fir_types.specs.declared.fir_type.FirType.{FirType as AType};
ghost use Rattle.fir_types.specs.declared.fir_type.Shape.TheVariants as shape;
ghost use Rattle.fir_types.specs.Runs.{within};
ghost use Rattle.fir_types.specs.declared.fir_type.Field.{Field as AField};
ghost use Rattle.type_index.specs.Numbers.{HasNumber, HaveNumber};
ghost use Rattle.type_index.specs.Parts.{AreParts};
ghost use Rattle.type_index.specs.Sights.{table_of};
ghost use Rattle.type_index.specs.Masks.{masked, masked_field};

use crate::classes::{ASYNC_RESET, CLOCK, Classes, EMPTY, SIGNED, UNSIGNED};
use crate::keys::{FieldKey, FieldPart, VectorKey};
use fir_types::{Field, FirType, Shape};
use place_text::Place;
use std::alloc::{AllocError, Global};

impl Classes {
    /// The number of a type, or of its mask, where the table has all its parts. Takes time and memory in proportion to the type.
    pub fn number(
        &self,
        alloc: Global,
        mask: bool,
        typ: &FirType,
    ) -> Result<Option<u32>, AllocError>
        ensures { IfOk result (λ number. IfSome number (HasNumber (table_of self.now) (masked mask typ.now))) }
    {
        number_type(alloc, self, mask, typ)
    }
}

#[cycle(number)]
fn number_type(
    alloc: Global,
    classes: &Classes,
    mask: bool,
    typ: &FirType,
) -> Result<Option<u32>, AllocError>
    ensures { IfOk result (λ number. IfSome number (HasNumber (table_of classes.now) (masked mask typ.now))) }
{
    let mut lengths = Vec::new(alloc);
    let mut inside = typ;
    while let Shape::Vector(element, length) = &inside.shape {
        lengths.push((inside.place, *length))?;
        inside = element.get();
    }
    match number_shape(alloc, classes, mask, &inside.shape)? {
        Some(innermost) => Ok(number_around(classes, lengths, innermost)),
        None => Ok(None),
    }
}

#[cycle(number)]
fn number_shape(
    alloc: Global,
    classes: &Classes,
    mask: bool,
    shape: &Shape,
) -> Result<Option<u32>, AllocError>
    ensures { IfOk result (λ number. IfSome number (λ number. (typ : AType) → typ.shape ≡ shape.now → HasNumber (table_of classes.now) (masked mask typ) number)) }
{
    match shape {
        Shape::Unsigned(_) | Shape::Reset => Ok(Some(UNSIGNED)),
        Shape::Signed(_) => Ok(Some(unless_mask(mask, SIGNED))),
        Shape::Clock => Ok(Some(unless_mask(mask, CLOCK))),
        Shape::AsyncReset => Ok(Some(unless_mask(mask, ASYNC_RESET))),
        Shape::Bundle(fields) => match parts_of(alloc, classes, mask, fields.as_slice())? {
            Some(parts) => Ok(number_parts(classes, &parts)),
            None => Ok(None),
        },
        Shape::Vector(element, length) => match number_type(alloc, classes, mask, element.get())? {
            Some(inner) => Ok(classes.vector(VectorKey {
                element: inner,
                length: *length,
            })),
            None => Ok(None),
        },
    }
}

#[cycle(number)]
fn parts_of(
    alloc: Global,
    classes: &Classes,
    mask: bool,
    fields: &[Field],
) -> Result<Option<Vec<FieldPart>>, AllocError>
    ensures { IfOk result (λ parts. IfSome parts (λ parts. AreParts (table_of classes.now) (map (masked_field mask) fields.now) parts.items)) }
{
    let mut parts = Vec::new(alloc);
    for field in fields {
        let Some(class) = number_type(alloc, classes, mask, &field.typ)? else {
            return Ok(None);
        };
        parts.push(FieldPart {
            name: field.name.id,
            flip: field.flip,
            class,
        })?;
    }
    Ok(Some(parts))
}

/// This number, or that of the bit which stands for a ground type in a mask.
pub fn unless_mask(mask: bool, number: u32) -> u32
    ensures masks { mask ≡ true → result ≡ 0 }
    ensures plain { mask ≡ false → result ≡ number }
{
    if mask { UNSIGNED } else { number }
}

/// The number of a type with these lengths around it, the outermost first.
fn number_around(classes: &Classes, lengths: Vec<(Place, u128)>, innermost: u32) -> Option<u32>
    ensures { IfSome result (λ number. (mask : Bool) (typ : AType) → HasNumber (table_of classes.now) (masked mask typ) innermost → HasNumber (table_of classes.now) (masked mask (within lengths.items typ)) number) }
{
    let mut class = innermost;
    let mut left = lengths;
    while let Some((_, length)) = left.pop() {
        class = classes.vector(VectorKey {
            element: class,
            length,
        })?;
    }
    Some(class)
}

/// The number of the bundle of fields that are these.
pub fn number_parts(classes: &Classes, parts: &[FieldPart]) -> Option<u32>
    ensures { IfSome result (λ number. (fields : List AField) → AreParts (table_of classes.now) fields parts.now → HaveNumber (table_of classes.now) fields number) }
{
    let mut after = EMPTY;
    let mut left = parts.len();
    while left > 0 {
        left -= 1;
        after = classes.bundle(parts[left].before(after))?;
    }
    Some(after)
}
