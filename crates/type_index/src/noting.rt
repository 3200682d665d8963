//! Types whose classes are given numbers.

ghost use Rattle.std.specs.Prelude.{◌≡◌, List, IfOk, OnOk};
ghost use Rattle.type_index.specs.Sights.{table_of, Grows};
ghost use Rattle.type_index.specs.Tables.{HasParts};

use crate::classes::{ASYNC_RESET, CLOCK, Classes, EMPTY, SIGNED, UNSIGNED};
use crate::keys::{FieldClasses, FieldPart, VectorKey};
use crate::numbering::unless_mask;
use fir_types::{Field, FirType, Shape};
use indexmap::IndexMap;
use std::alloc::{AllocError, Global};

/// Gives numbers to a type, or to its mask, and to all its parts, where they have none. Takes time and memory in proportion to the
/// type.
#[cycle(note)]
pub fn note_type(
    alloc: Global,
    classes: &mut Classes,
    mask: bool,
    typ: &FirType,
) -> Result<u32, AllocError>
    ensures { Grows classes.old classes.new }
{
    let mut lengths = Vec::new(alloc);
    let mut inside = typ;
    while let Shape::Vector(element, length) = &inside.shape {
        lengths.push(*length)?;
        inside = element.get();
    }
    let innermost = note_shape(alloc, classes, mask, &inside.shape)?;
    note_around(classes, lengths, innermost)
}

#[cycle(note)]
fn note_shape(
    alloc: Global,
    classes: &mut Classes,
    mask: bool,
    shape: &Shape,
) -> Result<u32, AllocError>
    ensures { Grows classes.old classes.new }
{
    match shape {
        Shape::Unsigned(_) | Shape::Reset => Ok(UNSIGNED),
        Shape::Signed(_) => Ok(unless_mask(mask, SIGNED)),
        Shape::Clock => Ok(unless_mask(mask, CLOCK)),
        Shape::AsyncReset => Ok(unless_mask(mask, ASYNC_RESET)),
        Shape::Bundle(fields) => {
            let parts = parts_noted(alloc, classes, mask, fields.as_slice())?;
            note_parts(alloc, classes, &parts)
        }
        Shape::Vector(element, length) => {
            let inner = note_type(alloc, classes, mask, element.get())?;
            classes.note_vector(VectorKey {
                element: inner,
                length: *length,
            })
        }
    }
}

#[cycle(note)]
fn parts_noted(
    alloc: Global,
    classes: &mut Classes,
    mask: bool,
    fields: &[Field],
) -> Result<Vec<FieldPart>, AllocError>
    ensures { Grows classes.old classes.new }
{
    let mut parts = Vec::new(alloc);
    for field in fields {
        let class = note_type(alloc, classes, mask, &field.typ)?;
        parts.push(FieldPart {
            name: field.name.id,
            flip: field.flip,
            class,
        })?;
    }
    Ok(parts)
}

/// Gives numbers to vectors of these lengths, the outermost first, around types with a number.
fn note_around(classes: &mut Classes, lengths: Vec<u128>, innermost: u32) -> Result<u32, AllocError>
    ensures { Grows classes.old classes.new }
{
    let mut class = innermost;
    let mut left = lengths;
    while let Some(length) = left.pop() {
        class = classes.note_vector(VectorKey {
            element: class,
            length,
        })?;
    }
    Ok(class)
}

/// Gives a number to the bundle of these fields, and keeps their numbers.
pub fn note_parts(
    alloc: Global,
    classes: &mut Classes,
    parts: &[FieldPart],
) -> Result<u32, AllocError>
    ensures { Grows classes.old classes.new }
{
    let mut inside = FieldClasses {
        numbers: IndexMap::new(alloc),
    };
    let mut after = EMPTY;
    let mut left = parts.len();
    while left > 0 {
        left -= 1;
        after = note_part(classes, &mut inside, parts[left], after)?;
    }
    classes.note_fields(after, inside)?;
    Ok(after)
}

/// Gives a number to the bundle of a field and of those after it, which have a number and whose numbers are known by name.
fn note_part(
    classes: &mut Classes,
    inside: &mut FieldClasses,
    part: FieldPart,
    after: u32,
) -> Result<u32, AllocError>
    ensures grows { Grows classes.old classes.new }
    ensures parts { IfOk result (λ number. HasParts (table_of classes.old) after inside.old.numbers.entries → HasParts (table_of classes.new) number inside.new.numbers.entries) }
{
    let number = classes.note_bundle(part.before(after))?;
    inside.numbers.insert(part.name, part.class)?;
    Ok(number)
}
