//! Types in which each `Reset` that is reached is an `AsyncReset`.

ghost use Rattle.std.specs.Prelude.{◌≡◌, ◌+◌, map, IfOk, OnOk};
ghost use Rattle.fir_types.specs.Runs.{within};
ghost use Rattle.reset_search.specs.Resolved.{becomes, resolved, all_from, in_all};
ghost use Rattle.reset_search.specs.Rows.{marked};
ghost use Rattle.reset_search.specs.Layers.{shape_becomes, field_becomes};

use crate::search::Marks;
use bit_words::{List, Shared};
use fir_types::{Field, FirType, Shape};
use place_text::Place;
use std::alloc::{AllocError, Global};

/// The type whose places have the numbers from this one on, with `AsyncReset` for each `Reset` that is reached. Takes time and memory in
/// proportion to the type. More places than fit a `u32` are a want of memory.
pub fn resolved_type(
    alloc: Global,
    marks: &Marks,
    first: u32,
    typ: &FirType,
) -> Result<FirType, AllocError>
    ensures { IfOk result (λ made. made ≡ resolved (marked marks.now.keys.keys) first typ.now) }
{
    let mut next = first;
    resolve_type(alloc, marks, &mut next, typ)
}

/// The same, with the number behind its places.
#[cycle(resolve)]
fn resolve_type(
    alloc: Global,
    marks: &Marks,
    next: &mut u32,
    typ: &FirType,
) -> Result<FirType, AllocError>
    ensures typ { IfOk result (λ made. made ≡ (becomes (marked marks.now.keys.keys) typ.now).1 next.old) }
    ensures next { OnOk result (next.new ≡ next.old + (becomes (marked marks.now.keys.keys) typ.now).0) }
{
    let mut lengths = Vec::new(alloc);
    let mut inside = typ;
    while let Shape::Vector(element, length) = &inside.shape {
        lengths.push((inside.place, *length))?;
        inside = element.get();
    }
    let shape = resolve_shape(alloc, marks, next, &inside.shape)?;
    let innermost = FirType {
        place: inside.place,
        shape,
    };
    put_within(alloc, lengths, innermost)
}

#[cycle(resolve)]
fn resolve_shape(
    alloc: Global,
    marks: &Marks,
    next: &mut u32,
    shape: &Shape,
) -> Result<Shape, AllocError>
    ensures shape { IfOk result (λ made. made ≡ (shape_becomes (marked marks.now.keys.keys) shape.now).1 next.old) }
    ensures next { OnOk result (next.new ≡ next.old + (shape_becomes (marked marks.now.keys.keys) shape.now).0) }
{
    match shape {
        Shape::Unsigned(width) => {
            step(next)?;
            Ok(Shape::Unsigned(*width))
        }
        Shape::Signed(width) => {
            step(next)?;
            Ok(Shape::Signed(*width))
        }
        Shape::Clock => Ok(Shape::Clock),
        Shape::Reset => {
            let reached = marks.has_declared(*next);
            step(next)?;
            Ok(if reached {
                Shape::AsyncReset
            } else {
                Shape::Reset
            })
        }
        Shape::AsyncReset => {
            step(next)?;
            Ok(Shape::AsyncReset)
        }
        Shape::Bundle(fields) => {
            let made = resolve_fields(alloc, marks, next, fields.as_slice())?;
            Ok(Shape::Bundle(Shared::new(alloc, made)?))
        }
        Shape::Vector(element, length) => {
            let made = resolve_type(alloc, marks, next, element.get())?;
            Ok(Shape::Vector(Shared::new(alloc, made)?, *length))
        }
    }
}

#[cycle(resolve)]
fn resolve_fields(
    alloc: Global,
    marks: &Marks,
    next: &mut u32,
    fields: &[Field],
) -> Result<List<Field>, AllocError>
    ensures fields { IfOk result (λ made. made ≡ all_from (map (field_becomes (marked marks.now.keys.keys)) fields.now) next.old) }
    ensures next { OnOk result (next.new ≡ next.old + in_all (map (field_becomes (marked marks.now.keys.keys)) fields.now)) }
{
    let mut made = List::new(alloc);
    for field in fields {
        let typ = resolve_type(alloc, marks, next, &field.typ)?;
        made.push(Field {
            flip: field.flip,
            name: field.name,
            typ,
        })?;
    }
    Ok(made)
}

/// The next number.
fn step(next: &mut u32) -> Result<(), AllocError>
    ensures { OnOk result (next.new ≡ next.old + 1) }
{
    skip(next, 1)
}

/// The number behind so many places.
pub fn skip(next: &mut u32, count: usize) -> Result<(), AllocError>
    ensures { OnOk result (next.new ≡ next.old + count) }
{
    let Ok(places) = u32::try_from(count) else {
        return Err(AllocError);
    };
    match next.checked_add(places) {
        Some(behind) => {
            *next = behind;
            Ok(())
        }
        None => Err(AllocError),
    }
}

/// A type with these lengths around it, the outermost first.
#[tactic(auto, using(fir_types::proofs::Runs::within_last))]
fn put_within(
    alloc: Global,
    lengths: Vec<(Place, u128)>,
    typ: FirType,
) -> Result<FirType, AllocError>
    ensures { IfOk result (λ whole. whole ≡ within lengths.items typ) }
{
    let mut whole = typ;
    let mut left = lengths;
    while let Some((place, length)) = left.pop() {
        whole = FirType {
            place,
            shape: Shape::Vector(Shared::new(alloc, whole)?, length),
        };
    }
    Ok(whole)
}
