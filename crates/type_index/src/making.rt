//! Trees made from types, in time in proportion to the type.

ghost use Rattle.std.specs.Prelude.{◌≡◌, true, [], IfOk};
ghost use Rattle.fir_types.specs.declared.fir_type.FirType.{FirType as AType};
ghost use Rattle.fir_types.specs.declared.fir_type.Shape.TheVariants as shape;
ghost use Rattle.fir_types.specs.Runs.{within};
ghost use Rattle.fir_tree.specs.LeafNames.{Texts};
ghost use Rattle.type_index.specs.Knowing.{Matches, IsRight, Knows, HasWays};
ghost use Rattle.type_index.specs.declared.tree.Inside.TheVariants as inside;
ghost use Rattle.type_index.specs.Gathering.{Gathers};

use crate::gathered::Gathered;
use crate::tree::{Inside, TypeIndex};
use bit_words::Shared;
use fir_tree::{Names, Ways};
use fir_types::{Field, FirType, Shape};
use place_text::Place;
use std::alloc::{AllocError, Global};

impl TypeIndex {
    /// What is known of a type. Takes time and memory in proportion to it.
    pub fn new(alloc: Global, names: &Names, typ: &FirType) -> Result<TypeIndex, AllocError>
        ensures knows { IfOk result (λ index. Knows typ.now index) }
        ensures ways { IfOk result (λ index. HasWays names.now typ.now index) }
    {
        make(alloc, names, typ)
    }

    /// What is known of `Reset`, whatever the texts of names.
    pub fn of_reset() -> TypeIndex
        ensures { (texts : Texts) (typ : AType) → typ.shape ≡ shape.Reset → Matches (IsRight texts) typ result }
    {
        of_ground(1, false, false)
    }

    /// What is known of the bundle without fields, whatever the texts of names.
    pub fn of_nothing(alloc: Global) -> Result<TypeIndex, AllocError>
        ensures { IfOk result (λ index. (texts : Texts) (typ : AType) → typ.shape ≡ shape.Bundle [] → Matches (IsRight texts) typ index) }
    {
        Gathered::new(alloc).finish(alloc, &[])
    }
}

/// What is known of a type.
#[cycle(make)]
pub fn make(alloc: Global, names: &Names, typ: &FirType) -> Result<TypeIndex, AllocError>
    ensures { IfOk result (λ index. Matches (IsRight names.now) typ.now index) }
{
    let mut lengths = Vec::new(alloc);
    let mut inside = typ;
    while let Shape::Vector(element, length) = &inside.shape {
        lengths.push((inside.place, *length))?;
        inside = element.get();
    }
    let innermost = make_shape(alloc, names, &inside.shape)?;
    put_around(alloc, lengths, innermost)
}

#[cycle(make)]
fn make_shape(alloc: Global, names: &Names, shape: &Shape) -> Result<TypeIndex, AllocError>
    ensures { IfOk result (λ index. (typ : AType) → typ.shape ≡ shape.now → Matches (IsRight names.now) typ index) }
{
    match shape {
        Shape::Unsigned(_) | Shape::Signed(_) | Shape::Reset => Ok(of_ground(1, false, false)),
        Shape::Clock => Ok(of_ground(0, true, true)),
        Shape::AsyncReset => Ok(of_ground(1, false, true)),
        Shape::Bundle(fields) => {
            let gathered = make_fields(alloc, names, fields.as_slice())?;
            gathered.finish(alloc, fields.as_slice())
        }
        Shape::Vector(element, length) => {
            let inner = make(alloc, names, element.get())?;
            put_one(alloc, inner, *length)
        }
    }
}

#[cycle(make)]
fn make_fields(alloc: Global, names: &Names, fields: &[Field]) -> Result<Gathered, AllocError>
    ensures { IfOk result (λ gathered. Gathers names.now fields.now gathered) }
{
    let mut gathered = Gathered::new(alloc);
    for field in fields {
        let part = make(alloc, names, &field.typ)?;
        gathered.push(names, field, part)?;
    }
    Ok(gathered)
}

/// What is known of a type without parts that has so many places, and that is a `Clock` or not, and a signal or not.
fn of_ground(places: usize, clocked: bool, signals: bool) -> TypeIndex
    ensures { result ≡ record { leaves = 1; bytes = 0; passive = true; clocked = clocked; signals = signals; places = places; inside = inside.Ground } }
{
    TypeIndex {
        leaves: 1,
        bytes: 0,
        passive: true,
        clocked,
        signals,
        places,
        inside: Inside::Ground,
    }
}

/// What is known of a vector of this length, where this is known of its element.
fn put_one(alloc: Global, inner: TypeIndex, length: u128) -> Result<TypeIndex, AllocError>
    ensures { IfOk result (λ index. (texts : Texts) (typ element : AType) → typ.shape ≡ shape.Vector element length → Matches (IsRight texts) element inner → Matches (IsRight texts) typ index) }
{
    let one = Ways {
        leaves: inner.leaves,
        bytes: inner.bytes,
    };
    let ways = one.repeated(length);
    Ok(TypeIndex {
        leaves: ways.leaves,
        bytes: ways.bytes,
        passive: inner.passive,
        clocked: length != 0 && inner.clocked,
        signals: length != 0 && inner.signals,
        places: inner.places,
        inside: Inside::Vector(Shared::new(alloc, inner)?),
    })
}

/// What is known of a type with these lengths around it, the outermost first.
fn put_around(
    alloc: Global,
    lengths: Vec<(Place, u128)>,
    innermost: TypeIndex,
) -> Result<TypeIndex, AllocError>
    ensures { IfOk result (λ index. (texts : Texts) (typ : AType) → Matches (IsRight texts) typ innermost → Matches (IsRight texts) (within lengths.items typ) index) }
{
    let mut index = innermost;
    let mut left = lengths;
    while let Some((_, length)) = left.pop() {
        index = put_one(alloc, index, length)?;
    }
    Ok(index)
}
