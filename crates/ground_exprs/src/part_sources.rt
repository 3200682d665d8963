//! What the leaves of parts have.

ghost use Rattle.std.specs.Prelude.{◌≡◌, ◌≤◌, min, IfOk};
ghost use Rattle.fir_types.specs.declared.fir_type.Shape.TheViews.{out-Shape};
ghost use Rattle.fir_types.specs.Leaves.{leaves};
ghost use Rattle.fir_meaning.specs.Components.{kind_of_shape, width_of_shape};
ghost use Rattle.ground_exprs.specs.Sources.{AreOfPart, IsOfLeaf};

use crate::part::{Part, Pick};
use crate::reading::{read, sum_of};
use crate::source::Source;
use bit_words::{Kind, List};
use fir_types::{FirType, Shape, TypeLeaf, leaf_count, leaves};
use ground_net::Ground;
use std::alloc::{AllocError, Global};

/// The kind of the values of a ground type. A `Clock` has no value, and counts as a `UInt` of no bits.
pub fn kind_of(typ: &FirType) -> Kind
    ensures { result ≡ kind_of_shape (out-Shape typ.now.shape) }
{
    match &typ.shape {
        Shape::Signed(_) => Kind::Signed,
        _ => Kind::Unsigned,
    }
}

/// The width of a ground type, at most 128.
pub fn width_of(typ: &FirType) -> u8
    ensures value { result ≡ min (width_of_shape (out-Shape typ.now.shape)) 128 }
    ensures narrow { result ≤ 128 }
{
    let width = match &typ.shape {
        Shape::Unsigned(Some(width)) | Shape::Signed(Some(width)) => *width,
        Shape::Reset | Shape::AsyncReset => 1,
        _ => 0,
    };
    width.min(128) as u8
}

/// The leaves of a type; where a component has more than 65,536, memory is said to be wanted.
pub fn leaves_of(alloc: Global, typ: &FirType) -> Result<Vec<TypeLeaf>, AllocError>
    ensures { IfOk result (λ listed. listed.items ≡ leaves typ.now) }
{
    if leaf_count(typ) > 65536 {
        return Err(AllocError);
    }
    leaves(alloc, typ)
}

/// What the leaves of a part of this type have, one after another.
pub fn sources_of(alloc: Global, typ: &FirType, part: &Part) -> Result<List<Source>, AllocError>
    ensures { IfOk result (λ sources. AreOfPart typ.now part.now sources) }
{
    let listed = leaves_of(alloc, typ)?;
    let mut sources = List::new(alloc);
    let mut number = part.first;
    for leaf in &listed {
        let source = source_of(alloc, leaf, part.picks.as_slice(), number)?;
        sources.push(source)?;
        number = sum_of(number, 1)?;
    }
    Ok(sources)
}

/// What a leaf of a part has. Behind an index it is fitted, since nothing says what 0 past the last element is.
fn source_of(
    alloc: Global,
    leaf: &TypeLeaf,
    picks: &[Pick],
    number: u32,
) -> Result<Source, AllocError>
    ensures { IfOk result (λ s. IsOfLeaf picks.now number leaf.now s) }
{
    let expr = read(alloc, picks, number)?;
    let kind = kind_of(&leaf.typ);
    let width = width_of(&leaf.typ);
    if picks.is_empty() {
        return Ok(Source { expr, kind, width });
    }
    let items = vec![in alloc; expr]?;
    Ok(Source {
        expr: Ground::Fit(kind, width, List::from_vec(items)),
        kind,
        width,
    })
}
