//! Operations on the results of operations.

ghost use Rattle.std.specs.Prelude.{◌≡◌, ◌∷◌, [], ◌⊎◌, true, Some, None, IsSome, Ok, IfOk, IfSome, All, slice_index};
ghost use Rattle.prim_ops.specs.declared.operation.PrimOp.TheVariants.{Tail, Bits as BitsOp};
ghost use Rattle.ground_net.specs.declared.ground.Ground.TheVariants.{Op as Op_of};
ghost use Rattle.ground_net.specs.Shapes.{shaped, shape_of_row};
ghost use Rattle.flat_code.specs.Meaning.{location_shape};
ghost use Rattle.flat_code.specs.Fine.{location_shapes, location_slots, slots_of};
ghost use Rattle.code_draft.specs.Drafts.{IsDraft, Stands, Makes};
ghost use Rattle.code_draft.specs.Segments.{Step};
ghost use Rattle.code_emit.specs.Ways.{IsMade};
ghost use Rattle.code_emit.specs.Nested.{nested_shape, nested_value, TakesLowest};
ghost use Rattle.code_emit.specs.Spans.{Follows};

use crate::forms::row_measure;
use crate::sums::lowest_word;
use crate::values::emit_operation;
use crate::ways::Measure;
use bit_words::List;
use code_draft::Draft;
use flat_code::Location;
use ground_net::Ground;
use prim_ops::Prim;
use std::alloc::{AllocError, Global};

/// An operation of the table with its parameters.
#[derive(Clone, Copy)]
pub(crate) struct Row<'a> {
    pub prim: Prim,
    pub params: &'a [u128],
}

/// An operation with its operands.
#[derive(Clone, Copy)]
pub(crate) struct Inner<'a> {
    pub row: Row<'a>,
    pub operands: &'a [Ground],
}

/// The operation that is the only one of these expressions.
pub(crate) fn inner_of<'a>(operands: &'a [Ground]) -> Option<Inner<'a>>
    ensures { IfSome result (λ i. operands.now ≡ Op_of i.row.prim i.operands.now i.row.params.now ∷ []) }
{
    match operands {
        [operand] => match operand {
            Ground::Op(prim, items, params) => Some(Inner {
                row: Row {
                    prim: *prim,
                    params: params.as_slice(),
                },
                operands: items.as_slice(),
            }),
            _ => None,
        },
        _ => None,
    }
}

/// The value of the outer operation on the value of the inner one on what stands at locations. Lowest bits of a sum need only the lowest
/// bits of what is added.
pub(crate) fn emit_nested(
    alloc: Global,
    draft: &mut Draft,
    locations: List<Location>,
    inner: Row<'_>,
    outer: Row<'_>,
) -> Result<Location, AllocError>
    requires { IsSome (nested_shape inner.prim inner.params.now outer.prim outer.params.now (location_shapes locations)) }
    ensures shape { IfOk result (λ s. nested_shape inner.entry.prim inner.entry.params.now outer.entry.prim outer.entry.params.now (location_shapes locations) ≡ Some (location_shape s)) }
    ensures makes { IfOk result (λ s. IsDraft draft.old → All (Stands draft.old) locations → Makes draft.old draft.new s (IsMade (nested_value inner.entry.prim inner.entry.params.now outer.entry.prim outer.entry.params.now) locations (location_shape s))) }
    ensures follows { IfOk result (λ s. Follows locations draft.old draft.new s) }
{
    if let Some(location) = lowest(draft, locations.as_slice(), inner, outer)? {
        return Ok(location);
    }
    let between = emit_operation(alloc, draft, inner.prim, locations, inner.params)?;
    let mut one = List::new(alloc);
    one.push(between)?;
    emit_operation(alloc, draft, outer.prim, one, outer.params)
}

/// The same, where the outer operation takes lowest bits and words suffice for it; else none, and the code stays as it is.
fn lowest(
    draft: &mut Draft,
    locations: &[Location],
    inner: Row<'_>,
    outer: Row<'_>,
) -> Result<Option<Location>, AllocError>
    requires { IsSome (nested_shape inner.prim inner.params.now outer.prim outer.params.now (location_shapes locations.now)) }
    ensures shape { IfOk result (λ o. IfSome o (λ s. nested_shape inner.entry.prim inner.entry.params.now outer.entry.prim outer.entry.params.now (location_shapes locations.now) ≡ Some (location_shape s))) }
    ensures makes { IfOk result (λ o. IfSome o (λ s. IsDraft draft.old → All (Stands draft.old) locations.now → Makes draft.old draft.new s (IsMade (nested_value inner.entry.prim inner.entry.params.now outer.entry.prim outer.entry.params.now) locations.now (location_shape s)))) }
    ensures none { result ≡ Ok None → draft.new ≡ draft.old }
    ensures step { IfOk result (λ o. IfSome o (λ s. Step draft.old draft.new (slots_of locations.now) (location_slots s) 2)) }
{
    if !takes_lowest(outer) {
        return Ok(None);
    }
    let measure = nested_measure(locations, inner, outer);
    lowest_word(draft, inner.prim, locations, measure)
}

/// The kind and the width of the outer operation on the inner one.
fn nested_measure(locations: &[Location], inner: Row<'_>, outer: Row<'_>) -> Measure
    requires { IsSome (nested_shape inner.prim inner.params.now outer.prim outer.params.now (location_shapes locations.now)) }
    ensures { nested_shape inner.entry.prim inner.entry.params.now outer.entry.prim outer.entry.params.now (location_shapes locations.now) ≡ Some (shaped result.kind result.width) }
{
    let between = row_measure(inner.prim, locations, inner.params);
    row_measure(outer.prim, &[somewhere(between)], outer.params)
}

/// A location of this kind and width.
fn somewhere(measure: Measure) -> Location
    ensures { location_shape result ≡ shaped measure.kind measure.width }
{
    Location {
        kind: measure.kind,
        width: measure.width,
        low: 0,
        high: 0,
    }
}

/// Whether an operation takes lowest bits.
fn takes_lowest(row: Row<'_>) -> bool
    ensures { result ≡ true → TakesLowest row.entry.prim row.entry.params.now }
{
    match row.prim {
        Prim::Tail => true,
        Prim::Bits => row.params.get(1).copied().unwrap_or(0) == 0,
        _ => false,
    }
}
