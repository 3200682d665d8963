//! Forms on locations: which kind and width they have, and their values.

ghost use Rattle.std.specs.Prelude.{◌≡◌, ◌≤◌, ◌++◌, [], ◌∷◌, Some, IsSome, IfOk, All, length};
ghost use Rattle.flat_code.specs.Meaning.{location_shape};
ghost use Rattle.flat_code.specs.Fine.{location_shapes};
ghost use Rattle.ground_net.specs.Shapes.{shaped, shape_of_row, shape_of_choice, shape_of_items};
ghost use Rattle.prim_ops.specs.declared.widths.Width.TheVariants.{Bits};
ghost use Rattle.prim_ops.specs.Kinds.{row_kind};
ghost use Rattle.prim_ops.specs.Widths.{row_width};
ghost use Rattle.code_emit.specs.Rows.{IsRow};

use crate::ways::Measure;
use bit_words::{Kind, List};
use flat_code::Location;
use prim_ops::{Prim, Width, kind_of, width_of};
use std::alloc::AllocError;

/// The kind and the width of an operation.
pub(crate) fn row_measure(prim: Prim, operands: &[Location], params: &[u128]) -> Measure
    requires { IsSome (shape_of_row prim params.now (location_shapes operands.now)) }
    ensures { shape_of_row prim params.now (location_shapes operands.now) ≡ Some (shaped result.kind result.width) }
{
    match operands {
        [first] => measured(prim, &[first.kind], &[Width::Bits(first.width)], params),
        [first, second] => measured(
            prim,
            &[first.kind, second.kind],
            &[Width::Bits(first.width), Width::Bits(second.width)],
            params,
        ),
        _ => unreachable!(),
    }
}

/// The kind and the width of an operation on these kinds and widths.
fn measured(prim: Prim, kinds: &[Kind], widths: &[Width], params: &[u128]) -> Measure
    requires { IsRow prim kinds.now widths.now params.now }
    ensures kind { row_kind prim kinds.now ≡ Some result.kind }
    ensures width { row_width prim kinds.now widths.now params.now ≡ Bits result.width }
{
    let Some(kind) = kind_of(prim, kinds) else {
        unreachable!();
    };
    let Width::Bits(width) = width_of(prim, kinds, widths, params) else {
        unreachable!();
    };
    Measure { kind, width }
}

/// The kind and the width of the last location.
pub(crate) fn choice_measure(operands: &[Location]) -> Measure
    requires { IsSome (shape_of_choice (location_shapes operands.now)) }
    ensures { shape_of_choice (location_shapes operands.now) ≡ Some (shaped result.kind result.width) }
{
    if operands.is_empty() {
        unreachable!();
    }
    let last = operands[operands.len() - 1];
    Measure {
        kind: last.kind,
        width: last.width,
    }
}

/// The kind and the width of the first location, and of no bits where there is none.
pub(crate) fn items_measure(items: &[Location]) -> Measure
    requires { IsSome (shape_of_items (location_shapes items.now)) }
    ensures { shape_of_items (location_shapes items.now) ≡ Some (shaped result.kind result.width) }
{
    if items.is_empty() {
        return Measure {
            kind: Kind::Unsigned,
            width: 0,
        };
    }
    let first = items[0];
    Measure {
        kind: first.kind,
        width: first.width,
    }
}

/// The locations of a list and those of a slice behind them.
pub(crate) fn joined(front: List<Location>, back: &[Location]) -> Result<List<Location>, AllocError>
    ensures { IfOk result (λ all. all ≡ front ++ back.now) }
{
    let mut all = front;
    for location in back {
        all.push(*location)?;
    }
    Ok(all)
}
