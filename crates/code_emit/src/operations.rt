//! Operations of the table.

ghost use Rattle.std.specs.Prelude.{◌≡◌, ℕ, ◌≤◌, ◌+◌, List, Some, None, Ok, IfOk, OnOk, IfSome, All};
ghost use Rattle.prim_ops.specs.Values.{operation};
ghost use Rattle.flat_code.specs.Meaning.{location_shape};
ghost use Rattle.flat_code.specs.Fine.{location_shapes};
ghost use Rattle.ground_net.specs.Shapes.{shaped, shape_of_row};
ghost use Rattle.code_draft.specs.Drafts.{IsDraft, Stands, Makes};
ghost use Rattle.code_emit.specs.Ways.{IsMade, GivesRow, PairsRow, AreTwo, Reckons, row_value};

use crate::on_one::way_on_one;
use crate::on_two::way_on_words;
use crate::pairs::{Pair, paired};
use crate::signed::pair_on_two;
use crate::ways::{Measure, Way, made};
use bit_words::Kind;
use code_draft::Draft;
use flat_code::Location;
use prim_ops::Prim;
use std::alloc::AllocError;

/// The value of an operation on what stands at locations, where words suffice for it; else none, and the code stays as it is.
pub fn operation_word(
    draft: &mut Draft,
    prim: Prim,
    operands: &[Location],
    params: &[u128],
    measure: Measure,
) -> Result<Option<Location>, AllocError>
    requires { shape_of_row prim params.now (location_shapes operands.now) ≡ Some (shaped measure.kind measure.width) }
    ensures shape { IfOk result (λ o. IfSome o (λ s. location_shape s ≡ shaped measure.kind measure.width)) }
    ensures makes { IfOk result (λ o. IfSome o (λ s. IsDraft draft.old → All (Stands draft.old) operands.now → Makes draft.old draft.new s (IsMade (row_value prim params.now) operands.now (shaped measure.kind measure.width)))) }
    ensures none { result ≡ Ok None → draft.new ≡ draft.old }
    ensures slots { OnOk result (draft.new.slots ≤ draft.old.slots + 4) }
    ensures reckons { IfOk result (λ o. IfSome o (λ s. Reckons operands.now draft.old draft.new s)) }
{
    if measure.width > 64 {
        return Ok(None);
    }
    match operation_way(prim, operands, params, measure.width) {
        Some(way) => Ok(Some(made(draft, way, measure)?)),
        None => match operation_pair(prim, operands, measure.width) {
            Some(pair) => Ok(Some(paired(draft, pair, measure)?)),
            None => Ok(None),
        },
    }
}

/// The way of an operation to a result of at most 64 bits.
fn operation_way(prim: Prim, operands: &[Location], params: &[u128], width: u8) -> Option<Way>
    requires { width ≤ 64 }
    ensures { IfSome result (λ way. GivesRow way prim params.now operands.now width) }
{
    match operands {
        [x] => {
            if x.width > 64 {
                return None;
            }
            way_on_one(prim, *x, params, width)
        }
        [x, y] => {
            if x.width > 64 || y.width > 64 {
                return None;
            }
            way_on_words(prim, *x, *y, width)
        }
        _ => None,
    }
}

/// The pair of an operation to a result of at most 64 bits.
fn operation_pair(prim: Prim, operands: &[Location], width: u8) -> Option<Pair>
    requires { width ≤ 64 }
    ensures two { IfSome result (λ p. AreTwo operands.now) }
    ensures pair { IfSome result (λ p. (params : List ℕ) → PairsRow p prim params operands.now width) }
{
    match operands {
        [x, y] => {
            if x.width > 64 || y.width > 64 {
                return None;
            }
            match x.kind {
                Kind::Signed => pair_on_two(prim, *x, *y, width),
                Kind::Unsigned => None,
            }
        }
        _ => None,
    }
}
