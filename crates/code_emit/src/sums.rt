//! Lowest bits of sums, differences and products, and of bits that are moved up.

ghost use Rattle.std.specs.Prelude.{◌≡◌, ℕ, ◌≤◌, ◌+◌, ◌∷◌, [], true, Some, None, Ok, IfOk, OnOk, IfSome, All, List as TheList};
ghost use Rattle.flat_code.specs.Meaning.{location_shape};
ghost use Rattle.flat_code.specs.Fine.{location_slots, slots_of};
ghost use Rattle.ground_net.specs.Shapes.{shaped};
ghost use Rattle.code_draft.specs.Drafts.{IsDraft, Stands, Makes};
ghost use Rattle.code_draft.specs.Segments.{Step};
ghost use Rattle.code_emit.specs.Ways.{Given, IsMade, IsWay, IsLowest, KeepsLowest};

use crate::ways::{Measure, Way, made, of_two};
use bit_words::Kind;
use code_draft::{Draft, low_mask};
use flat_code::{Location, Op};
use prim_ops::Prim;
use std::alloc::AllocError;

/// The lowest bits of a sum, a difference or a product of what stands at two locations, or of the first moved up by the second, where words
/// suffice for it, however wide that itself is; else none, and the code stays as it is.
pub fn lowest_word(
    draft: &mut Draft,
    prim: Prim,
    operands: &[Location],
    measure: Measure,
) -> Result<Option<Location>, AllocError>
    ensures shape { IfOk result (λ o. IfSome o (λ s. location_shape s ≡ shaped measure.kind measure.width)) }
    ensures makes { IfOk result (λ o. IfSome o (λ s. (R : Given) (params : TheList ℕ) → IsLowest prim params measure.width operands.now R → IsDraft draft.old → All (Stands draft.old) operands.now → Makes draft.old draft.new s (IsMade R operands.now (shaped measure.kind measure.width)))) }
    ensures none { result ≡ Ok None → draft.new ≡ draft.old }
    ensures slots { OnOk result (draft.new.slots ≤ draft.old.slots + 2) }
    ensures step { IfOk result (λ o. IfSome o (λ s. Step draft.old draft.new (slots_of operands.now) (location_slots s) 2)) }
{
    if measure.width > 64 {
        return Ok(None);
    }
    match operands {
        [x, y] => {
            match lowest_way(prim, *x, *y, measure.width) {
                Some(way) => Ok(Some(made(draft, way, measure)?)),
                None => Ok(None),
            }
        }
        _ => Ok(None),
    }
}

/// The way of such lowest bits.
fn lowest_way(prim: Prim, x: Location, y: Location, width: u8) -> Option<Way>
    requires { width ≤ 64 }
    ensures { IfSome result (λ way. (R : Given) (params : TheList ℕ) → IsLowest prim params width (x ∷ y ∷ []) R → IsWay way (x ∷ y ∷ []) R) }
{
    if !keeps_lowest(x, width) || !keeps_lowest(y, width) {
        return None;
    }
    match prim {
        Prim::Add => Some(Way::Word(of_two(Op::Add, x, y, low_mask(width)))),
        Prim::Sub => Some(Way::Word(of_two(Op::Sub, x, y, low_mask(width)))),
        Prim::Mul => Some(Way::Word(of_two(Op::Mul, x, y, low_mask(width)))),
        Prim::Dshl => Some(Way::Word(of_two(Op::LeftBy, x, y, low_mask(width)))),
        _ => None,
    }
}

/// Whether the word that stands there has the lowest bits of its integer, so many of them.
fn keeps_lowest(x: Location, width: u8) -> bool
    ensures { result ≡ true → KeepsLowest x width }
{
    if x.width > 64 {
        return false;
    }
    match x.kind {
        Kind::Unsigned => true,
        Kind::Signed => width <= x.width,
    }
}
