//! Values that are fitted to another width.

ghost use Rattle.std.specs.Prelude.{◌≡◌, ◌<◌, ◌≤◌, ◌+◌, ◌-◌, ◌^◌, ◌∷◌, [], Some, None, Ok, IfOk, OnOk, IfSome, All};
ghost use Rattle.bit_words.specs.declared.value.Kind.TheVariants.{Signed};
ghost use Rattle.flat_code.specs.Meaning.{location_shape};
ghost use Rattle.flat_code.specs.Fine.{location_slots, slots_of};
ghost use Rattle.ground_net.specs.Shapes.{shaped};
ghost use Rattle.code_draft.specs.Drafts.{IsDraft, Stands, Makes};
ghost use Rattle.code_draft.specs.Segments.{Step};
ghost use Rattle.code_emit.specs.Ways.{Given, IsMade, IsWay, Refits, fit_of_one};

use crate::ways::{Measure, Way, made, of_one};
use bit_words::Kind;
use code_draft::{Draft, low_mask};
use flat_code::{Location, Op};
use std::alloc::AllocError;

/// The value of one location, fitted to a kind and a width, where words suffice for it; else none, and the code stays as it is.
pub fn fit_word(
    draft: &mut Draft,
    operands: &[Location],
    measure: Measure,
) -> Result<Option<Location>, AllocError>
    ensures shape { IfOk result (λ o. IfSome o (λ s. location_shape s ≡ shaped measure.kind measure.width)) }
    ensures makes { IfOk result (λ o. IfSome o (λ s. IsDraft draft.old → All (Stands draft.old) operands.now → Makes draft.old draft.new s (IsMade (fit_of_one measure.kind measure.width) operands.now (shaped measure.kind measure.width)))) }
    ensures none { result ≡ Ok None → draft.new ≡ draft.old }
    ensures slots { OnOk result (draft.new.slots ≤ draft.old.slots + 2) }
    ensures step { IfOk result (λ o. IfSome o (λ s. Step draft.old draft.new (slots_of operands.now) (location_slots s) 2)) }
{
    if measure.width > 64 {
        return Ok(None);
    }
    match operands {
        [x] => {
            if x.width > 64 {
                return Ok(None);
            }
            match fit_way(*x, measure.width) {
                Some(way) => Ok(Some(made(draft, way, measure)?)),
                None => Ok(None),
            }
        }
        _ => Ok(None),
    }
}

/// The way of a value of at most 64 bits to another width of at most 64.
pub(crate) fn fit_way(x: Location, width: u8) -> Option<Way>
    requires operand { x.width ≤ 64 }
    requires result { width ≤ 64 }
    ensures { IfSome result (λ way. (R : Given) → Refits x width R → IsWay way (x ∷ []) R) }
{
    if width < x.width {
        return Some(Way::Word(of_one(Op::Keep, x, 0, low_mask(width))));
    }
    if width == x.width {
        return Some(Way::Same(x.low));
    }
    match x.kind {
        Kind::Unsigned => Some(Way::Same(x.low)),
        Kind::Signed => signed_way(x, width),
    }
}

/// The way of a value with a sign to a greater width.
fn signed_way(x: Location, width: u8) -> Option<Way>
    requires operand { x.width ≤ 64 }
    requires result { width ≤ 64 }
    requires kind { x.kind ≡ Signed }
    ensures { IfSome result (λ way. (R : Given) → Refits x width R → IsWay way (x ∷ []) R) }
{
    if x.width == 0 {
        return None;
    }
    Some(Way::Twice(
        of_one(Op::Extend, x, 0, sign_of(x.width)),
        of_one(Op::Keep, x, 0, low_mask(width)),
    ))
}

/// The sign's bit of a width from 1 to 64.
pub(crate) fn sign_of(width: u8) -> u64
    requires some { 0 < width }
    requires few { width ≤ 64 }
    ensures { result ≡ 2 ^ (width - 1) }
{
    1 << (width - 1)
}
