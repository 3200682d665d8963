//! Operations on one operand.

ghost use Rattle.std.specs.Prelude.{◌≡◌, ℕ, ◌<◌, ◌≤◌, ◌-◌, min, ◌∷◌, [], List, Some, IfSome, slice_index};
ghost use Rattle.bit_words.specs.declared.value.Kind.{Kind as TheKind};
ghost use Rattle.bit_words.specs.declared.value.Kind.TheVariants.{Unsigned, Signed};
ghost use Rattle.prim_ops.specs.declared.operation.PrimOp.TheVariants.{Shl as ShlOf};
ghost use Rattle.prim_ops.specs.Values.{operation};
ghost use Rattle.flat_code.specs.Meaning.{location_shape};
ghost use Rattle.ground_net.specs.Shapes.{shaped, shape_of_row};
ghost use Rattle.code_emit.specs.Ways.{Given, IsWay, Shifts, GivesRow};

use crate::fits::{fit_way, sign_of};
use crate::ways::{Way, of_one};
use bit_words::Kind;
use code_draft::low_mask;
use flat_code::{Location, Op};
use prim_ops::Prim;

/// The way of an operation on an operand of at most 64 bits to a result of at most 64 bits.
pub(crate) fn way_on_one(prim: Prim, x: Location, params: &[u128], width: u8) -> Option<Way>
    requires operand { x.width ≤ 64 }
    requires result { width ≤ 64 }
    ensures { IfSome result (λ way. GivesRow way prim params.now (x ∷ []) width) }
{
    match prim {
        Prim::Pad => fit_way(x, width),
        Prim::Cvt => fit_way(x, width),
        Prim::AsUInt => Some(Way::Same(x.low)),
        Prim::AsSInt => Some(Way::Same(x.low)),
        Prim::Not => Some(Way::Word(of_one(Op::Not, x, 0, low_mask(width)))),
        Prim::Tail => Some(Way::Word(of_one(Op::Keep, x, 0, low_mask(width)))),
        Prim::Bits => from_bit(x, parameter(params, 1), width),
        Prim::Head => from_bit(
            x,
            u128::from(x.width).saturating_sub(parameter(params, 0)),
            width,
        ),
        Prim::Andr => Some(Way::Word(of_one(Op::IsMask, x, 0, low_mask(x.width)))),
        Prim::Orr => Some(Way::Twice(of_one(Op::IsMask, x, 0, 0), of_one(Op::Not, x, 0, 1))),
        Prim::Xorr => Some(Way::Word(of_one(Op::Parity, x, 0, 0))),
        Prim::Shl => raised(x, parameter(params, 0), width),
        Prim::Shr => shifted(x, parameter(params, 0), width),
        Prim::ShrFour => shifted(x, parameter(params, 0), width),
        Prim::AsAsyncReset => Some(Way::Word(of_one(Op::Keep, x, 0, low_mask(width)))),
        _ => None,
    }
}

/// The way of the value moved up by a number of bits.
fn raised(x: Location, shift: u128, width: u8) -> Option<Way>
    requires operand { x.width ≤ 64 }
    requires result { width ≤ 64 }
    ensures { IfSome result (λ way. (params : List ℕ) → shift ≡ slice_index params 0 → GivesRow way ShlOf params (x ∷ []) width) }
{
    if shift >= 64 {
        return None;
    }
    match x.kind {
        Kind::Unsigned => Some(Way::Word(of_one(Op::Left, x, shift as u8, low_mask(width)))),
        Kind::Signed => raised_signed(x, shift as u8, width),
    }
}

/// The same of a value with a sign.
fn raised_signed(x: Location, shift: u8, width: u8) -> Option<Way>
    requires operand { x.width ≤ 64 }
    requires result { width ≤ 64 }
    requires kind { x.kind ≡ Signed }
    requires few { shift < 64 }
    ensures { IfSome result (λ way. (params : List ℕ) → shift ≡ slice_index params 0 → GivesRow way ShlOf params (x ∷ []) width) }
{
    if x.width == 0 {
        return None;
    }
    Some(Way::Twice(
        of_one(Op::Extend, x, 0, sign_of(x.width)),
        of_one(Op::Left, x, shift, low_mask(width)),
    ))
}

/// The way of the bits from this one on.
fn from_bit(x: Location, low: u128, width: u8) -> Option<Way>
    requires operand { x.width ≤ 64 }
    requires result { width ≤ 64 }
    ensures { IfSome result (λ way. (R : Given) → Shifts x low width R → IsWay way (x ∷ []) R) }
{
    if low >= 64 {
        return None;
    }
    Some(Way::Word(of_one(Op::Right, x, low as u8, low_mask(width))))
}

/// The way of the bits from this one on, and of the sign of an SInt where there are no more.
fn shifted(x: Location, low: u128, width: u8) -> Option<Way>
    requires operand { x.width ≤ 64 }
    requires result { width ≤ 64 }
    ensures { IfSome result (λ way. (R : Given) → (x.kind ≡ Unsigned → Shifts x low width R) → (x.kind ≡ Signed → 0 < x.width → Shifts x (min low (x.width - 1)) width R) → IsWay way (x ∷ []) R) }
{
    match x.kind {
        Kind::Unsigned => from_bit(x, low, width),
        Kind::Signed => {
            if x.width == 0 {
                return None;
            }
            from_bit(x, low.min(u128::from(x.width - 1)), width)
        }
    }
}

/// A parameter, and 0 where there are fewer.
fn parameter(params: &[u128], at: usize) -> u128
    ensures { result ≡ slice_index params.now at }
{
    params.get(at).copied().unwrap_or(0)
}
