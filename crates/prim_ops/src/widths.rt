//! Widths, and the widths of results.

ghost use Rattle.std.specs.Prelude.{◌≡◌, ◌↔◌, ℕ, ◌+◌, ◌-◌, ◌^◌, ◌<◌, ◌≤◌, IsTrue, IsSome, length, slice_index};
ghost use Rattle.prim_ops.specs.Operations.{arity_of};
ghost use Rattle.prim_ops.specs.Kinds.{row_kind};
ghost use Rattle.prim_ops.specs.Widths.{width_on_one, width_on_two, bounded, row_width, FitOn, ParamsFit};

use crate::operation::PrimOp;
use bit_words::Kind;

/// A width as it is inferred.
#[derive(Clone, Copy, Debug, PartialEq, Eq)]
pub enum Width {
    /// This many bits, at most 128.
    Bits(u8),
    /// More than 128 bits.
    Over,
}

/// The width of an operation's result (FIRRTL specification 3.0, "Primitive Operations"): its formula over the widths of
/// the operands and the parameters, and `Over` where an operand is `Over` or the formula's number is above 128.
///
/// There are as many kinds, widths and parameters as the operation takes, and it takes these kinds. The parameters needn't
/// fit: `tail` by more than the width has the width 0, and so has `bits` with its second parameter above the first. Takes no
/// memory.
pub fn width_of(prim: PrimOp, kinds: &[Kind], widths: &[Width], params: &[u128]) -> Width
    requires operands { length kinds.now ≡ (arity_of prim).0 }
    requires widths { length widths.now ≡ (arity_of prim).0 }
    requires parameters { length params.now ≡ (arity_of prim).1 }
    requires row { IsSome (row_kind prim kinds.now) }
    ensures { result ≡ row_width prim kinds.now widths.now params.now }
{
    match (kinds, widths) {
        ([kind], [Width::Bits(width)]) => {
            let first = parameter(params, 0);
            let second = parameter(params, 1);
            at_most_128(on_one(prim, *kind, *width, first, second))
        }
        ([kind, _], [Width::Bits(first), Width::Bits(second)]) => {
            at_most_128(on_two(prim, *kind, *first, *second))
        }
        _ => Width::Over,
    }
}

/// A parameter, and 0 where there are fewer.
pub(crate) fn parameter(params: &[u128], at: usize) -> u128
    ensures { result ≡ slice_index params.now at }
{
    params.get(at).copied().unwrap_or(0)
}

/// The width of this number of bits.
fn at_most_128(bits: u128) -> Width
    ensures { result ≡ bounded bits }
{
    if bits <= 128 {
        Width::Bits(bits as u8)
    } else {
        Width::Over
    }
}

/// The width of the result on one operand, or another number above 128 in place of one.
fn on_one(prim: PrimOp, kind: Kind, width: u8, first: u128, second: u128) -> u128
    ensures { bounded result ≡ bounded (width_on_one prim kind width first second) }
{
    let width = u128::from(width);
    match prim {
        PrimOp::Pad => width.max(first),
        PrimOp::AsUInt | PrimOp::AsSInt | PrimOp::Not => width,
        PrimOp::Shl => width.saturating_add(first),
        PrimOp::Shr => width.saturating_sub(first).max(1),
        PrimOp::ShrFour => shifted(kind, width, first),
        PrimOp::Cvt => converted(kind, width),
        PrimOp::Neg => width + 1,
        PrimOp::Andr | PrimOp::Orr | PrimOp::Xorr | PrimOp::AsAsyncReset => 1,
        PrimOp::Bits => extracted(first, second),
        PrimOp::Head => first,
        PrimOp::Tail => width.saturating_sub(first),
        PrimOp::Add
        | PrimOp::Sub
        | PrimOp::Mul
        | PrimOp::Div
        | PrimOp::Rem
        | PrimOp::Lt
        | PrimOp::Leq
        | PrimOp::Gt
        | PrimOp::Geq
        | PrimOp::Eq
        | PrimOp::Neq
        | PrimOp::Dshl
        | PrimOp::Dshr
        | PrimOp::And
        | PrimOp::Or
        | PrimOp::Xor
        | PrimOp::Cat => 0,
    }
}

/// How many bits there are from the first place down to the second, and 0 where the second is above.
fn extracted(high: u128, low: u128) -> u128
    ensures { bounded result ≡ bounded (high + 1 - low) }
{
    if low > high {
        0
    } else {
        (high - low).saturating_add(1)
    }
}

/// The width of the result of `cvt`.
fn converted(kind: Kind, width: u128) -> u128
    requires { width < 2 ^ 8 }
    ensures { result ≡ width_on_one PrimOp.Cvt kind width 0 0 }
{
    match kind {
        Kind::Unsigned => width + 1,
        Kind::Signed => width,
    }
}

/// The width of the result of `shr` in version 4: a `SInt` keeps its sign.
pub(crate) fn shifted(kind: Kind, width: u128, by: u128) -> u128
    requires { width < 2 ^ 8 }
    ensures { result ≡ width_on_one PrimOp.ShrFour kind width by 0 }
{
    match kind {
        Kind::Unsigned => width.saturating_sub(by),
        Kind::Signed => width.saturating_sub(by).max(1),
    }
}

/// The width of the result on two operands, the first of this kind, or another number above 128 in place of one.
fn on_two(prim: PrimOp, kind: Kind, first: u8, second: u8) -> u128
    ensures { bounded result ≡ bounded (width_on_two prim kind first second) }
{
    let first = u128::from(first);
    let second = u128::from(second);
    match prim {
        PrimOp::Add | PrimOp::Sub => first.max(second) + 1,
        PrimOp::Mul | PrimOp::Cat => first + second,
        PrimOp::Div => divided(kind, first),
        PrimOp::Rem => first.min(second),
        PrimOp::Lt | PrimOp::Leq | PrimOp::Gt | PrimOp::Geq | PrimOp::Eq | PrimOp::Neq => 1,
        PrimOp::Dshl => first + greatest_shift(second),
        PrimOp::Dshr => first,
        PrimOp::And | PrimOp::Or | PrimOp::Xor => first.max(second),
        PrimOp::Pad
        | PrimOp::AsUInt
        | PrimOp::AsSInt
        | PrimOp::AsAsyncReset
        | PrimOp::Shl
        | PrimOp::Shr
        | PrimOp::ShrFour
        | PrimOp::Cvt
        | PrimOp::Neg
        | PrimOp::Not
        | PrimOp::Andr
        | PrimOp::Orr
        | PrimOp::Xorr
        | PrimOp::Bits
        | PrimOp::Head
        | PrimOp::Tail => 0,
    }
}

/// The width of the result of `div`: a numerator of kind `SInt` over -1 takes one bit more.
fn divided(kind: Kind, width: u128) -> u128
    requires { width < 2 ^ 8 }
    ensures { result ≡ width_on_two PrimOp.Div kind width 0 }
{
    match kind {
        Kind::Unsigned => width,
        Kind::Signed => width + 1,
    }
}

/// The greatest shift by a `UInt` of this width, or another number above 128 in place of one.
fn greatest_shift(width: u128) -> u128
    ensures exact { width < 8 → result + 1 ≡ 2 ^ width }
    ensures over { 8 ≤ width → result ≡ 255 }
{
    (1 << width.min(8)) - 1
}

/// Whether the parameters are in the operation's range on operands of these widths (FIRRTL specification 3.0, "Primitive
/// Operations"): `bits` takes its first parameter from the second up to below the width, `head` and `tail` at most the width.
///
/// There are as many widths and parameters as the operation takes. Takes no memory.
pub fn params_fit(prim: PrimOp, widths: &[u8], params: &[u128]) -> bool
    requires operands { length widths.now ≡ (arity_of prim).0 }
    requires parameters { length params.now ≡ (arity_of prim).1 }
    ensures { IsTrue result ↔ ParamsFit prim widths.now params.now }
{
    match widths {
        [width] => fit_on(prim, *width, parameter(params, 0), parameter(params, 1)),
        _ => true,
    }
}

/// Whether the parameters are in the operation's range on one operand of this width.
fn fit_on(prim: PrimOp, width: u8, first: u128, second: u128) -> bool
    ensures { IsTrue result ↔ FitOn prim width first second }
{
    let width = u128::from(width);
    match prim {
        PrimOp::Bits => second <= first && first < width,
        PrimOp::Head | PrimOp::Tail => first <= width,
        _ => true,
    }
}
