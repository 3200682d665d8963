//! Operations that move bits: other kinds and widths, shifts, and parts of values.

ghost use Rattle.std.specs.Prelude.{◌≡◌, ◌≤◌, ◌^◌, IsSome};
ghost use Rattle.prim_ops.specs.Integers.{meaning};
ghost use Rattle.prim_ops.specs.Kinds.{kind_on_two};
ghost use Rattle.prim_ops.specs.Widths.{width_on_one, width_on_two, FitOn};
ghost use Rattle.prim_ops.specs.Results.{floor_div, IsOnOne, IsOnTwo};

use crate::operation::PrimOp;
use crate::widths::shifted;
use crate::words::{Integer, cut, integer_from, lowered, raised, word_from, word_of};
use bit_words::{Kind, Value, fit};

/// The same value, at least this wide.
pub(crate) fn pad(operand: Value, width: u128) -> Value
    requires { width_on_one PrimOp.Pad operand.kind operand.width width 0 ≤ 128 }
    ensures { IsOnOne PrimOp.Pad operand width 0 result }
{
    fit(operand.kind, operand.width.max(width as u8), operand)
}

/// The same value with a sign.
pub(crate) fn convert(operand: Value) -> Value
    requires { width_on_one PrimOp.Cvt operand.kind operand.width 0 0 ≤ 128 }
    ensures { IsOnOne PrimOp.Cvt operand 0 0 result }
{
    match operand.kind {
        Kind::Unsigned => fit(Kind::Signed, operand.width + 1, operand),
        Kind::Signed => operand,
    }
}

/// The same bits, read without a sign.
pub(crate) fn as_unsigned(operand: Value) -> Value
    ensures { IsOnOne PrimOp.AsUInt operand 0 0 result }
{
    cut(Kind::Unsigned, operand.width, operand.bits)
}

/// The same bits, read with a sign.
pub(crate) fn as_signed(operand: Value) -> Value
    ensures { IsOnOne PrimOp.AsSInt operand 0 0 result }
{
    cut(Kind::Signed, operand.width, operand.bits)
}

/// The value times 2 to the power of a parameter.
pub(crate) fn shift_left(operand: Value, by: u128) -> Value
    requires { width_on_one PrimOp.Shl operand.kind operand.width by 0 ≤ 128 }
    ensures { IsOnOne PrimOp.Shl operand by 0 result }
{
    cut(
        operand.kind,
        operand.width + by as u8,
        raised(word_of(operand), by),
    )
}

/// The value divided by 2 to the power of a parameter, rounded down.
pub(crate) fn shift_right(operand: Value, by: u128) -> Value
    ensures { IsOnOne PrimOp.Shr operand by 0 result }
{
    let width = u128::from(operand.width).saturating_sub(by).max(1) as u8;
    cut(
        operand.kind,
        width,
        word_from(floor(integer_from(operand), by)),
    )
}

/// The same in a text of version 4.
pub(crate) fn shift_right_four(operand: Value, by: u128) -> Value
    ensures { IsOnOne PrimOp.ShrFour operand by 0 result }
{
    let width = shifted(operand.kind, u128::from(operand.width), by) as u8;
    cut(
        operand.kind,
        width,
        word_from(floor(integer_from(operand), by)),
    )
}

/// The lowest bit, as an asynchronous reset.
pub(crate) fn as_async_reset(operand: Value) -> Value
    ensures { IsOnOne PrimOp.AsAsyncReset operand 0 0 result }
{
    cut(Kind::Unsigned, 1, operand.bits)
}

/// The integer divided by 2 to a power, rounded down.
fn floor(integer: Integer, by: u128) -> Integer
    ensures { meaning result ≡ floor_div (meaning integer) (2 ^ by) }
{
    match integer {
        Integer::FromZero(number) => Integer::FromZero(lowered(number, by)),
        Integer::BelowZero(number) => Integer::BelowZero(lowered(number, by)),
    }
}

/// The first value times 2 to the power of the second.
pub(crate) fn shift_left_by(first: Value, second: Value) -> Value
    requires row { IsSome (kind_on_two PrimOp.Dshl first.kind second.kind) }
    requires narrow { width_on_two PrimOp.Dshl first.kind first.width second.width ≤ 128 }
    ensures { IsOnTwo PrimOp.Dshl first second result }
{
    let more = (1_u128 << second.width) - 1;
    cut(
        first.kind,
        first.width + more as u8,
        raised(word_of(first), second.bits),
    )
}

/// The first value divided by 2 to the power of the second, rounded down.
pub(crate) fn shift_right_by(first: Value, second: Value) -> Value
    requires row { IsSome (kind_on_two PrimOp.Dshr first.kind second.kind) }
    ensures { IsOnTwo PrimOp.Dshr first second result }
{
    let shifted = floor(integer_from(first), second.bits);
    cut(first.kind, first.width, word_from(shifted))
}

/// The bits of the first above those of the second.
pub(crate) fn concatenate(first: Value, second: Value) -> Value
    requires row { IsSome (kind_on_two PrimOp.Cat first.kind second.kind) }
    requires narrow { width_on_two PrimOp.Cat first.kind first.width second.width ≤ 128 }
    ensures { IsOnTwo PrimOp.Cat first second result }
{
    let top = raised(first.bits, u128::from(second.width));
    cut(
        Kind::Unsigned,
        first.width + second.width,
        top | second.bits,
    )
}

/// The bits from the first place down to the second.
pub(crate) fn extract(operand: Value, high: u128, low: u128) -> Value
    requires { FitOn PrimOp.Bits operand.width high low }
    ensures { IsOnOne PrimOp.Bits operand high low result }
{
    cut(
        Kind::Unsigned,
        (high - low + 1) as u8,
        lowered(operand.bits, low),
    )
}

/// The highest bits, as many as the parameter says.
pub(crate) fn head(operand: Value, count: u128) -> Value
    requires { FitOn PrimOp.Head operand.width count 0 }
    ensures { IsOnOne PrimOp.Head operand count 0 result }
{
    let below = u128::from(operand.width) - count;
    cut(Kind::Unsigned, count as u8, lowered(operand.bits, below))
}

/// All but the highest bits, of which the parameter says how many.
pub(crate) fn tail(operand: Value, count: u128) -> Value
    requires { FitOn PrimOp.Tail operand.width count 0 }
    ensures { IsOnOne PrimOp.Tail operand count 0 result }
{
    cut(Kind::Unsigned, operand.width - count as u8, operand.bits)
}
