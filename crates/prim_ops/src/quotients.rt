//! Quotients and remainders.

ghost use Rattle.std.specs.Prelude.{◌≡◌, ℕ, ◌/◌, ◌%◌, ◌≤◌, ◌<◌, ◌^◌, IsSome, unsigned_abs};
ghost use Rattle.bit_words.specs.Values.{bits_of};
ghost use Rattle.prim_ops.specs.Integers.{meaning, is_below, signed_by};
ghost use Rattle.prim_ops.specs.Kinds.{kind_on_two};
ghost use Rattle.prim_ops.specs.Widths.{width_on_two};
ghost use Rattle.prim_ops.specs.Results.{IsOnTwo};

use crate::operation::PrimOp;
use crate::words::{Integer, cut, integer_from};
use bit_words::{Kind, Value};

/// The quotient, rounded toward zero, and 0 for the divisor 0.
pub(crate) fn divide(first: Value, second: Value) -> Value
    requires row { IsSome (kind_on_two PrimOp.Div first.kind second.kind) }
    requires narrow { width_on_two PrimOp.Div first.kind first.width second.width ≤ 128 }
    ensures { IsOnTwo PrimOp.Div first second result }
{
    let numerator = integer_from(first);
    let divisor = integer_from(second);
    let size = over(magnitude(numerator), magnitude(divisor));
    let word = with_sign(is_negative(numerator) != is_negative(divisor), size);
    cut(first.kind, quotient_width(first), word)
}

/// What the quotient leaves, with the numerator's sign, and 0 for the divisor 0.
pub(crate) fn remain(first: Value, second: Value) -> Value
    requires row { IsSome (kind_on_two PrimOp.Rem first.kind second.kind) }
    ensures { IsOnTwo PrimOp.Rem first second result }
{
    let numerator = integer_from(first);
    let divisor = integer_from(second);
    let size = left_over(magnitude(numerator), magnitude(divisor));
    let word = with_sign(is_negative(numerator), size);
    cut(first.kind, first.width.min(second.width), word)
}

/// The quotient of two magnitudes, and 0 for the divisor 0.
fn over(numerator: u128, divisor: u128) -> u128
    ensures zero { divisor ≡ 0 → result ≡ 0 }
    ensures other { 0 < divisor → result ≡ numerator / divisor }
{
    numerator.checked_div(divisor).unwrap_or(0)
}

/// The remainder of two magnitudes, and 0 for the divisor 0.
fn left_over(numerator: u128, divisor: u128) -> u128
    ensures zero { divisor ≡ 0 → result ≡ 0 }
    ensures other { 0 < divisor → result ≡ numerator % divisor }
{
    numerator.checked_rem(divisor).unwrap_or(0)
}

/// The width of a quotient: of two `SInt` it takes one bit more than the numerator.
fn quotient_width(numerator: Value) -> u8
    requires { width_on_two PrimOp.Div numerator.kind numerator.width 0 ≤ 128 }
    ensures { (divisor : ℕ) → result ≡ width_on_two PrimOp.Div numerator.kind numerator.width divisor }
{
    match numerator.kind {
        Kind::Unsigned => numerator.width,
        Kind::Signed => numerator.width + 1,
    }
}

/// The integer without its sign.
fn magnitude(integer: Integer) -> u128
    requires { unsigned_abs (meaning integer) < 2 ^ 128 }
    ensures { result ≡ unsigned_abs (meaning integer) }
{
    match integer {
        Integer::FromZero(number) => number,
        Integer::BelowZero(number) => number + 1,
    }
}

/// Whether the integer is below zero.
fn is_negative(integer: Integer) -> bool
    ensures { result ≡ is_below (meaning integer) }
{
    match integer {
        Integer::FromZero(_) => false,
        Integer::BelowZero(_) => true,
    }
}

/// The lowest 128 bits, in two's complement, of the integer with this sign and magnitude.
fn with_sign(negative: bool, size: u128) -> u128
    ensures { result ≡ bits_of 128 (signed_by negative size) }
{
    if negative {
        0_u128.wrapping_sub(size)
    } else {
        size
    }
}
