//! Operations bit by bit, and over all bits.

ghost use Rattle.std.specs.Prelude.{IsSome};
ghost use Rattle.prim_ops.specs.Kinds.{kind_on_two};
ghost use Rattle.prim_ops.specs.Results.{IsOnOne, IsOnTwo};

use crate::operation::PrimOp;
use crate::words::{cut, greatest, truth, word_of};
use bit_words::{Kind, Value};

/// Bit by bit: both are 1.
pub(crate) fn and(first: Value, second: Value) -> Value
    requires { IsSome (kind_on_two PrimOp.And first.kind second.kind) }
    ensures { IsOnTwo PrimOp.And first second result }
{
    let word = word_of(first) & word_of(second);
    cut(Kind::Unsigned, first.width.max(second.width), word)
}

/// Bit by bit: at least one is 1.
pub(crate) fn or(first: Value, second: Value) -> Value
    requires { IsSome (kind_on_two PrimOp.Or first.kind second.kind) }
    ensures { IsOnTwo PrimOp.Or first second result }
{
    let word = word_of(first) | word_of(second);
    cut(Kind::Unsigned, first.width.max(second.width), word)
}

/// Bit by bit: exactly one is 1.
pub(crate) fn xor(first: Value, second: Value) -> Value
    requires { IsSome (kind_on_two PrimOp.Xor first.kind second.kind) }
    ensures { IsOnTwo PrimOp.Xor first second result }
{
    let word = word_of(first) ^ word_of(second);
    cut(Kind::Unsigned, first.width.max(second.width), word)
}

/// Each bit turned.
pub(crate) fn not(operand: Value) -> Value
    ensures { IsOnOne PrimOp.Not operand 0 0 result }
{
    cut(
        Kind::Unsigned,
        operand.width,
        greatest(operand.width) - operand.bits,
    )
}

/// Whether all bits are 1.
pub(crate) fn and_over(operand: Value) -> Value
    ensures { IsOnOne PrimOp.Andr operand 0 0 result }
{
    truth(operand.bits == greatest(operand.width))
}

/// Whether some bit is 1.
pub(crate) fn or_over(operand: Value) -> Value
    ensures { IsOnOne PrimOp.Orr operand 0 0 result }
{
    truth(operand.bits != 0)
}

/// Whether an odd number of bits are 1.
pub(crate) fn xor_over(operand: Value) -> Value
    ensures { IsOnOne PrimOp.Xorr operand 0 0 result }
{
    cut(Kind::Unsigned, 1, u128::from(operand.bits.count_ones() % 2))
}
