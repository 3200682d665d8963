//! Sums, differences and products.

ghost use Rattle.std.specs.Prelude.{◌≤◌, IsSome};
ghost use Rattle.prim_ops.specs.Kinds.{kind_on_two};
ghost use Rattle.prim_ops.specs.Widths.{width_on_one, width_on_two};
ghost use Rattle.prim_ops.specs.Results.{IsOnOne, IsOnTwo};

use crate::operation::PrimOp;
use crate::words::{cut, word_of};
use bit_words::{Kind, Value};

/// The sum.
pub(crate) fn add(first: Value, second: Value) -> Value
    requires row { IsSome (kind_on_two PrimOp.Add first.kind second.kind) }
    requires narrow { width_on_two PrimOp.Add first.kind first.width second.width ≤ 128 }
    ensures { IsOnTwo PrimOp.Add first second result }
{
    let sum = word_of(first).wrapping_add(word_of(second));
    cut(first.kind, first.width.max(second.width) + 1, sum)
}

/// The difference.
pub(crate) fn subtract(first: Value, second: Value) -> Value
    requires row { IsSome (kind_on_two PrimOp.Sub first.kind second.kind) }
    requires narrow { width_on_two PrimOp.Sub first.kind first.width second.width ≤ 128 }
    ensures { IsOnTwo PrimOp.Sub first second result }
{
    let difference = word_of(first).wrapping_sub(word_of(second));
    cut(first.kind, first.width.max(second.width) + 1, difference)
}

/// The product.
pub(crate) fn multiply(first: Value, second: Value) -> Value
    requires row { IsSome (kind_on_two PrimOp.Mul first.kind second.kind) }
    requires narrow { width_on_two PrimOp.Mul first.kind first.width second.width ≤ 128 }
    ensures { IsOnTwo PrimOp.Mul first second result }
{
    let product = word_of(first).wrapping_mul(word_of(second));
    cut(first.kind, first.width + second.width, product)
}

/// The negated value.
pub(crate) fn negate(operand: Value) -> Value
    requires { width_on_one PrimOp.Neg operand.kind operand.width 0 0 ≤ 128 }
    ensures { IsOnOne PrimOp.Neg operand 0 0 result }
{
    let negated = 0_u128.wrapping_sub(word_of(operand));
    cut(Kind::Signed, operand.width + 1, negated)
}
