//! The values of operations.

ghost use Rattle.std.specs.Prelude.{◌≡◌, ◌≤◌, IsSome, length};
ghost use Rattle.prim_ops.specs.Operations.{arity_of};
ghost use Rattle.prim_ops.specs.Kinds.{kind_on_one, kind_on_two, row_kind};
ghost use Rattle.prim_ops.specs.Widths.{width_on_one, width_on_two, width_number, FitOn, ParamsFit};
ghost use Rattle.prim_ops.specs.Results.{kinds_of, widths_of, IsOnOne, IsOnTwo, IsResult};

use crate::bitwise::{and, and_over, not, or, or_over, xor, xor_over};
use crate::operation::PrimOp;
use crate::orders::{at_least, at_most, differ, equal, greater, less};
use crate::places::{
    as_async_reset, as_signed, as_unsigned, concatenate, convert, extract, head, pad, shift_left,
    shift_left_by, shift_right, shift_right_by, shift_right_four, tail,
};
use crate::quotients::{divide, remain};
use crate::sums::{add, multiply, negate, subtract};
use crate::widths::parameter;
use bit_words::Value;

/// The value of an operation (FIRRTL specification 3.0, "Primitive Operations"): its kind is that of `kind_of`, its width
/// that of `width_of`, and its integer the operation's result modulo 2 to the power of the width, read in its kind.
///
/// There are as many values and parameters as the operation takes, it takes values of these kinds, the parameters fit
/// (`params_fit`), and the width is in bits. Takes no memory.
pub fn value_of(prim: PrimOp, values: &[Value], params: &[u128]) -> Value
    requires operands { length values.now ≡ (arity_of prim).0 }
    requires parameters { length params.now ≡ (arity_of prim).1 }
    requires row { IsSome (row_kind prim (kinds_of values.now)) }
    requires fit { ParamsFit prim (widths_of values.now) params.now }
    requires narrow { width_number prim (kinds_of values.now) (widths_of values.now) params.now ≤ 128 }
    ensures { IsResult prim values.now params.now result }
{
    let value = match values {
        [operand] => on_one(prim, *operand, parameter(params, 0), parameter(params, 1)),
        [first, second] => on_two(prim, *first, *second),
        _ => unreachable!(),
    };
    // Field by field, so that no padding is copied.
    Value {
        kind: value.kind,
        width: value.width,
        bits: value.bits,
    }
}

/// The value of an operation on one operand.
fn on_one(prim: PrimOp, operand: Value, first: u128, second: u128) -> Value
    requires row { IsSome (kind_on_one prim operand.kind) }
    requires fit { FitOn prim operand.width first second }
    requires narrow { width_on_one prim operand.kind operand.width first second ≤ 128 }
    ensures { IsOnOne prim operand first second result }
{
    match prim {
        PrimOp::Pad => pad(operand, first),
        PrimOp::AsUInt => as_unsigned(operand),
        PrimOp::AsSInt => as_signed(operand),
        PrimOp::AsAsyncReset => as_async_reset(operand),
        PrimOp::Shl => shift_left(operand, first),
        PrimOp::Shr => shift_right(operand, first),
        PrimOp::ShrFour => shift_right_four(operand, first),
        PrimOp::Cvt => convert(operand),
        PrimOp::Neg => negate(operand),
        PrimOp::Not => not(operand),
        PrimOp::Andr => and_over(operand),
        PrimOp::Orr => or_over(operand),
        PrimOp::Xorr => xor_over(operand),
        PrimOp::Bits => extract(operand, first, second),
        PrimOp::Head => head(operand, first),
        PrimOp::Tail => tail(operand, first),
        _ => unreachable!(),
    }
}

/// The value of an operation on two operands.
fn on_two(prim: PrimOp, first: Value, second: Value) -> Value
    requires row { IsSome (kind_on_two prim first.kind second.kind) }
    requires narrow { width_on_two prim first.kind first.width second.width ≤ 128 }
    ensures { IsOnTwo prim first second result }
{
    match prim {
        PrimOp::Add => add(first, second),
        PrimOp::Sub => subtract(first, second),
        PrimOp::Mul => multiply(first, second),
        PrimOp::Div => divide(first, second),
        PrimOp::Rem => remain(first, second),
        PrimOp::Lt => less(first, second),
        PrimOp::Leq => at_most(first, second),
        PrimOp::Gt => greater(first, second),
        PrimOp::Geq => at_least(first, second),
        PrimOp::Eq => equal(first, second),
        PrimOp::Neq => differ(first, second),
        PrimOp::Dshl => shift_left_by(first, second),
        PrimOp::Dshr => shift_right_by(first, second),
        PrimOp::And => and(first, second),
        PrimOp::Or => or(first, second),
        PrimOp::Xor => xor(first, second),
        PrimOp::Cat => concatenate(first, second),
        _ => unreachable!(),
    }
}
