//! Comparisons.

ghost use Rattle.std.specs.Prelude.{◌≡◌, IsSome, int_lt, int_le};
ghost use Rattle.std.specs.Ordering.{int_eq};
ghost use Rattle.bit_words.specs.Values.{integer_of};
ghost use Rattle.prim_ops.specs.Integers.{meaning};
ghost use Rattle.prim_ops.specs.Kinds.{kind_on_two};
ghost use Rattle.prim_ops.specs.Results.{IsOnTwo};

use crate::operation::PrimOp;
use crate::words::{Integer, integer_from, truth};
use bit_words::Value;

/// Whether the first is less.
pub(crate) fn less(first: Value, second: Value) -> Value
    requires { IsSome (kind_on_two PrimOp.Lt first.kind second.kind) }
    ensures { IsOnTwo PrimOp.Lt first second result }
{
    truth(is_less(integer_from(first), integer_from(second)))
}

/// Whether the first is at most the second.
pub(crate) fn at_most(first: Value, second: Value) -> Value
    requires { IsSome (kind_on_two PrimOp.Leq first.kind second.kind) }
    ensures { IsOnTwo PrimOp.Leq first second result }
{
    truth(is_at_most(integer_from(first), integer_from(second)))
}

/// Whether the first is greater.
pub(crate) fn greater(first: Value, second: Value) -> Value
    requires { IsSome (kind_on_two PrimOp.Gt first.kind second.kind) }
    ensures { IsOnTwo PrimOp.Gt first second result }
{
    truth(is_less(integer_from(second), integer_from(first)))
}

/// Whether the first is at least the second.
pub(crate) fn at_least(first: Value, second: Value) -> Value
    requires { IsSome (kind_on_two PrimOp.Geq first.kind second.kind) }
    ensures { IsOnTwo PrimOp.Geq first second result }
{
    truth(is_at_most(integer_from(second), integer_from(first)))
}

/// Whether both are equal.
pub(crate) fn equal(first: Value, second: Value) -> Value
    requires { IsSome (kind_on_two PrimOp.Eq first.kind second.kind) }
    ensures { IsOnTwo PrimOp.Eq first second result }
{
    truth(is_equal(integer_from(first), integer_from(second)))
}

/// Whether both differ.
pub(crate) fn differ(first: Value, second: Value) -> Value
    requires { IsSome (kind_on_two PrimOp.Neq first.kind second.kind) }
    ensures { IsOnTwo PrimOp.Neq first second result }
{
    truth(!is_equal(integer_from(first), integer_from(second)))
}

fn is_less(first: Integer, second: Integer) -> bool
    ensures { result ≡ int_lt (meaning first) (meaning second) }
{
    match (first, second) {
        (Integer::FromZero(first), Integer::FromZero(second)) => first < second,
        (Integer::FromZero(_), Integer::BelowZero(_)) => false,
        (Integer::BelowZero(_), Integer::FromZero(_)) => true,
        (Integer::BelowZero(first), Integer::BelowZero(second)) => second < first,
    }
}

fn is_at_most(first: Integer, second: Integer) -> bool
    ensures { result ≡ int_le (meaning first) (meaning second) }
{
    match (first, second) {
        (Integer::FromZero(first), Integer::FromZero(second)) => first <= second,
        (Integer::FromZero(_), Integer::BelowZero(_)) => false,
        (Integer::BelowZero(_), Integer::FromZero(_)) => true,
        (Integer::BelowZero(first), Integer::BelowZero(second)) => second <= first,
    }
}

fn is_equal(first: Integer, second: Integer) -> bool
    ensures { result ≡ int_eq (meaning first) (meaning second) }
{
    match (first, second) {
        (Integer::FromZero(first), Integer::FromZero(second))
        | (Integer::BelowZero(first), Integer::BelowZero(second)) => first == second,
        (Integer::FromZero(_), Integer::BelowZero(_))
        | (Integer::BelowZero(_), Integer::FromZero(_)) => false,
    }
}
