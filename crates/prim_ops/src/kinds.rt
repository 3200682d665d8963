//! The kinds of results.

ghost use Rattle.std.specs.Prelude.{◌≡◌, length};
ghost use Rattle.prim_ops.specs.Operations.{arity_of};
ghost use Rattle.prim_ops.specs.Kinds.{kind_on_one, kind_on_two, where_same, where_unsigned, row_kind};

use crate::operation::PrimOp;
use bit_words::Kind;

/// The kind of an operation's result on operands of these kinds (FIRRTL specification 3.0, "Primitive Operations").
///
/// There are as many kinds as the operation has operands. None exactly where the operation doesn't take these kinds.
/// Takes no memory.
pub fn kind_of(prim: PrimOp, kinds: &[Kind]) -> Option<Kind>
    requires { length kinds.now ≡ (arity_of prim).0 }
    ensures { result ≡ row_kind prim kinds.now }
{
    match kinds {
        [operand] => on_one(prim, *operand),
        [first, second] => on_two(prim, *first, *second),
        _ => None,
    }
}

/// The kind of the result on one operand.
fn on_one(prim: PrimOp, operand: Kind) -> Option<Kind>
    ensures { result ≡ kind_on_one prim operand }
{
    match prim {
        PrimOp::Pad | PrimOp::Shl | PrimOp::Shr | PrimOp::ShrFour => Some(operand),
        PrimOp::AsSInt | PrimOp::Cvt | PrimOp::Neg => Some(Kind::Signed),
        PrimOp::AsUInt
        | PrimOp::AsAsyncReset
        | PrimOp::Not
        | PrimOp::Andr
        | PrimOp::Orr
        | PrimOp::Xorr
        | PrimOp::Bits
        | PrimOp::Head
        | PrimOp::Tail => Some(Kind::Unsigned),
        PrimOp::Add
        | PrimOp::Sub
        | PrimOp::Mul
        | PrimOp::Div
        | PrimOp::Rem
        | PrimOp::Lt
        | PrimOp::Leq
        | PrimOp::Gt
        | PrimOp::Geq
        | PrimOp::Eq
        | PrimOp::Neq
        | PrimOp::Dshl
        | PrimOp::Dshr
        | PrimOp::And
        | PrimOp::Or
        | PrimOp::Xor
        | PrimOp::Cat => None,
    }
}

/// The kind of the result on two operands.
fn on_two(prim: PrimOp, first: Kind, second: Kind) -> Option<Kind>
    ensures { result ≡ kind_on_two prim first second }
{
    match prim {
        PrimOp::Add | PrimOp::Sub | PrimOp::Mul | PrimOp::Div | PrimOp::Rem => same(
            first, second, first,
        ),
        PrimOp::Lt
        | PrimOp::Leq
        | PrimOp::Gt
        | PrimOp::Geq
        | PrimOp::Eq
        | PrimOp::Neq
        | PrimOp::And
        | PrimOp::Or
        | PrimOp::Xor
        | PrimOp::Cat => same(first, second, Kind::Unsigned),
        PrimOp::Dshl | PrimOp::Dshr => shifted(first, second),
        PrimOp::Pad
        | PrimOp::AsUInt
        | PrimOp::AsSInt
        | PrimOp::AsAsyncReset
        | PrimOp::Shl
        | PrimOp::Shr
        | PrimOp::ShrFour
        | PrimOp::Cvt
        | PrimOp::Neg
        | PrimOp::Not
        | PrimOp::Andr
        | PrimOp::Orr
        | PrimOp::Xorr
        | PrimOp::Bits
        | PrimOp::Head
        | PrimOp::Tail => None,
    }
}

/// The result's kind where both operands have one kind.
fn same(first: Kind, second: Kind, kind: Kind) -> Option<Kind>
    ensures { result ≡ where_same first second kind }
{
    match (first, second) {
        (Kind::Unsigned, Kind::Unsigned) | (Kind::Signed, Kind::Signed) => Some(kind),
        (Kind::Unsigned, Kind::Signed) | (Kind::Signed, Kind::Unsigned) => None,
    }
}

/// The first operand's kind where the second is a `UInt`.
fn shifted(first: Kind, second: Kind) -> Option<Kind>
    ensures { result ≡ where_unsigned second first }
{
    match second {
        Kind::Unsigned => Some(first),
        Kind::Signed => None,
    }
}
