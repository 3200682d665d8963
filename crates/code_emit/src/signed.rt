//! Operations on two operands of which the first has a sign.

ghost use Rattle.std.specs.Prelude.{◌≡◌, ℕ, ◌≤◌, ◌∷◌, [], List, IfSome};
ghost use Rattle.bit_words.specs.declared.value.Kind.TheVariants.{Signed};
ghost use Rattle.flat_code.specs.declared.instr.Op.{Op as TheOp};
ghost use Rattle.code_emit.specs.Working.{working};
ghost use Rattle.code_emit.specs.Ways.{GivesWord, IsBoth, PairsRow};

use crate::fits::sign_of;
use crate::pairs::Pair;
use crate::ways::of_one;
use bit_words::Kind;
use code_draft::low_mask;
use flat_code::{Instr, Location, Op};
use prim_ops::Prim;

/// The pair of an operation on two operands of at most 64 bits, of which the first has a sign, to a result of at most 64 bits.
pub(crate) fn pair_on_two(prim: Prim, x: Location, y: Location, width: u8) -> Option<Pair>
    requires first { x.width ≤ 64 }
    requires second { y.width ≤ 64 }
    requires kind { x.kind ≡ Signed }
    requires result { width ≤ 64 }
    ensures { IfSome result (λ p. (params : List ℕ) → PairsRow p prim params (x ∷ y ∷ []) width) }
{
    match prim {
        Prim::Add => Some(both(x, y, last(Op::Add, low_mask(width)), false)),
        Prim::Sub => Some(both(x, y, last(Op::Sub, low_mask(width)), false)),
        Prim::And => Some(both(x, y, last(Op::And, low_mask(width)), false)),
        Prim::Or => Some(both(x, y, last(Op::Or, low_mask(width)), false)),
        Prim::Xor => Some(both(x, y, last(Op::Xor, low_mask(width)), false)),
        Prim::Mul => Some(both(x, y, last(Op::Mul, low_mask(width)), false)),
        Prim::Eq => Some(both(x, y, last(Op::Equal, 1), false)),
        Prim::Neq => Some(both(x, y, last(Op::Equal, 1), true)),
        Prim::Lt => Some(both(x, y, last(Op::Below, 1), false)),
        Prim::Gt => Some(both(y, x, last(Op::Below, 1), false)),
        Prim::Leq => Some(both(y, x, last(Op::Below, 1), true)),
        Prim::Geq => Some(both(x, y, last(Op::Below, 1), true)),
        _ => pair_by(prim, x, y, width),
    }
}

/// The pair of a value with a sign that is moved by a number of bits.
fn pair_by(prim: Prim, x: Location, y: Location, width: u8) -> Option<Pair>
    requires first { x.width ≤ 64 }
    requires second { y.width ≤ 64 }
    requires kind { x.kind ≡ Signed }
    requires result { width ≤ 64 }
    ensures { IfSome result (λ p. (params : List ℕ) → PairsRow p prim params (x ∷ y ∷ []) width) }
{
    match y.kind {
        Kind::Signed => None,
        Kind::Unsigned => match prim {
            Prim::Dshl => Some(both(x, y, last(Op::LeftBy, low_mask(width)), false)),
            Prim::Dshr => Some(both(x, y, last(Op::RightSigned, low_mask(width)), false)),
            _ => None,
        },
    }
}

/// An operation on the words of two values.
fn both(x: Location, y: Location, last: Instr, turned: bool) -> Pair
    requires first { x.width ≤ 64 }
    requires second { y.width ≤ 64 }
    ensures { (o : TheOp) (mask : ℕ) → last ≡ working o 0 0 0 0 mask → IsBoth result x y o mask turned }
{
    Pair {
        first: word_of(x),
        second: word_of(y),
        last,
        turned,
    }
}

/// The last instruction of a pair.
fn last(op: Op, mask: u64) -> Instr
    ensures { result ≡ working op 0 0 0 0 mask }
{
    Instr {
        op,
        shift: 0,
        first: 0,
        second: 0,
        third: 0,
        target: 0,
        mask,
    }
}

/// Gives the lowest 64 bits of the integer that stands there.
fn word_of(x: Location) -> Instr
    requires { x.width ≤ 64 }
    ensures { GivesWord result x }
{
    match x.kind {
        Kind::Unsigned => of_one(Op::Keep, x, 0, low_mask(64)),
        Kind::Signed => extended(x),
    }
}

/// The same of a value with a sign.
fn extended(x: Location) -> Instr
    requires few { x.width ≤ 64 }
    requires kind { x.kind ≡ Signed }
    ensures { GivesWord result x }
{
    if x.width == 0 {
        of_one(Op::Keep, x, 0, low_mask(64))
    } else {
        of_one(Op::Extend, x, 0, sign_of(x.width))
    }
}
