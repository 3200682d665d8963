//! Operations on two operands.

ghost use Rattle.std.specs.Prelude.{◌≡◌, ℕ, ◌≤◌, ◌∷◌, [], true, List, IfSome};
ghost use Rattle.prim_ops.specs.declared.operation.PrimOp.TheVariants.{Cat};
ghost use Rattle.flat_code.specs.declared.instr.Op.TheVariants.{Not};
ghost use Rattle.code_emit.specs.declared.ways.Way.TheVariants.{Twice};
ghost use Rattle.code_emit.specs.Working.{working};
ghost use Rattle.code_emit.specs.Ways.{IsPlain, GivesRow};

use crate::ways::{Way, of_one, of_two};
use bit_words::Kind;
use code_draft::low_mask;
use flat_code::{Instr, Location, Op};
use prim_ops::Prim;

/// The way of an operation on two operands of at most 64 bits to a result of at most 64 bits.
pub(crate) fn way_on_words(prim: Prim, x: Location, y: Location, width: u8) -> Option<Way>
    requires first { x.width ≤ 64 }
    requires second { y.width ≤ 64 }
    requires result { width ≤ 64 }
    ensures { IfSome result (λ way. (params : List ℕ) → GivesRow way prim params (x ∷ y ∷ []) width) }
{
    match prim {
        Prim::Cat => above(x, y),
        _ => {
            if is_plain(x) && is_plain(y) {
                way_on_two(prim, x, y, width)
            } else {
                None
            }
        }
    }
}

/// Whether a UInt of at most 64 bits stands there.
fn is_plain(x: Location) -> bool
    requires { x.width ≤ 64 }
    ensures { result ≡ true → IsPlain x }
{
    match x.kind {
        Kind::Unsigned => true,
        Kind::Signed => false,
    }
}

/// The way of an operation on two UInts of at most 64 bits to a result of at most 64 bits.
fn way_on_two(prim: Prim, x: Location, y: Location, width: u8) -> Option<Way>
    requires first { IsPlain x }
    requires second { IsPlain y }
    requires result { width ≤ 64 }
    ensures { IfSome result (λ way. (params : List ℕ) → GivesRow way prim params (x ∷ y ∷ []) width) }
{
    match prim {
        Prim::Add => Some(Way::Word(of_two(Op::Add, x, y, low_mask(width)))),
        Prim::Sub => Some(Way::Word(of_two(Op::Sub, x, y, low_mask(width)))),
        Prim::And => Some(Way::Word(of_two(Op::And, x, y, low_mask(width)))),
        Prim::Or => Some(Way::Word(of_two(Op::Or, x, y, low_mask(width)))),
        Prim::Xor => Some(Way::Word(of_two(Op::Xor, x, y, low_mask(width)))),
        Prim::Mul => Some(Way::Word(of_two(Op::Mul, x, y, low_mask(width)))),
        Prim::Div => Some(Way::Word(of_two(Op::Quotient, x, y, low_mask(width)))),
        Prim::Rem => Some(Way::Word(of_two(Op::Remainder, x, y, low_mask(width)))),
        Prim::Dshl => Some(Way::Word(of_two(Op::LeftBy, x, y, low_mask(width)))),
        Prim::Dshr => Some(Way::Word(of_two(Op::RightBy, x, y, low_mask(width)))),
        Prim::Eq => Some(Way::Word(of_two(Op::Equal, x, y, 1))),
        Prim::Lt => Some(Way::Word(of_two(Op::Less, x, y, 1))),
        Prim::Gt => Some(Way::Word(of_two(Op::Less, y, x, 1))),
        Prim::Neq => Some(turned(of_two(Op::Equal, x, y, 1), x)),
        Prim::Leq => Some(turned(of_two(Op::Less, y, x, 1), x)),
        Prim::Geq => Some(turned(of_two(Op::Less, x, y, 1), x)),
        _ => None,
    }
}

/// 1 where the test gives 0, and else 0.
fn turned(test: Instr, x: Location) -> Way
    ensures { result ≡ Twice test (working Not 0 x.low 0 0 1) }
{
    Way::Twice(test, of_one(Op::Not, x, 0, 1))
}

/// The way of one number above another.
fn above(x: Location, y: Location) -> Option<Way>
    requires first { x.width ≤ 64 }
    requires second { y.width ≤ 64 }
    ensures { IfSome result (λ way. (params : List ℕ) (width : ℕ) → width ≤ 64 → GivesRow way Cat params (x ∷ y ∷ []) width) }
{
    if y.width >= 64 {
        return None;
    }
    Some(Way::Word(Instr {
        op: Op::Join,
        shift: y.width,
        first: x.low,
        second: y.low,
        third: 0,
        target: 0,
        mask: 0,
    }))
}
