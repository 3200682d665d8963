//! The widths of formulas.

ghost use Rattle.std.specs.Prelude.{◌≡◌, length, map, All, IsSome};
ghost use Rattle.prim_ops.specs.Kinds.{row_kind};
ghost use Rattle.prim_ops.specs.Operations.{arity_of};
ghost use Rattle.prim_ops.specs.Widths.{row_width};
ghost use Rattle.width_rules.specs.Formulas.{greatest, width_under, IsFormula};

use bit_words::Kind;
use prim_ops::{Prim, Width, width_of};
use width_rules::Formula;
use width_rules::widths::{bounded, wider};

/// The width of a formula under widths of its variables. Takes no memory.
#[cycle(width)]
pub fn width_of_formula(formula: &Formula, widths: &[Width]) -> Width
    requires fits { IsFormula (length widths.now) formula.now }
    ensures { result ≡ width_under formula.now widths.now }
{
    match formula {
        Formula::Fixed(bits) => bounded(u128::from(*bits)),
        Formula::Var(variable) => widths[*variable as usize],
        Formula::Op(prim, kinds, parts, params) => {
            width_of_operation(
                *prim,
                kinds.as_slice(),
                parts.as_slice(),
                params.as_slice(),
                widths,
            )
        }
        Formula::Greatest(parts) => greatest_of(parts.as_slice(), widths),
    }
}

#[cycle(width)]
fn width_of_operation(
    prim: Prim,
    kinds: &[Kind],
    parts: &[Formula],
    params: &[u128],
    widths: &[Width],
) -> Width
    requires operands { length kinds.now ≡ (arity_of prim).0 }
    requires parts { length parts.now ≡ (arity_of prim).0 }
    requires parameters { length params.now ≡ (arity_of prim).1 }
    requires row { IsSome (row_kind prim kinds.now) }
    requires fits { All (IsFormula (length widths.now)) parts.now }
    ensures { result ≡ row_width prim kinds.now (map (λ part. width_under part widths.now) parts.now) params.now }
{
    match parts {
        [part] => {
            let operand = width_of_formula(part, widths);
            width_of(prim, kinds, &[operand], params)
        }
        [first, second] => {
            let left = width_of_formula(first, widths);
            let right = width_of_formula(second, widths);
            width_of(prim, kinds, &[left, right], params)
        }
        _ => unreachable!(),
    }
}

#[cycle(width)]
fn greatest_of(parts: &[Formula], widths: &[Width]) -> Width
    requires fits { All (IsFormula (length widths.now)) parts.now }
    ensures { result ≡ greatest (map (λ part. width_under part widths.now) parts.now) }
{
    let mut most = Width::Bits(0);
    for part in parts {
        most = wider(most, width_of_formula(part, widths));
    }
    most
}
