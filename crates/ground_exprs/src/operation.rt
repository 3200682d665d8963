//! Operations.

ghost use Rattle.std.specs.Prelude.{◌≡◌, [], ◌∷◌, map, length, Some, IfOk, IsSome};
ghost use Rattle.ground_net.specs.declared.ground.Ground.TheVariants.{Op};
ghost use Rattle.prim_ops.specs.declared.widths.Width.TheVariants.{Bits};
ghost use Rattle.ground_net.specs.Shapes.{shape_of_row};
ghost use Rattle.ground_exprs.specs.Sources.{told};

use crate::source::Source;
use bit_words::{Kind, List};
use ground_net::Ground;
use prim_ops::{Prim, Width, kind_of, width_of};
use std::alloc::{AllocError, Global};

/// The one source of what is no aggregate.
pub fn lone(sources: List<Source>) -> Source
    requires { length sources ≡ 1 }
    ensures { sources ≡ result ∷ [] }
{
    let mut items = sources.into_vec();
    match items.pop() {
        Some(source) => source,
        None => unreachable!(),
    }
}

/// An operation on these operands.
pub fn operation(
    alloc: Global,
    prim: Prim,
    operands: List<Source>,
    params: &[u128],
) -> Result<Source, AllocError>
    requires { IsSome (shape_of_row prim params.now (map told operands)) }
    ensures expr { IfOk result (λ s. s.expr ≡ Op prim (map (λ o. o.expr) operands) params.now) }
    ensures shape { IfOk result (λ s. shape_of_row prim params.now (map told operands) ≡ Some (told s)) }
{
    let parts = parts_of(alloc, operands)?;
    let Some(kind) = kind_of(prim, parts.kinds.as_slice()) else {
        unreachable!();
    };
    let Width::Bits(width) = width_of(
        prim,
        parts.kinds.as_slice(),
        parts.widths.as_slice(),
        params,
    ) else {
        unreachable!();
    };
    let params = List::from_slice(alloc, params)?;
    Ok(Source {
        expr: Ground::Op(prim, parts.exprs, params),
        kind,
        width,
    })
}

/// The expressions, the kinds and the widths of operands.
#[derive(Drop)]
struct Parts {
    exprs: List<Ground>,
    kinds: List<Kind>,
    widths: List<Width>,
}

fn parts_of(alloc: Global, operands: List<Source>) -> Result<Parts, AllocError>
    ensures exprs { IfOk result (λ parts. parts.exprs ≡ map (λ o. o.expr) operands) }
    ensures kinds { IfOk result (λ parts. parts.kinds ≡ map (λ o. o.kind) operands) }
    ensures widths { IfOk result (λ parts. parts.widths ≡ map (λ o. Bits o.width) operands) }
{
    let mut exprs = List::new(alloc);
    let mut kinds = List::new(alloc);
    let mut widths = List::new(alloc);
    for operand in operands.into_vec() {
        kinds.push(operand.kind)?;
        widths.push(Width::Bits(operand.width))?;
        exprs.push(operand.expr)?;
    }
    Ok(Parts {
        exprs,
        kinds,
        widths,
    })
}
