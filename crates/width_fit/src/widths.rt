//! The widths of operations.

ghost use Rattle.std.specs.Prelude.{◌≡◌, map, length, IfOk};
ghost use Rattle.width_fit.specs.Surveys.{kept_kind, kept_width, width_in_row};

use crate::faults::lone;
use crate::found::Surveyed;
use bit_words::Kind;
use prim_ops::{Prim, Width, arity};
use std::alloc::{AllocError, Global};
use width_rules::measuring::{kind, row_of};

pub fn kinds_of(alloc: Global, operands: &[Surveyed]) -> Result<Vec<Kind>, AllocError>
    ensures { IfOk result (λ kinds. kinds.items ≡ map kept_kind operands.now) }
{
    let mut kinds = Vec::new(alloc);
    for operand in operands {
        kinds.push(kind(&operand.part.typ))?;
    }
    Ok(kinds)
}

pub fn lone_widths(alloc: Global, operands: &[Surveyed]) -> Result<Vec<Width>, AllocError>
    ensures { IfOk result (λ widths. widths.items ≡ map kept_width operands.now) }
{
    let mut widths = Vec::new(alloc);
    for operand in operands {
        widths.push(lone(operand.widths.as_slice()))?;
    }
    Ok(widths)
}

/// The width of an operation's result, and 0 bits where it doesn't take these operands.
pub fn width_in_row(prim: Prim, kinds: &[Kind], widths: &[Width], params: &[u128]) -> Width
    requires { length widths.now ≡ length kinds.now }
    ensures { result ≡ width_in_row prim kinds.now widths.now params.now }
{
    let (operands, parameters) = arity(prim);
    if kinds.len() == operands as usize
        && params.len() == parameters as usize
        && row_of(prim, kinds).is_some()
    {
        prim_ops::width_of(prim, kinds, widths, params)
    } else {
        Width::Bits(0)
    }
}
