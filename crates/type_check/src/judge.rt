//! The walk through an expression.

ghost use Rattle.std.specs.Prelude.{◌≡◌, ◌<◌, All, length, map, option_map, IfOk, IfSome, OnOk};
ghost use Rattle.type_check.specs.Expressions.{found_of, judged, suffix_step, typed_operands, all_among, along};
ghost use Rattle.fir_tree.specs.Kinds.{no_type};
ghost use Rattle.type_check.specs.Parts.{component};
ghost use Rattle.type_check.specs.Judging.{part_reached, operand_of, IsFound, together, filled, AddsBelow};
ghost use Rattle.type_check.specs.Walks.{Adds};

use crate::found::Findings;
use crate::reached::Reached;
use crate::rules::{Operand, judge_choice, judge_literal, judge_operation};
use crate::steps::{to_element, to_field, to_indexed};
use fir_tree::kinds::no_type;
use fir_tree::{Expr, Form, Part, Suffix};
use fir_types::{FirType, copy};
use module_table::Components;
use std::alloc::{AllocError, Global};

/// The type and the flow of an expression, where it has a type. Adds the types of its nodes in text order, and its faults.
#[cycle(judge)]
pub fn judge(
    alloc: Global,
    known: &Components<'_>,
    found: &mut Findings,
    expr: &Expr,
) -> Result<Option<Part>, AllocError>
    ensures part { IfOk result (λ part. part ≡ (found_of known.now.parts expr.now).part) }
    ensures found { OnOk result (Adds (found_of known.now.parts expr.now) found.old found.new) }
{
    let at = found.types.len();
    found.types.push(no_type(alloc, expr.place)?)?;
    let part = judge_form(alloc, known, found, expr)?;
    fill(&mut found.types, at, &part)?;
    Ok(part)
}

/// Puts a copy of the part's type, where there is one, in the place of the type with this number.
fn fill(types: &mut Vec<FirType>, at: usize, part: &Option<Part>) -> Result<(), AllocError>
    requires { at < length types.old.items }
    ensures { OnOk result (types.new.items ≡ filled types.old.items at part.now) }
{
    if let Some(part) = part {
        types[at] = copy(&part.typ)?;
    }
    Ok(())
}

/// The same without the type of the node itself.
#[cycle(judge)]
fn judge_form(
    alloc: Global,
    known: &Components<'_>,
    found: &mut Findings,
    expr: &Expr,
) -> Result<Option<Part>, AllocError>
    ensures found { OnOk result (AddsBelow expr.now.place (found_of known.now.parts expr.now) found.old found.new) }
    ensures part { IfOk result (λ part. part ≡ (found_of known.now.parts expr.now).part) }
{
    match &expr.form {
        Form::Ref(name, suffixes) => {
            let base = component(known, name.id);
            let reached = walk_steps(alloc, known, found, base, suffixes.as_slice())?;
            copied(alloc, reached)
        }
        Form::Literal(sign, width, number) => {
            judge_literal(&mut found.faults, expr.place, *sign, *width, *number)
        }
        Form::Prim(op, operands, _) => {
            match judge_all(alloc, known, found, operands.as_slice())? {
                Some(typed) => judge_operation(
                    &mut found.faults,
                    *op,
                    expr.place,
                    typed.as_slice(),
                ),
                None => Ok(None),
            }
        }
        Form::Mux(operands) => match judge_all(alloc, known, found, operands.as_slice())? {
            Some(typed) => judge_choice(known, &mut found.faults, expr.place, typed.as_slice()),
            None => Ok(None),
        },
    }
}

/// The operands with their types, where each has one.
#[cycle(judge)]
fn judge_all<'a>(
    alloc: Global,
    known: &Components<'_>,
    found: &mut Findings,
    exprs: &'a [Expr],
) -> Result<Option<Vec<Operand<'a>>>, AllocError>
    ensures operands { IfOk result (λ operands. option_map (λ typed. map operand_of typed.items) operands ≡ typed_operands known.now.parts (map judged exprs.now)) }
    ensures typed { IfOk result (λ operands. IfSome operands (λ typed. All (IsFound known.now.parts) typed.items)) }
    ensures found { OnOk result (Adds (together (all_among known.now.parts (map judged exprs.now))) found.old found.new) }
{
    let mut typed = Vec::new(alloc);
    let mut complete = true;
    for expr in exprs {
        match judge(alloc, known, found, expr)? {
            Some(part) => typed.push(Operand { expr, part })?,
            None => complete = false,
        }
    }
    Ok(if complete { Some(typed) } else { None })
}

/// What the steps of a reference come to, from a base.
#[cycle(judge)]
fn walk_steps<'a>(
    alloc: Global,
    known: &'a Components<'_>,
    found: &mut Findings,
    base: Option<Reached<'a>>,
    suffixes: &[Suffix],
) -> Result<Option<Reached<'a>>, AllocError>
    ensures part { IfOk result (λ reached. part_reached reached ≡ (along (map suffix_step suffixes.now) known.now.parts (part_reached base.entry)).part) }
    ensures found { OnOk result (Adds (along (map suffix_step suffixes.now) known.now.parts (part_reached base.entry)) found.old found.new) }
{
    let mut reached = base;
    for suffix in suffixes {
        reached = take_step(alloc, known, found, reached, suffix)?;
    }
    Ok(reached)
}

/// What a step comes to, from a base. An index is judged also where the base has no type.
#[cycle(judge)]
fn take_step<'a>(
    alloc: Global,
    known: &'a Components<'_>,
    found: &mut Findings,
    base: Option<Reached<'a>>,
    suffix: &Suffix,
) -> Result<Option<Reached<'a>>, AllocError>
    ensures part { IfOk result (λ reached. part_reached reached ≡ (suffix_step suffix.now known.now.parts (part_reached base.entry)).part) }
    ensures found { OnOk result (Adds (suffix_step suffix.now known.now.parts (part_reached base.entry)) found.old found.new) }
{
    match suffix {
        Suffix::Field(name) => match base {
            Some(base) => to_field(&mut found.faults, base, *name),
            None => Ok(None),
        },
        Suffix::At(bracket, at, number) => match base {
            Some(base) => to_element(&mut found.faults, base, *bracket, *at, *number),
            None => Ok(None),
        },
        Suffix::Index(bracket, index) => {
            let part = judge(alloc, known, found, index)?;
            match (&part, base) {
                (Some(part), Some(base)) => {
                    to_indexed(&mut found.faults, base, *bracket, index.place, part)
                }
                _ => Ok(None),
            }
        }
    }
}

/// The component of a name, where it is known.
fn component<'a>(known: &'a Components<'_>, name: u32) -> Option<Reached<'a>>
    ensures { part_reached result ≡ component known.now.parts name }
{
    let found = known.get(name)?;
    Some(Reached {
        known: found.known.known(),
        flow: found.flow,
    })
}

/// What a reference has come to, with a type of its own.
fn copied(alloc: Global, reached: Option<Reached<'_>>) -> Result<Option<Part>, AllocError>
    ensures { IfOk result (λ part. part ≡ part_reached reached.entry) }
{
    let Some(reached) = reached else {
        return Ok(None);
    };
    Ok(Some(Part {
        typ: copy(reached.known.typ)?,
        flow: reached.flow,
    }))
}
