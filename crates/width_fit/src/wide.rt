//! Choices between bundles and between vectors: what each comes to is found once.

ghost use Rattle.std.specs.Prelude.{IfOk, OnOk};
ghost use Rattle.part_fits.specs.Seen.{AreChoices, Keeps};
ghost use Rattle.width_fit.specs.Judging.{survey};
ghost use Rattle.width_fit.specs.Surveys.{Adds, AddsBelow};
ghost use Rattle.width_fit.specs.Looks.{IsSurveyed};

use crate::fault::WidthFault;
use crate::faults::{push_condition, push_where};
use crate::found::Findings;
use crate::survey::{survey_expr, survey_form, survey_indexes};
use fir_tree::kinds::no_type;
use fir_tree::{Expr, Form, Suffix};
use fir_types::{Shape, copy};
use indexmap::IndexMap;
use part_fits::choices::{Among, Choices, Seen};
use std::alloc::AllocError;
use width_rules::indexed::Indexed;
use width_rules::steps::walk_steps;

/// Whether the expression is a bundle or a vector of a component that is known, or a choice whose first operand is one. Only time
/// depends on it.
pub fn is_wide(known: &IndexMap<u32, Indexed>, expr: &Expr) -> bool {
    let mut inside = expr;
    loop {
        match &inside.form {
            Form::Mux(operands) => {
                let [_, first, _] = operands.as_slice() else {
                    return false;
                };
                inside = first;
            }
            Form::Ref(name, suffixes) => return is_wide_part(known, name.id, suffixes.as_slice()),
            Form::Literal(_, _, _) | Form::Prim(_, _, _) => return false,
        }
    }
}

fn is_wide_part(known: &IndexMap<u32, Indexed>, name: u32, suffixes: &[Suffix]) -> bool {
    let Some(component) = known.get(&name) else {
        return false;
    };
    let part = walk_steps(component, suffixes);
    matches!(
        &part.known.typ.shape,
        Shape::Bundle(_) | Shape::Vector(_, _)
    )
}

/// The number of what an expression comes to. Adds the fitted types of its nodes in text order, and its faults. What was seen
/// before takes time in proportion to the text.
#[cycle(look)]
pub fn look_among(
    among: &Among<'_>,
    choices: &mut Choices,
    found: &mut Findings,
    expr: &Expr,
) -> Result<usize, AllocError>
    requires { AreChoices among.now.widths.now among.now.known.now.entries choices.old }
    ensures held { OnOk result (AreChoices among.now.widths.now among.now.known.now.entries choices.new) }
    ensures keeps { OnOk result (Keeps choices.old.seen.items choices.new.seen.items) }
    ensures seen { IfOk result (IsSurveyed among.now.widths.now choices.new.seen.items (survey among.now.widths.now expr.now among.now.known.now.entries)) }
    ensures found { OnOk result (Adds (survey among.now.widths.now expr.now among.now.known.now.entries) found.old found.new) }
{
    let at = found.nodes.len();
    found.nodes.push(no_type(among.alloc, expr.place)?)?;
    let number = look_form(among, choices, found, expr)?;
    found.nodes[at] = copy(&choices.fit(number).typ)?;
    Ok(number)
}

/// The same without the fitted type of the node itself.
#[cycle(look)]
fn look_form(
    among: &Among<'_>,
    choices: &mut Choices,
    found: &mut Findings,
    expr: &Expr,
) -> Result<usize, AllocError>
    requires { AreChoices among.now.widths.now among.now.known.now.entries choices.old }
    ensures held { OnOk result (AreChoices among.now.widths.now among.now.known.now.entries choices.new) }
    ensures keeps { OnOk result (Keeps choices.old.seen.items choices.new.seen.items) }
    ensures seen { IfOk result (IsSurveyed among.now.widths.now choices.new.seen.items (survey among.now.widths.now expr.now among.now.known.now.entries)) }
    ensures found { OnOk result (AddsBelow among.now.widths.now (survey among.now.widths.now expr.now among.now.known.now.entries) found.old found.new) }
{
    match &expr.form {
        Form::Ref(name, suffixes) => {
            let suffixes = suffixes.as_slice();
            survey_indexes(among.alloc, among.widths, among.known, found, suffixes)?;
            let number = choices.of_reference(among, &mut found.made, name.id, suffixes)?;
            let over = WidthFault::WidthOver(expr.place);
            push_where(&mut found.faults, choices.fit(number).is_over, over)?;
            Ok(number)
        }
        Form::Mux(operands) => {
            let [condition, first, second] = operands.as_slice() else {
                return survey_anew(among, choices, found, expr);
            };
            let asked = survey_expr(among.alloc, among.widths, among.known, found, condition)?;
            let first = look_among(among, choices, found, first)?;
            let second = look_among(among, choices, found, second)?;
            let number = choices.of_pair(among.alloc, &mut found.made, first, second)?;
            let over = WidthFault::WidthOver(expr.place);
            push_where(&mut found.faults, choices.fit(number).is_over, over)?;
            push_condition(&mut found.faults, asked.place, asked.widths.as_slice())?;
            Ok(number)
        }
        Form::Literal(_, _, _) | Form::Prim(_, _, _) => survey_anew(among, choices, found, expr),
    }
}

/// An expression that isn't looked for among what was seen before.
fn survey_anew(
    among: &Among<'_>,
    choices: &mut Choices,
    found: &mut Findings,
    expr: &Expr,
) -> Result<usize, AllocError>
    requires { AreChoices among.now.widths.now among.now.known.now.entries choices.old }
    ensures held { OnOk result (AreChoices among.now.widths.now among.now.known.now.entries choices.new) }
    ensures keeps { OnOk result (Keeps choices.old.seen.items choices.new.seen.items) }
    ensures seen { IfOk result (IsSurveyed among.now.widths.now choices.new.seen.items (survey among.now.widths.now expr.now among.now.known.now.entries)) }
    ensures found { OnOk result (AddsBelow among.now.widths.now (survey among.now.widths.now expr.now among.now.known.now.entries) found.old found.new) }
{
    let surveyed = survey_form(among.alloc, among.widths, among.known, found, expr)?;
    let typ = surveyed.part.typ;
    let seen = Seen::new(among.alloc, &mut found.made, typ, surveyed.widths)?;
    choices.push(seen)
}
