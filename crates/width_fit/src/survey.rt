//! The survey of an expression: its type with its flow, the widths of its type's places, and its faults.

ghost use Rattle.std.specs.Prelude.{◌≡◌, ◌<◌, ◌++◌, flat_map, length, map, None, IfOk, OnOk};
ghost use Rattle.std.specs.Prelude.{List as Listed};
ghost use Rattle.prim_ops.specs.declared.widths.Width.{Width as AWidth};
ghost use Rattle.fir_tree.specs.Kinds.{no_type};
ghost use Rattle.width_rules.specs.Sources.{component, named, suffix_step};
ghost use Rattle.width_fit.specs.Judging.{survey};
ghost use Rattle.width_fit.specs.Surveys.{kept, all_surveys, index_surveys, reference_survey, operation_survey, choice_survey, literal_survey, reference_kept, over_faults, parameters_over, operated, kept_kind, kept_width, chosen, first_condition, Adds, AddsAll, AddsBelow};

use crate::fault::WidthFault;
use crate::faults::{push_condition, push_over, push_parameters};
use crate::found::{Findings, Surveyed};
use crate::widths::{kinds_of, lone_widths, width_in_row};
use bit_words::{Kind, List, Number};
use fir_tree::kinds::{ground, no_type};
use fir_tree::steps::{no_part, source};
use fir_tree::{Expr, Form, Part, Suffix};
use fir_types::copy;
use indexmap::IndexMap;
use part_fits::widths::{wider_each, widths_in};
use place_text::Place;
use prim_ops::{Prim, Width};
use std::alloc::{AllocError, Global};
use width_rules::indexed::Indexed;
use width_rules::measuring::{look_up, no_component, result_type, row_of, width_of};
use width_rules::steps::walk_steps;
use width_rules::widths::bounded;

/// The type and the widths of an expression, among the components that are declared before it. Adds the fitted types of its
/// nodes in text order, and its faults.
#[cycle(survey)]
pub fn survey_expr(
    alloc: Global,
    widths: &[Width],
    known: &IndexMap<u32, Indexed>,
    found: &mut Findings,
    expr: &Expr,
) -> Result<Surveyed, AllocError>
    ensures is { IfOk result (λ s. s ≡ kept widths.now (survey widths.now expr.now known.now.entries)) }
    ensures found { OnOk result (Adds (survey widths.now expr.now known.now.entries) found.old found.new) }
{
    let at = found.nodes.len();
    found.nodes.push(no_type(alloc, expr.place)?)?;
    let surveyed = survey_form(alloc, widths, known, found, expr)?;
    let typ = &surveyed.part.typ;
    let fitted = found.made.fit(alloc, typ, surveyed.widths.as_slice())?;
    found.nodes[at] = fitted;
    Ok(surveyed)
}

/// The same without the fitted type of the node itself.
#[cycle(survey)]
pub fn survey_form(
    alloc: Global,
    widths: &[Width],
    known: &IndexMap<u32, Indexed>,
    found: &mut Findings,
    expr: &Expr,
) -> Result<Surveyed, AllocError>
    ensures is { IfOk result (λ s. s ≡ kept widths.now (survey widths.now expr.now known.now.entries)) }
    ensures found { OnOk result (AddsBelow widths.now (survey widths.now expr.now known.now.entries) found.old found.new) }
{
    match &expr.form {
        Form::Ref(name, suffixes) => {
            let suffixes = suffixes.as_slice();
            survey_reference(alloc, widths, known, found, expr.place, name.id, suffixes)
        }
        Form::Literal(kind, width, number) => {
            survey_literal(alloc, &mut found.faults, expr.place, *kind, *width, *number)
        }
        Form::Prim(prim, operands, params) => {
            let operands = survey_all(alloc, widths, known, found, operands.as_slice())?;
            let params = params.as_slice();
            survey_operation(
                alloc,
                &mut found.faults,
                *prim,
                expr.place,
                operands.as_slice(),
                params,
            )
        }
        Form::Mux(operands) => {
            let operands = survey_all(alloc, widths, known, found, operands.as_slice())?;
            survey_choice(alloc, &mut found.faults, expr.place, operands.as_slice())
        }
    }
}

/// Expressions in order.
#[cycle(survey)]
fn survey_all(
    alloc: Global,
    widths: &[Width],
    known: &IndexMap<u32, Indexed>,
    found: &mut Findings,
    exprs: &[Expr],
) -> Result<Vec<Surveyed>, AllocError>
    ensures are { IfOk result (λ all. all.items ≡ map (kept widths.now) (all_surveys widths.now known.now.entries exprs.now)) }
    ensures found { OnOk result (AddsAll (all_surveys widths.now known.now.entries exprs.now) found.old found.new) }
{
    let mut all = Vec::new(alloc);
    for expr in exprs {
        all.push(survey_expr(alloc, widths, known, found, expr)?)?;
    }
    Ok(all)
}

#[cycle(survey)]
fn survey_reference(
    alloc: Global,
    widths: &[Width],
    known: &IndexMap<u32, Indexed>,
    found: &mut Findings,
    place: Place,
    name: u32,
    suffixes: &[Suffix],
) -> Result<Surveyed, AllocError>
    ensures is { IfOk result (λ s. s ≡ kept widths.now (reference_survey widths.now known.now.entries place name suffixes.now)) }
    ensures found { OnOk result (AddsBelow widths.now (reference_survey widths.now known.now.entries place name suffixes.now) found.old found.new) }
{
    survey_indexes(alloc, widths, known, found, suffixes)?;
    let surveyed = reference(alloc, widths, known, place, name, suffixes)?;
    push_over(&mut found.faults, place, surveyed.widths.as_slice())?;
    Ok(surveyed)
}

/// The indexes of a reference.
#[cycle(survey)]
pub fn survey_indexes(
    alloc: Global,
    widths: &[Width],
    known: &IndexMap<u32, Indexed>,
    found: &mut Findings,
    suffixes: &[Suffix],
) -> Result<(), AllocError>
    ensures { OnOk result (AddsAll (flat_map (index_surveys widths.now known.now.entries) suffixes.now) found.old found.new) }
{
    for suffix in suffixes {
        survey_index(alloc, widths, known, found, suffix)?;
    }
    Ok(())
}

#[cycle(survey)]
fn survey_index(
    alloc: Global,
    widths: &[Width],
    known: &IndexMap<u32, Indexed>,
    found: &mut Findings,
    suffix: &Suffix,
) -> Result<(), AllocError>
    ensures { OnOk result (AddsAll (index_surveys widths.now known.now.entries suffix.now) found.old found.new) }
{
    if let Suffix::Index(_, index) = suffix {
        survey_expr(alloc, widths, known, found, index)?;
    }
    Ok(())
}

/// What a reference names.
fn reference(
    alloc: Global,
    widths: &[Width],
    known: &IndexMap<u32, Indexed>,
    place: Place,
    name: u32,
    suffixes: &[Suffix],
) -> Result<Surveyed, AllocError>
    ensures { IfOk result (λ s. s ≡ reference_kept widths.now place (named (map suffix_step suffixes.now) (component known.now.entries name))) }
{
    let nothing = no_component(alloc)?;
    let view = walk_steps(look_up(known, name, &nothing), suffixes);
    Ok(Surveyed {
        place,
        part: Part {
            typ: copy(view.known.typ)?,
            flow: view.flow,
        },
        widths: widths_in(alloc, widths, view.slots)?,
    })
}

fn survey_literal(
    alloc: Global,
    faults: &mut Vec<WidthFault>,
    place: Place,
    kind: Kind,
    width: Option<u128>,
    number: Number,
) -> Result<Surveyed, AllocError>
    ensures is { (ws : Listed AWidth) → IfOk result (λ s. s ≡ kept ws (literal_survey ws kind width number place)) }
    ensures faults { (ws : Listed AWidth) → OnOk result (faults.new.items ≡ faults.old.items ++ (literal_survey ws kind width number place).faults) }
{
    let mut widths = List::new(alloc);
    widths.push(bounded(width_of(kind, width, number)))?;
    push_over(faults, place, widths.as_slice())?;
    Ok(Surveyed {
        place,
        part: source(ground(place, kind, width)),
        widths,
    })
}

/// An operation over its operands.
fn survey_operation(
    alloc: Global,
    faults: &mut Vec<WidthFault>,
    prim: Prim,
    place: Place,
    operands: &[Surveyed],
    params: &[u128],
) -> Result<Surveyed, AllocError>
    ensures is { IfOk result (λ s. s ≡ operated prim place (map kept_kind operands.now) (map kept_width operands.now) params.now) }
    ensures faults { OnOk result (faults.new.items ≡ (faults.old.items ++ over_faults place (operated prim place (map kept_kind operands.now) (map kept_width operands.now) params.now).widths) ++ parameters_over prim place params.now (map kept_width operands.now)) }
{
    let kinds = kinds_of(alloc, operands)?;
    let widths = lone_widths(alloc, operands)?;
    let mut whole = List::new(alloc);
    whole.push(width_in_row(prim, kinds.as_slice(), widths.as_slice(), params))?;
    push_over(faults, place, whole.as_slice())?;
    push_parameters(faults, prim, place, widths.as_slice(), params)?;
    let kind = row_of(prim, kinds.as_slice()).unwrap_or(Kind::Unsigned);
    Ok(Surveyed {
        place,
        part: source(result_type(prim, place, kind)),
        widths: whole,
    })
}

/// A choice between the second and the third operand.
fn survey_choice(
    alloc: Global,
    faults: &mut Vec<WidthFault>,
    place: Place,
    operands: &[Surveyed],
) -> Result<Surveyed, AllocError>
    ensures is { IfOk result (λ s. s ≡ chosen place operands.now) }
    ensures faults { OnOk result (faults.new.items ≡ (faults.old.items ++ over_faults place (chosen place operands.now).widths) ++ first_condition operands.now) }
{
    let surveyed = choice(alloc, place, operands)?;
    push_over(faults, place, surveyed.widths.as_slice())?;
    if let Some(condition) = operands.first() {
        push_condition(faults, condition.place, condition.widths.as_slice())?;
    }
    Ok(surveyed)
}

fn choice(alloc: Global, place: Place, operands: &[Surveyed]) -> Result<Surveyed, AllocError>
    ensures { IfOk result (λ s. s ≡ chosen place operands.now) }
{
    let [_, first, second] = operands else {
        return Ok(Surveyed {
            place,
            part: no_part(alloc)?,
            widths: List::new(alloc),
        });
    };
    Ok(Surveyed {
        place,
        part: source(copy(&first.part.typ)?),
        widths: wider_each(alloc, first.widths.as_slice(), second.widths.as_slice())?,
    })
}
