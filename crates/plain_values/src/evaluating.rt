//! The values of expressions, and what references name.

ghost use Rattle.std.specs.Prelude.{◌≡◌, ◌++◌, map, pos, Some, true, IfOk, IsSome, option_map};
ghost use Rattle.std.specs.List.{list_all};
ghost use Rattle.fir_tree.specs.declared.expr.Form.TheOpen.{Form-F};
ghost use Rattle.fir_meaning.specs.Values.{value, values_at, chosen, spot_of, suffix_step, lone, fitted_to, follow as follow_all};
ghost use Rattle.fir_meaning.specs.WellTyped.{typed, is_typed, typed_step, type_behind, of_form as typed_form};
ghost use Rattle.drive_check.specs.Keys.{step_of};
ghost use Rattle.plain_values.specs.Sites.{AreNarrow, known_of_view, scene_of_view};
ghost use Rattle.plain_values.specs.Finding.{spot_of_held};

use crate::choosing::either;
use crate::fitting::{fitted_value, holds};
use crate::literals::literal;
use crate::operating::{applied, first};
use crate::sights::{seen, site_at};
use crate::site::View;
use crate::spot::{HeldSpot, element_step, part_of, vector_length};
use bit_words::{List, Value};
use drive_check::leaf_set::{Step, key_of};
use drive_check::listing::list_leaves;
use drive_check::spot::{element_type, field_type};
use fir_tree::{Expr, Form, Suffix};
use fir_types::{TypeLeaf, copy};
use std::alloc::{AllocError, Global};

/// The values of an expression, leaf by leaf, as a module sees them (FIRRTL specification 3.0, "Expressions").
///
/// The expression is well typed where the components have these types.
#[cycle(evaluate)]
pub fn evaluate(alloc: Global, view: &View<'_>, expr: &Expr) -> Result<List<Value>, AllocError>
    requires narrow { AreNarrow view.now.sites.now }
    requires typed { IsSome (typed expr.now (known_of_view view.now)) }
    ensures { IfOk result (λ values. values ≡ value expr.now (scene_of_view view.now)) }
{
    match &expr.form {
        Form::Ref(name, suffixes) => {
            let spot = follow(alloc, view, name.id, suffixes.as_slice())?;
            let values = spot_values(alloc, view, &spot)?;
            Ok(values)
        }
        Form::Literal(kind, width, number) => {
            let values = vec![in alloc; literal(*kind, *width, *number)]?;
            Ok(List::from_vec(values))
        }
        Form::Prim(prim, operands, params) => {
            let operands = operand_values(alloc, view, operands.as_slice())?;
            let values = vec![in alloc; applied(*prim, operands.as_slice(), params.as_slice())]?;
            Ok(List::from_vec(values))
        }
        Form::Mux(operands) => {
            let values = choice(alloc, view, operands.as_slice())?;
            Ok(values)
        }
    }
}

/// What an expression names, where it is a reference (FIRRTL specification 3.0, "References").
pub fn spot_of(alloc: Global, view: &View<'_>, expr: &Expr) -> Result<Option<HeldSpot>, AllocError>
    requires narrow { AreNarrow view.now.sites.now }
    requires typed { IsSome (typed expr.now (known_of_view view.now)) }
    ensures { IfOk result (λ spot. option_map spot_of_held spot ≡ spot_of (scene_of_view view.now) expr.now) }
{
    match &expr.form {
        Form::Ref(name, suffixes) => {
            let spot = follow(alloc, view, name.id, suffixes.as_slice())?;
            Ok(Some(spot))
        }
        Form::Literal(_, _, _) | Form::Prim(_, _, _) | Form::Mux(_) => Ok(None),
    }
}

/// The first value of each operand.
#[cycle(evaluate)]
fn operand_values(
    alloc: Global,
    view: &View<'_>,
    operands: &[Expr],
) -> Result<List<Value>, AllocError>
    requires narrow { AreNarrow view.now.sites.now }
    requires typed { list_all (is_typed (known_of_view view.now)) operands.now ≡ true }
    ensures { IfOk result (λ values. values ≡ map (λ e. lone (value e (scene_of_view view.now))) operands.now) }
{
    let mut values = List::new(alloc);
    for operand in operands {
        let own = evaluate(alloc, view, operand)?;
        values.push(first(own.as_slice()))?;
    }
    Ok(values)
}

/// The second operand where the first is 1, and else the third.
#[cycle(evaluate)]
fn choice(alloc: Global, view: &View<'_>, operands: &[Expr]) -> Result<List<Value>, AllocError>
    requires narrow { AreNarrow view.now.sites.now }
    requires typed { IsSome (typed_form (Form-F.Mux (map typed operands.now)) (known_of_view view.now)) }
    ensures { IfOk result (λ values. values ≡ chosen (map (λ e. value e (scene_of_view view.now)) operands.now)) }
{
    let [condition, first_one, second_one] = operands else {
        unreachable!();
    };
    let test = evaluate(alloc, view, condition)?;
    let firsts = evaluate(alloc, view, first_one)?;
    let seconds = evaluate(alloc, view, second_one)?;
    let values = either(
        alloc,
        holds(first(test.as_slice())),
        firsts.as_slice(),
        seconds.as_slice(),
    )?;
    Ok(values)
}

/// What the suffixes lead to from a component.
#[cycle(evaluate)]
fn follow(
    alloc: Global,
    view: &View<'_>,
    name: u32,
    suffixes: &[Suffix],
) -> Result<HeldSpot, AllocError>
    requires narrow { AreNarrow view.now.sites.now }
    requires typed { IsSome (type_behind (known_of_view view.now) (map typed_step suffixes.now) (known_of_view view.now name)) }
    ensures { IfOk result (λ spot. spot_of_held spot ≡ follow_all (scene_of_view view.now) name (map suffix_step suffixes.now)) }
{
    let Some(site) = site_at(view.sites, view.path, name) else {
        unreachable!();
    };
    let typ = copy(&site.typ)?;
    let mut spot = HeldSpot {
        component: name,
        typ,
        way: Some(List::new(alloc)),
    };
    for suffix in suffixes {
        spot = step(alloc, view, spot, suffix)?;
    }
    Ok(spot)
}

/// A step of a reference, from the spot before it to the next one.
#[cycle(evaluate)]
fn step(
    alloc: Global,
    view: &View<'_>,
    spot: HeldSpot,
    suffix: &Suffix,
) -> Result<HeldSpot, AllocError>
    requires narrow { AreNarrow view.now.sites.now }
    requires typed { IsSome (typed_step suffix.now (known_of_view view.now) spot.typ) }
    ensures spot { IfOk result (λ next. spot_of_held next ≡ suffix_step suffix.now (scene_of_view view.now) (spot_of_held spot)) }
    ensures typ { IfOk result (λ next. typed_step suffix.now (known_of_view view.now) spot.typ ≡ Some next.typ) }
{
    match suffix {
        Suffix::Field(name) => {
            let typ = copy(field_type(&spot.typ, name.id))?;
            let next = part_of(spot, typ, Some(Step::Field(name.id)))?;
            Ok(next)
        }
        Suffix::At(_, _, number) => {
            let typ = copy(element_type(&spot.typ))?;
            let next = part_of(spot, typ, Some(Step::Element(*number)))?;
            Ok(next)
        }
        Suffix::Index(_, index) => {
            let own = evaluate(alloc, view, index)?;
            let number = first(own.as_slice());
            let typ = copy(element_type(&spot.typ))?;
            let element = element_step(vector_length(&spot.typ), number);
            let next = part_of(spot, typ, element)?;
            Ok(next)
        }
    }
}

/// The values that stand at a spot: 0 in each leaf where an index is out of its vector.
fn spot_values(alloc: Global, view: &View<'_>, spot: &HeldSpot) -> Result<List<Value>, AllocError>
    ensures { IfOk result (λ values. values ≡ values_at (scene_of_view view.now) (spot_of_held spot.now) (option_map (map step_of) spot.now.way)) }
{
    let leaves = list_leaves(alloc, &spot.typ)?;
    match &spot.way {
        Some(way) => shown(
            alloc,
            view,
            spot.component,
            way.as_slice(),
            leaves.as_slice(),
        ),
        None => zeros(alloc, leaves.as_slice()),
    }
}

/// The values of the leaves behind a way.
fn shown(
    alloc: Global,
    view: &View<'_>,
    component: u32,
    way: &[Step],
    leaves: &[TypeLeaf],
) -> Result<List<Value>, AllocError>
    ensures { IfOk result (λ values. values ≡ map (λ leaf. fitted_to leaf ((scene_of_view view.now).integers component (map step_of way.now ++ leaf.path))) leaves.now) }
{
    let mut values = List::new(alloc);
    for leaf in leaves {
        let key = key_of(alloc, component, way, leaf.path.as_slice())?;
        let value = seen(alloc, view, component, key.way.as_slice())?;
        values.push(fitted_value(leaf, value))?;
    }
    Ok(values)
}

/// 0 in each leaf.
fn zeros(alloc: Global, leaves: &[TypeLeaf]) -> Result<List<Value>, AllocError>
    ensures { IfOk result (λ values. values ≡ map (λ leaf. fitted_to leaf (pos 0)) leaves.now) }
{
    let mut values = List::new(alloc);
    for leaf in leaves {
        values.push(fitted_value(leaf, None))?;
    }
    Ok(values)
}
