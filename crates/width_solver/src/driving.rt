//! The rules of connects, of what is invalid, and of nodes.

ghost use Rattle.std.specs.Prelude.{◌≡◌, ◌++◌, map, OnOk, IfOk};
ghost use Rattle.fir_tree.specs.Parts.{flow_through};
ghost use Rattle.width_rules.specs.Places.{spots};
ghost use Rattle.width_rules.specs.Circuits.{at_least, driven, connected, zeroed, invalidated, node_rules};
ghost use Rattle.width_solver.specs.ByFlips.{connected_by, invalidated_by};

use crate::found::FoundRules;
use bit_words::List;
use fir_tree::Flow;
use fir_tree::steps::through;
use fir_types::{FirType, flips_of};
use std::alloc::{AllocError, Global};
use width_rules::measuring::{Formulas, formula_of};
use width_rules::slot::Slot;
use width_rules::{Formula, Rule};

/// Adds the rules of a connect, whose left side has this type.
pub fn push_connected(
    alloc: Global,
    rules: &mut FoundRules,
    typ: &FirType,
    left: Formulas,
    right: Formulas,
) -> Result<(), AllocError>
    ensures { OnOk result (rules.new.items ≡ rules.old.items ++ connected (spots typ.now) left.list right.list) }
{
    let flips = flips_of(alloc, typ)?;
    push_by_flips(rules, flips.as_slice(), left, right)
}

fn push_by_flips(
    rules: &mut FoundRules,
    flips: &[bool],
    left: Formulas,
    right: Formulas,
) -> Result<(), AllocError>
    ensures { OnOk result (rules.new.items ≡ rules.old.items ++ connected_by flips.now left.list right.list) }
{
    let units = left.units.max(right.units);
    let mut lefts = left.list.into_vec().into_iter();
    let mut rights = right.list.into_vec().into_iter();
    for flip in flips {
        let Some(left) = lefts.next() else {
            return Ok(());
        };
        let Some(right) = rights.next() else {
            return Ok(());
        };
        push_driven(rules, *flip, left, right, units)?;
    }
    Ok(())
}

/// Adds the rule of one place: the left side is at least the right one, and the other way round where it is flipped.
fn push_driven(
    rules: &mut FoundRules,
    flip: bool,
    left: Formula,
    right: Formula,
    units: usize,
) -> Result<(), AllocError>
    ensures { OnOk result (rules.new.items ≡ rules.old.items ++ driven flip left right) }
{
    if flip {
        push_at_least(rules, right, left, units)
    } else {
        push_at_least(rules, left, right, units)
    }
}

/// Adds the rule that a place is at least a formula, which takes so many units, where the place has a variable.
fn push_at_least(
    rules: &mut FoundRules,
    place: Formula,
    source: Formula,
    units: usize,
) -> Result<(), AllocError>
    ensures { OnOk result (rules.new.items ≡ rules.old.items ++ at_least place source) }
{
    match place {
        Formula::Var(target) => {
            let rule = Rule {
                target,
                formula: source,
            };
            rules.push(rule, units)
        }
        _ => Ok(()),
    }
}

/// Adds the rules of what is invalid, which has this type and this flow.
pub fn push_invalidated(
    alloc: Global,
    rules: &mut FoundRules,
    flow: Flow,
    typ: &FirType,
    formulas: List<Formula>,
) -> Result<(), AllocError>
    ensures { OnOk result (rules.new.items ≡ rules.old.items ++ invalidated flow (spots typ.now) formulas) }
{
    let flips = flips_of(alloc, typ)?;
    push_invalid(rules, flow, flips.as_slice(), formulas)
}

fn push_invalid(
    rules: &mut FoundRules,
    flow: Flow,
    flips: &[bool],
    formulas: List<Formula>,
) -> Result<(), AllocError>
    ensures { OnOk result (rules.new.items ≡ rules.old.items ++ invalidated_by flow flips.now formulas) }
{
    let mut places = formulas.into_vec().into_iter();
    for flip in flips {
        let Some(place) = places.next() else {
            return Ok(());
        };
        push_zeroed(rules, through(*flip, flow), place)?;
    }
    Ok(())
}

/// Adds the rule 0 of a place that isn't a source.
fn push_zeroed(rules: &mut FoundRules, flow: Flow, place: Formula) -> Result<(), AllocError>
    ensures { OnOk result (rules.new.items ≡ rules.old.items ++ zeroed flow place) }
{
    match flow {
        Flow::Source => Ok(()),
        Flow::Sink | Flow::Duplex => push_at_least(rules, place, Formula::Fixed(0), 0),
    }
}

/// Adds the rules of a node with these widths: each is at least the expression's.
pub fn push_node(
    rules: &mut FoundRules,
    slots: &[Slot],
    formulas: Formulas,
) -> Result<(), AllocError>
    ensures { OnOk result (rules.new.items ≡ rules.old.items ++ node_rules slots.now formulas.list) }
{
    let units = formulas.units;
    let mut sources = formulas.list.into_vec().into_iter();
    for slot in slots {
        let Some(source) = sources.next() else {
            return Ok(());
        };
        push_at_least(rules, formula_of(*slot), source, units)?;
    }
    Ok(())
}
