//! The run, cycle by cycle.

ghost use Rattle.std.specs.Prelude.{◌≡◌, List as Listed, map, IfOk};
ghost use Rattle.fir_meaning.specs.Components.{design_of};
ghost use Rattle.fir_meaning.specs.States.{first_state};
ghost use Rattle.circuit_laws.specs.WellFormed.{IsWellFormed};
ghost use Rattle.drive_check.specs.Keys.{leaf_of_key};
ghost use Rattle.plain_values.specs.declared.site.Site.{Site as ASite};
ghost use Rattle.plain_values.specs.Sites.{valuation_of};
ghost use Rattle.settling_laws.specs.Runs.{value_of, row_of, Runs};
ghost use Rattle.plain_cycle.specs.Given.{given_by, inputs_in};
ghost use Rattle.plain_cycle.specs.Runs.{IsRun, design_in, state_of};
ghost use Rattle.plain_run.specs.Settling.{CanSettle};
ghost use Rattle.plain_run.specs.Leaves.{leaf_held, watched_in};
ghost use Rattle.plain_run.specs.Watching.{RunsWatched, ShowTrace};

use crate::flat_order::{RunLeaf, leaf_numbered, sites_in_order};
use crate::leaves::main_inputs;
use crate::settling::settled;
use bit_words::{List, Row, Rows, Value};
use drive_check::leaf_set::key_of;
use fir_tree::Fitted;
use net_of_circuit::laws::flat_orders_are_one;
use plain_cycle::{Held, Run, lay_out, next_held};
use plain_values::sights::value_on;
use plain_values::{Site, fitted_value};
use std::alloc::{AllocError, Global};

/// What is watched of a run: some of its leaves, by their numbers in flat order.
#[derive(Clone, Copy)]
pub struct Watch<'a> {
    pub sites: &'a [Site],
    pub numbers: &'a [u32],
}

/// The rows of a run of the circuit as it is written, from the state in which all is 0: a row of outputs for each row of inputs, cycle
/// by cycle (FIRRTL specification 3.0, "Last Connect Semantics", "Registers" and "Memories").
///
/// A row of inputs has a value for each of main's input leaves that isn't a clock, in port order; where it has none, 0 is given. The
/// watched leaves may be any of the run: they are named by their numbers in flat order, from 0. A row of outputs has their values in the
/// order of the numbers, and none for a number past the last leaf; 0 stands for the value of a Clock.
///
/// The circuit passed all stages. Takes time for each cycle in proportion to the square of the number of leaves, each with the
/// statements of its block and with the components of the run for each reference in them, and memory in proportion to the leaves and to
/// the answer.
pub fn plain_run(
    alloc: Global,
    fitted: &Fitted,
    rows: &Rows,
    watch: &[u32],
) -> Result<Rows, AllocError>
    requires well { IsWellFormed fitted.now }
    requires settles { CanSettle fitted.now }
    ensures run { let design = design_of fitted.now in IfOk result (RunsWatched design watch.now first_state (map (given_by (inputs_in design)) rows.now)) }
    ensures traced { let design = design_of fitted.now in IfOk result (ShowTrace design watch.now (map (given_by (inputs_in design)) rows.now)) }
{
    flat_orders_are_one();
    let inputs = main_inputs(alloc, fitted)?;
    let sites = sites_in_order(alloc, fitted)?;
    let watch = Watch {
        sites: sites.as_slice(),
        numbers: watch,
    };
    let layout = lay_out(alloc, fitted)?;
    let run = Run {
        fitted,
        sites: layout.sites.as_slice(),
        declared: layout.declared.as_slice(),
        inputs: inputs.as_slice(),
    };
    run_for(alloc, &run, &watch, rows.as_slice())
}

/// The rows of a run for these rows of inputs.
fn run_for(
    alloc: Global,
    run: &Run<'_>,
    watch: &Watch<'_>,
    rows: &[Row],
) -> Result<Rows, AllocError>
    requires run { IsRun run.now }
    requires settles { CanSettle run.now.fitted.now }
    ensures { IfOk result (λ outputs. Runs (design_in run.now) (watched_in watch.now) first_state (map (given_by (map leaf_of_key run.now.inputs.now)) rows.now) outputs) }
{
    let mut held = nothing_held(alloc);
    let mut outputs = List::new(alloc);
    for row in rows {
        let values = settled(alloc, run, &held, row.as_slice())?;
        let output = watched_row(alloc, run, watch, values.as_slice())?;
        outputs.push(output)?;
        let after = next_held(alloc, run, &held, values.as_slice())?;
        held = after;
    }
    Ok(outputs)
}

/// What is held before the first cycle: all is 0.
fn nothing_held(alloc: Global) -> Held
    ensures { (sites : Listed ASite) → state_of sites result ≡ first_state }
{
    Held {
        registers: List::new(alloc),
        contents: List::new(alloc),
        captured: List::new(alloc),
    }
}

/// What the watched leaves have where these are the values of the run.
fn watched_row(
    alloc: Global,
    run: &Run<'_>,
    watch: &Watch<'_>,
    values: &[List<Value>],
) -> Result<Row, AllocError>
    ensures { IfOk result (λ row. row ≡ row_of (watched_in watch.now) (valuation_of run.now.sites.now values.now)) }
{
    let mut row = List::new(alloc);
    for number in watch.numbers {
        if let Some(leaf) = leaf_numbered(watch.sites, *number) {
            row.push(value_of(alloc, run, leaf, values)?)?;
        }
    }
    Ok(row)
}

/// What a leaf of the run has, with its kind and width.
fn value_of(
    alloc: Global,
    run: &Run<'_>,
    leaf: RunLeaf<'_>,
    values: &[List<Value>],
) -> Result<Value, AllocError>
    ensures { IfOk result (λ value. value ≡ value_of (valuation_of run.now.sites.now values.now) (leaf_held leaf.entry)) }
{
    let RunLeaf { site, leaf } = leaf;
    let key = key_of(alloc, site.name, &[], leaf.path.as_slice())?;
    let path = site.path.as_slice();
    let value = value_on(run.sites, values, path, site.name, key.way.as_slice());
    Ok(fitted_value(leaf, value))
}
