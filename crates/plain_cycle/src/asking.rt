//! What the leaves of a run ask for (FIRRTL specification 3.0, "Registers", "Memories" and "Last Connect Semantics").

ghost use Rattle.std.specs.Prelude.{◌≡◌, true, pos, IfOk};
ghost use Rattle.bit_words.specs.Values.{integer_of};
ghost use Rattle.fir_meaning.specs.Components.{A_node, flow_of};
ghost use Rattle.fir_meaning.specs.States.{leaf_of, is_source, is_port};
ghost use Rattle.drive_check.specs.Keys.{leaf_of_key};
ghost use Rattle.plain_cycle.specs.Held.{held_sort};
ghost use Rattle.plain_cycle.specs.Layouts.{Located};
ghost use Rattle.settling_laws.specs.Sweeps.{asked, of_port, from_outside, left_in_block, integer_beside};
ghost use Rattle.fir_meaning.specs.Values.{scene_of, value};
ghost use Rattle.fir_types.specs.Leaves.{leaves};
ghost use Rattle.plain_cycle.specs.Runs.{IsRun, IsPart, design_in, state_at, given_at, values_at};

use crate::declarations::Sort;
use crate::finding::{given, nothing, part_at};
use crate::run::{Moment, Part, Run};
use crate::sweep_memories::of_memory;
use bit_words::Value;
use drive_check::leaf_set::{LeafKey, Step, key_of};
use fir_tree::Expr;
use fir_types::{Shape, TypeLeaf};
use plain_values::sights::value_on;
use plain_values::{View, evaluate, left_in_leaf, value_beside};
use std::alloc::{AllocError, Global};

/// What a leaf of a component has after a sweep: a Clock 0, and else what its sort asks for.
pub fn asked(
    alloc: Global,
    run: &Run<'_>,
    moment: &Moment<'_>,
    part: &Part<'_>,
    leaf: &TypeLeaf,
) -> Result<Value, AllocError>
    requires run { IsRun run.now }
    requires part { (x : Located) × IsPart (design_in run.now) x part.now }
    ensures { IfOk result (λ v. (x : Located) → IsPart (design_in run.now) x part.now → integer_of v ≡ asked (design_in run.now) (state_at run.now moment.now) (given_at run.now moment.now) (values_at run.now moment.now) x.path (x.m, x.c) leaf.now) }
{
    if matches!(leaf.typ.shape, Shape::Clock) {
        return Ok(nothing());
    }
    match part.declaration.sort {
        Sort::Input | Sort::Output => of_port(alloc, run, moment, part, leaf),
        Sort::Wire => left(alloc, run, moment, part, leaf),
        Sort::Register(_) | Sort::ResetRegister(_, _, _) => {
            let key = key_of(alloc, part.site.name, &[], leaf.path.as_slice())?;
            Ok(kept(run, moment, part, &key))
        }
        Sort::Memory(_) => {
            if leaf.flip {
                left(alloc, run, moment, part, leaf)
            } else {
                of_memory(alloc, run, moment, part, leaf)
            }
        }
        Sort::Instance(_) => Ok(nothing()),
        Sort::Node(expr) => of_node(alloc, run, moment, part, (expr, leaf)),
    }
}

/// What a register's leaf holds.
fn kept(run: &Run<'_>, moment: &Moment<'_>, part: &Part<'_>, key: &LeafKey) -> Value
    ensures { integer_of result ≡ (state_at run.now moment.now).registers part.now.site.now.path part.now.site.now.name (leaf_of_key key.now).way }
{
    let value = value_on(
        run.sites,
        moment.held.registers.as_slice(),
        part.site.path.as_slice(),
        part.site.name,
        key.way.as_slice(),
    );
    value.unwrap_or(nothing())
}

/// What a node's expression has in a leaf.
fn of_node(
    alloc: Global,
    run: &Run<'_>,
    moment: &Moment<'_>,
    part: &Part<'_>,
    node: (&Expr, &TypeLeaf),
) -> Result<Value, AllocError>
    requires run { IsRun run.now }
    requires part { (x : Located) × IsPart (design_in run.now) x part.now × (x.c.declaration.sort ≡ A_node node.0.now) }
    ensures { IfOk result (λ v. (x : Located) → IsPart (design_in run.now) x part.now → integer_of v ≡ integer_beside node.entry.1.now.path (leaves x.c.typ) (value node.entry.0.now (scene_of x.m x.path (values_at run.now moment.now)))) }
{
    let view = View {
        sites: run.sites,
        values: moment.values,
        path: part.site.path.as_slice(),
    };
    let values = evaluate(alloc, &view, node.0)?;
    let key = key_of(alloc, part.site.name, &[], node.1.path.as_slice())?;
    let value = value_beside(
        part.site.leaves.as_slice(),
        values.as_slice(),
        key.way.as_slice(),
    );
    Ok(value.unwrap_or(nothing()))
}

/// What a port's leaf asks for: what comes from outside where its module only reads it, and else what statements leave.
fn of_port(
    alloc: Global,
    run: &Run<'_>,
    moment: &Moment<'_>,
    part: &Part<'_>,
    leaf: &TypeLeaf,
) -> Result<Value, AllocError>
    requires run { IsRun run.now }
    requires part { (x : Located) × IsPart (design_in run.now) x part.now }
    ensures { IfOk result (λ v. (x : Located) → IsPart (design_in run.now) x part.now → is_port x.c.declaration.sort ≡ true → integer_of v ≡ of_port (design_in run.now) (state_at run.now moment.now) (given_at run.now moment.now) (values_at run.now moment.now) x.path (x.m, x.c) leaf.now) }
{
    if is_read(part.declaration.sort, leaf.flip) {
        outside(alloc, run, moment, part, leaf)
    } else {
        left(alloc, run, moment, part, leaf)
    }
}

/// Whether the module only reads a leaf of a port, flipped or not.
fn is_read(sort: Sort<'_>, flip: bool) -> bool
    ensures { is_port (held_sort sort.entry) ≡ true → result ≡ is_source (flow_of (held_sort sort.entry) flip) }
{
    match sort {
        Sort::Input => !flip,
        _ => flip,
    }
}

/// What comes into a module from outside: what is given to main, or what statements leave in the leaf of the instance.
fn outside(
    alloc: Global,
    run: &Run<'_>,
    moment: &Moment<'_>,
    part: &Part<'_>,
    leaf: &TypeLeaf,
) -> Result<Value, AllocError>
    requires run { IsRun run.now }
    requires part { (x : Located) × IsPart (design_in run.now) x part.now }
    ensures { IfOk result (λ v. (x : Located) → IsPart (design_in run.now) x part.now → integer_of v ≡ from_outside (design_in run.now) (given_at run.now moment.now) (values_at run.now moment.now) x.path (leaf_of x.c leaf.now)) }
{
    let path = part.site.path.as_slice();
    let Some(last) = path.len().checked_sub(1) else {
        let key = key_of(alloc, part.site.name, &[], leaf.path.as_slice())?;
        return Ok(given(run.inputs, moment.row, &key));
    };
    let Some(above) = part_at(run, &path[..last], path[last]) else {
        return Ok(nothing());
    };
    let way = [Step::Field(part.site.name)];
    let key = key_of(alloc, path[last], &way, leaf.path.as_slice())?;
    left_at(alloc, run, moment, &above, &key)
}

/// What statements leave in a component's leaf, and 0 where they leave nothing.
pub fn left(
    alloc: Global,
    run: &Run<'_>,
    moment: &Moment<'_>,
    part: &Part<'_>,
    leaf: &TypeLeaf,
) -> Result<Value, AllocError>
    requires run { IsRun run.now }
    requires part { (x : Located) × IsPart (design_in run.now) x part.now }
    ensures { IfOk result (λ v. (x : Located) → IsPart (design_in run.now) x part.now → integer_of v ≡ left_in_block (values_at run.now moment.now) x.path (leaf_of x.c leaf.now) (x.m, x.c)) }
{
    let key = key_of(alloc, part.site.name, &[], leaf.path.as_slice())?;
    left_at(alloc, run, moment, part, &key)
}

/// What the statements of a component's block leave in a leaf of its module.
fn left_at(
    alloc: Global,
    run: &Run<'_>,
    moment: &Moment<'_>,
    part: &Part<'_>,
    key: &LeafKey,
) -> Result<Value, AllocError>
    requires run { IsRun run.now }
    requires part { (x : Located) × IsPart (design_in run.now) x part.now }
    ensures { IfOk result (λ v. (x : Located) → IsPart (design_in run.now) x part.now → integer_of v ≡ left_in_block (values_at run.now moment.now) x.path (leaf_of_key key.now) (x.m, x.c)) }
{
    let view = View {
        sites: run.sites,
        values: moment.values,
        path: part.site.path.as_slice(),
    };
    let left = left_in_leaf(alloc, &view, key, part.declaration.block)?;
    Ok(left.unwrap_or(nothing()))
}
