//! What registers hold next (FIRRTL specification 3.0, "Registers").

ghost use Rattle.std.specs.Prelude.{◌≡◌, false, IfOk, IfSome, IfNone};
ghost use Rattle.bit_words.specs.Values.{integer_of};
ghost use Rattle.fir_meaning.specs.States.{is_register};
ghost use Rattle.plain_cycle.specs.Held.{held_sort};
ghost use Rattle.plain_cycle.specs.Layouts.{Located};
ghost use Rattle.plain_cycle.specs.Runs.{IsRun, IsPart, design_in, state_at, values_at};
ghost use Rattle.plain_cycle.specs.Edges.{IsRegisterOf, next_in_leaf, AreNextIn};

use crate::declarations::{Declaration, Sort};
use crate::finding::nothing;
use crate::run::{Moment, Part, Run};
use bit_words::{List, Value};
use drive_check::leaf_set::key_of;
use fir_types::TypeLeaf;
use plain_values::sights::value_on;
use plain_values::{Register, Reset, View, next_of_register};
use std::alloc::{AllocError, Global};

/// What a register holds next in each of its leaves; nothing of another component.
pub fn next_of_leaves(
    alloc: Global,
    run: &Run<'_>,
    moment: &Moment<'_>,
    part: &Part<'_>,
) -> Result<List<Value>, AllocError>
    requires run { IsRun run.now }
    requires part { (x : Located) × IsPart (design_in run.now) x part.now }
    ensures { IfOk result (λ values. (x : Located) → IsPart (design_in run.now) x part.now → AreNextIn (state_at run.now moment.now) (values_at run.now moment.now) x values) }
{
    let mut values = List::new(alloc);
    let Some(register) = register_of(&part.declaration) else {
        return Ok(values);
    };
    for leaf in part.site.leaves.as_slice() {
        values.push(next_of_leaf(alloc, run, moment, part, (&register, leaf))?)?;
    }
    Ok(values)
}

/// The register that a declaration makes, where it makes one.
fn register_of<'a>(declaration: &Declaration<'a>) -> Option<Register<'a>>
    ensures some { IfSome result (λ register. IsRegisterOf declaration.now register) }
    ensures none { IfNone result (is_register (held_sort declaration.now.sort) ≡ false) }
{
    let block = declaration.block;
    match declaration.sort {
        Sort::Register(_) => Some(Register { block, reset: None }),
        Sort::ResetRegister(_, test, init) => Some(Register {
            block,
            reset: Some(Reset { test, init }),
        }),
        _ => None,
    }
}

/// What a register holds next in a leaf.
fn next_of_leaf(
    alloc: Global,
    run: &Run<'_>,
    moment: &Moment<'_>,
    part: &Part<'_>,
    here: (&Register<'_>, &TypeLeaf),
) -> Result<Value, AllocError>
    requires run { IsRun run.now }
    requires part { (x : Located) × IsPart (design_in run.now) x part.now }
    requires register { IsRegisterOf part.now.declaration here.0.now }
    ensures { IfOk result (λ v. (x : Located) → IsPart (design_in run.now) x part.now → integer_of v ≡ next_in_leaf (state_at run.now moment.now) (values_at run.now moment.now) x here.entry.1.now) }
{
    let path = part.site.path.as_slice();
    let registers = moment.held.registers.as_slice();
    let view = View {
        sites: run.sites,
        values: moment.values,
        path,
    };
    let key = key_of(alloc, part.site.name, &[], here.1.path.as_slice())?;
    let held = value_on(
        run.sites,
        registers,
        path,
        part.site.name,
        key.way.as_slice(),
    );
    next_of_register(alloc, &view, &key, here.0, held.unwrap_or(nothing()))
}
