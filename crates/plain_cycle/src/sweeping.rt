//! One sweep over all leaves of a run.

ghost use Rattle.std.specs.Prelude.{◌≡◌, map, IfOk};
ghost use Rattle.bit_words.specs.Values.{integer_of};
ghost use Rattle.fir_types.specs.Leaves.{leaves};
ghost use Rattle.plain_values.specs.Sites.{valuation_of};
ghost use Rattle.plain_cycle.specs.Layouts.{Located};
ghost use Rattle.settling_laws.specs.Sweeps.{asked, sweep as swept_once};
ghost use Rattle.plain_cycle.specs.Runs.{IsRun, IsPart, design_in, state_at, given_at, values_at};

use crate::asking::asked;
use crate::run::{Moment, Part, Run};
use bit_words::{List, Value};
use std::alloc::{AllocError, Global};

/// What all leaves of the run have after a sweep, from what they have before it. Takes time in proportion to the leaves, each with the
/// statements of its block and with the components of the run for each reference in them.
pub fn sweep(
    alloc: Global,
    run: &Run<'_>,
    moment: &Moment<'_>,
) -> Result<List<List<Value>>, AllocError>
    requires { IsRun run.now }
    ensures { IfOk result (λ after. valuation_of run.now.sites.now after ≡ swept_once (design_in run.now) (state_at run.now moment.now) (given_at run.now moment.now) (values_at run.now moment.now)) }
{
    let mut after = List::new(alloc);
    for at in 0..run.sites.len().min(run.declared.len()) {
        let part = Part {
            site: &run.sites[at],
            declaration: run.declared[at],
        };
        after.push(swept(alloc, run, moment, &part)?)?;
    }
    Ok(after)
}

/// What the leaves of a component have after the sweep.
fn swept(
    alloc: Global,
    run: &Run<'_>,
    moment: &Moment<'_>,
    part: &Part<'_>,
) -> Result<List<Value>, AllocError>
    requires run { IsRun run.now }
    requires part { (x : Located) × IsPart (design_in run.now) x part.now }
    ensures { IfOk result (λ values. (x : Located) → IsPart (design_in run.now) x part.now → map integer_of values ≡ map (asked (design_in run.now) (state_at run.now moment.now) (given_at run.now moment.now) (values_at run.now moment.now) x.path (x.m, x.c)) (leaves x.c.typ)) }
{
    let mut values = List::new(alloc);
    for leaf in part.site.leaves.as_slice() {
        values.push(asked(alloc, run, moment, part, leaf)?)?;
    }
    Ok(values)
}
