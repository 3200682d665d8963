//! What settles in a cycle.

ghost use Rattle.std.specs.Prelude.{◌≡◌, ℕ, ◌+◌, map, length, IfOk};
ghost use Rattle.fir_meaning.specs.States.{Settled};
ghost use Rattle.drive_check.specs.Keys.{leaf_of_key};
ghost use Rattle.plain_values.specs.Sites.{valuation_of};
ghost use Rattle.settling_laws.specs.Sweeps.{swept};
ghost use Rattle.plain_cycle.specs.Given.{given_by};
ghost use Rattle.plain_cycle.specs.Runs.{IsRun, design_in, state_of};
ghost use Rattle.plain_run.specs.Settling.{CanSettle};

use bit_words::{List, Value};
use fir_types::TypeLeaf;
use plain_cycle::{Held, Moment, Run, sweep};
use settling_laws::sweep_laws::sweeps_settle;
use std::alloc::{AllocError, Global};

/// What the leaves of the run have when the cycle that begins with what is held and has this row of inputs has settled: so many sweeps
/// from 0 everywhere as there are leaves. Takes time in proportion to the leaves, each with that of a sweep.
pub fn settled(
    alloc: Global,
    run: &Run<'_>,
    held: &Held,
    row: &[Value],
) -> Result<List<List<Value>>, AllocError>
    requires run { IsRun run.now }
    requires settles { CanSettle run.now.fitted.now }
    ensures { IfOk result (λ values. Settled (design_in run.now) (state_of run.now.sites.now held.now) (given_by (map leaf_of_key run.now.inputs.now) row.now) (valuation_of run.now.sites.now values)) }
{
    sweeps_settle();
    let mut values = List::new(alloc);
    let sites = run.sites;
    for site in sites {
        let after = swept_for(alloc, run, (held, row), site.leaves.as_slice(), values)?;
        values = after;
    }
    Ok(values)
}

/// What is there after one sweep more for each of these leaves.
fn swept_for(
    alloc: Global,
    run: &Run<'_>,
    cycle: (&Held, &[Value]),
    leaves: &[TypeLeaf],
    before: List<List<Value>>,
) -> Result<List<List<Value>>, AllocError>
    requires { IsRun run.now }
    ensures { IfOk result (λ values. (n : ℕ) → valuation_of run.now.sites.now before ≡ swept (design_in run.now) (state_of run.now.sites.now cycle.entry.0.now) (given_by (map leaf_of_key run.now.inputs.now) cycle.entry.1.now) n → valuation_of run.now.sites.now values ≡ swept (design_in run.now) (state_of run.now.sites.now cycle.entry.0.now) (given_by (map leaf_of_key run.now.inputs.now) cycle.entry.1.now) (n + length leaves.now)) }
{
    let mut values = before;
    for _leaf in leaves {
        let moment = Moment {
            held: cycle.0,
            row: cycle.1,
            values: values.as_slice(),
        };
        let after = sweep(alloc, run, &moment)?;
        values = after;
    }
    Ok(values)
}
