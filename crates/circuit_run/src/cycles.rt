//! The lines of cycles.

ghost use Rattle.std.specs.Prelude.{◌≡◌, ◌+◌, ◌≤◌, IfOk};
ghost use Rattle.ground_net.specs.Cycles.{NetState};
ghost use Rattle.net_run.specs.Keeping.{IsKept, StandsForState};
ghost use Rattle.stimulus.specs.Rows.{row_in};
ghost use Rattle.circuit_run.specs.NetRuns.{IsPlanned, LeadsOn};

use crate::lines::row_of;
use crate::plan::{Plan, Told};
use bit_words::Value;
use net_run::{Kept, advance, settle};
use std::alloc::{AllocError, Global};
use stimulus::rows;
use trace_print::trace_line;

/// The lines of so many cycles from a first one on, which begins with what is kept.
pub fn run_cycles(
    alloc: Global,
    plan: &Plan<'_>,
    first: u64,
    count: u64,
    kept: Kept,
) -> Result<Told, AllocError>
    requires planned { IsPlanned plan.now.ordered.now plan.now.ports.now plan.now.stimulus.now }
    requires within { first + count ≤ plan.now.stimulus.now.cycles }
    requires kept { StandsForState plan.now.ordered.now.net kept }
    ensures { (s : NetState) → IsKept plan.now.ordered.now.net s kept → IfOk result (λ told. LeadsOn plan.now.ordered.now.net plan.now.stimulus.now s first count told.kept told.lines.items) }
{
    let inputs = rows(alloc, plan.stimulus, plan.ports, first, count)?;
    let inputs = inputs.as_slice();
    let mut kept = kept;
    let mut lines = Vec::new(alloc);
    for cycle in first..first + count {
        let row = inputs[(cycle - first) as usize].as_slice();
        let told = run_cycle(alloc, plan, cycle, row, kept)?;
        lines.extend_from_slice(told.lines.as_slice())?;
        kept = told.kept;
    }
    Ok(Told { kept, lines })
}

/// The line of a cycle that begins with what is kept and has these inputs.
fn run_cycle(
    alloc: Global,
    plan: &Plan<'_>,
    cycle: u64,
    inputs: &[Value],
    kept: Kept,
) -> Result<Told, AllocError>
    requires planned { IsPlanned plan.now.ordered.now plan.now.ports.now plan.now.stimulus.now }
    requires inputs { inputs.now ≡ row_in plan.now.ports.now plan.now.stimulus.now.settings cycle }
    requires kept { StandsForState plan.now.ordered.now.net kept }
    ensures { (s : NetState) → IsKept plan.now.ordered.now.net s kept → IfOk result (λ told. LeadsOn plan.now.ordered.now.net plan.now.stimulus.now s cycle 1 told.kept told.lines.items) }
{
    let watched = plan.ports.watched.as_slice();
    let values = settle(alloc, plan.ordered, &kept, inputs)?;
    let row = row_of(alloc, watched, values.as_slice())?;
    let lines = trace_line(alloc, cycle, &row)?;
    let kept = advance(alloc, &plan.ordered.net, kept, values.as_slice())?;
    Ok(Told { kept, lines })
}
