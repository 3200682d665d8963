//! From the end of a cycle to the beginning of the next one.

ghost use Rattle.std.specs.Prelude.{IfOk};
ghost use Rattle.fir_meaning.specs.States.{SameState, next};
ghost use Rattle.plain_values.specs.Sites.{valuation_of};
ghost use Rattle.plain_cycle.specs.Runs.{IsRun, design_in, state_of};

use crate::edge_memories::next_of_memory;
use crate::registers::next_of_leaves;
use crate::run::{Held, Moment, Part, Run};
use bit_words::{List, Value};
use std::alloc::{AllocError, Global};

/// What is held when the next cycle begins, where this was held in the cycle and the leaves of the run have these values: the next state
/// as far as the circuit goes. Takes time in proportion to the leaves of registers and memories, each with the statements
/// of its block and with the components of the run for each reference in them, and to the elements that are held, which are copied.
pub fn next_held(
    alloc: Global,
    run: &Run<'_>,
    held: &Held,
    values: &[List<Value>],
) -> Result<Held, AllocError>
    requires { IsRun run.now }
    ensures { IfOk result (λ after. SameState (design_in run.now) (state_of run.now.sites.now after) (next (design_in run.now) (state_of run.now.sites.now held.now) (valuation_of run.now.sites.now values.now))) }
{
    let moment = Moment {
        held,
        row: &[],
        values,
    };
    let mut registers = List::new(alloc);
    let mut contents = List::new(alloc);
    let mut captured = List::new(alloc);
    for at in 0..run.sites.len().min(run.declared.len()) {
        let part = Part {
            site: &run.sites[at],
            declaration: run.declared[at],
        };
        registers.push(next_of_leaves(alloc, run, &moment, &part)?)?;
        let next = next_of_memory(alloc, run, &moment, &part)?;
        contents.push(next.elements)?;
        captured.push(next.read)?;
    }
    Ok(Held {
        registers,
        contents,
        captured,
    })
}
