//! Both runs of a circuit.

ghost use Rattle.circuit_laws.specs.WellFormed.{IsWellFormed};
ghost use Rattle.circuit_run.specs.NetRuns.{IsPlanned};
ghost use Rattle.plain_run.specs.Settling.{CanSettle};

use crate::reading::Given;
use bit_words::Rows;
use circuit_run::lines::names_of;
use circuit_run::{RunFault, simulate};
use ground_net::PortLeaf;
use plain_run::plain_run;
use shelf_io::SinkMemory;
use sim_engine::Built;
use std::alloc::{AllocError, Global};
use stimulus::rows;
use trace_print::{header, trace_line};

/// A write to memory takes at most so many bytes.
const STEP: usize = 65_536;

/// The trace of the run on the circuit as it is written. The rows of all cycles are held at once: it is for short runs.
pub fn plain_trace(alloc: Global, given: &Given) -> Result<Vec<u8>, AllocError>
    requires planned { IsPlanned given.now.built.ordered given.now.built.ports given.now.stimulus }
    requires well { IsWellFormed given.now.built.fitted }
    requires settles { CanSettle given.now.built.fitted }
{
    let Built { fitted, ports, .. } = &given.built;
    let stimulus = &given.stimulus;
    let inputs = rows(alloc, stimulus, ports, 0, stimulus.cycles)?;
    let watched = ports.watched.as_slice();
    let mut numbers = Vec::new(alloc);
    for leaf in watched {
        numbers.push(leaf.leaf)?;
    }
    let outputs = plain_run(alloc, fitted, &inputs, numbers.as_slice())?;
    trace_of(alloc, watched, &outputs)
}

/// The trace with these rows.
fn trace_of(alloc: Global, watched: &[PortLeaf], outputs: &Rows) -> Result<Vec<u8>, AllocError> {
    let names = names_of(alloc, watched)?;
    let mut text = header(alloc, &names)?;
    for (cycle, row) in outputs.as_slice().iter().enumerate() {
        let line = trace_line(alloc, cycle as u64, row)?;
        text.extend_from_slice(line.as_slice())?;
    }
    Ok(text)
}

/// Whether the compiled run has this trace.
pub fn is_compiled_trace(alloc: Global, given: &Given, trace: &[u8]) -> Result<bool, AllocError>
    requires { IsPlanned given.now.built.ordered given.now.built.ports given.now.stimulus }
{
    let Built { ordered, ports, .. } = &given.built;
    let mut sink = SinkMemory::new(alloc, trace.len(), STEP, Vec::new(alloc))?;
    match simulate(alloc, ordered, ports, &given.stimulus, &mut sink) {
        Ok(()) => Ok(sink.bytes() == trace),
        // a longer trace has no room
        Err(RunFault::WriteFault) => Ok(false),
        Err(RunFault::NoMemory) => Err(AllocError),
    }
}
