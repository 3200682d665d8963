//! The whole run.

ghost use Rattle.std.specs.Prelude.{◌≡◌, ◌≢◌, ℕ, List, Err, OnOk, OnErr, take};
ghost use Rattle.shelf_io.specs.Outside.{Appends, Rose};
ghost use Rattle.fir_tree.specs.LeafNames.{Texts};
ghost use Rattle.fir_meaning.specs.Components.{Design};
ghost use Rattle.ground_net.specs.Reads.{IsOrder};
ghost use Rattle.ground_net.specs.Watching.{inputs, watched};
ghost use Rattle.ground_net.specs.Cycles.{first_state};
ghost use Rattle.ground_net.specs.Nets.{IsNet};
ghost use Rattle.net_laws.specs.Serves.{Serves};
ghost use Rattle.net_run.specs.Keeping.{IsKept};
ghost use Rattle.stimulus.specs.Stimuli.{IsFormed};
ghost use Rattle.circuit_run.specs.Traces.{IsTraceText};
ghost use Rattle.circuit_run.specs.NetRuns.{IsPlanned, AreLines};

use crate::cycles::run_cycles;
use crate::fault::RunFault;
use crate::lines::names_of;
use crate::plan::Plan;
use ground_net::{Ordered, Ports};
use net_run::{Kept, begin};
use shelf_io::{Sink, put_all};
use std::alloc::Global;
use stimulus::Stimulus;
use trace_print::header;

/// The lines of so many cycles are made before they are written.
const EPOCH: u64 = 1024;

/// Writes the trace of a circuit under a stimulus: the names of the watched leaves, and a line for each cycle with the values that
/// settle in it (FIRRTL specification 3.0, "Last Connect Semantics", "Registers" and "Memories").
///
/// The net serves the circuit, its assignments stand in an order, and the stimulus was read for its ports. Takes memory for the
/// state and for the lines of 1,024 cycles. A fault leaves a prefix of the trace in the sink.
pub fn simulate<K: Sink>(
    alloc: Global,
    ordered: &Ordered,
    ports: &Ports,
    stimulus: &Stimulus,
    sink: &mut K,
) -> Result<(), RunFault>
    requires net { IsNet ordered.now.net }
    requires order { IsOrder ordered.now.net ordered.now.sequence }
    requires inputs { ports.now.inputs ≡ inputs ordered.now.net }
    requires watched { ports.now.watched ≡ watched ordered.now.net }
    requires stimulus { IsFormed ports.now stimulus.now }
    ensures traced { (texts : Texts) (design : Design) → Serves texts design ordered.now.net → (bytes : List ℕ) × IsTraceText texts design stimulus.now bytes
        × (OnOk result (Appends (K.written sink.old) (K.written sink.new) bytes))
        × (OnErr result ((n : ℕ) × Appends (K.written sink.old) (K.written sink.new) (take n bytes))) }
    ensures rose { result ≡ Err RunFault.WriteFault → Rose (K.faults sink.old) (K.faults sink.new) }
    ensures spared { result ≢ Err RunFault.WriteFault → K.faults sink.new ≡ K.faults sink.old }
{
    let names = names_of(alloc, ports.watched.as_slice())?;
    let head = header(alloc, &names)?;
    let kept = begin(alloc, &ordered.net)?;
    put_all(sink, head.as_slice())?;
    let plan = Plan {
        ordered,
        ports,
        stimulus,
    };
    write_cycles(alloc, &plan, kept, sink)
}

/// Writes the lines of all cycles, of which the first one begins with what is kept.
fn write_cycles<K: Sink>(
    alloc: Global,
    plan: &Plan<'_>,
    kept: Kept,
    sink: &mut K,
) -> Result<(), RunFault>
    requires planned { IsPlanned plan.now.ordered.now plan.now.ports.now plan.now.stimulus.now }
    requires kept { IsKept plan.now.ordered.now.net first_state kept }
    ensures lines { (bytes : List ℕ) × AreLines plan.now.ordered.now.net plan.now.stimulus.now bytes
        × (OnOk result (Appends (K.written sink.old) (K.written sink.new) bytes))
        × (OnErr result ((n : ℕ) × Appends (K.written sink.old) (K.written sink.new) (take n bytes))) }
    ensures rose { result ≡ Err RunFault.WriteFault → Rose (K.faults sink.old) (K.faults sink.new) }
    ensures spared { result ≢ Err RunFault.WriteFault → K.faults sink.new ≡ K.faults sink.old }
{
    let cycles = plan.stimulus.cycles;
    let mut kept = kept;
    let mut first = 0;
    while first < cycles {
        let count = (cycles - first).min(EPOCH);
        let told = run_cycles(alloc, plan, first, count, kept)?;
        put_all(sink, told.lines.as_slice())?;
        kept = told.kept;
        first += count;
    }
    Ok(())
}
