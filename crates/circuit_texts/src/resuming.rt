//! The trace from a snapshot on.

ghost use Rattle.std.specs.Prelude.{◌≡◌, ◌≢◌, ℕ, ◌<◌, ◌≤◌, List as Listed, Option as Optional, length, All, Err, IfOk, OnOk, OnErr, take};
ghost use Rattle.shelf_io.specs.Outside.{Appends, Rose};
ghost use Rattle.fir_tree.specs.LeafNames.{Texts};
ghost use Rattle.fir_meaning.specs.Components.{Design};
ghost use Rattle.ground_net.specs.Watching.{inputs};
ghost use Rattle.ground_net.specs.Cycles.{NetState};
ghost use Rattle.ground_net.specs.Words.{SaysItsWords};
ghost use Rattle.net_laws.specs.Serves.{Serves};
ghost use Rattle.snapshot_text.specs.Snapshots.{HoldsState};
ghost use Rattle.circuit_run.specs.NetRuns.{IsPlanned, watch};
ghost use Rattle.circuit_run.specs.declared.fault.RunFault.TheVariants.{WriteFault};
ghost use Rattle.crew_run.specs.RunTexts.{IsRunText};
ghost use Rattle.crew_run.specs.TraceTexts.{trace_telling};
ghost use Rattle.circuit_texts.specs.Apart.{KeepsApart};
ghost use Rattle.circuit_texts.specs.Held.{IsStartOf};
ghost use Rattle.circuit_texts.specs.StateTexts.{IsResumedText};
ghost use Rattle.circuit_texts.specs.Going.{all_given_behind, AreTablesFrom};

use crate::feeding::Resumed;
use bit_words::List;
use circuit_run::RunFault;
use crew_run::{Course, Held, Host, Plan, Run, TraceText, epoch_of, names_of, write_run};
use crew_workers::Gate;
use register_table::Closed;
use shelf_io::Sink;
use snapshot_text::Snapshot;
use std::alloc::Global;
use std::sync::Wait;
use std::thread::Threads;

/// Writes the trace of a circuit that goes on from a snapshot: the names of the watched leaves, and a line for each cycle of the stimulus
/// with the values that settle in it, its number going on from the snapshot's. An input has the snapshot's value before its first setting.
/// The bytes are the same for every number of workers. Answers the closed tables of the epochs, in order.
///
/// The net serves the circuit and says where the words of its memories stand, its assignments stand in an order, and the stimulus was
/// read for its ports. The snapshot holds a state of the net, and behind it are at most 999,999,000,000 cycles. The net is cut into as
/// many parts as there are workers, and each worker runs the code of one. The gate is told the number of each cycle. Takes memory for the
/// codes, the state, and the rows and lines of an epoch, which has at most 1,024 cycles and 4,194,304 values. A fault leaves a prefix of
/// the trace in the sink.
pub fn resume<R: Threads + Wait + Sync, G: Gate + Sync, K: Sink>(
    alloc: Global,
    host: &Host<'_, R, G>,
    plan: &Plan<'_>,
    start: &Snapshot,
    sink: &mut K,
) -> Result<List<Closed>, RunFault>
    requires planned { IsPlanned plan.now.ordered.now plan.now.ports.now plan.now.stimulus.now }
    requires said { SaysItsWords plan.now.ordered.now.net }
    requires watched { All (λ x. x < length plan.now.ordered.now.net.leaves) plan.now.watch.now }
    requires some { 1 ≤ plan.now.workers }
    requires few { plan.now.workers ≤ 64 }
    requires cycle { start.now.cycle ≤ 999999000000 }
    requires holds { (t : NetState) × HoldsState plan.now.ordered.now.net (inputs plan.now.ordered.now.net) t start.now }
    ensures resumed { plan.now.watch.now ≡ watch plan.now.ordered.now.net → (texts : Texts) (design : Design) → Serves texts design plan.now.ordered.now.net → KeepsApart design → (begin : Optional (Listed ℕ)) → IsStartOf plan.now.ordered.now.net begin start.now
        → (bytes : Listed ℕ) × IsResumedText texts design plan.now.stimulus.now begin bytes
        × (OnOk result (Appends (K.written sink.old) (K.written sink.new) bytes))
        × (OnErr result ((n : ℕ) × Appends (K.written sink.old) (K.written sink.new) (take n bytes))) }
    ensures lines { (t : NetState) → HoldsState plan.now.ordered.now.net (inputs plan.now.ordered.now.net) t start.now
        → (bytes : Listed ℕ) × IsRunText plan.now.ordered.now.net plan.now.watch.now t (all_given_behind start.now.inputs plan.now.stimulus.now) (trace_telling plan.now.ordered.now.net plan.now.watch.now) start.now.cycle bytes
        × (OnOk result (Appends (K.written sink.old) (K.written sink.new) bytes))
        × (OnErr result ((n : ℕ) × Appends (K.written sink.old) (K.written sink.new) (take n bytes))) }
    ensures rose { result ≡ Err WriteFault → Rose (K.faults sink.old) (K.faults sink.new) }
    ensures spared { result ≢ Err WriteFault → K.faults sink.new ≡ K.faults sink.old }
    ensures closed { (t : NetState) → HoldsState plan.now.ordered.now.net (inputs plan.now.ordered.now.net) t start.now
        → IfOk result (AreTablesFrom plan.now.ordered.now plan.now.watch.now t start.now.inputs plan.now.stimulus.now plan.now.workers) }
{
    let names = names_of(alloc, plan.ordered.net.leaves.as_slice(), plan.watch)?;
    let held = Held {
        words: &start.words,
        cycle: start.cycle,
    };
    let mut run = Run::start_at(alloc, plan.ordered, plan.watch, plan.workers, &held)?;
    let feed = Resumed {
        ports: plan.ports,
        stimulus: plan.stimulus,
        start: &start.inputs,
    };
    let course = Course {
        feed: &feed,
        teller: &TraceText { names },
        most: epoch_of(plan.watch.len()),
    };
    write_run(alloc, host, &mut run, &course, sink)
}
