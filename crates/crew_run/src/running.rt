//! The whole run.

ghost use Rattle.std.specs.Prelude.{◌≡◌, ◌≢◌, ℕ, ◌<◌, ◌≤◌, List as Listed, length, map, All, Err, IfOk, OnOk, OnErr, take};
ghost use Rattle.shelf_io.specs.Outside.{Appends, Rose};
ghost use Rattle.fir_tree.specs.LeafNames.{Texts};
ghost use Rattle.fir_meaning.specs.Components.{Design};
ghost use Rattle.ground_net.specs.Cycles.{first_state};
ghost use Rattle.ground_net.specs.Words.{SaysItsWords};
ghost use Rattle.net_of_circuit.specs.FlatOrder.{Standing, flat_of};
ghost use Rattle.net_laws.specs.Serves.{Serves};
ghost use Rattle.cone_cutter.specs.Splits.{IsSplit};
ghost use Rattle.circuit_run.specs.Traces.{IsTraceText};
ghost use Rattle.circuit_run.specs.NetRuns.{IsPlanned, watch, given_from};
ghost use Rattle.circuit_run.specs.declared.fault.RunFault.TheVariants.{WriteFault};
ghost use Rattle.crew_run.specs.Epochs.{AreTablesOf, AreTablesBy};
ghost use Rattle.crew_run.specs.RunTexts.{IsRunText};
ghost use Rattle.crew_run.specs.TraceTexts.{trace_telling};
ghost use Rattle.crew_run.specs.WatchedTexts.{StandAt, IsWatchedText};

use crate::crew::cut_of;
use crate::feed::Stimulated;
use crate::plan::{CutPlan, Host, Plan};
use crate::run::Run;
use crate::trace_text::{TraceText, names_of};
use crate::writing::{Course, write_run};
use bit_words::List;
use circuit_run::RunFault;
use crew_workers::Gate;
use register_table::Closed;
use shelf_io::Sink;
use std::alloc::Global;
use std::sync::Wait;
use std::thread::Threads;
use worker_crew::ThreadLimit;

/// So many cycles are one epoch, and their lines are made before they are written.
const EPOCH: u64 = 1024;

/// Writes the trace of a circuit under a stimulus: the names of the watched leaves, and a line for each cycle with the values that
/// settle in it (FIRRTL specification 3.0, "Last Connect Semantics", "Registers" and "Memories"). The bytes are the same for every
/// number of workers. Answers the closed tables of the epochs, in order.
///
/// The net serves the circuit and says where the words of its memories stand, its assignments stand in an order, and the stimulus was
/// read for its ports. Any leaves of the net may be watched, each by its number: the trace is that of the circuit's leaves that stand at
/// these numbers of its flat order. The net is cut into as many parts as there are workers,
/// and each worker runs the code of one. The gate is told the number of each cycle. Takes memory for the codes, the state, and the rows
/// and lines of 1,024 cycles. A fault leaves a prefix of the trace in the sink.
pub fn simulate<R: Threads + Wait + Sync, G: Gate + Sync, K: Sink>(
    alloc: Global,
    rt: &R,
    gate: &G,
    plan: &Plan<'_>,
    sink: &mut K,
) -> Result<List<Closed>, RunFault>
    requires planned { IsPlanned plan.now.ordered.now plan.now.ports.now plan.now.stimulus.now }
    requires said { SaysItsWords plan.now.ordered.now.net }
    requires watched { All (λ x. x < length plan.now.ordered.now.net.leaves) plan.now.watch.now }
    requires some { 1 ≤ plan.now.workers }
    requires few { plan.now.workers ≤ 64 }
    ensures traced { plan.now.watch.now ≡ watch plan.now.ordered.now.net → (texts : Texts) (design : Design) → Serves texts design plan.now.ordered.now.net → (bytes : Listed ℕ) × IsTraceText texts design plan.now.stimulus.now bytes
        × (OnOk result (Appends (K.written sink.old) (K.written sink.new) bytes))
        × (OnErr result ((n : ℕ) × Appends (K.written sink.old) (K.written sink.new) (take n bytes))) }
    ensures shown { (texts : Texts) (design : Design) (serves : Serves texts design plan.now.ordered.now.net) (leaves : Listed Standing) → StandAt serves.of.placed plan.now.watch.now leaves
        → (bytes : Listed ℕ) × IsWatchedText texts design (map flat_of leaves) plan.now.stimulus.now bytes
        × (OnOk result (Appends (K.written sink.old) (K.written sink.new) bytes))
        × (OnErr result ((n : ℕ) × Appends (K.written sink.old) (K.written sink.new) (take n bytes))) }
    ensures lines { (bytes : Listed ℕ) × IsRunText plan.now.ordered.now.net plan.now.watch.now first_state (given_from plan.now.stimulus.now 0 plan.now.stimulus.now.cycles) (trace_telling plan.now.ordered.now.net plan.now.watch.now) 0 bytes
        × (OnOk result (Appends (K.written sink.old) (K.written sink.new) bytes))
        × (OnErr result ((n : ℕ) × Appends (K.written sink.old) (K.written sink.new) (take n bytes))) }
    ensures rose { result ≡ Err WriteFault → Rose (K.faults sink.old) (K.faults sink.new) }
    ensures spared { result ≢ Err WriteFault → K.faults sink.new ≡ K.faults sink.old }
    ensures closed { IfOk result (λ tables. AreTablesBy plan.now.ordered.now plan.now.watch.now plan.now.stimulus.now plan.now.workers tables) }
{
    let host = Host { rt, gate };
    simulate_within(alloc, &host, ThreadLimit::none(), plan, sink)
}

/// The same as `simulate` with a bound on the threads that are started beside the caller's. The caller drives the workers that have none.
pub fn simulate_within<R: Threads + Wait + Sync, G: Gate + Sync, K: Sink>(
    alloc: Global,
    host: &Host<'_, R, G>,
    limit: ThreadLimit,
    plan: &Plan<'_>,
    sink: &mut K,
) -> Result<List<Closed>, RunFault>
    requires planned { IsPlanned plan.now.ordered.now plan.now.ports.now plan.now.stimulus.now }
    requires said { SaysItsWords plan.now.ordered.now.net }
    requires watched { All (λ x. x < length plan.now.ordered.now.net.leaves) plan.now.watch.now }
    requires some { 1 ≤ plan.now.workers }
    requires few { plan.now.workers ≤ 64 }
    ensures traced { plan.now.watch.now ≡ watch plan.now.ordered.now.net → (texts : Texts) (design : Design) → Serves texts design plan.now.ordered.now.net → (bytes : Listed ℕ) × IsTraceText texts design plan.now.stimulus.now bytes
        × (OnOk result (Appends (K.written sink.old) (K.written sink.new) bytes))
        × (OnErr result ((n : ℕ) × Appends (K.written sink.old) (K.written sink.new) (take n bytes))) }
    ensures shown { (texts : Texts) (design : Design) (serves : Serves texts design plan.now.ordered.now.net) (leaves : Listed Standing) → StandAt serves.of.placed plan.now.watch.now leaves
        → (bytes : Listed ℕ) × IsWatchedText texts design (map flat_of leaves) plan.now.stimulus.now bytes
        × (OnOk result (Appends (K.written sink.old) (K.written sink.new) bytes))
        × (OnErr result ((n : ℕ) × Appends (K.written sink.old) (K.written sink.new) (take n bytes))) }
    ensures lines { (bytes : Listed ℕ) × IsRunText plan.now.ordered.now.net plan.now.watch.now first_state (given_from plan.now.stimulus.now 0 plan.now.stimulus.now.cycles) (trace_telling plan.now.ordered.now.net plan.now.watch.now) 0 bytes
        × (OnOk result (Appends (K.written sink.old) (K.written sink.new) bytes))
        × (OnErr result ((n : ℕ) × Appends (K.written sink.old) (K.written sink.new) (take n bytes))) }
    ensures rose { result ≡ Err WriteFault → Rose (K.faults sink.old) (K.faults sink.new) }
    ensures spared { result ≢ Err WriteFault → K.faults sink.new ≡ K.faults sink.old }
    ensures closed { IfOk result (λ tables. AreTablesBy plan.now.ordered.now plan.now.watch.now plan.now.stimulus.now plan.now.workers tables) }
{
    let cut = cut_of(alloc, plan.ordered, plan.watch, plan.workers)?;
    let parts = CutPlan {
        ordered: plan.ordered,
        ports: plan.ports,
        stimulus: plan.stimulus,
        watch: plan.watch,
        cut: &cut,
    };
    write_trace(alloc, host, limit, &parts, sink)
}

/// The same as `simulate` by a given cut, whose parts hold each sink once and what it needs, a worker for each of its 1 to 64 parts.
pub fn simulate_cut<R: Threads + Wait + Sync, G: Gate + Sync, K: Sink>(
    alloc: Global,
    rt: &R,
    gate: &G,
    plan: &CutPlan<'_>,
    sink: &mut K,
) -> Result<List<Closed>, RunFault>
    requires planned { IsPlanned plan.now.ordered.now plan.now.ports.now plan.now.stimulus.now }
    requires said { SaysItsWords plan.now.ordered.now.net }
    requires watched { All (λ x. x < length plan.now.ordered.now.net.leaves) plan.now.watch.now }
    requires split { IsSplit plan.now.ordered.now plan.now.watch.now plan.now.cut.now.parts }
    requires some { 1 ≤ length plan.now.cut.now.parts }
    requires few { length plan.now.cut.now.parts ≤ 64 }
    ensures traced { plan.now.watch.now ≡ watch plan.now.ordered.now.net → (texts : Texts) (design : Design) → Serves texts design plan.now.ordered.now.net → (bytes : Listed ℕ) × IsTraceText texts design plan.now.stimulus.now bytes
        × (OnOk result (Appends (K.written sink.old) (K.written sink.new) bytes))
        × (OnErr result ((n : ℕ) × Appends (K.written sink.old) (K.written sink.new) (take n bytes))) }
    ensures shown { (texts : Texts) (design : Design) (serves : Serves texts design plan.now.ordered.now.net) (leaves : Listed Standing) → StandAt serves.of.placed plan.now.watch.now leaves
        → (bytes : Listed ℕ) × IsWatchedText texts design (map flat_of leaves) plan.now.stimulus.now bytes
        × (OnOk result (Appends (K.written sink.old) (K.written sink.new) bytes))
        × (OnErr result ((n : ℕ) × Appends (K.written sink.old) (K.written sink.new) (take n bytes))) }
    ensures lines { (bytes : Listed ℕ) × IsRunText plan.now.ordered.now.net plan.now.watch.now first_state (given_from plan.now.stimulus.now 0 plan.now.stimulus.now.cycles) (trace_telling plan.now.ordered.now.net plan.now.watch.now) 0 bytes
        × (OnOk result (Appends (K.written sink.old) (K.written sink.new) bytes))
        × (OnErr result ((n : ℕ) × Appends (K.written sink.old) (K.written sink.new) (take n bytes))) }
    ensures rose { result ≡ Err WriteFault → Rose (K.faults sink.old) (K.faults sink.new) }
    ensures spared { result ≢ Err WriteFault → K.faults sink.new ≡ K.faults sink.old }
    ensures closed { IfOk result (AreTablesOf plan.now.ordered.now.net plan.now.watch.now plan.now.stimulus.now plan.now.cut.now.parts) }
{
    let host = Host { rt, gate };
    write_trace(alloc, &host, ThreadLimit::none(), plan, sink)
}

/// Writes the trace of a run by a given cut.
fn write_trace<R: Threads + Wait + Sync, G: Gate + Sync, K: Sink>(
    alloc: Global,
    host: &Host<'_, R, G>,
    limit: ThreadLimit,
    plan: &CutPlan<'_>,
    sink: &mut K,
) -> Result<List<Closed>, RunFault>
    requires planned { IsPlanned plan.now.ordered.now plan.now.ports.now plan.now.stimulus.now }
    requires said { SaysItsWords plan.now.ordered.now.net }
    requires watched { All (λ x. x < length plan.now.ordered.now.net.leaves) plan.now.watch.now }
    requires split { IsSplit plan.now.ordered.now plan.now.watch.now plan.now.cut.now.parts }
    requires some { 1 ≤ length plan.now.cut.now.parts }
    requires few { length plan.now.cut.now.parts ≤ 64 }
    ensures lines { (bytes : Listed ℕ) × IsRunText plan.now.ordered.now.net plan.now.watch.now first_state (given_from plan.now.stimulus.now 0 plan.now.stimulus.now.cycles) (trace_telling plan.now.ordered.now.net plan.now.watch.now) 0 bytes
        × (OnOk result (Appends (K.written sink.old) (K.written sink.new) bytes))
        × (OnErr result ((n : ℕ) × Appends (K.written sink.old) (K.written sink.new) (take n bytes))) }
    ensures rose { result ≡ Err WriteFault → Rose (K.faults sink.old) (K.faults sink.new) }
    ensures spared { result ≢ Err WriteFault → K.faults sink.new ≡ K.faults sink.old }
    ensures closed { IfOk result (AreTablesOf plan.now.ordered.now.net plan.now.watch.now plan.now.stimulus.now plan.now.cut.now.parts) }
{
    let names = names_of(alloc, plan.ordered.net.leaves.as_slice(), plan.watch)?;
    let mut run = Run::start_cut(alloc, plan.ordered, plan.watch, plan.cut)?;
    run.limit(limit);
    let feed = Stimulated {
        ports: plan.ports,
        stimulus: plan.stimulus,
    };
    let course = Course {
        feed: &feed,
        teller: &TraceText { names },
        most: EPOCH,
    };
    write_run(alloc, host, &mut run, &course, sink)
}
