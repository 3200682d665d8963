//! The dump of a circuit.

ghost use Rattle.std.specs.Prelude.{◌≡◌, ◌≢◌, ℕ, ◌<◌, ◌≤◌, List as Listed, length, All, Err, IfOk, OnOk, OnErr, take};
ghost use Rattle.shelf_io.specs.Outside.{Appends, Rose};
ghost use Rattle.fir_tree.specs.LeafNames.{Texts, text_of};
ghost use Rattle.fir_meaning.specs.Components.{Design};
ghost use Rattle.ground_net.specs.Words.{SaysItsWords};
ghost use Rattle.net_laws.specs.Serves.{Serves};
ghost use Rattle.circuit_run.specs.NetRuns.{IsPlanned};
ghost use Rattle.circuit_run.specs.declared.fault.RunFault.TheVariants.{WriteFault};
ghost use Rattle.crew_run.specs.Epochs.{AreTablesBy};
ghost use Rattle.circuit_texts.specs.NetNames.{AreNumbersOf};
ghost use Rattle.circuit_texts.specs.VcdTexts.{IsVcdText};

use crate::vars::leaves_of;
use bit_words::List;
use circuit_run::RunFault;
use crew_run::{Course, Host, Plan, Run, Stimulated, epoch_of, write_run};
use crew_workers::Gate;
use register_table::Closed;
use shelf_io::Sink;
use std::alloc::Global;
use std::sync::Wait;
use std::thread::Threads;
use vcd_write::DumpText;

/// Writes the dump of a circuit under a stimulus, in a scope of main's name: the leaves that are watched, and in each cycle those whose
/// values change (IEEE 1364, "Value change dump file"). The bytes are the same for every number of workers. Answers the closed tables of
/// the epochs, in order.
///
/// The net serves the circuit and says where the words of its memories stand, its assignments stand in an order, and the stimulus was
/// read for its ports. The net is cut into as many parts as there are workers, and each worker runs the code of one. The gate is told the
/// number of each cycle. Takes memory for the codes, the state, and the rows and changes of an epoch, which has at most 1,024 cycles and
/// 4,194,304 values. A fault leaves a prefix of the dump in the sink.
pub fn simulate_vcd<R: Threads + Wait + Sync, G: Gate + Sync, K: Sink>(
    alloc: Global,
    host: &Host<'_, R, G>,
    plan: &Plan<'_>,
    top: &[u8],
    sink: &mut K,
) -> Result<List<Closed>, RunFault>
    requires planned { IsPlanned plan.now.ordered.now plan.now.ports.now plan.now.stimulus.now }
    requires said { SaysItsWords plan.now.ordered.now.net }
    requires watched { All (λ x. x < length plan.now.ordered.now.net.leaves) plan.now.watch.now }
    requires some { 1 ≤ plan.now.workers }
    requires few { plan.now.workers ≤ 64 }
    ensures dumped { (texts : Texts) (design : Design) (names : Listed (Listed ℕ)) → Serves texts design plan.now.ordered.now.net → top.now ≡ text_of texts design.main → AreNumbersOf plan.now.ordered.now.net names plan.now.watch.now
        → (bytes : Listed ℕ) × IsVcdText texts design names plan.now.stimulus.now bytes
        × (OnOk result (Appends (K.written sink.old) (K.written sink.new) bytes))
        × (OnErr result ((n : ℕ) × Appends (K.written sink.old) (K.written sink.new) (take n bytes))) }
    ensures rose { result ≡ Err WriteFault → Rose (K.faults sink.old) (K.faults sink.new) }
    ensures spared { result ≢ Err WriteFault → K.faults sink.new ≡ K.faults sink.old }
    ensures closed { IfOk result (λ tables. AreTablesBy plan.now.ordered.now plan.now.watch.now plan.now.stimulus.now plan.now.workers tables) }
{
    let vars = leaves_of(alloc, plan.ordered.net.leaves.as_slice(), plan.watch)?;
    let mut run = Run::start(alloc, plan.ordered, plan.watch, plan.workers)?;
    let feed = Stimulated {
        ports: plan.ports,
        stimulus: plan.stimulus,
    };
    let course = Course {
        feed: &feed,
        teller: &DumpText { top, vars: &vars },
        most: epoch_of(plan.watch.len()),
    };
    write_run(alloc, host, &mut run, &course, sink)
}
