//! The log of a circuit.

ghost use Rattle.std.specs.Prelude.{◌≡◌, ◌≢◌, ℕ, ◌++◌, List as Listed, Some, map, slice_get, All, Err, IfOk, OnOk, OnErr, take};
ghost use Rattle.shelf_io.specs.Outside.{Appends, Rose};
ghost use Rattle.fir_tree.specs.declared.print.PrintItem.{PrintItem as Print};
ghost use Rattle.fir_meaning.specs.Components.{design_of};
ghost use Rattle.circuit_run.specs.Traces.{all_inputs};
ghost use Rattle.circuit_run.specs.declared.fault.RunFault.TheVariants.{WriteFault};
ghost use Rattle.print_stop.specs.Logs.{IsLogOf};
ghost use Rattle.found_items.specs.declared.found.ItemAt.{ItemAt as Found};
ghost use Rattle.circuit_texts.specs.Watched.{watch_of, ArePrints};
ghost use Rattle.circuit_texts.specs.LogPlans.{CanLog};

use bit_words::List;
use circuit_run::RunFault;
use crew_run::{Course, Host, Run, Stimulated, epoch_of, write_run};
use crew_workers::Gate;
use fir_tree::{Fitted, PrintItem};
use found_items::{ItemAt, found_items, item_at};
use ground_net::{Ordered, Ports};
use print_stop::Log;
use shelf_io::Sink;
use std::alloc::{AllocError, Global};
use std::sync::Wait;
use std::thread::Threads;
use stimulus::Stimulus;

/// A circuit with its fitted types, its net in its order, the leaves by which it is fed, its stimulus, and how many workers run it, from 1
/// to 64.
#[derive(Clone, Copy)]
pub struct LogPlan<'a> {
    pub fitted: &'a Fitted,
    pub ordered: &'a Ordered,
    pub ports: &'a Ports,
    pub stimulus: &'a Stimulus,
    pub workers: u32,
}

/// Writes the log of a circuit under a stimulus: in each cycle the texts of its enabled `printf` lines, from main on, a module's own lines
/// before those of its instances; and at the end how many cycles ran, or the cycle and the code of the first `stop` that was enabled. The
/// bytes are the same for every number of workers.
///
/// Takes memory for the codes, the state, and the rows and texts of an epoch, which has at most 1,024 cycles and 4,194,304 values. A fault
/// leaves a prefix of the log in the sink.
pub fn simulate_log<R: Threads + Wait + Sync, G: Gate + Sync, K: Sink>(
    alloc: Global,
    host: &Host<'_, R, G>,
    plan: &LogPlan<'_>,
    sink: &mut K,
) -> Result<(), RunFault>
    requires { CanLog plan.now }
    ensures logged { (bytes : Listed ℕ) × IsLogOf plan.now.fitted.now.checked.resolved.names (design_of plan.now.fitted.now) plan.now.fitted.now.checked.resolved.prints (all_inputs (design_of plan.now.fitted.now) plan.now.stimulus.now) bytes
        × (OnOk result (Appends (K.written sink.old) (K.written sink.new) bytes))
        × (OnErr result ((n : ℕ) × Appends (K.written sink.old) (K.written sink.new) (take n bytes))) }
    ensures rose { result ≡ Err WriteFault → Rose (K.faults sink.old) (K.faults sink.new) }
    ensures spared { result ≢ Err WriteFault → K.faults sink.new ≡ K.faults sink.old }
{
    let prints = plan.fitted.checked.resolved.get().prints.as_slice();
    let found = found_items(alloc, plan.fitted)?;
    let items = printed(alloc, prints, found.as_slice())?;
    let watch = watched(alloc, found.as_slice())?;
    let mut run = Run::start(alloc, plan.ordered, watch.as_slice(), plan.workers)?;
    let feed = Stimulated {
        ports: plan.ports,
        stimulus: plan.stimulus,
    };
    let course = Course {
        feed: &feed,
        teller: &Log { items },
        most: epoch_of(watch.len()),
    };
    match write_run(alloc, host, &mut run, &course, sink) {
        Ok(_) => Ok(()),
        Err(fault) => Err(fault),
    }
}

/// The items that are found, as the circuit has them.
fn printed<'a>(
    alloc: Global,
    prints: &'a [PrintItem],
    found: &[ItemAt],
) -> Result<List<&'a PrintItem>, AllocError>
    requires { All (λ (it : Found). (print : Print) × (slice_get prints.now it.item ≡ Some print)) found.now }
    ensures { IfOk result (λ items. ArePrints prints.now found.now (map (λ item. item.now) items)) }
{
    let mut items = List::new(alloc);
    for it in found {
        let print = item_at(prints, it.item);
        items.push(print)?;
    }
    Ok(items)
}

/// The leaves of the items that are found, in order.
fn watched(alloc: Global, found: &[ItemAt]) -> Result<List<u32>, AllocError>
    ensures { IfOk result (λ watch. watch ≡ watch_of found.now) }
{
    let mut watch = List::new(alloc);
    for it in found {
        for leaf in it.leaves.as_slice() {
            watch.push(*leaf)?;
        }
    }
    Ok(watch)
}
