//! The state behind a stimulus.

ghost use Rattle.std.specs.Prelude.{◌≡◌, ℕ, ◌+◌, ◌^◌, ◌<◌, ◌≤◌, List as Listed, Option as Optional, IfOk, OnOk};
ghost use Rattle.fir_tree.specs.LeafNames.{Texts};
ghost use Rattle.fir_meaning.specs.Components.{Design};
ghost use Rattle.ground_net.specs.declared.net.Ordered.{Ordered as OneNet};
ghost use Rattle.ground_net.specs.declared.net.Net.{Net as TheNet};
ghost use Rattle.ground_net.specs.declared.net.CutPart.{CutPart as OnePart};
ghost use Rattle.ground_net.specs.Watching.{inputs};
ghost use Rattle.ground_net.specs.Cycles.{NetState};
ghost use Rattle.ground_net.specs.Words.{SaysItsWords};
ghost use Rattle.net_laws.specs.Serves.{Serves};
ghost use Rattle.snapshot_text.specs.Snapshots.{HoldsState};
ghost use Rattle.circuit_texts.specs.StimulusParts.{last_row};
ghost use Rattle.circuit_run.specs.NetRuns.{IsPlanned, inputs_from};
ghost use Rattle.crew_run.specs.Runs.{IsRun};
ghost use Rattle.crew_run.specs.Epochs.{Reaches};
ghost use Rattle.circuit_texts.specs.Apart.{KeepsApart};
ghost use Rattle.circuit_texts.specs.Held.{IsStartOf};
ghost use Rattle.circuit_texts.specs.StateTexts.{IsSavedText};
ghost use Rattle.circuit_texts.specs.Going.{FeedsFrom, IsTextBehind};

use crate::feeding::Resumed;
use crate::parts::{Span, rows_from};
use bit_words::{List, Row};
use crew_run::{Feed, Held, Host, Plan, Run};
use crew_workers::Gate;
use snapshot_text::{Snapshot, print_state};
use std::alloc::{AllocError, Global};
use std::sync::Wait;
use std::thread::Threads;

/// An epoch has at most this many cycles.
const MOST_CYCLES: u64 = 1024;

/// The text of the state that a circuit has behind all cycles of a stimulus, going on from a snapshot: the number of all cycles, the
/// snapshot's with them, what the inputs have in the last one, and what is kept.
///
/// The net serves the circuit and says where the words of its memories stand, its assignments stand in an order, and the stimulus was
/// read for its ports. The snapshot holds a state of the net, and behind it are at most 999,999,000,000 cycles. Nothing is watched,
/// whatever the plan names. The gate is told the number of each cycle. Takes memory for the codes, the state, its text, and the inputs of
/// an epoch, which has at most 1,024 cycles.
pub fn save<R: Threads + Wait + Sync, G: Gate + Sync>(
    alloc: Global,
    host: &Host<'_, R, G>,
    plan: &Plan<'_>,
    start: &Snapshot,
) -> Result<Vec<u8>, AllocError>
    requires planned { IsPlanned plan.now.ordered.now plan.now.ports.now plan.now.stimulus.now }
    requires said { SaysItsWords plan.now.ordered.now.net }
    requires some { 1 ≤ plan.now.workers }
    requires few { plan.now.workers ≤ 64 }
    requires cycle { start.now.cycle ≤ 999999000000 }
    requires holds { (t : NetState) × HoldsState plan.now.ordered.now.net (inputs plan.now.ordered.now.net) t start.now }
    ensures saved { (texts : Texts) (design : Design) → Serves texts design plan.now.ordered.now.net → KeepsApart design → (begin : Optional (Listed ℕ)) → IsStartOf plan.now.ordered.now.net begin start.now
        → IfOk result (λ text. IsSavedText texts design plan.now.stimulus.now begin text.items) }
    ensures kept { (t : NetState) → HoldsState plan.now.ordered.now.net (inputs plan.now.ordered.now.net) t start.now → IfOk result (λ text. IsTextBehind plan.now.ordered.now.net t start.now plan.now.stimulus.now text.items) }
{
    let held = Held {
        words: &start.words,
        cycle: start.cycle,
    };
    let mut run = Run::start_at(alloc, plan.ordered, &[], plan.workers, &held)?;
    let feed = Resumed {
        ports: plan.ports,
        stimulus: plan.stimulus,
        start: &start.inputs,
    };
    run_through(alloc, host, &mut run, &feed)?;
    let behind = Snapshot {
        cycle: run.cycle(),
        inputs: last_inputs(alloc, &feed)?,
        words: List::from_slice(alloc, run.words().as_slice())?,
    };
    print_state(alloc, &plan.ordered.net, plan.ports, &behind)
}

/// Runs all cycles of a feed. The tables and the rows of an epoch are let go behind it.
fn run_through<R: Threads + Wait + Sync, G: Gate + Sync, F: Feed>(
    alloc: Global,
    host: &Host<'_, R, G>,
    run: &mut Run<'_>,
    feed: &F,
) -> Result<(), AllocError>
    requires asks { (ordered : OneNet) × (watched : Listed ℕ) × (parts : Listed OnePart) × (s : NetState) × IsRun ordered watched parts s run.old × F.feeds feed.now ordered.net }
    requires numbers { run.old.cycle + F.many feed.now < 2 ^ 64 }
    ensures behind { (ordered : OneNet) (watched : Listed ℕ) (parts : Listed OnePart) (s : NetState) → IsRun ordered watched parts s run.old → F.feeds feed.now ordered.net
        → OnOk result ((t : NetState) × Reaches ordered.net s (inputs_from (F.given feed.now) 0 (F.many feed.now)) t × IsRun ordered watched parts t run.new) }
    ensures cycle { OnOk result (run.new.cycle ≡ run.old.cycle + F.many feed.now) }
{
    let cycles = feed.cycles();
    let mut first = 0;
    while first < cycles {
        let count = (cycles - first).min(MOST_CYCLES);
        let rows = feed.rows(alloc, first, count)?;
        run.advance(alloc, host.rt, &rows, host.gate)?;
        first += count;
    }
    Ok(())
}

/// What the inputs have in the last cycle, and what they begin with where there is none.
fn last_inputs(alloc: Global, feed: &Resumed<'_>) -> Result<Row, AllocError>
    requires { (net : TheNet) × FeedsFrom net feed.now.ports.now feed.now.stimulus.now feed.now.start.now }
    ensures { IfOk result (λ row. row ≡ last_row feed.now.start.now feed.now.stimulus.now) }
{
    let cycles = feed.stimulus.cycles;
    if cycles == 0 {
        return List::from_slice(alloc, feed.start.as_slice());
    }
    let span = Span {
        first: cycles - 1,
        count: 1,
    };
    let rows = rows_from(alloc, feed.stimulus, feed.ports, feed.start, span)?;
    List::from_slice(alloc, rows.as_slice()[0].as_slice())
}
