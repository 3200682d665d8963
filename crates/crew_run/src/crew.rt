//! The cut of a net for workers, their codes, and the words that they begin with.

ghost use Rattle.std.specs.Prelude.{◌≡◌, ℕ, ◌<◌, ◌≤◌, ◌^◌, List as Listed, length, map, All, IfOk};
ghost use Rattle.ground_net.specs.declared.net.Cut.{Cut as OneCut};
ghost use Rattle.ground_net.specs.declared.net.CutPart.{CutPart as OnePart};
ghost use Rattle.ground_net.specs.Cones.{sinks};
ghost use Rattle.ground_net.specs.Reads.{IsOrder};
ghost use Rattle.ground_net.specs.Watching.{watched};
ghost use Rattle.ground_net.specs.Cycles.{first_state};
ghost use Rattle.ground_net.specs.Words.{SaysItsWords, words_of};
ghost use Rattle.cone_cutter.specs.Cuts.{IsCut};
ghost use Rattle.partition_code.specs.Codes.{AreCodesOf};
ghost use Rattle.circuit_run.specs.NetRuns.{IsPlanned, watch};
ghost use Rattle.crew_run.specs.Crews.{AreCodesByCut};

use crate::plan::Plan;
use bit_words::List;
use cone_cutter::cut;
use flat_code::Code;
use ground_net::{Cut, Net, Ordered, PortLeaf, Ports};
use part_compile::compile;
use std::alloc::{AllocError, Global};

/// There are fewer leaves and sinks than this.
const NUMBERS: usize = 4_294_967_296;

/// The codes of the cut of a plan's net, one for each worker.
///
/// More leaves or sinks than a `u32` numbers are a want of memory.
pub fn codes_of(alloc: Global, plan: &Plan<'_>) -> Result<List<Code>, AllocError>
    requires planned { IsPlanned plan.now.ordered.now plan.now.ports.now plan.now.stimulus.now }
    requires said { SaysItsWords plan.now.ordered.now.net }
    requires watched { All (λ x. x < length plan.now.ordered.now.net.leaves) plan.now.watch.now }
    requires some { 1 ≤ plan.now.workers }
    requires few { plan.now.workers ≤ 64 }
    ensures { IfOk result (λ codes. (it : OneCut) × AreCodesByCut plan.now.ordered.now plan.now.watch.now plan.now.workers codes it) }
{
    let parts = cut_of(alloc, plan.ordered, plan.watch, plan.workers)?;
    compile(alloc, plan.ordered, plan.watch, &parts)
}

/// The cut of a net for so many workers.
///
/// More leaves or sinks than a `u32` numbers are a want of memory.
pub(crate) fn cut_of(
    alloc: Global,
    ordered: &Ordered,
    watch: &[u32],
    workers: u32,
) -> Result<Cut, AllocError>
    requires order { IsOrder ordered.now.net ordered.now.sequence }
    requires some { 1 ≤ workers }
    requires few { workers ≤ 64 }
    ensures { IfOk result (IsCut ordered.now watch.now workers) }
{
    let sinks = most_sinks(&ordered.net, watch.len());
    if ordered.net.leaves.len() >= NUMBERS || sinks >= NUMBERS {
        return Err(AllocError);
    }
    cut(alloc, ordered, watch, workers)
}

/// The words that a run begins with: 0 is in each.
pub(crate) fn first_words(
    alloc: Global,
    ordered: &Ordered,
    codes: &[Code],
) -> Result<List<u64>, AllocError>
    requires codes { (watched : Listed ℕ) × (parts : Listed OnePart) × (1 ≤ length parts) × AreCodesOf ordered.now.net watched parts codes.now }
    ensures { IfOk result (λ words. words ≡ words_of ordered.now.net first_state) }
{
    // Only the contract speaks of the net.
    let _ = ordered;
    let words = codes[0].words as usize;
    Ok(List::from_vec(Vec::from_elem(alloc, 0u64, words)?))
}

/// A net of which so many leaves are watched has at most this many sinks.
fn most_sinks(net: &Net, watched: usize) -> usize
    ensures { result < 2 ^ 32 → (watch : Listed ℕ) → length watch ≤ watched → length (sinks net.now watch) ≤ result }
{
    let state = net.registers.len().saturating_add(net.memories.len());
    watched.saturating_add(state)
}

/// The numbers of the leaves of main's ports that are watched where no others are named.
pub fn watched_numbers(
    alloc: Global,
    ordered: &Ordered,
    ports: &Ports,
) -> Result<List<u32>, AllocError>
    requires { ports.now.watched ≡ watched ordered.now.net }
    ensures watch { IfOk result (λ numbers. numbers ≡ watch ordered.now.net) }
    ensures leaves { IfOk result (λ numbers. All (λ x. x < length ordered.now.net.leaves) numbers) }
{
    // Only the contract speaks of the net.
    let _ = ordered;
    numbers_of(alloc, ports.watched.as_slice())
}

/// The numbers of leaves of ports.
fn numbers_of(alloc: Global, leaves: &[PortLeaf]) -> Result<List<u32>, AllocError>
    ensures { IfOk result (λ numbers. numbers ≡ map (λ p. p.leaf) leaves.now) }
{
    let mut numbers = List::new(alloc);
    for leaf in leaves {
        numbers.push(leaf.leaf)?;
    }
    Ok(numbers)
}
