//! The length and the last line.

ghost use Rattle.std.specs.Prelude.{◌≡◌, ℕ, ◌<◌, ◌≤◌, List, length, IfOk};
ghost use Rattle.fir_tree.specs.LeafNames.{Texts};
ghost use Rattle.fir_meaning.specs.Components.{Design};
ghost use Rattle.net_laws.specs.Serves.{Serves};
ghost use Rattle.circuit_run.specs.NetRuns.{IsPlanned, watch};
ghost use Rattle.circuit_run.specs.Traces.{IsTraceText};
ghost use Rattle.crew_run.specs.Summaries.{BeginsLine, IsInOneLine, IsSummary};

use crate::kept::KeptTrace;
use crate::plan::Plan;
use crate::running::simulate;
use crew_workers::Gate;
use itoa::Buffer;
use std::alloc::{AllocError, Global};
use std::sync::Wait;
use std::thread::Threads;

/// The summary of the trace of a circuit under a stimulus: the line `bytes B` with the trace's length, and the trace's last line.
///
/// The net serves a circuit, its assignments stand in an order, the stimulus was read for its ports, and the leaves that are watched are
/// those of its ports. From 1 to 64 workers run it, in threads that `rt` starts. Takes memory for the trace.
pub fn summarize<R: Threads + Wait + Sync, G: Gate + Sync>(
    alloc: Global,
    rt: &R,
    gate: &G,
    plan: &Plan<'_>,
) -> Result<Vec<u8>, AllocError>
    requires planned { IsPlanned plan.now.ordered.now plan.now.ports.now plan.now.stimulus.now }
    requires watched { plan.now.watch.now ≡ watch plan.now.ordered.now.net }
    requires some { 1 ≤ plan.now.workers }
    requires few { plan.now.workers ≤ 64 }
    requires serves { (texts : Texts) × (design : Design) × Serves texts design plan.now.ordered.now.net }
    ensures { (texts : Texts) (design : Design) → Serves texts design plan.now.ordered.now.net
        → IfOk result (λ summary. (trace : List ℕ) × IsTraceText texts design plan.now.stimulus.now trace × IsSummary trace summary.items) }
{
    let mut trace = KeptTrace::new(alloc);
    match simulate(alloc, rt, gate, plan, &mut trace) {
        Ok(_closed) => Ok(summary_of(alloc, trace.bytes())?),
        Err(_) => Err(AllocError),
    }
}

/// The summary of a trace.
fn summary_of(alloc: Global, trace: &[u8]) -> Result<Vec<u8>, AllocError>
    requires { 0 < length trace.now }
    ensures { IfOk result (λ summary. IsSummary trace.now summary.items) }
{
    let start = last_line(trace);
    let mut digits = Buffer::new();
    let mut summary = Vec::from_slice(alloc, b"bytes ")?;
    summary.extend_from_slice(digits.format(trace.len()).as_bytes())?;
    summary.extend_from_slice(b"\n")?;
    summary.extend_from_slice(&trace[start..])?;
    Ok(summary)
}

/// Where the last line begins.
fn last_line(text: &[u8]) -> usize
    requires { 0 < length text.now }
    ensures some { result < length text.now }
    ensures begins { BeginsLine text.now result }
    ensures whole { IsInOneLine text.now result }
{
    let mut start = text.len() - 1;
    'bytes: while start > 0 {
        if text[start - 1] == b'\n' {
            return start;
        }
        start -= 1;
    }
    start
}
