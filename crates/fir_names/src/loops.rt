//! The instances that are on a loop.

ghost use Rattle.std.specs.Prelude.{◌≡◌, ◌<◌, List, length, slice_get, Some, true, IsTrue, IfOk, OnOk, MatchBool};
ghost use Rattle.fir_names.specs.Graphs.{IsGraph, Out, Leads, LoopsOf, LoopsBefore, Adds, AreParts};
ghost use Rattle.fir_names.specs.declared.graph.Edge.{Edge as AnEdge};

use crate::fault::NameFault;
use crate::graph::{Edge, at, reach};
use crate::parts::{Parts, parts_of};
use bit_words::List;
use std::alloc::{AllocError, Global};

/// Adds a fault for each instance from whose module a way leads back to the module that it stands in.
///
/// Takes time and memory in proportion to the graph: an instance is on a loop where both modules are in one part.
pub fn push_loops(
    alloc: Global,
    graph: &[List<Edge>],
    faults: &mut Vec<NameFault>,
) -> Result<(), AllocError>
    requires graph { IsGraph graph.now }
    ensures { OnOk result (Adds (LoopsBefore graph.now (length graph.now)) faults.old.items faults.new.items) }
{
    let parts = parts_of(alloc, graph)?;
    push_all_loops(alloc, graph, &parts, faults)
}

fn push_all_loops(
    alloc: Global,
    graph: &[List<Edge>],
    parts: &Parts,
    faults: &mut Vec<NameFault>,
) -> Result<(), AllocError>
    requires graph { IsGraph graph.now }
    requires parts { IsTrue parts.now.known → AreParts parts.now.heads.items graph.now }
    ensures { OnOk result (Adds (LoopsBefore graph.now (length graph.now)) faults.old.items faults.new.items) }
{
    for from in 0..graph.len() {
        push_loops_of(alloc, graph, parts, from, faults)?;
    }
    Ok(())
}

fn push_loops_of(
    alloc: Global,
    graph: &[List<Edge>],
    parts: &Parts,
    from: usize,
    faults: &mut Vec<NameFault>,
) -> Result<(), AllocError>
    requires graph { IsGraph graph.now }
    requires parts { IsTrue parts.now.known → AreParts parts.now.heads.items graph.now }
    requires from { from < length graph.now }
    ensures { OnOk result ((out : List AnEdge) → slice_get graph.now from ≡ Some out → Adds (LoopsOf graph.now from out) faults.old.items faults.new.items) }
{
    let out = graph[from].as_slice();
    for edge in out {
        let back = leads_back(alloc, graph, parts, from, *edge)?;
        push_where(back, *edge, faults)?;
    }
    Ok(())
}

/// Adds the fault of an instance.
fn push_where(loops: bool, edge: Edge, faults: &mut Vec<NameFault>) -> Result<(), AllocError>
    ensures { OnOk result (Adds (λ fault. (loops ≡ true) × (fault ≡ NameFault.InstanceLoop edge.place)) faults.old.items faults.new.items) }
{
    if loops {
        faults.push(NameFault::InstanceLoop(edge.place))?;
    }
    Ok(())
}

/// Whether a way leads from the module of an instance back to the module that it stands in.
fn leads_back(
    alloc: Global,
    graph: &[List<Edge>],
    parts: &Parts,
    from: usize,
    edge: Edge,
) -> Result<bool, AllocError>
    requires graph { IsGraph graph.now }
    requires parts { IsTrue parts.now.known → AreParts parts.now.heads.items graph.now }
    requires from { from < length graph.now }
    requires edge { Out graph.now from edge }
    requires within { edge.to < length graph.now }
    ensures { IfOk result (λ yes. MatchBool yes (Leads graph.now edge.to from) (¬ (Leads graph.now edge.to from))) }
{
    if parts.known {
        let heads = parts.heads.as_slice();
        return Ok(at(heads, edge.to as usize) == at(heads, from));
    }
    reaches(alloc, graph, edge.to, from)
}

/// Whether a way leads from a module to another one.
fn reaches(alloc: Global, graph: &[List<Edge>], start: u32, end: usize) -> Result<bool, AllocError>
    requires graph { IsGraph graph.now }
    requires start { start < length graph.now }
    requires end { end < length graph.now }
    ensures { IfOk result (λ yes. MatchBool yes (Leads graph.now start end) (¬ (Leads graph.now start end))) }
{
    let marks = reach(alloc, graph, start)?;
    Ok(marks[end])
}
