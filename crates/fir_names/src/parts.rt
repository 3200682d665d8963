//! The parts of the graph of modules: two modules are in one part where ways lead from each to the other. The parts are found
//! by a search that no contract speaks of, and what it found is tried here, edge by edge.

ghost use Rattle.std.specs.Prelude.{Contains, ◌≡◌, ◌<◌, ◌≤◌, ℕ, length, slice_index, IsTrue, IfOk};
ghost use Rattle.fir_names.specs.Graphs.{IsGraph, Leads, Out, Way, Nears, Falls, AreParts};
ghost use Rattle.fir_names.specs.declared.graph.Edge.{Edge as AnEdge};

use crate::graph::{Edge, at};
use crate::search::{Found, find_parts};
use crate::ways::{Ways, ways_of};
use bit_words::List;
use std::alloc::{AllocError, Global};

/// For each module the head of its part, one of the part's modules; and whether that is known.
#[derive(Drop)]
pub struct Parts {
    pub heads: Vec<usize>,
    pub known: bool,
}

/// The parts of a graph.
pub fn parts_of(alloc: Global, graph: &[List<Edge>]) -> Result<Parts, AllocError>
    ensures { IfOk result (λ parts. IsTrue parts.known → AreParts parts.heads.items graph.now) }
{
    let Found { ranks, heads } = find_parts(alloc, graph)?;
    let onward = ways_of(alloc, graph, heads.as_slice(), false)?;
    let backward = ways_of(alloc, graph, heads.as_slice(), true)?;
    let known = are_parts(
        graph,
        ranks.as_slice(),
        heads.as_slice(),
        &onward,
        &backward,
    );
    Ok(Parts { heads, known })
}

/// Whether modules are in one part where they have one head: ways lead to it and back, and ranks fall along each edge that
/// leaves a part and rise along none.
fn are_parts(
    graph: &[List<Edge>],
    ranks: &[usize],
    heads: &[usize],
    onward: &Ways,
    backward: &Ways,
) -> bool
    ensures { IsTrue result → AreParts heads.now graph.now }
{
    if !all_near(graph, heads, onward, false) {
        return false;
    }
    if !all_near(graph, heads, backward, true) {
        return false;
    }
    all_fall(graph, ranks, heads)
}

/// Whether a way leads from each module to its head, or back.
fn all_near(graph: &[List<Edge>], heads: &[usize], ways: &Ways, turned: bool) -> bool
    ensures { IsTrue result → (k : ℕ) → k < length graph.now → Way turned graph.now k (slice_index heads.now k) }
{
    for node in 0..graph.len() {
        if !is_near(graph, heads, ways, turned, node) {
            return false;
        }
    }
    true
}

/// Whether a module is its head, or an edge leads to one of its part that is nearer to the head, or from one.
fn is_near(graph: &[List<Edge>], heads: &[usize], ways: &Ways, turned: bool, node: usize) -> bool
    ensures { IsTrue result → Nears turned graph.now heads.now ways.now.far.items node }
{
    if at(heads, node) == node {
        return true;
    }
    let next = at(ways.next.as_slice(), node);
    let far = ways.far.as_slice();
    if next >= graph.len() || at(heads, next) != at(heads, node) || at(far, next) >= at(far, node) {
        return false;
    }
    joins(graph, turned, at(ways.edge.as_slice(), node), node, next)
}

/// Whether the edge of this number leads from one module to the other, or back.
fn joins(graph: &[List<Edge>], turned: bool, edge: usize, node: usize, next: usize) -> bool
    ensures { IsTrue result → Way turned graph.now node next }
{
    if turned {
        is_edge(graph, edge, next, node)
    } else {
        is_edge(graph, edge, node, next)
    }
}

fn is_edge(graph: &[List<Edge>], edge: usize, from: usize, to: usize) -> bool
    ensures { IsTrue result → Leads graph.now from to }
{
    if from >= graph.len() {
        return false;
    }
    let out = graph[from].as_slice();
    if edge >= out.len() {
        return false;
    }
    out[edge].to as usize == to
}

/// Whether ranks rise along no edge, and fall along those that leave a part.
fn all_fall(graph: &[List<Edge>], ranks: &[usize], heads: &[usize]) -> bool
    ensures { IsTrue result → (from : ℕ) (edge : AnEdge) → Out graph.now from edge → Falls ranks.now heads.now from edge.to }
{
    for from in 0..graph.len() {
        if !fall_from(ranks, heads, from, graph[from].as_slice()) {
            return false;
        }
    }
    true
}

fn fall_from(ranks: &[usize], heads: &[usize], from: usize, out: &[Edge]) -> bool
    ensures { IsTrue result → (edge : AnEdge) → Contains out.now edge → Falls ranks.now heads.now from edge.to }
{
    for edge in out {
        if !falls(ranks, heads, from, edge.to as usize) {
            return false;
        }
    }
    true
}

fn falls(ranks: &[usize], heads: &[usize], from: usize, to: usize) -> bool
    ensures { IsTrue result → Falls ranks.now heads.now from to }
{
    if at(heads, to) == at(heads, from) {
        at(ranks, to) <= at(ranks, from)
    } else {
        at(ranks, to) < at(ranks, from)
    }
}
