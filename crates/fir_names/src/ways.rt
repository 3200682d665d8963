//! Ways between the modules of a part and its head. No contract speaks of what is found: `parts` tries it.

use crate::graph::{Edge, at};
use bit_words::List;
use std::alloc::{AllocError, Global};

/// For each module the next one on the shortest way within its part to the head, or on the way back; the number of the edge
/// between the two, among those of the module that it leads from; and how many edges the way has.
#[derive(Drop)]
pub struct Ways {
    pub next: Vec<usize>,
    pub edge: Vec<usize>,
    pub far: Vec<usize>,
}

/// A module at the other end of an edge, with the number of the edge.
#[derive(Clone, Copy)]
struct End {
    node: usize,
    edge: usize,
}

/// The ways to the heads, or those from them.
pub fn ways_of(
    alloc: Global,
    graph: &[List<Edge>],
    heads: &[usize],
    turned: bool,
) -> Result<Ways, AllocError> {
    let rows = rows_of(alloc, graph, !turned)?;
    let mut ways = Ways {
        next: vec![in alloc; 0usize; graph.len()]?,
        edge: vec![in alloc; 0usize; graph.len()]?,
        far: vec![in alloc; 0usize; graph.len()]?,
    };
    let mut order = Vec::new(alloc);
    for (node, head) in heads.iter().enumerate() {
        if *head == node {
            order.push(node)?;
        }
    }
    for place in 0..graph.len() {
        let Some(node) = order.get(place).copied() else {
            break;
        };
        if let Some(row) = rows.get(node) {
            spread(heads, node, row.as_slice(), &mut ways, &mut order)?;
        }
    }
    Ok(ways)
}

/// For each module the ends of its edges, or where the edges are turned those that edges lead from.
fn rows_of(
    alloc: Global,
    graph: &[List<Edge>],
    turned: bool,
) -> Result<Vec<List<End>>, AllocError> {
    let mut rows = Vec::with_capacity(alloc, graph.len())?;
    for _ in 0..graph.len() {
        rows.push(List::new(alloc))?;
    }
    for (from, out) in graph.iter().enumerate() {
        for (number, edge) in out.as_slice().iter().enumerate() {
            let to = edge.to as usize;
            let (here, node) = if turned { (to, from) } else { (from, to) };
            push_end(&mut rows, here, End { node, edge: number })?;
        }
    }
    Ok(rows)
}

fn push_end(rows: &mut Vec<List<End>>, here: usize, end: End) -> Result<(), AllocError> {
    if let Some(row) = rows.get_mut(here) {
        row.push(end)?;
    }
    Ok(())
}

/// Goes on to the modules of the same part that weren't met.
fn spread(
    heads: &[usize],
    node: usize,
    row: &[End],
    ways: &mut Ways,
    order: &mut Vec<usize>,
) -> Result<(), AllocError> {
    for end in row {
        let head = at(heads, end.node);
        let met = end.node == head || at(ways.far.as_slice(), end.node) > 0;
        if head == at(heads, node) && !met {
            note(ways, node, *end);
            order.push(end.node)?;
        }
    }
    Ok(())
}

/// Notes the way of a module that is met from another one.
fn note(ways: &mut Ways, from: usize, end: End) {
    let far = at(ways.far.as_slice(), from).saturating_add(1);
    if let Some(next) = ways.next.get_mut(end.node) {
        *next = from;
    }
    if let Some(edge) = ways.edge.get_mut(end.node) {
        *edge = end.edge;
    }
    if let Some(place) = ways.far.get_mut(end.node) {
        *place = far;
    }
}
