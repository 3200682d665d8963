//! The search for the parts of the graph (Tarjan). No contract speaks of what it finds: `parts` tries it.

use crate::graph::Edge;
use bit_words::List;
use std::alloc::{AllocError, Global};

/// The low of a module that wasn't met.
const NEW: usize = 0;
/// The low of a module whose part was found.
const DONE: usize = usize::MAX;

/// For each module the number of its part, in the order in which parts are found, and the head: the first of the part that
/// was met.
#[derive(Drop)]
pub struct Found {
    pub ranks: Vec<usize>,
    pub heads: Vec<usize>,
}

/// A module on the path.
#[derive(Clone, Copy)]
struct Step {
    node: usize,
    /// Modules are numbered in the order in which they are met, from 1.
    number: usize,
    /// How many of its edges were passed.
    passed: usize,
}

#[derive(Drop)]
struct Tour {
    /// The least number of a module that is known to be in the same part.
    lows: Vec<usize>,
    path: Vec<Step>,
    /// Modules that left the path before their part was found.
    waiting: Vec<usize>,
    found: Found,
    met: usize,
    parts: usize,
}

/// The parts of a graph, so that no edge leads to one of a higher rank.
pub fn find_parts(alloc: Global, graph: &[List<Edge>]) -> Result<Found, AllocError> {
    let found = Found {
        ranks: vec![in alloc; 0usize; graph.len()]?,
        heads: vec![in alloc; 0usize; graph.len()]?,
    };
    let mut tour = Tour {
        lows: vec![in alloc; NEW; graph.len()]?,
        path: Vec::new(alloc),
        waiting: Vec::new(alloc),
        found,
        met: 0,
        parts: 0,
    };
    let most = most_turns(graph);
    for root in 0..graph.len() {
        if low_of(&tour, root) == NEW {
            open(&mut tour, root)?;
            walk(&mut tour, graph, most)?;
        }
    }
    let Tour {
        lows: _lows,
        path: _path,
        waiting: _waiting,
        found,
        met: _met,
        parts: _parts,
    } = tour;
    Ok(found)
}

/// At most so many turns empty a path: each module is opened and closed once, and each edge is passed once.
fn most_turns(graph: &[List<Edge>]) -> usize {
    let mut turns: usize = 0;
    for out in graph {
        turns = turns.saturating_add(out.len()).saturating_add(2);
    }
    turns
}

/// Goes on until the path is empty.
fn walk(tour: &mut Tour, graph: &[List<Edge>], most: usize) -> Result<(), AllocError> {
    for _ in 0..most {
        match tour.path.pop() {
            Some(step) => turn(tour, graph, step)?,
            None => return Ok(()),
        }
    }
    Ok(())
}

fn low_of(tour: &Tour, node: usize) -> usize {
    tour.lows.get(node).copied().unwrap_or(DONE)
}

fn set(numbers: &mut Vec<usize>, node: usize, number: usize) {
    if let Some(place) = numbers.get_mut(node) {
        *place = number;
    }
}

/// Puts a module that wasn't met on the path.
fn open(tour: &mut Tour, node: usize) -> Result<(), AllocError> {
    tour.met = tour.met.saturating_add(1);
    set(&mut tour.lows, node, tour.met);
    tour.path.push(Step {
        node,
        number: tour.met,
        passed: 0,
    })?;
    Ok(())
}

/// Goes on from the last module of the path: along its next edge, or back.
fn turn(tour: &mut Tour, graph: &[List<Edge>], step: Step) -> Result<(), AllocError> {
    match end_of(graph, step) {
        Some(next) => look(tour, step, next),
        None => close(tour, step),
    }
}

/// The end of the next edge.
fn end_of(graph: &[List<Edge>], step: Step) -> Option<usize> {
    let edge = graph.get(step.node)?.get(step.passed)?;
    Some(edge.to as usize)
}

/// Looks at the end of an edge. It is passed unless the end is new.
fn look(tour: &mut Tour, step: Step, next: usize) -> Result<(), AllocError> {
    let low = low_of(tour, next);
    if low == NEW {
        tour.path.push(step)?;
        return open(tour, next);
    }
    let own = low_of(tour, step.node);
    set(&mut tour.lows, step.node, low.min(own));
    tour.path.push(Step {
        passed: step.passed.saturating_add(1),
        ..step
    })?;
    Ok(())
}

/// A module leaves the path. Where it is the first of its part that was met, the others are those that wait and were met
/// after it.
fn close(tour: &mut Tour, step: Step) -> Result<(), AllocError> {
    tour.waiting.push(step.node)?;
    if low_of(tour, step.node) < step.number {
        return Ok(());
    }
    tour.parts = tour.parts.saturating_add(1);
    for _ in 0..tour.waiting.len() {
        let Some(node) = tour.waiting.pop() else {
            break;
        };
        if low_of(tour, node) < step.number {
            tour.waiting.push(node)?;
            break;
        }
        take(tour, node, step.node);
    }
    Ok(())
}

/// Puts a module into the part that was found last.
fn take(tour: &mut Tour, node: usize, head: usize) {
    set(&mut tour.lows, node, DONE);
    set(&mut tour.found.ranks, node, tour.parts);
    set(&mut tour.found.heads, node, head);
}
