//! The graph of modules and their instances: which modules one reaches, and which instances are on a loop.

ghost use Rattle.std.specs.Prelude.{Contains, ◌≡◌, ◌<◌, ◌↔◌, [], ◌∷◌, ℕ, List, length, slice_get, slice_index, Some, true, false, replicate, IfOk, OnOk};
ghost use Rattle.fir_names.specs.Graphs.{IsGraph, Leads, Marked, Spreads, ends};

use bit_words::List;
use place_text::Place;
use std::alloc::{AllocError, Global};

/// An instance: the number of its module, and the place of the module's name.
#[derive(Clone, Copy)]
pub struct Edge {
    pub to: u32,
    pub place: Place,
}

/// For each module whether one reaches it.
pub fn reach(alloc: Global, graph: &[List<Edge>], start: u32) -> Result<Vec<bool>, AllocError>
    requires start { start < length graph.now }
    requires graph { IsGraph graph.now }
    ensures counted { IfOk result (λ marks. length marks.items ≡ length graph.now) }
    ensures reached { IfOk result (λ marks. (k : ℕ) → (slice_get marks.items k ≡ Some true) ↔ Leads graph.now start k) }
{
    let mut marks = unmarked(alloc, graph.len())?;
    let mut order = Vec::new(alloc);
    mark(&mut marks, &mut order, start)?;
    let mut next = 0;
    while next < order.len() {
        let out = &graph[order[next] as usize];
        mark_ends(&mut marks, &mut order, out.as_slice())?;
        next += 1;
    }
    Ok(marks)
}

fn unmarked(alloc: Global, count: usize) -> Result<Vec<bool>, AllocError>
    ensures { IfOk result (λ marks. marks.items ≡ replicate count false) }
{
    Ok(vec![in alloc; false; count]?)
}

/// Marks the modules that edges lead to, and adds those that weren't marked.
fn mark_ends(marks: &mut Vec<bool>, order: &mut Vec<u32>, out: &[Edge]) -> Result<(), AllocError>
    requires within { (t : ℕ) → Contains (ends out.now) t → t < length marks.old.items }
    requires marked { Marked marks.old.items order.old.items }
    ensures { OnOk result (Spreads (ends out.now) marks.old.items order.old.items marks.new.items order.new.items) }
{
    for edge in out {
        mark(marks, order, edge.to)?;
    }
    Ok(())
}

/// Marks a module, and adds it where it wasn't marked.
fn mark(marks: &mut Vec<bool>, order: &mut Vec<u32>, node: u32) -> Result<(), AllocError>
    requires within { node < length marks.old.items }
    requires marked { Marked marks.old.items order.old.items }
    ensures { OnOk result (Spreads (node ∷ []) marks.old.items order.old.items marks.new.items order.new.items) }
{
    if !marks[node as usize] {
        marks[node as usize] = true;
        order.push(node)?;
    }
    Ok(())
}

/// The number of a module, or 0 where there is none.
pub fn at(numbers: &[usize], node: usize) -> usize
    ensures { result ≡ slice_index numbers.now node }
{
    match numbers.get(node) {
        Some(number) => *number,
        None => 0,
    }
}
