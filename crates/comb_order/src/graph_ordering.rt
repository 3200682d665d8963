//! The order.

ghost use Rattle.std.specs.Prelude.{◌≡◌, ℕ, ◌<◌, length, IfOk, OnOk, Err};
ghost use Rattle.comb_order.specs.Graph.{OnLoop, AreVertices, IsOrder, IsFirstOnLoop};

use crate::first::first_on_loop;
use crate::graph_fault::GraphFault;
use crate::parts::ranks_of;
use crate::searching::{DONE, search};
use crate::tables::{all_new, lengths};
use std::alloc::Global;

/// The vertices in an order, each after all that it reads; or the first vertex that is on a loop.
pub fn order(alloc: Global, reads: &[Vec<u32>]) -> Result<Vec<u32>, GraphFault>
    requires vertices { AreVertices reads.now }
    requires few { length reads.now < 4294967296 }
    ensures ordered { IfOk result (λ s. IsOrder reads.now s.items) }
    ensures no_loop { OnOk result ((x : ℕ) → OnLoop reads.now x → ⊥) }
    ensures looped { (x : ℕ) → result ≡ Err (GraphFault.Loop x) → IsFirstOnLoop reads.now x }
{
    match sequence(alloc, reads) {
        Ok(sequence) => Ok(sequence),
        Err(GraphFault::NoMemory) => Err(GraphFault::NoMemory),
        Err(GraphFault::Loop(_)) => {
            let ranks = ranks_of(alloc, reads)?;
            match first_on_loop(alloc, reads, ranks.as_slice())? {
                Some(first) => Err(GraphFault::Loop(first)),
                None => unreachable!(),
            }
        }
    }
}

/// The vertices in an order; or a vertex that is on a loop.
fn sequence(alloc: Global, reads: &[Vec<u32>]) -> Result<Vec<u32>, GraphFault>
    requires vertices { AreVertices reads.now }
    requires few { length reads.now < 4294967296 }
    ensures ordered { IfOk result (λ s. IsOrder reads.now s.items) }
    ensures looped { (x : ℕ) → result ≡ Err (GraphFault.Loop x) → OnLoop reads.now x }
{
    let mut mark_table = all_new(alloc, reads)?;
    let marks = mark_table.as_mut_slice();
    let mut left_table = lengths(alloc, reads)?;
    let left = left_table.as_mut_slice();
    let mut path = Vec::new(alloc);
    let mut sequence = Vec::new(alloc);
    for root in 0..reads.len() {
        if marks[root] != DONE {
            search(reads, marks, left, &mut path, &mut sequence, root as u32)?;
        }
    }
    Ok(sequence)
}
