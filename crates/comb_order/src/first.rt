//! The first vertex on a loop.

ghost use Rattle.std.specs.Prelude.{◌≡◌, ℕ, ◌<◌, ◌≤◌, ◌↔◌, length, slice_index, All, IsTrue, IfOk, IfSome, IfNone, OnOk, replicate};
ghost use Rattle.comb_order.specs.Graph.{Reads, OnLoop, AreVertices, IsFirstOnLoop};
ghost use Rattle.comb_order.specs.Reach.{Spreads, NeverRises};

use crate::searching::put;
use std::alloc::{AllocError, Global};

/// The first vertex on a loop, where there is one. Ranks that never rise along what is read show many vertices to be on none.
pub fn first_on_loop(
    alloc: Global,
    reads: &[Vec<u32>],
    ranks: &[u32],
) -> Result<Option<u32>, AllocError>
    requires vertices { AreVertices reads.now }
    requires few { length reads.now < 4294967296 }
    requires ranked { length ranks.now ≡ length reads.now }
    ensures first { IfOk result (λ found. IfSome found (λ x. IsFirstOnLoop reads.now x)) }
    ensures none { IfOk result (λ found. IfNone found ((x : ℕ) → OnLoop reads.now x → ⊥)) }
{
    let falls = never_rises(reads, ranks);
    for vertex in 0..reads.len() {
        if falls && is_below(reads[vertex].as_slice(), ranks, ranks[vertex]) {
            continue;
        }
        if reads_itself(alloc, reads, vertex as u32)? {
            return Ok(Some(vertex as u32));
        }
    }
    Ok(None)
}

/// Whether no vertex reads one of a higher rank.
fn never_rises(reads: &[Vec<u32>], ranks: &[u32]) -> bool
    requires vertices { AreVertices reads.now }
    requires ranked { length ranks.now ≡ length reads.now }
    ensures { IsTrue result → NeverRises reads.now ranks.now }
{
    for (vertex, row) in reads.iter().enumerate() {
        if !is_at_most(row.as_slice(), ranks, ranks[vertex]) {
            return false;
        }
    }
    true
}

/// Whether these vertices have at most this rank.
fn is_at_most(row: &[u32], ranks: &[u32], rank: u32) -> bool
    requires { All (λ w. w < length ranks.now) row.now }
    ensures { IsTrue result → (k : ℕ) → k < length row.now → slice_index ranks.now (slice_index row.now k) ≤ rank }
{
    for vertex in row {
        if ranks[*vertex as usize] > rank {
            return false;
        }
    }
    true
}

/// Whether these vertices have ranks below this one.
fn is_below(row: &[u32], ranks: &[u32], rank: u32) -> bool
    requires { All (λ w. w < length ranks.now) row.now }
    ensures { IsTrue result → (k : ℕ) → k < length row.now → slice_index ranks.now (slice_index row.now k) < rank }
{
    for vertex in row {
        if ranks[*vertex as usize] >= rank {
            return false;
        }
    }
    true
}

/// Whether a vertex reads itself through others.
fn reads_itself(alloc: Global, reads: &[Vec<u32>], vertex: u32) -> Result<bool, AllocError>
    requires vertices { AreVertices reads.now }
    requires inside { vertex < length reads.now }
    ensures { IfOk result (λ yes. IsTrue yes ↔ OnLoop reads.now vertex) }
{
    let mut table = unmet(alloc, reads)?;
    let marks = table.as_mut_slice();
    let mut waiting = Vec::new(alloc);
    put(&mut waiting, vertex)?;
    'going: while waiting.len() > 0 {
        let at = waiting.len() - 1;
        let next = waiting[at];
        waiting.truncate(at);
        spread(reads[next as usize].as_slice(), marks, &mut waiting)?;
    }
    Ok(marks[vertex as usize] == 0)
}

/// A mark 1 for each vertex: none was met.
fn unmet(alloc: Global, reads: &[Vec<u32>]) -> Result<Vec<u8>, AllocError>
    ensures { IfOk result (λ marks. marks.items ≡ replicate (length reads.now) 1) }
{
    let mut marks = Vec::new(alloc);
    marks.resize(reads.len(), 1)?;
    Ok(marks)
}

/// Marks vertices as met; those that were not wait.
fn spread(row: &[u32], marks: &mut [u8], waiting: &mut Vec<u32>) -> Result<(), AllocError>
    requires { All (λ w. w < length marks.old) row.now }
    ensures { OnOk result (Spreads row.now marks.old waiting.old.items marks.new waiting.new.items) }
{
    for vertex in row {
        if marks[*vertex as usize] == 0 {
            continue;
        }
        put(waiting, *vertex)?;
        marks[*vertex as usize] = 0;
    }
    Ok(())
}
