//! The search of a graph, deep first.

ghost use Rattle.std.specs.Prelude.{◌≡◌, ℕ, ◌<◌, ◌≤◌, length, slice_index, vec_len, ◌++◌, ◌∷◌, [], OnOk, Ok, Err};
ghost use Rattle.comb_order.specs.Graph.{Reads, OnLoop, AreVertices};
ghost use Rattle.comb_order.specs.Search.{Searching, Lower};

use crate::graph_fault::GraphFault;
use std::alloc::AllocError;

/// One more vertex.
pub(crate) fn put(vertices: &mut Vec<u32>, vertex: u32) -> Result<(), AllocError>
    ensures { OnOk result (vertices.new.items ≡ vertices.old.items ++ vertex ∷ []) }
{
    vertices.push(vertex)?;
    Ok(())
}

/// The mark of a vertex that was not met.
pub const NEW: u8 = 2;
/// The mark of a vertex on the path.
pub const OPEN: u8 = 1;
/// The mark of a vertex in the sequence.
pub const DONE: u8 = 0;

/// Follows a path from a vertex that was not met, until all that it reads through others is in the sequence.
pub fn search(
    reads: &[Vec<u32>],
    marks: &mut [u8],
    left: &mut [usize],
    path: &mut Vec<u32>,
    sequence: &mut Vec<u32>,
    root: u32,
) -> Result<(), GraphFault>
    requires vertices { AreVertices reads.now }
    requires searching { Searching reads.now marks.old left.old path.old.items sequence.old.items }
    requires at_start { vec_len path.old ≡ 0 }
    requires within { root < length reads.now }
    requires fresh { slice_index marks.old root ≡ 2 }
    ensures done { OnOk result (Searching reads.now marks.new left.new path.new.items sequence.new.items) }
    ensures at_end { OnOk result (vec_len path.new ≡ 0) }
    ensures lower { OnOk result (Lower marks.old marks.new) }
    ensures root { OnOk result (slice_index marks.new root < 2) }
    ensures looped { (x : ℕ) → result ≡ Err (GraphFault.Loop x) → OnLoop reads.now x }
{
    put(path, root)?;
    marks[root as usize] = OPEN;
    'going: while path.len() > 0 {
        let at = path.len() - 1;
        let vertex = path[at];
        let count = left[vertex as usize];
        if count == 0 {
            put(sequence, vertex)?;
            marks[vertex as usize] = DONE;
            path.truncate(at);
        } else {
            let next = reads[vertex as usize][count - 1];
            match marks[next as usize] {
                DONE => left[vertex as usize] = count - 1,
                NEW => {
                    put(path, next)?;
                    marks[next as usize] = OPEN;
                }
                _ => return Err(GraphFault::Loop(next)),
            }
        }
    }
    Ok(())
}
