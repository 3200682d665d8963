//! How many sinks of a part need an assignment.

ghost use Rattle.std.specs.Prelude.{◌≡◌, ℕ, ◌+◌, ◌<◌, ◌^◌, ◌==◌, length, slice_index, count_by, All, IfOk};
ghost use Rattle.cone_cutter.specs.Walks.{IsOnce};
ghost use Rattle.cut_refine.specs.Standing.{cone_of, AreConeRows, AreCounts, Raises};

use crate::walker::Walker;
use cone_cutter::NetRows;
use std::alloc::{AllocError, Global};

/// For each leaf how many of these sinks need it.
pub fn counts_of(alloc: Global, rows: &NetRows, sinks: &[u32]) -> Result<Vec<u32>, AllocError>
    requires rows { AreConeRows rows.now }
    requires within { All (λ k. k < length rows.now.needed.items) sinks.now }
    requires once { IsOnce sinks.now }
    requires few { length sinks.now < 2 ^ 32 }
    ensures { IfOk result (λ counts. AreCounts (cone_of rows.now) rows.now.leaves sinks.now counts.items) }
{
    let leaves = rows.leaves;
    let mut walker = Walker::new(alloc, rows)?;
    let mut table = vec![in alloc; 0; leaves]?;
    let counts = table.as_mut_slice();
    for sink in sinks {
        walker.walk(rows, *sink)?;
        let cone = walker.found.as_slice();
        raise(counts, cone);
    }
    Ok(table)
}

/// One more for each leaf of a cone.
fn raise(counts: &mut [u32], cone: &[u32])
    requires within { All (λ x. x < length counts.old) cone.now }
    requires once { IsOnce cone.now }
    requires room { (x : ℕ) → slice_index counts.old x + 1 < 2 ^ 32 }
    ensures { Raises cone.now counts.old counts.new }
{
    for leaf in cone {
        counts[*leaf as usize] += 1;
    }
}

/// How many leaves of a cone one sink alone needs.
pub fn lost(cone: &[u32], counts: &[u32]) -> usize
    requires { All (λ x. x < length counts.now) cone.now }
    ensures { result ≡ count_by (λ x. slice_index counts.now x == 1) cone.now }
{
    let mut lost = 0;
    for leaf in cone {
        if counts[*leaf as usize] == 1 {
            lost += 1;
        }
    }
    lost
}
