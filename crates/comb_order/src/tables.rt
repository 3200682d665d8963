//! The tables that a search begins with.

ghost use Rattle.std.specs.Prelude.{◌≡◌, length, replicate, IfOk};
ghost use Rattle.comb_order.specs.Search.{HasLengths};

use crate::searching::NEW;
use std::alloc::{AllocError, Global};

/// A mark for each vertex: none was met.
pub fn all_new(alloc: Global, reads: &[Vec<u32>]) -> Result<Vec<u8>, AllocError>
    ensures { IfOk result (λ marks. marks.items ≡ replicate (length reads.now) 2) }
{
    let mut marks = Vec::new(alloc);
    marks.resize(reads.len(), NEW)?;
    Ok(marks)
}

/// How much each vertex reads.
pub fn lengths(alloc: Global, reads: &[Vec<u32>]) -> Result<Vec<usize>, AllocError>
    ensures { IfOk result (λ left. HasLengths reads.now left.items) }
{
    let mut left = Vec::new(alloc);
    for row in reads {
        left.push(row.len())?;
    }
    Ok(left)
}
