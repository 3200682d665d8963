//! Walks of cones.

ghost use Rattle.std.specs.Prelude.{◌≡◌, ℕ, ◌<◌, ◌++◌, ◌∷◌, [], length, nat_lt, slice_index, All, IfOk, OnOk};
ghost use Rattle.std.specs.List.{filter};
ghost use Rattle.cone_cutter.specs.Rows.{AreBelow, AreNetRows};
ghost use Rattle.cone_cutter.specs.Walks.{Meets, Walked, FindsCone};

use crate::rows::NetRows;
use bit_words::List;
use std::alloc::{AllocError, Global};

/// A stamp 0 for each leaf: none was met.
pub fn no_stamps(alloc: Global, count: usize) -> Result<Vec<u32>, AllocError>
    ensures count { IfOk result (λ stamps. length stamps.items ≡ count) }
    ensures none { IfOk result (λ stamps. (v : ℕ) → slice_index stamps.items v ≡ 0) }
{
    vec![in alloc; 0; count]
}

/// Finds what a sink needs that has this row of roots: the assignments that are met from there, each once. The stamp is new.
///
/// Takes time in proportion to what is found and its rows.
pub fn walk_cone(
    rows: &NetRows,
    roots: &[u32],
    stamps: &mut [u32],
    stamp: u32,
    found: &mut Vec<u32>,
) -> Result<(), AllocError>
    requires rows { AreNetRows rows.now }
    requires long { length stamps.old ≡ length rows.now.reads.items }
    requires roots { All (λ x. x < length stamps.old) roots.now }
    requires fresh { (v : ℕ) → slice_index stamps.old v < stamp }
    ensures { OnOk result (FindsCone rows.now roots.now stamp stamps.old stamps.new found.new.items) }
{
    walk(rows.reads.as_slice(), roots, stamps, stamp, found)?;
    keep_leaves(found, rows.leaves);
    Ok(())
}

/// Keeps the numbers of leaves: those below their count.
fn keep_leaves(found: &mut Vec<u32>, leaves: usize)
    ensures { found.new.items ≡ filter (λ x. nat_lt x leaves) found.old.items }
{
    found.retain(|number| (*number as usize) < leaves);
}

/// Finds all that is met from the roots along the rows, each once. The stamp is new, and stands for what was found.
///
/// Takes time in proportion to what is found and its rows.
pub fn walk(
    reads: &[List<u32>],
    roots: &[u32],
    stamps: &mut [u32],
    stamp: u32,
    found: &mut Vec<u32>,
) -> Result<(), AllocError>
    requires below { AreBelow (length stamps.old) reads.now }
    requires long { length stamps.old ≡ length reads.now }
    requires roots { All (λ x. x < length stamps.old) roots.now }
    requires fresh { (v : ℕ) → slice_index stamps.old v < stamp }
    ensures { OnOk result (Walked reads.now roots.now stamp stamps.old stamps.new found.new.items) }
{
    found.clear();
    meet(roots, stamps, stamp, found)?;
    let mut place = 0;
    'going: while place < found.len() {
        let leaf = found[place];
        meet(reads[leaf as usize].as_slice(), stamps, stamp, found)?;
        place += 1;
    }
    Ok(())
}

/// Stamps leaves; those that weren't stamped are added to what was found.
fn meet(row: &[u32], stamps: &mut [u32], stamp: u32, found: &mut Vec<u32>) -> Result<(), AllocError>
    requires { All (λ x. x < length stamps.old) row.now }
    ensures { OnOk result (Meets row.now stamp stamps.old found.old.items stamps.new found.new.items) }
{
    for leaf in row {
        if stamps[*leaf as usize] == stamp {
            continue;
        }
        put(found, *leaf)?;
        stamps[*leaf as usize] = stamp;
    }
    Ok(())
}

/// One more leaf.
fn put(found: &mut Vec<u32>, leaf: u32) -> Result<(), AllocError>
    ensures { OnOk result (found.new.items ≡ found.old.items ++ leaf ∷ []) }
{
    found.push(leaf)?;
    Ok(())
}
