//! The leaves of a sequence and the vertices, in an order.

ghost use Rattle.std.specs.Prelude.{◌≡◌, ℕ, ◌<◌, ◌∷◌, [], true, false, length, All, Contains, IfOk, OnOk};
ghost use Rattle.std.proofs.Math.ListN.{get_or, set};
ghost use Rattle.cone_cutter.specs.Rows.{reads_in, needs_in, row_at, AreNetRows};
ghost use Rattle.cone_cutter.specs.Marks.{IsRowOrder, AreInOrder, IsArranged, AreReady, PlacesVertices, PlacesLeaf};

use crate::rows::NetRows;
use std::alloc::{AllocError, Global};

/// Numbers in an order, and for each number whether it is a vertex that stands there.
#[derive(Drop)]
pub struct Arranged {
    pub placed: Vec<bool>,
    pub all: Vec<u32>,
}

/// An order of what leaves read and sinks need: the leaves of a sequence, each behind the vertices in its row, and at the end the
/// vertices that no leaf reads.
pub fn with_vertices(
    alloc: Global,
    rows: &NetRows,
    sequence: &[u32],
) -> Result<Vec<u32>, AllocError>
    requires rows { AreNetRows rows.now }
    requires order { IsRowOrder (reads_in rows.now) sequence.now }
    requires needs_in_order { AreInOrder (needs_in rows.now) sequence.now }
    ensures order { IfOk result (λ all. IsRowOrder rows.now.reads.items all.items) }
    ensures needs_in_order { IfOk result (λ all. AreInOrder rows.now.needed.items all.items) }
{
    let mut arranged = nothing_placed(alloc, rows)?;
    for leaf in sequence {
        place_leaf(&mut arranged, rows, *leaf)?;
    }
    for row in rows.needed.as_slice() {
        place_vertices(&mut arranged, rows, row.as_slice())?;
    }
    Ok(arranged.all)
}

/// No number stands there.
fn nothing_placed(alloc: Global, rows: &NetRows) -> Result<Arranged, AllocError>
    ensures arranged { IfOk result (IsArranged rows.now) }
    ensures empty { IfOk result (λ it. (x : ℕ) → Contains it.all.items x → ⊥) }
{
    Ok(Arranged {
        placed: vec![in alloc; false; rows.reads.len()]?,
        all: Vec::new(alloc),
    })
}

/// Places a leaf behind the vertices in its row.
fn place_leaf(arranged: &mut Arranged, rows: &NetRows, leaf: u32) -> Result<(), AllocError>
    requires rows { AreNetRows rows.now }
    requires arranged { IsArranged rows.now arranged.old }
    requires within { leaf < rows.now.leaves }
    requires new { Contains arranged.old.all.items leaf → ⊥ }
    requires ready { (y : ℕ) → Contains (row_at (reads_in rows.now) leaf) y → Contains arranged.old.all.items y }
    ensures { OnOk result (PlacesLeaf rows.now leaf arranged.old arranged.new) }
{
    place_vertices(arranged, rows, rows.reads[leaf as usize].as_slice())?;
    arranged.all.push(leaf)?;
    Ok(())
}

/// Places those vertices in a row that don't stand there yet.
fn place_vertices(arranged: &mut Arranged, rows: &NetRows, row: &[u32]) -> Result<(), AllocError>
    requires rows { AreNetRows rows.now }
    requires arranged { IsArranged rows.now arranged.old }
    requires inside { All (λ x. x < length rows.now.reads.items) row.now }
    requires ready { AreReady rows.now row.now arranged.old }
    ensures { OnOk result (PlacesVertices rows.now row.now arranged.old arranged.new) }
{
    for number in row {
        place_number(arranged, rows, *number)?;
    }
    Ok(())
}

/// Places a number, where it is a vertex that doesn't stand there yet.
fn place_number(arranged: &mut Arranged, rows: &NetRows, number: u32) -> Result<(), AllocError>
    requires arranged { IsArranged rows.now arranged.old }
    requires inside { number < length rows.now.reads.items }
    requires ready { AreReady rows.now (number ∷ []) arranged.old }
    ensures { OnOk result (PlacesVertices rows.now (number ∷ []) arranged.old arranged.new) }
{
    if (number as usize) < rows.leaves {
        return Ok(());
    }
    if is_placed(arranged.placed.as_slice(), number) {
        return Ok(());
    }
    arranged.all.push(number)?;
    mark(arranged.placed.as_mut_slice(), number);
    Ok(())
}

/// Whether a vertex stands there.
fn is_placed(placed: &[bool], vertex: u32) -> bool
    ensures { result ≡ get_or placed.now vertex false }
{
    match placed.get(vertex as usize) {
        Some(flag) => *flag,
        None => false,
    }
}

/// Notes that a vertex stands there.
fn mark(placed: &mut [bool], vertex: u32)
    ensures { placed.new ≡ set placed.old vertex true }
{
    let at = vertex as usize;
    if at < placed.len() {
        placed[at] = true;
    }
}
