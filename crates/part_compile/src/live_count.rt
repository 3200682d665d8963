//! Assignments that are live behind a position, counted from the last position back.

ghost use Rattle.std.specs.Prelude.{◌≡◌, ℕ, false, [], ◌∷◌, IfOk, List as Listed};
ghost use Rattle.std.proofs.Math.ListN.{get_or, set as set_at};
ghost use Rattle.cone_cutter.specs.Rows.{told, row_at};
ghost use Rattle.part_compile.specs.Counts.{CountsLive, ReadsMore, Passes};

use cone_cutter::NetRows;
use std::alloc::{AllocError, Global};

/// Which leaves are read behind a position of a sequence of assignments, and which stand at or before it.
#[derive(Drop)]
pub struct LiveCount {
    /// Whether each leaf is read behind the position.
    pub read: Vec<bool>,
    /// Whether each leaf stands at or before it.
    pub done: Vec<bool>,
    /// So many leaves are both.
    pub count: u32,
    /// Whether each vertex was met.
    pub met: Vec<bool>,
}

/// All of these assignments stand before, and none is read. Takes memory for two bytes of each leaf, and for one of each row.
pub(crate) fn none_read(
    alloc: Global,
    rows: &NetRows,
    assignments: &[u32],
) -> Result<LiveCount, AllocError>
    ensures { IfOk result (λ live. (read : Listed ℕ) → CountsLive read assignments.now live) }
{
    let leaves = rows.leaves;
    let mut done = vec![in alloc; false; leaves]?;
    for leaf in assignments {
        set(done.as_mut_slice(), *leaf, true);
    }
    let read = vec![in alloc; false; leaves]?;
    Ok(LiveCount {
        read,
        done,
        count: 0,
        met: vec![in alloc; false; rows.reads.len()]?,
    })
}

/// Whether a leaf is marked.
fn is_set(flags: &[bool], leaf: u32) -> bool
    ensures { result ≡ get_or flags.now leaf false }
{
    match flags.get(leaf as usize) {
        Some(flag) => *flag,
        None => false,
    }
}

/// Marks a leaf, or takes its mark away.
fn set(flags: &mut [bool], leaf: u32, flag: bool)
    ensures { flags.new ≡ set_at flags.old leaf flag }
{
    let at = leaf as usize;
    if at < flags.len() {
        flags[at] = flag;
    }
}

/// Reads a leaf.
pub(crate) fn read_leaf(live: &mut LiveCount, leaf: u32)
    ensures { ReadsMore (leaf ∷ []) live.old live.new }
{
    if is_set(live.read.as_slice(), leaf) {
        return;
    }
    set(live.read.as_mut_slice(), leaf, true);
    if is_set(live.done.as_slice(), leaf) {
        live.count = live.count.saturating_add(1);
    }
}

/// Passes the last of the leaves that stand before.
pub(crate) fn pass_leaf(live: &mut LiveCount, leaf: u32)
    ensures { Passes leaf live.old live.new }
{
    set(live.done.as_mut_slice(), leaf, false);
    if is_set(live.read.as_slice(), leaf) {
        live.count = live.count.saturating_sub(1);
    }
}

/// Reads leaves.
fn read_leaves(live: &mut LiveCount, leaves: &[u32])
    ensures { ReadsMore leaves.now live.old live.new }
{
    for leaf in leaves {
        read_leaf(live, *leaf);
    }
}

/// Reads what a row of a net tells: leaves, and what vertices stand for.
pub(crate) fn read_row(live: &mut LiveCount, rows: &NetRows, row: &[u32])
    ensures { ReadsMore (told rows.now.leaves rows.now.reads.items row.now) live.old live.new }
{
    for number in row {
        read_number(live, rows, *number);
    }
}

/// Reads what a number in a row tells.
fn read_number(live: &mut LiveCount, rows: &NetRows, number: u32)
    ensures { ReadsMore (told rows.now.leaves rows.now.reads.items (number ∷ [])) live.old live.new }
{
    if (number as usize) < rows.leaves {
        read_leaf(live, number);
    } else {
        read_vertex(live, rows, number);
    }
}

/// Reads the leaves of a vertex, where it wasn't met before.
fn read_vertex(live: &mut LiveCount, rows: &NetRows, vertex: u32)
    ensures { ReadsMore (row_at rows.now.reads.items vertex) live.old live.new }
{
    if is_set(live.met.as_slice(), vertex) {
        return;
    }
    meet(live, vertex);
    read_members(live, rows, vertex);
}

/// Reads the leaves of a vertex.
fn read_members(live: &mut LiveCount, rows: &NetRows, vertex: u32)
    ensures { ReadsMore (row_at rows.now.reads.items vertex) live.old live.new }
{
    let at = vertex as usize;
    let count = rows.reads.len();
    if at < count {
        read_leaves(live, rows.reads[at].as_slice());
    }
}

/// Notes that a vertex was met.
fn meet(live: &mut LiveCount, vertex: u32)
    ensures { (xs : Listed ℕ) → ReadsMore xs live.old live.new }
{
    set(live.met.as_mut_slice(), vertex, true);
}
