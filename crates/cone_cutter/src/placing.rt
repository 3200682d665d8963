//! The placing of sinks in partitions.

ghost use Rattle.std.specs.Prelude.{◌≡◌, ◌≢◌, ℕ, ◌<◌, ◌≤◌, ◌^◌, length, slice_get, slice_index, All, IfOk};
ghost use Rattle.cone_cutter.specs.Cuts.{placed};
ghost use Rattle.cone_cutter.specs.Rows.{AreNetRows, reads_in, needs_in};
ghost use Rattle.cone_cutter.specs.Loads.{IsLoad};

use crate::loads::Load;
use crate::rows::NetRows;
use crate::walking::{no_stamps, walk_cone};
use std::alloc::{AllocError, Global};

/// A sink with the partition in which it was placed, both by their numbers.
#[derive(Clone, Copy)]
pub struct Placing {
    pub sink: u32,
    pub part: u32,
}

/// The placings of all sinks, in their order, and what the partitions then hold.
#[derive(Drop)]
pub struct Placed {
    pub placings: Vec<Placing>,
    pub load: Load,
}

/// Places sinks, one after the other, each in the partition that then holds the fewest leaves, the first one on a tie.
pub fn place_all(
    alloc: Global,
    rows: &NetRows,
    order: &[usize],
    workers: u32,
) -> Result<Placed, AllocError>
    requires rows { AreNetRows rows.now }
    requires few { rows.now.leaves < 2 ^ 32 }
    requires few_sinks { length rows.now.needed.items < 2 ^ 32 }
    requires short { length order.now < 2 ^ 32 }
    requires sinks { All (λ k. k < length rows.now.needed.items) order.now }
    requires some { 0 < workers }
    requires most { workers ≤ 64 }
    ensures load { IfOk result (λ it. IsLoad (reads_in rows.now) (needs_in rows.now) workers it.placings.items it.load) }
    ensures order { IfOk result (λ it. placed it.placings.items ≡ order.now) }
{
    let needed = rows.needed.as_slice();
    let mut stamp_table = no_stamps(alloc, rows.reads.len())?;
    let stamps = stamp_table.as_mut_slice();
    let mut found = Vec::new(alloc);
    let mut load = Load::new(alloc, rows.leaves, workers as usize)?;
    let mut placings = Vec::new(alloc);
    for (turn, sink) in order.iter().enumerate() {
        let stamp = turn as u32 + 1;
        walk_cone(rows, needed[*sink].as_slice(), stamps, stamp, &mut found)?;
        let part = load.take(found.as_slice());
        placings.push(Placing {
            sink: *sink as u32,
            part,
        })?;
    }
    Ok(Placed { placings, load })
}

/// For each sink the partition in which it was placed.
pub fn owners_of(alloc: Global, placings: &[Placing], count: usize) -> Result<Vec<u32>, AllocError>
    requires within { All (λ placing. placing.sink < count) placings.now }
    requires once { (i j : ℕ) → i < j → j < length placings.now → slice_index (placed placings.now) i ≢ slice_index (placed placings.now) j }
    ensures count { IfOk result (λ owners. length owners.items ≡ count) }
    ensures owners { IfOk result (λ owners. (i : ℕ) (it : Placing) → slice_get placings.now i ≡ Some it → slice_index owners.items it.sink ≡ it.part) }
{
    let mut owners = vec![in alloc; 0; count]?;
    let table = owners.as_mut_slice();
    for placing in placings {
        table[placing.sink as usize] = placing.part;
    }
    Ok(owners)
}
