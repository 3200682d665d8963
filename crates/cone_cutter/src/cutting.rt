//! The cut.

ghost use Rattle.std.specs.Prelude.{◌≡◌, ◌<◌, ◌≤◌, ◌^◌, length, filter, All, IfOk};
ghost use Rattle.ground_net.specs.Cones.{sinks};
ghost use Rattle.ground_net.specs.Reads.{IsOrder};
ghost use Rattle.cone_cutter.specs.Cuts.{IsCut};
ghost use Rattle.cone_cutter.specs.Loads.{holds, parts_by};

use crate::buckets::buckets;
use crate::holding::Holding;
use crate::loads::is_held;
use crate::rows::NetRows;
use crate::sizing::union_of;
use bit_words::List;
use ground_net::{Cut, CutPart, Ordered};
use std::alloc::{AllocError, Global};

/// The cut of a net into 1 to 64 partitions, by the rule: sinks by falling size of their cones and then in their order, each to
/// the partition that would then have the fewest assignments, the one of the lowest number on a tie.
///
/// A sink is named by its number, from 0 in the order of the sinks of this watch list. The sinks of a partition rise, and its
/// assignments stand in the order of the sequence.
///
/// Takes memory in proportion to the net. With one partition no cone is walked by itself, and the time is in proportion to the net.
/// With more the sizes of the cones take a sweep over the net for every 64 sinks, and each cone is then walked once, to place its
/// sink: the time is in proportion to the sum of the cones, beside the sweeps and the partitions for each sink.
pub fn cut(alloc: Global, ordered: &Ordered, watch: &[u32], workers: u32) -> Result<Cut, AllocError>
    requires order { IsOrder ordered.now.net ordered.now.sequence }
    requires few { length ordered.now.net.leaves < 2 ^ 32 }
    requires few_sinks { length (sinks ordered.now.net watch.now) < 2 ^ 32 }
    requires some { 0 < workers }
    requires most { workers ≤ 64 }
    ensures { IfOk result (IsCut ordered.now watch.now workers) }
{
    let rows = NetRows::new(alloc, &ordered.net, watch)?;
    let union = union_of(alloc, &rows)?;
    let sequence = ordered.sequence.as_slice();
    let holding = Holding::new(alloc, &rows, union.as_slice(), sequence, workers)?;
    let parts = parts_of(
        alloc,
        holding.owners.as_slice(),
        holding.masks.as_slice(),
        sequence,
        workers,
    )?;
    Ok(Cut {
        parts,
        needed: union.len() as u32,
    })
}

/// The partitions: each has its sinks by rising numbers, and the assignments that it holds in the order of the sequence.
pub fn parts_of(
    alloc: Global,
    owners: &[u32],
    masks: &[u64],
    sequence: &[u32],
    workers: u32,
) -> Result<List<CutPart>, AllocError>
    requires within { All (λ x. x < length masks.now) sequence.now }
    requires most { workers ≤ 64 }
    requires few { length owners.now < 2 ^ 32 }
    ensures { IfOk result (λ parts. parts ≡ parts_by owners.now masks.now sequence.now workers) }
{
    let rows = buckets(alloc, owners, workers as usize)?;
    let mut parts = List::new(alloc);
    for number in 0..workers {
        let sinks = numbers_of(alloc, rows[number as usize].as_slice())?;
        let assignments = held_by(alloc, masks, sequence, number)?;
        parts.push(CutPart { sinks, assignments })?;
    }
    Ok(parts)
}

/// The same numbers.
fn numbers_of(alloc: Global, places: &[usize]) -> Result<List<u32>, AllocError>
    requires { All (λ place. place < 2 ^ 32) places.now }
    ensures { IfOk result (λ numbers. numbers ≡ places.now) }
{
    let mut numbers = List::new(alloc);
    for place in places {
        numbers.push(*place as u32)?;
    }
    Ok(numbers)
}

/// What a partition holds of a sequence, in the same order.
fn held_by(
    alloc: Global,
    masks: &[u64],
    sequence: &[u32],
    part: u32,
) -> Result<List<u32>, AllocError>
    requires within { All (λ x. x < length masks.now) sequence.now }
    requires few { part < 64 }
    ensures { IfOk result (λ kept. kept ≡ filter (holds masks.now part) sequence.now) }
{
    let mut kept = List::new(alloc);
    for leaf in sequence {
        if is_held(masks[*leaf as usize], part) {
            kept.push(*leaf)?;
        }
    }
    Ok(kept)
}
