//! What moves of the sinks of the fullest part come to.

ghost use Rattle.std.specs.Prelude.{◌≡◌, ℕ, ◌+◌, ◌<◌, ◌≤◌, ◌^◌, length, slice_index, All, IfOk};
ghost use Rattle.std.specs.List.{AllZip};
ghost use Rattle.cone_cutter.specs.Rows.{places_of};
ghost use Rattle.cut_refine.specs.Refining.{IsRow};
ghost use Rattle.cut_refine.specs.Standing.{cone_of, AreConeRows, AreSized, Stands, IsMostBut, IsTarget, greatest_with, IsFullestPart, IsChosen, IsLook};

use crate::counting::lost;
use crate::fullest::Fullest;
use crate::refined::Move;
use crate::standing::Standing;
use crate::targets::{Target, best_target, most_but};
use crate::walker::Walker;
use bit_words::List;
use cone_cutter::{NetRows, count_shared};
use std::alloc::{AllocError, Global};

/// The fullest part, its cost, a row for each of its sinks, and the best of these moves where one lowers the cost.
#[derive(Drop)]
pub struct Look {
    pub full: Fullest,
    pub greatest: u32,
    pub table: List<Move>,
    pub best: Move,
}

impl Look {
    /// Walks the cone of each sink of the fullest part twice.
    pub fn new(alloc: Global, rows: &NetRows, standing: &Standing) -> Result<Look, AllocError>
        requires rows { AreConeRows rows.now }
        requires stands { Stands rows.now standing.now }
        requires sized { AreSized (cone_of rows.now) (length rows.now.needed.items) }
        ensures { IfOk result (IsLook rows.now standing.now) }
    {
        let full = Fullest::new(alloc, rows, standing)?;
        let greatest = standing.costs[full.part as usize] as u32;
        let table = if standing.costs.len() == 1 {
            List::new(alloc)
        } else {
            table_of(alloc, rows, standing, &full)?
        };
        let best = best_of(table.as_slice(), greatest);
        Ok(Look {
            full,
            greatest,
            table,
            best,
        })
    }
}

/// A row for each sink of the fullest part: of its moves the one after which the greatest cost is least, to the lowest part on a tie.
fn table_of(
    alloc: Global,
    rows: &NetRows,
    standing: &Standing,
    full: &Fullest,
) -> Result<List<Move>, AllocError>
    requires rows { AreConeRows rows.now }
    requires stands { Stands rows.now standing.now }
    requires full { IsFullestPart rows.now standing.now full.now }
    requires several { 1 < length standing.now.costs.items }
    ensures { IfOk result (AllZip (IsRow (cone_of rows.now) (length standing.now.costs.items) standing.now.owners.items) (places_of standing.now.owners.items full.now.part)) }
{
    let workers = standing.costs.len();
    let mut walker = Walker::new(alloc, rows)?;
    let mut shared_table = vec![in alloc; 0; workers]?;
    let shared = shared_table.as_mut_slice();
    let mut table = List::new(alloc);
    let sinks = full.sinks.as_slice();
    for sink in sinks {
        walker.walk(rows, *sink)?;
        let cone = walker.found.as_slice();
        let target = target_of(standing, full, cone, shared);
        table.push(Move {
            sink: *sink,
            target: target.part as u32,
            greatest: target.greatest as u32,
        })?;
    }
    Ok(table)
}

/// The best part for a sink of the fullest part with this cone.
fn target_of(standing: &Standing, full: &Fullest, cone: &[u32], shared: &mut [usize]) -> Target
    requires several { 1 < length standing.now.costs.items }
    requires few { length standing.now.costs.items ≤ 64 }
    requires part { full.now.part < length standing.now.costs.items }
    requires room { length shared.old ≡ length standing.now.costs.items }
    requires masks { All (λ x. x < length standing.now.masks.items) cone.now }
    requires counts { All (λ x. x < length full.now.counts.items) cone.now }
    requires fits { (p : ℕ) → p < length standing.now.costs.items → slice_index standing.now.costs.items p + length cone.now < 2 ^ 64 }
    ensures { (other : ℕ) × IsMostBut standing.now.costs.items full.now.part other × IsTarget (greatest_with standing.now cone.now full.now.counts.items full.now.part (slice_index standing.now.costs.items other)) (length standing.now.costs.items) full.now.part result }
{
    let masks = standing.masks.as_slice();
    let costs = standing.costs.as_slice();
    let counts = full.counts.as_slice();
    let part = full.part as usize;
    count_shared(masks, cone, shared);
    let most = costs[most_but(costs, part)];
    let left = costs[part].saturating_sub(lost(cone, counts));
    let least = left.max(most);
    best_target(costs, shared, cone.len(), part, least)
}

/// The first row with the least greatest cost, where that is less than this one; else no row.
fn best_of(table: &[Move], greatest: u32) -> Move
    ensures { IsChosen table.now greatest result }
{
    let mut best = Move {
        sink: 0,
        target: 0,
        greatest,
    };
    for row in table {
        best = better(best, *row);
    }
    best
}

/// The row where its greatest cost is less, else the other one.
fn better(best: Move, row: Move) -> Move
    ensures less { row.greatest < best.greatest → result ≡ row }
    ensures kept { best.greatest ≤ row.greatest → result ≡ best }
{
    if row.greatest < best.greatest {
        row
    } else {
        best
    }
}
