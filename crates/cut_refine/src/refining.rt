//! Refining.

ghost use Rattle.std.specs.Prelude.{◌<◌, ◌≤◌, ◌^◌, length, IfOk};
ghost use Rattle.ground_net.specs.Cones.{sinks};
ghost use Rattle.ground_net.specs.Reads.{IsOrder};
ghost use Rattle.cone_cutter.specs.Cuts.{IsCut};
ghost use Rattle.cut_refine.specs.Refining.{IsRefined};

use crate::look::Look;
use crate::refined::Refined;
use crate::standing::Standing;
use cone_cutter::{NetRows, parts_of};
use ground_net::{Cut, Ordered};
use std::alloc::{AllocError, Global};

/// The refined cut of a net: as long as a move of one sink to another part lowers the greatest cost of a part, the move is made after
/// which that cost is least, the one of the lower sink and then to the lower part on a tie. It begins with a cut of 1 to 64 parts, made by
/// the rule for this watch list.
///
/// For each step the cones of the sinks of one part are walked, each twice, and none is kept. Takes memory in proportion to the net.
pub fn refine(
    alloc: Global,
    ordered: &Ordered,
    watch: &[u32],
    start: &Cut,
) -> Result<Refined, AllocError>
    requires order { IsOrder ordered.now.net ordered.now.sequence }
    requires few { length ordered.now.net.leaves < 2 ^ 32 }
    requires few_sinks { length (sinks ordered.now.net watch.now) < 2 ^ 32 }
    requires some { 0 < length start.now.parts }
    requires most { length start.now.parts ≤ 64 }
    requires cut { IsCut ordered.now watch.now (length start.now.parts) start.now }
    ensures { IfOk result (IsRefined ordered.now watch.now start.now) }
{
    let rows = NetRows::new(alloc, &ordered.net, watch)?;
    let leaves = rows.leaves;
    let sinks = rows.needed.len();
    let mut standing = Standing::of_parts(alloc, leaves, sinks, start.parts.as_slice())?;
    let mut look = Look::new(alloc, &rows, &standing)?;
    'refining: while look.best.greatest < look.greatest {
        standing.make(alloc, &rows, &look)?;
        look = Look::new(alloc, &rows, &standing)?;
    }
    let parts = parts_of(
        alloc,
        standing.owners.as_slice(),
        standing.masks.as_slice(),
        ordered.sequence.as_slice(),
        start.parts.len() as u32,
    )?;
    Ok(Refined {
        cut: Cut {
            parts,
            needed: start.needed,
        },
        greatest: look.greatest,
        table: look.table,
    })
}
