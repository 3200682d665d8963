//! The refined cut that begins with the cut of the rule.

ghost use Rattle.std.specs.Prelude.{◌<◌, ◌≤◌, ◌≡◌, ◌^◌, length, IfOk};
ghost use Rattle.ground_net.specs.Cones.{sinks};
ghost use Rattle.ground_net.specs.Reads.{IsOrder};
ghost use Rattle.cone_cutter.specs.Splits.{IsSplit};
ghost use Rattle.cut_refine.specs.Refining.{IsRefinedOf, IsRefinedCut};

use crate::refined::Refined;
use crate::refining::refine;
use cone_cutter::cut;
use ground_net::{Cut, Ordered};
use std::alloc::{AllocError, Global};

/// The refined cut of a net into 1 to 64 parts, for these watched leaves, with its greatest cost and its table.
pub fn refined_of(
    alloc: Global,
    ordered: &Ordered,
    watch: &[u32],
    workers: u32,
) -> Result<Refined, AllocError>
    requires order { IsOrder ordered.now.net ordered.now.sequence }
    requires few { length ordered.now.net.leaves < 2 ^ 32 }
    requires few_sinks { length (sinks ordered.now.net watch.now) < 2 ^ 32 }
    requires some { 0 < workers }
    requires most { workers ≤ 64 }
    ensures { IfOk result (IsRefinedOf ordered.now watch.now workers) }
{
    let start = cut(alloc, ordered, watch, workers)?;
    Ok(refine(alloc, ordered, watch, &start)?)
}

/// The refined cut of a net into 1 to 64 parts, for these watched leaves. Each sink stands in one part, and each part has what its sinks
/// need.
pub fn refined_cut(
    alloc: Global,
    ordered: &Ordered,
    watch: &[u32],
    workers: u32,
) -> Result<Cut, AllocError>
    requires order { IsOrder ordered.now.net ordered.now.sequence }
    requires few { length ordered.now.net.leaves < 2 ^ 32 }
    requires few_sinks { length (sinks ordered.now.net watch.now) < 2 ^ 32 }
    requires some { 0 < workers }
    requires most { workers ≤ 64 }
    ensures refined { IfOk result (IsRefinedCut ordered.now watch.now workers) }
    ensures split { IfOk result (λ cut. IsSplit ordered.now watch.now cut.parts) }
    ensures count { IfOk result (λ cut. length cut.parts ≡ workers) }
{
    let refined = refined_of(alloc, ordered, watch, workers)?;
    Ok(refined.cut)
}
