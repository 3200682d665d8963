//! The code of a part.

ghost use Rattle.std.specs.Prelude.{◌≡◌, ◌<◌, ◌^◌, length, map, IfOk};
ghost use Rattle.ground_net.specs.Cones.{sinks as sinks_in};
ghost use Rattle.cone_cutter.specs.Rows.{sink_of};
ghost use Rattle.partition_code.specs.Codes.{IsCodeOf};
ghost use Rattle.code_place.specs.Live.{IsSingle};
ghost use Rattle.part_compile.specs.FirstWords.{HaveNumbers};
ghost use Rattle.part_compile.specs.PartRows.{IsPlan};
ghost use Rattle.part_compile.specs.Pieces.{InPieces};
ghost use Rattle.part_compile.specs.Frames.{WatchesAssignments};
ghost use Rattle.part_compile.specs.Rows.{IsUnionInOrder};

use crate::adding::made_of;
use crate::sources::sources_of;
use crate::work::{Plan, Work};
use code_draft::finish;
use code_draft::steps::empty;
use cone_cutter::SinkAt;
use flat_code::{Code, publishing_changes};
use ground_net::CutPart;
use partition_code::assign_all;
use std::alloc::{AllocError, Global};

/// The code of a part: its assignments in their order, and then its sinks in theirs. The sinks are those of the net, by their numbers.
///
/// The sources of the net are made anew, since the part's assignments change them: takes time and memory in proportion to the net.
pub(crate) fn code_of(
    alloc: Global,
    plan: &Plan<'_>,
    sinks: &[SinkAt],
    part: &CutPart,
) -> Result<Code, AllocError>
    requires plan { IsPlan plan.now.net.now plan.now.watch.now plan.now.words.now plan.now.reads.now }
    requires sinks { map sink_of sinks.now ≡ sinks_in plan.now.net.now plan.now.watch.now }
    requires memories { length plan.now.net.now.memories < 2 ^ 32 }
    requires elements { HaveNumbers plan.now.net.now.memories }
    requires part { IsUnionInOrder plan.now.net.now plan.now.watch.now part.now }
    ensures code { IfOk result (IsCodeOf plan.now.net.now plan.now.watch.now part.now) }
    ensures single { IfOk result IsSingle }
    ensures pieces { IfOk result (λ code. WatchesAssignments plan.now.net.now plan.now.watch.now part.now → InPieces plan.now.net.now plan.now.watch.now part.now code) }
{
    let net = plan.net;
    let words = plan.words;
    let last = plan.reads.len();
    let count = words.captured.as_slice()[last];
    let mut sources = sources_of(alloc, net, words)?;
    let mut draft = empty(alloc, count);
    assign_all(
        alloc,
        &mut draft,
        &mut sources,
        net.drivers.as_slice(),
        part.assignments.as_slice(),
    )?;
    let work = Work {
        plan,
        sources: &sources,
    };
    let made = made_of(alloc, &work, sinks, part, draft)?;
    let whole = finish(alloc, made.draft, made.shown, made.positions, made.owned)?;
    let behind = net.registers.len();
    let once = words.registers.as_slice()[behind];
    let code = publishing_changes(whole, once);
    Ok(code)
}
