//! The code of sinks, one after the other.

ghost use Rattle.std.specs.Prelude.{◌≡◌, ◌<◌, ◌^◌, Some, length, slice_get, map, IfOk, OnOk};
ghost use Rattle.ground_net.specs.Cones.{sinks as sinks_in, A_memory};
ghost use Rattle.cone_cutter.specs.Rows.{sink_of};
ghost use Rattle.part_compile.specs.PartRows.{IsPlan, IsWork, IsReady, Adds, SoFar};
ghost use Rattle.part_compile.specs.Rows.{KnowsCone, AreKept};
ghost use Rattle.part_compile.specs.Telling.{EvaluatesSink, TellsInPieces};

use crate::sink_code::{add_register, show_leaf};
use crate::spans::own_memory;
use crate::work::{Made, Work};
use bit_words::List;
use code_draft::Draft;
use code_memories::publish_memory;
use cone_cutter::SinkAt;
use ground_net::CutPart;
use std::alloc::{AllocError, Global};

/// The code and the words of a part's sinks behind a draft, sink by sink in the part's order. The sinks are those of the net, by their
/// numbers.
pub(crate) fn made_of(
    alloc: Global,
    work: &Work<'_>,
    sinks: &[SinkAt],
    part: &CutPart,
    draft: Draft,
) -> Result<Made, AllocError>
    requires plan { IsPlan work.now.plan.now.net.now work.now.plan.now.watch.now work.now.plan.now.words.now work.now.plan.now.reads.now }
    requires sinks { map sink_of sinks.now ≡ sinks_in work.now.plan.now.net.now work.now.plan.now.watch.now }
    requires part { IsWork work.now.plan.now.net.now work.now.plan.now.watch.now part.now work.now.sources.now }
    requires kept { AreKept work.now.plan.now.net.now work.now.sources.now }
    requires memories { length work.now.plan.now.net.now.memories < 2 ^ 32 }
    requires ready { IsReady work.now.plan.now.net.now work.now.sources.now draft }
    ensures so_far { IfOk result (SoFar work.now.plan.now.net.now work.now.plan.now.watch.now work.now.sources.now draft part.now.sinks) }
    ensures pieces { IfOk result (TellsInPieces work.now.plan.now.net.now work.now.plan.now.watch.now part.now work.now.sources.now draft) }
{
    let mut made = Made {
        draft,
        shown: List::new(alloc),
        positions: List::new(alloc),
        owned: List::new(alloc),
    };
    for number in part.sinks.as_slice() {
        let Some(sink) = sinks.get(*number as usize) else {
            unreachable!();
        };
        add_sink(alloc, work, &mut made, *number, *sink)?;
    }
    Ok(made)
}

/// Adds the code and the words of the sink of a number.
fn add_sink(
    alloc: Global,
    work: &Work<'_>,
    made: &mut Made,
    number: u32,
    sink: SinkAt,
) -> Result<(), AllocError>
    requires plan { IsPlan work.now.plan.now.net.now work.now.plan.now.watch.now work.now.plan.now.words.now work.now.plan.now.reads.now }
    requires known { KnowsCone work.now.plan.now.net.now (sink_of sink) work.now.sources.now }
    requires kept { AreKept work.now.plan.now.net.now work.now.sources.now }
    requires memories { length work.now.plan.now.net.now.memories < 2 ^ 32 }
    requires ready { IsReady work.now.plan.now.net.now work.now.sources.now made.old.draft }
    requires there { slice_get (sinks_in work.now.plan.now.net.now work.now.plan.now.watch.now) number ≡ Some (sink_of sink) }
    ensures adds { OnOk result (Adds work.now.plan.now.net.now work.now.plan.now.watch.now work.now.sources.now number (sink_of sink) made.old made.new) }
    ensures evaluates { OnOk result (EvaluatesSink work.now.plan.now.net.now work.now.sources.now (sink_of sink) made.old made.new) }
{
    match sink {
        SinkAt::Watched(leaf) => show_leaf(alloc, work, made, leaf, number),
        SinkAt::Register(register) => add_register(alloc, work, made, register, number),
        SinkAt::Memory(memory) => add_memory(alloc, work, made, memory, number),
    }
}

/// Adds the code and the words of a memory.
fn add_memory(
    alloc: Global,
    work: &Work<'_>,
    made: &mut Made,
    memory: usize,
    number: u32,
) -> Result<(), AllocError>
    requires plan { IsPlan work.now.plan.now.net.now work.now.plan.now.watch.now work.now.plan.now.words.now work.now.plan.now.reads.now }
    requires known { KnowsCone work.now.plan.now.net.now (A_memory memory) work.now.sources.now }
    requires kept { AreKept work.now.plan.now.net.now work.now.sources.now }
    requires memories { length work.now.plan.now.net.now.memories < 2 ^ 32 }
    requires ready { IsReady work.now.plan.now.net.now work.now.sources.now made.old.draft }
    requires there { slice_get (sinks_in work.now.plan.now.net.now work.now.plan.now.watch.now) number ≡ Some (A_memory memory) }
    ensures adds { OnOk result (Adds work.now.plan.now.net.now work.now.plan.now.watch.now work.now.sources.now number (A_memory memory) made.old made.new) }
    ensures evaluates { OnOk result (EvaluatesSink work.now.plan.now.net.now work.now.sources.now (A_memory memory) made.old made.new) }
{
    let net = work.plan.net;
    let words = work.plan.words;
    let reads = work.plan.reads;
    let Ok(place) = u32::try_from(memory) else {
        unreachable!();
    };
    publish_memory(alloc, &mut made.draft, work.sources, net, place)?;
    own_memory(&mut made.owned, net, words, reads, memory)?;
    Ok(())
}
