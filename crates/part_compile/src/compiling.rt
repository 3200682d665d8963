//! The codes of the parts of a cut.

ghost use Rattle.std.specs.Prelude.{◌<◌, length, All, IfOk};
ghost use Rattle.ground_net.specs.Reads.{IsOrder};
ghost use Rattle.ground_net.specs.Nets.{IsNet};
ghost use Rattle.ground_net.specs.Words.{SaysItsWords};
ghost use Rattle.cone_cutter.specs.Splits.{IsSplit};
ghost use Rattle.partition_code.specs.Codes.{AreCodesOf};
ghost use Rattle.part_compile.specs.Frames.{TakeFewSlots};

use crate::arranging::arrange_once;
use crate::captured::captured_reads;
use crate::counting::has_few_words;
use crate::part_code::code_of;
use crate::room::room_of;
use crate::words::{first_words, have_numbers};
use crate::work::Plan;
use bit_words::List;
use cone_cutter::NetRows;
use flat_code::Code;
use ground_net::{Cut, Ordered};
use std::alloc::{AllocError, Global};

/// There are fewer leaves and memories than this.
const NUMBERS: usize = 4_294_967_296;

/// The codes of the parts of a cut of a net whose assignments have an order, one for each part, for these watched leaves.
///
/// Where the watched leaves of a part are assignments, its code takes at most two slots for each assignment that is live at once and
/// for each node of the largest driver.
///
/// More leaves, words of a state or memories than a `u32` numbers are a want of memory; a memory that has no element needs numbers for
/// the words of one. Takes memory in proportion to the net and to the codes, and time in proportion to the codes, and to the net for
/// each part.
pub fn compile(
    alloc: Global,
    ordered: &Ordered,
    watch: &[u32],
    cut: &Cut,
) -> Result<List<Code>, AllocError>
    requires net { IsNet ordered.now.net }
    requires order { IsOrder ordered.now.net ordered.now.sequence }
    requires split { IsSplit ordered.now watch.now cut.now.parts }
    requires said { SaysItsWords ordered.now.net }
    requires watched { All (λ x. x < length ordered.now.net.leaves) watch.now }
    ensures codes { IfOk result (AreCodesOf ordered.now.net watch.now cut.now.parts) }
    ensures few { IfOk result (TakeFewSlots ordered.now.net watch.now cut.now.parts) }
{
    let net = &ordered.net;
    let reads = captured_reads(alloc, net)?;
    let leaves = net.leaves.len();
    let memories = net.memories.len();
    let few = has_few_words(net, reads.len());
    let numbered = have_numbers(net.memories.as_slice());
    if leaves >= NUMBERS || memories >= NUMBERS || !few || !numbered {
        return Err(AllocError);
    }
    let words = first_words(alloc, net)?;
    let rows = NetRows::new(alloc, net, watch)?;
    let sinks = rows.sinks.as_slice();
    let plan = Plan {
        net,
        watch,
        words: &words,
        reads: reads.as_slice(),
    };
    let mut codes = List::new(alloc);
    for part in cut.parts.as_slice() {
        let code = code_of(alloc, &plan, sinks, part)?;
        let room = room_of(alloc, net, watch, &rows, part)?;
        codes.push(arrange_once(alloc, code, room)?)?;
    }
    Ok(codes)
}
