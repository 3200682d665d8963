//! How many slots the code of a part has room for.

ghost use Rattle.std.specs.Prelude.{IfOk};
ghost use Rattle.ground_net.specs.Cones.{sinks as sinks_in};
ghost use Rattle.cone_cutter.specs.Rows.{need_rows, reads_in, needs_in, row_at, AreNetRows};
ghost use Rattle.part_compile.specs.Rooms.{AreLive, HasRoom, read_by_sinks};
ghost use Rattle.part_compile.specs.Rows.{AreRowsOf};
ghost use Rattle.part_compile.specs.Counts.{CountsLive, ReadsMore};

use crate::live_count::{LiveCount, none_read, pass_leaf, read_row};
use crate::node_count::largest_driver;
use cone_cutter::{NetRows, SinkAt};
use ground_net::{CutPart, Net};
use std::alloc::{AllocError, Global};

/// Two slots for each assignment of a part that is live at once and for each node of its largest driver, as far as a `u32` counts. The
/// rows are those of the net.
///
/// What memories read and evaluate is not counted. Takes memory for two bytes of each leaf of the net and for one of each row, and time in
/// proportion to these, to the rows that the part reads and to the drivers of the part.
pub fn room_of(
    alloc: Global,
    net: &Net,
    watch: &[u32],
    rows: &NetRows,
    part: &CutPart,
) -> Result<u32, AllocError>
    requires rows { AreRowsOf net.now watch.now rows.now }
    ensures { IfOk result (HasRoom net.now watch.now part.now) }
{
    let mut live = none_read(alloc, rows, part.assignments.as_slice())?;
    read_sinks(&mut live, net, watch, rows, part);
    let most = most_live(live, net, watch, rows, part);
    let nodes = largest_driver(net, watch, rows.sinks.as_slice(), part);
    Ok(most.saturating_add(nodes).saturating_mul(2))
}

/// Reads what the sinks of a part need themselves.
fn read_sinks(live: &mut LiveCount, net: &Net, watch: &[u32], rows: &NetRows, part: &CutPart)
    requires rows { AreRowsOf net.now watch.now rows.now }
    ensures { ReadsMore (read_by_sinks net.now watch.now part.now) live.old live.new }
{
    for number in part.sinks.as_slice() {
        read_sink(live, net, watch, rows, *number);
    }
}

/// Reads what the sink of a number needs itself, where it is no memory.
fn read_sink(live: &mut LiveCount, net: &Net, watch: &[u32], rows: &NetRows, number: u32)
    requires rows { AreRowsOf net.now watch.now rows.now }
    ensures { ReadsMore (row_at (need_rows net.now (sinks_in net.now watch.now)) number) live.old live.new }
{
    if is_memory(rows.sinks.as_slice(), number) {
        return;
    }
    read_needs(live, rows, number);
}

/// Whether the sink of a number is a memory.
fn is_memory(sinks: &[SinkAt], number: u32) -> bool {
    matches!(sinks.get(number as usize), Some(SinkAt::Memory(_)))
}

/// Reads what the row of a sink tells.
fn read_needs(live: &mut LiveCount, rows: &NetRows, number: u32)
    ensures { ReadsMore (row_at (needs_in rows.now) number) live.old live.new }
{
    let at = number as usize;
    let count = rows.needed.len();
    if at < count {
        read_row(live, rows, rows.needed[at].as_slice());
    }
}

/// Reads what the row of a leaf tells.
fn read_assignment(live: &mut LiveCount, rows: &NetRows, number: u32)
    requires { AreNetRows rows.now }
    ensures { ReadsMore (row_at (reads_in rows.now) number) live.old live.new }
{
    let at = number as usize;
    let count = rows.leaves;
    if at < count {
        read_row(live, rows, rows.reads[at].as_slice());
    }
}

/// The greatest number of assignments of a part that are live at once, where what its sinks read is read.
fn most_live(live: LiveCount, net: &Net, watch: &[u32], rows: &NetRows, part: &CutPart) -> u32
    requires counts { CountsLive (read_by_sinks net.now watch.now part.now) part.now.assignments live }
    requires rows { AreRowsOf net.now watch.now rows.now }
    ensures { AreLive net.now watch.now part.now result }
{
    let mut live = live;
    let assignments = part.assignments.as_slice();
    let mut most: u32 = 0;
    let mut at = assignments.len();
    while at > 0 {
        most = live.count.max(most);
        at -= 1;
        let leaf = assignments[at];
        pass_leaf(&mut live, leaf);
        read_assignment(&mut live, rows, leaf);
    }
    most
}
