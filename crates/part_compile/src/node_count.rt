//! Nodes of drivers, as far as a `u32` counts.

ghost use Rattle.std.specs.Prelude.{◌≡◌, ◌≤◌, map, sum};
ghost use Rattle.ground_net.specs.Reads.{driver_of};
ghost use Rattle.cone_cutter.specs.Rows.{sink_of};
ghost use Rattle.code_emit.specs.Counts.{nodes};
ghost use Rattle.ground_net.specs.Cones.{sinks as sinks_in};
ghost use Rattle.partition_code.specs.Codes.{sinks_of_part};
ghost use Rattle.part_compile.specs.SlotBounds.{greatest, nodes_of, nodes_of_reset, assignment_nodes, sink_nodes, sinks_nodes, most_nodes};

use cone_cutter::SinkAt;
use ground_net::{CutPart, Ground, Net, NetReset};

/// The nodes of the largest driver of a part. What memories evaluate isn't counted.
pub(crate) fn largest_driver(net: &Net, watch: &[u32], sinks: &[SinkAt], part: &CutPart) -> u32
    requires sinks { map sink_of sinks.now ≡ sinks_in net.now watch.now }
    ensures { result ≤ most_nodes net.now watch.now part.now }
{
    let assignments = largest_assignment(net, part);
    largest_sink(net, watch, sinks, part).max(assignments)
}

/// The nodes of the largest driver of an assignment.
fn largest_assignment(net: &Net, part: &CutPart) -> u32
    ensures { result ≤ greatest (map (assignment_nodes net.now) part.now.assignments) }
{
    let mut most: u32 = 0;
    for leaf in part.assignments.as_slice() {
        most = driver_nodes(net, *leaf).max(most);
    }
    most
}

/// The nodes of the largest driver of a register, with its reset and `init`.
fn largest_sink(net: &Net, watch: &[u32], sinks: &[SinkAt], part: &CutPart) -> u32
    requires sinks { map sink_of sinks.now ≡ sinks_in net.now watch.now }
    ensures { result ≤ greatest (sinks_nodes net.now watch.now part.now) }
{
    let mut most: u32 = 0;
    for number in part.sinks.as_slice() {
        if let Some(sink) = sinks.get(*number as usize) {
            most = register_nodes(net, *sink).max(most);
        }
    }
    most
}

/// The nodes of the driver of a register, with its reset and `init`, and 0 for another sink.
fn register_nodes(net: &Net, sink: SinkAt) -> u32
    ensures { result ≤ greatest (sink_nodes net.now (sink_of sink)) }
{
    if let SinkAt::Register(place) = sink {
        if let Some(register) = net.registers.get(place) {
            let reset = reset_nodes(&register.reset);
            return driver_nodes(net, register.leaf).saturating_add(reset);
        }
    }
    0
}

/// The nodes of the driver of a leaf, and 0 where nothing drives it.
fn driver_nodes(net: &Net, leaf: u32) -> u32
    ensures { result ≤ nodes_of (driver_of net.now leaf) }
{
    match net.drivers.get(leaf as usize) {
        Some(Some(driver)) => count_nodes(driver),
        _ => 0,
    }
}

/// The nodes of a reset and its `init`.
fn reset_nodes(reset: &Option<NetReset>) -> u32
    ensures { result ≤ nodes_of_reset reset.now }
{
    match reset {
        Some(reset) => count_nodes(&reset.reset).saturating_add(count_nodes(&reset.init)),
        None => 0,
    }
}

/// The nodes of an expression.
#[cycle(counted)]
fn count_nodes(ground: &Ground) -> u32
    ensures { result ≤ nodes ground.now }
{
    match ground {
        Ground::Const(_) | Ground::Leaf(_) => 1,
        Ground::Op(_, items, _) | Ground::Mux(items) | Ground::Fit(_, _, items) => {
            count_all(items.as_slice()).saturating_add(1)
        }
        Ground::Load(_, _, items) => count_all(items.as_slice()).saturating_add(1),
        Ground::Select(index, items) => {
            let operands = count_all(index.as_slice()).saturating_add(count_all(items.as_slice()));
            operands.saturating_add(1)
        }
        Ground::Indexed(numbers, indices, _) => {
            let leaves = u32::try_from(numbers.count()).unwrap_or(u32::MAX);
            let operands = count_all(indices.as_slice()).saturating_add(leaves);
            operands.saturating_add(1)
        }
    }
}

/// The nodes of expressions.
#[cycle(counted)]
fn count_all(grounds: &[Ground]) -> u32
    ensures { result ≤ sum (map nodes grounds.now) }
{
    let mut count: u32 = 0;
    for ground in grounds {
        count = count_nodes(ground).saturating_add(count);
    }
    count
}
