//! What sinks need themselves, as lists of numbers.

ghost use Rattle.std.specs.Prelude.{◌≡◌, ◌++◌, [], ◌∷◌, length, map, slice_get, flat_map, Some, IfOk, OnOk};
ghost use Rattle.ground_net.specs.Cones.{needs, register_needs, memory_needs, port_needs, reads_need, or_no_leaf, mentioned_by_reset};
ghost use Rattle.comb_order.specs.Spreads.{assignments_among};
ghost use Rattle.comb_order.specs.Spreading.{IsBegun, Tells};
ghost use Rattle.cone_cutter.specs.Rows.{sink_of, TellsNeeds};

use crate::sinks::SinkAt;
use bit_words::List;
use comb_order::{Spread, push_driver, push_leaf, push_leaves, push_told};
use ground_net::{Leaf, Net, NetMemory, NetPort, NetRegister, NetReset, NetWrite};
use std::alloc::{AllocError, Global};

/// For each sink a row that tells the assignments that it needs itself.
pub fn needs_of(
    alloc: Global,
    spread: &mut Spread,
    net: &Net,
    sinks: &[SinkAt],
) -> Result<Vec<List<u32>>, AllocError>
    requires { IsBegun net.now.leaves spread.old }
    ensures { IfOk result (λ rows. TellsNeeds net.now (map sink_of sinks.now) spread.old spread.new rows.items) }
{
    let mut rows = Vec::new(alloc);
    for sink in sinks {
        let mut row = List::new(alloc);
        push_needs(alloc, spread, &mut row, net, *sink)?;
        rows.push(row)?;
    }
    Ok(rows)
}

/// Adds what a sink needs itself.
fn push_needs(
    alloc: Global,
    spread: &mut Spread,
    row: &mut List<u32>,
    net: &Net,
    sink: SinkAt,
) -> Result<(), AllocError>
    requires { IsBegun net.now.leaves spread.old }
    ensures { OnOk result (Tells net.now.leaves (needs net.now (sink_of sink)) spread.old row.old spread.new row.new) }
{
    let leaves = net.leaves.as_slice();
    match sink {
        SinkAt::Watched(leaf) => push_leaf(row, leaves, leaf),
        SinkAt::Register(place) => match net.registers.get(place) {
            Some(register) => push_register(alloc, spread, row, net, register),
            None => Ok(()),
        },
        SinkAt::Memory(place) => match net.memories.get(place) {
            Some(memory) => push_memory(row, leaves, memory),
            None => Ok(()),
        },
    }
}

/// Adds what a register needs: what its driver and its reset mention.
fn push_register(
    alloc: Global,
    spread: &mut Spread,
    row: &mut List<u32>,
    net: &Net,
    register: &NetRegister,
) -> Result<(), AllocError>
    requires { IsBegun net.now.leaves spread.old }
    ensures { OnOk result (Tells net.now.leaves (register_needs net.now register.now) spread.old row.old spread.new row.new) }
{
    push_driver(alloc, spread, row, net, register.leaf as usize)?;
    push_reset(alloc, spread, row, net.leaves.as_slice(), &register.reset)
}

/// Adds what a reset mentions.
fn push_reset(
    alloc: Global,
    spread: &mut Spread,
    row: &mut List<u32>,
    leaves: &[Leaf],
    reset: &Option<NetReset>,
) -> Result<(), AllocError>
    requires { IsBegun leaves.now spread.old }
    ensures { OnOk result (Tells leaves.now (mentioned_by_reset reset.now) spread.old row.old spread.new row.new) }
{
    match reset {
        Some(reset) => {
            push_told(alloc, spread, row, leaves, &reset.reset)?;
            push_told(alloc, spread, row, leaves, &reset.init)
        }
        None => Ok(()),
    }
}

/// Adds what the ports of a memory need.
fn push_memory(row: &mut List<u32>, leaves: &[Leaf], memory: &NetMemory) -> Result<(), AllocError>
    ensures { OnOk result (row.new ≡ row.old ++ assignments_among leaves.now (memory_needs memory.now)) }
{
    for port in memory.ports.as_slice() {
        push_port(row, leaves, port)?;
    }
    Ok(())
}

/// Adds what a port needs.
fn push_port(row: &mut List<u32>, leaves: &[Leaf], port: &NetPort) -> Result<(), AllocError>
    ensures { OnOk result (row.new ≡ row.old ++ assignments_among leaves.now (port_needs port.now port.now.write)) }
{
    match &port.write {
        Some(write) => push_writer(row, leaves, port, write),
        None => push_reader(row, leaves, port),
    }
}

/// Adds what a port that writes needs: all of its leaves but the read data.
fn push_writer(
    row: &mut List<u32>,
    leaves: &[Leaf],
    port: &NetPort,
    write: &NetWrite,
) -> Result<(), AllocError>
    ensures { OnOk result (row.new ≡ row.old ++ assignments_among leaves.now (port_needs port.now (Some write.now))) }
{
    push_leaf(row, leaves, port.addr)?;
    push_leaf(row, leaves, port.en)?;
    if let Some(mode) = port.mode {
        push_leaf(row, leaves, mode)?;
    }
    push_leaves(row, leaves, write.leaves.as_slice())?;
    push_leaves(row, leaves, write.masks.as_slice())
}

/// Adds what a port that only reads needs, where it keeps what it has read.
fn push_reader(row: &mut List<u32>, leaves: &[Leaf], port: &NetPort) -> Result<(), AllocError>
    ensures { OnOk result (row.new ≡ row.old ++ assignments_among leaves.now (reads_need port.now port.now.read)) }
{
    match &port.read {
        Some(read) if read.captured => {
            push_leaf(row, leaves, port.addr)?;
            push_leaf(row, leaves, port.en)
        }
        _ => Ok(()),
    }
}
