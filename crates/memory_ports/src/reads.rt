//! What the ports of memories read.

ghost use Rattle.std.specs.Prelude.{◌≡◌, ◌∷◌, [], flat_map, replicate, length, Some, None, IfOk, OnOk, if◌then◌else◌};
ghost use Rattle.memory_ports.specs.Placing.{zero_bit, reading, load_of, reads_of_port, data_in};
ghost use Rattle.memory_ports.specs.Keeping.{Marks};

use bit_words::{Kind, List, Value};
use ground_net::{FlatCircuit, Ground, GroundMemory, NetPort, NetRead};
use std::alloc::{AllocError, Global};

/// What a leaf shows of a memory.
#[derive(Drop)]
pub enum ReadData {
    /// Data of the same cycle: this load.
    Load(Ground),
    /// Data that a port has read at the end of the cycle before.
    Captured,
}

/// What each leaf shows of a memory, where it shows what a port reads.
pub fn read_data(alloc: Global, flat: &FlatCircuit) -> Result<Vec<Option<ReadData>>, AllocError>
    ensures { IfOk result (λ marks. marks.items ≡ data_in flat.now) }
{
    let mut marks = no_data(alloc, flat.leaves.len())?;
    for (number, memory) in flat.memories.as_slice().iter().enumerate() {
        mark_memory(alloc, &mut marks, number, memory)?;
    }
    Ok(marks)
}

/// No leaf shows anything.
fn no_data(alloc: Global, count: usize) -> Result<Vec<Option<ReadData>>, AllocError>
    ensures { IfOk result (λ marks. marks.items ≡ replicate count None) }
{
    let mut marks = Vec::new(alloc);
    for _ in 0..count {
        marks.push(None)?;
    }
    Ok(marks)
}

/// Marks the leaves that show what the ports of a memory read.
fn mark_memory(
    alloc: Global,
    marks: &mut Vec<Option<ReadData>>,
    number: usize,
    memory: &GroundMemory,
) -> Result<(), AllocError>
    ensures { OnOk result (Marks (flat_map (λ port. reads_of_port number port port.read) memory.now.ports) marks.old.items marks.new.items) }
{
    let Ok(number) = u32::try_from(number) else {
        return Err(AllocError);
    };
    for port in memory.ports.as_slice() {
        mark_port(alloc, marks, number, port)?;
    }
    Ok(())
}

/// Marks the leaves that show what a port of a memory of this number reads.
fn mark_port(
    alloc: Global,
    marks: &mut Vec<Option<ReadData>>,
    memory: u32,
    port: &NetPort,
) -> Result<(), AllocError>
    ensures { OnOk result (Marks (reads_of_port memory port.now port.now.read) marks.old.items marks.new.items) }
{
    match &port.read {
        Some(read) => mark_read(alloc, marks, memory, port, read),
        None => Ok(()),
    }
}

/// Marks the leaves that show these data of a port.
fn mark_read(
    alloc: Global,
    marks: &mut Vec<Option<ReadData>>,
    memory: u32,
    port: &NetPort,
    read: &NetRead,
) -> Result<(), AllocError>
    ensures { OnOk result (Marks (reads_of_port memory port.now (Some read.now)) marks.old.items marks.new.items) }
{
    for (element, leaf) in read.leaves.as_slice().iter().enumerate() {
        let shown = data_of(alloc, memory, element, port, read.captured)?;
        mark_leaf(marks, *leaf, shown);
    }
    Ok(())
}

/// The leaf shows these data.
fn mark_leaf(marks: &mut Vec<Option<ReadData>>, leaf: u32, shown: ReadData)
    ensures { Marks ((leaf, shown) ∷ []) marks.old.items marks.new.items }
{
    if (leaf as usize) < marks.len() {
        marks[leaf as usize] = Some(shown);
    }
}

/// The data of a leaf of the elements of a memory that a port reads.
fn data_of(
    alloc: Global,
    memory: u32,
    element: usize,
    port: &NetPort,
    captured: bool,
) -> Result<ReadData, AllocError>
    ensures { IfOk result (λ shown. shown ≡ (if captured then ReadData.Captured else ReadData.Load (load_of memory element port.now))) }
{
    if captured {
        return Ok(ReadData::Captured);
    }
    let Ok(element) = u32::try_from(element) else {
        return Err(AllocError);
    };
    let load = load_of_port(alloc, memory, element, port)?;
    Ok(ReadData::Load(load))
}

/// The load of a leaf of the elements of a memory at a port's address, where the port reads.
fn load_of_port(
    alloc: Global,
    memory: u32,
    element: u32,
    port: &NetPort,
) -> Result<Ground, AllocError>
    ensures { IfOk result (λ load. load ≡ load_of memory element port.now) }
{
    let condition = condition_of(alloc, port.en, port.mode)?;
    let mut items = List::new(alloc);
    items.push(Ground::Leaf(port.addr))?;
    items.push(condition)?;
    Ok(Ground::Load(memory, element, items))
}

/// The condition under which a port reads: `en` is 1, and a readwriter's `wmode` is 0.
fn condition_of(alloc: Global, en: u32, mode: Option<u32>) -> Result<Ground, AllocError>
    ensures { IfOk result (λ condition. condition ≡ reading en mode) }
{
    let Some(wmode) = mode else {
        return Ok(Ground::Leaf(en));
    };
    let mut items = List::new(alloc);
    items.push(Ground::Leaf(wmode))?;
    items.push(Ground::Const(zero()))?;
    items.push(Ground::Leaf(en))?;
    Ok(Ground::Mux(items))
}

/// 0 of one bit.
fn zero() -> Value
    ensures { result ≡ zero_bit }
{
    Value {
        kind: Kind::Unsigned,
        width: 1,
        bits: 0,
    }
}
